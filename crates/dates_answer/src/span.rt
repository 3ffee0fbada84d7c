//! Spans: whole numbers of days, weeks, months or years.

/// What a span counts.
#[derive(Clone, Copy)]
pub enum Unit {
    /// Days, `d`.
    Days,
    /// Weeks, `w`.
    Weeks,
    /// Months, `m`.
    Months,
    /// Years, `y`.
    Years,
}

/// A whole number of a unit, below 0 where it goes back.
#[derive(Clone, Copy)]
pub struct Span {
    /// How many.
    pub count: i64,
    /// Of what.
    pub unit: Unit,
}

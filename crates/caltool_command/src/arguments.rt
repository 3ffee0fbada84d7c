//! The parts that several commands share.

/// A year, a month and a day of the month, as numbers. The date can be invalid.
#[derive(Clone, Copy, Debug, PartialEq, Eq)]
pub struct CalendarDate {
    /// The year, proleptic Gregorian.
    pub year: i32,
    /// The month, from 1 for January.
    pub month: u32,
    /// The day of the month, from 1.
    pub day: u32,
}

/// A time of day, as numbers. The time can be invalid.
#[derive(Clone, Copy, Debug, PartialEq, Eq)]
pub struct ClockTime {
    /// The hour, from 0.
    pub hour: u32,
    /// The minute, from 0.
    pub minute: u32,
    /// The second, from 0.
    pub second: u32,
    /// The nanoseconds past the second. From 1,000,000,000 on they lie in a leap second.
    pub nanosecond: u32,
}

/// A date and a time of day, as numbers. Both can be invalid.
#[derive(Clone, Copy, Debug, PartialEq, Eq)]
pub struct DateAndTime {
    /// The date.
    pub date: CalendarDate,
    /// The time of day.
    pub time: ClockTime,
}

/// A number of months, later or earlier.
#[derive(Clone, Copy, Debug, PartialEq, Eq)]
pub enum MonthSpan {
    /// This number of months later.
    Later(u32),
    /// This number of months earlier.
    Earlier(u32),
}

//! `HolidayError`: what is wrong with a list of holidays.

/// The first wrong holiday of a list, by its place in the list, counted from 0.
#[derive(Clone, Copy, PartialEq, Eq, Hash, Debug)]
pub enum HolidayError {
    /// The holiday at this place is not later than the one before it, and is not on the weekend.
    NotRising(usize),
    /// The holiday at this place is on the weekend.
    OnWeekend(usize),
}

//! The numbers that stand for dates, date-times, times of day and durations in C, and what they say.
//!
//! A date is its day number: 1 is 1 January of year 1. The least `i32` stands for no date. Weekdays count from 1 for Monday to
//! 7 for Sunday. A set of weekdays is a number with one binary digit for each, the lowest for Monday.
#![tactic(auto)]

mod answers;
mod arguments;
mod date_time_numbers;
mod time_numbers;
mod version;
mod written;

pub use answers::{NONE, number_or_none};
pub use arguments::{date_of, set_of, weekday_of};
pub use date_time_numbers::{
    CalendarDateTime, CalendarDuration, date_time_at, date_time_of, duration_of, duration_or_none,
    numbers_or_none,
};
pub use time_numbers::{CalendarTimeOfDay, time_of, time_or_none};
pub use version::write_version;
pub use written::write_over;

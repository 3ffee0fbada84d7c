//! Durations and times of day, to the nanosecond.
//!
//! A [`TimeDelta`] is one whole number of nanoseconds, and its functions compute with that number. A [`NaiveTime`] is a
//! second of the day and a fraction of a second. A time in a leap second keeps that leap second when a duration moves
//! it. [`Timelike`] reads and replaces the fields of a value that has a time of day.
#![tactic(auto)]

mod carry;
pub mod law;
mod lengths;
mod naive_time;
mod time_delta;
mod timelike;

pub use lengths::SECS_PER_DAY;
pub use naive_time::NaiveTime;
pub use time_delta::TimeDelta;
pub use timelike::Timelike;

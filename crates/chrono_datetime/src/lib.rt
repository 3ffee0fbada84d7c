//! Date-times: a date and a time of day, with no time zone.
//!
//! A [`NaiveDateTime`] is a [`NaiveDate`] and a [`NaiveTime`]. A duration ([`TimeDelta`]) moves it. [`AndTime`] puts a date
//! and a time together.
//!
//! A user lists this crate alone: it passes on the names of the crates below.
#![tactic(auto)]

mod and_time;
pub mod law;
mod naive_date_time;

pub use and_time::AndTime;
pub use chrono_clock::SECS_PER_DAY;
pub use chrono_naive::{
    Datelike, Days, FIRST_DAY, IsoWeek, LAST_DAY, MAX_DATE, MAX_YEAR, MIN_DATE, MIN_YEAR, Month,
    Months, NaiveDate, NaiveDateDaysIterator, NaiveDateWeeksIterator, NaiveTime, NaiveWeek,
    OutOfRange, RisingDates, TimeDelta, Timelike, Weekday, WeekdaySet, WeekdaySetIter,
};
pub use naive_date_time::{MAX_DATETIME, MIN_DATETIME, NaiveDateTime};

//! Cron schedules with seconds: whether one is due at a second, and the next and the last second at which it is due.
//!
//! ```
//! use chrono_datetime::{AndTime, NaiveDate};
//! let schedule = read_timed_schedule(Dialect::Seconds, b"*/15 30 4 * * *").ok()?;
//! schedule.next_after(NaiveDate::from_ymd_opt(2024, 3, 1)?.and_hms_opt(4, 30, 0)?) // Some(2024-03-01T04:30:15)
//! ```
//!
//! [`read_timed_schedule`] parses a schedule in a [`Dialect`], with five fields, six or seven.
//! A [`TimedSchedule`] is a schedule of `chrono_cron`, the seconds of a minute at which it is due, and its years. As there, date-times are naive.
#![tactic(auto)]

mod dialect;
mod dialect_field;
mod field_form;
mod field_reader;
pub mod law;
mod quartz_days;
mod quartz_form;
mod quartz_reader;
mod robfig_form;
mod robfig_reader;
mod span_set;
mod timed_dues;
mod timed_error;
mod timed_reader;
mod timed_schedule;
mod word_errors;
mod words;
mod year_search;
mod year_set;

pub use chrono_cron::{Schedule, read_schedule};
pub use chrono_sets::NumberSet;
pub use dialect::Dialect;
pub use timed_dues::TimedDues;
pub use timed_error::TimedError;
pub use timed_reader::read_timed_schedule;
pub use timed_schedule::TimedSchedule;
pub use year_set::YearSet;

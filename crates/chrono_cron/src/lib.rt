//! Cron schedules: whether one is due at a moment, and the next and the last moment at which it is due.
//!
//! ```
//! use chrono_datetime::{AndTime, NaiveDate};
//! let schedule = read_schedule(b"0 9 * * mon-fri").ok()?;
//! schedule.next_after(NaiveDate::from_ymd_opt(2024, 3, 1)?.and_hms_opt(9, 0, 0)?) // Some(2024-03-04T09:00:00)
//! ```
//!
//! [`read_schedule`] parses a schedule, and says which dialect it reads.
//! Days and minutes are those of `chrono_datetime`'s naive date-times. There is no time zone and no daylight-saving time.
//! A layer with time zones maps these moments. It decides what to do with one that comes twice or not at all.
//!
//! A field `*` lists every number. If a field of days begins with `*`, `either` is false (the rule of cronie). If the minutes or the hours do,
//! `follows_clock` is true.
#![tactic(auto)]

mod field_sets;
pub mod law;
mod named_days;
mod schedule;
mod search;
mod text;

pub use chrono_sets::NumberSet;
pub use field_sets::FieldSets;
pub use named_days::MonthDays;
pub use schedule::Schedule;
pub use search::due_moments::Dues;
pub use text::field::read_field;
pub use text::nicknames::nickname_meaning;
pub use text::number_names::Names;
pub use text::schedule_error::{ScheduleError, ScheduleFault, ScheduleField};
pub use text::schedule_reader::read_schedule;

//! Cron schedules in a zone: at which instants one fires, across the hours that a clock skips and those that it shows twice.
//!
//! ```
//! let berlin = FixedOffset::east_opt(3_600)?;
//! let schedule = read_schedule(b"30 2 * * *").ok()?;
//! let nightly = ZonedSchedule::new(schedule, berlin, Policy::vixie(&schedule));
//! let start = berlin.with_ymd_and_hms(2024, 3, 30, 12, 0, 0).single()?;
//! nightly.next_after(start) // Some(2024-03-31T02:30:00+01:00)
//! ```
//!
//! A [`ZonedSchedule`] is a schedule, a zone and a [`Policy`]. The zone is any [`TimeZone`](chrono_zoned::TimeZone).
#![tactic(auto)]

pub mod law;
mod policy;
mod schedule;
mod search;
mod zoned_text;

pub use chrono_cron::{Schedule, ScheduleError, read_schedule};
pub use chrono_zoned::{DateTime, FixedOffset, InZone, TimeZone};
pub use policy::{Fold, Gap, Policy};
pub use schedule::ZonedSchedule;
pub use search::firings::Firings;
pub use zoned_text::{ZonedText, read_zoned_text};

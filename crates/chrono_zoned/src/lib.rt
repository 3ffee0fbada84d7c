//! Instants in a zone: what a zone's clock shows at an instant, and the instants at which it shows a local time.
//!
//! ```
//! use chrono_datetime::{AndTime, Days, NaiveDate};
//! let india = FixedOffset::east_opt(19_800)?;
//! let local = NaiveDate::from_ymd_opt(2024, 2, 29)?.and_hms_opt(1, 30, 0)?;
//! let start = india.from_local_datetime(&local).single()?;
//! start // 2024-02-29T01:30:00+05:30
//! start.to_utc() // 2024-02-28T20:00:00+00:00
//! start.checked_add_days(Days::new(1)) // Some(2024-03-01T01:30:00+05:30)
//! ```
//!
//! A [`DateTime`] is an instant and a zone. A [`TimeZone`] is [`Utc`], a [`FixedOffset`], or a type of your own.
#![tactic(auto)]

mod date_time;
mod in_zone;
pub mod law;
mod mapped_local_time;
mod stretch;
mod time_zone;
mod zones;

pub use chrono_instant::{AddOffset, FixedOffset, FromTimestamp, Timestamp};
pub use date_time::DateTime;
pub use in_zone::InZone;
pub use mapped_local_time::MappedLocalTime;
pub use stretch::Stretch;
pub use time_zone::TimeZone;
pub use zones::Utc;

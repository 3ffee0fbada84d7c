//! Instants: date-times in UTC as seconds from 1 January 1970, and offsets of local time from UTC.
//!
//! ```
//! use chrono_datetime::{AndTime, NaiveDate, NaiveDateTime};
//! let start = NaiveDateTime::from_timestamp(1_709_199_000, 0)?;
//! start // 2024-02-29T09:30:00
//! start.timestamp() // 1709199000
//! start.checked_add_offset(FixedOffset::east_opt(19_800)?) // Some(2024-02-29T15:00:00)
//! ```
//!
//! A day has 86,400 seconds here, as in POSIX. A leap second is a second of its minute's last one, so its nanoseconds
//! are 1,000,000,000 or more.
#![tactic(auto)]

mod add_offset;
mod fixed_offset;
mod from_timestamp;
pub mod law;
mod timestamp;

pub use add_offset::AddOffset;
pub use fixed_offset::{FixedOffset, read_offset};
pub use from_timestamp::FromTimestamp;
pub use timestamp::Timestamp;

//! A time zone as a POSIX rule, which sets the clock on two days of each year.
//!
//! ```
//! use chrono_datetime::Weekday;
//! // New York is set ahead at 02:00 of the second Sunday of March, and back at 02:00 of the first Sunday of November.
//! let ahead = RuleDay::Week { month: 3, week: 2, weekday: Weekday::Sun };
//! let back = RuleDay::Week { month: 11, week: 1, weekday: Weekday::Sun };
//! let daylight = Daylight {
//!     offset: FixedOffset::west_opt(14_400)?,
//!     begins: Change::new(ahead, 7_200)?,
//!     ends: Change::new(back, 7_200)?,
//! };
//! let new_york = ZoneRule { standard: FixedOffset::west_opt(18_000)?, daylight: Some(daylight) };
//! ahead.date_in(2024) // Some(2024-03-10)
//! new_york.offset_of_instant(1_710_053_999) // -05:00
//! new_york.offset_of_instant(1_710_054_000) // -04:00
//! // 02:30 of 10 March 2024 does not exist, and 01:30 of 3 November comes twice.
//! new_york.offsets_of_local(1_710_037_800) // None
//! new_york.offsets_of_local(1_730_597_400) // Ambiguous(-04:00, -05:00)
//! ```
//!
//! A rule is a [`TimeZone`](chrono_zoned::TimeZone), so a [`DateTime`](chrono_zoned::DateTime) can be in it. It holds in every year.
//! The source is POSIX.1-2017, Base Definitions, section 8.3, `TZ`, with the hours of RFC 9636, section 3.3.1.
#![tactic(auto)]

mod change;
pub mod law;
mod mean_year;
mod rule;
mod rule_day;
mod time_zone;
mod turn;

pub use change::Change;
pub use chrono_zoned::{FixedOffset, MappedLocalTime, Stretch};
pub use rule::{Daylight, ZoneRule};
pub use rule_day::RuleDay;

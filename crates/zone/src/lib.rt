//! A time zone as it is kept in files: a table of its changes, and the rule that goes on behind them.
//!
//! ```
//! use chrono_datetime::Weekday;
//! // Berlin: daylight time from the last Sunday of March to that of October, each year since 1996.
//! let winter = FixedOffset::east_opt(3_600)?;
//! let summer = FixedOffset::east_opt(7_200)?;
//! let begins = Change::new(RuleDay::Week { month: 3, week: 5, weekday: Weekday::Sun }, 7_200)?;
//! let ends = Change::new(RuleDay::Week { month: 10, week: 5, weekday: Weekday::Sun }, 10_800)?;
//! let rule = ZoneRule { standard: winter, daylight: Some(Daylight { offset: summer, begins, ends }) };
//! let rows = [Row { second: 828_234_000, offset: summer }, Row { second: 846_378_000, offset: winter }];
//! let berlin = Zone::new(winter, &rows, Some(rule)).ok()?;
//! berlin.offset_of_instant(846_377_999) // +02:00
//! berlin.offset_of_instant(846_378_000) // +01:00
//! // 02:30 of 31 March 2024 does not exist.
//! berlin.offsets_of_local(1_711_852_200) // None
//! ```
//!
//! [`Zone::new`] checks the parts once. A zone is a [`TimeZone`](chrono_zoned::TimeZone), so a [`DateTime`](chrono_zoned::DateTime)
//! can be in it. The source is RFC 9636, section 3.3.
#![tactic(auto)]

mod fault;
pub mod law;
mod time_zone;
mod zone;

pub use chrono_zoned::{FixedOffset, MappedLocalTime, Stretch};
pub use fault::ZoneFault;
pub use zone::Zone;
pub use zone_rule::{Change, Daylight, RuleDay, ZoneRule};
pub use zone_table::Row;

//! Rules of calendars in a zone: the texts of rules over date-times, and the recurrence that a calendar's text means.
//!
//! ```
//! let mut buffer = [0; 64];
//! let rule = read_timed_rule(b"FREQ=DAILY;BYHOUR=9,17;COUNT=3", &mut buffer).ok()?;
//! (rule.times.hours.contains(17), rule.bound) // (true, Count(3))
//! ```
//!
//! [`read_timed_rule`] reads a rule with times of day, such as BYHOUR and FREQ=HOURLY, and with an UNTIL in UTC. [`recurrence_of`] turns what
//! [`read_calendar_text`] reads into a [`ZonedRecurrence`], which gives instants.
#![tactic(auto)]

mod calendar_recurrence;
mod clock_part;
mod instant_list;
pub mod law;
mod part_value;
mod recurrence_error;
mod text_of_days;
mod timed_error;
mod timed_reader;
mod timed_rule;

pub use calendar_recurrence::recurrence_of;
pub use calendar_text::{CalendarText, read_calendar_text};
pub use chrono_rules::{Rule, RuleError};
pub use clock_part::ClockPart;
pub use recurrence_error::CalendarRuleError;
pub use timed_error::TimedRuleError;
pub use timed_reader::read_timed_rule;
pub use timed_rule::TimedRule;
pub use zoned_rules::{Bound, ClockSteps, ClockUnit, DayTimes, ZonedRecurrence, ZonedRule};

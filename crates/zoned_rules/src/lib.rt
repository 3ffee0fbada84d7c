//! Recurrence rules of RFC 5545 in a zone: at which instants one recurs, across the hours that a clock skips and those that it shows twice.
//!
//! ```
//! use chrono_datetime::{AndTime, NaiveDate};
//! let rule = Rule::new(Frequency::Weekly);
//! let start = NaiveDate::from_ymd_opt(2024, 1, 1)?.and_hms_opt(9, 30, 0)?;
//! let local = LocalRule::new(rule, DayTimes::of_start(), start)?;
//! let weekly = ZonedRule::new(local, FixedOffset::east_opt(3_600)?, Bound::Never);
//! weekly.next_after(FixedOffset::east_opt(3_600)?.from_utc_datetime(&start)?) // Some(2024-01-08T09:30:00+01:00)
//! ```
//!
//! A [`LocalRule`] says at which local times a rule recurs. A [`ZonedRule`] is a local rule in a zone, with COUNT or UNTIL.
//! The zone is any [`TimeZone`](chrono_zoned::TimeZone). A local time stands for the instant that [`instant_of`] finds.
//!
//! [`read_rule`] reads the rule of days. It refuses BYHOUR, BYMINUTE and BYSECOND, which go into [`DayTimes`]. It refuses HOURLY, MINUTELY and
//! SECONDLY too, which go into [`ClockSteps`].
//!
//! A local time that the clock skips gives an instance here. RFC 5545 (3.3.10) says in one place that it does, and in another that it does not.
#![tactic(auto)]

mod bound;
mod clock_steps;
mod counted_days;
mod day_times;
pub mod law;
mod listed_instants;
mod local_instant;
mod local_rule;
mod search;
mod zoned_recurrence;
mod zoned_rule;

pub use bound::Bound;
pub use chrono_rules::{Frequency, Rule, read_rule};
pub use chrono_zoned::{DateTime, FixedOffset, InZone, TimeZone};
pub use clock_steps::{ClockSteps, ClockUnit};
pub use day_times::DayTimes;
pub use local_instant::instant_of;
pub use local_rule::LocalRule;
pub use search::zoned_instances::ZonedInstances;
pub use search::zoned_members::ZonedMembers;
pub use zoned_recurrence::ZonedRecurrence;
pub use zoned_rule::ZonedRule;

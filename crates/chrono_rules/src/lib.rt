//! Recurrence rules of RFC 5545 over days: what a rule says, and which days are its instances.
//!
//! ```
//! use chrono_datetime::NaiveDate;
//! let rule = read_rule(b"FREQ=MONTHLY;BYDAY=-1FR").ok()?;
//! let start = NaiveDate::from_ymd_opt(2024, 1, 1)?;
//! rule.next_after(start, start) // Some(2024-01-26)
//! ```
//!
//! A [`Rule`] has a fixed size and allocates no memory. Days are the dates of `chrono_datetime`.
//! There is no time zone.
#![tactic(auto)]

mod by_parts;
mod instances;
pub mod law;
mod rule;
mod search;
mod text;
mod weekday_places;

pub use chrono_sets::{NumberSet, PlaceSet};
pub use rule::{End, Frequency, Rule};
pub use search::instance_date_times::InstanceDateTimes;
pub use search::instance_iterator::Instances;
pub use search::recurrence::Recurrence;
pub use search::recurrence::recurrence_iterator::RecurrenceDays;
pub use text::month_list::read_months;
pub use text::number_list::{BothEnds, read_month_days, read_weeks};
pub use text::rule_error::{RuleError, RuleFault, RulePart};
pub use text::rule_reader::read_rule;
pub use text::weekday_list::read_weekdays;
pub use text::year_day_list::{YearEnds, read_year_days};
pub use weekday_places::WeekdayPlaces;

//! Units of the proleptic Gregorian calendar: weekdays, sets of weekdays, months, and the leap rule.
//!
//! Each contract defines its value by counting. It counts through the cycle of seven days or twelve months, or through the
//! members of a set. The lengths of months and years follow from the leap rule.
#![tactic(auto)]

pub mod law;
mod month;
mod months;
mod names;
mod out_of_range;
mod text;
mod weekday;
mod weekday_set;
mod weekday_set_iter;
pub mod year;

pub use month::Month;
pub use months::Months;
pub use out_of_range::OutOfRange;
pub use weekday::Weekday;
pub use weekday_set::WeekdaySet;
pub use weekday_set_iter::WeekdaySetIter;

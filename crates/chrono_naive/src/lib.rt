//! Dates of the proleptic Gregorian calendar, with no time zone.
//!
//! [`NaiveDate`] is a date, and [`Datelike`] has its fields. [`NaiveWeek`] and [`IsoWeek`] are weeks. [`Days`] and [`Months`]
//! are moves, as is [`TimeDelta`], a duration. [`RisingDates`] is a sorted list of dates, with its search.
#![tactic(auto)]

mod datelike;
mod days;
mod iso_week;
pub mod law;
mod naive_date;
mod naive_date_days_iterator;
mod naive_date_weeks_iterator;
mod naive_week;
mod rising_dates;

pub use chrono_calendar::ends::{FIRST_DAY, LAST_DAY};
pub use chrono_clock::{NaiveTime, TimeDelta, Timelike};
pub use chrono_units::year::{MAX_YEAR, MIN_YEAR};
pub use chrono_units::{Month, Months, OutOfRange, Weekday, WeekdaySet, WeekdaySetIter};
pub use datelike::Datelike;
pub use days::Days;
pub use iso_week::IsoWeek;
pub use naive_date::{MAX_DATE, MIN_DATE, NaiveDate};
pub use naive_date_days_iterator::NaiveDateDaysIterator;
pub use naive_date_weeks_iterator::NaiveDateWeeksIterator;
pub use naive_week::NaiveWeek;
pub use rising_dates::RisingDates;

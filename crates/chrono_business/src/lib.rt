//! Business days: which days are open, the next one, the `n`-th one, and how many lie between two dates.
//! Also where a closed day moves to, and the part of a year between two dates (day counts).
//!
//! ```
//! use chrono_datetime::{NaiveDate, Weekday, WeekdaySet};
//! let weekend = WeekdaySet::from_array([Weekday::Sat, Weekday::Sun]);
//! let calendar = Calendar::new(weekend, &[]);
//! calendar.add_open_days(NaiveDate::from_ymd_opt(2024, 3, 29)?, 1) // Some(2024-04-01)
//! ```
//!
//! A [`Calendar`] is a weekend and a slice of holidays. It allocates no memory.
//! Every result is what counting day by day gives.
//! [`open_days`](Calendar::open_days) counts whole weeks and searches the holidays once for each end.
//! [`nth_open_from`](Calendar::nth_open_from) needs two searches, and [`is_open`](Calendar::is_open) one.
#![tactic(auto)]

mod calendar;
mod computus;
mod day_count;
mod holiday_error;
mod holiday_list;
mod holiday_rule;
mod known_years;
pub mod law;
mod open_days_iterator;
mod public_holidays;
mod roll;
mod workweek;

pub use calendar::Calendar;
pub use computus::easter;
pub use day_count::{
    Fraction, actual_360, actual_365_fixed, actual_actual_isda, thirty_360, thirty_e_360,
};
pub use holiday_error::HolidayError;
pub use holiday_list::{holidays_of, without_weekends};
pub use holiday_rule::{HolidayDay, HolidayRule, Moved};
pub use known_years::{KnownYears, first_known_year};
pub use open_days_iterator::OpenDaysIterator;
pub use public_holidays::{
    england_and_wales, fedwire, france, germany, japan, nyse, target, us_federal,
};
pub use roll::Roll;

//! `Calendar`: which days are closed.
//!
//! `open_day_numbers` numbers the open days. `open_days`, `rolls` and `open_days_of_month` have the public functions.
//! `known_days` has them for years of which the holidays are known. `valid_holidays` makes a calendar of holidays that may be wrong.
ghost use Rattle.std.specs.Prelude.{◌≡◌};
ghost use Rattle.chrono_business.specs.OpenDays.{AreHolidays};

mod joined;
mod known_days;
mod open_day_numbers;
mod open_days;
mod open_days_of_month;
mod rolls;
mod valid_holidays;

use crate::workweek::Workweek;
use chrono_datetime::{NaiveDate, RisingDates, WeekdaySet};
use std::marker::Model;

/// A weekend, and the holidays that are not on it.
///
/// The holidays are a slice of the caller's. Contracts see a calendar as a record `Closed` of both.
#[derive(Drop)]
pub struct Calendar<'a> {
    week: Workweek,
    holidays: RisingDates<'a>,
}

impl<'a> Model for Calendar<'a> {
    ghost use Rattle.chrono_business.specs.OpenDays.{AreHolidays, Closed};

    ghost Value = { Closed };

    ghost view = { λ c. record { weekend = c.week; holidays = c.holidays } };

    ghost invariant = { λ c. AreHolidays c.week c.holidays };
}

impl<'a> Calendar<'a> {
    /// Returns the calendar that is closed on the days of `weekend` and on `holidays`.
    ///
    /// Requires that `holidays` are strictly increasing, and that none is on the weekend.
    /// [`try_new`](Self::try_new) checks holidays that may not be so.
    ///
    /// ```
    /// use chrono_datetime::{NaiveDate, Weekday, WeekdaySet};
    /// let holidays = [NaiveDate::from_ymd_opt(2024, 1, 1)?];
    /// let calendar = Calendar::new(WeekdaySet::from_array([Weekday::Sat, Weekday::Sun]), &holidays);
    /// calendar.is_open(holidays[0]) // false
    /// ```
    #[inline]
    pub fn new(weekend: WeekdaySet, holidays: &'a [NaiveDate]) -> Calendar<'a>
        requires { AreHolidays weekend holidays.now }
        ensures { result ≡ record { weekend = weekend; holidays = holidays.now } }
    {
        Calendar {
            week: Workweek::new(weekend),
            holidays: RisingDates::new(holidays),
        }
    }
}

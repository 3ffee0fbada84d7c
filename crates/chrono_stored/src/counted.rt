//! The counted form of a date: its day number.

ghost use Rattle.std.specs.Prelude.{◌≡◌, ◌≤◌, SomeIff, pos, neg_ℤ};
ghost use Rattle.chrono_units.specs.Years.{IsYear};
ghost use Rattle.chrono_calendar.specs.Days.{IsOrdinalName, IsCalendarName, date_of_day, day_number_of_yo, day_number_of_ymd};

use crate::conversion::{days_before_day, days_before_year, year_and_ordinal};
use crate::iso_week::iso_year_and_week;
use crate::march::{day_number, day_number_within, months_and_day, months_later, year_month_day};
use crate::weekdays::days_after_monday;
use chrono_calendar::ends::{FIRST_DAY, LAST_DAY};
use chrono_calendar::{DayForm, Steps};
use chrono_units::Weekday;
use chrono_units::year::{is_leap_year, is_year, year_length};
use std::marker::Model;

/// A date of the proleptic Gregorian calendar, stored as its day number. 1 January of year 1 has the number 1.
///
/// Adding, subtracting and comparing days works on these numbers. Divisions give the year, the month, the day and the
/// weekday. Contracts see a form as its day number.
#[derive(Clone, Copy, PartialEq, Eq, PartialOrd, Ord, Hash, Debug)]
pub struct CountedForm {
    days: i32,
}

impl Model for CountedForm {
    ghost use Rattle.std.specs.Prelude.{ℤ};
    ghost use Rattle.chrono_calendar.specs.Days.{IsDate};

    ghost Value = { ℤ };

    ghost view = { λ a. a.days };

    ghost invariant = { λ a. IsDate a.days };

    ghost inverse = { λ n. record { days = n } };
}

impl CountedForm {
    /// The first date, -262143-01-01.
    pub const MIN: CountedForm = CountedForm { days: FIRST_DAY };

    /// The last date, +262142-12-31.
    pub const MAX: CountedForm = CountedForm { days: LAST_DAY };

    /// Returns the first date, whose day number is -95,746,129.
    ///
    /// ```
    /// use chrono_calendar::DayForm;
    /// CountedForm::min_value().year_month_day() // (-262143, 1, 1)
    /// ```
    #[inline]
    pub fn min_value() -> CountedForm
        ensures { result ≡ neg_ℤ (pos 95_746_129) }
    {
        CountedForm::MIN
    }

    /// Returns the last date, whose day number is 95,745,399.
    ///
    /// ```
    /// use chrono_calendar::DayForm;
    /// CountedForm::max_value().year_month_day() // (262142, 12, 31)
    /// ```
    #[inline]
    pub fn max_value() -> CountedForm
        ensures { result ≡ pos 95_745_399 }
    {
        CountedForm::MAX
    }

    // The date of an ordinal of a year, or `None` if the year has no such day.
    #[inline]
    fn of_ordinal(year: i32, ordinal: u32) -> Option<CountedForm>
        requires { IsYear year }
        ensures { SomeIff result (IsOrdinalName year ordinal) (day_number_of_yo year ordinal) }
    {
        if ordinal < 1 || (ordinal > 365 && ordinal > year_length(year)) {
            return None;
        }
        Some(CountedForm::at_ordinal(year, ordinal))
    }

    // The date of an ordinal name.
    #[inline]
    fn at_ordinal(year: i32, ordinal: u32) -> CountedForm
        requires year { IsYear year }
        requires exists { IsOrdinalName year ordinal }
        ensures { result ≡ day_number_of_yo year ordinal }
    {
        CountedForm {
            days: days_before_year(year) + ordinal as i32,
        }
    }
}

impl DayForm for CountedForm {
    ghost use Rattle.std.specs.Prelude.{ℤ, refl};

    ghost number = { λ n. n };

    ghost steps_of = { λ n. 0 };

    ghost no_step = { λ n h. refl };

    ghost one_form = { λ a b h. h };

    ghost in_order = { λ a b. refl };

    #[inline]
    fn from_yo(year: i32, ordinal: u32) -> Option<Self> {
        if !is_year(year) {
            return None;
        }
        CountedForm::of_ordinal(year, ordinal)
    }

    #[inline]
    fn from_ymd(year: i32, month: u32, day: u32) -> Option<Self> {
        let days = day_number(year, month, day)?;
        Some(CountedForm { days })
    }

    // The number is the date, so no step is taken.
    #[inline]
    fn from_day(days: i32, steps: &mut Steps) -> Option<Self>
        ensures date { result ≡ date_of_day days }
        ensures kept { steps.new ≡ steps.old }
    {
        let _ = steps;
        if days < FIRST_DAY || days > LAST_DAY {
            return None;
        }
        Some(CountedForm { days })
    }

    #[inline]
    fn day(&self) -> i32 {
        self.days
    }

    #[inline]
    fn year(&self) -> i32 {
        year_and_ordinal(self.days).0
    }

    #[inline]
    fn ordinal(&self) -> u32 {
        year_and_ordinal(self.days).1
    }

    #[inline]
    fn month_day(&self) -> (u32, u32) {
        let (_, month, day) = year_month_day(self.days);
        (month, day)
    }

    #[inline]
    fn year_ordinal(&self) -> (i32, u32) {
        year_and_ordinal(self.days)
    }

    #[inline]
    fn year_month_day(&self) -> (i32, u32, u32) {
        year_month_day(self.days)
    }

    #[inline]
    fn is_leap(&self) -> bool {
        is_leap_year(self.year())
    }

    #[inline]
    fn move_months(self, k: i64) -> Option<Self> {
        let (months, day) = months_and_day(self.days);
        let target = months_later(months, k)?;
        Some(CountedForm {
            days: day_number_within(target, day),
        })
    }

    #[inline]
    fn iso_name(&self) -> (i32, u32) {
        iso_year_and_week(self.days)
    }

    #[inline]
    fn weekday(&self) -> Weekday {
        days_after_monday(days_before_day(self.days))
    }
}

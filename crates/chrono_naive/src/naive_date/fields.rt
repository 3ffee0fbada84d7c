//! The fields of a date, read and replaced.
ghost use Rattle.std.specs.Prelude.{◌≡◌, Some};
ghost use Rattle.chrono_units.specs.Years.{IsYear};
ghost use Rattle.chrono_calendar.specs.Days.{IsDate, IsCalendarName, date_of_day, date_of_ymd, year_of, month_of, day_of};

use crate::datelike::Datelike;
use crate::iso_week::IsoWeek;
use crate::naive_date::NaiveDate;
use chrono_calendar::ends::LAST_DAY;
use chrono_calendar::{DayForm, forms};
use chrono_units::Weekday;

impl NaiveDate {
    /// Returns the year, the month and the day of the month, from one reading of the date. January is month 1,
    /// and the first day is 1. [`Datelike`] reads the three one by one.
    ///
    /// ```
    /// NaiveDate::from_ymd_opt(2024, 2, 29)?.year_month_day() // (2024, 2, 29)
    /// ```
    #[inline]
    pub fn year_month_day(&self) -> (i32, u32, u32)
        ensures year { result.0 ≡ year_of self.now }
        ensures month { result.1 ≡ month_of self.now }
        ensures day { result.2 ≡ day_of self.now }
        ensures in_range { IsYear result.0 }
        ensures exists { IsCalendarName result.0 result.1 result.2 }
        // The three name the date again.
        ensures names { date_of_ymd result.0 result.1 result.2 ≡ Some self.now }
    {
        prove!(self.day_number() <= LAST_DAY);
        self.form.year_month_day()
    }
}

impl Datelike for NaiveDate {
    ghost use Rattle.std.specs.Prelude.{[]};

    ghost number = { λ d. d };

    ghost rest = { λ _. [] };

    #[inline]
    fn year(&self) -> i32 {
        self.form.year()
    }

    #[inline]
    fn month(&self) -> u32 {
        self.form.month_day().0
    }

    #[inline]
    fn month0(&self) -> u32 {
        self.month() - 1
    }

    #[inline]
    fn day(&self) -> u32 {
        prove!(self.day_number() <= LAST_DAY);
        self.form.month_day().1
    }

    #[inline]
    fn day0(&self) -> u32 {
        self.day() - 1
    }

    #[inline]
    fn ordinal(&self) -> u32 {
        prove!(self.day_number() <= LAST_DAY);
        self.form.ordinal()
    }

    #[inline]
    fn ordinal0(&self) -> u32 {
        self.ordinal() - 1
    }

    #[inline]
    fn weekday(&self) -> Weekday {
        prove!(self.day_number() <= LAST_DAY);
        self.form.weekday()
    }

    #[inline]
    fn iso_week(&self) -> IsoWeek {
        let (year, week) = forms::iso_name(&self.form);
        IsoWeek::new(year, week)
    }

    #[inline]
    fn with_year(&self, year: i32) -> Option<NaiveDate> {
        let (_, month, day) = self.year_month_day();
        NaiveDate::from_ymd_opt(year, month, day)
    }

    #[inline]
    fn with_month(&self, month: u32) -> Option<NaiveDate> {
        let (year, _, day) = self.year_month_day();
        NaiveDate::from_ymd_opt(year, month, day)
    }

    #[inline]
    fn with_month0(&self, month0: u32) -> Option<NaiveDate> {
        self.with_month(month0.checked_add(1)?)
    }

    #[inline]
    fn with_day(&self, day: u32) -> Option<NaiveDate> {
        let (year, month, _) = self.year_month_day();
        NaiveDate::from_ymd_opt(year, month, day)
    }

    #[inline]
    fn with_day0(&self, day0: u32) -> Option<NaiveDate> {
        self.with_day(day0.checked_add(1)?)
    }

    #[inline]
    fn with_ordinal(&self, ordinal: u32) -> Option<NaiveDate> {
        NaiveDate::from_yo_opt(self.year(), ordinal)
    }

    #[inline]
    fn with_ordinal0(&self, ordinal0: u32) -> Option<NaiveDate> {
        self.with_ordinal(ordinal0.checked_add(1)?)
    }

    /// Returns the day number, in which 1 January of year 1 is 1 and the day before it is 0.
    #[inline]
    fn num_days_from_ce(&self) -> i32
        ensures value { result ≡ self.now }
        ensures in_range { IsDate result }
        // The number names the date again.
        ensures names { date_of_day result ≡ Some self.now }
    {
        self.day_number()
    }
}

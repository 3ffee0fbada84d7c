//! The fields of the date and of the time of day, read and replaced. Replacing a field of one half keeps the other half.

use crate::NaiveDateTime;
use chrono_clock::Timelike;
use chrono_naive::{Datelike, IsoWeek, Weekday};

impl Datelike for NaiveDateTime {
    ghost use Rattle.std.specs.Prelude.{pos, [], ◌∷◌};

    ghost number = { λ m. m.date };

    ghost rest = { λ m. pos m.time.second ∷ pos m.time.fraction ∷ [] };

    #[inline]
    fn year(&self) -> i32 {
        self.date.year()
    }

    #[inline]
    fn month(&self) -> u32 {
        self.date.month()
    }

    #[inline]
    fn month0(&self) -> u32 {
        self.date.month0()
    }

    #[inline]
    fn day(&self) -> u32 {
        self.date.day()
    }

    #[inline]
    fn day0(&self) -> u32 {
        self.date.day0()
    }

    #[inline]
    fn ordinal(&self) -> u32 {
        self.date.ordinal()
    }

    #[inline]
    fn ordinal0(&self) -> u32 {
        self.date.ordinal0()
    }

    #[inline]
    fn weekday(&self) -> Weekday {
        self.date.weekday()
    }

    #[inline]
    fn iso_week(&self) -> IsoWeek {
        self.date.iso_week()
    }

    #[inline]
    fn with_year(&self, year: i32) -> Option<NaiveDateTime> {
        Some(self.with_date(self.date.with_year(year)?))
    }

    #[inline]
    fn with_month(&self, month: u32) -> Option<NaiveDateTime> {
        Some(self.with_date(self.date.with_month(month)?))
    }

    #[inline]
    fn with_month0(&self, month0: u32) -> Option<NaiveDateTime> {
        Some(self.with_date(self.date.with_month0(month0)?))
    }

    #[inline]
    fn with_day(&self, day: u32) -> Option<NaiveDateTime> {
        Some(self.with_date(self.date.with_day(day)?))
    }

    #[inline]
    fn with_day0(&self, day0: u32) -> Option<NaiveDateTime> {
        Some(self.with_date(self.date.with_day0(day0)?))
    }

    #[inline]
    fn with_ordinal(&self, ordinal: u32) -> Option<NaiveDateTime> {
        Some(self.with_date(self.date.with_ordinal(ordinal)?))
    }

    #[inline]
    fn with_ordinal0(&self, ordinal0: u32) -> Option<NaiveDateTime> {
        Some(self.with_date(self.date.with_ordinal0(ordinal0)?))
    }

    /// Returns the day number of the date, in which 1 January of year 1 is 1 and the day before it is 0.
    #[inline]
    fn num_days_from_ce(&self) -> i32 {
        self.date.num_days_from_ce()
    }
}

impl Timelike for NaiveDateTime {
    ghost use Rattle.std.specs.Prelude.{[], ◌∷◌};

    ghost time = { λ m. m.time };

    ghost rest = { λ m. m.date ∷ [] };

    #[inline]
    fn hour(&self) -> u32 {
        self.time.hour()
    }

    #[inline]
    fn minute(&self) -> u32 {
        self.time.minute()
    }

    #[inline]
    fn second(&self) -> u32 {
        self.time.second()
    }

    #[inline]
    fn nanosecond(&self) -> u32 {
        self.time.nanosecond()
    }

    #[inline]
    fn with_hour(&self, hour: u32) -> Option<NaiveDateTime> {
        Some(self.with_time(self.time.with_hour(hour)?))
    }

    #[inline]
    fn with_minute(&self, minute: u32) -> Option<NaiveDateTime> {
        Some(self.with_time(self.time.with_minute(minute)?))
    }

    #[inline]
    fn with_second(&self, second: u32) -> Option<NaiveDateTime> {
        Some(self.with_time(self.time.with_second(second)?))
    }

    #[inline]
    fn with_nanosecond(&self, nano: u32) -> Option<NaiveDateTime> {
        Some(self.with_time(self.time.with_nanosecond(nano)?))
    }

    #[inline]
    fn num_seconds_from_midnight(&self) -> u32 {
        self.time.num_seconds_from_midnight()
    }
}

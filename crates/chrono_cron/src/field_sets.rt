//! `FieldSets`: what the five fields of a schedule list, and which days and minutes they make.
ghost use Rattle.std.specs.Prelude.{◌≡◌, ◌+◌, ◌-◌, ◌%◌, ◌<◌, ℕ, ℤ, false};
ghost use Rattle.chrono_datetime.specs.Days.{day_of};
ghost use Rattle.chrono_datetime.specs.MonthMoves.{InSameMonth};
ghost use Rattle.chrono_datetime.specs.Weekday.{days_from_sunday};
ghost use Rattle.chrono_datetime.specs.Weeks.{weekday_of};
ghost use Rattle.chrono_sets.specs.FiniteSets.{has};
ghost use Rattle.chrono_cron.specs.Due.{either_or_both, is_day, is_listed_day, is_minute, is_named_by_place, is_named_by_weekday};

use crate::named_days::MonthDays;
use chrono_datetime::{Datelike, NaiveDate};
use chrono_sets::NumberSet;

// The minutes of an hour.
pub(crate) const MINUTES: u32 = 60;

/// What the five fields of a schedule list.
///
/// A number that a field cannot have makes no difference, except when two values are compared.
#[derive(Clone, Copy, PartialEq, Eq, Debug)]
pub struct FieldSets {
    /// The minutes past the hour, 0 to 59.
    pub minutes: NumberSet,
    /// The hours, 0 to 23.
    pub hours: NumberSet,
    /// The days of the month, 1 to 31.
    pub days: NumberSet,
    /// The months, 1 to 12.
    pub months: NumberSet,
    /// The weekdays, from 0 for Sunday to 6.
    pub weekdays: NumberSet,
    /// The days that are named by the end, the workdays and the weeks of the month.
    pub month_days: MonthDays,
    /// Whether one field of days is enough. If false, a day has to match both its day of the month and its weekday.
    pub either: bool,
    /// Whether the text of the minutes or that of the hours begins with `*`. In a zone such a schedule goes by what the clock shows. Here it
    /// makes no difference.
    pub follows_clock: bool,
}

impl FieldSets {
    /// Returns whether the fields of days and months list `date`.
    ///
    /// ```
    /// use chrono_datetime::NaiveDate;
    /// let sets = read_schedule(b"30 4 1,15 * 5").ok()?.sets;
    /// sets.is_day(NaiveDate::from_ymd_opt(2024, 2, 9)?) // true
    /// sets.is_day(NaiveDate::from_ymd_opt(2024, 2, 14)?) // false
    /// ```
    #[inline]
    #[tactic(auto, unfolding(crate::specs::Due::is_day))]
    pub fn is_day(&self, date: NaiveDate) -> bool
        ensures { result ≡ is_day self.now date }
    {
        let (_, month, day) = date.year_month_day();
        let is_listed_day = if self.month_days.is_none() {
            self.is_listed_plainly(date, day)
        } else {
            self.is_listed_in_month(date)
        };
        self.months.contains(month) && is_listed_day
    }

    // Whether the date is listed, where no day is named.
    #[inline]
    fn is_listed_plainly(&self, date: NaiveDate, day: u32) -> bool
        requires day { day ≡ day_of date }
        requires place { (p follow w : ℕ) → is_named_by_place self.now.month_days p follow w ≡ false }
        requires weekday { (p follow w : ℕ) → is_named_by_weekday self.now.month_days p follow w ≡ false }
        ensures { result ≡ is_listed_day self.now date }
    {
        let by_day = self.days.contains(day);
        let by_weekday = self
            .weekdays
            .contains(date.weekday().num_days_from_sunday());
        self.is_enough(by_day, by_weekday)
    }

    // Whether the date is listed by a schedule that names days.
    // It is called seldom, and so kept out of the way of a plain schedule.
    #[cold]
    fn is_listed_in_month(&self, date: NaiveDate) -> bool
        ensures { result ≡ is_listed_day self.now date }
    {
        self.listed_in_month(date).contains(date.day())
    }

    // Whether a day is listed that is so by its place in the month, by its weekday, or by both.
    #[inline]
    fn is_enough(&self, by_day: bool, by_weekday: bool) -> bool
        ensures { result ≡ either_or_both self.now.either by_day by_weekday }
    {
        if self.either {
            by_day || by_weekday
        } else {
            by_day && by_weekday
        }
    }

    /// Returns whether the fields list `minute`, which is counted from midnight. Requires `minute < 1440`.
    ///
    /// ```
    /// read_schedule(b"30 4 1,15 * 5").ok()?.sets.is_minute(4 * 60 + 30) // true
    /// ```
    #[inline]
    #[tactic(auto, unfolding(crate::specs::Due::is_minute))]
    pub fn is_minute(&self, minute: u32) -> bool
        requires { minute < 1440 }
        ensures { result ≡ is_minute self.now minute }
    {
        self.hours.contains(minute / MINUTES) && self.minutes.contains(minute % MINUTES)
    }

    // The days of the date's month that are listed.
    #[inline]
    pub(crate) fn listed_in_month(&self, date: NaiveDate) -> NumberSet
        ensures { (d : ℤ) → InSameMonth d date → has result (day_of d) ≡ is_listed_day self.now d }
    {
        let before = (date.weekday().num_days_from_sunday() + 35 - date.day()) % 7;
        if self.month_days.is_none() {
            return self.together(self.days, self.weekdays.every_week(before));
        }
        self.listed_or_named(date, before)
    }

    // The same, where days are named; `before` is the weekday of the day before the month's first.
    #[cold]
    fn listed_or_named(&self, date: NaiveDate, before: u32) -> NumberSet
        requires weekday { before ≡ (days_from_sunday (weekday_of date) + 35 - day_of date) % 7 }
        requires small { before < 7 }
        ensures { (d : ℤ) → InSameMonth d date → has result (day_of d) ≡ is_listed_day self.now d }
    {
        let weekly = self.weekdays.every_week(before);
        let length = date.last_day_of_month().day();
        let by_day = self.days.union(self.month_days.by_place(length, before));
        let by_weekday = weekly.union(self.month_days.by_weekday(length, before));
        self.together(by_day, by_weekday)
    }

    // The days that are listed by either, or by both.
    #[inline]
    fn together(&self, by_day: NumberSet, by_weekday: NumberSet) -> NumberSet
        ensures { (k : ℕ) → has result k ≡ either_or_both self.now.either (has by_day k) (has by_weekday k) }
    {
        if self.either {
            by_day.union(by_weekday)
        } else {
            by_day.intersection(by_weekday)
        }
    }
}

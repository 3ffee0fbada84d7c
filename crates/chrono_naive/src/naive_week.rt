//! `NaiveWeek`: the week that contains a date and begins on a given weekday.
ghost use Rattle.std.specs.Prelude.{◌≡◌, pos, ◌+ℤ◌, IsTrue, IsSome, IfSome, ◌↔◌};
ghost use Rattle.std.specs.Ordering.{int_eq};
ghost use Rattle.chrono_calendar.specs.Days.{IsDate, date_of_day};
ghost use Rattle.chrono_calendar.specs.Weeks.{IsFirstOfWeek};
ghost use Rattle.chrono_naive.specs.DateLists.{IsRange, days_of_week};

use crate::naive_date::NaiveDate;
use std::marker::Model;
use std::ops::RangeInclusive;

/// Seven consecutive days, at least one of which is a date. Made by [`NaiveDate::week`].
///
/// Contracts see a week as the number of its first day. That day need not be a date: the week of
/// [`NaiveDate::MIN`] may begin before it. Two weeks are equal if they have the same seven days, and equal
/// weeks hash alike.
///
/// ```
/// let week = NaiveDate::from_ymd_opt(2024, 2, 29)?.week(Weekday::Mon);
/// (week.checked_first_day(), week.checked_last_day()) // (Some(2024-02-26), Some(2024-03-03))
/// ```
#[derive(Clone, Copy, Eq, Hash, Debug)]
pub struct NaiveWeek {
    first: i32,
}

impl Model for NaiveWeek {
    ghost use Rattle.std.specs.Prelude.{ℤ};
    ghost use Rattle.chrono_calendar.specs.Weeks.{IsFirstOfWeek};

    ghost Value = { ℤ };

    ghost view = { λ w. w.first };

    ghost invariant = { λ w. IsFirstOfWeek w.first };

    ghost inverse = { λ n. record { first = n } };
}

impl NaiveWeek {
    // The week whose first day has that number.
    #[inline]
    pub(crate) fn new(first: i32) -> NaiveWeek
        requires { IsFirstOfWeek first }
        ensures { result ≡ first }
    {
        NaiveWeek { first }
    }

    /// Returns the first day of the week.
    ///
    /// Requires that this day is a date. [`checked_first_day`](Self::checked_first_day) requires nothing.
    ///
    /// ```
    /// NaiveDate::from_ymd_opt(2024, 2, 29)?.week(Weekday::Mon).first_day() // 2024-02-26
    /// ```
    #[inline]
    pub fn first_day(&self) -> NaiveDate
        requires { IsDate self.now }
        ensures { result ≡ self.now }
    {
        self.checked_first_day().unwrap()
    }

    /// Returns the first day of the week.
    ///
    /// Returns `None` if this day is before [`NaiveDate::MIN`].
    ///
    /// ```
    /// NaiveDate::from_ymd_opt(2024, 2, 29)?.week(Weekday::Mon).checked_first_day() // Some(2024-02-26)
    /// NaiveDate::MIN.week(Weekday::Fri).checked_first_day() // None
    /// ```
    #[inline]
    pub fn checked_first_day(&self) -> Option<NaiveDate>
        ensures date { result ≡ date_of_day self.now }
        ensures exists { IsSome result ↔ IsDate self.now }
        ensures first { IfSome result (λ e. e ≡ self.now) }
    {
        NaiveDate::from_num_days_from_ce_opt(self.first)
    }

    /// Returns the last day of the week.
    ///
    /// Requires that this day is a date. [`checked_last_day`](Self::checked_last_day) requires nothing.
    ///
    /// ```
    /// NaiveDate::from_ymd_opt(2024, 2, 29)?.week(Weekday::Mon).last_day() // 2024-03-03
    /// ```
    #[inline]
    pub fn last_day(&self) -> NaiveDate
        requires { IsDate (self.now +ℤ pos 6) }
        ensures { result ≡ self.now +ℤ pos 6 }
    {
        self.checked_last_day().unwrap()
    }

    /// Returns the last day of the week.
    ///
    /// Returns `None` if this day is after [`NaiveDate::MAX`].
    ///
    /// ```
    /// NaiveDate::from_ymd_opt(2024, 2, 29)?.week(Weekday::Mon).checked_last_day() // Some(2024-03-03)
    /// NaiveDate::MAX.week(Weekday::Mon).checked_last_day() // None
    /// ```
    #[inline]
    pub fn checked_last_day(&self) -> Option<NaiveDate>
        ensures date { result ≡ date_of_day (self.now +ℤ pos 6) }
        ensures exists { IsSome result ↔ IsDate (self.now +ℤ pos 6) }
        ensures last { IfSome result (λ e. e ≡ self.now +ℤ pos 6) }
    {
        NaiveDate::from_num_days_from_ce_opt(self.first + 6)
    }

    /// Returns the days of the week, from the first to the last.
    ///
    /// Requires that both are dates. [`checked_days`](Self::checked_days) requires nothing.
    ///
    /// ```
    /// let days = NaiveDate::from_ymd_opt(2024, 2, 29)?.week(Weekday::Mon).days();
    /// (*days.start(), *days.end()) // (2024-02-26, 2024-03-03)
    /// ```
    #[inline]
    pub fn days(&self) -> RangeInclusive<NaiveDate>
        requires first { IsDate self.now }
        requires last { IsDate (self.now +ℤ pos 6) }
        ensures { IsRange self.now (self.now +ℤ pos 6) result }
    {
        self.first_day()..=self.last_day()
    }

    /// Returns the days of the week, from the first to the last.
    ///
    /// Returns `None` if the first or the last day is not a date.
    ///
    /// ```
    /// let days = NaiveDate::from_ymd_opt(2024, 2, 29)?.week(Weekday::Mon).checked_days()?;
    /// (*days.start(), *days.end()) // (2024-02-26, 2024-03-03)
    /// NaiveDate::MAX.week(Weekday::Mon).checked_days().is_none() // true
    /// ```
    #[inline]
    pub fn checked_days(&self) -> Option<RangeInclusive<NaiveDate>>
        ensures exists { IsSome result ↔ (IsDate self.now × IsDate (self.now +ℤ pos 6)) }
        ensures days { IfSome result (λ r. IsRange self.now (self.now +ℤ pos 6) r) }
    {
        let first = self.checked_first_day()?;
        let last = self.checked_last_day()?;
        Some(first..=last)
    }
}

impl PartialEq for NaiveWeek {
    ghost use Rattle.std.specs.Ordering.{int_eq};
    ghost use Rattle.std.proofs.Common.{rules};
    ghost use Rattle.std.specs.Cmp.Rules.{comparing};

    ghost eq = { int_eq };

    ghost laws = { Prim.search (comparing, rules) };

    /// Returns whether the two weeks have the same seven days.
    #[inline]
    fn eq(&self, other: &NaiveWeek) -> bool
        ensures number { result ≡ int_eq self.now other.now }
        ensures days { IsTrue result ↔ (days_of_week self.now ≡ days_of_week other.now) }
    {
        self.first == other.first
    }
}

//! Open days of the years of which the holidays are known.
ghost use Rattle.std.specs.Prelude.{◌≡◌, ◌⊎◌, ℤ, true, false, Some, None, if◌then◌else◌, IfSome, IfNone};
ghost use Rattle.chrono_datetime.specs.Days.{IsDate};
ghost use Rattle.chrono_business.specs.KnownYears.{AreKnownDays, is_known, is_roll_known};
ghost use Rattle.chrono_business.specs.OpenDays.{IsMovedByOpenDays, is_open, open_days_signed};
ghost use Rattle.chrono_business.specs.Rolls.{RollsTo};

use crate::calendar::Calendar;
use crate::known_years::KnownYears;
use crate::roll::Roll;
use chrono_datetime::NaiveDate;

impl<'a> Calendar<'a> {
    /// Returns whether `date` is open, if it lies in one of `years`.
    ///
    /// Returns `None` if it lies in another year.
    ///
    /// ```
    /// use chrono_datetime::{NaiveDate, WeekdaySet};
    /// let years = KnownYears { first: 2024, last: 2026 };
    /// let calendar = Calendar::new(WeekdaySet::EMPTY, &[]);
    /// calendar.is_open_within(years, NaiveDate::from_ymd_opt(2026, 12, 31)?) // Some(true)
    /// calendar.is_open_within(years, NaiveDate::from_ymd_opt(2027, 1, 1)?) // None
    /// ```
    pub fn is_open_within(&self, years: KnownYears, date: NaiveDate) -> Option<bool>
        ensures { result ≡ (if is_known years date then Some (is_open self.now date) else None) }
    {
        if !years.contains(date) {
            return None;
        }
        Some(self.is_open(date))
    }

    /// Moves `date` by `n` open days as [`add_open_days`](Self::add_open_days) does, if both dates lie in `years`.
    ///
    /// Returns `None` if one of them does not, or if the calendar has no such date.
    ///
    /// ```
    /// use chrono_datetime::{NaiveDate, WeekdaySet};
    /// let years = KnownYears { first: 2024, last: 2026 };
    /// let calendar = Calendar::new(WeekdaySet::EMPTY, &[]);
    /// let date = NaiveDate::from_ymd_opt(2026, 12, 30)?;
    /// calendar.add_open_days_within(years, date, 1) // Some(2026-12-31)
    /// calendar.add_open_days_within(years, date, 2) // None
    /// ```
    pub fn add_open_days_within(
        &self,
        years: KnownYears,
        date: NaiveDate,
        n: i64,
    ) -> Option<NaiveDate>
        ensures exists { IfSome result (λ e. IsDate e) }
        ensures moved { IfSome result (λ e. IsMovedByOpenDays self.now date n e) }
        ensures known { IfSome result (λ e. (is_known years date ≡ true) × (is_known years e ≡ true)) }
        ensures none { IfNone result ((e : ℤ) → is_known years date ≡ true → is_known years e ≡ true
            → ¬ IsMovedByOpenDays self.now date n e) }
    {
        if !years.contains(date) {
            return None;
        }
        let moved = self.add_open_days(date, n)?;
        if !years.contains(moved) {
            return None;
        }
        Some(moved)
    }

    /// Returns how many days are open from `from` on and before `to`, as [`open_days`](Self::open_days) does, if each of
    /// these days lies in `years`.
    ///
    /// Returns `None` if one of them does not. So `to` can be the first day after the years.
    ///
    /// ```
    /// use chrono_datetime::{NaiveDate, WeekdaySet};
    /// let calendar = Calendar::new(WeekdaySet::EMPTY, &[]);
    /// let (from, to) = (NaiveDate::from_ymd_opt(2026, 1, 1)?, NaiveDate::from_ymd_opt(2027, 1, 1)?);
    /// calendar.open_days_within(KnownYears { first: 2024, last: 2026 }, from, to) // Some(365)
    /// calendar.open_days_within(KnownYears { first: 2024, last: 2025 }, from, to) // None
    /// ```
    pub fn open_days_within(&self, years: KnownYears, from: NaiveDate, to: NaiveDate) -> Option<i64>
        ensures value { IfSome result (λ n. n ≡ open_days_signed self.now from to) }
        ensures known { IfSome result (λ _. AreKnownDays years from to × AreKnownDays years to from) }
        ensures none { IfNone result (AreKnownDays years from to → AreKnownDays years to from → ⊥) }
    {
        if !years.contains_all(from, to) {
            return None;
        }
        if !years.contains_all(to, from) {
            return None;
        }
        Some(self.open_days(from, to))
    }

    /// Returns the date that `date` moves to by `roll`, as [`roll`](Self::roll) does, if it looks at no day outside `years`.
    ///
    /// A roll looks at the days from `date` to its answer, and `NearestQuantLib` at as many on the other side of `date`.
    /// Returns `None` if one of them lies in another year, or if the calendar has no such date.
    ///
    /// ```
    /// use chrono_datetime::{NaiveDate, Weekday, WeekdaySet};
    /// let calendar = Calendar::new(WeekdaySet::from_array([Weekday::Sat, Weekday::Sun]), &[]);
    /// let saturday = NaiveDate::from_ymd_opt(2022, 12, 31)?;
    /// let years = KnownYears { first: 2022, last: 2022 };
    /// calendar.roll_within(years, saturday, Roll::Preceding) // Some(2022-12-30)
    /// calendar.roll_within(years, saturday, Roll::Following) // None
    /// calendar.roll_within(years, saturday, Roll::NearestQuantLib) // None
    /// ```
    pub fn roll_within(&self, years: KnownYears, date: NaiveDate, roll: Roll) -> Option<NaiveDate>
        ensures exists { IfSome result (λ e. IsDate e) }
        ensures rolled { IfSome result (λ e. RollsTo self.now roll date e) }
        ensures known { IfSome result (λ e. is_roll_known years roll date e ≡ true) }
        ensures none { IfNone result ((e : ℤ) → is_roll_known years roll date e ≡ true → ¬ RollsTo self.now roll date e) }
    {
        let rolled = self.roll(date, roll)?;
        if !years.contains_roll(roll, date, rolled) {
            return None;
        }
        Some(rolled)
    }
}

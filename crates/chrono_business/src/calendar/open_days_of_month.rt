//! Open days of a month.
ghost use Rattle.std.specs.Prelude.{◌≡◌, ◌↔◌, ◌-◌, ◌<◌, ◌≤◌, ◌⊎◌, ℤ, pos, ◌+ℤ◌, ◌≤ℤ◌, ◌<ℤ◌, true, false, IsSome, IfSome, IfNone};
ghost use Rattle.chrono_datetime.specs.Days.{IsDate};
ghost use Rattle.chrono_datetime.specs.MonthMoves.{InSameMonth, month_first_of, month_last_of};
ghost use Rattle.chrono_business.specs.OpenDays.{IsNthOpenBack, IsNthOpenFrom, is_open, open_days};
ghost use Rattle.chrono_business.specs.Rolls.{IsLastOpen, IsNextOpen, MonthBeginsClosed, MonthEndsClosed, MonthIsClosed};

use crate::calendar::Calendar;
use chrono_datetime::{Datelike, LAST_DAY, NaiveDate};

impl<'a> Calendar<'a> {
    /// Returns the first open day of the month of `date`.
    ///
    /// Returns `None` if the whole month is closed.
    ///
    /// ```
    /// use chrono_datetime::{NaiveDate, Weekday, WeekdaySet};
    /// let calendar = Calendar::new(WeekdaySet::from_array([Weekday::Sat, Weekday::Sun]), &[]);
    /// calendar.first_open_of_month(NaiveDate::from_ymd_opt(2024, 6, 15)?) // Some(2024-06-03)
    /// ```
    pub fn first_open_of_month(&self, date: NaiveDate) -> Option<NaiveDate>
        ensures exists { IsSome result ↔ 0 < open_days self.now (month_first_of date) (month_last_of date +ℤ pos 1) }
        ensures first { IfSome result (λ e. IsNextOpen self.now (month_first_of date) e) }
        ensures month { IfSome result (λ e. InSameMonth e date) }
        ensures least { IfSome result (λ e. (f : ℤ) → InSameMonth f date → is_open self.now f ≡ true →
            e ≤ℤ f) }
        ensures none { IfNone result (MonthIsClosed self.now date) }
    {
        self.next_open_in_month(date.first_day_of_month())
    }

    /// Returns the last open day of the month of `date`.
    ///
    /// Returns `None` if the whole month is closed.
    ///
    /// ```
    /// use chrono_datetime::{NaiveDate, Weekday, WeekdaySet};
    /// let calendar = Calendar::new(WeekdaySet::from_array([Weekday::Sat, Weekday::Sun]), &[]);
    /// calendar.last_open_of_month(NaiveDate::from_ymd_opt(2024, 3, 15)?) // Some(2024-03-29)
    /// ```
    pub fn last_open_of_month(&self, date: NaiveDate) -> Option<NaiveDate>
        ensures exists { IsSome result ↔ 0 < open_days self.now (month_first_of date) (month_last_of date +ℤ pos 1) }
        ensures last { IfSome result (λ e. IsLastOpen self.now (month_last_of date) e) }
        ensures month { IfSome result (λ e. InSameMonth e date) }
        ensures greatest { IfSome result (λ e. (f : ℤ) → InSameMonth f date → is_open self.now f ≡ true →
            f ≤ℤ e) }
        ensures none { IfNone result (MonthIsClosed self.now date) }
    {
        self.last_open_in_month(date.last_day_of_month())
    }

    /// Returns the `n`-th open day of the month of `date`. The first one has `n = 0`.
    ///
    /// Returns `None` if at most `n` days of the month are open.
    ///
    /// ```
    /// use chrono_datetime::{NaiveDate, Weekday, WeekdaySet};
    /// let calendar = Calendar::new(WeekdaySet::from_array([Weekday::Sat, Weekday::Sun]), &[]);
    /// calendar.nth_open_of_month(NaiveDate::from_ymd_opt(2024, 6, 15)?, 2) // Some(2024-06-05)
    /// calendar.nth_open_of_month(NaiveDate::from_ymd_opt(2024, 6, 15)?, 20) // None
    /// ```
    pub fn nth_open_of_month(&self, date: NaiveDate, n: u64) -> Option<NaiveDate>
        ensures exists { IsSome result ↔ n < open_days self.now (month_first_of date) (month_last_of date +ℤ pos 1) }
        ensures passes { IfSome result (λ e. is_open self.now e ≡ true) }
        ensures month { IfSome result (λ e. InSameMonth e date) }
        ensures nth { IfSome result (λ e. IsNthOpenFrom self.now (month_first_of date) n e) }
        ensures none { IfNone result (open_days self.now (month_first_of date) (month_last_of date +ℤ pos 1) ≤ n) }
    {
        let last = date.last_day_of_month();
        let nth = self.nth_open_from(date.first_day_of_month(), n)?;
        if nth.num_days_from_ce() > last.num_days_from_ce() {
            return None;
        }
        Some(nth)
    }

    /// Returns the `n`-th open day of the month of `date`, counted from its end. The last one has `n = 0`.
    ///
    /// Returns `None` if at most `n` days of the month are open.
    ///
    /// ```
    /// use chrono_datetime::{NaiveDate, Weekday, WeekdaySet};
    /// let calendar = Calendar::new(WeekdaySet::from_array([Weekday::Sat, Weekday::Sun]), &[]);
    /// calendar.nth_last_open_of_month(NaiveDate::from_ymd_opt(2024, 3, 15)?, 1) // Some(2024-03-28)
    /// ```
    pub fn nth_last_open_of_month(&self, date: NaiveDate, n: u64) -> Option<NaiveDate>
        ensures exists { IsSome result ↔ n < open_days self.now (month_first_of date) (month_last_of date +ℤ pos 1) }
        ensures passes { IfSome result (λ e. is_open self.now e ≡ true) }
        ensures month { IfSome result (λ e. InSameMonth e date) }
        ensures nth { IfSome result (λ e. IsNthOpenBack self.now (month_last_of date) n e) }
        ensures none { IfNone result (open_days self.now (month_first_of date) (month_last_of date +ℤ pos 1) ≤ n) }
    {
        let first = date.first_day_of_month();
        let nth = self.nth_open_back(date.last_day_of_month(), n)?;
        if nth.num_days_from_ce() < first.num_days_from_ce() {
            return None;
        }
        Some(nth)
    }

    /// Returns the first open day that is not before `date`, if it is in the same month.
    ///
    /// Returns `None` if the month is closed from `date` on.
    ///
    /// ```
    /// use chrono_datetime::{NaiveDate, Weekday, WeekdaySet};
    /// let calendar = Calendar::new(WeekdaySet::from_array([Weekday::Sat, Weekday::Sun]), &[]);
    /// calendar.next_open_in_month(NaiveDate::from_ymd_opt(2024, 6, 1)?) // Some(2024-06-03)
    /// calendar.next_open_in_month(NaiveDate::from_ymd_opt(2024, 3, 30)?) // None
    /// ```
    pub fn next_open_in_month(&self, date: NaiveDate) -> Option<NaiveDate>
        ensures exists { IfSome result (λ e. IsDate e) }
        ensures next { IfSome result (λ e. IsNextOpen self.now date e) }
        ensures month { IfSome result (λ e. InSameMonth e date) }
        ensures none { IfNone result (MonthEndsClosed self.now date) }
    {
        prove!(date.num_days_from_ce() <= LAST_DAY);
        let next = self.next_open(date)?;
        if next.num_days_from_ce() > date.last_day_of_month().num_days_from_ce() {
            return None;
        }
        Some(next)
    }

    /// Returns the last open day that is not after `date`, if it is in the same month.
    ///
    /// Returns `None` if the month is closed up to `date`.
    ///
    /// ```
    /// use chrono_datetime::{NaiveDate, Weekday, WeekdaySet};
    /// let calendar = Calendar::new(WeekdaySet::from_array([Weekday::Sat, Weekday::Sun]), &[]);
    /// calendar.last_open_in_month(NaiveDate::from_ymd_opt(2024, 3, 31)?) // Some(2024-03-29)
    /// calendar.last_open_in_month(NaiveDate::from_ymd_opt(2024, 6, 2)?) // None
    /// ```
    pub fn last_open_in_month(&self, date: NaiveDate) -> Option<NaiveDate>
        ensures exists { IfSome result (λ e. IsDate e) }
        ensures last { IfSome result (λ e. IsLastOpen self.now date e) }
        ensures month { IfSome result (λ e. InSameMonth e date) }
        ensures none { IfNone result (MonthBeginsClosed self.now date) }
    {
        prove!(date.num_days_from_ce() <= LAST_DAY);
        let last = self.last_open(date)?;
        if last.num_days_from_ce() < date.first_day_of_month().num_days_from_ce() {
            return None;
        }
        Some(last)
    }
}

//! The first day of a schedule from a day on, and the last up to one.
ghost use Rattle.std.specs.Prelude.{◌≡◌, ◌≤◌, ℤ, ◌≤ℤ◌, ◌<ℤ◌, IfSome, IfNone, IsTrue, false};
ghost use Rattle.chrono_datetime.specs.Days.{IsDate};
ghost use Rattle.chrono_datetime.specs.MonthMoves.{InSameMonth};
ghost use Rattle.chrono_datetime.specs.PassedOver.{NoneFrom, NoneUpTo, PassedOver, PassedUpTo};
ghost use Rattle.chrono_cron.specs.DaySearch.{InMonthOrNoDay, NoDayFromTo};
ghost use Rattle.chrono_cron.specs.Due.{is_day};

use crate::field_sets::FieldSets;
use chrono_datetime::law::{dates_are_days_of_years, first_date, last_date};
use chrono_datetime::{Datelike, NaiveDate};

// The days of 400 years, after which the calendar comes again.
pub(crate) const CYCLE: i64 = 146_097;

impl FieldSets {
    // The first date from this one to the end of its month that is one of the schedule's.
    #[inline]
    fn first_in_month(&self, date: NaiveDate) -> Option<NaiveDate>
        ensures in_range { IfSome result (λ e. IsDate e) }
        ensures member { IfSome result (λ e. IsTrue (is_day self.now e)) }
        ensures not_before { IfSome result (λ e. date ≤ℤ e) }
        ensures least { IfSome result (λ e. PassedOver (is_day self.now) date e) }
        ensures none { IfNone result ((d : ℤ) → date ≤ℤ d → InSameMonth d date → is_day self.now d ≡ false) }
    {
        dates_are_days_of_years();
        let (year, month, day) = date.year_month_day();
        if !self.months.contains(month) {
            return None;
        }
        let Some(first) = self.listed_in_month(date).first_in(day, 32) else {
            return None;
        };
        NaiveDate::from_ymd_opt(year, month, first)
    }

    // The first day of the next month that is one of the schedule's.
    #[inline]
    fn next_month(&self, date: NaiveDate) -> Option<NaiveDate>
        ensures in_range { IfSome result (λ e. IsDate e) }
        ensures later { IfSome result (λ e. date <ℤ e) }
        ensures passed { IfSome result (λ e. (d : ℤ) → date ≤ℤ d → d <ℤ e → InMonthOrNoDay self.now date d) }
        ensures none { IfNone result ((d : ℤ) → date ≤ℤ d → IsDate d → InMonthOrNoDay self.now date d) }
    {
        dates_are_days_of_years();
        let (year, month, _) = date.year_month_day();
        if let Some(later) = self.months.first_in(month + 1, 13) {
            return NaiveDate::from_ymd_opt(year, later, 1);
        }
        let Some(first) = self.months.first_in(1, 13) else {
            return None;
        };
        NaiveDate::from_ymd_opt(year + 1, first, 1)
    }

    // The first date of the schedule from `date` on, if one lies there up to `last`. If none does, the answer may be `None`, or a
    // date after `last`.
    fn first_day_up_to(&self, date: NaiveDate, last: NaiveDate) -> Option<NaiveDate>
        ensures in_range { IfSome result (λ e. IsDate e) }
        ensures member { IfSome result (λ e. IsTrue (is_day self.now e)) }
        ensures not_before { IfSome result (λ e. date ≤ℤ e) }
        ensures least { IfSome result (λ e. PassedOver (is_day self.now) date e) }
        ensures none { IfNone result (NoDayFromTo self.now date last) }
    {
        let mut month = date;
        while month <= last {
            if let Some(first) = self.first_in_month(month) {
                return Some(first);
            }
            let Some(next) = self.next_month(month) else {
                return None;
            };
            month = next;
        }
        None
    }

    /// Returns the first day from `date` on that the fields list. It can be `date` itself.
    ///
    /// Returns `None` if there is none in the calendar.
    ///
    /// ```
    /// use chrono_datetime::NaiveDate;
    /// let sets = read_schedule(b"0 0 29 2 *").ok()?.sets;
    /// sets.first_day(NaiveDate::from_ymd_opt(2024, 3, 1)?) // Some(2028-02-29)
    /// ```
    ///
    /// Days of the month and weekdays repeat after 400 years, so that no search goes farther.
    pub fn first_day(&self, date: NaiveDate) -> Option<NaiveDate>
        ensures in_range { IfSome result (λ e. IsDate e) }
        ensures member { IfSome result (λ e. IsTrue (is_day self.now e)) }
        ensures not_before { IfSome result (λ e. date ≤ℤ e) }
        ensures least { IfSome result (λ e. PassedOver (is_day self.now) date e) }
        ensures none { IfNone result (NoneFrom (is_day self.now) date) }
    {
        if let Some(last) = date.moved_by_days(CYCLE) {
            return self.first_day_up_to(date, last);
        }
        let (last, _) = last_date();
        self.first_day_up_to(date, last)
    }

    // The last date from the beginning of its month to this one that is one of the schedule's.
    #[inline]
    fn last_in_month(&self, date: NaiveDate) -> Option<NaiveDate>
        ensures member { IfSome result (λ e. IsTrue (is_day self.now e)) }
        ensures not_after { IfSome result (λ e. e ≤ℤ date) }
        ensures greatest { IfSome result (λ e. PassedUpTo (is_day self.now) e date) }
        ensures none { IfNone result ((d : ℤ) → d ≤ℤ date → InSameMonth d date → is_day self.now d ≡ false) }
    {
        let (year, month, day) = date.year_month_day();
        if !self.months.contains(month) {
            return None;
        }
        let Some(last) = self.listed_in_month(date).last_in(1, day + 1) else {
            return None;
        };
        NaiveDate::from_ymd_opt(year, month, last)
    }

    // The last day of the month before that is one of the schedule's.
    #[inline]
    fn previous_month(&self, date: NaiveDate) -> Option<NaiveDate>
        ensures in_range { IfSome result (λ e. IsDate e) }
        ensures earlier { IfSome result (λ e. e <ℤ date) }
        ensures passed { IfSome result (λ e. (d : ℤ) → e <ℤ d → d ≤ℤ date → InMonthOrNoDay self.now date d) }
        ensures none { IfNone result ((d : ℤ) → d ≤ℤ date → IsDate d → InMonthOrNoDay self.now date d) }
    {
        dates_are_days_of_years();
        let (year, month, _) = date.year_month_day();
        if let Some(earlier) = self.months.last_in(1, month) {
            let Some(first) = NaiveDate::from_ymd_opt(year, earlier, 1) else {
                return None;
            };
            return Some(first.last_day_of_month());
        }
        let Some(last) = self.months.last_in(1, 13) else {
            return None;
        };
        let Some(first) = NaiveDate::from_ymd_opt(year - 1, last, 1) else {
            return None;
        };
        Some(first.last_day_of_month())
    }

    // The last date of the schedule up to `date`, if one lies there from `first` on. If none does, the answer may be `None`, or a
    // date before `first`.
    fn last_day_down_to(&self, date: NaiveDate, first: NaiveDate) -> Option<NaiveDate>
        ensures member { IfSome result (λ e. IsTrue (is_day self.now e)) }
        ensures not_after { IfSome result (λ e. e ≤ℤ date) }
        ensures greatest { IfSome result (λ e. PassedUpTo (is_day self.now) e date) }
        ensures none { IfNone result (NoDayFromTo self.now first date) }
    {
        let mut month = date;
        while month >= first {
            if let Some(last) = self.last_in_month(month) {
                return Some(last);
            }
            let Some(previous) = self.previous_month(month) else {
                return None;
            };
            month = previous;
        }
        None
    }

    /// Returns the last day up to `date` that the fields list. It can be `date` itself.
    ///
    /// Returns `None` if there is none in the calendar.
    ///
    /// ```
    /// use chrono_datetime::NaiveDate;
    /// let sets = read_schedule(b"0 0 29 2 *").ok()?.sets;
    /// sets.last_day(NaiveDate::from_ymd_opt(2024, 2, 1)?) // Some(2020-02-29)
    /// ```
    ///
    /// Days of the month and weekdays repeat after 400 years, so that no search goes farther.
    pub fn last_day(&self, date: NaiveDate) -> Option<NaiveDate>
        ensures member { IfSome result (λ e. IsTrue (is_day self.now e)) }
        ensures not_after { IfSome result (λ e. e ≤ℤ date) }
        ensures greatest { IfSome result (λ e. PassedUpTo (is_day self.now) e date) }
        ensures none { IfNone result (NoneUpTo (is_day self.now) date) }
    {
        if let Some(first) = date.moved_by_days(-CYCLE) {
            return self.last_day_down_to(date, first);
        }
        let (first, _) = first_date();
        self.last_day_down_to(date, first)
    }
}

//! The first and the last day of a date's month, the first of the next month and the last of the one before.
ghost use Rattle.std.specs.Prelude.{◌≡◌, ◌↔◌, ℤ, pos, neg_ℤ, ◌+ℤ◌, ◌-ℤ◌, ◌≤ℤ◌, ◌<ℤ◌, Some, None, IfSome, IfNone};
ghost use Rattle.chrono_calendar.specs.Days.{IsDate, date_of_day, date_of_ymd, day_of, month_of, year_of};
ghost use Rattle.chrono_calendar.specs.MonthMoves.{InSameMonth, month_first_of, month_index_of, month_last_of, month_length_of};

use crate::naive_date::NaiveDate;
use chrono_units::year::{is_leap_year, month_length};

impl NaiveDate {
    /// Returns the first day of the date's month.
    ///
    /// ```
    /// NaiveDate::from_ymd_opt(2024, 2, 29)?.first_day_of_month() // 2024-02-01
    /// ```
    #[inline]
    pub fn first_day_of_month(&self) -> NaiveDate
        ensures first { result ≡ month_first_of self.now }
        // It is named by the year, the month and 1.
        ensures name { date_of_ymd (year_of self.now) (month_of self.now) 1 ≡ Some result }
        ensures month { InSameMonth result self.now }
        ensures day { day_of result ≡ 1 }
        ensures not_after { result ≤ℤ self.now }
        ensures in_range { IsDate result }
    {
        let (_, _, day) = self.year_month_day();
        self.moved_by_days(1 - i64::from(day)).unwrap()
    }

    /// Returns the last day of the date's month.
    ///
    /// ```
    /// NaiveDate::from_ymd_opt(2024, 2, 1)?.last_day_of_month() // 2024-02-29
    /// ```
    #[inline]
    pub fn last_day_of_month(&self) -> NaiveDate
        ensures last { result ≡ month_last_of self.now }
        // It is named by the year, the month and the month's length.
        ensures name { date_of_ymd (year_of self.now) (month_of self.now)
            (month_length_of self.now) ≡ Some result }
        ensures month { InSameMonth result self.now }
        ensures day { day_of result ≡ month_length_of self.now }
        ensures not_before { self.now ≤ℤ result }
        ensures in_range { IsDate result }
    {
        let (year, month, day) = self.year_month_day();
        let length = month_length(is_leap_year(year), month);
        self.moved_by_days(i64::from(length) - i64::from(day))
            .unwrap()
    }

    /// Returns the first day of the month after the date's month.
    ///
    /// Returns `None` in December of year 262,142.
    ///
    /// ```
    /// NaiveDate::from_ymd_opt(2024, 1, 31)?.first_of_next_month() // Some(2024-02-01)
    /// NaiveDate::MAX.first_of_next_month() // None
    /// ```
    #[inline]
    pub fn first_of_next_month(&self) -> Option<NaiveDate>
        ensures date { result ≡ date_of_day (month_last_of self.now +ℤ pos 1) }
        ensures number { IfSome result (λ e. e ≡ month_last_of self.now +ℤ pos 1) }
        ensures month { IfSome result (λ e.
            month_index_of e ≡ month_index_of self.now +ℤ pos 1) }
        ensures day { IfSome result (λ e. day_of e ≡ 1) }
        ensures later { IfSome result (λ e. self.now <ℤ e) }
        ensures in_range { IfSome result (λ e. IsDate e) }
        // From the date to the day before the answer all lie in the date's month.
        ensures within { IfSome result (λ e. (d : ℤ) → self.now ≤ℤ d → d <ℤ e →
            InSameMonth d self.now) }
        ensures none { (result ≡ None)
            ↔ ((year_of self.now ≡ pos 262_142) × (month_of self.now ≡ 12)) }
        // Then no later date lies in another month.
        ensures last { IfNone result ((d : ℤ) → self.now ≤ℤ d → IsDate d →
            InSameMonth d self.now) }
    {
        self.last_day_of_month().moved_by_days(1)
    }

    /// Returns the last day of the month before the date's month.
    ///
    /// Returns `None` in January of year -262,143.
    ///
    /// ```
    /// NaiveDate::from_ymd_opt(2024, 3, 1)?.last_of_previous_month() // Some(2024-02-29)
    /// NaiveDate::MIN.last_of_previous_month() // None
    /// ```
    #[inline]
    pub fn last_of_previous_month(&self) -> Option<NaiveDate>
        ensures date { result ≡ date_of_day (month_first_of self.now -ℤ pos 1) }
        ensures number { IfSome result (λ e. e ≡ month_first_of self.now -ℤ pos 1) }
        ensures month { IfSome result (λ e.
            month_index_of e ≡ month_index_of self.now -ℤ pos 1) }
        ensures day { IfSome result (λ e. day_of e ≡ month_length_of e) }
        ensures earlier { IfSome result (λ e. e <ℤ self.now) }
        ensures in_range { IfSome result (λ e. IsDate e) }
        // From the day after the answer to the date all lie in the date's month.
        ensures within { IfSome result (λ e. (d : ℤ) → e <ℤ d → d ≤ℤ self.now →
            InSameMonth d self.now) }
        ensures none { (result ≡ None)
            ↔ ((year_of self.now ≡ neg_ℤ (pos 262_143)) × (month_of self.now ≡ 1)) }
        // Then no earlier date lies in another month.
        ensures first { IfNone result ((d : ℤ) → d ≤ℤ self.now → IsDate d →
            InSameMonth d self.now) }
    {
        self.first_day_of_month().moved_by_days(-1)
    }
}

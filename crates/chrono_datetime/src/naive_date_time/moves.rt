//! Moves by calendar months and days: they move the date and keep the time of day.
ghost use Rattle.std.specs.Prelude.{◌≡◌, ◌↔◌, min, pos, neg_ℤ, ◌+ℤ◌, ◌-ℤ◌, IfSome, IsSome};
ghost use Rattle.chrono_naive.specs.Years.{IsYear};
ghost use Rattle.chrono_naive.specs.Days.{IsDate, date_of_day, day_of};
ghost use Rattle.chrono_naive.specs.MonthMoves.{MonthMovesAddUp, ComesBack, KeepsOrder, month_index_of, month_length_of, month_move, year_of_month_index};
ghost use Rattle.chrono_datetime.specs.Moment.{moment_on};

use crate::NaiveDateTime;
use chrono_naive::{Days, Months};

impl NaiveDateTime {
    /// Returns the same day and time of day `rhs` months later. If that month is too short, returns its last
    /// day.
    ///
    /// Returns `None` if the year would be after 262,142.
    ///
    /// ```
    /// let start = NaiveDate::from_ymd_opt(2023, 1, 30)?.and_hms_opt(23, 0, 0)?;
    /// start.checked_add_months(Months::new(1)) // Some(2023-02-28T23:00:00)
    /// NaiveDateTime::MAX.checked_add_months(Months::new(1)) // None
    /// ```
    #[inline]
    pub fn checked_add_months(self, rhs: Months) -> Option<NaiveDateTime>
        ensures value { result ≡ moment_on (month_move self.date (pos rhs)) self.time }
        ensures exists { IsSome result ↔ IsSome (month_move self.date (pos rhs)) }
        ensures in_years { IsSome result
            ↔ IsYear (year_of_month_index (month_index_of self.date +ℤ pos rhs)) }
        ensures month { IfSome result (λ e. month_index_of e.date ≡ month_index_of self.date +ℤ pos rhs) }
        ensures day { IfSome result (λ e. day_of e.date ≡ min (day_of self.date) (month_length_of e.date)) }
        ensures time { IfSome result (λ e. e.time ≡ self.time) }
        // No later date comes to lie before the answer's by the same move.
        ensures order { IfSome result (λ e. KeepsOrder self.date (pos rhs) e.date) }
        // Moved back, the answer's date comes to the date again, or to one to three days before it in its month.
        ensures back { IfSome result (λ e. ComesBack self.date (neg_ℤ (pos rhs)) e.date) }
        // A second move ends in the month of one move by the sum, and not later.
        ensures sum { IfSome result (λ e. MonthMovesAddUp self.date (pos rhs) e.date) }
    {
        Some(self.with_date(self.date.checked_add_months(rhs)?))
    }

    /// Returns the same day and time of day `rhs` months earlier. If that month is too short, returns its last
    /// day.
    ///
    /// Returns `None` if the year would be before -262,143.
    ///
    /// ```
    /// let end = NaiveDate::from_ymd_opt(2024, 3, 31)?.and_hms_opt(23, 0, 0)?;
    /// end.checked_sub_months(Months::new(1)) // Some(2024-02-29T23:00:00)
    /// NaiveDateTime::MIN.checked_sub_months(Months::new(1)) // None
    /// ```
    #[inline]
    pub fn checked_sub_months(self, rhs: Months) -> Option<NaiveDateTime>
        ensures value { result ≡ moment_on (month_move self.date (neg_ℤ (pos rhs))) self.time }
        ensures exists { IsSome result ↔ IsSome (month_move self.date (neg_ℤ (pos rhs))) }
        ensures in_years { IsSome result
            ↔ IsYear (year_of_month_index (month_index_of self.date -ℤ pos rhs)) }
        ensures month { IfSome result (λ e. month_index_of e.date ≡ month_index_of self.date -ℤ pos rhs) }
        ensures day { IfSome result (λ e. day_of e.date ≡ min (day_of self.date) (month_length_of e.date)) }
        ensures time { IfSome result (λ e. e.time ≡ self.time) }
        // No later date comes to lie before the answer's by the same move.
        ensures order { IfSome result (λ e. KeepsOrder self.date (neg_ℤ (pos rhs)) e.date) }
        // Moved on again, the answer's date comes to the date again, or to one to three days before it in its month.
        ensures back { IfSome result (λ e. ComesBack self.date (pos rhs) e.date) }
        // A second move ends in the month of one move by the sum, and not later.
        ensures sum { IfSome result (λ e. MonthMovesAddUp self.date (neg_ℤ (pos rhs)) e.date) }
    {
        Some(self.with_date(self.date.checked_sub_months(rhs)?))
    }

    /// Returns the date-time `days` days later, at the same time of day.
    ///
    /// Returns `None` if that day is after the date of [`MAX`](Self::MAX).
    ///
    /// ```
    /// let start = NaiveDate::from_ymd_opt(2024, 2, 28)?.and_hms_opt(23, 0, 0)?;
    /// start.checked_add_days(Days::new(2)) // Some(2024-03-01T23:00:00)
    /// NaiveDateTime::MAX.checked_add_days(Days::new(1)) // None
    /// ```
    #[inline]
    pub fn checked_add_days(self, days: Days) -> Option<NaiveDateTime>
        ensures value { result ≡ moment_on (date_of_day (self.date +ℤ pos days)) self.time }
        ensures exists { IsSome result ↔ IsDate (self.date +ℤ pos days) }
        ensures date { IfSome result (λ e. e.date ≡ self.date +ℤ pos days) }
        ensures time { IfSome result (λ e. e.time ≡ self.time) }
        // As many days less, the answer's date is the date again.
        ensures back { IfSome result (λ e. e.date -ℤ pos days ≡ self.date) }
    {
        Some(self.with_date(self.date.checked_add_days(days)?))
    }

    /// Returns the date-time `days` days earlier, at the same time of day.
    ///
    /// Returns `None` if that day is before the date of [`MIN`](Self::MIN).
    ///
    /// ```
    /// let end = NaiveDate::from_ymd_opt(2024, 3, 1)?.and_hms_opt(23, 0, 0)?;
    /// end.checked_sub_days(Days::new(2)) // Some(2024-02-28T23:00:00)
    /// NaiveDateTime::MIN.checked_sub_days(Days::new(1)) // None
    /// ```
    #[inline]
    pub fn checked_sub_days(self, days: Days) -> Option<NaiveDateTime>
        ensures value { result ≡ moment_on (date_of_day (self.date -ℤ pos days)) self.time }
        ensures exists { IsSome result ↔ IsDate (self.date -ℤ pos days) }
        ensures date { IfSome result (λ e. e.date ≡ self.date -ℤ pos days) }
        ensures time { IfSome result (λ e. e.time ≡ self.time) }
        // As many days more, the answer's date is the date again.
        ensures back { IfSome result (λ e. e.date +ℤ pos days ≡ self.date) }
    {
        Some(self.with_date(self.date.checked_sub_days(days)?))
    }
}

//! The trait of the stored forms of a date.
ghost use Rattle.std.specs.Prelude.{◌≡◌, ℕ, ℤ, false, pos, neg_ℤ, ◌+◌, ◌≤◌, ◌≤ℤ◌};
ghost use Rattle.std.specs.Int.{IsInRange};
ghost use Rattle.std.specs.Option.{option_map};
ghost use Rattle.std.specs.Ordering.{int_cmp};
ghost use Rattle.chrono_units.specs.Years.{is_leap_year, IsYear};
ghost use Rattle.chrono_calendar.specs.Days.{IsDate, is_date, IsOrdinalName, IsCalendarName, date_of_day, date_of_yo, date_of_ymd, year_of, ordinal_of, month_of, day_of};
ghost use Rattle.chrono_calendar.specs.Weeks.{iso_week_of, iso_year_of, weekday_of};
ghost use Rattle.chrono_calendar.specs.MonthMoves.{month_move};

use crate::iso_week::week_of_thursday;
use crate::month_index::{day_within, month_after};
use crate::steps::Steps;
use chrono_units::Weekday;
use chrono_units::year::year_length;
use std::hash::Hash;

/// A stored form of a date. It means a date's day number, and each day number has exactly one form.
///
/// The examples use `PackedForm` of the crate `chrono_stored`.
pub trait DayForm: Copy + Ord + Hash {
    // The day number of the date.
    ghost number: { Self → ℤ };

    /// Returns the date with the year `year` and the day of the year `ordinal` (ISO 8601 ordinal date).
    ///
    /// Returns `None` if `year` is not from -262,143 to 262,142, or the year has no such day.
    ///
    /// ```
    /// use chrono_stored::PackedForm;
    /// PackedForm::from_yo(2024, 60)?.year_month_day() // (2024, 2, 29)
    /// PackedForm::from_yo(2023, 366) == None // true
    /// ```
    fn from_yo(year: i32, ordinal: u32) -> Option<Self>
        ensures { option_map number result ≡ date_of_yo year ordinal };

    /// Returns the date with the year `year`, the month `month` and the day `day` (ISO 8601 calendar date).
    ///
    /// Returns `None` if `year` is not from -262,143 to 262,142, `month` is not from 1 to 12, or the month has no such day.
    ///
    /// ```
    /// use chrono_stored::PackedForm;
    /// PackedForm::from_ymd(2024, 2, 29)?.ordinal() // 60
    /// PackedForm::from_ymd(2023, 2, 29) == None // true
    /// ```
    fn from_ymd(year: i32, month: u32, day: u32) -> Option<Self>
        ensures { option_map number result ≡ date_of_ymd year month day };

    // The steps that it takes to find the date with a day number.
    ghost steps_of: { ℤ → ℕ };

    /// Returns the date with the day number `days`. It adds at most three steps to `steps`.
    ///
    /// Returns `None` if `days` is not from -95,746,129 to 95,745,399.
    ///
    /// ```
    /// use chrono_stored::PackedForm;
    /// let mut steps = Steps::new();
    /// let date = PackedForm::from_day(738_945, &mut steps);
    /// steps.end();
    /// date?.year_month_day() // (2024, 2, 29)
    /// ```
    fn from_day(days: i32, steps: &mut Steps) -> Option<Self>
        ensures date { option_map number result ≡ date_of_day days }
        ensures taken { steps.new ≡ steps.old + steps_of days }
        ensures cost { steps.new ≤ steps.old + 3 };

    /// Returns the day number: 1 for 1 January of year 1. It is from -95,746,129 to 95,745,399.
    ///
    /// ```
    /// use chrono_stored::PackedForm;
    /// PackedForm::from_ymd(2024, 2, 29)?.day() // 738945
    /// ```
    fn day(&self) -> i32
        ensures value { result ≡ number self.now }
        ensures in_range { IsDate (number self.now) };

    /// Returns the proleptic Gregorian year: -262,143 to 262,142.
    ///
    /// ```
    /// use chrono_stored::PackedForm;
    /// PackedForm::from_yo(2024, 60)?.year() // 2024
    /// ```
    fn year(&self) -> i32
        ensures value { result ≡ year_of (number self.now) }
        ensures in_range { IsYear (year_of (number self.now)) };

    /// Returns the day of the year: 1 to 366.
    ///
    /// ```
    /// use chrono_stored::PackedForm;
    /// PackedForm::from_ymd(2024, 12, 31)?.ordinal() // 366
    /// ```
    fn ordinal(&self) -> u32
        ensures value { result ≡ ordinal_of (number self.now) }
        ensures exists { IsOrdinalName (year_of (number self.now)) (ordinal_of (number self.now)) };

    /// Returns the month, 1 for January, and the day of the month.
    ///
    /// ```
    /// use chrono_stored::PackedForm;
    /// PackedForm::from_yo(2024, 60)?.month_day() // (2, 29)
    /// ```
    fn month_day(&self) -> (u32, u32)
        ensures month { result.0 ≡ month_of (number self.now) }
        ensures day { result.1 ≡ day_of (number self.now) }
        ensures exists { IsCalendarName (year_of (number self.now)) (month_of (number self.now))
            (day_of (number self.now)) };

    /// Returns the year and the day of the year. It reads the form once.
    ///
    /// ```
    /// use chrono_stored::PackedForm;
    /// PackedForm::from_ymd(2024, 2, 29)?.year_ordinal() // (2024, 60)
    /// ```
    #[inline]
    fn year_ordinal(&self) -> (i32, u32)
        ensures year { result.0 ≡ year_of (number self.now) }
        ensures ordinal { result.1 ≡ ordinal_of (number self.now) }
        ensures in_range { IsYear (year_of (number self.now)) }
        ensures exists { IsOrdinalName (year_of (number self.now)) (ordinal_of (number self.now)) }
    {
        (self.year(), self.ordinal())
    }

    /// Returns the year, the month and the day of the month. It reads the form once.
    ///
    /// ```
    /// use chrono_stored::PackedForm;
    /// PackedForm::from_yo(2024, 60)?.year_month_day() // (2024, 2, 29)
    /// ```
    #[inline]
    fn year_month_day(&self) -> (i32, u32, u32)
        ensures year { result.0 ≡ year_of (number self.now) }
        ensures month { result.1 ≡ month_of (number self.now) }
        ensures day { result.2 ≡ day_of (number self.now) }
        ensures in_range { IsYear (year_of (number self.now)) }
        ensures exists { IsCalendarName (year_of (number self.now)) (month_of (number self.now)) (day_of (number self.now)) }
    {
        let (month, day) = self.month_day();
        (self.year(), month, day)
    }

    /// Returns whether the year is a leap year.
    ///
    /// ```
    /// use chrono_stored::PackedForm;
    /// PackedForm::from_yo(2024, 60)?.is_leap() // true
    /// ```
    fn is_leap(&self) -> bool
        ensures { result ≡ is_leap_year (year_of (number self.now)) };

    /// Returns the ISO year and its week: 1 to 53 (ISO 8601 week date). It reads the form once.
    ///
    /// ```
    /// use chrono_stored::PackedForm;
    /// PackedForm::from_ymd(2024, 12, 30)?.iso_name() // (2025, 1)
    /// ```
    #[inline]
    fn iso_name(&self) -> (i32, u32)
        ensures year { result.0 ≡ iso_year_of (number self.now) }
        ensures week { result.1 ≡ iso_week_of (number self.now) }
        // One year more than dates have: their last days may be in a week of the next year.
        ensures year_in_range { (neg_ℤ (pos 262_143) ≤ℤ result.0) × (result.0 ≤ℤ pos 262_143) }
        ensures week_in_range { IsInRange 1 53 result.1 }
    {
        let (year, ordinal) = self.year_ordinal();
        let place = ordinal + 3;
        let from_monday = self.weekday().num_days_from_monday();
        if place <= from_monday {
            let thursday = place + year_length(year - 1) - from_monday;
            return (year - 1, week_of_thursday(thursday));
        }
        let thursday = place - from_monday;
        // Few Thursdays come past the first 365 days, so the leap rule is seldom asked.
        if thursday <= 365 {
            return (year, week_of_thursday(thursday));
        }
        if thursday > 365 + u32::from(self.is_leap()) {
            return (year + 1, 1);
        }
        (year, week_of_thursday(thursday))
    }

    /// Returns the date `k` months later, or earlier for a negative `k`.
    ///
    /// The day of the month stays. If the new month is too short, the result is its last day. Returns `None` if the new
    /// year is not from -262,143 to 262,142.
    ///
    /// ```
    /// use chrono_stored::PackedForm;
    /// PackedForm::from_ymd(2024, 1, 31)?.move_months(1)?.year_month_day() // (2024, 2, 29)
    /// ```
    #[inline]
    fn move_months(self, k: i64) -> Option<Self>
        ensures { option_map number result ≡ month_move (number self) k }
    {
        let (year, month, day) = self.year_month_day();
        let (year, month) = month_after(year, month, k)?;
        // Few days come past the end of another month, so its length is seldom asked.
        if let Some(date) = Self::from_ymd(year, month, day) {
            return Some(date);
        }
        Self::from_ymd(year, month, day_within(year, month, day))
    }

    /// Returns the weekday.
    ///
    /// ```
    /// use chrono_stored::PackedForm;
    /// PackedForm::from_ymd(2024, 2, 29)?.weekday() // Thu
    /// ```
    fn weekday(&self) -> Weekday
        ensures { result ≡ weekday_of (number self.now) };

    // No step is taken for a number that is no date's.
    ghost no_step: { (n : ℤ) → is_date n ≡ false → steps_of n ≡ 0 };

    // Each number has one form.
    ghost one_form: { (a b : Self) → number a ≡ number b → a ≡ b };

    // Forms compare as their numbers do.
    ghost in_order: { (a b : Self) → Self.cmp a b ≡ int_cmp (number a) (number b) };
}

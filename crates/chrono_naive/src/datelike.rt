//! `Datelike`: the fields of every type that holds a date.
ghost use Rattle.std.specs.Prelude.{◌≡◌, ◌↔◌, ℤ, ◌+◌, ◌≤◌, ◌<◌, List, Some, IsSome, IfSome};
ghost use Rattle.std.specs.Int.{IsInRange};
ghost use Rattle.std.specs.Option.{option_map};
ghost use Rattle.chrono_units.specs.Years.{IsYear, month_length, year_length};
ghost use Rattle.chrono_calendar.specs.Days.{IsDate, IsOrdinalName, IsCalendarName, date_of_day, date_of_yo, date_of_ymd, year_of, ordinal_of, month_of, day_of};
ghost use Rattle.chrono_calendar.specs.Weeks.{date_of_iso, iso_week_of, iso_year_of, weekday_of};
ghost use Rattle.chrono_calendar.specs.MonthMoves.{month_length_of};
ghost use Rattle.chrono_naive.specs.Fields.{is_common_era, iso_year_and_week_of, quarter_of_month, year_of_era};

use crate::iso_week::IsoWeek;
use crate::naive_date::NaiveDate;
use chrono_units::{Month, Weekday};

/// The fields of a date, for every type that holds a date.
///
/// A contract sees such a value as the day number of its date, in which 1 January of year 1 is 1. It sees the
/// rest as a list of whole numbers. A `with_` function replaces one field of the date and keeps the rest.
///
/// Names that end in `0` count from 0.
///
/// ```
/// let date = NaiveDate::from_ymd_opt(2024, 2, 29)?;
/// (date.year(), date.month(), date.day()) // (2024, 2, 29)
/// (date.month0(), date.day0(), date.ordinal()) // (1, 28, 60)
/// ```
pub trait Datelike: Sized {
    // The day number of the date.
    ghost number: { Self → ℤ };

    // What the value holds besides its date.
    ghost rest: { Self → List ℤ };

    /// Returns the year, from -262,143 to 262,142. Year 0 is the year before year 1.
    ///
    /// ```
    /// NaiveDate::from_ymd_opt(2024, 2, 29)?.year() // 2024
    /// ```
    fn year(&self) -> i32
        ensures value { result ≡ year_of (number self.now) }
        ensures in_range { IsYear result };

    /// Returns whether the year is in the common era, and the year counted within its era.
    ///
    /// Year 1 is the first year of the common era. Year 0 is the first year before it.
    ///
    /// ```
    /// NaiveDate::from_ymd_opt(2024, 2, 29)?.year_ce() // (true, 2024)
    /// NaiveDate::from_ymd_opt(0, 2, 29)?.year_ce() // (false, 1)
    /// ```
    #[inline]
    fn year_ce(&self) -> (bool, u32)
        ensures era { result.0 ≡ is_common_era (year_of (number self.now)) }
        ensures year { result.1 ≡ year_of_era (year_of (number self.now)) }
    {
        let year = self.year();
        if year < 1 {
            (false, (1 - year) as u32)
        } else {
            (true, year as u32)
        }
    }

    /// Returns the quarter of the year, from 1 for January to March, to 4.
    ///
    /// ```
    /// NaiveDate::from_ymd_opt(2024, 4, 1)?.quarter() // 2
    /// ```
    #[inline]
    fn quarter(&self) -> u32
        ensures value { result ≡ quarter_of_month (month_of (number self.now)) }
        ensures in_range { IsInRange 1 4 result }
    {
        self.month0() / 3 + 1
    }

    /// Returns the month, from 1 for January to 12.
    ///
    /// ```
    /// NaiveDate::from_ymd_opt(2024, 2, 29)?.month() // 2
    /// ```
    fn month(&self) -> u32
        ensures value { result ≡ month_of (number self.now) }
        ensures in_range { IsInRange 1 12 result };

    /// Returns the month counted from 0, from 0 for January to 11.
    ///
    /// ```
    /// NaiveDate::from_ymd_opt(2024, 2, 29)?.month0() // 1
    /// ```
    fn month0(&self) -> u32
        ensures value { result + 1 ≡ month_of (number self.now) }
        ensures in_range { IsInRange 0 11 result };

    /// Returns the day of the month, from 1 to 31.
    ///
    /// ```
    /// NaiveDate::from_ymd_opt(2024, 2, 29)?.day() // 29
    /// ```
    fn day(&self) -> u32
        ensures value { result ≡ day_of (number self.now) }
        ensures exists { IsCalendarName (year_of (number self.now))
            (month_of (number self.now)) result }
        // The year, the month and the day name the date again.
        ensures names { date_of_ymd (year_of (number self.now)) (month_of (number self.now)) result
            ≡ Some (number self.now) };

    /// Returns the day of the month counted from 0, from 0 to 30.
    ///
    /// ```
    /// NaiveDate::from_ymd_opt(2024, 2, 29)?.day0() // 28
    /// ```
    fn day0(&self) -> u32
        ensures { result + 1 ≡ day_of (number self.now) };

    /// Returns the day of the year (ISO 8601 ordinal date), from 1 to 366.
    ///
    /// ```
    /// NaiveDate::from_ymd_opt(2024, 12, 31)?.ordinal() // 366
    /// ```
    fn ordinal(&self) -> u32
        ensures value { result ≡ ordinal_of (number self.now) }
        ensures exists { IsOrdinalName (year_of (number self.now)) result }
        // The year and the ordinal name the date again.
        ensures names { date_of_yo (year_of (number self.now)) result ≡ Some (number self.now) };

    /// Returns the day of the year counted from 0, from 0 to 365.
    ///
    /// ```
    /// NaiveDate::from_ymd_opt(2024, 12, 31)?.ordinal0() // 365
    /// ```
    fn ordinal0(&self) -> u32
        ensures { result + 1 ≡ ordinal_of (number self.now) };

    /// Returns the weekday.
    ///
    /// ```
    /// NaiveDate::from_ymd_opt(2024, 2, 29)?.weekday() // Thu
    /// ```
    fn weekday(&self) -> Weekday
        ensures value { result ≡ weekday_of (number self.now) }
        // The ISO year, the week and the weekday name the date again.
        ensures names { date_of_iso (iso_year_of (number self.now))
            (iso_week_of (number self.now)) result ≡ Some (number self.now) };

    /// Returns the ISO week (ISO 8601 week date). A week belongs to the year of its Thursday, so the ISO year
    /// may differ from the year.
    ///
    /// ```
    /// NaiveDate::from_ymd_opt(2024, 12, 30)?.iso_week() // 2025-W01
    /// ```
    fn iso_week(&self) -> IsoWeek
        ensures { result ≡ iso_year_and_week_of (number self.now) };

    /// Returns the same month and day in `year`.
    ///
    /// Returns `None` if that date does not exist: 29 February in a common year, or a year out of range.
    ///
    /// ```
    /// NaiveDate::from_ymd_opt(2024, 2, 29)?.with_year(2028) // Some(2028-02-29)
    /// NaiveDate::from_ymd_opt(2024, 2, 29)?.with_year(2025) // None
    /// ```
    fn with_year(&self, year: i32) -> Option<Self>
        ensures date { option_map number result
            ≡ date_of_ymd year (month_of (number self.now)) (day_of (number self.now)) }
        ensures exists { IsSome result
            ↔ (IsYear year × (day_of (number self.now) ≤ month_length year (month_of (number self.now)))) }
        ensures year { IfSome result (λ d. year_of (number d) ≡ year) }
        ensures month { IfSome result (λ d. month_of (number d) ≡ month_of (number self.now)) }
        ensures day { IfSome result (λ d. day_of (number d) ≡ day_of (number self.now)) }
        ensures kept { IfSome result (λ d. rest d ≡ rest self.now) };

    /// Returns the same day of `month` in the same year. January is 1.
    ///
    /// Returns `None` if that date does not exist, for example the 31st of April.
    ///
    /// ```
    /// NaiveDate::from_ymd_opt(2024, 1, 31)?.with_month(3) // Some(2024-03-31)
    /// NaiveDate::from_ymd_opt(2024, 1, 31)?.with_month(4) // None
    /// ```
    fn with_month(&self, month: u32) -> Option<Self>
        ensures date { option_map number result
            ≡ date_of_ymd (year_of (number self.now)) month (day_of (number self.now)) }
        ensures exists { IsSome result
            ↔ (IsInRange 1 12 month × (day_of (number self.now) ≤ month_length (year_of (number self.now)) month)) }
        ensures year { IfSome result (λ d. year_of (number d) ≡ year_of (number self.now)) }
        ensures month { IfSome result (λ d. month_of (number d) ≡ month) }
        ensures day { IfSome result (λ d. day_of (number d) ≡ day_of (number self.now)) }
        ensures kept { IfSome result (λ d. rest d ≡ rest self.now) };

    /// Returns the same day of the month `month0` in the same year. January is 0.
    ///
    /// Returns `None` if that date does not exist.
    ///
    /// ```
    /// NaiveDate::from_ymd_opt(2024, 1, 31)?.with_month0(2) // Some(2024-03-31)
    /// NaiveDate::from_ymd_opt(2024, 1, 31)?.with_month0(3) // None
    /// ```
    fn with_month0(&self, month0: u32) -> Option<Self>
        ensures date { option_map number result
            ≡ date_of_ymd (year_of (number self.now)) (month0 + 1) (day_of (number self.now)) }
        ensures exists { IsSome result
            ↔ ((month0 < 12) × (day_of (number self.now) ≤ month_length (year_of (number self.now)) (month0 + 1))) }
        ensures year { IfSome result (λ d. year_of (number d) ≡ year_of (number self.now)) }
        ensures month { IfSome result (λ d. month_of (number d) ≡ month0 + 1) }
        ensures day { IfSome result (λ d. day_of (number d) ≡ day_of (number self.now)) }
        ensures kept { IfSome result (λ d. rest d ≡ rest self.now) };

    /// Returns the day `day` of the same month. The first day is 1.
    ///
    /// Returns `None` if the month has no such day.
    ///
    /// ```
    /// NaiveDate::from_ymd_opt(2024, 2, 1)?.with_day(29) // Some(2024-02-29)
    /// NaiveDate::from_ymd_opt(2024, 2, 1)?.with_day(30) // None
    /// ```
    fn with_day(&self, day: u32) -> Option<Self>
        ensures date { option_map number result
            ≡ date_of_ymd (year_of (number self.now)) (month_of (number self.now)) day }
        ensures exists { IsSome result ↔ IsInRange 1 (month_length_of (number self.now)) day }
        ensures year { IfSome result (λ d. year_of (number d) ≡ year_of (number self.now)) }
        ensures month { IfSome result (λ d. month_of (number d) ≡ month_of (number self.now)) }
        ensures day { IfSome result (λ d. day_of (number d) ≡ day) }
        ensures kept { IfSome result (λ d. rest d ≡ rest self.now) };

    /// Returns the day `day0` of the same month. The first day is 0.
    ///
    /// Returns `None` if the month has no such day.
    ///
    /// ```
    /// NaiveDate::from_ymd_opt(2024, 2, 1)?.with_day0(28) // Some(2024-02-29)
    /// NaiveDate::from_ymd_opt(2024, 2, 1)?.with_day0(29) // None
    /// ```
    fn with_day0(&self, day0: u32) -> Option<Self>
        ensures date { option_map number result
            ≡ date_of_ymd (year_of (number self.now)) (month_of (number self.now)) (day0 + 1) }
        ensures exists { IsSome result ↔ (day0 < month_length_of (number self.now)) }
        ensures year { IfSome result (λ d. year_of (number d) ≡ year_of (number self.now)) }
        ensures month { IfSome result (λ d. month_of (number d) ≡ month_of (number self.now)) }
        ensures day { IfSome result (λ d. day_of (number d) ≡ day0 + 1) }
        ensures kept { IfSome result (λ d. rest d ≡ rest self.now) };

    /// Returns the day `ordinal` of the same year. 1 January is 1.
    ///
    /// Returns `None` if the year has no such day.
    ///
    /// ```
    /// NaiveDate::from_ymd_opt(2023, 1, 1)?.with_ordinal(60) // Some(2023-03-01)
    /// NaiveDate::from_ymd_opt(2023, 1, 1)?.with_ordinal(366) // None
    /// ```
    fn with_ordinal(&self, ordinal: u32) -> Option<Self>
        ensures date { option_map number result ≡ date_of_yo (year_of (number self.now)) ordinal }
        ensures exists { IsSome result ↔ IsOrdinalName (year_of (number self.now)) ordinal }
        ensures year { IfSome result (λ d. year_of (number d) ≡ year_of (number self.now)) }
        ensures ordinal { IfSome result (λ d. ordinal_of (number d) ≡ ordinal) }
        ensures kept { IfSome result (λ d. rest d ≡ rest self.now) };

    /// Returns the day `ordinal0` of the same year. 1 January is 0.
    ///
    /// Returns `None` if the year has no such day.
    ///
    /// ```
    /// NaiveDate::from_ymd_opt(2023, 1, 1)?.with_ordinal0(59) // Some(2023-03-01)
    /// NaiveDate::from_ymd_opt(2023, 1, 1)?.with_ordinal0(365) // None
    /// ```
    fn with_ordinal0(&self, ordinal0: u32) -> Option<Self>
        ensures date { option_map number result
            ≡ date_of_yo (year_of (number self.now)) (ordinal0 + 1) }
        ensures exists { IsSome result ↔ (ordinal0 < year_length (year_of (number self.now))) }
        ensures year { IfSome result (λ d. year_of (number d) ≡ year_of (number self.now)) }
        ensures ordinal { IfSome result (λ d. ordinal_of (number d) ≡ ordinal0 + 1) }
        ensures kept { IfSome result (λ d. rest d ≡ rest self.now) };

    /// Returns the day number, in which 1 January of year 1 is 1 and the day before it is 0.
    ///
    /// ```
    /// NaiveDate::from_ymd_opt(1970, 1, 1)?.num_days_from_ce() // 719163
    /// ```
    #[inline]
    fn num_days_from_ce(&self) -> i32
        ensures value { result ≡ number self.now }
        ensures in_range { IsDate result }
        // The number names the date again.
        ensures names { date_of_day result ≡ Some (number self.now) }
    {
        NaiveDate::from_yo_opt(self.year(), self.ordinal())
            .unwrap()
            .day_number()
    }

    /// Returns the number of days in the month of the date, from 28 to 31.
    ///
    /// ```
    /// NaiveDate::from_ymd_opt(2024, 2, 1)?.num_days_in_month() // 29
    /// ```
    #[inline]
    fn num_days_in_month(&self) -> u8
        ensures { result ≡ month_length (year_of (number self.now)) (month_of (number self.now)) }
    {
        Month::from_u32(self.month())
            .unwrap()
            .num_days(self.year())
            .unwrap()
    }
}

//! `NaiveDate`: a date with no time zone.
//!
//! This file has the type, its ends, and how a date is named and numbered. The modules below it have the rest:
//!
//! - `fields`: reading the fields, and replacing them
//! - `order`: comparing dates
//! - `moves`: moves, differences, weeks and iterators
//! - `months`: the ends of the date's month
//! - `ops`: the operators
//! - `text`: the printed text
ghost use Rattle.std.specs.Prelude.{◌≡◌, ◌↔◌, ◌+◌, ◌-◌, ◌*◌, ◌≤◌, ◌<◌, ℤ, pos, neg_ℤ, ◌+ℤ◌, ◌-ℤ◌, ◌<ℤ◌, ◌≤ℤ◌, length, Some, IsSome, IfSome};
ghost use Rattle.std.specs.Int.{IsInRange};
ghost use Rattle.chrono_units.specs.Years.{IsYear, is_leap_year};
ghost use Rattle.chrono_units.specs.Weekday.{number_from_monday};
ghost use Rattle.chrono_units.specs.declared.weekday.Weekday.TheVariants.{Mon};
ghost use Rattle.chrono_calendar.specs.Days.{IsDate, IsCalendarName, IsOrdinalName, date_of_day, date_of_yo, date_of_ymd, year_of, ordinal_of, month_of, day_of};
ghost use Rattle.chrono_calendar.specs.Weeks.{date_of_iso, date_of_nth_weekday, day_number_of_iso, days_with_weekday, iso_year_of, iso_week_of, weekday_of};
ghost use Rattle.chrono_calendar.specs.Flags.{IsIsoWeek, weeks_of_iso_year};
ghost use Rattle.chrono_naive.specs.Fields.{unix_epoch_day};

mod fields;
mod months;
mod moves;
mod ops;
mod order;
mod text;

use chrono_calendar::{DayForm, Steps, forms};
use chrono_units::Weekday;
use std::marker::Model;

// The form in which every date is stored.
type Form = chrono_stored::CountedForm;

// The day number of 1 January 1970.
const UNIX_EPOCH_DAY: i32 = 719_163;

/// The first date, [`NaiveDate::MIN`].
///
/// ```
/// MIN_DATE // -262143-01-01
/// ```
pub const MIN_DATE: NaiveDate = NaiveDate::MIN;

/// The last date, [`NaiveDate::MAX`].
///
/// ```
/// MAX_DATE // +262142-12-31
/// ```
pub const MAX_DATE: NaiveDate = NaiveDate::MAX;

/// A date of the proleptic Gregorian calendar, with no time zone, from -262143-01-01 to +262142-12-31. As in
/// ISO 8601, year 0 is the year before year 1.
///
/// Contracts see a date as its day number, in which 1 January of year 1 is 1. Dates are equal, ordered and
/// hashed as that number. The default is 1 January 1970.
#[derive(Clone, Copy, PartialEq, Eq, Hash)]
pub struct NaiveDate {
    form: Form,
}

impl Model for NaiveDate {
    ghost use Rattle.std.specs.Prelude.{ℤ};

    ghost Value = { ℤ };

    ghost view = { λ d. d.form };

    ghost inverse = { λ n. record { form = n } };
}

impl NaiveDate {
    /// The first date: 1 January of year -262,143, a Thursday.
    ///
    /// ```
    /// NaiveDate::MIN // -262143-01-01
    /// ```
    pub const MIN: NaiveDate = NaiveDate { form: Form::MIN };

    /// The last date: 31 December of year 262,142, a Monday.
    ///
    /// ```
    /// NaiveDate::MAX // +262142-12-31
    /// ```
    pub const MAX: NaiveDate = NaiveDate { form: Form::MAX };

    /// Returns the date with this calendar name (ISO 8601 calendar date).
    ///
    /// Returns `None` if the date does not exist. A year is from -262,143 to 262,142, a month is from 1 to 12,
    /// and a day is from 1 to the month's last day.
    ///
    /// ```
    /// NaiveDate::from_ymd_opt(2024, 2, 29) // Some(2024-02-29)
    /// NaiveDate::from_ymd_opt(1900, 2, 29) // None
    /// ```
    #[inline]
    pub fn from_ymd_opt(year: i32, month: u32, day: u32) -> Option<NaiveDate>
        ensures date { result ≡ date_of_ymd year month day }
        ensures exists { IsSome result ↔ (IsYear year × IsCalendarName year month day) }
        // The date has that name.
        ensures year { IfSome result (λ e. year_of e ≡ year) }
        ensures month { IfSome result (λ e. month_of e ≡ month) }
        ensures day { IfSome result (λ e. day_of e ≡ day) }
    {
        Some(NaiveDate {
            form: Form::from_ymd(year, month, day)?,
        })
    }

    /// Returns the day `ordinal` of `year` (ISO 8601 ordinal date). 1 January is 1.
    ///
    /// Returns `None` if the date does not exist. A year is from -262,143 to 262,142, and an ordinal is from 1
    /// to the number of days in the year.
    ///
    /// ```
    /// NaiveDate::from_yo_opt(2024, 366) // Some(2024-12-31)
    /// NaiveDate::from_yo_opt(2023, 366) // None
    /// ```
    #[inline]
    pub fn from_yo_opt(year: i32, ordinal: u32) -> Option<NaiveDate>
        ensures date { result ≡ date_of_yo year ordinal }
        ensures exists { IsSome result ↔ (IsYear year × IsOrdinalName year ordinal) }
        // The date has that name.
        ensures year { IfSome result (λ e. year_of e ≡ year) }
        ensures ordinal { IfSome result (λ e. ordinal_of e ≡ ordinal) }
    {
        Some(NaiveDate {
            form: Form::from_yo(year, ordinal)?,
        })
    }

    /// Returns the date with this ISO year, week and weekday (ISO 8601 week date).
    ///
    /// Returns `None` if the week is 0 or is past the last week of the ISO year, which is 52 or 53. Also
    /// returns `None` if the day is before [`MIN`](Self::MIN) or after [`MAX`](Self::MAX).
    ///
    /// The ISO year can be 262,143, one more than the last year: the Monday of its week 1 is the last date.
    ///
    /// ```
    /// NaiveDate::from_isoywd_opt(2020, 53, Weekday::Sun) // Some(2021-01-03)
    /// NaiveDate::from_isoywd_opt(2021, 53, Weekday::Mon) // None
    /// ```
    #[inline]
    pub fn from_isoywd_opt(year: i32, week: u32, weekday: Weekday) -> Option<NaiveDate>
        ensures date { result ≡ date_of_iso year week weekday }
        ensures exists { IsSome result ↔ (IsIsoWeek year week
            × IsDate (day_number_of_iso year week (number_from_monday weekday))) }
        // Of all ISO years but the first and the last that dates have, each day is a date.
        ensures inside { neg_ℤ (pos 262_143) <ℤ year → year <ℤ pos 262_143 → IsIsoWeek year week →
            IsSome result }
        ensures weeks { IsInRange 52 53 (weeks_of_iso_year year) }
        // The Monday of week 1 is the first day of the ISO year.
        ensures first { week ≡ 1 → weekday ≡ Mon →
            IfSome result (λ e. (d : ℤ) → iso_year_of d ≡ year → e ≤ℤ d) }
        // The day before that Monday is of the ISO year before.
        ensures before { week ≡ 1 → weekday ≡ Mon →
            IfSome result (λ e. iso_year_of (e -ℤ pos 1) ≡ year -ℤ pos 1) }
        // Of the ISO years that dates have, only the first has no such date.
        ensures first_exists { week ≡ 1 → weekday ≡ Mon →
            IsSome result ↔ ((neg_ℤ (pos 262_143) <ℤ year) × (year ≤ℤ pos 262_143)) }
        // The date has that name.
        ensures year { IfSome result (λ e. iso_year_of e ≡ year) }
        ensures week { IfSome result (λ e. iso_week_of e ≡ week) }
        ensures weekday { IfSome result (λ e. weekday_of e ≡ weekday) }
    {
        Some(NaiveDate {
            form: forms::from_iso(year, week, weekday)?,
        })
    }

    /// Returns the `n`-th `weekday` of the month, counted from 1.
    ///
    /// Returns `None` if `n` is 0 or the month has fewer such days. Also returns `None` if the month is not
    /// from 1 to 12, or the year is not from -262,143 to 262,142.
    ///
    /// ```
    /// NaiveDate::from_weekday_of_month_opt(2024, 2, Weekday::Thu, 5) // Some(2024-02-29)
    /// NaiveDate::from_weekday_of_month_opt(2024, 2, Weekday::Fri, 5) // None
    /// ```
    #[inline]
    pub fn from_weekday_of_month_opt(
        year: i32,
        month: u32,
        weekday: Weekday,
        n: u8,
    ) -> Option<NaiveDate>
        ensures date { result ≡ date_of_nth_weekday year month weekday n }
        ensures exists { IsSome result ↔ (IsYear year × IsInRange 1 12 month
            × IsInRange 1 (length (days_with_weekday year month weekday)) n) }
        // Each month has four days with each weekday.
        ensures first_four { IsYear year → IsInRange 1 12 month → IsInRange 1 4 n → IsSome result }
        ensures year { IfSome result (λ e. year_of e ≡ year) }
        ensures month { IfSome result (λ e. month_of e ≡ month) }
        ensures weekday { IfSome result (λ e. weekday_of e ≡ weekday) }
        // It is one of the n-th seven days of the month.
        ensures after { IfSome result (λ e. 7 * (n - 1) < day_of e) }
        ensures up_to { IfSome result (λ e. day_of e ≤ 7 * n) }
        // The one day of those seven that has the weekday is the result.
        ensures only { (e : ℤ) → IsYear year → year_of e ≡ year → month_of e ≡ month →
            weekday_of e ≡ weekday → 7 * (n - 1) < day_of e → day_of e ≤ 7 * n →
            result ≡ Some e }
    {
        Some(NaiveDate {
            form: forms::nth_weekday(year, month, weekday, n)?,
        })
    }

    /// Returns the date with the day number `days`, in which 1 January of year 1 is 1.
    ///
    /// Returns `None` if `days` is not from -95,746,129 to 95,745,399.
    ///
    /// ```
    /// NaiveDate::from_num_days_from_ce_opt(719_163) // Some(1970-01-01)
    /// NaiveDate::from_num_days_from_ce_opt(95_745_400) // None
    /// ```
    #[inline]
    pub fn from_num_days_from_ce_opt(days: i32) -> Option<NaiveDate>
        ensures date { result ≡ date_of_day days }
        ensures exists { IsSome result ↔ IsDate days }
        ensures number { IfSome result (λ e. e ≡ days) }
    {
        let mut steps = Steps::new();
        let date = NaiveDate::from_num_days_from_ce_counted(days, &mut steps);
        steps.end();
        date
    }

    /// Returns the date with the day number `days`, as
    /// [`from_num_days_from_ce_opt`](Self::from_num_days_from_ce_opt) does, and counts the steps in `steps`. It
    /// takes no step, whether the date exists or not.
    ///
    /// ```
    /// use chrono_calendar::Steps;
    /// let mut steps = Steps::new();
    /// let date = NaiveDate::from_num_days_from_ce_counted(719_163, &mut steps);
    /// steps.end();
    /// date // Some(1970-01-01)
    /// ```
    #[inline]
    pub fn from_num_days_from_ce_counted(days: i32, steps: &mut Steps) -> Option<NaiveDate>
        ensures date { result ≡ date_of_day days }
        // No step is taken: what is stored is found without a table.
        ensures taken { steps.new ≡ steps.old }
        ensures kept { steps.old ≤ steps.new }
        ensures cost { steps.new ≤ steps.old + 3 }
    {
        Some(NaiveDate {
            form: Form::from_day(days, steps)?,
        })
    }

    /// Returns the date `days` days after 1 January 1970, or before it if `days` is negative.
    ///
    /// Returns `None` if `days` is not from -96,465,292 to 95,026,236.
    ///
    /// ```
    /// NaiveDate::from_epoch_days(1) // Some(1970-01-02)
    /// NaiveDate::from_epoch_days(-1) // Some(1969-12-31)
    /// NaiveDate::from_epoch_days(95_026_237) // None
    /// ```
    #[inline]
    pub fn from_epoch_days(days: i32) -> Option<NaiveDate>
        ensures date { result ≡ date_of_day (days +ℤ unix_epoch_day) }
        ensures exists { IsSome result ↔ IsDate (days +ℤ unix_epoch_day) }
        ensures number { IfSome result (λ e. e ≡ days +ℤ unix_epoch_day) }
        // The days from 1 January 1970 to the answer are the number again.
        ensures back { IfSome result (λ e. e -ℤ unix_epoch_day ≡ days) }
    {
        NaiveDate::from_num_days_from_ce_opt(days.checked_add(UNIX_EPOCH_DAY)?)
    }

    /// Returns the number of days from 1 January 1970 to this date, negative for an earlier date.
    ///
    /// ```
    /// NaiveDate::from_ymd_opt(2000, 1, 1)?.to_epoch_days() // 10957
    /// ```
    #[inline]
    pub fn to_epoch_days(&self) -> i32
        ensures { result ≡ self.now -ℤ unix_epoch_day }
    {
        self.day_number() - UNIX_EPOCH_DAY
    }

    // The day number.
    #[inline]
    pub(crate) fn day_number(&self) -> i32
        ensures value { result ≡ self.now }
        ensures in_range { IsDate result }
    {
        self.form.day()
    }

    /// Returns whether the year of the date is a leap year.
    ///
    /// ```
    /// NaiveDate::from_ymd_opt(2000, 1, 1)?.leap_year() // true
    /// NaiveDate::from_ymd_opt(1900, 1, 1)?.leap_year() // false
    /// ```
    #[inline]
    pub fn leap_year(&self) -> bool
        ensures { result ≡ is_leap_year (year_of self.now) }
    {
        self.form.is_leap()
    }
}

impl Default for NaiveDate {
    ghost is_default = { λ d. d ≡ unix_epoch_day };

    /// Returns 1 January 1970.
    #[inline]
    fn default() -> NaiveDate {
        NaiveDate::from_num_days_from_ce_opt(UNIX_EPOCH_DAY).unwrap()
    }
}

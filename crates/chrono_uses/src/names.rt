//! A date read and named again, two ways to one date, and dates made from names.
ghost use Rattle.std.specs.Prelude.{◌≡◌, ◌*◌, ◌+ℤ◌, ◌<ℤ◌, pos, neg_ℤ, Some, IsSome, IfSome, unwrap_or};
ghost use Rattle.std.specs.Int.{IsInRange};
ghost use Rattle.chrono_datetime.specs.Years.{IsYear, month_length};
ghost use Rattle.chrono_datetime.specs.Days.{IsCalendarName, year_of, month_of, day_of};
ghost use Rattle.chrono_datetime.specs.Weeks.{iso_year_of, iso_week_of, weekday_of};
ghost use Rattle.chrono_datetime.specs.MonthMoves.{month_index_of, month_length_of};
ghost use Rattle.chrono_datetime.specs.Fields.{quarter_of_month};
ghost use Rattle.chrono_datetime.specs.declared.Weekday.TheVariants.{Mon, Thu};

use chrono_datetime::{Datelike, Months, NaiveDate, NaiveDateTime, TimeDelta, Weekday};

/// The date with the day number of a date: the same date.
pub fn by_number(date: NaiveDate) -> Option<NaiveDate>
    ensures { result ≡ Some date }
{
    NaiveDate::from_num_days_from_ce_opt(date.num_days_from_ce())
}

/// The date with the calendar name of a date: the same date.
pub fn by_calendar_name(date: NaiveDate) -> Option<NaiveDate>
    ensures { result ≡ Some date }
{
    NaiveDate::from_ymd_opt(date.year(), date.month(), date.day())
}

/// The date with the ordinal name of a date: the same date.
pub fn by_ordinal_name(date: NaiveDate) -> Option<NaiveDate>
    ensures { result ≡ Some date }
{
    NaiveDate::from_yo_opt(date.year(), date.ordinal())
}

/// The date with the ISO year, the week and the weekday of a date: the same date.
pub fn by_iso_name(date: NaiveDate) -> Option<NaiveDate>
    ensures { result ≡ Some date }
{
    let week = date.iso_week();
    NaiveDate::from_isoywd_opt(week.year(), week.week(), date.weekday())
}

/// The date, or 1 January 1970 where there is none.
pub fn or_epoch(date: Option<NaiveDate>) -> NaiveDate
    ensures { result ≡ unwrap_or date (pos 719_163) }
{
    date.unwrap_or_default()
}

/// The date where a duration leads back: it is where the negated duration leads.
pub fn moved_back(date: NaiveDate, by: TimeDelta) -> (Option<NaiveDate>, Option<NaiveDate>)
    ensures { result.0 ≡ result.1 }
{
    (date.checked_sub_signed(by), date.checked_add_signed(-by))
}

/// The first day of the date's month.
pub fn first_of_month(date: NaiveDate) -> NaiveDate
    ensures year { year_of result ≡ year_of date }
    ensures month { month_of result ≡ month_of date }
    ensures day { day_of result ≡ 1 }
{
    date.with_day(1).unwrap()
}

/// The last day of the date's month.
pub fn last_of_month(date: NaiveDate) -> NaiveDate
    ensures year { year_of result ≡ year_of date }
    ensures month { month_of result ≡ month_of date }
    ensures day { day_of result ≡ month_length_of date }
{
    date.with_day(u32::from(date.num_days_in_month())).unwrap()
}

/// The last day of the date's year.
pub fn last_of_year(date: NaiveDate) -> NaiveDate
    ensures year { year_of result ≡ year_of date }
    ensures month { month_of result ≡ 12 }
    ensures day { day_of result ≡ 31 }
{
    NaiveDate::from_ymd_opt(date.year(), 12, 31).unwrap()
}

/// The last day of the date's quarter.
pub fn end_of_quarter(date: NaiveDate) -> NaiveDate
    ensures year { year_of result ≡ year_of date }
    ensures month { month_of result ≡ 3 * quarter_of_month (month_of date) }
    ensures day { day_of result ≡ month_length_of result }
{
    let first = first_of_month(date);
    last_of_month(first.with_month(3 * date.quarter()).unwrap())
}

/// The first day of the month after the date's, if the library has that month.
pub fn first_of_next_month(date: NaiveDate) -> Option<NaiveDate>
    ensures month { IfSome result (λ e. month_index_of e ≡ month_index_of date +ℤ pos 1) }
    ensures day { IfSome result (λ e. day_of e ≡ 1) }
{
    first_of_month(date).checked_add_months(Months::new(1))
}

/// The date with a name of the calendar, in a year of the library.
pub fn named(year: i32, month: u32, day: u32) -> NaiveDate
    requires year { IsYear year }
    requires name { IsCalendarName year month day }
    ensures year { year_of result ≡ year }
    ensures month { month_of result ≡ month }
    ensures day { day_of result ≡ day }
{
    NaiveDate::from_ymd_opt(year, month, day).unwrap()
}

/// The Monday of the first week of an ISO year (ISO 8601), if it is a date: of the first ISO year that dates have it is none.
pub fn first_monday(year: i32) -> Option<NaiveDate>
    ensures exists { neg_ℤ (pos 262_143) <ℤ year → year <ℤ pos 262_143 → IsSome result }
    ensures year { IfSome result (λ e. iso_year_of e ≡ year) }
    ensures week { IfSome result (λ e. iso_week_of e ≡ 1) }
    ensures weekday { IfSome result (λ e. weekday_of e ≡ Mon) }
{
    NaiveDate::from_isoywd_opt(year, 1, Weekday::Mon)
}

/// The fourth Thursday of November, if the library has the year.
pub fn fourth_thursday_of_november(year: i32) -> Option<NaiveDate>
    ensures exists { IsYear year → IsSome result }
    ensures weekday { IfSome result (λ e. weekday_of e ≡ Thu) }
    ensures day { IfSome result (λ e. IsInRange 22 28 (day_of e)) }
{
    NaiveDate::from_weekday_of_month_opt(year, 11, Weekday::Thu, 4)
}

/// The date-time at the same time of day on the first of its month.
pub fn first_of_its_month(start: NaiveDateTime) -> NaiveDateTime
    ensures year { year_of result.date ≡ year_of start.date }
    ensures month { month_of result.date ≡ month_of start.date }
    ensures day { day_of result.date ≡ 1 }
    ensures time { result.time ≡ start.time }
{
    start.with_day(1).unwrap()
}

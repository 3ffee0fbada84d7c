//! Dates by their names.
ghost use Rattle.std.specs.Prelude.{◌≡◌, ◌↔◌, IsSome};
ghost use Rattle.std.specs.Option.{option_and_then};
ghost use Rattle.chrono_datetime.specs.Days.{IsDate, date_of_yo, date_of_ymd};
ghost use Rattle.chrono_datetime.specs.Weeks.{date_of_iso, date_of_nth_weekday};
ghost use Rattle.numbers_c.specs.Answers.{or_none};
ghost use Rattle.numbers_c.specs.Arguments.{weekday_numbered};

use chrono_datetime::NaiveDate;
use numbers_c::{NONE, number_or_none, weekday_of};

/// Returns the date of a year, a month from 1 to 12 and a day of the month from 1 (ISO 8601 calendar date).
#[unsafe(no_mangle)]
pub extern "C" fn calendar_from_ymd(year: i32, month: u32, day: u32) -> i32
    ensures number { result ≡ or_none (date_of_ymd year month day) }
    // None is no date, so the answer tells whether there is one.
    ensures exists { IsDate result ↔ IsSome (date_of_ymd year month day) }
{
    number_or_none(NaiveDate::from_ymd_opt(year, month, day))
}

/// Returns the date of a year and a day of it from 1 (ISO 8601 ordinal date).
#[unsafe(no_mangle)]
pub extern "C" fn calendar_from_yo(year: i32, ordinal: u32) -> i32
    ensures number { result ≡ or_none (date_of_yo year ordinal) }
    ensures exists { IsDate result ↔ IsSome (date_of_yo year ordinal) }
{
    number_or_none(NaiveDate::from_yo_opt(year, ordinal))
}

/// Returns the date of an ISO year, a week of it from 1 and a weekday (ISO 8601 week date).
#[unsafe(no_mangle)]
pub extern "C" fn calendar_from_isoywd(year: i32, week: u32, weekday: u32) -> i32
    ensures number { result
        ≡ or_none (option_and_then (date_of_iso year week) (weekday_numbered weekday)) }
    ensures exists { IsDate result
        ↔ IsSome (option_and_then (date_of_iso year week) (weekday_numbered weekday)) }
{
    let Some(weekday) = weekday_of(weekday) else {
        return NONE;
    };
    number_or_none(NaiveDate::from_isoywd_opt(year, week, weekday))
}

/// Returns the `n`-th day of a month that has the weekday, counted from 1.
#[unsafe(no_mangle)]
pub extern "C" fn calendar_from_weekday_of_month(year: i32, month: u32, weekday: u32, n: u32) -> i32
    ensures number { result ≡ or_none
        (option_and_then (λ d. date_of_nth_weekday year month d n) (weekday_numbered weekday)) }
    ensures exists { IsDate result ↔ IsSome
        (option_and_then (λ d. date_of_nth_weekday year month d n) (weekday_numbered weekday)) }
{
    let Some(weekday) = weekday_of(weekday) else {
        return NONE;
    };
    let Ok(n) = u8::try_from(n) else {
        return NONE;
    };
    number_or_none(NaiveDate::from_weekday_of_month_opt(year, month, weekday, n))
}

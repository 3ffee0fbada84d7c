//! What a date is called, and the lengths of years and months.
ghost use Rattle.std.specs.Prelude.{◌≡◌};
ghost use Rattle.std.specs.Option.{option_map};
ghost use Rattle.chrono_units.specs.Years.{is_leap_year as leap_rule};
ghost use Rattle.chrono_units.specs.Weekday.{number_from_monday};
ghost use Rattle.chrono_datetime.specs.Days.{date_of_day, year_of, month_of, day_of, ordinal_of};
ghost use Rattle.chrono_datetime.specs.Weeks.{iso_week_of, iso_year_of, weekday_of};
ghost use Rattle.numbers_c.specs.Answers.{count_or_none, or_none};
ghost use Rattle.numbers_c.specs.Arguments.{days_in_month};

use chrono_datetime::{Datelike, Month};
use chrono_units::year::is_leap_year;
use numbers_c::{NONE, date_of};

/// Returns the year of a date, from -262,143 to 262,142.
#[unsafe(no_mangle)]
pub extern "C" fn calendar_year(date: i32) -> i32
    ensures { result ≡ or_none (option_map year_of (date_of_day date)) }
{
    match date_of(date) {
        Some(date) => date.year(),
        None => NONE,
    }
}

/// Returns the month of a date, from 1 for January to 12.
#[unsafe(no_mangle)]
pub extern "C" fn calendar_month(date: i32) -> i32
    ensures { result ≡ count_or_none (option_map month_of (date_of_day date)) }
{
    match date_of(date) {
        Some(date) => date.month() as i32,
        None => NONE,
    }
}

/// Returns the day of the month of a date, from 1 to 31.
#[unsafe(no_mangle)]
pub extern "C" fn calendar_day(date: i32) -> i32
    ensures { result ≡ count_or_none (option_map day_of (date_of_day date)) }
{
    match date_of(date) {
        Some(date) => date.day() as i32,
        None => NONE,
    }
}

/// Returns the day of the year of a date, from 1 to 366 (ISO 8601 ordinal date).
#[unsafe(no_mangle)]
pub extern "C" fn calendar_ordinal(date: i32) -> i32
    ensures { result ≡ count_or_none (option_map ordinal_of (date_of_day date)) }
{
    match date_of(date) {
        Some(date) => date.ordinal() as i32,
        None => NONE,
    }
}

/// Returns the weekday of a date, from 1 for Monday to 7 for Sunday.
#[unsafe(no_mangle)]
pub extern "C" fn calendar_weekday(date: i32) -> i32
    ensures { result
        ≡ count_or_none (option_map (λ n. number_from_monday (weekday_of n)) (date_of_day date)) }
{
    match date_of(date) {
        Some(date) => date.weekday().number_from_monday() as i32,
        None => NONE,
    }
}

/// Returns the ISO year, from -262,143 to 262,143: that of the Thursday of the date's week (ISO 8601 week date).
#[unsafe(no_mangle)]
pub extern "C" fn calendar_iso_year(date: i32) -> i32
    ensures { result ≡ or_none (option_map iso_year_of (date_of_day date)) }
{
    match date_of(date) {
        Some(date) => date.iso_week().year(),
        None => NONE,
    }
}

/// Returns the week of the ISO year, from 1 to 53.
#[unsafe(no_mangle)]
pub extern "C" fn calendar_iso_week(date: i32) -> i32
    ensures { result ≡ count_or_none (option_map iso_week_of (date_of_day date)) }
{
    match date_of(date) {
        Some(date) => date.iso_week().week() as i32,
        None => NONE,
    }
}

/// Returns whether a year is a leap year: a multiple of 4, and if of 100 then also of 400.
#[unsafe(no_mangle)]
pub extern "C" fn calendar_is_leap_year(year: i32) -> bool
    ensures { result ≡ leap_rule year }
{
    is_leap_year(year)
}

/// Returns the days of a month from 1 for January to 12, in a year that has dates.
#[unsafe(no_mangle)]
pub extern "C" fn calendar_days_in_month(year: i32, month: u32) -> i32
    ensures { result ≡ count_or_none (days_in_month year month) }
{
    let Some(month) = Month::from_u32(month) else {
        return NONE;
    };
    match month.num_days(year) {
        Some(days) => i32::from(days),
        None => NONE,
    }
}

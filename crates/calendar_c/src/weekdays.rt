//! Weeks, and the days that have one of some weekdays.
ghost use Rattle.std.specs.Prelude.{◌≡◌};
ghost use Rattle.std.specs.Option.{option_and_then};
ghost use Rattle.chrono_units.specs.SetDigits.{set_at};
ghost use Rattle.chrono_units.specs.WeekdaySet.{days_until};
ghost use Rattle.chrono_datetime.specs.Days.{date_of_day};
ghost use Rattle.chrono_datetime.specs.Weeks.{week_first_of};
ghost use Rattle.chrono_datetime.specs.Recurrence.{date_on};
ghost use Rattle.numbers_c.specs.Answers.{count_or_none, or_none};
ghost use Rattle.numbers_c.specs.Arguments.{weekday_numbered};

use numbers_c::{NONE, date_of, number_or_none, set_of, weekday_of};

/// Returns the first day of the week that contains the date and begins on the weekday `start`.
#[unsafe(no_mangle)]
pub extern "C" fn calendar_week_first_day(date: i32, start: u32) -> i32
    ensures { result
        ≡ or_none (option_and_then (λ n. option_and_then (λ d. date_of_day (week_first_of n d)) (weekday_numbered start)) (date_of_day date)) }
{
    let Some(date) = date_of(date) else {
        return NONE;
    };
    match weekday_of(start) {
        Some(start) => number_or_none(date.week(start).checked_first_day()),
        None => NONE,
    }
}

/// Returns the first date whose weekday is in the set, from `date` on, which counts too.
#[unsafe(no_mangle)]
pub extern "C" fn calendar_first_on(date: i32, weekdays: u8) -> i32
    ensures { result
        ≡ or_none (option_and_then (λ n. date_on n (set_at weekdays)) (date_of_day date)) }
{
    match date_of(date) {
        Some(date) => number_or_none(date.first_on(set_of(weekdays))),
        None => NONE,
    }
}

/// Returns the days from a weekday to the next one in the set, from 0 to 6, or none if the set is empty.
#[unsafe(no_mangle)]
pub extern "C" fn calendar_days_until(weekdays: u8, from: u32) -> i32
    ensures { result
        ≡ count_or_none (option_and_then (days_until (set_at weekdays)) (weekday_numbered from)) }
{
    let Some(from) = weekday_of(from) else {
        return NONE;
    };
    match set_of(weekdays).days_until(from) {
        Some(days) => days as i32,
        None => NONE,
    }
}

//! Moves of dates, and how far dates are apart.
ghost use Rattle.std.specs.Prelude.{◌≡◌, ◌+ℤ◌};
ghost use Rattle.std.specs.Option.{option_and_then};
ghost use Rattle.chrono_datetime.specs.Days.{date_of_day};
ghost use Rattle.chrono_datetime.specs.MonthMoves.{month_move};
ghost use Rattle.chrono_datetime.specs.Recurrence.{date_every};
ghost use Rattle.chrono_datetime.specs.YearsBetween.{years_between};
ghost use Rattle.numbers_c.specs.Answers.{count_or_none, or_none};

use numbers_c::{NONE, date_of, number_or_none};

/// Returns the date `days` days later, or earlier if `days` is negative.
#[unsafe(no_mangle)]
pub extern "C" fn calendar_add_days(date: i32, days: i64) -> i32
    ensures { result
        ≡ or_none (option_and_then (λ n. date_of_day (n +ℤ days)) (date_of_day date)) }
{
    match date_of(date) {
        Some(date) => number_or_none(date.moved_by_days(days)),
        None => NONE,
    }
}

/// Returns the date `months` months later, or earlier if `months` is negative. If that month is too short, returns its
/// last day.
#[unsafe(no_mangle)]
pub extern "C" fn calendar_add_months(date: i32, months: i64) -> i32
    ensures { result
        ≡ or_none (option_and_then (λ n. month_move n months) (date_of_day date)) }
{
    match date_of(date) {
        Some(date) => number_or_none(date.moved_by_months(months)),
        None => NONE,
    }
}

/// Returns the date `index` times `months` months after `start`, in one move. Negative months lead back.
#[unsafe(no_mangle)]
pub extern "C" fn calendar_every_months(start: i32, months: i32, index: u32) -> i32
    ensures { result
        ≡ or_none (option_and_then (λ n. date_every n months index) (date_of_day start)) }
{
    match date_of(start) {
        Some(start) => number_or_none(start.every_months(months, index)),
        None => NONE,
    }
}

/// Returns the whole years from `base` to `date`, or none if `date` comes before `base`.
#[unsafe(no_mangle)]
pub extern "C" fn calendar_years_since(date: i32, base: i32) -> i32
    ensures { result
        ≡ count_or_none (option_and_then (λ n. option_and_then (years_between n) (date_of_day base)) (date_of_day date)) }
{
    let Some(date) = date_of(date) else {
        return NONE;
    };
    let Some(base) = date_of(base) else {
        return NONE;
    };
    match date.years_since(base) {
        Some(years) => years as i32,
        None => NONE,
    }
}

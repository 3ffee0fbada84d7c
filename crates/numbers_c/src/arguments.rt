//! What the numbers of arguments say.
ghost use Rattle.std.specs.Prelude.{◌≡◌, ◌==◌, ◌&&◌, ◌||◌, IfSome};
ghost use Rattle.std.specs.Int.{bit_at};
ghost use Rattle.chrono_units.specs.SetDigits.{set_at};
ghost use Rattle.chrono_units.specs.Weekday.{days_from_monday};
ghost use Rattle.chrono_units.specs.WeekdaySet.{contains, days_where, weekday_eq};
ghost use Rattle.chrono_datetime.specs.Days.{IsDate, date_of_day};
ghost use Rattle.numbers_c.specs.Arguments.{weekday_numbered};

use chrono_datetime::{NaiveDate, Weekday, WeekdaySet};

/// Returns the date with a day number. Returns `None` if there is none.
///
/// ```
/// date_of(738_945) // Some(2024-02-29)
/// ```
#[inline]
pub fn date_of(number: i32) -> Option<NaiveDate>
    ensures date { result ≡ date_of_day number }
    ensures in_range { IfSome result (λ n. IsDate n) }
{
    NaiveDate::from_num_days_from_ce_opt(number)
}

/// Returns the weekday with a number from 1 for Monday to 7 for Sunday. Returns `None` for other numbers.
///
/// ```
/// weekday_of(7) // Some(Sun)
/// ```
#[inline]
pub fn weekday_of(number: u32) -> Option<Weekday>
    ensures { result ≡ weekday_numbered number }
{
    Weekday::from_u32(number.wrapping_sub(1))
}

/// Returns the set of the weekdays whose binary digits are 1. Monday's digit is the lowest. The highest digit counts for nothing.
///
/// ```
/// set_of(96) // WeekdaySet(1100000)
/// ```
#[inline]
pub fn set_of(digits: u8) -> WeekdaySet
    ensures { result ≡ set_at digits }
{
    let set = with_digit(WeekdaySet::default(), digits, Weekday::Mon);
    let set = with_digit(set, digits, Weekday::Tue);
    let set = with_digit(set, digits, Weekday::Wed);
    let set = with_digit(set, digits, Weekday::Thu);
    let set = with_digit(set, digits, Weekday::Fri);
    let set = with_digit(set, digits, Weekday::Sat);
    with_digit(set, digits, Weekday::Sun)
}

// The days of a set, and the day too if its digit is 1.
#[inline]
fn with_digit(set: WeekdaySet, digits: u8, day: Weekday) -> WeekdaySet
    ensures { result ≡ days_where (λ d.
        (weekday_eq d day && (bit_at digits (days_from_monday d) == 1)) || contains set d) }
{
    if digits >> day.num_days_from_monday() & 1 == 1 {
        WeekdaySet::single(day).union(set)
    } else {
        set
    }
}

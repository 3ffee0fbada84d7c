//! Conversions between a day number and a year, month and day, by closed formulas.
//!
//! Years go from March to February here, so the leap day is the last day of a year. The lengths of the months from
//! March on are so even that one linear formula, rounded down, gives the month of a day. Another gives the days before
//! a month. January and February are the months 13 and 14 of the year before.

ghost use Rattle.std.specs.Prelude.{◌≡◌, ◌+◌, ◌-◌, ◌*◌, ◌/◌, ◌%◌, ◌<◌, ◌≤◌, pos, ◌+ℤ◌, ◌-ℤ◌, unsigned_abs, SomeIff};
ghost use Rattle.std.specs.Int.{IsInRange};
ghost use Rattle.chrono_units.specs.Years.{IsYear};
ghost use Rattle.chrono_calendar.specs.Days.{IsDate, IsCalendarName, year_of, month_of, day_of, days_before_year, day_number_of_ymd};
ghost use Rattle.chrono_calendar.specs.MonthMoves.{day_number_in_month, month_index_of, year_of_month_index};

use crate::conversion::{days_before_day, days_to_year, year_after, years_and_place};
use chrono_calendar::counted_years::DAYS_TO_ONE;
use chrono_units::year::{is_year, year_length};

// The days from 1 March to 31 December, by which a year from March is ahead.
const DAYS_FROM_MARCH: u32 = 306;

// The months from March of the year -262,400 to the first month of the library, January of the year -262,143, and to the
// last, December of the year 262,142.
const FIRST_MONTH: i64 = 3_082;

const LAST_MONTH: i64 = 6_294_513;

// The month of a day of a year from March, from 3 to 14, and the place of the day there, from 1.
#[inline]
fn month_from_march(place: u32) -> (u32, u32)
    requires { place < 366 }
    ensures month { result.0 ≡ (2141 * place + 197_913) / 65_536 }
    ensures day { result.1 ≡ (2141 * place + 197_913) % 65_536 / 2141 + 1 }
{
    let scaled = 2_141 * place + 197_913;
    (scaled / 65_536, scaled % 65_536 / 2_141 + 1)
}

/// Returns the year, the month and the day of the month of the day with the number `days`.
#[inline]
pub(crate) fn year_month_day(days: i32) -> (i32, u32, u32)
    requires { IsDate days }
    ensures year { result.0 ≡ year_of days }
    ensures month { result.1 ≡ month_of days }
    ensures day { result.2 ≡ day_of days }
{
    let (years, place) = years_and_place(days_before_day(days) + DAYS_FROM_MARCH);
    let (month, day) = month_from_march(place);
    if place < DAYS_FROM_MARCH {
        (year_after(years) - 1, month, day)
    } else {
        (year_after(years), month - 12, day)
    }
}

// The days of a year from March before a month, from 3 to 14; for 15, those to the end of a February of 30 days.
#[inline]
fn days_before_month(month: u32) -> u32
    requires { IsInRange 3 15 month }
    ensures { result ≡ (979 * month - 2919) / 32 }
{
    (979 * month - 2_919) / 32
}

/// Returns the number of months from March of the year -262,400 to the month of a day, and the day of that month.
#[inline]
pub(crate) fn months_and_day(days: i32) -> (u32, u32)
    requires { IsDate days }
    ensures months { pos result.0 ≡ month_index_of days +ℤ pos 3_148_798 }
    ensures day { result.1 ≡ day_of days }
    ensures day_in_range { IsInRange 1 31 result.1 }
{
    let (years, place) = years_and_place(days_before_day(days) + DAYS_FROM_MARCH);
    let (month, day) = month_from_march(place);
    (years * 12 + month - 3, day)
}

/// Returns `months + k`, if that is a month of the library. `k` can be negative.
#[inline]
pub(crate) fn months_later(months: u32, k: i64) -> Option<u32>
    ensures { SomeIff result (IsYear (year_of_month_index (pos months +ℤ k -ℤ pos 3_148_798)))
        (unsigned_abs (pos months +ℤ k)) }
{
    let moved = i64::from(months).checked_add(k)?;
    if moved < FIRST_MONTH || moved > LAST_MONTH {
        return None;
    }
    Some(moved as u32)
}

/// Returns the day number of the day `day` of a month, or of the month's last day if that is earlier.
///
/// `months` is the number of months from March of the year -262,400 to the month. The month ends where the next begins, and
/// February where the year from March ends. Few days come after its first 365, so the leap rule is seldom needed.
#[inline]
pub(crate) fn day_number_within(months: u32, day: u32) -> i32
    requires year { IsYear (year_of_month_index (pos months -ℤ pos 3_148_798)) }
    requires day { IsInRange 1 31 day }
    ensures value { result ≡ day_number_in_month (pos months -ℤ pos 3_148_798) day }
    ensures in_range { IsDate result }
{
    let year = year_after(months / 12);
    let month = months % 12 + 3;
    let in_month = (days_before_month(month) + day).min(days_before_month(month + 1));
    let place = if in_month > 365 {
        in_month.min(year_length(year))
    } else {
        in_month
    };
    (days_to_year(year) + place) as i32 - (DAYS_TO_ONE + DAYS_FROM_MARCH as i32)
}

/// Returns the day number of a day of a month.
///
/// Returns `None` if the library has no such year, or the year has no such day. A month ends where the next begins, and
/// February where the year from March ends. That year is as long as the calendar year. Few days come after its first
/// 365, so the leap rule is seldom needed.
#[inline]
pub(crate) fn day_number(year: i32, month: u32, day: u32) -> Option<i32>
    ensures { SomeIff result (IsYear year × IsCalendarName year month day) (day_number_of_ymd year month day) }
{
    if month < 1 || month > 12 {
        return None;
    }
    let from_march = if month > 2 { month } else { month + 12 };
    let place = u64::from(days_before_month(from_march)) + u64::from(day);
    if day < 1 || place > u64::from(days_before_month(from_march + 1)) {
        return None;
    }
    if place > 365 && place > u64::from(year_length(year)) {
        return None;
    }
    if !is_year(year) {
        return None;
    }
    Some(day_number_at(year, month, place as u32))
}

// The day number of a place, from 1, in the year from March that a month of a year is in.
#[inline]
fn day_number_at(year: i32, month: u32, place: u32) -> i32
    requires year { IsYear year }
    requires place { place ≤ 366 }
    ensures early { month ≤ 2 → result +ℤ pos 306 ≡ days_before_year year +ℤ pos place }
    ensures late { 2 < month → result +ℤ pos 306 ≡ days_before_year (year +ℤ pos 1) +ℤ pos place }
{
    let years = if month > 2 { year + 1 } else { year };
    (days_to_year(years) + place) as i32 - (DAYS_TO_ONE + DAYS_FROM_MARCH as i32)
}

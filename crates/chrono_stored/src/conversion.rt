//! Conversions between a day number and a year with a day of the year, by closed formulas.
//!
//! The count begins with a cycle of 400 years so early that no number is negative. An unsigned number is divided by a
//! constant with one product and one shift. The cycle begins on 1 January of a year that is 1 above a multiple of 400.
//! So a leap year ends each four years, and the long century ends each four centuries.

ghost use Rattle.std.specs.Prelude.{◌≡◌, ◌+◌, ◌*◌, ◌/◌, ◌%◌, ◌<◌, ◌≤◌, pos, neg_ℤ, ◌+ℤ◌, ◌≤ℤ◌};
ghost use Rattle.chrono_units.specs.Years.{IsYear};
ghost use Rattle.chrono_calendar.specs.Days.{IsDate, days_before_year as days_before, year_of, ordinal_of};

use chrono_calendar::counted_years::{DAYS_TO_ONE, YEARS_TO_ONE, days_counted_before};

// The days of a cycle of 400 years.
const DAYS_OF_CYCLE: u32 = 146_097;

// The quarters of a day in 365 1/4 days.
const QUARTERS_OF_YEAR: u64 = 1_461;

// 2^39 / 1461, rounded up.
const PART_OF_QUARTER: u64 = 376_287_347;

// The year that as many years are counted before.
#[inline]
pub(crate) fn year_after(years: u32) -> i32
    requires { years < 600_000 }
    ensures { pos years +ℤ pos 1 ≡ result +ℤ pos 262_400 }
{
    years as i32 + 1 - YEARS_TO_ONE
}

// The days that are counted before a day.
#[inline]
pub(crate) fn days_before_day(day: i32) -> u32
    requires { IsDate day }
    ensures { pos result +ℤ pos 1 ≡ day +ℤ pos 95_839_632 }
{
    (day - 1 + DAYS_TO_ONE) as u32
}

// The days that are counted before 1 January of a year of the range, or of one of the two years after its last.
#[inline]
pub(crate) fn days_to_year(year: i32) -> u32
    requires low { neg_ℤ (pos 262_143) ≤ℤ year }
    requires high { year ≤ℤ pos 262_144 }
    ensures value { pos result ≡ days_before year +ℤ pos 95_839_632 }
    ensures in_range { result < 192_000_000 }
{
    days_counted_before(year)
}

/// Returns the number of days before 1 January of the year `year`, counted from 1 January of year 1.
#[inline]
pub(crate) fn days_before_year(year: i32) -> i32
    requires { IsYear year }
    ensures { result ≡ days_before year }
{
    days_to_year(year) as i32 - DAYS_TO_ONE
}

// The leap days that as many centuries lack: each hundredth year is common, but each four hundredth is not.
#[inline]
fn leap_days_left_out(centuries: u32) -> u32
    requires { centuries < 6_000 }
    ensures { result + centuries / 4 ≡ centuries }
{
    (3 * centuries + 3) / 4
}

/// Returns the last quarter of the day `day`, in a count of quarters of days in which each fourth year is a leap year.
///
/// `centuries` is the number of whole centuries before the day.
#[inline]
pub(crate) fn last_quarter(day: u32, centuries: u32) -> u32
    requires day { day < 200_000_000 }
    requires centuries { centuries ≡ (4 * day + 3) / 146_097 }
    ensures { result + 4 * (centuries / 4) ≡ 4 * (day + centuries) + 3 }
{
    4 * (day + leap_days_left_out(centuries)) + 3
}

/// Returns the number of whole years of 365 1/4 days before a quarter of a day, and the part of the next year that is past.
///
/// The part counts units of which a year has 2^39. Division by 1461 quarters is a product with 2^39 / 1461, rounded up.
/// The quotient stands above the 39 lowest binary digits. These digits are the part, plus less than a quarter.
#[inline]
pub(crate) fn years_and_part(quarter: u32) -> (u32, u64)
    requires { quarter < 1_000_000_000 }
    ensures years { result.0 ≡ quarter / 1461 }
    ensures part { result.1 ≡ 376_287_347 * (quarter % 1461) + 79 * (quarter / 1461) }
{
    let product = PART_OF_QUARTER * quarter as u64;
    ((product >> 39) as u32, product % (1 << 39))
}

// The whole years before a day, and the place of the day in its own year, all counted from 0.
#[inline]
pub(crate) fn years_and_place(day: u32) -> (u32, u32)
    requires { day < 200_000_000 }
    ensures place { let n = result.0 in
        365 * n + n / 4 + n / 400 + result.1 ≡ day + n / 100 }
    ensures in_year { let n = result.0 + 1 in
        day + n / 100 < 365 * n + n / 4 + n / 400 }
{
    let centuries = (4 * day + 3) / DAYS_OF_CYCLE;
    let (years, part) = years_and_part(last_quarter(day, centuries));
    (years, ((QUARTERS_OF_YEAR * part) >> 41) as u32)
}

/// Returns the year of the day with the number `days`, and the day of the year, from 1.
#[inline]
pub(crate) fn year_and_ordinal(days: i32) -> (i32, u32)
    requires { IsDate days }
    ensures year { result.0 ≡ year_of days }
    ensures ordinal { result.1 ≡ ordinal_of days }
{
    let (years, place) = years_and_place(days_before_day(days));
    (year_after(years), place + 1)
}

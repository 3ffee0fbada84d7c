//! From the day number of a date to its year, month and day (ISO 8601), by closed formulas in lanes of 32 bits.
//!
//! Days are counted here from a cycle of 400 years so early that no number is negative.
//! No number has more than 32 bits, but for the products with 2^39 / 1461 and with 2^32 / 7.
//! There is no branch before a value is computed, so several dates are converted side by side.
ghost use Rattle.std.specs.Prelude.{◌≡◌, ◌+◌, ◌*◌, ◌/◌, ◌%◌, ◌<◌, pos, neg_ℤ, ◌+ℤ◌, ◌≤ℤ◌};
ghost use Rattle.chrono_units.specs.Weekday.{number_from_monday};
ghost use Rattle.chrono_calendar.specs.Days.{IsDate, day_of, days_before_year, month_of, ordinal_of, year_of};
ghost use Rattle.chrono_calendar.specs.Weeks.{iso_week_of, iso_year_of, weekday_of};

use chrono_calendar::counted_years::{DAYS_TO_ONE, YEARS_TO_ONE, days_counted_before};

// The days of a cycle of 400 years.
const DAYS_OF_CYCLE: u32 = 146_097;

// The quarters of a day in 365 1/4 days.
const QUARTERS_OF_YEAR: u32 = 1_461;

// 2^39 / 1461, rounded up.
const PART_OF_QUARTER: u64 = 376_287_347;

// 2^32 / 7, rounded up.
const PART_OF_WEEK: u64 = 613_566_757;

// The days from 1 March to 31 December, by which a year from March is ahead.
pub(crate) const DAYS_FROM_MARCH: u32 = 306;

// The days that are counted before a date.
#[inline]
pub(crate) fn days_before(date: i32) -> u32
    requires { IsDate date }
    ensures { pos result +ℤ pos 1 ≡ date +ℤ pos 95_839_632 }
{
    (date - 1 + DAYS_TO_ONE) as u32
}

// The days that are counted before 1 January of a year of the range, or of one of the two years after its last.
#[inline]
pub(crate) fn days_to_year(year: i32) -> u32
    requires low { neg_ℤ (pos 262_143) ≤ℤ year }
    requires high { year ≤ℤ pos 262_144 }
    ensures value { pos result ≡ days_before_year year +ℤ pos 95_839_632 }
    ensures in_range { result < 192_000_000 }
{
    days_counted_before(year)
}

// The year that as many years are counted before.
#[inline]
pub(crate) fn year_after(years: u32) -> i32
    requires { years < 600_000 }
    ensures { pos years +ℤ pos 1 ≡ result +ℤ pos 262_400 }
{
    years as i32 + 1 - YEARS_TO_ONE
}

// How many leap days `centuries` centuries have less than if every fourth year were leap.
#[inline]
fn missing_leap_days(centuries: u32) -> u32
    requires { centuries < 6_000 }
    ensures { result + centuries / 4 ≡ centuries }
{
    (3 * centuries + 3) / 4
}

// The last quarter of a day, of those counted from 0, if every fourth year were leap.
#[inline]
fn last_quarter(days: u32, centuries: u32) -> u32
    requires days { days < 200_000_000 }
    requires centuries { centuries ≡ (4 * days + 3) / 146_097 }
    ensures { result + 4 * (centuries / 4) ≡ 4 * (days + centuries) + 3 }
{
    4 * (days + missing_leap_days(centuries)) + 3
}

// The whole years of 365 1/4 days in so many quarters of a day.
#[inline]
fn years_in(quarters: u32) -> u32
    requires { quarters < 1_000_000_000 }
    ensures { result ≡ quarters / 1461 }
{
    ((PART_OF_QUARTER * quarters as u64) >> 39) as u32
}

// The whole weeks in so many days.
#[inline]
fn weeks_in(days: u32) -> u32
    requires { days < 200_000_000 }
    ensures { result ≡ days / 7 }
{
    ((PART_OF_WEEK * days as u64) >> 32) as u32
}

// The whole years in the days before a day, and its place in the year that follows, from 0.
#[inline]
pub(crate) fn years_and_place(days: u32) -> (u32, u32)
    requires { days < 200_000_000 }
    ensures place { let n = result.0 in
        365 * n + n / 4 + n / 400 + result.1 ≡ days + n / 100 }
    ensures in_year { let n = result.0 + 1 in
        days + n / 100 < 365 * n + n / 4 + n / 400 }
{
    let quarter = last_quarter(days, (4 * days + 3) / DAYS_OF_CYCLE);
    let years = years_in(quarter);
    (years, (quarter - QUARTERS_OF_YEAR * years) / 4)
}

/// Returns the year and the ordinal of a date.
#[inline]
pub(crate) fn year_and_ordinal(date: i32) -> (i32, u32)
    requires { IsDate date }
    ensures year { result.0 ≡ year_of date }
    ensures ordinal { result.1 ≡ ordinal_of date }
    ensures few { result.1 < 65_536 }
{
    let (years, place) = years_and_place(days_before(date));
    (year_after(years), place + 1)
}

// The month of a place in a year from March, from 3 to 14, and the day of that month, from 1.
#[inline]
pub(crate) fn month_from_march(place: u32) -> (u32, u32)
    requires { place < 366 }
    ensures month { result.0 ≡ (2141 * place + 197_913) / 65_536 }
    ensures day { result.1 ≡ (2141 * place + 197_913) % 65_536 / 2141 + 1 }
{
    let scaled = 2_141 * place + 197_913;
    (scaled / 65_536, scaled % 65_536 / 2_141 + 1)
}

/// Returns the year, the month and the day of the month of a date.
#[inline]
pub(crate) fn year_month_day(date: i32) -> (i32, u32, u32)
    requires { IsDate date }
    ensures year { result.0 ≡ year_of date }
    ensures month { result.1 ≡ month_of date }
    ensures day { result.2 ≡ day_of date }
    ensures few { (result.1 < 100) × (result.2 < 100) }
{
    let (years, place) = years_and_place(days_before(date) + DAYS_FROM_MARCH);
    let (month, day) = month_from_march(place);
    if place < DAYS_FROM_MARCH {
        (year_after(years) - 1, month, day)
    } else {
        (year_after(years), month - 12, day)
    }
}

/// Returns the weekday of a date, from 1 for Monday to 7 for Sunday. The days are counted from a Monday.
#[inline]
pub(crate) fn weekday(date: i32) -> u32
    requires { IsDate date }
    ensures day { result ≡ number_from_monday (weekday_of date) }
    ensures few { result < 256 }
{
    let days = days_before(date);
    days - 7 * weeks_in(days) + 1
}

/// Returns the ISO year of a date and its week. They are those of the Thursday of the date's week.
#[inline]
pub(crate) fn iso_year_and_week(date: i32) -> (i32, u32)
    requires { IsDate date }
    ensures year { result.0 ≡ iso_year_of date }
    ensures week { result.1 ≡ iso_week_of date }
    ensures few { result.1 < 256 }
{
    let weeks = weeks_in(days_before(date));
    let (years, place) = years_and_place(7 * weeks + 3);
    (year_after(years), weeks_in(place) + 1)
}

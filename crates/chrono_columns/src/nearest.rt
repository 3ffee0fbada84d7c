//! The value of a range that is nearest to a number.
ghost use Rattle.std.specs.Prelude.{◌≡◌, ◌&&◌, nat_le};
ghost use Rattle.std.specs.Int.{IsInRange};
ghost use Rattle.chrono_units.specs.Years.{IsYear, is_year};
ghost use Rattle.chrono_calendar.specs.Days.{IsDate, is_date};

use chrono_calendar::ends::{FIRST_DAY, LAST_DAY};
use chrono_units::year::{MAX_YEAR, MIN_YEAR};

/// Returns the date nearest to a number. For a date it is the number itself.
#[inline]
pub(crate) fn nearest_date(number: i32) -> i32
    ensures in_range { IsDate result }
    ensures same { IsDate number → result ≡ number }
{
    number.max(FIRST_DAY).min(LAST_DAY)
}

/// Returns whether a number is a date, and so the nearest one itself.
#[inline]
pub(crate) fn is_date(number: i32) -> bool
    ensures { result ≡ is_date number }
{
    nearest_date(number) == number
}

/// Returns the year nearest to a number, of those that have dates.
#[inline]
pub(crate) fn nearest_year(number: i32) -> i32
    ensures in_range { IsYear result }
    ensures same { IsYear number → result ≡ number }
{
    number.max(MIN_YEAR).min(MAX_YEAR)
}

/// Returns whether a number is a year that has dates.
#[inline]
pub(crate) fn is_year(number: i32) -> bool
    ensures { result ≡ is_year number }
{
    nearest_year(number) == number
}

/// Returns the month nearest to a number.
#[inline]
pub(crate) fn nearest_month(number: u8) -> u32
    ensures in_range { IsInRange 1 12 result }
    ensures same { IsInRange 1 12 number → result ≡ number }
{
    u32::from(number).max(1).min(12)
}

/// Returns whether a number is that of a month.
#[inline]
pub(crate) fn is_month(number: u8) -> bool
    ensures { result ≡ (nat_le 1 number && nat_le number 12) }
{
    nearest_month(number) == u32::from(number)
}

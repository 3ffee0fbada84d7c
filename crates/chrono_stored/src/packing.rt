//! A year, an ordinal and the flags of the year as one number, packed and read by shifts and masks.

ghost use Rattle.std.specs.Prelude.{◌≡◌, ◌+◌, ◌*◌, ◌%◌, ◌≤◌, nat_lt, pos, ◌+ℤ◌, ◌*ℤ◌};
ghost use Rattle.std.specs.Int.{int_rem_euclid};
ghost use Rattle.chrono_units.specs.Years.{IsYear};
ghost use Rattle.chrono_units.specs.Weekday.{weekday_from_monday};
ghost use Rattle.chrono_stored.specs.PackedName.{packed_year, packed_ordinal};

use crate::weekdays::days_after_monday;
use chrono_units::Weekday;

// How many binary digits stand below the year, and below the ordinal.
const DIGITS_BELOW_YEAR: u32 = 13;

const DIGITS_BELOW_ORDINAL: u32 = 4;

// The digits below the year, and those of the flags.
const ORDINAL_AND_FLAGS: i32 = 0x1fff;

const FLAGS: i32 = 0xf;

// The digit that a common year's flags have, and those that tell a weekday.
const COMMON_YEAR: u8 = 8;

const WEEKDAY_DIGITS: u8 = 7;

/// Returns the number of a year, an ordinal and flags: `(year << 13) + (ordinal << 4) + flags`.
#[inline]
pub(crate) fn packed_number(year: i32, ordinal: u32, flags: u8) -> i32
    requires year { IsYear year }
    requires ordinal { ordinal ≤ 366 }
    requires flags { flags ≤ 15 }
    ensures { result ≡ year *ℤ pos 8192 +ℤ pos (ordinal * 16 + flags) }
{
    (year << DIGITS_BELOW_YEAR) + ((ordinal << DIGITS_BELOW_ORDINAL) as i32) + i32::from(flags)
}

/// Returns the year in such a number: what stands above its 13 lowest binary digits.
#[inline]
pub(crate) fn year_in(packed: i32) -> i32
    ensures { result ≡ packed_year packed }
{
    packed >> DIGITS_BELOW_YEAR
}

/// Returns the ordinal in such a number: the nine digits above the lowest four.
#[inline]
pub(crate) fn ordinal_in(packed: i32) -> u32
    ensures { result ≡ packed_ordinal packed }
{
    ((packed & ORDINAL_AND_FLAGS) >> DIGITS_BELOW_ORDINAL) as u32
}

/// Returns the flags in such a number: its lowest four digits.
#[inline]
pub(crate) fn flags_in(packed: i32) -> u8
    ensures { pos result ≡ int_rem_euclid packed (pos 16) }
{
    (packed & FLAGS) as u8
}

/// Returns whether the flags are those of a leap year. They lack the digit 8 of a common year.
#[inline]
pub(crate) fn is_leap_by(flags: u8) -> bool
    ensures { result ≡ nat_lt flags 8 }
{
    flags < COMMON_YEAR
}

/// Returns the weekday of a day of a year, from its ordinal and the flags of the year.
///
/// The low three digits of the flags are the number of days from a Monday to the last day before the year.
#[inline]
pub(crate) fn weekday_by(ordinal: u32, flags: u8) -> Weekday
    requires { ordinal ≤ 366 }
    ensures { result ≡ weekday_from_monday ((ordinal + flags % 8) % 7) }
{
    days_after_monday(ordinal + u32::from(flags & WEEKDAY_DIGITS))
}

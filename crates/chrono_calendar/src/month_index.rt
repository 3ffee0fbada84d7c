//! Months counted one after another, and the day of the month on which a move ends.
ghost use Rattle.std.specs.Prelude.{◌≡◌, ◌+ℤ◌, min, SomeIff};
ghost use Rattle.std.specs.Int.{IsInRange};
ghost use Rattle.chrono_units.specs.Years.{IsYear, month_length as length_of_month};
ghost use Rattle.chrono_calendar.specs.MonthMoves.{month_index, month_of_month_index, year_of_month_index};

use chrono_units::year::{MAX_YEAR, MIN_YEAR, is_leap_year, month_length};

// The months of the library's years.
const MONTHS: i64 = (MAX_YEAR - MIN_YEAR + 1) as i64 * 12;

/// Returns the year and the month `k` months after a month, if the library has that year.
#[inline]
pub(crate) fn month_after(year: i32, month: u32, k: i64) -> Option<(i32, u32)>
    requires year { IsYear year }
    requires month { IsInRange 1 12 month }
    ensures { let i = month_index year month +ℤ k in
        SomeIff result (IsYear (year_of_month_index i))
        (record { 0 = year_of_month_index i; 1 = month_of_month_index i }) }
{
    let from = (year - MIN_YEAR) as u32 * 12 + (month - 1);
    let moved = i64::from(from).checked_add(k)?;
    if moved < 0 {
        return None;
    }
    if moved >= MONTHS {
        return None;
    }
    let target = moved as u32;
    Some(((target / 12) as i32 + MIN_YEAR, target % 12 + 1))
}

/// Returns `day`, or the month's last day if that is earlier.
#[inline]
pub(crate) fn day_within(year: i32, month: u32, day: u32) -> u32
    requires { IsInRange 1 12 month }
    ensures { result ≡ min day (length_of_month year month) }
{
    day.min(u32::from(month_length(is_leap_year(year), month)))
}

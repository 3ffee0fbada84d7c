//! From a year, a month and a day to the date, in lanes of 32 bits.
ghost use Rattle.std.specs.Prelude.{◌≡◌, ◌&&◌, nat_le, ◌+◌, ◌*◌, ◌/◌, ◌-◌, ◌<◌, ◌≤◌, pos, ◌+ℤ◌};
ghost use Rattle.std.specs.Int.{IsInRange};
ghost use Rattle.chrono_units.specs.Years.{IsYear, is_leap_year as leap_rule};
ghost use Rattle.chrono_calendar.specs.Days.{days_before_year, day_number_of_ymd};
ghost use Rattle.chrono_columns.specs.Columns.{date_entry};

use crate::conversion::{DAYS_FROM_MARCH, days_to_year};
use crate::nearest::{is_month, is_year, nearest_month, nearest_year};
use crate::none::NONE;
use chrono_calendar::counted_years::{DAYS_TO_ONE, YEARS_TO_ONE};
use chrono_units::year::month_length;

// Whether a year is leap, by one division: of the hundredth years every fourth is, of all others each that four divides.
#[inline]
fn is_leap(year: i32) -> bool
    requires { IsYear year }
    ensures { result ≡ leap_rule year }
{
    let years = (year + YEARS_TO_ONE) as u32;
    let centuries = years / 100;
    let turns = if centuries * 100 == years {
        centuries
    } else {
        years
    };
    turns % 4 == 0
}

// The number of a place, from 1, in the year from March in which a month of a year lies.
#[inline]
fn number_at(year: i32, month: u32, place: u32) -> i32
    requires year { IsYear year }
    requires place { place < 1000 }
    ensures early { month ≤ 2 → result +ℤ pos 306 ≡ days_before_year year +ℤ pos place }
    ensures late { 2 < month → result +ℤ pos 306 ≡ days_before_year (year +ℤ pos 1) +ℤ pos place }
{
    let begun = if month > 2 { year + 1 } else { year };
    (days_to_year(begun) + place) as i32 - (DAYS_TO_ONE + DAYS_FROM_MARCH as i32)
}

// The number of a day of a month, from 1, or of a day past its end.
#[inline]
fn number_of(year: i32, month: u32, day: u32) -> i32
    requires year { IsYear year }
    requires month { IsInRange 1 12 month }
    requires day { day < 256 }
    ensures { result ≡ day_number_of_ymd year month day }
{
    let from_march = if month > 2 { month } else { month + 12 };
    number_at(year, month, (979 * from_march - 2_919) / 32 + day)
}

// Whether a month of so many days has the day, by one comparison in a lane of 32 bits: below 0 lies the greatest number.
#[inline]
fn has_day(length: u8, day: u8) -> bool
    ensures { result ≡ (nat_le 1 day && nat_le day length) }
{
    u32::from(day).wrapping_sub(1) < u32::from(length)
}

/// Returns the date of a year, a month and a day, or [`NONE`].
#[inline]
pub(crate) fn date_of_name(year: i32, month: u8, day: u8) -> i32
    ensures { result ≡ date_entry year month day }
{
    let near_year = nearest_year(year);
    let near_month = nearest_month(month);
    let number = number_of(near_year, near_month, u32::from(day));
    let length = month_length(is_leap(near_year), near_month);
    if is_year(year) & is_month(month) & has_day(length, day) {
        number
    } else {
        NONE
    }
}

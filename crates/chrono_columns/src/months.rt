//! Moves by months, in lanes of 32 bits.
//!
//! Months are counted from March of the year -262,400, as the days are from its 1st.
ghost use Rattle.std.specs.Prelude.{◌≡◌, ◌+◌, ◌-◌, ◌*◌, ◌/◌, ◌<◌, true, false, pos, neg_ℤ, ◌+ℤ◌, ◌-ℤ◌, ◌≤ℤ◌, ◌<ℤ◌};
ghost use Rattle.std.specs.Int.{IsInRange};
ghost use Rattle.chrono_units.specs.Years.{IsYear};
ghost use Rattle.chrono_calendar.specs.Days.{IsDate, day_of};
ghost use Rattle.chrono_calendar.specs.MonthMoves.{day_number_in_month, month_index_of, year_of_month_index};
ghost use Rattle.chrono_columns.specs.Columns.{months_later_entry};

use crate::conversion::{
    DAYS_FROM_MARCH, days_before, days_to_year, month_from_march, year_after, years_and_place,
};
use crate::nearest::{is_date, nearest_date};
use crate::none::NONE;
use chrono_calendar::counted_years::DAYS_TO_ONE;

// January of the year -262,143, and December of the year 262,142.
const FIRST_MONTH: i32 = 3_082;

const LAST_MONTH: i32 = 6_294_513;

// More months than lie between these two.
const PAST_ALL: i32 = 7_000_000;

// The number nearest to another, of those up to so many months each way.
#[inline]
fn nearest_count(months: i32) -> i32
    ensures same { neg_ℤ (pos 7_000_000) ≤ℤ months → months ≤ℤ pos 7_000_000 → result ≡ months }
    // Any other is taken for one of the two ends.
    ensures inner { neg_ℤ (pos 7_000_000) <ℤ result → result <ℤ pos 7_000_000 → result ≡ months }
    ensures in_range { (neg_ℤ (pos 7_000_000) ≤ℤ result) × (result ≤ℤ pos 7_000_000) }
{
    if months < -PAST_ALL {
        return -PAST_ALL;
    }
    if months > PAST_ALL { PAST_ALL } else { months }
}

// The month of the library's that is nearest to another.
#[inline]
fn nearest_month(month: i32) -> u32
    ensures in_range { IsYear (year_of_month_index (pos result -ℤ pos 3_148_798)) }
    ensures same { IsYear (year_of_month_index (month -ℤ pos 3_148_798)) → pos result ≡ month }
    ensures few { result < 6_300_000 }
{
    if month < FIRST_MONTH {
        return FIRST_MONTH as u32;
    }
    if month > LAST_MONTH {
        LAST_MONTH as u32
    } else {
        month as u32
    }
}

// Whether a month is one of the library's.
#[inline]
fn is_month(month: i32) -> bool
    ensures yes { result ≡ true → IsYear (year_of_month_index (month -ℤ pos 3_148_798)) }
    ensures no { result ≡ false → IsYear (year_of_month_index (month -ℤ pos 3_148_798)) → ⊥ }
{
    nearest_month(month) as i32 == month
}

// The month of a date, and the day there.
#[inline]
fn month_and_day(date: i32) -> (i32, u32)
    requires { IsDate date }
    ensures month { result.0 ≡ month_index_of date +ℤ pos 3_148_798 }
    ensures day { result.1 ≡ day_of date }
    ensures in_range { (pos 0 ≤ℤ result.0) × (result.0 <ℤ pos 7_000_000) }
    ensures day_in_range { IsInRange 1 31 result.1 }
{
    let (years, place) = years_and_place(days_before(date) + DAYS_FROM_MARCH);
    let (month, day) = month_from_march(place);
    ((years * 12 + month - 3) as i32, day)
}

// The days of a year from March before a month, from 3 to 15.
#[inline]
fn days_before_month(month: u32) -> u32
    requires { IsInRange 3 15 month }
    ensures { result ≡ (979 * month - 2919) / 32 }
{
    (979 * month - 2_919) / 32
}

// The date of a day of a month, or of its last day if that is earlier.
// A month ends where the next begins, or with its year.
#[inline]
fn date_in_month(month: u32, day: u32) -> i32
    requires year { IsYear (year_of_month_index (pos month -ℤ pos 3_148_798)) }
    requires few { month < 6_300_000 }
    requires day { IsInRange 1 31 day }
    ensures { result ≡ day_number_in_month (pos month -ℤ pos 3_148_798) day }
{
    let year = year_after(month / 12);
    let start = days_to_year(year);
    let end = days_to_year(year + 1);
    let from_march = month % 12 + 3;
    let next = days_before_month(from_march + 1);
    let place = (days_before_month(from_march) + day)
        .min(next)
        .min(end - start);
    (start + place) as i32 - (DAYS_TO_ONE + DAYS_FROM_MARCH as i32)
}

/// Returns the date `months` months later, or [`NONE`].
#[inline]
pub(crate) fn months_later(number: i32, months: i32) -> i32
    ensures { result ≡ months_later_entry months number }
{
    let (begun, day) = month_and_day(nearest_date(number));
    let month = begun + nearest_count(months);
    let date = date_in_month(nearest_month(month), day);
    if is_date(number) & is_month(month) {
        date
    } else {
        NONE
    }
}

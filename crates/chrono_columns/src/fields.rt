//! The fields of one element of a column, or what stands for a missing one.
ghost use Rattle.std.specs.Prelude.{◌≡◌};
ghost use Rattle.chrono_columns.specs.Columns.{day_entry, iso_week_entry, iso_year_entry, month_entry, ordinal_entry, weekday_entry, year_entry};

use crate::conversion::{iso_year_and_week, weekday, year_and_ordinal, year_month_day};
use crate::nearest::{is_date, nearest_date};
use crate::none::NONE;

/// Returns the weekday, from 1 for Monday to 7 for Sunday, or 0.
#[inline]
pub(crate) fn weekday_of_number(number: i32) -> u8
    ensures { result ≡ weekday_entry number }
{
    let day = weekday(nearest_date(number));
    if is_date(number) { day as u8 } else { 0 }
}

/// Returns the year, or [`NONE`].
#[inline]
pub(crate) fn year_of_number(number: i32) -> i32
    ensures { result ≡ year_entry number }
{
    let (year, _) = year_and_ordinal(nearest_date(number));
    if is_date(number) { year } else { NONE }
}

/// Returns the day of the year from 1, or 0.
#[inline]
pub(crate) fn ordinal_of_number(number: i32) -> u16
    ensures { result ≡ ordinal_entry number }
{
    let (_, ordinal) = year_and_ordinal(nearest_date(number));
    if is_date(number) { ordinal as u16 } else { 0 }
}

/// Returns the year, the month and the day of the month, or [`NONE`] and twice 0.
#[inline]
pub(crate) fn name_of_number(number: i32) -> (i32, u8, u8)
    ensures year { result.0 ≡ year_entry number }
    ensures month { result.1 ≡ month_entry number }
    ensures day { result.2 ≡ day_entry number }
{
    let (year, month, day) = year_month_day(nearest_date(number));
    if is_date(number) {
        (year, month as u8, day as u8)
    } else {
        (NONE, 0, 0)
    }
}

/// Returns the ISO year, or [`NONE`].
#[inline]
pub(crate) fn iso_year_of_number(number: i32) -> i32
    ensures { result ≡ iso_year_entry number }
{
    let (year, _) = iso_year_and_week(nearest_date(number));
    if is_date(number) { year } else { NONE }
}

/// Returns the week of the ISO year, or 0.
#[inline]
pub(crate) fn iso_week_of_number(number: i32) -> u8
    ensures { result ≡ iso_week_entry number }
{
    let (_, week) = iso_year_and_week(nearest_date(number));
    if is_date(number) { week as u8 } else { 0 }
}

//! Between a column of dates and one of the days since 1 January 1970.
//!
//! These have 64 bits, as numpy's `datetime64[D]`.
ghost use Rattle.std.specs.Prelude.{◌≡◌, length, map, ◌+ℤ◌, pos};
ghost use Rattle.chrono_calendar.specs.Days.{IsDate, is_date as date_range};
ghost use Rattle.chrono_columns.specs.Columns.{unix_date_entry, unix_days_entry};

use crate::nearest::{is_date, nearest_date};
use crate::none::{NONE, NOT_A_TIME};
use chrono_calendar::ends::{FIRST_DAY, LAST_DAY};

// The day number of 1 January 1970.
const EPOCH: i32 = 719_163;

// Whether so many days since 1970 lead to a date.
#[inline]
fn is_unix_date(days: i64) -> bool
    ensures { result ≡ date_range (days +ℤ pos 719_163) }
{
    (days >= (FIRST_DAY - EPOCH) as i64) & (days <= (LAST_DAY - EPOCH) as i64)
}

// The date that so many days since 1970 lead to, or nearest to it.
#[inline]
fn nearest_unix_date(days: i64) -> i32
    ensures in_range { IsDate result }
    ensures same { IsDate (days +ℤ pos 719_163) → result ≡ days +ℤ pos 719_163 }
{
    if days < (FIRST_DAY - EPOCH) as i64 {
        return FIRST_DAY;
    }
    if days > (LAST_DAY - EPOCH) as i64 {
        LAST_DAY
    } else {
        days as i32 + EPOCH
    }
}

// The date so many days after 1970, or [`NONE`].
#[inline]
fn date_of_days(days: i64) -> i32
    ensures { result ≡ unix_date_entry days }
{
    let date = nearest_unix_date(days);
    if is_unix_date(days) { date } else { NONE }
}

// The days from 1970 to a date, or [`NOT_A_TIME`].
#[inline]
fn days_of_date(number: i32) -> i64
    ensures { result ≡ unix_days_entry number }
{
    let days = i64::from(nearest_date(number) - EPOCH);
    if is_date(number) { days } else { NOT_A_TIME }
}

/// Writes the date of each of `days`, which count from 1 January 1970.
///
/// It writes [`NONE`] where the date would be out of range, and so for [`NOT_A_TIME`].
/// Requires that `out` is as long as `days`.
///
/// ```
/// let mut out = [0; 2];
/// from_unix_days(&[0, NOT_A_TIME], &mut out);
/// out // [719163, -2147483648]
/// ```
pub fn from_unix_days(days: &[i64], out: &mut [i32])
    requires { length out.old ≡ length days.now }
    ensures { out.new ≡ map unix_date_entry days.now }
{
    for i in 0..days.len() {
        out[i] = date_of_days(days[i]);
    }
}

/// Writes the days from 1 January 1970 to each of `dates`, and [`NOT_A_TIME`] where the date is missing.
///
/// Requires that `out` is as long as `dates`.
///
/// ```
/// let mut out = [0; 2];
/// to_unix_days(&[719_163, 738_945], &mut out);
/// out // [0, 19782]
/// ```
pub fn to_unix_days(dates: &[i32], out: &mut [i64])
    requires { length out.old ≡ length dates.now }
    ensures { out.new ≡ map unix_days_entry dates.now }
{
    for i in 0..dates.len() {
        out[i] = days_of_date(dates[i]);
    }
}

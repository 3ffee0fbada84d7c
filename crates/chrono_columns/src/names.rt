//! Between a column of dates and the columns of their years, months and days.
ghost use Rattle.std.specs.Prelude.{◌≡◌, ℕ, ◌<◌, length, map, pos, slice_index, slice_index_or};
ghost use Rattle.chrono_columns.specs.Columns.{date_entry, day_entry, month_entry, ordinal_entry, year_entry};

use crate::fields::{name_of_number, ordinal_of_number, year_of_number};
use crate::named::date_of_name;

/// Writes the year of each of `dates`, and [`NONE`](crate::NONE) where the date is missing.
///
/// Requires that `out` is as long as `dates`.
///
/// ```
/// let mut out = [0; 2];
/// years(&[738_945, NONE], &mut out);
/// out // [2024, -2147483648]
/// ```
pub fn years(dates: &[i32], out: &mut [i32])
    requires { length out.old ≡ length dates.now }
    ensures { out.new ≡ map year_entry dates.now }
{
    for i in 0..dates.len() {
        out[i] = year_of_number(dates[i]);
    }
}

/// Writes the day of the year of each of `dates`, from 1 (ISO 8601 ordinal date), and 0 where the date is missing.
///
/// Requires that `out` is as long as `dates`.
///
/// ```
/// let mut out = [0; 2];
/// ordinals(&[738_945, NONE], &mut out);
/// out // [60, 0]
/// ```
pub fn ordinals(dates: &[i32], out: &mut [u16])
    requires { length out.old ≡ length dates.now }
    ensures { out.new ≡ map ordinal_entry dates.now }
{
    for i in 0..dates.len() {
        out[i] = ordinal_of_number(dates[i]);
    }
}

/// Writes the year, the month and the day of each of `dates` (ISO 8601 calendar date).
///
/// Where the date is missing it writes [`NONE`](crate::NONE), 0 and 0.
/// Requires that `years`, `months` and `days` are as long as `dates`.
///
/// ```
/// let (mut years, mut months, mut days) = ([0; 1], [0; 1], [0; 1]);
/// split_dates(&[738_945], &mut years, &mut months, &mut days);
/// (years, months, days) // ([2024], [2], [29])
/// ```
pub fn split_dates(dates: &[i32], years: &mut [i32], months: &mut [u8], days: &mut [u8])
    requires years { length years.old ≡ length dates.now }
    requires months { length months.old ≡ length dates.now }
    requires days { length days.old ≡ length dates.now }
    ensures years { years.new ≡ map year_entry dates.now }
    ensures months { months.new ≡ map month_entry dates.now }
    ensures days { days.new ≡ map day_entry dates.now }
{
    for i in 0..dates.len() {
        let (year, month, day) = name_of_number(dates[i]);
        years[i] = year;
        months[i] = month;
        days[i] = day;
    }
}

/// Writes the date of each year, month and day of `years`, `months` and `days` at one place.
///
/// It writes [`NONE`](crate::NONE) where the date is invalid or the year is out of range.
/// Requires that `months`, `days` and `out` are as long as `years`.
///
/// ```
/// let mut out = [0; 2];
/// join_dates(&[2024, 2023], &[2, 2], &[29, 29], &mut out);
/// out // [738945, -2147483648]
/// ```
pub fn join_dates(years: &[i32], months: &[u8], days: &[u8], out: &mut [i32])
    requires months { length months.now ≡ length years.now }
    requires days { length days.now ≡ length years.now }
    requires out { length out.old ≡ length years.now }
    ensures { (i : ℕ) → i < length years.now → slice_index_or out.new i (pos 0)
        ≡ date_entry (slice_index_or years.now i (pos 0)) (slice_index months.now i) (slice_index days.now i) }
{
    for i in 0..years.len() {
        out[i] = date_of_name(years[i], months[i], days[i]);
    }
}

//! The weekdays and the ISO weeks of a column of dates.
ghost use Rattle.std.specs.Prelude.{◌≡◌, length, map};
ghost use Rattle.chrono_columns.specs.Columns.{iso_week_entry, iso_year_entry, weekday_entry};

use crate::fields::{iso_week_of_number, iso_year_of_number, weekday_of_number};

/// Writes the weekday of each of `dates`, from 1 for Monday to 7 for Sunday, and 0 where the date is missing.
///
/// Requires that `out` is as long as `dates`.
///
/// ```
/// let mut out = [0; 2];
/// weekdays(&[738_945, NONE], &mut out);
/// out // [4, 0]
/// ```
pub fn weekdays(dates: &[i32], out: &mut [u8])
    requires { length out.old ≡ length dates.now }
    ensures { out.new ≡ map weekday_entry dates.now }
{
    for i in 0..dates.len() {
        out[i] = weekday_of_number(dates[i]);
    }
}

/// Writes the ISO year of each of `dates` and its week (ISO 8601 week date).
///
/// Where the date is missing it writes [`NONE`](crate::NONE) and 0.
/// Requires that `years` and `weeks` are as long as `dates`.
///
/// ```
/// let (mut years, mut weeks) = ([0; 1], [0; 1]);
/// iso_weeks(&[738_886], &mut years, &mut weeks);
/// (years, weeks) // ([2024], [1])
/// ```
pub fn iso_weeks(dates: &[i32], years: &mut [i32], weeks: &mut [u8])
    requires years { length years.old ≡ length dates.now }
    requires weeks { length weeks.old ≡ length dates.now }
    ensures years { years.new ≡ map iso_year_entry dates.now }
    ensures weeks { weeks.new ≡ map iso_week_entry dates.now }
{
    for i in 0..dates.len() {
        let date = dates[i];
        years[i] = iso_year_of_number(date);
        weeks[i] = iso_week_of_number(date);
    }
}

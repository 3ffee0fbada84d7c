//! The first dates with one of some weekdays, from those of a column on.
ghost use Rattle.std.specs.Prelude.{◌≡◌, length, map};
ghost use Rattle.chrono_columns.specs.Columns.{first_on_entry, number_entry};

use crate::none::NONE;
use chrono_datetime::{Datelike, NaiveDate, WeekdaySet};

// The number of a date, if there is one.
#[inline]
fn number_or_none(date: Option<NaiveDate>) -> i32
    ensures { result ≡ number_entry date }
{
    match date {
        Some(date) => date.num_days_from_ce(),
        None => NONE,
    }
}

// The first date from a number on that has a weekday of the set, or [`NONE`].
#[tactic(auto, unfolding(crate::specs::Columns::first_on_entry))]
#[inline]
fn first_of_number(number: i32, weekdays: WeekdaySet) -> i32
    ensures { result ≡ first_on_entry weekdays number }
{
    match NaiveDate::from_num_days_from_ce_opt(number) {
        Some(date) => number_or_none(date.first_on(weekdays)),
        None => NONE,
    }
}

/// Writes for each of `dates` the first date from it on whose weekday is in `weekdays`. The date itself can be it.
///
/// It writes [`NONE`](crate::NONE) where the date is missing or no such date follows.
/// Requires that `out` is as long as `dates`.
///
/// ```
/// use chrono_datetime::{Weekday, WeekdaySet};
/// let mut out = [0; 2];
/// first_on(&[738_945, NONE], WeekdaySet::single(Weekday::Mon), &mut out);
/// out // [738949, -2147483648]
/// ```
pub fn first_on(dates: &[i32], weekdays: WeekdaySet, out: &mut [i32])
    requires { length out.old ≡ length dates.now }
    ensures { out.new ≡ map (first_on_entry weekdays) dates.now }
{
    for i in 0..dates.len() {
        out[i] = first_of_number(dates[i], weekdays);
    }
}

//! Columns of dates moved, and the days between those of two columns.
ghost use Rattle.std.specs.Prelude.{◌≡◌, ℕ, ◌<◌, length, map, pos, slice_index_or};
ghost use Rattle.chrono_columns.specs.Columns.{distance_entry, later_entry, months_later_entry};

use crate::months::months_later;
use crate::moved::{days_from, days_later};

/// Writes the date `days` days after each of `dates`. A negative number moves back.
///
/// It writes [`NONE`](crate::NONE) where a date is missing or would be out of range.
/// Requires that `out` is as long as `dates`.
///
/// ```
/// let mut out = [0; 2];
/// add_days(&[738_945, NONE], 1, &mut out);
/// out // [738946, -2147483648]
/// ```
pub fn add_days(dates: &[i32], days: i32, out: &mut [i32])
    requires { length out.old ≡ length dates.now }
    ensures { out.new ≡ map (later_entry days) dates.now }
{
    for i in 0..dates.len() {
        out[i] = days_later(dates[i], days);
    }
}

/// Moves each of `dates` by `days` days, in place. A negative number moves back.
///
/// It writes [`NONE`](crate::NONE) where a date is missing or would be out of range.
///
/// ```
/// let mut dates = [738_945, 738_946];
/// add_days_in_place(&mut dates, -1);
/// dates // [738944, 738945]
/// ```
pub fn add_days_in_place(dates: &mut [i32], days: i32)
    ensures { dates.new ≡ map (later_entry days) dates.old }
{
    for i in 0..dates.len() {
        dates[i] = days_later(dates[i], days);
    }
}

/// Writes for each of `dates` the date that is as many days later as the element of `days` at its place says.
///
/// It writes [`NONE`](crate::NONE) where either element is `NONE`, or where the date would be out of range.
/// Requires that `days` and `out` are as long as `dates`.
///
/// ```
/// let mut out = [0; 3];
/// add_days_each(&[738_945, 738_945, 738_945], &[1, -1, NONE], &mut out);
/// out // [738946, 738944, -2147483648]
/// ```
pub fn add_days_each(dates: &[i32], days: &[i32], out: &mut [i32])
    requires days { length days.now ≡ length dates.now }
    requires out { length out.old ≡ length dates.now }
    ensures { (i : ℕ) → i < length dates.now → slice_index_or out.new i (pos 0)
        ≡ later_entry (slice_index_or days.now i (pos 0)) (slice_index_or dates.now i (pos 0)) }
{
    for i in 0..dates.len() {
        out[i] = days_later(dates[i], days[i]);
    }
}

/// Moves each of `dates` in place, by as many days as the element of `days` at its place says.
///
/// It writes [`NONE`](crate::NONE) where either element is `NONE`, or where the date would be out of range.
/// Requires that `days` is as long as `dates`.
///
/// ```
/// let mut dates = [738_945, 738_945];
/// add_days_each_in_place(&mut dates, &[1, -1]);
/// dates // [738946, 738944]
/// ```
pub fn add_days_each_in_place(dates: &mut [i32], days: &[i32])
    requires { length days.now ≡ length dates.old }
    ensures { (i : ℕ) → i < length dates.old → slice_index_or dates.new i (pos 0)
        ≡ later_entry (slice_index_or days.now i (pos 0)) (slice_index_or dates.old i (pos 0)) }
{
    for i in 0..dates.len() {
        dates[i] = days_later(dates[i], days[i]);
    }
}

/// Writes the days from each of `bases` to the element of `dates` at its place.
///
/// It writes [`NONE`](crate::NONE) where either date is missing.
/// Requires that `bases` and `out` are as long as `dates`.
///
/// ```
/// let mut out = [0; 2];
/// days_between(&[738_945, NONE], &[738_886, 738_886], &mut out);
/// out // [59, -2147483648]
/// ```
pub fn days_between(dates: &[i32], bases: &[i32], out: &mut [i32])
    requires bases { length bases.now ≡ length dates.now }
    requires out { length out.old ≡ length dates.now }
    ensures { (i : ℕ) → i < length dates.now → slice_index_or out.new i (pos 0)
        ≡ distance_entry (slice_index_or dates.now i (pos 0)) (slice_index_or bases.now i (pos 0)) }
{
    for i in 0..dates.len() {
        out[i] = days_from(dates[i], bases[i]);
    }
}

/// Writes the date `months` months after each of `dates`. A negative number moves back.
///
/// If that month is too short, it writes its last day.
/// It writes [`NONE`](crate::NONE) where a date is missing or would be out of range.
/// Requires that `out` is as long as `dates`.
///
/// ```
/// let mut out = [0; 2];
/// add_months(&[738_916, NONE], 1, &mut out);
/// out // [738945, -2147483648]
/// ```
///
/// Here 738,916 is 31 January 2024, and 738,945 is 29 February.
pub fn add_months(dates: &[i32], months: i32, out: &mut [i32])
    requires { length out.old ≡ length dates.now }
    ensures { out.new ≡ map (months_later_entry months) dates.now }
{
    for i in 0..dates.len() {
        out[i] = months_later(dates[i], months);
    }
}

/// Moves each of `dates` by `months` months, in place. A negative number moves back.
///
/// If that month is too short, it writes its last day.
/// It writes [`NONE`](crate::NONE) where a date is missing or would be out of range.
///
/// ```
/// let mut dates = [738_916, 738_945];
/// add_months_in_place(&mut dates, 1);
/// dates // [738945, 738974]
/// ```
pub fn add_months_in_place(dates: &mut [i32], months: i32)
    ensures { dates.new ≡ map (months_later_entry months) dates.old }
{
    for i in 0..dates.len() {
        dates[i] = months_later(dates[i], months);
    }
}

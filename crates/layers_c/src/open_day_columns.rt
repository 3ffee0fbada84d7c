//! Columns of open days: each function computes one operation for every element of the caller's columns.
//!
//! If the columns have different lengths, or the holidays are not those of a calendar, nothing is written and the result is `false`.
ghost use Rattle.std.specs.Prelude.{◌≡◌, ◌==◌, ◌<◌, ℕ, true, false, Some, length, map, pos, slice_index_or};
ghost use Rattle.chrono_business.specs.OpenDays.{Closed};
ghost use Rattle.chrono_business.specs.declared.roll.Roll.{Roll};
ghost use Rattle.layers_c.specs.OpenDayColumns.{IsMovedEntry, IsRolledEntry, between_entry, from_date32_entry, open_entry, to_date32_entry};
ghost use Rattle.layers_c.specs.OpenDays.{IsCalendar, closed_from_c, roll_numbered};

use crate::open_days::{MOST, calendar_of, roll_of};
use chrono_business::{Calendar, Roll};
use chrono_datetime::{LAST_DAY, NaiveDate};
use numbers_c::{NONE, date_of, number_or_none};

// The day number of 1 January 1970.
const EPOCH: i32 = 719_163;

// The days from 1970 to the last date.
const LAST: i32 = LAST_DAY - EPOCH;

/// Writes for each of `dates` 1 if it is open, and 0 otherwise.
#[unsafe(no_mangle)]
pub extern "C" fn calendar_column_is_open_day(
    weekend: u8,
    holidays: &[i32],
    dates: &[i32],
    marks: &mut [u8],
) -> bool
    ensures lengths { result ≡ true → length marks.old ≡ length dates.now }
    ensures every { IsCalendar weekend holidays.now → length marks.old ≡ length dates.now → result ≡ true }
    ensures filled { result ≡ true → (i : ℕ) → i < length dates.now → slice_index_or marks.new i 0
        ≡ open_entry (closed_from_c weekend holidays.now) (slice_index_or dates.now i (pos 0)) }
    ensures kept { result ≡ false → marks.new ≡ marks.old }
{
    if marks.len() != dates.len() {
        return false;
    }
    let mut room = [NaiveDate::MIN; MOST];
    match calendar_of(weekend, holidays, &mut room) {
        Some(calendar) => {
            write_open(&calendar, dates, marks);
            true
        }
        None => false,
    }
}

/// Writes for each of `dates` the date that is `n` open days later, or earlier if `n` is negative.
#[unsafe(no_mangle)]
pub extern "C" fn calendar_column_add_open_days(
    weekend: u8,
    holidays: &[i32],
    dates: &[i32],
    n: i64,
    moved: &mut [i32],
) -> bool
    ensures lengths { result ≡ true → length moved.old ≡ length dates.now }
    ensures every { IsCalendar weekend holidays.now → length moved.old ≡ length dates.now → result ≡ true }
    ensures filled { result ≡ true → (i : ℕ) → i < length dates.now
        → IsMovedEntry (closed_from_c weekend holidays.now) n (slice_index_or dates.now i (pos 0)) (slice_index_or moved.new i (pos 0)) }
    ensures kept { result ≡ false → moved.new ≡ moved.old }
{
    if moved.len() != dates.len() {
        return false;
    }
    let mut room = [NaiveDate::MIN; MOST];
    match calendar_of(weekend, holidays, &mut room) {
        Some(calendar) => {
            write_moved(&calendar, dates, n, moved);
            true
        }
        None => false,
    }
}

/// Writes the number of open days from each of `from` on and before the date at its place in `to`.
#[unsafe(no_mangle)]
pub extern "C" fn calendar_column_open_days_between(
    weekend: u8,
    holidays: &[i32],
    from: &[i32],
    to: &[i32],
    days: &mut [i64],
) -> bool
    ensures lengths { result ≡ true → (length to.now ≡ length from.now) × (length days.old ≡ length from.now) }
    ensures every { IsCalendar weekend holidays.now → length to.now ≡ length from.now → length days.old ≡ length from.now → result ≡ true }
    ensures filled { result ≡ true → (i : ℕ) → i < length from.now → slice_index_or days.new i (pos 0)
        ≡ between_entry (closed_from_c weekend holidays.now) (slice_index_or from.now i (pos 0)) (slice_index_or to.now i (pos 0)) }
    ensures kept { result ≡ false → days.new ≡ days.old }
{
    if to.len() != from.len() {
        return false;
    }
    if days.len() != from.len() {
        return false;
    }
    let mut room = [NaiveDate::MIN; MOST];
    match calendar_of(weekend, holidays, &mut room) {
        Some(calendar) => {
            write_between(&calendar, from, to, days);
            true
        }
        None => false,
    }
}

/// Writes for each of `dates` the date that it goes to by a roll.
#[unsafe(no_mangle)]
pub extern "C" fn calendar_column_roll(
    weekend: u8,
    holidays: &[i32],
    dates: &[i32],
    roll: u32,
    rolled: &mut [i32],
) -> bool
    ensures lengths { result ≡ true → length rolled.old ≡ length dates.now }
    ensures every { (r : Roll) → IsCalendar weekend holidays.now → roll_numbered roll ≡ Some r → length rolled.old ≡ length dates.now → result ≡ true }
    ensures filled { result ≡ true → (r : Roll) × (roll_numbered roll ≡ Some r) × ((i : ℕ) → i < length dates.now
        → IsRolledEntry (closed_from_c weekend holidays.now) r (slice_index_or dates.now i (pos 0)) (slice_index_or rolled.new i (pos 0))) }
    ensures kept { result ≡ false → rolled.new ≡ rolled.old }
{
    if rolled.len() != dates.len() {
        return false;
    }
    let Some(roll) = roll_of(roll) else {
        return false;
    };
    let mut room = [NaiveDate::MIN; MOST];
    match calendar_of(weekend, holidays, &mut room) {
        Some(calendar) => {
            write_rolled(&calendar, dates, roll, rolled);
            true
        }
        None => false,
    }
}

/// Writes the date of each number of days since 1 January 1970, as Arrow's date32 has them.
#[unsafe(no_mangle)]
pub extern "C" fn calendar_column_from_date32(days: &[i32], dates: &mut [i32]) -> bool
    ensures answer { result ≡ (length dates.old == length days.now) }
    ensures filled { result ≡ true → dates.new ≡ map from_date32_entry days.now }
    ensures kept { result ≡ false → dates.new ≡ dates.old }
{
    if dates.len() != days.len() {
        return false;
    }
    write_from_date32(days, dates);
    true
}

/// Writes the days from 1 January 1970 to each date, as Arrow's date32 has them.
#[unsafe(no_mangle)]
pub extern "C" fn calendar_column_to_date32(dates: &[i32], days: &mut [i32]) -> bool
    ensures answer { result ≡ (length days.old == length dates.now) }
    ensures filled { result ≡ true → days.new ≡ map to_date32_entry dates.now }
    ensures kept { result ≡ false → days.new ≡ days.old }
{
    if days.len() != dates.len() {
        return false;
    }
    write_to_date32(dates, days);
    true
}

// Writes for each date whether it is open.
fn write_open(calendar: &Calendar<'_>, dates: &[i32], marks: &mut [u8])
    requires { length marks.old ≡ length dates.now }
    ensures { (i : ℕ) → i < length dates.now → slice_index_or marks.new i 0
        ≡ open_entry calendar.now (slice_index_or dates.now i (pos 0)) }
{
    for i in 0..dates.len() {
        marks[i] = open_of(calendar, dates[i]);
    }
}

// 1 for an open date.
fn open_of(calendar: &Calendar<'_>, number: i32) -> u8
    ensures { result ≡ open_entry calendar.now number }
{
    match date_of(number) {
        Some(date) => { if calendar.is_open(date) { 1 } else { 0 } }
        None => 0,
    }
}

// Writes the date that each goes to by `n` open days.
fn write_moved(calendar: &Calendar<'_>, dates: &[i32], n: i64, moved: &mut [i32])
    requires { length moved.old ≡ length dates.now }
    ensures { (i : ℕ) → i < length dates.now
        → IsMovedEntry calendar.now n (slice_index_or dates.now i (pos 0)) (slice_index_or moved.new i (pos 0)) }
{
    for i in 0..dates.len() {
        moved[i] = moved_of(calendar, dates[i], n);
    }
}

// The date that one goes to by `n` open days.
fn moved_of(calendar: &Calendar<'_>, number: i32, n: i64) -> i32
    ensures { IsMovedEntry calendar.now n number result }
{
    match date_of(number) {
        Some(date) => number_or_none(calendar.add_open_days(date, n)),
        None => NONE,
    }
}

// Writes how many days are open from each date on and before another.
fn write_between(calendar: &Calendar<'_>, from: &[i32], to: &[i32], days: &mut [i64])
    requires to { length to.now ≡ length from.now }
    requires days { length days.old ≡ length from.now }
    ensures { (i : ℕ) → i < length from.now → slice_index_or days.new i (pos 0)
        ≡ between_entry calendar.now (slice_index_or from.now i (pos 0)) (slice_index_or to.now i (pos 0)) }
{
    for i in 0..from.len() {
        days[i] = between_of(calendar, from[i], to[i]);
    }
}

// How many days are open from one date on and before another.
fn between_of(calendar: &Calendar<'_>, from: i32, to: i32) -> i64
    ensures { result ≡ between_entry calendar.now from to }
{
    let Some(from) = date_of(from) else {
        return i64::MIN;
    };
    match date_of(to) {
        Some(to) => calendar.open_days(from, to),
        None => i64::MIN,
    }
}

// Writes the date that each goes to by a roll.
fn write_rolled(calendar: &Calendar<'_>, dates: &[i32], roll: Roll, rolled: &mut [i32])
    requires { length rolled.old ≡ length dates.now }
    ensures { (i : ℕ) → i < length dates.now
        → IsRolledEntry calendar.now roll (slice_index_or dates.now i (pos 0)) (slice_index_or rolled.new i (pos 0)) }
{
    for i in 0..dates.len() {
        rolled[i] = rolled_of(calendar, dates[i], roll);
    }
}

// The date that one goes to by a roll.
fn rolled_of(calendar: &Calendar<'_>, number: i32, roll: Roll) -> i32
    ensures { IsRolledEntry calendar.now roll number result }
{
    match date_of(number) {
        Some(date) => number_or_none(calendar.roll(date, roll)),
        None => NONE,
    }
}

// Writes the dates of days since 1970.
fn write_from_date32(days: &[i32], dates: &mut [i32])
    requires { length dates.old ≡ length days.now }
    ensures { dates.new ≡ map from_date32_entry days.now }
{
    for i in 0..days.len() {
        dates[i] = from_date32(days[i]);
    }
}

// The date so many days after 1 January 1970.
#[tactic(auto, using(crate::proofs::ColumnLemmas::late_date32))]
fn from_date32(days: i32) -> i32
    ensures { result ≡ from_date32_entry days }
{
    if days > LAST {
        return NONE;
    }
    number_or_none(date_of(days + EPOCH))
}

// Writes the days since 1970 of dates.
fn write_to_date32(dates: &[i32], days: &mut [i32])
    requires { length days.old ≡ length dates.now }
    ensures { days.new ≡ map to_date32_entry dates.now }
{
    for i in 0..dates.len() {
        days[i] = to_date32(dates[i]);
    }
}

// The days from 1 January 1970 to a date.
fn to_date32(number: i32) -> i32
    ensures { result ≡ to_date32_entry number }
{
    match date_of(number) {
        Some(_) => number - EPOCH,
        None => NONE,
    }
}

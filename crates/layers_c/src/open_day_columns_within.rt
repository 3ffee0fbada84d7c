//! Columns of open days of the years of which holidays are known. An answer that looks at another year is none.
//!
//! As in `open_day_columns`, nothing is written if the columns have different lengths, or the holidays are not those of a calendar.
ghost use Rattle.std.specs.Prelude.{◌≡◌, ◌<◌, ℕ, true, false, Some, length, pos, slice_index_or};
ghost use Rattle.chrono_business.specs.declared.roll.Roll.{Roll};
ghost use Rattle.layers_c.specs.OpenDayColumnsWithin.{IsBetweenWithin, IsMovedWithin, IsRolledWithin, open_within_entry};
ghost use Rattle.layers_c.specs.OpenDays.{IsCalendar, closed_from_c, roll_numbered};
ghost use Rattle.layers_c.specs.OpenDaysWithin.{years_from_c};

use crate::open_days::{MOST, calendar_of, roll_of};
use crate::open_days_within::years;
use chrono_business::{Calendar, KnownYears, Roll};
use chrono_datetime::NaiveDate;
use numbers_c::{NONE, date_of, number_or_none};

/// Writes for each of `dates` 1 if it is open, 2 if it lies outside the years from `first_year` to `last_year`, and 0 otherwise.
#[unsafe(no_mangle)]
pub extern "C" fn calendar_column_is_open_day_within(
    weekend: u8,
    holidays: &[i32],
    first_year: i32,
    last_year: i32,
    dates: &[i32],
    marks: &mut [u8],
) -> bool
    ensures lengths { result ≡ true → length marks.old ≡ length dates.now }
    ensures every { IsCalendar weekend holidays.now → length marks.old ≡ length dates.now → result ≡ true }
    ensures filled { result ≡ true → (i : ℕ) → i < length dates.now → slice_index_or marks.new i 0
        ≡ open_within_entry (years_from_c first_year last_year) (closed_from_c weekend holidays.now) (slice_index_or dates.now i (pos 0)) }
    ensures kept { result ≡ false → marks.new ≡ marks.old }
{
    if marks.len() != dates.len() {
        return false;
    }
    let mut room = [NaiveDate::MIN; MOST];
    match calendar_of(weekend, holidays, &mut room) {
        Some(calendar) => {
            write_open(&calendar, years(first_year, last_year), dates, marks);
            true
        }
        None => false,
    }
}

/// Writes for each of `dates` the date that is `n` open days later, or earlier if `n` is negative. Both have to lie in the years.
#[unsafe(no_mangle)]
pub extern "C" fn calendar_column_add_open_days_within(
    weekend: u8,
    holidays: &[i32],
    first_year: i32,
    last_year: i32,
    dates: &[i32],
    n: i64,
    moved: &mut [i32],
) -> bool
    ensures lengths { result ≡ true → length moved.old ≡ length dates.now }
    ensures every { IsCalendar weekend holidays.now → length moved.old ≡ length dates.now → result ≡ true }
    ensures filled { result ≡ true → (i : ℕ) → i < length dates.now
        → IsMovedWithin (years_from_c first_year last_year) (closed_from_c weekend holidays.now) n
        (slice_index_or dates.now i (pos 0)) (slice_index_or moved.new i (pos 0)) }
    ensures kept { result ≡ false → moved.new ≡ moved.old }
{
    if moved.len() != dates.len() {
        return false;
    }
    let mut room = [NaiveDate::MIN; MOST];
    match calendar_of(weekend, holidays, &mut room) {
        Some(calendar) => {
            write_moved(&calendar, years(first_year, last_year), dates, n, moved);
            true
        }
        None => false,
    }
}

/// Writes the number of open days from each of `from` on and before the date at its place in `to`. Each of these days has to lie in the years.
#[unsafe(no_mangle)]
pub extern "C" fn calendar_column_open_days_between_within(
    weekend: u8,
    holidays: &[i32],
    first_year: i32,
    last_year: i32,
    from: &[i32],
    to: &[i32],
    days: &mut [i64],
) -> bool
    ensures lengths { result ≡ true → (length to.now ≡ length from.now) × (length days.old ≡ length from.now) }
    ensures every { IsCalendar weekend holidays.now → length to.now ≡ length from.now → length days.old ≡ length from.now → result ≡ true }
    ensures filled { result ≡ true → (i : ℕ) → i < length from.now
        → IsBetweenWithin (years_from_c first_year last_year) (closed_from_c weekend holidays.now)
        (slice_index_or from.now i (pos 0)) (slice_index_or to.now i (pos 0)) (slice_index_or days.new i (pos 0)) }
    ensures kept { result ≡ false → days.new ≡ days.old }
{
    if to.len() != from.len() {
        return false;
    }
    if days.len() != from.len() {
        return false;
    }
    let mut room = [NaiveDate::MIN; MOST];
    match calendar_of(weekend, holidays, &mut room) {
        Some(calendar) => {
            write_between(&calendar, years(first_year, last_year), from, to, days);
            true
        }
        None => false,
    }
}

/// Writes for each of `dates` the date that it goes to by a roll. The days that the roll looks at have to lie in the years.
#[unsafe(no_mangle)]
pub extern "C" fn calendar_column_roll_within(
    weekend: u8,
    holidays: &[i32],
    first_year: i32,
    last_year: i32,
    dates: &[i32],
    roll: u32,
    rolled: &mut [i32],
) -> bool
    ensures lengths { result ≡ true → length rolled.old ≡ length dates.now }
    ensures every { (r : Roll) → IsCalendar weekend holidays.now → roll_numbered roll ≡ Some r → length rolled.old ≡ length dates.now → result ≡ true }
    ensures filled { result ≡ true → (r : Roll) × (roll_numbered roll ≡ Some r) × ((i : ℕ) → i < length dates.now
        → IsRolledWithin (years_from_c first_year last_year) (closed_from_c weekend holidays.now) r
        (slice_index_or dates.now i (pos 0)) (slice_index_or rolled.new i (pos 0))) }
    ensures kept { result ≡ false → rolled.new ≡ rolled.old }
{
    if rolled.len() != dates.len() {
        return false;
    }
    let Some(roll) = roll_of(roll) else {
        return false;
    };
    let mut room = [NaiveDate::MIN; MOST];
    match calendar_of(weekend, holidays, &mut room) {
        Some(calendar) => {
            write_rolled(&calendar, years(first_year, last_year), dates, roll, rolled);
            true
        }
        None => false,
    }
}

// Writes for each date whether it is open.
fn write_open(calendar: &Calendar<'_>, years: KnownYears, dates: &[i32], marks: &mut [u8])
    requires { length marks.old ≡ length dates.now }
    ensures { (i : ℕ) → i < length dates.now → slice_index_or marks.new i 0
        ≡ open_within_entry years calendar.now (slice_index_or dates.now i (pos 0)) }
{
    for i in 0..dates.len() {
        marks[i] = open_of(calendar, years, dates[i]);
    }
}

// 1 for an open date, 2 for one of another year.
fn open_of(calendar: &Calendar<'_>, years: KnownYears, number: i32) -> u8
    ensures { result ≡ open_within_entry years calendar.now number }
{
    let Some(date) = date_of(number) else {
        return 0;
    };
    match calendar.is_open_within(years, date) {
        Some(true) => 1,
        Some(false) => 0,
        None => 2,
    }
}

// Writes the date that each goes to by `n` open days.
fn write_moved(calendar: &Calendar<'_>, years: KnownYears, dates: &[i32], n: i64, moved: &mut [i32])
    requires { length moved.old ≡ length dates.now }
    ensures { (i : ℕ) → i < length dates.now
        → IsMovedWithin years calendar.now n (slice_index_or dates.now i (pos 0)) (slice_index_or moved.new i (pos 0)) }
{
    for i in 0..dates.len() {
        moved[i] = moved_of(calendar, years, dates[i], n);
    }
}

// The date that one goes to by `n` open days.
fn moved_of(calendar: &Calendar<'_>, years: KnownYears, number: i32, n: i64) -> i32
    ensures { IsMovedWithin years calendar.now n number result }
{
    match date_of(number) {
        Some(date) => number_or_none(calendar.add_open_days_within(years, date, n)),
        None => NONE,
    }
}

// Writes how many days are open from each date on and before another.
fn write_between(
    calendar: &Calendar<'_>,
    years: KnownYears,
    from: &[i32],
    to: &[i32],
    days: &mut [i64],
)
    requires to { length to.now ≡ length from.now }
    requires days { length days.old ≡ length from.now }
    ensures { (i : ℕ) → i < length from.now
        → IsBetweenWithin years calendar.now (slice_index_or from.now i (pos 0)) (slice_index_or to.now i (pos 0)) (slice_index_or days.new i (pos 0)) }
{
    for i in 0..from.len() {
        days[i] = between_of(calendar, years, from[i], to[i]);
    }
}

// How many days are open from one date on and before another.
fn between_of(calendar: &Calendar<'_>, years: KnownYears, from: i32, to: i32) -> i64
    ensures { IsBetweenWithin years calendar.now from to result }
{
    let Some(from) = date_of(from) else {
        return i64::MIN;
    };
    let Some(to) = date_of(to) else {
        return i64::MIN;
    };
    match calendar.open_days_within(years, from, to) {
        Some(count) => count,
        None => i64::MIN,
    }
}

// Writes the date that each goes to by a roll.
fn write_rolled(
    calendar: &Calendar<'_>,
    years: KnownYears,
    dates: &[i32],
    roll: Roll,
    rolled: &mut [i32],
)
    requires { length rolled.old ≡ length dates.now }
    ensures { (i : ℕ) → i < length dates.now
        → IsRolledWithin years calendar.now roll (slice_index_or dates.now i (pos 0)) (slice_index_or rolled.new i (pos 0)) }
{
    for i in 0..dates.len() {
        rolled[i] = rolled_of(calendar, years, dates[i], roll);
    }
}

// The date that one goes to by a roll.
fn rolled_of(calendar: &Calendar<'_>, years: KnownYears, number: i32, roll: Roll) -> i32
    ensures { IsRolledWithin years calendar.now roll number result }
{
    match date_of(number) {
        Some(date) => number_or_none(calendar.roll_within(years, date, roll)),
        None => NONE,
    }
}

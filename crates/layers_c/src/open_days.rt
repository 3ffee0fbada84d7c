//! Open days: which days are open, how many lie between two dates, and the `n`-th one.
ghost use Rattle.std.specs.Prelude.{◌≡◌, ◌≢◌, ◌<◌, ◌≤◌, ℤ, false, true, None, Some, All, IfSome, IfNone, length};
ghost use Rattle.chrono_units.specs.SetDigits.{set_at};
ghost use Rattle.chrono_datetime.specs.Days.{IsDate, date_of_day};
ghost use Rattle.chrono_business.specs.OpenDays.{AreHolidays, IsMovedByOpenDays, closed, is_open, open_days_signed};
ghost use Rattle.chrono_business.specs.Rolls.{RollsTo};
ghost use Rattle.chrono_business.specs.declared.roll.Roll.{Roll};
ghost use Rattle.numbers_c.specs.Answers.{none_number, or_none};
ghost use Rattle.layers_c.specs.OpenDays.{IsCalendar, closed_from_c, no_count, roll_numbered};

use chrono_business::{Calendar, Roll};
use chrono_datetime::{Datelike, NaiveDate};
use numbers_c::{NONE, date_of, number_or_none, set_of};

// A calendar has at most so many holidays.
pub(crate) const MOST: usize = 1_000;

/// Returns whether a date is open: neither on the weekend nor a holiday.
#[unsafe(no_mangle)]
pub extern "C" fn calendar_is_open_day(weekend: u8, holidays: &[i32], date: i32) -> bool
    ensures open { result ≡ true → is_open (closed_from_c weekend holidays.now) date ≡ true }
    ensures every { IsCalendar weekend holidays.now → IsDate date
        → result ≡ is_open (closed_from_c weekend holidays.now) date }
    ensures no_calendar { (IsCalendar weekend holidays.now → ⊥) → result ≡ false }
    ensures no_date { (IsDate date → ⊥) → result ≡ false }
{
    let mut room = [NaiveDate::MIN; MOST];
    let Some(calendar) = calendar_of(weekend, holidays, &mut room) else {
        return false;
    };
    match date_of(date) {
        Some(date) => calendar.is_open(date),
        None => false,
    }
}

/// Returns the date that is `n` open days after a date, or before it if `n` is negative.
#[unsafe(no_mangle)]
pub extern "C" fn calendar_add_open_days(weekend: u8, holidays: &[i32], date: i32, n: i64) -> i32
    ensures number { result ≡ or_none (date_of_day result) }
    ensures moved { result ≢ none_number → IsMovedByOpenDays (closed_from_c weekend holidays.now) date n result }
    ensures none { result ≡ none_number → IsCalendar weekend holidays.now → IsDate date
        → (e : ℤ) → IsDate e → ¬ IsMovedByOpenDays (closed_from_c weekend holidays.now) date n e }
    ensures no_calendar { (IsCalendar weekend holidays.now → ⊥) → result ≡ none_number }
    ensures no_date { (IsDate date → ⊥) → result ≡ none_number }
{
    let mut room = [NaiveDate::MIN; MOST];
    let Some(calendar) = calendar_of(weekend, holidays, &mut room) else {
        return NONE;
    };
    match date_of(date) {
        Some(date) => number_or_none(calendar.add_open_days(date, n)),
        None => NONE,
    }
}

/// Returns how many days are open from one date on and before another. It is negative if the second is the earlier.
#[unsafe(no_mangle)]
pub extern "C" fn calendar_open_days_between(
    weekend: u8,
    holidays: &[i32],
    from: i32,
    to: i32,
) -> i64
    ensures count { IsCalendar weekend holidays.now → IsDate from → IsDate to
        → result ≡ open_days_signed (closed_from_c weekend holidays.now) from to }
    ensures no_calendar { (IsCalendar weekend holidays.now → ⊥) → result ≡ no_count }
    ensures no_from { (IsDate from → ⊥) → result ≡ no_count }
    ensures no_to { (IsDate to → ⊥) → result ≡ no_count }
{
    let mut room = [NaiveDate::MIN; MOST];
    let Some(calendar) = calendar_of(weekend, holidays, &mut room) else {
        return i64::MIN;
    };
    let Some(from) = date_of(from) else {
        return i64::MIN;
    };
    match date_of(to) {
        Some(to) => calendar.open_days(from, to),
        None => i64::MIN,
    }
}

/// Returns the date that a date moves to by a roll, from 0 to 6 in the order of `Roll`. An open date stays.
#[unsafe(no_mangle)]
pub extern "C" fn calendar_roll(weekend: u8, holidays: &[i32], date: i32, roll: u32) -> i32
    ensures number { result ≡ or_none (date_of_day result) }
    ensures rolled { result ≢ none_number
        → IfSome (roll_numbered roll) (λ r. RollsTo (closed_from_c weekend holidays.now) r date result) }
    ensures none { (r : Roll) → result ≡ none_number → roll_numbered roll ≡ Some r → IsCalendar weekend holidays.now → IsDate date
        → (e : ℤ) → IsDate e → ¬ RollsTo (closed_from_c weekend holidays.now) r date e }
    ensures no_calendar { (IsCalendar weekend holidays.now → ⊥) → result ≡ none_number }
    ensures no_date { (IsDate date → ⊥) → result ≡ none_number }
    ensures no_roll { roll_numbered roll ≡ None → result ≡ none_number }
{
    let mut room = [NaiveDate::MIN; MOST];
    let Some(calendar) = calendar_of(weekend, holidays, &mut room) else {
        return NONE;
    };
    let Some(roll) = roll_of(roll) else {
        return NONE;
    };
    match date_of(date) {
        Some(date) => number_or_none(calendar.roll(date, roll)),
        None => NONE,
    }
}

// The roll with a number, in their order.
pub(crate) fn roll_of(number: u32) -> Option<Roll>
    ensures { result ≡ roll_numbered number }
{
    match number {
        0 => Some(Roll::Unadjusted),
        1 => Some(Roll::Following),
        2 => Some(Roll::Preceding),
        3 => Some(Roll::ModifiedFollowing),
        4 => Some(Roll::ModifiedPreceding),
        5 => Some(Roll::NearestIsda),
        6 => Some(Roll::NearestQuantLib),
        _ => None,
    }
}

// The calendar of a weekend and of the numbers of holidays, if they are its holidays and not too many.
pub(crate) fn calendar_of<'a>(
    weekend: u8,
    holidays: &[i32],
    room: &'a mut [NaiveDate],
) -> Option<Calendar<'a>>
    requires { length room.old ≡ 1000 }
    ensures calendar { IfSome result (λ c. c ≡ closed_from_c weekend holidays.now) }
    ensures only { IfSome result (λ _. IsCalendar weekend holidays.now) }
    ensures none { IfNone result (IsCalendar weekend holidays.now → ⊥) }
{
    let Some(days) = dates_of(holidays, room) else {
        return None;
    };
    match Calendar::try_new(set_of(weekend), days) {
        Ok(calendar) => Some(calendar),
        Err(_) => None,
    }
}

// The dates with these numbers, if each is a date's and there is room for all.
pub(crate) fn dates_of<'a>(numbers: &[i32], room: &'a mut [NaiveDate]) -> Option<&'a [NaiveDate]>
    ensures dates { IfSome result (λ days. days.now ≡ numbers.now) }
    ensures few { IfSome result (λ _. length numbers.now ≤ length room.old) }
    ensures none { IfNone result (All IsDate numbers.now → length room.old < length numbers.now) }
{
    let mut count = 0;
    while count < numbers.len() {
        if count == room.len() {
            return None;
        }
        let Some(date) = date_of(numbers[count]) else {
            return None;
        };
        room[count] = date;
        count += 1;
    }
    Some(&room[..count])
}

//! Open days of the years of which holidays are known. Any other year gives none.
ghost use Rattle.std.specs.Prelude.{◌≡◌, ◌≢◌, ◌<◌, ◌≤ℤ◌, ℤ, pos, List, true, if◌then◌else◌, None, Some, All, IfSome, length};
ghost use Rattle.chrono_datetime.specs.Days.{IsDate, date_of_day};
ghost use Rattle.chrono_business.specs.KnownYears.{AreKnownDays, BeginsIn, is_known, is_roll_known};
ghost use Rattle.chrono_business.specs.OpenDays.{IsMovedByOpenDays, open_days_signed};
ghost use Rattle.chrono_business.specs.Rolls.{RollsTo};
ghost use Rattle.chrono_business.specs.declared.holiday_rule.HolidayRule.{HolidayRule};
ghost use Rattle.chrono_business.specs.declared.roll.Roll.{Roll};
ghost use Rattle.numbers_c.specs.Answers.{none_number, or_none};
ghost use Rattle.layers_c.specs.Holidays.{rules_numbered};
ghost use Rattle.layers_c.specs.OpenDays.{IsCalendar, closed_from_c, no_count, roll_numbered};
ghost use Rattle.layers_c.specs.OpenDaysWithin.{open_within, years_from_c};

use crate::open_days::{MOST, calendar_of, roll_of};
use chrono_business::{
    HolidayRule, KnownYears, england_and_wales, fedwire, first_known_year, france, germany, japan,
    nyse, target, us_federal,
};
use chrono_datetime::NaiveDate;
use numbers_c::{NONE, date_of, number_or_none};

/// Returns whether a date of the years from `first_year` to `last_year` is open, as 1 or 0. A date of another year gives none.
#[unsafe(no_mangle)]
pub extern "C" fn calendar_is_open_day_within(
    weekend: u8,
    holidays: &[i32],
    first_year: i32,
    last_year: i32,
    date: i32,
) -> i32
    ensures open { IsCalendar weekend holidays.now → IsDate date
        → result ≡ open_within (years_from_c first_year last_year) (closed_from_c weekend holidays.now) date }
    ensures no_calendar { (IsCalendar weekend holidays.now → ⊥) → result ≡ none_number }
    ensures no_date { (IsDate date → ⊥) → result ≡ none_number }
{
    let mut room = [NaiveDate::MIN; MOST];
    let Some(calendar) = calendar_of(weekend, holidays, &mut room) else {
        return NONE;
    };
    match date_of(date) {
        Some(date) => one_or_none(calendar.is_open_within(years(first_year, last_year), date)),
        None => NONE,
    }
}

/// Returns the date that is `n` open days after a date, or before it if `n` is negative. One of another year gives none.
#[unsafe(no_mangle)]
pub extern "C" fn calendar_add_open_days_within(
    weekend: u8,
    holidays: &[i32],
    first_year: i32,
    last_year: i32,
    date: i32,
    n: i64,
) -> i32
    ensures number { result ≡ or_none (date_of_day result) }
    ensures moved { result ≢ none_number → IsMovedByOpenDays (closed_from_c weekend holidays.now) date n result }
    ensures known { result ≢ none_number
        → (is_known (years_from_c first_year last_year) date ≡ true) × (is_known (years_from_c first_year last_year) result ≡ true) }
    ensures none { result ≡ none_number → IsCalendar weekend holidays.now → IsDate date
        → (e : ℤ) → is_known (years_from_c first_year last_year) date ≡ true → is_known (years_from_c first_year last_year) e ≡ true
        → ¬ IsMovedByOpenDays (closed_from_c weekend holidays.now) date n e }
    ensures no_calendar { (IsCalendar weekend holidays.now → ⊥) → result ≡ none_number }
    ensures no_date { (IsDate date → ⊥) → result ≡ none_number }
{
    let mut room = [NaiveDate::MIN; MOST];
    let Some(calendar) = calendar_of(weekend, holidays, &mut room) else {
        return NONE;
    };
    match date_of(date) {
        Some(date) => {
            number_or_none(calendar.add_open_days_within(years(first_year, last_year), date, n))
        }
        None => NONE,
    }
}

/// Returns how many days are open from one date on and before another. If one of these days is of another year, it gives none.
#[unsafe(no_mangle)]
pub extern "C" fn calendar_open_days_between_within(
    weekend: u8,
    holidays: &[i32],
    first_year: i32,
    last_year: i32,
    from: i32,
    to: i32,
) -> i64
    ensures count { IsCalendar weekend holidays.now → IsDate from → IsDate to
        → AreKnownDays (years_from_c first_year last_year) from to → AreKnownDays (years_from_c first_year last_year) to from
        → result ≡ open_days_signed (closed_from_c weekend holidays.now) from to }
    ensures unknown { IsDate from → IsDate to
        → (AreKnownDays (years_from_c first_year last_year) from to → AreKnownDays (years_from_c first_year last_year) to from → ⊥)
        → result ≡ no_count }
    ensures no_calendar { (IsCalendar weekend holidays.now → ⊥) → result ≡ no_count }
    ensures no_from { (IsDate from → ⊥) → result ≡ no_count }
    ensures no_to { (IsDate to → ⊥) → result ≡ no_count }
{
    let mut room = [NaiveDate::MIN; MOST];
    let Some(calendar) = calendar_of(weekend, holidays, &mut room) else {
        return i64::MIN;
    };
    let Some(from) = date_of(from) else {
        return i64::MIN;
    };
    let Some(to) = date_of(to) else {
        return i64::MIN;
    };
    match calendar.open_days_within(years(first_year, last_year), from, to) {
        Some(count) => count,
        None => i64::MIN,
    }
}

/// Returns the date that a date moves to by a roll, from 0 to 6 in the order of `Roll`. A roll that looks at another year gives none.
#[unsafe(no_mangle)]
pub extern "C" fn calendar_roll_within(
    weekend: u8,
    holidays: &[i32],
    first_year: i32,
    last_year: i32,
    date: i32,
    roll: u32,
) -> i32
    ensures number { result ≡ or_none (date_of_day result) }
    ensures rolled { result ≢ none_number
        → IfSome (roll_numbered roll) (λ r. RollsTo (closed_from_c weekend holidays.now) r date result) }
    ensures known { result ≢ none_number
        → IfSome (roll_numbered roll) (λ r. is_roll_known (years_from_c first_year last_year) r date result ≡ true) }
    ensures none { (r : Roll) → result ≡ none_number → roll_numbered roll ≡ Some r → IsCalendar weekend holidays.now → IsDate date
        → (e : ℤ) → is_roll_known (years_from_c first_year last_year) r date e ≡ true
        → ¬ RollsTo (closed_from_c weekend holidays.now) r date e }
    ensures no_calendar { (IsCalendar weekend holidays.now → ⊥) → result ≡ none_number }
    ensures no_date { (IsDate date → ⊥) → result ≡ none_number }
    ensures no_roll { roll_numbered roll ≡ None → result ≡ none_number }
{
    let mut room = [NaiveDate::MIN; MOST];
    let Some(calendar) = calendar_of(weekend, holidays, &mut room) else {
        return NONE;
    };
    let Some(roll) = roll_of(roll) else {
        return NONE;
    };
    let known = years(first_year, last_year);
    match date_of(date) {
        Some(date) => number_or_none(calendar.roll_within(known, date, roll)),
        None => NONE,
    }
}

/// Returns the first year of which the holidays of a calendar are known, by its number.
#[unsafe(no_mangle)]
pub extern "C" fn calendar_holidays_first_year(which: u32) -> i32
    ensures begins { (rules : List HolidayRule) → rules_numbered which ≡ Some rules → BeginsIn rules result }
    ensures least { (rules : List HolidayRule) → rules_numbered which ≡ Some rules → All (λ r. result ≤ℤ r.first_year) rules }
    ensures unknown { rules_numbered which ≡ None → result ≡ none_number }
{
    match which {
        0 => first_year_of(&us_federal()),
        1 => first_year_of(&target()),
        2 => first_year_of(&england_and_wales()),
        3 => first_year_of(&fedwire()),
        4 => first_year_of(&nyse()),
        5 => first_year_of(&germany()),
        6 => first_year_of(&france()),
        7 => first_year_of(&japan()),
        _ => NONE,
    }
}

// The years from one to another.
pub(crate) fn years(first: i32, last: i32) -> KnownYears
    ensures { result ≡ years_from_c first last }
{
    KnownYears { first, last }
}

// 1 for what is open, 0 for what is closed, and none.
fn one_or_none(answer: Option<bool>) -> i32
    ensures some { IfSome answer (λ o. result ≡ (if o then pos 1 else pos 0)) }
    ensures none { answer ≡ None → result ≡ none_number }
{
    match answer {
        Some(true) => 1,
        Some(false) => 0,
        None => NONE,
    }
}

// The first year in which one of some rules holds.
fn first_year_of(rules: &[HolidayRule]) -> i32
    requires { 0 < length rules.now }
    ensures begins { BeginsIn rules.now result }
    ensures least { All (λ r. result ≤ℤ r.first_year) rules.now }
{
    match first_known_year(rules) {
        Some(year) => year,
        None => NONE,
    }
}

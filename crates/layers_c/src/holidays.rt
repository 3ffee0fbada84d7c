//! Holidays: those of calendars that are known by name, Easter, and a test of holidays.
ghost use Rattle.std.specs.Prelude.{◌≡◌, ◌≢◌, ◌≤◌, ◌≤ℤ◌, ◌<◌, ◌+◌, ℕ, List, true, false, None, Some, All, IfSome, IfNone, IfErr, IsSome, length, take, drop, pos, ◌^◌};
ghost use Rattle.chrono_units.specs.Years.{IsYear};
ghost use Rattle.chrono_units.specs.SetDigits.{set_at};
ghost use Rattle.chrono_datetime.specs.Days.{IsDate};
ghost use Rattle.chrono_business.specs.Easter.{date_of_easter};
ghost use Rattle.chrono_business.specs.WrongHolidays.{IsWrong};
ghost use Rattle.chrono_business.specs.declared.holiday_rule.HolidayRule.{HolidayRule};
ghost use Rattle.numbers_c.specs.Answers.{count_or_none, none_number, or_none};
ghost use Rattle.numbers_c.specs.Texts.{length_of, overwritten, text_within};
ghost use Rattle.layers_c.specs.Holidays.{AreHolidaysOf, AreTooManyFor, IsFirstNoDate, IsHolidayFault, holiday_line_from_c, most_within, rules_numbered};
ghost use Rattle.layers_c.specs.OpenDays.{IsCalendar};

use crate::faults::CalendarFault;
use crate::holiday_words::holiday_line;
use crate::open_days::{MOST, dates_of};
use chrono_business::{
    Calendar, HolidayError, easter, england_and_wales, fedwire, france, germany, holidays_of,
    japan, nyse, target, us_federal,
};
use chrono_datetime::{Datelike, MAX_YEAR, MIN_YEAR, NaiveDate, WeekdaySet};
use numbers_c::{NONE, date_of, number_or_none, set_of, write_over};

/// Returns Easter Sunday of a year, as the Gregorian churches have it.
#[unsafe(no_mangle)]
pub extern "C" fn calendar_easter(year: i32) -> i32
    ensures { result ≡ or_none (date_of_easter year) }
{
    number_or_none(easter(year))
}

/// Writes the holidays of a calendar for some years, but for those on the weekend, and returns how many there are.
#[unsafe(no_mangle)]
pub extern "C" fn calendar_holidays_of(
    which: u32,
    first_year: i32,
    last_year: i32,
    weekend: u8,
    out: &mut [i32],
) -> i32
    ensures holidays { (n : ℕ) → (rules : List HolidayRule) → result ≡ pos n → rules_numbered which ≡ Some rules
        → AreHolidaysOf rules first_year last_year (set_at weekend) (take n out.new) }
    ensures within { result ≤ℤ pos (length out.old) }
    ensures rest { (n : ℕ) → result ≡ pos n → drop n out.new ≡ drop n out.old }
    ensures none { (rules : List HolidayRule) → result ≡ none_number → rules_numbered which ≡ Some rules → IsYear first_year → IsYear last_year
        → AreTooManyFor (most_within (length out.old)) rules first_year last_year (set_at weekend) }
    ensures kept { result ≡ none_number → out.new ≡ out.old }
    ensures counted { result ≢ none_number → pos 0 ≤ℤ result }
    ensures unknown { rules_numbered which ≡ None → result ≡ none_number }
    ensures years { result ≢ none_number → IsYear first_year × IsYear last_year }
{
    if first_year < MIN_YEAR
        || first_year > MAX_YEAR
        || last_year < MIN_YEAR
        || last_year > MAX_YEAR
    {
        return NONE;
    }
    let most = most_within(out.len());
    let mut room = [NaiveDate::MIN; MOST];
    let dates = &mut room[..most];
    match found_holidays(which, first_year, last_year, set_of(weekend), most, dates) {
        Some(count) => {
            write_numbers(&dates[..count], out);
            count as i32
        }
        None => NONE,
    }
}

/// Returns whether dates are holidays of a calendar with a weekend. If they are none, fills in which is the first wrong one.
#[unsafe(no_mangle)]
pub extern "C" fn calendar_holidays_check(
    weekend: u8,
    holidays: &[i32],
    fault: &mut CalendarFault,
) -> bool
    ensures right { result ≡ true → IsCalendar weekend holidays.now }
    ensures every { IsCalendar weekend holidays.now → result ≡ true }
    ensures fault { result ≡ false → IsHolidayFault (set_at weekend) holidays.now fault.new.code fault.new.byte }
    ensures field { result ≡ false → fault.new.field ≡ 0 }
    ensures end { result ≡ false → fault.new.end ≡ fault.new.byte + 1 }
    ensures no_fault { result ≡ true → fault.new ≡ fault.old }
{
    let mut room = [NaiveDate::MIN; MOST];
    if holidays.len() > MOST {
        *fault = fault_at(1, MOST);
        return false;
    }
    if let Some(place) = first_no_date(holidays) {
        *fault = fault_at(2, place);
        return false;
    }
    let Some(dates) = dates_of(holidays, &mut room) else {
        return false;
    };
    match Calendar::try_new(set_of(weekend), dates) {
        Ok(_) => true,
        Err(HolidayError::NotRising(place)) => {
            *fault = fault_at(3, place);
            false
        }
        Err(HolidayError::OnWeekend(place)) => {
            *fault = fault_at(4, place);
            false
        }
    }
}

/// Writes what a fault of holidays says over the first bytes, if they are enough, and returns how many it took.
#[unsafe(no_mangle)]
pub extern "C" fn calendar_holidays_fault_text(fault: &CalendarFault, text: &mut [u8]) -> i32
    ensures length { result ≡ count_or_none (length_of (text_within (length text.old) (holiday_line_from_c fault.now))) }
    ensures bytes { text.new ≡ overwritten (text_within (length text.old) (holiday_line_from_c fault.now)) text.old }
{
    match holiday_line(fault) {
        Some(line) => write_over(text, line.as_bytes()),
        None => NONE,
    }
}

// The fault with a number at a place.
fn fault_at(code: u32, place: usize) -> CalendarFault
    requires { place < 2 ^ 63 }
    ensures code { result.code ≡ code }
    ensures place { result.byte ≡ place }
    ensures field { result.field ≡ 0 }
    ensures end { result.end ≡ place + 1 }
{
    CalendarFault {
        code,
        field: 0,
        byte: place,
        end: place + 1,
    }
}

// The place of the first number that is no date.
fn first_no_date(numbers: &[i32]) -> Option<usize>
    ensures place { IfSome result (λ place. IsFirstNoDate numbers.now place) }
    ensures all { IfNone result (All IsDate numbers.now) }
{
    for place in 0..numbers.len() {
        let Some(_) = date_of(numbers[place]) else {
            return Some(place);
        };
    }
    None
}

// How many holidays a calendar may have, if there is room for so many.
fn most_within(room: usize) -> usize
    ensures most { result ≡ most_within room }
    ensures few { result ≤ 1000 }
    ensures within { result ≤ room }
{
    if room <= MOST { room } else { MOST }
}

// Writes the holidays of a calendar into the first dates, and returns how many there are.
fn found_holidays(
    which: u32,
    first_year: i32,
    last_year: i32,
    weekend: WeekdaySet,
    most: usize,
    dates: &mut [NaiveDate],
) -> Option<usize>
    requires { length dates.old ≡ most }
    ensures within { IfSome result (λ n. n ≤ length dates.old) }
    ensures length { length dates.new ≡ length dates.old }
    ensures holidays { (rules : List HolidayRule) → rules_numbered which ≡ Some rules
        → IfSome result (λ n. AreHolidaysOf rules first_year last_year weekend (take n dates.new)) }
    ensures none { (rules : List HolidayRule) → rules_numbered which ≡ Some rules
        → IfNone result (AreTooManyFor most rules first_year last_year weekend) }
    ensures known { IfSome result (λ _. IsSome (rules_numbered which)) }
{
    match which {
        0 => holidays_of(&us_federal(), first_year, last_year, weekend, dates),
        1 => holidays_of(&target(), first_year, last_year, weekend, dates),
        2 => holidays_of(&england_and_wales(), first_year, last_year, weekend, dates),
        3 => holidays_of(&fedwire(), first_year, last_year, weekend, dates),
        4 => holidays_of(&nyse(), first_year, last_year, weekend, dates),
        5 => holidays_of(&germany(), first_year, last_year, weekend, dates),
        6 => holidays_of(&france(), first_year, last_year, weekend, dates),
        7 => holidays_of(&japan(), first_year, last_year, weekend, dates),
        _ => None,
    }
}

// Writes the numbers of dates over the first elements.
fn write_numbers(dates: &[NaiveDate], out: &mut [i32])
    requires { length dates.now ≤ length out.old }
    ensures numbers { take (length dates.now) out.new ≡ dates.now }
    ensures rest { drop (length dates.now) out.new ≡ drop (length dates.now) out.old }
{
    for i in 0..dates.len() {
        out[i] = dates[i].num_days_from_ce();
    }
}

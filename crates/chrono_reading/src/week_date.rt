//! Reads week dates.
ghost use Rattle.std.specs.Prelude.{◌≡◌, ◌≢◌, ◌+◌, ◌<◌, ◌≤◌, length, ◌^◌, ◌∷◌, ◌++◌, [], ℕ, ℤ, List, Some, Ok, IfSome, IfNone, IfOk, IfErr};
ghost use Rattle.std.specs.Int.{IsInRange};
ghost use Rattle.std.specs.Str.{byte};
ghost use Rattle.chrono_calendar.specs.Flags.{weeks_of_iso_year};
ghost use Rattle.chrono_datetime.specs.Fields.{IsIsoYear};
ghost use Rattle.chrono_text.specs.Text.{two_digits, year_text};
ghost use Rattle.chrono_datetime.specs.Weekday.{number_from_monday};
ghost use Rattle.chrono_datetime.specs.declared.Weekday.{Weekday};
ghost use Rattle.chrono_reading.specs.DateErrors.{HasWeekParts, IsWeekDateError, week_error};
ghost use Rattle.chrono_reading.specs.DateTexts.{IsWeekDateText};

use crate::error::{ReadCause, ReadError, error_at};
use crate::fitting::{fitting_year, is_of_year_form};
use chrono_calendar::YearFlags;
use chrono_datetime::{NaiveDate, Weekday};
use chrono_text::{digit, read_two, read_year};

// No ISO year has more weeks.
const MOST_WEEKS: u32 = 53;

// The size of the first and of the last ISO year that has a date.
const MOST_YEARS: u32 = 262_143;

/// Reads a week date (ISO 8601), such as `2024-W09-4` for Thursday, 29 February. Returns the date.
///
/// If `text` is no week date, returns what is wrong and at which byte, as a [`ReadError`].
///
/// ```
/// read_week_date(b"2024-W09-4").ok() // Some(2024-02-29)
/// read_week_date(b"2024-W53-1").err() // Some(ReadError { cause: WeekAbove(52), byte: 6 })
/// ```
///
/// The form is the ISO year as [`read_date`](crate::read_date) reads a year, `-W`, the week in two digits, `-`, and the weekday in one digit.
/// Monday is 1 and Sunday is 7.
#[inline]
pub fn read_week_date(text: &[u8]) -> Result<NaiveDate, ReadError>
    ensures read { IfOk result (λ n. IsWeekDateText text.now n) }
    // Whatever date has this text is the answer: no text is refused, and none has two meanings.
    ensures every { (n : ℤ) → IsWeekDateText text.now n → result ≡ Ok n }
    ensures error { IfErr result (λ e. IsWeekDateError text.now e) }
{
    match date_of(text) {
        Some(date) => Ok(date),
        None => Err(week_date_error(text)),
    }
}

// The date whose week name the text is.
#[inline]
fn date_of(text: &[u8]) -> Option<NaiveDate>
    ensures read { IfSome result (λ n. IsWeekDateText text.now n) }
    ensures every { (n : ℤ) → IsWeekDateText text.now n → result ≡ Some n }
{
    let (front, end) = text.split_last_chunk::<6>()?;
    let (week, weekday) = week_and_weekday(*end)?;
    let year = read_iso_year(front)?;
    NaiveDate::from_isoywd_opt(year, week, weekday)
}

// The ISO year that the text writes, if it may have a date.
#[inline]
fn read_iso_year(text: &[u8]) -> Option<i32>
    ensures some { IfSome result (λ y. IsIsoYear y × (year_text y ≡ text.now)) }
    ensures every { (y : ℤ) → IsIsoYear y → year_text y ≡ text.now → result ≡ Some y }
{
    let year = read_year(text)?;
    if year.unsigned_abs() > MOST_YEARS {
        return None;
    }
    Some(year)
}

// The week behind `-W`, and the weekday behind a `-`, that stand behind a year.
#[inline]
fn week_and_weekday(text: [u8; 6]) -> Option<(u32, Weekday)>
    ensures range { IfSome result (λ read. IsInRange 1 53 read.0) }
    ensures some { IfSome result (λ read. byte "-" ∷ byte "W" ∷ two_digits read.0
        ++ byte "-" ∷ (byte "0" + number_from_monday read.1) ∷ [] ≡ text) }
    ensures every { (week : ℕ) (weekday : Weekday) → IsInRange 1 53 week
        → byte "-" ∷ byte "W" ∷ two_digits week ++ byte "-" ∷ (byte "0" + number_from_monday weekday) ∷ [] ≡ text
        → result ≡ Some (week, weekday) }
{
    if let [b'-', b'W', tens, ones, b'-', number] = text {
        let week = read_two(tens, ones)?;
        let weekday = weekday_of(number)?;
        if week == 0 || week > MOST_WEEKS {
            return None;
        }
        Some((week, weekday))
    } else {
        None
    }
}

// The weekday of this digit, from 1 for Monday to 7 for Sunday.
#[inline]
fn weekday_of(number: u8) -> Option<Weekday>
    ensures some { IfSome result (λ weekday. byte "0" + number_from_monday weekday ≡ number) }
    ensures every { (weekday : Weekday) → byte "0" + number_from_monday weekday ≡ number
        → result ≡ Some weekday }
{
    Weekday::from_u32(u32::from(number.wrapping_sub(b'1')))
}

// Why a text is of no week date.
#[cold]
fn week_date_error(text: &[u8]) -> ReadError
    ensures { IsWeekDateError text.now result }
{
    let Some((year, week, weekday)) = week_parts(text) else {
        return error_at(ReadCause::NotThisForm, fitting_year(text, b"-Wdd-d"));
    };
    match read_iso_year(year) {
        Some(number) => week_error(number, week, weekday, year.len()),
        None => error_at(ReadCause::YearOutOfRange, 0),
    }
}

// The parts of a text that has the form of a week date: the text of its ISO year, its week and its weekday.
fn week_parts(text: &[u8]) -> Option<(&[u8], u32, u32)>
    ensures shorter { IfSome result (λ parts. length parts.0.now + 6 ≤ length text.now) }
    ensures some { IfSome result (λ parts. HasWeekParts text.now parts.0.now parts.1 parts.2) }
    ensures none { IfNone result ((year : List ℕ) (week weekday : ℕ) → ¬ HasWeekParts text.now year week weekday) }
{
    let (front, end) = text.split_last_chunk::<6>()?;
    let Some((week, weekday)) = week_and_digit(*end) else {
        return None;
    };
    if !is_of_year_form(front) {
        return None;
    }
    Some((front, week, weekday))
}

// The week behind `-W`, and the digit behind a `-`, that stand behind a year.
fn week_and_digit(text: [u8; 6]) -> Option<(u32, u32)>
    ensures small { IfSome result (λ read. (read.0 < 100) × (read.1 < 10)) }
    ensures some { IfSome result (λ read. byte "-" ∷ byte "W" ∷ two_digits read.0
        ++ byte "-" ∷ (byte "0" + read.1) ∷ [] ≡ text) }
    ensures every { (week weekday : ℕ) → week < 100 → weekday < 10
        → byte "-" ∷ byte "W" ∷ two_digits week ++ byte "-" ∷ (byte "0" + weekday) ∷ [] ≡ text
        → result ≡ Some (week, weekday) }
{
    if let [b'-', b'W', tens, ones, b'-', last] = text {
        let week = read_two(tens, ones)?;
        let weekday = digit(last);
        if weekday > 9 {
            return None;
        }
        Some((week, u32::from(weekday)))
    } else {
        None
    }
}

// What is wrong with the numbers of a week date that is none, behind the year.
#[tactic(auto, unfolding(crate::specs::DateErrors::week_error))]
fn week_error(year: i32, week: u32, weekday: u32, end: usize) -> ReadError
    requires { end + 6 < 2 ^ 64 }
    ensures { result ≡ week_error year week weekday end }
{
    let weeks = weeks_of_iso_year(year);
    if week == 0 {
        return error_at(ReadCause::WeekZero, end + 2);
    }
    if week > weeks {
        return error_at(ReadCause::WeekAbove(weeks), end + 2);
    }
    if weekday == 0 || weekday > 7 {
        return error_at(ReadCause::WeekdayOutOfRange, end + 5);
    }
    error_at(ReadCause::DateOutOfRange, 0)
}

// The weeks of an ISO year.
fn weeks_of_iso_year(year: i32) -> u32
    ensures { result ≡ weeks_of_iso_year year }
{
    YearFlags::from_year(year).nisoweeks()
}

//! Reads calendar dates.
ghost use Rattle.std.specs.Prelude.{◌≡◌, ◌≢◌, ◌<◌, ◌≤◌, ◌+◌, length, ◌∷◌, ◌++◌, ◌^◌, ℕ, ℤ, List, Some, Ok, IfSome, IfNone, IfOk, IfErr};
ghost use Rattle.std.specs.Int.{IsInRange};
ghost use Rattle.std.specs.Str.{byte};
ghost use Rattle.chrono_text.specs.Text.{two_digits, year_text};
ghost use Rattle.chrono_datetime.specs.Years.{IsYear, month_length};
ghost use Rattle.chrono_reading.specs.DateErrors.{HasDateParts, IsDateError, calendar_error};
ghost use Rattle.chrono_reading.specs.DateTexts.{IsDateText};

use crate::error::{ReadCause, ReadError, error_at};
use crate::fitting::{fitting_year, is_of_year_form};
use chrono_datetime::{Datelike, MAX_YEAR, MIN_YEAR, NaiveDate};
use chrono_text::{read_two, read_year};

/// Reads a calendar date (ISO 8601), such as `2024-02-29`. Returns the date.
///
/// If `text` is no date, returns what is wrong and at which byte, as a [`ReadError`].
///
/// ```
/// read_date(b"2024-02-29").ok() // Some(2024-02-29)
/// read_date(b"2023-02-29").err() // Some(ReadError { cause: DayAbove(28), byte: 8 })
/// ```
///
/// The form is the year, `-`, the month, `-` and the day. The month and the day have two digits each. A year from 0 to 9999 has four digits and no
/// sign. Any other year has a sign and at least four digits, as in `-0001-12-31` and `+12345-01-01`.
#[inline(always)]
pub fn read_date(text: &[u8]) -> Result<NaiveDate, ReadError>
    ensures read { IfOk result (λ n. IsDateText text.now n) }
    // Whatever date has this text is the answer: no text is refused, and none has two meanings.
    ensures every { (n : ℤ) → IsDateText text.now n → result ≡ Ok n }
    ensures error { IfErr result (λ e. IsDateError text.now e) }
{
    match date_of(text) {
        Some(date) => Ok(date),
        None => Err(date_error(text)),
    }
}

// The date whose calendar name the text is.
#[inline(always)]
pub(crate) fn date_of(text: &[u8]) -> Option<NaiveDate>
    ensures read { IfSome result (λ n. IsDateText text.now n) }
    ensures every { (n : ℤ) → IsDateText text.now n → result ≡ Some n }
{
    let (front, end) = text.split_last_chunk::<6>()?;
    let (month, day) = month_and_day(*end)?;
    let year = read_year(front)?;
    NaiveDate::from_ymd_opt(year, month, day)
}

// The month and the day that stand behind a year, each behind a `-`.
#[inline]
fn month_and_day(text: [u8; 6]) -> Option<(u32, u32)>
    ensures small { IfSome result (λ read. (read.0 < 100) × (read.1 < 100)) }
    ensures some { IfSome result (λ read. byte "-" ∷ two_digits read.0 ++ byte "-" ∷ two_digits read.1 ≡ text) }
    ensures every { (m d : ℕ) → m < 100 → d < 100 → byte "-" ∷ two_digits m ++ byte "-" ∷ two_digits d ≡ text
        → result ≡ Some (m, d) }
{
    if let [b'-', month_tens, month_ones, b'-', day_tens, day_ones] = text {
        let month = read_two(month_tens, month_ones)?;
        let day = read_two(day_tens, day_ones)?;
        Some((month, day))
    } else {
        None
    }
}

// Why a text is of no date.
#[cold]
pub(crate) fn date_error(text: &[u8]) -> ReadError
    ensures { IsDateError text.now result }
{
    let Some((year, month, day)) = date_parts(text) else {
        return error_at(ReadCause::NotThisForm, fitting_year(text, b"-dd-dd"));
    };
    match calendar_year(year) {
        Some(number) => calendar_error(number, month, day, year.len()),
        None => error_at(ReadCause::YearOutOfRange, 0),
    }
}

// The parts of a text that has the form of a date: the text of its year, its month and its day.
fn date_parts(text: &[u8]) -> Option<(&[u8], u32, u32)>
    ensures shorter { IfSome result (λ parts. length parts.0.now + 6 ≤ length text.now) }
    ensures some { IfSome result (λ parts. HasDateParts text.now parts.0.now parts.1 parts.2) }
    ensures none { IfNone result ((year : List ℕ) (month day : ℕ) → ¬ HasDateParts text.now year month day) }
{
    let (front, end) = text.split_last_chunk::<6>()?;
    let (month, day) = month_and_day(*end)?;
    if !is_of_year_form(front) {
        return None;
    }
    Some((front, month, day))
}

// The year of the calendar that the text writes.
pub(crate) fn calendar_year(text: &[u8]) -> Option<i32>
    ensures some { IfSome result (λ y. IsYear y × (year_text y ≡ text.now)) }
    ensures none { IfNone result ((y : ℤ) → IsYear y → year_text y ≢ text.now) }
{
    let year = read_year(text)?;
    if year < MIN_YEAR || year > MAX_YEAR {
        return None;
    }
    Some(year)
}

// What is wrong with the numbers of a date that is none, behind the year.
#[tactic(auto, unfolding(crate::specs::DateErrors::calendar_error))]
fn calendar_error(year: i32, month: u32, day: u32, end: usize) -> ReadError
    requires year { IsYear year }
    requires end { end + 6 < 2 ^ 64 }
    ensures { result ≡ calendar_error year month day end }
{
    if month == 0 {
        return error_at(ReadCause::MonthZero, end + 1);
    }
    if month > 12 {
        return error_at(ReadCause::MonthAbove12, end + 1);
    }
    if day == 0 {
        return error_at(ReadCause::DayZero, end + 4);
    }
    error_at(ReadCause::DayAbove(month_length(year, month)), end + 4)
}

// The days of a month.
fn month_length(year: i32, month: u32) -> u32
    requires year { IsYear year }
    requires month { IsInRange 1 12 month }
    ensures { result ≡ month_length year month }
{
    match NaiveDate::from_ymd_opt(year, month, 1) {
        Some(first) => u32::from(first.num_days_in_month()),
        None => 0,
    }
}

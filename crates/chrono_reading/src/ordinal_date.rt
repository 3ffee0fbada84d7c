//! Reads ordinal dates.
ghost use Rattle.std.specs.Prelude.{◌≡◌, ◌<◌, ◌≤◌, ◌+◌, length, ◌^◌, ◌∷◌, ℕ, ℤ, List, Some, Ok, IfSome, IfNone, IfOk, IfErr};
ghost use Rattle.std.specs.Str.{byte};
ghost use Rattle.chrono_datetime.specs.Years.{IsYear, year_length};
ghost use Rattle.chrono_text.specs.Text.{all_digits};
ghost use Rattle.chrono_reading.specs.DateErrors.{HasOrdinalParts, IsOrdinalDateError, ordinal_error};
ghost use Rattle.chrono_reading.specs.DateTexts.{IsOrdinalDateText};

use crate::date::calendar_year;
use crate::error::{ReadCause, ReadError, error_at};
use crate::fitting::{fitting_year, is_of_year_form};
use chrono_calendar::YearFlags;
use chrono_datetime::NaiveDate;
use chrono_text::{read_three, read_year};

/// Reads an ordinal date (ISO 8601), such as `2024-060` for 29 February. Returns the date.
///
/// If `text` is no ordinal date, returns what is wrong and at which byte, as a [`ReadError`].
///
/// ```
/// read_ordinal_date(b"2024-060").ok() // Some(2024-02-29)
/// read_ordinal_date(b"2023-366").err() // Some(ReadError { cause: OrdinalAbove(365), byte: 5 })
/// ```
///
/// The form is the year as [`read_date`](crate::read_date) reads it, `-`, and the day of the year in three digits.
#[inline]
pub fn read_ordinal_date(text: &[u8]) -> Result<NaiveDate, ReadError>
    ensures read { IfOk result (λ n. IsOrdinalDateText text.now n) }
    // Whatever date has this text is the answer: no text is refused, and none has two meanings.
    ensures every { (n : ℤ) → IsOrdinalDateText text.now n → result ≡ Ok n }
    ensures error { IfErr result (λ e. IsOrdinalDateError text.now e) }
{
    match date_of(text) {
        Some(date) => Ok(date),
        None => Err(ordinal_date_error(text)),
    }
}

// The date whose ordinal name the text is.
#[inline]
fn date_of(text: &[u8]) -> Option<NaiveDate>
    ensures read { IfSome result (λ n. IsOrdinalDateText text.now n) }
    ensures every { (n : ℤ) → IsOrdinalDateText text.now n → result ≡ Some n }
{
    let (front, end) = text.split_last_chunk::<4>()?;
    let ordinal = read_ordinal(*end)?;
    let year = read_year(front)?;
    NaiveDate::from_yo_opt(year, ordinal)
}

// The ordinal that stands behind a year and a `-`.
#[inline]
fn read_ordinal(text: [u8; 4]) -> Option<u32>
    ensures small { IfSome result (λ ordinal. ordinal < 1_000) }
    ensures some { IfSome result (λ ordinal. byte "-" ∷ all_digits 3 ordinal ≡ text) }
    ensures every { (ordinal : ℕ) → ordinal < 1_000 → byte "-" ∷ all_digits 3 ordinal ≡ text
        → result ≡ Some ordinal }
{
    if let [b'-', hundreds, tens, ones] = text {
        read_three(hundreds, tens, ones)
    } else {
        None
    }
}

// Why a text is of no ordinal date.
#[cold]
fn ordinal_date_error(text: &[u8]) -> ReadError
    ensures { IsOrdinalDateError text.now result }
{
    let Some((year, ordinal)) = ordinal_parts(text) else {
        return error_at(ReadCause::NotThisForm, fitting_year(text, b"-ddd"));
    };
    match calendar_year(year) {
        Some(number) => ordinal_error(number, ordinal, year.len()),
        None => error_at(ReadCause::YearOutOfRange, 0),
    }
}

// The parts of a text that has the form of an ordinal date: the text of its year, and its day of the year.
fn ordinal_parts(text: &[u8]) -> Option<(&[u8], u32)>
    ensures shorter { IfSome result (λ parts. length parts.0.now + 4 ≤ length text.now) }
    ensures some { IfSome result (λ parts. HasOrdinalParts text.now parts.0.now parts.1) }
    ensures none { IfNone result ((year : List ℕ) (ordinal : ℕ) → ¬ HasOrdinalParts text.now year ordinal) }
{
    let (front, end) = text.split_last_chunk::<4>()?;
    let ordinal = read_ordinal(*end)?;
    if !is_of_year_form(front) {
        return None;
    }
    Some((front, ordinal))
}

// What is wrong with the day of a year that has no such day.
#[tactic(auto, unfolding(crate::specs::DateErrors::ordinal_error))]
fn ordinal_error(year: i32, ordinal: u32, end: usize) -> ReadError
    requires { end + 4 < 2 ^ 64 }
    ensures { result ≡ ordinal_error year ordinal end }
{
    if ordinal == 0 {
        return error_at(ReadCause::OrdinalZero, end + 1);
    }
    error_at(ReadCause::OrdinalAbove(year_length(year)), end + 1)
}

// The days of a year.
fn year_length(year: i32) -> u32
    ensures { result ≡ year_length year }
{
    YearFlags::from_year(year).ndays()
}

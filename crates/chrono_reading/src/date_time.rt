//! Reads date-times.
ghost use Rattle.std.specs.Prelude.{◌≡◌, ◌<◌, ℕ, Some, Ok, IfSome, IfNone, IfOk, IfErr, IsTrue, ◌↔◌, length, slice_index};
ghost use Rattle.chrono_datetime.specs.Moment.{Moment};
ghost use Rattle.chrono_reading.specs.DateTimeErrors.{IsDateTimeError};
ghost use Rattle.chrono_reading.specs.DateTimeTexts.{IsDateTimeText, IsSeparator};

use crate::date::{date_error, date_of};
use crate::error::{ReadCause, ReadError, error_at};
use crate::time::{time_error, time_of};
use chrono_datetime::NaiveDateTime;

/// Reads a date and a time of day (ISO 8601), such as `2024-02-29T23:56:04.5`. Returns the date-time.
///
/// If `text` is no date-time, returns what is wrong and at which byte, as a [`ReadError`].
///
/// ```
/// read_date_time(b"2024-02-29 23:56:04").ok() // Some(2024-02-29T23:56:04)
/// read_date_time(b"2024-02-29T24:00:00").err() // Some(ReadError { cause: HourAbove23, byte: 11 })
/// ```
///
/// The form is a date as [`read_date`](crate::read_date) reads it, a `T` or a space, and a time of day as [`read_time`](crate::read_time) reads it.
#[inline]
pub fn read_date_time(text: &[u8]) -> Result<NaiveDateTime, ReadError>
    ensures read { IfOk result (λ m. IsDateTimeText text.now m) }
    // Whatever date-time has this text is the answer: no text is refused, and none has two meanings.
    ensures every { (m : Moment) → IsDateTimeText text.now m → result ≡ Ok m }
    ensures error { IfErr result (λ e. IsDateTimeError text.now e) }
{
    match date_time_of(text) {
        Some(date_time) => Ok(date_time),
        None => Err(date_time_error(text)),
    }
}

// The date-time that the text writes.
#[inline]
fn date_time_of(text: &[u8]) -> Option<NaiveDateTime>
    ensures read { IfSome result (λ m. IsDateTimeText text.now m) }
    ensures every { (m : Moment) → IsDateTimeText text.now m → result ≡ Some m }
{
    let at = separator_at(text)?;
    let date = date_of(&text[..at])?;
    let time = time_of(&text[at + 1..])?;
    Some(NaiveDateTime::new(date, time))
}

// Where the first `T` or space stands.
#[inline]
fn separator_at(text: &[u8]) -> Option<usize>
    ensures found { IfSome result (λ at.
        (at < length text.now) × IsSeparator (slice_index text.now at)) }
    ensures first { IfSome result (λ at.
        (k : ℕ) → k < at → ¬ IsSeparator (slice_index text.now k)) }
    ensures none { IfNone result
        ((k : ℕ) → k < length text.now → ¬ IsSeparator (slice_index text.now k)) }
{
    for (at, byte) in text.iter().enumerate() {
        if *byte == b'T' || *byte == b' ' {
            return Some(at);
        }
    }
    None
}

// Why a text is of no date-time.
#[cold]
fn date_time_error(text: &[u8]) -> ReadError
    ensures { IsDateTimeError text.now result }
{
    let Some(at) = separator_at(text) else {
        return match date_of(text) {
            Some(_) => error_at(ReadCause::NotThisForm, text.len()),
            None => date_error(text),
        };
    };
    let front = &text[..at];
    match date_of(front) {
        Some(_) => {
            let error = time_error(&text[at + 1..]);
            error_at(error.cause, at + 1 + error.byte)
        }
        None => date_error(front),
    }
}

//! Why a text is none of ISO 8601, and at which byte.
ghost use Rattle.std.specs.Prelude.{◌≡◌, ◌≤◌};
ghost use Rattle.chrono_reading.specs.DateErrors.{error_at};
ghost use Rattle.chrono_reading.specs.declared.error.ReadCause.TheVariants.{DateOutOfRange};
ghost use Rattle.chrono_stamps.specs.IsoErrors.{IsErrorWithoutTime, further_error, is_of_form, iso_offset_error, size_error};

use crate::iso8601_reader::iso_date;
use crate::pieces::behind_bytes;
use crate::rfc3339_error::{later_by, not_of_form, two_written};
use chrono_reading::{ReadCause, ReadError, fitting_len};

// Why a text with no `T` is none: it is no date, or the time is missing.
#[cold]
pub(crate) fn error_without_time(text: &[u8]) -> ReadError
    ensures { IsErrorWithoutTime text.now result }
{
    match iso_date(text) {
        Ok(_) => not_of_form(text.len()),
        Err(error) => error,
    }
}

// Of two errors by two forms: that of a form that the text has, or else the one at which the text goes on further.
#[tactic(auto, unfolding(crate::specs::IsoErrors::further_error))]
pub(crate) fn further_error(one: ReadError, other: ReadError) -> ReadError
    ensures { result ≡ further_error one other }
{
    if is_of_form(one.cause) {
        one
    } else if is_of_form(other.cause) {
        other
    } else if one.byte < other.byte {
        other
    } else {
        one
    }
}

// Whether an error is that of a text of the form.
fn is_of_form(cause: ReadCause) -> bool
    ensures { result ≡ is_of_form cause }
{
    match cause {
        ReadCause::NotThisForm => false,
        _ => true,
    }
}

// UTC has no date then.
pub(crate) fn out_of_range() -> ReadError
    ensures { result ≡ error_at DateOutOfRange 0 }
{
    ReadError {
        cause: ReadCause::DateOutOfRange,
        byte: 0,
    }
}

// Why a text is of no offset.
#[cold]
#[tactic(auto, unfolding(crate::specs::IsoErrors::iso_offset_error))]
pub(crate) fn iso_offset_error(text: &[u8]) -> ReadError
    ensures { result ≡ iso_offset_error text.now }
{
    let [first, size @ ..] = text else {
        return not_of_form(0);
    };
    if *first == b'Z' {
        not_of_form(1)
    } else if *first == b'+' {
        later_by(size_error(size), 1)
    } else if *first == b'-' {
        later_by(size_error(size), 1)
    } else {
        not_of_form(0)
    }
}

// Why a text is of no hours, minutes and seconds.
#[tactic(auto, unfolding(crate::specs::IsoErrors::size_error))]
fn size_error(text: &[u8]) -> ReadError
    ensures value { result ≡ size_error text.now }
    ensures within { result.byte ≤ 8 }
{
    let fit = fitting_len(b"dd:dd:dd", text);
    if fit != text.len() {
        return not_of_form(fit);
    }
    if !(fit == 2 || (fit == 5 || fit == 8)) {
        return not_of_form(fit);
    }
    if two_written(text) > 23 {
        return ReadError {
            cause: ReadCause::HourAbove23,
            byte: 0,
        };
    }
    if two_written(behind_bytes(text, 3)) > 59 {
        return ReadError {
            cause: ReadCause::MinuteAbove59,
            byte: 3,
        };
    }
    not_of_form(6)
}

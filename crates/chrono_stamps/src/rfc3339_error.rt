//! Why a text is none of RFC 3339, and at which byte.
ghost use Rattle.std.specs.Prelude.{◌≡◌, ◌≤◌, ◌<◌, ◌+◌, ◌^◌, length, take, drop};
ghost use Rattle.std.specs.List.{prefix_len};
ghost use Rattle.chrono_reading.specs.DateErrors.{error_at};
ghost use Rattle.chrono_reading.specs.declared.error.ReadCause.TheVariants.{NotThisForm};
ghost use Rattle.chrono_stamps.specs.StampErrors.{IsClockError, IsErrorBehindDate, IsRfc3339Error, two_written, is_of_clock, is_signed, later_by, minutes_error, offset_error};

use crate::rfc3339_reader::is_separator;
use chrono_reading::{ReadCause, ReadError, fitting_len, read_date, read_time};
use chrono_text::read_digits;

// How many bytes a date has whose year has four digits.
const DATE_LEN: usize = 10;

// Why a text is none of RFC 3339: what is wrong first, from left to right.
#[cold]
pub(crate) fn stamp_error(text: &[u8]) -> ReadError
    ensures { IsRfc3339Error text.now result }
{
    if is_signed(text) {
        return not_of_form(0);
    }
    let (front, rest) = split_date(text);
    match read_date(front) {
        Err(error) => error,
        Ok(_) => error_behind_date(rest),
    }
}

// What is wrong behind a date of ten bytes.
fn error_behind_date(rest: &[u8]) -> ReadError
    requires { length rest.now + 10 < 2 ^ 64 }
    ensures { IsErrorBehindDate rest.now result }
{
    let Some((separator, clock)) = rest.split_first() else {
        return not_of_form(DATE_LEN);
    };
    if !is_separator(*separator) {
        return not_of_form(DATE_LEN);
    }
    later_by(clock_error(clock), DATE_LEN + 1)
}

// The first ten bytes, and what stands behind them.
fn split_date(text: &[u8]) -> (&[u8], &[u8])
    ensures front { result.0.now ≡ take 10 text.now }
    ensures rest { result.1.now ≡ drop 10 text.now }
    ensures room { length result.1.now + 10 < 2 ^ 64 }
{
    text.split_at(DATE_LEN.min(text.len()))
}

// Whether a text begins with a sign, as years of other than four digits do.
fn is_signed(text: &[u8]) -> bool
    ensures { result ≡ is_signed text.now }
{
    match text {
        [first, ..] => *first == b'+' || *first == b'-',
        [] => false,
    }
}

// Why no time of day and offset stand behind the date, at which byte from there.
fn clock_error(text: &[u8]) -> ReadError
    ensures error { IsClockError text.now result }
    ensures within { result.byte ≤ length text.now }
{
    let len = clock_len(text);
    match read_time(&text[..len]) {
        Err(error) => error,
        Ok(_) => later_by(offset_error(&text[len..]), len),
    }
}

// How many bytes in front are digits, colons and points, as those of a time of day are.
fn clock_len(text: &[u8]) -> usize
    ensures value { result ≡ prefix_len is_of_clock text.now }
    ensures within { result ≤ length text.now }
{
    let mut len = 0;
    while len < text.len() {
        if !is_of_clock(text[len]) {
            return len;
        }
        len += 1;
    }
    len
}

// Whether a byte is a digit, a colon or a point.
fn is_of_clock(byte: u8) -> bool
    ensures { result ≡ is_of_clock byte }
{
    byte.is_ascii_digit() || (byte == b':' || byte == b'.')
}

// Why a text is of no offset.
#[tactic(auto, unfolding(crate::specs::StampErrors::offset_error))]
fn offset_error(text: &[u8]) -> ReadError
    ensures value { result ≡ offset_error text.now }
    ensures within { result.byte ≤ length text.now }
{
    let [first, minutes @ ..] = text else {
        return not_of_form(0);
    };
    if *first == b'Z' {
        not_of_form(1)
    } else if *first == b'z' {
        not_of_form(1)
    } else if *first == b'+' {
        later_by(minutes_error(minutes), 1)
    } else if *first == b'-' {
        later_by(minutes_error(minutes), 1)
    } else {
        not_of_form(0)
    }
}

// Why a text is of no hours and minutes.
#[tactic(auto, unfolding(crate::specs::StampErrors::minutes_error))]
fn minutes_error(text: &[u8]) -> ReadError
    ensures value { result ≡ minutes_error text.now }
    ensures within { result.byte ≤ length text.now }
{
    let fit = fitting_len(b"dd:dd", text);
    if text.len() != 5 {
        return not_of_form(fit);
    }
    if fit != 5 {
        return not_of_form(fit);
    }
    if two_written(text) > 23 {
        return ReadError {
            cause: ReadCause::HourAbove23,
            byte: 0,
        };
    }
    ReadError {
        cause: ReadCause::MinuteAbove59,
        byte: 3,
    }
}

// The number that the first two digits write, 0 where there are none.
pub(crate) fn two_written(text: &[u8]) -> u32
    ensures { result ≡ two_written text.now }
{
    match text {
        [tens, ones, ..] => read_digits(&[*tens, *ones], 2).unwrap_or(0),
        _ => 0,
    }
}

// The text is not as its grammar says from this byte on.
pub(crate) fn not_of_form(byte: usize) -> ReadError
    ensures { result ≡ error_at NotThisForm byte }
{
    ReadError {
        cause: ReadCause::NotThisForm,
        byte,
    }
}

// An error so many bytes later.
pub(crate) fn later_by(error: ReadError, bytes: usize) -> ReadError
    requires { error.byte + bytes < 2 ^ 64 }
    ensures { result ≡ later_by bytes error }
{
    ReadError {
        cause: error.cause,
        byte: error.byte + bytes,
    }
}

//! Reads date-times with their offset (ISO 8601).
ghost use Rattle.std.specs.Prelude.{◌≡◌, ◌≤◌, ℤ, Ok, Some, IfOk, IfErr, IfSome, IfNone, IsOkAnd, ◌≢◌, pos, length};
ghost use Rattle.std.specs.Str.{byte};
ghost use Rattle.std.specs.List.{prefix_len};
ghost use Rattle.chrono_datetime.specs.Moment.{Moment};
ghost use Rattle.chrono_datetime.specs.Time.{TimeOfDay};
ghost use Rattle.chrono_instant.specs.Offsets.{moment_ahead};
ghost use Rattle.chrono_stamps.specs.Iso8601.{IsExtendedText, IsIsoDate, IsIsoOffset, IsIsoTime, IsSignedOffset, clock_shown, is_of_time};
ghost use Rattle.chrono_stamps.specs.IsoErrors.{IsExtendedError, IsIsoDateError, IsIsoTimeError};
ghost use Rattle.chrono_stamps.specs.IsoForms.{IsIso8601Error, IsIso8601Text};

use crate::iso8601_error::{error_without_time, further_error, iso_offset_error, out_of_range};
use crate::iso8601_forms::{basic_byte, is_basic, with_separators};
use crate::rfc2822_error::error_in;
use crate::rfc2822_reader::stamp_at;
use crate::rfc3339_reader::utc;
use chrono_datetime::{NaiveDate, NaiveDateTime, NaiveTime};
use chrono_instant::read_offset;
use chrono_reading::{ReadError, read_date, read_ordinal_date, read_time, read_week_date};
use chrono_text::{Text, split_at_byte};
use chrono_zoned::{DateTime, FixedOffset};

// No time has so many bytes.
const CLOCK_LEN: usize = 19;

/// Reads a date, a time of day and an offset (ISO 8601), such as `2024-02-29T15:00+05:30`. Returns the instant, in a zone of that
/// offset.
///
/// If `text` is none, returns what is wrong and at which byte, as a [`ReadError`].
///
/// ```
/// parse_from_iso8601(b"2024-060T15:00:00,25+05:30").ok()?.to_utc() // 2024-02-29T09:30:00.250+00:00
/// parse_from_iso8601(b"2024W094T0930Z").ok() // Some(2024-02-29T09:30:00+00:00)
/// parse_from_iso8601(b"2024-02-30T12:00Z").err() // Some(ReadError { cause: DayAbove(29), byte: 8 })
/// ```
///
/// - The date is a calendar date, an ordinal date or a week date, as `chrono_reading` reads each.
/// - A `T` stands before the time. The second may be left out. A comma may stand in place of the point.
/// - The fraction has one to nine digits. The second 60 is the leap second that follows 59. Any minute may have it.
/// - The offset is `Z`, `+hh`, `+hh:mm` or `+hh:mm:ss`, also with `-`. Its seconds are not 0. `-00` and `-00:00` are UTC.
/// - The basic form is the same with no `-` in the date and no `:`. Its year has four digits and no sign.
/// - Seconds of an offset and `-00:00` go beyond ISO 8601. Hours alone (`T15`), `24:00` and parts of minutes are not read.
pub fn parse_from_iso8601(text: &[u8]) -> Result<DateTime<FixedOffset>, ReadError>
    ensures read { IfOk result (λ it. IsIso8601Text text.now (moment_ahead it.utc it.zone) it.zone) }
    // Whatever local time and offset have this text are the answer: no text is refused, and none has two meanings.
    ensures every { (m : Moment) (x : ℤ) → IsIso8601Text text.now m x
        → IsOkAnd result (λ it. (moment_ahead it.utc it.zone ≡ m) × (it.zone ≡ x)) }
    ensures error { IfErr result (λ e. IsIso8601Error text.now e) }
{
    if !is_basic(text) {
        return extended_stamp(text);
    }
    let extended = with_separators(text);
    match extended_stamp(extended.as_bytes()) {
        Ok(stamp) => Ok(stamp),
        Err(error) => Err(ReadError {
            cause: error.cause,
            byte: basic_byte(text, error.byte),
        }),
    }
}

// The instant and the offset that a text of the extended form writes.
fn extended_stamp(text: &[u8]) -> Result<DateTime<FixedOffset>, ReadError>
    ensures read { IfOk result (λ it. IsExtendedText text.now (moment_ahead it.utc it.zone) it.zone) }
    ensures every { (m : Moment) (x : ℤ) → IsExtendedText text.now m x
        → IsOkAnd result (λ it. (moment_ahead it.utc it.zone ≡ m) × (it.zone ≡ x)) }
    ensures error { IfErr result (λ e. IsExtendedError text.now e) }
{
    let Some((front, behind)) = split_at_byte(text, b'T') else {
        return Err(error_without_time(text));
    };
    let date = match iso_date(front) {
        Ok(date) => date,
        Err(error) => return Err(error),
    };
    let (clock, end) = behind.split_at(time_len(behind));
    let time = match iso_time(clock) {
        Ok(time) => time,
        Err(error) => return Err(error_in(text, behind, error)),
    };
    let Some(offset) = iso_offset(end) else {
        return Err(error_in(text, end, iso_offset_error(end)));
    };
    match stamp_at(NaiveDateTime::new(date, time), offset) {
        Some(stamp) => Ok(stamp),
        None => Err(out_of_range()),
    }
}

// The date that a text writes by its month, by its place in the year, or by its week.
pub(crate) fn iso_date(text: &[u8]) -> Result<NaiveDate, ReadError>
    ensures read { IfOk result (λ n. IsIsoDate text.now n) }
    ensures every { (n : ℤ) → IsIsoDate text.now n → result ≡ Ok n }
    ensures error { IfErr result (λ e. IsIsoDateError text.now e) }
{
    let calendar = match read_date(text) {
        Ok(date) => return Ok(date),
        Err(error) => error,
    };
    let ordinal = match read_ordinal_date(text) {
        Ok(date) => return Ok(date),
        Err(error) => error,
    };
    let week = match read_week_date(text) {
        Ok(date) => return Ok(date),
        Err(error) => error,
    };
    Err(further_error(calendar, further_error(ordinal, week)))
}

// How many bytes in front are none that begins an offset.
pub(crate) fn time_len(text: &[u8]) -> usize
    ensures value { result ≡ prefix_len is_of_time text.now }
    ensures within { result ≤ length text.now }
{
    let mut len = 0;
    while len < text.len() {
        if !is_of_time(text[len]) {
            return len;
        }
        len += 1;
    }
    len
}

// Whether a byte begins no offset.
fn is_of_time(it: u8) -> bool
    ensures { result ≡ is_of_time it }
{
    !(it == b'Z' || (it == b'+' || it == b'-'))
}

// The time that a text writes.
fn iso_time(text: &[u8]) -> Result<NaiveTime, ReadError>
    ensures read { IfOk result (λ t. IsIsoTime text.now t) }
    ensures every { (t : TimeOfDay) → IsIsoTime text.now t → result ≡ Ok t }
    ensures error { IfErr result (λ e. IsIsoTimeError text.now e) }
{
    let clock = clock_shown(text);
    read_time(clock.as_bytes())
}

// The clock that a text of a time shows: with its second, and a point in front of its fraction.
#[tactic(auto, unfolding(crate::specs::Iso8601::clock_shown))]
fn clock_shown(text: &[u8]) -> Text<CLOCK_LEN>
    ensures { result ≡ clock_shown text.now }
{
    let mut clock = Text::new();
    if text.len() == 5 {
        clock.push_text(text);
        clock.push_text(b":00");
        return clock;
    }
    if text.len() <= 8 {
        clock.push_text(text);
        return clock;
    }
    clock.push_text(&text[..8]);
    clock.push(if text[8] == b',' { b'.' } else { text[8] });
    clock.push_text(&text[9..text.len().min(CLOCK_LEN)]);
    clock
}

// The offset that a text writes.
fn iso_offset(text: &[u8]) -> Option<FixedOffset>
    ensures read { IfSome result (λ x. IsIsoOffset text.now x) }
    ensures every { (x : ℤ) → IsIsoOffset text.now x → result ≡ Some x }
{
    if text.len() == 1 {
        return zulu(text[0]);
    }
    if text.len() == 3 {
        return signed_offset(&[text[0], text[1], text[2], b':', b'0', b'0']);
    }
    signed_offset(text)
}

// UTC for a `Z`.
fn zulu(first: u8) -> Option<FixedOffset>
    ensures some { IfSome result (λ x. (first ≡ byte "Z") × (x ≡ pos 0)) }
    ensures none { IfNone result (first ≢ byte "Z") }
{
    if first == b'Z' {
        return Some(utc());
    }
    None
}

// The offset that a sign and a size write.
fn signed_offset(text: &[u8]) -> Option<FixedOffset>
    ensures read { IfSome result (λ x. IsSignedOffset text.now x) }
    ensures every { (x : ℤ) → IsSignedOffset text.now x → result ≡ Some x }
{
    if let [b'-', b'0', b'0', b':', b'0', b'0'] = text {
        return Some(utc());
    }
    read_offset(text)
}

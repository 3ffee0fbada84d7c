//! Reads date-times with their offset (RFC 3339).
ghost use Rattle.std.specs.Prelude.{◌≡◌, ◌-◌, ◌≤◌, ◌++◌, ◌↔◌, ℕ, ℤ, List, Some, Ok, IfSome, IfOk, IfErr, IsOkAnd, IsSomeAnd, IsTrue, ◌-ℤ◌, pos, length, drop};
ghost use Rattle.chrono_datetime.specs.Moment.{Moment};
ghost use Rattle.chrono_instant.specs.Instants.{IsEpochSecond, epoch_second};
ghost use Rattle.chrono_instant.specs.Offsets.{moment_ahead};
ghost use Rattle.chrono_stamps.specs.StampErrors.{IsRfc3339Error};
ghost use Rattle.chrono_stamps.specs.Rfc3339.{IsOffsetText, IsRfc3339Text, IsStampSeparator, IsSixBytes};

use crate::rfc3339_error::stamp_error;
use chrono_datetime::NaiveDateTime;
use chrono_instant::read_offset;
use chrono_reading::{ReadError, read_date, read_time};
use chrono_zoned::{DateTime, FixedOffset, InZone};

/// Reads a date, a time of day and an offset (RFC 3339, 5.6), such as `2024-02-29T15:00:00.25+05:30`. Returns the instant, in a
/// zone of that offset.
///
/// If `text` is none, returns what is wrong and at which byte, as a [`ReadError`].
///
/// ```
/// parse_from_rfc3339(b"1996-12-19T16:39:57-08:00").ok()?.to_utc() // 1996-12-20T00:39:57+00:00
/// parse_from_rfc3339(b"2024-02-30T12:00:00Z").err() // Some(ReadError { cause: DayAbove(29), byte: 8 })
/// ```
///
/// A `T`, a `t` or a space stands before the time. `Z`, `z`, `+00:00` and `-00:00` are UTC. The fraction has one to nine digits: a
/// tenth is an error, which chrono would drop.
///
/// The second 60 is the leap second that follows 59. Any minute may have it.
pub fn parse_from_rfc3339(text: &[u8]) -> Result<DateTime<FixedOffset>, ReadError>
    ensures read { IfOk result (λ it. IsRfc3339Text text.now (moment_ahead it.utc it.zone) it.zone) }
    // Whatever local time and offset have this text are the answer: no text is refused, and none has two meanings.
    ensures every { (m : Moment) (x : ℤ) → IsRfc3339Text text.now m x
        → IsOkAnd result (λ it. (moment_ahead it.utc it.zone ≡ m) × (it.zone ≡ x)) }
    ensures error { IfErr result (λ e. IsRfc3339Error text.now e) }
{
    match stamp_of(text) {
        Some(stamp) => Ok(stamp),
        None => Err(stamp_error(text)),
    }
}

// The instant and the offset that the text writes.
#[inline]
fn stamp_of(text: &[u8]) -> Option<DateTime<FixedOffset>>
    ensures read { IfSome result (λ it. IsRfc3339Text text.now (moment_ahead it.utc it.zone) it.zone) }
    ensures every { (m : Moment) (x : ℤ) → IsRfc3339Text text.now m x
        → IsSomeAnd result (λ it. (moment_ahead it.utc it.zone ≡ m) × (it.zone ≡ x)) }
{
    let (local, offset) = parts_of(text)?;
    Some(at_offset(local, offset))
}

// The local date-time and the offset that the text writes.
#[inline]
fn parts_of(text: &[u8]) -> Option<(NaiveDateTime, FixedOffset)>
    ensures read { IfSome result (λ it. IsRfc3339Text text.now it.0 it.1) }
    ensures every { (m : Moment) (x : ℤ) → IsRfc3339Text text.now m x → result ≡ Some (m, x) }
    // UTC has a date at that instant.
    ensures instant { IfSome result (λ it. IsEpochSecond (epoch_second it.0 -ℤ it.1)) }
{
    let (front, rest) = text.split_first_chunk::<10>()?;
    let (separator, rest) = rest.split_first()?;
    if !is_separator(*separator) {
        return None;
    }
    let (offset, len) = offset_at_end(rest)?;
    let date = read_date(front).ok()?;
    let time = read_time(&rest[..rest.len() - len]).ok()?;
    Some((NaiveDateTime::new(date, time), offset))
}

// Whether a byte may stand between date and time.
#[inline]
pub(crate) fn is_separator(byte: u8) -> bool
    ensures { IsTrue result ↔ IsStampSeparator byte }
{
    byte == b'T' || byte == b't' || byte == b' '
}

// The offset at the end of a text, and how many bytes it takes.
#[inline]
fn offset_at_end(text: &[u8]) -> Option<(FixedOffset, usize)>
    ensures within { IfSome result (λ it. it.1 ≤ length text.now) }
    ensures read { IfSome result (λ it. IsOffsetText (drop (length text.now - it.1) text.now) it.0) }
    ensures every { (front offset : List ℕ) (x : ℤ) → IsOffsetText offset x → front ++ offset ≡ text.now
        → result ≡ Some (x, length offset) }
{
    let (last, _) = text.split_last()?;
    if *last == b'Z' || *last == b'z' {
        return Some((utc(), 1));
    }
    let (_, end) = text.split_last_chunk::<6>()?;
    Some((six_bytes(*end)?, 6))
}

// The offset that six bytes write.
#[inline]
pub(crate) fn six_bytes(text: [u8; 6]) -> Option<FixedOffset>
    ensures read { IfSome result (λ x. IsSixBytes text x) }
    ensures every { (x : ℤ) → IsSixBytes text x → result ≡ Some x }
{
    if let [b'-', b'0', b'0', b':', b'0', b'0'] = text {
        return Some(utc());
    }
    read_offset(&text)
}

// The offset of UTC.
#[inline]
pub(crate) fn utc() -> FixedOffset
    ensures { result ≡ pos 0 }
{
    FixedOffset::east_opt(0).unwrap()
}

// The instant at which a clock of this offset shows the date-time.
#[inline]
fn at_offset(local: NaiveDateTime, offset: FixedOffset) -> DateTime<FixedOffset>
    requires { IsEpochSecond (epoch_second local -ℤ offset) }
    ensures local { moment_ahead result.utc result.zone ≡ local }
    ensures zone { result.zone ≡ offset }
{
    offset.from_local_datetime(&local).single().unwrap()
}

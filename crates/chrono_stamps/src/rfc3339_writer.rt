//! Writes date-times with their offset (RFC 3339).
ghost use Rattle.std.specs.Prelude.{◌≡◌, ◌↔◌, ◌+◌, ◌≤◌, ◌++◌, length, false, IsSome, IfSome, IsTrue};
ghost use Rattle.std.specs.Str.{IsAscii};
ghost use Rattle.chrono_zoned.specs.Zoned.{local_at, offset_at};
ghost use Rattle.chrono_stamps.specs.WrittenStamps.{HasStampText, offset_in, rfc3339_text, time_in};
ghost use Rattle.chrono_stamps.specs.declared.seconds_format.SecondsFormat.TheVariants.{AutoSi};

use crate::seconds_format::{SecondsFormat, places_of, put_fraction};
use chrono_datetime::{Datelike, NaiveDateTime, NaiveTime, Timelike};
use chrono_text::{NANOS_PER_SEC, Text};
use chrono_zoned::{DateTime, FixedOffset, TimeZone};

/// Returns the text of `stamp` (RFC 3339, 5.6), such as `2024-02-29T15:00:00.250+05:30`.
///
/// The fraction has 0, 3, 6 or 9 digits, as few as hold it. Read again, the text gives the same instant and offset.
///
/// Returns `None` if RFC 3339 has no such text: if the year is not from 0 to 9999, the offset has seconds, or a leap second
/// is not at the end of a minute.
///
/// ```
/// use chrono_zoned::{FixedOffset, InZone, Utc};
/// let stamp = FixedOffset::east_opt(19_800)?.with_ymd_and_hms(2024, 2, 29, 15, 0, 0).single()?;
/// to_rfc3339(&stamp)?.as_str() // "2024-02-29T15:00:00+05:30"
/// to_rfc3339(&Utc.with_ymd_and_hms(12345, 1, 1, 0, 0, 0).single()?).is_none() // true
/// ```
pub fn to_rfc3339<Z: TimeZone>(stamp: &DateTime<Z>) -> Option<Text<64>>
    ensures text { IfSome result (λ text. text ≡ rfc3339_text AutoSi false
        (local_at (Z.ahead stamp.now.zone) stamp.now.utc) (offset_at (Z.ahead stamp.now.zone) stamp.now.utc)) }
    ensures ascii { IfSome result (λ text. IsAscii text) }
    ensures exists { IsSome result ↔ HasStampText
        (local_at (Z.ahead stamp.now.zone) stamp.now.utc) (offset_at (Z.ahead stamp.now.zone) stamp.now.utc) }
{
    to_rfc3339_opts(stamp, SecondsFormat::AutoSi, false)
}

/// Returns the text of `stamp` as [`to_rfc3339`] does, with the digits of the fraction that `form` names.
///
/// If `use_z` is true, the offset of UTC is `Z` and not `+00:00`.
///
/// ```
/// use chrono_zoned::{InZone, Utc};
/// let stamp = Utc.timestamp_opt(1_709_199_000, 250_999_999)?;
/// to_rfc3339_opts(&stamp, SecondsFormat::Millis, true)?.as_str() // "2024-02-29T09:30:00.250Z"
/// to_rfc3339_opts(&stamp, SecondsFormat::Secs, false)?.as_str() // "2024-02-29T09:30:00+00:00"
/// ```
pub fn to_rfc3339_opts<Z: TimeZone>(
    stamp: &DateTime<Z>,
    form: SecondsFormat,
    use_z: bool,
) -> Option<Text<64>>
    ensures text { IfSome result (λ text. text ≡ rfc3339_text form use_z
        (local_at (Z.ahead stamp.now.zone) stamp.now.utc) (offset_at (Z.ahead stamp.now.zone) stamp.now.utc)) }
    ensures ascii { IfSome result (λ text. IsAscii text) }
    ensures exists { IsSome result ↔ HasStampText
        (local_at (Z.ahead stamp.now.zone) stamp.now.utc) (offset_at (Z.ahead stamp.now.zone) stamp.now.utc) }
{
    rfc3339_of(stamp.naive_local(), stamp.offset(), form, use_z)
}

// The text of a local date-time and its offset, if it has one.
#[inline]
fn rfc3339_of(
    local: NaiveDateTime,
    offset: FixedOffset,
    form: SecondsFormat,
    use_z: bool,
) -> Option<Text<64>>
    ensures text { IfSome result (λ text. text ≡ rfc3339_text form use_z local offset) }
    ensures ascii { IfSome result (λ text. IsAscii text) }
    ensures exists { IsSome result ↔ HasStampText local offset }
{
    if !has_stamp_text(local, offset) {
        return None;
    }
    let mut text = Text::new();
    local.date().put_into(&mut text);
    text.push(b'T');
    put_time(&mut text, local.time(), form);
    put_offset(&mut text, offset, use_z);
    Some(text)
}

// Whether RFC 3339 and RFC 2822 have texts of them.
#[inline]
pub(crate) fn has_stamp_text(local: NaiveDateTime, offset: FixedOffset) -> bool
    ensures { IsTrue result ↔ HasStampText local offset }
{
    let year = local.year();
    if year < 0 || year > 9_999 {
        return false;
    }
    if offset.local_minus_utc().unsigned_abs() % 60 != 0 {
        return false;
    }
    local.nanosecond() < NANOS_PER_SEC || local.second() == 59
}

// Puts a time of day, with the digits of its fraction that the form names.
#[inline]
fn put_time<const N: usize>(text: &mut Text<N>, time: NaiveTime, form: SecondsFormat)
    requires room { length text.old + 28 ≤ N }
    ensures text { text.new ≡ text.old ++ time_in form time }
    ensures ascii { IsAscii (time_in form time) }
    ensures fits { length text.new ≤ length text.old + 28 }
{
    let fraction = time.nanosecond();
    let nanos = fraction % NANOS_PER_SEC;
    text.push_clock(time.hour(), time.minute(), time.second(), fraction - nanos);
    put_fraction(text, nanos, places_of(form, nanos));
}

// Puts an offset; that of UTC as `Z` if that is wanted.
#[inline]
fn put_offset<const N: usize>(text: &mut Text<N>, offset: FixedOffset, use_z: bool)
    requires room { length text.old + 9 ≤ N }
    ensures text { text.new ≡ text.old ++ offset_in use_z offset }
    ensures ascii { IsAscii (offset_in use_z offset) }
{
    if use_z && offset.local_minus_utc() == 0 {
        text.push(b'Z');
        return;
    }
    offset.put_into(text);
}

//! Writes date-times with their offset (RFC 2822).
ghost use Rattle.std.specs.Prelude.{◌≡◌, ◌↔◌, ◌+◌, ◌≤◌, ◌<◌, ◌≤ℤ◌, ◌++◌, pos, length, IsSome, IfSome};
ghost use Rattle.std.specs.Int.{IsInRange};
ghost use Rattle.std.specs.Str.{IsAscii};
ghost use Rattle.chrono_datetime.specs.Days.{year_of};
ghost use Rattle.chrono_datetime.specs.TimeText.{time_text};
ghost use Rattle.chrono_zoned.specs.Zoned.{local_at, offset_at};
ghost use Rattle.chrono_stamps.specs.WrittenStamps.{HasStampText, mail_date_text, mail_zone_text, month_letters, rfc2822_text, whole_second};

use crate::rfc3339_writer::has_stamp_text;
use chrono_datetime::{Datelike, Month, NaiveDate, NaiveDateTime, NaiveTime, Timelike};
use chrono_text::{NANOS_PER_SEC, Text};
use chrono_zoned::{DateTime, FixedOffset, TimeZone};

/// Returns the text of `stamp` (RFC 2822, 3.3), such as `Thu, 29 Feb 2024 15:00:00 +0530`.
///
/// The fraction of a second is cut off. A leap second is the second 60.
///
/// Returns `None` if the year is not from 0 to 9999, the offset has seconds, or a leap second is not at the end of a minute.
///
/// ```
/// use chrono_zoned::{FixedOffset, InZone, Utc};
/// let stamp = FixedOffset::east_opt(19_800)?.with_ymd_and_hms(2024, 2, 29, 15, 0, 0).single()?;
/// to_rfc2822(&stamp)?.as_str() // "Thu, 29 Feb 2024 15:00:00 +0530"
/// to_rfc2822(&Utc.with_ymd_and_hms(2003, 7, 1, 10, 52, 37).single()?)?.as_str() // "Tue, 1 Jul 2003 10:52:37 +0000"
/// ```
pub fn to_rfc2822<Z: TimeZone>(stamp: &DateTime<Z>) -> Option<Text<64>>
    ensures text { IfSome result (λ text. text ≡ rfc2822_text
        (local_at (Z.ahead stamp.now.zone) stamp.now.utc) (offset_at (Z.ahead stamp.now.zone) stamp.now.utc)) }
    ensures ascii { IfSome result (λ text. IsAscii text) }
    ensures exists { IsSome result ↔ HasStampText
        (local_at (Z.ahead stamp.now.zone) stamp.now.utc) (offset_at (Z.ahead stamp.now.zone) stamp.now.utc) }
{
    rfc2822_of(stamp.naive_local(), stamp.offset())
}

// The text of a local date-time and its offset, if it has one.
#[inline]
fn rfc2822_of(local: NaiveDateTime, offset: FixedOffset) -> Option<Text<64>>
    ensures text { IfSome result (λ text. text ≡ rfc2822_text local offset) }
    ensures ascii { IfSome result (λ text. IsAscii text) }
    ensures exists { IsSome result ↔ HasStampText local offset }
{
    if !has_stamp_text(local, offset) {
        return None;
    }
    let mut text = Text::new();
    put_mail_date(&mut text, local.date());
    text.push(b' ');
    put_whole_second(&mut text, local.time());
    text.push(b' ');
    put_zone(&mut text, offset);
    Some(text)
}

// Puts the weekday, the day of the month, the month and the year.
#[inline]
fn put_mail_date<const N: usize>(text: &mut Text<N>, date: NaiveDate)
    requires year { (pos 0 ≤ℤ year_of date) × (year_of date ≤ℤ pos 9_999) }
    requires room { length text.old + 16 ≤ N }
    ensures text { text.new ≡ text.old ++ mail_date_text date }
    ensures ascii { IsAscii (mail_date_text date) }
    ensures fits { length text.new ≤ length text.old + 16 }
{
    let (year, month, day) = date.year_month_day();
    date.weekday().put_into(text);
    text.push_text(b", ");
    text.push_number(day);
    text.push(b' ');
    put_month(text, month);
    text.push(b' ');
    text.push_four(year.unsigned_abs());
}

// Puts the first three letters of a month's name.
#[inline]
fn put_month<const N: usize>(text: &mut Text<N>, month: u32)
    requires month { IsInRange 1 12 month }
    requires room { length text.old + 3 ≤ N }
    ensures text { text.new ≡ text.old ++ month_letters month }
    ensures fits { length text.new ≤ length text.old + 3 }
{
    let name = Month::from_u32(month).unwrap().name();
    text.push_text(&name.as_bytes()[..3]);
}

// Puts the hour, the minute and the second.
#[inline]
fn put_whole_second<const N: usize>(text: &mut Text<N>, time: NaiveTime)
    requires room { length text.old + 18 ≤ N }
    ensures text { text.new ≡ text.old ++ time_text (whole_second time) }
    ensures ascii { IsAscii (time_text (whole_second time)) }
    ensures fits { length text.new ≤ length text.old + 18 }
{
    let fraction = time.nanosecond();
    let whole = fraction - fraction % NANOS_PER_SEC;
    text.push_clock(time.hour(), time.minute(), time.second(), whole);
}

// Puts the sign, the hours and the minutes of an offset.
#[inline]
fn put_zone<const N: usize>(text: &mut Text<N>, offset: FixedOffset)
    requires room { length text.old + 5 ≤ N }
    ensures text { text.new ≡ text.old ++ mail_zone_text offset }
    ensures ascii { IsAscii (mail_zone_text offset) }
{
    let seconds = offset.local_minus_utc();
    let size = seconds.unsigned_abs();
    text.push(if seconds < 0 { b'-' } else { b'+' });
    text.push_two(size / 3_600);
    text.push_two(size / 60 % 60);
}

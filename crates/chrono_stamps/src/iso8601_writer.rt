//! Writes date-times with their offset (ISO 8601).
ghost use Rattle.std.specs.Prelude.{◌≡◌, ◌↔◌, IsSome, IfSome, IsTrue};
ghost use Rattle.std.specs.Str.{IsAscii};
ghost use Rattle.chrono_datetime.specs.Time.{FractionFits, second_of};
ghost use Rattle.chrono_zoned.specs.Zoned.{local_at, offset_at};
ghost use Rattle.chrono_zoned.specs.ZonedText.{zoned_debug_text};

use chrono_datetime::{NaiveDateTime, Timelike};
use chrono_text::{NANOS_PER_SEC, Text};
use chrono_zoned::{DateTime, FixedOffset, TimeZone};

/// Returns the text of `stamp` (ISO 8601, extended form), such as `2024-02-29T15:00:00.250+05:30`: what `{:?}` prints.
///
/// The date is a calendar date of any year. The offset has seconds if they are not 0. Read again, the text gives the same
/// instant and offset.
///
/// Returns `None` if a leap second is not at the end of a minute.
///
/// ```
/// use chrono_zoned::{FixedOffset, InZone};
/// let stamp = FixedOffset::east_opt(-1)?.with_ymd_and_hms(12345, 2, 28, 15, 0, 0).single()?;
/// to_iso8601(&stamp)?.as_str() // "+12345-02-28T15:00:00-00:00:01"
/// ```
pub fn to_iso8601<Z: TimeZone>(stamp: &DateTime<Z>) -> Option<Text<64>>
    ensures text { IfSome result (λ text. text ≡ zoned_debug_text
        (local_at (Z.ahead stamp.now.zone) stamp.now.utc) (offset_at (Z.ahead stamp.now.zone) stamp.now.utc)) }
    ensures ascii { IfSome result (λ text. IsAscii text) }
    ensures exists { IsSome result ↔ (let t = (local_at (Z.ahead stamp.now.zone) stamp.now.utc).time in
        FractionFits (second_of t) t.fraction) }
{
    iso8601_of(stamp.naive_local(), stamp.offset())
}

// The text of a local date-time and its offset, if it has one.
#[inline]
fn iso8601_of(local: NaiveDateTime, offset: FixedOffset) -> Option<Text<64>>
    ensures text { IfSome result (λ text. text ≡ zoned_debug_text local offset) }
    ensures ascii { IfSome result (λ text. IsAscii text) }
    ensures exists { IsSome result ↔ FractionFits (second_of local.time) local.time.fraction }
{
    if !is_clock(local) {
        return None;
    }
    let mut text = Text::new();
    local.put_into(&mut text, b'T');
    offset.put_into(&mut text);
    Some(text)
}

// Whether a clock shows the time: a leap second is at the end of a minute.
#[inline]
fn is_clock(local: NaiveDateTime) -> bool
    ensures { IsTrue result ↔ FractionFits (second_of local.time) local.time.fraction }
{
    local.nanosecond() < NANOS_PER_SEC || local.second() == 59
}

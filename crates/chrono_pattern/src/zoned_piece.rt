//! Writes an offset from UTC, and the seconds from 1970.
ghost use Rattle.std.specs.Prelude.{◌≡◌, ◌+◌, ◌/◌, ◌<◌, ◌≤◌, ◌^◌, ◌++◌, ◌-ℤ◌, length, unsigned_abs};
ghost use Rattle.std.specs.Fmt.{decimal};
ghost use Rattle.chrono_instant.specs.Instants.{epoch_second};
ghost use Rattle.chrono_instant.specs.Offsets.{IsOffset};
ghost use Rattle.chrono_pattern.specs.ZonedPieces.{colon_piece, hours_piece, minutes_piece, offset_piece, stamp_piece};

use crate::item::OffsetForm;
use chrono_datetime::NaiveDateTime;
use chrono_text::Text;
use chrono_zoned::{FixedOffset, Timestamp};

// Puts an offset.
#[tactic(auto, unfolding(crate::specs::ZonedPieces::offset_piece))]
pub(crate) fn put_offset<const N: usize>(text: &mut Text<N>, form: OffsetForm, offset: FixedOffset)
    requires room { length text.old + 9 ≤ N }
    ensures text { text.new ≡ text.old ++ offset_piece form offset }
    ensures fits { length text.new ≤ length text.old + 9 }
{
    let seconds = offset.local_minus_utc();
    match form {
        OffsetForm::Plain | OffsetForm::Loose => {
            put_hours(text, seconds);
            put_minutes(text, seconds);
        }
        OffsetForm::Colon => put_colon(text, seconds),
        OffsetForm::Seconds => {
            put_colon(text, seconds);
            text.push(b':');
            text.push_two(seconds.unsigned_abs() % 60);
        }
        OffsetForm::Hours => put_hours(text, seconds),
    }
}

// Puts the sign and the hours of an offset.
#[tactic(auto, unfolding(crate::specs::ZonedPieces::hours_piece))]
fn put_hours<const N: usize>(text: &mut Text<N>, seconds: i32)
    requires offset { IsOffset seconds }
    requires room { length text.old + 3 ≤ N }
    ensures text { text.new ≡ text.old ++ hours_piece seconds }
    ensures fits { length text.new ≤ length text.old + 3 }
{
    text.push(if seconds < 0 { b'-' } else { b'+' });
    text.push_two(seconds.unsigned_abs() / 3_600);
}

// Puts the minutes of an offset.
fn put_minutes<const N: usize>(text: &mut Text<N>, seconds: i32)
    requires room { length text.old + 2 ≤ N }
    ensures text { text.new ≡ text.old ++ minutes_piece seconds }
    ensures fits { length text.new ≤ length text.old + 2 }
{
    text.push_two(seconds.unsigned_abs() / 60 % 60);
}

// Puts the hours and the minutes of an offset, with a colon.
fn put_colon<const N: usize>(text: &mut Text<N>, seconds: i32)
    requires offset { IsOffset seconds }
    requires room { length text.old + 6 ≤ N }
    ensures text { text.new ≡ text.old ++ colon_piece seconds }
    ensures fits { length text.new ≤ length text.old + 6 }
{
    put_hours(text, seconds);
    text.push(b':');
    put_minutes(text, seconds);
}

// Puts the seconds from 1970 of a local date-time.
pub(crate) fn put_stamp<const N: usize>(
    text: &mut Text<N>,
    local: NaiveDateTime,
    offset: FixedOffset,
)
    requires room { length text.old + 20 ≤ N }
    ensures text { text.new ≡ text.old ++ stamp_piece (epoch_second local -ℤ offset) }
    ensures fits { length text.new ≤ length text.old + 20 }
{
    put_signed(text, utc_second(local, offset));
}

// The seconds from 1970 of a local date-time.
pub(crate) fn utc_second(local: NaiveDateTime, offset: FixedOffset) -> i64
    ensures value { result ≡ epoch_second local -ℤ offset }
    ensures small { unsigned_abs result < 10 ^ 13 }
{
    local.timestamp() - i64::from(offset.local_minus_utc())
}

// Puts a number with its sign.
#[tactic(auto, unfolding(crate::specs::ZonedPieces::stamp_piece))]
fn put_signed<const N: usize>(text: &mut Text<N>, n: i64)
    requires small { unsigned_abs n < 10 ^ 13 }
    requires room { length text.old + 20 ≤ N }
    ensures text { text.new ≡ text.old ++ stamp_piece n }
    ensures fits { length text.new ≤ length text.old + 20 }
{
    text.push_if(n < 0, b'-');
    put_natural(text, n.unsigned_abs());
}

// Puts a number of at most 13 digits.
fn put_natural<const N: usize>(text: &mut Text<N>, n: u64)
    requires small { n < 10 ^ 13 }
    requires room { length text.old + 19 ≤ N }
    ensures text { text.new ≡ text.old ++ decimal n }
    ensures fits { length text.new ≤ length text.old + 14 }
{
    if n < 1_000_000_000 {
        return text.push_u32(n as u32);
    }
    text.push_u32((n / 10_000) as u32);
    text.push_four((n % 10_000) as u32);
}

//! Writes the fraction of a second.
ghost use Rattle.std.specs.Prelude.{◌≡◌, ◌+◌, ◌≤◌, ◌<◌, ◌++◌, length};
ghost use Rattle.chrono_pattern.specs.Subseconds.{digit_count, nine_digits, subsecond_of};
ghost use Rattle.chrono_datetime.specs.Duration.{nanos_per_second};

use chrono_datetime::{NaiveTime, Timelike};
use chrono_text::{NANOS_PER_MICRO, NANOS_PER_MILLI, NANOS_PER_SEC, Text};

// Puts so many digits of the fraction of a second, or as few as hold it for 0. A point may be before them.
#[tactic(auto, unfolding(crate::specs::Subseconds::subsecond_of))]
#[inline(never)]
pub(crate) fn put_subsecond<const N: usize>(
    text: &mut Text<N>,
    point: bool,
    count: u8,
    time: NaiveTime,
)
    requires room { length text.old + 10 ≤ N }
    ensures text { text.new ≡ text.old ++ subsecond_of point count time }
    ensures fits { length text.new ≤ length text.old + 10 }
{
    let nanos = time.nanosecond() % NANOS_PER_SEC;
    let count = digit_count(count, nanos);
    text.push_if(point && count > 0, b'.');
    let mut digits = Text::<9>::new();
    put_nine_digits(&mut digits, nanos);
    text.push_text(&digits.as_bytes()[..count]);
}

// How many digits are written, at most nine.
fn digit_count(count: u8, nanos: u32) -> usize
    ensures value { result ≡ digit_count count nanos }
    ensures few { result ≤ 9 }
{
    if count > 0 {
        usize::from(count).min(9)
    } else if nanos == 0 {
        0
    } else if nanos % NANOS_PER_MILLI == 0 {
        3
    } else if nanos % NANOS_PER_MICRO == 0 {
        6
    } else {
        9
    }
}

// Puts all nine digits of a fraction.
fn put_nine_digits(text: &mut Text<9>, nanos: u32)
    requires nanos { nanos < nanos_per_second }
    requires room { length text.old + 9 ≤ 9 }
    ensures text { text.new ≡ text.old ++ nine_digits nanos }
    ensures length { length text.new ≡ length text.old + 9 }
{
    text.push_three(nanos / NANOS_PER_MILLI);
    text.push_three(nanos / NANOS_PER_MICRO % 1_000);
    text.push_three(nanos % NANOS_PER_MICRO);
}

//! Durations: their sums, multiples and parts, and their texts, written into the caller's bytes and read.
ghost use Rattle.std.specs.Prelude.{◌≡◌, ◌⊎◌, ◌≤◌, ◌+ℤ◌, ◌*ℤ◌, ℤ, pos, None, Some, length};
ghost use Rattle.std.specs.Option.{option_and_then, option_map};
ghost use Rattle.chrono_reading.specs.DurationTexts.{IsDurationText};
ghost use Rattle.chrono_text.specs.Text.{duration_text};
ghost use Rattle.numbers_c.specs.Answers.{count_or_none};
ghost use Rattle.numbers_c.specs.DateTimes.{duration_divided, duration_for_c, duration_from_c, duration_or_none, duration_within};
ghost use Rattle.numbers_c.specs.Texts.{length_of, overwritten, text_within};

use chrono_datetime::TimeDelta;
use chrono_reading::read_duration;
use chrono_text::Text;
use numbers_c::{CalendarDuration, NONE, duration_of, duration_or_none, write_over};

// How many bytes a duration is written into. Its text has at most 30.
const ROOM: usize = 33;

/// Returns the sum of two durations.
#[unsafe(no_mangle)]
pub extern "C" fn calendar_duration_add(
    duration: CalendarDuration,
    by: CalendarDuration,
) -> CalendarDuration
    ensures numbers { result ≡ duration_or_none
        (option_and_then (λ x. option_and_then (λ y. duration_within (x +ℤ y)) (duration_from_c by)) (duration_from_c duration)) }
    ensures named { duration_from_c result
        ≡ option_and_then (λ x. option_and_then (λ y. duration_within (x +ℤ y)) (duration_from_c by)) (duration_from_c duration) }
{
    duration_or_none(sum(duration, by))
}

/// Returns a duration `times` times.
#[unsafe(no_mangle)]
pub extern "C" fn calendar_duration_multiply(
    duration: CalendarDuration,
    times: i32,
) -> CalendarDuration
    ensures numbers { result ≡ duration_or_none
        (option_and_then (λ x. duration_within (x *ℤ times)) (duration_from_c duration)) }
    ensures named { duration_from_c result
        ≡ option_and_then (λ x. duration_within (x *ℤ times)) (duration_from_c duration) }
{
    duration_or_none(multiple(duration, times))
}

/// Returns a duration divided by `parts`. Its seconds, rounded down, and the nanoseconds past them are divided apart. Each quotient
/// is rounded towards zero.
#[unsafe(no_mangle)]
pub extern "C" fn calendar_duration_divide(
    duration: CalendarDuration,
    parts: i32,
) -> CalendarDuration
    ensures numbers { result ≡ duration_or_none
        (option_and_then (λ x. duration_divided x parts) (duration_from_c duration)) }
    ensures named { duration_from_c result
        ≡ option_and_then (λ x. duration_divided x parts) (duration_from_c duration) }
{
    duration_or_none(part(duration, parts))
}

/// Writes the duration as `-PT5400.5S`, in seconds alone, over the first bytes, if they are enough, and returns their number.
#[unsafe(no_mangle)]
pub extern "C" fn calendar_write_duration(duration: CalendarDuration, text: &mut [u8]) -> i32
    ensures length { result ≡ count_or_none
        (length_of (text_within (length text.old) (option_map duration_text (duration_from_c duration)))) }
    ensures enough { (x : ℤ) → duration_from_c duration ≡ Some x → 30 ≤ length text.old
        → result ≡ pos (length (duration_text x)) }
    ensures bytes { text.new
        ≡ overwritten (text_within (length text.old) (option_map duration_text (duration_from_c duration))) text.old }
{
    let Some(duration) = duration_of(duration) else {
        return NONE;
    };
    let mut written = Text::<ROOM>::new();
    duration.put_into(&mut written);
    write_over(text, written.as_bytes())
}

/// Returns the duration whose text the bytes are, as [`calendar_write_duration`] writes it. It takes a fraction of one to nine
/// digits.
#[unsafe(no_mangle)]
pub extern "C" fn calendar_read_duration(text: &[u8]) -> CalendarDuration
    ensures read { (result ≡ duration_or_none None) ⊎ ((x : ℤ) × (result ≡ duration_for_c x) × IsDurationText text.now x) }
    ensures every { (x : ℤ) → IsDurationText text.now x → result ≡ duration_for_c x }
    ensures named { (x : ℤ) → IsDurationText text.now x → duration_from_c result ≡ Some x }
{
    duration_or_none(read_duration(text).ok())
}

// The sum of two durations.
#[inline]
fn sum(duration: CalendarDuration, by: CalendarDuration) -> Option<TimeDelta>
    ensures { result
        ≡ option_and_then (λ x. option_and_then (λ y. duration_within (x +ℤ y)) (duration_from_c by)) (duration_from_c duration) }
{
    let duration = duration_of(duration)?;
    duration.checked_add(&duration_of(by)?)
}

// A duration so many times.
#[inline]
fn multiple(duration: CalendarDuration, times: i32) -> Option<TimeDelta>
    ensures { result ≡ option_and_then (λ x. duration_within (x *ℤ times)) (duration_from_c duration) }
{
    duration_of(duration)?.checked_mul(times)
}

// A duration in so many parts.
#[inline]
fn part(duration: CalendarDuration, parts: i32) -> Option<TimeDelta>
    ensures { result ≡ option_and_then (λ x. duration_divided x parts) (duration_from_c duration) }
{
    duration_of(duration)?.checked_div(parts)
}

//! Reads durations.
ghost use Rattle.std.specs.Prelude.{◌≡◌, ◌≢◌, ◌<◌, ◌≤◌, ◌+◌, ◌*◌, ◌^◌, ◌++◌, ◌<ℤ◌, ℕ, ℤ, pos, Some, IfSome, IfNone, IsSomeAnd, IsTrue, ◌↔◌, ◌∷◌, List, codes, length, slice_index, unsigned_abs, Ok, IfOk, IfErr};
ghost use Rattle.std.specs.Fmt.{decimal};
ghost use Rattle.std.specs.Option.{SomeIff};
ghost use Rattle.std.specs.Str.{byte};
ghost use Rattle.chrono_datetime.specs.Duration.{IsDuration, longest, nanos_per_second};
ghost use Rattle.chrono_reading.specs.DurationErrors.{duration_error};
ghost use Rattle.chrono_reading.specs.DurationTexts.{IsDurationText, IsSecondsText};
ghost use Rattle.chrono_text.specs.Fractions.{IsFractionText};

use crate::duration_error::duration_error;
use crate::error::ReadError;
use chrono_datetime::TimeDelta;
use chrono_text::{read_decimal, read_fraction};

/// Reads a duration in seconds (ISO 8601), such as `PT0.042S` or `-PT86400S`. Returns the duration.
///
/// If `text` is no such duration, returns what is wrong and at which byte, as a [`ReadError`].
///
/// ```
/// read_duration(b"-PT1.50S").ok() // Some(TimeDelta { secs: -2, nanos: 500000000 })
/// read_duration(b"PT0S").err() // Some(ReadError { cause: ZeroInSeconds, byte: 2 })
/// ```
///
/// Zero is `P0D`. Any other duration is `-` if it is negative, `PT`, the whole seconds, and `S`. A point and one to nine digits may stand before
/// the `S`. The whole seconds have no 0 in front of other digits. The duration lies from [`TimeDelta::MIN`] to [`TimeDelta::MAX`].
#[inline]
pub fn read_duration(text: &[u8]) -> Result<TimeDelta, ReadError>
    ensures read { IfOk result (λ x. IsDurationText text.now x) }
    // Whatever duration has this text is the answer: no text is refused, and none has two meanings.
    ensures every { (x : ℤ) → IsDurationText text.now x → result ≡ Ok x }
    ensures error { IfErr result (λ e. e ≡ duration_error text.now) }
{
    match duration_named(text) {
        Some(duration) => Ok(duration),
        None => Err(duration_error(text)),
    }
}

// The duration that the text writes.
#[inline]
fn duration_named(text: &[u8]) -> Option<TimeDelta>
    ensures read { IfSome result (λ x. IsDurationText text.now x) }
    ensures every { (x : ℤ) → IsDurationText text.now x → result ≡ Some x }
{
    if is_zero(text) {
        return Some(TimeDelta::zero());
    }
    match without_minus(text) {
        Some(size) => Some(-read_size(size)?),
        None => read_size(text),
    }
}

// Whether the text is that of zero.
#[inline]
fn is_zero(text: &[u8]) -> bool
    ensures { IsTrue result ↔ (text.now ≡ codes "P0D") }
{
    matches!(text, b"P0D")
}

// What stands behind a `-`, if the text begins with one.
#[inline]
fn without_minus(text: &[u8]) -> Option<&[u8]>
    ensures some { IfSome result (λ size. byte "-" ∷ size.now ≡ text.now) }
    ensures none { IfNone result ((size : List ℕ) → byte "-" ∷ size ≢ text.now) }
{
    if let [b'-', size @ ..] = text {
        Some(size)
    } else {
        None
    }
}

// The duration past zero that `PT`, seconds and `S` write.
#[inline]
fn read_size(text: &[u8]) -> Option<TimeDelta>
    ensures some { IfSome result (λ x.
        (pos 0 <ℤ x) × IsDuration x × IsSecondsText text.now (unsigned_abs x)) }
    ensures every { (size : ℕ) → 0 < size → size ≤ longest → IsSecondsText text.now size
        → result ≡ Some (pos size) }
{
    let (seconds, nanos) = read_seconds(text)?;
    duration_of(seconds, nanos)
}

// The duration past zero of so many seconds and nanoseconds.
#[inline]
fn duration_of(seconds: u64, nanos: u32) -> Option<TimeDelta>
    requires seconds { seconds < 10 ^ 18 }
    requires nanos { nanos < nanos_per_second }
    ensures { let size = seconds * nanos_per_second + nanos in
        SomeIff result ((0 < size) × (size ≤ longest)) (pos size) }
{
    if seconds == 0 && nanos == 0 {
        return None;
    }
    TimeDelta::new(seconds as i64, nanos)
}

// The seconds, and the nanoseconds past them, that stand between `PT` and `S`.
#[inline]
fn read_seconds(text: &[u8]) -> Option<(u64, u32)>
    ensures small { IfSome result (λ read. (read.0 < 10 ^ 18) × (read.1 < nanos_per_second)) }
    ensures some { IfSome result (λ read.
        IsSecondsText text.now (read.0 * nanos_per_second + read.1)) }
    ensures every { (seconds nanos : ℕ) (fraction : List ℕ)
        → seconds < 10 ^ 18 → IsFractionText fraction nanos
        → codes "PT" ++ decimal seconds ++ fraction ++ codes "S" ≡ text.now
        → result ≡ Some (seconds, nanos) }
{
    let number = between_pt_and_s(text)?;
    let (seconds, fraction) = number.split_at(point_at(number));
    Some((read_decimal(seconds)?, read_fraction(fraction)?))
}

// What stands between `PT` and `S`.
#[inline]
fn between_pt_and_s(text: &[u8]) -> Option<&[u8]>
    ensures some { IfSome result (λ number. codes "PT" ++ number.now ++ codes "S" ≡ text.now) }
    ensures every { (number : List ℕ) → codes "PT" ++ number ++ codes "S" ≡ text.now
        → IsSomeAnd result (λ found. found.now ≡ number) }
{
    let end = text.len();
    if end < 3 || text[0] != b'P' || text[1] != b'T' || text[end - 1] != b'S' {
        return None;
    }
    Some(&text[2..end - 1])
}

// Where the first point stands, or the end where there is none.
#[inline]
fn point_at(text: &[u8]) -> usize
    ensures within { result ≤ length text.now }
    ensures first { (k : ℕ) → k < result → slice_index text.now k ≢ byte "." }
    ensures point { result < length text.now → slice_index text.now result ≡ byte "." }
{
    for (at, byte) in text.iter().enumerate() {
        if *byte == b'.' {
            return at;
        }
    }
    text.len()
}

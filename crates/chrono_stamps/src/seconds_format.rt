//! `SecondsFormat`: how many digits of a second's fraction a text has.
ghost use Rattle.std.specs.Prelude.{◌≡◌, ◌<◌, ◌≤◌, ◌+◌, ◌++◌, length};
ghost use Rattle.std.specs.Str.{IsAscii};
ghost use Rattle.chrono_text.specs.Text.{nanos_per_second};
ghost use Rattle.chrono_stamps.specs.Fractions.{IsPlaces, fewest_places, fraction_in, places_of};

use chrono_text::{NANOS_PER_MICRO, NANOS_PER_MILLI, Text};

/// How many digits of a second's fraction a text has. What does not fit them is cut off.
///
/// ```
/// let stamp = parse_from_rfc3339(b"2024-02-29T09:30:00.25Z").ok()?;
/// to_rfc3339_opts(&stamp, SecondsFormat::Micros, true)?.as_str() // "2024-02-29T09:30:00.250000Z"
/// ```
#[derive(Clone, Copy, PartialEq, Eq, Debug, Hash)]
pub enum SecondsFormat {
    /// No fraction.
    Secs,
    /// Three digits.
    Millis,
    /// Six digits.
    Micros,
    /// Nine digits.
    Nanos,
    /// The fewest of none, three, six and nine digits that hold the fraction.
    AutoSi,
}

// How many digits a text has of so many nanoseconds past a second.
#[inline]
pub(crate) fn places_of(form: SecondsFormat, nanos: u32) -> u32
    ensures value { result ≡ places_of form nanos }
    ensures places { IsPlaces result }
{
    match form {
        SecondsFormat::Secs => 0,
        SecondsFormat::Millis => 3,
        SecondsFormat::Micros => 6,
        SecondsFormat::Nanos => 9,
        SecondsFormat::AutoSi => fewest_places(nanos),
    }
}

// The fewest of 0, 3, 6 and 9 digits that hold so many nanoseconds.
#[inline]
fn fewest_places(nanos: u32) -> u32
    ensures value { result ≡ fewest_places nanos }
    ensures places { IsPlaces result }
{
    if nanos == 0 {
        0
    } else if nanos % NANOS_PER_MILLI == 0 {
        3
    } else if nanos % NANOS_PER_MICRO == 0 {
        6
    } else {
        9
    }
}

// Puts a point and the first digits of a fraction, or nothing for no digit.
#[inline]
#[tactic(auto, using(chrono_text::proofs::Decimals::six_places))]
pub(crate) fn put_fraction<const N: usize>(text: &mut Text<N>, nanos: u32, places: u32)
    requires nanos { nanos < nanos_per_second }
    requires places { IsPlaces places }
    requires room { length text.old + 10 ≤ N }
    ensures text { text.new ≡ text.old ++ fraction_in places nanos }
    ensures ascii { IsAscii (fraction_in places nanos) }
    ensures fits { length text.new ≤ length text.old + 10 }
{
    if places == 0 {
        return;
    }
    text.push(b'.');
    text.push_three(nanos / NANOS_PER_MILLI);
    if places == 3 {
        return;
    }
    text.push_three(nanos / NANOS_PER_MICRO % 1_000);
    if places == 6 {
        return;
    }
    text.push_three(nanos % NANOS_PER_MICRO);
}

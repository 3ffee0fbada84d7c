//! Texts of durations, in the form of ISO 8601.
ghost use Rattle.std.specs.Prelude.{◌≡◌, ◌≢◌, ◌+◌, ◌*◌, ◌%◌, ◌^◌, ◌<◌, ◌≤◌, ◌++◌, ℕ, length};
ghost use Rattle.std.specs.Str.{IsAscii};
ghost use Rattle.chrono_text.specs.Text.{nanos_per_second, fraction_text, seconds_text};

use crate::text::Text;
use crate::time_text::{NANOS_PER_MICRO, NANOS_PER_MILLI};

impl<const N: usize> Text<N> {
    /// Appends a duration of `seconds` seconds and `nanos` nanoseconds (ISO 8601 duration). `-` comes before a negative
    /// one.
    ///
    /// Requires `seconds` to have at most 16 digits, `nanos` to be below 1,000,000,000, and 33 free bytes. The text has
    /// at most 30 bytes. Zero is `PT0S`.
    ///
    /// ```
    /// let mut text = Text::<33>::new();
    /// text.push_seconds(true, 0, 500_000_000);
    /// text.as_str() // "-PT0.5S"
    /// ```
    pub fn push_seconds(&mut self, negative: bool, seconds: u64, nanos: u32)
        requires seconds { seconds < 10 ^ 16 }
        requires nanos { nanos < nanos_per_second }
        requires room { length self.old + 33 ≤ N }
        ensures text { self.new ≡ self.old ++ seconds_text negative seconds nanos }
        ensures ascii { IsAscii (seconds_text negative seconds nanos) }
        ensures fits { length self.new ≤ length self.old + 30 }
    {
        self.push_if(negative, b'-');
        self.push_text(b"PT");
        self.push_natural(seconds);
        self.push_fraction(nanos);
        self.push(b'S');
    }

    // Puts a point and the digits of the fraction up to the last that is not 0, or nothing for 0.
    fn push_fraction(&mut self, nanos: u32)
        requires nanos { nanos < nanos_per_second }
        requires room { length self.old + 10 ≤ N }
        ensures text { self.new ≡ self.old ++ fraction_text nanos }
        ensures fits { length self.new ≤ length self.old + 10 }
    {
        if nanos == 0 {
            return;
        }
        self.push(b'.');
        self.push_three(nanos / NANOS_PER_MILLI);
        self.push_three(nanos / NANOS_PER_MICRO % 1_000);
        self.push_three(nanos % NANOS_PER_MICRO);
        self.shorten(zeros_behind(nanos));
    }
}

// How many zeros stand at the end of a number that is not 0.
fn zeros_behind(n: u32) -> usize
    requires { 0 < n }
    ensures zeros { (front : ℕ) × (n ≡ front * 10 ^ result) × (front % 10 ≢ 0) }
    ensures few { result < n }
{
    if n % 10 != 0 {
        return 0;
    }
    zeros_behind(n / 10) + 1
}

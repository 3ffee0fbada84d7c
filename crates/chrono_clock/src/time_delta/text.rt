//! The text of a duration.
ghost use Rattle.std.specs.Prelude.{◌≡◌, ◌+◌, ◌<◌, ◌≤◌, ◌/◌, ◌%◌, ◌^◌, ◌++◌, Some, length, unsigned_abs};
ghost use Rattle.std.specs.Int.{is_negative};
ghost use Rattle.std.specs.Str.{IsAscii};
ghost use Rattle.chrono_text.specs.Text.{nanos_per_second, duration_text};

use crate::TimeDelta;
use chrono_text::Text;
use std::fmt;

// The room that the text of a duration takes while it is put.
const ROOM: usize = 33;

impl TimeDelta {
    /// Appends the duration in seconds to `text` (ISO 8601 duration). Zero is `P0D`.
    ///
    /// Requires 33 free bytes in `text`. The text has at most 30 bytes.
    ///
    /// ```
    /// use chrono_text::Text;
    /// let mut text = Text::<33>::new();
    /// TimeDelta::milliseconds(-500).put_into(&mut text);
    /// text.as_str() // "-PT0.5S"
    /// ```
    #[inline]
    pub fn put_into<const N: usize>(&self, text: &mut Text<N>)
        requires { length text.old + 33 ≤ N }
        ensures text { text.new ≡ text.old ++ duration_text self.now }
        ensures ascii { IsAscii (duration_text self.now) }
        ensures fits { length text.new ≤ length text.old + 30 }
    {
        if self.is_zero() {
            return text.push_text(b"P0D");
        }
        let (negative, secs, nanos) = self.sign_and_size();
        text.push_seconds(negative, secs, nanos);
    }

    // Whether the duration is negative, the whole seconds of its size and the nanoseconds past them.
    #[inline]
    fn sign_and_size(&self) -> (bool, u64, u32)
        ensures negative { result.0 ≡ is_negative self.now }
        ensures secs { result.1 ≡ unsigned_abs self.now / nanos_per_second }
        ensures small { result.1 < 10 ^ 16 }
        ensures nanos { result.2 ≡ unsigned_abs self.now % nanos_per_second }
    {
        let size = self.abs();
        (self.secs < 0, size.secs as u64, size.nanos)
    }
}

impl fmt::Display for TimeDelta {
    ghost output = { λ x. Some (duration_text x) };

    ghost styled_output = { λ x _. Some (duration_text x) };

    /// Writes the duration in seconds (ISO 8601 duration). Width, fill and precision change nothing.
    fn fmt<W: fmt::Write>(&self, f: &mut fmt::Formatter<W>) -> fmt::Result {
        let mut text = Text::<ROOM>::new();
        self.put_into(&mut text);
        text.print(f)
    }
}

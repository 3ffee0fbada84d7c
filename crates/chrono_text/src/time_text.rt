//! Texts of times of day, in the form of ISO 8601.
ghost use Rattle.std.specs.Prelude.{◌≡◌, ◌+◌, ◌*◌, ◌<◌, ◌≤◌, ◌++◌, length};
ghost use Rattle.std.specs.Str.{IsAscii};
ghost use Rattle.chrono_text.specs.Text.{nanos_per_second, subsecond_text, clock_text};

use crate::text::Text;

/// The number of nanoseconds in a second.
pub const NANOS_PER_SEC: u32 = 1_000_000_000;

/// The number of nanoseconds in a millisecond.
pub const NANOS_PER_MILLI: u32 = 1_000_000;

/// The number of nanoseconds in a microsecond.
pub const NANOS_PER_MICRO: u32 = 1_000;

impl<const N: usize> Text<N> {
    /// Appends an hour, a minute, a second and `fraction` nanoseconds past it (ISO 8601 time of day).
    ///
    /// Requires `hour` to be below 24, `minute` and `second` below 60, and `fraction` below 2,000,000,000. Requires 18
    /// free bytes.
    ///
    /// ```
    /// let mut text = Text::<18>::new();
    /// text.push_clock(23, 59, 59, 1_500_000_000);
    /// text.as_str() // "23:59:60.500"
    /// ```
    ///
    /// A fraction of 1,000,000,000 or more lies in a leap second, which appears as one second more.
    pub fn push_clock(&mut self, hour: u32, minute: u32, second: u32, fraction: u32)
        requires hour { hour < 24 }
        requires minute { minute < 60 }
        requires second { second < 60 }
        requires fraction { fraction < 2 * nanos_per_second }
        requires room { length self.old + 18 ≤ N }
        ensures text { self.new ≡ self.old ++ clock_text hour minute second fraction }
        ensures ascii { IsAscii (clock_text hour minute second fraction) }
        ensures fits { length self.new ≤ length self.old + 18 }
    {
        self.push_two(hour);
        self.push(b':');
        self.push_two(minute);
        self.push(b':');
        if fraction >= NANOS_PER_SEC {
            self.push_two(second + 1);
            return self.push_subsecond(fraction - NANOS_PER_SEC);
        }
        self.push_two(second);
        self.push_subsecond(fraction);
    }

    // Puts a point and the fraction of a second in three, six or nine digits, or nothing for 0.
    #[tactic(auto, using(crate::proofs::Decimals::fractions))]
    fn push_subsecond(&mut self, nanos: u32)
        requires nanos { nanos < nanos_per_second }
        requires room { length self.old + 10 ≤ N }
        ensures text { self.new ≡ self.old ++ subsecond_text nanos }
        ensures fits { length self.new ≤ length self.old + 10 }
    {
        if nanos == 0 {
            return;
        }
        self.push(b'.');
        self.push_three(nanos / NANOS_PER_MILLI);
        if nanos % NANOS_PER_MILLI == 0 {
            return;
        }
        self.push_three(nanos / NANOS_PER_MICRO % 1_000);
        if nanos % NANOS_PER_MICRO == 0 {
            return;
        }
        self.push_three(nanos % NANOS_PER_MICRO);
    }
}

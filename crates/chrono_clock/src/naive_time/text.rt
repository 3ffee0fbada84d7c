//! The text of a time of day.
ghost use Rattle.std.specs.Prelude.{◌≡◌, ◌+◌, ◌≤◌, ◌++◌, Some, length};
ghost use Rattle.std.specs.Fmt.{WritesOnOk, WritesStyledOnOk};
ghost use Rattle.std.specs.Str.{IsAscii};
ghost use Rattle.chrono_clock.specs.TimeText.{time_text};

use crate::{NaiveTime, Timelike};
use chrono_text::Text;
use std::fmt;

// How many bytes a time with nine digits of its fraction has.
const LONGEST: usize = 18;

impl NaiveTime {
    /// Appends the time in the form of ISO 8601 to `text`. The fraction has 0, 3, 6 or 9 digits.
    ///
    /// Requires 18 free bytes in `text`. A leap second appears as one second more.
    ///
    /// ```
    /// use chrono_text::Text;
    /// let mut text = Text::<18>::new();
    /// NaiveTime::from_hms_milli_opt(23, 59, 59, 1_500)?.put_into(&mut text);
    /// text.as_str() // "23:59:60.500"
    /// ```
    #[inline]
    pub fn put_into<const N: usize>(&self, text: &mut Text<N>)
        requires { length text.old + 18 ≤ N }
        ensures text { text.new ≡ text.old ++ time_text self.now }
        ensures ascii { IsAscii (time_text self.now) }
        ensures fits { length text.new ≤ length text.old + 18 }
    {
        text.push_clock(self.hour(), self.minute(), self.second(), self.nanosecond());
    }
}

impl fmt::Display for NaiveTime {
    ghost output = { λ t. Some (time_text t) };

    ghost styled_output = { λ t _. Some (time_text t) };

    /// Writes the time in the form of ISO 8601. The fraction has 0, 3, 6 or 9 digits, as few as hold it.
    ///
    /// Width, fill, alignment, sign and precision change nothing.
    fn fmt<W: fmt::Write>(&self, f: &mut fmt::Formatter<W>) -> fmt::Result {
        let mut text = Text::<LONGEST>::new();
        self.put_into(&mut text);
        text.print(f)
    }
}

impl fmt::Debug for NaiveTime {
    ghost debug_output = { λ t. Some (time_text t) };

    /// Writes what `Display` writes.
    fn fmt<W: fmt::Write>(&self, f: &mut fmt::Formatter<W>) -> fmt::Result
        ensures writes { WritesOnOk W.write_str_gives f.old result (time_text self.now) f.new }
        ensures styled { WritesStyledOnOk W.write_str_gives f.old result (time_text self.now) f.new }
    {
        fmt::Display::fmt(self, f)
    }
}

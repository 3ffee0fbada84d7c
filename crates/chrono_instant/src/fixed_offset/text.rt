//! The text of an offset, written and read.
ghost use Rattle.std.specs.Prelude.{◌≡◌, ◌+◌, ◌≤◌, ◌<◌, ◌++◌, Some, length};
ghost use Rattle.std.specs.Fmt.{WritesOnOk, WritesStyledOnOk};
ghost use Rattle.std.specs.Str.{IsAscii};
ghost use Rattle.chrono_instant.specs.OffsetText.{offset_text};

use super::FixedOffset;
use chrono_text::Text;
use std::fmt;

// How many bytes an offset with seconds has.
const LONGEST: usize = 9;

impl FixedOffset {
    /// Appends the sign, the hours and the minutes to `text`, as `+05:30`. Seconds follow if they are not 0.
    ///
    /// Requires free space for 9 bytes in `text`.
    ///
    /// ```
    /// use chrono_text::Text;
    /// let mut text = Text::<9>::new();
    /// FixedOffset::east_opt(-1)?.put_into(&mut text);
    /// text.as_str() // "-00:00:01"
    /// ```
    pub fn put_into<const N: usize>(&self, text: &mut Text<N>)
        requires { length text.old + 9 ≤ N }
        ensures text { text.new ≡ text.old ++ offset_text self.now }
        ensures ascii { IsAscii (offset_text self.now) }
        ensures fits { length text.new ≤ length text.old + 9 }
    {
        let seconds = self.local_minus_utc();
        text.push(if seconds < 0 { b'-' } else { b'+' });
        let size = seconds.unsigned_abs();
        text.push_two(size / 3_600);
        text.push(b':');
        text.push_two(size / 60 % 60);
        if size % 60 != 0 {
            text.push(b':');
            text.push_two(size % 60);
        }
    }
}

impl fmt::Display for FixedOffset {
    ghost output = { λ x. Some (offset_text x) };

    ghost styled_output = { λ x _. Some (offset_text x) };

    /// Writes the sign, the hours and the minutes, as `+05:30`, and the seconds if they are not 0.
    ///
    /// A width, a fill, an alignment, a sign or a precision makes no difference.
    fn fmt<W: fmt::Write>(&self, f: &mut fmt::Formatter<W>) -> fmt::Result {
        let mut text = Text::<LONGEST>::new();
        self.put_into(&mut text);
        text.print(f)
    }
}

impl fmt::Debug for FixedOffset {
    ghost debug_output = { λ x. Some (offset_text x) };

    /// Writes what `{}` writes.
    fn fmt<W: fmt::Write>(&self, f: &mut fmt::Formatter<W>) -> fmt::Result
        ensures writes { WritesOnOk W.write_str_gives f.old result (offset_text self.now) f.new }
        ensures styled { WritesStyledOnOk W.write_str_gives f.old result (offset_text self.now) f.new }
    {
        fmt::Display::fmt(self, f)
    }
}

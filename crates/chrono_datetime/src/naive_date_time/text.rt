//! The texts of a date-time.
ghost use Rattle.std.specs.Prelude.{◌≡◌, ◌+◌, ◌<◌, ◌≤◌, ◌++◌, Some, length};
ghost use Rattle.std.specs.Fmt.{WritesOnOk, WritesStyledOnOk};
ghost use Rattle.std.specs.Str.{IsAscii, byte};
ghost use Rattle.chrono_datetime.specs.MomentText.{moment_text};

use crate::NaiveDateTime;
use chrono_text::Text;
use std::fmt;

// How many bytes the longest date, a character and the longest time have.
const LONGEST: usize = 32;

impl NaiveDateTime {
    /// Appends the date, `separator` and the time of day to `text`, as `2024-02-29T23:59:60.500`. With the
    /// separator `T` it is an ISO 8601 date and time of day. The bytes are ASCII if `separator` is.
    ///
    /// Requires free space for 32 bytes in `text`.
    ///
    /// ```
    /// use chrono_text::Text;
    /// let mut text = Text::<32>::new();
    /// NaiveDate::from_ymd_opt(2024, 2, 29)?.and_hms_opt(9, 30, 0)?.put_into(&mut text, b'T');
    /// text.as_str() // "2024-02-29T09:30:00"
    /// ```
    #[inline]
    pub fn put_into<const N: usize>(&self, text: &mut Text<N>, separator: u8)
        requires { length text.old + 32 ≤ N }
        ensures text { text.new ≡ text.old ++ moment_text separator self.now }
        ensures ascii { separator < 128 → IsAscii (moment_text separator self.now) }
        ensures fits { length text.new ≤ length text.old + 32 }
    {
        self.date().put_into(text);
        text.push(separator);
        self.time().put_into(text);
    }
}

impl fmt::Display for NaiveDateTime {
    ghost output = { λ m. Some (moment_text (byte " ") m) };

    ghost styled_output = { λ m _. Some (moment_text (byte " ") m) };

    /// Writes the date, a space and the time of day, as `2024-02-29 23:59:60.500`.
    ///
    /// A width, a fill, an alignment, a sign or a precision makes no difference.
    fn fmt<W: fmt::Write>(&self, f: &mut fmt::Formatter<W>) -> fmt::Result {
        let mut text = Text::<LONGEST>::new();
        self.put_into(&mut text, b' ');
        text.print(f)
    }
}

impl fmt::Debug for NaiveDateTime {
    ghost debug_output = { λ m. Some (moment_text (byte "T") m) };

    /// Writes the date, `T` and the time of day (ISO 8601 date and time of day), as `2024-02-29T23:59:60.500`.
    ///
    /// A width, a fill, an alignment, a sign or a precision makes no difference.
    fn fmt<W: fmt::Write>(&self, f: &mut fmt::Formatter<W>) -> fmt::Result
        ensures writes { WritesOnOk W.write_str_gives f.old result (moment_text (byte "T") self.now) f.new }
        ensures styled { WritesStyledOnOk W.write_str_gives f.old result (moment_text (byte "T") self.now) f.new }
    {
        let mut text = Text::<LONGEST>::new();
        self.put_into(&mut text, b'T');
        text.print(f)
    }
}

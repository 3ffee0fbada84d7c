//! The text of an ISO week.
ghost use Rattle.std.specs.Prelude.{◌≡◌, ◌+◌, ◌≤◌, ◌++◌, Some, length};
ghost use Rattle.std.specs.Fmt.{WritesOnOk, WritesStyledOnOk};
ghost use Rattle.std.specs.Str.{IsAscii};
ghost use Rattle.chrono_naive.specs.DateText.{iso_week_text};

use crate::iso_week::IsoWeek;
use chrono_text::Text;
use std::fmt;

// How many bytes a week whose year has a sign and six digits has.
const LONGEST: usize = 11;

impl IsoWeek {
    /// Appends the ISO year, `-W` and the week to `text`. This is an ISO 8601 week date without its day. A year
    /// before 0 or after 9999 has its sign.
    ///
    /// Requires free space for 11 bytes in `text`.
    ///
    /// ```
    /// use chrono_text::Text;
    /// let mut text = Text::<11>::new();
    /// NaiveDate::from_ymd_opt(2024, 12, 30)?.iso_week().put_into(&mut text);
    /// text.as_str() // "2025-W01"
    /// ```
    #[inline]
    pub fn put_into<const N: usize>(&self, text: &mut Text<N>)
        requires { length text.old + 11 ≤ N }
        ensures text { text.new ≡ text.old ++ iso_week_text self.now }
        ensures ascii { IsAscii (iso_week_text self.now) }
        ensures fits { length text.new ≤ length text.old + 11 }
    {
        text.push_week(self.year(), self.week());
    }
}

impl fmt::Debug for IsoWeek {
    ghost debug_output = { λ w. Some (iso_week_text w) };

    /// Writes the ISO year, `-W` and the week, as `2025-W01` (ISO 8601 week date without its day).
    ///
    /// A width, a fill, an alignment, a sign or a precision makes no difference.
    fn fmt<W: fmt::Write>(&self, f: &mut fmt::Formatter<W>) -> fmt::Result
        ensures writes { WritesOnOk W.write_str_gives f.old result (iso_week_text self.now) f.new }
        ensures styled { WritesStyledOnOk W.write_str_gives f.old result (iso_week_text self.now) f.new }
    {
        let mut text = Text::<LONGEST>::new();
        self.put_into(&mut text);
        text.print(f)
    }
}

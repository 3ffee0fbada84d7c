//! The text of a date.
ghost use Rattle.std.specs.Prelude.{◌≡◌, ◌+◌, ◌≤◌, ◌++◌, Some, length};
ghost use Rattle.std.specs.Fmt.{WritesOnOk, WritesStyledOnOk};
ghost use Rattle.std.specs.Str.{IsAscii};
ghost use Rattle.chrono_naive.specs.DateText.{date_text};

use crate::naive_date::NaiveDate;
use chrono_text::Text;
use std::fmt;

// How many bytes a date whose year has a sign and six digits has.
const LONGEST: usize = 13;

impl NaiveDate {
    /// Appends the calendar name to `text`, as `2024-02-29` (ISO 8601 calendar date). A year before 0 or after
    /// 9999 has its sign.
    ///
    /// Requires free space for 13 bytes in `text`.
    ///
    /// ```
    /// use chrono_text::Text;
    /// let mut text = Text::<13>::new();
    /// NaiveDate::from_ymd_opt(2024, 2, 29)?.put_into(&mut text);
    /// text.as_str() // "2024-02-29"
    /// ```
    #[inline]
    pub fn put_into<const N: usize>(&self, text: &mut Text<N>)
        requires { length text.old + 13 ≤ N }
        ensures text { text.new ≡ text.old ++ date_text self.now }
        ensures ascii { IsAscii (date_text self.now) }
        ensures fits { length text.new ≤ length text.old + 13 }
    {
        let (year, month, day) = self.year_month_day();
        text.push_calendar_date(year, month, day);
    }
}

impl fmt::Display for NaiveDate {
    ghost output = { λ n. Some (date_text n) };

    ghost styled_output = { λ n _. Some (date_text n) };

    /// Writes the calendar name (ISO 8601 calendar date), as `2024-02-29`. A year before 0 or after 9999 has its sign.
    ///
    /// A width, a fill, an alignment, a sign or a precision makes no difference.
    fn fmt<W: fmt::Write>(&self, f: &mut fmt::Formatter<W>) -> fmt::Result {
        let mut text = Text::<LONGEST>::new();
        self.put_into(&mut text);
        text.print(f)
    }
}

impl fmt::Debug for NaiveDate {
    ghost debug_output = { λ n. Some (date_text n) };

    /// Writes what `{}` writes.
    fn fmt<W: fmt::Write>(&self, f: &mut fmt::Formatter<W>) -> fmt::Result
        ensures writes { WritesOnOk W.write_str_gives f.old result (date_text self.now) f.new }
        ensures styled { WritesStyledOnOk W.write_str_gives f.old result (date_text self.now) f.new }
    {
        fmt::Display::fmt(self, f)
    }
}

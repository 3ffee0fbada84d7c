//! The texts of an instant in a zone.
ghost use Rattle.std.specs.Prelude.{Some};
ghost use Rattle.std.specs.Fmt.{WritesOnOk, WritesStyledOnOk};
ghost use Rattle.chrono_zoned.specs.Zoned.{local_at, offset_at};
ghost use Rattle.chrono_zoned.specs.ZonedText.{zoned_debug_text, zoned_text};

use crate::date_time::DateTime;
use crate::time_zone::TimeZone;
use chrono_text::Text;
use std::fmt;

// How many bytes the longest date-time, a space and the longest offset have.
const LONGEST: usize = 42;

impl<Z: TimeZone> fmt::Display for DateTime<Z> {
    ghost output = { λ d. Some (zoned_text (local_at (Z.ahead d.zone) d.utc)
        (offset_at (Z.ahead d.zone) d.utc)) };

    ghost styled_output = { λ d _. Some (zoned_text (local_at (Z.ahead d.zone) d.utc)
        (offset_at (Z.ahead d.zone) d.utc)) };

    /// Writes the local date, the local time of day and the offset, as `2024-02-29 09:30:00 +05:30`.
    ///
    /// A width, a fill, an alignment, a sign or a precision makes no difference.
    fn fmt<W: fmt::Write>(&self, f: &mut fmt::Formatter<W>) -> fmt::Result {
        let mut text = Text::<LONGEST>::new();
        self.naive_local().put_into(&mut text, b' ');
        text.push(b' ');
        self.offset().put_into(&mut text);
        text.print(f)
    }
}

impl<Z: TimeZone> fmt::Debug for DateTime<Z> {
    ghost debug_output = { λ d. Some (zoned_debug_text (local_at (Z.ahead d.zone) d.utc)
        (offset_at (Z.ahead d.zone) d.utc)) };

    /// Writes the local date-time and the offset (ISO 8601), as `2024-02-29T09:30:00+05:30`.
    ///
    /// A width, a fill, an alignment, a sign or a precision makes no difference.
    fn fmt<W: fmt::Write>(&self, f: &mut fmt::Formatter<W>) -> fmt::Result
        ensures writes { WritesOnOk W.write_str_gives f.old result
            (zoned_debug_text (local_at (Z.ahead self.now.zone) self.now.utc)
            (offset_at (Z.ahead self.now.zone) self.now.utc)) f.new }
        ensures styled { WritesStyledOnOk W.write_str_gives f.old result
            (zoned_debug_text (local_at (Z.ahead self.now.zone) self.now.utc)
            (offset_at (Z.ahead self.now.zone) self.now.utc)) f.new }
    {
        let mut text = Text::<LONGEST>::new();
        self.naive_local().put_into(&mut text, b'T');
        self.offset().put_into(&mut text);
        text.print(f)
    }
}

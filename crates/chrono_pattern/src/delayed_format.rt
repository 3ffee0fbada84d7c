//! `DelayedFormat`: the text of a date-time by a pattern, written where it is printed.
ghost use Rattle.std.specs.Prelude.{◌≡◌, ◌↔◌, ℕ, ℤ, List, false, Some, IfSome, IsOk, IsSome};
ghost use Rattle.std.specs.Fmt.{WritesOnOk, WritesStyledOnOk};
ghost use Rattle.std.specs.Str.{IsAscii, IsUtf8};
ghost use Rattle.chrono_datetime.specs.Moment.{IsMoment, moment};
ghost use Rattle.chrono_datetime.specs.Time.{TimeOfDay};
ghost use Rattle.chrono_instant.specs.Offsets.{IsOffset};
ghost use Rattle.chrono_zoned.specs.Zoned.{local_at, offset_at};
ghost use Rattle.chrono_pattern.specs.DelayedPieces.{IsAdded};
ghost use Rattle.chrono_pattern.specs.Needs.{needs_date, needs_offset, needs_time};
ghost use Rattle.chrono_pattern.specs.PatternItems.{IsAsciiItem};
ghost use Rattle.chrono_pattern.specs.Patterns.{pattern_text, text_at_offset, text_of_item};

use crate::front_item::{front_specifier, split_literal};
use crate::item::Item;
use crate::pattern::Pattern;
use crate::writer::put_any_item;
use chrono_datetime::{NaiveDate, NaiveDateTime, NaiveTime};
use chrono_text::Text;
use chrono_zoned::{DateTime, FixedOffset, TimeZone};
use std::fmt;
use std::marker::Model;

// How many bytes are written in one piece at most.
const PIECE: usize = 256;

// The room that any item has space in.
const ROOM: usize = 155;

/// The text of a date-time by a pattern, which is written where it is printed. chrono's `format` gives such a value.
///
/// A contract sees it as its text. It borrows the bytes of the pattern and allocates nothing. The text may have any length.
///
/// ```
/// use chrono_datetime::{AndTime, NaiveDate};
/// let moment = NaiveDate::from_ymd_opt(2024, 2, 29)?.and_hms_opt(9, 30, 0)?;
/// let text = Pattern::new(b"%A, %e %B %Y").ok()?.delayed(moment)?;
/// text.to_string(rt.alloc()).ok()? // "Thursday, 29 February 2024"
/// ```
#[derive(Drop)]
pub struct DelayedFormat<'a> {
    pattern: &'a str,
    moment: NaiveDateTime,
    offset: FixedOffset,
}

impl<'a> Model for DelayedFormat<'a> {
    ghost Value = { List ℕ };

    ghost view = { λ d. text_at_offset d.pattern.now d.moment d.offset };
}

impl<'a> Pattern<'a> {
    /// Returns the text of `moment` as a value that writes it where it is printed. Returns `None` if the pattern needs an offset, or if
    /// its bytes are not UTF-8. Those of a `str` are.
    ///
    /// The text is that of [`format`](Self::format), and may have any length.
    ///
    /// ```
    /// use chrono_datetime::{AndTime, NaiveDate};
    /// let moment = NaiveDate::from_ymd_opt(2024, 2, 29)?.and_hms_opt(9, 30, 0)?;
    /// Pattern::new(b"%F %R").ok()?.delayed(moment)?.to_string(rt.alloc()).ok()? // "2024-02-29 09:30"
    /// Pattern::new(b"%R%z").ok()?.delayed(moment).is_none() // true
    /// Pattern::new("%d. M\u{e4}rz".as_bytes()).ok()?.delayed(moment)?.to_string(rt.alloc()).ok()? // "29. März"
    /// Pattern::new(b"%d\xb7%m").ok()?.delayed(moment).is_none() // true
    /// ```
    pub fn delayed(&self, moment: NaiveDateTime) -> Option<DelayedFormat<'a>>
        ensures text { IfSome result (λ text. text ≡ pattern_text self.now moment) }
        ensures exists { IsSome result ↔ ((needs_offset self.now ≡ false) × IsUtf8 self.now) }
    {
        if self.needs_offset() {
            return None;
        }
        delayed_text(self.text, moment, FixedOffset::east_opt(0).unwrap())
    }

    /// Returns the text of `moment` as a value that writes it where it is printed: that of [`format_zoned`](Self::format_zoned). Returns
    /// `None` if the bytes of the pattern are not UTF-8.
    ///
    /// ```
    /// use chrono_zoned::{FixedOffset, InZone};
    /// let india = FixedOffset::east_opt(19_800)?;
    /// let moment = india.with_ymd_and_hms(2024, 2, 29, 9, 30, 0).single()?;
    /// Pattern::new(b"%F %R %z").ok()?.delayed_zoned(moment)?.to_string(rt.alloc()).ok()? // "2024-02-29 09:30 +0530"
    /// ```
    pub fn delayed_zoned<Z: TimeZone>(&self, moment: DateTime<Z>) -> Option<DelayedFormat<'a>>
        ensures text { IfSome result (λ text. text
            ≡ text_at_offset self.now (local_at (Z.ahead moment.zone) moment.utc) (offset_at (Z.ahead moment.zone) moment.utc)) }
        ensures exists { IsSome result ↔ IsUtf8 self.now }
    {
        delayed_text(self.text, moment.naive_local(), moment.offset())
    }

    /// Returns the text of `date` as a value that writes it where it is printed: that of [`format_date`](Self::format_date). Returns `None`
    /// if the pattern needs a time of day or an offset, or if its bytes are not UTF-8.
    ///
    /// ```
    /// use chrono_datetime::NaiveDate;
    /// let date = NaiveDate::from_ymd_opt(2024, 2, 29)?;
    /// Pattern::new(b"%d/%m/%Y").ok()?.delayed_date(date)?.to_string(rt.alloc()).ok()? // "29/02/2024"
    /// Pattern::new(b"%d/%m/%Y %H").ok()?.delayed_date(date).is_none() // true
    /// ```
    pub fn delayed_date(&self, date: NaiveDate) -> Option<DelayedFormat<'a>>
        // The text is the same at each time of the day.
        ensures text { IfSome result (λ text. (t : TimeOfDay) → text ≡ pattern_text self.now (moment date t)) }
        ensures exists { IsSome result ↔ ((needs_time self.now ≡ false) × (needs_offset self.now ≡ false) × IsUtf8 self.now) }
    {
        if self.needs_time() {
            return None;
        }
        self.delayed(NaiveDateTime::new(date, NaiveTime::MIN))
    }

    /// Returns the text of `time` as a value that writes it where it is printed: that of [`format_time`](Self::format_time). Returns `None`
    /// if the pattern needs a date or an offset, or if its bytes are not UTF-8.
    ///
    /// ```
    /// use chrono_datetime::NaiveTime;
    /// let time = NaiveTime::from_hms_opt(21, 30, 0)?;
    /// Pattern::new(b"%l:%M %P").ok()?.delayed_time(time)?.to_string(rt.alloc()).ok()? // " 9:30 pm"
    /// Pattern::new(b"%l:%M %P, %a").ok()?.delayed_time(time).is_none() // true
    /// ```
    pub fn delayed_time(&self, time: NaiveTime) -> Option<DelayedFormat<'a>>
        // The text is the same on each date.
        ensures text { IfSome result (λ text. (n : ℤ) → text ≡ pattern_text self.now (moment n time)) }
        ensures exists { IsSome result ↔ ((needs_date self.now ≡ false) × (needs_offset self.now ≡ false) × IsUtf8 self.now) }
    {
        if self.needs_date() {
            return None;
        }
        self.delayed(NaiveDateTime::new(NaiveDate::default(), time))
    }
}

impl fmt::Display for DelayedFormat<'_> {
    ghost output = { λ text. Some text };

    ghost styled_output = { λ text _. Some text };

    /// Writes the text.
    ///
    /// A width, a fill, an alignment, a sign or a precision makes no difference. chrono pads the text to a width.
    fn fmt<W: fmt::Write>(&self, f: &mut fmt::Formatter<W>) -> fmt::Result {
        write_items(self.pattern, self.moment, self.offset, f)
    }
}

// The text of a local date-time with its offset by a pattern, if its bytes are UTF-8.
fn delayed_text<'a>(
    pattern: Option<&'a str>,
    moment: NaiveDateTime,
    offset: FixedOffset,
) -> Option<DelayedFormat<'a>>
    ensures text { IfSome pattern.entry (λ p. IfSome result (λ text. text ≡ text_at_offset p.now moment offset)) }
    ensures exists { IsSome result ↔ IsSome pattern.entry }
{
    match pattern {
        None => None,
        Some(pattern) => Some(DelayedFormat {
            pattern,
            moment,
            offset,
        }),
    }
}

// Writes the text in pieces.
fn write_items<W: fmt::Write>(
    pattern: &str,
    moment: NaiveDateTime,
    offset: FixedOffset,
    f: &mut fmt::Formatter<W>,
) -> fmt::Result
    ensures writes { WritesOnOk W.write_str_gives f.old result (text_at_offset pattern.now moment offset) f.new }
    ensures styled { WritesStyledOnOk W.write_str_gives f.old result (text_at_offset pattern.now moment offset) f.new }
{
    let mut piece = Text::<PIECE>::new();
    let mut rest = pattern;
    loop {
        let (literal, specifiers) = split_literal(rest);
        add_literal(&mut piece, literal, f)?;
        match front_specifier(specifiers) {
            None => return piece.print(f),
            Some((item, behind)) => {
                add_item(&mut piece, item, moment, offset, f)?;
                rest = behind;
            }
        }
    }
}

// Adds bytes of a pattern to what waits to be written. Where they have no room, or are not ASCII, all of it is written.
fn add_literal<W: fmt::Write>(
    piece: &mut Text<PIECE>,
    literal: &str,
    f: &mut fmt::Formatter<W>,
) -> fmt::Result
    requires { IsAscii piece.old }
    ensures ascii { IsOk result → IsAscii piece.new }
    ensures added { IsAdded W.write_str_gives f.old result piece.old literal.now piece.new f.new }
{
    if literal.is_ascii() && literal.len() <= piece.room() {
        piece.push_text(literal.as_bytes());
        return Ok(());
    }
    piece.print(f)?;
    piece.clear();
    f.write_str(literal)
}

// Adds an item to what waits to be written. Where there may be no room for it, the rest is written.
fn add_item<W: fmt::Write>(
    piece: &mut Text<PIECE>,
    item: Item,
    moment: NaiveDateTime,
    offset: FixedOffset,
    f: &mut fmt::Formatter<W>,
) -> fmt::Result
    requires waits { IsAscii piece.old }
    requires item { IsAsciiItem item }
    ensures ascii { IsOk result → IsAscii piece.new }
    ensures added { IsAdded W.write_str_gives f.old result piece.old (text_of_item item moment offset) piece.new f.new }
{
    if piece.room() < ROOM {
        piece.print(f)?;
        piece.clear();
    }
    put_any_item(piece, item, moment, offset);
    state_ranges(moment, offset);
    Ok(())
}

// States that a date-time and an offset are in range, as all values of their types are. What the calls return is not used.
#[inline(always)]
fn state_ranges(moment: NaiveDateTime, offset: FixedOffset)
    ensures moment { IsMoment moment }
    ensures offset { IsOffset offset }
{
    moment.signed_duration_since(moment);
    offset.local_minus_utc();
}

//! `Pattern`: a pattern of texts, which writes date-times and reads parts of them.
ghost use Rattle.std.specs.Prelude.{◌≡◌, ◌↔◌, ◌≤◌, ℕ, ℤ, List, false, true, Some, None, Ok, Err, IfErr, IfOk, IfSome, IsOk, IsSome, length};
ghost use Rattle.std.specs.Str.{IsUtf8};
ghost use Rattle.chrono_datetime.specs.Fields.{unix_epoch_day};
ghost use Rattle.chrono_datetime.specs.Moment.{moment};
ghost use Rattle.chrono_datetime.specs.Time.{TimeOfDay, time_at};
ghost use Rattle.chrono_pattern.specs.DateParts.{names_date};
ghost use Rattle.chrono_pattern.specs.Fields.{pattern_fields};
ghost use Rattle.chrono_pattern.specs.NamedParts.{names_told, sure_parts};
ghost use Rattle.chrono_pattern.specs.Needs.{needs_date, needs_offset, needs_time};
ghost use Rattle.chrono_pattern.specs.Reads.{end_read, front_read, read_error, read_from, text_read};
ghost use Rattle.chrono_pattern.specs.Separable.{is_separable};
ghost use Rattle.chrono_pattern.specs.TimeParts.{names_time};
ghost use Rattle.chrono_pattern.specs.declared.item.State.TheVariants.{Outside};
ghost use Rattle.chrono_pattern.specs.ZonedParts.{names_moment};
ghost use Rattle.chrono_pattern.specs.declared.stop.Stop.{Stop};
ghost use Rattle.chrono_pattern.specs.PatternItems.{pattern_items};
ghost use Rattle.chrono_pattern.specs.TextPieces.{Reads, ReadsFront};
ghost use Rattle.chrono_pattern.specs.declared.parsed.Parsed.{Parsed};
ghost use Rattle.chrono_pattern.specs.Patterns.{IsPattern, begun_at, cut_error, pattern_error, pattern_text};

use crate::error::{PatternError, PatternFault, PatternReadError};
use crate::fields::{Fields, fields_given};
use crate::item::State;
use crate::named_parts::named_parts;
use crate::names::{Names, names_told};
use crate::needs::{Sort, has_item_of};
use crate::parsed::Parsed;
use crate::reader::{Reader, read_front, read_text, reader_of};
use crate::separable::is_separable;
use crate::step::pattern_step;
use crate::stop::Stop;
use crate::writer::text_of;
use chrono_datetime::{NaiveDate, NaiveDateTime, NaiveTime};
use chrono_text::Text;
use chrono_zoned::FixedOffset;
use std::marker::Model;
use std::str::from_utf8;

/// A pattern of texts: bytes that are written as they are, and specifiers, which begin with `%`.
///
/// A contract sees a pattern as its bytes. They are the caller's: a pattern allocates nothing.
///
/// ```
/// use chrono_datetime::{AndTime, NaiveDate};
/// let pattern = Pattern::new(b"%d.%m.%y").ok()?;
/// let moment = NaiveDate::from_ymd_opt(2024, 2, 29)?.and_hms_opt(9, 30, 0)?;
/// pattern.format::<16>(moment)?.as_bytes().len() // 8
/// ```
///
/// # What may surprise
///
/// - `%D` is month, day and year. `%y` from 00 to 69 is read as 2000 to 2069, and from 70 to 99 as 1970 to 1999.
/// - `%I` of the hour after midnight is 12, and so is that of the hour after noon. It reads no 00.
/// - `%w` of Sunday is 0, and it reads no 7. `%u` of Sunday is 7. `%U` and `%W` count from 0.
/// - `%f` is a whole number of nanoseconds: it reads `250` as 250 ns. `%.f` reads `.250` as 250 ms, and `%3f` reads `250` so too.
/// - A second that a pattern does not read is 0. A fraction that a pattern does not write is cut off.
/// - `%s` of a date-time with no zone is that of UTC. With `%s%.f` the fraction counts forward, also before 1970: half a second before 1970 is
///   `-1.500`. It is read in the same way.
/// - `%Z` writes an offset, and no name of a zone. It reads any bytes up to a blank, and gives nothing.
/// - [`parse_date_time`](Self::parse_date_time) reads an offset and drops it: the date-time is the local one. Beside `%s` it is that of UTC.
/// - A blank in a pattern reads any blanks, and also none. `%Y` reads at most four digits, or nine behind a sign.
///
/// ```
/// use chrono_datetime::{AndTime, NaiveDate};
/// Pattern::new(b"%f").ok()?.read_parts(b"250").ok()?.nanosecond // Some(250)
/// Pattern::new(b"%.f").ok()?.read_parts(b".250").ok()?.nanosecond // Some(250000000)
/// Pattern::new(b"%F %R %z").ok()?.parse_date_time(b"2024-02-29 09:30 +0530").ok() // Some(2024-02-29T09:30:00)
/// Pattern::new(b"%s %z").ok()?.parse_date_time(b"0 +0530").ok() // Some(1970-01-01T00:00:00)
/// let before = NaiveDate::from_ymd_opt(1969, 12, 31)?.and_hms_milli_opt(23, 59, 59, 500)?;
/// Pattern::new(b"%s%.f").ok()?.delayed(before)?.to_string(rt.alloc()).ok()? // "-1.500"
/// Pattern::new(b"%s%.f").ok()?.parse_date_time(b"-1.500").ok() // Some(1969-12-31T23:59:59.500)
/// Pattern::new(b"%d %b").ok()?.read_parts(b"29feb").is_ok() // true
/// ```
#[derive(Drop)]
pub struct Pattern<'a> {
    pub(crate) bytes: &'a [u8],
    // The same bytes, if they are UTF-8.
    pub(crate) text: Option<&'a str>,
    // Whether the pattern has a specifier of the offset from UTC.
    is_zoned: bool,
    // What its texts may name.
    pub(crate) names: Names,
}

impl<'a> Model for Pattern<'a> {
    ghost Value = { List ℕ };

    ghost view = { λ p. p.bytes.now };

    ghost invariant = { λ p. IsPattern p.bytes.now × (p.is_zoned ≡ needs_offset p.bytes.now)
        × (p.names ≡ names_told p.bytes.now) × IfSome p.text (λ t. t.now ≡ p.bytes.now) × (IsSome p.text ↔ IsUtf8 p.bytes.now) };
}

impl<'a> Pattern<'a> {
    /// Returns the pattern that `bytes` are.
    ///
    /// # Errors
    ///
    /// Returns [`PatternError`] if a specifier is unknown, or if the bytes end within one. It names the first one.
    ///
    /// ```
    /// Pattern::new(b"%H:%M").is_ok() // true
    /// Pattern::new(b"%H:%L").err() // Some(PatternError { byte: 3, cause: Unknown })
    /// Pattern::new(b"%H:%").err() // Some(PatternError { byte: 3, cause: Cut })
    /// ```
    ///
    /// The examples are of Sunday, 3 March 2024, at 09:05:07 and a quarter of a second, five hours and a half ahead of UTC.
    ///
    /// | Specifiers | Text | Example |
    /// |---|---|---|
    /// | `%Y` `%C` `%y` `%q` | year, with a sign if it is not from 0 to 9999; its century; the year of the century; the quarter | `2024` `20` `24` `1` |
    /// | `%m` `%d` `%e` `%j` | month; day of the month, `%e` with a space for a digit; day of the year | `03` `03` ` 3` `063` |
    /// | `%G` `%g` `%V` | ISO year, its year of the century, ISO week | `2024` `24` `09` |
    /// | `%U` `%W` | week of the year: how many Sundays have come by the day; how many Mondays | `09` `09` |
    /// | `%u` `%w` | weekday, from 1 for Monday; from 0 for Sunday | `7` `0` |
    /// | `%A` `%a` `%B` `%b` `%h` | weekday and its three letters; month and its three letters | `Sunday` `Sun` `March` `Mar` `Mar` |
    /// | `%H` `%k` `%I` `%l` | hour; hour of the half day, from 1 to 12. `%k` and `%l` have a space for a digit | `09` ` 9` `09` ` 9` |
    /// | `%p` `%P` | `AM` or `PM`; `am` or `pm` | `AM` `am` |
    /// | `%M` `%S` `%f` | minute; second, 60 in a leap second; nanoseconds in nine digits | `05` `07` `250000000` |
    /// | `%3f` `%6f` `%9f` | the first digits of the fraction of the second, so many of them | `250` `250000` `250000000` |
    /// | `%.3f` `%.6f` `%.9f` `%.f` | the same behind a point; three, six or nine digits, the fewest that hold it, with no point for none | `.250` `.250000` `.250000000` `.250` |
    /// | `%F` `%D` `%T` `%R` | `%Y-%m-%d`, `%m/%d/%y`, `%H:%M:%S`, `%H:%M` | `2024-03-03` `03/03/24` `09:05:07` `09:05` |
    /// | `%x` `%X` `%r` | `%m/%d/%y`, `%H:%M:%S`, `%I:%M:%S %p` | `03/03/24` `09:05:07` `09:05:07 AM` |
    /// | `%c` `%v` | `%a %b %e %H:%M:%S %Y`, `%e-%b-%Y` | `Sun Mar  3 09:05:07 2024` ` 3-Mar-2024` |
    /// | `%z` `%:z` `%::z` `%:::z` | offset from UTC: `+0930`, `+09:30`, `+09:30:00`, `+09` | `+0530` `+05:30` `+05:30:00` `+05` |
    /// | `%#z` `%Z` | as `%z`, but a text may leave the minutes out; as `%:z`, with the seconds of the offset if there are any | `+0530` `+05:30` |
    /// | `%s` | seconds from 1970-01-01T00:00:00 UTC, with a sign if they are below 0 | `1709436907` |
    /// | `%+` | `%Y-%m-%dT%H:%M:%S%.f%:z` (RFC 3339) | `2024-03-03T09:05:07.250+05:30` |
    /// | `%n` `%t` `%%` | line feed, tab, `%` | `\n` `\t` `%` |
    ///
    /// A number is filled up to four digits by `%Y` and `%G`, to three by `%j`, to nine by `%f`, to one by `%q`, `%u`, `%w` and `%s`. All others
    /// fill it up to two, of which the sign of `%C` is one. Before a number, `-` asks for no padding, `_` for spaces, and `0` for zeros: `%-d`.
    /// They change nothing at `%s`.
    ///
    /// Writing cuts and never rounds: `%.3f` of 999,999 microseconds is `.999`. What a pattern does not write is left out in the same way.
    ///
    /// What is smaller than the last number of an offset is left out. GNU date does so too, but not for `%:::z`, where it writes what there is.
    /// Such an offset keeps its sign: half a minute behind UTC is `-0000`. So the text of `%+` names another instant if the offset has seconds.
    /// In chrono a pattern with `%#z` only reads. Here it writes too, so that each pattern writes each zoned date-time.
    pub fn new(bytes: &'a [u8]) -> Result<Pattern<'a>, PatternError>
        ensures bytes { IfOk result (λ p. p ≡ bytes.now) }
        ensures exists { IsOk result ↔ IsPattern bytes.now }
        ensures error { IfErr result (λ e. pattern_error bytes.now ≡ Some e) }
    {
        match pattern_error(bytes) {
            None => Ok(Pattern {
                bytes,
                text: utf8_text(bytes),
                is_zoned: has_item_of(Sort::OfOffset, bytes),
                names: names_told(bytes),
            }),
            Some(error) => Err(error),
        }
    }

    /// Returns the text of `moment`. Returns `None` if the pattern needs an offset, or if the text has more than `N` bytes.
    ///
    /// `%s` counts the seconds from 1970 as if `moment` were of UTC.
    ///
    /// ```
    /// use chrono_datetime::{AndTime, NaiveDate};
    /// let moment = NaiveDate::from_ymd_opt(2024, 2, 29)?.and_hms_opt(9, 30, 0)?;
    /// Pattern::new(b"%I%p").ok()?.format::<8>(moment)?.as_bytes() // [48, 57, 65, 77]
    /// Pattern::new(b"%F").ok()?.format::<8>(moment).is_none() // true
    /// Pattern::new(b"%R%z").ok()?.format::<16>(moment).is_none() // true
    /// ```
    pub fn format<const N: usize>(&self, moment: NaiveDateTime) -> Option<Text<N>>
        ensures text { IfSome result (λ text. text ≡ pattern_text self.now moment) }
        ensures exists { IsSome result ↔ ((needs_offset self.now ≡ false) × (length (pattern_text self.now moment) ≤ N)) }
    {
        if self.is_zoned {
            return None;
        }
        text_of(self.bytes, moment, FixedOffset::east_opt(0).unwrap())
    }

    /// Returns whether the pattern has a specifier of the offset from UTC, such as `%z` or `%+`. Then only a zoned date-time has a text.
    ///
    /// ```
    /// Pattern::new(b"%F %T %:z").ok()?.needs_offset() // true
    /// Pattern::new(b"%s").ok()?.needs_offset() // false
    /// ```
    pub fn needs_offset(&self) -> bool
        ensures { result ≡ needs_offset self.now }
    {
        self.is_zoned
    }

    /// Returns whether the pattern has a specifier of the time of day, such as `%H` or `%p`. `%s` and `%+` have one too.
    ///
    /// ```
    /// Pattern::new(b"%d.%m.%y").ok()?.needs_time() // false
    /// Pattern::new(b"%F %R").ok()?.needs_time() // true
    /// ```
    pub fn needs_time(&self) -> bool
        ensures { result ≡ needs_time self.now }
    {
        has_item_of(Sort::OfTime, self.bytes)
    }

    /// Returns whether the pattern has a specifier of a date, such as `%d` or `%B`. `%s` and `%+` have one too.
    ///
    /// ```
    /// Pattern::new(b"%R").ok()?.needs_date() // false
    /// Pattern::new(b"%F %R").ok()?.needs_date() // true
    /// ```
    pub fn needs_date(&self) -> bool
        ensures { result ≡ needs_date self.now }
    {
        has_item_of(Sort::OfDate, self.bytes)
    }

    /// Returns the fields that the pattern reads. Every name below, such as [`names_date`](Self::names_date), is told by them and by whether a
    /// text may leave its fraction out.
    ///
    /// ```
    /// let fields = Pattern::new(b"%b %y").ok()?.fields();
    /// fields.month // true
    /// fields.year // false
    /// fields.year_mod_100 // true
    /// ```
    pub fn fields(&self) -> Fields
        ensures { result ≡ pattern_fields self.now }
    {
        fields_given(named_parts(self.bytes))
    }

    /// Returns whether the specifiers of the pattern name a date, as [`Parsed::to_date`] says. If they do not, no text gives one.
    ///
    /// ```
    /// Pattern::new(b"%a %e %B %y").ok()?.names_date() // true
    /// Pattern::new(b"%e %B").ok()?.names_date() // false
    /// ```
    pub fn names_date(&self) -> bool
        ensures { result ≡ names_date (sure_parts self.now) }
    {
        self.names.date
    }

    /// Returns whether the specifiers of the pattern may name a time of day, as [`Parsed::to_time`] says. If they do not, no text gives one.
    ///
    /// A text may leave out a fraction with a point, such as `%.f`. So `%R%.f` may name a time of day: it reads `09:30`, but no second stands
    /// before the fraction of `09:30.5`. `%R%.3f` may too, though it writes a fraction into each text.
    ///
    /// ```
    /// Pattern::new(b"%I:%M %p").ok()?.names_time() // true
    /// Pattern::new(b"%I:%M").ok()?.names_time() // false
    /// Pattern::new(b"%R%f").ok()?.names_time() // false
    /// Pattern::new(b"%R%.f").ok()?.names_time() // true
    /// ```
    pub fn names_time(&self) -> bool
        ensures { result ≡ names_time (sure_parts self.now) }
    {
        self.names.time
    }

    /// Returns whether the specifiers of the pattern may name a date-time, as [`Parsed::to_date_time`] says: both a date and a time of day, or
    /// the seconds from 1970. If they do not, no text gives one.
    ///
    /// ```
    /// Pattern::new(b"%F %R").ok()?.names_date_time() // true
    /// Pattern::new(b"%F %H").ok()?.names_date_time() // false
    /// Pattern::new(b"%s").ok()?.names_date_time() // true
    /// ```
    pub fn names_date_time(&self) -> bool
        ensures { result ≡ names_moment (sure_parts self.now) }
    {
        self.names.date_time
    }

    /// Returns whether the pattern is separable for the years 0 to 9999. Then each of its texts shows where every item ends.
    ///
    /// The law `separable_patterns_read_back` says which values it then reads back. A fraction needs its second. So `%R%.3f`, which writes one in
    /// each text, is not separable. `%R%.f` is: it reads back whole minutes, and a text of it with a fraction names no time.
    ///
    /// Such a pattern has no digit behind a number with fewer digits than are read at most. So `%Y%m%d` is separable, and `%Y%-m%d` is not.
    /// No pattern with `%Z` is, since `%Z` reads all bytes up to a blank, also those of what stands behind it.
    ///
    /// The test suffices and is not needed: `%R %Z` reads each of its texts too, though it is not separable.
    ///
    /// ```
    /// Pattern::new(b"%Y%m%d").ok()?.is_separable() // true
    /// Pattern::new(b"%-d.%-m.%Y").ok()?.is_separable() // true
    /// Pattern::new(b"%-d%-m%Y").ok()?.is_separable() // false
    /// Pattern::new(b"%T%.f%j").ok()?.is_separable() // false
    /// Pattern::new(b"%R%.3f").ok()?.is_separable() // false
    /// ```
    pub fn is_separable(&self) -> bool
        ensures { result ≡ is_separable false self.now }
    {
        is_separable(self.bytes, false)
    }

    /// Returns the same of a text of any year. A year with a sign has up to nine digits, so no digit may be behind it. A century has no sign.
    ///
    /// ```
    /// Pattern::new(b"%Y-%m-%d").ok()?.is_separable_for_all_years() // true
    /// Pattern::new(b"%Y%m%d").ok()?.is_separable_for_all_years() // false
    /// Pattern::new(b"%C-%y").ok()?.is_separable_for_all_years() // false
    /// ```
    pub fn is_separable_for_all_years(&self) -> bool
        ensures { result ≡ is_separable true self.now }
    {
        is_separable(self.bytes, true)
    }

    /// Returns the parts that `text` gives.
    ///
    /// - A blank of the pattern stands for any blanks and for none. Blanks are also skipped before a number, an offset and `%s`, and nowhere
    ///   else: not before a name, a fraction or another byte. A blank is a space or one of the bytes 9 to 13.
    /// - A number takes all digits that stand there, at least one, and at most four by `%Y` and `%G`, three by `%j`, nine by `%f`, one by `%q`,
    ///   `%u` and `%w`, and two by all others. `%Y` and `%G` may have a sign, and then at most nine digits. A padding changes nothing.
    /// - `%f` is a number of nanoseconds: by it `5` is five of them. `%3f`, `%6f` and `%9f` read just so many digits of a fraction: by `%3f` `500`
    ///   is half a second. `%.f`, `%.3f`, `%.6f` and `%.9f` are a point and any digits behind it, of which nine count, or nothing. So `.250` is a
    ///   quarter of a second by each of them.
    /// - Names are in letters of any case. `%B` and `%A` read three letters too, and `%b`, `%h` and `%a` only these.
    /// - `%z` and `%:z` are a sign, hours of two digits, and minutes below 60 of two digits. Any colons and blanks may be between them, and
    ///   none have to be. `%::z` also reads a colon and seconds, if a colon is there. `%:::z` and `%#z` may have no minutes: if no digit is
    ///   behind the colons and blanks, these are left alone. So `%:::z %H` reads the 09 of `+05 09` as minutes. An offset is less than a day.
    /// - `%#z` also reads `Z` or `z`, which is UTC. `%Z` reads all bytes up to a blank, and gives nothing.
    /// - `%s` may have a sign. It has all digits that stand there, at most 18. UTC has a date at that second. A fraction behind it counts forward,
    ///   also from a second below 0.
    /// - `%+` is read as `%F`, then `T`, `t` or a space, then `%T%.f%:z`. `Z`, `z` or `UTC` in any case may be in place of the offset.
    /// - A field that stands twice has the same value in both places.
    ///
    /// chrono 0.4.23 reads no seconds of `%::z`, no `%:::z` without minutes, and no `%s` below 0, though it writes them. By `%+` it reads
    /// RFC 3339 alone, and no other form. It has no `%q`. It reads any number of digits behind the sign of a year, and skips the white space of
    /// Unicode. It looks at the range of an hour, a minute and a second only where a time is asked for.
    ///
    /// # Errors
    ///
    /// Returns [`PatternReadError`] if the pattern does not read the text. It names the first piece that is wrong.
    ///
    /// ```
    /// let pattern = Pattern::new(b"%d %b %Y").ok()?;
    /// pattern.read_parts(b"29 feb 2024").ok()?.month // Some(2)
    /// pattern.read_parts(b"29 feb 24").ok()?.year // Some(24)
    /// pattern.read_parts(b"29 feb").err() // Some(PatternReadError { byte: 6, cause: TooShort })
    /// ```
    pub fn read_parts(&self, text: &[u8]) -> Result<Parsed, PatternReadError>
        // The text is pieces in a row, one for each item of the pattern.
        ensures exact { (p : Parsed) → result ≡ Ok p ↔ Reads (pattern_items self.now) text.now p }
        ensures parts { IfOk result (λ p. text_read self.now text.now ≡ Ok p) }
        ensures error { IfErr result (λ e. (stop : Stop) × (text_read self.now text.now ≡ Err stop) × (e ≡ read_error text.now stop)) }
    {
        let mut reader = reader_of(text);
        match read_text(self.bytes, &mut reader) {
            Ok(()) => Ok(reader.parsed),
            Err(stop) => Err(read_error(text, stop)),
        }
    }

    /// Returns the parts that the front of `text` gives, and what is behind it.
    ///
    /// The front is what [`read_parts`](Self::read_parts) reads.
    ///
    /// # Errors
    ///
    /// Returns [`PatternReadError`] if the pattern reads no front of the text. It names the first piece that is wrong.
    ///
    /// ```
    /// let pattern = Pattern::new(b"%H:%M").ok()?;
    /// let (parsed, rest) = pattern.read_front(b"09:30 Z").ok()?;
    /// parsed.minute // Some(30)
    /// rest // [32, 90]
    /// ```
    pub fn read_front<'t>(&self, text: &'t [u8]) -> Result<(Parsed, &'t [u8]), PatternReadError>
        // The front is pieces in a row, one for each item of the pattern.
        ensures front { IfOk result (λ r. ReadsFront (pattern_items self.now) text.now r.0 r.1.now) }
        ensures exists { (p : Parsed) → (rest : List ℕ) → ReadsFront (pattern_items self.now) text.now p rest → IsOk result }
        ensures only { (p : Parsed) → (rest : List ℕ) → ReadsFront (pattern_items self.now) text.now p rest
            → IfOk result (λ r. (r.0 ≡ p) × (r.1.now ≡ rest)) }
        ensures parts { IfOk result (λ r. front_read self.now text.now ≡ Ok (record { rest = r.1.now; parsed = r.0 })) }
        ensures error { IfErr result (λ e. (stop : Stop) × (front_read self.now text.now ≡ Err stop) × (e ≡ read_error text.now stop)) }
    {
        let mut reader = reader_of(text);
        match read_front(self.bytes, &mut reader) {
            Ok(()) => Ok((reader.parsed, reader.rest)),
            Err(stop) => Err(read_error(text, stop)),
        }
    }

    // Reads a whole text into the parts of a reader.
    #[inline(always)]
    pub(crate) fn read_into(&self, reader: &mut Reader<'_>) -> Result<(), Stop>
        ensures read { IfOk result (λ u. end_read (read_from Outside self.now reader.old) ≡ Ok reader.new.parsed) }
        ensures stop { IfErr result (λ e. end_read (read_from Outside self.now reader.old) ≡ Err e) }
    {
        read_text(self.bytes, reader)
    }

    /// Returns the text of `date`. Returns `None` if the pattern needs a time of day or an offset, or if the text has more than `N` bytes.
    ///
    /// ```
    /// use chrono_datetime::NaiveDate;
    /// let date = NaiveDate::from_ymd_opt(2024, 2, 29)?;
    /// Pattern::new(b"%j").ok()?.format_date::<8>(date)?.as_bytes() // [48, 54, 48]
    /// Pattern::new(b"%j %H").ok()?.format_date::<8>(date).is_none() // true
    /// ```
    pub fn format_date<const N: usize>(&self, date: NaiveDate) -> Option<Text<N>>
        // The text is the same at each time of the day.
        ensures text { IfSome result (λ text. (t : TimeOfDay) → text ≡ pattern_text self.now (moment date t)) }
        ensures exists { IsSome result ↔ ((needs_time self.now ≡ false) × (needs_offset self.now ≡ false)
            × (length (pattern_text self.now (moment date (time_at 0 0 0 0))) ≤ N)) }
    {
        if self.needs_time() {
            return None;
        }
        self.format(NaiveDateTime::new(date, NaiveTime::MIN))
    }

    /// Returns the text of `time`. Returns `None` if the pattern needs a date or an offset, or if the text has more than `N` bytes.
    ///
    /// ```
    /// use chrono_datetime::NaiveTime;
    /// let time = NaiveTime::from_hms_opt(9, 30, 0)?;
    /// Pattern::new(b"%H%M").ok()?.format_time::<8>(time)?.as_bytes() // [48, 57, 51, 48]
    /// Pattern::new(b"%H%M %d").ok()?.format_time::<8>(time).is_none() // true
    /// ```
    pub fn format_time<const N: usize>(&self, time: NaiveTime) -> Option<Text<N>>
        // The text is the same on each date.
        ensures text { IfSome result (λ text. (n : ℤ) → text ≡ pattern_text self.now (moment n time)) }
        ensures exists { IsSome result ↔ ((needs_date self.now ≡ false) × (needs_offset self.now ≡ false)
            × (length (pattern_text self.now (moment unix_epoch_day time)) ≤ N)) }
    {
        if self.needs_date() {
            return None;
        }
        self.format(NaiveDateTime::new(NaiveDate::default(), time))
    }
}

// The bytes as a text, if they are UTF-8.
fn utf8_text(bytes: &[u8]) -> Option<&str>
    ensures same { IfSome result (λ t. t.now ≡ bytes.now) }
    ensures exists { IsSome result ↔ IsUtf8 bytes.now }
{
    from_utf8(bytes).ok()
}

// The error of a text by where a reader stopped.
pub(crate) fn read_error(text: &[u8], stop: Stop) -> PatternReadError
    ensures { result ≡ read_error text.now stop }
{
    PatternReadError {
        byte: text.len().saturating_sub(stop.left),
        cause: stop.cause,
    }
}

// What is wrong with bytes that are no pattern.
fn pattern_error(bytes: &[u8]) -> Option<PatternError>
    ensures { result ≡ pattern_error bytes.now }
{
    let mut state = State::Outside;
    let mut begun = 0;
    let mut place = 0;
    let mut rest = bytes;
    while let Some((byte, behind)) = rest.split_first() {
        begun = begun_at(state, begun, place);
        let Some(next) = pattern_step(state, *byte) else {
            return Some(PatternError {
                byte: begun,
                cause: PatternFault::Unknown,
            });
        };
        state = next.0;
        place += 1;
        rest = behind;
    }
    cut_error(state, begun)
}

// What is wrong where the bytes end.
fn cut_error(state: State, begun: usize) -> Option<PatternError>
    ensures { result ≡ cut_error state begun }
{
    match state {
        State::Outside => None,
        State::Opened(_) | State::Digits(_, _) | State::Marked(_) => Some(PatternError {
            byte: begun,
            cause: PatternFault::Cut,
        }),
    }
}

// Where the specifier of a byte begins, or the byte itself.
fn begun_at(state: State, begun: usize, place: usize) -> usize
    ensures { result ≡ begun_at state begun place }
{
    match state {
        State::Outside => place,
        State::Opened(_) | State::Digits(_, _) | State::Marked(_) => begun,
    }
}

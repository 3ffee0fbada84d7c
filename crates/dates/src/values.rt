//! The values of words.

use crate::day::is_alone;
use crate::prelude::*;
use chrono_pattern::PatternReadError;
use chrono_text::{read_decimal, read_year};

/// How days and instants are read and written.
#[derive(Drop)]
pub(crate) struct Reading<'a> {
    /// The pattern by which they are read, if one is given.
    pub pattern: Option<Pattern<'a>>,
    /// What the clock shows, where a word asks for it.
    pub now: Option<Now>,
    /// In which order a text names year, month and day.
    pub order: Order,
    /// Whether instants are seconds since 1970 in UTC.
    pub is_unix: bool,
    /// Whether a time of day may stand alone.
    pub takes_clock: bool,
    /// Whether a month, as `2024-02` or `Feb 2024`, stands for its first day.
    pub takes_month: bool,
    /// How many blanks a text may have: one in front of its time of day, or those of the pattern.
    pub blanks: usize,
}

/// Why a text names no day, date-time or instant.
#[derive(Clone, Copy)]
pub(crate) enum Unreadable {
    /// By the forms of ISO 8601.
    Form(ReadError),
    /// By a pattern.
    Pattern(PatternReadError),
}

impl Unreadable {
    // Whether the text has another form than those of ISO 8601.
    pub(crate) fn is_other_form(self) -> bool {
        matches!(self, Unreadable::Form(error) if error.cause == ReadCause::NotThisForm)
    }

    // Whether the text has another form than that of the pattern.
    pub(crate) fn is_other_pattern(self) -> bool {
        matches!(self, Unreadable::Pattern(error) if is_other_form(error))
    }
}

impl From<ReadError> for Unreadable {
    fn from(error: ReadError) -> Self {
        Unreadable::Form(error)
    }
}

impl From<PatternReadError> for Unreadable {
    fn from(error: PatternReadError) -> Self {
        Unreadable::Pattern(error)
    }
}

// Puts why a text names no day behind another.
pub(crate) fn put_unread(out: &mut Buffer, error: Unreadable) {
    match error {
        Unreadable::Form(error) => out.show(&error),
        Unreadable::Pattern(error) => put_unread_by(out, error),
    }
}

impl Reading<'_> {
    // By the forms of ISO 8601, and by the names of months.
    pub(crate) fn plain() -> Self {
        Reading {
            pattern: None,
            now: None,
            order: Order::None,
            is_unix: false,
            takes_clock: false,
            takes_month: false,
            blanks: 1,
        }
    }

    // The day, the date-time or the instant that a text names; by seconds an instant alone. A line may end in a carriage return.
    pub(crate) fn read(&self, text: &[u8]) -> Result<Start, Unreadable> {
        let text = text.strip_suffix(b"\r").unwrap_or(text);
        if text.len() >= MOST_BYTES {
            return Err(Unreadable::Form(no_form(0)));
        }
        if let Some(pattern) = &self.pattern {
            return Ok(read_by(pattern, text)?);
        }
        match self.now {
            Some(now) if is_named(text) && (!self.is_unix || text == b"now".as_slice()) => {
                Ok(read_named(now, text)?)
            }
            _ if self.is_unix => Ok(read_instant(text)?),
            _ => self.read_plain(text),
        }
    }

    // What a text names without a pattern, a clock or seconds; the first day of a month, where one is taken.
    fn read_plain(&self, text: &[u8]) -> Result<Start, Unreadable> {
        let read = read_written(text, self.order, self.takes_clock);
        match (read, read_month(text)) {
            (Err(error), Ok(first)) if error.is_other_form() && self.takes_month => {
                Ok(Start::Day(first))
            }
            (read, _) => read,
        }
    }

    // The day that a text names.
    pub(crate) fn read_day(&self, text: &[u8]) -> Option<NaiveDate> {
        match self.read(text).ok()? {
            Start::Day(date) => Some(date),
            _ => None,
        }
    }

    // The answer that is a day, a date-time or an instant.
    pub(crate) fn reply(&self, start: Start) -> Reply {
        match start {
            Start::Clock(time) => Reply::Clock(time),
            Start::Day(date) => Reply::Date(date),
            Start::DateTime(moment) => Reply::Moment(moment),
            Start::Stamp(stamp) => {
                if self.is_unix {
                    Reply::Number(Key::Unix, stamp.timestamp())
                } else {
                    Reply::Stamp(stamp)
                }
            }
        }
    }

    // That there is no day, or no date-time, as is the start.
    pub(crate) fn none_of(&self, start: &Start) -> Reply {
        match start.key() {
            Key::Moment => self.no_moment(),
            key => Reply::Nothing(key),
        }
    }

    // That there is no such day, or no such date-time where the text has a `T` or a colon, or the pattern a time.
    pub(crate) fn none_of_text(&self, text: &[u8]) -> Reply {
        let is_timed = match &self.pattern {
            Some(pattern) => pattern.names_date_time(),
            None => self.is_unix || text.contains(&b'T') || text.contains(&b':'),
        };
        if is_timed {
            self.no_moment()
        } else {
            Reply::Nothing(Key::Date)
        }
    }

    // That there is no date-time.
    pub(crate) fn no_moment(&self) -> Reply {
        Reply::Nothing(if self.is_unix { Key::Unix } else { Key::Moment })
    }
}

impl Asked<'_> {
    // What a word is read as, where that is expected.
    pub(crate) fn taken(
        &mut self,
        word: Word<'_>,
        read: Result<Start, Unreadable>,
        expected: &str,
    ) -> Start {
        match read {
            Ok(start) => start,
            Err(error) => {
                self.unread(word, error, expected);
                Start::Day(NaiveDate::MIN)
            }
        }
    }

    // The day, the date-time or the instant that a word names, where that is expected.
    pub(crate) fn start_as(&mut self, word: Word<'_>, expected: &str) -> Start {
        let read = self.reading.read(word.text.as_bytes());
        self.taken(word, read, expected)
    }

    // The day that a word names.
    pub(crate) fn day(&mut self, word: Word<'_>) -> NaiveDate {
        let start = self.start_as(word, DAY_EXPECTED);
        self.day_at(word, start, DAY_EXPECTED)
    }

    // The day that a start is, where that is expected.
    pub(crate) fn day_at(&mut self, word: Word<'_>, start: Start, expected: &str) -> NaiveDate {
        if !start.is_day() {
            self.wrong(word, expected);
        }
        start.local().date()
    }

    // The day that the operand at a place names; without it today, where nothing is piped in. No day stands for the lines of the input.
    pub(crate) fn day_or_today(&mut self, place: usize) -> Option<NaiveDate> {
        if self.words.operand(place).is_none() && is_alone(self.rt) {
            return Some(self.day_shown());
        }
        self.day_if(self.word_or_lines(place))
    }

    // What the operand at a place names; without it what the clock shows, where nothing is piped in. Nothing stands for the lines of the input.
    pub(crate) fn start_or_now(&mut self, place: usize) -> Option<Start> {
        if self.words.operand(place).is_none() && is_alone(self.rt) {
            return Some(Start::Stamp(self.shown()?));
        }
        match self.word_or_lines(place) {
            Some(word) => {
                self.none = self.reading.none_of_text(word.text.as_bytes());
                Some(self.start(word))
            }
            None => None,
        }
    }

    // The day that a word names, if there is one.
    pub(crate) fn day_if(&mut self, word: Option<Word<'_>>) -> Option<NaiveDate> {
        match word {
            Some(word) => Some(self.day(word)),
            None => None,
        }
    }

    // The day that a word names, which else may have been meant for a command.
    pub(crate) fn day_or_command(&mut self, word: Word<'_>) -> NaiveDate {
        match self.reading.read(word.text.as_bytes()) {
            Ok(start) if start.is_day() => return start.local().date(),
            Err(error) if !error.is_other_form() || hint_of(word.text.as_bytes()).is_some() => {
                self.unread(word, error, "")
            }
            _ => self.no_command(word),
        }
        NaiveDate::MIN
    }

    // The date-time or the instant that a word names.
    pub(crate) fn moment(&mut self, word: Word<'_>) -> Start {
        let start = self.start_as(word, MOMENT_EXPECTED);
        self.moment_at(word, start)
    }

    // A start, which is a date-time or an instant.
    pub(crate) fn moment_at(&mut self, word: Word<'_>, start: Start) -> Start {
        if !start.is_moment() {
            self.wrong(word, MOMENT_EXPECTED);
        }
        start
    }

    // The year that a word writes.
    pub(crate) fn year(&mut self, word: Word<'_>) -> i32 {
        let year = read_year(word.text.as_bytes());
        if year.is_none() {
            self.wrong(word, "expected a year as 2024, -0044 or +12024");
        }
        year.unwrap_or(1)
    }

    // The first day of a year that a word writes.
    pub(crate) fn start_of_year(&mut self, word: Word<'_>) -> NaiveDate {
        let year = self.year(word);
        let first = NaiveDate::from_ymd_opt(year, 1, 1);
        if first.is_none() {
            self.no_such(word, NO_YEAR);
        }
        first.unwrap_or(NaiveDate::MIN)
    }

    // The number from 1 on that the option of a name has, if it is given.
    pub(crate) fn amount_if(&mut self, name: &str) -> Option<u64> {
        let word = self.value(name)?;
        let count = read_decimal(word.text.as_bytes()).unwrap_or(0);
        if count == 0 {
            self.wrong(word, "expected a number from 1 on, of 18 digits at most");
        }
        Some(count)
    }

    // The weekday that a word names, where that is expected.
    pub(crate) fn weekday(&mut self, word: Word<'_>, expected: &str) -> Weekday {
        let weekday = weekday_named(word.text);
        if weekday.is_none() {
            self.wrong(word, expected);
        }
        weekday.unwrap_or(Weekday::Mon)
    }
}

/// What is expected in place of a word that is no day.
pub(crate) const DAY_EXPECTED: &str = "expected a day as 2024-02-29, 2024-060 or 2024-W09-4";

/// What is expected in place of a word that is no date-time.
pub(crate) const MOMENT_EXPECTED: &str = "expected a date-time as 2024-02-29T04:30";

/// What is expected in place of a year that is not in the calendar.
pub(crate) const NO_YEAR: &str = "expected a year from -262143 to +262142";

/// That there is one word too many.
pub(crate) const NO_MORE: &str = "expected no further argument";

// Whether a word begins with a digit, a sign or a mark, and so was meant for a day.
pub(crate) fn begins_as_day(word: Word<'_>) -> bool {
    match word.text.as_bytes() {
        [b'+' | b'-' | b'#' | b'@', ..] => true,
        [first, ..] => first.is_ascii_digit(),
        [] => false,
    }
}

/// A year as dates are written: four digits, or a sign and as many as it takes.
#[derive(Clone, Copy)]
pub struct Year {
    /// The year.
    pub year: i32,
}

impl fmt::Display for Year {
    fn fmt<W: fmt::Write>(&self, f: &mut fmt::Formatter<W>) -> fmt::Result {
        let year = self.year;
        if 0 <= year && year <= 9_999 {
            write!(f, "{year:04}")
        } else {
            write!(f, "{year:+05}")
        }
    }
}

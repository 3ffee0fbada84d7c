//! Days and date-times that are read and printed by patterns.

use crate::prelude::*;
use chrono_pattern::{DelayedFormat, PatternFault, PatternReadError, ReadFault};

/// `--parse`.
pub(crate) const PARSE: Opt =
    option!("--parse", "PATTERN"; "read days and date-times by a pattern, as %d.%m.%Y");

/// `--order`.
pub(crate) const ORDER: Opt = option!(
    "--order", "ORDER"; "read days as 29.02.2024 (dmy) or as 02/29/2024 (mdy)",
    values: &["dmy", "mdy"], any: false
);

/// `--long`.
pub(crate) const LONG: Opt = flag!(
    "--long",
    "print days as Thursday, 29 February 2024, with the\ntime of date-times behind it"
);

// The pattern of `--long`: of days, of date-times, of instants and of times of day.
const LONG_DAY: &str = "%A, %-d %B %Y";

fn long_pattern(start: &Start) -> &'static str {
    match start {
        Start::Day(_) => LONG_DAY,
        Start::DateTime(_) => "%A, %-d %B %Y, %H:%M:%S",
        Start::Stamp(_) => "%A, %-d %B %Y, %H:%M:%S %:z",
        Start::Clock(_) => "%H:%M:%S",
    }
}

/// `--format`.
pub(crate) const FORMAT: Opt =
    option!("--format", "PATTERN"; "print days and date-times by a pattern, as %d.%m.%Y");

// The word that writes the pattern of an option: its value, or the first operand of the command of that name.
pub(crate) fn pattern_word<'a>(
    command: &CommandRow,
    words: &Arguments<'a>,
    option: Opt,
) -> Option<Word<'a>> {
    match option.name.strip_prefix("--") {
        Some(name) if name == command.name => words.operand(0),
        _ if option.name == FORMAT.name && words.has(LONG.name) => Some(Word {
            place: 0,
            text: LONG_DAY,
        }),
        _ => words.value(command.options, option.name),
    }
}

impl<'a> Asked<'a> {
    // The pattern that a word writes, if there is one.
    pub(crate) fn pattern_if(&mut self, word: Option<Word<'a>>) -> Option<Pattern<'a>> {
        let word = word?;
        match Pattern::new(word.text.as_bytes()) {
            Ok(pattern) => Some(pattern),
            Err(error) => {
                let mut said = self.blame(word);
                said.put(": byte ");
                said.show(&error.byte);
                said.put(match error.cause {
                    PatternFault::Unknown => ": no such specifier",
                    PatternFault::Cut => ": the pattern ends within a specifier",
                });
                self.refuse(&said);
                None
            }
        }
    }

    // The pattern that a word writes, by which days or date-times are read.
    pub(crate) fn reading_if(&mut self, word: Option<Word<'a>>) -> Option<Pattern<'a>> {
        let pattern = self.pattern_if(word)?;
        if !pattern.names_date() && !pattern.names_zoned() && !pattern.names_time() {
            self.wrong(
                word?,
                "expected a pattern that names a day, as %d.%m.%Y, or a time, as %H:%M",
            );
        }
        Some(pattern)
    }
}

impl Asked<'_> {
    // The text by the pattern, if there is what the pattern asks for. By a zone's clock %Z is the name of its time.
    pub(crate) fn text_by_pattern(&self, start: &Start) -> io::Result<Option<String>> {
        match (&self.zone, start) {
            (Some(zone), Start::Stamp(stamp)) => {
                let name = zone.abbreviation(stamp.timestamp()).unwrap_or("");
                self.text_with_name(start, name)
            }
            _ => self.text_with_name(start, ""),
        }
    }

    // The same where the time has that name; without a name %Z is the offset.
    pub(crate) fn text_with_name(&self, start: &Start, name: &str) -> io::Result<Option<String>> {
        let Some(pattern) = &self.format else {
            return Ok(None);
        };
        if self.words.has(LONG.name) {
            return self.text_if(delayed_long(start));
        }
        if name.is_empty() {
            return self.text_if(delayed(pattern, start));
        }
        let mut named = Buffer::new(self.rt.alloc());
        put_named(&mut named, self.pattern_text(), name);
        match Pattern::new(named.text()?.as_bytes()) {
            Ok(pattern) => self.text_if(delayed(&pattern, start)),
            Err(_) => Ok(None),
        }
    }

    // A text that is put together only now, if there is one.
    fn text_if(&self, delayed: Option<DelayedFormat<'_>>) -> io::Result<Option<String>> {
        match delayed {
            Some(delayed) => Ok(Some(delayed.to_string(self.rt.alloc())?)),
            None => Ok(None),
        }
    }

    // The pattern by which days and date-times are printed, as it is written.
    fn pattern_text(&self) -> &str {
        let word = pattern_word(self.command, &self.words, FORMAT);
        word.unwrap_or(NO_WORD).text
    }

    // Puts the first specifier of the pattern behind a text that asks for what a day, a date-time or a time of day has not.
    pub(crate) fn put_lacking(&self, out: &mut Buffer, start: &Start) {
        if self.words.has(LONG.name) {
            return;
        }
        let text = self.pattern_text();
        for place in 0..text.len() {
            if let Some(lacking) = lacking_at(text.get(place..).unwrap_or(""), start) {
                return put!(out, " by ", lacking);
            }
        }
    }
}

// The most bytes of a specifier, as %-d, %:z and %3f.
const MOST_OF_SPECIFIER: usize = 5;

// The specifier at the beginning of a text, if it asks for what a day, a date-time or a time of day has not.
fn lacking_at<'a>(text: &'a str, start: &Start) -> Option<&'a str> {
    if !text.starts_with('%') {
        return None;
    }
    for len in 2..=MOST_OF_SPECIFIER {
        let specifier = text.get(..len)?;
        if let Ok(pattern) = Pattern::new(specifier.as_bytes()) {
            return match delayed(&pattern, start) {
                Some(_) => None,
                None => Some(specifier),
            };
        }
    }
    None
}

// Puts a pattern behind a text, with a name for each %Z.
fn put_named(out: &mut Buffer, pattern: &str, name: &str) {
    let mut is_begun = false;
    for character in pattern.chars() {
        if !is_begun && character == '%' {
            is_begun = true;
            continue;
        }
        if is_begun && character == 'Z' {
            out.put(name);
        } else {
            out.put(if is_begun { "%" } else { "" });
            out.put_char(character);
        }
        is_begun = false;
    }
}

// What a text names by a pattern: an instant, a date-time, a day or a time of day.
pub(crate) fn read_by(pattern: &Pattern<'_>, text: &[u8]) -> Result<Start, PatternReadError> {
    if pattern.names_zoned() {
        return Ok(Start::Stamp(pattern.parse_zoned(text)?));
    }
    if pattern.names_date_time() {
        return Ok(Start::DateTime(pattern.parse_date_time(text)?));
    }
    if pattern.names_date() {
        return Ok(Start::Day(pattern.parse_date(text)?));
    }
    Ok(Start::Clock(pattern.parse_time(text)?))
}

// The text of `--long`.
pub(crate) fn delayed_long(start: &Start) -> Option<DelayedFormat<'static>> {
    match Pattern::new(long_pattern(start).as_bytes()) {
        Ok(pattern) => delayed(&pattern, start),
        Err(_) => None,
    }
}

// The text by a pattern, if there is what the pattern asks for.
pub(crate) fn delayed<'a>(pattern: &Pattern<'a>, start: &Start) -> Option<DelayedFormat<'a>> {
    match *start {
        Start::Clock(time) => pattern.delayed_time(time),
        Start::Day(date) => pattern.delayed_date(date),
        Start::DateTime(moment) => pattern.delayed(moment),
        Start::Stamp(stamp) => pattern.delayed_zoned(stamp),
    }
}

// Whether a text is not of a pattern's form, and else names what does not exist.
pub(crate) fn is_other_form(error: PatternReadError) -> bool {
    !matches!(error.cause, ReadFault::OutOfRange | ReadFault::Impossible)
}

// Puts why a text is not read by a pattern behind another.
pub(crate) fn put_unread_by(out: &mut Buffer, error: PatternReadError) {
    if error.cause == ReadFault::Impossible {
        out.put("no such day or time");
        return;
    }
    out.put("byte ");
    out.show(&error.byte);
    out.put(match error.cause {
        ReadFault::TooShort => ": the text ends before its pattern",
        ReadFault::TooLong => ": the text goes on behind its pattern",
        ReadFault::Invalid => ": not of the pattern",
        ReadFault::OutOfRange => ": out of range",
        ReadFault::Impossible | ReadFault::NotEnough => ": no such day or time",
    });
}

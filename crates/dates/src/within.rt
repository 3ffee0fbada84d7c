//! Days within lines: one field, or each word that is a day.

use crate::fields::{Part, field_at, part_of, separator_named, separator_of_records};
use crate::prelude::*;
use chrono_reading::leading_digits;
use std::io::Write;

/// `--within`.
pub(crate) const WITHIN: Opt = flag!(
    "--within",
    "answer each day with hyphens in a line, in its place;\none that has no answer stays"
);

/// `--field`.
pub(crate) const FIELD: Opt =
    option!("--field", "NUMBER"; "the day is that field of a line, counted from 1");

/// `--separator`.
pub(crate) const SEPARATOR: Opt = option!(
    "--separator", "NAME"; "what parts fields: comma, tab, semicolon or space\n(default: comma)",
    values: &["comma", "tab", "semicolon", "space"], default: "comma", any: false
);

/// Which parts of a line are taken for days.
#[derive(Clone, Copy)]
pub(crate) enum Within {
    /// The line.
    Line,
    /// Each word of it that is a day.
    Words,
    /// The field of that number, counted from 1, where this byte parts fields.
    Field(u64, u8),
}

impl Asked<'_> {
    // Takes which parts of a line are days.
    pub(crate) fn take_within(&mut self) {
        if self.words.has(WITHIN.name) {
            self.within = Within::Words;
        }
        if let Some(number) = self.amount_if(FIELD.name) {
            let separator = separator_named(self.option(SEPARATOR.name).text);
            self.within = Within::Field(number, separator);
            self.records.separator = separator_of_records(separator);
        } else if let Some(word) = self.words.value(&[], SEPARATOR.name) {
            self.wrong(word, "expected --field beside --separator");
        }
        if !matches!(self.within, Within::Line) {
            self.records.most = MOST_PRINTED;
        }
    }

    // Takes whether a time of day alone is an answer too: within a line it else stays.
    pub(crate) fn take_clocks(&mut self, is_taken: bool) {
        self.reading.takes_clock = is_taken || matches!(self.within, Within::Line);
    }

    // The first part of a line from a place on that is a day, or that names one which does not exist.
    fn part_from(&self, line: &[u8], from: usize) -> Option<Part> {
        match self.within {
            Within::Line => None,
            Within::Words => word_from(&self.reading, line, from),
            Within::Field(number, separator) if from == 0 => {
                let field = field_at(line, number, separator)?;
                if is_day_field(&self.reading, part_of(line, field)) {
                    Some(field)
                } else {
                    None
                }
            }
            _ => None,
        }
    }

    // Takes a line, or each day in it, whose place the answer takes.
    pub(crate) fn take_parts(&mut self, command: &mut impl EachLine, line: &[u8]) {
        if matches!(self.within, Within::Line) {
            return command.take_line(self, line);
        }
        if line.len() >= self.records.most {
            return self.refuse_line(TOO_LONG);
        }
        let mut written = Vec::new(self.rt.alloc());
        let put = self.put_parts(command, line, &mut written);
        self.done(put);
        if !self.is_over {
            let printed = io::writer(self.rt).write_all(written.as_slice());
            self.done(printed);
        }
    }

    // Leaves a day in a line as it stands.
    pub(crate) fn leave(&mut self, text: &[u8]) {
        if let Some(held) = &mut self.held {
            held.put(text_of(text));
        }
    }

    // Puts a line behind a text, with its answers.
    fn put_parts(
        &mut self,
        command: &mut impl EachLine,
        line: &[u8],
        written: &mut Vec<u8>,
    ) -> io::Result<()> {
        let mut from: usize = 0;
        let mut status = ANSWERED;
        for _ in 0..line.len() {
            let Some(part) = self.part_from(line, from) else {
                break;
            };
            written.extend_from_slice(line.get(from..part.begin).unwrap_or(b""))?;
            self.held = Some(Buffer::new(self.rt.alloc()));
            self.end_by(ANSWERED);
            command.take_line(self, part_of(line, part));
            self.put_held(line, part, written)?;
            status = status.max(self.status);
            from = part.end;
        }
        self.held = None;
        self.end_by(status);
        written.extend_from_slice(line.get(from..).unwrap_or(b""))?;
        Ok(written.push(b'\n')?)
    }
}

// What is a day or a date-time of a line: the line or its field, or else its first word that is one.
pub(crate) fn text_in<'a>(
    reading: &Reading<'_>,
    within: Within,
    line: &'a [u8],
) -> Option<&'a [u8]> {
    if reading.read(line).is_ok() {
        return Some(line);
    }
    let part = match within {
        Within::Field(number, separator) => field_at(line, number, separator)?,
        _ => word_from(reading, line, 0)?,
    };
    Some(part_of(line, part))
}

impl Asked<'_> {
    // An answer as the date-time is written that it replaces: with a blank for the `T`, and without seconds that are zero.
    fn as_written(&self, answer: &str, text: &[u8]) -> Buffer {
        let mut kept = Buffer::new(self.rt.alloc());
        if self.format.is_some() {
            kept.put(answer);
            return kept;
        }
        let is_short = count_of(b':', text) == 1 && count_of(b':', answer.as_bytes()) == 2;
        let short = answer.strip_suffix(":00").unwrap_or(answer);
        let answer = if is_short { short } else { answer };
        match answer.split_once('T') {
            Some((day, time)) if text.contains(&b' ') && ends_in_digit(day) => {
                put!(kept, day, " ", time)
            }
            _ => kept.put(answer),
        }
        kept
    }

    // Puts the answer that is held in the place of a part, or the part as it stands where there is none.
    fn put_held(&self, line: &[u8], part: Part, written: &mut Vec<u8>) -> io::Result<()> {
        match &self.held {
            Some(held) if self.status != NONE => {
                let kept = self.as_written(held.text()?, part_of(line, part));
                self.put_answer(kept.text()?.as_bytes(), line, part, written)
            }
            _ => Ok(written.extend_from_slice(part_of(line, part))?),
        }
    }

    // Puts an answer in the place of a part. One that a field cannot have as it stands is quoted, and its quotation marks are doubled.
    fn put_answer(
        &self,
        answer: &[u8],
        line: &[u8],
        part: Part,
        written: &mut Vec<u8>,
    ) -> io::Result<()> {
        let Within::Field(_, separator) = self.within else {
            return Ok(written.extend_from_slice(answer)?);
        };
        let is_quoted = part.begin > 0 && line.get(part.begin - 1) == Some(&b'"');
        let needs_marks = answer.contains(&separator) || answer.contains(&b'"');
        let mark: &[u8] = if needs_marks && !is_quoted {
            b"\""
        } else {
            b""
        };
        written.extend_from_slice(mark)?;
        for byte in answer {
            if *byte == b'"' {
                written.push(b'"')?;
            }
            written.push(*byte)?;
        }
        Ok(written.extend_from_slice(mark)?)
    }
}

// Whether a text ends in a digit.
fn ends_in_digit(text: &str) -> bool {
    match text.as_bytes().last() {
        Some(last) => last.is_ascii_digit(),
        None => false,
    }
}

// Whether a text is a day, or has the form of ISO 8601 or of the order of one that does not exist.
fn is_day(reading: &Reading<'_>, text: &[u8]) -> bool {
    match reading.read(text) {
        Err(Unreadable::Pattern(_)) => reading.pattern.is_none() && is_day_field(reading, text),
        _ => is_day_field(reading, text),
    }
}

// Whether a field is a day, or has the form, also that of a pattern, of one that does not exist.
fn is_day_field(reading: &Reading<'_>, text: &[u8]) -> bool {
    match reading.read(text) {
        Ok(_) => true,
        Err(error) => !error.is_other_form() && !error.is_other_pattern(),
    }
}

// Whether a byte parts words.
fn parts_words(byte: u8) -> bool {
    b" \t\r,;()[]{}<>=|\"'".contains(&byte)
}

// The first words from a place on that are a day. Without a pattern or an order they have a hyphen.
fn word_from(reading: &Reading<'_>, line: &[u8], from: usize) -> Option<Part> {
    let mut begin = from;
    for end in from..=line.len() {
        if end < line.len() && !parts_words(line[end]) {
            continue;
        }
        if let Some(part) = words_at(reading, line, Part { begin, end }) {
            return Some(part);
        }
        begin = end.saturating_add(1);
    }
    None
}

// The most words from a word on that are a day: as many as a text with its blanks may have. Without a pattern the first is a day, and
// another a time with a colon.
fn words_at(reading: &Reading<'_>, line: &[u8], word: Part) -> Option<Part> {
    let mut found = None;
    let mut end = word.end;
    for _ in 0..=reading.blanks.saturating_add(1) {
        let part = without_mark(
            line,
            Part {
                begin: word.begin,
                end,
            },
        );
        if reading.is_taken(part_of(line, part), end == word.end) {
            found = Some(part);
        }
        if found.is_none() && reading.pattern.is_none() || !goes_on(line, word.begin, end) {
            break;
        }
        end = word_end(line, end.saturating_add(1));
    }
    found
}

// Whether words go on behind a place: there is a blank, or behind a time a comma, three digits or more, and a blank.
fn goes_on(line: &[u8], begin: usize, end: usize) -> bool {
    if end >= line.len() || line[end] != b',' {
        return end < line.len() && line[end] == b' ';
    }
    let next = word_end(line, end.saturating_add(1));
    let digits = leading_digits(line.get(end.saturating_add(1)..).unwrap_or(b""));
    let is_time = part_of(line, Part { begin, end }).contains(&b':');
    is_time && digits >= 3 && next < line.len() && line[next] == b' '
}

// Where the word ends that begins at a place.
fn word_end(line: &[u8], begin: usize) -> usize {
    for end in begin..line.len() {
        if parts_words(line[end]) {
            return end;
        }
    }
    line.len()
}

impl Reading<'_> {
    // Whether a word of a line, or several, are a day. Without a pattern or an order they have a hyphen, and the last of several, or a time, a colon.
    fn is_taken(&self, text: &[u8], is_one: bool) -> bool {
        let is_plain = self.pattern.is_none() && matches!(self.order, Order::None);
        if is_one {
            let is_written = text.contains(&b'-') || self.takes_clock && text.contains(&b':');
            return (!is_plain || is_written) && is_day(self, text);
        }
        (self.pattern.is_some() || last_word(text).contains(&b':')) && self.read(text).is_ok()
    }
}

// What stands behind the last blank of a text.
fn last_word(text: &[u8]) -> &[u8] {
    let mut begin: usize = 0;
    for place in 0..text.len() {
        if text[place] == b' ' {
            begin = place.saturating_add(1);
        }
    }
    text.get(begin..).unwrap_or(b"")
}

// A word without the full stop or the colon at its end.
fn without_mark(line: &[u8], word: Part) -> Part {
    match part_of(line, word) {
        [.., b'.' | b':'] => Part {
            begin: word.begin,
            end: word.end.saturating_sub(1),
        },
        _ => word,
    }
}

//! What is said where something is wrong. The first fault alone is told, and ends the command.

use crate::prelude::*;
use chrono_reading::leading_digits;
use command_words::{Nearest, Why, Wrong, put_choices, put_usage};
use std::env::{self, Env, FillError, VarError};
use std::str;
use zone_database::ZoneError;

/// Standard input, in place of the word that names a file.
pub(crate) const INPUT: Word<'static> = NO_WORD;

/// Why a move leads nowhere.
pub(crate) const PAST: &str = "past the calendar's end";

/// Why a local time is no instant.
pub(crate) const NOT_ONCE: &str = "a local time that the zone's clock shows twice, or never";

/// That of two date-times one has an offset and one has none.
pub(crate) const ONE_OFFSET: &str =
    "expected an offset of both date-times, or of none; --zone gives one";

// What a day is expected as, and what else the first word may be.
const ORDER_WANTED: &str =
    "expected a day as 2024-02-29; --order dmy, --order mdy or --parse reads others";

const SECONDS_WANTED: &str =
    "expected a day as 2024-02-29; @1709208000 is an instant by the seconds since 1970";

const ORDINAL_WANTED: &str =
    "expected a day as 2024-02-29, 20240229 or, of seven digits, with a hyphen as 2024-060";

const MONTH_ALONE: &str = "a month; expected a day as 2024-02-29";

const COMMAND: &str = "expected a day as 2024-02-29 or a command; dates --help lists them";

impl Asked<'_> {
    // Takes how a read, a write or an allocation went.
    pub(crate) fn done(&mut self, went: io::Result<()>) {
        if let Err(error) = went {
            self.fail(error);
        }
    }

    // Takes how an allocation went.
    pub(crate) fn kept(&mut self, went: Result<(), AllocError>) {
        if let Err(error) = went {
            self.fail(io::Error::from(error));
        }
    }

    // Ends since something cannot be read or written, or memory is short. Whoever closed a pipe has enough of the answers.
    pub(crate) fn fail(&mut self, error: io::Error) {
        if self.is_over {
            return;
        }
        self.is_over = true;
        if error.kind() == ErrorKind::BrokenPipe {
            self.status = ANSWERED;
            return;
        }
        self.status = WRONG;
        let _ = eprintln!(self.rt; "dates: {error}");
    }

    // Says a line among the errors.
    pub(crate) fn say(&mut self, line: &Buffer) {
        let line = self.text(line);
        if !self.is_over {
            let _ = eprintln!(self.rt; "{line}");
        }
    }

    // A text that was put together; none, which ends, where memory was short.
    pub(crate) fn text<'b>(&mut self, buffer: &'b Buffer) -> &'b str {
        match buffer.text() {
            Ok(text) => text,
            Err(error) => {
                self.fail(io::Error::from(error));
                ""
            }
        }
    }

    // Ends with what is wrong.
    pub(crate) fn refuse(&mut self, said: &Buffer) {
        self.say(said);
        if !self.is_over {
            self.is_over = true;
            self.status = WRONG;
        }
    }

    // The beginning of what is said of a word.
    pub(crate) fn blame(&self, word: Word<'_>) -> Buffer {
        let mut said = Buffer::new(self.rt.alloc());
        said.put("dates: ");
        match word.place {
            0 => said.put("standard input"),
            _ => put_argument(&mut said, word.place, word.text.as_bytes()),
        }
        said
    }

    // Ends since a word is wrong.
    pub(crate) fn wrong(&mut self, word: Word<'_>, why: &str) {
        let mut said = self.blame(word);
        put!(said, ": ", why);
        self.refuse(&said);
    }

    // Ends since a word is wrong, as an error says and what was expected.
    pub(crate) fn wrong_by<T: fmt::Display>(&mut self, word: Word<'_>, error: &T, expected: &str) {
        let mut said = self.blame(word);
        said.put(": ");
        said.show(error);
        said.put(expected);
        self.refuse(&said);
    }

    // Ends since a word is none of those that it may be.
    pub(crate) fn wrong_choice(&mut self, word: Word<'_>, values: &'static [&'static str]) {
        let mut said = self.blame(word);
        said.put(": expected ");
        put_choices(&mut said, values);
        let mut near = Nearest::to(word.text);
        for value in values {
            near.offer(self.rt.alloc(), value);
        }
        self.refuse_near(said, near);
    }

    // The place of a word among those that it may be.
    pub(crate) fn choice(&mut self, word: Word<'_>, values: &'static [&'static str]) -> usize {
        let place = place_of(word.text, values);
        if place >= values.len() {
            self.wrong_choice(word, values);
        }
        place
    }

    // Ends with what is wrong, and with the name that was perhaps meant.
    fn refuse_near(&mut self, mut said: Buffer, near: Nearest<'_>) {
        match near.found() {
            Ok("") => {}
            Ok(name) => put!(said, "; did you mean ", name, "?"),
            Err(error) => self.fail(io::Error::from(error)),
        }
        self.refuse(&said);
    }

    // Ends since there is no such day, year or local time as a word names, which is an answer too.
    pub(crate) fn no_such(&mut self, word: Word<'_>, why: &str) {
        self.print(self.none);
        let mut said = Buffer::new(self.rt.alloc());
        put!(said, word.text, ": ", why);
        self.say(&said);
        self.is_over = true;
    }

    // Ends since a word is no day or time: it is not written as one, or there is none such.
    pub(crate) fn unread(&mut self, word: Word<'_>, error: Unreadable, expected: &str) {
        if error.is_other_form() {
            let hint = hint_of(word.text.as_bytes());
            return self.wrong(word, hint.unwrap_or(expected));
        }
        let mut why = Buffer::new(self.rt.alloc());
        put_unread(&mut why, error);
        let why = self.text(&why);
        if error.is_other_pattern() {
            self.wrong(word, why);
        } else {
            self.no_such(word, why);
        }
    }

    // Ends since the first word is neither a day nor a command.
    pub(crate) fn no_command(&mut self, word: Word<'_>) {
        let mut said = self.blame(word);
        put!(said, ": ", COMMAND);
        let mut near = Nearest::to(word.text);
        for command in commands() {
            near.offer(self.rt.alloc(), command.name);
        }
        near.offer(self.rt.alloc(), "tomorrow");
        near.offer(self.rt.alloc(), "yesterday");
        self.refuse_near(said, near);
    }

    // Ends since an operand or an option is missing.
    pub(crate) fn missing(&mut self, name: &str, value: &str) {
        let mut said = Buffer::new(self.rt.alloc());
        put!(said, "dates: ", name, gap_before(value), value);
        said.put(" is missing; usage: ");
        put_usage(&mut said, NAME, self.command);
        self.refuse(&said);
    }

    // Ends since the operand at that place of the command's row is missing.
    pub(crate) fn missing_operand(&mut self, place: usize) {
        let operand = self.command.operands.get(place).copied();
        self.missing(operand.unwrap_or(OPERAND).name, "");
    }

    // Ends since a word breaks the table of the command.
    pub(crate) fn refuse_word(&mut self, wrong: Wrong<'_>) {
        let word = wrong.word;
        match wrong.why {
            Why::Unknown => {
                let mut said = self.blame(word);
                said.put(": no such option");
                let (name, _) = word.text.split_once('=').unwrap_or((word.text, ""));
                let mut near = Nearest::to(name);
                for option in self.command.options {
                    near.offer(self.rt.alloc(), option.name);
                }
                self.refuse_near(said, near);
            }
            Why::Twice => self.wrong(word, "expected each option once"),
            Why::NoValue => self.wrong(word, "its value is missing"),
            Why::Flag => self.wrong(word, "expected no value"),
            Why::Choice(values) => self.wrong_choice(word, values),
        }
    }

    // Ends since the machine's own zone cannot be read: which zone `TZ` asks for, or else why its file is none.
    pub(crate) fn refuse_machine(&mut self, error: ZoneError) {
        let mut said = Buffer::new(self.rt.alloc());
        match env::var(self.rt, "TZ") {
            Ok(name) => put!(said, "dates: TZ: no zone '", name.as_str(), "'"),
            Err(VarError::NotPresent) => said.put("dates: /etc/localtime"),
            Err(_) => said.put("dates: TZ"),
        }
        if !matches!(error, ZoneError::NoSuchZone | ZoneError::NoName) {
            said.put(": ");
            said.show(&error);
        }
        self.refuse(&said);
    }

    // Ends since the arguments cannot be read: which of them is no UTF-8, where one is not.
    pub(crate) fn refuse_arguments(&mut self, error: io::Error) {
        if error.kind() == ErrorKind::InvalidData {
            if let Err(error) = self.refuse_no_text() {
                self.fail(error);
            }
        }
        self.fail(error);
    }

    // Ends since an argument is no UTF-8, if one is not.
    fn refuse_no_text(&mut self) -> io::Result<()> {
        let mut room: Vec<u8> = Vec::new(self.rt.alloc());
        room.resize(LONGEST_ARGUMENT, 0)?;
        for place in 1..usize::MAX {
            match self.rt.arg(place, room.as_mut_slice()) {
                Ok(length) if str::from_utf8(&room[..length]).is_err() => {
                    let mut said = Buffer::new(self.rt.alloc());
                    said.put("dates: ");
                    put_argument(&mut said, place, &room[..length]);
                    said.put(": expected UTF-8");
                    self.refuse(&said);
                    break;
                }
                Ok(_) | Err(FillError::TooLong) => {}
                Err(FillError::NotPresent) => break,
            }
        }
        Ok(())
    }
}

// What is said of a text that was meant for a day and is none, if its form shows how it was meant.
pub(crate) fn hint_of(text: &[u8]) -> Option<&'static str> {
    let digits = leading_digits(text);
    if digits > 8 && digits == text.len() {
        Some(SECONDS_WANTED)
    } else if is_of_seven_digits(text) {
        Some(ORDINAL_WANTED)
    } else if read_month(text).is_ok() {
        Some(MONTH_ALONE)
    } else if has_order(text) {
        Some(ORDER_WANTED)
    } else {
        None
    }
}

// The place of a name among some; how many these are where it is none of them.
pub(crate) fn place_of(name: &str, names: &[&str]) -> usize {
    let mut place: usize = 0;
    for known in names {
        if *known == name {
            break;
        }
        place = place.saturating_add(1);
    }
    place
}

// Linux takes no longer argument: 32 pages of 4,096 bytes, the last of which ends it.
const LONGEST_ARGUMENT: usize = 131_072;

// Puts an argument on one line behind a text, of its bytes: control characters, of which some break a line and some steer a terminal,
// stand there as JSON writes them by their number, no byte as `''`, and what is no UTF-8 as U+FFFD.
fn put_argument(out: &mut Buffer, place: usize, bytes: &[u8]) {
    out.put("argument ");
    out.show(&place);
    out.put(if bytes.is_empty() { ", ''" } else { ", " });
    for chunk in bytes.utf8_chunks() {
        for character in chunk.valid().chars() {
            if character.is_control() {
                let code = character as u32 as usize;
                put!(out, "\\u00", HEX[code / 16 % 16], HEX[code % 16]);
            } else {
                out.put_char(character);
            }
        }
        if !chunk.invalid().is_empty() {
            out.put_char('\u{fffd}');
        }
    }
}

// The digits of base 16.
const HEX: [&str; 16] = [
    "0", "1", "2", "3", "4", "5", "6", "7", "8", "9", "a", "b", "c", "d", "e", "f",
];

//! What a command is asked, and its answers printed.

use crate::prelude::*;
use dates_answer::{ReplyLine, TextLine};

/// The exit status of an answer.
pub(crate) const ANSWERED: u8 = 0;

/// The exit status of a question that has no answer.
pub(crate) const NONE: u8 = 1;

/// The exit status after a wrong command, or after a read or a write that failed.
pub(crate) const WRONG: u8 = 2;

/// What a command is asked, and how it ends. Once something is wrong, nothing more is printed, and each value that is read is some
/// value.
#[derive(Drop)]
pub(crate) struct Asked<'a> {
    /// What runs the program.
    pub rt: &'a HostRuntime,
    /// The command.
    pub command: &'static CommandRow,
    /// The operands and the options.
    pub words: Arguments<'a>,
    /// Whether answers are texts or JSON.
    pub form: OutputForm,
    /// The pattern by which days and date-times are printed, if one is given.
    pub format: Option<Pattern<'a>>,
    /// How days and instants are read.
    pub reading: Reading<'a>,
    /// The zone by whose clock date-times are read and moved, if one is named.
    pub zone: Option<OwnedZone>,
    /// Which parts of a line are days.
    pub within: Within,
    /// How lines are read.
    pub records: Records,
    /// The answers to a part of a line, which are not printed yet.
    pub held: Option<Buffer>,
    /// What is printed where there is no answer.
    pub none: Reply,
    /// The names of the units, with commas between them, among which an answer is shared out; none for other answers.
    pub units: &'a str,
    /// The number of the line that is answered, from 1 on; 0 where a word is.
    pub line: u64,
    /// The exit status, by what was printed last.
    pub status: u8,
    /// Whether something is wrong.
    pub is_over: bool,
}

/// No word.
pub(crate) const NO_WORD: Word<'static> = Word { place: 0, text: "" };

impl<'a> Asked<'a> {
    // A command that is asked nothing so far.
    pub(crate) fn new(rt: &'a HostRuntime, command: &'static CommandRow) -> Asked<'a> {
        let (operands, options) = (Vec::new(rt.alloc()), Vec::new(rt.alloc()));
        Asked {
            rt,
            command,
            words: Arguments { operands, options },
            form: OutputForm::Text,
            format: None,
            reading: Reading::plain(),
            zone: None,
            within: Within::Line,
            records: Records {
                most: MOST_BYTES,
                separator: None,
            },
            held: None,
            none: Reply::Nothing(Key::Date),
            units: "",
            line: 0,
            status: ANSWERED,
            is_over: false,
        }
    }

    // The operand at a place, counted from 0, which the command's row requires.
    pub(crate) fn word(&self, place: usize) -> Word<'a> {
        self.words.operand(place).unwrap_or(NO_WORD)
    }

    // The value of an option that is required or has a default.
    pub(crate) fn option(&self, name: &str) -> Word<'a> {
        self.value(name).unwrap_or(NO_WORD)
    }

    // The value of an option, or its default.
    pub(crate) fn value(&self, name: &str) -> Option<Word<'a>> {
        self.words.value(self.command.options, name)
    }

    // The operand at a place, unless it is `-` or left out, which stand for the lines of the input.
    pub(crate) fn word_or_lines(&self, place: usize) -> Option<Word<'a>> {
        match self.words.operand(place) {
            Some(word) if word.text != "-" => Some(word),
            _ => None,
        }
    }

    // Prints a reply: a day, or those of a week, by the pattern, if one is given.
    pub(crate) fn print(&mut self, reply: Reply) {
        if self.is_without_units(&reply) {
            return self.print_no_units();
        }
        let form = self.form;
        let has_format = self.format.is_some();
        let status = match reply {
            Reply::Date(date) | Reply::Names(date) if has_format => {
                return self.print_by_pattern(&Start::Day(date));
            }
            Reply::Week(first, last) if has_format => {
                return self.print_week_by_pattern(first, last);
            }
            Reply::Nothing(_) | Reply::NoParts | Reply::NoWeek(_) | Reply::NoClock => NONE,
            _ => ANSWERED,
        };
        self.print_line(&ReplyLine { form, reply }, status);
    }

    // Whether a reply says that there is no answer where one in several units is asked for.
    fn is_without_units(&self, reply: &Reply) -> bool {
        matches!(reply, Reply::Nothing(Key::Duration)) && !self.units.is_empty()
    }

    // Prints a day, a date-time or an instant.
    pub(crate) fn print_start(&mut self, start: &Start) {
        if self.format.is_some() {
            return self.print_by_pattern(start);
        }
        let reply = self.reading.reply(*start);
        self.print(reply);
    }

    // Prints a day, a date-time or an instant by the pattern, or that it lacks what the pattern asks for.
    pub(crate) fn print_by_pattern(&mut self, start: &Start) {
        let text = self.text_by_pattern(start);
        self.print_text_of(start, text);
    }

    // Prints the text of a day, a date-time or an instant by the pattern, or that it lacks what the pattern asks for.
    pub(crate) fn print_text_of(&mut self, start: &Start, text: io::Result<Option<String>>) {
        let key = start.key();
        match text {
            Ok(Some(text)) => self.print_text(key, text.as_str()),
            Ok(None) => self.say_lacking(start, Reply::Nothing(key)),
            Err(error) => self.fail(error),
        }
    }

    // Prints that there is no answer, and that a day or a date-time lacks what the pattern asks for.
    pub(crate) fn say_lacking(&mut self, start: &Start, reply: Reply) {
        let form = self.form;
        self.print_line(&ReplyLine { form, reply }, NONE);
        let mut said = Buffer::new(self.rt.alloc());
        said.show(start);
        said.put(": the pattern asks");
        self.put_lacking(&mut said, start);
        said.put(if start.is_clock() {
            " for a day, which it has not"
        } else {
            " for a time of day or an offset, which it has not"
        });
        self.say(&said);
    }

    // Prints a text, in an object under a key.
    pub(crate) fn print_text(&mut self, key: Key, text: &str) {
        let form = self.form;
        self.print_line(&TextLine { form, key, text }, ANSWERED);
    }

    // Prints a text that was put together, in an object under a key.
    pub(crate) fn print_buffer(&mut self, key: Key, text: &Buffer) {
        let text = self.text(text);
        self.print_text(key, text);
    }

    // Prints a line, which has that exit status.
    pub(crate) fn print_line<T: fmt::Display>(&mut self, line: &T, status: u8) {
        if self.is_over {
            return;
        }
        if let Some(held) = &mut self.held {
            if !held.is_empty() {
                held.put(" ");
            }
            held.show(line);
        } else if !matches!(self.within, Within::Line) {
            return self.refuse_outside();
        } else {
            let printed = println!(self.rt; "{line}");
            self.done(printed);
        }
        self.end_by(status);
    }

    // Ends since an answer is in no line, although the days are those of lines.
    fn refuse_outside(&mut self) {
        let mut said = Buffer::new(self.rt.alloc());
        said.put("dates: --within and --field answer lines, so expected no day beside them");
        self.refuse(&said);
    }

    // Sets the exit status, unless something is wrong.
    pub(crate) fn end_by(&mut self, status: u8) {
        if !self.is_over {
            self.status = status;
        }
    }

    // Prints a page.
    pub(crate) fn print_page(&mut self, page: &Buffer) {
        let page = self.text(page);
        if !self.is_over {
            self.done(print!(self.rt; "{page}"));
        }
    }

    // Prints that there is no answer where no line was printed before.
    pub(crate) fn print_none_if_alone(&mut self) {
        if self.status == NONE {
            self.print(self.none);
        }
    }

    // Prints that there is no answer, since a move by that word leads from there nowhere, and why.
    pub(crate) fn print_nowhere(&mut self, from: &Start, by: &str, why: &str) {
        self.print(self.none);
        let mut said = Buffer::new(self.rt.alloc());
        if self.line > 0 {
            said.put("line ");
            said.show(&self.line);
            said.put(": ");
        }
        said.show(from);
        put!(said, gap_before(by), by, ": ", why);
        self.say(&said);
    }
}

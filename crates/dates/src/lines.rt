//! Lines of input, of each of which only so many bytes are kept, and commands that take each of them.

use crate::fields::Marks;
use crate::prelude::*;
use std::fs::{self, File};
use std::io::{BufRead, Read};

/// So many bytes of a line are kept; no text of as many names a day or a date-time.
pub(crate) const MOST_BYTES: usize = 65_536;

/// So many are kept where lines are printed again.
pub(crate) const MOST_PRINTED: usize = 16_777_216;

/// That a line is none of those.
pub(crate) const TOO_LONG: &str = "has 16777216 bytes or more";

/// How lines are read.
#[derive(Clone, Copy)]
pub(crate) struct Records {
    /// So many bytes of each are kept.
    pub most: usize,
    /// What parts fields, if those in quotation marks may have several lines.
    pub separator: Option<u8>,
}

// Reads the next line behind others, without the `\n` at its end, its first bytes at most, the others are passed over; whether there is one.
pub(crate) fn read_line(
    reader: &mut (impl BufRead + Drop),
    line: &mut Vec<u8>,
    most: usize,
) -> io::Result<bool> {
    let count = reader.by_ref().take(most as u64).read_until(b'\n', line)?;
    if count == 0 {
        return Ok(false);
    }
    if line.as_slice().last() == Some(&b'\n') {
        line.pop();
    } else if count == most {
        reader.skip_until(b'\n')?;
    }
    Ok(true)
}

/// What is read of a source.
#[derive(Clone, Copy)]
enum Taken {
    /// So many lines, which are a record.
    Lines(u64),
    /// Lines of which the last leaves a field open.
    Open,
    /// Nothing, at its end.
    End,
}

// Reads the next line in place of another, and behind it those up to the end of a field that it leaves open.
fn read_record(
    reader: &mut (impl BufRead + Drop),
    line: &mut Vec<u8>,
    records: Records,
) -> io::Result<Taken> {
    line.clear();
    let mut marks = Marks::new();
    let mut count: u64 = 0;
    for _ in 0..u64::MAX {
        let begin = line.len();
        if begin >= records.most {
            break;
        }
        if !read_line(reader, line, records.most - begin)? {
            return Ok(if count > 0 { Taken::Open } else { Taken::End });
        }
        count = count.saturating_add(1);
        let goes_on = match records.separator {
            Some(separator) => {
                marks.is_open_behind(line.as_slice().get(begin..).unwrap_or(b""), separator)
            }
            None => false,
        };
        if !goes_on {
            break;
        }
        line.push(b'\n')?;
    }
    Ok(Taken::Lines(count))
}

/// A command that takes each line of a text.
pub(crate) trait EachLine {
    /// Takes a line, whose number is that of `asked`.
    fn take_line(&mut self, asked: &mut Asked<'_>, line: &[u8]);
}

// Takes each line of the standard input.
pub(crate) fn take_input(asked: &mut Asked<'_>, command: &mut impl EachLine) {
    let rt = asked.rt;
    take_lines(asked, INPUT, rt.reader(), command);
}

// Takes each line of the file that the first operand names; of the standard input without one.
pub(crate) fn take_file(asked: &mut Asked<'_>, command: &mut impl EachLine) {
    match asked.word_or_lines(0) {
        Some(word) => {
            if let Some(file) = asked.open_file(word) {
                take_lines(asked, word, file, command);
            }
        }
        None => take_input(asked, command),
    }
}

// Takes each line of a source. The exit status is the greatest.
fn take_lines(
    asked: &mut Asked<'_>,
    source: Word<'_>,
    reader: impl Read + Drop,
    command: &mut impl EachLine,
) {
    if asked.is_over {
        return;
    }
    let mut status = ANSWERED;
    let mut line = Vec::new(asked.rt.alloc());
    let mut reader = match BufReader::new(asked.rt.alloc(), reader) {
        Ok(reader) => reader,
        Err(error) => return asked.fail(error),
    };
    let mut number: u64 = 1;
    for _ in 0..u64::MAX {
        let count = match read_record(&mut reader, &mut line, asked.records) {
            Ok(taken) => asked.lines_taken(taken, number),
            Err(error) => {
                asked.wrong_by(source, &error, "");
                0
            }
        };
        if count == 0 {
            break;
        }
        number = number.saturating_add(count);
        asked.end_by(ANSWERED);
        asked.take_parts(command, line.as_slice());
        status = status.max(asked.status);
        if asked.is_over {
            break;
        }
    }
    asked.end_by(status);
}

impl Asked<'_> {
    // How many lines are answered together, of which that is the number of the first; 0 at the end, and where a field is left open.
    fn lines_taken(&mut self, taken: Taken, number: u64) -> u64 {
        match taken {
            Taken::Lines(count) => {
                self.line = number;
                count
            }
            Taken::Open => {
                self.line = number;
                self.refuse_line("has a quotation mark that is not closed");
                0
            }
            Taken::End => 0,
        }
    }

    // Ends since the line that is answered is none that can be.
    pub(crate) fn refuse_line(&mut self, why: &str) {
        let mut said = Buffer::new(self.rt.alloc());
        said.put("dates: line ");
        said.show(&self.line);
        put!(said, " ", why);
        self.refuse(&said);
    }

    // The file that a word names.
    pub(crate) fn open_file(&mut self, word: Word<'_>) -> Option<File> {
        if word.text.is_empty() {
            self.wrong(word, "expected the name of a file");
            return None;
        }
        match fs::open(self.rt, word.text) {
            Ok(file) => Some(file),
            Err(error) => {
                self.wrong_by(word, &error, "");
                None
            }
        }
    }
}

/// Why a line names no day.
#[derive(Clone, Copy)]
pub(crate) enum Reason {
    /// There is no such day.
    Day(Unreadable),
    /// It is not written as one.
    Form,
    /// This.
    Other(&'static str),
}

// Puts why a line names no day behind a text.
pub(crate) fn put_reason(out: &mut Buffer, reason: Reason) {
    match reason {
        Reason::Day(error) => put_unread(out, error),
        Reason::Form => out.put("not written as 2024-02-29, 2024-060 or 2024-W09-4"),
        Reason::Other(why) => out.put(why),
    }
}

impl Reading<'_> {
    // The day that a line names, or why it names none.
    pub(crate) fn day_of_line(&self, line: &[u8]) -> Result<NaiveDate, Reason> {
        if line.len() >= MOST_BYTES {
            return Err(Reason::Other("has 65536 bytes or more"));
        }
        match self.read(line) {
            Ok(start) if start.is_clock() => Err(Reason::Form),
            Ok(start) if start.is_day() => Ok(start.local().date()),
            Ok(_) => Err(Reason::Other("a date-time, and no day")),
            Err(Unreadable::Form(error))
                if error.cause == ReadCause::NotThisForm || parted(line).is_some() => {
                Err(beside_day(line))
            }
            Err(error) => Err(Reason::Day(error)),
        }
    }
}

// What a line has beside a day, where that is all that keeps it from being one.
fn beside_day(text: &[u8]) -> Reason {
    let line = text.strip_prefix(b"\xef\xbb\xbf").unwrap_or(text);
    Reason::Other(if text.is_empty() {
        "nothing stands there"
    } else if read_month(text).is_ok() {
        "a month, and no day"
    } else if is_of_seven_digits(text) {
        "of seven digits: 20240229 has eight, and 2024-060 a hyphen"
    } else if read_day(line.trim_ascii()).is_err() {
        return Reason::Form;
    } else if line.len() < text.len() {
        "begins with a byte order mark"
    } else {
        "begins or ends with white space"
    })
}

//! The lines of a file, or of standard input, that are no days.

use crate::prelude::*;
use dates_answer::WrongLine;

pub(crate) fn command() -> &'static CommandRow {
    row!(
        "check", &[operand!("FILE"; required: false)], &[PARSE, ORDER, JSON, HELP];
        help: "print the lines that are no days, and why",
        more: "It reads standard input where FILE is - or left out. It prints nothing where all\n\
            lines are days.",
        example: "$ printf 'rent,2023-01-31\\nfood,2023-02-29\\n' | cut -d, -f2 | dates check\n\
            2: byte 8: the month has 28 days\n\
            status 1"
    )
}

// Lines of which those that are no days are printed.
#[derive(Clone, Copy)]
struct CheckedLines {}

// Each line of the file, or of the input, that is no day.
pub(crate) fn answer(asked: &mut Asked<'_>) {
    take_file(asked, &mut CheckedLines {});
}

impl EachLine for CheckedLines {
    // Prints the line's number, and why it is no day.
    fn take_line(&mut self, asked: &mut Asked<'_>, line: &[u8]) {
        if let Err(why) = asked.reading.day_of_line(line) {
            let printed = print_wrong(asked, line, why);
            asked.done(printed);
        }
    }
}

// Prints that a line is no day.
fn print_wrong(asked: &mut Asked<'_>, line: &[u8], why: Reason) -> io::Result<()> {
    let (form, number) = (asked.form, asked.line);
    let text = String::from_utf8_lossy(asked.rt.alloc(), line)?;
    let mut reason = Buffer::new(asked.rt.alloc());
    put_reason(&mut reason, why);
    let (text, reason) = (text.as_str(), reason.text()?);
    println!(asked.rt;
        "{}",
        WrongLine {
            form,
            number,
            text,
            reason
        }
    )?;
    asked.end_by(NONE);
    Ok(())
}

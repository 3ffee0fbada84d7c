//! Days and date-times, printed by a pattern, and read by one.

use crate::prelude::*;

const PATTERN: Operand = operand!("PATTERN");

/// What a pattern is, as helps say it.
const PATTERNS: &str =
    "A PATTERN is written as for strftime: %Y is the year, %m the month, %d the day,\n\
    %H the hour, %M the minute, %S the second, %z the offset, %F is %Y-%m-%d, %T is\n\
    %H:%M:%S, %A and %a name the weekday, %B and %b the month, %j is the day of the\n\
    year, %G-W%V-%u the week date, %s the seconds since 1970. %-d has no padding.\n\
    With - in place of the last argument, or without it, it answers each line of\n\
    standard input. Where nothing is piped in, format answers for now.";

pub(crate) fn format() -> &'static CommandRow {
    row!(
        "format", &[PATTERN, DAY_OR_LINES], &[ZONED, NOW, UNIX, PARSE, ORDER, WITHIN, FIELD, SEPARATOR, JSON, HELP];
        help: "print a day or a date-time by a pattern",
        more: PATTERNS,
        example: "$ dates format '%A, %-d %B %Y' 2024-02-29\nThursday, 29 February 2024"
    )
}

pub(crate) fn parse() -> &'static CommandRow {
    row!(
        "parse", &[PATTERN, operand!("TEXT"; required: false)], &[FORMAT, LONG, JSON, HELP];
        help: "read a day or a date-time by a pattern",
        more: PATTERNS,
        example: "$ dates parse '%d.%m.%Y' 29.02.2024\n2024-02-29"
    )
}

// The days or the date-times of lines, read and printed.
#[derive(Clone, Copy)]
struct Lines {}

// The day or the date-time, or that of each line, read and printed.
pub(crate) fn answer(asked: &mut Asked<'_>) {
    asked.take_zone();
    asked.reading.takes_clock = true;
    match asked.start_or_now(1) {
        Some(start) => asked.print_start(&start),
        None => {
            asked.take_clocks(asked.writes_clock());
            take_input(asked, &mut Lines {})
        }
    }
}

impl Asked<'_> {
    // Whether the pattern asks for a time of day and no day.
    fn writes_clock(&self) -> bool {
        match &self.format {
            Some(pattern) => pattern.names_time() && !pattern.names_date(),
            None => true,
        }
    }
}

impl EachLine for Lines {
    fn take_line(&mut self, asked: &mut Asked<'_>, line: &[u8]) {
        match asked.read(line) {
            Some(start) => asked.print_start(&start),
            None => {
                let none = asked.reading.none_of_text(line);
                asked.print(none);
            }
        }
    }
}

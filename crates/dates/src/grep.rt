//! Lines by the day that they have: those that are looked for, and all in order.

use crate::prelude::*;
use chrono_datetime::{Timelike, WeekdaySet};
use chrono_text::read_year;
use std::cmp::Ordering;
use std::io::Write;

const BEFORE: Opt =
    option!("--before", "TIME"; "those before a day, a date-time or a time as 12:00");

const AFTER: Opt = option!("--after", "TIME"; "those after one");

const FROM: Opt = option!("--from", "TIME"; "those from one on");

const UNTIL: Opt = option!("--until", "TIME"; "those up to one, with it");

const NOT: Opt = flag!("--not", "the other lines, as those of no day");

const ONLY: Opt = flag!("--only", "print their days alone");

const REVERSE: Opt = flag!("--reverse", "the latest first");

const IN: Opt = option!("--in", "MONTH"; "those of a month as 2024-02, or of a year as 2024");

const ON: Opt = option!("--on", "DAYS"; "those on weekdays, as sat or mon-fri");

pub(crate) fn grep() -> &'static CommandRow {
    row!(
        "grep", &[operand!("FILE"; required: false)], &[BEFORE, AFTER, FROM, UNTIL, IN, ON, NOT, ONLY, FIELD, SEPARATOR, NOW, PARSE, ORDER, HELP];
        help: "print the lines whose day is looked for",
        more: LINES,
        example: "$ printf '2024-02-28 rent\\n2024-03-02 food\\n' | dates grep --on sat,sun\n2024-03-02 food"
    )
}

pub(crate) fn sort() -> &'static CommandRow {
    row!(
        SORT, &[operand!("FILE"; required: false)], &[REVERSE, FIELD, SEPARATOR, NOW, PARSE, ORDER, HELP];
        help: "print lines in the order of their days",
        more: LINES,
        example: "$ printf 'food 2024-03-02\\nrent 2024-02-28\\n' | dates sort\nrent 2024-02-28\nfood 2024-03-02"
    )
}

const SORT: &str = "sort";

const LINES: &str =
    "A line's day is the line, or else its first word that is a day with hyphens or a\n\
    date-time; blanks, commas, semicolons, brackets, =, | and quotation marks part\n\
    words. With --field it is that field.\n\
    grep looks for the days that all options name; its status is 1 where there is\n\
    none. A time of day alone, as 12:00, is looked for on all days.\n\
    sort keeps lines of one day as they stand. Those of no day come last, and its\n\
    status is 1 where there are any.\n\
    They read standard input where FILE is - or left out.";

// Which lines are printed.
#[derive(Drop)]
struct Lines {
    // The numbers of the first and the last day that are looked for.
    first: i32,
    last: i32,
    // Behind, from, up to and in front of what they lie.
    after: Option<Start>,
    from: Option<Start>,
    until: Option<Start>,
    before: Option<Start>,
    on: Option<WeekdaySet>,
    // Whether the other lines are printed, and whether days alone.
    is_not: bool,
    is_only: bool,
    is_sorted: bool,
    is_reversed: bool,
    // Which part of a line is its day.
    within: Within,
    // Whether a line is found.
    found: bool,
    // The lines that are sorted, one behind another; and of each its day, its second and its nanosecond, and where it begins and ends.
    text: Vec<u8>,
    places: Vec<(i64, u32, usize, usize)>,
}

// The lines that are looked for, or all in order.
pub(crate) fn answer(asked: &mut Asked<'_>) {
    let mut lines = Lines {
        first: i32::MIN,
        last: i32::MAX,
        after: asked.start_if(AFTER.name),
        from: asked.start_if(FROM.name),
        until: asked.start_if(UNTIL.name),
        before: asked.start_if(BEFORE.name),
        on: match asked.value("--on") {
            Some(word) => Some(asked.weekdays(word)),
            None => None,
        },
        is_not: asked.words.has(NOT.name),
        is_only: asked.words.has(ONLY.name),
        is_sorted: asked.command.name == SORT,
        is_reversed: asked.words.has(REVERSE.name),
        within: asked.within,
        found: false,
        text: Vec::new(asked.rt.alloc()),
        places: Vec::new(asked.rt.alloc()),
    };
    asked.reading.takes_clock = lines.names_clock();
    if let Some(word) = asked.value(IN.name) {
        let (first, last) = asked.days_in(word);
        lines.first = first.num_days_from_ce();
        lines.last = last.num_days_from_ce();
    }
    asked.within = Within::Line;
    asked.records.most = MOST_PRINTED;
    take_file(asked, &mut lines);
    if !lines.is_sorted {
        asked.end_by(if lines.found { ANSWERED } else { NONE });
    } else if !asked.is_over {
        let printed = lines.print(asked.rt);
        asked.done(printed);
    }
}

impl Asked<'_> {
    // The day, the date-time or the time of day that the option of a name has, if it is given.
    fn start_if(&mut self, name: &str) -> Option<Start> {
        let word = self.value(name)?;
        self.reading.takes_clock = true;
        let text = word.text.as_bytes();
        match read_start(text) {
            Ok(start) if self.reading.read(text).is_err() => Some(start),
            _ => Some(self.start(word)),
        }
    }

    // The first and the last day of the month or the year that a word names.
    fn days_in(&mut self, word: Word<'_>) -> (NaiveDate, NaiveDate) {
        let text = word.text.as_bytes();
        if read_year(text).is_some() {
            let first = self.start_of_year(word);
            let last = first.moved_by_months(11).unwrap_or(first);
            return (first, last.last_day_of_month());
        }
        match read_month(text) {
            Ok(first) => (first, first.last_day_of_month()),
            Err(error) => {
                let expected = "expected a month as 2024-02 or a year as 2024";
                self.unread(word, Unreadable::Form(error), expected);
                (NaiveDate::MIN, NaiveDate::MIN)
            }
        }
    }
}

impl EachLine for Lines {
    fn take_line(&mut self, asked: &mut Asked<'_>, line: &[u8]) {
        if line.len() >= asked.records.most {
            return asked.refuse_line(TOO_LONG);
        }
        let text = text_in(&asked.reading, self.within, line).unwrap_or(b"");
        let start = asked.reading.read(text).ok();
        let taken = if self.is_sorted {
            self.keep(line, start)
        } else {
            self.find(asked.rt, if self.is_only { text } else { line }, start)
        };
        asked.done(taken);
        if self.is_sorted && start.is_none() {
            asked.end_by(NONE);
        }
    }
}

impl Lines {
    // Whether a time of day alone is looked for.
    fn names_clock(&self) -> bool {
        is_clock(&self.after)
            || is_clock(&self.from)
            || is_clock(&self.until)
            || is_clock(&self.before)
    }

    // Prints a line, or its day, if that is looked for.
    fn find(&mut self, rt: &HostRuntime, line: &[u8], start: Option<Start>) -> io::Result<()> {
        let is_found = match &start {
            Some(start) => self.looks_for(start),
            None => false,
        };
        if is_found == self.is_not || self.is_only && start.is_none() {
            return Ok(());
        }
        self.found = true;
        self.put(line)?;
        self.print(rt)?;
        self.text.clear();
        Ok(())
    }

    // Whether a day, a date-time or a time of day is looked for.
    fn looks_for(&self, start: &Start) -> bool {
        lies(start, &self.after, Ordering::Greater, false)
            && lies(start, &self.from, Ordering::Greater, true)
            && lies(start, &self.until, Ordering::Less, true)
            && lies(start, &self.before, Ordering::Less, false)
            && self.is_of_days(start)
    }

    // Whether a day is on the weekdays, and in the month, that are looked for. A time of day alone is in none.
    fn is_of_days(&self, start: &Start) -> bool {
        if start.is_clock() {
            return self.on.is_none() && self.last == i32::MAX;
        }
        let date = start.local().date();
        let day = date.num_days_from_ce();
        let is_on = match self.on {
            Some(days) => days.contains(date.weekday()),
            None => true,
        };
        is_on && self.first <= day && day <= self.last
    }

    // Puts a line behind the text.
    fn put(&mut self, line: &[u8]) -> io::Result<()> {
        self.text.extend_from_slice(line)?;
        Ok(self.text.push(b'\n')?)
    }

    // Keeps a line with the second and the nanosecond of its day.
    fn keep(&mut self, line: &[u8], start: Option<Start>) -> io::Result<()> {
        let begin = self.text.len();
        self.put(line)?;
        let (second, nano) = match &start {
            Some(start) if self.is_reversed => back(second_of(start.placed())),
            Some(start) => second_of(start.placed()),
            None => (i64::MAX, 0),
        };
        Ok(self.places.push((second, nano, begin, self.text.len()))?)
    }

    // Prints the text, or its lines in order.
    fn print(&mut self, rt: &HostRuntime) -> io::Result<()> {
        if !self.is_sorted {
            return io::writer(rt).write_all(self.text.as_slice());
        }
        self.places.as_mut_slice().sort_unstable();
        for (_, _, begin, end) in self.places.as_slice() {
            if let Some(line) = self.text.as_slice().get(*begin..*end) {
                io::writer(rt).write_all(line)?;
            }
        }
        Ok(())
    }
}

// Whether a bound is a time of day alone.
fn is_clock(by: &Option<Start>) -> bool {
    matches!(by, Some(Start::Clock(_)))
}

// Whether a time lies on a side of another, or is the same, if there is another. Of a day and of a time of day only that is compared.
fn lies(start: &Start, by: &Option<Start>, side: Ordering, or_same: bool) -> bool {
    let Some(by) = by else {
        return true;
    };
    let found = match *by {
        Start::Day(date) if !start.is_clock() => start.local().date().cmp(&date),
        Start::Clock(time) if !start.is_day() => start.local().time().cmp(&time),
        _ if start.is_like(by) => start.placed().cmp(&by.placed()),
        _ => return false,
    };
    found == side || or_same && found == Ordering::Equal
}

// A second and its nanosecond so that the later comes first.
fn back((second, nano): (i64, u32)) -> (i64, u32) {
    (0_i64.saturating_sub(second), u32::MAX.saturating_sub(nano))
}

// The second of a date-time from the first day of year 1 on, and its nanosecond.
fn second_of(moment: NaiveDateTime) -> (i64, u32) {
    let days = i64::from(moment.date().num_days_from_ce());
    let second = i64::from(moment.time().num_seconds_from_midnight());
    (days * 86_400 + second, moment.time().nanosecond())
}

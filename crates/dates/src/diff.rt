//! How far it is from one day to another.

use crate::apart::are_units;
use crate::day::is_alone;
use crate::prelude::*;
use chrono_business::{
    Fraction, actual_360, actual_365_fixed, actual_actual_isda, thirty_360, thirty_e_360,
};
use dates_answer::{distance, key_name, parts_between};

// The names of units.
const UNITS: &[&str] = &[
    "d", "w", "m", "mo", "y", "b", "ymd", "h", "min", "s", "act/act", "act/360", "act/365",
    "30/360", "30e/360",
];

// What the names stand for, in their order.
const MEASURES: &[Measure] = &[
    Measure::Whole(Unit::Days),
    Measure::Whole(Unit::Weeks),
    Measure::Whole(Unit::Months),
    Measure::Whole(Unit::Months),
    Measure::Whole(Unit::Years),
    Measure::OpenDays,
    Measure::Parts,
    Measure::Time(Key::Hours, 3_600),
    Measure::Time(Key::Minutes, 60),
    Measure::Time(Key::Seconds, 1),
    Measure::Years(DayCount::ActualActual),
    Measure::Years(DayCount::Actual360),
    Measure::Years(DayCount::Actual365),
    Measure::Years(DayCount::Thirty360),
    Measure::Years(DayCount::ThirtyE360),
];

const UNIT: Operand = operand!("UNIT"; keyword: "in", values: UNITS, required: false);

pub(crate) fn command() -> &'static CommandRow {
    row!(
        "diff", &[DAY, DAY_OR_LINES, UNIT],
        &[WEEKEND, CALENDAR, HOLIDAYS, ZONED, NOW, UNIX, PARSE, ORDER, JSON, HELP];
        help: "print the days or whole units between two days",
        more: "A UNIT is d, w, m or mo, y, b or ymd: days, weeks, months, years, open days, or\n\
            years, months and days; or h, min or s: hours, minutes or seconds. In full\n\
            weeks is one too. Several share out what lies between, the greatest first, as\n\
            w,d or d,h,min.\n\
            act/act, act/360, act/365, 30/360 and 30e/360 are day counts (ISDA 2006, 4.16).\n\
            It goes back where the second day is the earlier.\n\
            The unit ymd writes spans by which add leads from the first day to the second:\n\
            whole months, of which twelve are a year, and days.\n\
            The unit b counts the earlier day, where it is open, and not the later; it alone\n\
            takes the options of open days.\n\
            Of two date-times in place of the days it is the time from one to the other, as\n\
            PT5400S. Both have an offset as +01:00, or none has. Of two times of day as\n\
            10:30 it is that too.\n\
            With - in place of a day, or no second day, each line of standard input is\n\
            taken for it, or today where nothing is piped in.",
        example: "$ dates diff 2024-02-29 2024-12-24 in w\n42"
    )
}

// In what it is asked how far it is.
#[derive(Clone, Copy)]
pub(crate) enum Measure {
    // In days; of date-times the duration.
    Plain,
    // In whole units.
    Whole(Unit),
    // In whole units of so many seconds, under a key.
    Time(Key, i64),
    // In open days.
    OpenDays,
    // In years, months and days.
    Parts,
    // In several units, each of which counts what those before it leave.
    Units,
    // As a fraction of a year, by a day count.
    Years(DayCount),
}

// A day count.
#[derive(Clone, Copy)]
pub(crate) enum DayCount {
    ActualActual,
    Actual360,
    Actual365,
    Thirty360,
    ThirtyE360,
}

impl DayCount {
    // The fraction of a year from one day to another.
    fn fraction(self, from: NaiveDate, to: NaiveDate) -> Fraction {
        match self {
            DayCount::ActualActual => actual_actual_isda(from, to),
            DayCount::Actual360 => actual_360(from, to),
            DayCount::Actual365 => actual_365_fixed(from, to),
            DayCount::Thirty360 => thirty_360(from, to),
            DayCount::ThirtyE360 => thirty_e_360(from, to),
        }
    }
}

// The options that close days.
const CLOSING: &[&str] = &["--weekend", "--calendar", "--holidays"];

// From where to where, where `None` is each line of the input; in what; and by which holidays.
#[derive(Drop)]
struct Diff {
    from: Option<Start>,
    to: Option<Start>,
    measure: Measure,
    holidays: Holidays,
}

// How far it is from one day to another, or to that of each line.
pub(crate) fn answer(asked: &mut Asked<'_>) {
    asked.take_zone();
    let in_at = place_of_in(&asked.words);
    let measure = asked.measure(in_at);
    asked.reading.takes_clock = true;
    let has_time = in_at > 0 && asked.word(0).text.as_bytes().contains(&b'T');
    if matches!(measure, Measure::Units) {
        asked.units = asked.word(in_at.saturating_add(1)).text;
    }
    asked.none = none_of(measure, has_time);
    let (from, to) = asked.ends(in_at);
    let is_timed = match from.or(to) {
        Some(start) => !start.is_day(),
        None => false,
    };
    asked.none = none_of(measure, is_timed);
    let is_of_days = matches!(
        measure,
        Measure::OpenDays | Measure::Parts | Measure::Years(_)
    );
    if is_timed && is_of_days {
        let unit = asked.word(in_at.saturating_add(1));
        asked.wrong(unit, "expected a unit of date-times, as d, h, min or s");
    }
    if !matches!(measure, Measure::OpenDays) {
        asked.refuse_closing();
    }
    let holidays = asked.holidays();
    let mut diff = Diff {
        from,
        to,
        measure,
        holidays,
    };
    match (from, to) {
        (Some(from), Some(to)) => diff.answer_ends(asked, from, to),
        _ => take_input(asked, &mut diff),
    }
}

// The place of the operand `in`; how many operands there are where it is left out.
fn place_of_in(words: &Arguments<'_>) -> usize {
    let mut place: usize = 0;
    for word in words.operands.as_slice() {
        if word.text == "in" {
            break;
        }
        place = place.saturating_add(1);
    }
    place
}

// The measure of that name, which may be in full.
pub(crate) fn measure_named(name: &str) -> Option<Measure> {
    let short = match name {
        "day" | "days" => "d",
        "week" | "weeks" => "w",
        "month" | "months" => "mo",
        "year" | "years" => "y",
        "hour" | "hours" => "h",
        "minute" | "minutes" => "min",
        "second" | "seconds" => "s",
        _ => name,
    };
    MEASURES.get(place_of(short, UNITS)).copied()
}

impl Asked<'_> {
    // Ends where an option closes days.
    fn refuse_closing(&mut self) {
        for place in 0..self.words.options.len() {
            if let Some(given) = self.words.options.get(place).copied() {
                if place_of(given.option.name, CLOSING) < CLOSING.len() {
                    self.wrong(given.value, "expected no such option without 'in b'");
                }
            }
        }
    }

    // The measure that the operands from `in` on name, of which that is the place.
    fn measure(&mut self, in_at: usize) -> Measure {
        let unit = self.words.operand(in_at.saturating_add(1));
        let more = self.words.operand(in_at.saturating_add(2));
        let name = unit.unwrap_or(NO_WORD).text;
        let measure = match measure_named(name) {
            None if are_units(name) => Some(Measure::Units),
            measure => measure,
        };
        match (unit, more) {
            (_, Some(other)) => self.wrong(other, NO_MORE),
            (Some(unit), None) if measure.is_none() => self.wrong_choice(unit, UNITS),
            (None, None) if self.words.operand(in_at).is_some() => self.missing_operand(2),
            _ => {}
        }
        measure.unwrap_or(Measure::Plain)
    }

    // Reads two days or two date-times in front of `in`, of which `-` or none at the end stands for the lines of the input.
    fn ends(&mut self, in_at: usize) -> (Option<Start>, Option<Start>) {
        let (first, second) = (self.word(0), self.word(1));
        match in_at {
            0 => self.missing_operand(0),
            1 if first.text == "-" => self.missing_operand(1),
            2 if first.text == "-" => return (None, Some(self.start(second))),
            1 | 2 => {
                let from = self.start(first);
                let mut to = None;
                if in_at == 2 && second.text != "-" {
                    to = Some(like(self, &from, second));
                } else if in_at == 1 && from.is_day() && is_alone(self.rt) {
                    to = Some(Start::Day(self.day_shown()));
                }
                return (Some(from), to);
            }
            _ => self.third_word(first, second),
        }
        (None, None)
    }

    // Ends where a third word stands in front of `in`.
    fn third_word(&mut self, first: Word<'_>, second: Word<'_>) {
        let third = self.word(2);
        let from = self.start(first);
        if !begins_as_day(second) {
            self.wrong(second, IN_EXPECTED);
        }
        self.wrong(third, if from.is_day() { IN_EXPECTED } else { NO_MORE });
    }
}

const IN_EXPECTED: &str = "expected in and a unit, as 'in w'";

// The day, the date-time or the instant that a word names, of the kind of the first.
pub(crate) fn like(asked: &mut Asked<'_>, first: &Start, word: Word<'_>) -> Start {
    let expected = match first {
        Start::Clock(_) => "expected a time of day as 10:30",
        Start::Day(_) => DAY_EXPECTED,
        Start::DateTime(_) => MOMENT_EXPECTED,
        Start::Stamp(_) => "expected a date-time with its offset as 2024-02-29T04:30+01:00",
    };
    let second = asked.start_as(word, expected);
    let second = asked.once(word, second);
    if first.key() != second.key() {
        let why = "expected two days, two date-times or two times of day";
        asked.wrong(word, why);
    }
    if first.has_offset() != second.has_offset() {
        asked.wrong(word, ONE_OFFSET);
    }
    second
}

// That there is no answer in such a measure, of days or of date-times.
fn none_of(measure: Measure, is_timed: bool) -> Reply {
    Reply::Nothing(match measure {
        Measure::Parts => return Reply::NoParts,
        Measure::Plain if !is_timed => Key::Days,
        Measure::Plain | Measure::Units => Key::Duration,
        Measure::Whole(unit) => key_of(unit),
        Measure::Time(key, _) => key,
        Measure::OpenDays => Key::OpenDays,
        Measure::Years(_) => Key::Years,
    })
}

// The key of a number of units, as objects have it.
pub(crate) fn key_text(measure: Measure) -> &'static str {
    match measure {
        Measure::Whole(unit) => key_name(key_of(unit)),
        Measure::Time(key, _) => key_name(key),
        _ => "",
    }
}

// The key of a number of units.
fn key_of(unit: Unit) -> Key {
    match unit {
        Unit::Days => Key::Days,
        Unit::Weeks => Key::Weeks,
        Unit::Months => Key::Months,
        Unit::Years => Key::Years,
    }
}

impl Diff {
    // How far it is from one day or date-time to another of its kind.
    fn answer_ends(&mut self, asked: &mut Asked<'_>, from: Start, to: Start) {
        let apart = from.until(&to);
        let (first, last) = (from.local().date(), to.local().date());
        let reply = match self.measure {
            _ if !from.is_like(&to) => asked.none,
            Measure::Time(key, seconds) => {
                Reply::Number(key, apart.num_seconds().checked_div(seconds).unwrap_or(0))
            }
            Measure::Units => return self.answer_units(asked, from, to),
            Measure::Whole(unit) if !from.is_day() => match asked.whole_units(&from, &to, unit) {
                Some((count, _)) => Reply::Number(key_of(unit), count),
                None => asked.none,
            },
            _ if !from.is_day() => Reply::Duration(apart),
            Measure::Plain => Reply::Number(Key::Days, distance(first, last, Unit::Days)),
            Measure::Whole(unit) => Reply::Number(key_of(unit), distance(first, last, unit)),
            Measure::Parts => Reply::Parts(parts_between(first, last)),
            Measure::Years(basis) => return asked.print_fraction(basis.fraction(first, last)),
            Measure::OpenDays if !self.holidays.knows(first.min(last)) => {
                return asked.print_nowhere(&Start::Day(first.min(last)), "", UNKNOWN);
            }
            Measure::OpenDays => match self.holidays.open_days(asked.rt.alloc(), first, last) {
                Ok(count) => Reply::Number(Key::OpenDays, count),
                Err(error) => return asked.fail(error),
            },
        };
        asked.print(reply);
    }

    // How far it is in several units.
    fn answer_units(&self, asked: &mut Asked<'_>, from: Start, to: Start) {
        let mut text = Buffer::new(asked.rt.alloc());
        match asked.put_apart(&mut text, &from.timed(), &to.timed()) {
            Some(()) => asked.print_units(&text, ANSWERED),
            None => asked.print(asked.none),
        }
    }
}

impl Asked<'_> {
    // Prints a fraction of a year.
    fn print_fraction(&mut self, fraction: Fraction) {
        let mut text = Buffer::new(self.rt.alloc());
        text.show(&fraction.numerator);
        text.put("/");
        text.show(&fraction.denominator);
        self.print_buffer(Key::Years, &text);
    }
}

impl EachLine for Diff {
    fn take_line(&mut self, asked: &mut Asked<'_>, line: &[u8]) {
        match (self.from, self.to, asked.read(line)) {
            (Some(from), _, Some(to)) | (None, Some(to), Some(from)) => {
                self.answer_ends(asked, from, to)
            }
            _ => asked.print(asked.none),
        }
    }
}

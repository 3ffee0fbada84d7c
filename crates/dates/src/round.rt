//! The next day of a weekday, and the next or the last multiple of a part of the day.

use crate::each::{Asks, answer_each};
use crate::prelude::*;
use chrono_datetime::Timelike;

pub(crate) fn command() -> &'static CommandRow {
    row!(
        "round", &[DAY, operand!("TO"; values: WEEKDAYS)],
        &[ZONED, NOW, UNIX, PARSE, ORDER, FORMAT, LONG, WITHIN, FIELD, SEPARATOR, JSON, HELP];
        help: "print the next such weekday, or part of the day",
        more: "TO is a weekday: the first from the day on, which may be the day itself. Or it\n\
            is a part of the day, as 15min, 1h or 30s, that divides it: a date-time, or a\n\
            time of day as 10:30, goes on to its next multiple since midnight, or back to\n\
            the last by -15min. With - in place of the day it answers each line of standard\n\
            input. The next 15th, or 1 September, is a schedule's: see next.",
        example: "$ dates round 2024-02-29 friday\n2024-03-01"
    )
}

// The next day of the weekday, or the next multiple of the part of the day; or that of each line.
pub(crate) fn answer(asked: &mut Asked<'_>) {
    asked.take_zone();
    let word = asked.word(1);
    if let Some(step) = part_of_day(word.text.as_bytes()) {
        return answer_part(asked, step);
    }
    if read_move(word.text.as_bytes()).is_some() {
        asked.wrong(word, TO_EXPECTED);
    }
    let weekday = asked.weekday(word, TO_EXPECTED);
    let date = asked.day_if(asked.word_or_lines(0));
    answer_each(asked, date, Asks::Round(weekday));
}

const TO_EXPECTED: &str = "expected a weekday as mon, or a part that divides the day, as 15min";

// The seconds of a part of the day, below 0 to go back.
fn part_of_day(text: &[u8]) -> Option<i64> {
    match read_move(text)? {
        Move::Time(time) => {
            let seconds = time?.num_seconds();
            let is_whole = time? == TimeDelta::try_seconds(seconds)?;
            let rest = 86_400_i64.checked_rem(seconds)?;
            if is_whole && rest == 0 {
                Some(seconds)
            } else {
                None
            }
        }
        _ => None,
    }
}

// A part of the day in seconds, below 0 to go back.
#[derive(Clone, Copy)]
struct PartOfDay {
    seconds: i64,
}

// The next multiple of the part of the day, or that of each line.
fn answer_part(asked: &mut Asked<'_>, seconds: i64) {
    asked.reading.takes_clock = true;
    let mut part = PartOfDay { seconds };
    match asked.word_or_lines(0) {
        Some(word) => {
            let start = asked.start(word);
            if start.is_day() {
                asked.wrong(word, MOMENT_EXPECTED);
            }
            part.answer(asked, &start);
        }
        None => take_input(asked, &mut part),
    }
}

impl PartOfDay {
    // The multiple that is next to a time.
    fn answer(&self, asked: &mut Asked<'_>, start: &Start) {
        match self.multiple(asked, start) {
            Some(reached) => asked.print_start(&reached),
            None => {
                asked.none = asked.reading.none_of(start);
                asked.print_nowhere(start, "", PAST)
            }
        }
    }

    // The multiple that is next to a time, in local time.
    fn multiple(&self, asked: &Asked<'_>, start: &Start) -> Option<Start> {
        let local = start.local();
        let second = i64::from(local.time().num_seconds_from_midnight());
        let size = self.seconds.checked_abs()?;
        let over = second.checked_rem(size)?;
        let is_multiple = over == 0 && local.time().nanosecond() == 0;
        let on = if is_multiple || self.seconds < 0 {
            0
        } else {
            size
        };
        let midnight = NaiveDateTime::new(local.date(), NaiveTime::MIN);
        let by = TimeDelta::try_seconds(second.checked_sub(over)?.checked_add(on)?)?;
        let moment = midnight.checked_add_signed(by)?;
        match start {
            Start::Clock(_) => Some(Start::Clock(moment.time())),
            Start::Stamp(_) => asked.later(*start, Some(moment.signed_duration_since(local))),
            _ => start.at(moment),
        }
    }
}

impl EachLine for PartOfDay {
    fn take_line(&mut self, asked: &mut Asked<'_>, line: &[u8]) {
        match asked.read(line) {
            Some(start) if !start.is_day() => self.answer(asked, &start),
            _ => {
                let none = asked.reading.no_moment();
                asked.print(none);
            }
        }
    }
}

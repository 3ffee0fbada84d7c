//! The days, or the date-times, from one to another.

use crate::add::open_days_later;
use crate::diff::like;
use crate::left_out::{most_left_out, time_behind_day};
use crate::prelude::*;
use chrono_datetime::WeekdaySet;
use dates_answer::sequence_day;

const SKIP: Opt = option!("--skip", "DAYS"; "weekdays that are left out, as sat,sun or mon-fri");

const HOW_MANY: Opt = option!("--count", "N"; "how many at most (default: all)");

pub(crate) fn command() -> &'static CommandRow {
    row!(
        "seq", &[DAY, DAY_OR_LINES, operand!("SPAN"; required: false)],
        &[SKIP, HOW_MANY, WEEKEND, CALENDAR, HOLIDAYS, NOW, PARSE, ORDER, FORMAT, LONG, JSON, HELP];
        help: "print the days or date-times from one to another",
        more: "Each is the first moved by no span, by one, by two and so on, as long as that is\n\
            not past the second. With no SPAN it goes day by day, also back. With no second\n\
            DAY it goes on to the calendar's end, or up to --count.\n\
            A SPAN is as for add, as 2w, or -1w to go back; of date-times also 36h or 90min.\n\
            By open days, as 1b, it begins on the first open day. Times of day as 22:30 go\n\
            on past midnight.",
        example: "$ dates seq 2024-01-31 2024-04-01 1m\n2024-01-31\n2024-02-29\n2024-03-31"
    )
}

// The days of the sequence as long as they are not past its end; `none` where the first day is past it.
pub(crate) fn answer(asked: &mut Asked<'_>) {
    asked.reading.takes_clock = true;
    let (second, third) = second_and_span(asked);
    let from = asked.start(asked.word(0));
    asked.none = asked.reading.none_of(&from);
    let to = match second {
        Some(word) => Some(like(asked, &from, word)),
        None => None,
    };
    let step = match third {
        Some(word) => asked.step(&from, word),
        None if from.is_clock() => return asked.missing_operand(2),
        None => day_by_day(&from, to.as_ref()),
    };
    let skip = match asked.value("--skip") {
        Some(word) => asked.weekdays(word),
        None => WeekdaySet::EMPTY,
    };
    let most = asked.amount_if("--count").unwrap_or(u64::MAX);
    let mut holidays = asked.holidays();
    if !asked.is_over {
        let mut sequence = Sequence {
            from,
            place: 0,
            to,
            step,
        };
        print_sequence(asked, &mut sequence, &mut holidays, skip, most);
    }
}

/// A sequence, and how far it has gone.
#[derive(Clone, Copy)]
struct Sequence {
    // The start that is moved, and by how many steps, counted from 0. By open days it is the one that was found last.
    from: Start,
    place: u32,
    // Where it ends, if it does before the calendar.
    to: Option<Start>,
    step: Move,
}

// Prints a sequence but for some weekdays, and so many of it at most. It ends where none but those follow.
fn print_sequence(
    asked: &mut Asked<'_>,
    sequence: &mut Sequence,
    holidays: &mut Holidays,
    skip: WeekdaySet,
    most: u64,
) {
    asked.end_by(NONE);
    let mut left = most;
    let mut passed: u32 = 0;
    let most_passed = sequence.most_passed(holidays, skip);
    for _ in 0..u64::MAX {
        if left == 0 || passed >= most_passed || asked.is_over {
            break;
        }
        let Some(start) = sequence.find(asked, holidays) else {
            break;
        };
        if !start.is_clock() && skip.contains(start.local().date().weekday()) {
            if sequence.repeats_from(&start, holidays) {
                passed = passed.saturating_add(1);
            }
            sequence.pass(&start);
        } else {
            asked.print_start(&start);
            left = left.saturating_sub(1);
            passed = 0;
            sequence.go_on();
        }
    }
    asked.print_none_if_alone();
}

impl Sequence {
    // How many in a row may be left out until it is told that all that follow are.
    fn most_passed(&self, holidays: &Holidays, skip: WeekdaySet) -> u32 {
        let is_closed = match self.step {
            Move::OpenDays(_) => holidays.closes_all_but(skip),
            _ => skip.len() == 7,
        };
        if is_closed && !self.from.is_clock() {
            return 0;
        }
        most_left_out(self.step)
    }

    // What it has come to; nothing past its end.
    fn find(&mut self, asked: &mut Asked<'_>, holidays: &mut Holidays) -> Option<Start> {
        let Move::OpenDays(count) = self.step else {
            return there(&self.from, self.to.as_ref(), self.step, self.place);
        };
        let by = if self.place == 0 { 0 } else { count };
        let date = open_days_later(asked, self.from.local().date(), by, holidays).ok()?;
        self.from = asked.on(self.from, date)?;
        not_past(self.from, self.to.as_ref(), count)
    }

    // Whether it goes on by the same weekdays again and again: by open days no holiday may follow.
    fn repeats_from(&self, start: &Start, holidays: &Holidays) -> bool {
        match self.step {
            Move::OpenDays(count) => holidays.ends_before(start.local().date(), count < 0),
            _ => true,
        }
    }

    // Goes a step on.
    fn go_on(&mut self) {
        self.place = self.place.saturating_add(1);
    }

    // Goes on behind what is left out: by short times to another day at once, and to the end if that is past the calendar's.
    fn pass(&mut self, start: &Start) {
        let Some(time) = time_behind_day(start, self.step) else {
            return self.go_on();
        };
        self.place = u32::MAX;
        if let Some(moment) = start.local().checked_add_signed(time) {
            if let Some(next) = start.at(moment) {
                self.from = next;
                self.place = 0;
            }
        }
    }
}

// The word of the end and that of the span, each of which may be left out.
fn second_and_span<'a>(asked: &Asked<'a>) -> (Option<Word<'a>>, Option<Word<'a>>) {
    let (second, third) = (asked.words.operand(1), asked.words.operand(2));
    match second {
        Some(word) if third.is_none() && read_move(word.text.as_bytes()).is_some() => {
            (None, second)
        }
        _ => (second, third),
    }
}

impl Asked<'_> {
    // The span that a word writes, which is not 0; a time moves no day.
    fn step(&mut self, from: &Start, word: Word<'_>) -> Move {
        let text = word.text.as_bytes();
        match move_at(text, 0) {
            Some((step, next)) if next == text.len() && steps_from(&step, from.is_day()) => {
                if goes(&step) == 0 {
                    self.wrong(word, "expected a span that is not 0");
                }
                step
            }
            _ => {
                let why = "expected a span as 3d, -2w, 1m or 4y, or of date-times as 36h or 90min";
                self.wrong(word, why);
                Move::OpenDays(0)
            }
        }
    }
}

// Whether a move leads from day to day, or from time to time, where `m` was meant for minutes.
fn steps_from(step: &Move, is_day: bool) -> bool {
    match step {
        Move::Time(_) => !is_day,
        Move::ShortMonths(_) => is_day,
        Move::OpenDays(_) | Move::Calendar(_) => true,
    }
}

// 1 where a move goes on, -1 where it goes back, and 0 where it does neither.
fn goes(step: &Move) -> i64 {
    match *step {
        Move::Calendar(span) | Move::ShortMonths(span) => span.count.signum(),
        Move::OpenDays(count) => count.signum(),
        Move::Time(Some(time)) if time.is_zero() => 0,
        Move::Time(Some(time)) if time < TimeDelta::zero() => -1,
        Move::Time(_) => 1,
    }
}

// A day on, or back where the second day is the earlier.
fn day_by_day(from: &Start, to: Option<&Start>) -> Move {
    let unit = Unit::Days;
    let is_back = from.until(to.unwrap_or(from)) < TimeDelta::zero();
    let count = if is_back { -1 } else { 1 };
    Move::Calendar(Span { count, unit })
}

// The time by which a move leads, if it does so by one.
fn time_of(step: Move) -> Option<TimeDelta> {
    match step {
        Move::Time(time) => time,
        _ => None,
    }
}

// The time of day at a place of a sequence of such; nothing past its end. It goes past midnight, and at most once around the clock.
fn clock_there(
    from: NaiveTime,
    to: Option<NaiveTime>,
    step: TimeDelta,
    place: u32,
) -> Option<Start> {
    let gone = step.checked_mul(i32::try_from(place).ok()?)?;
    let (zero, day) = (TimeDelta::zero(), TimeDelta::try_days(1)?);
    let length = match to {
        Some(to) => to.signed_duration_since(from),
        None => zero,
    };
    let is_past = if step < zero {
        let last = if length > zero {
            length.checked_sub(&day)?
        } else {
            length
        };
        gone < last
    } else {
        let last = if length < zero {
            length.checked_add(&day)?
        } else {
            length
        };
        last < gone
    };
    if is_past && to.is_some() || gone.abs() >= day {
        None
    } else {
        Some(Start::Clock(from.overflowing_add_signed(gone).0))
    }
}

// What stands at a place of the sequence, counted from 0; nothing past its end.
fn there(from: &Start, to: Option<&Start>, step: Move, place: u32) -> Option<Start> {
    if let Some(time) = from.clock() {
        let end = match to {
            Some(to) => to.clock(),
            None => None,
        };
        return clock_there(time, end, time_of(step)?, place);
    }
    let (start, way) = (from.local(), goes(&step));
    let moment = match step {
        Move::Time(time) => {
            start.checked_add_signed(time?.checked_mul(i32::try_from(place).ok()?)?)?
        }
        Move::Calendar(span) | Move::ShortMonths(span) => {
            let end = match to {
                Some(to) if to.is_day() => to.local().date(),
                _ if way < 0 => NaiveDate::MIN,
                _ => NaiveDate::MAX,
            };
            NaiveDateTime::new(sequence_day(start.date(), end, span, place)?, start.time())
        }
        Move::OpenDays(_) => return None,
    };
    not_past(from.at(moment)?, to, way)
}

// What stands in a sequence, unless it is past the end.
fn not_past(found: Start, to: Option<&Start>, way: i64) -> Option<Start> {
    let past = to.unwrap_or(&found).until(&found);
    let is_past = if way < 0 {
        past < TimeDelta::zero()
    } else {
        TimeDelta::zero() < past
    };
    if is_past { None } else { Some(found) }
}

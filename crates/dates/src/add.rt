//! Days and date-times, moved by spans, open days and times.

use crate::day::is_alone;
use crate::prelude::*;
use dates_answer::moved;

pub(crate) fn command() -> &'static CommandRow {
    row!(
        "add", &[DAY_OR_LINES, operand!("SPAN"; many: true)], 
        &[WEEKEND, CALENDAR, HOLIDAYS, ZONED, NOW, UNIX, PARSE, ORDER, FORMAT, LONG, WITHIN, FIELD, SEPARATOR, JSON, HELP];
        help: "move a day or a date-time by each span in turn",
        more: "A SPAN is a whole number of days, weeks, months or years, as 3d, -2w, 1mo and\n\
            4y, or of open days, as 5b. Of a day 1m is 1mo too. Also 1y2mo, P1Y2M, '3 days'.\n\
            A month or a year leads to the same day of its month, or to its last where that\n\
            is shorter. Months and years behind one another count together.\n\
            A date-time in place of the day is moved by times too: 36h, 90min, 15s, and\n\
            PT1.5S, seconds alone. It may have an offset, as 2024-02-29T04:30+01:00.\n\
            From a closed day the next open day counts as the first: from a Saturday 1b\n\
            leads to Monday, as 0b does, and -1b to Friday.\n\
            With - in place of the day, or none, it moves each line of standard input, or\n\
            today or now where nothing is piped in.",
        example: "$ dates add 2024-01-31 1m\n2024-02-29"
    )
}

// What moves days and date-times: moves, in turn, and the words that write them; the first word that writes months by `m`; whether one
// is a time, and whether one is not; and the holidays of open days.
#[derive(Drop)]
struct Add<'a> {
    moves: Vec<Move>,
    texts: Vec<&'a str>,
    short: Option<Word<'a>>,
    is_timed: bool,
    is_dated: bool,
    holidays: Holidays,
}

// The day or the date-time, or that of each line, moved.
pub(crate) fn answer(asked: &mut Asked<'_>) {
    asked.take_zone();
    asked.reading.takes_clock = true;
    let first = asked.word(0);
    let is_moved = read_move(first.text.as_bytes()).is_none();
    let mut start = None;
    if is_moved && first.text != "-" && first.place > 0 {
        asked.none = asked.reading.none_of_text(first.text.as_bytes());
        start = Some(asked.start(first));
    }
    let mut add = Add {
        moves: Vec::new(asked.rt.alloc()),
        texts: Vec::new(asked.rt.alloc()),
        short: None,
        is_timed: false,
        is_dated: false,
        holidays: asked.holidays(),
    };
    add.take_moves(asked, if is_moved { 1 } else { 0 }, &start);
    if !is_moved && is_alone(asked.rt) {
        start = asked.start_by_clock(add.is_timed);
    }
    match start {
        Some(start) => add.answer_start(asked, start),
        None => {
            asked.take_clocks(add.is_timed && !add.is_dated);
            take_input(asked, &mut add)
        }
    }
}

// What is said of a word that writes months by `m` beside a time of day, in front of its text.
const MONTHS: &str = "months; minutes are ";

impl<'a> Add<'a> {
    // Takes the moves that the operands write from a place on. No `m`, which was meant for minutes, stands beside a time of day.
    fn take_moves(&mut self, asked: &mut Asked<'a>, from: usize, start: &Option<Start>) {
        let count = asked.words.operands.len();
        for place in from..count {
            self.take_word(asked, asked.word(place), start);
        }
        if from >= count {
            asked.missing_operand(1);
        }
        let is_moment = matches!(start, Some(Start::DateTime(_) | Start::Stamp(_)));
        match self.short {
            Some(word) if self.is_timed || is_moment => asked.wrong_months(word),
            _ => {}
        }
    }

    // Takes the moves that a word writes.
    fn take_word(&mut self, asked: &mut Asked<'_>, word: Word<'a>, start: &Option<Start>) {
        let mut place: usize = 0;
        if word.text.is_empty() {
            return asked.wrong(word, SPAN_EXPECTED);
        }
        for _ in word.text.as_bytes() {
            let Some((by, next)) = move_at(word.text.as_bytes(), place) else {
                return asked.wrong(word, SPAN_EXPECTED);
            };
            if matches!((by, start), (Move::ShortMonths(_), Some(Start::Clock(_)))) {
                return asked.wrong_months(word);
            }
            if let Some(why) = unfit(start, matches!(by, Move::Time(_))) {
                return asked.wrong(word, why);
            }
            match by {
                Move::Time(_) => self.is_timed = true,
                Move::ShortMonths(_) if self.short.is_none() => self.short = Some(word),
                _ => self.is_dated = true,
            }
            asked.done(self.put(word, by));
            place = next;
            if place >= word.text.len() {
                break;
            }
        }
    }

    // Puts a move behind the others, or together with the last of them.
    fn put(&mut self, word: Word<'a>, by: Move) -> io::Result<()> {
        if let Some(both) = joined(self.moves.as_slice(), by) {
            self.moves.pop();
            return put_move(&mut self.moves, both);
        }
        put_move(&mut self.moves, by)?;
        Ok(self.texts.push(word.text)?)
    }

    // What is moved, by each move in turn, or `none` where one leads nowhere.
    fn answer_start(&mut self, asked: &mut Asked<'_>, start: Start) {
        let mut last = start;
        let mut step: usize = 0;
        for by in self.moves.as_slice() {
            match moved_by(asked, &last, *by, &mut self.holidays) {
                Ok(reached) => last = reached,
                Err(why) => {
                    let text = self.texts.as_slice().get(step).copied().unwrap_or("");
                    asked.none = asked.reading.none_of(&last);
                    return asked.print_nowhere(&last, text, why);
                }
            }
            step = step.saturating_add(1);
        }
        asked.print_start(&last);
    }
}

impl Asked<'_> {
    // What is moved where nothing is: now by times, and else today.
    fn start_by_clock(&mut self, is_timed: bool) -> Option<Start> {
        let shown = self.shown()?;
        if is_timed {
            return Some(Start::Stamp(shown));
        }
        Some(Start::Day(shown.naive_local().date()))
    }

    // Ends since a word writes months where it was meant for minutes.
    fn wrong_months(&mut self, word: Word<'_>) {
        let mut said = self.blame(word);
        put!(said, ": ", MONTHS, word.text, "in");
        self.refuse(&said);
    }
}

const SPAN_EXPECTED: &str = "expected a span as 3d, -2w, 1mo, 4y, 5b, 36h, 90min, 15s or PT1.5S";

// The last move and another as one, if both are of months or years: these lead to a day at once.
fn joined(moves: &[Move], by: Move) -> Option<Move> {
    let count = months_of(moves.last().copied()?)?.checked_add(months_of(by)?)?;
    let unit = Unit::Months;
    Some(Move::Calendar(Span { count, unit }))
}

// How many months a move of months or years has.
fn months_of(by: Move) -> Option<i64> {
    match by {
        Move::Calendar(span) | Move::ShortMonths(span) => match span.unit {
            Unit::Months => Some(span.count),
            Unit::Years => span.count.checked_mul(12),
            Unit::Days | Unit::Weeks => None,
        },
        Move::OpenDays(_) | Move::Time(_) => None,
    }
}

// Puts a move behind others.
fn put_move<A: Allocator>(moves: &mut Vec<Move, A>, by: Move) -> io::Result<()> {
    Ok(moves.push(by)?)
}

// Why a move, of a time or not, is none of what is moved, where it is not: no time moves a day, and no days move a time of day.
fn unfit(start: &Option<Start>, is_time: bool) -> Option<&'static str> {
    match start {
        Some(Start::Day(_)) if is_time => {
            Some("expected a span of days, or a date-time before it as 2024-02-29T00:00")
        }
        Some(Start::Clock(_)) if !is_time => {
            Some("expected a span of times as 90min, or a date-time before it as 2024-02-29T04:30")
        }
        _ => None,
    }
}

impl<'a> EachLine for Add<'a> {
    // Moves what a line names; no `m` moves a date-time.
    fn take_line(&mut self, asked: &mut Asked<'_>, line: &[u8]) {
        match asked.read(line) {
            Some(Start::Day(_)) | None if self.is_timed => {
                let none = asked.reading.no_moment();
                asked.print(none);
            }
            Some(Start::Clock(_)) if self.is_dated => asked.print(Reply::Nothing(Key::Time)),
            None => {
                let none = asked.reading.none_of_text(line);
                asked.print(none);
            }
            Some(start) => match self.short {
                Some(word) if !start.is_day() => {
                    let mut why = Buffer::new(asked.rt.alloc());
                    put!(why, MONTHS, word.text, "in");
                    asked.none = asked.reading.no_moment();
                    let why = asked.text(&why);
                    asked.print_nowhere(&start, word.text, why);
                }
                _ => self.answer_start(asked, start),
            },
        }
    }
}

// What lies a move away, or why nothing does. A move of days keeps the time of day.
fn moved_by(
    asked: &mut Asked<'_>,
    start: &Start,
    by: Move,
    holidays: &mut Holidays,
) -> Result<Start, &'static str> {
    let date = start.local().date();
    let reached = match by {
        Move::Time(time) => return asked.later(*start, time).ok_or(PAST),
        Move::OpenDays(count) => Some(open_days_later(asked, date, count, holidays)?),
        Move::Calendar(span) | Move::ShortMonths(span) => moved(date, span),
    };
    match reached {
        Some(date) => asked.on(*start, date).ok_or(NOT_ONCE),
        None => Err(PAST),
    }
}

// The day so many open days from another, or why there is none.
pub(crate) fn open_days_later(
    asked: &mut Asked<'_>,
    date: NaiveDate,
    count: i64,
    holidays: &mut Holidays,
) -> Result<NaiveDate, &'static str> {
    let reached = match holidays.open_days_on(asked.rt.alloc(), date, count) {
        Ok(reached) => reached,
        Err(error) => {
            asked.fail(error);
            Err(PAST)
        }
    };
    match reached {
        Ok(day) if !holidays.knows(day.min(date)) => Err(UNKNOWN),
        reached => reached,
    }
}

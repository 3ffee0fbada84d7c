//! What is answered of a day alone: its names, its weekday, its week, an end of its month, a weekday behind it, or whether it is open.

use crate::prelude::*;
use chrono_business::Roll;

/// What is asked of a day.
#[derive(Drop)]
pub(crate) enum Asks {
    /// All its names.
    Names,
    /// Its weekday.
    Weekday,
    /// The first and the last day of its week.
    Week,
    /// The first or the last day of its week, or of so many months of its year.
    End(u32, bool),
    /// The first day from it on that is of this weekday.
    Round(Weekday),
    /// Whether it is open.
    Open(Holidays),
    /// Where it goes by a convention.
    Roll(Holidays, Roll),
}

// What is asked of a day, or of that of each line.
pub(crate) fn answer_each(asked: &mut Asked<'_>, date: Option<NaiveDate>, mut asks: Asks) {
    match date {
        Some(date) => asks.answer(asked, date),
        None => take_input(asked, &mut asks),
    }
}

impl EachLine for Asks {
    fn take_line(&mut self, asked: &mut Asked<'_>, line: &[u8]) {
        match asked.reading.read_day(line) {
            Some(date) => self.answer(asked, date),
            None => asked.print(asked.none),
        }
    }
}

impl Asks {
    // Whether the holidays of a day's year are known, where they are asked for.
    fn knows(&self, date: NaiveDate) -> bool {
        match self {
            Asks::Open(holidays) | Asks::Roll(holidays, _) => holidays.knows(date),
            _ => true,
        }
    }

    // Why there is no answer for a day whose holidays are known.
    fn why_none(&self, date: NaiveDate) -> &'static str {
        match self {
            Asks::Roll(holidays, _) => holidays.why_none(date),
            _ => PAST,
        }
    }

    // Prints what is asked of a day.
    fn answer(&mut self, asked: &mut Asked<'_>, date: NaiveDate) {
        if self.knows(date) {
            self.answer_known(asked, date);
        } else {
            asked.print_nowhere(&Start::Day(date), "", UNKNOWN);
        }
    }

    // Prints what is asked of a day whose holidays are known.
    fn answer_known(&mut self, asked: &mut Asked<'_>, date: NaiveDate) {
        let reply = match self {
            Asks::Names => Some(Reply::Names(date)),
            Asks::Weekday => Some(Reply::Weekday(date.weekday())),
            Asks::Week => week_of(date),
            Asks::End(months, is_last) => day_if(end_of(date, *months, *is_last)),
            Asks::Round(weekday) => day_if(weekday_from(date, *weekday)),
            Asks::Open(holidays) => match holidays.calendar(years_of(date, date)) {
                Ok(calendar) => Some(Reply::Whether(Key::Open, calendar.is_open(date))),
                Err(error) => return asked.fail(error),
            },
            Asks::Roll(holidays, roll) => {
                let rolled = match holidays.calendar(years_of(date, date)) {
                    Ok(calendar) => calendar.roll(date, *roll),
                    Err(error) => return asked.fail(error),
                };
                day_if(holidays.known(rolled))
            }
        };
        match reply {
            Some(reply) => asked.print(reply),
            None => asked.print_nowhere(&Start::Day(date), "", self.why_none(date)),
        }
    }
}

// The answer that is a day, if there is one.
fn day_if(date: Option<NaiveDate>) -> Option<Reply> {
    Some(Reply::Date(date?))
}

// The first and the last day of the week of a day, if the calendar has both.
fn week_of(date: NaiveDate) -> Option<Reply> {
    Some(Reply::Week(end_of(date, 0, false)?, end_of(date, 0, true)?))
}

// The first or the last day of so many months of the year, of which one is that of a day; of its week where they are 0.
fn end_of(date: NaiveDate, months: u32, is_last: bool) -> Option<NaiveDate> {
    let (size, place) = match months {
        0 => (7, date.weekday().num_days_from_monday()),
        _ => (i64::from(months), date.month0().checked_rem(months)?),
    };
    let back = i64::from(place);
    let by = if is_last { size - 1 - back } else { -back };
    match months {
        0 => date.moved_by_days(by),
        _ if is_last => Some(date.moved_by_months(by)?.last_day_of_month()),
        _ => Some(date.moved_by_months(by)?.first_day_of_month()),
    }
}

// The first day of a weekday from a day on.
pub(crate) fn weekday_from(date: NaiveDate, weekday: Weekday) -> Option<NaiveDate> {
    date.moved_by_days(i64::from(weekday.days_since(date.weekday())))
}

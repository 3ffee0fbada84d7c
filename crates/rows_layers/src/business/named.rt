//! What the rows so far have named: a calendar, a second one, and rules of holidays.

use crate::business::{answer_of, is_refused, lists};
use crate::{date_of, is_said};
use chrono_business::{Calendar, HolidayRule};
use chrono_datetime::{NaiveDate, Weekday, WeekdaySet};
use std::alloc::Allocator;
use std::io;

/// The last calendar of each kind and the rules, each list in memory of its own.
#[derive(Drop)]
pub struct Named<A: Allocator> {
    weekend: WeekdaySet,
    holidays: Vec<NaiveDate, A>,
    other_weekend: WeekdaySet,
    other_holidays: Vec<NaiveDate, A>,
    rules: Vec<HolidayRule, A>,
}

impl<A: Allocator> Named<A> {
    /// Nothing named yet.
    pub fn new(first: A, second: A, third: A) -> Named<A> {
        Named {
            weekend: WeekdaySet::EMPTY,
            holidays: Vec::new(first),
            other_weekend: WeekdaySet::EMPTY,
            other_holidays: Vec::new(second),
            rules: Vec::new(third),
        }
    }

    /// Whether the row names something, which is taken, or its call has the answer behind it.
    pub fn agrees(&mut self, row: &str) -> io::Result<bool> {
        Ok(self.names(row)? || self.is_answered(row))
    }

    // Takes what the line names; whether it names anything.
    fn names(&mut self, line: &str) -> io::Result<bool> {
        let (kind, rest) = line.split_once(' ').unwrap_or((line, ""));
        match kind {
            "calendar" => self.weekend = take_days(&mut self.holidays, rest)?,
            "other" => self.other_weekend = take_days(&mut self.other_holidays, rest)?,
            "rules" => self.rules.clear(),
            "rule" => if let Some(rule) = lists::rule_of(rest) {
                self.rules.push(rule)?;
            },
            _ => return Ok(false),
        }
        Ok(true)
    }

    // Whether the call of the line has the answer behind it.
    fn is_answered(&self, line: &str) -> bool {
        let (call, answer) = line.split_once(" = ").unwrap_or((line, ""));
        let (name, words) = call.split_once(' ').unwrap_or((call, ""));
        match name {
            "listed" => is_said(
                lists::listed(self.rules.as_slice(), self.weekend, words),
                answer,
            ),
            "left" => is_said(lists::left(self.weekend, self.holidays.as_slice()), answer),
            "joined" => is_said(self.joined(words), answer),
            _ => is_call_answered(self.weekend, self.holidays.as_slice(), line),
        }
    }

    // The open days of the two calendars joined.
    fn joined(&self, words: &str) -> Option<i64> {
        let first = Calendar::try_new(self.weekend, self.holidays.as_slice()).ok()?;
        let second = Calendar::try_new(self.other_weekend, self.other_holidays.as_slice()).ok()?;
        lists::joined(&first, &second, words)
    }
}

// Takes the days behind a week's digits in place of those of the list; the weekend that the digits name.
fn take_days(list: &mut Vec<NaiveDate, impl Allocator>, days: &str) -> io::Result<WeekdaySet> {
    let mut words = days.split_ascii_whitespace();
    let weekend = weekend_of(words.next().unwrap_or(""));
    list.clear();
    for word in words {
        if let Some(date) = date_of(word) {
            list.push(date)?;
        }
    }
    Ok(weekend)
}

// The weekdays whose digit, from Monday on, is 0.
fn weekend_of(week: &str) -> WeekdaySet {
    let mut weekend = WeekdaySet::EMPTY;
    let mut weekday = Weekday::Mon;
    for digit in week.bytes() {
        if digit == b'0' {
            weekend.insert(weekday);
        }
        weekday = weekday.succ();
    }
    weekend
}

// Whether the call of the line gives the answer behind it.
fn is_call_answered(weekend: WeekdaySet, holidays: &[NaiveDate], line: &str) -> bool {
    let calendar = match Calendar::try_new(weekend, holidays) {
        Ok(calendar) => calendar,
        Err(wrong) => return is_refused(wrong, line),
    };
    let Some((call, answer)) = line.split_once(" = ") else {
        return false;
    };
    let mut words = call.split_ascii_whitespace();
    let name = words.next().unwrap_or("");
    let Some(date) = date_of(words.next().unwrap_or("")) else {
        return false;
    };
    let last = words.next().unwrap_or("");
    is_said(answer_of(&calendar, name, date, last), answer)
}

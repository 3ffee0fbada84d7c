//! What a line has beside its rule: dates and exceptions.

use crate::date_of;
use chrono_datetime::NaiveDate;
use chrono_rules::{Recurrence, Rule};
use std::alloc::Allocator;
use std::io;

/// The dates and the exceptions of a line, each list in memory of its own.
#[derive(Drop)]
pub struct Beside<A: Allocator> {
    dates: Vec<NaiveDate, A>,
    exceptions: Vec<NaiveDate, A>,
}

impl<A: Allocator> Beside<A> {
    /// Neither yet.
    pub fn new(first: A, second: A) -> Beside<A> {
        Beside {
            dates: Vec::new(first),
            exceptions: Vec::new(second),
        }
    }

    /// Takes the words `+day` and `-day` of a row, in place of those before; whether there is one.
    pub fn takes(&mut self, row: &str) -> io::Result<bool> {
        self.dates.clear();
        self.exceptions.clear();
        let mut some = false;
        for word in row.split_ascii_whitespace() {
            let date = word.strip_prefix("+").and_then(date_of);
            let exception = word.strip_prefix("-").and_then(date_of);
            if let Some(day) = date {
                self.dates.push(day)?;
                some = true;
            }
            if let Some(day) = exception {
                self.exceptions.push(day)?;
                some = true;
            }
        }
        Ok(some)
    }

    /// Whether these are the first days of the rule with them, or `refused` where one of the lists does not rise.
    pub fn has_days(&self, rule: Rule, start: NaiveDate, days: &str) -> Option<bool> {
        match Recurrence::try_new(
            rule,
            start,
            self.dates.as_slice(),
            self.exceptions.as_slice(),
        ) {
            Some(recurrence) => are_days(&recurrence, days),
            None => Some(days == "refused"),
        }
    }
}

// Whether these are the first days of the recurrence, as each of its calls gives them.
fn are_days(recurrence: &Recurrence<'_>, days: &str) -> Option<bool> {
    let mut left = recurrence.iter();
    let mut before = None;
    for word in days.split_ascii_whitespace() {
        let next = left.next();
        if word == "end" {
            return Some(next.is_none());
        }
        let day = date_of(word)?;
        if next != Some(day) || !recurrence.is_instance(day) {
            return Some(false);
        }
        if recurrence.prev_before(day) != before {
            return Some(false);
        }
        if let Some(last) = before
            && recurrence.next_after(last) != next
        {
            return Some(false);
        }
        before = next;
    }
    Some(true)
}

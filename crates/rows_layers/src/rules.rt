//! Rows of rules and the days that are their instances.
//!
//! A row is `name rule start = days`, with the rule's text, as `FREQ=DAILY;COUNT=10`. Days are day numbers. `end` behind them says that
//! the rule ends there, and `none` in their place that the text writes no rule. Behind the start may stand other words:
//!
//! - `+day` and `-day` are dates beside the instances and exceptions; `refused` in place of the days says that these do not rise;
//! - `*times` says that so many calls of `next_after`, each from the day that the last one gave, lead to the day;
//! - `calls` says that each other call of the rule is tried at each day: see `calls`.
//!
//! A row `after rule start day = found` compares what `next_after` returns with a day or with `none`, and `before` does so for `prev_before`.
//! Rows `text ..` are of texts that are written: see `texts`.

mod beside;
mod calls;
mod texts;

use crate::date_of;
pub use beside::Beside;
use chrono_datetime::NaiveDate;
use chrono_rules::{End, Rule, read_rule};
use std::alloc::Allocator;
use std::io;

/// Whether the line's rule is answered as the line says.
pub fn is_answered<A: Allocator>(
    line: &str,
    beside: &mut Beside<A>,
    alloc: impl Allocator,
) -> io::Result<bool> {
    let Some((row, answer)) = line.split_once(" = ") else {
        return Ok(false);
    };
    match row.split_once(' ') {
        Some(("text", text)) => texts::is_written(text, answer, alloc),
        Some(("after", call)) => Ok(is_found(call, answer, false).unwrap_or(false)),
        Some(("before", call)) => Ok(is_found(call, answer, true).unwrap_or(false)),
        Some(_) => {
            if beside.takes(row)? {
                Ok(has_recurrence(beside, row, answer).unwrap_or(false))
            } else {
                Ok(has_days(row, answer))
            }
        }
        None => Ok(false),
    }
}

// Whether these are days of the row's rule with what it has beside it.
fn has_recurrence<A: Allocator>(beside: &Beside<A>, row: &str, days: &str) -> Option<bool> {
    let Some((text, start)) = arguments_of(row) else {
        return None;
    };
    match read_rule(text.as_bytes()) {
        Ok(rule) => beside.has_days(rule, start, days),
        Err(_) => None,
    }
}

// Whether `next_after` returns this for the rule, the start and the day of the call, or `prev_before` does.
fn is_found(call: &str, answer: &str, before: bool) -> Option<bool> {
    let Some((text, start, day)) = arguments_of_call(call) else {
        return None;
    };
    match read_rule(text.as_bytes()) {
        Ok(rule) => Some(is_returned(&rule, start, day, answer, before)),
        Err(_) => None,
    }
}

// The rule's text, the start and the day of a call.
fn arguments_of_call(call: &str) -> Option<(&str, NaiveDate, NaiveDate)> {
    let mut words = call.split_ascii_whitespace();
    let text = words.next()?;
    let start = date_of(words.next()?)?;
    Some((text, start, date_of(words.next()?)?))
}

// Whether `next_after` returns the day that a word writes, or `None` for `none`. With `before`, it is `prev_before`.
fn is_returned(rule: &Rule, start: NaiveDate, day: NaiveDate, answer: &str, before: bool) -> bool {
    let found = if before {
        rule.prev_before(start, day)
    } else {
        rule.next_after(start, day)
    };
    match found {
        Some(date) => date_of(answer) == Some(date),
        None => answer == "none",
    }
}

// Whether the rule of the row has these days, or its text writes none.
fn has_days(row: &str, days: &str) -> bool {
    match arguments_of(row) {
        Some((text, start)) => match times_of(row) {
            Some(times) => match read_rule(text.as_bytes()) {
                Ok(rule) => leads_to(&rule, start, times, days).unwrap_or(false),
                Err(_) => false,
            },
            None => has_instances(text, start, days, is_of_calls(row)).unwrap_or(false),
        },
        None => false,
    }
}

// The rule's text and the start that stand in a row.
fn arguments_of(row: &str) -> Option<(&str, NaiveDate)> {
    let mut words = row.split_ascii_whitespace();
    let _ = words.next()?;
    let text = words.next()?;
    Some((text, date_of(words.next()?)?))
}

// The word `*times` of a row.
fn times_of(row: &str) -> Option<u32> {
    for word in row.split_ascii_whitespace() {
        if let Some(times) = word.strip_prefix("*") {
            return times.parse().ok();
        }
    }
    None
}

// Whether so many calls of the rule's `next_after`, from the day before the start on, lead to the day.
fn leads_to(rule: &Rule, start: NaiveDate, times: u32, day: &str) -> Option<bool> {
    let mut last = start.pred_opt()?;
    for _ in 0..times {
        last = rule.next_after(start, last)?;
    }
    Some(last == date_of(day)?)
}

// Whether the row has the word `calls`.
fn is_of_calls(row: &str) -> bool {
    for word in row.split_ascii_whitespace() {
        if word == "calls" {
            return true;
        }
    }
    false
}

// Whether these are instances of the rule that the text writes, or `none` where it writes none.
fn has_instances(text: &str, start: NaiveDate, days: &str, by_calls: bool) -> Option<bool> {
    match read_rule(text.as_bytes()) {
        Ok(rule) => {
            if by_calls {
                calls::are_instances(&rule, start, days)
            } else {
                are_instances(&rule, start, days)
            }
        }
        Err(_) => Some(days == "none"),
    }
}

// Whether these are the first instances from the start on.
fn are_instances(rule: &Rule, start: NaiveDate, days: &str) -> Option<bool> {
    let mut last = start.pred_opt()?;
    for word in days.split_ascii_whitespace() {
        let next = rule.next_after(start, last);
        if word == "end" {
            return Some(next.is_none() && rule.end != End::Never);
        }
        let next = next?;
        if next != date_of(word)? || !rule.is_instance(start, next) {
            return Some(false);
        }
        last = next;
    }
    Some(true)
}

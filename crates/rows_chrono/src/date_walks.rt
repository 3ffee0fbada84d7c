//! The dates after a date, handed out day by day and week by week.
//!
//! The steps are written by a letter each: n `next`, b `next_back`, l `len` and `size_hint`, s whether it is as at its
//! start, 1 or 0.

use crate::words::{is_next, left};
use chrono_datetime::{Datelike, NaiveDate};

/// Whether the iterator by days answers so, step by step.
pub fn is_walk_by_days(start: NaiveDate, steps: &str, answer: &str) -> bool {
    let mut dates = start.iter_days();
    let words = &mut answer.split_ascii_whitespace();
    for step in steps.bytes() {
        let given = match step {
            b'n' => number(dates.next()),
            b'b' => number(dates.next_back()),
            b's' => Some(i64::from(dates == start.iter_days())),
            _ => left(dates.len(), dates.size_hint()),
        };
        if !is_next(words, given) {
            return false;
        }
    }
    words.next().is_none()
}

/// Whether the iterator by weeks answers so, step by step.
pub fn is_walk_by_weeks(start: NaiveDate, steps: &str, answer: &str) -> bool {
    let mut dates = start.iter_weeks();
    let words = &mut answer.split_ascii_whitespace();
    for step in steps.bytes() {
        let given = match step {
            b'n' => number(dates.next()),
            b'b' => number(dates.next_back()),
            b's' => Some(i64::from(dates == start.iter_weeks())),
            _ => left(dates.len(), dates.size_hint()),
        };
        if !is_next(words, given) {
            return false;
        }
    }
    words.next().is_none()
}

fn number(date: Option<NaiveDate>) -> Option<i64> {
    Some(i64::from(date?.num_days_from_ce()))
}

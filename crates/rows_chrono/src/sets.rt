//! Calls of `WeekdaySet`.

use crate::words::{Words, are, is_next, is_number, is_order, is_weekday, left, unsigned, weekday};
use chrono_datetime::Weekday::{self, Fri, Mon, Sat, Sun, Thu, Tue, Wed};
use chrono_datetime::WeekdaySet;

/// Whether the call of that name has that answer; `None` if there is no such call, or its arguments are not right.
pub fn is_answered(name: &str, words: &mut Words<'_>, answer: &str) -> Option<bool> {
    if let Some(constant) = constant(name) {
        return Some(are(answer, &[number_of(constant)]));
    }
    if name == "single" {
        let single = WeekdaySet::single(weekday(words)?);
        return Some(are(answer, &[number_of(single)]));
    }
    of_one(name, set(words)?, words, answer)
}

fn constant(name: &str) -> Option<WeekdaySet> {
    match name {
        "EMPTY" => Some(WeekdaySet::EMPTY),
        "ALL" => Some(WeekdaySet::ALL),
        "default" => Some(WeekdaySet::default()),
        _ => None,
    }
}

fn of_one(name: &str, own: WeekdaySet, words: &mut Words<'_>, answer: &str) -> Option<bool> {
    match name {
        "len" => Some(are(answer, &[i64::from(own.len())])),
        "is_empty" => Some(are(answer, &[i64::from(own.is_empty())])),
        "first" => Some(is_weekday(answer, own.first())),
        "last" => Some(is_weekday(answer, own.last())),
        "single_day" => Some(is_weekday(answer, own.single_day())),
        "days_until" | "contains" | "insert" | "remove" => {
            with_day(name, own, weekday(words)?, answer)
        }
        "iter" => Some(is_walk(own, weekday(words)?, words.next()?, answer)),
        _ => of_two(name, own, set(words)?, answer),
    }
}

fn with_day(name: &str, own: WeekdaySet, day: Weekday, answer: &str) -> Option<bool> {
    let mut changed = own;
    Some(match name {
        "days_until" => is_number(answer, days(own.days_until(day))),
        "contains" => are(answer, &[i64::from(own.contains(day))]),
        "insert" => {
            let is_new = changed.insert(day);
            are(answer, &[i64::from(is_new), number_of(changed)])
        }
        "remove" => {
            let was_in = changed.remove(day);
            are(answer, &[i64::from(was_in), number_of(changed)])
        }
        _ => return None,
    })
}

fn of_two(name: &str, own: WeekdaySet, other: WeekdaySet, answer: &str) -> Option<bool> {
    Some(match name {
        "is_subset" => are(answer, &[i64::from(own.is_subset(other))]),
        "intersection" => are(answer, &[number_of(own.intersection(other))]),
        "union" => are(answer, &[number_of(own.union(other))]),
        "symmetric_difference" => are(answer, &[number_of(own.symmetric_difference(other))]),
        "difference" => are(answer, &[number_of(own.difference(other))]),
        "cmp" => is_order(answer, &own, &other),
        _ => return None,
    })
}

const DIGITS: [(Weekday, u32); 7] = [
    (Mon, 1),
    (Tue, 2),
    (Wed, 4),
    (Thu, 8),
    (Fri, 16),
    (Sat, 32),
    (Sun, 64),
];

fn days(count: Option<u32>) -> Option<i64> {
    Some(i64::from(count?))
}

/// The set that the next word numbers.
pub fn set(words: &mut Words<'_>) -> Option<WeekdaySet> {
    let number = unsigned(words)?;
    let mut set = WeekdaySet::EMPTY;
    for (day, digit) in DIGITS.iter().copied() {
        if number & digit != 0 {
            set.insert(day);
        }
    }
    Some(set)
}

// The number of the set.
fn number_of(set: WeekdaySet) -> i64 {
    let mut number = 0u32;
    for (day, digit) in DIGITS.iter().copied() {
        if set.contains(day) {
            number |= digit;
        }
    }
    i64::from(number)
}

// Whether a walk through the set answers so, step by step: n `next`, b `next_back`, l `len` and `size_hint`.
fn is_walk(set: WeekdaySet, start: Weekday, steps: &str, answer: &str) -> bool {
    let mut walk = set.iter(start);
    let words = &mut answer.split_ascii_whitespace();
    for step in steps.bytes() {
        let given = match step {
            b'n' => number(walk.next()),
            b'b' => number(walk.next_back()),
            _ => left(walk.len(), walk.size_hint()),
        };
        if !is_next(words, given) {
            return false;
        }
    }
    words.next().is_none()
}

fn number(weekday: Option<Weekday>) -> Option<i64> {
    Some(i64::from(weekday?.number_from_monday()))
}

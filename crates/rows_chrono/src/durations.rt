//! Calls of `TimeDelta`.

use crate::words::{Words, duration, is_duration, is_number, is_order, signed, unsigned, whole};
use chrono_datetime::TimeDelta;

/// Whether the call of that name has that answer; `None` if there is no such call, or its arguments are not right.
pub fn is_answered(name: &str, words: &mut Words<'_>, answer: &str) -> Option<bool> {
    if let Some(constant) = constant(name) {
        return Some(is_duration(answer, Some(constant)));
    }
    let count = whole(words)?;
    if let Some(made) = of_units(name, count) {
        return Some(is_duration(answer, made));
    }
    let made = TimeDelta::new(count, unsigned(words)?);
    if name == "new" {
        return Some(is_duration(answer, made));
    }
    of_one(name, made?, words, answer)
}

fn constant(name: &str) -> Option<TimeDelta> {
    Some(match name {
        "MIN" => TimeDelta::MIN,
        "MAX" => TimeDelta::MAX,
        "min_value" => TimeDelta::min_value(),
        "max_value" => TimeDelta::max_value(),
        "zero" => TimeDelta::zero(),
        "default" => TimeDelta::default(),
        _ => return None,
    })
}

// The duration of so many of a unit.
fn of_units(name: &str, count: i64) -> Option<Option<TimeDelta>> {
    Some(match name {
        "try_weeks" => TimeDelta::try_weeks(count),
        "try_days" => TimeDelta::try_days(count),
        "try_hours" => TimeDelta::try_hours(count),
        "try_minutes" => TimeDelta::try_minutes(count),
        "try_seconds" => TimeDelta::try_seconds(count),
        "try_milliseconds" => TimeDelta::try_milliseconds(count),
        "microseconds" => Some(TimeDelta::microseconds(count)),
        "nanoseconds" => Some(TimeDelta::nanoseconds(count)),
        _ => return None,
    })
}

fn of_one(name: &str, own: TimeDelta, words: &mut Words<'_>, answer: &str) -> Option<bool> {
    if let Some(number) = number(name, own) {
        return Some(is_number(answer, number));
    }
    match name {
        "neg" => Some(is_duration(answer, Some(-own))),
        "abs" => Some(is_duration(answer, Some(own.abs()))),
        "checked_mul" => Some(is_duration(answer, own.checked_mul(signed(words)?))),
        "checked_div" => Some(is_duration(answer, own.checked_div(signed(words)?))),
        _ => of_two(name, own, duration(words)?, answer),
    }
}

// The number that the call of that name reads of a duration.
fn number(name: &str, own: TimeDelta) -> Option<Option<i64>> {
    Some(match name {
        "num_weeks" => Some(own.num_weeks()),
        "num_days" => Some(own.num_days()),
        "num_hours" => Some(own.num_hours()),
        "num_minutes" => Some(own.num_minutes()),
        "num_seconds" => Some(own.num_seconds()),
        "num_milliseconds" => Some(own.num_milliseconds()),
        "num_microseconds" => own.num_microseconds(),
        "num_nanoseconds" => own.num_nanoseconds(),
        "subsec_millis" => Some(i64::from(own.subsec_millis())),
        "subsec_micros" => Some(i64::from(own.subsec_micros())),
        "subsec_nanos" => Some(i64::from(own.subsec_nanos())),
        "is_zero" => Some(i64::from(own.is_zero())),
        _ => return None,
    })
}

fn of_two(name: &str, own: TimeDelta, other: TimeDelta, answer: &str) -> Option<bool> {
    Some(match name {
        "checked_add" => is_duration(answer, own.checked_add(&other)),
        "checked_sub" => is_duration(answer, own.checked_sub(&other)),
        "cmp" => is_order(answer, &own, &other),
        _ => return None,
    })
}

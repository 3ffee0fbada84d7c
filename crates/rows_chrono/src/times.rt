//! Calls of `NaiveTime`.

use crate::words::{Words, are, duration, is_duration, is_order, is_time, time, unsigned};
use chrono_datetime::{NaiveTime, TimeDelta, Timelike};

/// Whether the call of that name has that answer; `None` if there is no such call, or its arguments are not right.
pub fn is_answered(name: &str, words: &mut Words<'_>, answer: &str) -> Option<bool> {
    if let Some(constant) = constant(name) {
        return Some(is_time(answer, Some(constant)));
    }
    if name.starts_with("from_") {
        return Some(is_time(answer, made(name, words)?));
    }
    of_one(name, time(words)?, words, answer)
}

fn constant(name: &str) -> Option<NaiveTime> {
    match name {
        "MIN" => Some(NaiveTime::MIN),
        "MAX" => Some(NaiveTime::MAX),
        "default" => Some(NaiveTime::default()),
        _ => None,
    }
}

// The time of a second of the day and a fraction, or of an hour, a minute, a second and perhaps a fraction.
fn made(name: &str, words: &mut Words<'_>) -> Option<Option<NaiveTime>> {
    let (first, second) = (unsigned(words)?, unsigned(words)?);
    if name == "from_num_seconds_from_midnight_opt" {
        return Some(NaiveTime::from_num_seconds_from_midnight_opt(first, second));
    }
    let third = unsigned(words)?;
    if name == "from_hms_opt" {
        return Some(NaiveTime::from_hms_opt(first, second, third));
    }
    with_fraction(name, (first, second, third), unsigned(words)?)
}

// The time of an hour, a minute, a second and a fraction, which the call of that name takes in its own unit.
fn with_fraction(
    name: &str,
    (hour, minute, second): (u32, u32, u32),
    fraction: u32,
) -> Option<Option<NaiveTime>> {
    Some(match name {
        "from_hms_milli_opt" => NaiveTime::from_hms_milli_opt(hour, minute, second, fraction),
        "from_hms_micro_opt" => NaiveTime::from_hms_micro_opt(hour, minute, second, fraction),
        "from_hms_nano_opt" => NaiveTime::from_hms_nano_opt(hour, minute, second, fraction),
        _ => return None,
    })
}

fn of_one(name: &str, own: NaiveTime, words: &mut Words<'_>, answer: &str) -> Option<bool> {
    match name {
        "fields" => Some(are_fields(answer, &own)),
        "hour12" => {
            let (is_past_noon, hour) = own.hour12();
            Some(are(answer, &[i64::from(is_past_noon), i64::from(hour)]))
        }
        "with_each" => Some(is_time(answer, with_each(&own, words)?)),
        "with_hour" | "with_minute" | "with_second" | "with_nanosecond" => {
            Some(is_time(answer, with_one(name, &own, unsigned(words)?)?))
        }
        "landing" | "overflowing_add_signed" | "overflowing_sub_signed" => {
            moved(name, own, duration(words)?, answer)
        }
        _ => of_two(name, own, time(words)?, answer),
    }
}

fn moved(name: &str, own: NaiveTime, by: TimeDelta, answer: &str) -> Option<bool> {
    let mut moved = own;
    Some(match name {
        "landing" => {
            let (time, days) = own.landing(by);
            let second = i64::from(time.num_seconds_from_midnight());
            are(answer, &[second, i64::from(time.nanosecond()), days])
        }
        "overflowing_add_signed" => {
            moved += by;
            is_move(answer, own.overflowing_add_signed(by), moved) && own + by == moved
        }
        "overflowing_sub_signed" => {
            moved -= by;
            is_move(answer, own.overflowing_sub_signed(by), moved) && own - by == moved
        }
        _ => return None,
    })
}

fn of_two(name: &str, own: NaiveTime, other: NaiveTime, answer: &str) -> Option<bool> {
    Some(match name {
        "signed_duration_since" => is_distance(
            answer,
            own.signed_duration_since(other),
            own - other,
        ),
        "cmp" => is_order(answer, &own, &other),
        _ => return None,
    })
}

// Whether the answer is the time of a move and the seconds of the whole days that it passes, and the operator gives
// the same time.
fn is_move(answer: &str, (time, seconds): (NaiveTime, i64), moved: NaiveTime) -> bool {
    let second = i64::from(time.num_seconds_from_midnight());
    are(answer, &[second, i64::from(time.nanosecond()), seconds]) && time == moved
}

// Whether the answer is the fields of a time, read through the trait alone.
fn are_fields<T: Timelike>(answer: &str, own: &T) -> bool {
    are(
        answer,
        &[
            i64::from(own.hour()),
            i64::from(own.minute()),
            i64::from(own.second()),
            i64::from(own.nanosecond()),
        ],
    )
}

/// The same with one field of its time replaced, through the trait alone.
pub fn with_one<T: Timelike>(name: &str, own: &T, new: u32) -> Option<Option<T>> {
    Some(match name {
        "with_hour" => own.with_hour(new),
        "with_minute" => own.with_minute(new),
        "with_second" => own.with_second(new),
        "with_nanosecond" => own.with_nanosecond(new),
        _ => return None,
    })
}

/// The same with each field of its time set to the next words, through the trait alone.
pub fn with_each<T: Timelike + Drop>(own: &T, words: &mut Words<'_>) -> Option<Option<T>> {
    let (hour, minute, second) = (unsigned(words)?, unsigned(words)?, unsigned(words)?);
    let nano = unsigned(words)?;
    Some(set_to(own, (hour, minute, second), nano))
}

fn set_to<T: Timelike + Drop>(
    own: &T,
    (hour, minute, second): (u32, u32, u32),
    nano: u32,
) -> Option<T> {
    own.with_hour(hour)?
        .with_minute(minute)?
        .with_second(second)?
        .with_nanosecond(nano)
}

// Whether the answer is both the distance that the call gives and that of the operator.
fn is_distance(answer: &str, of_call: TimeDelta, of_operator: TimeDelta) -> bool {
    is_duration(answer, Some(of_call)) && of_call == of_operator
}

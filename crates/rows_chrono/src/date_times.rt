//! Calls of `NaiveDateTime`.

use crate::dates::{read_any, with_field};
use crate::times::{with_each, with_one};
use crate::words::{
    Words, alike, are, count, date, date_time, duration, is_date_time, is_duration, is_order, time,
    unsigned,
};
use chrono_datetime::{
    Datelike, Days, MAX_DATETIME, MIN_DATETIME, Months, NaiveDate, NaiveDateTime, Timelike,
};

/// Whether the call of that name has that answer; `None` if there is no such call, or its arguments are not right.
pub fn is_answered(name: &str, words: &mut Words<'_>, answer: &str) -> Option<bool> {
    if let Some(constant) = constant(name) {
        return Some(is_date_time(answer, Some(constant)));
    }
    let date = date(words)?;
    if name == "from" {
        return Some(is_date_time(answer, Some(NaiveDateTime::from(date))));
    }
    of_one(name, NaiveDateTime::new(date, time(words)?), words, answer)
}

fn constant(name: &str) -> Option<NaiveDateTime> {
    match name {
        "MIN" => alike(MIN_DATETIME, NaiveDateTime::MIN),
        "MAX" => alike(MAX_DATETIME, NaiveDateTime::MAX),
        "default" => Some(NaiveDateTime::default()),
        _ => None,
    }
}

fn of_one(name: &str, own: NaiveDateTime, words: &mut Words<'_>, answer: &str) -> Option<bool> {
    if name.starts_with("checked_") {
        return Some(is_date_time(answer, moved(name, own, words)?));
    }
    if name.starts_with("with_") {
        return Some(is_date_time(answer, with_any(name, &own, words)?));
    }
    match name {
        "signed_duration_since" | "cmp" => of_two(name, own, date_time(words)?, answer),
        "date_and_time" => Some(is_put_together(answer, own)),
        "num_days_from_ce" => Some(are(answer, &[i64::from(own.num_days_from_ce())])),
        "time" => Some(is_time_of(answer, own)),
        _ => read_any(name, &own, answer),
    }
}

// The date-time that lies apart by what further words say.
fn moved(name: &str, own: NaiveDateTime, words: &mut Words<'_>) -> Option<Option<NaiveDateTime>> {
    Some(match name {
        "checked_add_signed" => own.checked_add_signed(duration(words)?),
        "checked_sub_signed" => own.checked_sub_signed(duration(words)?),
        "checked_add_months" => own.checked_add_months(Months::new(unsigned(words)?)),
        "checked_sub_months" => own.checked_sub_months(Months::new(unsigned(words)?)),
        "checked_add_days" => own.checked_add_days(Days::new(count(words)?)),
        "checked_sub_days" => own.checked_sub_days(Days::new(count(words)?)),
        _ => return None,
    })
}

// The same with one field of its time or of its date replaced, or with each of its time.
fn with_any(
    name: &str,
    own: &NaiveDateTime,
    words: &mut Words<'_>,
) -> Option<Option<NaiveDateTime>> {
    match name {
        "with_each" => with_each(own, words),
        "with_hour" | "with_minute" | "with_second" | "with_nanosecond" => {
            with_one(name, own, unsigned(words)?)
        }
        _ => with_field(name, own, words),
    }
}

fn of_two(name: &str, own: NaiveDateTime, other: NaiveDateTime, answer: &str) -> Option<bool> {
    Some(match name {
        "signed_duration_since" => {
            let distance = own.signed_duration_since(other);
            is_duration(answer, Some(distance)) && own - other == distance
        }
        "cmp" => is_order(answer, &own, &other),
        _ => return None,
    })
}

// Whether the answer is all that a date-time tells of its time: whether it is past noon, the hour from 1 to 12, the
// second of the day and the fraction.
fn is_time_of(answer: &str, own: NaiveDateTime) -> bool {
    let (is_past_noon, hour) = own.hour12();
    let second = i64::from(own.num_seconds_from_midnight());
    are(
        answer,
        &[
            i64::from(is_past_noon),
            i64::from(hour),
            second,
            i64::from(own.nanosecond()),
        ],
    )
}

// Whether the answer is the date and the time that a date-time is of.
fn is_put_together(answer: &str, own: NaiveDateTime) -> bool {
    let (date, time) = (own.date(), own.time());
    let days = i64::from(date.num_days_from_ce());
    let second = i64::from(time.num_seconds_from_midnight());
    are(answer, &[days, second, i64::from(time.nanosecond())]) && NaiveDate::from(own) == date
}

//! Rows of texts that are read. Another library printed some of them; others are near to these and have no value.
//!
//! A row is `call text = numbers`, as `date 2024-02-29 = 738945`. The numbers are those of the value, and `none` is no value.
//! A date is its day number, a time of day its second and its fraction, and a date-time all three. A duration is its seconds
//! rounded towards zero, and the nanoseconds past them. A weekday is 1, Monday, to 7, and a month 1 to 12.

use chrono_datetime::{Datelike, NaiveDate, NaiveDateTime, NaiveTime, TimeDelta, Timelike};
use chrono_reading::{
    read_date, read_date_time, read_duration, read_month, read_ordinal_date, read_time,
    read_week_date, read_weekday,
};

// The numbers of a value, 0 for those that it does not have.
type RowNumbers = (i64, i64, i64);

/// Whether the text of the line is read as the numbers behind it.
pub fn is_answered(line: &str) -> bool {
    let Some((call, rest)) = line.split_once(' ') else {
        return false;
    };
    let Some((text, answer)) = rest.split_once(" = ") else {
        return false;
    };
    let Some(read) = numbers_of(call, text.as_bytes()) else {
        return false;
    };
    if answer == "none" {
        return read.is_none();
    }
    read == numbers(answer)
}

// The numbers that stand behind a text.
fn numbers(answer: &str) -> Option<RowNumbers> {
    let mut words = answer.split_ascii_whitespace();
    let first = words.next()?.parse().ok()?;
    let second = words.next().unwrap_or("0").parse().ok()?;
    let third = words.next().unwrap_or("0").parse().ok()?;
    Some((first, second, third))
}

// What the call reads; `None` if there is no such call.
fn numbers_of(call: &str, text: &[u8]) -> Option<Option<RowNumbers>> {
    let read = match call {
        "date" => of_date(read_date(text).ok()),
        "ordinal_date" => of_date(read_ordinal_date(text).ok()),
        "week_date" => of_date(read_week_date(text).ok()),
        "time" => of_time(read_time(text).ok()),
        "date_time" => of_date_time(read_date_time(text).ok()),
        "duration" => of_duration(read_duration(text).ok()),
        "weekday" => of_number(read_weekday(text).ok().map(|day| day.number_from_monday())),
        "month" => of_number(read_month(text).ok().map(|month| month.number_from_month())),
        _ => return None,
    };
    Some(read)
}

fn of_number(number: Option<u32>) -> Option<RowNumbers> {
    Some((i64::from(number?), 0, 0))
}

fn of_date(date: Option<NaiveDate>) -> Option<RowNumbers> {
    Some((i64::from(date?.num_days_from_ce()), 0, 0))
}

fn of_time(time: Option<NaiveTime>) -> Option<RowNumbers> {
    let time = time?;
    let second = i64::from(time.num_seconds_from_midnight());
    Some((second, i64::from(time.nanosecond()), 0))
}

fn of_date_time(date_time: Option<NaiveDateTime>) -> Option<RowNumbers> {
    let date_time = date_time?;
    let (second, fraction, _) = of_time(Some(date_time.time()))?;
    Some((i64::from(date_time.num_days_from_ce()), second, fraction))
}

fn of_duration(duration: Option<TimeDelta>) -> Option<RowNumbers> {
    let duration = duration?;
    Some((
        duration.num_seconds(),
        i64::from(duration.subsec_nanos()),
        0,
    ))
}

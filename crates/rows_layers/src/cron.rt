//! Rows of calls of a schedule.
//!
//! A row is `call minutes hours days months weekdays from_end nearest_workdays last_weekdays nth_weekdays last_workday marks day second
//! fraction = number`. The nine sets are numbers whose binary digits are their members. `last_workday` is 1 where the month's last workday
//! is named. `marks` is 1 where a day of the month or a weekday is enough, and 2 more where the schedule follows the clock. The start is a
//! day number, a second of the day and the nanoseconds past it. The calls are:
//!
//! - `next` and `prev`, answered by the number of minutes from day 0 to the moment, or by `none` where there is no moment;
//! - `due` and `never`, answered by 1 or 0;
//! - `year`, by the sum of those minutes over the next moments after each minute of 365 days, in 64 binary digits;
//! - `walk`, by the same, which is found by trying one day after another;
//! - `dues`, by the minutes to the moments that the iterator gives up to 365 days past the start's, each added to 31 times what came before;
//! - `cycle`, by the same over 400 years.
//!
//! Other calls have other rows. `text` has the eleven numbers of a schedule alone, and is answered by its text. `field low high names text = number`
//! reads the text of a field, with the names of `months` or `weekdays` or with `numbers` alone, and is answered by its set.
//!
//! Two calls read whole texts. `read text = numbers` is answered by the eleven numbers of the schedule, and by `none` where the text is none.
//! `dues_of day second fraction text = numbers` is answered by the minutes to as many moments that are due after the start as there are numbers.
//! `error text = field byte fault` is a text that is no schedule's: see `errors`.

mod errors;

use crate::is_said;
use chrono_cron::{FieldSets, MonthDays, Names, NumberSet, Schedule, read_field, read_schedule};
use chrono_datetime::{Datelike, NaiveDate, NaiveDateTime, NaiveTime, Timelike};
use chrono_text::Text;
use std::str::SplitAsciiWhitespace;

// The seconds of a minute, the minutes of a day, the days of a year, and those of 400 years.
const SECONDS: u32 = 60;

const MINUTES: u32 = 1_440;

const YEAR: i32 = 365;

const CYCLE: i32 = 146_097;

// No text of a schedule is longer.
const LONGEST: usize = 1_000;

/// Whether the call of the line is answered by the number behind it.
pub fn is_answered(line: &str) -> bool {
    let Some((row, expected)) = line.rsplit_once(" = ") else {
        return false;
    };
    let Some((call, arguments)) = row.split_once(' ') else {
        return false;
    };
    match call {
        "error" => errors::is_refused(arguments, expected),
        "field" => is_field_read(arguments, expected),
        "text" => is_written(arguments, expected),
        "read" => is_read(arguments, expected),
        "dues_of" => are_dues(arguments, expected).unwrap_or(false),
        _ => is_found(call, arguments, expected),
    }
}

// Whether the text of a field is read as the set behind it.
fn is_field_read(arguments: &str, expected: &str) -> bool {
    let Some(read) = field_of(arguments) else {
        return false;
    };
    match read {
        Some(set) => set_of(expected) == Some(set),
        None => expected == "none",
    }
}

// What is read of a field between two numbers; none if the line is no such row.
fn field_of(arguments: &str) -> Option<Option<NumberSet>> {
    let (low, rest) = arguments.split_once(' ')?;
    let (high, rest) = rest.split_once(' ')?;
    let (names, text) = rest.split_once(' ')?;
    let names = match names {
        "numbers" => Names::Numbers,
        "months" => Names::Months,
        "weekdays" => Names::Weekdays,
        _ => return None,
    };
    let high: u32 = high.parse().ok()?;
    if high > 63 {
        return None;
    }
    Some(read_field(text.as_bytes(), names, low.parse().ok()?, high))
}

// Whether a schedule has the text behind it.
fn is_written(arguments: &str, expected: &str) -> bool {
    let Some(sets) = sets_of(&mut arguments.split_ascii_whitespace()) else {
        return false;
    };
    let mut text = Text::<LONGEST>::new();
    Schedule { sets }.put_into(&mut text);
    text.as_bytes() == expected.as_bytes()
}

// Whether a text is read as the schedule of the numbers behind it.
fn is_read(text: &str, expected: &str) -> bool {
    match read_schedule(text.as_bytes()) {
        Ok(schedule) => {
            let mut words = expected.split_ascii_whitespace();
            sets_of(&mut words) == Some(schedule.sets) && words.next().is_none()
        }
        Err(_) => expected == "none",
    }
}

// Whether the moments at which a text's schedule is due after a start are those behind it; none if the line is no such row.
fn are_dues(arguments: &str, expected: &str) -> Option<bool> {
    let (day, rest) = arguments.split_once(' ')?;
    let (second, rest) = rest.split_once(' ')?;
    let (fraction, text) = rest.split_once(' ')?;
    let date = NaiveDate::from_num_days_from_ce_opt(day.parse().ok()?)?;
    let time = NaiveTime::from_num_seconds_from_midnight_opt(
        second.parse().ok()?,
        fraction.parse().ok()?,
    )?;
    let mut moments = read_schedule(text.as_bytes())
        .ok()?
        .after(NaiveDateTime::new(date, time));
    for word in expected.split_ascii_whitespace() {
        let minutes: i64 = word.parse().ok()?;
        if minutes_to(moments.next()?) != minutes {
            return Some(false);
        }
    }
    Some(true)
}

// Whether the moment, the truth or the sum that a call finds is the number behind it.
fn is_found(call: &str, arguments: &str, expected: &str) -> bool {
    let Some((schedule, start)) = arguments_of(arguments) else {
        return false;
    };
    let answer = match call {
        "next" => schedule.next_after(start).map(|moment| minutes_to(moment)),
        "prev" => schedule.prev_before(start).map(|moment| minutes_to(moment)),
        "due" => Some(i64::from(schedule.is_due(start))),
        "never" => Some(i64::from(schedule.never_due())),
        "dues" => all_dues(&schedule, start, YEAR),
        "cycle" => all_dues(&schedule, start, CYCLE),
        "year" => Some(sum_of_year(&schedule, start.date(), false)),
        "walk" => Some(sum_of_year(&schedule, start.date(), true)),
        _ => return false,
    };
    is_said(answer, expected)
}

// The schedule and the start that stand in a row.
fn arguments_of(text: &str) -> Option<(Schedule, NaiveDateTime)> {
    let mut words = text.split_ascii_whitespace();
    let sets = sets_of(&mut words)?;
    let date = NaiveDate::from_num_days_from_ce_opt(words.next()?.parse().ok()?)?;
    let second = words.next()?.parse().ok()?;
    let fraction = words.next()?.parse().ok()?;
    let time = NaiveTime::from_num_seconds_from_midnight_opt(second, fraction)?;
    Some((Schedule { sets }, NaiveDateTime::new(date, time)))
}

// The sets of a schedule, whether one field of days is enough, and whether it follows the clock.
fn sets_of(words: &mut SplitAsciiWhitespace) -> Option<FieldSets> {
    let mut sets = FieldSets {
        minutes: set_of(words.next()?)?,
        hours: set_of(words.next()?)?,
        days: set_of(words.next()?)?,
        months: set_of(words.next()?)?,
        weekdays: set_of(words.next()?)?,
        month_days: MonthDays {
            from_end: set_of(words.next()?)?,
            nearest_workdays: set_of(words.next()?)?,
            last_weekdays: set_of(words.next()?)?,
            nth_weekdays: set_of(words.next()?)?,
            last_workday: words.next()? == "1",
        },
        either: false,
        follows_clock: false,
    };
    let marks: u32 = words.next()?.parse().ok()?;
    sets.either = marks & 1 == 1;
    sets.follows_clock = marks & 2 == 2;
    Some(sets)
}

// The set whose digits a word writes as a number: that for 2^k says whether k is a member.
fn set_of(word: &str) -> Option<NumberSet> {
    let digits: u64 = word.parse().ok()?;
    let mut set = NumberSet::none();
    for number in 0..64 {
        if (digits >> number) & 1 == 1 {
            set = set.with(number);
        }
    }
    Some(set)
}

// The minutes from the beginning of day 0 to a moment, rounded down.
fn minutes_to(moment: NaiveDateTime) -> i64 {
    let minute = moment.time().num_seconds_from_midnight() / SECONDS;
    i64::from(moment.date().num_days_from_ce()) * i64::from(MINUTES) + i64::from(minute)
}

// The minutes to the moments that the iterator gives, as one number; none if it gives one more after its end.
fn all_dues(schedule: &Schedule, start: NaiveDateTime, days: i32) -> Option<i64> {
    let end = start.date().num_days_from_ce().wrapping_add(days);
    let mut sum: i64 = 0;
    let mut moments = schedule.after(start);
    while let Some(moment) = moments.next() {
        if moment.date().num_days_from_ce() > end {
            return Some(sum);
        }
        sum = sum.wrapping_mul(31).wrapping_add(minutes_to(moment));
    }
    match moments.next() {
        Some(_) => None,
        None => Some(sum),
    }
}

// The next moment, as `next_after` finds it or by trying one day after another.
fn next_one(schedule: &Schedule, start: NaiveDateTime, by_walk: bool) -> Option<NaiveDateTime> {
    if !by_walk {
        return schedule.next_after(start);
    }
    let begun = start.time().num_seconds_from_midnight() / SECONDS;
    if let Some(next) = first_on(schedule, start.date(), begun + 1) {
        return Some(next);
    }
    for date in start.date().succ_opt()?.iter_days() {
        if let Some(next) = first_on(schedule, date, 0) {
            return Some(next);
        }
    }
    None
}

// The first moment of a day, from a minute of it on.
fn first_on(schedule: &Schedule, date: NaiveDate, from: u32) -> Option<NaiveDateTime> {
    if from > MINUTES || !schedule.sets.is_day(date) {
        return None;
    }
    let minute = schedule.sets.first_minute(from)?;
    let time = NaiveTime::from_num_seconds_from_midnight_opt(minute * SECONDS, 0)?;
    Some(NaiveDateTime::new(date, time))
}

// The sum of the minutes to the next moment, of each minute of so many days from a date on.
fn sum_of_year(schedule: &Schedule, first: NaiveDate, by_walk: bool) -> i64 {
    let mut sum: i64 = 0;
    let mut date = first;
    for _ in 0..YEAR {
        for minute in 0..MINUTES {
            if let Some(time) = NaiveTime::from_num_seconds_from_midnight_opt(minute * SECONDS, 0) {
                if let Some(next) = next_one(schedule, NaiveDateTime::new(date, time), by_walk) {
                    sum = sum.wrapping_add(minutes_to(next));
                }
            }
        }
        if let Some(next) = date.succ_opt() {
            date = next;
        }
    }
    sum
}

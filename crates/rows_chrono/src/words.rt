//! The words of a line as values, and values as the words of an answer.

use chrono_datetime::{
    Datelike, NaiveDate, NaiveDateTime, NaiveTime, TimeDelta, Timelike, Weekday,
};
use std::cmp::Ordering::{Equal, Greater, Less};
use std::hash::{DefaultHasher, Hash, Hasher};
use std::str::SplitAsciiWhitespace;

/// The words of a call after its name, from the first that is not read yet.
pub type Words<'a> = SplitAsciiWhitespace<'a>;

/// The whole number of the next word; `true` is 1 and `false` is 0.
pub fn whole(words: &mut Words<'_>) -> Option<i64> {
    match words.next()? {
        "true" => Some(1),
        "false" => Some(0),
        word => word.parse().ok(),
    }
}

/// The number of the next word, where it fits.
pub fn signed(words: &mut Words<'_>) -> Option<i32> {
    i32::try_from(whole(words)?).ok()
}

/// The number of the next word, where it fits.
pub fn unsigned(words: &mut Words<'_>) -> Option<u32> {
    u32::try_from(whole(words)?).ok()
}

/// The number of the next word, where it fits.
pub fn count(words: &mut Words<'_>) -> Option<u64> {
    words.next()?.parse().ok()
}

/// The weekday that the next word numbers from Monday, 1, on.
pub fn weekday(words: &mut Words<'_>) -> Option<Weekday> {
    Weekday::from_u32(unsigned(words)?.checked_sub(1)?)
}

/// The duration of the next two words.
pub fn duration(words: &mut Words<'_>) -> Option<TimeDelta> {
    TimeDelta::new(whole(words)?, unsigned(words)?)
}

/// The time of day of the next two words; its fraction may be a leap one at any second.
pub fn time(words: &mut Words<'_>) -> Option<NaiveTime> {
    NaiveTime::from_num_seconds_from_midnight_opt(unsigned(words)?, 0)?.with_nanosecond(unsigned(
        words,
    )?)
}

/// The date of the next word.
pub fn date(words: &mut Words<'_>) -> Option<NaiveDate> {
    NaiveDate::from_num_days_from_ce_opt(signed(words)?)
}

/// The date-time of the next three words.
pub fn date_time(words: &mut Words<'_>) -> Option<NaiveDateTime> {
    Some(NaiveDateTime::new(date(words)?, time(words)?))
}

/// Whether the answer is those numbers.
pub fn are(answer: &str, numbers: &[i64]) -> bool {
    let words = &mut answer.split_ascii_whitespace();
    for number in numbers.iter().copied() {
        if whole(words) != Some(number) {
            return false;
        }
    }
    words.next().is_none()
}

/// Whether the next word is that number, or `none` where there is none.
pub fn is_next(words: &mut Words<'_>, number: Option<i64>) -> bool {
    match number {
        Some(number) => whole(words) == Some(number),
        None => words.next() == Some("none"),
    }
}

/// Whether the answer is that number, or `none` where there is none.
pub fn is_number(answer: &str, number: Option<i64>) -> bool {
    match number {
        Some(number) => are(answer, &[number]),
        None => answer == "none",
    }
}

/// Whether the answer is that duration, or `none` where there is none.
pub fn is_duration(answer: &str, duration: Option<TimeDelta>) -> bool {
    match duration {
        Some(duration) => duration_of(answer) == Some(duration),
        None => answer == "none",
    }
}

// The duration that a whole answer is.
fn duration_of(answer: &str) -> Option<TimeDelta> {
    let words = &mut answer.split_ascii_whitespace();
    let read = duration(words)?;
    if words.next().is_none() {
        Some(read)
    } else {
        None
    }
}

/// Whether the answer is that time of day, or `none` where there is none.
pub fn is_time(answer: &str, time: Option<NaiveTime>) -> bool {
    match time {
        Some(time) => {
            let second = i64::from(time.num_seconds_from_midnight());
            are(answer, &[second, i64::from(time.nanosecond())])
        }
        None => answer == "none",
    }
}

/// Whether the answer is that date, or `none` where there is none, and the date is alike the one of its day number.
pub fn is_date(answer: &str, date: Option<NaiveDate>) -> bool {
    match date {
        Some(date) => {
            let days = date.num_days_from_ce();
            let again = NaiveDate::from_num_days_from_ce_opt(days);
            let is_alike = again.is_some_and(|again| again == date
                && hash_of(&again) == hash_of(&date));
            are(answer, &[i64::from(days)]) && is_alike
        }
        None => answer == "none",
    }
}

/// Whether the answer is that date-time, or `none` where there is none.
pub fn is_date_time(answer: &str, date_time: Option<NaiveDateTime>) -> bool {
    match date_time {
        Some(date_time) => {
            let days = i64::from(date_time.num_days_from_ce());
            let second = i64::from(date_time.num_seconds_from_midnight());
            are(answer, &[days, second, i64::from(date_time.nanosecond())])
        }
        None => answer == "none",
    }
}

/// Whether the answer is that weekday, or `none` where there is none.
pub fn is_weekday(answer: &str, weekday: Option<Weekday>) -> bool {
    match weekday {
        Some(weekday) => are(answer, &[i64::from(weekday.number_from_monday())]),
        None => answer == "none",
    }
}

/// Whether the answer is how the first value compares with the second: by each comparison, either way round, and equal
/// values hash alike.
pub fn is_order<T: Ord + Hash>(answer: &str, own: &T, other: &T) -> bool {
    let order = own.cmp(other);
    let number = match order {
        Less => -1,
        Equal => 0,
        Greater => 1,
    };
    are(answer, &[number])
        && other.cmp(own) == order.reverse()
        && (own < other) == (order == Less)
        && (own > other) == (order == Greater)
        && (own == other) == (order == Equal)
        && (order != Equal || hash_of(own) == hash_of(other))
}

/// The value that two names stand for, where it is one.
pub fn alike<T: Copy + PartialEq>(own: T, other: T) -> Option<T> {
    if own == other { Some(own) } else { None }
}

/// The number that a hasher makes of the value.
pub fn hash_of<T: Hash>(value: &T) -> u64 {
    let mut state = DefaultHasher::new();
    value.hash(&mut state);
    state.finish()
}

/// The number of items that are left, where the two calls that tell it agree.
pub fn left(len: usize, hint: (usize, Option<usize>)) -> Option<i64> {
    if hint == (len, Some(len)) {
        i64::try_from(len).ok()
    } else {
        None
    }
}

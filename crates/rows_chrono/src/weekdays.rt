//! Calls of `Weekday`.

use crate::words::{Words, are, count, is_weekday, unsigned, weekday, whole};
use chrono_datetime::Weekday;

/// Whether the call of that name has that answer; `None` if there is no such call, or its arguments are not right.
pub fn is_answered(name: &str, words: &mut Words<'_>, answer: &str) -> Option<bool> {
    Some(match name {
        "try_from" => {
            let number = u8::try_from(unsigned(words)?).ok()?;
            is_weekday(answer, Weekday::try_from(number).ok())
        }
        "from_u32" => is_weekday(answer, Weekday::from_u32(unsigned(words)?)),
        "from_u64" => is_weekday(answer, Weekday::from_u64(count(words)?)),
        "from_i64" => is_weekday(answer, Weekday::from_i64(whole(words)?)),
        _ => return of_one(name, weekday(words)?, words, answer),
    })
}

fn of_one(name: &str, own: Weekday, words: &mut Words<'_>, answer: &str) -> Option<bool> {
    match name {
        "succ" => Some(is_weekday(answer, Some(own.succ()))),
        "pred" => Some(is_weekday(answer, Some(own.pred()))),
        "days_since" => Some(are(answer, &[i64::from(own.days_since(weekday(words)?))])),
        _ => Some(are(answer, &[i64::from(number(name, own)?)])),
    }
}

// The number that the call of that name gives a weekday.
fn number(name: &str, own: Weekday) -> Option<u32> {
    Some(match name {
        "number_from_monday" => own.number_from_monday(),
        "number_from_sunday" => own.number_from_sunday(),
        "num_days_from_monday" => own.num_days_from_monday(),
        "num_days_from_sunday" => own.num_days_from_sunday(),
        _ => return None,
    })
}

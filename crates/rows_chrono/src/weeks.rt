//! Calls of `NaiveWeek`, which a date and the first weekday of its weeks make, and of `IsoWeek`, which a date makes.

use crate::words::{Words, are, date, hash_of, is_date, is_order, weekday};
use chrono_datetime::{Datelike, NaiveWeek};

/// Whether the call of that name has that answer; `None` if there is no such call, or its arguments are not right.
pub fn is_answered(name: &str, words: &mut Words<'_>, answer: &str) -> Option<bool> {
    let own = week(words)?;
    Some(match name {
        "checked_first_day" => is_date(answer, own.checked_first_day()),
        "checked_last_day" => is_date(answer, own.checked_last_day()),
        "checked_days" => match own.checked_days() {
            Some(days) => {
                let first = i64::from(days.start().num_days_from_ce());
                are(answer, &[first, i64::from(days.end().num_days_from_ce())])
            }
            None => answer == "none",
        },
        "eq" => {
            let other = week(words)?;
            let are_equal = own == other;
            are(answer, &[i64::from(are_equal)]) && (!are_equal || hash_of(&own) == hash_of(&other))
        }
        _ => return None,
    })
}

/// Whether the call of that name of the ISO weeks of two dates has that answer; `None` as above.
pub fn is_answered_by_iso(name: &str, words: &mut Words<'_>, answer: &str) -> Option<bool> {
    let (own, other) = (date(words)?.iso_week(), date(words)?.iso_week());
    match name {
        "cmp" => Some(is_order(answer, &own, &other)),
        _ => None,
    }
}

fn week(words: &mut Words<'_>) -> Option<NaiveWeek> {
    Some(date(words)?.week(weekday(words)?))
}

//! Calls of `Month`, which a number from 1 to 12 names, and of `Months`, a number of them.

use crate::words::{Words, are, count, is_number, is_order, signed, unsigned, whole};
use chrono_datetime::{Month, Months};

/// Whether the call of that name has that answer; `None` if there is no such call, or its arguments are not right.
pub fn is_answered(name: &str, words: &mut Words<'_>, answer: &str) -> Option<bool> {
    Some(match name {
        "try_from" => {
            let number = u8::try_from(unsigned(words)?).ok()?;
            is_month(answer, Month::try_from(number).ok())
        }
        "from_u32" => is_month(answer, Month::from_u32(unsigned(words)?)),
        "from_u64" => is_month(answer, Month::from_u64(count(words)?)),
        "from_i64" => is_month(answer, Month::from_i64(whole(words)?)),
        _ => return of_one(name, Month::from_u32(unsigned(words)?)?, words, answer),
    })
}

/// Whether the call of that name of a number of months has that answer; `None` as above.
pub fn is_answered_by_span(name: &str, words: &mut Words<'_>, answer: &str) -> Option<bool> {
    let own = Months::new(unsigned(words)?);
    match name {
        "as_u32" => Some(are(answer, &[i64::from(own.as_u32())])),
        "cmp" => Some(is_order(answer, &own, &Months::new(unsigned(words)?))),
        _ => None,
    }
}

fn of_one(name: &str, own: Month, words: &mut Words<'_>, answer: &str) -> Option<bool> {
    Some(match name {
        "succ" => is_month(answer, Some(own.succ())),
        "pred" => is_month(answer, Some(own.pred())),
        "number_from_month" => are(answer, &[i64::from(own.number_from_month())]),
        "cmp" => is_order(answer, &own, &Month::from_u32(unsigned(words)?)?),
        "name" => answer == own.name(),
        "num_days" => match own.num_days(signed(words)?) {
            Some(days) => are(answer, &[i64::from(days)]),
            None => is_number(answer, None),
        },
        _ => return None,
    })
}

// Whether the answer is that month, or `none` where there is none.
fn is_month(answer: &str, month: Option<Month>) -> bool {
    match month {
        Some(month) => are(answer, &[i64::from(month.number_from_month())]),
        None => answer == "none",
    }
}

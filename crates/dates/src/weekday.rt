//! The weekday of a day.

use crate::each::{Asks, answer_each};
use crate::prelude::*;

pub(crate) fn command() -> &'static CommandRow {
    row!(
        "weekday", &[DAY_OR_LINES], &[NOW, PARSE, ORDER, JSON, HELP];
        help: "print the weekday of a day",
        more: "With - in place of the day it answers each line of standard input. With none it\n\
            does so if something is piped in, and else takes today.",
        example: "$ dates weekday 2024-02-29\nThursday"
    )
}

// The weekday of the day, or of that of each line.
pub(crate) fn answer(asked: &mut Asked<'_>) {
    asked.none = Reply::Nothing(Key::Weekday);
    let date = asked.day_or_today(0);
    answer_each(asked, date, Asks::Weekday);
}

//! Easter Sunday.

use crate::prelude::*;

pub(crate) fn command() -> &'static CommandRow {
    row!(
        "easter", &[YEAR], &[FORMAT, LONG, JSON, HELP];
        help: "print Easter Sunday of a year",
        more: "Easter is worked out by the Gregorian rule.",
        example: "$ dates easter 2025\n2025-04-20"
    )
}

// Easter Sunday of the year.
pub(crate) fn answer(asked: &mut Asked<'_>) {
    let word = asked.word(0);
    let year = asked.year(word);
    match chrono_business::easter(year) {
        Some(sunday) => asked.print(Reply::Date(sunday)),
        None => asked.no_such(word, NO_YEAR),
    }
}

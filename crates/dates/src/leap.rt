//! Leap years.

use crate::prelude::*;

pub(crate) fn command() -> &'static CommandRow {
    row!(
        "leap", &[YEAR], PLAIN;
        help: "print whether a year is a leap year",
        more: "It prints yes or no.",
        example: "$ dates leap 2100\nno"
    )
}

// `yes` where the year is a leap year, and else `no`.
pub(crate) fn answer(asked: &mut Asked<'_>) {
    asked.none = Reply::Nothing(Key::Leap);
    let first = asked.start_of_year(asked.word(0));
    asked.print(Reply::Whether(Key::Leap, first.leap_year()));
}

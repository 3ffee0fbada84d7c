//! Whether a day is open.

use crate::each::{Asks, answer_each};
use crate::prelude::*;

pub(crate) fn command() -> &'static CommandRow {
    row!(
        "open", &[DAY_OR_LINES], &[WEEKEND, CALENDAR, HOLIDAYS, NOW, PARSE, ORDER, JSON, HELP];
        help: "print whether a day is open",
        more: "It prints yes where the day is neither on the weekend nor a holiday, and else\n\
            no.\n\
            With - in place of the day it answers each line of standard input. With none it\n\
            does so if something is piped in, and else takes today.",
        example: "$ dates open 2024-03-29 --calendar england\nno"
    )
}

// Whether the day, or that of each line, is open.
pub(crate) fn answer(asked: &mut Asked<'_>) {
    asked.none = Reply::Nothing(Key::Open);
    let date = asked.day_or_today(0);
    let holidays = asked.holidays();
    answer_each(asked, date, Asks::Open(holidays));
}

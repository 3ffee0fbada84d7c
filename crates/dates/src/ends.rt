//! First and last days of weeks, months, quarters and years.

use crate::each::{Asks, answer_each};
use crate::prelude::*;

// The periods that have a first and a last day.
const PERIODS: &[&str] = &["week", "month", "quarter", "year"];

// How many months each has; 0 stands for a week.
const MONTHS: &[u32] = &[0, 1, 3, 12];

pub(crate) fn first() -> &'static CommandRow {
    row!(
        "first", &[operand!("PERIOD"; values: PERIODS), DAY_OR_LINES],
        ROUNDED;
        help: "print the first day of the week, month, quarter or year",
        more: MORE,
        example: "$ dates first quarter 2024-02-29\n2024-01-01"
    )
}

pub(crate) fn last() -> &'static CommandRow {
    row!(
        LAST, &[operand!("PERIOD"; values: PERIODS), DAY_OR_LINES],
        ROUNDED;
        help: "print the last day of the week, month, quarter or year",
        more: MORE,
        example: "$ dates last month 2024-02-14\n2024-02-29"
    )
}

const MORE: &str = "A PERIOD is week, month, quarter or year. A week begins on Monday.\n\
    In place of the day a month will do, as 2024-02 or 'Feb 2024', but for a week.\n\
    With - in place of the day it answers each line of standard input. With none it\n\
    does so if something is piped in, and else takes today.";

// The options of both.
const ROUNDED: &[Opt] = &[
    NOW, PARSE, ORDER, FORMAT, LONG, WITHIN, FIELD, SEPARATOR, JSON, HELP,
];

const LAST: &str = "last";

// The day at an end of the day's period, or of that of each line.
pub(crate) fn answer(asked: &mut Asked<'_>) {
    let period = asked.choice(asked.word(0), PERIODS);
    let months = MONTHS.get(period).copied().unwrap_or(0);
    let is_last = asked.command.name == LAST;
    asked.reading.takes_month = months > 0 && !matches!(asked.within, Within::Words);
    let date = asked.day_or_today(1);
    answer_each(asked, date, Asks::End(months, is_last));
}

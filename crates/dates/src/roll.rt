//! Where closed days go.

use crate::day::is_alone;
use crate::each::{Asks, answer_each};
use crate::prelude::*;
use chrono_business::Roll;

// The names of conventions.
const CONVENTIONS: &[&str] = &[
    "following",
    "preceding",
    "modified-following",
    "modified-preceding",
    "nearest",
    "unadjusted",
];

// The conventions, in that order.
const ROLLS: &[Roll] = &[
    Roll::Following,
    Roll::Preceding,
    Roll::ModifiedFollowing,
    Roll::ModifiedPreceding,
    Roll::NearestQuantLib,
    Roll::Unadjusted,
];

pub(crate) fn command() -> &'static CommandRow {
    row!(
        "roll", &[DAY_OR_LINES, operand!("CONVENTION"; values: CONVENTIONS)],
        &[WEEKEND, CALENDAR, HOLIDAYS, NOW, PARSE, ORDER, FORMAT, LONG, WITHIN, FIELD, SEPARATOR, JSON, HELP];
        help: "print where a closed day goes",
        more: "A CONVENTION is following, preceding, modified-following, modified-preceding,\n\
            nearest or unadjusted. An open day stays.\n\
            With - in place of the day, or none, it answers each line of standard input, or\n\
            today where nothing is piped in.",
        example: "$ dates roll 2024-03-30 modified-following\n2024-03-29"
    )
}

// Where the day, or that of each line, goes.
pub(crate) fn answer(asked: &mut Asked<'_>) {
    let first = asked.word(0);
    let (date, roll) = match asked.words.operand(1) {
        Some(second) => (asked.day_if(asked.word_or_lines(0)), asked.roll_of(second)),
        None if begins_as_day(first) => {
            asked.day_if(asked.word_or_lines(0));
            return asked.missing_operand(1);
        }
        None if is_alone(asked.rt) => (Some(asked.day_shown()), asked.roll_of(first)),
        None => (None, asked.roll_of(first)),
    };
    let holidays = asked.holidays();
    answer_each(asked, date, Asks::Roll(holidays, roll));
}

impl Asked<'_> {
    // The roll of the convention that a word names.
    fn roll_of(&mut self, word: Word<'_>) -> Roll {
        let roll = ROLLS.get(self.choice(word, CONVENTIONS)).copied();
        roll.unwrap_or(Roll::Unadjusted)
    }
}

//! The first and the last day of a week.

use crate::each::{Asks, answer_each};
use crate::prelude::*;
use dates_answer::Quoted;

pub(crate) fn command() -> &'static CommandRow {
    row!(
        "week", &[DAY_OR_LINES], &[NOW, PARSE, ORDER, FORMAT, LONG, JSON, HELP];
        help: "print the first and the last day of a week",
        more: "It is the ISO week of a day, from Monday on, or a week as 2024-W09.\n\
            With - in place of the day it answers each line of standard input. With none it\n\
            does so if something is piped in, and else takes today.",
        example: "$ dates week 2024-W09\n2024-02-26 2024-03-03"
    )
}

// The Monday and the Sunday of the day's week, or of that of each line.
pub(crate) fn answer(asked: &mut Asked<'_>) {
    asked.none = Reply::NoWeek(None);
    let date = asked.day_or_today(0);
    answer_each(asked, date, Asks::Week);
}

impl Asked<'_> {
    // Prints the first and the last day of a week by the pattern, or that they lack what it asks for.
    pub(crate) fn print_week_by_pattern(&mut self, first: NaiveDate, last: NaiveDate) {
        let (first, last) = (Start::Day(first), Start::Day(last));
        let text = self.text_by_pattern(&first);
        let other = self.text_by_pattern(&last);
        match (text, other) {
            (Ok(Some(text)), Ok(Some(other))) => {
                let mut line = Buffer::new(self.rt.alloc());
                put_week(&mut line, self.form, text.as_str(), other.as_str());
                let line = self.text(&line);
                self.print_line(&line, ANSWERED);
            }
            (Err(error), _) | (_, Err(error)) => self.fail(error),
            _ => self.say_lacking(&first, Reply::NoWeek(None)),
        }
    }
}

// Puts the first and the last day of a week behind a text.
fn put_week(out: &mut Buffer, form: OutputForm, first: &str, last: &str) {
    match form {
        OutputForm::Text => put!(out, first, " ", last),
        OutputForm::Json => {
            out.put("{\"first\":");
            out.show(&Quoted { text: first });
            out.put(",\"last\":");
            out.show(&Quoted { text: last });
            out.put("}");
        }
    }
}

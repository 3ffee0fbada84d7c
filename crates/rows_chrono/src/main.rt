//! `rows_chrono` makes the library call that each line of standard input names, and compares its answer with the one
//! that stands there: outside answers as data, which the builds of both compilers are held to.
//!
//! A line is `Type.call arguments = answer`, or a constant where the call stands, in whole numbers with a space between:
//! a duration is its seconds rounded down and the nanoseconds past them, a time of day its second and its fraction, a
//! date its day number, a date-time all three, a weekday 1, Monday, to 7, a set of weekdays 0 to 127 by its binary
//! digits, Monday's the lowest, a month 1 to 12; an order is -1, 0 or 1, and what is not there is `none`. Each line that
//! is answered otherwise is printed with its number, and at the end their count. A line of a date is asked of both stored
//! forms too.
#![tactic(auto)]

mod date_times;
mod date_walks;
mod dates;
mod durations;
mod forms;
mod months;
mod sets;
mod times;
mod weekdays;
mod weeks;
mod words;

use chrono_stored::{CountedForm, PackedForm};
use std::io::{self, BufRead, BufReader};
use words::Words;

fn main(rt: HostRuntime) -> io::Result<()> {
    let (mut lines, mut others) = (0u64, 0u64);
    for line in BufReader::new(rt.alloc(), rt.reader())?.lines(rt.alloc()) {
        let line = line?;
        lines = lines.wrapping_add(1);
        if !is_answered(line.as_str()) {
            others = others.wrapping_add(1);
            println!(rt; "line {lines} is answered otherwise: {line}")?;
        }
    }
    println!(rt; "{lines} lines, {others} of them answered otherwise")?;
    Ok(())
}

// Whether the call of the line has the answer that stands there, by the public call and by both stored forms.
fn is_answered(line: &str) -> bool {
    let Some((call, answer)) = line.split_once(" = ") else {
        return false;
    };
    let arguments = &mut call.split_ascii_whitespace();
    let Some((owner, name)) = arguments.next().and_then(|word| word.split_once('.')) else {
        return false;
    };
    let is_same = is_answered_by(owner, name, arguments, answer);
    is_same == Some(true)
        && arguments.next().is_none()
        && is_answered_by_forms(owner, name, call, answer)
}

// Whether the call of that name of a type has that answer; `None` if there is no such call, or its arguments are not right.
fn is_answered_by(
    owner: &str,
    name: &str,
    arguments: &mut Words<'_>,
    answer: &str,
) -> Option<bool> {
    match owner {
        "NaiveDate" => dates::is_answered(name, arguments, answer),
        "NaiveTime" => times::is_answered(name, arguments, answer),
        "NaiveDateTime" => date_times::is_answered(name, arguments, answer),
        "TimeDelta" => durations::is_answered(name, arguments, answer),
        _ => is_answered_by_part(owner, name, arguments, answer),
    }
}

// The same of the types that a calendar is made of.
fn is_answered_by_part(
    owner: &str,
    name: &str,
    arguments: &mut Words<'_>,
    answer: &str,
) -> Option<bool> {
    match owner {
        "NaiveWeek" => weeks::is_answered(name, arguments, answer),
        "IsoWeek" => weeks::is_answered_by_iso(name, arguments, answer),
        "Weekday" => weekdays::is_answered(name, arguments, answer),
        "WeekdaySet" => sets::is_answered(name, arguments, answer),
        "Month" => months::is_answered(name, arguments, answer),
        "Months" => months::is_answered_by_span(name, arguments, answer),
        _ => None,
    }
}

// Whether both stored forms answer so, where they have the call.
fn is_answered_by_forms(owner: &str, name: &str, call: &str, answer: &str) -> bool {
    let ("NaiveDate" | "NaiveWeek", Some((_, arguments))) = (owner, call.split_once(' ')) else {
        return true;
    };
    let words = &mut arguments.split_ascii_whitespace();
    let packed = forms::is_answered::<PackedForm>(name, words, answer);
    let words = &mut arguments.split_ascii_whitespace();
    let counted = forms::is_answered::<CountedForm>(name, words, answer);
    packed != Some(false) && counted == packed
}

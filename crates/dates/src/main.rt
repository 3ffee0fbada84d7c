//! `dates` prints what a person at a terminal asks of dates. `table.rt` has its commands.
#![tactic(auto)]

// Puts pieces behind a text, one after another.
macro_rules! put {
    ($out:expr, $($piece:expr),+ $(,)?) => {
        {
            $($out.put($piece);)+
        }
    };
}

// The row of a command: its name, its operands and its options, and what help says of it.
macro_rules! row {
    ($name:expr, $operands:expr, $options:expr; $($field:ident: $text:expr),*) => {
        &CommandRow { name: $name, operands: $operands, options: $options, $($field: $text),* }
    };
}

// A flag.
macro_rules! flag {
    ($name:expr, $help:expr) => {
        Opt { name: $name, help: $help, ..OPTION }
    };
}

// An option with its value and its help, and what it has beside them.
macro_rules! option {
    ($name:expr, $value:expr; $help:expr $(, $field:ident: $has:expr)*) => {
        Opt { name: $name, value: $value, help: $help, $($field: $has,)* ..OPTION }
    };
}

// An operand that has to be there, if nothing else is said of it.
macro_rules! operand {
    ($name:expr $(; $($field:ident: $has:expr),*)?) => {
        Operand { name: $name, $($($field: $has,)*)? ..OPERAND }
    };
}

mod add;
mod apart;
mod asked;
mod cal;
mod check;
mod closed;
mod day;
mod diff;
mod due;
mod each;
mod easter;
mod ends;
mod explain;
mod explain_rule;
mod fault;
mod fields;
mod format;
mod grep;
mod holidays;
mod in_zone;
mod leap;
mod left_out;
mod lines;
mod named;
mod now;
mod open;
mod open_count;
mod options;
mod patterned;
mod prelude;
mod roll;
mod round;
mod rule;
mod seq;
mod skip;
mod skip_times;
mod table;
mod test;
mod texts;
mod timed_rule;
mod values;
mod week;
mod weekday;
mod within;
mod zone_changes;
mod zoned;
mod zoned_seconds;

use prelude::*;
use std::env;
use std::process::ExitCode;

fn main(rt: HostRuntime) -> ExitCode {
    ExitCode::from(run(&rt))
}

// Answers what the arguments ask for; the exit status.
fn run(rt: &HostRuntime) -> u8 {
    match texts_of(rt) {
        Ok(texts) => answer_arguments(rt, texts.as_slice()),
        Err(error) => {
            let mut asked = Asked::new(rt, day::command());
            asked.refuse_arguments(error);
            asked.status
        }
    }
}

// The arguments.
fn texts_of(rt: &HostRuntime) -> io::Result<Vec<String>> {
    let mut arguments = env::args(rt)?;
    arguments.next();
    Ok(arguments.collect(rt.alloc())?)
}

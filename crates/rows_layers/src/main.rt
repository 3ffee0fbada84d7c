//! `rows_layers` makes the call of each row of standard input, and compares what it answers with what stands behind it.
//!
//! A line `rows reading`, `rows business`, `rows cron` or `rows rules` says whose rows follow. The module of that name says
//! what these are. A row before any such line is answered otherwise.
//!
//! Each line that is answered otherwise is printed with its number, and at the end their count. Lines `rows ..` are
//! counted too, so a row has the number of its line in the file.
#![tactic(auto)]

mod business;
mod cron;
mod reading;
mod rules;

use business::Named;
use chrono_datetime::NaiveDate;
use rules::Beside;
use std::alloc::Global;
use std::io::{self, BufRead, BufReader};

// What the rows call: a layer, or what reads texts.
#[derive(Clone, Copy)]
enum Layer {
    Reading,
    Business,
    Cron,
    Rules,
}

// The layer whose rows follow, with what the rows of business days have named and the dates beside a rule.
#[derive(Drop)]
struct Rows {
    layer: Option<Layer>,
    named: Named<Global>,
    beside: Beside<Global>,
}

impl Rows {
    // Whether the line names a layer, whose rows follow, or is a row that is answered as it says.
    fn agrees(&mut self, line: &str, alloc: Global) -> io::Result<bool> {
        if let Some(layer) = layer_of(line) {
            self.layer = Some(layer);
            return Ok(true);
        }
        match self.layer {
            Some(Layer::Reading) => Ok(reading::is_answered(line)),
            Some(Layer::Business) => self.named.agrees(line),
            Some(Layer::Cron) => Ok(cron::is_answered(line)),
            Some(Layer::Rules) => rules::is_answered(line, &mut self.beside, alloc),
            None => Ok(false),
        }
    }
}

fn main(rt: HostRuntime) -> io::Result<()> {
    let mut rows = Rows {
        layer: None,
        named: Named::new(rt.alloc(), rt.alloc(), rt.alloc()),
        beside: Beside::new(rt.alloc(), rt.alloc()),
    };
    let (mut lines, mut others) = (0u64, 0u64);
    for line in BufReader::new(rt.alloc(), rt.reader())?.lines(rt.alloc()) {
        let line = line?;
        lines = lines.wrapping_add(1);
        if !rows.agrees(line.as_str(), rt.alloc())? {
            others = others.wrapping_add(1);
            println!(rt; "line {lines} is answered otherwise: {line}")?;
        }
    }
    println!(rt; "{lines} lines, {others} of them answered otherwise")?;
    Ok(())
}

// The layer that a line `rows ..` names.
fn layer_of(line: &str) -> Option<Layer> {
    match line {
        "rows reading" => Some(Layer::Reading),
        "rows business" => Some(Layer::Business),
        "rows cron" => Some(Layer::Cron),
        "rows rules" => Some(Layer::Rules),
        _ => None,
    }
}

// The date with the day number that a word writes.
pub(crate) fn date_of(word: &str) -> Option<NaiveDate> {
    NaiveDate::from_num_days_from_ce_opt(word.parse().ok()?)
}

// Whether the words say the number, or that there is none.
pub(crate) fn is_said(number: Option<i64>, answer: &str) -> bool {
    match number {
        Some(number) => answer.parse() == Ok(number),
        None => answer == "none",
    }
}

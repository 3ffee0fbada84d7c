//! How far it is in several units, the greatest first: each counts what those before it leave. Years and months count together.

use crate::diff::{Measure, key_text, measure_named};
use crate::prelude::*;
use dates_answer::{distance, moved};

// How long the unit of that name is at most, in seconds; 0 where it is no whole unit.
fn length_of(name: &str) -> i64 {
    match measure_named(name) {
        Some(Measure::Time(_, seconds)) => seconds,
        Some(Measure::Whole(unit)) => {
            86_400
                * match unit {
                    Unit::Days => 1,
                    Unit::Weeks => 7,
                    Unit::Months => 31,
                    Unit::Years => 366,
                }
        }
        _ => 0,
    }
}

// Whether a text names several units, the greatest first, as `w,d`.
pub(crate) fn are_units(text: &str) -> bool {
    let mut last = i64::MAX;
    for name in text.split(',') {
        let length = length_of(name);
        if length == 0 || last <= length {
            return false;
        }
        last = length;
    }
    text.contains(',')
}

impl Asked<'_> {
    // Puts how far it is behind a text, as `2w 3d`, or as the members of an object; whether there is an answer.
    pub(crate) fn put_apart(&self, out: &mut Buffer, from: &Start, to: &Start) -> Option<()> {
        let mut at = *from;
        let mut years: Option<i64> = None;
        for name in self.units.split(',') {
            let (count, reached) = match (measure_named(name), years) {
                (Some(Measure::Whole(Unit::Months)), Some(years)) => {
                    let (whole, reached) = self.whole_units(from, to, Unit::Months)?;
                    (whole.checked_sub(years.checked_mul(12)?)?, reached)
                }
                (Some(Measure::Whole(unit)), _) => self.whole_units(&at, to, unit)?,
                _ => self.whole_times(&at, to, length_of(name))?,
            };
            if matches!(measure_named(name), Some(Measure::Whole(Unit::Years))) {
                years = Some(count);
            }
            self.put_count(out, name, Some(count));
            at = reached;
        }
        if out.is_empty() {
            put!(out, "0", self.units.rsplit(',').next().unwrap_or(""));
        }
        Some(())
    }

    // Puts how many units of a name there are behind a text: none is left out, but in an object, where null stands for no answer.
    fn put_count(&self, out: &mut Buffer, name: &str, count: Option<i64>) {
        if matches!(self.form, OutputForm::Json) {
            let key = match measure_named(name) {
                Some(measure) => key_text(measure),
                None => "",
            };
            put!(out, if out.is_empty() { "\"" } else { ",\"" }, key, "\":");
            match count {
                Some(count) => out.show(&count),
                None => out.put("null"),
            }
        } else if let Some(count) = count {
            if count != 0 {
                out.put(if out.is_empty() { "" } else { " " });
                out.show(&count);
                out.put(name);
            }
        }
    }

    // Prints how far it is in several units.
    pub(crate) fn print_units(&mut self, counts: &Buffer, status: u8) {
        let mut line = Buffer::new(self.rt.alloc());
        let counts = self.text(counts);
        match self.form {
            OutputForm::Text => line.put(counts),
            OutputForm::Json => put!(line, "{", counts, "}"),
        }
        let line = self.text(&line);
        self.print_line(&line, status);
    }

    // Prints that there is no answer in several units.
    pub(crate) fn print_no_units(&mut self) {
        let mut nulls = Buffer::new(self.rt.alloc());
        for name in self.units.split(',') {
            self.put_count(&mut nulls, name, None);
        }
        if nulls.is_empty() {
            nulls.put("none");
        }
        self.print_units(&nulls, NONE);
    }

    // How many times of so many seconds lie between two, and what lies as many on.
    fn whole_times(&self, at: &Start, to: &Start, seconds: i64) -> Option<(i64, Start)> {
        let count = at.until(to).num_seconds().checked_div(seconds)?;
        let by = TimeDelta::try_seconds(count.checked_mul(seconds)?);
        Some((count, self.later(*at, by)?))
    }

    // How many whole units lie between two, and what lies as many on.
    pub(crate) fn whole_units(&self, at: &Start, to: &Start, unit: Unit) -> Option<(i64, Start)> {
        let (first, last) = (at.local().date(), self.local_beside(at, to)?.date());
        let count = distance(first, last, unit);
        let reached = self.units_on(at, count, unit)?;
        let zero = TimeDelta::zero();
        let is_past = if at.until(to) < zero {
            zero < reached.until(to)
        } else {
            reached.until(to) < zero
        };
        if !is_past {
            return Some((count, reached));
        }
        let count = count.checked_sub(count.signum())?;
        Some((count, self.units_on(at, count, unit)?))
    }

    // What lies so many units on, at the same time of day.
    fn units_on(&self, at: &Start, count: i64, unit: Unit) -> Option<Start> {
        self.on(*at, moved(at.local().date(), Span { count, unit })?)
    }

    // The local time of another, by the offset of the first where no zone is named.
    fn local_beside(&self, at: &Start, to: &Start) -> Option<NaiveDateTime> {
        if self.zone.is_some() {
            return Some(to.local());
        }
        at.local().checked_add_signed(at.until(to))
    }
}

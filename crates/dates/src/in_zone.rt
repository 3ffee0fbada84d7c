//! Date-times in time zones.

use crate::day::is_alone;
use crate::prelude::*;

const FROM_ZONE: Opt = option!(
    "--from-zone", "ZONE";
    "whose local time a date-time without offset is\n(default: that of the first ZONE)"
);

pub(crate) fn command() -> &'static CommandRow {
    row!(
        "in", &[ZONE, operand!("TIME"; required: false)],
        &[FROM_ZONE, WITHIN, FIELD, SEPARATOR, NOW, UNIX, PARSE, ORDER, FORMAT, LONG, JSON, HELP];
        help: "print what a time zone's clock shows",
        more: IN_ZONES,
        example: "$ dates in America/New_York 2024-02-29T12:00Z\n2024-02-29T07:00:00-05:00 EST"
    )
}

// The zone whose clock is shown, and the zone whose local time a date-time without offset is.
#[derive(Drop)]
struct Zones {
    shown: OwnedZone,
    read: Option<OwnedZone>,
}

// What the zone's clock shows at the instant, or at that of each line.
pub(crate) fn answer(asked: &mut Asked<'_>) {
    asked.none = Reply::NoClock;
    let Some(shown) = asked.zone_of(asked.word(0)) else {
        return;
    };
    let read = match asked.value("--from-zone") {
        Some(word) => asked.zone_of(word),
        None => None,
    };
    let mut zones = Zones { shown, read };
    asked.take_clocks(false);
    if asked.words.operand(1).is_none() && is_alone(asked.rt) {
        if let Some(stamp) = asked.shown() {
            zones.answer(asked, Start::Stamp(stamp));
        }
        return;
    }
    match asked.word_or_lines(1) {
        Some(word) => {
            let start = asked.start_as(word, MOMENT_EXPECTED);
            let start = asked.on_today(start);
            let start = asked.moment_at(word, start);
            zones.answer(asked, start);
        }
        None => take_input(asked, &mut zones),
    }
}

impl Asked<'_> {
    // A time of day alone as today's; what else is read as it is.
    fn on_today(&mut self, start: Start) -> Start {
        match start {
            Start::Clock(time) => Start::DateTime(NaiveDateTime::new(self.day_shown(), time)),
            other => other,
        }
    }
}

impl Zones {
    // What the clock shows at the instant, or at both where a local time is shown twice.
    fn answer(&self, asked: &mut Asked<'_>, start: Start) {
        match instants_of(self.read.as_ref().unwrap_or(&self.shown), start) {
            MappedLocalTime::None => {
                asked.print_nowhere(&start, "", "the zone's clock never shows it")
            }
            MappedLocalTime::Single(only) => asked.print_in(&self.shown, only),
            MappedLocalTime::Ambiguous(earlier, later) => {
                asked.print_in(&self.shown, earlier);
                asked.print_in(&self.shown, later);
            }
        }
    }
}

impl EachLine for Zones {
    fn take_line(&mut self, asked: &mut Asked<'_>, line: &[u8]) {
        match asked.reading.read(line) {
            Ok(start) if !start.is_day() => {
                let start = asked.on_today(start);
                self.answer(asked, start)
            }
            Ok(_) if asked.held.is_some() => asked.leave(line),
            _ => asked.print(asked.none),
        }
    }
}

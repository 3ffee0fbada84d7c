//! What time it is.

use crate::prelude::*;

// The command that prints the day alone.
const TODAY: &str = "today";

pub(crate) fn now() -> &'static CommandRow {
    row!(
        "now", &[], &[IN_ZONE, NOW, UNIX, FORMAT, LONG, JSON, HELP];
        help: "print what time it is, to the second",
        more: ZONES,
        example: "$ dates now --zone UTC | cut -c 20-\n+00:00"
    )
}

pub(crate) fn today() -> &'static CommandRow {
    row!(
        TODAY, &[], &[IN_ZONE, NOW, FORMAT, LONG, JSON, HELP];
        help: "print what day it is",
        more: ZONES,
        example: "$ dates today --zone Asia/Tokyo | wc -c\n11"
    )
}

// The day, or the second, that the zone's clock shows now.
pub(crate) fn answer(asked: &mut Asked<'_>) {
    let is_day = asked.command.name == TODAY;
    if !is_day {
        asked.none = asked.reading.no_moment();
    }
    if asked.format.is_some() {
        asked.take_zone();
    }
    match asked.shown() {
        Some(stamp) if is_day => asked.print(Reply::Date(stamp.naive_local().date())),
        Some(stamp) => asked.print_start(&Start::Stamp(stamp)),
        None => asked.print(asked.none),
    }
}

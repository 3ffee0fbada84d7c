//! Rows that several commands share.

use crate::prelude::*;

/// The weekdays by their names.
pub(crate) const WEEKDAYS: &[&str] = &["mon", "tue", "wed", "thu", "fri", "sat", "sun"];

pub(crate) const DAY: Operand = operand!("DAY");

pub(crate) const YEAR: Operand = operand!("YEAR");

/// A day, or `-` for the lines of the input, which may be left out.
pub(crate) const DAY_OR_LINES: Operand = operand!("DAY"; required: false);

pub(crate) const JSON: Opt = flag!("--json", "print JSON, an object a line");

pub(crate) const HELP: Opt = flag!("--help", "print this help");

pub(crate) const UNIX: Opt = flag!(
    "--unix",
    "read and print instants as seconds since 1970 in UTC"
);

pub(crate) const WEEKEND: Opt = option!(
    "--weekend", "DAYS"; "closed weekdays, two at most: none, fri or fri,sat\n(default: sat,sun)",
    values: &["mon", "tue", "wed", "thu", "fri", "sat", "sun", "none"], default: "sat,sun"
);

/// The names of calendars.
pub(crate) const CALENDARS: &[&str] = &[
    "us-federal",
    "target",
    "england",
    "fedwire",
    "nyse",
    "germany",
    "france",
    "japan",
];

pub(crate) const CALENDAR: Opt = option!(
    "--calendar", "NAMES"; "holidays by rules, several as target,nyse: us-federal\n\
        and fedwire (from 1971), england (1978), france (1982),\n\
        germany (1995), nyse (1998), target (1999), japan (2007)",
    values: CALENDARS
);

pub(crate) const HOLIDAYS: Opt =
    option!("--holidays", "FILE"; "holidays of a file, of which each line is a day");

/// The options of a command that has no others.
pub(crate) const PLAIN: &[Opt] = &[JSON, HELP];

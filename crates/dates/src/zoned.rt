//! Time zones, and date-times as their clocks show them.

use crate::prelude::*;
use dates_answer::ClockLine;
use zone_database::{ZoneError, local_zone, system_database};

/// A time zone that the program read.
pub(crate) type OwnedZone = zone_database::OwnedZone<Global>;

/// The name of a time zone.
pub(crate) const ZONE: Operand = operand!("ZONE");

/// `--zone`.
pub(crate) const IN_ZONE: Opt =
    option!("--zone", "ZONE"; "in which time zone (default: local)", default: LOCAL);

/// `--zone` of a command that moves date-times.
pub(crate) const ZONED: Opt =
    option!("--zone", "ZONE"; "a date-time without offset is local time of this zone");

// What a zone is.
macro_rules! zones {
    ($($behind:expr)?) => {
        concat!(
            "A ZONE is a name of the time zone database, as Europe/Berlin, or local, which is\n\
            the machine's own: that of TZ in the environment, or else of /etc/localtime."
            $(, $behind)?
        )
    };
}

/// What a zone is, as helps say it.
pub(crate) const ZONES: &str = zones!();

/// The same of a command that answers lines too.
pub(crate) const IN_ZONES: &str = zones!(
    "\nA time alone, as 12:00, is today's. With - in place of the time, or none, it\n\
    answers each line of standard input, or now where nothing is piped in."
);

// The name of the machine's own zone.
const LOCAL: &str = "local";

// What stands in front of the names of cities in the time zone database.
const AREAS: &[&str] = &[
    "Africa",
    "America",
    "Antarctica",
    "Asia",
    "Atlantic",
    "Australia",
    "Europe",
    "Indian",
    "Pacific",
    "America/Argentina",
    "America/Indiana",
    "America/Kentucky",
    "America/North_Dakota",
    "Arctic",
];

// Puts a city behind a text as the time zone database writes it: `_` for a blank, and, if it is written small, words with a capital.
fn put_as_zone(out: &mut Buffer, city: &str, is_small: bool) {
    let mut begins = true;
    for character in city.chars() {
        out.put_char(match character {
            ' ' => '_',
            character if begins && is_small => character.to_ascii_uppercase(),
            character => character,
        });
        begins = character == ' ' || character == '_';
    }
}

// The zone of a name.
fn read_zone(rt: &HostRuntime, name: &str) -> Result<OwnedZone, ZoneError> {
    system_database(rt)?.zone(rt, name)
}

impl Asked<'_> {
    // The zone that a word names.
    pub(crate) fn zone_of(&mut self, word: Word<'_>) -> Option<OwnedZone> {
        if word.text == LOCAL {
            return self.machine_zone();
        }
        match read_zone(self.rt, word.text) {
            Ok(zone) => Some(zone),
            Err(error) => {
                self.no_zone(word, error);
                None
            }
        }
    }

    // Ends since a word names no zone, and with the zone of that city, if it is one.
    fn no_zone(&mut self, word: Word<'_>, error: ZoneError) {
        let mut meant = Buffer::new(self.rt.alloc());
        if matches!(error, ZoneError::NoSuchZone | ZoneError::NoName) {
            self.put_city(&mut meant, word.text);
        }
        let meant = self.text(&meant);
        self.wrong_by(word, &error, meant);
    }

    // Puts the full name of the zone of a city behind a text, if the database has one.
    fn put_city(&self, out: &mut Buffer, city: &str) {
        for is_small in [false, true] {
            for area in AREAS {
                let mut name = Buffer::new(self.rt.alloc());
                put!(name, area, "/");
                put_as_zone(&mut name, city, is_small);
                let full = name.text().unwrap_or("");
                if read_zone(self.rt, full).is_ok() {
                    return put!(out, "; did you mean ", full, "?");
                }
            }
        }
    }

    // The machine's own zone.
    pub(crate) fn machine_zone(&mut self) -> Option<OwnedZone> {
        match local_zone(self.rt) {
            Ok(local) => Some(local.zone),
            Err(error) => {
                self.refuse_machine(error);
                None
            }
        }
    }

    // Takes the zone by whose clock date-times are read and moved, if one is named.
    pub(crate) fn take_zone(&mut self) {
        if let Some(word) = self.value("--zone") {
            self.zone = self.zone_of(word);
        }
    }

    // What a text names: a date-time without offset is an instant of the zone.
    pub(crate) fn read(&self, text: &[u8]) -> Option<Start> {
        match self.reading.read(text) {
            Ok(start) => self.placed(start),
            Err(_) => None,
        }
    }

    // The day, the date-time or the instant as the zone's clock shows it, if it shows it once.
    pub(crate) fn placed(&self, start: Start) -> Option<Start> {
        match (&self.zone, start) {
            (Some(zone), Start::DateTime(_)) => {
                Some(Start::Stamp(instants_of(zone, start).single()?))
            }
            (Some(zone), Start::Stamp(stamp)) => Some(Start::Stamp(shown_in(zone, Some(stamp))?)),
            _ => Some(start),
        }
    }

    // What a word names.
    pub(crate) fn start(&mut self, word: Word<'_>) -> Start {
        let expected = if self.reading.is_unix {
            "expected seconds since 1970 as 1709204400, or a date-time with its offset"
        } else {
            "expected a day as 2024-02-29 or a date-time as 2024-02-29T04:30"
        };
        let start = self.start_as(word, expected);
        self.once(word, start)
    }

    // What a word names, as the zone's clock shows it, if it shows it once. A day is nothing to a zone.
    pub(crate) fn once(&mut self, word: Word<'_>, start: Start) -> Start {
        if self.zone.is_some() && !start.is_moment() {
            self.wrong(word, MOMENT_EXPECTED);
        }
        let placed = self.placed(start);
        if placed.is_none() {
            self.no_such(word, NOT_ONCE);
        }
        placed.unwrap_or(start)
    }

    // Another day at the same time of day, where there is one; the same day stays the same instant.
    pub(crate) fn on(&self, start: Start, date: NaiveDate) -> Option<Start> {
        let was = start.local();
        if date == was.date() {
            return Some(start);
        }
        let local = NaiveDateTime::new(date, was.time());
        if self.zone.is_some() && start.has_offset() {
            self.placed(Start::DateTime(local))
        } else {
            start.at(local)
        }
    }

    // The date-time or the instant that lies a time away; nothing from a day.
    pub(crate) fn later(&self, start: Start, by: Option<TimeDelta>) -> Option<Start> {
        match start {
            Start::Day(_) => None,
            Start::Clock(time) => Some(Start::Clock(time.overflowing_add_signed(by?).0)),
            Start::DateTime(moment) => Some(Start::DateTime(moment.checked_add_signed(by?)?)),
            Start::Stamp(stamp) => self.placed(Start::Stamp(stamp.checked_add_signed(by?)?)),
        }
    }

    // Prints what a zone's clock shows at an instant, and the name of its time there.
    pub(crate) fn print_in(&mut self, zone: &OwnedZone, stamp: DateTime<FixedOffset>) {
        let Some(shown) = shown_in(zone, Some(stamp)) else {
            self.none = Reply::NoClock;
            self.print_nowhere(&Start::Stamp(stamp), "", PAST);
            return;
        };
        let name = zone.abbreviation(stamp.timestamp()).unwrap_or("");
        if self.format.is_some() {
            let start = Start::Stamp(shown);
            let text = self.text_with_name(&start, name);
            return self.print_text_of(&start, text);
        }
        if self.held.is_some() {
            return self.print(Reply::Stamp(shown));
        }
        let form = self.form;
        self.print_line(&ClockLine { form, shown, name }, ANSWERED);
    }
}

// The instants at which a zone's clock shows a date-time; of an instant itself.
pub(crate) fn instants_of(
    zone: &OwnedZone,
    start: Start,
) -> MappedLocalTime<DateTime<FixedOffset>> {
    if let Start::Stamp(stamp) = start {
        return MappedLocalTime::Single(stamp);
    }
    let lent = zone.zone();
    match (&lent).from_local_datetime(&start.local()) {
        MappedLocalTime::None => MappedLocalTime::None,
        MappedLocalTime::Single(only) => MappedLocalTime::Single(only.fixed_offset()),
        MappedLocalTime::Ambiguous(earlier, later) => {
            MappedLocalTime::Ambiguous(earlier.fixed_offset(), later.fixed_offset())
        }
    }
}

// What a zone's clock shows at an instant, if there is one.
pub(crate) fn shown_in(
    zone: &OwnedZone,
    stamp: Option<DateTime<FixedOffset>>,
) -> Option<DateTime<FixedOffset>> {
    let lent = zone.zone();
    Some(stamp?.checked_with_timezone(&&lent)?.fixed_offset())
}

//! Days that the clock names: `today`, `tomorrow`, `yesterday`, a weekday, `last` and a weekday, and `now`.

use crate::each::weekday_from;
use crate::prelude::*;
use std::time::SystemTime;

/// `--now`.
pub(crate) const NOW: Opt = option!(
    "--now", "TIME"; "what time it is, in place of what the clock shows,\nfor such days as today, friday and 'last friday'"
);

/// What a clock shows.
#[derive(Clone, Copy)]
pub(crate) struct Now {
    /// The second, since 1970 in UTC.
    pub second: i64,
    /// How many seconds it is ahead of UTC.
    pub ahead: i32,
    /// Whether `now` is this instant, and else the local time alone.
    pub is_instant: bool,
}

impl Now {
    // The instant.
    pub(crate) fn stamp(&self) -> Option<DateTime<FixedOffset>> {
        FixedOffset::east_opt(self.ahead)?.timestamp_opt(self.second, 0)
    }
}

impl Asked<'_> {
    // Takes what the clock shows, if a word names a day by it.
    pub(crate) fn take_clock(&mut self) {
        if !asks_clock(self.command, &self.words) {
            return;
        }
        let zone_word = self.value("--zone");
        // (a schedule without a zone is due by local times)
        let is_schedule = self.command.name == "next" || self.command.name == "prev";
        let is_instant = zone_word.is_some() || self.words.has("--unix") || !is_schedule;
        if let Some(stamp) = self.shown() {
            self.reading.now = Some(Now {
                second: stamp.timestamp(),
                ahead: stamp.timezone().local_minus_utc(),
                is_instant,
            });
        }
    }

    // What the clock of the zone of the command shows, which is the machine's own if it has none.
    pub(crate) fn shown(&mut self) -> Option<DateTime<FixedOffset>> {
        let zone = match self.value("--zone") {
            Some(word) => self.zone_of(word)?,
            None => self.machine_zone()?,
        };
        match self.value("--now") {
            Some(word) => self.shown_at(&zone, word),
            None => match SystemTime::now(self.rt) {
                Ok(time) => shown_in(&zone, second_of(time)),
                Err(error) => {
                    self.fail(error);
                    None
                }
            },
        }
    }

    // What a zone's clock shows at the time that a word names.
    fn shown_at(&mut self, zone: &OwnedZone, word: Word<'_>) -> Option<DateTime<FixedOffset>> {
        let read = read_written(word.text.as_bytes(), Order::None, false);
        let start = self.taken(word, read, MOMENT_EXPECTED);
        let start = self.moment_at(word, start);
        match instants_of(zone, start) {
            MappedLocalTime::Single(stamp) => shown_in(zone, Some(stamp)),
            _ => {
                self.no_such(word, NOT_ONCE);
                None
            }
        }
    }

    // The day that the clock shows.
    pub(crate) fn day_shown(&mut self) -> NaiveDate {
        match self.shown() {
            Some(stamp) => stamp.naive_local().date(),
            None => {
                self.no_such(self.option("--now"), PAST);
                NaiveDate::MIN
            }
        }
    }
}

// The second of a reading of the clock.
fn second_of(time: SystemTime) -> Option<DateTime<FixedOffset>> {
    instant_at(DateTime::from_system_time(time)?.timestamp())
}

// Whether an operand, or the value of an option, names a day by the clock.
fn asks_clock(command: &CommandRow, words: &Arguments<'_>) -> bool {
    for word in words.operands.as_slice() {
        if is_named(word.text.as_bytes()) {
            return true;
        }
    }
    for option in command.options {
        if takes_day(option) {
            if let Some(word) = words.value(command.options, option.name) {
                if is_named(word.text.as_bytes()) {
                    return true;
                }
            }
        }
    }
    false
}

// Whether the value of an option is a day or a date-time.
fn takes_day(option: &Opt) -> bool {
    option.value == "TIME" || option.value == "DAY"
}

// Whether a text names a day, or the time, by the clock.
pub(crate) fn is_named(text: &[u8]) -> bool {
    match text_of(text) {
        "now" | "today" | "tomorrow" | "yesterday" => true,
        name => weekday_named(weekday_in(name).0).is_some(),
    }
}

// The day, or the time, that a text names by the clock, if there is one.
pub(crate) fn read_named(now: Now, text: &[u8]) -> Result<Start, ReadError> {
    let cause = ReadCause::DateOutOfRange;
    named_by(now, text_of(text)).ok_or(ReadError { cause, byte: 0 })
}

// The name of a weekday in a text, and whether `last` stands in front of it.
fn weekday_in(text: &str) -> (&str, bool) {
    match text.strip_prefix("last ") {
        Some(name) => (name, true),
        None => (text, false),
    }
}

// The day, or the time, that a text names.
fn named_by(now: Now, text: &str) -> Option<Start> {
    let stamp = now.stamp()?;
    let moment = stamp.naive_local();
    let today = moment.date();
    match text {
        "now" if now.is_instant => Some(Start::Stamp(stamp)),
        "now" => Some(Start::DateTime(moment)),
        "today" => Some(Start::Day(today)),
        "tomorrow" => Some(Start::Day(today.succ_opt()?)),
        "yesterday" => Some(Start::Day(today.pred_opt()?)),
        _ => Some(Start::Day(weekday_near(today, text)?)),
    }
}

// The day of a weekday: the first from a day on, or behind `last` the last before it.
fn weekday_near(today: NaiveDate, text: &str) -> Option<NaiveDate> {
    let (name, is_last) = weekday_in(text);
    let from = if is_last {
        today.moved_by_days(-7)?
    } else {
        today
    };
    weekday_from(from, weekday_named(name)?)
}

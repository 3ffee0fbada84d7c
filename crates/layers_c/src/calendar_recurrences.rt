//! What the text of a calendar means in a zone.
ghost use Rattle.std.specs.Prelude.{◌≡◌, ◌↔◌, IfErr, IfOk, IsTrue, length};
ghost use Rattle.calendar_text.specs.Lines.{text_in};
ghost use Rattle.calendar_rules.specs.Private.{IsShorter};
ghost use Rattle.layers_c.specs.Calendars.{IsMeant, IsNoRecurrenceReason, MeansNone};

use calendar_rules::{CalendarRuleError, ZonedRecurrence, read_calendar_text, recurrence_of};
use calendar_text::CalendarTextError;
use chrono_zoned::{DateTime, InZone, TimeZone};

// The text of a calendar has at most so many bytes.
pub(crate) const LONGEST_TEXT: usize = 8_192;

// A buffer for the text of its rule, which has to be shorter.
const RULE_ROOM: usize = 1_024;

// Each of its lists has at most so many times.
const MOST_TIMES: usize = 256;

// Why a text means no recurrence.
#[derive(Clone, Copy)]
pub(crate) enum NoRecurrence {
    // It is too long.
    TooLong,
    // It is no text of a calendar.
    Text(CalendarTextError),
    // The text of its rule is too long.
    LongRule,
    // It is one, but has no instants in the zone.
    Meaning(CalendarRuleError),
}

// The recurrence that a text means in a zone, by room for its times.
pub(crate) fn recurrence_in<'a, Z: TimeZone>(
    text: &[u8],
    zone: Z,
    dates: &'a mut [DateTime<Z>],
    exceptions: &'a mut [DateTime<Z>],
) -> Result<ZonedRecurrence<'a, Z>, NoRecurrence>
    requires dates { length dates.old ≡ 256 }
    requires exceptions { length exceptions.old ≡ 256 }
    ensures meant { IfOk result (λ s. IsMeant Z.ahead zone text.now s) }
    ensures none { IfErr result (λ _. MeansNone Z.ahead zone text.now) }
    ensures why { IfErr result (λ why. IsNoRecurrenceReason text.now why) }
{
    if text.len() > LONGEST_TEXT {
        return Err(NoRecurrence::TooLong);
    }
    let mut lines = [0; LONGEST_TEXT];
    let calendar = match read_calendar_text(text, &mut lines) {
        Ok(calendar) => calendar,
        Err(error) => return Err(NoRecurrence::Text(error)),
    };
    if !is_short(calendar.rule) {
        return Err(NoRecurrence::LongRule);
    }
    let mut rule = [0; RULE_ROOM];
    match recurrence_of(calendar, zone, &mut rule, dates, exceptions) {
        Ok(set) => Ok(set),
        Err(error) => Err(NoRecurrence::Meaning(error)),
    }
}

// Whether the text of a rule, if there is one, is shorter than the room for it.
fn is_short(rule: Option<&[u8]>) -> bool
    ensures { IsTrue result ↔ IsShorter (text_in rule.entry) 1_024 }
{
    match rule {
        Some(text) => text.len() < RULE_ROOM,
        None => true,
    }
}

// Room for the times of a list.
pub(crate) fn time_room<Z: TimeZone>(zone: Z) -> [DateTime<Z>; MOST_TIMES]
    ensures { length result ≡ 256 }
{
    [some_instant(zone); MOST_TIMES]
}

// An instant of a zone. Each of its offsets is less than a day, as a stretch says.
fn some_instant<Z: TimeZone>(zone: Z) -> DateTime<Z> {
    zone.stretch_from(0);
    zone.timestamp_opt(0, 0).unwrap()
}

//! What is wrong with the text of a calendar, and the name of its zone.
ghost use Rattle.std.specs.Prelude.{◌≡◌, ◌≤◌, ◌<◌, Some, None, IfSome, IfNone, true, false, length};
ghost use Rattle.calendar_text.specs.CalendarTexts.{CalendarParts, IsCalendarText};
ghost use Rattle.calendar_text.specs.Lines.{text_in};
ghost use Rattle.numbers_c.specs.Answers.{count_or_none, none_number};
ghost use Rattle.numbers_c.specs.Texts.{length_of, overwritten, text_within};
ghost use Rattle.zone.specs.Parts.{ZoneParts};
ghost use Rattle.layers_c.specs.Calendars.{IsNoRecurrenceReason, IsNumberedReason, MeansNoRecurrence, MeansNone, calendar_fault_line, calendar_faults, meaning_fault_texts, meaning_number, text_fault_texts};
ghost use Rattle.layers_c.specs.Faults.{numbered};
ghost use Rattle.layers_c.specs.Zones.{HoldsZone};
ghost use Rattle.layers_c.specs.declared.calendar_recurrences.NoRecurrence.{NoRecurrence};

use crate::calendar_recurrences::{LONGEST_TEXT, NoRecurrence, recurrence_in, time_room};
use crate::faults::CalendarFault;
use crate::zone_bytes::{row_room, zone_of};
use calendar_rules::{CalendarRuleError, ClockPart, TimedRuleError, read_calendar_text};
use calendar_text::CalendarTextFault;
use chrono_zoned::{DateTime, TimeZone};
use numbers_c::{NONE, write_over};
use zone::Zone;

// The number for bytes that hold no zone.
const NO_ZONE: u32 = 26;

/// Returns whether the text of a calendar means a recurrence in a zone. If it means none, fills in what is wrong.
#[unsafe(no_mangle)]
pub extern "C" fn calendar_text_check(text: &[u8], zone: &[u8], fault: &mut CalendarFault) -> bool
    ensures read { result ≡ true → (z : ZoneParts) × HoldsZone zone.now z × ¬ MeansNoRecurrence text.now z }
    ensures every { (z : ZoneParts) → HoldsZone zone.now z → ¬ MeansNoRecurrence text.now z → result ≡ true }
    ensures fault { (z : ZoneParts) → HoldsZone zone.now z → result ≡ false
        → (why : NoRecurrence) × IsNoRecurrenceReason text.now why × IsNumberedReason why fault.new }
    ensures no_zone { ((z : ZoneParts) → ¬ HoldsZone zone.now z) → fault.new.code ≡ 26 }
    ensures no_fault { result ≡ true → fault.new ≡ fault.old }
{
    let mut room = row_room();
    let Ok(zone) = zone_of(zone, &mut room) else {
        *fault = numbers(text, NO_ZONE, 0);
        return false;
    };
    match reason_in(text, &zone) {
        None => true,
        Some(reason) => {
            *fault = fault_of(text, reason);
            false
        }
    }
}

/// Writes what a fault of a calendar's text says over the first bytes, if they are enough, and returns how many it took.
#[unsafe(no_mangle)]
pub extern "C" fn calendar_text_fault_text(fault: &CalendarFault, text: &mut [u8]) -> i32
    ensures length { result ≡ count_or_none (length_of (text_within (length text.old) (calendar_fault_line fault.now.code))) }
    ensures bytes { text.new ≡ overwritten (text_within (length text.old) (calendar_fault_line fault.now.code)) text.old }
{
    match sentence_of(fault.code) {
        Some(sentence) => write_over(text, sentence.as_bytes()),
        None => NONE,
    }
}

/// Writes the name of the zone in which a calendar's text has its local times over the first bytes, and returns how many it took.
#[unsafe(no_mangle)]
pub extern "C" fn calendar_text_zone(text: &[u8], name: &mut [u8]) -> i32
    ensures length { (p : CalendarParts) → length text.now ≤ 8_192 → IsCalendarText text.now p
        → result ≡ count_or_none (length_of (text_within (length name.old) (text_within 1_000 p.zone))) }
    ensures bytes { (p : CalendarParts) → length text.now ≤ 8_192 → IsCalendarText text.now p
        → name.new ≡ overwritten (text_within (length name.old) (text_within 1_000 p.zone)) name.old }
    ensures too_long { 8_192 < length text.now → (result ≡ none_number) × (name.new ≡ name.old) }
    ensures no_text { ((p : CalendarParts) → ¬ IsCalendarText text.now p) → (result ≡ none_number) × (name.new ≡ name.old) }
{
    if text.len() > LONGEST_TEXT {
        return NONE;
    }
    let mut lines = [0; LONGEST_TEXT];
    match read_calendar_text(text, &mut lines) {
        Ok(calendar) => write_name(calendar.zone, name),
        Err(_) => NONE,
    }
}

// Writes a name of at most 1,000 bytes over the first bytes.
fn write_name(zone: Option<&[u8]>, name: &mut [u8]) -> i32
    ensures length { result ≡ count_or_none (length_of (text_within (length name.old) (text_within 1_000 (text_in zone.entry)))) }
    ensures bytes { name.new ≡ overwritten (text_within (length name.old) (text_within 1_000 (text_in zone.entry))) name.old }
{
    match zone {
        Some(zone) => {
            if zone.len() <= 1_000 {
                write_over(name, zone)
            } else {
                NONE
            }
        }
        None => NONE,
    }
}

// Why a text means no recurrence in a zone.
fn reason_in(text: &[u8], zone: &Zone<'_>) -> Option<NoRecurrence>
    ensures none { IfNone result (¬ MeansNoRecurrence text.now zone.now) }
    ensures some { IfSome result (λ _. MeansNoRecurrence text.now zone.now) }
    ensures why { IfSome result (λ why. IsNoRecurrenceReason text.now why) }
{
    let (mut dates, mut exceptions) = (time_room(zone), time_room(zone));
    reason_by(text, zone, &mut dates, &mut exceptions)
}

// The same by any clock, with room for the times.
fn reason_by<Z: TimeZone>(
    text: &[u8],
    zone: Z,
    dates: &mut [DateTime<Z>],
    exceptions: &mut [DateTime<Z>],
) -> Option<NoRecurrence>
    requires dates { length dates.old ≡ 256 }
    requires exceptions { length exceptions.old ≡ 256 }
    ensures none { IfNone result (¬ MeansNone Z.ahead zone text.now) }
    ensures some { IfSome result (λ _. MeansNone Z.ahead zone text.now) }
    ensures why { IfSome result (λ why. IsNoRecurrenceReason text.now why) }
{
    match recurrence_in(text, zone, dates, exceptions) {
        Ok(_) => None,
        Err(reason) => Some(reason),
    }
}

// The numbers of a reason.
fn fault_of(text: &[u8], reason: NoRecurrence) -> CalendarFault
    ensures { IsNumberedReason reason result }
{
    match reason {
        NoRecurrence::TooLong => numbers(text, 14, 0),
        NoRecurrence::Text(error) => numbers(text, text_number(error.fault), error.byte),
        NoRecurrence::LongRule => numbers(text, 15, 0),
        NoRecurrence::Meaning(error) => numbers(text, meaning_number(error), 0),
    }
}

// The numbers of what is wrong from a byte of a text on.
fn numbers(text: &[u8], code: u32, byte: usize) -> CalendarFault
    ensures { result ≡ record { code = code; field = 0; byte = byte; end = length text.now } }
{
    CalendarFault {
        code,
        field: 0,
        byte,
        end: text.len(),
    }
}

// The number of what is wrong with a text of a calendar.
fn text_number(fault: CalendarTextFault) -> u32
    ensures { numbered calendar_faults result ≡ Some fault }
{
    match fault {
        CalendarTextFault::NoColon => 1,
        CalendarTextFault::UnknownProperty => 2,
        CalendarTextFault::PropertyTwice => 3,
        CalendarTextFault::NoStart => 4,
        CalendarTextFault::UnknownParameter => 5,
        CalendarTextFault::ParameterTwice => 6,
        CalendarTextFault::NotAZoneName => 7,
        CalendarTextFault::UnknownValueType => 8,
        CalendarTextFault::ZoneOfDate => 9,
        CalendarTextFault::NotATime => 10,
        CalendarTextFault::OtherKind => 11,
        CalendarTextFault::OtherZone => 12,
        CalendarTextFault::NotARule => 13,
    }
}

// The number of why a text of a calendar has no instants.
fn meaning_number(error: CalendarRuleError) -> u32
    ensures { result ≡ meaning_number error }
{
    match error {
        CalendarRuleError::NotLocal => 16,
        CalendarRuleError::Rule(TimedRuleError::Frequency) => 17,
        CalendarRuleError::Rule(TimedRuleError::Part(ClockPart::ByHour)) => 18,
        CalendarRuleError::Rule(TimedRuleError::Part(ClockPart::ByMinute)) => 19,
        CalendarRuleError::Rule(TimedRuleError::Part(ClockPart::BySecond)) => 20,
        CalendarRuleError::Rule(TimedRuleError::Days(_)) => 21,
        CalendarRuleError::Rule(TimedRuleError::Until) => 22,
        CalendarRuleError::Rule(TimedRuleError::NotTogether) => 23,
        CalendarRuleError::NoInstant => 24,
        CalendarRuleError::TooManyTimes => 25,
    }
}

// What a fault says, if there is such a fault.
fn sentence_of(code: u32) -> Option<&'static str>
    ensures said { IfSome result (λ s. calendar_fault_line code ≡ Some s.now) }
    ensures short { IfSome result (λ s. length s.now ≤ 64) }
    ensures none { IfNone result (calendar_fault_line code ≡ None) }
{
    if code <= 13 {
        text_sentence(code)
    } else {
        meaning_sentence(code - 13)
    }
}

// What is said of a text that is none of a calendar.
fn text_sentence(number: u32) -> Option<&'static str>
    ensures said { IfSome result (λ s. numbered text_fault_texts number ≡ Some s.now) }
    ensures short { IfSome result (λ s. length s.now ≤ 64) }
    ensures none { IfNone result (numbered text_fault_texts number ≡ None) }
{
    match number {
        1 => Some("the line has no colon"),
        2 => Some("none of DTSTART, RRULE, RDATE and EXDATE"),
        3 => Some("a second DTSTART or RRULE"),
        4 => Some("DTSTART is missing"),
        5 => Some("the parameter is neither TZID nor VALUE"),
        6 => Some("the parameter stands twice"),
        7 => Some("no name of a zone"),
        8 => Some("neither DATE nor DATE-TIME"),
        9 => Some("TZID does not go with VALUE=DATE"),
        10 => Some("no date and no date-time as 20240131T090000"),
        11 => Some("a time of another kind than the line says"),
        12 => Some("a local time in another zone than DTSTART"),
        13 => Some("no rule"),
        _ => None,
    }
}

// What is said of one that means no recurrence.
fn meaning_sentence(number: u32) -> Option<&'static str>
    ensures said { IfSome result (λ s. numbered meaning_fault_texts number ≡ Some s.now) }
    ensures short { IfSome result (λ s. length s.now ≤ 64) }
    ensures none { IfNone result (numbered meaning_fault_texts number ≡ None) }
{
    match number {
        1 => Some("more than 8192 bytes"),
        2 => Some("the rule has 1024 bytes or more"),
        3 => Some("DTSTART is no local time"),
        4 => Some("FREQ is missing or stands twice"),
        5 => Some("BYHOUR stands twice or lists no hours"),
        6 => Some("BYMINUTE stands twice or lists no minutes"),
        7 => Some("BYSECOND stands twice or lists no seconds"),
        8 => Some("the parts of days are no rule"),
        9 => Some("UNTIL is no time in UTC, or stands beside COUNT"),
        10 => Some("parts of the rule do not go together"),
        11 => Some("a time of RDATE or EXDATE is no instant"),
        12 => Some("more than 256 times in RDATE or EXDATE"),
        13 => Some("the bytes hold no zone"),
        _ => None,
    }
}

//! The lines of a calendar's text, each with what the lines before it have.
ghost use Rattle.std.specs.Prelude.{◌≡◌, ◌≤◌, ◌+◌, ◌==◌, IfErr, length};
ghost use Rattle.std.specs.List.{before_first};
ghost use Rattle.std.specs.Str.{byte};
ghost use Rattle.calendar_text.specs.Lines.{kinds_of, property_of, same_zone, text_in, time_fault, time_read, with_line, with_list, with_property, with_rule, with_start, with_time, zones_agree};

use crate::byte_class::{ByteClass, class_len};
use crate::calendar_error::{CalendarTextError, CalendarTextFault, error_at};
use crate::calendar_time::{CalendarTime, read_calendar_time};
use crate::parameters::{Parameters, read_parameters, zone_of};
use crate::pieces::{PieceReader, cut_at, read_pieces};
use crate::property::{Property, name_of, property_of};
use chrono_text::same_but_for_case;

// Which times a line may have.
#[derive(Clone, Copy)]
pub(crate) struct Kinds {
    // Dates.
    pub(crate) dates: bool,
    // Local times.
    pub(crate) locals: bool,
    // Times in UTC.
    pub(crate) utcs: bool,
    // The line's local times are in the zone of DTSTART.
    pub(crate) same_zone: bool,
}

// What the lines so far have.
#[derive(Clone, Copy)]
pub(crate) struct Seen {
    // The time of DTSTART.
    pub(crate) start: Option<CalendarTime>,
    // A rule.
    pub(crate) has_rule: bool,
}

// Reads the lines, one after another.
#[derive(Drop)]
pub(crate) struct LineReader<'a> {
    // The line of DTSTART.
    pub(crate) start: &'a [u8],
}

impl<'a> PieceReader<Seen> for LineReader<'a> {
    ghost step = { λ r. with_line r.start.now };

    fn with_piece(&self, read: Seen, piece: &[u8]) -> Result<Seen, CalendarTextError> {
        with_line(self.start, read, piece)
    }
}

// Reads the times of a list, one after another.
#[derive(Drop)]
struct TimeReader {
    kinds: Kinds,
}

impl PieceReader<bool> for TimeReader {
    ghost step = { λ r. with_time r.kinds };

    #[tactic(auto, unfolding(crate::specs::Lines::with_time))]
    fn with_piece(&self, _read: bool, piece: &[u8]) -> Result<bool, CalendarTextError> {
        match read_time(self.kinds, piece) {
            Ok(_) => Ok(true),
            Err(error) => Err(error),
        }
    }
}

// What was seen, with one more line.
#[tactic(auto, unfolding(crate::specs::Lines::with_line))]
fn with_line(start: &[u8], seen: Seen, line: &[u8]) -> Result<Seen, CalendarTextError>
    ensures read { result ≡ with_line start.now seen line.now }
    ensures byte { IfErr result (λ e. e.byte ≤ length line.now) }
{
    if line.is_empty() {
        return Ok(seen);
    }
    let Some((head, value)) = cut_at(line, b':') else {
        return Err(error_at(line.len(), CalendarTextFault::NoColon));
    };
    with_property(start, seen, head, value)
}

// What was seen, with a property and its parameters in front of a colon, and its value behind it.
#[tactic(auto, unfolding(crate::specs::Lines::with_property))]
fn with_property(
    start: &[u8],
    seen: Seen,
    head: &[u8],
    value: &[u8],
) -> Result<Seen, CalendarTextError>
    ensures read { result ≡ with_property start.now seen head.now value.now (property_of (before_first (λ x. x == byte ";") head.now)) }
    ensures byte { IfErr result (λ e. e.byte ≤ length head.now + 1 + length value.now) }
{
    match property_of(name_of(head)) {
        None => Err(error_at(0, CalendarTextFault::UnknownProperty)),
        Some(Property::Start) => with_start(seen, head, value),
        Some(Property::Rule) => with_rule(seen, head, value),
        Some(Property::Dates) => with_list(start, seen, head, value),
        Some(Property::Exceptions) => with_list(start, seen, head, value),
    }
}

// What was seen, with DTSTART.
#[tactic(auto, unfolding(crate::specs::Lines::with_start))]
fn with_start(seen: Seen, head: &[u8], value: &[u8]) -> Result<Seen, CalendarTextError>
    ensures read { result ≡ with_start seen head.now value.now }
    ensures byte { IfErr result (λ e. e.byte ≤ length head.now + 1 + length value.now) }
{
    if seen.start.is_some() {
        return Err(error_at(0, CalendarTextFault::PropertyTwice));
    }
    let parameters = match read_parameters(head) {
        Ok(parameters) => parameters,
        Err(error) => return Err(error),
    };
    match read_time(kinds_of(parameters, true), value) {
        Ok(time) => Ok(Seen {
            start: Some(time),
            has_rule: seen.has_rule,
        }),
        Err(error) => Err(error.behind(head.len() + 1)),
    }
}

// What was seen, with RRULE.
#[tactic(auto, unfolding(crate::specs::Lines::with_rule))]
fn with_rule(seen: Seen, head: &[u8], value: &[u8]) -> Result<Seen, CalendarTextError>
    ensures read { result ≡ with_rule seen head.now value.now }
    ensures byte { IfErr result (λ e. e.byte ≤ length head.now + 1 + length value.now) }
{
    if seen.has_rule {
        return Err(error_at(0, CalendarTextFault::PropertyTwice));
    }
    if let Some((name, _)) = cut_at(head, b';') {
        return Err(error_at(name.len() + 1, CalendarTextFault::UnknownParameter));
    }
    let len = class_len(ByteClass::Rule, value);
    if value.is_empty() || len < value.len() {
        return Err(error_at(head.len() + 1 + len, CalendarTextFault::NotARule));
    }
    Ok(Seen {
        start: seen.start,
        has_rule: true,
    })
}

// What was seen, with RDATE or EXDATE. Their times change nothing.
#[tactic(auto, unfolding(crate::specs::Lines::with_list))]
fn with_list(start: &[u8], seen: Seen, head: &[u8], value: &[u8]) -> Result<Seen, CalendarTextError>
    ensures read { result ≡ with_list start.now seen head.now value.now }
    ensures byte { IfErr result (λ e. e.byte ≤ length head.now + 1 + length value.now) }
{
    let parameters = match read_parameters(head) {
        Ok(parameters) => parameters,
        Err(error) => return Err(error),
    };
    let reader = TimeReader {
        kinds: kinds_of(parameters, zones_agree(start, head)),
    };
    match read_pieces(&reader, false, value, b',') {
        Ok(_) => Ok(seen),
        Err(error) => Err(error.behind(head.len() + 1)),
    }
}

// The times that parameters allow.
fn kinds_of(parameters: Parameters, same_zone: bool) -> Kinds
    ensures { result ≡ kinds_of parameters same_zone }
{
    Kinds {
        dates: parameters.is_date,
        locals: !parameters.is_date,
        utcs: !parameters.is_date && !parameters.has_zone,
        same_zone,
    }
}

// The time that a text writes in a line.
#[tactic(auto, unfolding(crate::specs::Lines::time_read))]
fn read_time(kinds: Kinds, text: &[u8]) -> Result<CalendarTime, CalendarTextError>
    ensures read { result ≡ time_read kinds text.now }
    ensures byte { IfErr result (λ e. e.byte ≡ 0) }
{
    let Some(time) = read_calendar_time(text) else {
        return Err(error_at(0, CalendarTextFault::NotATime));
    };
    match time_fault(kinds, &time) {
        None => Ok(time),
        Some(fault) => Err(error_at(0, fault)),
    }
}

// What is wrong with a time in a line.
#[tactic(auto, unfolding(crate::specs::Lines::time_fault))]
fn time_fault(kinds: Kinds, time: &CalendarTime) -> Option<CalendarTextFault>
    ensures { result ≡ time_fault kinds time.now }
{
    match time {
        CalendarTime::Date(_) => {
            if kinds.dates {
                None
            } else {
                Some(CalendarTextFault::OtherKind)
            }
        }
        CalendarTime::Local(_) => {
            if !kinds.locals {
                Some(CalendarTextFault::OtherKind)
            } else if kinds.same_zone {
                None
            } else {
                Some(CalendarTextFault::OtherZone)
            }
        }
        CalendarTime::Utc(_) => {
            if kinds.utcs {
                None
            } else {
                Some(CalendarTextFault::OtherKind)
            }
        }
    }
}

// Whether the local times of a line are in the zone of the line of DTSTART.
#[tactic(auto, unfolding(crate::specs::Lines::zones_agree))]
fn zones_agree(start: &[u8], head: &[u8]) -> bool
    ensures { result ≡ zones_agree start.now head.now }
{
    let Some((start_head, value)) = cut_at(start, b':') else {
        return false;
    };
    match read_calendar_time(value) {
        Some(CalendarTime::Local(_)) => same_zone(zone_of(head), zone_of(start_head)),
        Some(CalendarTime::Date(_)) | Some(CalendarTime::Utc(_)) | None => false,
    }
}

// Whether two names of zones are one, or there is none in both.
fn same_zone(zone: Option<&[u8]>, other: Option<&[u8]>) -> bool
    ensures { result ≡ same_zone (text_in zone.entry) (text_in other.entry) }
{
    match (zone, other) {
        (None, None) => true,
        (Some(name), Some(other)) => same_but_for_case(name, other),
        (None, Some(_)) | (Some(_), None) => false,
    }
}

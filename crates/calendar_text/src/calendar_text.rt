//! `CalendarText`: what a text of a calendar has.
ghost use Rattle.std.specs.Prelude.{◌≡◌, ◌≤◌, IfErr, IfNone, IfOk, IfSome, IsOk, Err, length};
ghost use Rattle.std.specs.Option.{option_map};
ghost use Rattle.calendar_text.specs.CalendarTexts.{CalendarParts, HasParts, IsCalendarError, IsCalendarText, first_line, start_read};
ghost use Rattle.calendar_text.specs.Lines.{head_of, text_in, line_value};
ghost use Rattle.calendar_text.specs.declared.property.Property.TheVariants.{Rule};
ghost use Rattle.calendar_text.specs.TextParts.{parts_read};

use crate::calendar_error::{CalendarTextError, CalendarTextFault, error_at};
use crate::calendar_time::CalendarTime;
use crate::content_line::{LineReader, Seen};
use crate::folds::{folded_place, unfold};
use crate::parameters::zone_of;
use crate::pieces::{cut_at, read_pieces};
use crate::property::{Property, is_line_of};
use crate::time_list::TimeList;
use chrono_text::first_piece;

/// What a text of a calendar has: a start, a rule, times beside it and exceptions.
///
/// [`read_calendar_text`] makes it.
#[derive(Drop)]
pub struct CalendarText<'a> {
    /// DTSTART: the first time.
    pub start: CalendarTime,
    /// TZID of DTSTART: the name of the zone in which local times are. `None` if the text names none.
    pub zone: Option<&'a [u8]>,
    /// RRULE: the text of the rule, such as `FREQ=DAILY`. Nothing is known of it but its bytes.
    pub rule: Option<&'a [u8]>,
    /// RDATE: times beside those of the rule, in the order of the text.
    pub dates: TimeList<'a>,
    /// EXDATE: times that are left out, in the order of the text.
    pub exceptions: TimeList<'a>,
}

/// Reads the lines DTSTART, RRULE, RDATE and EXDATE of a calendar (RFC 5545), in any order. Lines may be folded.
///
/// `buffer` gets the unfolded text, and the parts lie there. Requires it to be as long as `text`.
///
/// DTSTART is there once, and RRULE at most once. The parameters are TZID, and VALUE with DATE or DATE-TIME.
/// Local times of RDATE and EXDATE have the zone of DTSTART.
/// A line ends with CRLF or a line feed, and an empty line counts for nothing.
///
/// # Errors
///
/// Returns the first error in the text. Before all others comes `NoStart`, at the end of the text.
///
/// ```
/// let mut buffer = [0; 128];
/// let text = b"DTSTART;TZID=Europe/Berlin:20240131T090000\r\nRRULE:FREQ=DAILY\r\nEXDATE;TZID=Europe/Berl\r\n in:20240201T090000\r\n";
/// let calendar = read_calendar_text(text, &mut buffer).ok()?;
/// calendar.zone == Some(b"Europe/Berlin") // true
/// calendar.rule == Some(b"FREQ=DAILY") // true
/// let error = read_calendar_text(b"DTSTART:20240131T0900\r\n", &mut buffer).err()?;
/// (error.byte, error.fault) // (8, NotATime)
/// ```
pub fn read_calendar_text<'a>(
    text: &[u8],
    buffer: &'a mut [u8],
) -> Result<CalendarText<'a>, CalendarTextError>
    requires { length text.now ≤ length buffer.old }
    ensures read { IfOk result (λ c. IsCalendarText text.now (parts_read c)) }
    ensures every { (p : CalendarParts) → IsCalendarText text.now p → IsOk result }
    ensures error { IfErr result (λ e. IsCalendarError text.now e) }
{
    let len = unfold(text, buffer);
    match read_lines(&buffer[..len]) {
        Ok(calendar) => Ok(calendar),
        Err(error) => Err(error_at(folded_place(text, error.byte), error.fault)),
    }
}

// Reads the lines of an unfolded text.
#[tactic(auto, unfolding(crate::specs::CalendarTexts::start_read))]
fn read_lines(text: &[u8]) -> Result<CalendarText<'_>, CalendarTextError>
    ensures read { IfOk result (λ c. HasParts text.now (parts_read c)) }
    ensures error { IfErr result (λ e. start_read text.now ≡ Err e) }
{
    let Some(line) = first_line(Property::Start, text) else {
        return Err(error_at(text.len(), CalendarTextFault::NoStart));
    };
    let none = Seen {
        start: None,
        has_rule: false,
    };
    match read_pieces(&LineReader { start: line }, none, text, b'\n') {
        Ok(seen) => match seen.start {
            Some(start) => Ok(CalendarText {
                start,
                zone: zone_of(head_of(line)),
                rule: rule_of(text),
                dates: TimeList::of(Property::Dates, text),
                exceptions: TimeList::of(Property::Exceptions, text),
            }),
            None => Err(error_at(text.len(), CalendarTextFault::NoStart)),
        },
        Err(error) => Err(error),
    }
}

// What stands before the first colon of a line.
fn head_of(line: &[u8]) -> &[u8]
    ensures { result.now ≡ head_of line.now }
{
    let (head, _) = first_piece(line, b':');
    head
}

// The text of the rule, if there is one.
fn rule_of(text: &[u8]) -> Option<&[u8]>
    ensures { text_in result ≡ option_map line_value (first_line Rule text.now) }
{
    match first_line(Property::Rule, text) {
        None => None,
        Some(line) => match cut_at(line, b':') {
            Some((_, value)) => Some(value),
            None => Some(b""),
        },
    }
}

// The first line of a property.
fn first_line(property: Property, text: &[u8]) -> Option<&[u8]>
    ensures { text_in result ≡ first_line property text.now }
{
    let mut rest = text;
    loop {
        let (line, behind) = first_piece(rest, b'\n');
        if is_line_of(property, line) {
            return Some(line);
        }
        match behind {
            [_, next @ ..] => rest = next,
            [] => return None,
        }
    }
}

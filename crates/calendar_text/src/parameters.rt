//! The parameters of a line: TZID and VALUE.
ghost use Rattle.std.specs.Prelude.{◌≡◌, ◌≤◌, ◌+◌, IfErr, length};
ghost use Rattle.std.specs.Str.{byte};
ghost use Rattle.chrono_text.specs.Lists.{pieces};
ghost use Rattle.calendar_text.specs.Lines.{no_parameters, parameters_read, text_in, with_parameter, with_type, with_zone, zone_of, zone_of_parameters};

use crate::byte_class::{ByteClass, class_len};
use crate::calendar_error::{CalendarTextError, CalendarTextFault, error_at};
use crate::pieces::{PieceReader, behind_name, cut_at, read_pieces};
use chrono_text::{first_piece, same_but_for_case};

// What the parameters of a line say, but for the zone's name.
#[derive(Clone, Copy)]
pub(crate) struct Parameters {
    // TZID is there.
    pub(crate) has_zone: bool,
    // VALUE is there.
    pub(crate) has_type: bool,
    // It is VALUE=DATE.
    pub(crate) is_date: bool,
}

// Reads the parameters, one after another.
#[derive(Drop)]
struct ParameterReader;

impl PieceReader<Parameters> for ParameterReader {
    ghost step = { λ _. with_parameter };

    fn with_piece(&self, read: Parameters, piece: &[u8]) -> Result<Parameters, CalendarTextError> {
        with_parameter(read, piece)
    }
}

// What the parameters in front of a line's colon say.
#[tactic(auto, unfolding(crate::specs::Lines::parameters_read))]
pub(crate) fn read_parameters(head: &[u8]) -> Result<Parameters, CalendarTextError>
    ensures read { result ≡ parameters_read head.now }
    ensures byte { IfErr result (λ e. e.byte ≤ length head.now) }
{
    let none = Parameters {
        has_zone: false,
        has_type: false,
        is_date: false,
    };
    let Some((name, text)) = cut_at(head, b';') else {
        return Ok(none);
    };
    match read_pieces(&ParameterReader, none, text, b';') {
        Ok(read) => Ok(read),
        Err(error) => Err(error.behind(name.len() + 1)),
    }
}

// What was read, with one more parameter.
#[tactic(auto, unfolding(crate::specs::Lines::with_parameter))]
fn with_parameter(read: Parameters, text: &[u8]) -> Result<Parameters, CalendarTextError>
    ensures read { result ≡ with_parameter read text.now }
    ensures byte { IfErr result (λ e. e.byte ≤ length text.now) }
{
    if let Some(name) = behind_name(text, b"TZID=") {
        return with_zone(read, name);
    }
    if let Some(word) = behind_name(text, b"VALUE=") {
        return with_type(read, word);
    }
    Err(error_at(0, CalendarTextFault::UnknownParameter))
}

// What was read, with the name of a zone. It stands behind five bytes.
#[tactic(auto, unfolding(crate::specs::Lines::with_zone))]
fn with_zone(read: Parameters, name: &[u8]) -> Result<Parameters, CalendarTextError>
    ensures read { result ≡ with_zone read name.now }
    ensures byte { IfErr result (λ e. e.byte ≤ 5 + length name.now) }
{
    if read.has_zone {
        return Err(error_at(0, CalendarTextFault::ParameterTwice));
    }
    if read.is_date {
        return Err(error_at(0, CalendarTextFault::ZoneOfDate));
    }
    let len = class_len(ByteClass::Safe, name);
    if name.is_empty() || len < name.len() {
        return Err(error_at(5 + len, CalendarTextFault::NotAZoneName));
    }
    Ok(Parameters {
        has_zone: true,
        has_type: read.has_type,
        is_date: read.is_date,
    })
}

// What was read, with the type of the values. It stands behind six bytes.
#[tactic(auto, unfolding(crate::specs::Lines::with_type))]
fn with_type(read: Parameters, word: &[u8]) -> Result<Parameters, CalendarTextError>
    ensures read { result ≡ with_type read word.now }
    ensures byte { IfErr result (λ e. e.byte ≤ 6 + length word.now) }
{
    if read.has_type {
        return Err(error_at(0, CalendarTextFault::ParameterTwice));
    }
    if same_but_for_case(word, b"DATE") {
        if read.has_zone {
            return Err(error_at(0, CalendarTextFault::ZoneOfDate));
        }
        return Ok(Parameters {
            has_zone: read.has_zone,
            has_type: true,
            is_date: true,
        });
    }
    if same_but_for_case(word, b"DATE-TIME") {
        return Ok(Parameters {
            has_zone: read.has_zone,
            has_type: true,
            is_date: read.is_date,
        });
    }
    Err(error_at(6, CalendarTextFault::UnknownValueType))
}

// The name of the zone in the parameters in front of a line's colon.
#[tactic(auto, unfolding(crate::specs::Lines::zone_of))]
pub(crate) fn zone_of(head: &[u8]) -> Option<&[u8]>
    ensures { text_in result ≡ zone_of head.now }
{
    let (_, text) = cut_at(head, b';')?;
    zone_of_parameters(text)
}

// The value of the first parameter TZID.
fn zone_of_parameters(text: &[u8]) -> Option<&[u8]>
    ensures { text_in result ≡ zone_of_parameters (pieces (byte ";") text.now) }
{
    let mut rest = text;
    loop {
        let (piece, behind) = first_piece(rest, b';');
        if let Some(name) = behind_name(piece, b"TZID=") {
            return Some(name);
        }
        match behind {
            [_, next @ ..] => rest = next,
            [] => return None,
        }
    }
}

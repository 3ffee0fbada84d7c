//! What is wrong with bytes that hold no zone.
ghost use Rattle.std.specs.Prelude.{◌≡◌, ◌≤◌, ◌-◌, Some, None, IfSome, IfNone, true, false, length};
ghost use Rattle.numbers_c.specs.Answers.{count_or_none};
ghost use Rattle.numbers_c.specs.Texts.{length_of, overwritten, text_within};
ghost use Rattle.zone.specs.Parts.{ZoneParts};
ghost use Rattle.layers_c.specs.Zones.{HoldsZone, IsPartOf};
ghost use Rattle.layers_c.specs.ZoneFaults.{IsNumberedReason, IsPlacedReason, IsReason, HasByteWithin, file_fault_from_c, row_number, text_faults, zone_fault_texts};
ghost use Rattle.layers_c.specs.Faults.{IsPartEnd, numbered};
ghost use Rattle.layers_c.specs.declared.zone_bytes.NoZone.{NoZone};

use crate::faults::CalendarFault;
use crate::part_end::part_end;
use crate::zone_bytes::{NoZone, row_room, zone_of};
use numbers_c::{NONE, write_over};
use zone::ZoneFault;
use zone_file::{ZoneFileFault, ZoneRowsError};
use zone_text::ZoneTextFault;

/// Returns whether bytes hold a zone: those of a TZif file, or the text of a rule. If they hold none, fills in what is wrong.
#[unsafe(no_mangle)]
pub extern "C" fn calendar_zone_check(zone: &[u8], fault: &mut CalendarFault) -> bool
    ensures read { result ≡ true → (z : ZoneParts) × HoldsZone zone.now z }
    ensures every { (z : ZoneParts) → HoldsZone zone.now z → result ≡ true }
    ensures place { result ≡ false → IsPartOf fault.new.byte fault.new.end (length zone.now) }
    ensures fault { result ≡ false → (why : NoZone) × IsReason zone.now why × IsNumberedReason fault.new.code fault.new.field why
        × IsPlacedReason zone.now fault.new.byte fault.new.end why }
    ensures no_fault { result ≡ true → fault.new ≡ fault.old }
{
    let mut room = row_room();
    match zone_of(zone, &mut room) {
        Ok(_) => true,
        Err(reason) => {
            *fault = fault_of(zone, reason);
            false
        }
    }
}

/// Writes what a fault of a zone says over the first bytes, if they are enough, and returns how many it took.
#[unsafe(no_mangle)]
pub extern "C" fn calendar_zone_fault_text(fault: &CalendarFault, text: &mut [u8]) -> i32
    ensures length { result ≡ count_or_none (length_of (text_within (length text.old) (numbered zone_fault_texts fault.now.code))) }
    ensures bytes { text.new ≡ overwritten (text_within (length text.old) (numbered zone_fault_texts fault.now.code)) text.old }
{
    match sentence_of(fault.code) {
        Some(sentence) => write_over(text, sentence.as_bytes()),
        None => NONE,
    }
}

// The numbers of what is wrong with bytes.
fn fault_of(bytes: &[u8], reason: NoZone) -> CalendarFault
    requires { HasByteWithin (length bytes.now) reason }
    ensures place { IsPartOf result.byte result.end (length bytes.now) }
    ensures why { IsNumberedReason result.code result.field reason }
    ensures placed { IsPlacedReason bytes.now result.byte result.end reason }
{
    match reason {
        NoZone::File(error) => in_file(bytes, file_code(error.fault), 0, error.byte),
        NoZone::FirstKind => in_file(bytes, 7, 0, 0),
        NoZone::Rows(ZoneRowsError::NoRow(place)) => in_file(bytes, 8, row_number(place), 0),
        NoZone::Rows(ZoneRowsError::NoRoom(_)) => in_file(bytes, 9, 0, 0),
        NoZone::Rule(start, error) => in_rule(bytes, text_code(error.fault), start + error.byte),
        NoZone::Parts(ZoneFault::Unordered(place)) => in_file(bytes, 15, row_number(place), 0),
        NoZone::Parts(ZoneFault::NotJoined) => in_file(bytes, 16, 0, 0),
    }
}

// What is wrong from a byte of a file on.
fn in_file(bytes: &[u8], code: u32, row: u32, byte: usize) -> CalendarFault
    requires { byte ≤ length bytes.now }
    ensures { result ≡ record { code = code; field = row; byte = byte; end = length bytes.now } }
{
    numbers(code, row, byte, bytes.len())
}

// What is wrong with a part of a rule.
fn in_rule(bytes: &[u8], code: u32, byte: usize) -> CalendarFault
    requires { byte ≤ length bytes.now }
    ensures code { result.code ≡ code }
    ensures no_row { result.field ≡ 0 }
    ensures byte { result.byte ≡ byte }
    ensures end { IsPartEnd bytes.now result.byte result.end }
{
    numbers(code, 0, byte, part_end(bytes, byte))
}

// The numbers of a fault.
fn numbers(code: u32, field: u32, byte: usize, end: usize) -> CalendarFault
    ensures { result ≡ record { code = code; field = field; byte = byte; end = end } }
{
    CalendarFault {
        code,
        field,
        byte,
        end,
    }
}

// The number of a row, from 1. No more than 512 are looked at.
fn row_number(place: usize) -> u32
    ensures { result ≡ row_number place }
{
    if place <= 512 { place as u32 + 1 } else { 513 }
}

// The number of what is wrong with a file.
fn file_code(fault: ZoneFileFault) -> u32
    ensures { file_fault_from_c result ≡ Some fault }
{
    match fault {
        ZoneFileFault::NoHeader => 1,
        ZoneFileFault::UnknownVersion => 2,
        ZoneFileFault::CutOff => 3,
        ZoneFileFault::WrongCounts => 4,
        ZoneFileFault::LeapSeconds => 5,
        ZoneFileFault::WrongFooter => 6,
        ZoneFileFault::OtherVersion => 17,
    }
}

// The number of what is wrong with the text of a rule.
fn text_code(fault: ZoneTextFault) -> u32
    ensures { numbered text_faults (result - 9) ≡ Some fault }
{
    match fault {
        ZoneTextFault::NoName => 10,
        ZoneTextFault::NoOffset => 11,
        ZoneTextFault::OffsetOfDay => 12,
        ZoneTextFault::NoDays => 13,
        ZoneTextFault::NoChange => 14,
    }
}

// What a fault says, if there is such a fault.
fn sentence_of(code: u32) -> Option<&'static str>
    ensures said { IfSome result (λ s. numbered zone_fault_texts code ≡ Some s.now) }
    ensures short { IfSome result (λ s. length s.now ≤ 64) }
    ensures none { IfNone result (numbered zone_fault_texts code ≡ None) }
{
    match code {
        1 => Some("no header of a TZif file stands there"),
        2 => Some("an unknown version of TZif"),
        3 => Some("the file is cut off"),
        4 => Some("the counts of the header are wrong"),
        5 => Some("the file counts leap seconds"),
        6 => Some("the footer is wrong"),
        7 => Some("no local time is named to begin with"),
        8 => Some("a row names no local time"),
        9 => Some("more than 512 rows"),
        10 => Some("a name of three letters or more is missing"),
        11 => Some("an offset is missing"),
        12 => Some("the offset is a day or more"),
        13 => Some("the days of daylight time are missing"),
        14 => Some("no day stands there on which the clock is set"),
        15 => Some("a row does not follow the one before it"),
        16 => Some("the rule does not go on from the last row"),
        17 => Some("the two headers name different versions"),
        _ => None,
    }
}

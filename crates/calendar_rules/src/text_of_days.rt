//! The parts of a rule's text that a rule of days has too.
ghost use Rattle.std.specs.Prelude.{◌≡◌, ◌≤◌, ◌<◌, ◌+◌, ◌++◌, ◌∷◌, [], length, take};
ghost use Rattle.std.specs.Str.{byte};
ghost use Rattle.calendar_text.specs.Puts.{IsPut};
ghost use Rattle.calendar_rules.specs.TimedRuleTexts.{part_of_days, text_of_days, is_clock_part, is_time_part, is_unit, unit_of};

use crate::part_value::SEMICOLON;
use calendar_text::behind_name;
use chrono_text::{begins_but_for_case, first_piece, same_but_for_case};
use zoned_rules::ClockUnit;

// Writes the parts into a buffer that is longer than the text. Returns the number of bytes.
pub(crate) fn put_text_of_days(text: &[u8], buffer: &mut [u8]) -> usize
    requires { length text.now < length buffer.old }
    ensures text { take result buffer.new ≡ text_of_days text.now }
    ensures within { result ≤ length buffer.new }
    ensures length { length buffer.new ≡ length buffer.old }
{
    let mut len = 0;
    let mut rest = text;
    loop {
        let (part, behind) = first_piece(rest, SEMICOLON);
        if !is_time_part(part) {
            len = put_part(buffer, len, part_of_days(part));
        }
        match behind {
            [_, next @ ..] => rest = next,
            [] => return len,
        }
    }
}

// Puts a part behind the first `len` bytes of a buffer, and a semicolon behind it. Returns where it ends.
fn put_part(buffer: &mut [u8], len: usize, part: &[u8]) -> usize
    requires { len + length part.now < length buffer.old }
    ensures put { IsPut buffer.old buffer.new len (part.now ++ (byte ";" ∷ [])) result }
    ensures length { length buffer.new ≡ length buffer.old }
{
    let end = put_bytes(buffer, len, part);
    put_bytes(buffer, end, b";")
}

// Puts bytes behind the first `len` bytes of a buffer. Returns where they end.
fn put_bytes(buffer: &mut [u8], len: usize, bytes: &[u8]) -> usize
    requires { len + length bytes.now ≤ length buffer.old }
    ensures put { IsPut buffer.old buffer.new len bytes.now result }
    ensures length { length buffer.new ≡ length buffer.old }
{
    let end = len + bytes.len();
    buffer[len..end].copy_from_slice(bytes);
    end
}

// Whether a part lists times of day, or is UNTIL.
fn is_time_part(part: &[u8]) -> bool
    ensures { result ≡ is_time_part part.now }
{
    begins_but_for_case(part, b"BYHOUR=")
        || (begins_but_for_case(part, b"BYMINUTE=")
            || (begins_but_for_case(part, b"BYSECOND=") || begins_but_for_case(part, b"UNTIL=")))
}

// A part as a rule of days may have it.
fn part_of_days(part: &[u8]) -> &[u8]
    ensures value { result.now ≡ part_of_days part.now }
    ensures short { length result.now ≤ length part.now }
{
    if is_clock_part(part) {
        b"FREQ=YEARLY"
    } else {
        part
    }
}

// Whether a part is FREQ, and counts hours, minutes or seconds.
fn is_clock_part(part: &[u8]) -> bool
    ensures { result ≡ is_clock_part part.now }
{
    match behind_name(part, b"FREQ=") {
        Some(word) => is_unit(unit_of(word)),
        None => false,
    }
}

// Whether a unit is shorter than a day.
fn is_unit(unit: ClockUnit) -> bool
    ensures { result ≡ is_unit unit }
{
    match unit {
        ClockUnit::Day => false,
        ClockUnit::Hour | ClockUnit::Minute | ClockUnit::Second => true,
    }
}

// What a word of FREQ counts.
#[tactic(auto, unfolding(crate::specs::TimedRuleTexts::unit_of))]
pub(crate) fn unit_of(word: &[u8]) -> ClockUnit
    ensures { result ≡ unit_of word.now }
{
    if same_but_for_case(word, b"HOURLY") {
        ClockUnit::Hour
    } else if same_but_for_case(word, b"MINUTELY") {
        ClockUnit::Minute
    } else if same_but_for_case(word, b"SECONDLY") {
        ClockUnit::Second
    } else {
        ClockUnit::Day
    }
}

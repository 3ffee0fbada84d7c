//! What is wrong with a field that cannot be read, and where in the text.
ghost use Rattle.std.specs.Prelude.{◌≡◌, ◌+◌, ◌<◌, ◌≤◌, ◌^◌, length, take, drop, Some, IfSome, is_some};
ghost use Rattle.chrono_cron.specs.FieldTexts.{number_of_name};
ghost use Rattle.chrono_cron.specs.ScheduleErrors.{day_name_fault, schedule_error_at, fault_in, field_fault, greatest_of_field, is_item, field_item_fault, last_fault, least_of_field, letter_fault, named_fault, names_of_field, field_number_fault, span_fault, step_fault, unspelled_fault, weekday_name_fault};

use crate::text::day_fields::read_other_item;
use crate::text::day_items::{SHARP, before_letter, spelled_weekday};
use crate::text::field::{
    COMMA, DASH, SLASH, STEP_DIGITS, read_number, read_range, spelled_number,
};
use crate::text::number_names::Names;
use crate::text::schedule_error::{ScheduleError, ScheduleFault, ScheduleField};
use crate::text::split_fields::PlacedWord;
use chrono_text::{are_digits, begins_but_for_case, byte_place, read_digits};

impl ScheduleField {
    // Whether an item can be read in it.
    #[tactic(auto, unfolding(crate::specs::ScheduleErrors::is_item))]
    fn has_item(self, item: &[u8]) -> bool
        ensures { result ≡ is_item self item.now }
    {
        read_other_item(item, self).is_some()
    }
}

// The error of a field that cannot be read.
pub(crate) fn field_error(word: &PlacedWord, field: ScheduleField) -> ScheduleError
    requires { word.now.place + length word.now.text.now < 2 ^ 64 }
    ensures value { result ≡ schedule_error_at (Some field) (field_fault field (word.now.place, word.now.text.now)) }
    ensures byte { result.byte ≤ word.now.place + length word.now.text.now }
{
    let (byte, fault) = field_fault(word, field);
    ScheduleError {
        field: Some(field),
        byte,
        fault,
    }
}

// What is wrong with a field, and where: with its first item that cannot be read, or with the last.
fn field_fault(word: &PlacedWord, field: ScheduleField) -> (usize, ScheduleFault)
    requires { word.now.place + length word.now.text.now < 2 ^ 64 }
    ensures value { result ≡ field_fault field (word.now.place, word.now.text.now) }
    ensures within { result.0 ≤ word.now.place + length word.now.text.now }
{
    let mut place = word.place;
    let mut rest = word.text;
    let mut len = byte_place(rest, COMMA);
    while len < rest.len() {
        let item = &rest[..len];
        if !field.has_item(item) {
            return fault_in(item, place, field);
        }
        place += len + 1;
        rest = text_behind(rest, len);
        len = byte_place(rest, COMMA);
    }
    fault_in(rest, place, field)
}

// What is wrong with an item that begins at a place, and where.
fn fault_in(item: &[u8], place: usize, field: ScheduleField) -> (usize, ScheduleFault)
    requires { place + length item.now < 2 ^ 64 }
    ensures value { result ≡ fault_in field (place, item.now) }
    ensures within { result.0 ≤ place + length item.now }
{
    match named_fault(item, field) {
        Some((before, fault)) => (place + before, fault),
        None => {
            let (before, fault) = listed_fault(item, field);
            (place + before, fault)
        }
    }
}

// What is wrong with an item that lists numbers of a field, and behind how many of its bytes.
fn listed_fault(item: &[u8], field: ScheduleField) -> (usize, ScheduleFault)
    ensures value { result ≡ field_item_fault (names_of_field field) (least_of_field field) (greatest_of_field field) item.now }
    ensures within { result.0 ≤ length item.now }
{
    let (names, low, high) = field.numbers();
    field_item_fault(item, names, low, high)
}

// What is wrong with an item that names a day but for its number.
fn named_fault(item: &[u8], field: ScheduleField) -> Option<(usize, ScheduleFault)>
    ensures value { result ≡ named_fault field item.now }
    ensures within { IfSome result (λ fault. fault.0 ≤ length item.now) }
{
    match field {
        ScheduleField::Day => day_name_fault(item),
        ScheduleField::Weekday => weekday_name_fault(item),
        ScheduleField::Minute | ScheduleField::Hour | ScheduleField::Month => None,
    }
}

// What is wrong with the number behind `L-`, or with that before `W`.
#[tactic(auto, unfolding(crate::specs::ScheduleErrors::day_name_fault))]
fn day_name_fault(item: &[u8]) -> Option<(usize, ScheduleFault)>
    ensures value { result ≡ day_name_fault item.now }
    ensures within { IfSome result (λ fault. fault.0 ≤ length item.now) }
{
    if item.len() >= 2 && begins_but_for_case(item, b"L-") {
        return Some((2, field_number_fault(&item[2..], Names::Numbers)));
    }
    letter_fault(item, b'w', Names::Numbers)
}

// What is wrong with the weekday before `#` and with the number behind it, or with the weekday before `L`.
#[tactic(auto, unfolding(crate::specs::ScheduleErrors::weekday_name_fault))]
fn weekday_name_fault(item: &[u8]) -> Option<(usize, ScheduleFault)>
    ensures value { result ≡ weekday_name_fault item.now }
    ensures within { IfSome result (λ fault. fault.0 ≤ length item.now) }
{
    let len = byte_place(item, SHARP);
    if len == item.len() {
        return letter_fault(item, b'l', Names::Weekdays);
    }
    let weekday = &item[..len];
    if spelled_weekday(weekday).is_none() {
        return Some((0, field_number_fault(weekday, Names::Weekdays)));
    }
    Some((
        len + 1,
        field_number_fault(text_behind(item, len), Names::Numbers),
    ))
}

// What is wrong with a number before a letter that ends the item.
fn letter_fault(item: &[u8], letter: u8, names: Names) -> Option<(usize, ScheduleFault)>
    requires { 0 < letter }
    ensures value { result ≡ letter_fault names letter item.now }
    ensures within { IfSome result (λ fault. fault.0 ≡ 0) }
{
    let Some(number) = before_letter(item, letter) else {
        return None;
    };
    if spelled_number(number, names).is_some() {
        return Some((0, ScheduleFault::OutOfRange));
    }
    None
}

// What is wrong with an item, and behind how many of its bytes.
fn field_item_fault(text: &[u8], names: Names, low: u32, high: u32) -> (usize, ScheduleFault)
    requires { high < 64 }
    ensures value { result ≡ field_item_fault names low high text.now }
    ensures within { result.0 ≤ length text.now }
{
    let len = byte_place(text, SLASH);
    let span = &text[..len];
    if len == text.len() {
        return span_fault(span, names, low, high);
    }
    if read_range(span, names, low, high).is_some() {
        return (len + 1, step_fault(text_behind(text, len)));
    }
    if read_number(span, names, low, high).is_some() {
        return (len, ScheduleFault::StepOfNumber);
    }
    span_fault(span, names, low, high)
}

// What is wrong with a number or a range, and behind how many of its bytes.
fn span_fault(text: &[u8], names: Names, low: u32, high: u32) -> (usize, ScheduleFault)
    ensures value { result ≡ span_fault names low high text.now }
    ensures within { result.0 ≤ length text.now }
{
    let len = byte_place(text, DASH);
    let first = &text[..len];
    let fault = (0, field_number_fault(first, names));
    if len == text.len() {
        return fault;
    }
    let Some(_) = read_number(first, names, low, high) else {
        return fault;
    };
    let last = text_behind(text, len);
    (len + 1, last_fault(last, names, low, high))
}

// What is wrong with the end of a range whose beginning can be read.
fn last_fault(text: &[u8], names: Names, low: u32, high: u32) -> ScheduleFault
    ensures { result ≡ last_fault names low high text.now }
{
    if read_number(text, names, low, high).is_some() {
        ScheduleFault::RangeTurnedRound
    } else {
        field_number_fault(text, names)
    }
}

// What is wrong with a step.
fn step_fault(text: &[u8]) -> ScheduleFault
    ensures { result ≡ step_fault text.now }
{
    if read_digits(text, STEP_DIGITS).is_some() {
        ScheduleFault::StepOfZero
    } else if are_digits(text) {
        ScheduleFault::OutOfRange
    } else {
        unspelled_fault(text)
    }
}

// What is wrong with a text that is none of a field's numbers.
#[tactic(auto, unfolding(crate::specs::ScheduleErrors::field_number_fault))]
fn field_number_fault(text: &[u8], names: Names) -> ScheduleFault
    ensures { result ≡ field_number_fault names text.now }
{
    if spelled_number(text, names).is_some() {
        ScheduleFault::OutOfRange
    } else if begins_with_name(text, names) {
        ScheduleFault::LongName
    } else {
        unspelled_fault(text)
    }
}

// Whether a text begins with a name.
fn begins_with_name(text: &[u8], names: Names) -> bool
    ensures { result ≡ is_some (number_of_name names (take 3 text.now)) }
{
    names.number_of(&text[..text.len().min(3)]).is_some()
}

// What is wrong with a text that spells no number.
fn unspelled_fault(text: &[u8]) -> ScheduleFault
    ensures { result ≡ unspelled_fault text.now }
{
    match text {
        [] => ScheduleFault::Empty,
        [first, ..] if first.is_ascii_alphabetic() => ScheduleFault::UnknownName,
        _ => ScheduleFault::NotANumber,
    }
}

// What stands behind a place of a text.
fn text_behind(text: &[u8], place: usize) -> &[u8]
    requires { place < length text.now }
    ensures { result.now ≡ drop (place + 1) text.now }
{
    &text[place + 1..]
}

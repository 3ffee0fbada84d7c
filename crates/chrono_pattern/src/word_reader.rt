//! Reads the words of a date-time.
ghost use Rattle.std.specs.Prelude.{◌≡◌, ◌≤◌, Ok, Err, IfErr, IfOk, length, take};
ghost use Rattle.chrono_pattern.specs.WordReads.{half_of, half_read, least_letters, month_read, name_len, weekday_read, word_read};

use crate::error::ReadFault;
use crate::item::WordField;
use crate::parsed::Part;
use crate::reader::{Reader, put_behind};
use crate::stop::{Stop, stopped};
use chrono_datetime::{Month, Weekday};

// Reads a word.
#[tactic(auto, unfolding(crate::specs::WordReads::word_read))]
pub(crate) fn read_word(reader: &mut Reader<'_>, word: WordField) -> Result<(), Stop>
    ensures read { IfOk result (λ u. word_read word reader.old ≡ Ok reader.new) }
    ensures stop { IfErr result (λ e. word_read word reader.old ≡ Err e) }
{
    if reader.rest.len() < least_letters(word) {
        return Err(stopped(ReadFault::TooShort, reader.rest));
    }
    match word {
        WordField::MonthName => read_month(reader, true),
        WordField::MonthLetters => read_month(reader, false),
        WordField::WeekdayName => read_weekday(reader, true),
        WordField::WeekdayLetters => read_weekday(reader, false),
        WordField::Half | WordField::SmallHalf => read_half(reader),
    }
}

// The letters of the shortest text of a word.
fn least_letters(word: WordField) -> usize
    ensures { result ≡ least_letters word }
{
    match word {
        WordField::Half | WordField::SmallHalf => 2,
        _ => 3,
    }
}

// Reads the three letters of a month, and the rest of its name if that may follow.
#[tactic(auto, unfolding(crate::specs::WordReads::month_read))]
fn read_month(reader: &mut Reader<'_>, whole: bool) -> Result<(), Stop>
    requires { 3 ≤ length reader.old.rest }
    ensures read { IfOk result (λ u. month_read whole reader.old ≡ Ok reader.new) }
    ensures stop { IfErr result (λ e. month_read whole reader.old ≡ Err e) }
{
    let text = reader.rest;
    let Some(month) = Month::from_letters(front(text, 3)) else {
        return Err(stopped(ReadFault::Invalid, text));
    };
    let len = name_len(whole, month.name().as_bytes(), text);
    put_behind(
        reader,
        Part::MonthOfYear,
        month.number_from_month() as i32,
        len,
        text,
    )
}

// Reads the three letters of a weekday, and the rest of its name if that may follow.
#[tactic(auto, unfolding(crate::specs::WordReads::weekday_read))]
fn read_weekday(reader: &mut Reader<'_>, whole: bool) -> Result<(), Stop>
    requires { 3 ≤ length reader.old.rest }
    ensures read { IfOk result (λ u. weekday_read whole reader.old ≡ Ok reader.new) }
    ensures stop { IfErr result (λ e. weekday_read whole reader.old ≡ Err e) }
{
    let text = reader.rest;
    let Some(weekday) = Weekday::from_letters(front(text, 3), 3) else {
        return Err(stopped(ReadFault::Invalid, text));
    };
    let len = name_len(whole, weekday.name().as_bytes(), text);
    put_behind(
        reader,
        Part::DayOfWeek,
        weekday.number_from_monday() as i32,
        len,
        text,
    )
}

// Reads the half of the day.
#[tactic(auto, unfolding(crate::specs::WordReads::half_read))]
fn read_half(reader: &mut Reader<'_>) -> Result<(), Stop>
    requires { 2 ≤ length reader.old.rest }
    ensures read { IfOk result (λ u. half_read reader.old ≡ Ok reader.new) }
    ensures stop { IfErr result (λ e. half_read reader.old ≡ Err e) }
{
    let text = reader.rest;
    match half_of(front(text, 2)) {
        Some(half) => put_behind(reader, Part::HourDiv12, half, 2, text),
        None => Err(stopped(ReadFault::Invalid, text)),
    }
}

// The half of the day that two letters name.
fn half_of(letters: &[u8]) -> Option<i32>
    ensures { result ≡ half_of letters.now }
{
    if letters.eq_ignore_ascii_case(b"am") {
        Some(0)
    } else if letters.eq_ignore_ascii_case(b"pm") {
        Some(1)
    } else {
        None
    }
}

// How many bytes of a text are the name, if the whole one is read and the text begins with it. Else its three letters are.
fn name_len(whole: bool, name: &[u8], text: &[u8]) -> usize
    requires { 3 ≤ length text.now }
    ensures value { result ≡ name_len whole name.now text.now }
    ensures within { result ≤ length text.now }
{
    if whole && name.len() <= text.len() && text[..name.len()].eq_ignore_ascii_case(name) {
        name.len()
    } else {
        3
    }
}

// So many bytes of a text, or all.
fn front(text: &[u8], count: usize) -> &[u8]
    ensures { result.now ≡ take count text.now }
{
    &text[..count.min(text.len())]
}

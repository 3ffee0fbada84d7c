//! Why a text is none of RFC 2822, and at which byte.
ghost use Rattle.std.specs.Prelude.{◌≡◌, ◌≤◌, length, Some, None, IfSome, IfNone};
ghost use Rattle.chrono_datetime.specs.Names.{month_of_letters, weekday_of_letters};
ghost use Rattle.chrono_reading.specs.DateErrors.{error_at};
ghost use Rattle.chrono_reading.specs.NameErrors.{month_error, weekday_error};
ghost use Rattle.chrono_reading.specs.declared.error.ReadCause.TheVariants.{UnknownName};
ghost use Rattle.chrono_stamps.specs.MailErrors.{begins_with_letter, behind_sign, day_error, error_from_day, error_from_end, error_from_hour, error_from_minute, error_from_month, error_from_second, error_from_year, error_from_zone, error_in, fitting_one, fitting_two, fitting_zone, front_word, is_mail_zone_name, month_word_error, names_day, next_part, rfc2822_error, two_digits_fault, weekday_word_error, year_word_error, zone_digits_fault, zone_fault};

use crate::mail_words::{gap_end, skip_gap, split_word};
use crate::pieces::first_bytes;
use crate::rfc2822_reader::{hours_behind, mail_year};
use crate::rfc3339_error::{not_of_form, two_written};
use chrono_datetime::{Datelike, Month, NaiveDate, Weekday};
use chrono_reading::{ReadCause, ReadError, fitting_len, leading_digits, read_month, read_weekday};
use chrono_text::{part_place, read_digits};

// Why a text is none of RFC 2822: what is wrong first, from left to right.
#[cold]
#[tactic(auto, unfolding(crate::specs::MailErrors::rfc2822_error))]
pub(crate) fn mail_error(text: &[u8]) -> ReadError
    ensures { result ≡ rfc2822_error text.now }
{
    let part = skip_gap(text);
    if !begins_with_letter(part) {
        return error_from_day(text, None, part);
    }
    let word = front_word(part);
    let Some(weekday) = Weekday::from_letters(word, 3) else {
        return error_in(text, part, weekday_word_error(word));
    };
    let comma = next_part(part);
    match behind_sign(b',', comma) {
        Some(day) => error_from_day(text, Some(weekday), day),
        None => not_of_form(part_place(text, comma, 0)),
    }
}

// The error if it is in the day of the month or behind it.
#[tactic(auto, unfolding(crate::specs::MailErrors::error_from_day))]
fn error_from_day(text: &[u8], weekday: Option<Weekday>, part: &[u8]) -> ReadError
    ensures { result ≡ error_from_day text.now weekday part.now }
{
    let word = front_word(part);
    match read_digits(word, 2) {
        Some(day) => error_from_month(text, weekday, part, day, next_part(part)),
        None => not_of_form(part_place(text, part, fitting_len(b"dd", word))),
    }
}

// The error if it is in the month or behind it.
#[tactic(auto, unfolding(crate::specs::MailErrors::error_from_month))]
fn error_from_month(
    text: &[u8],
    weekday: Option<Weekday>,
    day_part: &[u8],
    day: u32,
    part: &[u8],
) -> ReadError
    ensures { result ≡ error_from_month text.now weekday day_part.now day part.now }
{
    let word = front_word(part);
    match Month::from_letters(word) {
        Some(month) => error_from_year(text, weekday, day_part, day, month, next_part(part)),
        None => error_in(text, part, month_word_error(word)),
    }
}

// The error if it is in the year or behind it. The date has to be one, and of that weekday.
#[tactic(auto, unfolding(crate::specs::MailErrors::error_from_year))]
fn error_from_year(
    text: &[u8],
    weekday: Option<Weekday>,
    day_part: &[u8],
    day: u32,
    month: Month,
    part: &[u8],
) -> ReadError
    ensures { result ≡ error_from_year text.now weekday day_part.now day month part.now }
{
    let word = front_word(part);
    let Some(year) = mail_year(word) else {
        return error_in(text, part, year_word_error(word));
    };
    let Some(date) = NaiveDate::from_ymd_opt(year as i32, month.number_from_month(), day) else {
        return error_in(text, day_part, day_error(year, month, day));
    };
    if !names_day(weekday, date) {
        return not_of_form(part_place(text, skip_gap(text), 0));
    }
    error_from_hour(text, next_part(part))
}

// The error if it is in the hour or behind it.
#[tactic(auto, unfolding(crate::specs::MailErrors::error_from_hour))]
fn error_from_hour(text: &[u8], part: &[u8]) -> ReadError
    ensures { result ≡ error_from_hour text.now part.now }
{
    if let Some(fault) = two_digits_fault(ReadCause::HourAbove23, 23, front_word(part)) {
        return error_in(text, part, fault);
    }
    let colon = next_part(part);
    match behind_sign(b':', colon) {
        Some(minute) => error_from_minute(text, minute),
        None => not_of_form(part_place(text, colon, 0)),
    }
}

// The error if it is in the minute or behind it.
#[tactic(auto, unfolding(crate::specs::MailErrors::error_from_minute))]
fn error_from_minute(text: &[u8], part: &[u8]) -> ReadError
    ensures { result ≡ error_from_minute text.now part.now }
{
    if let Some(fault) = two_digits_fault(ReadCause::MinuteAbove59, 59, front_word(part)) {
        return error_in(text, part, fault);
    }
    let next = next_part(part);
    match behind_sign(b':', next) {
        Some(second) => error_from_second(text, second),
        None => error_from_zone(text, next),
    }
}

// The error if it is in the second or behind it.
#[tactic(auto, unfolding(crate::specs::MailErrors::error_from_second))]
fn error_from_second(text: &[u8], part: &[u8]) -> ReadError
    ensures { result ≡ error_from_second text.now part.now }
{
    match two_digits_fault(ReadCause::SecondAbove60, 60, front_word(part)) {
        Some(fault) => error_in(text, part, fault),
        None => error_from_zone(text, next_part(part)),
    }
}

// The error if it is in the zone or behind it.
#[tactic(auto, unfolding(crate::specs::MailErrors::error_from_zone))]
fn error_from_zone(text: &[u8], part: &[u8]) -> ReadError
    ensures { result ≡ error_from_zone text.now part.now }
{
    let (word, rest) = split_word(part);
    match zone_fault(word) {
        Some(fault) => error_in(text, part, fault),
        None => error_from_end(text, rest),
    }
}

// The error behind the zone. If nothing stands there, UTC has no date then.
#[tactic(auto, unfolding(crate::specs::MailErrors::error_from_end))]
fn error_from_end(text: &[u8], rest: &[u8]) -> ReadError
    ensures { result ≡ error_from_end text.now rest.now }
{
    let (depth, left) = gap_end(rest);
    if depth != 0 {
        return not_of_form(part_place(text, left, 0));
    }
    if left.len() != 0 {
        return not_of_form(part_place(text, left, 0));
    }
    ReadError {
        cause: ReadCause::DateOutOfRange,
        byte: 0,
    }
}

// The error of a text, by that of the word in front of a part.
pub(crate) fn error_in(text: &[u8], part: &[u8], error: ReadError) -> ReadError
    ensures { result ≡ error_in text.now part.now error }
{
    ReadError {
        cause: error.cause,
        byte: part_place(text, part, error.byte),
    }
}

// The word in front of a part.
fn front_word(part: &[u8]) -> &[u8]
    ensures { result.now ≡ front_word part.now }
{
    split_word(part).0
}

// What stands behind the word in front of a part, and behind white space and comments.
#[tactic(auto, unfolding(crate::specs::MailErrors::next_part))]
fn next_part(part: &[u8]) -> &[u8]
    ensures { result.now ≡ next_part part.now }
{
    skip_gap(split_word(part).1)
}

// What stands behind a sign, and behind white space and comments, if that sign stands in front.
#[tactic(auto, unfolding(crate::specs::MailErrors::behind_sign))]
fn behind_sign(sign: u8, part: &[u8]) -> Option<&[u8]>
    ensures some { IfSome result (λ rest. behind_sign sign part.now ≡ Some rest.now) }
    ensures none { IfNone result (behind_sign sign part.now ≡ None) }
{
    let [first, rest @ ..] = part else {
        return None;
    };
    if *first != sign {
        return None;
    }
    Some(skip_gap(rest))
}

// Whether a letter stands in front.
fn begins_with_letter(part: &[u8]) -> bool
    ensures { result ≡ begins_with_letter part.now }
{
    match part {
        [first, ..] => first.is_ascii_alphabetic(),
        [] => false,
    }
}

// Why a word names no weekday.
#[tactic(auto, unfolding(crate::specs::MailErrors::weekday_word_error))]
fn weekday_word_error(word: &[u8]) -> ReadError
    ensures { result ≡ weekday_word_error word.now }
{
    let front = first_bytes(word, 3);
    let Some(_name) = Weekday::from_letters(front, 3) else {
        return no_weekday_error(front);
    };
    unknown_name(3)
}

// The same of three bytes at most that name none.
fn no_weekday_error(front: &[u8]) -> ReadError
    requires short { length front.now ≤ 3 }
    requires none { weekday_of_letters 3 front.now ≡ None }
    ensures { result ≡ weekday_error front.now }
{
    match read_weekday(front) {
        Ok(_) => unknown_name(3),
        Err(error) => error,
    }
}

// Why a word names no month.
#[tactic(auto, unfolding(crate::specs::MailErrors::month_word_error))]
fn month_word_error(word: &[u8]) -> ReadError
    ensures { result ≡ month_word_error word.now }
{
    let front = first_bytes(word, 3);
    let Some(_name) = Month::from_letters(front) else {
        return no_month_error(front);
    };
    unknown_name(3)
}

// The same of three bytes at most that name none.
fn no_month_error(front: &[u8]) -> ReadError
    requires short { length front.now ≤ 3 }
    requires none { month_of_letters front.now ≡ None }
    ensures { result ≡ month_error front.now }
{
    match read_month(front) {
        Ok(_) => unknown_name(3),
        Err(error) => error,
    }
}

// No name has this byte of a word there.
fn unknown_name(byte: usize) -> ReadError
    ensures { result ≡ error_at UnknownName byte }
{
    ReadError {
        cause: ReadCause::UnknownName,
        byte,
    }
}

// Why a word is no year.
#[tactic(auto, unfolding(crate::specs::MailErrors::year_word_error))]
fn year_word_error(word: &[u8]) -> ReadError
    ensures { result ≡ year_word_error word.now }
{
    let digits = leading_digits(word);
    if word.len() < 2 {
        return not_of_form(digits);
    }
    if digits != word.len() {
        return not_of_form(digits);
    }
    ReadError {
        cause: ReadCause::YearOutOfRange,
        byte: 0,
    }
}

// Why a month has no such day.
#[tactic(auto, unfolding(crate::specs::MailErrors::day_error))]
fn day_error(year: u32, month: Month, day: u32) -> ReadError
    requires { year ≤ 262_142 }
    ensures { result ≡ day_error year month day }
{
    if day == 0 {
        return ReadError {
            cause: ReadCause::DayZero,
            byte: 0,
        };
    }
    let days = month.num_days(year as i32).unwrap();
    ReadError {
        cause: ReadCause::DayAbove(u32::from(days)),
        byte: 0,
    }
}

// Whether no weekday is given, or that of the date.
#[tactic(auto, unfolding(crate::specs::MailErrors::names_day))]
fn names_day(weekday: Option<Weekday>, date: NaiveDate) -> bool
    ensures { result ≡ names_day weekday date }
{
    match weekday {
        Some(given) => given.number_from_monday() == date.weekday().number_from_monday(),
        None => true,
    }
}

// What is wrong with a word of two digits, of which the number may be so great.
#[tactic(auto, unfolding(crate::specs::MailErrors::two_digits_fault))]
fn two_digits_fault(above: ReadCause, most: u32, word: &[u8]) -> Option<ReadError>
    ensures { result ≡ two_digits_fault above most word.now }
{
    let fit = fitting_len(b"dd", word);
    if word.len() != 2 {
        return Some(not_of_form(fit));
    }
    if fit != 2 {
        return Some(not_of_form(fit));
    }
    if two_written(word) > most {
        return Some(ReadError {
            cause: above,
            byte: 0,
        });
    }
    None
}

// What is wrong with the word of a zone.
#[tactic(auto, unfolding(crate::specs::MailErrors::zone_fault))]
fn zone_fault(word: &[u8]) -> Option<ReadError>
    ensures { result ≡ zone_fault word.now }
{
    let [first, rest @ ..] = word else {
        return Some(unknown_name(0));
    };
    if *first == b'+' {
        return zone_digits_fault(rest);
    }
    if *first == b'-' {
        return zone_digits_fault(rest);
    }
    if is_mail_zone_name(word) {
        return None;
    }
    Some(unknown_name(fitting_zone(word)))
}

// What is wrong with the digits behind the sign of a zone.
#[tactic(auto, unfolding(crate::specs::MailErrors::zone_digits_fault))]
fn zone_digits_fault(digits: &[u8]) -> Option<ReadError>
    ensures { result ≡ zone_digits_fault digits.now }
{
    let fit = fitting_len(b"dddd", digits);
    if digits.len() != 4 {
        return Some(not_of_form(fit + 1));
    }
    if fit != 4 {
        return Some(not_of_form(fit + 1));
    }
    if two_written(digits) > 23 {
        return Some(ReadError {
            cause: ReadCause::HourAbove23,
            byte: 1,
        });
    }
    if two_written(&digits[2..]) > 59 {
        return Some(ReadError {
            cause: ReadCause::MinuteAbove59,
            byte: 3,
        });
    }
    None
}

// Whether a word is the name of a zone.
fn is_mail_zone_name(word: &[u8]) -> bool
    ensures { result ≡ is_mail_zone_name word.now }
{
    hours_behind(word).is_some()
}

// How many bytes of a word are as a zone's name begins.
#[tactic(auto, unfolding(crate::specs::MailErrors::fitting_zone))]
fn fitting_zone(word: &[u8]) -> usize
    ensures { result ≡ fitting_zone word.now }
{
    match word {
        [] => 0,
        [one] => fitting_one(*one),
        [one, two] => fitting_two(*one, *two),
        [one, two, three, ..] => {
            if is_mail_zone_name(&[*one, *two, *three]) {
                3
            } else {
                fitting_two(*one, *two)
            }
        }
    }
}

// The same of its first two bytes. A name of three letters ends in `T`.
#[tactic(auto, unfolding(crate::specs::MailErrors::fitting_two))]
fn fitting_two(one: u8, two: u8) -> usize
    ensures { result ≡ fitting_two one two }
{
    if is_mail_zone_name(&[one, two]) {
        2
    } else if is_mail_zone_name(&[one, two, b'T']) {
        2
    } else {
        fitting_one(one)
    }
}

// The same of its first byte.
#[tactic(auto, unfolding(crate::specs::MailErrors::fitting_one))]
fn fitting_one(one: u8) -> usize
    ensures { result ≡ fitting_one one }
{
    if is_mail_zone_name(&[one]) { 1 } else { 0 }
}

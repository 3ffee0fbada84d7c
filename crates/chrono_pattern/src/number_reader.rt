//! Reads the numbers of a date-time.
ghost use Rattle.std.specs.Prelude.{◌≡◌, ◌≤◌, ◌<◌, ◌^◌, ◌++◌, Ok, Err, IfErr, IfOk, IfSome, drop, length, pos};
ghost use Rattle.chrono_text.specs.Numbers.{signed};
ghost use Rattle.chrono_text.specs.Text.{all_digits, two_digits};
ghost use Rattle.chrono_pattern.specs.Progress.{progress};
ghost use Rattle.chrono_pattern.specs.declared.parsed.Parsed.{Parsed};
ghost use Rattle.chrono_pattern.specs.NumberReads.{digits_in, digits_read, half_put, has_sign, hour_of_clock, most_digits, number_part, number_put, number_read, signed_read, weekday_of_sunday};

use crate::class::{Class, class_len, skip_blanks};
use crate::error::ReadFault;
use crate::item::NumberField;
use crate::parsed::{Parsed, Part};
use crate::reader::Reader;
use crate::stop::{Stop, fault_without, stopped};
use chrono_text::{read_digits, read_four, read_two};

// The most digits that are read behind a sign.
const SIGNED_DIGITS: usize = 9;

// Reads a number behind blanks or none. The usual case comes first.
#[inline(always)]
pub(crate) fn read_number(reader: &mut Reader<'_>, field: NumberField) -> Result<(), Stop>
    ensures read { IfOk result (λ u. number_read field reader.old ≡ Ok reader.new) }
    ensures stop { IfErr result (λ e. number_read field reader.old ≡ Err e) }
{
    let text = reader.rest;
    match plain_number(field, text) {
        None => read_slowly(reader, field),
        Some(size) => {
            let value = with_sign(false, size);
            put_number_behind(reader, field, value, most_digits(field), text)
        }
    }
}

// The number of two or four digits in front of a text, for a field that has no more.
#[inline(always)]
fn plain_number(field: NumberField, text: &[u8]) -> Option<u32>
    ensures value { IfSome result (λ n. (p : Parsed) → number_read field (record { rest = text.now; parsed = p })
        ≡ progress (number_put field (pos n) p) (drop (most_digits field) text.now) text.now) }
    ensures within { IfSome result (λ n. most_digits field ≤ length text.now) }
    ensures small { IfSome result (λ n. n < 10 ^ 9) }
{
    let most = most_digits(field);
    if has_sign(field) {
        if most == 4 { front_four(text) } else { None }
    } else if most == 2 {
        front_two(text)
    } else {
        None
    }
}

// The number of two digits in front of a text.
#[inline(always)]
fn front_two(text: &[u8]) -> Option<u32>
    ensures { IfSome result (λ n. (n < 100) × (text.now ≡ two_digits n ++ drop 2 text.now)) }
{
    match text {
        [tens, ones, ..] => read_two(*tens, *ones),
        _ => None,
    }
}

// The number of four digits in front of a text.
#[inline(always)]
fn front_four(text: &[u8]) -> Option<u32>
    ensures { IfSome result (λ n. (n < 10_000) × (text.now ≡ all_digits 4 n ++ drop 4 text.now)) }
{
    match text {
        [thousands, hundreds, tens, ones, ..] => {
            read_four([*thousands, *hundreds, *tens, *ones])
        }
        _ => None,
    }
}

// Reads a number of any form, into a result of its own: so that of the usual ones needs no memory.
#[inline(always)]
fn read_slowly(reader: &mut Reader<'_>, field: NumberField) -> Result<(), Stop>
    ensures read { IfOk result (λ u. number_read field reader.old ≡ Ok reader.new) }
    ensures stop { IfErr result (λ e. number_read field reader.old ≡ Err e) }
{
    match read_any_number(reader, field) {
        Ok(()) => Ok(()),
        Err(stop) => Err(stop),
    }
}

// Reads a number of any form. It is apart, so that the usual ones take few instructions.
#[inline(never)]
#[tactic(auto, unfolding(crate::specs::NumberReads::number_read))]
fn read_any_number(reader: &mut Reader<'_>, field: NumberField) -> Result<(), Stop>
    ensures read { IfOk result (λ u. number_read field reader.old ≡ Ok reader.new) }
    ensures stop { IfErr result (λ e. number_read field reader.old ≡ Err e) }
{
    let text = skip_blanks(reader.rest);
    if has_sign(field) {
        read_signed(reader, text, field)
    } else {
        read_size(reader, text, field, most_digits(field), false)
    }
}

// Reads a number that may have a sign.
#[inline(always)]
#[tactic(auto, unfolding(crate::specs::NumberReads::signed_read))]
fn read_signed<'a>(reader: &mut Reader<'a>, text: &'a [u8], field: NumberField) -> Result<(), Stop>
    ensures read { IfOk result (λ u. signed_read field text.now reader.old.parsed ≡ Ok reader.new) }
    ensures stop { IfErr result (λ e. signed_read field text.now reader.old.parsed ≡ Err e) }
{
    match text.split_first() {
        None => Err(stopped(ReadFault::TooShort, text)),
        Some((first, digits)) => {
            if *first == b'-' {
                read_size(reader, digits, field, SIGNED_DIGITS, true)
            } else if *first == b'+' {
                read_size(reader, digits, field, SIGNED_DIGITS, false)
            } else {
                read_size(reader, text, field, most_digits(field), false)
            }
        }
    }
}

// Reads the digits of a number, at most so many.
#[inline(always)]
#[tactic(auto, unfolding(crate::specs::NumberReads::digits_read))]
fn read_size<'a>(
    reader: &mut Reader<'a>,
    text: &'a [u8],
    field: NumberField,
    most: usize,
    negative: bool,
) -> Result<(), Stop>
    requires { most ≤ 9 }
    ensures read { IfOk result (λ u. digits_read field most negative text.now reader.old.parsed ≡ Ok reader.new) }
    ensures stop { IfErr result (λ e. digits_read field most negative text.now reader.old.parsed ≡ Err e) }
{
    let count = digits_in(most, text);
    match read_digits(&text[..count], most) {
        None => Err(stopped(fault_without(1, text), text)),
        Some(size) => put_number_behind(reader, field, with_sign(negative, size), count, text),
    }
}

// Puts the parts that a number of so many digits gives, and goes behind it.
#[inline(always)]
fn put_number_behind<'a>(
    reader: &mut Reader<'a>,
    field: NumberField,
    value: i32,
    count: usize,
    text: &'a [u8],
) -> Result<(), Stop>
    requires { count ≤ length text.now }
    ensures read { IfOk result (λ u. progress (number_put field value reader.old.parsed) (drop count text.now) text.now ≡ Ok reader.new) }
    ensures stop { IfErr result (λ e. progress (number_put field value reader.old.parsed) (drop count text.now) text.now ≡ Err e) }
{
    match put_number(&mut reader.parsed, field, value) {
        Ok(()) => {
            reader.rest = &text[count..];
            Ok(())
        }
        Err(cause) => Err(stopped(cause, text)),
    }
}

// How many digits a text begins with, at most so many.
#[inline(always)]
fn digits_in(most: usize, text: &[u8]) -> usize
    ensures value { result ≡ digits_in most text.now }
    ensures within { result ≤ length text.now }
    ensures few { result ≤ most }
{
    class_len(Class::Digit, text).min(most)
}

// Puts the parts that a number gives.
#[inline(always)]
#[tactic(auto, unfolding(crate::specs::NumberReads::number_put))]
fn put_number(parsed: &mut Parsed, field: NumberField, value: i32) -> Result<(), ReadFault>
    ensures put { IfOk result (λ u. number_put field value parsed.old ≡ Ok parsed.new) }
    ensures refused { IfErr result (λ cause. number_put field value parsed.old ≡ Err cause) }
{
    put_half(parsed, field, value)?;
    let (part, value) = number_part(field, value);
    parsed.put(part, value)
}

// Puts the half of the day that an hour from 0 to 23 gives.
#[inline(always)]
fn put_half(parsed: &mut Parsed, field: NumberField, value: i32) -> Result<(), ReadFault>
    ensures put { IfOk result (λ u. half_put field value parsed.old ≡ Ok parsed.new) }
    ensures refused { IfErr result (λ cause. half_put field value parsed.old ≡ Err cause) }
{
    match field {
        NumberField::Hour | NumberField::SpacedHour => {
            parsed.put(Part::HourDiv12, value.div_euclid(12))
        }
        _ => Ok(()),
    }
}

// The part that a number gives, and its value.
#[inline(always)]
pub(crate) fn number_part(field: NumberField, value: i32) -> (Part, i32)
    ensures { result ≡ number_part field value }
{
    match field {
        NumberField::Year => (Part::FullYear, value),
        NumberField::Century => (Part::YearDiv100, value),
        NumberField::YearOfCentury => (Part::YearMod100, value),
        NumberField::Quarter => (Part::QuarterOfYear, value),
        NumberField::Month => (Part::MonthOfYear, value),
        NumberField::Day | NumberField::SpacedDay => (Part::DayOfMonth, value),
        NumberField::DayOfYear => (Part::OrdinalDay, value),
        NumberField::FromMonday => (Part::DayOfWeek, value),
        NumberField::FromSunday => (Part::DayOfWeek, weekday_of_sunday(value)),
        NumberField::IsoYear => (Part::FullIsoYear, value),
        NumberField::IsoYearOfCentury => (Part::IsoYearMod100, value),
        NumberField::IsoWeek => (Part::WeekOfIsoYear, value),
        NumberField::WeekFromSunday => (Part::WeekFromSun, value),
        NumberField::WeekFromMonday => (Part::WeekFromMon, value),
        NumberField::Hour | NumberField::SpacedHour => (Part::HourMod12, value.rem_euclid(12)),
        NumberField::HalfHour | NumberField::SpacedHalfHour => {
            (Part::HourMod12, hour_of_clock(value))
        }
        NumberField::Minute => (Part::MinuteOfHour, value),
        NumberField::Second => (Part::SecondOfMinute, value),
        NumberField::Nanosecond => (Part::NanosecondOfSecond, value),
    }
}

// The weekday from 1 for Monday of a number from Sunday, which is 0. No number from Sunday is 7.
#[inline(always)]
fn weekday_of_sunday(value: i32) -> i32
    ensures { result ≡ weekday_of_sunday value }
{
    if value == 0 {
        7
    } else if value == 7 {
        8
    } else {
        value
    }
}

// The hour of the half day of what a clock of twelve hours shows.
#[inline(always)]
fn hour_of_clock(value: i32) -> i32
    ensures { result ≡ hour_of_clock value }
{
    if value == 0 {
        12
    } else if value == 12 {
        0
    } else {
        value
    }
}

// The number of a sign and a size.
#[inline(always)]
fn with_sign(negative: bool, size: u32) -> i32
    requires { size < 10 ^ 9 }
    ensures { result ≡ signed negative size }
{
    let size = size as i32;
    if negative { -size } else { size }
}

// Whether a number may have a sign.
#[inline(always)]
pub(crate) fn has_sign(field: NumberField) -> bool
    ensures { result ≡ has_sign field }
{
    matches!(field, NumberField::Year | NumberField::IsoYear)
}

// The most digits of a number without a sign.
#[inline(always)]
pub(crate) fn most_digits(field: NumberField) -> usize
    ensures value { result ≡ most_digits field }
    ensures few { result ≤ 9 }
{
    match field {
        NumberField::Year | NumberField::IsoYear => 4,
        NumberField::DayOfYear => 3,
        NumberField::Quarter | NumberField::FromMonday | NumberField::FromSunday => 1,
        NumberField::Nanosecond => 9,
        _ => 2,
    }
}

//! Reads an offset from UTC, the name of a zone and a number of seconds from 1970.
ghost use Rattle.std.specs.Prelude.{◌≡◌, ◌≤◌, ◌<◌, ◌^◌, ◌*◌, ◌+◌, Ok, Err, IfErr, IfOk, IfSome, length};
ghost use Rattle.chrono_text.specs.Numbers.{digits_of, signed};
ghost use Rattle.chrono_pattern.specs.OffsetReads.{behind_colons, has_seconds, may_miss_minutes, minutes_taken, name_read, offset_read, seconds_taken, signed_offset_read, signed_stamp, size_put, size_taken, stamp_digits, stamp_fault, stamp_read, two_taken, utc_len, utc_or_offset};

use crate::class::{Class, class_len, skip_blanks};
use crate::error::ReadFault;
use crate::item::OffsetForm;
use crate::parsed::Part;
use crate::reader::{Reader, put_behind};
use crate::stop::{Stop, fault_without, stopped};
use chrono_text::read_digits;

// The most digits that are read at once.
const HALF_DIGITS: usize = 9;

// Reads an offset behind blanks or none.
#[tactic(auto, unfolding(crate::specs::OffsetReads::offset_read))]
pub(crate) fn read_offset(reader: &mut Reader<'_>, form: OffsetForm) -> Result<(), Stop>
    ensures read { IfOk result (λ u. offset_read form reader.old ≡ Ok reader.new) }
    ensures stop { IfErr result (λ e. offset_read form reader.old ≡ Err e) }
{
    let text = skip_blanks(reader.rest);
    match form {
        OffsetForm::Loose => read_utc_or_offset(reader, text, false, OffsetForm::Loose),
        _ => read_signed(reader, text, form),
    }
}

// Reads UTC by its name, or an offset.
#[tactic(auto, unfolding(crate::specs::OffsetReads::utc_or_offset))]
pub(crate) fn read_utc_or_offset<'a>(
    reader: &mut Reader<'a>,
    text: &'a [u8],
    named: bool,
    form: OffsetForm,
) -> Result<(), Stop>
    ensures read { IfOk result (λ u. utc_or_offset named form text.now reader.old.parsed ≡ Ok reader.new) }
    ensures stop { IfErr result (λ e. utc_or_offset named form text.now reader.old.parsed ≡ Err e) }
{
    let len = utc_len(named, text);
    if len > 0 {
        put_behind(reader, Part::OffsetFromUtc, 0, len, text)
    } else {
        read_signed(reader, text, form)
    }
}

// How many bytes of a text name UTC.
fn utc_len(named: bool, text: &[u8]) -> usize
    ensures value { result ≡ utc_len named text.now }
    ensures within { result ≤ length text.now }
{
    match text.split_first() {
        None => 0,
        Some((first, _)) => {
            if *first == b'Z' || *first == b'z' {
                1
            } else if named && text[..text.len().min(3)].eq_ignore_ascii_case(b"utc") {
                3
            } else {
                0
            }
        }
    }
}

// Reads a sign and the size of an offset.
#[tactic(auto, unfolding(crate::specs::OffsetReads::signed_offset_read))]
fn read_signed<'a>(reader: &mut Reader<'a>, text: &'a [u8], form: OffsetForm) -> Result<(), Stop>
    ensures read { IfOk result (λ u. signed_offset_read form text.now reader.old.parsed ≡ Ok reader.new) }
    ensures stop { IfErr result (λ e. signed_offset_read form text.now reader.old.parsed ≡ Err e) }
{
    match text.split_first() {
        None => Err(stopped(ReadFault::TooShort, text)),
        Some((first, digits)) => {
            reader.rest = digits;
            if *first == b'-' {
                read_size(reader, form, true, text)
            } else if *first == b'+' {
                read_size(reader, form, false, text)
            } else {
                Err(stopped(ReadFault::Invalid, text))
            }
        }
    }
}

// Reads the size of an offset of this sign. The text begins with the sign.
fn read_size(
    reader: &mut Reader<'_>,
    form: OffsetForm,
    negative: bool,
    text: &[u8],
) -> Result<(), Stop>
    ensures read { IfOk result (λ u. size_put (size_taken form reader.old) negative text.now ≡ Ok reader.new) }
    ensures stop { IfErr result (λ e. size_put (size_taken form reader.old) negative text.now ≡ Err e) }
{
    let size = take_size(reader, form)?;
    match reader
        .parsed
        .put(Part::OffsetFromUtc, with_sign(negative, size))
    {
        Ok(()) => Ok(()),
        Err(cause) => Err(stopped(cause, text)),
    }
}

// Takes the hours, the minutes and the seconds of an offset, in seconds.
#[tactic(auto, unfolding(crate::specs::OffsetReads::size_taken))]
fn take_size(reader: &mut Reader<'_>, form: OffsetForm) -> Result<u32, Stop>
    ensures read { IfOk result (λ n. size_taken form reader.old ≡ Ok (n, reader.new)) }
    ensures small { IfOk result (λ n. n < 1_000_000) }
    ensures stop { IfErr result (λ e. size_taken form reader.old ≡ Err e) }
{
    let hours = take_two(reader, 99)?;
    let minutes = take_minutes(reader, may_miss_minutes(form))?;
    let seconds = take_seconds(reader, has_seconds(form))?;
    Ok((hours * 60 + minutes) * 60 + seconds)
}

// Whether the minutes of an offset may be missing.
fn may_miss_minutes(form: OffsetForm) -> bool
    ensures { result ≡ may_miss_minutes form }
{
    matches!(form, OffsetForm::Hours | OffsetForm::Loose)
}

// Whether an offset may have seconds.
fn has_seconds(form: OffsetForm) -> bool
    ensures { result ≡ has_seconds form }
{
    matches!(form, OffsetForm::Seconds)
}

// Takes two digits, which write at most so much.
#[tactic(auto, unfolding(crate::specs::OffsetReads::two_taken))]
fn take_two(reader: &mut Reader<'_>, most: u32) -> Result<u32, Stop>
    ensures read { IfOk result (λ n. two_taken most reader.old ≡ Ok (n, reader.new)) }
    ensures small { IfOk result (λ n. n < 100) }
    ensures stop { IfErr result (λ e. two_taken most reader.old ≡ Err e) }
{
    let text = reader.rest;
    if text.len() < 2 {
        return Err(stopped(ReadFault::TooShort, text));
    }
    match read_digits(&text[..2], 2) {
        None => Err(stopped(ReadFault::Invalid, text)),
        Some(value) => {
            if value > most {
                return Err(stopped(ReadFault::OutOfRange, text));
            }
            reader.rest = &text[2..];
            Ok(value)
        }
    }
}

// Takes the minutes of an offset, behind colons, blanks or nothing. They may be missing.
#[tactic(auto, unfolding(crate::specs::OffsetReads::minutes_taken))]
fn take_minutes(reader: &mut Reader<'_>, missing: bool) -> Result<u32, Stop>
    ensures read { IfOk result (λ n. minutes_taken missing reader.old ≡ Ok (n, reader.new)) }
    ensures small { IfOk result (λ n. n < 100) }
    ensures stop { IfErr result (λ e. minutes_taken missing reader.old ≡ Err e) }
{
    let text = skip_gap(reader.rest);
    if missing && class_len(Class::Digit, text) == 0 {
        return Ok(0);
    }
    reader.rest = text;
    take_two(reader, 59)
}

// The text behind the colons and blanks in front.
fn skip_gap(text: &[u8]) -> &[u8]
    ensures { result.now ≡ behind_colons text.now }
{
    &text[class_len(Class::Gap, text)..]
}

// Takes the seconds of an offset behind a colon, if they may stand there and a colon is there.
fn take_seconds(reader: &mut Reader<'_>, asked: bool) -> Result<u32, Stop>
    ensures read { IfOk result (λ n. seconds_taken asked reader.old ≡ Ok (n, reader.new)) }
    ensures small { IfOk result (λ n. n < 100) }
    ensures stop { IfErr result (λ e. seconds_taken asked reader.old ≡ Err e) }
{
    match reader.rest.split_first() {
        None => Ok(0),
        Some((first, rest)) => {
            if asked && *first == b':' {
                reader.rest = rest;
                take_two(reader, 59)
            } else {
                Ok(0)
            }
        }
    }
}

// The number of a sign and a size.
fn with_sign(negative: bool, size: u32) -> i32
    requires { size < 1_000_000 }
    ensures { result ≡ signed negative size }
{
    let size = size as i32;
    if negative { -size } else { size }
}

// Reads the name of a zone, which gives nothing: all bytes up to a blank.
pub(crate) fn read_name(reader: &mut Reader<'_>) -> Result<(), Stop>
    ensures read { IfOk result (λ u. name_read reader.old ≡ Ok reader.new) }
    ensures stop { IfErr result (λ e. name_read reader.old ≡ Err e) }
{
    let text = reader.rest;
    reader.rest = &text[class_len(Class::Shown, text)..];
    Ok(())
}

// Reads a number of seconds, behind blanks or none. It may have a sign.
#[tactic(auto, unfolding(crate::specs::OffsetReads::signed_stamp))]
pub(crate) fn read_stamp(reader: &mut Reader<'_>) -> Result<(), Stop>
    ensures read { IfOk result (λ u. stamp_read reader.old ≡ Ok reader.new) }
    ensures stop { IfErr result (λ e. stamp_read reader.old ≡ Err e) }
{
    let text = skip_blanks(reader.rest);
    match text.split_first() {
        None => Err(stopped(ReadFault::TooShort, text)),
        Some((first, digits)) => {
            if *first == b'-' {
                read_stamp_digits(reader, digits, true)
            } else if *first == b'+' {
                read_stamp_digits(reader, digits, false)
            } else {
                read_stamp_digits(reader, text, false)
            }
        }
    }
}

// Reads the digits of a number of seconds of this sign.
#[tactic(auto, unfolding(crate::specs::OffsetReads::stamp_digits))]
fn read_stamp_digits<'a>(
    reader: &mut Reader<'a>,
    text: &'a [u8],
    negative: bool,
) -> Result<(), Stop>
    ensures read { IfOk result (λ u. stamp_digits negative text.now reader.old.parsed ≡ Ok reader.new) }
    ensures stop { IfErr result (λ e. stamp_digits negative text.now reader.old.parsed ≡ Err e) }
{
    let count = class_len(Class::Digit, text);
    let Some(size) = read_many_digits(&text[..count]) else {
        return Err(stopped(stamp_fault(text), text));
    };
    match reader.parsed.put_stamp(with_wide_sign(negative, size)) {
        Ok(()) => {
            reader.rest = &text[count..];
            Ok(())
        }
        Err(cause) => Err(stopped(cause, text)),
    }
}

// What is wrong with a text that begins with no digits, or with too many.
fn stamp_fault(text: &[u8]) -> ReadFault
    ensures { result ≡ stamp_fault text.now }
{
    if class_len(Class::Digit, text) == 0 {
        fault_without(1, text)
    } else {
        ReadFault::OutOfRange
    }
}

// The number of a sign and a size.
fn with_wide_sign(negative: bool, size: u64) -> i64
    requires { size < 10 ^ 18 }
    ensures { result ≡ signed negative size }
{
    let size = size as i64;
    if negative { -size } else { size }
}

// The number that all of a text writes, in at most 18 digits.
fn read_many_digits(text: &[u8]) -> Option<u64>
    ensures value { result ≡ digits_of 18 text.now }
    ensures small { IfSome result (λ n. n < 10 ^ 18) }
{
    if text.len() <= HALF_DIGITS {
        let value = read_digits(text, HALF_DIGITS)?;
        return Some(u64::from(value));
    }
    if text.len() > 2 * HALF_DIGITS {
        return None;
    }
    let (front, back) = text.split_at(text.len() - HALF_DIGITS);
    let high = read_digits(front, HALF_DIGITS)?;
    let low = read_digits(back, HALF_DIGITS)?;
    Some(u64::from(high) * 1_000_000_000 + u64::from(low))
}

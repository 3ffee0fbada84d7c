//! Reads the items of a pattern from the front of a text.
ghost use Rattle.std.specs.Prelude.{◌≡◌, ◌≤◌, Ok, Err, IfErr, IfOk, length};
ghost use Rattle.chrono_pattern.specs.ItemReads.{behind_read, between_read, clock_year_read, day_read, group_read, half_clock_read, iso_offset_read, iso_read, item_read, short_date_read, three_read, two_read, word_behind_read, zoned_read};
ghost use Rattle.chrono_pattern.specs.Parts.{no_parts};
ghost use Rattle.chrono_pattern.specs.Progress.{Progress, byte_read, literal_read, put_behind};
ghost use Rattle.chrono_pattern.specs.Reads.{end_read, read_from};
ghost use Rattle.chrono_pattern.specs.declared.item.State.TheVariants.{Outside};

use crate::class::{Class, is_of, skip_blanks};
use crate::error::ReadFault;
use crate::front_item::front_item;
use crate::item::{GroupField, Item, NumberField, OffsetForm, WordField, ZonedField};
use crate::number_reader::read_number;
use crate::offset_reader::{read_name, read_offset, read_stamp, read_utc_or_offset};
use crate::parsed::{Parsed, Part};
use crate::stop::{Stop, stopped};
use crate::subsecond_reader::read_subsecond;
use crate::word_reader::read_word;
use std::marker::Model;

// What is left of a text, and the parts that were read.
#[derive(Drop)]
pub(crate) struct Reader<'a> {
    pub(crate) rest: &'a [u8],
    pub(crate) parsed: Parsed,
}

impl<'a> Model for Reader<'a> {
    ghost Value = { Progress };

    ghost view = { λ r. record { rest = r.rest.now; parsed = r.parsed } };
}

// Puts a part that so many bytes of a text give, and goes behind them.
pub(crate) fn put_behind<'a>(
    reader: &mut Reader<'a>,
    part: Part,
    value: i32,
    count: usize,
    text: &'a [u8],
) -> Result<(), Stop>
    requires { count ≤ length text.now }
    ensures read { IfOk result (λ u. put_behind count text.now part value reader.old.parsed ≡ Ok reader.new) }
    ensures stop { IfErr result (λ e. put_behind count text.now part value reader.old.parsed ≡ Err e) }
{
    match reader.parsed.put(part, value) {
        Ok(()) => {
            reader.rest = &text[count..];
            Ok(())
        }
        Err(cause) => Err(stopped(cause, text)),
    }
}

// Reads a byte.
#[inline(always)]
fn read_byte(reader: &mut Reader<'_>, byte: u8) -> Result<(), Stop>
    ensures read { IfOk result (λ u. byte_read byte reader.old ≡ Ok reader.new) }
    ensures stop { IfErr result (λ e. byte_read byte reader.old ≡ Err e) }
{
    let text = reader.rest;
    match text.split_first() {
        None => Err(stopped(ReadFault::TooShort, text)),
        Some((first, rest)) => {
            if *first == byte {
                reader.rest = rest;
                Ok(())
            } else {
                Err(stopped(ReadFault::Invalid, text))
            }
        }
    }
}

// Reads a byte that stands for itself. A blank stands for any blanks and for none.
#[inline(always)]
#[tactic(auto, unfolding(crate::specs::Progress::literal_read))]
fn read_literal(reader: &mut Reader<'_>, byte: u8) -> Result<(), Stop>
    ensures read { IfOk result (λ u. literal_read byte reader.old ≡ Ok reader.new) }
    ensures stop { IfErr result (λ e. literal_read byte reader.old ≡ Err e) }
{
    if is_of(Class::Blank, byte) {
        reader.rest = skip_blanks(reader.rest);
        Ok(())
    } else {
        read_byte(reader, byte)
    }
}

// Reads a byte or blanks, and a number behind them.
#[inline(always)]
fn read_behind(reader: &mut Reader<'_>, byte: u8, field: NumberField) -> Result<(), Stop>
    ensures read { IfOk result (λ u. behind_read byte field reader.old ≡ Ok reader.new) }
    ensures stop { IfErr result (λ e. behind_read byte field reader.old ≡ Err e) }
{
    read_literal(reader, byte)?;
    read_number(reader, field)
}

// Reads a byte or blanks, and a word behind them.
fn read_word_behind(reader: &mut Reader<'_>, byte: u8, word: WordField) -> Result<(), Stop>
    ensures read { IfOk result (λ u. word_behind_read byte word reader.old ≡ Ok reader.new) }
    ensures stop { IfErr result (λ e. word_behind_read byte word reader.old ≡ Err e) }
{
    read_literal(reader, byte)?;
    read_word(reader, word)
}

// Reads a number, a byte, and another number.
#[inline(always)]
fn read_two(
    reader: &mut Reader<'_>,
    first: NumberField,
    byte: u8,
    second: NumberField,
) -> Result<(), Stop>
    ensures read { IfOk result (λ u. two_read first byte second reader.old ≡ Ok reader.new) }
    ensures stop { IfErr result (λ e. two_read first byte second reader.old ≡ Err e) }
{
    read_number(reader, first)?;
    read_behind(reader, byte, second)
}

// Reads three numbers, with a byte between each two.
#[inline(always)]
fn read_three(
    reader: &mut Reader<'_>,
    first: NumberField,
    byte: u8,
    second: NumberField,
    third: NumberField,
) -> Result<(), Stop>
    ensures read { IfOk result (λ u. three_read first byte second third reader.old ≡ Ok reader.new) }
    ensures stop { IfErr result (λ e. three_read first byte second third reader.old ≡ Err e) }
{
    read_two(reader, first, byte, second)?;
    read_behind(reader, byte, third)
}

// Reads a time of day on the clock of twelve hours.
fn read_half_clock(reader: &mut Reader<'_>) -> Result<(), Stop>
    ensures read { IfOk result (λ u. half_clock_read reader.old ≡ Ok reader.new) }
    ensures stop { IfErr result (λ e. half_clock_read reader.old ≡ Err e) }
{
    read_three(
        reader,
        NumberField::HalfHour,
        b':',
        NumberField::Minute,
        NumberField::Second,
    )?;
    read_word_behind(reader, b' ', WordField::Half)
}

// Reads a day, the letters of a month and a year.
fn read_short_date(reader: &mut Reader<'_>) -> Result<(), Stop>
    ensures read { IfOk result (λ u. short_date_read reader.old ≡ Ok reader.new) }
    ensures stop { IfErr result (λ e. short_date_read reader.old ≡ Err e) }
{
    read_number(reader, NumberField::SpacedDay)?;
    read_word_behind(reader, b'-', WordField::MonthLetters)?;
    read_behind(reader, b'-', NumberField::Year)
}

// Reads the letters of a weekday and of a month, and a day.
fn read_day(reader: &mut Reader<'_>) -> Result<(), Stop>
    ensures read { IfOk result (λ u. day_read reader.old ≡ Ok reader.new) }
    ensures stop { IfErr result (λ e. day_read reader.old ≡ Err e) }
{
    read_word(reader, WordField::WeekdayLetters)?;
    read_word_behind(reader, b' ', WordField::MonthLetters)?;
    read_behind(reader, b' ', NumberField::SpacedDay)
}

// Reads an hour, a minute, a second and a year, each behind a byte or blanks.
fn read_clock_year(reader: &mut Reader<'_>) -> Result<(), Stop>
    ensures read { IfOk result (λ u. clock_year_read reader.old ≡ Ok reader.new) }
    ensures stop { IfErr result (λ e. clock_year_read reader.old ≡ Err e) }
{
    read_behind(reader, b' ', NumberField::Hour)?;
    read_behind(reader, b':', NumberField::Minute)?;
    read_behind(reader, b':', NumberField::Second)?;
    read_behind(reader, b' ', NumberField::Year)
}

// Reads the numbers and the words of a group.
#[inline(never)]
#[tactic(auto, unfolding(crate::specs::ItemReads::group_read))]
fn read_group(reader: &mut Reader<'_>, group: GroupField) -> Result<(), Stop>
    ensures read { IfOk result (λ u. group_read group reader.old ≡ Ok reader.new) }
    ensures stop { IfErr result (λ e. group_read group reader.old ≡ Err e) }
{
    match group {
        GroupField::YearMonthDay => read_three(
            reader,
            NumberField::Year,
            b'-',
            NumberField::Month,
            NumberField::Day,
        ),
        GroupField::MonthDayYear => read_three(
            reader,
            NumberField::Month,
            b'/',
            NumberField::Day,
            NumberField::YearOfCentury,
        ),
        GroupField::HourMinute => { read_two(reader, NumberField::Hour, b':', NumberField::Minute) }
        GroupField::HourMinuteSecond => read_three(
            reader,
            NumberField::Hour,
            b':',
            NumberField::Minute,
            NumberField::Second,
        ),
        GroupField::HalfClock => read_half_clock(reader),
        GroupField::DayMonthYear => read_short_date(reader),
        GroupField::DateAndTime => {
            read_day(reader)?;
            read_clock_year(reader)
        }
    }
}

// Reads an item.
#[inline(always)]
fn read_item(reader: &mut Reader<'_>, item: Item) -> Result<(), Stop>
    ensures read { IfOk result (λ u. item_read item reader.old ≡ Ok reader.new) }
    ensures stop { IfErr result (λ e. item_read item reader.old ≡ Err e) }
{
    match item {
        Item::Empty => Ok(()),
        Item::Byte(byte) => read_literal(reader, byte),
        Item::Number(field, _) => read_number(reader, field),
        Item::Word(word) => read_word(reader, word),
        Item::Group(group) => read_group(reader, group),
        Item::Subsecond(point, count) => read_subsecond(reader, point, count),
        Item::Zoned(field) => read_zoned(reader, field),
    }
}

// Reads an offset, a name of a zone, the seconds from 1970, or a date and a time of day with an offset.
fn read_zoned(reader: &mut Reader<'_>, field: ZonedField) -> Result<(), Stop>
    ensures read { IfOk result (λ u. zoned_read field reader.old ≡ Ok reader.new) }
    ensures stop { IfErr result (λ e. zoned_read field reader.old ≡ Err e) }
{
    match field {
        ZonedField::Offset(form) => read_offset(reader, form),
        ZonedField::ZoneName => read_name(reader),
        ZonedField::Stamp => read_stamp(reader),
        ZonedField::Iso8601 => read_iso(reader),
    }
}

// Reads a date, a time of day, a fraction or none, and an offset.
#[tactic(auto, unfolding(crate::specs::ItemReads::iso_read))]
fn read_iso(reader: &mut Reader<'_>) -> Result<(), Stop>
    ensures read { IfOk result (λ u. iso_read reader.old ≡ Ok reader.new) }
    ensures stop { IfErr result (λ e. iso_read reader.old ≡ Err e) }
{
    read_group(reader, GroupField::YearMonthDay)?;
    read_between(reader)?;
    read_group(reader, GroupField::HourMinuteSecond)?;
    read_subsecond(reader, true, 0)?;
    read_iso_offset(reader)
}

// Reads the byte between a date and a time of day.
fn read_between(reader: &mut Reader<'_>) -> Result<(), Stop>
    ensures read { IfOk result (λ u. between_read reader.old ≡ Ok reader.new) }
    ensures stop { IfErr result (λ e. between_read reader.old ≡ Err e) }
{
    let text = reader.rest;
    match text.split_first() {
        None => Err(stopped(ReadFault::TooShort, text)),
        Some((first, rest)) => {
            if *first == b'T' || *first == b't' || *first == b' ' {
                reader.rest = rest;
                Ok(())
            } else {
                Err(stopped(ReadFault::Invalid, text))
            }
        }
    }
}

// Reads an offset or a name of UTC, behind blanks or none.
fn read_iso_offset(reader: &mut Reader<'_>) -> Result<(), Stop>
    ensures read { IfOk result (λ u. iso_offset_read reader.old ≡ Ok reader.new) }
    ensures stop { IfErr result (λ e. iso_offset_read reader.old ≡ Err e) }
{
    let text = skip_blanks(reader.rest);
    read_utc_or_offset(reader, text, true, OffsetForm::Colon)
}

// A reader in front of a text.
#[inline(always)]
pub(crate) fn reader_of(text: &[u8]) -> Reader<'_>
    ensures { result ≡ record { rest = text.now; parsed = no_parts } }
{
    Reader {
        rest: text,
        parsed: Parsed::new(),
    }
}

// Reads a whole text by the bytes of a pattern.
#[inline(always)]
pub(crate) fn read_text(bytes: &[u8], reader: &mut Reader<'_>) -> Result<(), Stop>
    ensures read { IfOk result (λ u. end_read (read_from Outside bytes.now reader.old) ≡ Ok reader.new.parsed) }
    ensures stop { IfErr result (λ e. end_read (read_from Outside bytes.now reader.old) ≡ Err e) }
{
    read_front(bytes, reader)?;
    if reader.rest.is_empty() {
        Ok(())
    } else {
        Err(stopped(ReadFault::TooLong, reader.rest))
    }
}

// Reads the front of a text by the bytes of a pattern.
pub(crate) fn read_front(bytes: &[u8], reader: &mut Reader<'_>) -> Result<(), Stop>
    ensures read { IfOk result (λ u. read_from Outside bytes.now reader.old ≡ Ok reader.new) }
    ensures stop { IfErr result (λ e. read_from Outside bytes.now reader.old ≡ Err e) }
{
    let mut rest = bytes;
    while let Some((item, behind)) = front_item(rest) {
        match read_item(reader, item) {
            Ok(()) => {}
            Err(stop) => return Err(stop),
        }
        rest = behind;
    }
    Ok(())
}

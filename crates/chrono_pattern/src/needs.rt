//! Which patterns write a part of a date, of the time of day or of the offset from UTC, and which give a fraction in each text.
ghost use Rattle.std.specs.Prelude.{◌≡◌};
ghost use Rattle.chrono_pattern.specs.Needs.{gives_fraction, has_item_of, is_item_of, item_needs_date, item_needs_offset, item_needs_time, number_needs_time, word_needs_time, writes_point, zoned_needs_offset, zoned_needs_time};
ghost use Rattle.chrono_pattern.specs.declared.item.State.TheVariants.{Outside};

use crate::item::{GroupField, Item, NumberField, State, WordField, ZonedField};
use crate::step::pattern_step;

// A sort of items.
#[derive(Clone, Copy)]
pub(crate) enum Sort {
    // The item writes a part of a date.
    OfDate,
    // The item writes a part of the time of day.
    OfTime,
    // The item writes an offset from UTC.
    OfOffset,
    // Each text of the item gives a fraction of a second.
    OfFraction,
    // Each text that the item writes has a fraction behind a point.
    OfPoint,
}

// Whether bytes have an item of a sort.
pub(crate) fn has_item_of(sort: Sort, bytes: &[u8]) -> bool
    ensures { result ≡ has_item_of sort Outside bytes.now }
{
    let mut state = State::Outside;
    let mut rest = bytes;
    while let Some((byte, behind)) = rest.split_first() {
        let Some(next) = pattern_step(state, *byte) else {
            return false;
        };
        if is_item_of(sort, next.1) {
            return true;
        }
        state = next.0;
        rest = behind;
    }
    false
}

// Whether an item is of a sort.
fn is_item_of(sort: Sort, item: Item) -> bool
    ensures { result ≡ is_item_of sort item }
{
    match sort {
        Sort::OfDate => item_needs_date(item),
        Sort::OfTime => item_needs_time(item),
        Sort::OfOffset => item_needs_offset(item),
        Sort::OfFraction => gives_fraction(item),
        Sort::OfPoint => writes_point(item),
    }
}

// Whether an item writes a part of a date.
fn item_needs_date(item: Item) -> bool
    ensures { result ≡ item_needs_date item }
{
    match item {
        Item::Empty | Item::Byte(_) | Item::Subsecond(_, _) => false,
        Item::Number(field, _) => !number_needs_time(field),
        Item::Word(word) => !word_needs_time(word),
        Item::Group(group) => {
            !matches!(
                group,
                GroupField::HourMinute | GroupField::HourMinuteSecond | GroupField::HalfClock
            )
        }
        Item::Zoned(field) => zoned_needs_time(field),
    }
}

// Whether an item writes a part of the time of day.
fn item_needs_time(item: Item) -> bool
    ensures { result ≡ item_needs_time item }
{
    match item {
        Item::Empty | Item::Byte(_) => false,
        Item::Number(field, _) => number_needs_time(field),
        Item::Word(word) => word_needs_time(word),
        Item::Group(group) => {
            !matches!(
                group,
                GroupField::YearMonthDay | GroupField::MonthDayYear | GroupField::DayMonthYear
            )
        }
        Item::Subsecond(_, _) => true,
        Item::Zoned(field) => zoned_needs_time(field),
    }
}

// Whether a piece has a part of the time of day, and then of the date too. The seconds from 1970 count those of the day.
fn zoned_needs_time(field: ZonedField) -> bool
    ensures { result ≡ zoned_needs_time field }
{
    matches!(field, ZonedField::Stamp | ZonedField::Iso8601)
}

// Whether a word is of the time of day.
fn word_needs_time(word: WordField) -> bool
    ensures { result ≡ word_needs_time word }
{
    matches!(word, WordField::Half | WordField::SmallHalf)
}

// Whether a number is of the time of day.
fn number_needs_time(field: NumberField) -> bool
    ensures { result ≡ number_needs_time field }
{
    match field {
        NumberField::Hour
        | NumberField::SpacedHour
        | NumberField::HalfHour
        | NumberField::SpacedHalfHour
        | NumberField::Minute
        | NumberField::Second
        | NumberField::Nanosecond => true,
        _ => false,
    }
}

// Whether an item writes an offset.
fn item_needs_offset(item: Item) -> bool
    ensures { result ≡ item_needs_offset item }
{
    match item {
        Item::Zoned(field) => zoned_needs_offset(field),
        _ => false,
    }
}

// Whether a piece is of an offset. The seconds from 1970 are those of UTC where there is none.
fn zoned_needs_offset(field: ZonedField) -> bool
    ensures { result ≡ zoned_needs_offset field }
{
    !matches!(field, ZonedField::Stamp)
}

// Whether each text of an item gives a fraction of a second. One behind a point may be left out.
fn gives_fraction(item: Item) -> bool
    ensures { result ≡ gives_fraction item }
{
    match item {
        Item::Number(field, _) => matches!(field, NumberField::Nanosecond),
        Item::Subsecond(point, _) => !point,
        _ => false,
    }
}

// Whether each text that an item writes has a fraction behind a point.
fn writes_point(item: Item) -> bool
    ensures { result ≡ writes_point item }
{
    match item {
        Item::Subsecond(point, count) => point && count != 0,
        _ => false,
    }
}

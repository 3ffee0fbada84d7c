//! Which patterns are separable: each text of them shows where every item ends.
ghost use Rattle.std.specs.Prelude.{◌≡◌};
ghost use Rattle.chrono_pattern.specs.Separable.{bar_behind, bar_of_byte, bar_of_group, bar_of_number, bar_of_subsecond, bar_of_zoned, bars_digit, bars_point, fractions_have_seconds, is_filled, is_separable, shows_ends, takes_byte, takes_few, takes_group, takes_item, takes_number, takes_subsecond, takes_zoned};

use crate::class::{Class, is_of};
use crate::item::{Bar, GroupField, Item, NumberField, OffsetForm, Padding, State, ZonedField};
use crate::named_parts::named_parts;
use crate::needs::{Sort, has_item_of};
use crate::number::padding_of;
use crate::number_reader::{has_sign, most_digits};
use crate::step::pattern_step;

// Whether each text of a pattern shows where every item ends, for years from 0 to 9999 or for all years, and its fractions have their second.
pub(crate) fn is_separable(bytes: &[u8], wide: bool) -> bool
    ensures { result ≡ is_separable wide bytes.now }
{
    shows_ends(bytes, wide) && fractions_have_seconds(bytes)
}

// Whether a fraction that stands behind a point in each text has its second.
fn fractions_have_seconds(bytes: &[u8]) -> bool
    ensures { result ≡ fractions_have_seconds bytes.now }
{
    if !has_item_of(Sort::OfPoint, bytes) {
        return true;
    }
    let parts = named_parts(bytes);
    parts.second.is_some() || parts.timestamp.is_some()
}

// Whether each text of a pattern shows where every item ends.
fn shows_ends(bytes: &[u8], wide: bool) -> bool
    ensures { result ≡ shows_ends wide bytes.now }
{
    let mut state = State::Outside;
    let mut bar = Bar::Free;
    let mut rest = bytes;
    while let Some((byte, behind)) = rest.split_first() {
        let Some(next) = pattern_step(state, *byte) else {
            return false;
        };
        if !takes_item(wide, bar, next.1) {
            return false;
        }
        bar = bar_behind(wide, bar, next.1);
        state = next.0;
        rest = behind;
    }
    true
}

// What may not stand behind an item, where so much may not stand in its place.
fn bar_behind(wide: bool, bar: Bar, item: Item) -> Bar
    ensures { result ≡ bar_behind wide bar item }
{
    match item {
        Item::Empty => bar,
        Item::Byte(byte) => bar_of_byte(bar, byte),
        Item::Number(field, padding) => bar_of_number(wide, field, padding),
        Item::Word(_) => Bar::Free,
        Item::Group(group) => bar_of_group(wide, group),
        Item::Subsecond(point, count) => bar_of_subsecond(point, count),
        Item::Zoned(field) => bar_of_zoned(field),
    }
}

// The same behind a byte.
fn bar_of_byte(bar: Bar, byte: u8) -> Bar
    ensures { result ≡ bar_of_byte bar byte }
{
    match bar {
        Bar::NoFraction | Bar::NoPoint if is_of(Class::Blank, byte) => Bar::NoPoint,
        Bar::NoMinutes if is_of(Class::Gap, byte) => Bar::NoMinutes,
        _ => Bar::Free,
    }
}

// The same behind a number.
fn bar_of_number(wide: bool, field: NumberField, padding: Padding) -> Bar
    ensures { result ≡ bar_of_number wide field padding }
{
    if wide && has_sign(field) {
        return Bar::NoDigit;
    }
    if is_filled(field, padding) {
        Bar::Free
    } else {
        Bar::NoDigit
    }
}

// Whether a number always has as many digits as are read at most.
fn is_filled(field: NumberField, padding: Padding) -> bool
    ensures { result ≡ is_filled field padding }
{
    most_digits(field) == 1 || matches!(padding_of(field, padding), Padding::Zeros)
}

// The same behind a group, of which two end with a year.
fn bar_of_group(wide: bool, group: GroupField) -> Bar
    ensures { result ≡ bar_of_group wide group }
{
    match group {
        GroupField::DayMonthYear | GroupField::DateAndTime if wide => Bar::NoDigit,
        _ => Bar::Free,
    }
}

// The same behind a fraction.
fn bar_of_subsecond(point: bool, count: u8) -> Bar
    ensures { result ≡ bar_of_subsecond point count }
{
    if !point {
        Bar::Free
    } else if count == 0 {
        Bar::NoFraction
    } else {
        Bar::NoDigit
    }
}

// The same behind an offset or the seconds from 1970.
fn bar_of_zoned(field: ZonedField) -> Bar
    ensures { result ≡ bar_of_zoned field }
{
    match field {
        ZonedField::Offset(OffsetForm::Hours) => Bar::NoMinutes,
        ZonedField::Stamp => Bar::NoDigit,
        _ => Bar::Free,
    }
}

// Whether an item may stand where so much may not.
fn takes_item(wide: bool, bar: Bar, item: Item) -> bool
    ensures { result ≡ takes_item wide bar item }
{
    match item {
        Item::Empty | Item::Word(_) => true,
        Item::Byte(byte) => takes_byte(bar, byte),
        Item::Number(field, _) => takes_number(wide, bar, field),
        Item::Group(group) => takes_group(bar, group),
        Item::Subsecond(point, count) => takes_subsecond(bar, point, count),
        Item::Zoned(field) => takes_zoned(bar, field),
    }
}

// Whether a byte may.
fn takes_byte(bar: Bar, byte: u8) -> bool
    ensures { result ≡ takes_byte bar byte }
{
    !(bars_digit(bar) && byte.is_ascii_digit()) && !(bars_point(bar) && byte == b'.')
}

// Whether a number may. A century of two digits has no sign.
fn takes_number(wide: bool, bar: Bar, field: NumberField) -> bool
    ensures { result ≡ takes_number wide bar field }
{
    match field {
        NumberField::Century if wide => false,
        _ => !bars_digit(bar),
    }
}

// Whether a group may. One of them begins with a word.
fn takes_group(bar: Bar, group: GroupField) -> bool
    ensures { result ≡ takes_group bar group }
{
    match group {
        GroupField::DateAndTime => true,
        _ => !bars_digit(bar),
    }
}

// Whether a fraction may. One of as few digits as hold it may be none.
fn takes_subsecond(bar: Bar, point: bool, count: u8) -> bool
    ensures { result ≡ takes_subsecond bar point count }
{
    if count == 0 {
        return point && matches!(bar, Bar::Free | Bar::NoDigit);
    }
    if point {
        !bars_point(bar)
    } else {
        !bars_digit(bar)
    }
}

// Whether an offset or the seconds from 1970 may. The name of a zone has no end but a blank.
fn takes_zoned(bar: Bar, field: ZonedField) -> bool
    ensures { result ≡ takes_zoned bar field }
{
    match field {
        ZonedField::Offset(_) => true,
        ZonedField::ZoneName => false,
        ZonedField::Stamp | ZonedField::Iso8601 => !bars_digit(bar),
    }
}

// Whether no digit may stand where so much may not.
fn bars_digit(bar: Bar) -> bool
    ensures { result ≡ bars_digit bar }
{
    matches!(bar, Bar::NoDigit | Bar::NoFraction | Bar::NoMinutes)
}

// Whether no point may.
fn bars_point(bar: Bar) -> bool
    ensures { result ≡ bars_point bar }
{
    matches!(bar, Bar::NoFraction | Bar::NoPoint)
}

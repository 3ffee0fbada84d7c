//! Which parts the specifiers of a pattern read.
ghost use Rattle.std.specs.Prelude.{◌≡◌};
ghost use Rattle.chrono_pattern.specs.NamedParts.{named_parts, with_clock, with_group, with_half, with_item, with_named, with_number_field, with_zoned, word_part};

use crate::item::{GroupField, Item, NumberField, State, WordField, ZonedField};
use crate::number_reader::number_part;
use crate::parsed::{Parsed, Part};
use crate::step::pattern_step;

// The parts that the specifiers of a pattern read, each as 0.
pub(crate) fn named_parts(bytes: &[u8]) -> Parsed
    ensures { result ≡ named_parts bytes.now }
{
    let mut parts = Parsed::new();
    let mut state = State::Outside;
    let mut rest = bytes;
    while let Some((byte, behind)) = rest.split_first() {
        let Some(next) = pattern_step(state, *byte) else {
            return parts;
        };
        parts = with_item(parts, next.1);
        state = next.0;
        rest = behind;
    }
    parts
}

// The parts with those of an item.
fn with_item(parts: Parsed, item: Item) -> Parsed
    ensures { result ≡ with_item item parts }
{
    match item {
        Item::Empty | Item::Byte(_) => parts,
        Item::Number(field, _) => with_number_field(parts, field),
        Item::Word(word) => with_named(parts, word_part(word)),
        Item::Group(group) => with_group(parts, group),
        Item::Subsecond(_, _) => with_named(parts, Part::NanosecondOfSecond),
        Item::Zoned(field) => with_zoned(parts, field),
    }
}

// The parts with those of a piece.
fn with_zoned(parts: Parsed, field: ZonedField) -> Parsed
    ensures { result ≡ with_zoned field parts }
{
    match field {
        ZonedField::Offset(_) => with_named(parts, Part::OffsetFromUtc),
        ZonedField::ZoneName => parts,
        ZonedField::Stamp => {
            let mut named = parts;
            named.set_stamp(0);
            named
        }
        ZonedField::Iso8601 => {
            let parts = with_group(parts, GroupField::YearMonthDay);
            let parts = with_group(parts, GroupField::HourMinuteSecond);
            with_named(
                with_named(parts, Part::NanosecondOfSecond),
                Part::OffsetFromUtc,
            )
        }
    }
}

// The parts with those of a group.
#[tactic(auto, unfolding(crate::specs::NamedParts::with_group))]
fn with_group(parts: Parsed, group: GroupField) -> Parsed
    ensures { result ≡ with_group group parts }
{
    match group {
        GroupField::YearMonthDay => with_three(
            parts,
            NumberField::Year,
            NumberField::Month,
            NumberField::Day,
        ),
        GroupField::MonthDayYear => with_three(
            parts,
            NumberField::Month,
            NumberField::Day,
            NumberField::YearOfCentury,
        ),
        GroupField::HourMinute => {
            let parts = with_number_field(parts, NumberField::Hour);
            with_number_field(parts, NumberField::Minute)
        }
        GroupField::HourMinuteSecond => with_clock(parts, NumberField::Hour),
        GroupField::HalfClock => with_named(
            with_clock(parts, NumberField::HalfHour),
            Part::HourDiv12,
        ),
        GroupField::DayMonthYear => {
            let parts = with_number_field(parts, NumberField::SpacedDay);
            with_number_field(with_named(parts, Part::MonthOfYear), NumberField::Year)
        }
        GroupField::DateAndTime => {
            let parts = with_named(with_named(parts, Part::DayOfWeek), Part::MonthOfYear);
            let parts = with_number_field(parts, NumberField::SpacedDay);
            with_number_field(with_clock(parts, NumberField::Hour), NumberField::Year)
        }
    }
}

// The parts with those of an hour, a minute and a second.
fn with_clock(parts: Parsed, hour: NumberField) -> Parsed
    ensures { result ≡ with_clock hour parts }
{
    with_three(parts, hour, NumberField::Minute, NumberField::Second)
}

// The parts with those of three numbers.
fn with_three(parts: Parsed, first: NumberField, second: NumberField, third: NumberField) -> Parsed
    ensures { result ≡ with_number_field third (with_number_field second (with_number_field first parts)) }
{
    let parts = with_number_field(with_number_field(parts, first), second);
    with_number_field(parts, third)
}

// The part of a word.
fn word_part(word: WordField) -> Part
    ensures { result ≡ word_part word }
{
    match word {
        WordField::MonthName | WordField::MonthLetters => Part::MonthOfYear,
        WordField::WeekdayName | WordField::WeekdayLetters => Part::DayOfWeek,
        WordField::Half | WordField::SmallHalf => Part::HourDiv12,
    }
}

// The parts with those of a number.
fn with_number_field(parts: Parsed, field: NumberField) -> Parsed
    ensures { result ≡ with_number_field field parts }
{
    with_named(with_half(parts, field), number_part(field, 0).0)
}

// The parts with the half of the day, if an hour from 0 to 23 names it.
fn with_half(parts: Parsed, field: NumberField) -> Parsed
    ensures { result ≡ with_half field parts }
{
    match field {
        NumberField::Hour | NumberField::SpacedHour => with_named(parts, Part::HourDiv12),
        _ => parts,
    }
}

// The parts with one more, as 0.
fn with_named(parts: Parsed, part: Part) -> Parsed
    ensures { result ≡ with_named part parts }
{
    let mut named = parts;
    named.set(part, 0);
    named
}

//! Writes the items of a pattern, one after another.
ghost use Rattle.std.specs.Prelude.{◌≡◌, ◌↔◌, ◌+◌, ◌≤◌, ◌++◌, IfSome, IsSome, length, true};
ghost use Rattle.chrono_pattern.specs.Patterns.{text_at_offset, text_of_item};
ghost use Rattle.chrono_pattern.specs.ZonedPieces.{is_short, is_short_piece, iso_piece, zoned_piece};

use crate::front_item::front_item;
use crate::group::put_group;
use crate::item::{GroupField, Item, OffsetForm, ZonedField};
use crate::number::put_number;
use crate::subsecond::put_subsecond;
use crate::word::put_word;
use crate::zoned_piece::{put_offset, put_stamp};
use chrono_datetime::NaiveDateTime;
use chrono_text::Text;
use chrono_zoned::FixedOffset;

// How many bytes the longest item has.
const LONGEST: usize = 31;

// The text of a local date-time with its offset by the bytes of a pattern, if there is room for it.
pub(crate) fn text_of<const N: usize>(
    bytes: &[u8],
    moment: NaiveDateTime,
    offset: FixedOffset,
) -> Option<Text<N>>
    ensures text { IfSome result (λ text. text ≡ text_at_offset bytes.now moment offset) }
    ensures exists { IsSome result ↔ (length (text_at_offset bytes.now moment offset) ≤ N) }
{
    let mut text = Text::new();
    let mut rest = bytes;
    while let Some((item, behind)) = front_item(rest) {
        if !put_if_fits(&mut text, item, moment, offset) {
            return None;
        }
        rest = behind;
    }
    Some(text)
}

// Puts an item if there is room for it, and tells whether there is.
#[inline(always)]
fn put_if_fits<const N: usize>(
    text: &mut Text<N>,
    item: Item,
    moment: NaiveDateTime,
    offset: FixedOffset,
) -> bool
    ensures text { result ≡ true → text.new ≡ text.old ++ text_of_item item moment offset }
    ensures exists { (result ≡ true) ↔ (length text.old + length (text_of_item item moment offset) ≤ N) }
{
    match item {
        Item::Zoned(ZonedField::Iso8601) => put_iso_if_fits(text, moment, offset),
        _ => put_short_if_fits(text, item, moment, offset),
    }
}

// Puts a date, a time of day with its fraction and an offset if there is room for them, and tells whether there is.
#[inline(never)]
#[tactic(auto, unfolding(crate::specs::ZonedPieces::iso_piece))]
fn put_iso_if_fits<const N: usize>(
    text: &mut Text<N>,
    moment: NaiveDateTime,
    offset: FixedOffset,
) -> bool
    ensures text { result ≡ true → text.new ≡ text.old ++ iso_piece moment offset }
    ensures exists { (result ≡ true) ↔ (length text.old + length (iso_piece moment offset) ≤ N) }
{
    put_short_if_fits(text, Item::Group(GroupField::YearMonthDay), moment, offset)
        && put_short_if_fits(text, Item::Byte(b'T'), moment, offset)
        && put_short_if_fits(
            text,
            Item::Group(GroupField::HourMinuteSecond),
            moment,
            offset,
        )
        && put_short_if_fits(text, Item::Subsecond(true, 0), moment, offset)
        && put_short_if_fits(
            text,
            Item::Zoned(ZonedField::Offset(OffsetForm::Colon)),
            moment,
            offset,
        )
}

// Puts an item of at most 31 bytes if there is room for it, and tells whether there is.
#[inline(always)]
fn put_short_if_fits<const N: usize>(
    text: &mut Text<N>,
    item: Item,
    moment: NaiveDateTime,
    offset: FixedOffset,
) -> bool
    requires short { is_short item ≡ true }
    ensures text { result ≡ true → text.new ≡ text.old ++ text_of_item item moment offset }
    ensures exists { (result ≡ true) ↔ (length text.old + length (text_of_item item moment offset) ≤ N) }
{
    if text.room() >= LONGEST {
        put_item(text, item, moment, offset);
        return true;
    }
    put_piece(text, item, moment, offset)
}

// The same by a text of its own, where little room is left.
#[inline(never)]
fn put_piece<const N: usize>(
    text: &mut Text<N>,
    item: Item,
    moment: NaiveDateTime,
    offset: FixedOffset,
) -> bool
    requires short { is_short item ≡ true }
    ensures text { result ≡ true → text.new ≡ text.old ++ text_of_item item moment offset }
    ensures exists { (result ≡ true) ↔ (length text.old + length (text_of_item item moment offset) ≤ N) }
{
    let mut piece = Text::<LONGEST>::new();
    put_item(&mut piece, item, moment, offset);
    if text.room() < piece.as_bytes().len() {
        return false;
    }
    text.push_text(piece.as_bytes());
    true
}

// Puts any item.
#[inline(always)]
pub(crate) fn put_any_item<const N: usize>(
    text: &mut Text<N>,
    item: Item,
    moment: NaiveDateTime,
    offset: FixedOffset,
)
    requires room { length text.old + 155 ≤ N }
    ensures text { text.new ≡ text.old ++ text_of_item item moment offset }
{
    match item {
        Item::Zoned(ZonedField::Iso8601) => put_iso(text, moment, offset),
        _ => put_item(text, item, moment, offset),
    }
}

// Puts a date, a time of day with its fraction and an offset.
#[inline(never)]
#[tactic(auto, unfolding(crate::specs::ZonedPieces::iso_piece))]
fn put_iso<const N: usize>(text: &mut Text<N>, moment: NaiveDateTime, offset: FixedOffset)
    requires room { length text.old + 155 ≤ N }
    ensures text { text.new ≡ text.old ++ iso_piece moment offset }
{
    put_item(text, Item::Group(GroupField::YearMonthDay), moment, offset);
    put_item(text, Item::Byte(b'T'), moment, offset);
    put_item(
        text,
        Item::Group(GroupField::HourMinuteSecond),
        moment,
        offset,
    );
    put_item(text, Item::Subsecond(true, 0), moment, offset);
    put_item(
        text,
        Item::Zoned(ZonedField::Offset(OffsetForm::Colon)),
        moment,
        offset,
    );
}

// Puts an item of at most 31 bytes.
#[inline(always)]
fn put_item<const N: usize>(
    text: &mut Text<N>,
    item: Item,
    moment: NaiveDateTime,
    offset: FixedOffset,
)
    requires short { is_short item ≡ true }
    requires room { length text.old + 31 ≤ N }
    ensures text { text.new ≡ text.old ++ text_of_item item moment offset }
    ensures fits { length text.new ≤ length text.old + 31 }
{
    match item {
        Item::Empty => {}
        Item::Byte(byte) => text.push(byte),
        Item::Number(field, padding) => put_number(text, field, padding, moment),
        Item::Word(word) => put_word(text, word, moment),
        Item::Group(group) => put_group(text, group, moment),
        Item::Subsecond(point, count) => put_subsecond(text, point, count, moment.time()),
        Item::Zoned(field) => put_zoned(text, field, moment, offset),
    }
}

// Puts an offset or the seconds from 1970.
#[inline(never)]
fn put_zoned<const N: usize>(
    text: &mut Text<N>,
    field: ZonedField,
    moment: NaiveDateTime,
    offset: FixedOffset,
)
    requires short { is_short_piece field ≡ true }
    requires room { length text.old + 20 ≤ N }
    ensures text { text.new ≡ text.old ++ zoned_piece field moment offset }
    ensures fits { length text.new ≤ length text.old + 20 }
{
    match field {
        ZonedField::Offset(form) => put_offset(text, form, offset),
        ZonedField::ZoneName => offset.put_into(text),
        ZonedField::Stamp => put_stamp(text, moment, offset),
        ZonedField::Iso8601 => {}
    }
}

//! The two forms of the texts of ISO 8601: the bytes that the basic form leaves out, and where an error of it is.
ghost use Rattle.std.specs.Prelude.{◌≡◌};
ghost use Rattle.chrono_stamps.specs.IsoForms.{basic_byte, coloned, coloned_offset, date_byte, hyphened, is_basic, offset_byte, passed, time_byte, with_separators};

use crate::iso8601_reader::time_len;
use crate::pieces::{behind_bytes, first_bytes};
use chrono_reading::fitting_len;
use chrono_text::{Text, part_place, split_at_byte};

// Whether a text is of the basic form: behind four digits stands one more, or the letter of a week.
#[tactic(auto, unfolding(crate::specs::IsoForms::is_basic))]
pub(crate) fn is_basic(text: &[u8]) -> bool
    ensures { result ≡ is_basic text.now }
{
    fitting_len(b"ddddd", text) == 5 || fitting_len(b"ddddW", text) == 5
}

// The text of the extended form that one of the basic form is meant as.
#[tactic(auto, unfolding(crate::specs::IsoForms::with_separators))]
pub(crate) fn with_separators(text: &[u8]) -> Text<96>
    ensures { result ≡ with_separators text.now }
{
    let mut extended = Text::new();
    let Some((date, behind)) = split_at_byte(text, b'T') else {
        extended.push_text(hyphened(text).as_bytes());
        return extended;
    };
    let (time, offset) = behind.split_at(time_len(behind));
    extended.push_text(hyphened(date).as_bytes());
    extended.push(b'T');
    extended.push_text(coloned(time).as_bytes());
    extended.push_text(coloned_offset(offset).as_bytes());
    extended
}

// A date with its hyphens.
#[tactic(auto, unfolding(crate::specs::IsoForms::hyphened))]
fn hyphened(text: &[u8]) -> Text<16>
    ensures { result ≡ hyphened text.now }
{
    let rest = behind_bytes(first_bytes(text, 9), 4);
    let mut date = Text::new();
    date.push_text(first_bytes(text, 4));
    date.push(b'-');
    if text.len() == 7 {
        date.push_text(rest);
        return date;
    }
    let count = if fitting_len(b"ddddW", text) == 5 {
        3
    } else {
        2
    };
    date.push_text(first_bytes(rest, count));
    date.push(b'-');
    date.push_text(behind_bytes(rest, count));
    date
}

// A time with its colons.
#[tactic(auto, unfolding(crate::specs::IsoForms::coloned))]
fn coloned(text: &[u8]) -> Text<32>
    ensures { result ≡ coloned text.now }
{
    let rest = behind_bytes(first_bytes(text, 17), 2);
    let mut time = Text::new();
    time.push_text(first_bytes(text, 2));
    time.push(b':');
    if text.len() <= 4 {
        time.push_text(rest);
        return time;
    }
    time.push_text(first_bytes(rest, 2));
    time.push(b':');
    time.push_text(behind_bytes(rest, 2));
    time
}

// An offset with its colons.
#[tactic(auto, unfolding(crate::specs::IsoForms::coloned_offset))]
fn coloned_offset(text: &[u8]) -> Text<16>
    ensures { result ≡ coloned_offset text.now }
{
    let rest = behind_bytes(first_bytes(text, 8), 3);
    let mut offset = Text::new();
    offset.push_text(first_bytes(text, 3));
    if text.len() <= 3 {
        return offset;
    }
    offset.push(b':');
    if text.len() <= 5 {
        offset.push_text(rest);
        return offset;
    }
    offset.push_text(first_bytes(rest, 2));
    offset.push(b':');
    offset.push_text(behind_bytes(rest, 2));
    offset
}

// Where a byte of the extended form stands in a text of the basic form.
#[tactic(auto, unfolding(crate::specs::IsoForms::basic_byte))]
pub(crate) fn basic_byte(text: &[u8], bytes: usize) -> usize
    ensures { result ≡ basic_byte text.now bytes }
{
    let Some((date, behind)) = split_at_byte(text, b'T') else {
        return date_byte(text, bytes);
    };
    let date_len = hyphened(date).as_bytes().len();
    if bytes <= date_len {
        return date_byte(date, bytes);
    }
    let in_time = bytes - date_len - 1;
    let (time, offset) = behind.split_at(time_len(behind));
    let time_len = coloned(time).as_bytes().len();
    if in_time <= time_len {
        return part_place(text, behind, time_byte(time, in_time));
    }
    part_place(text, offset, offset_byte(offset, in_time - time_len))
}

// Where a byte of a date stands if the hyphens are left out.
#[tactic(auto, unfolding(crate::specs::IsoForms::date_byte))]
fn date_byte(text: &[u8], bytes: usize) -> usize
    ensures { result ≡ date_byte text.now bytes }
{
    if text.len() == 7 {
        passed(4, 99, bytes)
    } else if fitting_len(b"ddddW", text) == 5 {
        passed(4, 8, bytes)
    } else {
        passed(4, 7, bytes)
    }
}

// Where a byte of a time stands if the colons are left out.
#[tactic(auto, unfolding(crate::specs::IsoForms::time_byte))]
fn time_byte(text: &[u8], bytes: usize) -> usize
    ensures { result ≡ time_byte text.now bytes }
{
    if text.len() <= 4 {
        passed(2, 99, bytes)
    } else {
        passed(2, 5, bytes)
    }
}

// Where a byte of an offset stands if the colons are left out.
#[tactic(auto, unfolding(crate::specs::IsoForms::offset_byte))]
fn offset_byte(text: &[u8], bytes: usize) -> usize
    ensures { result ≡ offset_byte text.now bytes }
{
    if text.len() <= 3 {
        bytes
    } else if text.len() <= 5 {
        passed(3, 99, bytes)
    } else {
        passed(3, 6, bytes)
    }
}

// Where a byte stands that has none, one or both of these places in front, at which bytes were put in.
fn passed(first: usize, second: usize, bytes: usize) -> usize
    ensures { result ≡ passed first second bytes }
{
    if bytes > second {
        bytes.saturating_sub(2)
    } else if bytes > first {
        bytes.saturating_sub(1)
    } else {
        bytes
    }
}

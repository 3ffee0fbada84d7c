//! The text of one date, from its ISO form to a layout and back.
ghost use Rattle.std.specs.Prelude.{◌≡◌, ◌≢◌, ℕ, ℤ, replicate};
ghost use Rattle.chrono_text.specs.Text.{calendar_text};
ghost use Rattle.pattern_columns.specs.Layouts.{NamesSame, layout_text};

use crate::layout::{DateLayout, DateOrder};

// Another byte for the byte that is wanted, and 0 for any other.
#[inline]
fn exchanged(byte: u8, wanted: u8, other: u8) -> u8
    ensures same { byte ≡ wanted → result ≡ other }
    ensures different { byte ≢ wanted → result ≡ 0 }
    ensures back { result ≢ 0 → byte ≡ wanted }
{
    if byte == wanted { other } else { 0 }
}

/// Returns the text in a layout for the ISO text of a date. For ten zero bytes it returns the same.
#[inline]
pub(crate) fn from_iso(layout: DateLayout, text: [u8; 10]) -> [u8; 10]
    ensures date { (y : ℤ) → (m : ℕ) → (d : ℕ) → calendar_text y m d ≡ text → layout_text layout y m d ≡ result }
    ensures none { text ≡ replicate 10 0 → result ≡ replicate 10 0 }
{
    let mark = exchanged(text[4], b'-', layout.separator);
    match layout.order {
        DateOrder::YearMonthDay => [
            text[0], text[1], text[2], text[3], mark, text[5], text[6], mark, text[8], text[9],
        ],
        DateOrder::DayMonthYear => [
            text[8], text[9], mark, text[5], text[6], mark, text[0], text[1], text[2], text[3],
        ],
        DateOrder::MonthDayYear => [
            text[5], text[6], mark, text[8], text[9], mark, text[0], text[1], text[2], text[3],
        ],
    }
}

/// Returns the ISO text for the text of a date in a layout. For no date's text it returns none.
#[inline]
pub(crate) fn to_iso(layout: DateLayout, text: [u8; 10]) -> [u8; 10]
    ensures { NamesSame (layout_text layout) text result }
{
    let separator = layout.separator;
    match layout.order {
        DateOrder::YearMonthDay => {
            let first = exchanged(text[4], separator, b'-');
            let second = exchanged(text[7], separator, b'-');
            [
                text[0], text[1], text[2], text[3], first, text[5], text[6], second, text[8],
                text[9],
            ]
        }
        DateOrder::DayMonthYear => {
            let first = exchanged(text[2], separator, b'-');
            let second = exchanged(text[5], separator, b'-');
            [
                text[6], text[7], text[8], text[9], first, text[3], text[4], second, text[0],
                text[1],
            ]
        }
        DateOrder::MonthDayYear => {
            let first = exchanged(text[2], separator, b'-');
            let second = exchanged(text[5], separator, b'-');
            [
                text[6], text[7], text[8], text[9], first, text[0], text[1], second, text[3],
                text[4],
            ]
        }
    }
}

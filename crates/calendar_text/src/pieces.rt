//! Pieces of a text between separators: reading each in turn, and finding one.
ghost use Rattle.std.specs.Prelude.{◌≡◌, ◌≤◌, ◌+◌, ◌==◌, ℕ, List, Result, true, false, length, drop, IfErr, IfNone, IfSome};
ghost use Rattle.std.specs.List.{after_first, before_first};
ghost use Rattle.chrono_text.specs.Lists.{begins_alike, pieces, stands_in};
ghost use Rattle.calendar_text.specs.Reads.{placed_through};
ghost use Rattle.calendar_text.specs.declared.calendar_error.CalendarTextError.{CalendarTextError};

use crate::calendar_error::CalendarTextError;
use chrono_text::{first_piece, same_but_for_case, split_at_byte};

// A reader of pieces. It makes an `L` of them, one after another.
pub(crate) trait PieceReader<L> {
    // What a piece makes of what was read before it, or what is wrong with it.
    ghost step: { Self → L → List ℕ → Result L CalendarTextError };

    // What was read, with a piece behind it.
    fn with_piece(&self, read: L, piece: &[u8]) -> Result<L, CalendarTextError>
        ensures read { result ≡ step self.now read piece.now }
        ensures byte { IfErr result (λ e. e.byte ≤ length piece.now) };
}

// What the pieces of a text make, one after another, of what was read before them.
pub(crate) fn read_pieces<L: Drop, R: PieceReader<L>>(
    reader: &R,
    before: L,
    text: &[u8],
    separator: u8,
) -> Result<L, CalendarTextError>
    ensures read { result ≡ placed_through (R.step reader.now) before 0 (pieces separator text.now) }
    ensures byte { IfErr result (λ e. e.byte ≤ length text.now) }
{
    let mut read = before;
    let mut place = 0;
    let mut rest = text;
    loop {
        let (piece, behind) = first_piece(rest, separator);
        match reader.with_piece(read, piece) {
            Ok(next) => read = next,
            Err(error) => return Err(error.behind(place)),
        }
        match behind {
            [_, next @ ..] => {
                place += piece.len() + 1;
                rest = next;
            }
            [] => return Ok(read),
        }
    }
}

// What stands before the first of these bytes, and what stands behind it; None if there is none.
pub(crate) fn cut_at(text: &[u8], byte: u8) -> Option<(&[u8], &[u8])>
    ensures front { IfSome result (λ parts. parts.0.now ≡ before_first (λ x. x == byte) text.now) }
    ensures back { IfSome result (λ parts. parts.1.now ≡ after_first (λ x. x == byte) text.now) }
    ensures some { IfSome result (λ _. stands_in byte text.now ≡ true) }
    ensures whole { IfSome result (λ parts. length parts.0.now + 1 + length parts.1.now ≡ length text.now) }
    ensures none { IfNone result (stands_in byte text.now ≡ false) }
{
    split_at_byte(text, byte)
}

/// Returns what stands behind `name` in `text`, if `text` begins with it. The case of ASCII letters makes no difference.
///
/// ```
/// behind_name(b"value=DATE", b"VALUE=") == Some(b"DATE") // true
/// behind_name(b"TZID=UTC", b"VALUE=") // None
/// ```
pub fn behind_name<'a>(text: &'a [u8], name: &[u8]) -> Option<&'a [u8]>
    ensures some { IfSome result (λ value. begins_alike name.now text.now ≡ true) }
    ensures value { IfSome result (λ value. value.now ≡ drop (length name.now) text.now) }
    ensures whole { IfSome result (λ value. length name.now + length value.now ≡ length text.now) }
    ensures none { IfNone result (begins_alike name.now text.now ≡ false) }
{
    let (front, value) = text.split_at(name.len().min(text.len()));
    if same_but_for_case(front, name) {
        Some(value)
    } else {
        None
    }
}

//! The item that the bytes of a pattern begin with.
ghost use Rattle.std.specs.Prelude.{◌≡◌, ◌≢◌, ◌<◌, ◌++◌, [], All, IfNone, IfSome, length, slice_index, true};
ghost use Rattle.std.specs.Str.{byte};
ghost use Rattle.chrono_pattern.specs.PatternItems.{IsAsciiItem, IsSpecifier, is_within, item_before, items_from};
ghost use Rattle.chrono_pattern.specs.declared.item.Padding.TheVariants.{Usual};
ghost use Rattle.chrono_pattern.specs.declared.item.State.TheVariants.{Opened, Outside};

use crate::item::{Item, Padding, State};
use crate::step::{opened_step, pattern_step};
use chrono_text::split_line;

// The item in front of bytes, and what is behind it. Nothing if no item is there.
#[inline(always)]
pub(crate) fn front_item(bytes: &[u8]) -> Option<(Item, &[u8])>
    ensures item { IfSome result (λ r. items_from Outside bytes.now ≡ item_before r.0 (items_from Outside r.1.now)) }
    ensures shorter { IfSome result (λ r. length r.1.now < length bytes.now) }
    ensures none { IfNone result (items_from Outside bytes.now ≡ []) }
{
    match bytes.split_first() {
        None => None,
        Some((byte, rest)) => {
            if *byte == b'%' {
                specifier(rest)
            } else {
                Some((Item::Byte(*byte), rest))
            }
        }
    }
}

// The same behind `%`.
#[inline(always)]
fn specifier(bytes: &[u8]) -> Option<(Item, &[u8])>
    ensures item { IfSome result (λ r. items_from (Opened Usual) bytes.now ≡ item_before r.0 (items_from Outside r.1.now)) }
    ensures shorter { IfSome result (λ r. length r.1.now < length bytes.now) }
    ensures none { IfNone result (items_from (Opened Usual) bytes.now ≡ []) }
    ensures ascii { IfSome result (λ r. IsSpecifier bytes.now r.0 r.1.now) }
{
    match bytes.split_first() {
        None => None,
        Some((byte, rest)) => match opened_step(Padding::Usual, *byte) {
            None => None,
            Some((state, item)) => match state {
                State::Outside => Some((item, rest)),
                State::Opened(_) | State::Digits(_, _) | State::Marked(_) => later_item(
                    state, rest,
                ),
            },
        },
    }
}

// The same within a specifier of more bytes. It is apart, so that the usual ones take few instructions.
#[inline(never)]
fn later_item(state: State, bytes: &[u8]) -> Option<(Item, &[u8])>
    requires { is_within state ≡ true }
    ensures item { IfSome result (λ r. items_from state bytes.now ≡ item_before r.0 (items_from Outside r.1.now)) }
    ensures shorter { IfSome result (λ r. length r.1.now < length bytes.now) }
    ensures none { IfNone result (items_from state bytes.now ≡ []) }
    ensures ascii { IfSome result (λ r. IsSpecifier bytes.now r.0 r.1.now) }
{
    let mut stands = state;
    let mut rest = bytes;
    while let Some((byte, behind)) = rest.split_first() {
        match pattern_step(stands, *byte) {
            None => return None,
            Some((next, item)) => match next {
                State::Outside => return Some((item, behind)),
                State::Opened(_) | State::Digits(_, _) | State::Marked(_) => stands = next,
            },
        }
        rest = behind;
    }
    None
}

// The bytes of a pattern up to its first `%`, and the others.
pub(crate) fn split_literal(text: &str) -> (&str, &str)
    ensures parts { text.now ≡ result.0.now ++ result.1.now }
    ensures literal { All (λ c. c ≢ byte "%") result.0.now }
    ensures opens { 0 < length result.1.now → slice_index result.1.now 0 ≡ byte "%" }
{
    match split_line(text.as_bytes(), b'%') {
        None => (text, ""),
        Some((literal, _)) => text.split_at(literal.len()),
    }
}

// The specifier in front of a pattern, and what is behind it. Nothing if no item is there.
pub(crate) fn front_specifier(text: &str) -> Option<(Item, &str)>
    requires opens { 0 < length text.now → slice_index text.now 0 ≡ byte "%" }
    ensures item { IfSome result (λ r. items_from Outside text.now ≡ item_before r.0 (items_from Outside r.1.now)) }
    ensures shorter { IfSome result (λ r. length r.1.now < length text.now) }
    ensures none { IfNone result (items_from Outside text.now ≡ []) }
    ensures ascii { IfSome result (λ r. IsAsciiItem r.0) }
{
    match text.as_bytes().split_first() {
        None => None,
        Some((_, rest)) => match specifier(rest) {
            None => None,
            Some((item, behind)) => {
                let (_, left) = text.split_at(text.len() - behind.len());
                Some((item, left))
            }
        },
    }
}

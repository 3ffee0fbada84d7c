//! The parts that a text begins with: names and offsets.
ghost use Rattle.std.specs.Prelude.{◌≡◌, ◌↔◌, ◌≤◌, ℕ, List, IfErr, IfOk, IsOkAnd, IsTrue, length};
ghost use Rattle.std.specs.Char.{is_ascii_alphabetic};
ghost use Rattle.std.specs.List.{list_all, prefix_len};
ghost use Rattle.zone_text.specs.NameTexts.{IsZoneName, behind_front, front_of, is_of_offset};
ghost use Rattle.zone_text.specs.WrittenTexts.{IsName};

use crate::error::{ZoneTextError, ZoneTextFault, error_at};
use chrono_text::{part_place, word_len};

// How many bytes a name has at least.
const SHORTEST_NAME: usize = 3;

// The name in front of the end of a text, and what stands behind it.
pub(crate) fn read_name<'a>(
    whole: &[u8],
    text: &'a [u8],
) -> Result<(&'a [u8], &'a [u8]), ZoneTextError>
    ensures read { IfOk result (λ it. IsZoneName text.now it.0.now it.1.now) }
    ensures every { (name rest : List ℕ) → IsZoneName text.now name rest
        → IsOkAnd result (λ it. (it.0.now ≡ name) × (it.1.now ≡ rest)) }
    ensures error { IfErr result (λ e. e.byte ≤ length whole.now) }
{
    let (name, rest) = split_name(text);
    if name.len() < SHORTEST_NAME {
        return Err(error_at(ZoneTextFault::NoName, part_place(whole, text, 0)));
    }
    Ok((name, rest))
}

// The name in front, and what stands behind it. Where there is none, fewer than three bytes, and the rest.
fn split_name(text: &[u8]) -> (&[u8], &[u8])
    ensures read { 3 ≤ length result.0.now → IsZoneName text.now result.0.now result.1.now }
    ensures every { (name rest : List ℕ) → IsZoneName text.now name rest → (result.0.now ≡ name) × (result.1.now ≡ rest) }
{
    let [b'<', inner @ ..] = text else {
        return text.split_at(letters_len(text));
    };
    let (name, rest) = inner.split_at(word_len(inner));
    match rest {
        [b'>', behind @ ..] => (name, behind),
        _ => (&[], text),
    }
}

// The digits, colons and signs in front, and what stands behind them.
pub(crate) fn split_offset(text: &[u8]) -> (&[u8], &[u8])
    ensures front { result.0.now ≡ front_of is_of_offset text.now }
    ensures behind { result.1.now ≡ behind_front is_of_offset text.now }
{
    text.split_at(offset_len(text))
}

// Whether a text is a name.
pub(crate) fn is_name(text: &[u8]) -> bool
    ensures { IsTrue result ↔ IsName text.now }
{
    SHORTEST_NAME <= text.len() && word_len(text) == text.len()
}

// Whether a text has letters alone.
pub(crate) fn are_letters(text: &[u8]) -> bool
    ensures { result ≡ list_all is_ascii_alphabetic text.now }
{
    letters_len(text) == text.len()
}

// How many letters stand in front.
fn letters_len(text: &[u8]) -> usize
    ensures value { result ≡ prefix_len is_ascii_alphabetic text.now }
    ensures within { result ≤ length text.now }
{
    let mut len = 0;
    while len < text.len() {
        if !text[len].is_ascii_alphabetic() {
            return len;
        }
        len += 1;
    }
    len
}

// How many bytes in front may stand in an offset.
fn offset_len(text: &[u8]) -> usize
    ensures value { result ≡ prefix_len is_of_offset text.now }
    ensures within { result ≤ length text.now }
{
    let mut len = 0;
    while len < text.len() {
        if !is_of_offset(text[len]) {
            return len;
        }
        len += 1;
    }
    len
}

// Whether a byte is a digit, a colon or a sign.
fn is_of_offset(byte: u8) -> bool
    ensures { result ≡ is_of_offset byte }
{
    byte.is_ascii_digit() || (byte == b':' || (byte == b'+' || byte == b'-'))
}

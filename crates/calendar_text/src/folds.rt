//! Lines that are folded, and where their bytes stand.
ghost use Rattle.std.specs.Prelude.{◌≡◌, ◌<◌, ◌≤◌, IfNone, IfSome, length, slice_index, take};
ghost use Rattle.chrono_text.specs.Lists.{is_blank};
ghost use Rattle.calendar_text.specs.Folds.{column_behind, folded, folded_byte, folded_place, is_left_out, unfolded};
ghost use Rattle.calendar_text.specs.Puts.{IsPut, IsTooLong};

use crate::writer::put;

// A line has no more bytes in front of its line break.
const LONGEST_LINE: usize = 75;

/// Writes `text` without its folds into `buffer`, with a line feed for each line break. Returns the number of bytes written.
///
/// A fold is a line break with a space or a tab behind it (RFC 5545, section 3.1). It may stand anywhere, even within a word.
/// Requires `buffer` to be as long as `text`.
///
/// ```
/// let mut buffer = [0; 16];
/// unfold(b"DTS\r\n TART:1\r\n", &mut buffer) // 10
/// ```
pub fn unfold(text: &[u8], buffer: &mut [u8]) -> usize
    requires { length text.now ≤ length buffer.old }
    ensures text { take result buffer.new ≡ unfolded text.now }
    ensures within { result ≤ length text.now }
    ensures length { length buffer.new ≡ length buffer.old }
{
    let mut at = 0;
    let mut len = 0;
    let mut before = 0;
    while at < text.len() {
        let byte = text[at];
        if !is_left_out(before, byte, byte_at(text, at + 1)) {
            buffer[len] = byte;
            len += 1;
        }
        before = byte;
        at += 1;
    }
    len
}

/// Returns where in `text` the byte stands that is the byte `place` of the unfolded text, counted from 0.
///
/// Returns the length of `text` if the unfolded text ends there or before.
///
/// ```
/// folded_place(b"DTS\r\n TART:1\r\n", 3) // 6
/// ```
pub fn folded_place(text: &[u8], place: usize) -> usize
    ensures place { result ≡ folded_place text.now place }
    ensures within { result ≤ length text.now }
{
    let mut at = 0;
    let mut left = place;
    let mut before = 0;
    while at < text.len() {
        let byte = text[at];
        if !is_left_out(before, byte, byte_at(text, at + 1)) {
            if left == 0 {
                return at;
            }
            left -= 1;
        }
        before = byte;
        at += 1;
    }
    at
}

/// Writes lines into `buffer`, each folded behind 75 bytes. `text` has a line feed behind each line, and CRLF is written for it.
///
/// Returns the number of bytes written. Returns `None` if `buffer` is too short.
///
/// A fold may stand between the bytes of one character, as RFC 5545 (3.1) allows.
///
/// ```
/// let mut buffer = [0; 16];
/// fold(b"DTSTART:1\n", &mut buffer) // Some(11)
/// fold(b"DESCRIPTION:1234\n", &mut buffer) // None
/// ```
pub fn fold(text: &[u8], buffer: &mut [u8]) -> Option<usize>
    ensures text { IfSome result (λ len. take len buffer.new ≡ folded text.now) }
    ensures within { IfSome result (λ len. len ≤ length buffer.new) }
    ensures none { IfNone result (length buffer.old < length (folded text.now)) }
    ensures length { length buffer.new ≡ length buffer.old }
{
    let mut at = 0;
    let mut len = 0;
    let mut column = 0;
    while at < text.len() {
        let byte = text[at];
        len = put_folded(buffer, len, column, byte)?;
        column = column_behind(column, byte);
        at += 1;
    }
    Some(len)
}

// Puts a byte that stands behind so many bytes of its line.
fn put_folded(buffer: &mut [u8], len: usize, column: usize, byte: u8) -> Option<usize>
    requires { len ≤ length buffer.old }
    ensures put { IfSome result (λ end. IsPut buffer.old buffer.new len (folded_byte column byte) end) }
    ensures none { IfNone result (IsTooLong buffer.old len (folded_byte column byte)) }
    ensures length { length buffer.new ≡ length buffer.old }
{
    if byte == b'\n' {
        return put(buffer, len, b"\r\n");
    }
    if column == LONGEST_LINE {
        return put(buffer, len, &[b'\r', b'\n', b' ', byte]);
    }
    put(buffer, len, &[byte])
}

// How many bytes of its line stand before the byte behind this one.
fn column_behind(column: usize, byte: u8) -> usize
    requires { column ≤ 75 }
    ensures value { result ≡ column_behind column byte }
    ensures small { result ≤ 75 }
{
    if byte == b'\n' {
        return 0;
    }
    if column == LONGEST_LINE {
        return 2;
    }
    column + 1
}

// The byte at a place, or 0 behind the end.
#[inline]
fn byte_at(text: &[u8], at: usize) -> u8
    ensures { result ≡ slice_index text.now at }
{
    if at < text.len() { text[at] } else { 0 }
}

// Whether a byte is no part of the unfolded text.
#[inline]
fn is_left_out(before: u8, byte: u8, behind: u8) -> bool
    ensures { result ≡ is_left_out before byte behind }
{
    (byte == b'\r' && behind == b'\n')
        || ((byte == b'\n' && is_blank(behind)) || (is_blank(byte) && before == b'\n'))
}

// Whether a byte is a space or a tab.
#[inline]
fn is_blank(byte: u8) -> bool
    ensures { result ≡ is_blank byte }
{
    byte == b' ' || byte == b'\t'
}

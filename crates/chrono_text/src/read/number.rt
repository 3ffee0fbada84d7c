//! Whole numbers with a sign.
ghost use Rattle.std.specs.Prelude.{◌≡◌, ◌≢◌, ◌<◌, ◌≤◌, ◌↔◌, ℕ, Some, None, IfSome, IfNone, IsTrue, length, take, slice_index};
ghost use Rattle.std.specs.Bool.{MatchBool};
ghost use Rattle.std.specs.Int.{IsInRange};
ghost use Rattle.std.specs.Str.{byte};
ghost use Rattle.std.specs.Str.Parse.{AllDigits, digits_value};
ghost use Rattle.chrono_text.specs.Numbers.{StandsBefore, i64_of, signed, to_i64};

use crate::line::Line;
use crate::read::front::leading_digits;
use crate::read::lanes::{LANES, digits_value};
use crate::read::single_digit::digit;
use crate::read::way::Way;

const MINUS: u8 = b'-';

/// Returns the whole number at the front of `text`, and how many bytes it takes.
///
/// The number is an optional `-` and one digit or more. It ends before the byte `stop` or at the end of `text`.
/// Requires `stop` not to be a digit. `way` changes the speed only.
///
/// Returns `None` if no number is there, or it does not fit an `i64`.
///
/// ```
/// read_number(&Line::whole(b"-42 7"), b' ', Way::Short) // Some((-42, 3))
/// ```
#[inline(always)]
pub fn read_number(text: &Line<'_>, stop: u8, way: Way) -> Option<(i64, usize)>
    requires { ¬ (IsInRange (byte "0") (byte "9") stop) }
    ensures number { IfSome result (λ read. i64_of (take read.1 text.now) ≡ Some read.0) }
    ensures end { IfSome result (λ read. StandsBefore stop text.now read.1) }
    // No front of the text that ends before `stop` or at the end is a number that fits.
    ensures none { IfNone result ((len : ℕ) → StandsBefore stop text.now len
        → i64_of (take len text.now) ≡ None) }
{
    if let Way::Short = way {
        if let Some((number, len)) = short_number(text, stop) {
            return Some((i64::from(number), len));
        }
    }
    if let Some(read) = near_number(text, stop) {
        return Some(read);
    }
    any_number(text, stop)
}

// The same, if it has one digit or two and no sign, and a mark ends it. It has no branch on which of them it is.
#[inline]
fn short_number(text: &Line<'_>, stop: u8) -> Option<(u32, usize)>
    ensures some { IfSome result (λ read. 0 < read.1) }
    ensures digits { IfSome result (λ read. AllDigits 10 (take read.1 text.now)) }
    ensures value { IfSome result (λ read. read.0 ≡ digits_value 10 (take read.1 text.now)) }
    ensures small { IfSome result (λ read. read.0 < 100) }
    ensures end { IfSome result (λ read. StandsBefore stop text.now read.1) }
{
    let (len, _) = digits_before(text, stop)?;
    if len < 1 || len > 2 {
        return None;
    }
    // Of one digit the first is also the last.
    let first = u32::from(digit(text.byte(0)));
    let last = u32::from(digit(text.byte(len - 1)));
    Some((first * 10 * (len as u32 - 1) + last, len))
}

// The same, if its digits are at most sixteen, and a mark ends them.
#[inline(always)]
fn near_number(text: &Line<'_>, stop: u8) -> Option<(i64, usize)>
    ensures number { IfSome result (λ read. i64_of (take read.1 text.now) ≡ Some read.0) }
    ensures end { IfSome result (λ read. StandsBefore stop text.now read.1) }
{
    let negative = has_minus(text);
    let sign = usize::from(negative);
    let (len, bytes) = digits_before(&text.skip(sign), stop)?;
    if len < 1 || len > LANES {
        return None;
    }
    let number = signed(negative, digits_value(bytes, len))?;
    Some((number, sign + len))
}

// The same, of any length.
fn any_number(text: &Line<'_>, stop: u8) -> Option<(i64, usize)>
    requires { ¬ (IsInRange (byte "0") (byte "9") stop) }
    ensures number { IfSome result (λ read. i64_of (take read.1 text.now) ≡ Some read.0) }
    ensures end { IfSome result (λ read. StandsBefore stop text.now read.1) }
    // No front of the text that ends before `stop` or at the end is a number that fits.
    ensures none { IfNone result ((len : ℕ) → StandsBefore stop text.now len
        → i64_of (take len text.now) ≡ None) }
{
    let negative = has_minus(text);
    let sign = usize::from(negative);
    let digits = text.skip(sign);
    let (size, len) = leading_digits(digits.as_slice());
    if len == 0 || !stands_before(&digits, len, stop) {
        return None;
    }
    let number = signed(negative, size)?;
    Some((number, sign + len))
}

// How many digits stand in front, and the bytes from there on, if the line's marks tell, and `stop` or the end stands behind
// the digits.
#[inline(always)]
fn digits_before<'a>(text: &Line<'a>, stop: u8) -> Option<(usize, &'a [u8])>
    ensures room { IfSome result (λ front. 16 ≤ length front.1.now) }
    ensures digits { IfSome result (λ front. AllDigits 10 (take front.0 text.now)) }
    ensures same { IfSome result (λ front. take front.0 front.1.now ≡ take front.0 text.now) }
    ensures end { IfSome result (λ front. StandsBefore stop text.now front.0) }
{
    let (len, bytes) = text.digits_in_front()?;
    if len > text.len() || !stands_before(text, len, stop) {
        return None;
    }
    Some((len, bytes))
}

// Whether a `-` stands in front.
#[inline]
fn has_minus(text: &Line<'_>) -> bool
    ensures { MatchBool result ((0 < length text.now) × (slice_index text.now 0 ≡ byte "-"))
        (0 < length text.now → slice_index text.now 0 ≢ byte "-") }
{
    !text.is_empty() && text.byte(0) == MINUS
}

// Whether the first `len` bytes are all, or `stop` stands behind them.
#[inline]
fn stands_before(text: &Line<'_>, len: usize, stop: u8) -> bool
    requires { len ≤ length text.now }
    ensures { IsTrue result ↔ StandsBefore stop text.now len }
{
    len == text.len() || text.byte(len) == stop
}

// The number of this sign and size, if it fits an `i64`.
#[inline]
#[tactic(auto, unfolding(crate::specs::Numbers::to_i64))]
fn signed(negative: bool, size: u64) -> Option<i64>
    ensures { result ≡ to_i64 (signed negative size) }
{
    if size < 1 << 63 {
        let number = size as i64;
        Some(if negative { -number } else { number })
    } else if negative && size == 1 << 63 {
        Some(i64::MIN)
    } else {
        None
    }
}

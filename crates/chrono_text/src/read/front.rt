//! The digits at the front of a text: their value, and how many they are.
//!
//! A value that does not fit a `u64` counts as the greatest `u64`.
ghost use Rattle.std.specs.Prelude.{◌≡◌, ◌-◌, ◌^◌, ◌<◌, ◌≤◌, min, length, take, slice_index};
ghost use Rattle.std.specs.Int.{IsInRange};
ghost use Rattle.std.specs.Str.{byte};
ghost use Rattle.std.specs.Str.Parse.{AllDigits, digits_value};

use crate::read::single_digit::digit;

// A number of so many digits fits a `u64`.
const ALWAYS_FIT: usize = 18;

// All digits in front, read one by one.
#[inline]
pub(crate) fn leading_digits(text: &[u8]) -> (u64, usize)
    ensures within { result.1 ≤ length text.now }
    ensures digits { AllDigits 10 (take result.1 text.now) }
    ensures end { result.1 < length text.now → ¬ (IsInRange (byte "0") (byte "9") (slice_index text.now result.1)) }
    ensures value { result.0 ≡ min (digits_value 10 (take result.1 text.now)) (2 ^ 64 - 1) }
{
    let most = text.len().min(ALWAYS_FIT);
    let mut value = 0u64;
    let mut len = 0;
    while len < most {
        let digit = digit(text[len]);
        if digit > 9 {
            return (value, len);
        }
        value = value * 10 + u64::from(digit);
        len += 1;
    }
    further_digits(text, value, len)
}

// All digits in front, where the first `start` bytes are digits, and `value` is what they write.
fn further_digits(text: &[u8], value: u64, start: usize) -> (u64, usize)
    requires within { start ≤ length text.now }
    requires digits { AllDigits 10 (take start text.now) }
    requires value { value ≡ digits_value 10 (take start text.now) }
    ensures within { result.1 ≤ length text.now }
    ensures digits { AllDigits 10 (take result.1 text.now) }
    ensures end { result.1 < length text.now → ¬ (IsInRange (byte "0") (byte "9") (slice_index text.now result.1)) }
    ensures value { result.0 ≡ min (digits_value 10 (take result.1 text.now)) (2 ^ 64 - 1) }
{
    let mut total = value;
    let mut len = start;
    while len < text.len() {
        let digit = digit(text[len]);
        if digit > 9 {
            return (total, len);
        }
        total = total.saturating_mul(10).saturating_add(u64::from(digit));
        len += 1;
    }
    (total, len)
}

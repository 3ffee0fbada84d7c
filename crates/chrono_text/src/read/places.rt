//! Numbers read from a fixed number of digits.
ghost use Rattle.std.specs.Prelude.{◌≡◌, ◌<◌, ◌≤◌, ◌^◌, ◌∷◌, [], ℕ, Some, IfSome, length};
ghost use Rattle.std.specs.Option.{SomeIff};
ghost use Rattle.std.specs.Str.Parse.{AllDigits, digits_value};
ghost use Rattle.chrono_text.specs.Text.{two_digits, all_digits};

use crate::read::front::leading_digits;
use crate::read::single_digit::digit;

/// Returns the number below 100 that two digits write.
///
/// Returns `None` if a byte is not a digit.
///
/// ```
/// read_two(b'0', b'7') // Some(7)
/// read_two(b' ', b'7') // None
/// ```
#[inline]
pub fn read_two(tens: u8, ones: u8) -> Option<u32>
    ensures some { IfSome result (λ n. (n < 100) × (two_digits n ≡ tens ∷ ones ∷ [])) }
    ensures every { (n : ℕ) → n < 100 → two_digits n ≡ tens ∷ ones ∷ [] → result ≡ Some n }
{
    let tens = digit(tens);
    let ones = digit(ones);
    if tens > 9 || ones > 9 {
        return None;
    }
    Some(10 * u32::from(tens) + u32::from(ones))
}

/// Returns the number below 1,000 that three digits write.
///
/// Returns `None` if a byte is not a digit.
///
/// ```
/// read_three(b'0', b'6', b'0') // Some(60)
/// ```
#[inline]
pub fn read_three(hundreds: u8, tens: u8, ones: u8) -> Option<u32>
    ensures some { IfSome result (λ n.
        (n < 1_000) × (all_digits 3 n ≡ hundreds ∷ tens ∷ ones ∷ [])) }
    ensures every { (n : ℕ) → n < 1_000 → all_digits 3 n ≡ hundreds ∷ tens ∷ ones ∷ []
        → result ≡ Some n }
{
    let front = read_two(hundreds, tens)?;
    let last = digit(ones);
    if last > 9 {
        return None;
    }
    Some(10 * front + u32::from(last))
}

/// Returns the number below 10,000 that the four bytes of `digits` write.
///
/// Returns `None` if a byte is not a digit.
///
/// ```
/// read_four([b'2', b'0', b'2', b'4']) // Some(2024)
/// ```
#[inline]
pub fn read_four(digits: [u8; 4]) -> Option<u32>
    ensures some { IfSome result (λ n. (n < 10_000) × (all_digits 4 n ≡ digits)) }
    ensures every { (n : ℕ) → n < 10_000 → all_digits 4 n ≡ digits → result ≡ Some n }
{
    let [thousands, hundreds, tens, ones] = digits;
    let front = read_two(thousands, hundreds)?;
    let back = read_two(tens, ones)?;
    Some(100 * front + back)
}

// The number that so many digits write, if the bytes are digits.
#[inline]
pub(crate) fn read_all(text: &[u8]) -> Option<u64>
    requires { length text.now ≤ 18 }
    ensures some { IfSome result (λ n.
        (n < 10 ^ length text.now) × (all_digits (length text.now) n ≡ text.now)) }
    ensures every { (n : ℕ) → n < 10 ^ length text.now → all_digits (length text.now) n ≡ text.now
        → result ≡ Some n }
{
    value_of_all(text)
}

// What the bytes write, if they are digits.
#[inline]
pub(crate) fn value_of_all(text: &[u8]) -> Option<u64>
    requires { length text.now ≤ 18 }
    ensures { SomeIff result (AllDigits 10 text.now) (digits_value 10 text.now) }
{
    let (value, len) = leading_digits(text);
    if len < text.len() {
        return None;
    }
    Some(value)
}

//! Numbers without a sign, of a whole text.
ghost use Rattle.std.specs.Prelude.{◌≡◌, ◌≤◌, ◌<◌, ◌-◌, ◌^◌, min, IfSome};
ghost use Rattle.std.specs.Char.{is_ascii_digit};
ghost use Rattle.std.specs.List.{list_all};
ghost use Rattle.std.specs.Option.{option_map};
ghost use Rattle.chrono_text.specs.Numbers.{are_digits, count_of, digits_of, natural_of};

use crate::read::front::leading_digits;

// The greatest `u32`.
const MOST_COUNT: u64 = 4_294_967_295;

/// Returns the number that all of `text` writes, in one digit or more, of which there are at most `most`.
///
/// Returns `None` if a byte is not a digit, or there are none or more of them. Requires `most` to be at most 9.
///
/// ```
/// read_digits(b"07", 2) // Some(7)
/// read_digits(b"107", 2) // None
/// ```
#[inline]
#[tactic(auto, unfolding(crate::specs::Numbers::digits_of))]
pub fn read_digits(text: &[u8], most: usize) -> Option<u32>
    requires { most ≤ 9 }
    ensures value { result ≡ digits_of most text.now }
    ensures small { IfSome result (λ n. n < 10 ^ most) }
{
    if text.len() > most {
        return None;
    }
    let value = natural(text)?;
    Some(value as u32)
}

/// Returns the number below 2^32 that all of `text` writes, in one digit or more.
///
/// Returns `None` if a byte is not a digit, there are none, or the number is larger.
///
/// ```
/// read_count(b"4294967295") // Some(4294967295)
/// read_count(b"4294967296") // None
/// ```
#[tactic(auto, unfolding(crate::specs::Numbers::count_of))]
pub fn read_count(text: &[u8]) -> Option<u32>
    ensures { result ≡ count_of text.now }
{
    let value = natural(text)?;
    if value > MOST_COUNT {
        return None;
    }
    Some(value as u32)
}

/// Returns whether `text` is one digit or more, each from `0` to `9`.
///
/// ```
/// are_digits(b"07") // true
/// are_digits(b"-7") // false
/// are_digits(b"") // false
/// ```
pub fn are_digits(text: &[u8]) -> bool
    ensures { result ≡ are_digits text.now }
{
    !text.is_empty() && are_all_digits(text)
}

// Whether each byte is a digit.
fn are_all_digits(text: &[u8]) -> bool
    ensures { result ≡ list_all is_ascii_digit text.now }
{
    text.iter().all(|byte| byte.is_ascii_digit())
}

// The number that all of the text writes. The greatest `u64` stands for all that are larger.
#[inline]
fn natural(text: &[u8]) -> Option<u64>
    ensures { result ≡ option_map (min (2 ^ 64 - 1)) (natural_of text.now) }
{
    let (value, len) = leading_digits(text);
    if len == 0 || len < text.len() {
        return None;
    }
    Some(value)
}

//! Numbers read from the texts that print them.
ghost use Rattle.std.specs.Prelude.{◌≡◌, ◌≢◌, ◌<◌, ◌≤◌, ◌^◌, ℕ, Some, IfSome, IsTrue, ◌↔◌, length, slice_index};
ghost use Rattle.std.specs.Fmt.{decimal};
ghost use Rattle.std.specs.Str.{byte};

use crate::read::places::value_of_all;

/// Returns the number that `text` writes in decimal.
///
/// Returns `None` if `text` is not such a text: if it has other bytes than digits, a leading 0 before other digits, or more
/// than 18 digits.
///
/// ```
/// read_decimal(b"366") // Some(366)
/// read_decimal(b"0366") // None
/// ```
#[inline]
pub fn read_decimal(text: &[u8]) -> Option<u64>
    ensures some { IfSome result (λ n. (n < 10 ^ 18) × (decimal n ≡ text.now)) }
    // Whatever number has this text is the answer.
    ensures every { (n : ℕ) → n < 10 ^ 18 → decimal n ≡ text.now → result ≡ Some n }
{
    if !has_decimal_form(text) {
        return None;
    }
    value_of_all(text)
}

// Whether there are 1 to 18 bytes, with no 0 in front of others.
#[inline]
fn has_decimal_form(text: &[u8]) -> bool
    ensures { IsTrue result ↔ ((0 < length text.now) × (length text.now ≤ 18)
        × (1 < length text.now → slice_index text.now 0 ≢ byte "0")) }
{
    match text {
        [] => false,
        [_] => true,
        [first, ..] => *first != b'0' && text.len() <= 18,
    }
}

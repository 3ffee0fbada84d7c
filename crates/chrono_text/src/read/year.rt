//! Years.
ghost use Rattle.std.specs.Prelude.{◌≡◌, ◌<◌, ◌≤◌, ℕ, ℤ, pos, neg_ℤ, Some, IfSome, unsigned_abs};
ghost use Rattle.std.specs.Option.{SomeIff};
ghost use Rattle.chrono_text.specs.Text.{year_digits, year_text};

use crate::read::decimal::read_decimal;
use crate::read::places::read_four;

/// Returns the year of at most six digits that `text` writes, in the form of ISO 8601.
///
/// A year from 0 to 9999 has four digits and no sign. Any other year has a sign and four to six digits. Five or six
/// digits do not begin with 0. Returns `None` for any other text.
///
/// ```
/// read_year(b"2024") // Some(2024)
/// read_year(b"+12024") // Some(12024)
/// read_year(b"+2024") // None
/// ```
#[inline(always)]
pub fn read_year(text: &[u8]) -> Option<i32>
    ensures some { IfSome result (λ y. (unsigned_abs y < 1_000_000) × (year_text y ≡ text.now)) }
    // Whatever year has this text is the answer.
    ensures every { (y : ℤ) → unsigned_abs y < 1_000_000 → year_text y ≡ text.now
        → result ≡ Some y }
{
    match text {
        [b'-', size @ ..] => year_before_0(year_size(size)?),
        [b'+', size @ ..] => year_after_9999(year_size(size)?),
        [thousands, hundreds, tens, ones] => {
            let year = read_four([*thousands, *hundreds, *tens, *ones])?;
            Some(year as i32)
        }
        _ => None,
    }
}

// The year of this size before year 0.
#[inline]
fn year_before_0(size: u32) -> Option<i32>
    requires { size < 1_000_000 }
    ensures { SomeIff result (0 < size) (neg_ℤ (pos size)) }
{
    if size > 0 { Some(-(size as i32)) } else { None }
}

// The year of this size after 9999.
#[inline]
fn year_after_9999(size: u32) -> Option<i32>
    requires { size < 1_000_000 }
    ensures { SomeIff result (10_000 ≤ size) (pos size) }
{
    if size >= 10_000 {
        Some(size as i32)
    } else {
        None
    }
}

// The size of a year that a sign stands before, if it has at most six digits.
#[inline]
fn year_size(text: &[u8]) -> Option<u32>
    ensures some { IfSome result (λ n. (n < 1_000_000) × (year_digits n ≡ text.now)) }
    ensures every { (n : ℕ) → n < 1_000_000 → year_digits n ≡ text.now → result ≡ Some n }
{
    if let [thousands, hundreds, tens, ones] = text {
        return read_four([*thousands, *hundreds, *tens, *ones]);
    }
    let size = read_decimal(text)?;
    if 10_000 <= size && size < 1_000_000 {
        Some(size as u32)
    } else {
        None
    }
}

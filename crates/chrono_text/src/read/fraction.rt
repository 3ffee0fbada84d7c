//! Fractions of a second.
ghost use Rattle.std.specs.Prelude.{◌≡◌, ◌<◌, ◌∷◌, [], ◌++◌, codes, ℕ, Some, IfSome};
ghost use Rattle.chrono_text.specs.Text.{nanos_per_second};
ghost use Rattle.chrono_text.specs.Fractions.{IsFractionText, IsPointText};

use crate::read::places::{read_all, read_three};

// A nanosecond stands in the last of these places behind the point.
const MOST_PLACES: usize = 9;

/// Returns the nanoseconds that `text` writes: a point and one to nine digits (ISO 8601 decimal fraction), or nothing
/// for 0.
///
/// Returns `None` for any other text.
///
/// ```
/// read_fraction(b".5") // Some(500000000)
/// read_fraction(b"") // Some(0)
/// read_fraction(b"5") // None
/// ```
#[inline]
pub fn read_fraction(text: &[u8]) -> Option<u32>
    ensures some { IfSome result (λ n. (n < nanos_per_second) × IsFractionText text.now n) }
    // Whatever number of nanoseconds has this text is the answer.
    ensures every { (n : ℕ) → IsFractionText text.now n → result ≡ Some n }
{
    match text {
        [] => Some(0),
        // The usual three digits need no loop.
        [b'.', hundreds, tens, ones] => read_millis(*hundreds, *tens, *ones),
        [b'.', digits @ ..] => read_places(digits),
        _ => None,
    }
}

// The nanoseconds that three digits write behind a point.
#[inline]
fn read_millis(hundreds: u8, tens: u8, ones: u8) -> Option<u32>
    ensures some { IfSome result (λ n. (n < nanos_per_second) × IsPointText (codes "." ++ hundreds ∷ tens ∷ ones ∷ []) n) }
    ensures every { (n : ℕ) → IsPointText (codes "." ++ hundreds ∷ tens ∷ ones ∷ []) n → result ≡ Some n }
{
    let millis = read_three(hundreds, tens, ones)?;
    Some(millis * 1_000_000)
}

// The nanoseconds that one to nine digits write behind a point.
#[inline]
fn read_places(digits: &[u8]) -> Option<u32>
    ensures some { IfSome result (λ n. (n < nanos_per_second) × IsPointText (codes "." ++ digits.now) n) }
    ensures every { (n : ℕ) → IsPointText (codes "." ++ digits.now) n → result ≡ Some n }
{
    if digits.is_empty() || digits.len() > MOST_PLACES {
        return None;
    }
    let count = read_all(digits)?;
    Some(count as u32 * 10u32.pow((MOST_PLACES - digits.len()) as u32))
}

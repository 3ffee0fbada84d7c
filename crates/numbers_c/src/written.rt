//! A text that is written over a caller's bytes.
ghost use Rattle.std.specs.Prelude.{◌≡◌, ◌≤◌, Some, length};
ghost use Rattle.numbers_c.specs.Answers.{count_or_none};
ghost use Rattle.numbers_c.specs.Texts.{length_of, overwritten, text_within};

use crate::answers::NONE;

/// Writes a text over the first bytes, if they are enough, and returns how many it took.
///
/// Returns [`NONE`](crate::NONE) if they are not enough. Requires that the text has at most 1,000 bytes.
///
/// ```
/// let mut bytes = *b"....";
/// write_over(&mut bytes, b"abc") // 3
/// bytes // [97, 98, 99, 46]
/// ```
#[inline]
pub fn write_over(bytes: &mut [u8], text: &[u8]) -> i32
    requires { length text.now ≤ 1000 }
    ensures length { result ≡ count_or_none (length_of (text_within (length bytes.old) (Some text.now))) }
    ensures bytes { bytes.new ≡ overwritten (text_within (length bytes.old) (Some text.now)) bytes.old }
{
    let end = text.len();
    if bytes.len() < end {
        return NONE;
    }
    bytes[..end].copy_from_slice(text);
    end as i32
}

//! The version of the libraries for C.
ghost use Rattle.std.specs.Prelude.{◌≡◌, Some, length};
ghost use Rattle.numbers_c.specs.Answers.{count_or_none};
ghost use Rattle.numbers_c.specs.Texts.{length_of, overwritten, text_within, version};

use crate::written::write_over;

/// Writes the version over the first bytes, if they are enough, and returns how many it took.
///
/// Returns [`NONE`](crate::NONE) if they are not enough.
///
/// ```
/// let mut bytes = *b"..........";
/// write_version(&mut bytes) // 9
/// ```
#[inline]
pub fn write_version(bytes: &mut [u8]) -> i32
    ensures length { result ≡ count_or_none (length_of (text_within (length bytes.old) (Some version))) }
    ensures bytes { bytes.new ≡ overwritten (text_within (length bytes.old) (Some version)) bytes.old }
{
    write_over(bytes, b"0.2.0-dev")
}

//! The version of the library.
ghost use Rattle.std.specs.Prelude.{◌≡◌, Some, length};
ghost use Rattle.numbers_c.specs.Answers.{count_or_none};
ghost use Rattle.numbers_c.specs.Texts.{length_of, overwritten, text_within, version};

use numbers_c::write_version;

/// Writes the version over the first bytes, if they are enough, and returns how many it took.
#[unsafe(no_mangle)]
pub extern "C" fn calendar_version(text: &mut [u8]) -> i32
    ensures length { result ≡ count_or_none (length_of (text_within (length text.old) (Some version))) }
    ensures bytes { text.new ≡ overwritten (text_within (length text.old) (Some version)) text.old }
{
    write_version(text)
}

//! Words of letters, digits and signs.
ghost use Rattle.std.specs.Prelude.{◌≡◌, ◌≤◌, length};
ghost use Rattle.std.specs.List.{prefix_len};
ghost use Rattle.chrono_text.specs.Lists.{is_of_word};

/// Returns how many bytes in front are letters, digits, `+` or `-`.
///
/// Words of RFC 2822 are such bytes, and so are POSIX names of time zones in angle brackets.
///
/// ```
/// word_len(b"+0100 (CET)") // 5
/// ```
pub fn word_len(text: &[u8]) -> usize
    ensures value { result ≡ prefix_len is_of_word text.now }
    ensures within { result ≤ length text.now }
{
    let mut len = 0;
    while len < text.len() {
        if !is_of_word(text[len]) {
            return len;
        }
        len += 1;
    }
    len
}

// Whether a byte is a letter, a digit or a sign.
#[inline]
fn is_of_word(byte: u8) -> bool
    ensures { result ≡ is_of_word byte }
{
    byte.is_ascii_alphanumeric() || (byte == b'+' || byte == b'-')
}

//! Classes of bytes, and how many of one a text begins with.
ghost use Rattle.std.specs.Prelude.{◌≡◌, ◌≤◌, length};
ghost use Rattle.chrono_pattern.specs.Progress.{behind_blanks, class_len, is_of};

// A class of bytes.
#[derive(Clone, Copy)]
pub(crate) enum Class {
    Blank,
    Digit,
    // A colon or a blank.
    Gap,
    // All but blanks.
    Shown,
}

// Whether a byte is of a class.
#[inline(always)]
pub(crate) fn is_of(class: Class, byte: u8) -> bool
    ensures { result ≡ is_of class byte }
{
    match class {
        Class::Blank => matches!(byte, b' ' | b'\t'..=b'\r'),
        Class::Digit => byte.is_ascii_digit(),
        Class::Gap => matches!(byte, b':' | b' ' | b'\t'..=b'\r'),
        Class::Shown => !matches!(byte, b' ' | b'\t'..=b'\r'),
    }
}

// How many bytes of a class a text begins with.
#[inline(always)]
pub(crate) fn class_len(class: Class, text: &[u8]) -> usize
    ensures value { result ≡ class_len class text.now }
    ensures within { result ≤ length text.now }
{
    let mut len = 0;
    while len < text.len() {
        if !is_of(class, text[len]) {
            return len;
        }
        len += 1;
    }
    len
}

// The text behind the blanks in front.
#[inline(always)]
pub(crate) fn skip_blanks(text: &[u8]) -> &[u8]
    ensures { result.now ≡ behind_blanks text.now }
{
    &text[class_len(Class::Blank, text)..]
}

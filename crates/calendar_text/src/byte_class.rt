//! Classes of bytes, and how many of one a text begins with.
ghost use Rattle.std.specs.Prelude.{◌≡◌, ◌≤◌, length};
ghost use Rattle.std.specs.List.{prefix_len};
ghost use Rattle.calendar_text.specs.Lines.{has_class};

// A class of bytes.
#[derive(Clone, Copy)]
pub(crate) enum ByteClass {
    // Bytes of a parameter's value that has no quotation marks.
    Safe,
    // Bytes of a rule.
    Rule,
}

// Whether a byte is of a class.
#[tactic(auto, unfolding(crate::specs::Lines::has_class))]
fn is_of(class: ByteClass, byte: u8) -> bool
    ensures { result ≡ has_class class byte }
{
    match class {
        ByteClass::Safe => {
            (byte >= 32 || byte == b'\t')
                && !(byte == b'"'
                    || (byte == b',' || (byte == b':' || (byte == b';' || byte == 127))))
        }
        ByteClass::Rule => {
            byte.is_ascii_alphanumeric()
                || (byte == b'='
                    || (byte == b';' || (byte == b',' || (byte == b'+' || byte == b'-'))))
        }
    }
}

// How many bytes of a class a text begins with.
pub(crate) fn class_len(class: ByteClass, text: &[u8]) -> usize
    ensures value { result ≡ prefix_len (has_class class) text.now }
    ensures within { result ≤ length text.now }
{
    let mut len = 0;
    while len < text.len() {
        if !is_of(class, text[len]) {
            return len;
        }
        len += 1;
    }
    len
}

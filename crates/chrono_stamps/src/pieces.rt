//! Pieces of texts that may be shorter than wanted.
ghost use Rattle.std.specs.Prelude.{◌≡◌, ◌≤◌, length, take, drop};

// So many first bytes of a text, or all of it.
pub(crate) fn first_bytes(text: &[u8], count: usize) -> &[u8]
    ensures front { result.now ≡ take count text.now }
    ensures short { length result.now ≤ count }
{
    &text[..text.len().min(count)]
}

// What stands behind so many bytes of a text.
pub(crate) fn behind_bytes(text: &[u8], count: usize) -> &[u8]
    ensures behind { result.now ≡ drop count text.now }
    ensures within { length result.now ≤ length text.now }
{
    &text[text.len().min(count)..]
}

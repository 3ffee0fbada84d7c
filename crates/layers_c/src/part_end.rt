//! Where a wrong part of a text ends.
ghost use Rattle.std.specs.Prelude.{◌≡◌, ◌≤◌, length};
ghost use Rattle.layers_c.specs.Faults.{IsPartEnd, is_behind_part};

// The place of the first byte behind a part that begins at a byte.
pub(crate) fn part_end(text: &[u8], from: usize) -> usize
    requires { from ≤ length text.now }
    ensures { IsPartEnd text.now from result }
{
    let mut end = from;
    while end < text.len() {
        if is_behind_part(text[end]) {
            return end;
        }
        end += 1;
    }
    end
}

// Whether a byte stands behind a part: a comma, a semicolon or a blank.
#[inline]
#[tactic(auto, unfolding(crate::specs::Faults::is_behind_part))]
fn is_behind_part(byte: u8) -> bool
    ensures { result ≡ is_behind_part byte }
{
    byte == b' ' || byte == b'\t' || byte == b',' || byte == b';'
}

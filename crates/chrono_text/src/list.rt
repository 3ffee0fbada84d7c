//! Texts that list items between separators, and places in texts.
ghost use Rattle.std.specs.Prelude.{◌≡◌, ◌≤◌, ◌<◌, ◌+◌, ◌==◌, ◌∷◌, [], ℕ, List, Option, length, true, false, IfSome, IfNone};
ghost use Rattle.std.specs.List.{after_first, before_first, position_or_len};
ghost use Rattle.std.specs.Str.{str_eq_ignore_ascii_case};
ghost use Rattle.chrono_text.specs.Lists.{begins_alike, part_place, pieces, pieces_behind, stands_in, through};

/// Returns where the first byte `byte` of `text` stands, or the length of `text` if there is none.
///
/// ```
/// byte_place(b"6,7", b',') // 1
/// byte_place(b"67", b',') // 2
/// ```
#[inline]
pub fn byte_place(text: &[u8], byte: u8) -> usize
    ensures within { result ≤ length text.now }
    ensures place { position_or_len (λ x. x == byte) text.now ≡ result }
{
    let mut place = 0;
    while place < text.len() {
        if text[place] == byte {
            return place;
        }
        place += 1;
    }
    place
}

/// Returns where in `text` the byte stands that is `bytes` bytes behind the beginning of `part`.
///
/// `part` ends `text`. The place is counted in bytes from 0.
///
/// ```
/// part_place(b"ab;cd", b"cd", 0) // 3
/// part_place(b"ab;cd", b"cd", 1) // 4
/// ```
#[inline]
pub fn part_place(text: &[u8], part: &[u8], bytes: usize) -> usize
    ensures place { result ≡ part_place text.now part.now bytes }
    ensures within { result ≤ length text.now }
{
    text.len().saturating_sub(part.len().saturating_sub(bytes))
}

/// Returns what stands before the first byte `byte` of `text`, and what stands behind it.
///
/// Returns `None` if there is no such byte.
///
/// ```
/// split_at_byte(b"6,7,8", b',') // Some(([54], [55, 44, 56]))
/// ```
#[inline]
pub fn split_at_byte(text: &[u8], byte: u8) -> Option<(&[u8], &[u8])>
    ensures front { IfSome result (λ parts. parts.0.now ≡ before_first (λ x. x == byte) text.now) }
    ensures back { IfSome result (λ parts. parts.1.now ≡ after_first (λ x. x == byte) text.now) }
    ensures some { IfSome result (λ _. stands_in byte text.now ≡ true) }
    ensures none { IfNone result (stands_in byte text.now ≡ false) }
    ensures pieces { IfSome result (λ parts. pieces byte text.now ≡ parts.0.now ∷ pieces byte parts.1.now) }
    ensures one_piece { IfNone result (pieces byte text.now ≡ text.now ∷ []) }
    ensures shorter { IfSome result (λ parts. length parts.1.now < length text.now) }
{
    let place = byte_place(text, byte);
    if place == text.len() {
        return None;
    }
    Some((&text[..place], &text[place + 1..]))
}

/// Returns the text up to the first byte `separator`, and the rest, in front of which that byte stands.
///
/// The rest is empty if there is no such byte. Both together are as long as `text`.
///
/// ```
/// first_piece(b"6,7", b',') // ([54], [44, 55])
/// ```
#[inline]
pub fn first_piece(text: &[u8], separator: u8) -> (&[u8], &[u8])
    ensures pieces { pieces separator text.now ≡ result.0.now ∷ pieces_behind separator result.1.now }
    ensures whole { length result.0.now + length result.1.now ≡ length text.now }
    ensures front { result.0.now ≡ before_first (λ x. x == separator) text.now }
{
    text.split_at(byte_place(text, separator))
}

/// Returns whether two texts are the same but for the case of their ASCII letters.
///
/// ```
/// same_but_for_case(b"Monday", b"MONDAY") // true
/// ```
#[inline]
pub fn same_but_for_case(text: &[u8], other: &[u8]) -> bool
    ensures { result ≡ str_eq_ignore_ascii_case text.now other.now }
{
    text.eq_ignore_ascii_case(other)
}

/// Returns whether `text` begins with `front`, but for the case of their ASCII letters.
///
/// ```
/// begins_but_for_case(b"tz=UTC", b"TZ=") // true
/// begins_but_for_case(b"T", b"TZ=") // false
/// ```
#[inline]
pub fn begins_but_for_case(text: &[u8], front: &[u8]) -> bool
    ensures { result ≡ begins_alike front.now text.now }
{
    same_but_for_case(&text[..front.len().min(text.len())], front)
}

/// A reader of the items of a list, such as `1,15`. It makes an `L` of the items, one after another.
pub trait ItemReader<L> {
    // What an item makes of the list before it; None if it is no item.
    ghost step: { Self → L → List ℕ → Option L };

    /// Returns the list `list` with the item that `item` writes, or `None` if that is no item.
    fn with_item(&self, list: L, item: &[u8]) -> Option<L>
        ensures { result ≡ step self.now list item.now };
}

/// Returns the list whose items `text` writes, with the byte `separator` between them. `empty` is the list of no item.
///
/// Returns `None` if a text between separators is no item.
pub fn read_list<L: Drop, R: ItemReader<L>>(
    reader: &R,
    empty: L,
    text: &[u8],
    separator: u8,
) -> Option<L>
    ensures { result ≡ through (R.step reader.now) empty (pieces separator text.now) }
{
    let mut list = empty;
    let mut rest = text;
    while let Some((item, behind)) = split_at_byte(rest, separator) {
        list = reader.with_item(list, item)?;
        rest = behind;
    }
    reader.with_item(list, rest)
}

//! The kinds of local time of a file.
ghost use Rattle.std.specs.Prelude.{◌≡◌, ℕ, ℤ, Bool, List, Some, IfSome, IsSomeAnd};
ghost use Rattle.zone_file.specs.Kinds.{IsKind, IsKindOffset, IsNameAt, byte_of_dst};

use crate::zone_file::ZoneFile;
use chrono_text::split_at_byte;
use zone_table::FixedOffset;

// How many bytes a kind has.
const KIND_LEN: usize = 6;

/// A kind of local time: its offset, whether it is daylight time, and its name.
#[derive(Clone, Copy, Debug, PartialEq, Eq)]
pub struct LocalTimeKind<'a> {
    /// How far local time is ahead of UTC.
    pub offset: FixedOffset,
    /// Whether it is daylight time.
    pub is_dst: bool,
    /// Its name, such as `CEST`.
    pub name: &'a [u8],
}

impl<'a> ZoneFile<'a> {
    /// Returns the kind at a place, counted from 0. The kind 0 holds before the first time.
    ///
    /// Returns `None` if the file has no such kind, if its offset is a day or more, if its byte of daylight time is neither 0 nor 1,
    /// or if its name has no end.
    ///
    /// ```
    /// let file = ZoneFile { version: 0, times: &[], places: &[], kinds: &[0, 0, 14, 16, 1, 0], names: b"BST\0", footer: &[] };
    /// let kind = file.kind(0)?;
    /// (kind.offset, kind.is_dst, kind.name) // (+01:00, true, [66, 83, 84])
    /// file.kind(1) // None
    /// ```
    pub fn kind(&self, place: u8) -> Option<LocalTimeKind<'a>>
        ensures read { IfSome result (λ it. IsKind self.now.kinds.now self.now.names.now place it.offset it.is_dst it.name.now) }
        ensures every { (offset : ℤ) (is_dst : Bool) (name : List ℕ) → IsKind self.now.kinds.now self.now.names.now place offset is_dst name
            → IsSomeAnd result (λ it. (it.offset ≡ offset) × (it.is_dst ≡ is_dst) × (it.name.now ≡ name)) }
    {
        let offset = kind_offset(self.kinds, place)?;
        let start = usize::from(place) * KIND_LEN;
        let is_dst = dst_of_byte(self.kinds[start + 4])?;
        let name = name_at(self.names, self.kinds[start + 5])?;
        Some(LocalTimeKind {
            offset,
            is_dst,
            name,
        })
    }
}

// The offset of the kind at a place.
pub(crate) fn kind_offset(kinds: &[u8], place: u8) -> Option<FixedOffset>
    ensures read { IfSome result (λ x. IsKindOffset kinds.now place x) }
    ensures every { (x : ℤ) → IsKindOffset kinds.now place x → result ≡ Some x }
{
    let start = usize::from(place) * KIND_LEN;
    if kinds.len() < start + KIND_LEN {
        return None;
    }
    let (bytes, _) = kinds[start..].split_first_chunk::<4>().unwrap();
    FixedOffset::east_opt(i32::from_be_bytes(*bytes))
}

// Whether a byte says that a kind is daylight time.
fn dst_of_byte(byte: u8) -> Option<bool>
    ensures read { IfSome result (λ it. byte ≡ byte_of_dst it) }
    ensures every { (is_dst : Bool) → byte ≡ byte_of_dst is_dst → result ≡ Some is_dst }
{
    match byte {
        0 => Some(false),
        1 => Some(true),
        _ => None,
    }
}

// The name that begins at a byte.
fn name_at(names: &[u8], at: u8) -> Option<&[u8]>
    ensures read { IfSome result (λ it. IsNameAt names.now at it.now) }
    ensures every { (name : List ℕ) → IsNameAt names.now at name → IsSomeAnd result (λ it. it.now ≡ name) }
{
    let (_, tail) = names.split_at(usize::from(at).min(names.len()));
    let (name, _) = split_at_byte(tail, 0)?;
    Some(name)
}

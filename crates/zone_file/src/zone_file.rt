//! `ZoneFile`: the parts of a TZif file.
ghost use Rattle.std.specs.Prelude.{◌≡◌, ◌≤◌, ◌++◌, ◌∷◌, ℕ, List, [], IfSome, IfErr, IfOk, IsOkAnd, IsSomeAnd, length};
ghost use Rattle.zone_file.specs.ZoneFiles.{IsDataBlock, IsFirstVersion, IsLaterVersion, IsZoneFile, is_later};

use crate::block::{Block, are_counts, leap_count, read_block};
use crate::error::{ZoneFileError, ZoneFileFault, error_at};

/// The parts of a TZif file, as slices of its bytes.
///
/// ```
/// let file = ZoneFile { version: 0, times: &[], places: &[], kinds: &[0; 6], names: b"UTC\0", footer: &[] };
/// file.kinds.len() // 6
/// ```
#[derive(Clone, Copy, Debug, PartialEq, Eq)]
pub struct ZoneFile<'a> {
    /// The byte of the version: 0 for version 1, and the digit of each later one.
    pub version: u8,
    /// The seconds at which the clock is set: eight bytes each, or four in version 1, the highest first.
    pub times: &'a [u8],
    /// For each of them, a byte with the place of a kind of local time.
    pub places: &'a [u8],
    /// The kinds of local time, six bytes each: the offset, whether it is daylight time, and where its name begins.
    pub kinds: &'a [u8],
    /// The names, each with a NUL behind it.
    pub names: &'a [u8],
    /// The text of the rule that holds after the last time, for `zone_text::read`. It may be empty.
    pub footer: &'a [u8],
}

/// Reads the parts of a TZif file of version 1 to 4 (RFC 9636).
///
/// Of a file of a later version than 1, the parts are those of its second block, with times of 64 bits. Both blocks name the same
/// version. The kinds, the names and the text of the footer are not looked into.
///
/// If `bytes` are no such file, returns what is wrong first, and where. A file with leap seconds is an error, since its seconds are
/// not those of POSIX. The contract does not say which fault is named.
///
/// ```
/// let mut bytes = [0; 54];
/// bytes[..5].copy_from_slice(b"TZif\0");
/// bytes[39] = 1;
/// bytes[43] = 4;
/// read(&bytes).ok()?.names // [0, 0, 0, 0]
/// bytes[31] = 1;
/// read(&bytes).err() // Some(ZoneFileError { fault: CutOff, byte: 44 })
/// ```
pub fn read(bytes: &[u8]) -> Result<ZoneFile<'_>, ZoneFileError>
    ensures read { IfOk result (λ it. IsZoneFile bytes.now it.version it.times.now it.places.now it.kinds.now it.names.now it.footer.now) }
    // Whatever parts these bytes have are the answer: no file is refused, and none has two meanings.
    ensures every { (version : ℕ) (times places kinds names footer : List ℕ)
        → IsZoneFile bytes.now version times places kinds names footer
        → IsOkAnd result (λ it. (it.version ≡ version) × (it.times.now ≡ times) × (it.places.now ≡ places)
        × (it.kinds.now ≡ kinds) × (it.names.now ≡ names) × (it.footer.now ≡ footer)) }
    ensures error { IfErr result (λ e. e.byte ≤ length bytes.now) }
{
    let first = read_block(bytes, bytes, 4)?;
    let version = first.header[4];
    if version == 0 {
        return first_version(bytes);
    }
    if !is_later(version) {
        return Err(error_at(ZoneFileFault::UnknownVersion, bytes, bytes));
    }
    later_version(bytes, first.rest, version)
}

// Whether a byte is of a version from 2 to 4.
fn is_later(version: u8) -> bool
    ensures { result ≡ is_later version }
{
    b'2' <= version && version <= b'4'
}

// The parts of a file of version 1.
fn first_version(bytes: &[u8]) -> Result<ZoneFile<'_>, ZoneFileError>
    ensures read { IfOk result (λ it. IsFirstVersion bytes.now it.times.now it.places.now it.kinds.now it.names.now it.footer.now) }
    ensures version { IfOk result (λ it. it.version ≡ 0) }
    ensures every { (times places kinds names footer : List ℕ) → IsFirstVersion bytes.now times places kinds names footer
        → IsOkAnd result (λ it. (it.version ≡ 0) × (it.times.now ≡ times) × (it.places.now ≡ places)
        × (it.kinds.now ≡ kinds) × (it.names.now ≡ names) × (it.footer.now ≡ footer)) }
    ensures error { IfErr result (λ e. e.byte ≤ length bytes.now) }
{
    let block = read_data_block(bytes, bytes, 4, 0)?;
    if !block.rest.is_empty() {
        return Err(error_at(ZoneFileFault::WrongFooter, bytes, block.rest));
    }
    Ok(ZoneFile {
        version: 0,
        times: block.times,
        places: block.places,
        kinds: block.kinds,
        names: block.names,
        // It is empty.
        footer: block.rest,
    })
}

// The parts of a file of a later version, which stand behind its first block.
fn later_version<'a>(
    whole: &[u8],
    bytes: &'a [u8],
    version: u8,
) -> Result<ZoneFile<'a>, ZoneFileError>
    ensures read { IfOk result (λ it. IsLaterVersion version bytes.now it.times.now it.places.now it.kinds.now it.names.now it.footer.now) }
    ensures version { IfOk result (λ it. it.version ≡ version) }
    ensures every { (times places kinds names footer : List ℕ) → IsLaterVersion version bytes.now times places kinds names footer
        → IsOkAnd result (λ it. (it.version ≡ version) × (it.times.now ≡ times) × (it.places.now ≡ places)
        × (it.kinds.now ≡ kinds) × (it.names.now ≡ names) × (it.footer.now ≡ footer)) }
    ensures error { IfErr result (λ e. e.byte ≤ length whole.now) }
{
    let block = read_data_block(whole, bytes, 8, version)?;
    let Some(footer) = footer_text(block.rest) else {
        return Err(error_at(ZoneFileFault::WrongFooter, whole, block.rest));
    };
    Ok(ZoneFile {
        version,
        times: block.times,
        places: block.places,
        kinds: block.kinds,
        names: block.names,
        footer,
    })
}

// The block in front of the end of a file, if it is of the version and a file may have its counts.
fn read_data_block<'a>(
    whole: &[u8],
    bytes: &'a [u8],
    size: usize,
    version: u8,
) -> Result<Block<'a>, ZoneFileError>
    requires { size ≤ 8 }
    ensures read { IfOk result (λ b. IsDataBlock size version bytes.now b.times.now b.places.now b.kinds.now b.names.now b.rest.now) }
    ensures every { (times places kinds names rest : List ℕ) → IsDataBlock size version bytes.now times places kinds names rest
        → IsOkAnd result (λ b. (b.times.now ≡ times) × (b.places.now ≡ places)
        × (b.kinds.now ≡ kinds) × (b.names.now ≡ names) × (b.rest.now ≡ rest)) }
    ensures error { IfErr result (λ e. e.byte ≤ length whole.now) }
{
    let block = read_block(whole, bytes, size)?;
    if block.header[4] != version {
        return Err(error_at(ZoneFileFault::OtherVersion, whole, bytes));
    }
    if !are_counts(block.header) {
        return Err(error_at(ZoneFileFault::WrongCounts, whole, bytes));
    }
    if leap_count(block.header) != 0 {
        return Err(error_at(ZoneFileFault::LeapSeconds, whole, bytes));
    }
    Ok(block)
}

// The text between two newlines.
fn footer_text(bytes: &[u8]) -> Option<&[u8]>
    ensures read { IfSome result (λ it. 10 ∷ (it.now ++ 10 ∷ []) ≡ bytes.now) }
    ensures every { (text : List ℕ) → 10 ∷ (text ++ 10 ∷ []) ≡ bytes.now → IsSomeAnd result (λ it. it.now ≡ text) }
{
    let (first, tail) = bytes.split_first()?;
    let (last, text) = tail.split_last()?;
    if *first != b'\n' || *last != b'\n' {
        return None;
    }
    Some(text)
}

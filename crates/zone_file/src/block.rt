//! The blocks of a file.
ghost use Rattle.std.specs.Prelude.{◌≡◌, ◌+◌, ◌<◌, ◌≤◌, ◌^◌, ◌++◌, ℕ, List, IfSome, IfErr, IfOk, IsOkAnd, IsSomeAnd, length};
ghost use Rattle.zone_file.specs.Blocks.{IsBlock, IsData, are_counts, are_indicators, count_in, leap_count, trailer_length};

use crate::error::{ZoneFileError, ZoneFileFault, error_at};

// How many bytes a header has.
const HEADER_LEN: usize = 44;

// The first four bytes of a header, `TZif`, as a number.
const MAGIC: usize = 1_415_211_366;

// How many bytes a kind of local time has.
const KIND_LEN: usize = 6;

// The parts of a block, and what stands behind it.
#[derive(Drop)]
pub(crate) struct Block<'a> {
    pub(crate) header: &'a [u8],
    pub(crate) times: &'a [u8],
    pub(crate) places: &'a [u8],
    pub(crate) kinds: &'a [u8],
    pub(crate) names: &'a [u8],
    pub(crate) rest: &'a [u8],
}

// The block in front of the end of a file, of which each time has `size` bytes.
pub(crate) fn read_block<'a>(
    whole: &[u8],
    bytes: &'a [u8],
    size: usize,
) -> Result<Block<'a>, ZoneFileError>
    requires { size ≤ 8 }
    ensures read { IfOk result (λ b. IsBlock size bytes.now b.header.now b.times.now b.places.now b.kinds.now b.names.now b.rest.now) }
    ensures every { (header times places kinds names rest : List ℕ) → IsBlock size bytes.now header times places kinds names rest
        → IsOkAnd result (λ b. (b.header.now ≡ header) × (b.times.now ≡ times) × (b.places.now ≡ places)
        × (b.kinds.now ≡ kinds) × (b.names.now ≡ names) × (b.rest.now ≡ rest)) }
    ensures header { IfOk result (λ b. length b.header.now ≡ 44) }
    ensures error { IfErr result (λ e. e.byte ≤ length whole.now) }
{
    let Some((header, body)) = split_off(bytes, HEADER_LEN) else {
        return Err(error_at(ZoneFileFault::CutOff, whole, bytes));
    };
    if count_in(header, 0) != MAGIC {
        return Err(error_at(ZoneFileFault::NoHeader, whole, bytes));
    }
    match read_data(header, body, size) {
        Some(block) => Ok(block),
        None => Err(error_at(ZoneFileFault::CutOff, whole, body)),
    }
}

// The block of a header and the data behind it.
fn read_data<'a>(header: &'a [u8], body: &'a [u8], size: usize) -> Option<Block<'a>>
    requires size { size ≤ 8 }
    requires header { length header.now ≡ 44 }
    ensures read { IfSome result (λ b. IsData size header.now body.now b.times.now b.places.now b.kinds.now b.names.now b.rest.now) }
    ensures same { IfSome result (λ b. b.header.now ≡ header.now) }
    ensures every { (times places kinds names rest : List ℕ) → IsData size header.now body.now times places kinds names rest
        → IsSomeAnd result (λ b. (b.times.now ≡ times) × (b.places.now ≡ places)
        × (b.kinds.now ≡ kinds) × (b.names.now ≡ names) × (b.rest.now ≡ rest)) }
{
    let times_count = count_in(header, 32);
    let (times, body) = split_off(body, times_count * size)?;
    let (places, body) = split_off(body, times_count)?;
    let (kinds, body) = split_off(body, count_in(header, 36) * KIND_LEN)?;
    let (names, body) = split_off(body, count_in(header, 40))?;
    let (_, rest) = split_off(body, trailer_length(header, size))?;
    Some(Block {
        header,
        times,
        places,
        kinds,
        names,
        rest,
    })
}

// How many bytes stand behind the names.
fn trailer_length(header: &[u8], size: usize) -> usize
    requires size { size ≤ 8 }
    requires header { length header.now ≡ 44 }
    ensures { result ≡ trailer_length size header.now }
{
    count_in(header, 28) * (size + 4) + count_in(header, 24) + count_in(header, 20)
}

// How many leap seconds a header counts.
pub(crate) fn leap_count(header: &[u8]) -> usize
    requires { length header.now ≡ 44 }
    ensures { result ≡ leap_count header.now }
{
    count_in(header, 28)
}

// Whether a header counts what a file may have.
pub(crate) fn are_counts(header: &[u8]) -> bool
    requires { length header.now ≡ 44 }
    ensures { result ≡ are_counts header.now }
{
    let kinds = count_in(header, 36);
    0 < kinds
        && (0 < count_in(header, 40)
            && (are_indicators(count_in(header, 20), kinds)
                && are_indicators(count_in(header, 24), kinds)))
}

// Whether there are so many indicators as kinds, or none.
fn are_indicators(count: usize, kinds: usize) -> bool
    ensures { result ≡ are_indicators count kinds }
{
    count == 0 || count == kinds
}

// The number in four bytes of a header from a place on.
fn count_in(header: &[u8], at: usize) -> usize
    requires within { at + 4 ≤ length header.now }
    ensures value { result ≡ count_in at header.now }
    ensures small { result < 2 ^ 32 }
{
    let (bytes, _) = header[at..].split_first_chunk::<4>().unwrap();
    u32::from_be_bytes(*bytes) as usize
}

// So many bytes in front, and what stands behind them, if there are as many.
fn split_off(bytes: &[u8], len: usize) -> Option<(&[u8], &[u8])>
    ensures read { IfSome result (λ it. (it.0.now ++ it.1.now ≡ bytes.now) × (length it.0.now ≡ len)) }
    ensures every { (front rest : List ℕ) → front ++ rest ≡ bytes.now → length front ≡ len
        → IsSomeAnd result (λ it. (it.0.now ≡ front) × (it.1.now ≡ rest)) }
{
    if bytes.len() < len {
        return None;
    }
    Some(bytes.split_at(len))
}

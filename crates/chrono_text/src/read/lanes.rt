//! Several digits read at once.
ghost use Rattle.std.specs.Prelude.{◌≡◌, ◌-◌, ◌*◌, ◌^◌, ◌<◌, ◌≤◌, ◌+◌, length, take, drop};
ghost use Rattle.std.specs.Str.Parse.{AllDigits, digits_value};
ghost use Rattle.chrono_text.specs.Marks.{marks_of};

use crate::read::single_digit::digit;
use std::simd::prelude::*;

// How many bytes are read together.
pub(crate) const LANES: usize = 16;

// How many bytes of a line are marked at most.
pub(crate) const MARKED: usize = 64;

// As many digits are worth no more than fits a `u32`.
pub(crate) const FEW: usize = 8;

// Powers of ten, the last of them 1, and zeros.
const WEIGHTS: [u32; 16] = [
    10_000_000, 1_000_000, 100_000, 10_000, 1_000, 100, 10, 1, 0, 0, 0, 0, 0, 0, 0, 0,
];

// A bit for each of the 16 bytes from `at` on, the lowest for the first: 1 where the byte is no digit.
#[inline]
pub(crate) fn marks_at(bytes: &[u8], at: usize) -> u64
    requires { at + 16 ≤ length bytes.now }
    ensures { result ≡ marks_of 16 (drop at bytes.now) }
{
    // Counted from the byte behind `9`, and on from 0 after 255, the ten digits come last.
    (u8x16::from_slice(&bytes[at..]) - u8x16::splat(b'9' + 1))
        .simd_lt(u8x16::splat(u8::MAX - 9))
        .to_bitmask()
}

// Returns what the first `len` bytes, which are digits, are worth. No branch depends on `len`: each byte has a weight,
// which is 0 behind the last of them.
#[inline]
pub(crate) fn few_digits_value(bytes: &[u8], len: usize) -> u32
    requires room { 8 ≤ length bytes.now }
    requires few { len ≤ 8 }
    requires digits { AllDigits 10 (take len bytes.now) }
    ensures { result ≡ digits_value 10 (take len bytes.now) }
{
    share(bytes[0], len, 0)
        + share(bytes[1], len, 1)
        + share(bytes[2], len, 2)
        + share(bytes[3], len, 3)
        + share(bytes[4], len, 4)
        + share(bytes[5], len, 5)
        + share(bytes[6], len, 6)
        + share(bytes[7], len, 7)
}

// What the byte at a place adds to the value of so many digits: nothing behind the last of them.
#[inline(always)]
fn share(byte: u8, len: usize, place: usize) -> u32
    requires few { len ≤ 8 }
    requires place { place < 8 }
    ensures inside { place < len → 48 ≤ byte → result ≡ (byte - 48) * 10 ^ (len - 1 - place) }
    ensures behind { len ≤ place → result ≡ 0 }
    ensures small { result < 256 * 10 ^ (7 - place) }
{
    WEIGHTS[FEW - len + place] * u32::from(digit(byte))
}

// What the first `len` bytes are worth, which are digits.
#[inline]
pub(crate) fn digits_value(bytes: &[u8], len: usize) -> u64
    requires room { 16 ≤ length bytes.now }
    requires few { len ≤ 16 }
    requires digits { AllDigits 10 (take len bytes.now) }
    ensures value { result ≡ digits_value 10 (take len bytes.now) }
    ensures small { result < 10 ^ 16 }
{
    if len <= FEW {
        return u64::from(few_digits_value(bytes, len));
    }
    let front = u64::from(few_digits_value(bytes, len - FEW));
    let back = u64::from(few_digits_value(&bytes[len - FEW..], FEW));
    front * 100_000_000 + back
}

//! Bytes that are looked for in a text, sixteen at a time.
ghost use Rattle.std.specs.Prelude.{◌≡◌, ◌≢◌, ◌+◌, ◌<◌, ◌≤◌, ◌∷◌, ◌++◌, ℕ, All, take, length, slice_index, IfSome, IfNone};
ghost use Rattle.chrono_text.specs.Marks.{marks_of};

use crate::line::Line;
use crate::read::lanes::{LANES, MARKED, marks_at};
use std::simd::prelude::*;

/// Returns the bytes before the first `stop`, and those after it.
///
/// Returns `None` if there is no such byte.
///
/// ```
/// split_line(b"one\ntwo", b'\n')?.0.len() // 3
/// ```
#[inline]
pub fn split_line(bytes: &[u8], stop: u8) -> Option<(Line<'_>, &[u8])>
    ensures some { IfSome result (λ parts. bytes.now ≡ parts.0 ++ stop ∷ parts.1.now) }
    ensures first { IfSome result (λ parts. All (λ x. x ≢ stop) parts.0) }
    ensures none { IfNone result (All (λ x. x ≢ stop) bytes.now) }
{
    let (at, marks) = first_at(bytes, stop);
    if at == bytes.len() {
        return None;
    }
    Some((Line::marked(bytes, at, marks), &bytes[at + 1..]))
}

// The index of the first `stop`, or the length where there is none; and the marks of the first bytes that were looked at.
#[inline]
fn first_at(bytes: &[u8], stop: u8) -> (usize, u64)
    ensures within { result.0 ≤ length bytes.now }
    ensures before { All (λ x. x ≢ stop) (take result.0 bytes.now) }
    ensures here { result.0 < length bytes.now → slice_index bytes.now result.0 ≡ stop }
    ensures marks { (n : ℕ) × (n ≤ 64) × (n ≤ length bytes.now) × (result.1 ≡ marks_of n bytes.now) }
{
    let mut at = 0;
    let mut marks = 0;
    while at + LANES <= bytes.len() {
        if at < MARKED {
            marks += marks_at(bytes, at) << at;
        }
        let run = lanes_before(bytes, at, stop);
        if run < LANES {
            return (at + run, marks);
        }
        at += LANES;
    }
    (first_from(bytes, at, stop), marks)
}

// The index of the first `stop`, where the first `start` bytes hold none.
pub(crate) fn first_from(bytes: &[u8], start: usize, stop: u8) -> usize
    requires within { start ≤ length bytes.now }
    requires before { All (λ x. x ≢ stop) (take start bytes.now) }
    ensures within { result ≤ length bytes.now }
    ensures before { All (λ x. x ≢ stop) (take result bytes.now) }
    ensures here { result < length bytes.now → slice_index bytes.now result ≡ stop }
{
    let mut at = start;
    while at < bytes.len() {
        if bytes[at] == stop {
            return at;
        }
        at += 1;
    }
    at
}

// How many of the 16 bytes from `at` on come before the first `stop` among them: all, if there is none.
#[inline]
pub(crate) fn lanes_before(bytes: &[u8], at: usize, stop: u8) -> usize
    requires { at + 16 ≤ length bytes.now }
    ensures within { result ≤ 16 }
    ensures before { (k : ℕ) → at ≤ k → k < at + result → slice_index bytes.now k ≢ stop }
    ensures here { result < 16 → slice_index bytes.now (at + result) ≡ stop }
{
    let stops = u8x16::from_slice(&bytes[at..])
        .simd_eq(u8x16::splat(stop))
        .to_bitmask();
    if stops == 0 {
        LANES
    } else {
        stops.trailing_zeros() as usize
    }
}

//! The bytes of a line, together with the bytes that follow them in the input.
ghost use Rattle.std.specs.Prelude.{◌≡◌, ◌≢◌, ◌+◌, ◌<◌, ◌≤◌, ◌==◌, ℕ, All, List, length, take, drop, slice_index, IfSome};
ghost use Rattle.std.specs.List.{slice_range};
ghost use Rattle.std.specs.Int.{IsInRange};
ghost use Rattle.std.specs.Str.{byte};
ghost use Rattle.chrono_text.specs.Marks.{marks_of};

use crate::read::lanes::{LANES, MARKED};
use crate::search::{first_from, lanes_before};
use std::marker::Model;

/// The bytes of a line from some position on.
///
/// It also knows the bytes that follow in the input, so that code can load a fixed number of bytes at once. They change no
/// result: readers read the line alone.
#[derive(Drop)]
pub struct Line<'a> {
    // The bytes of the whole line, and those that follow.
    bytes: &'a [u8],
    // Where the part that is left begins and ends.
    start: usize,
    end: usize,
    // A bit for each of the first bytes, 64 at most: 1 where it is no digit. Or 0, if they are not marked.
    marks: u64,
}

impl<'a> Model for Line<'a> {
    ghost Value = { List ℕ };

    ghost view = { λ l. slice_range l.bytes.now l.start l.end };

    ghost invariant = { λ l. (l.start ≤ l.end) × (l.end ≤ length l.bytes.now)
        × (l.marks ≢ 0 → (80 ≤ length l.bytes.now)
        × ((n : ℕ) × (n ≤ 64) × (l.marks ≡ marks_of n l.bytes.now))) };
}

impl<'a> Line<'a> {
    /// Returns the line of the first `len` bytes of `bytes`. Requires `bytes` to have that many.
    ///
    /// ```
    /// Line::new(b"one\ntwo", 3).len() // 3
    /// ```
    #[inline]
    pub fn new(bytes: &'a [u8], len: usize) -> Line<'a>
        requires { len ≤ length bytes.now }
        ensures { result ≡ take len bytes.now }
    {
        Line::marked(bytes, len, 0)
    }

    // The line of the first `len` bytes, with the marks of the first bytes, or 0 for no marks.
    #[inline]
    pub(crate) fn marked(bytes: &'a [u8], len: usize, marks: u64) -> Line<'a>
        requires within { len ≤ length bytes.now }
        requires marks { marks ≢ 0 → (n : ℕ) × (n ≤ 64) × (marks ≡ marks_of n bytes.now) }
        ensures { result ≡ take len bytes.now }
    {
        // The digits before a mark are read by sixteen bytes at once.
        let known = bytes.len() >= MARKED + LANES;
        Line {
            bytes,
            start: 0,
            end: len,
            marks: if known { marks } else { 0 },
        }
    }

    /// Returns the line of all of `bytes`, with no bytes after it.
    ///
    /// ```
    /// Line::whole(b"one").len() // 3
    /// ```
    #[inline]
    pub fn whole(bytes: &'a [u8]) -> Line<'a>
        ensures { result ≡ bytes.now }
    {
        Line::new(bytes, bytes.len())
    }

    /// Returns the number of bytes of the line.
    ///
    /// ```
    /// Line::new(b"one\ntwo", 3).len() // 3
    /// ```
    #[inline]
    pub fn len(&self) -> usize
        ensures { result ≡ length self.now }
    {
        self.end - self.start
    }

    /// Returns whether the line has no byte.
    ///
    /// ```
    /// Line::whole(b"").is_empty() // true
    /// ```
    #[inline]
    pub fn is_empty(&self) -> bool
        ensures { result ≡ length self.now == 0 }
    {
        self.start == self.end
    }

    /// Returns the bytes of the line alone.
    ///
    /// ```
    /// Line::new(b"one\ntwo", 3).as_slice() // [111, 110, 101]
    /// ```
    #[inline]
    pub fn as_slice(&self) -> &'a [u8]
        ensures { result.now ≡ self.now }
    {
        &self.bytes[self.start..self.end]
    }

    /// Returns the byte at the position `at`. Requires `at` to be less than the length of the line.
    ///
    /// ```
    /// Line::whole(b"one").byte(0) // 111
    /// ```
    #[inline]
    pub fn byte(&self, at: usize) -> u8
        requires { at < length self.now }
        ensures { result ≡ slice_index self.now at }
    {
        self.bytes[self.start + at]
    }

    /// Returns the number of bytes before the first `stop`, or of all bytes if there is none.
    ///
    /// ```
    /// Line::whole(b"one two").bytes_before(b' ') // 3
    /// ```
    #[inline]
    pub fn bytes_before(&self, stop: u8) -> usize
        ensures within { result ≤ length self.now }
        ensures before { All (λ x. x ≢ stop) (take result self.now) }
        ensures here { result < length self.now → slice_index self.now result ≡ stop }
    {
        if self.start + LANES <= self.bytes.len() {
            let len = lanes_before(self.bytes, self.start, stop);
            if len < LANES {
                return len.min(self.len());
            }
        }
        first_from(self.as_slice(), 0, stop)
    }

    // How many digits stand in front, and the bytes from there on, if a byte that is no digit is marked behind them.
    #[inline(always)]
    pub(crate) fn digits_in_front(&self) -> Option<(usize, &'a [u8])>
        ensures room { IfSome result (λ front. 16 ≤ length front.1.now) }
        ensures long { IfSome result (λ front. length self.now ≤ length front.1.now) }
        ensures starts { IfSome result (λ front. take (length self.now) front.1.now ≡ self.now) }
        ensures digits { IfSome result (λ front. (k : ℕ) → k < front.0
            → IsInRange (byte "0") (byte "9") (slice_index front.1.now k)) }
        ensures end { IfSome result (λ front.
            ¬ (IsInRange (byte "0") (byte "9") (slice_index front.1.now front.0))) }
    {
        if self.start >= MARKED {
            return None;
        }
        let marks = self.marks >> self.start;
        if marks == 0 {
            return None;
        }
        Some((marks.trailing_zeros() as usize, &self.bytes[self.start..]))
    }

    /// Returns the line without its first `count` bytes. Requires the line to have that many.
    ///
    /// ```
    /// Line::whole(b"one").skip(2).len() // 1
    /// ```
    #[inline]
    pub fn skip(&self, count: usize) -> Line<'a>
        requires { count ≤ length self.now }
        ensures { result ≡ drop count self.now }
    {
        Line {
            bytes: self.bytes,
            start: self.start + count,
            end: self.end,
            marks: self.marks,
        }
    }
}

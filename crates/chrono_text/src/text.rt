//! A text of bytes in a buffer of fixed size.
ghost use Rattle.std.specs.Prelude.{◌≡◌, ◌+◌, ◌-◌, ◌<◌, ◌≤◌, ◌++◌, ◌∷◌, ◌↔◌, ℕ, List, [], IsTrue, length, take, if◌then◌else◌};
ghost use Rattle.std.specs.Fmt.{WritesOnOk, WritesStyledOnOk};
ghost use Rattle.std.specs.Str.{IsAscii};

use std::fmt;
use std::marker::Model;
use std::str::from_utf8_unchecked;

/// A text of at most `N` bytes that grows at its end.
#[derive(Debug, Drop)]
pub struct Text<const N: usize> {
    bytes: [u8; N],
    len: usize,
}

impl<const N: usize> Model for Text<N> {
    ghost Value = { List ℕ };

    ghost view = { λ t. take t.len t.bytes };

    ghost invariant = { λ t. (t.len ≤ N) × (length t.bytes ≡ N) };
}

impl<const N: usize> Text<N> {
    /// Returns a text with no byte.
    ///
    /// ```
    /// Text::<8>::new().is_empty() // true
    /// ```
    pub fn new() -> Text<N>
        ensures { result ≡ [] }
    {
        Text {
            bytes: [0; N],
            len: 0,
        }
    }

    /// Returns the bytes, at most `N`.
    ///
    /// ```
    /// let mut text = Text::<8>::new();
    /// text.push(b'a');
    /// text.as_bytes() // [97]
    /// ```
    pub fn as_bytes(&self) -> &[u8]
        ensures value { result.now ≡ self.now }
        ensures fits { length result.now ≤ N }
    {
        &self.bytes[..self.len]
    }

    /// Returns the bytes as a string. Requires them to be ASCII.
    ///
    /// ```
    /// let mut text = Text::<8>::new();
    /// text.push(b'a');
    /// text.as_str() // "a"
    /// ```
    #[inline]
    pub fn as_str(&self) -> &str
        requires { IsAscii self.now }
        ensures { result.now ≡ self.now }
    {
        // SAFETY: ASCII is UTF-8.
        unsafe { from_utf8_unchecked(self.as_bytes()) }
    }

    /// Writes the bytes to the formatter `f` in one piece. Requires them to be ASCII. Width, fill and precision change
    /// nothing.
    #[inline]
    pub fn print<W: fmt::Write>(&self, f: &mut fmt::Formatter<W>) -> fmt::Result
        requires { IsAscii self.now }
        ensures writes { WritesOnOk W.write_str_gives f.old result self.now f.new }
        ensures styled { WritesStyledOnOk W.write_str_gives f.old result self.now f.new }
    {
        f.write_str(self.as_str())
    }

    /// Returns whether the text has no byte.
    ///
    /// ```
    /// Text::<8>::new().is_empty() // true
    /// ```
    pub fn is_empty(&self) -> bool
        ensures { IsTrue result ↔ (self.now ≡ []) }
    {
        self.len == 0
    }

    /// Returns the number of free bytes.
    ///
    /// ```
    /// let mut text = Text::<8>::new();
    /// text.push(b'a');
    /// text.room() // 7
    /// ```
    pub fn room(&self) -> usize
        ensures { length self.now + result ≡ N }
    {
        N - self.len
    }

    /// Removes all bytes.
    ///
    /// ```
    /// let mut text = Text::<8>::new();
    /// text.push(b'a');
    /// text.clear();
    /// text.is_empty() // true
    /// ```
    pub fn clear(&mut self)
        ensures { self.new ≡ [] }
    {
        self.len = 0;
    }

    /// Appends `byte`. Requires a free byte.
    ///
    /// ```
    /// let mut text = Text::<8>::new();
    /// text.push(b'a');
    /// text.as_str() // "a"
    /// ```
    #[inline]
    pub fn push(&mut self, byte: u8)
        requires { length self.old < N }
        ensures { self.new ≡ self.old ++ byte ∷ [] }
    {
        let at = self.len;
        self.bytes[at] = byte;
        self.len = at + 1;
    }

    /// Appends `byte` if `wanted` is true, with no branch. Requires a free byte.
    ///
    /// ```
    /// let mut text = Text::<8>::new();
    /// text.push_if(true, b'a');
    /// text.push_if(false, b'b');
    /// text.as_str() // "a"
    /// ```
    #[inline]
    pub fn push_if(&mut self, wanted: bool, byte: u8)
        requires { length self.old < N }
        ensures { self.new ≡ self.old ++ (if wanted then byte ∷ [] else []) }
    {
        let at = self.len;
        self.bytes[at] = byte;
        self.len = at + usize::from(wanted);
    }

    /// Appends the bytes of `text`. Requires as many free bytes.
    ///
    /// ```
    /// let mut text = Text::<8>::new();
    /// text.push_text(b"abc");
    /// text.as_str() // "abc"
    /// ```
    #[inline]
    pub fn push_text(&mut self, text: &[u8])
        requires { length self.old + length text.now ≤ N }
        ensures { self.new ≡ self.old ++ text.now }
    {
        let at = self.len;
        let end = at + text.len();
        let bytes = &mut self.bytes[..];
        bytes[at..end].copy_from_slice(text);
        self.len = end;
    }

    /// Appends the bytes of `text` if `wanted` is true, with no branch. Requires as many free bytes in either case.
    ///
    /// ```
    /// let mut text = Text::<8>::new();
    /// text.push_text_if(true, *b"abc");
    /// text.push_text_if(false, *b"def");
    /// text.as_str() // "abc"
    /// ```
    #[inline]
    pub fn push_text_if<const M: usize>(&mut self, wanted: bool, text: [u8; M])
        requires { length self.old + M ≤ N }
        ensures { self.new ≡ self.old ++ (if wanted then text.entry else []) }
    {
        // Bytes put one by one become one store. A copy of a slice also asks whether the two overlap.
        let mut put = 0;
        while put < M {
            self.push(text[put]);
            put += 1;
        }
        self.shorten(M * usize::from(!wanted));
    }

    /// Removes the last `count` bytes. Requires the text to have that many.
    ///
    /// ```
    /// let mut text = Text::<8>::new();
    /// text.push_text(b"abc");
    /// text.shorten(2);
    /// text.as_str() // "a"
    /// ```
    #[inline]
    pub fn shorten(&mut self, count: usize)
        requires { count ≤ length self.old }
        ensures { self.new ≡ take (length self.old - count) self.old }
    {
        self.len -= count;
    }

    /// Appends the bytes of `more`, up to the number of free bytes.
    ///
    /// ```
    /// let mut text = Text::<2>::new();
    /// text.push_clipped(b"abc");
    /// text.as_str() // "ab"
    /// ```
    pub fn push_clipped(&mut self, more: &[u8])
        ensures { self.new ≡ take N (self.old ++ more.now) }
    {
        let taken = more.len().min(self.room());
        self.push_text(&more[..taken]);
    }
}

//! Texts that grow by pieces.

use std::alloc::{AllocError, Global};
use std::fmt::{Display, Write};

/// A text that grows at its end, and remembers whether memory was short.
#[derive(Drop)]
pub struct Buffer {
    text: String,
    is_short: bool,
}

impl Buffer {
    /// Returns a text with nothing in it.
    pub fn new(alloc: Global) -> Buffer {
        Buffer {
            text: String::new(alloc),
            is_short: false,
        }
    }

    /// Puts a piece behind the text.
    pub fn put(&mut self, piece: &str) {
        if self.text.push_str(piece).is_err() {
            self.is_short = true;
        }
    }

    /// Puts a character behind the text.
    pub fn put_char(&mut self, character: char) {
        if self.text.push(character).is_err() {
            self.is_short = true;
        }
    }

    /// Puts a value behind the text, as it is printed.
    pub fn show<T: Display>(&mut self, value: &T) {
        if write!(self.text, "{value}").is_err() {
            self.is_short = true;
        }
    }

    /// Returns how many bytes the text has.
    pub fn len(&self) -> usize {
        self.text.len()
    }

    /// Returns whether the text has no byte.
    pub fn is_empty(&self) -> bool {
        self.text.len() == 0
    }

    /// Returns the text, or that memory was short.
    pub fn text(&self) -> Result<&str, AllocError> {
        if self.is_short {
            return Err(AllocError);
        }
        Ok(self.text.as_str())
    }
}

// Puts each word behind a text, with another text behind it.
pub(crate) fn put_each(out: &mut Buffer, words: &[&str], end: &str) {
    for word in words {
        put!(out, word, end);
    }
}

/// Returns a space, if a text stands behind it.
pub fn gap_before(text: &str) -> &'static str {
    text_if(!text.is_empty(), " ")
}

// A text, if it is wanted.
pub(crate) fn text_if(is_wanted: bool, text: &'static str) -> &'static str {
    if is_wanted { text } else { "" }
}

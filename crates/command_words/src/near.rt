//! The name that is most like a word.

use std::alloc::{AllocError, Global};
use strsim::osa_distance;

// No longer word is compared.
const LONGEST: usize = 64;

/// The name that is most like a word, of those that are offered.
///
/// ```
/// let mut near = Nearest::to("folowing");
/// near.offer(rt.alloc(), "preceding");
/// near.offer(rt.alloc(), "following");
/// near.found() // Ok("following")
/// ```
#[derive(Clone, Copy)]
pub struct Nearest<'a> {
    word: &'a str,
    name: &'static str,
    least: usize,
    is_short: bool,
}

impl<'a> Nearest<'a> {
    /// Returns the name that is most like a word, where none is offered so far.
    pub fn to(word: &'a str) -> Nearest<'a> {
        Nearest {
            word,
            name: "",
            least: usize::MAX,
            is_short: false,
        }
    }

    /// Takes a name that is more like the word than those before: of each three of its characters, one may be another.
    pub fn offer(&mut self, alloc: Global, name: &'static str) {
        if self.word.len() > LONGEST {
            return;
        }
        match osa_distance(alloc, self.word, name) {
            Ok(distance) if distance <= name.len() / 3 && distance < self.least => {
                self.name = name;
                self.least = distance;
            }
            Ok(_) => {}
            Err(_) => self.is_short = true,
        }
    }

    /// Returns the name, which is empty where none is like the word, or that memory was short.
    pub fn found(&self) -> Result<&'static str, AllocError> {
        if self.is_short {
            return Err(AllocError);
        }
        Ok(self.name)
    }
}

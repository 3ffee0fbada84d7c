//! The numbers of a line.
ghost use Rattle.std.specs.Prelude.{◌≡◌, ◌≤◌, ◌+◌, ◌*◌, ◌++◌, ℤ, List, [], length, take, IfSome};
ghost use Rattle.std.specs.Option.{option_map};
ghost use Rattle.caltool_command.specs.Private.{EndsWord, numbers_behind};

use crate::ways::Ways;
use crate::words::{next_digit, next_number};
use chrono_text::Line;
use std::marker::Model;

// No line of 120 bytes has more numbers.
const ROOM: usize = 60;

/// A buffer for the numbers of a line.
#[derive(Drop)]
pub struct Numbers {
    items: [i64; ROOM],
    len: usize,
}

impl Model for Numbers {
    ghost Value = { List ℤ };

    ghost view = { λ n. take n.len n.items };

    ghost invariant = { λ n. n.len ≤ 60 };
}

impl Numbers {
    /// Returns a buffer with no number.
    pub fn new() -> Numbers
        ensures { result ≡ [] }
    {
        Numbers {
            items: [0; ROOM],
            len: 0,
        }
    }

    // Reads the numbers behind the first space of a text, in the place of those held. What is read does not depend on `ways`.
    pub(crate) fn read(&mut self, text: Line<'_>, ways: Ways) -> Option<()>
        requires space { EndsWord text }
        requires short { length text ≤ 120 }
        ensures { numbers_behind text.entry ≡ option_map (λ _. self.new) result }
    {
        self.len = 0;
        self.len = read_items(&mut self.items, text, ways)?;
        Some(())
    }

    /// Returns the numbers, in the order of the line.
    pub fn as_slice(&self) -> &[i64]
        ensures { result.now ≡ self.now }
    {
        &self.items[..self.len]
    }
}

// Reads the numbers behind the first space of a text, and returns how many they are. What is read does not depend on `ways`.
#[inline]
fn read_items(items: &mut [i64; ROOM], text: Line<'_>, ways: Ways) -> Option<usize>
    requires space { EndsWord text }
    requires short { length text ≤ 120 }
    ensures read { numbers_behind text.entry ≡ option_map (λ len. take len items.new) result }
    ensures within { IfSome result (λ len. len ≤ 60) }
{
    let (mut len, mut rest) = read_digits(items, text, ways.are_all_short());
    let mut ways = ways;
    while !rest.is_empty() {
        let (number, after) = next_number(&rest.skip(1), ways.next())?;
        items[len] = number;
        len += 1;
        rest = after;
    }
    Some(len)
}

// Reads the numbers of one digit that come first behind the first space of a text, or none of them if they are not wanted.
// Returns how many they are, and the text behind them.
#[inline(always)]
fn read_digits<'a>(items: &mut [i64; ROOM], text: Line<'a>, wanted: bool) -> (usize, Line<'a>)
    requires space { EndsWord text }
    requires short { length text ≤ 120 }
    ensures read { numbers_behind text.entry
        ≡ option_map (λ others. take result.0 items.new ++ others) (numbers_behind result.1) }
    ensures space { EndsWord result.1 }
    ensures room { 2 * result.0 + length result.1 ≤ 120 }
{
    let mut len = 0;
    let mut rest = text;
    while wanted && !rest.is_empty() {
        let Some((number, behind)) = next_digit(&rest.skip(1)) else {
            return (len, rest);
        };
        items[len] = number;
        len += 1;
        rest = behind;
    }
    (len, rest)
}

//! A line about a place: words, its number, and words behind it.
ghost use Rattle.std.specs.Prelude.{◌≡◌, ◌++◌, ◌+◌, ◌≤◌, length};
ghost use Rattle.std.specs.Fmt.{decimal};

use chrono_text::Text;
use itoa::Buffer;

// No such line is longer.
pub(crate) const LONGEST_PLACED: usize = 73;

// The line with a number between words.
pub(crate) fn placed_line(front: &str, place: usize, behind: &str) -> Text<LONGEST_PLACED>
    requires { length front.now + length behind.now ≤ 53 }
    ensures { result ≡ front.now ++ (decimal place ++ behind.now) }
{
    let mut digits = Buffer::new();
    let mut line = Text::<LONGEST_PLACED>::new();
    line.push_text(front.as_bytes());
    line.push_text(digits.format(place).as_bytes());
    line.push_text(behind.as_bytes());
    line
}

//! The words of a line: its name, and the numbers after it.
ghost use Rattle.std.specs.Prelude.{◌≡◌, ◌<◌, ◌≤◌, ◌↔◌, ◌∷◌, length, drop, IfSome, IfNone, IsTrue, None};
ghost use Rattle.std.specs.Str.{byte};
ghost use Rattle.std.specs.Option.{option_map};
ghost use Rattle.chrono_text.specs.Numbers.{StandsBefore};
ghost use Rattle.caltool_command.specs.Words.{words};
ghost use Rattle.caltool_command.specs.Grammar.{numbers_of};
ghost use Rattle.caltool_command.specs.Private.{EndsWord, numbers_behind};

use chrono_text::{Line, Way, digit, read_number};

const SPACE: u8 = b' ';

// The first word of a line, and what follows it.
pub(crate) fn split_name<'a>(line: &Line<'a>) -> (&'a [u8], Line<'a>)
    ensures words { words line.now ≡ result.0.now ∷ drop 1 (words result.1) }
    ensures space { EndsWord result.1 }
    ensures shorter { length result.1 ≤ length line.now }
{
    let len = line.bytes_before(SPACE);
    let (word, _) = line.as_slice().split_at(len);
    (word, line.skip(len))
}

// The number that the first word writes, if it fits an `i64`, and what follows that word.
#[inline(always)]
pub(crate) fn next_number<'a>(text: &Line<'a>, way: Way) -> Option<(i64, Line<'a>)>
    ensures some { IfSome result (λ read. numbers_of (words text.now)
        ≡ option_map (λ numbers. read.0 ∷ numbers) (numbers_behind read.1)) }
    ensures none { IfNone result (numbers_of (words text.now) ≡ None) }
    ensures space { IfSome result (λ read. EndsWord read.1) }
    ensures shorter { IfSome result (λ read. length read.1 < length text.now) }
{
    let (number, len) = read_number(text, SPACE, way)?;
    Some((number, text.skip(len)))
}

// The number that the first word writes, if it is one digit, and what follows that word.
#[inline(always)]
pub(crate) fn next_digit<'a>(text: &Line<'a>) -> Option<(i64, Line<'a>)>
    ensures some { IfSome result (λ read. numbers_of (words text.now)
        ≡ option_map (λ numbers. read.0 ∷ numbers) (numbers_behind read.1)) }
    ensures space { IfSome result (λ read. EndsWord read.1) }
    ensures shorter { IfSome result (λ read. length read.1 < length text.now) }
{
    if text.is_empty() {
        return None;
    }
    if !stands_alone(text) {
        return None;
    }
    let value = digit(text.byte(0));
    if value > 9 {
        return None;
    }
    Some((i64::from(value), text.skip(1)))
}

// Whether the first byte of a text is the first word.
#[inline(always)]
fn stands_alone(text: &Line<'_>) -> bool
    requires { 0 < length text.now }
    ensures { IsTrue result ↔ StandsBefore (byte " ") text.now 1 }
{
    text.len() == 1 || text.byte(1) == SPACE
}

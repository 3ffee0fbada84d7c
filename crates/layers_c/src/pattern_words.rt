//! What a fault of a pattern, or of a text that a pattern reads, says, in one line.
//! It is the text of `Display` for `PatternError` and `PatternReadError`, and here it cannot fail.
ghost use Rattle.std.specs.Prelude.{◌≡◌, ◌++◌, ◌≤◌, codes, length};
ghost use Rattle.std.specs.Fmt.{decimal};
ghost use Rattle.layers_c.specs.Patterns.{pattern_line_from_c};

use crate::faults::CalendarFault;
use crate::placed_line::{LONGEST_PLACED, placed_line};
use chrono_text::Text;

// The byte, and what is wrong there, if there is such a fault.
#[tactic(auto, unfolding(crate::specs::Patterns::pattern_error_from_c, crate::specs::Patterns::read_error_from_c, chrono_pattern::specs::ErrorTexts::pattern_error_text, chrono_pattern::specs::ErrorTexts::pattern_fault_text, chrono_pattern::specs::ErrorTexts::read_error_text, chrono_pattern::specs::ErrorTexts::read_fault_text))]
pub(crate) fn pattern_line(fault: &CalendarFault) -> Option<Text<LONGEST_PLACED>>
    ensures { result ≡ pattern_line_from_c fault.now }
{
    match fault.code {
        1 => Some(line_of(fault, ": an unknown specifier")),
        2 => Some(line_of(fault, ": the bytes end within a specifier")),
        3 => Some(line_of(fault, ": the text ends too soon")),
        4 => Some(line_of(fault, ": the text goes on behind the end of the pattern")),
        5 => Some(line_of(fault, ": the pattern has no such text there")),
        6 => Some(line_of(fault, ": the field has no such value")),
        7 => Some(line_of(fault, ": no value fits all fields")),
        8 => Some(line_of(fault, ": the fields do not suffice for the value")),
        _ => None,
    }
}

// The line of the byte.
fn line_of(fault: &CalendarFault, words: &str) -> Text<LONGEST_PLACED>
    requires { length words.now ≤ 48 }
    ensures { result ≡ codes "byte " ++ (decimal fault.now.byte ++ words.now) }
{
    placed_line("byte ", fault.byte, words)
}

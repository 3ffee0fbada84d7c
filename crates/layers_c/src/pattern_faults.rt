//! What is wrong with a pattern, or with a text that a pattern reads, as numbers.
ghost use Rattle.std.specs.Prelude.{◌≡◌, ◌-◌, Some};
ghost use Rattle.layers_c.specs.Faults.{numbered};
ghost use Rattle.layers_c.specs.Patterns.{GoesToEnd, pattern_error_from_c, pattern_faults, read_error_from_c, read_faults};

use crate::faults::CalendarFault;
use chrono_pattern::{PatternError, PatternFault, PatternReadError, ReadFault};

// The numbers of what is wrong with a pattern.
#[tactic(auto, unfolding(crate::specs::Patterns::pattern_error_from_c))]
pub(crate) fn pattern_fault(pattern: &[u8], error: PatternError) -> CalendarFault
    ensures error { pattern_error_from_c result ≡ Some error }
    ensures end { GoesToEnd pattern.now result }
{
    CalendarFault {
        code: pattern_fault_number(error.cause),
        field: 0,
        byte: error.byte,
        end: pattern.len(),
    }
}

// The numbers of what is wrong with a text.
#[tactic(auto, unfolding(crate::specs::Patterns::read_error_from_c))]
pub(crate) fn read_fault(text: &[u8], error: PatternReadError) -> CalendarFault
    ensures error { read_error_from_c result ≡ Some error }
    ensures end { GoesToEnd text.now result }
{
    CalendarFault {
        code: read_fault_number(error.cause),
        field: 0,
        byte: error.byte,
        end: text.len(),
    }
}

// The number of what is wrong with a pattern.
fn pattern_fault_number(fault: PatternFault) -> u32
    ensures { numbered pattern_faults result ≡ Some fault }
{
    match fault {
        PatternFault::Unknown => 1,
        PatternFault::Cut => 2,
    }
}

// The number of what is wrong with a text.
fn read_fault_number(fault: ReadFault) -> u32
    ensures { numbered read_faults (result - 2) ≡ Some fault }
{
    match fault {
        ReadFault::TooShort => 3,
        ReadFault::TooLong => 4,
        ReadFault::Invalid => 5,
        ReadFault::OutOfRange => 6,
        ReadFault::Impossible => 7,
        ReadFault::NotEnough => 8,
    }
}

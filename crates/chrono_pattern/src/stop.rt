//! Where a reader stops, and why.
ghost use Rattle.std.specs.Prelude.{◌≡◌};
ghost use Rattle.chrono_pattern.specs.Progress.{fault_without, stopped};

use crate::error::ReadFault;

// Where a reader stopped: what is wrong, and how many bytes were left.
#[derive(Clone, Copy)]
pub(crate) struct Stop {
    pub(crate) cause: ReadFault,
    pub(crate) left: usize,
}

// What is wrong with a text that has not so many bytes, or other ones.
pub(crate) fn fault_without(least: usize, text: &[u8]) -> ReadFault
    ensures { result ≡ fault_without least text.now }
{
    if text.len() < least {
        ReadFault::TooShort
    } else {
        ReadFault::Invalid
    }
}

// Where a reader stops in front of a text.
pub(crate) fn stopped(cause: ReadFault, text: &[u8]) -> Stop
    ensures { result ≡ stopped cause text.now }
{
    Stop {
        cause,
        left: text.len(),
    }
}

//! The fastest ways to read the numbers of a line, one after another.
ghost use Rattle.std.specs.Prelude.{◌≤◌};

use chrono_text::Way;

/// The ways to read the numbers of a line: the way of the next number, of the one after it, and so on.
///
/// They change the speed, never the result. They are stored as one number, so that a register holds all of them. Its
/// binary digits are the ways, 1 for a short number, and the lowest digit is the next way.
#[derive(Clone, Copy)]
pub(crate) struct Ways {
    digits: u64,
}

impl Ways {
    /// Returns these ways. The last of them is also the way of all further numbers.
    #[inline(always)]
    pub(crate) fn of(ways: &[Way]) -> Ways {
        let last = ways.last().map_or(0, digit_of);
        let mut digits = last * u64::MAX;
        for way in ways.iter().rev() {
            digits = (digits << 1) | digit_of(way);
        }
        Ways { digits }
    }

    /// Returns whether each number is best read as a short one.
    #[inline(always)]
    pub(crate) fn are_all_short(&self) -> bool {
        self.digits == u64::MAX
    }

    /// Returns the way of the next number, and moves on to the number after it.
    #[inline(always)]
    pub(crate) fn next(&mut self) -> Way {
        let digit = self.digits & 1;
        self.digits >>= 1;
        if digit == 1 { Way::Short } else { Way::Long }
    }
}

#[inline(always)]
fn digit_of(way: &Way) -> u64
    ensures { result ≤ 1 }
{
    match way {
        Way::Long => 0,
        Way::Short => 1,
    }
}

//! The counter of steps: ghost data, which takes no bytes at run time.
ghost use Rattle.std.specs.Prelude.{◌≡◌, ℕ, ◌+◌, ◌≤◌};

use crate::tally::Tally;
use std::marker::Model;

/// A counter of steps. It takes no bytes at run time, and only proofs see its number.
///
/// It is not `Drop`. The owner of a counter must call [`end`](Steps::end), so that no counter is lost or overwritten.
pub struct Steps {
    tally: Tally,
}

impl Model for Steps {
    ghost Value = { ℕ };

    ghost view = { λ s. s.tally.count };
}

impl Steps {
    /// Returns a counter at 0.
    ///
    /// ```
    /// let steps = Steps::new();
    /// steps.end();
    /// std::mem::size_of::<Steps>() // 0
    /// ```
    #[inline]
    pub fn new() -> Steps
        ensures { result ≡ 0 }
    {
        Steps {
            tally: Tally::new(),
        }
    }

    /// Counts one more step.
    ///
    /// ```
    /// let mut steps = Steps::new();
    /// steps.tick();
    /// steps.end();
    /// std::mem::size_of::<Steps>() // 0
    /// ```
    #[inline]
    pub fn tick(&mut self)
        ensures { self.new ≡ self.old + 1 }
    {
        self.tally = Tally::after(&self.tally);
    }

    /// Ends the counter.
    ///
    /// ```
    /// let mut steps = Steps::new();
    /// let flags = YearFlags::from_year_counted(2024, &mut steps);
    /// steps.end();
    /// flags.bits() // 6
    /// ```
    #[inline]
    pub fn end(self) {
        let Steps { tally: _ } = self;
    }
}

const _: () = prove!(size_of::<Steps>() == 0);

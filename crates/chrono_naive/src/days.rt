//! Spans of whole days.

ghost use Rattle.std.specs.Prelude.{◌≡◌, pos, min};

use std::marker::Model;

/// A number of calendar days, by which a date can be moved.
///
/// Contracts see it as that number.
#[derive(Clone, Copy, PartialEq, Eq, PartialOrd, Ord, Hash, Debug)]
pub struct Days {
    count: u64,
}

impl Model for Days {
    ghost use Rattle.std.specs.Prelude.{ℕ};

    ghost Value = { ℕ };

    ghost view = { λ d. d.count };

    ghost inverse = { λ n. record { count = n } };
}

impl Days {
    /// Returns a move of `count` days.
    ///
    /// ```
    /// NaiveDate::from_ymd_opt(2024, 2, 28)?.checked_add_days(Days::new(2)) // Some(2024-03-01)
    /// ```
    #[inline]
    pub fn new(count: u64) -> Days
        ensures { result ≡ count }
    {
        Days { count }
    }

    // The number of days, or of those that a signed number counts if they are more: past them no two dates are apart.
    #[inline]
    pub(crate) fn clipped(self) -> i64
        ensures { result ≡ pos (min self 9_223_372_036_854_775_807) }
    {
        i64::try_from(self.count).unwrap_or(i64::MAX)
    }
}

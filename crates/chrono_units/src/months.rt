//! Spans of whole months.

ghost use Rattle.std.specs.Prelude.{◌≡◌};
ghost use Rattle.std.specs.Cmp.{partial_order_from_own_ties};
ghost use Rattle.std.specs.Cmp.Rules.{comparing};
ghost use Rattle.std.specs.Ordering.{as_partial_cmp, nat_cmp};
ghost use Rattle.std.proofs.Common.{rules};

use std::cmp::Ordering;
use std::marker::Model;

/// A number of calendar months, by which a date can be moved.
///
/// Contracts see it as that number. Spans compare by their numbers.
#[derive(Clone, Copy, PartialEq, Eq, Hash, Debug)]
pub struct Months {
    count: u32,
}

impl Model for Months {
    ghost use Rattle.std.specs.Prelude.{ℕ};

    ghost Value = { ℕ };

    ghost view = { λ m. m.count };

    ghost inverse = { λ n. record { count = n } };
}

impl Months {
    /// Returns a span of `count` months.
    ///
    /// ```
    /// Months::new(14).as_u32() // 14
    /// ```
    #[inline]
    pub fn new(count: u32) -> Months
        ensures { result ≡ count }
    {
        Months { count }
    }

    /// Returns the number of months.
    ///
    /// ```
    /// Months::new(3).as_u32() // 3
    /// ```
    #[inline]
    pub fn as_u32(&self) -> u32
        ensures { result ≡ self.now }
    {
        self.count
    }
}

impl Ord for Months {
    ghost cmp = { nat_cmp };

    ghost total = { Prim.search (comparing, rules) };

    ghost matches_partial_cmp = { Prim.search (comparing, rules) };

    ghost matches_eq = { Prim.search (comparing, rules) };

    /// Compares spans by their numbers of months.
    #[inline]
    fn cmp(&self, other: &Months) -> Ordering
        ensures count { result ≡ nat_cmp self.now other.now }
    {
        self.as_u32().cmp(&other.as_u32())
    }
}

impl PartialOrd for Months {
    ghost partial_cmp = { as_partial_cmp nat_cmp };

    ghost laws = { partial_order_from_own_ties
        (Prim.search (comparing, rules)) (Prim.search (comparing, rules)) };

    #[inline]
    fn partial_cmp(&self, other: &Months) -> Option<Ordering> {
        Some(self.cmp(other))
    }
}

//! The order of iterators by days: that of their cursors.
ghost use Rattle.std.specs.Prelude.{◌≡◌};
ghost use Rattle.std.specs.Cmp.Rules.{comparing};
ghost use Rattle.std.specs.Cmp.{partial_order_from_own_ties};
ghost use Rattle.std.specs.Ordering.{as_partial_cmp, int_cmp, int_eq};
ghost use Rattle.std.proofs.Common.{rules};

use crate::naive_date_days_iterator::NaiveDateDaysIterator;
use std::cmp::Ordering;

impl PartialEq for NaiveDateDaysIterator {
    ghost eq = { int_eq };

    ghost laws = { Prim.search (comparing, rules) };

    /// Returns whether both return the same date next, or both are ended.
    #[inline]
    fn eq(&self, other: &NaiveDateDaysIterator) -> bool
        ensures { result ≡ int_eq self.now other.now }
    {
        self.cursor == other.cursor
    }
}

impl Ord for NaiveDateDaysIterator {
    ghost cmp = { int_cmp };

    ghost total = { Prim.search (comparing, rules) };

    ghost matches_partial_cmp = { Prim.search (comparing, rules) };

    ghost matches_eq = { Prim.search (comparing, rules) };

    /// Compares the dates that the two return next. An ended iterator is greater than all others.
    #[inline]
    fn cmp(&self, other: &NaiveDateDaysIterator) -> Ordering
        ensures { result ≡ int_cmp self.now other.now }
    {
        self.cursor.cmp(&other.cursor)
    }
}

impl PartialOrd for NaiveDateDaysIterator {
    ghost partial_cmp = { as_partial_cmp int_cmp };

    ghost laws = { partial_order_from_own_ties (Prim.search (comparing, rules)) (Prim.search (comparing, rules)) };

    #[inline]
    fn partial_cmp(&self, other: &NaiveDateDaysIterator) -> Option<Ordering> {
        Some(self.cmp(other))
    }
}

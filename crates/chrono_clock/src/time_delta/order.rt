//! Equality, order and hash of durations: those of their numbers of nanoseconds.
ghost use Rattle.std.proofs.Common.{rules};
ghost use Rattle.std.specs.Cmp.{partial_order_from_own_ties};
ghost use Rattle.std.specs.Cmp.Rules.{comparing, hashing};
ghost use Rattle.std.specs.Hash as fed;
ghost use Rattle.std.specs.Ordering.{int_cmp, int_eq, as_partial_cmp};

use crate::TimeDelta;
use std::cmp::Ordering;
use std::hash::{Hash, Hasher};

impl PartialEq for TimeDelta {
    ghost eq = { int_eq };

    ghost laws = { Prim.search (comparing, rules) };

    #[inline]
    fn eq(&self, other: &TimeDelta) -> bool {
        self.secs == other.secs && self.nanos == other.nanos
    }
}

impl Eq for TimeDelta {
    ghost laws = { Prim.search (comparing, rules) };
}

impl Ord for TimeDelta {
    ghost cmp = { int_cmp };

    ghost total = { Prim.search (comparing, rules) };

    ghost matches_partial_cmp = { Prim.search (comparing, rules) };

    ghost matches_eq = { Prim.search (comparing, rules) };

    #[inline]
    fn cmp(&self, other: &TimeDelta) -> Ordering {
        self.secs
            .cmp(&other.secs)
            .then(self.nanos.cmp(&other.nanos))
    }
}

impl PartialOrd for TimeDelta {
    ghost partial_cmp = { as_partial_cmp int_cmp };

    ghost laws = { partial_order_from_own_ties (Prim.search (comparing, rules)) (Prim.search (comparing, rules)) };

    #[inline]
    fn partial_cmp(&self, other: &TimeDelta) -> Option<Ordering> {
        Some(self.cmp(other))
    }
}

impl Hash for TimeDelta {
    ghost hash_input = { λ x. fed.i128 x };

    ghost respects_eq = { Prim.search (hashing, rules) };

    #[inline]
    fn hash<H: Hasher>(&self, state: &mut H) {
        self.total_nanos().hash(state);
    }
}

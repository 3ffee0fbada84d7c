//! The order of date-times.
ghost use Rattle.std.specs.Prelude.{◌≡◌, ◌↔◌};
ghost use Rattle.std.specs.Cmp.Rules.{comparing};
ghost use Rattle.std.specs.Cmp.{partial_order_from_own_ties};
ghost use Rattle.std.specs.Ordering.{as_partial_cmp};
ghost use Rattle.std.proofs.Common.{rules, Less, Equal, Greater};
ghost use Rattle.chrono_datetime.specs.Moment.{IsBefore, moment_cmp};

use crate::NaiveDateTime;
use std::cmp::Ordering;

impl Ord for NaiveDateTime {
    ghost cmp = { moment_cmp };

    ghost total = { Prim.search (comparing, rules) };

    ghost matches_partial_cmp = { Prim.search (comparing, rules) };

    ghost matches_eq = { Prim.search (comparing, rules) };

    /// Compares the dates, and on one date the times of day.
    #[inline]
    fn cmp(&self, other: &NaiveDateTime) -> Ordering
        ensures order { result ≡ moment_cmp self.now other.now }
        ensures less { (result ≡ Less) ↔ IsBefore self.now other.now }
        ensures equal { (result ≡ Equal) ↔ (self.now ≡ other.now) }
        ensures greater { (result ≡ Greater) ↔ IsBefore other.now self.now }
    {
        self.date.cmp(&other.date).then(self.time.cmp(&other.time))
    }
}

impl PartialOrd for NaiveDateTime {
    ghost partial_cmp = { as_partial_cmp moment_cmp };

    ghost laws = { partial_order_from_own_ties (Prim.search (comparing, rules)) (Prim.search (comparing, rules)) };

    #[inline]
    fn partial_cmp(&self, other: &NaiveDateTime) -> Option<Ordering> {
        Some(self.cmp(other))
    }
}

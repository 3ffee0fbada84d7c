//! The order of times of day.
ghost use Rattle.std.specs.Prelude.{◌≡◌, ◌↔◌};
ghost use Rattle.std.specs.Cmp.Rules.{comparing};
ghost use Rattle.std.specs.Cmp.{partial_order_from_own_ties};
ghost use Rattle.std.specs.Ordering.{as_partial_cmp};
ghost use Rattle.std.proofs.Common.{rules, Less, Equal, Greater};
ghost use Rattle.chrono_clock.specs.Time.{IsEarlier, time_cmp};

use crate::NaiveTime;
use std::cmp::Ordering;

impl Ord for NaiveTime {
    ghost cmp = { time_cmp };

    ghost total = { Prim.search (comparing, rules) };

    ghost matches_partial_cmp = { Prim.search (comparing, rules) };

    ghost matches_eq = { Prim.search (comparing, rules) };

    /// Compares times by second of the day, then by fraction.
    #[inline]
    fn cmp(&self, other: &NaiveTime) -> Ordering
        ensures order { result ≡ time_cmp self.now other.now }
        ensures less { (result ≡ Less) ↔ IsEarlier self.now other.now }
        ensures equal { (result ≡ Equal) ↔ (self.now ≡ other.now) }
        ensures greater { (result ≡ Greater) ↔ IsEarlier other.now self.now }
    {
        self.secs.cmp(&other.secs).then(self.frac.cmp(&other.frac))
    }
}

impl PartialOrd for NaiveTime {
    ghost partial_cmp = { as_partial_cmp time_cmp };

    ghost laws = { partial_order_from_own_ties (Prim.search (comparing, rules)) (Prim.search (comparing, rules)) };

    #[inline]
    fn partial_cmp(&self, other: &NaiveTime) -> Option<Ordering> {
        Some(self.cmp(other))
    }
}

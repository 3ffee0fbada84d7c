//! The order of ISO weeks.
ghost use Rattle.std.specs.Prelude.{◌≡◌};
ghost use Rattle.std.specs.Cmp.Rules.{comparing};
ghost use Rattle.std.specs.Cmp.{partial_order_from_own_ties};
ghost use Rattle.std.specs.Ordering.{as_partial_cmp};
ghost use Rattle.std.proofs.Common.{rules};
ghost use Rattle.chrono_naive.specs.Fields.{iso_week_cmp};

use crate::iso_week::IsoWeek;
use std::cmp::Ordering;

impl Ord for IsoWeek {
    ghost cmp = { iso_week_cmp };

    ghost total = { Prim.search (comparing, rules) };

    ghost matches_partial_cmp = { Prim.search (comparing, rules) };

    ghost matches_eq = { Prim.search (comparing, rules) };

    /// Compares the ISO years, and in one ISO year the weeks.
    #[inline]
    fn cmp(&self, other: &IsoWeek) -> Ordering
        ensures { result ≡ iso_week_cmp self.now other.now }
    {
        self.year.cmp(&other.year).then(self.week.cmp(&other.week))
    }
}

impl PartialOrd for IsoWeek {
    ghost partial_cmp = { as_partial_cmp iso_week_cmp };

    ghost laws = { partial_order_from_own_ties (Prim.search (comparing, rules)) (Prim.search (comparing, rules)) };

    #[inline]
    fn partial_cmp(&self, other: &IsoWeek) -> Option<Ordering> {
        Some(self.cmp(other))
    }
}

//! The order of dates.
ghost use Rattle.std.specs.Prelude.{◌≡◌};
ghost use Rattle.std.specs.Cmp.Rules.{comparing};
ghost use Rattle.std.specs.Cmp.{partial_order_from_own_ties};
ghost use Rattle.std.specs.Ordering.{int_cmp, as_partial_cmp};
ghost use Rattle.std.proofs.Common.{rules};
ghost use Rattle.chrono_calendar.specs.Order.{calendar_cmp, ordinal_cmp};
ghost use Rattle.chrono_calendar.specs.NameLaws.{iso_cmp};

use crate::naive_date::NaiveDate;
use std::cmp::Ordering;

impl Ord for NaiveDate {
    ghost cmp = { int_cmp };

    ghost total = { Prim.search (comparing, rules) };

    ghost matches_partial_cmp = { Prim.search (comparing, rules) };

    ghost matches_eq = { Prim.search (comparing, rules) };

    /// Compares the day numbers. That is also the order of the calendar names, of the ordinal names and of the
    /// ISO names.
    #[inline]
    fn cmp(&self, other: &NaiveDate) -> Ordering
        ensures number { result ≡ int_cmp self.now other.now }
        ensures calendar { result ≡ calendar_cmp self.now other.now }
        ensures ordinal { result ≡ ordinal_cmp self.now other.now }
        ensures iso { result ≡ iso_cmp self.now other.now }
    {
        self.form.cmp(&other.form)
    }
}

impl PartialOrd for NaiveDate {
    ghost partial_cmp = { as_partial_cmp int_cmp };

    ghost laws = { partial_order_from_own_ties (Prim.search (comparing, rules)) (Prim.search (comparing, rules)) };

    #[inline]
    fn partial_cmp(&self, other: &NaiveDate) -> Option<Ordering> {
        Some(self.cmp(other))
    }
}

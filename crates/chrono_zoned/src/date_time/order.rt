//! The order of instants, whatever their zones.
ghost use Rattle.std.specs.Prelude.{◌≡◌, ◌↔◌, IsTrue};
ghost use Rattle.std.specs.Cmp.Rules.{comparing};
ghost use Rattle.std.specs.Cmp.{partial_order_from_own_ties};
ghost use Rattle.std.specs.Ordering.{as_partial_cmp, eq_by_cmp, on};
ghost use Rattle.std.proofs.Common.{ap, rules, Less, Equal, Greater};
ghost use Rattle.chrono_datetime.specs.Moment.{IsBefore, moment_cmp};
ghost use Rattle.chrono_zoned.specs.MomentOrder.{same_moment};

use crate::date_time::DateTime;
use crate::time_zone::TimeZone;
use chrono_datetime::NaiveDateTime;
use chrono_instant::Timestamp;
use std::cmp::Ordering;
use std::hash::{Hash, Hasher};

impl<Z: TimeZone> DateTime<Z> {
    /// Compares two instants, whatever their zones.
    ///
    /// ```
    /// let start = Utc.with_ymd_and_hms(2024, 2, 29, 9, 30, 0).single()?;
    /// let end = FixedOffset::west_opt(3_600)?.with_ymd_and_hms(2024, 2, 29, 9, 0, 0).single()?;
    /// start.cmp_instant(&end) // Less
    /// ```
    #[inline]
    pub fn cmp_instant<Y: TimeZone>(&self, other: &DateTime<Y>) -> Ordering
        ensures order { result ≡ moment_cmp self.now.utc other.now.utc }
        ensures less { (result ≡ Less) ↔ IsBefore self.now.utc other.now.utc }
        ensures equal { (result ≡ Equal) ↔ (self.now.utc ≡ other.now.utc) }
        ensures greater { (result ≡ Greater) ↔ IsBefore other.now.utc self.now.utc }
    {
        self.naive_utc().cmp(&other.naive_utc())
    }

    /// Returns whether two date-times are the same instant, whatever their zones.
    ///
    /// ```
    /// let noon = Utc.with_ymd_and_hms(2024, 2, 29, 12, 0, 0).single()?;
    /// noon.is_same_instant(&FixedOffset::east_opt(3_600)?.from_utc_datetime(&noon.naive_utc())?) // true
    /// ```
    #[inline]
    pub fn is_same_instant<Y: TimeZone>(&self, other: &DateTime<Y>) -> bool
        ensures { IsTrue result ↔ (self.now.utc ≡ other.now.utc) }
    {
        self.naive_utc() == other.naive_utc()
    }
}

impl<Z: TimeZone> PartialEq for DateTime<Z> {
    ghost eq = { eq_by_cmp (on (λ d. d.utc) moment_cmp) };

    ghost laws = { Prim.search (comparing, rules) depth 9 };

    #[inline]
    fn eq(&self, other: &DateTime<Z>) -> bool {
        self.cmp_instant(other).is_eq()
    }
}

impl<Z: TimeZone> Eq for DateTime<Z> {
    ghost laws = { Prim.search (comparing, rules) depth 9 };
}

impl<Z: TimeZone> Ord for DateTime<Z> {
    ghost cmp = { on (λ d. d.utc) moment_cmp };

    ghost total = { Prim.search (comparing, rules) depth 9 };

    ghost matches_partial_cmp = { Prim.search (comparing, rules) depth 9 };

    ghost matches_eq = { Prim.search (comparing, rules) depth 9 };

    #[inline]
    fn cmp(&self, other: &DateTime<Z>) -> Ordering {
        self.cmp_instant(other)
    }
}

impl<Z: TimeZone> PartialOrd for DateTime<Z> {
    ghost partial_cmp = { as_partial_cmp (on (λ d. d.utc) moment_cmp) };

    ghost laws = { partial_order_from_own_ties (Prim.search (comparing, rules) depth 9) (Prim.search (comparing, rules) depth 9) };

    #[inline]
    fn partial_cmp(&self, other: &DateTime<Z>) -> Option<Ordering> {
        Some(self.cmp(other))
    }
}

impl<Z: TimeZone> Hash for DateTime<Z> {
    ghost hash_input = { λ d. ⟦<NaiveDateTime as Hash>⟧.hash_input d.utc };

    ghost respects_eq = { λ x y same. ap ⟦<NaiveDateTime as Hash>⟧.hash_input (same_moment x.utc y.utc same) };

    #[inline]
    fn hash<H: Hasher>(&self, state: &mut H) {
        self.naive_utc().hash(state);
    }
}

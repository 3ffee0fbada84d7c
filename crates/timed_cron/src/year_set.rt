//! `YearSet`: a set of years from 1970 to 2099.
ghost use Rattle.std.specs.Prelude.{◌≡◌, ◌≤ℤ◌, ◌<ℤ◌, ◌-ℤ◌, ◌||◌, pos, ℤ, unsigned_abs, IfSome, IfNone, IsTrue, false};
ghost use Rattle.chrono_sets.specs.FiniteSets.{no_numbers, with_number};
ghost use Rattle.timed_cron.specs.Years.{NoYearIn, has_year};

use chrono_sets::PlaceSet;

// The first and the last year that a set can have.
pub(crate) const FIRST_YEAR: i32 = 1_970;

pub(crate) const LAST_YEAR: i32 = 2_099;

/// A set of years from 1970 to 2099.
///
/// ```
/// let years = YearSet::none().with(2024).with(2026);
/// (years.contains(2026), years.contains(2025)) // (true, false)
/// ```
#[derive(Clone, Copy, PartialEq, Eq, Debug)]
pub struct YearSet {
    /// The years, each as its place: 0 is 1970, and 129 is 2099. A greater number makes no difference, except when two sets are compared.
    pub places: PlaceSet,
}

impl YearSet {
    /// Returns the set without a year.
    ///
    /// ```
    /// YearSet::none().contains(1970) // false
    /// ```
    #[inline]
    pub fn none() -> YearSet
        ensures { result ≡ record { places = no_numbers } }
    {
        YearSet {
            places: PlaceSet::none(),
        }
    }

    /// Returns the years of the set and `year`. Requires that `year` is from 1970 to 2099.
    ///
    /// ```
    /// YearSet::none().with(2099).contains(2099) // true
    /// ```
    #[inline]
    pub fn with(self, year: i32) -> YearSet
        requires first { pos 1_970 ≤ℤ year }
        requires last { year ≤ℤ pos 2_099 }
        ensures { result ≡ record { places = with_number self.places (unsigned_abs (year -ℤ pos 1_970)) } }
    {
        YearSet {
            places: self.places.with((year - FIRST_YEAR).unsigned_abs()),
        }
    }

    /// Returns whether `year` is one of the set. No year before 1970 or after 2099 is.
    ///
    /// ```
    /// YearSet::none().with(2024).contains(-2024) // false
    /// ```
    #[tactic(auto, unfolding(crate::specs::Years::has_year))]
    pub fn contains(&self, year: i32) -> bool
        ensures { result ≡ has_year self.now year }
    {
        if FIRST_YEAR <= year && year <= LAST_YEAR {
            self.places.contains((year - FIRST_YEAR).unsigned_abs())
        } else {
            false
        }
    }

    // The first year of the set, from that one on.
    pub(crate) fn first_from(&self, from: i32) -> Option<i32>
        ensures some { IfSome result (λ y. IsTrue (has_year self.now y)) }
        ensures not_before { IfSome result (λ y. from ≤ℤ y) }
        ensures within { IfSome result (λ y. (pos 1_970 ≤ℤ y) × (y ≤ℤ pos 2_099)) }
        ensures least { IfSome result (λ y. NoYearIn self.now from y) }
        ensures none { IfNone result ((y : ℤ) → from ≤ℤ y → has_year self.now y ≡ false) }
    {
        let mut year = FIRST_YEAR;
        while year <= LAST_YEAR {
            if from <= year && self.contains(year) {
                return Some(year);
            }
            year += 1;
        }
        None
    }

    // The last year of the set, down from that one.
    pub(crate) fn last_to(&self, to: i32) -> Option<i32>
        ensures some { IfSome result (λ y. IsTrue (has_year self.now y)) }
        ensures not_after { IfSome result (λ y. y ≤ℤ to) }
        ensures within { IfSome result (λ y. (pos 1_970 ≤ℤ y) × (y ≤ℤ pos 2_099)) }
        ensures greatest { IfSome result (λ y. (z : ℤ) → y <ℤ z → z ≤ℤ to → has_year self.now z ≡ false) }
        ensures none { IfNone result ((y : ℤ) → y ≤ℤ to → has_year self.now y ≡ false) }
    {
        let mut year = LAST_YEAR;
        while year >= FIRST_YEAR {
            if year <= to && self.contains(year) {
                return Some(year);
            }
            year -= 1;
        }
        None
    }
}

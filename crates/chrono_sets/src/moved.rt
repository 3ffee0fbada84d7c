//! Sets whose members are moved, mirrored, repeated or cut.
ghost use Rattle.std.specs.Prelude.{◌≡◌, ◌<◌, ◌≤◌, ◌+◌, ◌-◌, ◌%◌, nat_le, nat_lt, ◌&&◌, ℕ, false};
ghost use Rattle.chrono_sets.specs.FiniteSets.{has};

use crate::number_set::NumberSet;

// The digits of the numbers 0 to 6.
const WEEK: u64 = 0b111_1111;

// Seven weeks in a row: what is multiplied by it stands there seven times, seven digits apart.
const SEVEN_WEEKS: u64 = 0x0408_1020_4081;

impl NumberSet {
    /// Returns the set of the members less `by`, as far as they are not below `by`. Requires `by < 64`.
    ///
    /// ```
    /// NumberSet::from_array([1, 9]).lowered(3) == NumberSet::single(6) // true
    /// ```
    #[inline]
    pub fn lowered(self, by: u32) -> NumberSet
        requires { by < 64 }
        ensures { (k : ℕ) → has result k ≡ has self (k + by) }
    {
        NumberSet {
            digits: self.digits >> by,
        }
    }

    /// Returns the set of the members and `by` more, as far as that is below 64. Requires `by < 64`.
    ///
    /// ```
    /// NumberSet::from_array([1, 9]).raised(3) == NumberSet::from_array([4, 12]) // true
    /// ```
    #[inline]
    pub fn raised(self, by: u32) -> NumberSet
        requires { by < 64 }
        ensures members { (k : ℕ) → k < 64 → has result k ≡ (nat_le by k && has self (k - by)) }
        ensures small { (k : ℕ) → 64 ≤ k → has result k ≡ false }
    {
        NumberSet {
            digits: self.digits << by,
        }
    }

    /// Returns the set of the numbers that are as far below `last` as the members are above 0. Requires `last < 64`.
    ///
    /// ```
    /// NumberSet::from_array([1, 9]).mirrored(10) == NumberSet::from_array([1, 9]) // true
    /// ```
    #[inline]
    pub fn mirrored(self, last: u32) -> NumberSet
        requires { last < 64 }
        ensures members { (k : ℕ) → k ≤ last → has result k ≡ has self (last - k) }
        ensures small { (k : ℕ) → last < k → has result k ≡ false }
    {
        NumberSet {
            digits: self.digits.reverse_bits() >> (63 - last),
        }
    }

    /// Returns the members from `from` on that are below `end`. Requires `from <= end` and `end < 64`.
    ///
    /// ```
    /// NumberSet::from_array([1, 9]).between(2, 10) == NumberSet::single(9) // true
    /// ```
    #[inline]
    pub fn between(self, from: u32, end: u32) -> NumberSet
        requires order { from ≤ end }
        requires end { end < 64 }
        ensures { (k : ℕ) → has result k ≡ (has self k && (nat_le from k && nat_lt k end)) }
    {
        NumberSet {
            digits: self.digits & ((1 << end) - (1 << from)),
        }
    }

    /// Returns the set of the numbers that have a weekday of this set, in seven weeks. Requires `before < 7`.
    ///
    /// Weekdays are 0 to 6. The weekday of 0 is `before`, that of 1 is the next one, and so on to before `49 - before`.
    /// With the weekday of the day before the first of a month as `before`, the members are days of that month.
    ///
    /// ```
    /// NumberSet::single(6).every_week(5).first_in(2, 32) // Some(8)
    /// ```
    #[inline]
    pub fn every_week(self, before: u32) -> NumberSet
        requires { before < 7 }
        ensures members { (k : ℕ) → k + before < 49 → has result k ≡ has self ((k + before) % 7) }
        ensures small { (k : ℕ) → 49 ≤ k + before → has result k ≡ false }
    {
        let weeks = (self.digits & WEEK) * SEVEN_WEEKS;
        NumberSet {
            digits: weeks >> before,
        }
    }
}

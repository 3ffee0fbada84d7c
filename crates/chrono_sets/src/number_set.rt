//! `NumberSet`: a set of numbers from 0 to 63.
ghost use Rattle.std.specs.Prelude.{◌≡◌, ◌<◌, ◌≤◌, ◌-◌, ◌==◌, nat_le, nat_lt, ◌&&◌, ◌||◌, ℕ, true, IsTrue};
ghost use Rattle.chrono_sets.specs.FiniteSets.{are_below, are_empty, has, is_empty, no_numbers, numbers, with_number};
ghost use Rattle.chrono_sets.specs.Steps.{is_by_steps};

use std::marker::Model;

/// A set of numbers from 0 to 63.
///
/// ```
/// let hours = NumberSet::by_steps(9, 14, 2);
/// (hours.contains(11), hours.contains(12)) // (true, false)
/// ```
#[derive(Clone, Copy, PartialEq, Eq, Debug)]
pub struct NumberSet {
    // The digit for 2^k says whether k is a member.
    pub(crate) digits: u64,
}

impl Model for NumberSet {
    ghost use Rattle.chrono_sets.specs.FiniteSets.{FiniteSet};

    ghost Value = { FiniteSet };

    ghost view = { λ s. record { code = s.digits } };

    ghost inverse = { λ set. record { digits = set.code } };
}

impl NumberSet {
    /// Returns the set with no member.
    ///
    /// ```
    /// NumberSet::none().contains(6) // false
    /// ```
    #[inline]
    pub fn none() -> NumberSet
        ensures { result ≡ no_numbers }
    {
        NumberSet { digits: 0 }
    }

    /// Returns the set of one number. Requires `number < 64`.
    ///
    /// ```
    /// NumberSet::single(6).contains(6) // true
    /// ```
    #[inline]
    pub fn single(number: u32) -> NumberSet
        requires { number < 64 }
        ensures { result ≡ with_number no_numbers number }
    {
        NumberSet {
            digits: 1 << number,
        }
    }

    /// Returns the set of the numbers in the array `list`. Requires each to be below 64.
    ///
    /// ```
    /// NumberSet::from_array([1, 31]) == NumberSet::single(31).with(1) // true
    /// ```
    #[inline]
    pub fn from_array<const C: usize>(list: [u32; C]) -> NumberSet
        requires { IsTrue (are_below 64 list) }
        ensures { result ≡ numbers list.entry }
    {
        let mut set = NumberSet::none();
        for number in list {
            set = set.with(number);
        }
        set
    }

    /// Returns the set of the numbers from `first` on that are below `end`. Requires `first <= end` and `end < 64`.
    ///
    /// ```
    /// NumberSet::range(1, 6) == NumberSet::from_array([1, 2, 3, 4, 5]) // true
    /// ```
    #[inline]
    pub fn range(first: u32, end: u32) -> NumberSet
        requires order { first ≤ end }
        requires end { end < 64 }
        ensures { (k : ℕ) → has result k ≡ (nat_le first k && nat_lt k end) }
    {
        NumberSet {
            digits: (1 << end) - (1 << first),
        }
    }

    /// Returns every `step`-th number from `first` to `last`.
    ///
    /// The set is empty if `last` is below `first`. Requires `last < 64` and `step > 0`.
    ///
    /// ```
    /// NumberSet::by_steps(9, 14, 2) == NumberSet::from_array([9, 11, 13]) // true
    /// ```
    pub fn by_steps(first: u32, last: u32, step: u32) -> NumberSet
        requires last { last < 64 }
        requires step { 0 < step }
        ensures { (k : ℕ) → has result k ≡ is_by_steps first last step k }
    {
        let mut set = NumberSet::none();
        let mut number = first;
        while number <= last {
            if (number - first) % step == 0 {
                set = set.with(number);
            }
            number += 1;
        }
        set
    }

    /// Returns whether `number` is a member. Requires `number < 64`.
    ///
    /// ```
    /// NumberSet::by_steps(9, 14, 2).contains(11) // true
    /// ```
    #[inline]
    #[tactic(auto, using(std::proofs::lemmas::Nat::Bits::shr_and_one), unfolding(crate::specs::FiniteSets::has))]
    pub fn contains(self, number: u32) -> bool
        requires { number < 64 }
        ensures { result ≡ has self number }
    {
        (self.digits >> number) & 1 == 1
    }

    /// Returns the members and `number`. Requires `number < 64`.
    ///
    /// ```
    /// NumberSet::single(0).with(2) == NumberSet::from_array([0, 2]) // true
    /// ```
    #[inline]
    pub fn with(self, number: u32) -> NumberSet
        requires { number < 64 }
        ensures set { result ≡ with_number self number }
        ensures members { (k : ℕ) → has result k ≡ (has self k || (k == number)) }
    {
        NumberSet {
            digits: self.digits | (1 << number),
        }
    }

    /// Returns whether the set has no member.
    ///
    /// ```
    /// NumberSet::none().is_empty() // true
    /// ```
    #[inline]
    pub fn is_empty(self) -> bool
        ensures { result ≡ is_empty self }
    {
        self.digits == 0
    }

    /// Returns the members of both sets.
    ///
    /// ```
    /// NumberSet::range(1, 6).intersection(NumberSet::range(4, 9)) == NumberSet::range(4, 6) // true
    /// ```
    #[inline]
    pub fn intersection(self, other: NumberSet) -> NumberSet
        ensures { (k : ℕ) → has result k ≡ (has self k && has other k) }
    {
        NumberSet {
            digits: self.digits & other.digits,
        }
    }

    /// Returns the members of either set.
    ///
    /// ```
    /// NumberSet::range(1, 4).union(NumberSet::range(3, 6)) == NumberSet::range(1, 6) // true
    /// ```
    #[inline]
    pub fn union(self, other: NumberSet) -> NumberSet
        ensures { (k : ℕ) → has result k ≡ (has self k || has other k) }
    {
        NumberSet {
            digits: self.digits | other.digits,
        }
    }
}

/// Returns whether none of the sets has a member.
///
/// All are looked at, since a branch for each would cost more.
///
/// ```
/// are_empty(&[NumberSet::none(), NumberSet::single(3)]) // false
/// ```
#[inline]
pub fn are_empty(sets: &[NumberSet]) -> bool
    ensures { result ≡ are_empty sets.now }
{
    let mut all = NumberSet::none();
    for set in sets {
        all = all.union(*set);
    }
    all.is_empty()
}

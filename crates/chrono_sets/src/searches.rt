//! The first and the last member of a set in a range, and how many numbers in a row it leaves out.
ghost use Rattle.std.specs.Prelude.{◌≡◌, ◌<◌, ◌≤◌, ◌+◌, ◌-◌, ℕ, true, false, IsTrue, IfSome, IfNone};
ghost use Rattle.chrono_sets.specs.FiniteSets.{has};

use crate::number_set::NumberSet;

impl NumberSet {
    /// Returns the least member that is at least `from` and below `end`. Requires `from < 64`.
    ///
    /// Returns `None` if there is none.
    ///
    /// ```
    /// NumberSet::by_steps(9, 14, 2).first_in(10, 60) // Some(11)
    /// ```
    #[inline]
    pub fn first_in(self, from: u32, end: u32) -> Option<u32>
        requires { from < 64 }
        ensures member { IfSome result (λ k. IsTrue (has self k)) }
        ensures not_before { IfSome result (λ k. from ≤ k) }
        ensures before { IfSome result (λ k. k < end) }
        ensures least { IfSome result (λ k. (j : ℕ) → from ≤ j → j < k → has self j ≡ false) }
        ensures none { IfNone result ((j : ℕ) → from ≤ j → j < end → has self j ≡ false) }
    {
        let rest = self.digits >> from;
        if rest == 0 {
            return None;
        }
        let first = from + rest.trailing_zeros();
        if first < end { Some(first) } else { None }
    }

    /// Returns the greatest member that is at least `from` and below `end`. Requires `end < 64`.
    ///
    /// Returns `None` if there is none.
    ///
    /// ```
    /// NumberSet::by_steps(9, 14, 2).last_in(0, 13) // Some(11)
    /// ```
    #[inline]
    pub fn last_in(self, from: u32, end: u32) -> Option<u32>
        requires { end < 64 }
        ensures member { IfSome result (λ k. IsTrue (has self k)) }
        ensures not_before { IfSome result (λ k. from ≤ k) }
        ensures before { IfSome result (λ k. k < end) }
        ensures greatest { IfSome result (λ k. (j : ℕ) → k < j → j < end → has self j ≡ false) }
        ensures none { IfNone result ((j : ℕ) → from ≤ j → j < end → has self j ≡ false) }
    {
        let rest = self.digits & ((1 << end) - 1);
        if rest == 0 {
            return None;
        }
        let last = 63 - rest.leading_zeros();
        if from <= last { Some(last) } else { None }
    }

    /// Returns the first number from `from` on, below `end`, that is no member, or `end` if there is none.
    ///
    /// Requires `from <= end` and `end < 64`.
    ///
    /// ```
    /// NumberSet::range(1, 5).first_gap(2, 60) // 5
    /// ```
    pub fn first_gap(self, from: u32, end: u32) -> u32
        requires order { from ≤ end }
        requires end { end < 64 }
        ensures not_before { from ≤ result }
        ensures within { result ≤ end }
        ensures members { (k : ℕ) → from ≤ k → k < result → has self k ≡ true }
        ensures gap { result < end → has self result ≡ false }
    {
        let mut number = from;
        while number < end {
            if !self.contains(number) {
                return number;
            }
            number += 1;
        }
        end
    }

    /// Returns how many numbers in a row the set leaves out, from `from` on upwards. Requires `from < 64`.
    ///
    /// Returns 64 if it has no member from `from` on.
    ///
    /// ```
    /// NumberSet::single(9).gap_up(2) // 7
    /// ```
    #[inline]
    pub fn gap_up(self, from: u32) -> u32
        requires { from < 64 }
        ensures left_out { (j : ℕ) → j < result → has self (from + j) ≡ false }
        ensures few { result ≤ 64 }
        ensures member { result < 64 → IsTrue (has self (from + result)) }
    {
        (self.digits >> from).trailing_zeros()
    }

    /// Returns how many numbers in a row the set leaves out, from `from` on downwards. Requires `from < 64`.
    ///
    /// Returns 64 if it has no member from 0 to `from`.
    ///
    /// ```
    /// NumberSet::single(2).gap_down(9) // 7
    /// ```
    #[inline]
    pub fn gap_down(self, from: u32) -> u32
        requires { from < 64 }
        ensures left_out { (j : ℕ) → j < result → j ≤ from → has self (from - j) ≡ false }
        ensures few { result ≤ 64 }
        ensures inside { result < 64 → result ≤ from }
        ensures member { result < 64 → IsTrue (has self (from - result)) }
    {
        (self.digits << (63 - from)).leading_zeros()
    }

    /// Returns how many numbers in a row the set leaves out, in a circle of the numbers from `first` to before `end`.
    ///
    /// It counts from `from` on upwards, and from `first` on again. The answer is at most all of the circle.
    /// Requires `first <= from`, `from < end` and `end <= 64`.
    ///
    /// ```
    /// NumberSet::single(2).gap_around(1, 11, 13) // 3
    /// ```
    #[inline]
    pub fn gap_around(self, first: u32, from: u32, end: u32) -> u32
        requires low { first ≤ from }
        requires high { from < end }
        requires end { end ≤ 64 }
        ensures ahead { (j : ℕ) → j < result → from + j < end → has self (from + j) ≡ false }
        ensures around { (j : ℕ) → j < result → end ≤ from + j → has self (first + (from + j - end)) ≡ false }
        ensures few { result ≤ end - first }
        ensures member_ahead { from + result < end → IsTrue (has self (from + result)) }
        ensures member_around { end ≤ from + result → result < end - first → IsTrue (has self (first + (from + result - end))) }
    {
        let ahead = self.gap_up(from);
        if ahead < end - from {
            return ahead;
        }
        let again = self.gap_up(first);
        (end - from) + again.min(from - first)
    }
}

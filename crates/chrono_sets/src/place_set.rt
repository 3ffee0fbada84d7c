//! `PlaceSet`: a set of numbers from 0 to 383.
ghost use Rattle.std.specs.Prelude.{◌≡◌, ◌↔◌, ◌==◌, ◌<◌, ◌≤◌, ◌+◌, ◌-◌, ◌%◌, ℕ, false, IsTrue, IfSome, IfNone};
ghost use Rattle.std.specs.Cmp.Rules.{comparing};
ghost use Rattle.std.specs.Ordering.{on};
ghost use Rattle.std.proofs.Common.{rules};
ghost use Rattle.chrono_sets.specs.FiniteSets.{code_of, has, is_empty, no_numbers, with_number};

use std::marker::Model;

/// A set of numbers from 0 to 383, large enough for the days of a year.
///
/// ```
/// PlaceSet::none().with(366).contains(366) // true
/// ```
#[derive(Clone, Copy, Debug)]
pub struct PlaceSet {
    // The digit for 2^(k % 64) of the word k / 64 says whether k is a member.
    words: [u64; 6],
}

impl Model for PlaceSet {
    ghost use Rattle.chrono_sets.specs.FiniteSets.{FiniteSet};
    ghost use Rattle.chrono_sets.specs.Words.{AreSixWords, joined, words_of, words_of-six};
    ghost use Rattle.std.specs.Prelude.{ℕ, List};
    ghost use Rattle.std.proofs.Common.{ap};

    ghost Value = { FiniteSet };

    ghost view = { λ s. record { code = joined s.words } };

    ghost invariant = { λ s. AreSixWords s.words };

    ghost inverse = { λ set. record { words = words_of 6 set.code } };

    ghost inverse_ok = { λ s h.
        let with_words : List ℕ → Inside = λ words. record { words = words } in
        ap with_words (words_of-six s.words h) };
}

impl PlaceSet {
    /// Returns the set with no member.
    ///
    /// ```
    /// PlaceSet::none().contains(366) // false
    /// ```
    #[inline]
    pub fn none() -> PlaceSet
        ensures { result ≡ no_numbers }
    {
        PlaceSet {
            words: [0, 0, 0, 0, 0, 0],
        }
    }

    /// Returns whether `number` is a member. Requires `number < 384`.
    ///
    /// ```
    /// PlaceSet::none().with(366).contains(366) // true
    /// ```
    #[inline]
    pub fn contains(&self, number: u32) -> bool
        requires { number < 384 }
        ensures { result ≡ has self.now number }
    {
        (self.words[(number / 64) as usize] >> (number % 64)) & 1 == 1
    }

    /// Returns the members and `number`. Requires `number < 384`.
    ///
    /// ```
    /// PlaceSet::none().with(65).contains(65) // true
    /// ```
    #[inline]
    pub fn with(self, number: u32) -> PlaceSet
        requires { number < 384 }
        ensures { result ≡ with_number self number }
    {
        let mut set = self;
        let word = (number / 64) as usize;
        set.words[word] = set.words[word] | (1 << (number % 64));
        set
    }

    /// Returns whether the set has no member.
    ///
    /// ```
    /// PlaceSet::none().is_empty() // true
    /// ```
    #[inline]
    pub fn is_empty(&self) -> bool
        ensures { result ≡ is_empty self.now }
    {
        // All words are looked at, since a branch for each would cost more.
        let mut all = 0;
        for word in &self.words {
            all = all | *word;
        }
        all == 0
    }

    /// Returns the greatest member.
    ///
    /// Returns `None` if there is none.
    ///
    /// ```
    /// PlaceSet::none().with(65).with(2).last() // Some(65)
    /// ```
    pub fn last(&self) -> Option<u32>
        ensures member { IfSome result (λ k. IsTrue (has self.now k)) }
        ensures greatest { IfSome result (λ k. (j : ℕ) → k < j → has self.now j ≡ false) }
        ensures few { IfSome result (λ k. k < 384) }
        ensures none { IfNone result ((j : ℕ) → has self.now j ≡ false) }
    {
        let mut count = 6;
        while count > 0 {
            let word = self.words[count - 1];
            if word != 0 {
                return Some(64 * (count as u32 - 1) + (63 - word.leading_zeros()));
            }
            count -= 1;
        }
        None
    }

    /// Returns how many numbers in a row the set leaves out, from `from` on upwards. Requires `from < 384`.
    ///
    /// It looks no further than to before the next multiple of 64.
    ///
    /// ```
    /// PlaceSet::none().with(65).gap_up(64) // 1
    /// PlaceSet::none().with(65).gap_up(60) // 4
    /// ```
    #[inline]
    pub fn gap_up(&self, from: u32) -> u32
        requires { from < 384 }
        ensures left_out { (j : ℕ) → j < result → has self.now (from + j) ≡ false }
        ensures few { result ≤ 64 - from % 64 }
        ensures member { result < 64 - from % 64 → IsTrue (has self.now (from + result)) }
    {
        let place = from % 64;
        let rest = self.words[(from / 64) as usize] >> place;
        rest.trailing_zeros().min(64 - place)
    }

    /// Returns how many numbers in a row the set leaves out, from `from` on downwards. Requires `from < 384`.
    ///
    /// It looks no further than to the multiple of 64 that is `from` or lies before it.
    ///
    /// ```
    /// PlaceSet::none().with(65).gap_down(66) // 1
    /// PlaceSet::none().with(60).gap_down(66) // 3
    /// ```
    #[inline]
    pub fn gap_down(&self, from: u32) -> u32
        requires { from < 384 }
        ensures left_out { (j : ℕ) → j < result → has self.now (from - j) ≡ false }
        ensures few { result ≤ from % 64 + 1 }
        ensures member { result < from % 64 + 1 → IsTrue (has self.now (from - result)) }
    {
        let place = from % 64;
        let rest = self.words[(from / 64) as usize] << (63 - place);
        rest.leading_zeros().min(place + 1)
    }
}

impl PartialEq for PlaceSet {
    ghost eq = { on code_of ◌==◌ };

    ghost laws = { Prim.search (comparing, rules) };

    #[inline]
    fn eq(&self, other: &PlaceSet) -> bool
        ensures same { IsTrue result ↔ (self.now ≡ other.now) }
        ensures number { result ≡ (code_of self.now == code_of other.now) }
    {
        self.words == other.words
    }
}

impl Eq for PlaceSet {
    ghost laws = { Prim.search (comparing, rules) };
}

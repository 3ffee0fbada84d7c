//! Laws of the texts of numbers, for proofs of callers.
ghost use Rattle.std.specs.Prelude.{◌≡◌, ◌↔◌, ℕ, ℤ, List, Some, pos, neg_ℤ, codes};
ghost use Rattle.chrono_text.specs.Fractions.{IsFractionText, SameFraction};
ghost use Rattle.chrono_text.specs.Numbers.{number_of, WritesNumber};
ghost use Rattle.chrono_text.specs.Text.{clock_text, duration_text};

/// A reader of numbers reads exactly the texts that write a number: an optional `-`, and one digit or more.
pub fn numbers_are_texts()
    ensures read { (text : List ℕ) (z : ℤ) → number_of text ≡ Some z → WritesNumber text z }
    ensures written { (text : List ℕ) (z : ℤ) → WritesNumber text z → number_of text ≡ Some z }
{}

/// Two texts of fractions of a second write the same nanoseconds exactly if they differ in zeros at the end of one of them.
///
/// A point followed by zeros alone counts as such zeros.
pub fn texts_of_a_fraction_differ_in_last_zeros()
    ensures { (text other : List ℕ) (n m : ℕ) → IsFractionText text n → IsFractionText other m
        → SameFraction text other ↔ (n ≡ m) }
{}

/// States known texts of durations and of a time of day.
///
/// The durations are 42 milliseconds, 0.500001 seconds forwards and backwards, and -`i64::MAX` milliseconds. The
/// fraction of the time has six digits.
pub fn known_texts()
    ensures milliseconds { duration_text (pos 42_000_000) ≡ codes "PT0.042S" }
    ensures microseconds { duration_text (pos 500_001_000) ≡ codes "PT0.500001S" }
    ensures back { duration_text (neg_ℤ (pos 500_001_000)) ≡ codes "-PT0.500001S" }
    ensures longest_back { duration_text (neg_ℤ (pos 9_223_372_036_854_775_807_000_000))
        ≡ codes "-PT9223372036854775.807S" }
    ensures six_digits { clock_text 13 4 56 500_001_000 ≡ codes "13:04:56.500001" }
{}

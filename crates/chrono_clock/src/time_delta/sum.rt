//! Sums over iterators of durations.
ghost use Rattle.std.specs.Prelude.{◌≡◌, ℕ, MatchOption, map};
ghost use Rattle.std.specs.Iterator.{IsFinite};
ghost use Rattle.std.specs.Iterator.Runs.{SomeRun, WholeRun};
ghost use Rattle.chrono_clock.specs.Duration.{IsDuration, total, StaysInRange};

use crate::TimeDelta;

impl TimeDelta {
    /// Returns the sum of the durations that `iter` yields, or zero if it yields none. The iterator must end.
    ///
    /// Returns `None` if one of the partial sums is out of range, whatever comes after it.
    ///
    /// ```
    /// let parts = [TimeDelta::minutes(5), TimeDelta::seconds(30)];
    /// TimeDelta::checked_sum(parts.into_iter())?.num_seconds() // 330
    /// ```
    pub fn checked_sum<I: Iterator<Item = TimeDelta> + Drop>(iter: I) -> Option<TimeDelta>
        requires can { I.can_next iter }
        requires ends { IsFinite (I.remaining iter) }
        // Either the sum of a beginning is no duration, or none of them leaves the range and the answer is the sum of all.
        ensures { MatchOption result
            (SomeRun I.next_gives iter (λ p. ¬ IsDuration (total p.items)))
            (λ sum. WholeRun I.next_gives iter (λ p. StaysInRange p.items × (sum ≡ total p.items))) }
    {
        let mut sum = TimeDelta::zero();
        for duration in iter {
            sum = sum.checked_add(&duration)?;
        }
        Some(sum)
    }

    /// Returns the sum as [`checked_sum`](Self::checked_sum) does, of references to durations.
    ///
    /// ```
    /// let parts = [TimeDelta::minutes(5), TimeDelta::seconds(30)];
    /// TimeDelta::checked_sum_refs(parts.iter())?.num_seconds() // 330
    /// ```
    pub fn checked_sum_refs<'a, I: Iterator<Item = &'a TimeDelta> + Drop>(
        iter: I,
    ) -> Option<TimeDelta>
        requires can { I.can_next iter }
        requires ends { IsFinite (I.remaining iter) }
        // Either the sum of a beginning is no duration, or none of them leaves the range and the answer is the sum of all.
        ensures { MatchOption result
            (SomeRun I.next_gives iter (λ p. ¬ IsDuration (total (map (λ r. r.now) p.items))))
            (λ sum. WholeRun I.next_gives iter
            (λ p. StaysInRange (map (λ r. r.now) p.items) × (sum ≡ total (map (λ r. r.now) p.items)))) }
    {
        TimeDelta::checked_sum(iter.copied())
    }
}

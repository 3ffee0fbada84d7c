//! Laws of rules in a zone, each as the contract of a function that does nothing.
ghost use Rattle.std.specs.Prelude.{◌≡◌, ◌↔◌, ◌⊎◌, ℕ, ℤ, pos, neg_ℤ, ◌+ℤ◌, ◌-ℤ◌, ◌≤ℤ◌, ◌∷◌, []};
ghost use Rattle.chrono_datetime.specs.Moment.{Moment};
ghost use Rattle.chrono_instant.specs.Instants.{epoch_second};
ghost use Rattle.chrono_zoned.specs.KnownZones.{set_ahead, set_back};
ghost use Rattle.chrono_zoned.specs.Zoned.{Zoned};
ghost use Rattle.chrono_zoned.specs.Zones.{IsOnly};
ghost use Rattle.zoned_rules.specs.LocalInstants.{HasDates, IsInstantOf};
ghost use Rattle.zoned_rules.specs.LocalTimes.{IsLocalSecond, LocalParts};
ghost use Rattle.zoned_rules.specs.Recurs.{IsNumbered, IsWithin, Recurs};
ghost use Rattle.zoned_rules.specs.ZonedSets.{IsInZonedSet};
ghost use Rattle.zoned_rules.specs.declared.bound.Bound.{Bound};
ghost use Rattle.zoned_rules.specs.declared.bound.Bound.TheVariants.{Count, Until};

/// A local time stands for one instant at most.
pub fn local_times_stand_for_one_instant()
    ensures { (ahead : ℤ → ℤ) (l u v : ℤ) → IsInstantOf ahead l u → IsInstantOf ahead l v → u ≡ v }
{}

/// COUNT counts each instant once: no instant has two numbers in the order of instants.
pub fn instants_are_counted_once()
    ensures { (r : LocalParts) (ahead : ℤ → ℤ) (j k : ℕ) (u : ℤ) → IsNumbered (Recurs r ahead) j u → IsNumbered (Recurs r ahead) k u → j ≡ k }
{}

/// In a zone of one offset a rule recurs exactly at its local times, from the start on.
pub fn one_offset_is_local_time()
    ensures { (r : LocalParts) (x u : ℤ) → HasDates (λ _. x) u → Recurs r (λ _. x) u
        ↔ (((epoch_second r.start -ℤ x) ≤ℤ u) × IsLocalSecond r (u +ℤ x)) }
{}

/// Which instant the local second 2,000 stands for where the clock is set ahead from 1,000 to 4,600 at the second 1,000.
///
/// The clock skips it. The offset before the gap is 0, so it stands for the second 2,000, which the clock shows as 5,600. The local second 4,600
/// comes earlier, at 1,000.
pub fn known_gap()
    ensures skipped { IsOnly (IsInstantOf set_ahead (pos 2_000)) (pos 2_000) }
    ensures behind { IsOnly (IsInstantOf set_ahead (pos 4_600)) (pos 1_000) }
{}

/// Which instant the local second 2,000 stands for where the clock is set back from 4,600 to 1,000 at the second 1,000.
///
/// The clock shows it at the instants -1,600 and 2,000. The first counts.
pub fn known_fold()
    ensures { IsOnly (IsInstantOf set_back (pos 2_000)) (neg_ℤ (pos 1_600)) }
{}

/// Where a rule begins that starts behind a gap, and one that starts in it. The clock is set ahead from 1,000 to 4,600 at the second 1,000.
///
/// From 4,600 on, behind the gap, the local second 2,000 is before the start. It would stand for the second 2,000, which the clock shows as 5,600.
/// From 2,000 on, in the gap, the local second 4,600 is later by the clock. But it stands for 1,000, before the start's instant.
pub fn known_starts()
    ensures behind_gap { (r : LocalParts) → epoch_second r.start ≡ pos 4_600 → ¬ IsLocalSecond r (pos 5_600) → ¬ Recurs r set_ahead (pos 2_000) }
    ensures in_gap { (r : LocalParts) → epoch_second r.start ≡ pos 2_000 → ¬ Recurs r set_ahead (pos 1_000) }
{}

/// UNTIL keeps the instant that it names, and none behind it. It is an instant, whatever the clock shows there.
pub fn known_until()
    ensures last { (r : LocalParts) (ahead : ℤ → ℤ) (m : Moment) → IsWithin (Until m) (Recurs r ahead) (epoch_second m) }
    ensures past { (r : LocalParts) (ahead : ℤ → ℤ) (m : Moment) → ¬ IsWithin (Until m) (Recurs r ahead) (epoch_second m +ℤ pos 1) }
{}

/// Of the seconds 10, 20 and 30, COUNT=2 keeps 20 and leaves 30 out.
pub fn known_count()
    ensures second { IsWithin (Count 2) (λ u. (u ≡ pos 10) ⊎ ((u ≡ pos 20) ⊎ (u ≡ pos 30))) (pos 20) }
    ensures third { ¬ IsWithin (Count 2) (λ u. (u ≡ pos 10) ⊎ ((u ≡ pos 20) ⊎ (u ≡ pos 30))) (pos 30) }
{}

/// An instant of RDATE is in the set beside any rule, and one of EXDATE is in none, not even where RDATE lists it too.
pub fn known_sets()
    ensures added { (r : LocalParts) (ahead : ℤ → ℤ) (bound : Bound) (d : Zoned ℤ) → HasDates ahead (epoch_second d.utc)
        → IsInZonedSet r ahead bound (d ∷ []) [] (epoch_second d.utc) }
    ensures left_out { (r : LocalParts) (ahead : ℤ → ℤ) (bound : Bound) (d : Zoned ℤ) → ¬ IsInZonedSet r ahead bound [] (d ∷ []) (epoch_second d.utc) }
    ensures in_both { (r : LocalParts) (ahead : ℤ → ℤ) (bound : Bound) (d : Zoned ℤ) → ¬ IsInZonedSet r ahead bound (d ∷ []) (d ∷ []) (epoch_second d.utc) }
{}

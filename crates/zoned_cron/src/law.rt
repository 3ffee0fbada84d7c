//! Laws of schedules in a zone, each as the contract of a function that does nothing.
ghost use Rattle.std.specs.Prelude.{◌≡◌, ◌↔◌, ◌⊎◌, ◌≤ℤ◌, ◌<ℤ◌, true, ℕ, ℤ, pos, neg_ℤ, List, [], ◌∷◌};
ghost use Rattle.std.specs.List.{Contains};
ghost use Rattle.chrono_datetime.specs.Moment.{IsMoment, Moment};
ghost use Rattle.chrono_instant.specs.Instants.{epoch_second};
ghost use Rattle.chrono_instant.specs.Offsets.{IsOffset, moment_ahead};
ghost use Rattle.chrono_zoned.specs.KnownZones.{set_ahead, set_back};
ghost use Rattle.chrono_zoned.specs.Zones.{IsMapped, IsOnly};
ghost use Rattle.chrono_zoned.specs.declared.mapped_local_time.MappedLocalTime.{MappedLocalTime};
ghost use Rattle.chrono_cron.specs.Due.{is_due};
ghost use Rattle.chrono_cron.specs.KnownSchedules.{each_minute, no_minute};
ghost use Rattle.chrono_cron.specs.declared.field_sets.FieldSets.{FieldSets};
ghost use Rattle.zoned_cron.specs.DayFirings.{AreDifferent, FireOnceEach, FireTogether, ShowsMinutes, minute_of_day, planned_minutes};
ghost use Rattle.zoned_cron.specs.Fires.{ChangesAreShort, FiresAt, FollowsClock, IsGap, IsInstant, Takes, TakesShown, as_planned, as_shown, as_shown_last, once_each};
ghost use Rattle.zoned_cron.specs.KnownClocks.{set_once};
ghost use Rattle.zoned_cron.specs.declared.policy.Fold.{Fold};
ghost use Rattle.zoned_cron.specs.declared.policy.Fold.TheVariants.{Later};
ghost use Rattle.zoned_cron.specs.declared.policy.Gap.TheVariants.{Skip};
ghost use Rattle.zoned_cron.specs.declared.policy.Policy.{Policy};

/// In a zone of one offset a schedule fires exactly where it is due at the local time, whatever the policy.
pub fn one_offset_is_local_time()
    ensures { (s : FieldSets) (p : Policy) (x : ℤ) (m : Moment) → IsMoment m → m.time.fraction ≡ 0 → IsInstant (λ _. x) (epoch_second m)
        → FiresAt s (λ _. x) p m ↔ (is_due s (moment_ahead m x) ≡ true) }
{}

/// By the policy of once each, no planned local time fires twice.
pub fn no_planned_time_fires_twice()
    ensures { (ahead : ℤ → ℤ) (l u v : ℤ) → Takes once_each ahead l u → Takes once_each ahead l v → u ≡ v }
{}

/// By the policy of once each, each planned local time fires at one instant, and at no other.
///
/// So a day has a firing for each of its planned minutes. Those that one gap skips have their firing in common. All that is asked of the clock is
/// that each of its offsets is less than a day, as every [`TimeZone`](crate::TimeZone) promises.
pub fn each_planned_time_fires_once()
    ensures { (ahead : ℤ → ℤ) → ((u : ℤ) → IsOffset (ahead u))
        → (l : ℤ) → (u : ℤ) × IsOnly (Takes once_each ahead l) u }
{}

/// For a local day of which the clock skips no minute, a schedule has exactly as many firings by once each as planned minutes.
///
/// Each planned minute fires at one instant, and no two at the same. Each moment at which the schedule is due is the beginning of one of them.
/// A minute that the clock skips at the end of the day before may fire on this day besides.
pub fn a_day_fires_as_often_as_planned()
    ensures day { (s : FieldSets) (ahead : ℤ → ℤ) → ((u : ℤ) → IsOffset (ahead u))
        → (n : ℤ) → ShowsMinutes ahead n → (fired : List ℤ) × FireOnceEach ahead n (planned_minutes s n) fired × AreDifferent fired }
    ensures minutes { (s : FieldSets) (m : Moment) → IsMoment m → is_due s m ≡ true
        → (k : ℕ) × (m ≡ minute_of_day m.date k) × Contains (planned_minutes s m.date) k }
{}

/// By the policy of once each, planned local times that one gap skips have their firing in common.
///
/// Two planned times fire together only if the clock shows no second from the earlier one up to the other.
pub fn one_gap_fires_once()
    ensures together { (ahead : ℤ → ℤ) (l k u : ℤ) → l ≤ℤ k → ((j : ℤ) → l ≤ℤ j → j ≤ℤ k → IsGap ahead j) → Takes once_each ahead l u
        → Takes once_each ahead k u }
    ensures apart { (ahead : ℤ → ℤ) (l k u : ℤ) → l ≤ℤ k → Takes once_each ahead l u → Takes once_each ahead k u
        → (j : ℤ) → l ≤ℤ j → j <ℤ k → IsGap ahead j }
{}

/// On any local day a schedule fires by once each for each planned minute. Minutes fire together if the clock shows no second from the
/// one up to the other, and at instants of their own if it does.
///
/// So the planned minutes of one gap count as one firing. A planned minute that begins where the gap ends shares it.
pub fn minutes_of_a_gap_fire_together()
    ensures { (s : FieldSets) (ahead : ℤ → ℤ) → ((u : ℤ) → IsOffset (ahead u))
        → (n : ℤ) → (fired : List ℤ) × FireTogether ahead n (planned_minutes s n) fired × AreDifferent fired }
{}

/// A planned local time that the clock shows fires, whatever the policy.
pub fn no_shown_time_is_missed()
    ensures { (fold : Fold) (ahead : ℤ → ℤ) (l : ℤ) (found : MappedLocalTime ℤ) → IsMapped ahead l found
        → IsGap ahead l ⊎ ((u : ℤ) × TakesShown fold ahead l u) }
{}

/// Where no change of the clock is a correction, fixed times fire in Vixie's cron by once each.
///
/// So what holds of once each holds of `Policy::vixie` there: a clock that is set ahead by less than three hours, and back by no more than three.
pub fn short_changes_fire_once_each()
    ensures { (ahead : ℤ → ℤ) → ChangesAreShort ahead → (l u : ℤ) → Takes as_planned ahead l u ↔ Takes once_each ahead l u }
{}

/// What becomes of fixed times where the clock is set by about three hours, at the second 100,000.
///
/// A gap that is a second shorter is caught up, and one of just three hours is not. A fold of just three hours is not run again, and one that is
/// a second longer is.
pub fn known_corrections()
    ensures short_gap { Takes as_planned (set_once (pos 0) (pos 10_799)) (pos 105_000) (pos 100_000) }
    ensures long_gap { (u : ℤ) → ¬ Takes as_planned (set_once (pos 0) (pos 10_800)) (pos 105_000) u }
    ensures short_fold { ¬ Takes as_planned (set_once (pos 10_800) (pos 0)) (pos 105_000) (pos 105_000) }
    ensures long_fold { Takes as_planned (set_once (pos 10_801) (pos 0)) (pos 105_000) (pos 105_000) }
{}

/// Which schedules follow the clock: the flag of their sets says so. `known_followers` of `chrono_cron` has the texts.
pub fn known_policies()
    ensures clock { FollowsClock each_minute }
    ensures fixed { ¬ FollowsClock no_minute }
    ensures quartz { as_shown_last ≡ record { gap = Skip; fold = Later } }
{}

/// What becomes of the local second 2,000 where the clock is set ahead from 1,000 to 4,600.
///
/// Once each means the instant 1,000, the first behind the gap. A schedule that follows the clock does not fire for it.
pub fn known_gap()
    ensures once { Takes once_each set_ahead (pos 2_000) (pos 1_000) }
    ensures never { (u : ℤ) → ¬ Takes as_shown set_ahead (pos 2_000) u }
{}

/// Where minutes 10, 20, 40 and 77 of 1 January 1970 fire, if the clock is set ahead from 1,000 to 4,600.
///
/// It skips minutes 20 and 40, which fire together at the instant 1,000. The other two have instants of their own.
pub fn known_gap_day()
    ensures { FireTogether set_ahead (pos 719_163) (10 ∷ 20 ∷ 40 ∷ 77 ∷ []) (pos 600 ∷ pos 1_000 ∷ pos 1_020 ∷ []) }
{}

/// What becomes of the local second 2,000 where the clock is set back from 4,600 to 1,000.
///
/// The clock shows it at the instants -1,600 and 2,000. Once each means the earlier. A schedule that follows the clock fires at both.
pub fn known_fold()
    ensures once { Takes once_each set_back (pos 2_000) (neg_ℤ (pos 1_600)) }
    ensures not_again { ¬ Takes once_each set_back (pos 2_000) (pos 2_000) }
    ensures first { Takes as_shown set_back (pos 2_000) (neg_ℤ (pos 1_600)) }
    ensures second { Takes as_shown set_back (pos 2_000) (pos 2_000) }
{}

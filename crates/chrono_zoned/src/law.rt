//! Laws of zones, each as the contract of a function.
ghost use Rattle.std.specs.Prelude.{◌≡◌, ℤ, pos, ◌+ℤ◌, Some, None};
ghost use Rattle.chrono_datetime.specs.Fields.{unix_epoch_day};
ghost use Rattle.chrono_datetime.specs.Moment.{moment};
ghost use Rattle.chrono_datetime.specs.Time.{time_at};
ghost use Rattle.chrono_zoned.specs.declared.mapped_local_time.MappedLocalTime.{MappedLocalTime};
ghost use Rattle.chrono_zoned.specs.KnownZones.{set_ahead, set_back};
ghost use Rattle.chrono_zoned.specs.Zoned.{local_at};
ghost use Rattle.chrono_zoned.specs.Zones.{HoldsUntil, IsAmong, IsMapped, earliest_of, latest_of, single_of};

use crate::mapped_local_time::MappedLocalTime as Found;

/// A local time stands for the same instants, whichever way they are found.
pub fn local_times_are_mapped_once()
    ensures { (ahead : ℤ → ℤ) (l : ℤ) (m n : MappedLocalTime ℤ) → IsMapped ahead l m → IsMapped ahead l n → m ≡ n }
{}

/// Each instant is among those that its own local time stands for.
pub fn instants_are_among_their_own()
    ensures { (ahead : ℤ → ℤ) (u : ℤ) (m : MappedLocalTime ℤ) → IsMapped ahead (u +ℤ ahead u) m → IsAmong (ahead u) m }
{}

/// What a clock shows that is set an hour ahead at the second 1,000.
///
/// It shows 999 and 4,600 once each, and no second from 1,000 to 4,599.
pub fn known_gap()
    ensures before { IsMapped set_ahead (pos 999) (Found.Single (pos 0)) }
    ensures first { IsMapped set_ahead (pos 1_000) Found.None }
    ensures last { IsMapped set_ahead (pos 4_599) Found.None }
    ensures behind { IsMapped set_ahead (pos 4_600) (Found.Single (pos 3_600)) }
{}

/// What a clock shows that is set an hour back at the second 1,000.
///
/// It shows 999 and 4,600 once each, and each second from 1,000 to 4,599 twice, first the hour ahead.
pub fn known_fold()
    ensures before { IsMapped set_back (pos 999) (Found.Single (pos 3_600)) }
    ensures first { IsMapped set_back (pos 1_000) (Found.Ambiguous (pos 3_600) (pos 0)) }
    ensures last { IsMapped set_back (pos 4_599) (Found.Ambiguous (pos 3_600) (pos 0)) }
    ensures behind { IsMapped set_back (pos 4_600) (Found.Single (pos 0)) }
{}

/// How long the offsets of these two clocks hold: each until the second 1,000, and no second longer.
pub fn known_stretches()
    ensures ahead { HoldsUntil set_ahead (pos 0) (pos 1_000) }
    ensures ahead_no_longer { ¬ HoldsUntil set_ahead (pos 0) (pos 1_001) }
    ensures back { HoldsUntil set_back (pos 0) (pos 1_000) }
    ensures back_no_longer { ¬ HoldsUntil set_back (pos 0) (pos 1_001) }
{}

/// What these two clocks show on 1 January 1970 at the seconds 999 and 1,000, which UTC shows as 00:16:39 and 00:16:40.
pub fn known_local_times()
    ensures ahead_before { local_at set_ahead (moment unix_epoch_day (time_at 0 16 39 5))
        ≡ moment unix_epoch_day (time_at 0 16 39 5) }
    ensures ahead { local_at set_ahead (moment unix_epoch_day (time_at 0 16 40 5))
        ≡ moment unix_epoch_day (time_at 1 16 40 5) }
    ensures back_before { local_at set_back (moment unix_epoch_day (time_at 0 16 39 5))
        ≡ moment unix_epoch_day (time_at 1 16 39 5) }
    ensures back { local_at set_back (moment unix_epoch_day (time_at 0 16 40 5))
        ≡ moment unix_epoch_day (time_at 0 16 40 5) }
{}

/// The values that are taken of none, of one and of two, the earlier first.
pub fn known_choices()
    ensures earliest { earliest_of (Found.Ambiguous (pos 3_600) (pos 0)) ≡ Some (pos 3_600) }
    ensures latest { latest_of (Found.Ambiguous (pos 3_600) (pos 0)) ≡ Some (pos 0) }
    ensures single { single_of (Found.Ambiguous (pos 3_600) (pos 0)) ≡ None }
    ensures earliest_of_one { earliest_of (Found.Single (pos 5)) ≡ Some (pos 5) }
    ensures latest_of_one { latest_of (Found.Single (pos 5)) ≡ Some (pos 5) }
    ensures single_of_one { single_of (Found.Single (pos 5)) ≡ Some (pos 5) }
{}

//! `TimeZone`: how far a zone's clock is ahead of UTC, and the instants of its local times.
ghost use Rattle.std.specs.Prelude.{◌≡◌, ℤ, pos, ◌<ℤ◌};
ghost use Rattle.chrono_instant.specs.Instants.{epoch_second};
ghost use Rattle.chrono_instant.specs.Offsets.{IsOffset};
ghost use Rattle.chrono_zoned.specs.Zones.{HoldsUntil, IsMapped};

use crate::mapped_local_time::MappedLocalTime;
use crate::stretch::Stretch;
use chrono_datetime::NaiveDateTime;
use chrono_instant::FixedOffset;

/// A zone: its clock is ahead of UTC by an offset, which may differ from instant to instant.
///
/// Implement it for a type of your own with three functions. A contract sees the zone as the offset at each second from
/// 1 January 1970, in UTC.
///
/// ```
/// use chrono_datetime::NaiveDateTime;
/// FixedOffset::east_opt(19_800)?.offset_from_utc_datetime(&NaiveDateTime::default()) // +05:30
/// ```
pub trait TimeZone: Copy {
    // How many seconds the clock is ahead of UTC, at each second from 1 January 1970.
    ghost ahead: { Self → ℤ → ℤ };

    /// Returns the offset at the instant at which UTC shows `utc`.
    ///
    /// ```
    /// use chrono_datetime::NaiveDateTime;
    /// Utc.offset_from_utc_datetime(&NaiveDateTime::MIN) // +00:00
    /// ```
    fn offset_from_utc_datetime(&self, utc: &NaiveDateTime) -> FixedOffset
        ensures { result ≡ ahead self.now (epoch_second utc.now) };

    /// Returns the offsets at the instants at which the clock shows `local`, the earlier instant first.
    ///
    /// There is none if the clock is set ahead past `local`. There are two if it is set back, and shows `local` twice.
    ///
    /// ```
    /// use chrono_datetime::NaiveDateTime;
    /// Utc.offset_from_local_datetime(&NaiveDateTime::MIN) // Single(+00:00)
    /// ```
    fn offset_from_local_datetime(&self, local: &NaiveDateTime) -> MappedLocalTime<FixedOffset>
        ensures { IsMapped (ahead self.now) (epoch_second local.now) result };

    /// Returns the offset at the instant `second`, and a later second up to which it holds.
    ///
    /// Seconds count from 1 January 1970 in UTC. A search in the zone goes from stretch to stretch, so a long one makes it fast.
    /// It may end before the next change, and it ends at `i64::MAX` if there is none.
    ///
    /// ```
    /// Utc.stretch_from(0).until == i64::MAX // true
    /// ```
    fn stretch_from(&self, second: i64) -> Stretch
        ensures offset { result.offset ≡ ahead self.now second }
        ensures holds { HoldsUntil (ahead self.now) second result.until }
        ensures later { second <ℤ pos 9_223_372_036_854_775_807 → second <ℤ result.until }
        // Each offset of the zone is less than a day.
        ensures near { (u : ℤ) → IsOffset (ahead self.now u) };
}

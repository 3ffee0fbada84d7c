//! The zones whose offset never changes: UTC, and any fixed offset.

use crate::mapped_local_time::MappedLocalTime;
use crate::stretch::Stretch;
use crate::time_zone::TimeZone;
use chrono_datetime::NaiveDateTime;
use chrono_instant::FixedOffset;

/// Coordinated universal time.
///
/// ```
/// Utc.with_ymd_and_hms(1970, 1, 1, 0, 0, 0).single()?.timestamp() // 0
/// ```
#[derive(Clone, Copy, Debug, PartialEq, Eq, Hash)]
pub struct Utc;

impl TimeZone for Utc {
    ghost use Rattle.std.specs.Prelude.{pos};

    ghost ahead = { λ _ _. pos 0 };

    #[inline]
    fn offset_from_utc_datetime(&self, _utc: &NaiveDateTime) -> FixedOffset {
        FixedOffset::east_opt(0).unwrap()
    }

    #[inline]
    fn offset_from_local_datetime(&self, _local: &NaiveDateTime) -> MappedLocalTime<FixedOffset> {
        MappedLocalTime::Single(FixedOffset::east_opt(0).unwrap())
    }

    #[inline]
    fn stretch_from(&self, _second: i64) -> Stretch {
        Stretch::without_end(FixedOffset::east_opt(0).unwrap())
    }
}

impl TimeZone for FixedOffset {
    ghost ahead = { λ offset _. offset };

    #[inline]
    fn offset_from_utc_datetime(&self, _utc: &NaiveDateTime) -> FixedOffset {
        *self
    }

    #[inline]
    fn offset_from_local_datetime(&self, _local: &NaiveDateTime) -> MappedLocalTime<FixedOffset> {
        MappedLocalTime::Single(*self)
    }

    #[inline]
    fn stretch_from(&self, _second: i64) -> Stretch {
        Stretch::without_end(*self)
    }
}

//! Zones for date-times.

use crate::zone::Zone;
use chrono_datetime::NaiveDateTime;
use chrono_zoned::{FixedOffset, MappedLocalTime, Stretch, TimeZone, Timestamp};

impl<'b, 'a> TimeZone for &'b Zone<'a> {
    ghost use Rattle.zone.specs.Parts.{zone_offset};

    ghost ahead = { λ z. zone_offset z.now };

    fn offset_from_utc_datetime(&self, utc: &NaiveDateTime) -> FixedOffset {
        self.offset_of_instant(utc.timestamp())
    }

    fn offset_from_local_datetime(&self, local: &NaiveDateTime) -> MappedLocalTime<FixedOffset> {
        self.offsets_of_local(local.timestamp())
    }

    fn stretch_from(&self, second: i64) -> Stretch {
        self.stretch_of_instant(second)
    }
}

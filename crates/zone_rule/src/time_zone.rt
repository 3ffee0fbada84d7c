//! A rule as a zone, for date-times in it.

use crate::rule::ZoneRule;
use chrono_datetime::NaiveDateTime;
use chrono_zoned::{FixedOffset, MappedLocalTime, Stretch, TimeZone, Timestamp};

impl TimeZone for ZoneRule {
    ghost use Rattle.zone_rule.specs.Rules.{rule_offset};

    ghost ahead = { rule_offset };

    fn offset_from_utc_datetime(&self, utc: &NaiveDateTime) -> FixedOffset {
        self.offset_of_instant(utc.timestamp())
    }

    fn offset_from_local_datetime(&self, local: &NaiveDateTime) -> MappedLocalTime<FixedOffset> {
        self.offsets_of_local(local.timestamp())
    }

    #[inline(always)]
    fn stretch_from(&self, second: i64) -> Stretch {
        self.stretch_near(second)
    }
}

//! A zone of a caller's own: its offset changes once.

use chrono_datetime::NaiveDateTime;
use chrono_zoned::{FixedOffset, MappedLocalTime, Stretch, TimeZone, Timestamp};

/// A zone whose clock has one offset before the second `from`, counted from 1 January 1970 in UTC, and another from
/// there on.
#[derive(Clone, Copy, Debug)]
pub struct OneChange {
    /// The offset before the change.
    pub before: FixedOffset,
    /// The second of the change.
    pub from: i64,
    /// The offset from the change on.
    pub after: FixedOffset,
}

impl TimeZone for OneChange {
    ghost use Rattle.std.specs.Prelude.{if◌then◌else◌};
    ghost use Rattle.std.specs.Int.RustNames.{int_lt};

    ghost ahead = { λ zone u. if int_lt u zone.from then zone.before else zone.after };

    fn offset_from_utc_datetime(&self, utc: &NaiveDateTime) -> FixedOffset {
        if utc.timestamp() < self.from {
            self.before
        } else {
            self.after
        }
    }

    fn offset_from_local_datetime(&self, local: &NaiveDateTime) -> MappedLocalTime<FixedOffset> {
        let second = local.timestamp();
        let early = second - i64::from(self.before.local_minus_utc());
        let late = second - i64::from(self.after.local_minus_utc());
        let from = self.from;
        if early < from {
            if late < from {
                return MappedLocalTime::Single(self.before);
            }
            return MappedLocalTime::Ambiguous(self.before, self.after);
        }
        if late < from {
            return MappedLocalTime::None;
        }
        MappedLocalTime::Single(self.after)
    }

    fn stretch_from(&self, second: i64) -> Stretch {
        let forever = Stretch::without_end(self.after);
        let early = Stretch::without_end(self.before);
        if second < self.from {
            Stretch {
                until: self.from,
                ..early
            }
        } else {
            forever
        }
    }
}

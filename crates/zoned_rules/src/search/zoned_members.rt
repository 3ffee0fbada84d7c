//! `ZonedMembers`: the instants of a recurrence set in a zone, in order.
ghost use Rattle.zoned_rules.specs.ZonedMemberLists.{GivesMember, zoned_members_left};

use crate::zoned_recurrence::ZonedRecurrence;
use chrono_datetime::law::date_times_exist;
use chrono_instant::Timestamp;
use chrono_zoned::{DateTime, TimeZone};
use std::iter::FusedIterator;

/// The instants of a set after a start, in order, as far as UTC and the clock have dates.
///
/// [`ZonedRecurrence::after`] makes it. After its last instant the iterator returns `None` from then on.
#[derive(Clone, Copy)]
pub struct ZonedMembers<'a, Z: TimeZone> {
    /// The set.
    pub set: ZonedRecurrence<'a, Z>,
    /// The instant after which the iterator goes on: first the start, then the last instant that it returned.
    /// It is `None` once no instant is left.
    pub last: Option<DateTime<Z>>,
}

impl<'a, Z: TimeZone> Iterator for ZonedMembers<'a, Z> {
    type Item = DateTime<Z>;

    ghost next_gives = { GivesMember Z.ahead };

    ghost remaining = { zoned_members_left };

    /// Returns the next instant. Returns `None` if none is left.
    fn next(&mut self) -> Option<DateTime<Z>> {
        let start = self.last?;
        date_times_exist(start.naive_utc());
        self.last = self.set.next_after(start);
        self.last
    }
}

impl<'a, Z: TimeZone> FusedIterator for ZonedMembers<'a, Z> {}

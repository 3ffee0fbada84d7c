//! `ZonedInstances`: the instances of a rule in a zone, in order.
ghost use Rattle.zoned_rules.specs.ZonedInstanceLists.{GivesInstance, zoned_instances_left};

use crate::zoned_rule::ZonedRule;
use chrono_datetime::law::date_times_exist;
use chrono_instant::Timestamp;
use chrono_zoned::{DateTime, TimeZone};
use std::iter::FusedIterator;

/// The instances of a rule after a start, in order, as far as UTC and the clock have dates.
///
/// [`ZonedRule::after`] makes it. After its last instance the iterator returns `None` from then on.
#[derive(Clone, Copy)]
pub struct ZonedInstances<Z: TimeZone> {
    /// The rule in its zone.
    pub rule: ZonedRule<Z>,
    /// The instant after which the iterator goes on: first the start, then the last instance that it returned.
    /// It is `None` once no instance is left.
    pub last: Option<DateTime<Z>>,
}

impl<Z: TimeZone> Iterator for ZonedInstances<Z> {
    type Item = DateTime<Z>;

    ghost next_gives = { GivesInstance Z.ahead };

    ghost remaining = { zoned_instances_left };

    /// Returns the next instance. Returns `None` if none is left.
    fn next(&mut self) -> Option<DateTime<Z>> {
        let start = self.last?;
        date_times_exist(start.naive_utc());
        self.last = self.rule.next_after(start);
        self.last
    }
}

impl<Z: TimeZone> FusedIterator for ZonedInstances<Z> {}

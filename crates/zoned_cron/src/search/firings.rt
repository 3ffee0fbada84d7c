//! `Firings`: the instants at which a schedule fires, in order.
ghost use Rattle.std.specs.Prelude.{◌≡◌, Some};
ghost use Rattle.chrono_instant.specs.Instants.{IsEpochSecond};
ghost use Rattle.zoned_cron.specs.FiringLists.{GivesNext, instants_left};
ghost use Rattle.zoned_cron.specs.Private.{IsHeld, Precedes};

use crate::schedule::ZonedSchedule;
use crate::search::held::Held;
use chrono_datetime::law::date_times_exist;
use chrono_instant::Timestamp;
use chrono_zoned::{DateTime, TimeZone};
use std::iter::FusedIterator;
use std::marker::Model;

/// The instants after a start at which a schedule fires, in order, as far as UTC and the clock have dates.
///
/// [`ZonedSchedule::after`] makes it. After its last instant the iterator returns `None` from then on.
///
/// A contract sees it as the schedule in its zone, and the instant after which the iterator goes on: first the start, then the last instant
/// that it returned, and `None` once no instant is left.
#[derive(Drop)]
pub struct Firings<Z: TimeZone> {
    schedule: ZonedSchedule<Z>,
    last: Option<DateTime<Z>>,
    // A stretch of the zone's clock, mostly the one in which the last instant lies. It saves asking the zone for each instant.
    held: Held,
}

impl<Z: TimeZone> Model for Firings<Z> {
    ghost use Rattle.zoned_cron.specs.FiringLists.{FiringsLeft};
    ghost use Rattle.zoned_cron.specs.Private.{IsHeld};

    ghost Value = { FiringsLeft Z };

    ghost view = { λ it. record { schedule = it.schedule; last = it.last } };

    ghost invariant = { λ it. IsHeld (Z.ahead it.schedule.zone) it.held };
}

impl<Z: TimeZone> Firings<Z> {
    // The instants after a start.
    #[inline]
    pub(crate) fn begin(schedule: ZonedSchedule<Z>, start: DateTime<Z>) -> Firings<Z>
        ensures { result ≡ record { schedule = schedule; last = Some start } }
    {
        let utc = start.naive_utc();
        date_times_exist(utc);
        Firings {
            schedule,
            last: Some(start),
            held: Held::around(&schedule.zone, utc.timestamp()),
        }
    }

    // The stretch that is kept, if it surrounds a second, or else one around that.
    #[inline]
    fn held_near(&self, second: i64) -> Held
        requires { IsEpochSecond second }
        ensures held { IsHeld (Z.ahead self.now.schedule.zone) result }
        ensures begun { Precedes result second }
    {
        if self.held.surrounds(second) {
            return self.held;
        }
        Held::around(&self.schedule.zone, second)
    }
}

impl<Z: TimeZone> Iterator for Firings<Z> {
    type Item = DateTime<Z>;

    ghost next_gives = { GivesNext Z.ahead };

    ghost remaining = { instants_left };

    /// Returns the next instant at which the schedule fires. Returns `None` if none is left.
    fn next(&mut self) -> Option<DateTime<Z>> {
        let start = self.last?;
        let utc = start.naive_utc();
        date_times_exist(utc);
        let held = self.held_near(utc.timestamp());
        self.held = held;
        self.last = self.schedule.first_by(&utc, &held);
        self.last
    }
}

impl<Z: TimeZone> FusedIterator for Firings<Z> {}

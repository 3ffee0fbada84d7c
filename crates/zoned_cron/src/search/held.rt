//! `Held`: a stretch of a zone's clock that a search keeps.
ghost use Rattle.std.specs.Prelude.{◌≡◌, IsTrue};
ghost use Rattle.chrono_instant.specs.Instants.{IsEpochSecond};
ghost use Rattle.zoned_cron.specs.Private.{BeginsBefore, EndsBehind, IsHeld, IsNearADate, Outlasts, Precedes};

use crate::search::instants::DAY;
use chrono_instant::FixedOffset;
use chrono_zoned::TimeZone;

// An offset, and the seconds from which on and up to which the clock of a zone keeps it.
#[derive(Clone, Copy)]
pub(crate) struct Held {
    pub(crate) offset: FixedOffset,
    pub(crate) from: i64,
    pub(crate) until: i64,
}

impl Held {
    // The stretch from a second on.
    #[inline(always)]
    pub(crate) fn from_second<Z: TimeZone>(zone: &Z, from: i64) -> Held
        ensures held { IsHeld (Z.ahead zone.now) result }
        ensures from { result.from ≡ from }
    {
        let stretch = zone.stretch_from(from);
        Held {
            offset: stretch.offset,
            from,
            until: stretch.until,
        }
    }

    // A stretch around a second: from two days before it on.
    #[inline(always)]
    pub(crate) fn around<Z: TimeZone>(zone: &Z, second: i64) -> Held
        requires { IsEpochSecond second }
        ensures held { IsHeld (Z.ahead zone.now) result }
        ensures begun { Precedes result second }
    {
        Held::from_second(zone, second - 2 * DAY)
    }

    // Whether it begins two days before the second or earlier, and ends no sooner than two days behind it.
    #[inline]
    pub(crate) fn surrounds(&self, second: i64) -> bool
        requires { IsNearADate second }
        ensures begun { IsTrue result → Precedes self.now second }
        ensures high { IsTrue result → Outlasts self.now second }
    {
        self.from <= second - 2 * DAY && self.outlasts(second)
    }

    // Whether it ends no sooner than two days behind the second.
    #[inline]
    pub(crate) fn outlasts(&self, second: i64) -> bool
        requires { IsNearADate second }
        ensures { IsTrue result → Outlasts self.now second }
    {
        second + 2 * DAY <= self.until
    }

    // Whether it begins a day before the local second or earlier.
    #[inline(always)]
    pub(crate) fn begins_before(&self, local: i64) -> bool
        requires { IsEpochSecond local }
        ensures { IsTrue result → BeginsBefore self.now local }
    {
        self.from <= local - DAY
    }

    // Whether it ends no sooner than a day behind the local second.
    #[inline(always)]
    pub(crate) fn ends_behind(&self, local: i64) -> bool
        requires { IsEpochSecond local }
        ensures { IsTrue result → EndsBehind self.now local }
    {
        local + DAY <= self.until
    }
}

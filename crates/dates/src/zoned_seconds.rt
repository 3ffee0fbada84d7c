//! The seconds at which a schedule fires by a zone's clock.
//!
//! A planned second fires where the clock shows it. Those that one gap skips fire together at the first instant behind it, or not at all. The
//! policy says which, and which of two showings counts. Seconds count from 1 January 1970.

use crate::prelude::*;
use chrono_zoned::TimeZone;
use timed_cron::TimedSchedule;
use zoned_cron::{Fold, Gap, Policy};

// Three hours and two days in seconds. A clock that is set by more than the first has been corrected. None is ahead of UTC by a day.
const THREE_HOURS: i64 = 10_800;

const TWO_DAYS: i64 = 172_800;

// The second day of the calendar: from there on any clock has a date.
const EARLIEST: i64 = -8_334_601_142_400;

// More steps than a search takes: one for each second of a day that is shown again, and a few for the changes of a clock.
const MOST_STEPS: u32 = 200_000;

// How often a number of seconds can be halved.
const HALVES: u32 = 64;

/// A schedule with seconds, and what becomes of a second that the clock skips or shows twice.
#[derive(Clone, Copy)]
pub(crate) struct SecondPlan {
    pub(crate) timed: TimedSchedule,
    pub(crate) policy: Policy,
}

/// What is known of a search: at no later instant up to `at` the schedule fires, and up to `until` the clock is so many seconds ahead of UTC.
#[derive(Clone, Copy)]
struct Search {
    at: i64,
    ahead: i64,
    until: i64,
}

/// What a step of the search finds.
#[derive(Clone, Copy)]
enum Step {
    /// The instant at which the schedule fires.
    Fires(i64),
    /// It fires at none.
    Never,
    /// The search goes on.
    On(Search),
}

impl SecondPlan {
    /// The first instant after a second at which the schedule fires.
    pub(crate) fn next_after<Z: TimeZone>(&self, zone: Z, start: i64) -> Option<i64> {
        let mut search = search_from(zone, start);
        for _ in 0..MOST_STEPS {
            match self.step(zone, search) {
                Step::Fires(instant) => return Some(instant),
                Step::Never => return None,
                Step::On(further) => search = further,
            }
        }
        None
    }

    /// The last instant before a second at which the schedule fires. It is found by the first one after others.
    pub(crate) fn prev_before<Z: TimeZone>(&self, zone: Z, end: i64) -> Option<i64> {
        let mut found = self.some_before(zone, end)?;
        let mut none = end.saturating_sub(1);
        for _ in 0..HALVES {
            if none <= found {
                return Some(found);
            }
            let middle = found.saturating_add(none.saturating_sub(found) / 2);
            match self.next_after(zone, middle) {
                Some(later) if later < end => found = later,
                _ => none = middle,
            }
        }
        Some(found)
    }

    // Some instant before a second at which the schedule fires.
    fn some_before<Z: TimeZone>(&self, zone: Z, end: i64) -> Option<i64> {
        let mut back: i64 = 1;
        for _ in 0..HALVES {
            let start = end.saturating_sub(back).saturating_sub(1).max(EARLIEST);
            match self.next_after(zone, start) {
                Some(found) if found < end => return Some(found),
                _ if start == EARLIEST => return None,
                _ => back = back.saturating_mul(2),
            }
        }
        None
    }

    // A step of the search: to the next planned second by the clock as it is, or to the change before that.
    fn step<Z: TimeZone>(&self, zone: Z, search: Search) -> Step {
        let local = search.at.saturating_add(search.ahead);
        let Some(planned) = self.planned_after(local) else {
            return Step::Never;
        };
        let instant = planned.saturating_sub(search.ahead);
        if instant < search.until {
            return if self.is_taken(zone, planned, instant) {
                Step::Fires(instant)
            } else {
                Step::On(Search {
                    at: instant,
                    ..search
                })
            };
        }
        let far = planned.saturating_sub(TWO_DAYS);
        if search.at.saturating_add(TWO_DAYS) <= search.until && search.until < far {
            return Step::On(search_from(zone, far));
        }
        let behind = search_from(zone, search.until);
        if self.fires_behind_gap(zone, &search, behind.ahead) {
            return Step::Fires(search.until);
        }
        Step::On(Search {
            at: search.until.saturating_sub(1),
            ..behind
        })
    }

    // Whether the schedule fires where a stretch of the clock ends, for a second that the clock skips there.
    fn fires_behind_gap<Z: TimeZone>(&self, zone: Z, search: &Search, ahead: i64) -> bool {
        let step = ahead.saturating_sub(search.ahead);
        let is_caught_up = match self.policy.gap {
            Gap::Skip => false,
            Gap::FirstAfter => true,
            Gap::FirstAfterShort => step < THREE_HOURS,
        };
        if step <= 0 || !is_caught_up {
            return false;
        }
        let skipped = search.until.saturating_add(search.ahead);
        let Some(planned) = self.planned_after(skipped.saturating_sub(1)) else {
            return false;
        };
        planned < skipped.saturating_add(step) && is_skipped(zone, planned)
    }

    // Whether a planned second fires at an instant at which the clock shows it.
    fn is_taken<Z: TimeZone>(&self, zone: Z, planned: i64, instant: i64) -> bool {
        let Some(local) = moment_of(planned) else {
            return false;
        };
        let MappedLocalTime::Ambiguous(first, last) = zone.offset_from_local_datetime(&local) else {
            return true;
        };
        let earlier = planned.saturating_sub(i64::from(first.local_minus_utc()));
        let later = planned.saturating_sub(i64::from(last.local_minus_utc()));
        match self.policy.fold {
            Fold::Earlier => instant == earlier,
            Fold::Later => instant == later,
            Fold::Both => true,
            Fold::EarlierOfShort => {
                instant == earlier || THREE_HOURS < later.saturating_sub(earlier)
            }
        }
    }

    // The first planned second of local time after another.
    fn planned_after(&self, local: i64) -> Option<i64> {
        Some(self.timed.next_after(moment_of(local)?)?.timestamp())
    }
}

// A search from a second on.
fn search_from<Z: TimeZone>(zone: Z, second: i64) -> Search {
    let stretch = zone.stretch_from(second);
    Search {
        at: second,
        ahead: i64::from(stretch.offset.local_minus_utc()),
        until: stretch.until,
    }
}

// Whether the clock never shows a local second.
fn is_skipped<Z: TimeZone>(zone: Z, planned: i64) -> bool {
    match moment_of(planned) {
        Some(local) => zone.offset_from_local_datetime(&local).earliest().is_none(),
        None => false,
    }
}

// The date-time of a local second.
fn moment_of(second: i64) -> Option<NaiveDateTime> {
    Some(instant_at(second)?.naive_utc())
}

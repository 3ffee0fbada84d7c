//! The first instant after a start at which a schedule fires.
ghost use Rattle.std.specs.Prelude.{◌≡◌, ℤ, ◌+ℤ◌, ◌-ℤ◌, ◌<ℤ◌, IfSome, Some};
ghost use Rattle.chrono_instant.specs.Instants.{IsEpochSecond, epoch_second};
ghost use Rattle.zoned_cron.specs.Fires.{Fires};
ghost use Rattle.zoned_cron.specs.FiringLists.{IsNextFiring};
ghost use Rattle.zoned_cron.specs.Private.{IsAtLeast, IsHeld, IsInDates, IsNextAtOffset, IsPlanned, IsSettledAt, Precedes};

use crate::schedule::ZonedSchedule;
use crate::search::held::Held;
use crate::search::instants::{
    DAY, LAST_SECOND, before, instant_ahead, instant_in_two, settled_instant, shown_ahead,
};
use chrono_datetime::NaiveDateTime;
use chrono_datetime::law::{date_times_exist, first_date_time};
use chrono_instant::{FixedOffset, FromTimestamp, Timestamp};
use chrono_zoned::{AddOffset, DateTime, InZone, MappedLocalTime, TimeZone};

impl<Z: TimeZone> ZonedSchedule<Z> {
    // The first instant after `start` at which the schedule fires, as a second from 1 January 1970.
    pub(crate) fn first_after(&self, start: i64) -> Option<i64>
        requires { IsEpochSecond start }
        ensures fires { IfSome result (λ c. (start <ℤ c) × Fires self.now.schedule.sets (Z.ahead self.now.zone) self.now.policy c) }
        ensures least { (u : ℤ) → start <ℤ u → Fires self.now.schedule.sets (Z.ahead self.now.zone) self.now.policy u → IsAtLeast result u }
    {
        let mut second = start;
        while let Some(next) = self.next_possible(second) {
            if self.fires_at(next) {
                return Some(next);
            }
            second = next;
        }
        None
    }

    // The first instant after `start` at which the schedule fires. `held` is a stretch of the zone's clock that begins two days before the start or
    // earlier. One that ends late makes it fast.
    #[inline(always)]
    pub(crate) fn first_by(&self, start: &NaiveDateTime, held: &Held) -> Option<DateTime<Z>>
        requires held { IsHeld (Z.ahead self.now.zone) held.now }
        requires begun { Precedes held.now (epoch_second start.now) }
        ensures { IsNextFiring Z.ahead self.now start.now result }
    {
        let Some(planned) = self.planned_by(*start, held.offset) else {
            return self.first_late(start);
        };
        if let Some(found) = instant_ahead(self.zone, held, planned) {
            return Some(found);
        }
        self.first_after_change(start, held, &planned)
    }

    // [`first_near`](Self::first_near), called from the place where it is needed: there alone its result takes room, which is filled with zeros.
    #[inline(always)]
    fn first_late(&self, start: &NaiveDateTime) -> Option<DateTime<Z>>
        ensures { IsNextFiring Z.ahead self.now start.now result }
    {
        self.first_near(*start)
    }

    // [`first_behind`](Self::first_behind), likewise.
    #[inline(always)]
    fn first_after_change(
        &self,
        start: &NaiveDateTime,
        held: &Held,
        planned: &NaiveDateTime,
    ) -> Option<DateTime<Z>>
        requires held { IsHeld (Z.ahead self.now.zone) held.now }
        requires begun { Precedes held.now (epoch_second start.now) }
        requires next { IsNextAtOffset self.now held.now.offset start.now planned.now }
        ensures { IsNextFiring Z.ahead self.now start.now result }
    {
        self.first_behind(*start, *held, *planned)
    }

    // The same, where the stretch ends near the next planned local time or before it.
    #[inline(never)]
    fn first_behind(
        &self,
        start: NaiveDateTime,
        held: Held,
        planned: NaiveDateTime,
    ) -> Option<DateTime<Z>>
        requires held { IsHeld (Z.ahead self.now.zone) held }
        requires begun { Precedes held (epoch_second start) }
        requires next { IsNextAtOffset self.now held.offset start planned }
        ensures { IsNextFiring Z.ahead self.now start result }
    {
        date_times_exist(start);
        if let Some(found) = self.first_in_two(start, &held, planned) {
            return Some(found);
        }
        if held.outlasts(start.timestamp()) {
            if let Some(found) = self.settled_beyond(planned) {
                return Some(found);
            }
        }
        self.first_near(start)
    }

    // The same, by the stretch and the next one. `None` says nothing.
    fn first_in_two(
        &self,
        start: NaiveDateTime,
        held: &Held,
        planned: NaiveDateTime,
    ) -> Option<DateTime<Z>>
        requires held { IsHeld (Z.ahead self.now.zone) held.now }
        requires begun { Precedes held.now (epoch_second start) }
        requires next { IsNextAtOffset self.now held.now.offset start planned }
        ensures { IfSome result (λ d. IsNextFiring Z.ahead self.now start (Some d)) }
    {
        date_times_exist(start);
        let second = start.timestamp();
        let next = Held::from_second(&self.zone, held.until);
        if held.until <= second {
            let Some(planned) = self.planned_by(start, next.offset) else {
                return None;
            };
            return instant_in_two(self.zone, held, &next, planned);
        }
        let again = shown_again(second, held.offset, next.offset);
        if held.until <= again {
            return None;
        }
        instant_in_two(self.zone, held, &next, planned)
    }

    // The same, where a change may be near the start.
    #[inline(never)]
    fn first_near(&self, start: NaiveDateTime) -> Option<DateTime<Z>>
        ensures { IsNextFiring Z.ahead self.now start result }
    {
        if let Some(found) = self.first_shown_once(start) {
            return Some(found);
        }
        self.first_searched(start)
    }

    // The instant of a planned local time, if no change is near it.
    fn settled_beyond(&self, planned: NaiveDateTime) -> Option<DateTime<Z>>
        ensures { IfSome result (IsSettledAt Z.ahead self.now.zone planned) }
    {
        date_times_exist(planned);
        let near = Held::from_second(&self.zone, planned.timestamp() - 3 * DAY);
        settled_instant(self.zone, near, planned)
    }

    // The same, where the clock keeps its offset from the start until the instant, and shows the planned local time only there. `None` says
    // nothing.
    fn first_shown_once(&self, start: NaiveDateTime) -> Option<DateTime<Z>>
        ensures { IfSome result (λ d. IsNextFiring Z.ahead self.now start (Some d)) }
    {
        date_times_exist(start);
        let stretch = self.zone.stretch_from(start.timestamp());
        let Some(local) = start.checked_add_offset(stretch.offset) else {
            return None;
        };
        let Some(planned) = self.schedule.next_after(local) else {
            return None;
        };
        date_times_exist(planned);
        if stretch.until <= before(planned.timestamp(), stretch.offset) {
            return None;
        }
        match self.zone.offset_from_local_datetime(&planned) {
            MappedLocalTime::Single(_) => {
                DateTime::from_local_and_offset(planned, stretch.offset, self.zone)
            }
            _ => None,
        }
    }

    // The same, from stretch to stretch.
    fn first_searched(&self, start: NaiveDateTime) -> Option<DateTime<Z>>
        ensures { IsNextFiring Z.ahead self.now start result }
    {
        date_times_exist(start);
        self.zone
            .timestamp_opt(self.first_after(start.timestamp())?, 0)
    }

    // The first local time after the start that is planned, where the clock is so far ahead of UTC.
    #[inline(always)]
    fn planned_by(&self, start: NaiveDateTime, offset: FixedOffset) -> Option<NaiveDateTime>
        ensures { IfSome result (IsNextAtOffset self.now offset start) }
    {
        date_times_exist(start);
        let Some(local) = shown_ahead(start, offset) else {
            return None;
        };
        date_times_exist(local);
        let Some(planned) = self.schedule.next_after(local) else {
            return None;
        };
        date_times_exist(planned);
        Some(planned)
    }

    // An instant after the second such that the schedule fires at none between them; `None` if it fires at none after the second.
    fn next_possible(&self, second: i64) -> Option<i64>
        requires { IsEpochSecond second }
        ensures later { IfSome result (λ c. (second <ℤ c) × IsEpochSecond c) }
        ensures least { (u : ℤ) → second <ℤ u → Fires self.now.schedule.sets (Z.ahead self.now.zone) self.now.policy u → IsAtLeast result u }
    {
        let stretch = self.zone.stretch_from(second);
        let ahead = i64::from(stretch.offset.local_minus_utc());
        // What is planned up to now fires at no instant as late as that.
        let is_long = second + 2 * DAY <= stretch.until;
        let Some(planned) = self.planned_after(second + ahead) else {
            return if is_long {
                None
            } else {
                in_dates(stretch.until)
            };
        };
        if planned - ahead < stretch.until {
            return in_dates(planned - ahead);
        }
        if is_long && stretch.until < planned - DAY {
            return in_dates(planned - DAY);
        }
        in_dates(stretch.until)
    }

    // The first planned local time after a local second, as a second.
    fn planned_after(&self, local: i64) -> Option<i64>
        ensures planned { IfSome result (λ l. (local <ℤ l) × IsPlanned self.now.schedule.sets l) }
        ensures least { (l : ℤ) → local <ℤ l → IsPlanned self.now.schedule.sets l → IsAtLeast result l }
    {
        if let Some(shown) = NaiveDateTime::from_timestamp(local, 0) {
            return self.planned_behind(shown);
        }
        if LAST_SECOND < local {
            return None;
        }
        self.first_planned()
    }

    // The first planned local time after another, as a second.
    fn planned_behind(&self, local: NaiveDateTime) -> Option<i64>
        ensures planned { IfSome result (λ l. (epoch_second local <ℤ l) × IsPlanned self.now.schedule.sets l) }
        ensures least { (l : ℤ) → epoch_second local <ℤ l → IsPlanned self.now.schedule.sets l → IsAtLeast result l }
    {
        date_times_exist(local);
        let Some(next) = self.schedule.next_after(local) else {
            return None;
        };
        date_times_exist(next);
        Some(next.timestamp())
    }

    // The first planned local time of all, as a second.
    fn first_planned(&self) -> Option<i64>
        ensures planned { IfSome result (IsPlanned self.now.schedule.sets) }
        ensures least { (l : ℤ) → IsPlanned self.now.schedule.sets l → IsAtLeast result l }
    {
        let (first, _) = first_date_time();
        date_times_exist(first);
        if self.schedule.is_due(first) {
            return Some(first.timestamp());
        }
        self.planned_behind(first)
    }
}

// The instant from which on a clock that is set to the next offset shows no more what it has shown up to a second.
fn shown_again(second: i64, first: FixedOffset, next: FixedOffset) -> i64
    requires { IsEpochSecond second }
    ensures { result ≡ second +ℤ first -ℤ next }
{
    second + i64::from(first.local_minus_utc()) - i64::from(next.local_minus_utc())
}

// A second, if it lies no later than UTC's dates.
fn in_dates(second: i64) -> Option<i64>
    ensures { IsInDates second result }
{
    if second <= LAST_SECOND {
        Some(second)
    } else {
        None
    }
}

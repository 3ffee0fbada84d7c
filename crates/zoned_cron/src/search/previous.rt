//! The last instant before an end at which a schedule fires.
ghost use Rattle.std.specs.Prelude.{◌≡◌, ◌⊎◌, ℤ, pos, neg_ℤ, ◌+ℤ◌, ◌≤ℤ◌, ◌<ℤ◌, IfNone, IfSome, IsFalse, IsSomeAnd, IsTrue};
ghost use Rattle.chrono_datetime.specs.Moment.{IsBefore, Moment};
ghost use Rattle.chrono_instant.specs.Instants.{IsEpochSecond, epoch_second};
ghost use Rattle.chrono_cron.specs.Due.{is_due};
ghost use Rattle.zoned_cron.specs.Fires.{Fires};
ghost use Rattle.zoned_cron.specs.Private.{FiresFor, IsAtMost, IsPreviousFiring};

use crate::schedule::ZonedSchedule;
use crate::search::held::Held;
use crate::search::instants::{DAY, FIRST_SECOND, begun_by, last_in, settled_instant, shown_at};
use chrono_datetime::NaiveDateTime;
use chrono_datetime::law::{date_times_exist, last_date_time};
use chrono_instant::{FixedOffset, FromTimestamp, Timestamp};
use chrono_zoned::{DateTime, TimeZone};

impl<Z: TimeZone> ZonedSchedule<Z> {
    // The last instant before `end` at which the schedule fires, as a second from 1 January 1970.
    pub(crate) fn last_before(&self, end: i64) -> Option<i64>
        requires low { neg_ℤ (pos 8_334_601_228_800) ≤ℤ end }
        requires high { end ≤ℤ pos 8_210_266_876_800 }
        ensures fires { IfSome result (λ c. (c <ℤ end) × Fires self.now.schedule.sets (Z.ahead self.now.zone) self.now.policy c) }
        ensures greatest { (u : ℤ) → u <ℤ end → Fires self.now.schedule.sets (Z.ahead self.now.zone) self.now.policy u → IsAtMost result u }
    {
        let Some(mut local) = self.last_planned(end) else {
            return None;
        };
        date_times_exist(local);
        let mut best: Option<i64> = None;
        while self.may_follow(local, best, end) {
            best = later(best, last_in(self.taken(local), end));
            let Some(earlier) = self.schedule.prev_before(local) else {
                return best;
            };
            date_times_exist(earlier);
            local = earlier;
        }
        best
    }

    // The last instant before `end` at which the schedule fires, where no change is near the end, and none near that instant. `None` says nothing.
    #[inline]
    pub(crate) fn last_settled(&self, end: NaiveDateTime) -> Option<DateTime<Z>>
        ensures { IfSome result (IsPreviousFiring Z.ahead self.now end) }
    {
        let end = begun_by(end);
        let held = Held::from_second(&self.zone, end - 5 * DAY);
        if held.until < end {
            return None;
        }
        let ahead = i64::from(held.offset.local_minus_utc());
        let Some(local) = NaiveDateTime::from_timestamp(end + ahead, 0) else {
            return None;
        };
        let Some(planned) = self.schedule.prev_before(local) else {
            return None;
        };
        date_times_exist(planned);
        if let Some(found) = settled_instant(self.zone, held, planned) {
            return Some(found);
        }
        let near = Held::from_second(&self.zone, planned.timestamp() - 3 * DAY);
        settled_instant(self.zone, near, planned)
    }

    // The last planned local time that may fire before `end`.
    fn last_planned(&self, end: i64) -> Option<NaiveDateTime>
        requires low { neg_ℤ (pos 8_334_601_228_800) ≤ℤ end }
        requires high { end ≤ℤ pos 8_210_266_876_800 }
        ensures due { IfSome result (λ m. IsTrue (is_due self.now.schedule.sets m)) }
        ensures later { IfSome result (λ q. (m : Moment) (u : ℤ) → FiresFor self.now.schedule.sets (Z.ahead self.now.zone) self.now.policy m u → IsBefore q m → end ≤ℤ u) }
        ensures none { IfNone result ((m : Moment) (u : ℤ) → FiresFor self.now.schedule.sets (Z.ahead self.now.zone) self.now.policy m u → end ≤ℤ u) }
    {
        if let Some(past) = NaiveDateTime::from_timestamp(unshown_before(self.zone, end), 0) {
            return self.schedule.prev_before(past);
        }
        let (last, _) = last_date_time();
        self.schedule.prev_before(last)
    }

    // Whether a local time may fire after the best instant so far, and before the end.
    fn may_follow(&self, local: NaiveDateTime, best: Option<i64>, end: i64) -> bool
        requires { IfSome best IsEpochSecond }
        ensures { IsFalse result → IsSomeAnd best (λ c. (m : Moment) (u : ℤ) → FiresFor self.now.schedule.sets (Z.ahead self.now.zone) self.now.policy m u → epoch_second m ≤ℤ epoch_second local → u <ℤ end → u ≤ℤ c) }
    {
        match best {
            Some(best) => self.may_follow_instant(local, best, end),
            None => true,
        }
    }

    // Whether it may fire after that instant. Where the clock keeps its offset from there until the end, none does that the clock has shown or
    // skipped by then. Else none does that it had shown or skipped two days earlier.
    fn may_follow_instant(&self, local: NaiveDateTime, best: i64, end: i64) -> bool
        requires { IsEpochSecond best }
        ensures { IsFalse result → (m : Moment) (u : ℤ) → FiresFor self.now.schedule.sets (Z.ahead self.now.zone) self.now.policy m u → epoch_second m ≤ℤ epoch_second local → u <ℤ end → u ≤ℤ best }
    {
        let stretch = self.zone.stretch_from(best);
        if end <= stretch.until {
            return is_behind(local, shown_by(best, stretch.offset));
        }
        match shown_at(self.zone, best - 2 * DAY) {
            Some(shown) => is_behind(local, shown.timestamp()),
            None => true,
        }
    }
}

// What a clock so far ahead of UTC shows at a second.
fn shown_by(second: i64, offset: FixedOffset) -> i64
    requires { IsEpochSecond second }
    ensures { result ≡ second +ℤ offset }
{
    second + i64::from(offset.local_minus_utc())
}

// Whether a local time begins behind a local second.
fn is_behind(local: NaiveDateTime, second: i64) -> bool
    ensures { IsFalse result → epoch_second local ≤ℤ second }
{
    second < local.timestamp()
}

// A local second that the clock shows at no instant before the end, and neither any later one. It is that of the end, by the offset before it. If
// there are two offsets in the two days before, it is by the greater of them, or a day behind the end if there are more offsets in the two days before.
fn unshown_before<Z: TimeZone>(zone: Z, end: i64) -> i64
    requires low { neg_ℤ (pos 8_334_601_228_800) ≤ℤ end }
    requires high { end ≤ℤ pos 8_210_266_876_800 }
    ensures { (u : ℤ) → u <ℤ end → (u +ℤ Z.ahead zone u) <ℤ result }
{
    let first = zone.stretch_from(end - 2 * DAY);
    if end <= first.until {
        return shown_at_most(end, first.offset);
    }
    let next = zone.stretch_from(first.until);
    if next.until < end {
        return end + DAY;
    }
    let before = i64::from(first.offset.local_minus_utc());
    let after = i64::from(next.offset.local_minus_utc());
    (end + before.max(after)).max(FIRST_SECOND)
}

// The same, where the clock keeps its offset for the two days before the end.
fn shown_at_most(end: i64, offset: FixedOffset) -> i64
    requires low { neg_ℤ (pos 8_334_601_228_800) ≤ℤ end }
    requires high { end ≤ℤ pos 8_210_266_876_800 }
    ensures { (end +ℤ offset) ≤ℤ result }
{
    let ahead = i64::from(offset.local_minus_utc());
    (end + ahead).max(FIRST_SECOND)
}

// The later of two instants, if there is one.
fn later(one: Option<i64>, other: Option<i64>) -> Option<i64>
    ensures greatest { (u : ℤ) → IsAtMost one u ⊎ IsAtMost other u → IsAtMost result u }
    ensures either { (result ≡ one) ⊎ (result ≡ other) }
{
    match (one, other) {
        (Some(one), Some(other)) => Some(one.max(other)),
        (Some(only), None) | (None, Some(only)) => Some(only),
        (None, None) => None,
    }
}

//! The instants at which one planned local time fires.
ghost use Rattle.std.specs.Prelude.{◌≡◌, ◌↔◌, ◌<◌, ℤ, pos, ◌+ℤ◌, ◌*ℤ◌, ◌-ℤ◌, ◌≤ℤ◌, ◌<ℤ◌, neg_ℤ, IfNone, IfSome, IsTrue};
ghost use Rattle.chrono_datetime.specs.Moment.{IsMoment};
ghost use Rattle.chrono_instant.specs.Instants.{IsEpochSecond, LiesIn, epoch_second};
ghost use Rattle.chrono_zoned.specs.Offsets.{IsOffset};
ghost use Rattle.chrono_zoned.specs.Zones.{AreAll, IsAmong};
ghost use Rattle.zoned_cron.specs.Fires.{Fires, IsGap, IsShortStep};
ghost use Rattle.zoned_cron.specs.Private.{BeginsBefore, EndsGap, EndsShortGap, IfTwo, IsFirstOrLate, IsHeld, IsInTwo, IsLastIn, IsNearADate, IsOnceIn, IsOnceInTwo, IsSettledAt, TakesDated};

use crate::policy::{Fold, Gap};
use crate::schedule::ZonedSchedule;
use crate::search::held::Held;
use chrono_datetime::law::date_times_exist;
use chrono_datetime::{NaiveDateTime, NaiveTime, Timelike};
use chrono_instant::{FixedOffset, FromTimestamp, Timestamp};
use chrono_zoned::{DateTime, MappedLocalTime, TimeZone};

// The first second of the first date, and the last of the last date, in UTC.
pub(crate) const FIRST_SECOND: i64 = -8_334_601_228_800;

pub(crate) const LAST_SECOND: i64 = 8_210_266_876_799;

// The seconds of a day. A clock is ahead of UTC, or behind it, by less.
pub(crate) const DAY: i64 = 86_400;

// The seconds of three hours. To Vixie's cron, a clock that is set ahead by as much, or back by more, has been corrected.
const THREE_HOURS: i32 = 10_800;

impl<Z: TimeZone> ZonedSchedule<Z> {
    // Whether the schedule fires at a second from 1 January 1970.
    pub(crate) fn fires_at(&self, second: i64) -> bool
        requires { IsEpochSecond second }
        ensures { IsTrue result ↔ Fires self.now.schedule.sets (Z.ahead self.now.zone) self.now.policy second }
    {
        let Some(local) = shown_at(self.zone, second) else {
            return false;
        };
        if self.schedule.is_due(local) && contains(self.taken(local), second) {
            return true;
        }
        if is_shown(self.zone, local.timestamp() - 1) {
            return false;
        }
        match self.schedule.prev_before(local) {
            Some(earlier) => contains(self.taken(earlier), second),
            None => false,
        }
    }

    // The instants at which a planned local time fires, as seconds from 1 January 1970.
    pub(crate) fn taken(&self, local: NaiveDateTime) -> MappedLocalTime<i64>
        ensures all { AreAll (TakesDated self.now.policy (Z.ahead self.now.zone) (epoch_second local)) (λ u. u) result }
        ensures exists { IsMoment local }
    {
        date_times_exist(local);
        let second = local.timestamp();
        match self.zone.offset_from_local_datetime(&local) {
            MappedLocalTime::None => match self.policy.gap {
                Gap::Skip => MappedLocalTime::None,
                Gap::FirstAfter => end_of_gap(self.zone, second),
                Gap::FirstAfterShort => end_of_short_gap(self.zone, second),
            },
            MappedLocalTime::Single(offset) => MappedLocalTime::Single(before(second, offset)),
            MappedLocalTime::Ambiguous(first, last) => {
                let earlier = before(second, first);
                let later = before(second, last);
                match self.policy.fold {
                    Fold::Earlier => MappedLocalTime::Single(earlier),
                    Fold::Later => MappedLocalTime::Single(later),
                    Fold::Both => MappedLocalTime::Ambiguous(earlier, later),
                    Fold::EarlierOfShort => first_or_late(earlier, later),
                }
            }
        }
    }
}

// The first second that begins no earlier than a date-time.
pub(crate) fn begun_by(utc: NaiveDateTime) -> i64
    ensures whole { utc.time.fraction ≡ 0 → result ≡ epoch_second utc }
    ensures within { 0 < utc.time.fraction → result ≡ epoch_second utc +ℤ pos 1 }
    ensures low { neg_ℤ (pos 8_334_601_228_800) ≤ℤ result }
    ensures high { result ≤ℤ pos 8_210_266_876_800 }
    ensures exists { IsMoment utc }
{
    date_times_exist(utc);
    let second = utc.timestamp();
    if utc.nanosecond() > 0 {
        second + 1
    } else {
        second
    }
}

// The instant at which a clock shows the local second, where it is so far ahead.
pub(crate) fn before(local: i64, offset: FixedOffset) -> i64
    requires { IsEpochSecond local }
    ensures value { result ≡ local -ℤ offset }
    ensures near { IsOffset offset }
    ensures in_range { IsNearADate result }
{
    local - i64::from(offset.local_minus_utc())
}

// The first instant behind the gap in which the local second lies: of all local seconds that the clock shows behind it, it shows the
// first there. The clock shows an earlier one until a day before, and a later one from a day behind.
fn end_of_gap<Z: TimeZone>(zone: Z, gap: i64) -> MappedLocalTime<i64>
    requires date { IsEpochSecond gap }
    requires gap { IsGap (Z.ahead zone) gap }
    ensures { AreAll (EndsGap (Z.ahead zone) gap) (λ u. u) result }
{
    let before = zone.stretch_from(gap - DAY);
    let mut second = before.until.min(gap + 5 * DAY);
    let mut first = second;
    let mut shown = gap + 3 * DAY;
    while second < shown + DAY {
        let stretch = zone.stretch_from(second);
        let local = second + i64::from(stretch.offset.local_minus_utc());
        if gap < local && local < shown {
            first = second;
            shown = local;
        }
        second = stretch.until.min(gap + 5 * DAY);
    }
    if shown <= LAST_SECOND {
        MappedLocalTime::Single(first)
    } else {
        MappedLocalTime::None
    }
}

// The same, where the clock is set ahead there by less than three hours.
fn end_of_short_gap<Z: TimeZone>(zone: Z, gap: i64) -> MappedLocalTime<i64>
    requires date { IsEpochSecond gap }
    requires gap { IsGap (Z.ahead zone) gap }
    ensures { AreAll (EndsShortGap (Z.ahead zone) gap) (λ u. u) result }
{
    match end_of_gap(zone, gap) {
        MappedLocalTime::None => MappedLocalTime::None,
        MappedLocalTime::Single(end) => if_short(zone, end),
        MappedLocalTime::Ambiguous(_, _) => MappedLocalTime::None,
    }
}

// The instant, if the clock is set ahead there by less than three hours.
fn if_short<Z: TimeZone>(zone: Z, end: i64) -> MappedLocalTime<i64>
    requires { IsNearADate end }
    ensures { AreAll (λ u. (u ≡ end) × IsShortStep (Z.ahead zone) u) (λ u. u) result }
{
    let before = zone.stretch_from(end - 1);
    let behind = zone.stretch_from(end);
    if is_short(before.offset, behind.offset) {
        MappedLocalTime::Single(end)
    } else {
        MappedLocalTime::None
    }
}

// Whether a clock is set ahead by less than three hours, from one offset to another.
fn is_short(before: FixedOffset, behind: FixedOffset) -> bool
    ensures { IsTrue result ↔ (behind <ℤ (before +ℤ pos 10_800)) }
{
    behind.local_minus_utc() < before.local_minus_utc() + THREE_HOURS
}

// The first of two instants, and the other one if that is more than three hours later.
fn first_or_late(first: i64, other: i64) -> MappedLocalTime<i64>
    requires order { first <ℤ other }
    requires first { IsNearADate first }
    ensures { AreAll (IsFirstOrLate first other) (λ u. u) result }
{
    if first + i64::from(THREE_HOURS) < other {
        MappedLocalTime::Ambiguous(first, other)
    } else {
        MappedLocalTime::Single(first)
    }
}

// The instant at which the clock shows a planned local time, if the stretch has no end near it: neither within two days before the instant, nor
// within two days behind it. Then the clock shows the local time at no other instant.
#[inline]
pub(crate) fn settled_instant<Z: TimeZone>(
    zone: Z,
    held: Held,
    planned: NaiveDateTime,
) -> Option<DateTime<Z>>
    requires { IsHeld (Z.ahead zone) held }
    ensures { IfSome result (IsSettledAt Z.ahead zone planned) }
{
    date_times_exist(planned);
    let found = before(planned.timestamp(), held.offset);
    if held.surrounds(found) {
        DateTime::from_local_and_offset(planned, held.offset, zone)
    } else {
        None
    }
}

// The instant at which the clock shows a planned local time by the offset of the stretch, if that ends behind all at which the clock may show it.
#[inline(always)]
pub(crate) fn instant_ahead<Z: TimeZone>(
    zone: Z,
    held: &Held,
    planned: NaiveDateTime,
) -> Option<DateTime<Z>>
    requires held { IsHeld (Z.ahead zone) held.now }
    requires begun { BeginsBefore held.now (epoch_second planned) }
    ensures { IfSome result (IsOnceIn Z.ahead zone held.now planned) }
{
    date_times_exist(planned);
    if held.ends_behind(planned.timestamp()) {
        DateTime::from_local_and_offset(planned, held.offset, zone)
    } else {
        None
    }
}

// The instant at which the clock shows a planned local time, in one of two stretches that follow each other, if it shows it at no other.
pub(crate) fn instant_in_two<Z: TimeZone>(
    zone: Z,
    first: &Held,
    next: &Held,
    planned: NaiveDateTime,
) -> Option<DateTime<Z>>
    requires first { IsHeld (Z.ahead zone) first.now }
    requires next { IsHeld (Z.ahead zone) next.now }
    requires at { next.now.from ≡ first.now.until }
    ensures { IfSome result (IsOnceInTwo Z.ahead zone first.now next.now planned) }
{
    date_times_exist(planned);
    let offset = offset_in_two(first, next, planned.timestamp())?;
    DateTime::from_local_and_offset(planned, offset, zone)
}

// The offset that leads from a local second to that instant.
fn offset_in_two(first: &Held, next: &Held, local: i64) -> Option<FixedOffset>
    requires { IsEpochSecond local }
    ensures { IfSome result (λ offset. IsInTwo first.now next.now local (local -ℤ offset)) }
{
    if !first.begins_before(local) {
        return None;
    }
    if !next.ends_behind(local) {
        return None;
    }
    let by_first = before(local, first.offset);
    let by_next = before(local, next.offset);
    if by_first < next.from && by_next < next.from {
        return Some(first.offset);
    }
    if next.from <= by_first && next.from <= by_next {
        return Some(next.offset);
    }
    None
}

// The beginning of the second that a clock so far ahead of UTC shows. It is found without a division.
#[inline(always)]
pub(crate) fn shown_ahead(utc: NaiveDateTime, offset: FixedOffset) -> Option<NaiveDateTime>
    ensures { IfSome result (λ m. epoch_second m ≡ epoch_second utc +ℤ offset) }
{
    let second = utc.num_seconds_from_midnight() as i32 + offset.local_minus_utc();
    let (days, second) = day_and_second(second);
    let date = utc.date().moved_by_days(days)?;
    let time = NaiveTime::from_num_seconds_from_midnight_opt(second, 0)?;
    Some(NaiveDateTime::new(date, time))
}

// By how many days a second lies outside its day, and which second of that other day it is.
#[inline(always)]
fn day_and_second(second: i32) -> (i64, u32)
    requires low { neg_ℤ (pos 86_400) ≤ℤ second }
    requires high { second <ℤ pos 172_800 }
    ensures { result.0 *ℤ pos 86_400 +ℤ pos result.1 ≡ second }
{
    if second < 0 {
        (-1, (second + 86_400) as u32)
    } else if second < 86_400 {
        (0, second as u32)
    } else {
        (1, (second - 86_400) as u32)
    }
}

// What the clock shows at a second, if UTC and the clock have a date there.
pub(crate) fn shown_at<Z: TimeZone>(zone: Z, second: i64) -> Option<NaiveDateTime>
    ensures shown { IfSome result (LiesIn (second +ℤ Z.ahead zone second) 0) }
    ensures near { IfSome result (λ _. IsOffset (Z.ahead zone second)) }
    ensures none { IfNone result (IsEpochSecond second → ¬ IsEpochSecond (second +ℤ Z.ahead zone second)) }
{
    let utc = NaiveDateTime::from_timestamp(second, 0)?;
    let offset = zone.offset_from_utc_datetime(&utc);
    NaiveDateTime::from_timestamp(second + i64::from(offset.local_minus_utc()), 0)
}

// Whether the clock shows a local second, as it does but in a gap.
pub(crate) fn is_shown<Z: TimeZone>(zone: Z, local: i64) -> bool
    ensures { IsTrue result → ¬ IsGap (Z.ahead zone) local }
{
    let Some(local) = NaiveDateTime::from_timestamp(local, 0) else {
        return false;
    };
    zone.offset_from_local_datetime(&local).earliest().is_some()
}

// Whether an instant is among those.
pub(crate) fn contains(found: MappedLocalTime<i64>, second: i64) -> bool
    ensures { IsTrue result ↔ IsAmong second found }
{
    match found {
        MappedLocalTime::None => false,
        MappedLocalTime::Single(only) => second == only,
        MappedLocalTime::Ambiguous(first, last) => second == first || second == last,
    }
}

// The last of the instants before an end that UTC has a date for.
pub(crate) fn last_in(found: MappedLocalTime<i64>, end: i64) -> Option<i64>
    requires order { IfTwo (λ x y. x <ℤ y) found }
    ensures { IsLastIn (λ u. IsAmong u found) end result }
{
    let candidate = match found {
        MappedLocalTime::None => return None,
        MappedLocalTime::Single(only) => only,
        MappedLocalTime::Ambiguous(first, last) => { if last < end { last } else { first } }
    };
    if candidate < end && FIRST_SECOND <= candidate {
        Some(candidate)
    } else {
        None
    }
}

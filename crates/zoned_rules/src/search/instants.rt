//! The first instant after a second at which a rule recurs, and the last before one.
//!
//! Where the clock keeps its offset, the first local time stands for the first instant. Most searches end there.
//!
//! Near one change, `near_changes` finds the instant. Elsewhere a gap may move a local time behind later ones. A local time lies less than a day
//! from the instant that it stands for. So a search there looks at all local times within a day of the best instant so far.
ghost use Rattle.std.specs.Prelude.{◌≡◌, ◌↔◌, ◌⊎◌, ℤ, pos, neg_ℤ, ◌+ℤ◌, ◌-ℤ◌, ◌≤ℤ◌, ◌<ℤ◌, IfSome, IsFalse, IsSomeAnd, IsTrue};
ghost use Rattle.chrono_datetime.specs.Moment.{Moment};
ghost use Rattle.chrono_instant.specs.Instants.{IsEpochSecond, epoch_second};
ghost use Rattle.zoned_rules.specs.LocalInstants.{HasDates, IsInstantOf};
ghost use Rattle.zoned_rules.specs.Recurs.{Recurs, RecursFor};
ghost use Rattle.zoned_rules.specs.Private.{IsListedSince, IsReached, IsReachedBack, IsStoodFor};

use crate::bound::{BEFORE_FIRST_SECOND, LAST_SECOND};
use crate::local_instant::{DAY, offsets_are_small, second_of};
use crate::zoned_rule::ZonedRule;
use chrono_datetime::NaiveDateTime;
use chrono_instant::Timestamp;
use chrono_zoned::{InZone, TimeZone};

// The seconds of two days and of four.
pub(crate) const TWO_DAYS: i64 = 172_800;

pub(crate) const FOUR_DAYS: i64 = 345_600;

impl<Z: TimeZone> ZonedRule<Z> {
    // The first second after another at which the rule recurs, COUNT and UNTIL left out.
    pub(crate) fn first_after(&self, start: i64) -> Option<i64>
        requires low { neg_ℤ (pos 8_334_601_300_000) ≤ℤ start }
        requires high { start ≤ℤ pos 8_210_266_876_799 }
        ensures recurs { IfSome result (λ c. (start <ℤ c) × Recurs self.now.local (Z.ahead self.now.zone) c) }
        ensures least { (u : ℤ) → start <ℤ u → Recurs self.now.local (Z.ahead self.now.zone) u → IsReached result u }
    {
        let begun = self.start_second();
        self.first_stood_for(later_of(start, begun - 1))
    }

    // The first second after another that a local time from the start on stands for, be it before the instant of the start.
    fn first_stood_for(&self, after: i64) -> Option<i64>
        requires low { neg_ℤ (pos 8_334_601_400_000) ≤ℤ after }
        requires high { after ≤ℤ pos 8_210_266_963_199 }
        ensures recurs { IfSome result (λ c. (after <ℤ c) × IsStoodFor self.now.local (Z.ahead self.now.zone) c) }
        ensures least { (m : Moment) (u : ℤ) → RecursFor self.now.local (Z.ahead self.now.zone) m u → after <ℤ u → IsReached result u }
    {
        if let Some(found) = self.first_in_stretch(after) {
            return Some(found);
        }
        if let Some(found) = self.first_near_change(after) {
            return Some(found);
        }
        self.first_planned(after)
    }

    // The same, where the clock keeps its offset from two days before up to the second that is found. Else none.
    fn first_in_stretch(&self, after: i64) -> Option<i64>
        requires low { neg_ℤ (pos 8_334_601_400_000) ≤ℤ after }
        requires high { after ≤ℤ pos 8_210_266_963_199 }
        ensures recurs { IfSome result (λ c. (after <ℤ c) × IsStoodFor self.now.local (Z.ahead self.now.zone) c) }
        ensures least { IfSome result (λ c. (m : Moment) (u : ℤ) → RecursFor self.now.local (Z.ahead self.now.zone) m u → after <ℤ u → c ≤ℤ u) }
    {
        let stretch = self.zone.stretch_from(after - TWO_DAYS);
        let offset = i64::from(stretch.offset.local_minus_utc());
        if after + offset >= LAST_SECOND {
            return None;
        }
        let Some(local) = self.local.first_since(after + offset + 1) else {
            return None;
        };
        let second = local.timestamp() - offset;
        if second < stretch.until && has_dates(self.zone, second) {
            Some(second)
        } else {
            None
        }
    }

    // The same, by all local times near it.
    fn first_planned(&self, after: i64) -> Option<i64>
        requires low { neg_ℤ (pos 8_334_601_400_000) ≤ℤ after }
        requires high { after ≤ℤ pos 8_210_266_963_199 }
        ensures recurs { IfSome result (λ c. (after <ℤ c) × IsStoodFor self.now.local (Z.ahead self.now.zone) c) }
        ensures least { (m : Moment) (u : ℤ) → RecursFor self.now.local (Z.ahead self.now.zone) m u → after <ℤ u → IsReached result u }
    {
        offsets_are_small(self.zone);
        let Some(mut local) = self.local.first_since(after - DAY) else {
            return None;
        };
        let mut best: Option<i64> = None;
        while may_precede(local, best) {
            best = earlier(best, self.instant_after(local, after));
            let Some(next) = self.local.first_behind(local) else {
                return best;
            };
            local = next;
        }
        best
    }

    // The second that a local time stands for, if it lies after another, and UTC and the clock have a date there.
    fn instant_after(&self, local: NaiveDateTime, after: i64) -> Option<i64>
        requires { IsListedSince self.now.local local }
        ensures recurs { IfSome result (λ c. (after <ℤ c) × IsStoodFor self.now.local (Z.ahead self.now.zone) c) }
        ensures only { (m : Moment) (u : ℤ) → RecursFor self.now.local (Z.ahead self.now.zone) m u → epoch_second m ≡ epoch_second local → after <ℤ u → IsReached result u }
    {
        let second = second_of(self.zone, local);
        if after < second && has_dates(self.zone, second) {
            Some(second)
        } else {
            None
        }
    }

    // The last second before another at which the rule recurs, COUNT and UNTIL left out.
    pub(crate) fn last_before(&self, end: i64) -> Option<i64>
        requires low { neg_ℤ (pos 8_334_601_228_800) ≤ℤ end }
        requires high { end ≤ℤ pos 8_210_266_876_800 }
        ensures recurs { IfSome result (λ c. (c <ℤ end) × Recurs self.now.local (Z.ahead self.now.zone) c) }
        ensures greatest { (u : ℤ) → u <ℤ end → Recurs self.now.local (Z.ahead self.now.zone) u → IsReachedBack result u }
    {
        let begun = self.start_second();
        let last = self.last_stood_for(end)?;
        if last < begun {
            return None;
        }
        Some(last)
    }

    // The last second before another that a local time from the start on stands for, be it before the instant of the start.
    fn last_stood_for(&self, end: i64) -> Option<i64>
        requires low { neg_ℤ (pos 8_334_601_228_800) ≤ℤ end }
        requires high { end ≤ℤ pos 8_210_266_876_800 }
        ensures recurs { IfSome result (λ c. (c <ℤ end) × IsStoodFor self.now.local (Z.ahead self.now.zone) c) }
        ensures greatest { (m : Moment) (u : ℤ) → RecursFor self.now.local (Z.ahead self.now.zone) m u → u <ℤ end → IsReachedBack result u }
    {
        if let Some(found) = self.last_in_stretch(end) {
            return Some(found);
        }
        if let Some(found) = self.last_near_change(end) {
            return Some(found);
        }
        self.last_planned(end)
    }

    // The same, where it is one of the last two days and the clock keeps its offset from two days before them on. Else none.
    fn last_in_stretch(&self, end: i64) -> Option<i64>
        requires low { neg_ℤ (pos 8_334_601_228_800) ≤ℤ end }
        requires high { end ≤ℤ pos 8_210_266_876_800 }
        ensures recurs { IfSome result (λ c. (c <ℤ end) × IsStoodFor self.now.local (Z.ahead self.now.zone) c) }
        ensures greatest { IfSome result (λ c. (m : Moment) (u : ℤ) → RecursFor self.now.local (Z.ahead self.now.zone) m u → u <ℤ end → u ≤ℤ c) }
    {
        let stretch = self.zone.stretch_from(end - FOUR_DAYS);
        let offset = i64::from(stretch.offset.local_minus_utc());
        if stretch.until < end {
            return None;
        }
        if end + offset <= BEFORE_FIRST_SECOND {
            return None;
        }
        let Some(local) = self.local.last_until(end + offset) else {
            return None;
        };
        let second = local.timestamp() - offset;
        if end - TWO_DAYS <= second && has_dates(self.zone, second) {
            Some(second)
        } else {
            None
        }
    }

    // The same, by all local times near it.
    fn last_planned(&self, end: i64) -> Option<i64>
        requires low { neg_ℤ (pos 8_334_601_228_800) ≤ℤ end }
        requires high { end ≤ℤ pos 8_210_266_876_800 }
        ensures recurs { IfSome result (λ c. (c <ℤ end) × IsStoodFor self.now.local (Z.ahead self.now.zone) c) }
        ensures greatest { (m : Moment) (u : ℤ) → RecursFor self.now.local (Z.ahead self.now.zone) m u → u <ℤ end → IsReachedBack result u }
    {
        offsets_are_small(self.zone);
        let Some(mut local) = self.local.last_until(end + DAY) else {
            return None;
        };
        let mut best: Option<i64> = None;
        while may_follow(local, best) {
            best = later(best, self.instant_before(local, end));
            let Some(previous) = self.local.last_in_front(local) else {
                return best;
            };
            local = previous;
        }
        best
    }

    // The second that a local time stands for, if it lies before another, and UTC and the clock have a date there.
    fn instant_before(&self, local: NaiveDateTime, end: i64) -> Option<i64>
        requires { IsListedSince self.now.local local }
        ensures recurs { IfSome result (λ c. (c <ℤ end) × IsStoodFor self.now.local (Z.ahead self.now.zone) c) }
        ensures only { (m : Moment) (u : ℤ) → RecursFor self.now.local (Z.ahead self.now.zone) m u → epoch_second m ≡ epoch_second local → u <ℤ end → IsReachedBack result u }
    {
        let second = second_of(self.zone, local);
        if second < end && has_dates(self.zone, second) {
            Some(second)
        } else {
            None
        }
    }

    // The second of the start's instant.
    pub(crate) fn start_second(&self) -> i64
        ensures stands { IsInstantOf (Z.ahead self.now.zone) (epoch_second self.now.local.start) result }
        ensures low { neg_ℤ (pos 8_334_601_315_200) ≤ℤ result }
        ensures high { result ≤ℤ pos 8_210_266_963_199 }
    {
        second_of(self.zone, self.local.start())
    }
}

// The later of two seconds.
fn later_of(one: i64, other: i64) -> i64
    ensures first { one ≤ℤ result }
    ensures second { other ≤ℤ result }
    ensures either { (result ≡ one) ⊎ (result ≡ other) }
{
    if one < other { other } else { one }
}

// Whether UTC and the clock have a date at a second.
pub(crate) fn has_dates<Z: TimeZone>(zone: Z, second: i64) -> bool
    ensures { IsTrue result ↔ HasDates (Z.ahead zone) second }
{
    zone.timestamp_opt(second, 0).is_some()
}

// Whether a local time may stand for an instant before the best so far: none does that lies a day or more behind it.
fn may_precede(local: NaiveDateTime, best: Option<i64>) -> bool
    requires { IfSome best IsEpochSecond }
    ensures { IsFalse result → IsSomeAnd best (λ c. (c +ℤ pos 86_400) ≤ℤ epoch_second local) }
{
    let Some(best) = best else {
        return true;
    };
    local.timestamp() < best + DAY
}

// Whether a local time may stand for an instant after the best so far: none does that lies a day or more before it.
fn may_follow(local: NaiveDateTime, best: Option<i64>) -> bool
    requires { IfSome best IsEpochSecond }
    ensures { IsFalse result → IsSomeAnd best (λ c. epoch_second local ≤ℤ (c -ℤ pos 86_400)) }
{
    let Some(best) = best else {
        return true;
    };
    best - DAY < local.timestamp()
}

// The earlier of two instants, if there is one.
pub(crate) fn earlier(one: Option<i64>, other: Option<i64>) -> Option<i64>
    ensures least { (u : ℤ) → IsReached one u ⊎ IsReached other u → IsReached result u }
    ensures either { (result ≡ one) ⊎ (result ≡ other) }
{
    match (one, other) {
        (Some(one), Some(other)) => Some(one.min(other)),
        (Some(only), None) | (None, Some(only)) => Some(only),
        (None, None) => None,
    }
}

// The later of two instants, if there is one.
pub(crate) fn later(one: Option<i64>, other: Option<i64>) -> Option<i64>
    ensures greatest { (u : ℤ) → IsReachedBack one u ⊎ IsReachedBack other u → IsReachedBack result u }
    ensures either { (result ≡ one) ⊎ (result ≡ other) }
{
    match (one, other) {
        (Some(one), Some(other)) => Some(one.max(other)),
        (Some(only), None) | (None, Some(only)) => Some(only),
        (None, None) => None,
    }
}

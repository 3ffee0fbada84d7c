//! The first instant after a second near a change of the clock, and the last before one.
//!
//! Around one change the clock has two offsets. By one of them each instant there leads to the local time that stands for it. So a search
//! asks by each offset for the local time next to a second, and takes the nearer instant. If no local time stands for that, it goes on from there.
ghost use Rattle.std.specs.Prelude.{◌≡◌, ◌⊎◌, ℤ, pos, neg_ℤ, ◌+ℤ◌, ◌-ℤ◌, ◌≤ℤ◌, ◌<ℤ◌, IfSome, IsFalse, IsTrue};
ghost use Rattle.chrono_datetime.specs.Moment.{Moment};
ghost use Rattle.chrono_instant.specs.Instants.{epoch_second};
ghost use Rattle.zoned_rules.specs.Recurs.{RecursFor};
ghost use Rattle.zoned_rules.specs.Private.{ComesAfter, ComesBefore, IsListedSince, IsStoodFor};

use crate::bound::{BEFORE_FIRST_SECOND, LAST_SECOND};
use crate::local_instant::second_of;
use crate::search::instants::{FOUR_DAYS, TWO_DAYS, has_dates};
use crate::zoned_rule::ZonedRule;
use chrono_datetime::NaiveDateTime;
use chrono_instant::{FixedOffset, Timestamp};
use chrono_zoned::TimeZone;

// A second at which a clock would show a local time of the rule, and whether that local time stands for it.
#[derive(Clone, Copy)]
pub(crate) struct Candidate {
    pub(crate) second: i64,
    pub(crate) stands: bool,
}

impl<Z: TimeZone> ZonedRule<Z> {
    // The first second after another that a local time stands for, where the clock has two offsets from two days before on. `None` says nothing.
    pub(crate) fn first_near_change(&self, after: i64) -> Option<i64>
        requires low { neg_ℤ (pos 8_334_601_400_000) ≤ℤ after }
        requires high { after ≤ℤ pos 8_210_266_963_199 }
        ensures recurs { IfSome result (λ c. (after <ℤ c) × IsStoodFor self.now.local (Z.ahead self.now.zone) c) }
        ensures least { IfSome result (λ c. (m : Moment) (u : ℤ) → RecursFor self.now.local (Z.ahead self.now.zone) m u → after <ℤ u → c ≤ℤ u) }
    {
        let before = self.zone.stretch_from(after - TWO_DAYS);
        let behind = self.zone.stretch_from(before.until);
        let until = behind.until;
        let mut second = after;
        while second < until {
            let Some(next) = self.next_candidate(second, before.offset, behind.offset) else {
                return None;
            };
            if until <= next.second {
                return None;
            }
            if next.stands {
                return Some(next.second);
            }
            second = next.second;
        }
        None
    }

    // The nearer of the candidates by two offsets behind a second.
    fn next_candidate(&self, after: i64, one: FixedOffset, other: FixedOffset) -> Option<Candidate>
        requires low { neg_ℤ (pos 8_334_601_400_000) ≤ℤ after }
        requires high { after ≤ℤ pos 8_210_266_963_199 }
        ensures later { IfSome result (λ c. after <ℤ c.second) }
        ensures high { IfSome result (λ c. c.second ≤ℤ pos 8_210_266_963_199) }
        ensures stands { IfSome result (λ c. IsTrue c.stands → IsStoodFor self.now.local (Z.ahead self.now.zone) c.second) }
        ensures reached { (m : Moment) (u : ℤ) → RecursFor self.now.local (Z.ahead self.now.zone) m u → after <ℤ u
            → ((u +ℤ one) ≡ epoch_second m) ⊎ ((u +ℤ other) ≡ epoch_second m) → ComesAfter result u }
    {
        let first = self.candidate_behind(after, one);
        let second = self.candidate_behind(after, other);
        earlier_candidate(first, second)
    }

    // By an offset, the first second after another at which a clock would show a local time.
    fn candidate_behind(&self, after: i64, offset: FixedOffset) -> Option<Candidate>
        requires low { neg_ℤ (pos 8_334_601_400_000) ≤ℤ after }
        requires high { after ≤ℤ pos 8_210_266_963_199 }
        ensures later { IfSome result (λ c. after <ℤ c.second) }
        ensures high { IfSome result (λ c. c.second ≤ℤ pos 8_210_266_963_199) }
        ensures stands { IfSome result (λ c. IsTrue c.stands → IsStoodFor self.now.local (Z.ahead self.now.zone) c.second) }
        ensures reached { (m : Moment) (u : ℤ) → RecursFor self.now.local (Z.ahead self.now.zone) m u → after <ℤ u → (u +ℤ offset) ≡ epoch_second m → ComesAfter result u }
    {
        let from = shown_by(after, offset) + 1;
        if LAST_SECOND < from {
            return None;
        }
        let Some(local) = self.local.first_since(from) else {
            return None;
        };
        Some(self.candidate_at(local, offset))
    }

    // The candidate at which a clock with the offset would show a local time.
    fn candidate_at(&self, local: NaiveDateTime, offset: FixedOffset) -> Candidate
        requires { IsListedSince self.now.local local }
        ensures second { (result.second +ℤ offset) ≡ epoch_second local }
        ensures low { neg_ℤ (pos 8_334_601_315_200) ≤ℤ result.second }
        ensures high { result.second ≤ℤ pos 8_210_266_963_199 }
        ensures yes { IsTrue result.stands → IsStoodFor self.now.local (Z.ahead self.now.zone) result.second }
        ensures no { IsFalse result.stands → (m : Moment) → epoch_second m ≡ epoch_second local → ¬ RecursFor self.now.local (Z.ahead self.now.zone) m result.second }
    {
        let second = showing(local, offset);
        Candidate {
            second,
            stands: self.stands_for(local, second),
        }
    }

    // Whether a local time stands for a second, and UTC and the clock have a date there.
    fn stands_for(&self, local: NaiveDateTime, second: i64) -> bool
        requires { IsListedSince self.now.local local }
        ensures yes { IsTrue result → IsStoodFor self.now.local (Z.ahead self.now.zone) second }
        ensures no { IsFalse result → (m : Moment) → epoch_second m ≡ epoch_second local → ¬ RecursFor self.now.local (Z.ahead self.now.zone) m second }
    {
        if second_of(self.zone, local) != second {
            return false;
        }
        has_dates(self.zone, second)
    }

    // The last second before another that a local time stands for, where the clock has two offsets from four days before on, and the second is
    // one of the last two days. `None` says nothing.
    pub(crate) fn last_near_change(&self, end: i64) -> Option<i64>
        requires low { neg_ℤ (pos 8_334_601_228_800) ≤ℤ end }
        requires high { end ≤ℤ pos 8_210_266_876_800 }
        ensures recurs { IfSome result (λ c. (c <ℤ end) × IsStoodFor self.now.local (Z.ahead self.now.zone) c) }
        ensures greatest { IfSome result (λ c. (m : Moment) (u : ℤ) → RecursFor self.now.local (Z.ahead self.now.zone) m u → u <ℤ end → u ≤ℤ c) }
    {
        let before = self.zone.stretch_from(end - FOUR_DAYS);
        let behind = self.zone.stretch_from(before.until);
        if behind.until < end {
            return None;
        }
        let mut second = end;
        while end - TWO_DAYS < second {
            let Some(previous) = self.previous_candidate(second, before.offset, behind.offset)
            else {
                return None;
            };
            if previous.second < end - TWO_DAYS {
                return None;
            }
            if previous.stands {
                return Some(previous.second);
            }
            second = previous.second;
        }
        None
    }

    // The nearer of the candidates by two offsets before a second.
    fn previous_candidate(
        &self,
        end: i64,
        one: FixedOffset,
        other: FixedOffset,
    ) -> Option<Candidate>
        requires low { neg_ℤ (pos 8_334_601_401_600) ≤ℤ end }
        requires high { end ≤ℤ pos 8_210_266_876_800 }
        ensures earlier { IfSome result (λ c. c.second <ℤ end) }
        ensures low { IfSome result (λ c. neg_ℤ (pos 8_334_601_315_200) ≤ℤ c.second) }
        ensures stands { IfSome result (λ c. IsTrue c.stands → IsStoodFor self.now.local (Z.ahead self.now.zone) c.second) }
        ensures reached { (m : Moment) (u : ℤ) → RecursFor self.now.local (Z.ahead self.now.zone) m u → u <ℤ end
            → ((u +ℤ one) ≡ epoch_second m) ⊎ ((u +ℤ other) ≡ epoch_second m) → ComesBefore result u }
    {
        let first = self.candidate_before(end, one);
        let second = self.candidate_before(end, other);
        later_candidate(first, second)
    }

    // By an offset, the last second before another at which a clock would show a local time.
    fn candidate_before(&self, end: i64, offset: FixedOffset) -> Option<Candidate>
        requires low { neg_ℤ (pos 8_334_601_401_600) ≤ℤ end }
        requires high { end ≤ℤ pos 8_210_266_876_800 }
        ensures earlier { IfSome result (λ c. c.second <ℤ end) }
        ensures low { IfSome result (λ c. neg_ℤ (pos 8_334_601_315_200) ≤ℤ c.second) }
        ensures stands { IfSome result (λ c. IsTrue c.stands → IsStoodFor self.now.local (Z.ahead self.now.zone) c.second) }
        ensures reached { (m : Moment) (u : ℤ) → RecursFor self.now.local (Z.ahead self.now.zone) m u → u <ℤ end → (u +ℤ offset) ≡ epoch_second m → ComesBefore result u }
    {
        let to = shown_by(end, offset);
        if to <= BEFORE_FIRST_SECOND {
            return None;
        }
        let Some(local) = self.local.last_until(to) else {
            return None;
        };
        Some(self.candidate_at(local, offset))
    }
}

// What a clock with the offset shows at a second.
#[inline]
fn shown_by(second: i64, offset: FixedOffset) -> i64
    requires low { neg_ℤ (pos 8_334_601_401_600) ≤ℤ second }
    requires high { second ≤ℤ pos 8_210_266_963_199 }
    ensures value { result ≡ second +ℤ offset }
    ensures low { neg_ℤ (pos 8_334_601_488_000) ≤ℤ result }
    ensures high { result ≤ℤ pos 8_210_267_049_599 }
{
    second + i64::from(offset.local_minus_utc())
}

// The second at which a clock with the offset shows a local time.
#[inline]
fn showing(local: NaiveDateTime, offset: FixedOffset) -> i64
    ensures value { (result +ℤ offset) ≡ epoch_second local }
    ensures low { neg_ℤ (pos 8_334_601_315_200) ≤ℤ result }
    ensures high { result ≤ℤ pos 8_210_266_963_199 }
{
    local.timestamp() - i64::from(offset.local_minus_utc())
}

// The earlier of two candidates, if there is one. Of two at one second it is one that stands, if there is one.
fn earlier_candidate(one: Option<Candidate>, other: Option<Candidate>) -> Option<Candidate>
    ensures reached { (u : ℤ) → ComesAfter one u ⊎ ComesAfter other u → ComesAfter result u }
    ensures either { (result ≡ one) ⊎ (result ≡ other) }
{
    match (one, other) {
        (Some(first), Some(second)) => {
            if first.second < second.second || (first.second == second.second && first.stands) {
                one
            } else {
                other
            }
        }
        (Some(_), None) => one,
        (None, _) => other,
    }
}

// The later of two candidates, if there is one. Of two at one second it is one that stands, if there is one.
fn later_candidate(one: Option<Candidate>, other: Option<Candidate>) -> Option<Candidate>
    ensures reached { (u : ℤ) → ComesBefore one u ⊎ ComesBefore other u → ComesBefore result u }
    ensures either { (result ≡ one) ⊎ (result ≡ other) }
{
    match (one, other) {
        (Some(first), Some(second)) => {
            if second.second < first.second || (first.second == second.second && first.stands) {
                one
            } else {
                other
            }
        }
        (Some(_), None) => one,
        (None, _) => other,
    }
}

//! `Bound`: COUNT and UNTIL, and the last second at which they let a rule recur.
ghost use Rattle.std.specs.Prelude.{◌≡◌, ◌↔◌, ◌⊎◌, ℕ, ℤ, pos, neg_ℤ, ◌+ℤ◌, ◌≤ℤ◌, ◌<ℤ◌, IfSome, IsFalse, IsTrue};
ghost use Rattle.chrono_instant.specs.Instants.{IsEpochSecond};
ghost use Rattle.zoned_rules.specs.Recurs.{IsOneOf, IsWithin, Recurs, RecursWithin};
ghost use Rattle.zoned_rules.specs.declared.bound.Bound.TheVariants.{Count};
ghost use Rattle.zoned_rules.specs.Private.{IsReached, IsReachedBack};

use crate::zoned_rule::ZonedRule;
use chrono_datetime::NaiveDateTime;
use chrono_instant::{FromTimestamp, Timestamp};
use chrono_zoned::TimeZone;

// The last second of the last date, and the second before the first of the first date.
pub(crate) const LAST_SECOND: i64 = 8_210_266_876_799;

pub(crate) const BEFORE_FIRST_SECOND: i64 = -8_334_601_228_801;

/// COUNT or UNTIL: where a rule in a zone ends.
#[derive(Clone, Copy, PartialEq, Eq, Debug)]
pub enum Bound {
    /// The rule never ends.
    Never,
    /// COUNT: the rule has at most this many instances. Two local times that stand for one instant count once.
    /// The start counts only if it is an instance. Exceptions count too.
    Count(u32),
    /// UNTIL: no instance is after the instant at which UTC shows this. The instant itself can be one.
    /// RFC 5545 asks for a time of UTC where the start has a time zone.
    Until(NaiveDateTime),
}

impl<Z: TimeZone> ZonedRule<Z> {
    /// Returns a rule with the same instances that has UNTIL in place of COUNT.
    ///
    /// It counts the instances once, and the calls of the new rule count none. A rule with UNTIL stays as it is. A rule without an end gets
    /// the last second of the calendar as UNTIL. `Count(0)` stays, since no UNTIL leaves out every instant.
    ///
    /// ```
    /// use chrono_datetime::{AndTime, NaiveDate};
    /// let start = NaiveDate::from_ymd_opt(2024, 1, 1)?.and_hms_opt(9, 30, 0)?;
    /// let daily = LocalRule::new(Rule::new(Frequency::Daily), DayTimes::of_start(), start)?;
    /// ZonedRule::new(daily, FixedOffset::east_opt(0)?, Bound::Count(2)).without_count().bound // Until(2024-01-02T09:30:00)
    /// ```
    pub fn without_count(&self) -> ZonedRule<Z>
        ensures local { result.local ≡ self.now.local }
        ensures zone { result.zone ≡ self.now.zone }
        ensures same { (u : ℤ) → RecursWithin self.now.local (Z.ahead self.now.zone) result.bound u ↔ RecursWithin self.now.local (Z.ahead self.now.zone) self.now.bound u }
        // Where COUNT stays, there is no instance to count.
        ensures uncounted { (count : ℕ) (u : ℤ) → result.bound ≡ Count count → ¬ RecursWithin self.now.local (Z.ahead self.now.zone) result.bound u }
    {
        match NaiveDateTime::from_timestamp(self.last_second(), 0) {
            Some(last) => ZonedRule {
                local: self.local,
                zone: self.zone,
                bound: Bound::Until(last),
            },
            // (no instance is as early as UTC's dates)
            None => *self,
        }
    }

    // The first second after another at which there is an instance.
    pub(crate) fn next_second(&self, start: i64) -> Option<i64>
        requires low { neg_ℤ (pos 8_334_601_300_000) ≤ℤ start }
        requires high { start ≤ℤ pos 8_210_266_876_799 }
        ensures recurs { IfSome result (λ c. (start <ℤ c) × RecursWithin self.now.local (Z.ahead self.now.zone) self.now.bound c) }
        ensures least { (u : ℤ) → start <ℤ u → RecursWithin self.now.local (Z.ahead self.now.zone) self.now.bound u → IsReached result u }
    {
        let found = self.first_after(start)?;
        if self.last_second() < found {
            return None;
        }
        Some(found)
    }

    // The last second before another at which there is an instance.
    pub(crate) fn previous_second(&self, end: i64) -> Option<i64>
        requires low { neg_ℤ (pos 8_334_601_228_800) ≤ℤ end }
        requires high { end ≤ℤ pos 8_210_266_876_800 }
        ensures recurs { IfSome result (λ c. (c <ℤ end) × RecursWithin self.now.local (Z.ahead self.now.zone) self.now.bound c) }
        ensures greatest { (u : ℤ) → u <ℤ end → RecursWithin self.now.local (Z.ahead self.now.zone) self.now.bound u → IsReachedBack result u }
    {
        let last = self.last_second();
        let found = self.last_before(earlier_of(end, last + 1))?;
        Some(found)
    }

    // Whether there is an instance at a second.
    pub(crate) fn recurs_at(&self, second: i64) -> bool
        requires { IsEpochSecond second }
        ensures yes { IsTrue result → RecursWithin self.now.local (Z.ahead self.now.zone) self.now.bound second }
        ensures no { IsFalse result → ¬ RecursWithin self.now.local (Z.ahead self.now.zone) self.now.bound second }
    {
        // (what is found is no earlier than the second)
        match self.next_second(second - 1) {
            Some(found) => found <= second,
            None => false,
        }
    }

    // The last second at which COUNT and UNTIL let the rule recur.
    pub(crate) fn last_second(&self) -> i64
        ensures inside { (u : ℤ) → Recurs self.now.local (Z.ahead self.now.zone) u → u ≤ℤ result → IsWithin self.now.bound (Recurs self.now.local (Z.ahead self.now.zone)) u }
        ensures outside { (u : ℤ) → Recurs self.now.local (Z.ahead self.now.zone) u → IsWithin self.now.bound (Recurs self.now.local (Z.ahead self.now.zone)) u → u ≤ℤ result }
        ensures low { neg_ℤ (pos 8_334_601_228_801) ≤ℤ result }
        ensures high { result ≤ℤ pos 8_210_266_876_799 }
    {
        match self.bound {
            Bound::Never => LAST_SECOND,
            Bound::Count(count) => self.last_of(count),
            Bound::Until(last) => last.timestamp(),
        }
    }

    // A second up to which the rule recurs at so many seconds, or the last of all dates if there are fewer.
    fn last_of(&self, count: u32) -> i64
        ensures inside { (u : ℤ) → Recurs self.now.local (Z.ahead self.now.zone) u → u ≤ℤ result → IsOneOf (Recurs self.now.local (Z.ahead self.now.zone)) count u }
        ensures outside { (u : ℤ) → Recurs self.now.local (Z.ahead self.now.zone) u → IsOneOf (Recurs self.now.local (Z.ahead self.now.zone)) count u → u ≤ℤ result }
        ensures low { neg_ℤ (pos 8_334_601_228_801) ≤ℤ result }
        ensures high { result ≤ℤ pos 8_210_266_876_799 }
    {
        let times = self.local.times_of_each_day();
        let mut second = BEFORE_FIRST_SECOND;
        let mut seen = 0;
        while seen < count {
            let Some(next) = self.first_after(second) else {
                return LAST_SECOND;
            };
            let counted = self.count_on(second, next, times, count - seen);
            second = counted.second;
            seen += counted.seen;
        }
        second
    }
}

// The earlier of two seconds.
pub(crate) fn earlier_of(one: i64, other: i64) -> i64
    ensures first { result ≤ℤ one }
    ensures second { result ≤ℤ other }
    ensures either { (result ≡ one) ⊎ (result ≡ other) }
{
    if one < other { one } else { other }
}

//! `ZonedRecurrence`: a rule in a zone with extra instants and exceptions.
ghost use Rattle.std.specs.Prelude.{◌≡◌, ◌↔◌, ◌≤◌, ℤ, pos, neg_ℤ, ◌≤ℤ◌, ◌<ℤ◌, IfNone, IfSome, IsFalse, IsTrue, List, Some};
ghost use Rattle.std.specs.Iterator.{Drains};
ghost use Rattle.chrono_datetime.specs.Moment.{IsBefore};
ghost use Rattle.chrono_instant.specs.Instants.{IsEpochSecond};
ghost use Rattle.chrono_zoned.specs.HeldSeconds.{HoldsAt, HoldsNotAfter, HoldsNotBefore, HoldsNotBetween};
ghost use Rattle.zoned_rules.specs.Private.{IsReached, IsReachedBack};
ghost use Rattle.chrono_zoned.specs.Zoned.{Zoned};
ghost use Rattle.zoned_rules.specs.ZonedInstanceLists.{seconds_until_end};
ghost use Rattle.zoned_rules.specs.ZonedMemberLists.{AreZonedMembers, GivesMember};
ghost use Rattle.zoned_rules.specs.ZonedSets.{IsInZonedSet, IsIncluded};

use crate::listed_instants::{first_listed, last_listed, lists};
use crate::search::instants::{earlier, later};
use crate::search::zoned_members::ZonedMembers;
use crate::zoned_rule::{ZonedRule, first_second_from};
use chrono_datetime::Timelike;
use chrono_datetime::law::date_times_exist;
use chrono_instant::Timestamp;
use chrono_zoned::{DateTime, InZone, TimeZone};

/// A rule in a zone, with extra instants (RDATE) and exceptions (EXDATE).
///
/// It is the recurrence set of RFC 5545 (3.8.5.1 and 3.8.5.2). An instant that is both an instance and an extra one is in it once.
/// COUNT counts the instances that are exceptions too. An extra instant uses up none of it, and may lie before the start.
///
/// The lists may be in any order. Only their instants count, and not the zones. A fraction of a second in them is left out.
#[derive(Clone, Copy)]
pub struct ZonedRecurrence<'a, Z: TimeZone> {
    /// The rule in its zone.
    pub rule: ZonedRule<Z>,
    /// RDATE: instants beside those of the rule.
    pub dates: &'a [DateTime<Z>],
    /// EXDATE: instants that are left out.
    pub exceptions: &'a [DateTime<Z>],
}

impl<'a, Z: TimeZone> ZonedRecurrence<'a, Z> {
    /// Returns whether `instant` is in the set. An instant within a second is not, and neither is one in a leap second.
    ///
    /// ```
    /// use chrono_datetime::{AndTime, NaiveDate};
    /// let start = NaiveDate::from_ymd_opt(2024, 1, 1)?.and_hms_opt(9, 30, 0)?;
    /// let daily = LocalRule::new(Rule::new(Frequency::Daily), DayTimes::of_start(), start)?;
    /// let zone = FixedOffset::east_opt(3_600)?;
    /// let (rule, first) = (ZonedRule::new(daily, zone, Bound::Never), instant_of(zone, start)?);
    /// let set = ZonedRecurrence { rule, dates: &[], exceptions: &[first] };
    /// set.is_instance(first) // false
    /// ```
    pub fn is_instance(&self, instant: DateTime<Z>) -> bool
        ensures { IsTrue result ↔ HoldsAt (IsInZonedSet self.now.rule.local (Z.ahead self.now.rule.zone) self.now.rule.bound self.now.dates.now self.now.exceptions.now) instant.utc }
    {
        let utc = instant.naive_utc();
        if utc.nanosecond() > 0 {
            return false;
        }
        date_times_exist(utc);
        self.has_second(utc.timestamp())
    }

    /// Returns the first instant after `start` that is in the set.
    ///
    /// Returns `None` if there is none for which UTC and the clock have a date.
    ///
    /// ```
    /// use chrono_datetime::{AndTime, NaiveDate};
    /// let start = NaiveDate::from_ymd_opt(2024, 1, 1)?.and_hms_opt(9, 30, 0)?;
    /// let daily = LocalRule::new(Rule::new(Frequency::Daily), DayTimes::of_start(), start)?;
    /// let zone = FixedOffset::east_opt(3_600)?;
    /// let (rule, first) = (ZonedRule::new(daily, zone, Bound::Never), instant_of(zone, start)?);
    /// let set = ZonedRecurrence { rule, dates: &[], exceptions: &[rule.next_after(first)?] };
    /// set.next_after(first) // Some(2024-01-03T09:30:00+01:00)
    /// ```
    pub fn next_after(&self, start: DateTime<Z>) -> Option<DateTime<Z>>
        ensures member { IfSome result (λ d. HoldsAt (IsInZonedSet self.now.rule.local (Z.ahead self.now.rule.zone) self.now.rule.bound self.now.dates.now self.now.exceptions.now) d.utc) }
        ensures zone { IfSome result (λ d. d.zone ≡ self.now.rule.zone) }
        ensures later { IfSome result (λ d. IsBefore start.utc d.utc) }
        ensures least { IfSome result (λ d. HoldsNotBetween (IsInZonedSet self.now.rule.local (Z.ahead self.now.rule.zone) self.now.rule.bound self.now.dates.now self.now.exceptions.now) start.utc d.utc) }
        ensures none { IfNone result (HoldsNotAfter (IsInZonedSet self.now.rule.local (Z.ahead self.now.rule.zone) self.now.rule.bound self.now.dates.now self.now.exceptions.now) start.utc) }
    {
        let utc = start.naive_utc();
        date_times_exist(utc);
        self.rule
            .zone
            .timestamp_opt(self.first_member(utc.timestamp())?, 0)
    }

    /// Returns the last instant before `start` that is in the set.
    ///
    /// Returns `None` if there is none for which UTC and the clock have a date.
    ///
    /// ```
    /// use chrono_datetime::{AndTime, NaiveDate};
    /// let start = NaiveDate::from_ymd_opt(2024, 1, 1)?.and_hms_opt(9, 30, 0)?;
    /// let daily = LocalRule::new(Rule::new(Frequency::Daily), DayTimes::of_start(), start)?;
    /// let zone = FixedOffset::east_opt(3_600)?;
    /// let (rule, first) = (ZonedRule::new(daily, zone, Bound::Never), instant_of(zone, start)?);
    /// let set = ZonedRecurrence { rule, dates: &[], exceptions: &[first] };
    /// set.prev_before(rule.next_after(first)?) // None
    /// ```
    pub fn prev_before(&self, start: DateTime<Z>) -> Option<DateTime<Z>>
        ensures member { IfSome result (λ d. HoldsAt (IsInZonedSet self.now.rule.local (Z.ahead self.now.rule.zone) self.now.rule.bound self.now.dates.now self.now.exceptions.now) d.utc) }
        ensures zone { IfSome result (λ d. d.zone ≡ self.now.rule.zone) }
        ensures earlier { IfSome result (λ d. IsBefore d.utc start.utc) }
        ensures greatest { IfSome result (λ d. HoldsNotBetween (IsInZonedSet self.now.rule.local (Z.ahead self.now.rule.zone) self.now.rule.bound self.now.dates.now self.now.exceptions.now) d.utc start.utc) }
        ensures none { IfNone result (HoldsNotBefore (IsInZonedSet self.now.rule.local (Z.ahead self.now.rule.zone) self.now.rule.bound self.now.dates.now self.now.exceptions.now) start.utc) }
    {
        let end = first_second_from(start.naive_utc());
        self.rule.zone.timestamp_opt(self.last_member(end)?, 0)
    }

    /// Returns an iterator over the instants of the set after `start`.
    ///
    /// They come in order, as far as UTC and the clock have dates. As by [`ZonedRule::after`], every step counts the instances of a rule with COUNT.
    ///
    /// ```
    /// use chrono_datetime::{AndTime, NaiveDate};
    /// let start = NaiveDate::from_ymd_opt(2024, 1, 1)?.and_hms_opt(9, 30, 0)?;
    /// let daily = LocalRule::new(Rule::new(Frequency::Daily), DayTimes::of_start(), start)?;
    /// let zone = FixedOffset::east_opt(3_600)?;
    /// let (rule, first) = (ZonedRule::new(daily, zone, Bound::Count(3)), instant_of(zone, start)?);
    /// let set = ZonedRecurrence { rule, dates: &[], exceptions: &[rule.next_after(first)?] };
    /// let mut days = set.after(first);
    /// (days.next(), days.next()) // (Some(2024-01-03T09:30:00+01:00), None)
    /// ```
    pub fn after(self, start: DateTime<Z>) -> ZonedMembers<'a, Z>
        ensures value { result ≡ record { set = self.entry; last = Some start } }
        // No more seconds are left than that.
        ensures few { seconds_until_end result.last ≤ 16_544_868_105_599 }
        // What calls of `next` give, up to the first `None`, is the set's instants in order.
        ensures runs { (given : List (Zoned Z)) → Drains (GivesMember Z.ahead) result given → AreZonedMembers Z.ahead self.entry start.utc given }
    {
        date_times_exist(start.naive_utc());
        ZonedMembers {
            set: self,
            last: Some(start),
        }
    }

    // Whether a second is in the set.
    fn has_second(&self, second: i64) -> bool
        requires { IsEpochSecond second }
        ensures yes { IsTrue result → IsInZonedSet self.now.rule.local (Z.ahead self.now.rule.zone) self.now.rule.bound self.now.dates.now self.now.exceptions.now second }
        ensures no { IsFalse result → ¬ IsInZonedSet self.now.rule.local (Z.ahead self.now.rule.zone) self.now.rule.bound self.now.dates.now self.now.exceptions.now second }
    {
        // (what is found is no earlier than the second)
        match self.first_member(second - 1) {
            Some(found) => found <= second,
            None => false,
        }
    }

    // The first second after another that is in the set.
    fn first_member(&self, start: i64) -> Option<i64>
        requires low { neg_ℤ (pos 8_334_601_300_000) ≤ℤ start }
        requires high { start ≤ℤ pos 8_210_266_876_799 }
        ensures member { IfSome result (λ c. (start <ℤ c) × IsInZonedSet self.now.rule.local (Z.ahead self.now.rule.zone) self.now.rule.bound self.now.dates.now self.now.exceptions.now c) }
        ensures least { (u : ℤ) → start <ℤ u → IsInZonedSet self.now.rule.local (Z.ahead self.now.rule.zone) self.now.rule.bound self.now.dates.now self.now.exceptions.now u → IsReached result u }
    {
        let mut second = start;
        while let Some(next) = self.first_included(second) {
            if !lists(self.exceptions, next) {
                return Some(next);
            }
            second = next;
        }
        None
    }

    // The first second after another at which there is an instance or an instant beside the rule.
    fn first_included(&self, start: i64) -> Option<i64>
        requires low { neg_ℤ (pos 8_334_601_300_000) ≤ℤ start }
        requires high { start ≤ℤ pos 8_210_266_876_799 }
        ensures included { IfSome result (λ c. (start <ℤ c) × IsIncluded self.now.rule.local (Z.ahead self.now.rule.zone) self.now.rule.bound self.now.dates.now c) }
        ensures least { (u : ℤ) → start <ℤ u → IsIncluded self.now.rule.local (Z.ahead self.now.rule.zone) self.now.rule.bound self.now.dates.now u → IsReached result u }
    {
        earlier(
            self.rule.next_second(start),
            first_listed(self.rule.zone, self.dates, start),
        )
    }

    // The last second before another that is in the set.
    fn last_member(&self, end: i64) -> Option<i64>
        requires low { neg_ℤ (pos 8_334_601_228_800) ≤ℤ end }
        requires high { end ≤ℤ pos 8_210_266_876_800 }
        ensures member { IfSome result (λ c. (c <ℤ end) × IsInZonedSet self.now.rule.local (Z.ahead self.now.rule.zone) self.now.rule.bound self.now.dates.now self.now.exceptions.now c) }
        ensures greatest { (u : ℤ) → u <ℤ end → IsInZonedSet self.now.rule.local (Z.ahead self.now.rule.zone) self.now.rule.bound self.now.dates.now self.now.exceptions.now u → IsReachedBack result u }
    {
        let mut second = end;
        while let Some(previous) = self.last_included(second) {
            if !lists(self.exceptions, previous) {
                return Some(previous);
            }
            second = previous;
        }
        None
    }

    // The last second before another at which there is an instance or an instant beside the rule.
    fn last_included(&self, end: i64) -> Option<i64>
        requires low { neg_ℤ (pos 8_334_601_228_800) ≤ℤ end }
        requires high { end ≤ℤ pos 8_210_266_876_800 }
        ensures included { IfSome result (λ c. (c <ℤ end) × IsIncluded self.now.rule.local (Z.ahead self.now.rule.zone) self.now.rule.bound self.now.dates.now c) }
        ensures greatest { (u : ℤ) → u <ℤ end → IsIncluded self.now.rule.local (Z.ahead self.now.rule.zone) self.now.rule.bound self.now.dates.now u → IsReachedBack result u }
    {
        later(
            self.rule.previous_second(end),
            last_listed(self.rule.zone, self.dates, end),
        )
    }
}

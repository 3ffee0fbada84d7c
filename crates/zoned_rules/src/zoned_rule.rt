//! `ZonedRule`: a rule in a zone, and the instants at which it recurs.
ghost use Rattle.std.specs.Prelude.{◌≡◌, ◌↔◌, ◌<◌, ◌≤◌, pos, neg_ℤ, ◌+ℤ◌, ◌≤ℤ◌, IfNone, IfSome, IsTrue, List, Some};
ghost use Rattle.std.specs.Iterator.{Drains};
ghost use Rattle.chrono_datetime.specs.Moment.{IsBefore, IsMoment};
ghost use Rattle.chrono_instant.specs.Instants.{epoch_second};
ghost use Rattle.chrono_zoned.specs.Zoned.{Zoned};
ghost use Rattle.zoned_rules.specs.ZonedInstanceLists.{AreZonedInstances, GivesInstance, seconds_until_end};
ghost use Rattle.zoned_rules.specs.Recurs.{IsInstanceAt, NoInstanceAfter, NoInstanceBefore, NoInstanceBetween};

use crate::bound::Bound;
use crate::local_rule::LocalRule;
use crate::search::zoned_instances::ZonedInstances;
use chrono_datetime::law::date_times_exist;
use chrono_datetime::{NaiveDateTime, Timelike};
use chrono_instant::Timestamp;
use chrono_zoned::{DateTime, InZone, TimeZone};

/// A rule in a zone: a rule of local times, the zone whose clock shows them, and COUNT or UNTIL.
///
/// Its instances are the instants that the local times from the start on stand for, from the start's instant on. Each is one instance, also
/// where a gap moves a second local time onto it. A local time before the start is none, even if a gap moves it behind the start's instant.
/// The start's instant is an instance only if a local time stands for it.
#[derive(Clone, Copy)]
pub struct ZonedRule<Z: TimeZone> {
    /// The local times.
    pub local: LocalRule,
    /// The zone.
    pub zone: Z,
    /// COUNT or UNTIL.
    pub bound: Bound,
}

impl<Z: TimeZone> ZonedRule<Z> {
    /// Returns a rule of local times in a zone, with a bound.
    ///
    /// ```
    /// use chrono_datetime::{AndTime, NaiveDate};
    /// let start = NaiveDate::from_ymd_opt(2024, 1, 1)?.and_hms_opt(9, 30, 0)?;
    /// let daily = LocalRule::new(Rule::new(Frequency::Daily), DayTimes::of_start(), start)?;
    /// ZonedRule::new(daily, FixedOffset::east_opt(0)?, Bound::Count(2)).bound // Count(2)
    /// ```
    pub fn new(local: LocalRule, zone: Z, bound: Bound) -> ZonedRule<Z>
        ensures { result ≡ record { local = local; zone = zone; bound = bound } }
    {
        ZonedRule { local, zone, bound }
    }

    /// Returns whether `instant` is an instance.
    ///
    /// Only the instant counts, and the rule's own zone: that of `instant` makes no difference.
    ///
    /// ```
    /// use chrono_datetime::{AndTime, NaiveDate};
    /// let start = NaiveDate::from_ymd_opt(2024, 1, 1)?.and_hms_opt(9, 30, 0)?;
    /// let daily = LocalRule::new(Rule::new(Frequency::Daily), DayTimes::of_start(), start)?;
    /// let zone = FixedOffset::east_opt(3_600)?;
    /// ZonedRule::new(daily, zone, Bound::Never).is_instance(instant_of(zone, start)?) // true
    /// ```
    pub fn is_instance(&self, instant: DateTime<Z>) -> bool
        ensures { IsTrue result ↔ IsInstanceAt self.now.local (Z.ahead self.now.zone) self.now.bound instant.utc }
    {
        let utc = instant.naive_utc();
        if utc.nanosecond() > 0 {
            return false;
        }
        date_times_exist(utc);
        self.recurs_at(utc.timestamp())
    }

    /// Returns the first instance after `start`.
    ///
    /// Returns `None` if there is none for which UTC and the clock have a date.
    ///
    /// ```
    /// use chrono_datetime::{AndTime, NaiveDate};
    /// let start = NaiveDate::from_ymd_opt(2024, 1, 1)?.and_hms_opt(9, 30, 0)?;
    /// let daily = LocalRule::new(Rule::new(Frequency::Daily), DayTimes::of_start(), start)?;
    /// let zone = FixedOffset::east_opt(3_600)?;
    /// ZonedRule::new(daily, zone, Bound::Never).next_after(instant_of(zone, start)?) // Some(2024-01-02T09:30:00+01:00)
    /// ```
    pub fn next_after(&self, start: DateTime<Z>) -> Option<DateTime<Z>>
        ensures instance { IfSome result (λ d. IsInstanceAt self.now.local (Z.ahead self.now.zone) self.now.bound d.utc) }
        ensures zone { IfSome result (λ d. d.zone ≡ self.now.zone) }
        ensures later { IfSome result (λ d. IsBefore start.utc d.utc) }
        ensures least { IfSome result (λ d. NoInstanceBetween self.now.local (Z.ahead self.now.zone) self.now.bound start.utc d.utc) }
        ensures none { IfNone result (NoInstanceAfter self.now.local (Z.ahead self.now.zone) self.now.bound start.utc) }
    {
        let utc = start.naive_utc();
        date_times_exist(utc);
        self.zone
            .timestamp_opt(self.next_second(utc.timestamp())?, 0)
    }

    /// Returns the last instance before `start`.
    ///
    /// Returns `None` if there is none for which UTC and the clock have a date.
    ///
    /// ```
    /// use chrono_datetime::{AndTime, NaiveDate};
    /// let start = NaiveDate::from_ymd_opt(2024, 1, 1)?.and_hms_opt(9, 30, 0)?;
    /// let daily = LocalRule::new(Rule::new(Frequency::Daily), DayTimes::of_start(), start)?;
    /// let zone = FixedOffset::east_opt(3_600)?;
    /// ZonedRule::new(daily, zone, Bound::Never).prev_before(instant_of(zone, start)?) // None
    /// ```
    pub fn prev_before(&self, start: DateTime<Z>) -> Option<DateTime<Z>>
        ensures instance { IfSome result (λ d. IsInstanceAt self.now.local (Z.ahead self.now.zone) self.now.bound d.utc) }
        ensures zone { IfSome result (λ d. d.zone ≡ self.now.zone) }
        ensures earlier { IfSome result (λ d. IsBefore d.utc start.utc) }
        ensures greatest { IfSome result (λ d. NoInstanceBetween self.now.local (Z.ahead self.now.zone) self.now.bound d.utc start.utc) }
        ensures none { IfNone result (NoInstanceBefore self.now.local (Z.ahead self.now.zone) self.now.bound start.utc) }
    {
        let end = first_second_from(start.naive_utc());
        self.zone.timestamp_opt(self.previous_second(end)?, 0)
    }

    /// Returns an iterator over the instances after `start`.
    ///
    /// They come in order, as far as UTC and the clock have dates.
    ///
    /// ```
    /// use chrono_datetime::{AndTime, NaiveDate};
    /// let start = NaiveDate::from_ymd_opt(2024, 1, 1)?.and_hms_opt(9, 30, 0)?;
    /// let daily = LocalRule::new(Rule::new(Frequency::Daily), DayTimes::of_start(), start)?;
    /// let zone = FixedOffset::east_opt(3_600)?;
    /// let mut days = ZonedRule::new(daily, zone, Bound::Count(2)).after(instant_of(zone, start)?);
    /// (days.next(), days.next()) // (Some(2024-01-02T09:30:00+01:00), None)
    /// ```
    ///
    /// Every step counts the instances of a rule with COUNT from the rule's start on.
    /// [`without_count`](ZonedRule::without_count) counts them once.
    pub fn after(&self, start: DateTime<Z>) -> ZonedInstances<Z>
        ensures value { result ≡ record { rule = self.now; last = Some start } }
        // No more seconds are left than that.
        ensures few { seconds_until_end result.last ≤ 16_544_868_105_599 }
        // What calls of `next` give, up to the first `None`, is the instances in order.
        ensures runs { (given : List (Zoned Z)) → Drains (GivesInstance Z.ahead) result given → AreZonedInstances Z.ahead self.now start.utc given }
    {
        date_times_exist(start.naive_utc());
        ZonedInstances {
            rule: *self,
            last: Some(start),
        }
    }
}

// The first second that begins no earlier than a date-time.
pub(crate) fn first_second_from(utc: NaiveDateTime) -> i64
    ensures whole { utc.time.fraction ≡ 0 → result ≡ epoch_second utc }
    ensures within { 0 < utc.time.fraction → result ≡ epoch_second utc +ℤ pos 1 }
    ensures low { neg_ℤ (pos 8_334_601_228_800) ≤ℤ result }
    ensures high { result ≤ℤ pos 8_210_266_876_800 }
    ensures exists { IsMoment utc }
{
    date_times_exist(utc);
    let second = utc.timestamp();
    if utc.nanosecond() > 0 {
        second + 1
    } else {
        second
    }
}

//! `ZonedSchedule`: a schedule in a zone, and the instants at which it fires.
ghost use Rattle.std.specs.Prelude.{◌≡◌, ◌↔◌, ◌≤◌, IfNone, IfSome, IsTrue, List, Some};
ghost use Rattle.std.specs.Iterator.{Drains};
ghost use Rattle.chrono_datetime.specs.Moment.{IsBefore};
ghost use Rattle.chrono_zoned.specs.Zoned.{Zoned};
ghost use Rattle.zoned_cron.specs.Fires.{FiresAt, NotFiringAfter, NotFiringBefore, NotFiringBetween};
ghost use Rattle.zoned_cron.specs.FiringLists.{AreFirings, GivesNext, seconds_after};

use crate::policy::Policy;
use crate::search::firings::Firings;
use crate::search::held::Held;
use crate::search::instants::begun_by;
use chrono_cron::Schedule;
use chrono_datetime::Timelike;
use chrono_datetime::law::date_times_exist;
use chrono_instant::Timestamp;
use chrono_zoned::{DateTime, InZone, TimeZone};

/// A cron schedule in a zone.
///
/// The zone's clock shows the local time at which the schedule is planned. The policy says what becomes of a local time that the clock
/// skips or shows twice.
///
/// ```
/// let schedule = read_schedule(b"30 2 * * *").ok()?;
/// let zone = FixedOffset::east_opt(3_600)?;
/// ZonedSchedule::new(schedule, zone, Policy::vixie(&schedule)).policy.fold // EarlierOfShort
/// ```
#[derive(Clone, Copy)]
pub struct ZonedSchedule<Z: TimeZone> {
    /// The schedule, in local time.
    pub schedule: Schedule,
    /// The zone.
    pub zone: Z,
    /// What becomes of a local time that is skipped or comes twice.
    pub policy: Policy,
}

impl<Z: TimeZone> ZonedSchedule<Z> {
    /// Returns a schedule in a zone, with a policy.
    ///
    /// ```
    /// let schedule = read_schedule(b"30 2 * * *").ok()?;
    /// let policy = Policy { gap: Gap::Skip, fold: Fold::Later };
    /// ZonedSchedule::new(schedule, FixedOffset::east_opt(0)?, policy).policy == policy // true
    /// ```
    pub fn new(schedule: Schedule, zone: Z, policy: Policy) -> ZonedSchedule<Z>
        ensures { result ≡ record { schedule = schedule; zone = zone; policy = policy } }
    {
        ZonedSchedule {
            schedule,
            zone,
            policy,
        }
    }

    /// Returns whether the schedule fires at `instant`.
    ///
    /// Only the instant counts, and the schedule's own zone: that of `instant` makes no difference.
    ///
    /// ```
    /// let schedule = read_schedule(b"30 2 * * *").ok()?;
    /// let zone = FixedOffset::east_opt(3_600)?;
    /// let nightly = ZonedSchedule::new(schedule, zone, Policy::vixie(&schedule));
    /// nightly.is_due(zone.with_ymd_and_hms(2024, 3, 31, 2, 30, 0).single()?) // true
    /// nightly.is_due(zone.with_ymd_and_hms(2024, 3, 31, 2, 30, 1).single()?) // false
    /// ```
    pub fn is_due(&self, instant: DateTime<Z>) -> bool
        ensures { IsTrue result ↔ FiresAt self.now.schedule.sets (Z.ahead self.now.zone) self.now.policy instant.utc }
    {
        let utc = instant.naive_utc();
        if utc.nanosecond() > 0 {
            return false;
        }
        date_times_exist(utc);
        self.fires_at(utc.timestamp())
    }

    /// Returns the first instant after `start` at which the schedule fires.
    ///
    /// Returns `None` if there is none for which UTC and the clock have a date.
    ///
    /// ```
    /// let schedule = read_schedule(b"30 2 * * *").ok()?;
    /// let zone = FixedOffset::east_opt(3_600)?;
    /// let nightly = ZonedSchedule::new(schedule, zone, Policy::vixie(&schedule));
    /// nightly.next_after(zone.with_ymd_and_hms(2024, 3, 31, 2, 30, 0).single()?) // Some(2024-04-01T02:30:00+01:00)
    /// ```
    pub fn next_after(&self, start: DateTime<Z>) -> Option<DateTime<Z>>
        ensures fires { IfSome result (λ d. FiresAt self.now.schedule.sets (Z.ahead self.now.zone) self.now.policy d.utc) }
        ensures zone { IfSome result (λ d. d.zone ≡ self.now.zone) }
        ensures later { IfSome result (λ d. IsBefore start.utc d.utc) }
        ensures least { IfSome result (λ d. NotFiringBetween self.now.schedule.sets (Z.ahead self.now.zone) self.now.policy start.utc d.utc) }
        ensures none { IfNone result (NotFiringAfter self.now.schedule.sets (Z.ahead self.now.zone) self.now.policy start.utc) }
    {
        let utc = start.naive_utc();
        date_times_exist(utc);
        let held = Held::around(&self.zone, utc.timestamp());
        self.first_by(&utc, &held)
    }

    /// Returns the last instant before `start` at which the schedule fires.
    ///
    /// Returns `None` if there is none for which UTC and the clock have a date.
    ///
    /// ```
    /// let schedule = read_schedule(b"30 2 * * *").ok()?;
    /// let zone = FixedOffset::east_opt(3_600)?;
    /// let nightly = ZonedSchedule::new(schedule, zone, Policy::vixie(&schedule));
    /// nightly.prev_before(zone.with_ymd_and_hms(2024, 3, 31, 2, 30, 0).single()?) // Some(2024-03-30T02:30:00+01:00)
    /// ```
    pub fn prev_before(&self, start: DateTime<Z>) -> Option<DateTime<Z>>
        ensures fires { IfSome result (λ d. FiresAt self.now.schedule.sets (Z.ahead self.now.zone) self.now.policy d.utc) }
        ensures zone { IfSome result (λ d. d.zone ≡ self.now.zone) }
        ensures earlier { IfSome result (λ d. IsBefore d.utc start.utc) }
        ensures greatest { IfSome result (λ d. NotFiringBetween self.now.schedule.sets (Z.ahead self.now.zone) self.now.policy d.utc start.utc) }
        ensures none { IfNone result (NotFiringBefore self.now.schedule.sets (Z.ahead self.now.zone) self.now.policy start.utc) }
    {
        let utc = start.naive_utc();
        if let Some(found) = self.last_settled(utc) {
            return Some(found);
        }
        self.zone.timestamp_opt(self.last_before(begun_by(utc))?, 0)
    }

    /// Returns an iterator over the instants after `start` at which the schedule fires.
    ///
    /// They come in order, as far as UTC and the clock have dates.
    ///
    /// ```
    /// let schedule = read_schedule(b"30 2 * * *").ok()?;
    /// let zone = FixedOffset::east_opt(3_600)?;
    /// let nightly = ZonedSchedule::new(schedule, zone, Policy::vixie(&schedule));
    /// let mut nights = nightly.after(zone.with_ymd_and_hms(2024, 2, 28, 12, 0, 0).single()?);
    /// (nights.next(), nights.next()) // (Some(2024-02-29T02:30:00+01:00), Some(2024-03-01T02:30:00+01:00))
    /// ```
    pub fn after(&self, start: DateTime<Z>) -> Firings<Z>
        ensures value { result ≡ record { schedule = self.now; last = Some start } }
        // No more seconds are left than that.
        ensures few { seconds_after result.last ≤ 16_544_868_105_599 }
        // What calls of `next` give, up to the first `None`, is the instants in order.
        ensures runs { (given : List (Zoned Z)) → Drains (GivesNext Z.ahead) result given → AreFirings Z.ahead self.now start.utc given }
    {
        Firings::begin(*self, start)
    }
}

//! `TimedSchedule`: a schedule that is due at seconds, and the next and the last of them.
ghost use Rattle.std.specs.Prelude.{◌≡◌, ◌+◌, ◌/◌, ◌%◌, ◌<◌, ◌≤◌, ℕ, length, IfSome, IfNone, IsTrue, Some, None};
ghost use Rattle.std.specs.Iterator.{YieldsFirst};
ghost use Rattle.std.specs.Iterator.Runs.{YieldsInOrder};
ghost use Rattle.chrono_datetime.specs.Moment.{IsBefore};
ghost use Rattle.chrono_datetime.specs.Time.{IsEarlier, IsPlain, time_at};
ghost use Rattle.chrono_sets.specs.FiniteSets.{has};
ghost use Rattle.chrono_cron.specs.Due.{is_due};
ghost use Rattle.timed_cron.specs.DueSeconds.{NoSecondAfter, NoSecondBefore, NoSecondBetween, is_due_at_second, is_timed_due, second_in_minute};
ghost use Rattle.timed_cron.specs.Private.{IdleAfter, IdleBefore, IdleBetween, NoSecondIn};
ghost use Rattle.timed_cron.specs.TimedDueLists.{timed_dues_after, timed_dues_left};
ghost use Rattle.timed_cron.specs.Years.{is_due_year};

use crate::timed_dues::TimedDues;
use crate::year_set::YearSet;
use chrono_cron::Schedule;
use chrono_datetime::law::date_times_exist;
use chrono_datetime::{Datelike, NaiveDateTime, NaiveTime, Timelike};
use chrono_sets::NumberSet;

// The seconds of a minute.
const SECONDS: u32 = 60;

/// A cron schedule that is due at seconds.
///
/// Its five fields say in which minutes it is due. `seconds` says at which seconds of such a minute, and `years` in which years.
///
/// ```
/// let schedule = TimedSchedule::new(read_schedule(b"30 4 * * *").ok()?, NumberSet::from_array([0, 30]));
/// schedule.seconds.contains(30) // true
/// ```
#[derive(Clone, Copy, PartialEq, Eq, Debug)]
pub struct TimedSchedule {
    /// The schedule of the minutes.
    pub schedule: Schedule,
    /// The seconds of a minute, 0 to 59. A greater number makes no difference, except when two values are compared.
    pub seconds: NumberSet,
    /// The years in which it is due. `None` if it is due in all years.
    pub years: Option<YearSet>,
}

impl TimedSchedule {
    /// Returns the schedule that is due at `seconds` of each minute at which `schedule` is due, in all years.
    ///
    /// ```
    /// let daily = read_schedule(b"@daily").ok()?;
    /// TimedSchedule::new(daily, NumberSet::single(30)).schedule == daily // true
    /// ```
    #[inline]
    pub fn new(schedule: Schedule, seconds: NumberSet) -> TimedSchedule
        ensures { result ≡ record { schedule = schedule; seconds = seconds; years = None } }
    {
        TimedSchedule {
            schedule,
            seconds,
            years: None,
        }
    }

    /// Returns the schedule that is due when this is, but only in `years`.
    ///
    /// ```
    /// use chrono_datetime::{AndTime, NaiveDate};
    /// let daily = TimedSchedule::new(read_schedule(b"@daily").ok()?, NumberSet::single(0)).in_years(YearSet::none().with(2026));
    /// daily.next_after(NaiveDate::from_ymd_opt(2024, 2, 29)?.and_hms_opt(9, 0, 0)?) // Some(2026-01-01T00:00:00)
    /// ```
    #[inline]
    pub fn in_years(&self, years: YearSet) -> TimedSchedule
        ensures { result ≡ record { schedule = self.now.schedule; seconds = self.now.seconds; years = Some years } }
    {
        TimedSchedule {
            schedule: self.schedule,
            seconds: self.seconds,
            years: Some(years),
        }
    }

    /// Returns whether the schedule is due at `moment`.
    ///
    /// It is due at the beginning of a second, such as 04:30:15, and never within one. It is never due in a leap second.
    ///
    /// ```
    /// use chrono_datetime::{AndTime, NaiveDate};
    /// let schedule = TimedSchedule::new(read_schedule(b"30 4 * * *").ok()?, NumberSet::single(15));
    /// schedule.is_due(NaiveDate::from_ymd_opt(2024, 2, 15)?.and_hms_opt(4, 30, 15)?) // true
    /// schedule.is_due(NaiveDate::from_ymd_opt(2024, 2, 15)?.and_hms_opt(4, 30, 0)?) // false
    /// ```
    #[tactic(auto, unfolding(crate::specs::DueSeconds::is_timed_due))]
    pub fn is_due(&self, moment: NaiveDateTime) -> bool
        ensures { result ≡ is_timed_due self.now moment }
    {
        self.is_due_in_any_year(moment) && self.is_due_year(moment.date().year())
    }

    // Whether the schedule is due at a moment, whatever its years.
    #[tactic(auto, unfolding(crate::specs::DueSeconds::is_due_at_second))]
    fn is_due_in_any_year(&self, moment: NaiveDateTime) -> bool
        ensures { result ≡ is_due_at_second self.now moment }
    {
        let time = moment.time();
        let second = time.num_seconds_from_midnight() % SECONDS;
        let begins_second = self.seconds.contains(second) && time.nanosecond() == 0;
        self.schedule.is_due(second_in_minute(moment, 0)) && begins_second
    }

    // Whether the schedule is due in a year.
    #[tactic(auto, unfolding(crate::specs::Years::is_due_year))]
    fn is_due_year(&self, year: i32) -> bool
        ensures { result ≡ is_due_year self.now.years year }
    {
        match &self.years {
            None => true,
            Some(years) => years.contains(year),
        }
    }

    /// Returns the first moment after `start` at which the schedule is due.
    ///
    /// Returns `None` if there is none in the calendar.
    ///
    /// ```
    /// use chrono_datetime::{AndTime, NaiveDate};
    /// let schedule = TimedSchedule::new(read_schedule(b"0 9 * * *").ok()?, NumberSet::from_array([15, 45]));
    /// let start = NaiveDate::from_ymd_opt(2024, 3, 1)?;
    /// schedule.next_after(start.and_hms_opt(9, 0, 15)?) // Some(2024-03-01T09:00:45)
    /// schedule.next_after(start.and_hms_opt(9, 0, 45)?) // Some(2024-03-02T09:00:15)
    /// ```
    pub fn next_after(&self, start: NaiveDateTime) -> Option<NaiveDateTime>
        ensures due { IfSome result (λ m. IsTrue (is_timed_due self.now m)) }
        ensures later { IfSome result (λ m. IsBefore start m) }
        // It lies in no leap second.
        ensures plain { IfSome result (λ m. IsPlain m.time) }
        ensures least { IfSome result (λ m. NoSecondBetween self.now start m) }
        ensures none { IfNone result (NoSecondAfter self.now start) }
    {
        match self.years {
            None => self.next_in_any_year(start),
            Some(years) => self.next_in_years(years, start),
        }
    }

    /// Returns the last moment before `start` at which the schedule is due.
    ///
    /// Returns `None` if there is none in the calendar.
    ///
    /// ```
    /// use chrono_datetime::{AndTime, NaiveDate};
    /// let schedule = TimedSchedule::new(read_schedule(b"0 9 * * *").ok()?, NumberSet::from_array([15, 45]));
    /// let start = NaiveDate::from_ymd_opt(2024, 3, 1)?;
    /// schedule.prev_before(start.and_hms_opt(9, 0, 45)?) // Some(2024-03-01T09:00:15)
    /// schedule.prev_before(start.and_hms_opt(9, 0, 15)?) // Some(2024-02-29T09:00:45)
    /// ```
    pub fn prev_before(&self, start: NaiveDateTime) -> Option<NaiveDateTime>
        ensures due { IfSome result (λ m. IsTrue (is_timed_due self.now m)) }
        ensures earlier { IfSome result (λ m. IsBefore m start) }
        // It lies in no leap second.
        ensures plain { IfSome result (λ m. IsPlain m.time) }
        ensures greatest { IfSome result (λ m. NoSecondBetween self.now m start) }
        ensures none { IfNone result (NoSecondBefore self.now start) }
    {
        match self.years {
            None => self.prev_in_any_year(start),
            Some(years) => self.prev_in_years(years, start),
        }
    }

    /// Returns an iterator over the moments after `start` at which the schedule is due.
    ///
    /// They come in order, to the end of the calendar.
    ///
    /// ```
    /// use chrono_datetime::{AndTime, NaiveDate};
    /// let schedule = read_timed_schedule(Dialect::Seconds, b"15,45 0 9 * * *").ok()?;
    /// let mut moments = schedule.after(NaiveDate::from_ymd_opt(2024, 2, 29)?.and_hms_opt(9, 0, 30)?);
    /// (moments.next(), moments.next()) // (Some(2024-02-29T09:00:45), Some(2024-03-01T09:00:15))
    /// ```
    #[inline]
    pub fn after(&self, start: NaiveDateTime) -> TimedDues
        ensures schedule { result.schedule ≡ self.now }
        ensures start { result.last ≡ start }
        // There are no more seconds than that in all.
        ensures few { length (timed_dues_after self.now start) ≤ 16_544_868_105_600 }
        // Any calls of `next` give the list's moments in order: what chains of iterators are proved by.
        ensures runs { YieldsInOrder (YieldsFirst timed_dues_left) timed_dues_left }
    {
        date_times_exist(start);
        TimedDues {
            schedule: *self,
            last: start,
        }
    }

    // The first moment after a start at which the schedule is due, whatever its years.
    pub(crate) fn next_in_any_year(&self, start: NaiveDateTime) -> Option<NaiveDateTime>
        ensures due { IfSome result (λ m. IsTrue (is_due_at_second self.now m)) }
        ensures later { IfSome result (λ m. IsBefore start m) }
        ensures plain { IfSome result (λ m. IsPlain m.time) }
        ensures least { IfSome result (λ m. IdleBetween self.now start m) }
        ensures none { IfNone result (IdleAfter self.now start) }
    {
        date_times_exist(start);
        let minute = second_in_minute(start, 0);
        if let Some(second) = self.second_from(minute, second_of(start) + 1) {
            return Some(second_in_minute(start, second));
        }
        let Some(second) = self.seconds.first_in(0, SECONDS) else {
            return None;
        };
        let Some(next) = self.schedule.next_after(minute) else {
            return None;
        };
        date_times_exist(next);
        Some(second_in_minute(next, second))
    }

    // The last moment before a start at which the schedule is due, whatever its years.
    pub(crate) fn prev_in_any_year(&self, start: NaiveDateTime) -> Option<NaiveDateTime>
        ensures due { IfSome result (λ m. IsTrue (is_due_at_second self.now m)) }
        ensures earlier { IfSome result (λ m. IsBefore m start) }
        ensures plain { IfSome result (λ m. IsPlain m.time) }
        ensures greatest { IfSome result (λ m. IdleBetween self.now m start) }
        ensures none { IfNone result (IdleBefore self.now start) }
    {
        date_times_exist(start);
        let minute = second_in_minute(start, 0);
        if let Some(second) = self.second_before(minute, seconds_begun(start)) {
            return Some(second_in_minute(start, second));
        }
        let Some(second) = self.seconds.last_in(0, SECONDS) else {
            return None;
        };
        let Some(previous) = self.schedule.prev_before(minute) else {
            return None;
        };
        date_times_exist(previous);
        Some(second_in_minute(previous, second))
    }

    // The first second of a minute, from that one on, at which the schedule is due.
    fn second_from(&self, minute: NaiveDateTime, from: u32) -> Option<u32>
        requires { from ≤ 60 }
        ensures due { IfSome result (λ _. IsTrue (is_due self.now.schedule.sets minute)) }
        ensures member { IfSome result (λ k. IsTrue (has self.now.seconds k)) }
        ensures within { IfSome result (λ k. k < 60) }
        ensures not_before { IfSome result (λ k. from ≤ k) }
        ensures least { IfSome result (λ k. NoSecondIn self.now minute from k) }
        ensures none { IfNone result (NoSecondIn self.now minute from 60) }
    {
        if self.schedule.is_due(minute) {
            self.seconds.first_in(from, SECONDS)
        } else {
            None
        }
    }

    // The last second of a minute, before that one, at which the schedule is due.
    fn second_before(&self, minute: NaiveDateTime, end: u32) -> Option<u32>
        requires { end ≤ 60 }
        ensures due { IfSome result (λ _. IsTrue (is_due self.now.schedule.sets minute)) }
        ensures member { IfSome result (λ k. IsTrue (has self.now.seconds k)) }
        ensures before { IfSome result (λ k. k < end) }
        ensures greatest { IfSome result (λ k. NoSecondIn self.now minute (k + 1) end) }
        ensures none { IfNone result (NoSecondIn self.now minute 0 end) }
    {
        if !self.schedule.is_due(minute) {
            return None;
        }
        self.seconds.last_in(0, end)
    }
}

// The second of its minute in which a moment lies.
#[inline]
fn second_of(moment: NaiveDateTime) -> u32
    ensures { result ≡ moment.time.second % 60 }
{
    moment.time().num_seconds_from_midnight() % SECONDS
}

// How many seconds of its minute begin before a moment.
#[inline]
fn seconds_begun(moment: NaiveDateTime) -> u32
    ensures within { result ≤ 60 }
    ensures begun { (k : ℕ) → IsEarlier (time_at 0 (moment.time.second / 60) k 0) moment.time → k < result }
    ensures earlier { (k : ℕ) → k < result → IsEarlier (time_at 0 (moment.time.second / 60) k 0) moment.time }
{
    let second = second_of(moment);
    if moment.time().nanosecond() > 0 {
        second + 1
    } else {
        second
    }
}

// The beginning of a second of the minute in which a moment lies.
#[inline]
fn second_in_minute(moment: NaiveDateTime, second: u32) -> NaiveDateTime
    requires { second < 60 }
    ensures { result ≡ second_in_minute moment second }
{
    let minute = moment.time().num_seconds_from_midnight() / SECONDS;
    let time = NaiveTime::from_num_seconds_from_midnight_opt(minute * SECONDS + second, 0).unwrap();
    NaiveDateTime::new(moment.date(), time)
}

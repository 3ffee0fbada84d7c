//! `Schedule`: the moments at which something is due, and the next and the last of them.
ghost use Rattle.std.specs.Prelude.{◌≡◌, ◌↔◌, ◌<◌, ◌≤◌, ℕ, length, IfSome, IfNone, IsTrue};
ghost use Rattle.std.specs.Iterator.{YieldsFirst};
ghost use Rattle.std.specs.Iterator.Runs.{YieldsInOrder};
ghost use Rattle.chrono_datetime.specs.Moment.{IsBefore};
ghost use Rattle.chrono_datetime.specs.Time.{IsEarlier, IsPlain, time_at};
ghost use Rattle.chrono_cron.specs.Due.{IsNeverDue, MeanTheSame, NotDueAfter, NotDueBefore, NotDueBetween, is_due};
ghost use Rattle.chrono_cron.specs.DueMoments.{dues_after, dues_left};

use crate::field_sets::FieldSets;
use crate::search::due_moments::Dues;
use crate::search::minutes::{MINUTES_PER_DAY, SECONDS};
use crate::search::same_minutes::mean_the_same;
use chrono_datetime::law::date_times_exist;
use chrono_datetime::{NaiveDateTime, NaiveTime, Timelike};

/// A cron schedule.
#[derive(Clone, Copy, PartialEq, Eq, Debug)]
pub struct Schedule {
    /// The numbers and days that its fields list.
    pub sets: FieldSets,
}

impl Schedule {
    /// Returns whether the schedule is due at `moment`.
    ///
    /// It is due at the beginning of a minute, such as 09:30:00, and never within one.
    ///
    /// ```
    /// use chrono_datetime::{AndTime, NaiveDate};
    /// let schedule = read_schedule(b"30 4 1,15 * 5").ok()?;
    /// schedule.is_due(NaiveDate::from_ymd_opt(2024, 2, 15)?.and_hms_opt(4, 30, 0)?) // true
    /// schedule.is_due(NaiveDate::from_ymd_opt(2024, 2, 15)?.and_hms_opt(4, 30, 1)?) // false
    /// ```
    #[tactic(auto, unfolding(crate::specs::Due::is_due))]
    pub fn is_due(&self, moment: NaiveDateTime) -> bool
        ensures { result ≡ is_due self.now.sets moment }
    {
        let time = moment.time();
        let second = time.num_seconds_from_midnight();
        let begins_minute = second % SECONDS == 0 && time.nanosecond() == 0;
        self.sets.is_day(moment.date()) && self.sets.is_minute(second / SECONDS) && begins_minute
    }

    /// Returns whether the schedule is due at no moment at all.
    ///
    /// ```
    /// read_schedule(b"0 0 30 2 *").ok()?.never_due() // true
    /// ```
    pub fn never_due(&self) -> bool
        ensures { IsTrue result ↔ IsNeverDue self.now.sets }
    {
        self.sets.is_never_due()
    }

    /// Returns whether `self` and `other` are due at the same moments.
    ///
    /// ```
    /// let (one, other) = (read_schedule(b"0 0 31 1-3 *").ok()?, read_schedule(b"0 0 31 1,3 *").ok()?);
    /// (one.same_minutes(&other), one == other) // (true, false)
    /// ```
    ///
    /// `==` compares the numbers that their fields list instead.
    /// This function looks at the days of 400 years, after which the calendar repeats.
    /// It stops at the first day that only one of the two has.
    pub fn same_minutes(&self, other: &Schedule) -> bool
        ensures { IsTrue result ↔ MeanTheSame self.now.sets other.now.sets }
    {
        mean_the_same(&self.sets, &other.sets)
    }

    /// Returns the first moment after `start` at which the schedule is due.
    ///
    /// Returns `None` if there is none in the calendar.
    ///
    /// ```
    /// use chrono_datetime::{AndTime, NaiveDate};
    /// let start = NaiveDate::from_ymd_opt(2024, 3, 1)?.and_hms_opt(0, 0, 0)?;
    /// read_schedule(b"0 0 29 2 *").ok()?.next_after(start) // Some(2028-02-29T00:00:00)
    /// ```
    pub fn next_after(&self, start: NaiveDateTime) -> Option<NaiveDateTime>
        ensures member { IfSome result (λ m. IsTrue (is_due self.now.sets m)) }
        ensures later { IfSome result (λ m. IsBefore start m) }
        // It lies in no leap second.
        ensures plain { IfSome result (λ m. IsPlain m.time) }
        ensures least { IfSome result (λ m. NotDueBetween self.now.sets start m) }
        ensures none { IfNone result (NotDueAfter self.now.sets start) }
    {
        let date = start.date();
        let begun = start.time().num_seconds_from_midnight() / SECONDS;
        if let Some(minute) = self.sets.first_on(date, begun + 1) {
            return Some(NaiveDateTime::new(date, beginning(minute)));
        }
        let Some(minute) = self.sets.first_minute(0) else {
            return None;
        };
        let Some(next) = date.moved_by_days(1) else {
            return None;
        };
        let Some(day) = self.sets.first_day(next) else {
            return None;
        };
        Some(NaiveDateTime::new(day, beginning(minute)))
    }

    /// Returns the last moment before `start` at which the schedule is due.
    ///
    /// Returns `None` if there is none in the calendar.
    ///
    /// ```
    /// use chrono_datetime::{AndTime, NaiveDate};
    /// let start = NaiveDate::from_ymd_opt(2024, 2, 1)?.and_hms_opt(0, 0, 0)?;
    /// read_schedule(b"0 0 29 2 *").ok()?.prev_before(start) // Some(2020-02-29T00:00:00)
    /// ```
    pub fn prev_before(&self, start: NaiveDateTime) -> Option<NaiveDateTime>
        ensures member { IfSome result (λ m. IsTrue (is_due self.now.sets m)) }
        ensures earlier { IfSome result (λ m. IsBefore m start) }
        // It lies in no leap second.
        ensures plain { IfSome result (λ m. IsPlain m.time) }
        ensures greatest { IfSome result (λ m. NotDueBetween self.now.sets m start) }
        ensures none { IfNone result (NotDueBefore self.now.sets start) }
    {
        let date = start.date();
        if let Some(minute) = self.sets.last_on(date, begun_before(start.time())) {
            return Some(NaiveDateTime::new(date, beginning(minute)));
        }
        let Some(minute) = self.sets.last_minute(MINUTES_PER_DAY) else {
            return None;
        };
        let Some(previous) = date.moved_by_days(-1) else {
            return None;
        };
        let Some(day) = self.sets.last_day(previous) else {
            return None;
        };
        Some(NaiveDateTime::new(day, beginning(minute)))
    }

    /// Returns an iterator over the moments after `start` at which the schedule is due.
    ///
    /// They come in order, to the end of the calendar.
    ///
    /// ```
    /// use chrono_datetime::{AndTime, NaiveDate};
    /// let start = NaiveDate::from_ymd_opt(2024, 3, 1)?.and_hms_opt(0, 0, 0)?;
    /// let mut moments = read_schedule(b"0 9 L * *").ok()?.after(start);
    /// (moments.next(), moments.next()) // (Some(2024-03-31T09:00:00), Some(2024-04-30T09:00:00))
    /// ```
    #[inline]
    pub fn after(&self, start: NaiveDateTime) -> Dues
        ensures schedule { result.schedule ≡ self.now }
        ensures start { result.last ≡ start }
        // There are no more minutes than that in all.
        ensures few { length (dues_after self.now.sets start) ≤ 275_747_801_760 }
        // Any calls of `next` give the list's moments in order: what chains of iterators are proved by.
        ensures runs { YieldsInOrder (YieldsFirst dues_left) dues_left }
    {
        date_times_exist(start);
        Dues {
            schedule: *self,
            last: start,
        }
    }
}

// How many minutes of the day begin before a time.
#[inline]
fn begun_before(time: NaiveTime) -> u32
    ensures within { result ≤ 1440 }
    ensures begun { (k : ℕ) → (k < result) ↔ IsEarlier (time_at 0 k 0 0) time }
{
    let second = time.num_seconds_from_midnight();
    if second % SECONDS == 0 && time.nanosecond() == 0 {
        second / SECONDS
    } else {
        second / SECONDS + 1
    }
}

// The time at which a minute of a day begins.
#[inline]
fn beginning(minute: u32) -> NaiveTime
    requires { minute < 1440 }
    ensures { result ≡ time_at 0 minute 0 0 }
{
    NaiveTime::from_num_seconds_from_midnight_opt(minute * SECONDS, 0).unwrap()
}

//! `TimedDues`: the moments at which a schedule with seconds is due, in order.
ghost use Rattle.std.specs.Prelude.{◌≡◌, ◌≤◌, length, IfSome, IfNone, IsTrue, Some};
ghost use Rattle.std.specs.Iterator.{YieldsFirst, item_count};
ghost use Rattle.chrono_datetime.specs.Moment.{IsBefore};
ghost use Rattle.chrono_datetime.specs.Time.{IsPlain};
ghost use Rattle.timed_cron.specs.DueSeconds.{NoSecondAfter, NoSecondBetween, is_timed_due};
ghost use Rattle.timed_cron.specs.TimedDueLists.{seconds_left, timed_dues_left};

use crate::timed_schedule::TimedSchedule;
use chrono_datetime::law::date_times_exist;
use chrono_datetime::{Datelike, LAST_DAY, NaiveDateTime, SECS_PER_DAY, Timelike};
use std::iter::FusedIterator;

// The seconds of a day, and those from the beginning of day 0 to the end of the last date.
const DAY: i64 = SECS_PER_DAY as i64;

const END: i64 = (LAST_DAY as i64 + 1) * DAY;

/// The moments after a start at which a schedule with seconds is due, in order, to the end of the calendar.
///
/// [`TimedSchedule::after`] makes it. After its last moment the iterator returns `None` from then on.
#[derive(Clone, Copy, PartialEq, Eq, Debug)]
pub struct TimedDues {
    /// The schedule.
    pub schedule: TimedSchedule,
    /// The moment after which the iterator goes on: first the start, then the last moment that it returned.
    pub last: NaiveDateTime,
}

impl TimedDues {
    /// Returns the next moment at which the schedule is due. Returns `None` if none is left in the calendar.
    ///
    /// ```
    /// use chrono_datetime::{AndTime, NaiveDate};
    /// let schedule = read_timed_schedule(Dialect::Seconds, b"*/30 0 9 * * *").ok()?;
    /// let mut moments = schedule.after(NaiveDate::from_ymd_opt(2024, 2, 29)?.and_hms_opt(9, 0, 0)?);
    /// (moments.step(), moments.step()) // (Some(2024-02-29T09:00:30), Some(2024-03-01T09:00:00))
    /// ```
    ///
    /// It does what [`next`](Iterator::next) does. The contract of `next` names the list of moments that is left.
    /// The contract of `step` names the moment that it returns.
    pub fn step(&mut self) -> Option<NaiveDateTime>
        ensures due { IfSome result (λ m. IsTrue (is_timed_due self.old.schedule m)) }
        ensures later { IfSome result (λ m. IsBefore self.old.last m) }
        // It lies in no leap second.
        ensures plain { IfSome result (λ m. IsPlain m.time) }
        ensures least { IfSome result (λ m. NoSecondBetween self.old.schedule self.old.last m) }
        ensures none { IfNone result (NoSecondAfter self.old.schedule self.old.last) }
        ensures kept { self.new.schedule ≡ self.old.schedule }
        ensures moved { IfSome result (λ m. self.new.last ≡ m) }
        // Without an answer nothing changes, so an ended iterator stays ended.
        ensures refused { IfNone result (self.new ≡ self.old) }
        ensures steps { YieldsFirst timed_dues_left self.old result self.new }
    {
        date_times_exist(self.last);
        let Some(next) = self.schedule.next_after(self.last) else {
            return None;
        };
        date_times_exist(next);
        self.last = next;
        Some(next)
    }
}

impl Iterator for TimedDues {
    type Item = NaiveDateTime;

    ghost next_gives = { YieldsFirst timed_dues_left };

    ghost remaining = { item_count timed_dues_left };

    /// Returns the next moment at which the schedule is due. Returns `None` if none is left in the calendar.
    fn next(&mut self) -> Option<NaiveDateTime> {
        self.step()
    }

    /// Returns 0 and, as the upper bound, the number of seconds that begin after the last moment.
    #[inline]
    fn size_hint(&self) -> (usize, Option<usize>)
        ensures value { result ≡ (0, Some (seconds_left self.now.last)) }
        ensures bound { length (timed_dues_left self.now) ≤ seconds_left self.now.last }
    {
        (0, Some(seconds_after(self.last)))
    }
}

impl FusedIterator for TimedDues {}

// How many seconds begin after a moment, up to the end of the last date.
#[inline]
fn seconds_after(moment: NaiveDateTime) -> usize
    ensures value { result ≡ seconds_left moment }
{
    let days = i64::from(moment.date().num_days_from_ce()) * DAY;
    let second = moment.time().num_seconds_from_midnight();
    (END - (days + i64::from(second) + 1)) as usize
}

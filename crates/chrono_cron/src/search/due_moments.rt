//! `Dues`: the moments at which a schedule is due, in order.
ghost use Rattle.std.specs.Prelude.{◌≡◌, ◌≤◌, length, IfSome, IfNone, IsTrue, Some};
ghost use Rattle.std.specs.Iterator.{YieldsFirst, item_count};
ghost use Rattle.chrono_datetime.specs.Moment.{IsBefore};
ghost use Rattle.chrono_datetime.specs.Time.{IsPlain};
ghost use Rattle.chrono_cron.specs.Due.{NotDueAfter, NotDueBetween, is_due};
ghost use Rattle.chrono_cron.specs.DueMoments.{dues_left, minutes_left};

use crate::schedule::Schedule;
use crate::search::minutes::{MINUTES_PER_DAY, SECONDS};
use chrono_datetime::law::date_times_exist;
use chrono_datetime::{Datelike, LAST_DAY, NaiveDateTime, Timelike};
use std::iter::FusedIterator;

// The minutes of a day, and those from the beginning of day 0 to the end of the last date.
const DAY: i64 = MINUTES_PER_DAY as i64;

const END: i64 = (LAST_DAY as i64 + 1) * DAY;

/// The moments after a start at which a schedule is due, in order, to the end of the calendar.
///
/// [`Schedule::after`] makes it. After its last moment the iterator returns `None` from then on.
#[derive(Clone, Copy, PartialEq, Eq, Debug)]
pub struct Dues {
    /// The schedule.
    pub schedule: Schedule,
    /// The moment after which the iterator goes on: first the start, then the last moment that it returned.
    pub last: NaiveDateTime,
}

impl Dues {
    /// Returns the next moment at which the schedule is due. Returns `None` if none is left in the calendar.
    ///
    /// ```
    /// use chrono_datetime::{AndTime, NaiveDate};
    /// let schedule = read_schedule(b"30 4 1,15 * 5").ok()?;
    /// let mut moments = schedule.after(NaiveDate::from_ymd_opt(2024, 2, 9)?.and_hms_opt(4, 30, 0)?);
    /// moments.step() // Some(2024-02-15T04:30:00)
    /// ```
    ///
    /// It does what [`next`](Iterator::next) does. The contract of `next` names the list of moments that is left.
    /// The contract of `step` names the moment that it returns.
    pub fn step(&mut self) -> Option<NaiveDateTime>
        ensures member { IfSome result (λ m. IsTrue (is_due self.old.schedule.sets m)) }
        ensures later { IfSome result (λ m. IsBefore self.old.last m) }
        // It lies in no leap second.
        ensures plain { IfSome result (λ m. IsPlain m.time) }
        ensures least { IfSome result (λ m. NotDueBetween self.old.schedule.sets self.old.last m) }
        ensures none { IfNone result (NotDueAfter self.old.schedule.sets self.old.last) }
        ensures kept { self.new.schedule ≡ self.old.schedule }
        ensures moved { IfSome result (λ m. self.new.last ≡ m) }
        // Without an answer nothing changes, so an ended iterator stays ended.
        ensures refused { IfNone result (self.new ≡ self.old) }
        ensures steps { YieldsFirst dues_left self.old result self.new }
    {
        date_times_exist(self.last);
        let Some(next) = self.schedule.next_after(self.last) else {
            return None;
        };
        date_times_exist(next);
        self.last = next;
        Some(next)
    }
}

impl Iterator for Dues {
    type Item = NaiveDateTime;

    ghost next_gives = { YieldsFirst dues_left };

    ghost remaining = { item_count dues_left };

    /// Returns the next moment at which the schedule is due. Returns `None` if none is left in the calendar.
    fn next(&mut self) -> Option<NaiveDateTime> {
        self.step()
    }

    /// Returns 0 and, as the upper bound, the number of minutes that begin after the last moment.
    #[inline]
    fn size_hint(&self) -> (usize, Option<usize>)
        ensures value { result ≡ (0, Some (minutes_left self.now.last)) }
        ensures bound { length (dues_left self.now) ≤ minutes_left self.now.last }
    {
        (0, Some(minutes_after(self.last)))
    }
}

impl FusedIterator for Dues {}

// How many minutes begin after a moment, up to the end of the last date.
#[inline]
fn minutes_after(moment: NaiveDateTime) -> usize
    ensures value { result ≡ minutes_left moment }
{
    let days = i64::from(moment.date().num_days_from_ce()) * DAY;
    let minute = moment.time().num_seconds_from_midnight() / SECONDS;
    (END - (days + i64::from(minute) + 1)) as usize
}

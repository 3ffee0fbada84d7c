//! The first minute of a schedule in a day from a minute on, and the last before one.
ghost use Rattle.std.specs.Prelude.{◌≡◌, ◌+◌, ◌/◌, ◌≤◌, ◌<◌, ℕ, IfSome, IfNone, IsTrue, false};
ghost use Rattle.chrono_datetime.specs.PassedOver.{PassedNumbers};
ghost use Rattle.chrono_cron.specs.Due.{NotDueOn, is_day, is_minute};

use crate::field_sets::{FieldSets, MINUTES};
use chrono_datetime::NaiveDate;

// The hours and the minutes of a day.
const HOURS: u32 = 24;

pub(crate) const MINUTES_PER_DAY: u32 = 1_440;

// The seconds of a minute.
pub(crate) const SECONDS: u32 = 60;

impl FieldSets {
    // The first minute of a day, from that one to the end of its hour, that is one of the schedule's.
    #[inline]
    fn first_in_hour(&self, from: u32) -> Option<u32>
        requires { from ≤ 1440 }
        ensures member { IfSome result (λ k. IsTrue (is_minute self.now k)) }
        ensures within { IfSome result (λ k. k < 1440) }
        ensures not_before { IfSome result (λ k. from ≤ k) }
        ensures least { IfSome result (λ k. PassedNumbers (is_minute self.now) from k) }
        ensures none { IfNone result ((j : ℕ) → from ≤ j → j < 1440 → j / 60 ≡ from / 60 →
            is_minute self.now j ≡ false) }
    {
        let hour = from / MINUTES;
        if hour >= HOURS {
            return None;
        }
        if !self.hours.contains(hour) {
            return None;
        }
        let Some(minute) = self.minutes.first_in(from % MINUTES, MINUTES) else {
            return None;
        };
        Some(hour * MINUTES + minute)
    }

    /// Returns the first minute of a day from the minute `from` on that the fields list.
    ///
    /// Returns `None` if there is none. Minutes are counted from midnight. Requires `from <= 1440`.
    ///
    /// ```
    /// let sets = read_schedule(b"0 9-17 * * *").ok()?.sets;
    /// sets.first_minute(9 * 60 + 1) // Some(600)
    /// sets.first_minute(17 * 60 + 1) // None
    /// ```
    #[inline]
    pub fn first_minute(&self, from: u32) -> Option<u32>
        requires { from ≤ 1440 }
        ensures member { IfSome result (λ k. IsTrue (is_minute self.now k)) }
        ensures within { IfSome result (λ k. k < 1440) }
        ensures not_before { IfSome result (λ k. from ≤ k) }
        ensures least { IfSome result (λ k. PassedNumbers (is_minute self.now) from k) }
        ensures none { IfNone result (PassedNumbers (is_minute self.now) from 1440) }
    {
        if let Some(first) = self.first_in_hour(from) {
            return Some(first);
        }
        let Some(minute) = self.minutes.first_in(0, MINUTES) else {
            return None;
        };
        let Some(hour) = self.hours.first_in(from / MINUTES + 1, HOURS) else {
            return None;
        };
        Some(hour * MINUTES + minute)
    }

    // The last minute of a day, before that one and in its hour, that is one of the schedule's.
    #[inline]
    fn last_in_hour(&self, end: u32) -> Option<u32>
        requires { end ≤ 1440 }
        ensures member { IfSome result (λ k. IsTrue (is_minute self.now k)) }
        ensures before { IfSome result (λ k. k < end) }
        ensures greatest { IfSome result (λ k. PassedNumbers (is_minute self.now) (k + 1) end) }
        ensures none { IfNone result ((j : ℕ) → j < end → j / 60 ≡ end / 60 → is_minute self.now j ≡ false) }
    {
        let hour = end / MINUTES;
        if hour >= HOURS {
            return None;
        }
        if !self.hours.contains(hour) {
            return None;
        }
        let Some(minute) = self.minutes.last_in(0, end % MINUTES) else {
            return None;
        };
        Some(hour * MINUTES + minute)
    }

    /// Returns the last minute of a day before the minute `end` that the fields list.
    ///
    /// Returns `None` if there is none. Minutes are counted from midnight. Requires `end <= 1440`.
    ///
    /// ```
    /// let sets = read_schedule(b"0 9-17 * * *").ok()?.sets;
    /// sets.last_minute(10 * 60) // Some(540)
    /// ```
    #[inline]
    pub fn last_minute(&self, end: u32) -> Option<u32>
        requires { end ≤ 1440 }
        ensures member { IfSome result (λ k. IsTrue (is_minute self.now k)) }
        ensures before { IfSome result (λ k. k < end) }
        ensures greatest { IfSome result (λ k. PassedNumbers (is_minute self.now) (k + 1) end) }
        ensures none { IfNone result (PassedNumbers (is_minute self.now) 0 end) }
    {
        if let Some(last) = self.last_in_hour(end) {
            return Some(last);
        }
        let Some(minute) = self.minutes.last_in(0, MINUTES) else {
            return None;
        };
        let Some(hour) = self.hours.last_in(0, end / MINUTES) else {
            return None;
        };
        Some(hour * MINUTES + minute)
    }

    // The first minute of the date, from that one on, at which the schedule is due.
    #[inline]
    pub(crate) fn first_on(&self, date: NaiveDate, from: u32) -> Option<u32>
        requires { from ≤ 1440 }
        ensures day { IfSome result (λ _. IsTrue (is_day self.now date)) }
        ensures minute { IfSome result (λ k. IsTrue (is_minute self.now k)) }
        ensures within { IfSome result (λ k. k < 1440) }
        ensures not_before { IfSome result (λ k. from ≤ k) }
        ensures least { IfSome result (λ k. NotDueOn self.now date from k) }
        ensures none { IfNone result (NotDueOn self.now date from 1440) }
    {
        if self.is_day(date) {
            self.first_minute(from)
        } else {
            None
        }
    }

    // The last minute of the date, before that one, at which the schedule is due.
    #[inline]
    pub(crate) fn last_on(&self, date: NaiveDate, end: u32) -> Option<u32>
        requires { end ≤ 1440 }
        ensures day { IfSome result (λ _. IsTrue (is_day self.now date)) }
        ensures minute { IfSome result (λ k. IsTrue (is_minute self.now k)) }
        ensures before { IfSome result (λ k. k < end) }
        ensures greatest { IfSome result (λ k. NotDueOn self.now date (k + 1) end) }
        ensures none { IfNone result (NotDueOn self.now date 0 end) }
    {
        if self.is_day(date) {
            self.last_minute(end)
        } else {
            None
        }
    }
}

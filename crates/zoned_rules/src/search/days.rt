//! The first local time of a rule from a second of a day on, and the last before one.
//!
//! A rule by the clock may have no time on a day that its rule of days has. Then the search goes on to the next day.
ghost use Rattle.std.specs.Prelude.{◌≡◌, ◌⊎◌, ◌≤◌, ◌<◌, ◌+◌, true, pos, neg_ℤ, ◌≤ℤ◌, ◌<ℤ◌, IfNone, IfSome};
ghost use Rattle.chrono_datetime.specs.Moment.{IsMoment, Moment, moment};
ghost use Rattle.chrono_datetime.specs.PassedOver.{PassedNumbers};
ghost use Rattle.chrono_instant.specs.Instants.{epoch_second};
ghost use Rattle.zoned_rules.specs.LocalTimes.{is_planned, is_planned_on};
ghost use Rattle.zoned_rules.specs.Private.{IsListed, IsListedSince, second_on};

use crate::clock_steps::DAY;
use crate::local_rule::LocalRule;
use chrono_datetime::law::{date_times_exist, last_date};
use chrono_datetime::{NaiveDate, NaiveDateTime, NaiveTime, Timelike};
use chrono_instant::{FromTimestamp, Timestamp};

impl LocalRule {
    // The first local time of a day from a second on, as a second of the day.
    fn first_on(&self, date: NaiveDate, from: u32) -> Option<u32>
        requires { from ≤ 86_400 }
        ensures planned { IfSome result (λ k. is_planned_on self.now date k ≡ true) }
        ensures within { IfSome result (λ k. k < 86_400) }
        ensures not_before { IfSome result (λ k. from ≤ k) }
        ensures least { IfSome result (λ k. PassedNumbers (is_planned_on self.now date) from k) }
        ensures none { IfNone result (PassedNumbers (is_planned_on self.now date) from 86_400) }
    {
        if !self.days.is_instance(self.start.date(), date) {
            return None;
        }
        self.first_time(date, from)
    }

    // The first local time from a second of a day on.
    pub(crate) fn first_from(&self, date: NaiveDate, from: u32) -> Option<NaiveDateTime>
        requires { from ≤ 86_400 }
        ensures listed { IfSome result (IsListed self.now) }
        ensures not_before { IfSome result (λ m. second_on date from ≤ℤ epoch_second m) }
        ensures least { IfSome result (λ m. (q : Moment) → IsListed self.now q → second_on date from ≤ℤ epoch_second q → epoch_second m ≤ℤ epoch_second q) }
        ensures none { IfNone result ((q : Moment) → IsListed self.now q → epoch_second q <ℤ second_on date from) }
    {
        if let Some(second) = self.first_on(date, from) {
            return Some(beginning(date, second));
        }
        self.first_behind_day(date)
    }

    // The first local time of a day after that one.
    fn first_behind_day(&self, date: NaiveDate) -> Option<NaiveDateTime>
        ensures listed { IfSome result (IsListed self.now) }
        ensures later { IfSome result (λ m. date <ℤ m.date) }
        ensures least { IfSome result (λ m. (q : Moment) → IsListed self.now q → date <ℤ q.date → epoch_second m ≤ℤ epoch_second q) }
        ensures none { IfNone result ((q : Moment) → IsListed self.now q → q.date ≤ℤ date) }
    {
        if !self.may_recur() {
            return None;
        }
        let mut day = date;
        while let Some(next) = self.next_day(day) {
            if let Some(second) = self.first_time(next, 0) {
                return Some(beginning(next, second));
            }
            day = next;
        }
        None
    }

    // The last local time of a day before a second, as a second of the day.
    fn last_on(&self, date: NaiveDate, end: u32) -> Option<u32>
        requires { end ≤ 86_400 }
        ensures planned { IfSome result (λ k. is_planned_on self.now date k ≡ true) }
        ensures before { IfSome result (λ k. k < end) }
        ensures greatest { IfSome result (λ k. PassedNumbers (is_planned_on self.now date) (k + 1) end) }
        ensures none { IfNone result (PassedNumbers (is_planned_on self.now date) 0 end) }
    {
        if !self.days.is_instance(self.start.date(), date) {
            return None;
        }
        self.last_time(date, end)
    }

    // The last local time before a second of a day.
    pub(crate) fn last_before(&self, date: NaiveDate, end: u32) -> Option<NaiveDateTime>
        requires { end ≤ 86_400 }
        ensures listed { IfSome result (IsListed self.now) }
        ensures before { IfSome result (λ m. epoch_second m <ℤ second_on date end) }
        ensures greatest { IfSome result (λ m. (q : Moment) → IsListed self.now q → epoch_second q <ℤ second_on date end → epoch_second q ≤ℤ epoch_second m) }
        ensures none { IfNone result ((q : Moment) → IsListed self.now q → second_on date end ≤ℤ epoch_second q) }
    {
        if let Some(second) = self.last_on(date, end) {
            return Some(beginning(date, second));
        }
        self.last_in_front_of_day(date)
    }

    // The last local time of a day before that one.
    fn last_in_front_of_day(&self, date: NaiveDate) -> Option<NaiveDateTime>
        ensures listed { IfSome result (IsListed self.now) }
        ensures earlier { IfSome result (λ m. epoch_second m <ℤ second_on date 0) }
        ensures greatest { IfSome result (λ m. (q : Moment) → IsListed self.now q → q.date <ℤ date → epoch_second q ≤ℤ epoch_second m) }
        ensures none { IfNone result ((q : Moment) → IsListed self.now q → date ≤ℤ q.date) }
    {
        if !self.may_recur() {
            return None;
        }
        let mut day = date;
        while let Some(previous) = self.previous_day(day) {
            if let Some(second) = self.last_time(previous, DAY) {
                return Some(beginning(previous, second));
            }
            day = previous;
        }
        None
    }
}

impl LocalRule {
    // The first local time from the start on that begins no earlier than a local second.
    pub(crate) fn first_since(&self, second: i64) -> Option<NaiveDateTime>
        requires { second ≤ℤ pos 8_210_266_876_799 }
        ensures listed { IfSome result (IsListedSince self.now) }
        ensures not_before { IfSome result (λ m. second ≤ℤ epoch_second m) }
        ensures least { IfSome result (λ m. (q : Moment) → IsListedSince self.now q → second ≤ℤ epoch_second q → epoch_second m ≤ℤ epoch_second q) }
        ensures none { IfNone result ((q : Moment) → IsListedSince self.now q → epoch_second q <ℤ second) }
    {
        let from = self.start_or_later(second);
        self.first_from(from.date(), from.num_seconds_from_midnight())
    }

    // The start, or the beginning of a local second if that is later.
    fn start_or_later(&self, second: i64) -> NaiveDateTime
        requires { second ≤ℤ pos 8_210_266_876_799 }
        ensures start { epoch_second self.now.start ≤ℤ epoch_second result }
        ensures later { second ≤ℤ epoch_second result }
        ensures either { (epoch_second result ≡ second) ⊎ (epoch_second result ≡ epoch_second self.now.start) }
    {
        if second <= self.start.timestamp() {
            return self.start;
        }
        match NaiveDateTime::from_timestamp(second, 0) {
            Some(local) => local,
            None => self.start,
        }
    }

    // The first local time after one that is no earlier than the start.
    pub(crate) fn first_behind(&self, local: NaiveDateTime) -> Option<NaiveDateTime>
        requires { IsListedSince self.now local }
        ensures listed { IfSome result (IsListedSince self.now) }
        ensures later { IfSome result (λ m. epoch_second local <ℤ epoch_second m) }
        ensures least { IfSome result (λ m. (q : Moment) → IsListedSince self.now q → epoch_second local <ℤ epoch_second q → epoch_second m ≤ℤ epoch_second q) }
        ensures none { IfNone result ((q : Moment) → IsListedSince self.now q → epoch_second q ≤ℤ epoch_second local) }
    {
        self.first_from(local.date(), local.num_seconds_from_midnight() + 1)
    }

    // The last local time from the start on that begins before a local second.
    pub(crate) fn last_until(&self, second: i64) -> Option<NaiveDateTime>
        requires { neg_ℤ (pos 8_334_601_228_800) ≤ℤ second }
        ensures listed { IfSome result (IsListedSince self.now) }
        ensures before { IfSome result (λ m. epoch_second m <ℤ second) }
        ensures greatest { IfSome result (λ m. (q : Moment) → IsListedSince self.now q → epoch_second q <ℤ second → epoch_second q ≤ℤ epoch_second m) }
        ensures none { IfNone result ((q : Moment) → IsListedSince self.now q → second ≤ℤ epoch_second q) }
    {
        let last = self.last_listed(second)?;
        self.if_begun(last)
    }

    // The last local time that begins before a local second, be it before the start.
    fn last_listed(&self, second: i64) -> Option<NaiveDateTime>
        requires { neg_ℤ (pos 8_334_601_228_800) ≤ℤ second }
        ensures listed { IfSome result (IsListed self.now) }
        ensures before { IfSome result (λ m. epoch_second m <ℤ second) }
        ensures greatest { IfSome result (λ m. (q : Moment) → IsListed self.now q → epoch_second q <ℤ second → epoch_second q ≤ℤ epoch_second m) }
        ensures none { IfNone result ((q : Moment) → IsListed self.now q → second ≤ℤ epoch_second q) }
    {
        match NaiveDateTime::from_timestamp(second, 0) {
            Some(local) => self.last_before(local.date(), local.num_seconds_from_midnight()),
            None => {
                let (last, _) = last_date();
                self.last_before(last, DAY)
            }
        }
    }

    // The last local time before another, from the start on.
    pub(crate) fn last_in_front(&self, local: NaiveDateTime) -> Option<NaiveDateTime>
        ensures listed { IfSome result (IsListedSince self.now) }
        ensures earlier { IfSome result (λ m. epoch_second m <ℤ epoch_second local) }
        ensures greatest { IfSome result (λ m. (q : Moment) → IsListedSince self.now q → epoch_second q <ℤ epoch_second local → epoch_second q ≤ℤ epoch_second m) }
        ensures none { IfNone result ((q : Moment) → IsListedSince self.now q → epoch_second local ≤ℤ epoch_second q) }
    {
        let last = self.last_before(local.date(), local.num_seconds_from_midnight())?;
        self.if_begun(last)
    }

    // A local time if it is no earlier than the start.
    fn if_begun(&self, local: NaiveDateTime) -> Option<NaiveDateTime>
        requires { IsListed self.now local }
        ensures listed { IfSome result (IsListedSince self.now) }
        ensures same { IfSome result (λ m. m ≡ local) }
        ensures none { IfNone result (epoch_second local <ℤ epoch_second self.now.start) }
    {
        if local.timestamp() < self.start.timestamp() {
            return None;
        }
        Some(local)
    }
}

// The beginning of a second of a day.
#[inline]
pub(crate) fn beginning(date: NaiveDate, second: u32) -> NaiveDateTime
    requires { second < 86_400 }
    ensures value { result ≡ moment date (record { second = second; fraction = 0 }) }
    ensures exists { IsMoment result }
{
    let time = NaiveTime::from_num_seconds_from_midnight_opt(second, 0).unwrap();
    let moment = NaiveDateTime::new(date, time);
    date_times_exist(moment);
    moment
}

//! The first day of a recurrence from one on, and the last before one.
ghost use Rattle.std.specs.Prelude.{◌≡◌, ◌≤◌, ◌≤ℤ◌, ◌<ℤ◌, ◌+ℤ◌, ℤ, pos, true, false, IsTrue, IfSome, IfNone};
ghost use Rattle.chrono_datetime.specs.Days.{IsDate};
ghost use Rattle.chrono_datetime.specs.Recurrence.{dates_before, past_last_date};
ghost use Rattle.chrono_datetime.specs.PassedOver.{NoneAfter, NoneBefore, NoneFrom, PassedBetween, PassedOver};
ghost use Rattle.chrono_rules.specs.InstanceWalks.{IsKept, seen_with};
ghost use Rattle.chrono_rules.specs.Instances.{is_instance};
ghost use Rattle.chrono_rules.specs.RecurrenceSets.{is_in_recurrence, is_instance_or_date};

use crate::rule::Rule;
use crate::search::date_list::{first_listed, is_listed, last_listed};
use crate::search::recurrence::Recurrence;
use chrono_datetime::{Datelike, NaiveDate};

// A day, and how many members a walk behind it has seen.
#[derive(Drop)]
pub(crate) struct Found {
    pub(crate) day: NaiveDate,
    pub(crate) seen: u32,
}

impl<'a> Recurrence<'a> {
    // The first day from the date on that is an instance of the rule or a date beside it.
    fn first_given(&self, date: NaiveDate, seen: u32) -> Option<Found>
        requires kept { IsKept self.now.rule self.now.start date seen }
        requires few { seen ≤ dates_before date }
        requires date { IsDate date }
        ensures member { IfSome result (λ f. is_instance_or_date self.now f.day ≡ true) }
        ensures not_before { IfSome result (λ f. date ≤ℤ f.day) }
        ensures least { IfSome result (λ f. PassedOver (is_instance_or_date self.now) date f.day) }
        ensures kept { IfSome result (λ f. IsKept self.now.rule self.now.start (f.day +ℤ pos 1) f.seen) }
        ensures few { IfSome result (λ f. f.seen ≤ dates_before (f.day +ℤ pos 1)) }
        ensures none { IfNone result (NoneFrom (is_instance_or_date self.now) date) }
    {
        let listed = first_listed(self.dates, date);
        let Some(day) = self.rule.first_instance(self.start, date, seen) else {
            return Some(Found { day: listed?, seen });
        };
        let behind = self.rule.seen_with(seen);
        let Some(other) = listed else {
            return Some(Found { day, seen: behind });
        };
        let number = day.num_days_from_ce();
        if other.num_days_from_ce() < number {
            return Some(Found { day: other, seen });
        }
        Some(Found { day, seen: behind })
    }

    // The first day of the recurrence from the date on.
    pub(crate) fn first_from(&self, date: NaiveDate, seen: u32) -> Option<Found>
        requires kept { IsKept self.now.rule self.now.start date seen }
        requires few { seen ≤ dates_before date }
        requires date { IsDate date }
        ensures member { IfSome result (λ f. is_in_recurrence self.now f.day ≡ true) }
        ensures not_before { IfSome result (λ f. date ≤ℤ f.day) }
        ensures least { IfSome result (λ f. PassedOver (is_in_recurrence self.now) date f.day) }
        ensures kept { IfSome result (λ f. IsKept self.now.rule self.now.start (f.day +ℤ pos 1) f.seen) }
        ensures few { IfSome result (λ f. f.seen ≤ dates_before (f.day +ℤ pos 1)) }
        ensures none { IfNone result (NoneFrom (is_in_recurrence self.now) date) }
    {
        let mut from = date;
        let mut walked = seen;
        loop {
            let found = self.first_given(from, walked)?;
            if !is_listed(self.exceptions, found.day) {
                return Some(found);
            }
            from = found.day.succ_opt()?;
            walked = found.seen;
        }
    }

    /// Returns the first day of the recurrence after `day`. Returns `None` if there is none in the calendar.
    ///
    /// ```
    /// use chrono_datetime::NaiveDate;
    /// let (start, rule) = (NaiveDate::from_ymd_opt(2024, 1, 1)?, read_rule(b"FREQ=WEEKLY").ok()?);
    /// Recurrence::new(rule, start, &[], &[]).next_after(start) // Some(2024-01-08)
    /// ```
    pub fn next_after(&self, day: NaiveDate) -> Option<NaiveDate>
        ensures member { IfSome result (λ e. IsTrue (is_in_recurrence self.now e)) }
        ensures later { IfSome result (λ e. day <ℤ e) }
        ensures least { IfSome result (λ e. PassedBetween (is_in_recurrence self.now) day e) }
        ensures none { IfNone result (NoneAfter (is_in_recurrence self.now) day) }
    {
        let next = day.succ_opt()?;
        let found = self.first_from(next, self.rule.seen_before(self.start, next))?;
        Some(found.day)
    }

    // The last day before this one that is an instance of the rule or a date beside it.
    fn last_given(&self, day: NaiveDate) -> Option<NaiveDate>
        ensures member { IfSome result (λ e. is_instance_or_date self.now e ≡ true) }
        ensures earlier { IfSome result (λ e. e <ℤ day) }
        ensures greatest { IfSome result (λ e. PassedBetween (is_instance_or_date self.now) e day) }
        ensures none { IfNone result (NoneBefore (is_instance_or_date self.now) day) }
    {
        let listed = last_listed(self.dates, day);
        let Some(instance) = self.rule.prev_before(self.start, day) else {
            return Some(listed?);
        };
        let Some(other) = listed else {
            return Some(instance);
        };
        let number = instance.num_days_from_ce();
        if other.num_days_from_ce() > number {
            return Some(other);
        }
        Some(instance)
    }

    /// Returns the last day of the recurrence before `day`. Returns `None` if there is none.
    ///
    /// ```
    /// use chrono_datetime::NaiveDate;
    /// let (start, rule) = (NaiveDate::from_ymd_opt(2024, 1, 1)?, read_rule(b"FREQ=WEEKLY").ok()?);
    /// let recurrence = Recurrence::new(rule, start, &[], &[]);
    /// recurrence.prev_before(NaiveDate::from_ymd_opt(2024, 1, 8)?) // Some(2024-01-01)
    /// ```
    pub fn prev_before(&self, day: NaiveDate) -> Option<NaiveDate>
        ensures member { IfSome result (λ e. IsTrue (is_in_recurrence self.now e)) }
        ensures earlier { IfSome result (λ e. e <ℤ day) }
        ensures greatest { IfSome result (λ e. PassedBetween (is_in_recurrence self.now) e day) }
        ensures none { IfNone result (NoneBefore (is_in_recurrence self.now) day) }
    {
        let mut end = day;
        loop {
            let found = self.last_given(end)?;
            if !is_listed(self.exceptions, found) {
                return Some(found);
            }
            end = found;
        }
    }
}

//! The days on which a local time of a rule may lie.
ghost use Rattle.std.specs.Prelude.{◌≡◌, ◌<◌, ℕ, true, ◌≤ℤ◌, ◌<ℤ◌, IfNone, IfSome, IsFalse};
ghost use Rattle.chrono_datetime.specs.Moment.{Moment};
ghost use Rattle.chrono_rules.specs.Instances.{is_instance};
ghost use Rattle.zoned_rules.specs.Private.{IsListed, MissesWeekday};

use crate::clock_steps::{ClockSteps, DAY};
use crate::local_rule::LocalRule;
use chrono_datetime::{Datelike, NaiveDate};
use chrono_rules::law::instances_have_listed_weekdays;
use chrono_sets::are_empty;

// The days of a week.
const WEEK: u32 = 7;

impl LocalRule {
    // Whether a listed time of day may lie in a unit that INTERVAL counts, on some day.
    pub(crate) fn may_recur(&self) -> bool
        ensures { IsFalse result → (q : Moment) → ¬ IsListed self.now q }
    {
        self.may_have_time() && self.may_have_weekday()
    }

    // The same, whatever the day is.
    //
    // If the interval is a whole part of a day, the same units count on each day. If it is not, none counts but those of a common divisor.
    fn may_have_time(&self) -> bool
        ensures { IsFalse result → (q : Moment) → ¬ IsListed self.now q }
    {
        let steps = ClockSteps {
            unit: self.steps.unit,
            interval: self.steps.common_interval(),
        };
        let common = LocalRule { steps, ..*self };
        common.first_time(self.start.date(), 0).is_some()
    }

    // The same on a weekday that BYDAY lists. By a common divisor of the interval and a week, the same units count in each week.
    fn may_have_weekday(&self) -> bool
        ensures { IsFalse result → (q : Moment) → ¬ IsListed self.now q }
    {
        let listed = &self.days.weekdays;
        if listed.every.is_empty() || !are_empty(&listed.front) || !are_empty(&listed.back) {
            return true;
        }
        instances_have_listed_weekdays(&self.days, self.start.date());
        let steps = ClockSteps {
            unit: self.steps.unit,
            interval: self.steps.weekly_interval(),
        };
        let common = LocalRule { steps, ..*self };
        common.meets_weekday()
    }

    // Whether a listed time lies in a unit that INTERVAL counts, on a weekday that BYDAY lists, in the week from the day with the number 0.
    fn meets_weekday(&self) -> bool
        ensures { IsFalse result → (day : ℕ) → day < 7 → MissesWeekday self.now day }
    {
        for day in 0..WEEK {
            if self.meets_day(day) {
                return true;
            }
        }
        false
    }

    // The same of the day with that number.
    fn meets_day(&self, day: u32) -> bool
        requires { day < 7 }
        ensures { IsFalse result → MissesWeekday self.now day }
    {
        let Some(date) = NaiveDate::from_num_days_from_ce_opt(day as i32) else {
            return true;
        };
        let weekday = date.weekday().num_days_from_monday();
        self.days.weekdays.every.contains(weekday) && self.first_time(date, 0).is_some()
    }

    // The first day after another on which a local time may lie.
    pub(crate) fn next_day(&self, day: NaiveDate) -> Option<NaiveDate>
        ensures instance { IfSome result (λ e. is_instance self.now.days self.now.start.date e ≡ true) }
        ensures later { IfSome result (λ e. day <ℤ e) }
        ensures least { IfSome result (λ e. (q : Moment) → IsListed self.now q → day <ℤ q.date → e ≤ℤ q.date) }
        ensures none { IfNone result ((q : Moment) → IsListed self.now q → q.date ≤ℤ day) }
    {
        let last = self.last_without_unit(day)?;
        self.days.next_after(self.start.date(), last)
    }

    // The day, or a later one. No unit that INTERVAL counts lies behind the day and up to that one.
    fn last_without_unit(&self, day: NaiveDate) -> Option<NaiveDate>
        ensures not_before { IfSome result (λ e. day ≤ℤ e) }
        ensures passed { IfSome result (λ e. (q : Moment) → IsListed self.now q → day <ℤ q.date → e <ℤ q.date) }
        ensures none { IfNone result ((q : Moment) → IsListed self.now q → q.date ≤ℤ day) }
    {
        let units = self.units_to_next(day, DAY - 1);
        day.moved_by_days(self.steps.unit.whole_days(units - 1))
    }

    // The last day before another on which a local time may lie.
    pub(crate) fn previous_day(&self, day: NaiveDate) -> Option<NaiveDate>
        ensures instance { IfSome result (λ e. is_instance self.now.days self.now.start.date e ≡ true) }
        ensures earlier { IfSome result (λ e. e <ℤ day) }
        ensures greatest { IfSome result (λ e. (q : Moment) → IsListed self.now q → q.date <ℤ day → q.date ≤ℤ e) }
        ensures none { IfNone result ((q : Moment) → IsListed self.now q → day ≤ℤ q.date) }
    {
        let first = self.first_without_unit(day)?;
        self.days.prev_before(self.start.date(), first)
    }

    // The day, or an earlier one. No unit that INTERVAL counts lies before the day and from that one on.
    fn first_without_unit(&self, day: NaiveDate) -> Option<NaiveDate>
        ensures not_behind { IfSome result (λ e. e ≤ℤ day) }
        ensures passed { IfSome result (λ e. (q : Moment) → IsListed self.now q → q.date <ℤ day → q.date <ℤ e) }
        ensures none { IfNone result ((q : Moment) → IsListed self.now q → day ≤ℤ q.date) }
    {
        let behind = self.units_behind(day, 0);
        if behind == 0 {
            return Some(day);
        }
        day.moved_by_days(-self.steps.unit.whole_days(behind as i64 - 1))
    }
}

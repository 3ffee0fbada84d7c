//! The first member of a rule from a day on: it looks at the days that no part skips, one after another.
ghost use Rattle.std.specs.Prelude.{◌≡◌, ◌≤ℤ◌, ◌<ℤ◌, ◌+ℤ◌, ◌-ℤ◌, ℤ, pos, true, IfSome, IfNone};
ghost use Rattle.chrono_datetime.specs.Days.{IsDate};
ghost use Rattle.chrono_datetime.specs.Recurrence.{past_last_date};
ghost use Rattle.chrono_datetime.specs.PassedOver.{NoDateFrom, NoneFrom, PassedOver};
ghost use Rattle.chrono_rules.specs.Instances.{is_member, not_after};
ghost use Rattle.chrono_rules.specs.RuleCycles.{RepeatsAfter};

use crate::rule::{End, Rule};
use crate::search::repeats::{PAST_LAST_DAY, first_of_last_366_days, later_of};
use chrono_datetime::{Datelike, NaiveDate};

impl Rule {
    // The number of the day before which the members before a day lie: of that day, or of the one after UNTIL.
    #[inline]
    pub(crate) fn end_before(&self, end: i32) -> i32
        ensures not_behind { result ≤ℤ end }
        ensures behind { (start : ℤ) → PassedOver (is_member self.now start) result end }
        ensures inside { (d : ℤ) → d <ℤ result → not_after self.now.end d ≡ true }
    {
        match self.end {
            End::Never => end,
            End::Count(_) => end,
            End::Until(last) => {
                let behind = last.num_days_from_ce() + 1;
                if behind < end { behind } else { end }
            }
        }
    }

    // The first member from the date on that lies before a day. It looks at the days that no part passes over so far.
    pub(crate) fn first_between(
        &self,
        start: NaiveDate,
        date: NaiveDate,
        end: i32,
    ) -> Option<NaiveDate>
        ensures member { IfSome result (λ e. is_member self.now start e ≡ true) }
        ensures not_before { IfSome result (λ e. date ≤ℤ e) }
        ensures before { IfSome result (λ e. e <ℤ end) }
        ensures in_range { IfSome result (λ e. IsDate e) }
        ensures least { IfSome result (λ e. PassedOver (is_member self.now start) date e) }
        ensures none { IfNone result (NoDateFrom (is_member self.now start) date end) }
    {
        if self.names_no_place() {
            return None;
        }
        let last = self.end_before(end);
        let first = self.period_of_start(start);
        let mut day = later_of(start, date);
        while day.num_days_from_ce() < last {
            let periods = self.passed_by_interval(start, first, day);
            let counted = day.moved_by_days(periods)?;
            let parts = self.passed_by_parts(start, counted);
            if periods + parts == 0 {
                return Some(day);
            }
            day = counted.moved_by_days(parts)?;
        }
        None
    }

    // The first member from the date on that lies before a day. It looks at one cycle and at the calendar's last year.
    pub(crate) fn first_member_before(
        &self,
        start: NaiveDate,
        date: NaiveDate,
        end: i32,
    ) -> Option<NaiveDate>
        ensures member { IfSome result (λ e. is_member self.now start e ≡ true) }
        ensures not_before { IfSome result (λ e. date ≤ℤ e) }
        ensures before { IfSome result (λ e. e <ℤ end) }
        ensures in_range { IfSome result (λ e. IsDate e) }
        ensures least { IfSome result (λ e. PassedOver (is_member self.now start) date e) }
        ensures none { IfNone result (NoDateFrom (is_member self.now start) date end) }
    {
        let from = later_of(start, date);
        match self.cycle_behind(from, end) {
            Some(near) => self.first_in_cycle(start, date, from, near, end),
            None => self.first_between(start, date, end),
        }
    }

    // The first member from the date on that lies before a day. `near` lies 366 days and a cycle behind `from`.
    fn first_in_cycle(
        &self,
        start: NaiveDate,
        date: NaiveDate,
        from: NaiveDate,
        near: NaiveDate,
        end: i32,
    ) -> Option<NaiveDate>
        requires begun { start ≤ℤ from }
        requires order { date ≤ℤ from }
        requires from { IsDate from }
        requires date { IsDate date }
        requires repeats { RepeatsAfter self.now ((near -ℤ from) -ℤ pos 366) }
        requires before { near <ℤ end }
        requires early { (near +ℤ pos 366) ≤ℤ past_last_date }
        ensures member { IfSome result (λ e. is_member self.now start e ≡ true) }
        ensures not_before { IfSome result (λ e. date ≤ℤ e) }
        ensures before { IfSome result (λ e. e <ℤ end) }
        ensures in_range { IfSome result (λ e. IsDate e) }
        ensures least { IfSome result (λ e. PassedOver (is_member self.now start) date e) }
        ensures none { IfNone result (NoDateFrom (is_member self.now start) date end) }
    {
        if let Some(day) = self.first_between(start, date, near.num_days_from_ce()) {
            return Some(day);
        }
        let rest = first_of_last_366_days();
        let day = self.first_between(start, rest, end)?;
        Some(day)
    }

    // The first member from the date on.
    #[inline]
    pub(crate) fn first_member(&self, start: NaiveDate, date: NaiveDate) -> Option<NaiveDate>
        ensures member { IfSome result (λ e. is_member self.now start e ≡ true) }
        ensures not_before { IfSome result (λ e. date ≤ℤ e) }
        ensures least { IfSome result (λ e. PassedOver (is_member self.now start) date e) }
        ensures none { IfNone result (NoneFrom (is_member self.now start) date) }
    {
        self.first_member_before(start, date, PAST_LAST_DAY)
    }
}

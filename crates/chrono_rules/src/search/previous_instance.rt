//! The last instance of a rule before a day.
ghost use Rattle.std.specs.Prelude.{◌≡◌, ◌≤◌, ◌<◌, ◌≤ℤ◌, ◌<ℤ◌, ◌-ℤ◌, ℤ, pos, true, IsTrue, IfSome, IfNone};
ghost use Rattle.chrono_datetime.specs.Days.{IsDate};
ghost use Rattle.chrono_datetime.specs.Recurrence.{count_between};
ghost use Rattle.chrono_datetime.specs.PassedOver.{NoDateAfter, NoDateFrom, NoneBefore, PassedBetween, PassedOver};
ghost use Rattle.chrono_rules.specs.Instances.{is_counted, is_instance, is_member, not_after};
ghost use Rattle.chrono_rules.specs.RuleCycles.{RepeatsAfter};

use crate::rule::{End, Rule};
use crate::search::periods::moved;
use crate::search::repeats::LONGEST_PERIOD;
use chrono_datetime::{Datelike, NaiveDate};

impl Rule {
    // The first member after a day that lies before another.
    #[inline]
    fn member_after(&self, start: NaiveDate, day: NaiveDate, end: i32) -> Option<NaiveDate>
        ensures member { IfSome result (λ e. is_member self.now start e ≡ true) }
        ensures after { IfSome result (λ e. day <ℤ e) }
        ensures before { IfSome result (λ e. e <ℤ end) }
        ensures none { IfNone result (NoDateAfter (is_member self.now start) day end) }
    {
        let next = day.succ_opt()?;
        self.first_between(start, next, end)
    }

    // The last member from a day on that lies before another.
    fn last_between(&self, start: NaiveDate, first: NaiveDate, end: i32) -> Option<NaiveDate>
        ensures member { IfSome result (λ e. is_member self.now start e ≡ true) }
        ensures not_before { IfSome result (λ e. first ≤ℤ e) }
        ensures before { IfSome result (λ e. e <ℤ end) }
        ensures greatest { IfSome result (λ e. NoDateAfter (is_member self.now start) e end) }
        ensures none { IfNone result (NoDateFrom (is_member self.now start) first end) }
    {
        let found = self.first_between(start, first, end)?;
        let mut last = found;
        while let Some(member) = self.member_after(start, last, end) {
            last = member;
        }
        Some(last)
    }

    // The day before which the members before a day lie: that day, or the one after UNTIL.
    fn end_of_until(&self, day: NaiveDate) -> NaiveDate
        ensures not_after { result ≤ℤ day }
        ensures behind { (start : ℤ) → PassedOver (is_member self.now start) result day }
        ensures inside { (d : ℤ) → d <ℤ result → not_after self.now.end d ≡ true }
    {
        match self.end {
            End::Never => day,
            End::Count(_) => day,
            End::Until(last) => {
                let (number, end) = (last.num_days_from_ce(), day.num_days_from_ce());
                if number < end { moved(last, 1) } else { day }
            }
        }
    }

    // The day that lies a cycle and 366 days before a day; the start if it is later.
    fn cycle_before(&self, start: NaiveDate, day: NaiveDate) -> NaiveDate
        ensures not_before { start ≤ℤ result }
        ensures repeats { start <ℤ result → RepeatsAfter self.now ((day -ℤ result) -ℤ pos 366) }
        ensures in_range { IsDate day }
    {
        match day.moved_by_days(0 - LONGEST_PERIOD - self.cycle()) {
            Some(first) if start < first => first,
            _ => start,
        }
    }

    // The last member before a day, from `floor` on. It is looked for in stretches, each a day longer than all after it.
    fn last_from(&self, start: NaiveDate, floor: NaiveDate, top: NaiveDate) -> Option<NaiveDate>
        ensures member { IfSome result (λ e. is_member self.now start e ≡ true) }
        ensures before { IfSome result (λ e. e <ℤ top) }
        ensures greatest { IfSome result (λ e. PassedBetween (is_member self.now start) e top) }
        ensures none { IfNone result (PassedOver (is_member self.now start) floor top) }
    {
        let mut behind = top;
        while floor.num_days_from_ce() < behind.num_days_from_ce() {
            let first = stretch_before(floor, behind, top);
            if let Some(last) = self.last_between(start, first, behind.num_days_from_ce()) {
                return Some(last);
            }
            behind = first;
        }
        None
    }

    // The last member before a day.
    // If a cycle has none, only the first 366 days from the start on are left.
    fn last_member(&self, start: NaiveDate, end: NaiveDate) -> Option<NaiveDate>
        ensures member { IfSome result (λ e. is_member self.now start e ≡ true) }
        ensures before { IfSome result (λ e. e <ℤ end) }
        ensures greatest { IfSome result (λ e. PassedBetween (is_member self.now start) e end) }
        ensures none { IfNone result (NoneBefore (is_member self.now start) end) }
    {
        let top = self.end_of_until(end);
        let floor = self.cycle_before(start, top);
        if let Some(last) = self.last_from(start, floor, top) {
            return Some(last);
        }
        let (begin, bottom) = (start.num_days_from_ce(), floor.num_days_from_ce());
        if bottom <= begin {
            return None;
        }
        let day = self.last_between(start, start, begin + 366)?;
        Some(day)
    }

    // The first day from the start on that has so many members before it, from the start on; `day` if that is earlier.
    fn first_full(&self, start: NaiveDate, day: NaiveDate, count: u32) -> NaiveDate
        ensures not_after { result ≤ℤ day }
        ensures fewer { (d : ℤ) → start ≤ℤ d → d <ℤ result → count_between (is_member self.now start) start d < count }
        ensures full { (d : ℤ) → result ≤ℤ d → d <ℤ day → count ≤ count_between (is_member self.now start) start d }
    {
        if day.num_days_from_ce() <= start.num_days_from_ce() {
            return day;
        }
        let walked = self.first_members(start, day, count);
        if walked.seen < count {
            return day;
        }
        walked.day
    }

    // The day up to which COUNT lets days be instances; `day` if that is earlier.
    #[inline]
    #[tactic(auto, unfolding(crate::specs::Instances::is_counted))]
    fn end_of_count(&self, start: NaiveDate, day: NaiveDate) -> NaiveDate
        ensures not_after { result ≤ℤ day }
        ensures counted { (d : ℤ) → start ≤ℤ d → d <ℤ result → is_counted self.now.end self.now start d ≡ true }
        ensures ended { PassedOver (is_counted self.now.end self.now start) result day }
    {
        match self.end {
            End::Never => day,
            End::Until(_) => day,
            End::Count(count) => self.first_full(start, day, count),
        }
    }

    /// Returns the last instance before `day` of the rule that begins on `start`. Returns `None` if there is none.
    ///
    /// ```
    /// use chrono_datetime::NaiveDate;
    /// let rule = read_rule(b"FREQ=MONTHLY;BYDAY=-1FR").ok()?;
    /// let (start, day) = (NaiveDate::from_ymd_opt(2024, 1, 1)?, NaiveDate::from_ymd_opt(2024, 3, 29)?);
    /// rule.prev_before(start, day) // Some(2024-02-23)
    /// ```
    ///
    /// Every call counts the instances of a rule with COUNT from `start` on.
    #[tactic(auto, unfolding(crate::specs::Instances::is_instance))]
    pub fn prev_before(&self, start: NaiveDate, day: NaiveDate) -> Option<NaiveDate>
        ensures member { IfSome result (λ e. IsTrue (is_instance self.now start e)) }
        ensures earlier { IfSome result (λ e. e <ℤ day) }
        ensures greatest { IfSome result (λ e. PassedBetween (is_instance self.now start) e day) }
        ensures none { IfNone result (NoneBefore (is_instance self.now start) day) }
    {
        let end = self.end_of_count(start, day);
        self.last_member(start, end)
    }
}

// The day with which a stretch before a day begins, longer by a day than all from there to `top`; the start if it is later.
fn stretch_before(start: NaiveDate, day: NaiveDate, top: NaiveDate) -> NaiveDate
    requires some { start <ℤ day }
    requires order { day ≤ℤ top }
    ensures not_before { start ≤ℤ result }
    ensures before { result <ℤ day }
{
    let behind = i64::from(top.num_days_from_ce()) - i64::from(day.num_days_from_ce());
    match day.moved_by_days(-1 - behind) {
        Some(first) if start < first => first,
        _ => start,
    }
}

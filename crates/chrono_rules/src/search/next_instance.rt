//! The first instance from a day on, and what a walk over the instances keeps of the members before that day.
ghost use Rattle.std.specs.Prelude.{◌≡◌, ◌≤◌, ◌≤ℤ◌, ◌+ℤ◌, ℤ, pos, true, IfSome, IfNone};
ghost use Rattle.chrono_datetime.specs.Days.{IsDate};
ghost use Rattle.chrono_datetime.specs.Recurrence.{dates_before, past_last_date};
ghost use Rattle.chrono_datetime.specs.PassedOver.{NoneFrom, PassedOver};
ghost use Rattle.chrono_rules.specs.Instances.{is_instance};
ghost use Rattle.chrono_rules.specs.InstanceWalks.{IsKept, may_follow, seen_with};

use crate::rule::{End, Rule};
use chrono_datetime::NaiveDate;

impl Rule {
    // What a walk from the day on keeps of the past, if the rule has COUNT.
    // It is how many members come before the day, but no more than COUNT.
    pub(crate) fn seen_before(&self, start: NaiveDate, day: NaiveDate) -> u32
        ensures kept { IsKept self.now start day result }
        ensures few { result ≤ dates_before day }
    {
        match self.end {
            End::Never => 0,
            End::Until(_) => 0,
            End::Count(count) => self.count_members(start, day, count),
        }
    }

    // Whether a member may follow so many.
    #[inline]
    #[tactic(auto, unfolding(crate::specs::InstanceWalks::may_follow))]
    pub(crate) fn may_follow(&self, seen: u32) -> bool
        ensures { result ≡ may_follow self.now.end seen }
    {
        match self.end {
            End::Never => true,
            End::Until(_) => true,
            End::Count(count) => seen < count,
        }
    }

    // What is kept of the past behind one more member.
    #[inline]
    #[tactic(auto, unfolding(crate::specs::InstanceWalks::seen_with))]
    pub(crate) fn seen_with(&self, seen: u32) -> u32
        requires { seen ≤ 1_000_000_000 }
        ensures { result ≡ seen_with self.now.end seen }
    {
        match self.end {
            End::Never => seen,
            End::Until(_) => seen,
            End::Count(_) => seen + 1,
        }
    }

    // The first instance from the date on, before which a walk has seen so many members.
    pub(crate) fn first_instance(
        &self,
        start: NaiveDate,
        date: NaiveDate,
        seen: u32,
    ) -> Option<NaiveDate>
        requires kept { IsKept self.now start date seen }
        requires date { IsDate date }
        ensures member { IfSome result (λ e. is_instance self.now start e ≡ true) }
        ensures not_before { IfSome result (λ e. date ≤ℤ e) }
        ensures least { IfSome result (λ e. PassedOver (is_instance self.now start) date e) }
        ensures up_to { IfSome result (λ e. (d : ℤ) → date ≤ℤ d → d ≤ℤ e → IsKept self.now start d seen) }
        ensures behind { IfSome result (λ e. IsKept self.now start (e +ℤ pos 1) (seen_with self.now.end seen)) }
        ensures none { IfNone result (NoneFrom (is_instance self.now start) date) }
        ensures ended { IfNone result ((d : ℤ) → date ≤ℤ d → d ≤ℤ past_last_date → IsKept self.now start d seen) }
    {
        if !self.may_follow(seen) {
            return None;
        }
        let day = self.first_member(start, date)?;
        Some(day)
    }
}

//! The members of one period, counted in one walk over its days.
ghost use Rattle.std.specs.Prelude.{◌≡◌, ◌≤◌, ◌<◌, ◌+◌, ◌-◌, ◌^◌, if◌then◌else◌, ◌≤ℤ◌, ◌<ℤ◌, ◌+ℤ◌, ℤ, pos, true, false};
ghost use Rattle.chrono_datetime.specs.Days.{IsDate};
ghost use Rattle.chrono_datetime.specs.Recurrence.{count_between};
ghost use Rattle.chrono_sets.specs.FiniteSets.{is_empty};
ghost use Rattle.chrono_rules.specs.ByParts.{date_passes, passes};
ghost use Rattle.chrono_rules.specs.Instances.{is_member};
ghost use Rattle.chrono_rules.specs.RuleParts.{lacks_positions};
ghost use Rattle.chrono_rules.specs.Periods.{period_end, period_first};

use crate::rule::{Frequency, Rule};
use crate::search::first_members::Walked;
use crate::search::periods::moved;
use chrono_datetime::{Datelike, NaiveDate};

// How many days of a period pass so far, and how many members come so far.
#[derive(Clone, Copy, Drop)]
struct Counted {
    passed: u32,
    members: u32,
}

impl Rule {
    // The first members from a member on, as many as make them `most`, before `end`.
    // Before `day` come `seen` of them. With BYSETPOS they are all of its period; without, or in a period of one day, the member alone.
    pub(crate) fn members_on(
        &self,
        start: NaiveDate,
        day: NaiveDate,
        seen: u32,
        end: NaiveDate,
        most: u32,
    ) -> Walked
        requires member { is_member self.now start day ≡ true }
        requires begun { start ≤ℤ day }
        requires order { day <ℤ end }
        requires counted { seen ≡ count_between (is_member self.now start) start day }
        requires few { seen < most }
        ensures later { day <ℤ result.day }
        ensures high { result.day ≤ℤ end }
        ensures counted { result.seen ≡ count_between (is_member self.now start) start result.day }
        ensures few { result.seen ≤ most }
        ensures fewer { (d : ℤ) → day ≤ℤ d → d <ℤ result.day → count_between (is_member self.now start) start d < most }
    {
        if !self.lacks_positions() && self.frequency != Frequency::Daily {
            return self.members_of_period(start, day, seen, end, most);
        }
        Walked {
            day: moved(day, 1),
            seen: seen + 1,
        }
    }

    // The same for a rule with BYSETPOS, from any day on. It looks at each day of the period once.
    fn members_of_period(
        &self,
        start: NaiveDate,
        day: NaiveDate,
        seen: u32,
        end: NaiveDate,
        most: u32,
    ) -> Walked
        requires some { lacks_positions self.now ≡ false }
        requires begun { start ≤ℤ day }
        requires order { day <ℤ end }
        requires counted { seen ≡ count_between (is_member self.now start) start day }
        requires few { seen < most }
        ensures later { day <ℤ result.day }
        ensures high { result.day ≤ℤ end }
        ensures counted { result.seen ≡ count_between (is_member self.now start) start result.day }
        ensures few { result.seen ≤ most }
        ensures fewer { (d : ℤ) → day ≤ℤ d → d <ℤ result.day → count_between (is_member self.now start) start d < most }
    {
        let before = self.passing_before(start, day);
        let left = self.passing_from(start, day);
        let stop = self.days_in_period(day, end);
        let mut count = Counted {
            passed: 0,
            members: seen,
        };
        let mut later = 0;
        while later < stop && count.members < most {
            let date = moved(day, later);
            count = self.and_day(start, date, before, left, count);
            later += 1;
        }
        Walked {
            day: moved(day, later),
            seen: count.members,
        }
    }

    // How many days from a day on lie in its period and before `end`.
    fn days_in_period(&self, day: NaiveDate, end: NaiveDate) -> i64
        requires { day <ℤ end }
        ensures within { (day +ℤ result) ≤ℤ end }
        ensures period { (day +ℤ result) ≤ℤ period_end self.now.frequency self.now.week_start day }
        ensures low { pos 1 ≤ℤ result }
        ensures high { result ≤ℤ pos 366 }
        ensures day { IsDate day }
        ensures end { IsDate end }
    {
        let period = self.to_period_end(day);
        let days = i64::from(end.num_days_from_ce()) - i64::from(day.num_days_from_ce());
        if days < period { days } else { period }
    }

    // What is counted behind one more day of the period. Before its first day `before` days pass, and from that day on `left`.
    #[inline]
    fn and_day(
        &self,
        start: NaiveDate,
        date: NaiveDate,
        before: u32,
        left: u32,
        count: Counted,
    ) -> Counted
        requires some { lacks_positions self.now ≡ false }
        requires begun { start ≤ℤ date }
        requires front { is_empty self.now.positions ≡ false → before + count.passed ≡ count_between (date_passes self.now start)
            (period_first self.now.frequency self.now.week_start date) date }
        requires back { is_empty self.now.positions_from_end ≡ false → left - count.passed ≡ count_between (date_passes self.now start)
            date (period_end self.now.frequency self.now.week_start date) }
        requires date { IsDate date }
        requires before { before ≤ 366 }
        requires passed { count.passed ≤ 366 }
        requires members { count.members < 2 ^ 32 - 1 }
        ensures passed { result.passed ≡ count.passed + (if date_passes self.now start date then 1 else 0) }
        ensures members { result.members ≡ count.members + (if is_member self.now start date then 1 else 0) }
        ensures one_day { result.passed ≤ count.passed + 1 }
        ensures one_member { result.members ≤ count.members + 1 }
    {
        if !self.passes(start, date) {
            return count;
        }
        let back = left.saturating_sub(count.passed);
        let is_member = self.is_member_at(start, date, before + count.passed + 1, back);
        Counted {
            passed: count.passed + 1,
            members: and_one(count.members, is_member),
        }
    }

    // Whether a day is a member that passes and has these places in its period, from the front and from the back.
    #[inline]
    fn is_member_at(&self, start: NaiveDate, date: NaiveDate, front: u32, back: u32) -> bool
        requires some { lacks_positions self.now ≡ false }
        requires begun { start ≤ℤ date }
        requires passes { passes self.now start date ≡ true }
        requires front { is_empty self.now.positions ≡ false → front ≡ count_between (date_passes self.now start)
            (period_first self.now.frequency self.now.week_start date) (date +ℤ pos 1) }
        requires back { is_empty self.now.positions_from_end ≡ false → back ≡ count_between (date_passes self.now start)
            date (period_end self.now.frequency self.now.week_start date) }
        ensures { result ≡ is_member self.now start date }
    {
        self.not_after(date) && (self.in_interval(start, date) && self.has_position(front, back))
    }
}

// The number, and one more if it counts.
#[inline]
fn and_one(number: u32, counts: bool) -> u32
    requires { number < 2 ^ 32 - 1 }
    ensures value { result ≡ number + (if counts then 1 else 0) }
    ensures few { result ≤ number + 1 }
{
    if counts { number + 1 } else { number }
}

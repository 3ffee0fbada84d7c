//! After how many days the days of a rule repeat.
ghost use Rattle.std.specs.Prelude.{◌≡◌, ◌==◌, ◌*◌, ◌<◌, ◌≤ℤ◌, ◌<ℤ◌, ◌+ℤ◌, ◌-ℤ◌, ℤ, if◌then◌else◌, pos, true, IfSome, IsTrue};
ghost use Rattle.std.specs.Int.{IsGcd};
ghost use Rattle.chrono_datetime.specs.Days.{IsDate};
ghost use Rattle.chrono_datetime.specs.Recurrence.{past_last_date};
ghost use Rattle.chrono_rules.specs.Instances.{not_after};
ghost use Rattle.chrono_rules.specs.RuleCycles.{RepeatsAfter, periods_of_400_years};
ghost use Rattle.chrono_rules.specs.RuleParts.{lacks_month_days, lacks_months, lacks_weeks, lacks_year_days};

use crate::rule::{Frequency, Rule};
use chrono_datetime::{Datelike, LAST_DAY, NaiveDate};

// The most days of a period: a leap year's.
pub(crate) const LONGEST_PERIOD: i64 = 366;

// The number after that of the calendar's last day.
pub(crate) const PAST_LAST_DAY: i32 = LAST_DAY + 1;

// The number of the day with which the calendar's last 366 days begin.
const FIRST_OF_LAST_366_DAYS: i32 = LAST_DAY - 365;

impl Rule {
    // After how many days the days of the rule repeat.
    #[inline]
    pub(crate) fn cycle(&self) -> i64
        ensures repeats { RepeatsAfter self.now result }
        ensures low { pos 0 <ℤ result }
        ensures high { result ≤ℤ pos 1_000_000_000_000_000 }
    {
        if self.repeats_by_weeks() {
            return 7 * self.step();
        }
        146_097 * i64::from(self.rounds())
    }

    // Whether the days of the rule repeat after seven days for each period from one that counts to the next.
    fn repeats_by_weeks(&self) -> bool
        ensures { IsTrue result → RepeatsAfter self.now (pos (7 * (if self.now.interval == 0 then 1 else self.now.interval))) }
    {
        match self.frequency {
            Frequency::Daily => self.asks_weekdays_alone(),
            Frequency::Weekly => self.asks_weekdays_alone(),
            Frequency::Monthly => false,
            Frequency::Yearly => false,
        }
    }

    // Whether the rule has no BY parts but BYDAY and BYSETPOS.
    fn asks_weekdays_alone(&self) -> bool
        ensures months { IsTrue result → lacks_months self.now ≡ true }
        ensures month_days { IsTrue result → lacks_month_days self.now ≡ true }
        ensures year_days { IsTrue result → lacks_year_days self.now ≡ true }
        ensures weeks { IsTrue result → lacks_weeks self.now ≡ true }
    {
        if !self.lacks_months() || !self.lacks_month_days() {
            return false;
        }
        self.lacks_year_days() && self.lacks_weeks()
    }

    // After how many times 400 years the days of the rule repeat: a whole number of intervals lies there.
    fn rounds(&self) -> u32
        ensures { RepeatsAfter self.now (pos (146_097 * result)) }
    {
        let step = self.step() as u32;
        step / common_divisor(step, self.periods_of_400_years())
    }

    // How many periods of the rule 400 years have.
    #[tactic(auto, unfolding(crate::specs::RuleCycles::periods_of_400_years))]
    fn periods_of_400_years(&self) -> u32
        ensures { result ≡ periods_of_400_years self.now.frequency }
    {
        match self.frequency {
            Frequency::Daily => 146_097,
            Frequency::Weekly => 20_871,
            Frequency::Monthly => 4_800,
            Frequency::Yearly => 400,
        }
    }

    // The day that lies 366 days and a cycle later.
    // `None` if it does not lie before the day with the number `end` and before the calendar's last 366 days.
    #[inline]
    pub(crate) fn cycle_behind(&self, from: NaiveDate, end: i32) -> Option<NaiveDate>
        ensures repeats { IfSome result (λ e. RepeatsAfter self.now ((e -ℤ from) -ℤ pos 366)) }
        ensures far { IfSome result (λ e. (from +ℤ pos 366) <ℤ e) }
        ensures before { IfSome result (λ e. e <ℤ end) }
        ensures early { IfSome result (λ e. (e +ℤ pos 366) ≤ℤ past_last_date) }
        ensures in_range { IsDate from }
    {
        let day = from.moved_by_days(LONGEST_PERIOD + self.cycle())?;
        let number = day.num_days_from_ce();
        if number < end && number <= FIRST_OF_LAST_366_DAYS {
            Some(day)
        } else {
            None
        }
    }

    // The number of the day up to which whole cycles are passed: that of `end`, or an earlier one by UNTIL or by the calendar's end.
    pub(crate) fn last_of_cycles(&self, end: NaiveDate) -> i32
        ensures not_after { result ≤ℤ end }
        ensures early { (result +ℤ pos 366) ≤ℤ past_last_date }
        ensures inside { (d : ℤ) → d <ℤ result → not_after self.now.end d ≡ true }
    {
        let last = self.end_before(end.num_days_from_ce());
        if last < FIRST_OF_LAST_366_DAYS {
            last
        } else {
            FIRST_OF_LAST_366_DAYS
        }
    }
}

// The first of the calendar's last 366 days.
#[inline]
pub(crate) fn first_of_last_366_days() -> NaiveDate
    ensures { result ≡ pos 95_745_034 }
{
    NaiveDate::from_num_days_from_ce_opt(FIRST_OF_LAST_366_DAYS).unwrap()
}

// The later of two dates.
#[inline]
pub(crate) fn later_of(first: NaiveDate, second: NaiveDate) -> NaiveDate
    ensures not_before { first ≤ℤ result }
    ensures from { second ≤ℤ result }
    ensures before { (d : ℤ) → second ≤ℤ d → d <ℤ result → d <ℤ first }
    ensures date { IsDate second }
{
    let (a, b) = (first.num_days_from_ce(), second.num_days_from_ce());
    if a < b { second } else { first }
}

// The greatest common divisor, by Euclid.
fn common_divisor(one: u32, other: u32) -> u32
    requires { 0 < one }
    ensures divisor { IsGcd one other result }
    ensures positive { 0 < result }
{
    let (mut divisor, mut rest) = (one, other);
    while rest > 0 {
        (divisor, rest) = (rest, divisor % rest);
    }
    divisor
}

//! The periods of a rule, and which of them count.
ghost use Rattle.std.specs.Prelude.{◌≡◌, ◌≤ℤ◌, ◌<ℤ◌, ◌+ℤ◌, ◌-ℤ◌, ◌-◌, ◌^◌, ◌==◌, if◌then◌else◌, neg_ℤ, pos, unsigned_abs};
ghost use Rattle.std.specs.Int.{int_div_euclid, int_rem_euclid};
ghost use Rattle.chrono_datetime.specs.Days.{IsDate, ordinal_of, year_of};
ghost use Rattle.chrono_datetime.specs.MonthMoves.{month_index_of};
ghost use Rattle.chrono_datetime.specs.Weeks.{week_first_of};
ghost use Rattle.chrono_datetime.specs.Years.{year_length};
ghost use Rattle.chrono_rules.specs.Instances.{in_interval};
ghost use Rattle.chrono_rules.specs.Periods.{period_of};

use crate::rule::{Frequency, Rule};
use chrono_datetime::{Datelike, NaiveDate, Weekday};

impl Rule {
    // The number of the date's period: days, weeks, months or years in a row.
    #[tactic(auto, unfolding(crate::specs::Periods::period_of))]
    pub(crate) fn period_of(&self, date: NaiveDate) -> i64
        ensures value { result ≡ period_of self.now.frequency self.now.week_start date }
        ensures low { neg_ℤ (pos 100_000_000) ≤ℤ result }
        ensures high { result ≤ℤ pos 100_000_000 }
    {
        match self.frequency {
            Frequency::Daily => i64::from(date.num_days_from_ce()),
            Frequency::Weekly => week_number(date, self.week_start),
            Frequency::Monthly => month_number(date),
            Frequency::Yearly => i64::from(date.year()),
        }
    }

    // How many periods lie from one that counts to the next.
    #[inline]
    pub(crate) fn step(&self) -> i64
        ensures value { result ≡ pos (if self.now.interval == 0 then 1 else self.now.interval) }
        ensures positive { pos 0 <ℤ result }
        ensures few { result ≤ℤ pos (2 ^ 32 - 1) }
    {
        if self.interval == 0 {
            1
        } else {
            i64::from(self.interval)
        }
    }

    // How many periods the date's lies behind the one with a number, negative before it.
    #[inline]
    pub(crate) fn periods_apart(&self, first: i64, date: NaiveDate) -> i64
        requires low { neg_ℤ (pos 100_000_000) ≤ℤ first }
        requires high { first ≤ℤ pos 100_000_000 }
        ensures value { result ≡ period_of self.now.frequency self.now.week_start date -ℤ first }
        ensures low { neg_ℤ (pos 200_000_000) ≤ℤ result }
        ensures high { result ≤ℤ pos 200_000_000 }
    {
        self.period_of(date) - first
    }

    /// Returns whether the period of `date` is a whole number of intervals from that of `start`, earlier or later.
    ///
    /// ```
    /// use chrono_datetime::NaiveDate;
    /// let (start, rule) = (NaiveDate::from_ymd_opt(2024, 1, 1)?, read_rule(b"FREQ=WEEKLY;INTERVAL=2").ok()?);
    /// rule.in_interval(start, NaiveDate::from_ymd_opt(2024, 1, 8)?) // false
    /// rule.in_interval(start, NaiveDate::from_ymd_opt(2024, 1, 17)?) // true
    /// ```
    #[tactic(auto, unfolding(crate::specs::Instances::in_interval))]
    pub fn in_interval(&self, start: NaiveDate, date: NaiveDate) -> bool
        ensures { result ≡ in_interval self.now start date }
    {
        self.interval <= 1
            || remainder(self.periods_apart(self.period_of(start), date), self.step()) == 0
    }
}

// The day number of the first day of the date's week.
#[inline]
fn week_first(date: NaiveDate, start: Weekday) -> i64
    ensures value { result ≡ week_first_of date start }
    ensures low { neg_ℤ (pos 95_746_135) ≤ℤ result }
    ensures high { result ≤ℤ pos 95_745_399 }
{
    i64::from(date.num_days_from_ce()) - i64::from(date.weekday().days_since(start))
}

// A date that stands in its year as the fourth day of the date's week stands in its own.
// It lies 400 years from that day, which may lie outside the calendar.
pub(crate) fn like_fourth_of_week(date: NaiveDate, start: Weekday) -> NaiveDate
    ensures ordinal { ordinal_of result ≡ ordinal_of (week_first_of date start +ℤ pos 3) }
    ensures length { year_length (year_of result) ≡ year_length (year_of (week_first_of date start +ℤ pos 3)) }
{
    let first = week_first(date, start);
    let day = i64::from(date.num_days_from_ce());
    if day < 0 {
        return moved(date, first + 146_100 - day);
    }
    moved(date, first - 146_094 - day)
}

// The date so many days later.
#[inline]
pub(crate) fn moved(date: NaiveDate, days: i64) -> NaiveDate
    requires { IsDate (date +ℤ days) }
    ensures { result ≡ date +ℤ days }
{
    date.moved_by_days(days).unwrap()
}

// How many days the second date lies behind the first.
#[inline]
pub(crate) fn days_apart(first: NaiveDate, second: NaiveDate) -> u32
    requires { first ≤ℤ second }
    ensures { second ≡ first +ℤ pos result }
{
    (second.num_days_from_ce() - first.num_days_from_ce()) as u32
}

// What is left of a number of periods behind whole intervals.
#[inline]
pub(crate) fn remainder(apart: i64, step: i64) -> u64
    requires { pos 0 <ℤ step }
    ensures value { result ≡ unsigned_abs (int_rem_euclid apart step) }
    ensures less { pos result <ℤ step }
{
    apart.rem_euclid(step).unsigned_abs()
}

// The number of the date's week.
#[inline]
fn week_number(date: NaiveDate, start: Weekday) -> i64
    ensures value { result ≡ int_div_euclid (week_first_of date start) (pos 7) }
    ensures low { neg_ℤ (pos 100_000_000) ≤ℤ result }
    ensures high { result ≤ℤ pos 100_000_000 }
{
    // 7 divides the number of each Sunday.
    let sunday = i64::from(date.num_days_from_ce()) - i64::from(start.num_days_from_sunday());
    sunday.div_euclid(7)
}

// The number of the date's month.
#[inline]
fn month_number(date: NaiveDate) -> i64
    ensures value { result ≡ month_index_of date }
    ensures low { neg_ℤ (pos 100_000_000) ≤ℤ result }
    ensures high { result ≤ℤ pos 100_000_000 }
{
    12 * i64::from(date.year()) + i64::from(date.month() - 1)
}

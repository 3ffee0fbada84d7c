//! `ClockSteps`: the units of the clock that a rule counts.
ghost use Rattle.std.specs.Prelude.{◌≡◌, ℤ, ℕ, pos, neg_ℤ, ◌+ℤ◌, ◌-ℤ◌, ◌≤ℤ◌, ◌<ℤ◌, ◌<◌, ◌≤◌, ◌*◌, ◌%◌, ◌^◌, ◌-◌};
ghost use Rattle.std.specs.Int.{IsGcd};
ghost use Rattle.zoned_rules.specs.LocalTimes.{each_day, is_above_hours, is_above_minutes, is_above_seconds, unit_number};
ghost use Rattle.zoned_rules.specs.Private.{interval_units, units_of_day};

use chrono_datetime::{Datelike, NaiveDate};

// The seconds of an hour, of a minute, and of a day.
pub(crate) const HOUR: u32 = 3_600;

pub(crate) const MINUTE: u32 = 60;

pub(crate) const DAY: u32 = 86_400;

/// FREQ of a rule over local date-times, as far as a clock has it.
#[derive(Clone, Copy, PartialEq, Eq, Debug)]
pub enum ClockUnit {
    /// DAILY or longer: the rule of days says which days count.
    Day,
    /// HOURLY: each hour of local time.
    Hour,
    /// MINUTELY: each minute.
    Minute,
    /// SECONDLY: each second.
    Second,
}

/// FREQ=HOURLY, MINUTELY or SECONDLY, and INTERVAL.
#[derive(Clone, Copy, PartialEq, Eq, Debug)]
pub struct ClockSteps {
    /// FREQ: what is counted.
    pub unit: ClockUnit,
    /// INTERVAL: use every `interval`-th unit, beginning with the one that contains the start. 0 means 1.
    ///
    /// For example, `Hour` with 6 is four times a day. The units are counted in local time, across midnight.
    pub interval: u32,
}

impl ClockSteps {
    /// Returns the steps of a rule that counts days, weeks, months or years.
    ///
    /// ```
    /// ClockSteps::each_day().unit == ClockUnit::Day // true
    /// ```
    #[inline]
    pub fn each_day() -> ClockSteps
        ensures { result ≡ each_day }
    {
        ClockSteps {
            unit: ClockUnit::Day,
            interval: 1,
        }
    }

    // How many units lie from one that counts to the next.
    #[inline]
    pub(crate) fn step(&self) -> u32
        ensures value { result ≡ interval_units self.now }
        ensures positive { 0 < result }
    {
        if self.interval == 0 { 1 } else { self.interval }
    }

    // A number of units that divides both the interval and a day. On each day the units that lie so many apart are the same.
    pub(crate) fn common_interval(&self) -> u32
        ensures positive { 0 < result }
        ensures interval { interval_units self.now % result ≡ 0 }
        ensures day { units_of_day self.now.unit % result ≡ 0 }
    {
        common_divisor(self.step(), self.unit.units_of_day())
    }

    // A number of units that divides both the interval and a week. In each week the units that lie so many apart are the same.
    pub(crate) fn weekly_interval(&self) -> u32
        ensures positive { 0 < result }
        ensures interval { interval_units self.now % result ≡ 0 }
        ensures week { (7 * units_of_day self.now.unit) % result ≡ 0 }
    {
        common_divisor(self.step(), 7 * self.unit.units_of_day())
    }
}

// The greatest common divisor, by Euclid.
fn common_divisor(one: u32, other: u32) -> u32
    requires { 0 < one }
    ensures divisor { IsGcd one other result }
    ensures positive { 0 < result }
{
    let (mut divisor, mut rest) = (one, other);
    while rest > 0 {
        (divisor, rest) = (rest, divisor % rest);
    }
    divisor
}

impl ClockUnit {
    // Whether the unit is longer than an hour.
    #[inline]
    #[tactic(auto, unfolding(crate::specs::LocalTimes::is_above_hours))]
    pub(crate) fn is_above_hours(self) -> bool
        ensures { result ≡ is_above_hours self }
    {
        match self {
            ClockUnit::Day => true,
            ClockUnit::Hour | ClockUnit::Minute | ClockUnit::Second => false,
        }
    }

    // Whether it is longer than a minute.
    #[inline]
    #[tactic(auto, unfolding(crate::specs::LocalTimes::is_above_minutes))]
    pub(crate) fn is_above_minutes(self) -> bool
        ensures { result ≡ is_above_minutes self }
    {
        match self {
            ClockUnit::Day | ClockUnit::Hour => true,
            ClockUnit::Minute | ClockUnit::Second => false,
        }
    }

    // Whether it is longer than a second.
    #[inline]
    #[tactic(auto, unfolding(crate::specs::LocalTimes::is_above_seconds))]
    pub(crate) fn is_above_seconds(self) -> bool
        ensures { result ≡ is_above_seconds self }
    {
        match self {
            ClockUnit::Day | ClockUnit::Hour | ClockUnit::Minute => true,
            ClockUnit::Second => false,
        }
    }

    // How many of the unit a day has.
    #[tactic(auto, unfolding(crate::specs::Private::units_of_day))]
    fn units_of_day(self) -> u32
        ensures value { result ≡ units_of_day self }
        ensures few { result ≤ 86_400 }
    {
        match self {
            ClockUnit::Day => 1,
            ClockUnit::Hour => 24,
            ClockUnit::Minute => 1_440,
            ClockUnit::Second => 86_400,
        }
    }

    // How many whole days so many units are.
    #[tactic(auto, unfolding(crate::specs::LocalTimes::unit_number))]
    pub(crate) fn whole_days(self, units: i64) -> i64
        requires low { pos 0 ≤ℤ units }
        requires high { units ≤ℤ pos 5_000_000_000 }
        ensures low { pos 0 ≤ℤ result }
        ensures high { result ≤ℤ pos 5_000_000_000 }
        ensures ahead { (n d : ℤ) (k : ℕ) → d ≤ℤ (n +ℤ result) → k < 86_400 → unit_number self d k ≤ℤ (unit_number self n 86_399 +ℤ units) }
        ensures back { (n d : ℤ) (k : ℕ) → (n -ℤ result) ≤ℤ d → (unit_number self n 0 -ℤ units) ≤ℤ unit_number self d k }
    {
        match self {
            ClockUnit::Day => units,
            ClockUnit::Hour => units / 24,
            ClockUnit::Minute => units / 1_440,
            ClockUnit::Second => units / 86_400,
        }
    }

    // The number of the unit in which a second of a day lies.
    #[tactic(auto, unfolding(crate::specs::LocalTimes::unit_number))]
    pub(crate) fn number(self, date: NaiveDate, second: u32) -> i64
        requires { second < 86_400 }
        ensures value { result ≡ unit_number self date second }
        ensures low { neg_ℤ (pos 10_000_000_000_000) ≤ℤ result }
        ensures high { result ≤ℤ pos 10_000_000_000_000 }
    {
        let day = i64::from(date.num_days_from_ce());
        match self {
            ClockUnit::Day => day,
            ClockUnit::Hour => day * 24 + i64::from(second / HOUR),
            ClockUnit::Minute => day * 1_440 + i64::from(second / MINUTE),
            ClockUnit::Second => day * 86_400 + i64::from(second),
        }
    }

    // The second of the day at which the unit begins that lies so many units behind that of a second, or the day's end.
    #[tactic(auto, unfolding(crate::specs::LocalTimes::unit_number))]
    pub(crate) fn later_unit(self, second: u32, units: i64) -> u32
        requires day { second < 86_400 }
        requires some { pos 0 <ℤ units }
        requires few { units ≤ℤ pos 5_000_000_000 }
        ensures later { second < result }
        ensures within { result ≤ 86_400 }
        ensures passed { (n : ℤ) (k : ℕ) → k < result → unit_number self n k <ℤ (unit_number self n second +ℤ units) }
    {
        match self {
            ClockUnit::Day => DAY,
            ClockUnit::Hour => number_after(second / HOUR, units, 24) * HOUR,
            ClockUnit::Minute => number_after(second / MINUTE, units, 1_440) * MINUTE,
            ClockUnit::Second => number_after(second, units, DAY),
        }
    }

    // The second of the day behind the unit that lies so many units before that of a second, or the day's beginning.
    #[tactic(auto, unfolding(crate::specs::LocalTimes::unit_number))]
    pub(crate) fn earlier_unit(self, second: u32, units: i64) -> u32
        requires day { second < 86_400 }
        requires some { pos 0 <ℤ units }
        requires few { units ≤ℤ pos 5_000_000_000 }
        ensures earlier { result ≤ second }
        ensures passed { (n : ℤ) (k : ℕ) → result ≤ k → (unit_number self n second -ℤ units) <ℤ unit_number self n k }
    {
        match self {
            ClockUnit::Day => 0,
            ClockUnit::Hour => number_behind(second / HOUR, units) * HOUR,
            ClockUnit::Minute => number_behind(second / MINUTE, units) * MINUTE,
            ClockUnit::Second => number_behind(second, units),
        }
    }
}

// The number that lies so many units after another one of a day, or the day's number of them.
fn number_after(number: u32, units: i64, of_day: u32) -> u32
    requires within { number < of_day }
    requires day { of_day ≤ 86_400 }
    requires some { pos 0 <ℤ units }
    requires few { units ≤ℤ pos 5_000_000_000 }
    ensures later { number < result }
    ensures within { result ≤ of_day }
    ensures passed { (k : ℕ) → k < result → pos k <ℤ (pos number +ℤ units) }
{
    let later = i64::from(number) + units;
    if later < i64::from(of_day) {
        later as u32
    } else {
        of_day
    }
}

// The number behind the one that lies so many units before another one of a day, or 0.
fn number_behind(number: u32, units: i64) -> u32
    requires day { number < 86_400 }
    requires some { pos 0 <ℤ units }
    requires few { units ≤ℤ pos 5_000_000_000 }
    ensures earlier { result ≤ number }
    ensures passed { (k : ℕ) → result ≤ k → (pos number -ℤ units) <ℤ pos k }
{
    let behind = i64::from(number) + 1 - units;
    if behind > 0 { behind as u32 } else { 0 }
}

//! The first and the last time of day that a rule lists in a range of seconds.
ghost use Rattle.std.specs.Prelude.{◌≡◌, ◌≤◌, ◌<◌, ◌-◌, ◌+◌, IfNone, IfSome, IsTrue, pos, neg_ℤ, ◌-ℤ◌, ◌≤ℤ◌, ◌<ℤ◌, unsigned_abs};
ghost use Rattle.std.specs.Int.{int_rem_euclid};
ghost use Rattle.chrono_datetime.specs.PassedOver.{PassedNumbers};
ghost use Rattle.zoned_rules.specs.LocalTimes.{is_counted_time, is_time, names_number, unit_number, units_behind};
ghost use Rattle.zoned_rules.specs.Private.{interval_units};

use crate::clock_steps::{DAY, HOUR, MINUTE};
use crate::local_rule::LocalRule;
use chrono_datetime::{NaiveDate, Timelike};
use chrono_sets::NumberSet;

impl LocalRule {
    // How many units the one of a second of a day lies behind the start's, negative before it.
    fn interval_units(&self, date: NaiveDate, second: u32) -> i64
        requires { second < 86_400 }
        ensures value { result ≡ unit_number self.now.steps.unit date second -ℤ unit_number self.now.steps.unit self.now.start.date self.now.start.time.second }
        ensures low { neg_ℤ (pos 20_000_000_000_000) ≤ℤ result }
        ensures high { result ≤ℤ pos 20_000_000_000_000 }
    {
        let unit = self.steps.unit;
        let own = unit.number(self.start.date(), self.start.num_seconds_from_midnight());
        unit.number(date, second) - own
    }

    // How many units a second of a day lies behind one that INTERVAL counts.
    pub(crate) fn units_behind(&self, date: NaiveDate, second: u32) -> u64
        requires { second < 86_400 }
        ensures value { result ≡ units_behind self.now date second }
        ensures less { result < interval_units self.now.steps }
        ensures few { result < 4_294_967_296 }
    {
        if self.steps.interval <= 1 {
            return 0;
        }
        remainder(
            self.interval_units(date, second),
            i64::from(self.steps.step()),
        )
    }

    // How many units it lies before the next that INTERVAL counts.
    pub(crate) fn units_to_next(&self, date: NaiveDate, second: u32) -> i64
        requires { second < 86_400 }
        ensures value { result ≡ pos (interval_units self.now.steps) -ℤ pos (units_behind self.now date second) }
        ensures some { pos 0 <ℤ result }
        ensures few { result ≤ℤ pos 4_294_967_296 }
    {
        i64::from(self.steps.step()) - self.units_behind(date, second) as i64
    }

    // Whether a second of the day is one of the times, whatever INTERVAL says.
    #[tactic(auto, unfolding(crate::specs::LocalTimes::is_time))]
    fn is_time(&self, second: u32) -> bool
        requires { second < 86_400 }
        ensures { result ≡ is_time self.now.steps.unit self.now.times self.now.start.time.second second }
    {
        let (own, unit) = (self.start.num_seconds_from_midnight(), self.steps.unit);
        names_number(
            self.times.hours,
            unit.is_above_hours(),
            own / HOUR,
            second / HOUR,
        ) && (names_number(
            self.times.minutes,
            unit.is_above_minutes(),
            own / MINUTE % 60,
            second / MINUTE % 60,
        ) && names_number(
            self.times.seconds,
            unit.is_above_seconds(),
            own % MINUTE,
            second % MINUTE,
        ))
    }

    // Whether a second of a day is one of the times, in a unit that INTERVAL counts.
    #[tactic(auto, unfolding(crate::specs::LocalTimes::is_counted_time))]
    pub(crate) fn is_counted_time(&self, date: NaiveDate, second: u32) -> bool
        requires { second < 86_400 }
        ensures { result ≡ is_counted_time self.now date second }
    {
        self.units_behind(date, second) == 0 && self.is_time(second)
    }

    // The second if the parts of times list it, or else a later one. They list none between.
    fn listed_from(&self, second: u32) -> u32
        requires { second < 86_400 }
        ensures later { second ≤ result }
        ensures within { result ≤ 86_400 }
        ensures time { result ≡ second → IsTrue (is_time self.now.steps.unit self.now.times self.now.start.time.second second) }
        ensures passed { PassedNumbers (is_time self.now.steps.unit self.now.times self.now.start.time.second) second result }
    {
        let (own, unit) = (self.start.num_seconds_from_midnight(), self.steps.unit);
        if !names_number(
            self.times.hours,
            unit.is_above_hours(),
            own / HOUR,
            second / HOUR,
        ) {
            return (second / HOUR + 1) * HOUR;
        }
        if !names_number(
            self.times.minutes,
            unit.is_above_minutes(),
            own / MINUTE % 60,
            second / MINUTE % 60,
        ) {
            return (second / MINUTE + 1) * MINUTE;
        }
        if !names_number(
            self.times.seconds,
            unit.is_above_seconds(),
            own % MINUTE,
            second % MINUTE,
        ) {
            return second + 1;
        }
        second
    }

    // The second of a day if it is one of the times, or else a later one. None of the times lies between.
    fn time_from(&self, date: NaiveDate, second: u32) -> u32
        requires { second < 86_400 }
        ensures later { second ≤ result }
        ensures within { result ≤ 86_400 }
        ensures time { result ≡ second → IsTrue (is_counted_time self.now date second) }
        ensures passed { PassedNumbers (is_counted_time self.now date) second result }
    {
        if self.units_behind(date, second) > 0 {
            return self
                .steps
                .unit
                .later_unit(second, self.units_to_next(date, second));
        }
        self.listed_from(second)
    }

    // The first of the times of a day from a second on.
    pub(crate) fn first_time(&self, date: NaiveDate, from: u32) -> Option<u32>
        requires { from ≤ 86_400 }
        ensures time { IfSome result (λ k. IsTrue (is_counted_time self.now date k)) }
        ensures within { IfSome result (λ k. k < 86_400) }
        ensures not_before { IfSome result (λ k. from ≤ k) }
        ensures least { IfSome result (λ k. PassedNumbers (is_counted_time self.now date) from k) }
        ensures none { IfNone result (PassedNumbers (is_counted_time self.now date) from 86_400) }
    {
        let mut second = from;
        while second < DAY {
            let next = self.time_from(date, second);
            if next == second {
                return Some(second);
            }
            second = next;
        }
        None
    }

    // The end of a range if the parts of times list the second before it, or else an earlier one. They list none between.
    fn listed_before(&self, end: u32) -> u32
        requires some { 0 < end }
        requires within { end ≤ 86_400 }
        ensures earlier { result ≤ end }
        ensures time { result ≡ end → IsTrue (is_time self.now.steps.unit self.now.times self.now.start.time.second (end - 1)) }
        ensures passed { PassedNumbers (is_time self.now.steps.unit self.now.times self.now.start.time.second) result end }
    {
        let (own, unit) = (self.start.num_seconds_from_midnight(), self.steps.unit);
        let second = end - 1;
        if !names_number(
            self.times.hours,
            unit.is_above_hours(),
            own / HOUR,
            second / HOUR,
        ) {
            return second / HOUR * HOUR;
        }
        if !names_number(
            self.times.minutes,
            unit.is_above_minutes(),
            own / MINUTE % 60,
            second / MINUTE % 60,
        ) {
            return second / MINUTE * MINUTE;
        }
        if !names_number(
            self.times.seconds,
            unit.is_above_seconds(),
            own % MINUTE,
            second % MINUTE,
        ) {
            return second;
        }
        end
    }

    // The end of a range if the second before it is one of the times of a day, or else an earlier one. None of the times lies between.
    fn time_before(&self, date: NaiveDate, end: u32) -> u32
        requires some { 0 < end }
        requires within { end ≤ 86_400 }
        ensures earlier { result ≤ end }
        ensures time { result ≡ end → IsTrue (is_counted_time self.now date (end - 1)) }
        ensures passed { PassedNumbers (is_counted_time self.now date) result end }
    {
        let behind = self.units_behind(date, end - 1);
        if behind > 0 {
            return self.steps.unit.earlier_unit(end - 1, behind as i64);
        }
        self.listed_before(end)
    }

    // The last of the times of a day before a second.
    pub(crate) fn last_time(&self, date: NaiveDate, end: u32) -> Option<u32>
        requires { end ≤ 86_400 }
        ensures time { IfSome result (λ k. IsTrue (is_counted_time self.now date k)) }
        ensures before { IfSome result (λ k. k < end) }
        ensures greatest { IfSome result (λ k. PassedNumbers (is_counted_time self.now date) (k + 1) end) }
        ensures none { IfNone result (PassedNumbers (is_counted_time self.now date) 0 end) }
    {
        let mut behind = end;
        while behind > 0 {
            let next = self.time_before(date, behind);
            if next == behind {
                return Some(behind - 1);
            }
            behind = next;
        }
        None
    }
}

// What is left of a number of units behind whole intervals.
#[inline]
fn remainder(apart: i64, step: i64) -> u64
    requires { pos 0 <ℤ step }
    ensures value { result ≡ unsigned_abs (int_rem_euclid apart step) }
    ensures less { pos result <ℤ step }
{
    apart.rem_euclid(step).unsigned_abs()
}

// Whether a part names a number: it lists it, or it lists none, and the number is the start's own or FREQ is not longer than the part's unit.
#[inline]
fn names_number(set: NumberSet, above: bool, own: u32, number: u32) -> bool
    requires { number < 64 }
    ensures { result ≡ names_number above set own number }
{
    if set.is_empty() {
        !above || number == own
    } else {
        set.contains(number)
    }
}

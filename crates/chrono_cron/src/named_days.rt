//! `MonthDays`: days named by the end, the workdays and the weeks of a month.
//!
//! `L`, `W` and `#` follow the dialect of Quartz. Weekdays count from 0 for Sunday, as in crontab(5), so Friday is `5L` and not `6L`.
ghost use Rattle.std.specs.Prelude.{◌≡◌, ◌+◌, ◌-◌, ◌*◌, ◌/◌, ◌%◌, ◌≤◌, ◌<◌, ◌==◌, ◌&&◌, ℕ, false, IsTrue};
ghost use Rattle.chrono_sets.specs.FiniteSets.{has};
ghost use Rattle.chrono_cron.specs.Due.{is_friday_for, is_last_workday, is_monday_for, is_named_by_place, is_named_by_weekday, is_nearest_workday, no_month_days};

use chrono_sets::NumberSet;

// Monday and Friday, counted from 0 for Sunday, and the day behind the last workday.
const MONDAY: u32 = 1;

const FRIDAY: u32 = 5;

const SATURDAY: u32 = 6;

/// Days of a month, named by its end, its workdays and its weeks.
///
/// Workdays are Monday to Friday. Weekdays count from 0 for Sunday.
#[derive(Clone, Copy, PartialEq, Eq, Debug)]
pub struct MonthDays {
    /// `L` and `L-k`: the day that `k` days of the month follow. 0 is the last day.
    pub from_end: NumberSet,
    /// `kW`: the workday of the month that is nearest to its `k`-th day. A month without a `k`-th day has none.
    pub nearest_workdays: NumberSet,
    /// `LW`: the last workday of the month.
    pub last_workday: bool,
    /// `dL`: the last day of the month with the weekday `d`.
    pub last_weekdays: NumberSet,
    /// `d#k`: the `k`-th day of the month with the weekday `d`. The set has it as the number 7 · (k - 1) + d.
    ///
    /// A month with fewer such days has none.
    pub nth_weekdays: NumberSet,
}

impl MonthDays {
    /// Returns the value that names no day.
    ///
    /// ```
    /// read_schedule(b"0 0 1 * *").ok()?.sets.month_days == MonthDays::none() // true
    /// ```
    #[inline]
    pub fn none() -> MonthDays
        ensures value { result ≡ no_month_days }
        ensures place { (p follow w : ℕ) → is_named_by_place result p follow w ≡ false }
        ensures weekday { (p follow w : ℕ) → is_named_by_weekday result p follow w ≡ false }
    {
        let none = NumberSet::none();
        MonthDays {
            from_end: none,
            nearest_workdays: none,
            last_workday: false,
            last_weekdays: none,
            nth_weekdays: none,
        }
    }

    // Whether no day is named.
    #[inline]
    pub(crate) fn is_none(&self) -> bool
        ensures place { IsTrue result → (p follow w : ℕ) → is_named_by_place self.now p follow w ≡ false }
        ensures weekday { IsTrue result → (p follow w : ℕ) → is_named_by_weekday self.now p follow w ≡ false }
    {
        let all = self
            .from_end
            .union(self.nearest_workdays)
            .union(self.last_weekdays.union(self.nth_weekdays));
        all.is_empty() && !self.last_workday
    }

    // The days of a month, by their places in it, that are named by its end and its workdays.
    // `before` is the weekday of the day before the first.
    pub(crate) fn by_place(&self, length: u32, before: u32) -> NumberSet
        requires long { 28 ≤ length }
        requires short { length ≤ 31 }
        requires before { before < 7 }
        ensures { (k : ℕ) → 1 ≤ k → k ≤ length →
            has result k ≡ is_named_by_place self.now k (length - k) ((k + before) % 7) }
    {
        let nearest = nearest_workdays(self.nearest_workdays, length, before);
        let workdays = if self.last_workday {
            last_workday(length, before).union(nearest)
        } else {
            nearest
        };
        self.from_end.mirrored(length).union(workdays)
    }

    // The same of those that are named by their weekday.
    pub(crate) fn by_weekday(&self, length: u32, before: u32) -> NumberSet
        requires long { 28 ≤ length }
        requires short { length ≤ 31 }
        requires before { before < 7 }
        ensures { (k : ℕ) → 1 ≤ k → k ≤ length →
            has result k ≡ is_named_by_weekday self.now k (length - k) ((k + before) % 7) }
    {
        let last = self
            .last_weekdays
            .every_week(before)
            .between(length - 6, length + 1);
        last.union(nth_weekdays(self.nth_weekdays, before))
    }
}

// The last workday of a month.
#[inline]
fn last_workday(length: u32, before: u32) -> NumberSet
    requires long { 28 ≤ length }
    requires short { length ≤ 31 }
    requires before { before < 7 }
    ensures { (k : ℕ) → 1 ≤ k → k ≤ length →
        has result k ≡ is_last_workday (length - k) ((k + before) % 7) }
{
    let friday = NumberSet::single(FRIDAY)
        .every_week(before)
        .between(length - 2, length + 1);
    let workday = NumberSet::range(MONDAY, SATURDAY)
        .every_week(before)
        .between(length, length + 1);
    friday.union(workday)
}

// The workdays of a month that are nearest to the days asked for.
#[inline]
fn nearest_workdays(asked: NumberSet, length: u32, before: u32) -> NumberSet
    requires long { 28 ≤ length }
    requires short { length ≤ 31 }
    requires before { before < 7 }
    ensures { (k : ℕ) → 1 ≤ k → k ≤ length →
        has result k ≡ is_nearest_workday asked k (length - k) ((k + before) % 7) }
{
    let workdays = NumberSet::range(MONDAY, SATURDAY).every_week(before);
    let others = fridays_for(asked, length, before).union(mondays_for(asked, before));
    workdays.intersection(asked).union(others)
}

// The Fridays that stand for a Saturday, or for the Sunday that ends the month.
#[inline]
fn fridays_for(asked: NumberSet, length: u32, before: u32) -> NumberSet
    requires long { 28 ≤ length }
    requires short { length ≤ 31 }
    requires before { before < 7 }
    ensures { (k : ℕ) → 1 ≤ k → k ≤ length →
        has result k ≡ is_friday_for asked k (length - k) ((k + before) % 7) }
{
    let fridays = NumberSet::single(FRIDAY).every_week(before);
    let saturday = asked.lowered(1).between(0, length);
    let sunday = asked.lowered(2).between(length - 2, length - 1);
    fridays.intersection(saturday.union(sunday))
}

// The Mondays that stand for a Sunday, or for the Saturday that begins the month.
#[inline]
fn mondays_for(asked: NumberSet, before: u32) -> NumberSet
    requires { before < 7 }
    ensures { (k : ℕ) → 1 ≤ k → k < 40 → has result k ≡ is_monday_for asked k ((k + before) % 7) }
{
    let mondays = NumberSet::single(MONDAY).every_week(before);
    let sunday = asked.raised(1).between(2, 40);
    let saturday = asked.raised(2).between(3, 4);
    mondays.intersection(sunday.union(saturday))
}

// The weekdays of a month by how often they came.
#[inline]
fn nth_weekdays(asked: NumberSet, before: u32) -> NumberSet
    requires { before < 7 }
    ensures { (k : ℕ) → 1 ≤ k → k ≤ 35 → has result k ≡ has asked (7 * ((k - 1) / 7) + (k + before) % 7) }
{
    let first = nth_week(asked, 0, before).union(nth_week(asked, 1, before));
    let middle = nth_week(asked, 2, before).union(nth_week(asked, 3, before));
    first.union(middle).union(nth_week(asked, 4, before))
}

// Those of them that so many whole weeks precede.
#[inline]
fn nth_week(asked: NumberSet, weeks: u32, before: u32) -> NumberSet
    requires weeks { weeks < 5 }
    requires before { before < 7 }
    ensures { (k : ℕ) → 1 ≤ k → k ≤ 35 →
        has result k ≡ (has asked (7 * weeks + (k + before) % 7) && ((k - 1) / 7 == weeks)) }
{
    asked
        .lowered(7 * weeks)
        .every_week(before)
        .between(7 * weeks + 1, 7 * weeks + 8)
}

//! `RisingDates`: dates that rise, in the caller's memory, and their search.
ghost use Rattle.std.specs.Prelude.{◌≡◌, ◌↔◌, ◌≤◌, ◌≤ℤ◌, ◌<ℤ◌, ◌-ℤ◌, ℤ, pos, neg_ℤ, false, true, length, IsSome, IfSome, IfNone};
ghost use Rattle.std.specs.List.Sorted.{IsPartitionPoint};
ghost use Rattle.chrono_calendar.specs.Days.{IsDate};
ghost use Rattle.chrono_naive.specs.RisingDates.{AreRising, is_listed};

use crate::datelike::Datelike;
use crate::naive_date::NaiveDate;
use chrono_calendar::ends::{FIRST_DAY, LAST_DAY};
use std::marker::Model;

/// Dates of which each is before the next. They are a slice of the caller's, and a search needs few steps.
///
/// ```
/// let dates = [NaiveDate::from_ymd_opt(2024, 1, 1)?, NaiveDate::from_ymd_opt(2024, 12, 25)?];
/// let holidays = RisingDates::try_new(&dates)?;
/// holidays.first_from(NaiveDate::from_ymd_opt(2024, 1, 2)?) // Some(2024-12-25)
/// ```
#[derive(Drop)]
pub struct RisingDates<'a> {
    dates: &'a [NaiveDate],
}

impl<'a> Model for RisingDates<'a> {
    ghost use Rattle.std.specs.Prelude.{List, ℤ};
    ghost use Rattle.chrono_naive.specs.RisingDates.{AreRising};

    ghost Value = { List ℤ };

    ghost view = { λ r. r.dates.now };

    ghost invariant = { λ r. AreRising r.dates.now };
}

impl<'a> RisingDates<'a> {
    /// Returns the dates of a slice that rises. Requires each date to be before the next.
    ///
    /// [`try_new`](Self::try_new) checks a slice that may not be so.
    ///
    /// ```
    /// RisingDates::new(&[NaiveDate::MIN, NaiveDate::MAX]).contains(NaiveDate::MAX) // true
    /// ```
    #[inline]
    pub fn new(dates: &'a [NaiveDate]) -> RisingDates<'a>
        requires { AreRising dates.now }
        ensures { result ≡ dates.now }
    {
        RisingDates { dates }
    }

    /// Returns the dates of a slice, if they rise.
    ///
    /// Returns `None` if a date is not before the next.
    ///
    /// ```
    /// RisingDates::try_new(&[NaiveDate::MIN, NaiveDate::MIN]).is_none() // true
    /// ```
    pub fn try_new(dates: &'a [NaiveDate]) -> Option<RisingDates<'a>>
        ensures dates { IfSome result (λ r. r ≡ dates.now) }
        ensures checked { IsSome result ↔ AreRising dates.now }
    {
        if are_rising(dates) {
            Some(RisingDates::new(dates))
        } else {
            None
        }
    }

    /// Returns the dates as a slice.
    ///
    /// ```
    /// RisingDates::new(&[NaiveDate::MIN, NaiveDate::MAX]).as_slice().len() // 2
    /// ```
    #[inline]
    pub fn as_slice(&self) -> &'a [NaiveDate]
        ensures { result.now ≡ self.now }
    {
        self.dates
    }

    /// Returns how many of the dates come before the day with the number `day`.
    ///
    /// ```
    /// RisingDates::new(&[NaiveDate::MIN, NaiveDate::MAX]).count_before(0) // 1
    /// ```
    #[inline]
    pub fn count_before(&self, day: i32) -> usize
        ensures bound { result ≤ length self.now }
        ensures place { IsPartitionPoint (λ h. h <ℤ day) (λ h. day ≤ℤ h) self.now result }
    {
        let dates = self.dates;
        let mut place = 0;
        let mut left = dates.len();
        while left > 0 {
            let half = left - left / 2;
            let number = dates[place + half - 1].num_days_from_ce();
            place += step_if_less(half, i64::from(number), i64::from(day));
            left /= 2;
        }
        place
    }

    /// Returns whether `date` is one of the dates.
    ///
    /// ```
    /// RisingDates::new(&[NaiveDate::MIN]).contains(NaiveDate::MAX) // false
    /// ```
    #[inline]
    pub fn contains(&self, date: NaiveDate) -> bool
        ensures { result ≡ is_listed self.now date }
    {
        match self.first_from(date) {
            Some(first) => first.num_days_from_ce() == date.num_days_from_ce(),
            None => false,
        }
    }

    /// Returns the first of the dates that is not before `date`.
    ///
    /// Returns `None` if all are before it.
    ///
    /// ```
    /// RisingDates::new(&[NaiveDate::MIN, NaiveDate::MAX]).first_from(NaiveDate::from_ymd_opt(2024, 1, 1)?) // Some(+262142-12-31)
    /// ```
    #[inline]
    pub fn first_from(&self, date: NaiveDate) -> Option<NaiveDate>
        ensures member { IfSome result (λ e. is_listed self.now e ≡ true) }
        ensures not_before { IfSome result (λ e. date ≤ℤ e) }
        ensures least { IfSome result (λ e. (d : ℤ) → date ≤ℤ d → d <ℤ e → is_listed self.now d ≡ false) }
        ensures none { IfNone result ((d : ℤ) → date ≤ℤ d → is_listed self.now d ≡ false) }
        ensures exists { IfSome result (λ e. IsDate e) }
        ensures in_range { IsDate date }
    {
        let dates = self.dates;
        let place = self.count_before(date.num_days_from_ce());
        if place < dates.len() {
            let first = dates[place];
            prove!(first.num_days_from_ce() <= LAST_DAY);
            Some(first)
        } else {
            None
        }
    }

    /// Returns the last of the dates that is before `date`.
    ///
    /// Returns `None` if none is before it.
    ///
    /// ```
    /// RisingDates::new(&[NaiveDate::MIN, NaiveDate::MAX]).last_before(NaiveDate::MIN) // None
    /// ```
    #[inline]
    pub fn last_before(&self, date: NaiveDate) -> Option<NaiveDate>
        ensures member { IfSome result (λ e. is_listed self.now e ≡ true) }
        ensures before { IfSome result (λ e. e <ℤ date) }
        ensures greatest { IfSome result (λ e. (d : ℤ) → e <ℤ d → d <ℤ date → is_listed self.now d ≡ false) }
        ensures none { IfNone result ((d : ℤ) → d <ℤ date → is_listed self.now d ≡ false) }
        ensures exists { IfSome result (λ e. IsDate e) }
        ensures in_range { IsDate date }
    {
        let dates = self.dates;
        let place = self.count_before(date.num_days_from_ce());
        if place > 0 {
            let last = dates[place - 1];
            prove!(last.num_days_from_ce() >= FIRST_DAY);
            Some(last)
        } else {
            None
        }
    }
}

// Whether each date is before those behind it.
fn are_rising(days: &[NaiveDate]) -> bool
    ensures { (result ≡ true) ↔ AreRising days.now }
{
    let mut place = 1;
    while place < days.len() {
        if days[place].num_days_from_ce() <= days[place - 1].num_days_from_ce() {
            return false;
        }
        place += 1;
    }
    true
}

// Returns `step` if `first` is less than `second`, and else 0.
// It has no branch, since a processor cannot guess which of them is less.
#[inline]
fn step_if_less(step: usize, first: i64, second: i64) -> usize
    requires least { neg_ℤ (pos 10_000_000_000) ≤ℤ (second -ℤ first) }
    requires most { (second -ℤ first) ≤ℤ pos 10_000_000_000 }
    ensures less { first <ℤ second → result ≡ step }
    ensures other { second ≤ℤ first → result ≡ 0 }
    ensures few { result ≤ step }
{
    step * is_less(first, second)
}

// 1 if the first number is less than the second, and else 0.
#[inline]
fn is_less(first: i64, second: i64) -> usize
    requires least { neg_ℤ (pos 10_000_000_000) ≤ℤ (second -ℤ first) }
    requires most { (second -ℤ first) ≤ℤ pos 10_000_000_000 }
    ensures less { first <ℤ second → result ≡ 1 }
    ensures other { second ≤ℤ first → result ≡ 0 }
{
    ((second - first + (HALF - 1)) as u64 / HALF as u64) as usize
}

// A number that is larger than each difference, and half of what an `i64` holds.
const HALF: i64 = 4_611_686_018_427_387_904;

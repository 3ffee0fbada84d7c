//! `Workweek`: the workdays of a week, which are the days that are not on the weekend.
//!
//! They are counted once. Workdays from the first date on are then counted by whole weeks.
ghost use Rattle.std.specs.Prelude.{◌≡◌, ◌<◌, ◌≤◌, true, pos, ◌+ℤ◌};
ghost use Rattle.chrono_datetime.specs.Recurrence.{count_where, first_date};
ghost use Rattle.chrono_business.specs.OpenDays.{is_workday};
ghost use Rattle.chrono_business.specs.Workweeks.{AreCounts, AreWorkdays};

use chrono_datetime::{Datelike, NaiveDate, Weekday, WeekdaySet};
use std::marker::Model;

// The weekday of the first date.
const FIRST_WEEKDAY: Weekday = Weekday::Thu;

// A weekend, with the counts of the week that begins on the weekday of the first date. Contracts see the weekend.
#[derive(Drop)]
pub(crate) struct Workweek {
    weekend: WeekdaySet,
    // How many of the first days of the week are workdays, by their number.
    counts: [u8; 8],
    // The workdays of the week, each by the days before it.
    workdays: [u8; 7],
}

impl Model for Workweek {
    ghost use Rattle.chrono_datetime.specs.WeekdaySet.{DaySet};
    ghost use Rattle.chrono_business.specs.Workweeks.{AreCounts, AreWorkdays};

    ghost Value = { DaySet };

    ghost view = { λ w. w.weekend };

    ghost invariant = { λ w. AreCounts w.weekend w.counts × AreWorkdays w.weekend w.workdays };
}

impl Workweek {
    // The week with that weekend.
    #[inline]
    pub(crate) fn new(weekend: WeekdaySet) -> Workweek
        ensures { result ≡ weekend }
    {
        Workweek {
            weekend,
            counts: counts_of(weekend),
            workdays: workdays_of(weekend),
        }
    }

    // The weekend.
    #[inline]
    pub(crate) fn weekend(&self) -> WeekdaySet
        ensures { result ≡ self.now }
    {
        self.weekend
    }

    // Whether the date is not on the weekend.
    #[inline]
    pub(crate) fn is_workday(&self, date: NaiveDate) -> bool
        ensures { result ≡ is_workday self.now date }
    {
        !self.weekend.contains(date.weekday())
    }

    // How many of so many days from the first date on are workdays.
    #[inline]
    pub(crate) fn workdays(&self, days: u32) -> u32
        ensures counted { result ≡ count_where (is_workday self.now) days first_date }
        ensures few { result ≤ days }
    {
        days / 7 * self.workdays_of_week() + self.first_workdays(days % 7)
    }

    // How many days of a week are workdays.
    #[inline]
    pub(crate) fn workdays_of_week(&self) -> u32
        ensures counted { result ≡ count_where (is_workday self.now) 7 first_date }
        ensures few { result ≤ 7 }
    {
        self.first_workdays(7)
    }

    // How many of the first days of a week are workdays.
    #[inline]
    fn first_workdays(&self, days: u32) -> u32
        requires { days ≤ 7 }
        ensures counted { result ≡ count_where (is_workday self.now) days first_date }
        ensures few { result ≤ days }
    {
        u32::from(self.counts[days as usize])
    }

    // The days from the first date to the workday of its week that has so many workdays before it there.
    #[inline]
    pub(crate) fn days_to_workday(&self, place: u32) -> u32
        requires { place < count_where (is_workday self.now) 7 first_date }
        ensures workday { is_workday self.now (first_date +ℤ pos result) ≡ true }
        ensures counted { count_where (is_workday self.now) result first_date ≡ place }
        ensures near { result < 7 }
    {
        u32::from(self.workdays[place as usize])
    }
}

// How many of the first days of a week are workdays, day by day.
fn counts_of(weekend: WeekdaySet) -> [u8; 8]
    ensures { AreCounts weekend result }
{
    let mut counts = [0; 8];
    let mut weekday = FIRST_WEEKDAY;
    let mut count = 0;
    for day in 0..7 {
        if !weekend.contains(weekday) {
            count += 1;
        }
        counts[day + 1] = count;
        weekday = weekday.succ();
    }
    counts
}

// The workdays of a week, each by the days before it.
fn workdays_of(weekend: WeekdaySet) -> [u8; 7]
    ensures { AreWorkdays weekend result }
{
    let mut workdays = [0; 7];
    let mut weekday = FIRST_WEEKDAY;
    let mut count = 0;
    for day in 0..7u8 {
        if !weekend.contains(weekday) {
            workdays[count] = day;
            count += 1;
        }
        weekday = weekday.succ();
    }
    workdays
}

//! Walks over dates: a loop by steps, loops and chains over the dates from one on, day after day and week after week.
//!
//! A week of work is the set of its weekdays.
ghost use Rattle.std.specs.Prelude.{◌≡◌, ℤ, ◌≤ℤ◌, ◌<ℤ◌, IfSome, IfNone, IsTrue, false, count_by, filter, length, take};
ghost use Rattle.chrono_datetime.specs.DateLists.{days_from, weeks_from};
ghost use Rattle.chrono_datetime.specs.Days.{IsDate};
ghost use Rattle.chrono_datetime.specs.Recurrence.{dates_left};
ghost use Rattle.chrono_uses.specs.Workdays.{is_in_year, is_day_of_work};

use chrono_datetime::{Datelike, NaiveDate, WeekdaySet};

/// Whether a date is worked.
#[tactic(auto, unfolding(crate::specs::Workdays::is_day_of_work))]
pub fn is_worked(date: NaiveDate, week: WeekdaySet) -> bool
    ensures { result ≡ is_day_of_work week date }
{
    week.contains(date.weekday())
}

/// The first workday not before a date; `None` exactly if no date from that one on is worked.
pub fn next_workday(date: NaiveDate, week: WeekdaySet) -> Option<NaiveDate>
    ensures worked { IfSome result (λ e. IsTrue (is_day_of_work week e)) }
    ensures not_before { IfSome result (λ e. date ≤ℤ e) }
    ensures least { IfSome result (λ e. (d : ℤ) → date ≤ℤ d → d <ℤ e → is_day_of_work week d ≡ false) }
    ensures none { IfNone result ((d : ℤ) → date ≤ℤ d → IsDate d → is_day_of_work week d ≡ false) }
{
    let mut days = date.iter_days();
    while let Some(day) = days.step() {
        if is_worked(day, week) {
            return Some(day);
        }
    }
    None
}

/// How many workdays there are from a date on, up to the last date.
pub fn workdays_left(date: NaiveDate, week: WeekdaySet) -> u32
    ensures { result ≡ count_by (λ n. is_day_of_work week n) (days_from date) }
{
    let mut count = 0;
    for day in date.iter_days() {
        if is_worked(day, week) {
            count += 1;
        }
    }
    count
}

/// How many of so many dates from one on are workdays.
pub fn workdays_of(date: NaiveDate, days: usize, week: WeekdaySet) -> usize
    ensures { result ≡ length (filter (λ n. is_day_of_work week n) (take days (days_from date))) }
{
    date.iter_days()
        .take(days)
        .filter(|day| is_worked(*day, week))
        .count()
}

/// How many dates there are from one on, itself counted.
pub fn dates_from(date: NaiveDate) -> usize
    ensures { result ≡ dates_left date }
{
    date.iter_days().count()
}

/// How many whole weeks there are from a date on, walked through.
pub fn weeks_walked(date: NaiveDate) -> u32
    ensures { result ≡ length (weeks_from date) }
{
    let mut weeks = 0;
    let mut dates = date.iter_weeks();
    while let Some(_) = dates.next() {
        weeks += 1;
    }
    weeks
}

/// How many whole weeks there are from a date on.
pub fn weeks_left(date: NaiveDate) -> usize
    ensures { result ≡ length (weeks_from date) }
{
    date.iter_weeks().len()
}

// Whether a date is in a year.
#[tactic(auto, unfolding(crate::specs::Workdays::is_in_year))]
fn is_of_year(date: NaiveDate, year: i32) -> bool
    ensures { result ≡ is_in_year year date }
{
    date.year() == year
}

/// How many of the dates, week after week from one on, are in a year.
pub fn weekly_in_year(date: NaiveDate, year: i32) -> usize
    ensures { result ≡ length (filter (λ n. is_in_year year n) (weeks_from date)) }
{
    date.iter_weeks()
        .filter(|day| is_of_year(*day, year))
        .count()
}

//! The search for a due second in the years of a set.
ghost use Rattle.std.specs.Prelude.{◌≡◌, ◌≤ℤ◌, ◌<ℤ◌, ◌-ℤ◌, pos, ℤ, IfSome, IfNone, IsTrue};
ghost use Rattle.chrono_datetime.specs.Days.{year_of};
ghost use Rattle.chrono_datetime.specs.Moment.{IsBefore, IsMoment, Moment, moment};
ghost use Rattle.chrono_datetime.specs.Time.{IsPlain};
ghost use Rattle.timed_cron.specs.Private.{IsDueIn, IdleInYearsAfter, IdleInYearsBefore, IdleInYearsBetween};

use crate::timed_schedule::TimedSchedule;
use crate::year_set::YearSet;
use chrono_datetime::law::date_times_exist;
use chrono_datetime::{Datelike, LAST_DAY, NaiveDate, NaiveDateTime, NaiveTime, SECS_PER_DAY};

// The last nanosecond of a day, which is one of a leap second.
const LAST_NANO: u32 = 1_999_999_999;

impl TimedSchedule {
    // The first moment after a start, in a year of the set, at which the schedule is due.
    pub(crate) fn next_in_years(
        &self,
        years: YearSet,
        start: NaiveDateTime,
    ) -> Option<NaiveDateTime>
        ensures due { IfSome result (λ m. IsDueIn self.now years m) }
        ensures later { IfSome result (λ m. IsBefore start m) }
        ensures plain { IfSome result (λ m. IsPlain m.time) }
        ensures least { IfSome result (λ m. IdleInYearsBetween self.now years start m) }
        ensures none { IfNone result (IdleInYearsAfter self.now years start) }
    {
        date_times_exist(start);
        let mut from = start;
        let mut year = start.date().year();
        loop {
            let Some(next) = self.next_in_any_year(from) else {
                return None;
            };
            date_times_exist(next);
            let found = next.date().year();
            if years.contains(found) {
                return Some(next);
            }
            let Some(listed) = years.first_from(found + 1) else {
                return None;
            };
            year = listed;
            from = end_before_year(year);
        }
    }

    // The last moment before a start, in a year of the set, at which the schedule is due.
    pub(crate) fn prev_in_years(
        &self,
        years: YearSet,
        start: NaiveDateTime,
    ) -> Option<NaiveDateTime>
        ensures due { IfSome result (λ m. IsDueIn self.now years m) }
        ensures earlier { IfSome result (λ m. IsBefore m start) }
        ensures plain { IfSome result (λ m. IsPlain m.time) }
        ensures greatest { IfSome result (λ m. IdleInYearsBetween self.now years m start) }
        ensures none { IfNone result (IdleInYearsBefore self.now years start) }
    {
        date_times_exist(start);
        let mut from = start;
        let mut year = start.date().year();
        loop {
            let Some(previous) = self.prev_in_any_year(from) else {
                return None;
            };
            date_times_exist(previous);
            let found = previous.date().year();
            if years.contains(found) {
                return Some(previous);
            }
            let Some(listed) = years.last_to(found - 1) else {
                return None;
            };
            year = listed;
            from = beginning_after_year(year);
        }
    }
}

// The last moment before a year begins.
fn end_before_year(year: i32) -> NaiveDateTime
    requires first { pos 1_970 ≤ℤ year }
    requires last { year ≤ℤ pos 2_099 }
    ensures after { (m : Moment) → IsMoment m → IsBefore result m → year ≤ℤ year_of m.date }
    ensures all { (m : Moment) → IsMoment m → year ≤ℤ year_of m.date → IsBefore result m }
{
    end_of_day(day_before(first_of_year(year)))
}

// The first moment behind the end of a year.
fn beginning_after_year(year: i32) -> NaiveDateTime
    requires first { pos 1_970 ≤ℤ year }
    requires last { year ≤ℤ pos 2_099 }
    ensures before { (m : Moment) → IsMoment m → IsBefore m result → year_of m.date ≤ℤ year }
    ensures all { (m : Moment) → IsMoment m → year_of m.date ≤ℤ year → IsBefore m result }
{
    midnight(first_of_year(year + 1))
}

// The day before a date.
fn day_before(date: NaiveDate) -> NaiveDate
    requires large { pos 1 ≤ℤ date }
    requires small { date ≤ℤ pos 95_745_399 }
    ensures { result ≡ date -ℤ pos 1 }
{
    date.pred_opt().unwrap()
}

// The last moment of a date, which is one of a leap second.
fn end_of_day(date: NaiveDate) -> NaiveDateTime
    ensures { result ≡ moment date (record { second = 86_399; fraction = 1_999_999_999 }) }
{
    let time = NaiveTime::from_num_seconds_from_midnight_opt(SECS_PER_DAY - 1, LAST_NANO).unwrap();
    NaiveDateTime::new(date, time)
}

// The first moment of a date.
fn midnight(date: NaiveDate) -> NaiveDateTime
    ensures { result ≡ moment date (record { second = 0; fraction = 0 }) }
{
    NaiveDateTime::new(
        date,
        NaiveTime::from_num_seconds_from_midnight_opt(0, 0).unwrap(),
    )
}

// 1 January of a year.
fn first_of_year(year: i32) -> NaiveDate
    requires first { pos 1_970 ≤ℤ year }
    requires last { year ≤ℤ pos 2_100 }
    ensures large { pos 1 ≤ℤ result }
    ensures small { result ≤ℤ pos 95_745_399 }
    ensures from { (n : ℤ) → result ≤ℤ n → year ≤ℤ year_of n }
    ensures all { (n : ℤ) → year ≤ℤ year_of n → result ≤ℤ n }
{
    let date = NaiveDate::from_yo_opt(year, 1).unwrap();
    prove!(date.num_days_from_ce() <= LAST_DAY);
    date
}

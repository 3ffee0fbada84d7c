//! Open days between days that lie many years apart, without a list of all holidays between them.
//!
//! Behind the last year in which a rule changes the rules that go by months and weekdays close the same days every 400 years, which are
//! whole weeks. Easter has no such period that the calendar holds, so the days that go by it are found year by year.

use crate::prelude::*;
use chrono_business::{Calendar, HolidayDay, HolidayRule, Moved, easter};

// So many days have 400 years.
const CYCLE: i64 = 146_097;

// Holidays of no more years than so many are listed.
const MOST_LISTED: i32 = 1_000;

// Open days up to so many are found in a list at once.
const MOST_NEAR: u64 = 40_000;

// After so many turns at most few are left: each of them passes half of those that are left, or more.
const MOST_TURNS: u32 = 16;

// Behind this year no equinox is a holiday.
const LAST_EQUINOX: i32 = 2_099;

impl Holidays {
    // How many days are open from one day to another, fewer than none where that goes back. The earlier day counts, and the later does not.
    pub(crate) fn open_days(
        &mut self,
        alloc: Global,
        from: NaiveDate,
        to: NaiveDate,
    ) -> io::Result<i64> {
        let years = years_of(from, to);
        if years.last.saturating_sub(years.first) <= MOST_LISTED {
            return self.listed_count(from, to);
        }
        let (first, last) = (from.min(to), from.max(to));
        let Some((begin, end)) = self.steady_days(first, last) else {
            return self.listed_count(from, to);
        };
        let steady = self.steady_count(alloc, begin, end)?;
        let before = self.listed_count(first, begin)?;
        let behind = self.listed_count(end, last)?;
        let count = steady.saturating_add(before).saturating_add(behind);
        Ok(if to < from {
            count.saturating_neg()
        } else {
            count
        })
    }

    // The same by a list of the holidays of all years.
    fn listed_count(&mut self, from: NaiveDate, to: NaiveDate) -> io::Result<i64> {
        Ok(self.calendar(years_of(from, to))?.open_days(from, to))
    }

    // The part of the days from one to another in which no rule begins or ends, if it has 800 years or more.
    fn steady_days(&self, first: NaiveDate, last: NaiveDate) -> Option<(NaiveDate, NaiveDate)> {
        let mut year = FIRST_YEAR;
        for rule in self.rules.as_slice() {
            if goes_by_easter(rule) && !matches!(rule.moved, Moved::Stays) {
                return None;
            }
            year = year.max(last_change(rule));
        }
        let begin = NaiveDate::from_ymd_opt(year.saturating_add(2), 1, 1)?.max(first);
        let end = NaiveDate::from_ymd_opt(LAST_YEAR - 1, 1, 1)?.min(last);
        if days_apart(begin, end) < 2 * CYCLE {
            return None;
        }
        Some((begin, end))
    }

    // How many days are open from one day to another, between which no rule begins or ends.
    fn steady_count(&self, alloc: Global, begin: NaiveDate, end: NaiveDate) -> io::Result<i64> {
        let mut fixed = Holidays::of_weekend(alloc, self.weekend);
        let mut behind_easter: Vec<i64> = Vec::new(alloc);
        for rule in self.rules.as_slice() {
            match rule.day {
                _ if rule.last_year < LAST_YEAR => {}
                HolidayDay::EasterPlus(days) => behind_easter.push(i64::from(days))?,
                _ => fixed.rules.push(*rule)?,
            }
        }
        behind_easter.as_mut_slice().sort_unstable();
        behind_easter.dedup();
        let (first, last) = (begin.year(), begin.year().saturating_add(400));
        let steady = SteadyDays {
            begin,
            end,
            calendar: fixed.calendar(Years { first, last })?,
        };
        let by_list = steady.closed_by_list(self.listed.as_slice(), behind_easter.as_slice());
        let by_easter = steady.closed_by_easter(behind_easter.as_slice());
        let count = steady.count().saturating_sub(by_easter);
        Ok(count.saturating_sub(by_list))
    }

    // The day so many open days from another, or why there is none. From a closed day the next open day counts as the first.
    pub(crate) fn open_days_on(
        &mut self,
        alloc: Global,
        date: NaiveDate,
        count: i64,
    ) -> io::Result<Result<NaiveDate, &'static str>> {
        if count.unsigned_abs() <= MOST_NEAR || self.rules.is_empty() {
            return self.listed_on(date, count);
        }
        let mut at = self.open_from(date)?;
        let mut left = count;
        if count > 0 && at != date {
            left = count.saturating_sub(1);
        }
        for _ in 0..MOST_TURNS {
            if left.unsigned_abs() <= MOST_NEAR {
                break;
            }
            let next = match at.moved_by_days(self.days_within(left)) {
                Some(next) if self.knows(next) => next,
                Some(_) => return Ok(Err(UNKNOWN)),
                None => return Ok(Err(PAST)),
            };
            left = left.saturating_sub(self.open_days(alloc, at, next)?);
            at = next;
        }
        let open = self.open_from(at)?;
        self.listed_on(open, left)
    }

    // The same by a list of the holidays of all years that the answer can touch.
    fn listed_on(
        &mut self,
        date: NaiveDate,
        count: i64,
    ) -> io::Result<Result<NaiveDate, &'static str>> {
        let years = years_of_open_days(date, count, self.listed.len());
        Ok(self.calendar(years)?.add_open_days(date, count).ok_or(PAST))
    }

    // The first open day from a day on; the day itself where the calendar has none.
    fn open_from(&mut self, day: NaiveDate) -> io::Result<NaiveDate> {
        let open = self.calendar(years_of(day, day))?.next_open(day);
        Ok(open.unwrap_or(day))
    }

    // So many days, in whole weeks, that no more open days than a number lie in them.
    fn days_within(&self, count: i64) -> i64 {
        let workdays = 7i64.saturating_sub(i64::from(self.weekend.len()));
        let weeks = count.checked_div(workdays).unwrap_or(0);
        let weeks = weeks.saturating_sub(count.signum());
        weeks.saturating_mul(7)
    }
}

/// Days between which no rule of holidays begins or ends, with the calendar of the first 400 years of them, but for Easter.
#[derive(Drop)]
struct SteadyDays<'a> {
    begin: NaiveDate,
    end: NaiveDate,
    calendar: Calendar<'a>,
}

impl SteadyDays<'_> {
    // How many of them are open, but for Easter.
    fn count(&self) -> i64 {
        let days = days_apart(self.begin, self.end);
        let cycles = days / CYCLE;
        let of_cycle = self.count_first(CYCLE);
        let of_rest = self.count_first(days % CYCLE);
        of_cycle.saturating_mul(cycles).saturating_add(of_rest)
    }

    // How many of the first days, at most 400 years, are open.
    fn count_first(&self, days: i64) -> i64 {
        let end = self.begin.moved_by_days(days).unwrap_or(self.begin);
        self.calendar.open_days(self.begin, end)
    }

    // Whether a day is one of them and open, but for Easter.
    fn has_open(&self, day: NaiveDate) -> bool {
        if day < self.begin || self.end <= day {
            return false;
        }
        let cycles = days_apart(self.begin, day) / CYCLE;
        match day.moved_by_days(cycles.saturating_mul(-CYCLE)) {
            Some(like) => self.calendar.is_open(like),
            None => false,
        }
    }

    // How many of the open ones are so many days behind an Easter.
    fn closed_by_easter(&self, behind_easter: &[i64]) -> i64 {
        let mut count: i64 = 0;
        if behind_easter.is_empty() {
            return count;
        }
        let first = self.begin.year().saturating_sub(1);
        let last = self.end.year().saturating_add(1);
        for year in first..=last {
            if let Some(sunday) = easter(year) {
                count = count.saturating_add(self.count_behind(sunday, behind_easter));
            }
        }
        count
    }

    // How many of the open ones are so many days behind a day.
    fn count_behind(&self, sunday: NaiveDate, behind_easter: &[i64]) -> i64 {
        let mut count: i64 = 0;
        for days in behind_easter {
            if let Some(day) = sunday.moved_by_days(*days) {
                if self.has_open(day) {
                    count = count.saturating_add(1);
                }
            }
        }
        count
    }

    // How many of the open ones are in a list, and not so many days behind an Easter.
    fn closed_by_list(&self, listed: &[NaiveDate], behind_easter: &[i64]) -> i64 {
        let mut count: i64 = 0;
        for day in listed {
            if self.has_open(*day) && !is_behind_easter(*day, behind_easter) {
                count = count.saturating_add(1);
            }
        }
        count
    }
}

// Whether a day is so many days behind the Easter of its year, or of the year before or after.
fn is_behind_easter(day: NaiveDate, behind_easter: &[i64]) -> bool {
    let first = day.year().saturating_sub(1);
    let last = day.year().saturating_add(1);
    for year in first..=last {
        if let Some(sunday) = easter(year) {
            if behind_easter.contains(&days_apart(sunday, day)) {
                return true;
            }
        }
    }
    false
}

// Whether a rule goes by Easter.
fn goes_by_easter(rule: &HolidayRule) -> bool {
    matches!(rule.day, HolidayDay::EasterPlus(_))
}

// The last year in which a rule begins or ends, but for that of the calendar.
fn last_change(rule: &HolidayRule) -> i32 {
    match rule.day {
        HolidayDay::VernalEquinox | HolidayDay::AutumnalEquinox => LAST_EQUINOX,
        _ if rule.last_year < LAST_YEAR => rule.last_year,
        _ => rule.first_year,
    }
}

// How many days lie between two, the earlier first.
fn days_apart(first: NaiveDate, last: NaiveDate) -> i64 {
    i64::from(last.num_days_from_ce()).saturating_sub(i64::from(first.num_days_from_ce()))
}

//! The weekend, the rules of a calendar, and the years in which its holidays are wanted.

use crate::prelude::*;
use chrono_business::HolidayRule;
use chrono_datetime::WeekdaySet;

impl Asked<'_> {
    // The weekend that a word names: `none`, or at most two weekdays.
    pub(crate) fn weekend(&mut self, word: Word<'_>) -> WeekdaySet {
        match weekdays_named(word.text) {
            Some(days) if days.len() <= 2 => return days,
            _ => self.wrong(word, "expected none, or at most two weekdays as fri,sat"),
        }
        WeekdaySet::EMPTY
    }

    // The weekdays that a word names.
    pub(crate) fn weekdays(&mut self, word: Word<'_>) -> WeekdaySet {
        let days = weekdays_named(word.text);
        if days.is_none() {
            self.wrong(word, "expected weekdays as fri,sat");
        }
        days.unwrap_or(WeekdaySet::EMPTY)
    }
}

// The weekdays that a text names: `none`, or some with commas between them, and those from one to another as `mon-fri`.
fn weekdays_named(text: &str) -> Option<WeekdaySet> {
    let mut days = WeekdaySet::EMPTY;
    if text == "none" {
        return Some(days);
    }
    for name in text.split(',') {
        days = days.union(match name.split_once('-') {
            Some((first, last)) => weekdays_from(weekday_named(first)?, weekday_named(last)?),
            None => WeekdaySet::single(weekday_named(name)?),
        });
    }
    Some(days)
}

// The weekdays from one to another, also over the end of the week.
fn weekdays_from(first: Weekday, last: Weekday) -> WeekdaySet {
    let mut days = WeekdaySet::single(last);
    let mut day = first;
    for _ in 0..6 {
        if day == last {
            break;
        }
        days = days.union(WeekdaySet::single(day));
        day = day.succ();
    }
    days
}

/// The first and the last of some years.
#[derive(Clone, Copy)]
pub(crate) struct Years {
    pub first: i32,
    pub last: i32,
}

// The years from one day's to another's.
pub(crate) fn years_of(from: NaiveDate, to: NaiveDate) -> Years {
    Years {
        first: from.year().min(to.year()),
        last: from.year().max(to.year()),
    }
}

// At least this many days are open in each year if no file closes any. They are 365, less two weekdays of 53 weeks, less the 146
// rules of all calendars.
const OPEN_DAYS_OF_A_YEAR: u64 = 113;

// No more years lie between two dates.
const MOST_YEARS: i32 = 600_000;

// The years up to which so many open days lead from a day, where a file lists so many days: each of these closes one more at most.
pub(crate) fn years_of_open_days(date: NaiveDate, count: i64, listed: usize) -> Years {
    let days = count.unsigned_abs().saturating_add(listed as u64);
    let years = i32::try_from(days / OPEN_DAYS_OF_A_YEAR + 1).unwrap_or(MOST_YEARS);
    let (back, on) = if count < 0 { (years, 0) } else { (0, years) };
    Years {
        first: date.year().saturating_sub(back),
        last: date.year().saturating_add(on),
    }
}

// No more years than so many are kept from line to line.
const KEPT_YEARS: i32 = 400;

// The years from the first of both to the last of both, where these are not too many to keep, and else the second years alone.
pub(crate) fn both_years(known: Years, years: Years) -> Years {
    let first = known.first.min(years.first);
    let last = known.last.max(years.last);
    if last.saturating_sub(first) <= KEPT_YEARS {
        Years { first, last }
    } else {
        years
    }
}

// The years of the calendar.
pub(crate) const FIRST_YEAR: i32 = -262_143;

pub(crate) const LAST_YEAR: i32 = 262_142;

// Puts the dates of rules in these years, in the years of days that are listed, and in a year before and behind them into the list
// of these.
pub(crate) fn put_ruled(
    rules: &[HolidayRule],
    years: Years,
    days: &mut Vec<NaiveDate>,
) -> io::Result<()> {
    let (mut first, mut last) = (years.first, years.last);
    for day in days.as_slice() {
        first = first.min(day.year());
        last = last.max(day.year());
    }
    let first = first.saturating_sub(1).max(FIRST_YEAR);
    let last = last.saturating_add(1).min(LAST_YEAR);
    for year in first..=last {
        for rule in rules {
            if let Some(day) = rule.date_in(year) {
                days.push(day)?;
            }
        }
    }
    Ok(())
}

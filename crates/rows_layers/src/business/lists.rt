//! Lists of holidays: those of rules, those left without weekends, and those of two calendars joined.
ghost use Rattle.std.specs.Prelude.{◌≤◌, IfSome};

use crate::date_of;
use chrono_business::{Calendar, HolidayDay, HolidayRule, Moved, holidays_of, without_weekends};
use chrono_datetime::{Datelike, MIN_DATE, Month, NaiveDate, Weekday, WeekdaySet};
use std::str::SplitAsciiWhitespace;

// How many holidays a list of a row may have.
const ROOM: usize = 800;

// The rule of a line: a kind with three numbers, where the holiday goes from a weekend, and two years.
pub fn rule_of(words: &str) -> Option<HolidayRule> {
    let words = &mut words.split_ascii_whitespace();
    let kind = words.next()?;
    let (first, second, third) = (signed(words)?, unsigned(words)?, unsigned(words)?);
    Some(HolidayRule {
        day: day_of(kind, first, second, third)?,
        moved: moved_of(words.next()?)?,
        first_year: signed(words)?,
        last_year: signed(words)?,
    })
}

fn signed(words: &mut SplitAsciiWhitespace<'_>) -> Option<i32> {
    words.next()?.parse().ok()
}

fn unsigned(words: &mut SplitAsciiWhitespace<'_>) -> Option<u32> {
    words.next()?.parse().ok()
}

// The number of places of a list.
fn places(words: &mut SplitAsciiWhitespace<'_>) -> Option<usize>
    ensures few { IfSome result (λ places. places ≤ ROOM) }
{
    let places = words.next()?.parse().ok()?;
    if places <= ROOM { Some(places) } else { None }
}

fn day_of(kind: &str, first: i32, second: u32, third: u32) -> Option<HolidayDay> {
    match kind {
        "fixed" => Some(HolidayDay::Fixed(month_of(third), second)),
        "nth" => {
            let n = u8::try_from(first).ok()?;
            Some(HolidayDay::NthWeekday(n, weekday_of(second), month_of(third)))
        }
        "last" => Some(HolidayDay::LastWeekday(weekday_of(second), month_of(third))),
        "easter" => Some(HolidayDay::EasterPlus(first)),
        "vernal_equinox" => Some(HolidayDay::VernalEquinox),
        "autumnal_equinox" => Some(HolidayDay::AutumnalEquinox),
        _ => None,
    }
}

fn moved_of(name: &str) -> Option<Moved> {
    match name {
        "stays" => Some(Moved::Stays),
        "sunday_to_monday" => Some(Moved::SundayToMonday),
        "to_monday" => Some(Moved::ToMonday),
        "to_nearer" => Some(Moved::ToNearer),
        "two_days_on" => Some(Moved::TwoDaysOn),
        "sunday_plus_3" => Some(Moved::SundayPlus(3)),
        _ => None,
    }
}

// The weekday so many days after Monday.
fn weekday_of(days: u32) -> Weekday {
    let mut weekday = Weekday::Mon;
    for _ in 0..days % 7 {
        weekday = weekday.succ();
    }
    weekday
}

// The month so many months after January.
fn month_of(months: u32) -> Month {
    let mut month = Month::January;
    for _ in 0..months % 12 {
        month = month.succ();
    }
    month
}

// The holidays of the rules in so many years in a slice of so many places, weighed by their places from 1 on.
pub fn listed(rules: &[HolidayRule], weekend: WeekdaySet, words: &str) -> Option<i64> {
    let words = &mut words.split_ascii_whitespace();
    let (first, last) = (signed(words)?, signed(words)?);
    let room = places(words)?;
    let mut out = [MIN_DATE; ROOM];
    let count = holidays_of(rules, first, last, weekend, &mut out[..room])?;
    Some(weighed(&out[..count]))
}

// The days of a list that are not on the weekend, weighed by their places.
pub fn left(weekend: WeekdaySet, days: &[NaiveDate]) -> Option<i64> {
    let mut out = [MIN_DATE; ROOM];
    if days.len() > ROOM {
        return None;
    }
    out[..days.len()].copy_from_slice(days);
    let count = without_weekends(weekend, &mut out[..days.len()]);
    Some(weighed(&out[..count]))
}

// The open days between two dates of two calendars joined in a slice of so many places.
pub fn joined(first: &Calendar<'_>, second: &Calendar<'_>, words: &str) -> Option<i64> {
    let words = &mut words.split_ascii_whitespace();
    let from = date_of(words.next()?)?;
    let to = date_of(words.next()?)?;
    let room = places(words)?;
    let mut out = [MIN_DATE; ROOM];
    let both = first.joined(second, &mut out[..room])?;
    Some(both.open_days(from, to))
}

fn weighed(days: &[NaiveDate]) -> i64 {
    let (mut sum, mut place) = (0i64, 0i64);
    for day in days {
        place = place.wrapping_add(1);
        sum = sum.wrapping_add(place.wrapping_mul(i64::from(day.num_days_from_ce())));
    }
    sum
}

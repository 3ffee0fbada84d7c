//! Rows of calls on the calendar of the last row that names one.
//!
//! A row is a calendar, as `calendar 1111100 738886 738900`: of each weekday from Monday on whether it is worked, and the
//! holidays. Or it is `call numbers = answer`, as `add 738886 3 = 738890`. A date is its day number, a count has a sign, a
//! roll is a word, and `none` is no date. On a calendar that is refused a row is `refused on_weekend 2`: what is wrong, and
//! at which place of the list.
//!
//! Rows `rule ..` are rules of holidays, and a row `rules` forgets those before it. A row `other ..` is a second calendar.
//! Three calls are answered by lists, two of them of as many places as their last number says (see `lists`):
//!
//! - `listed 2020 2030 99 = 12`, by the holidays of the rules;
//! - `left = 12`, by the list of the calendar without weekends;
//! - `joined 738886 738900 99 = 12`, by the two calendars joined.

mod lists;
mod named;
mod rules;

use chrono_business::{
    Calendar, HolidayError, Roll, actual_360, actual_actual_isda, thirty_360, thirty_e_360,
};
use chrono_datetime::{Datelike, NaiveDate};
pub use named::Named;

// Whether the line says what is wrong with the holidays.
pub(crate) fn is_refused(wrong: HolidayError, line: &str) -> bool {
    let (name, place) = match wrong {
        HolidayError::NotRising(place) => ("refused not_rising ", place),
        HolidayError::OnWeekend(place) => ("refused on_weekend ", place),
    };
    match line.strip_prefix(name) {
        Some(number) => number.parse() == Ok(place),
        None => false,
    }
}

// What the call answers, a date by its number and a day count by its numerator.
pub(crate) fn answer_of(
    calendar: &Calendar<'_>,
    name: &str,
    date: NaiveDate,
    last: &str,
) -> Option<i64> {
    if let Some(found) = found(calendar, name, date) {
        return number_of(found);
    }
    match name {
        "is_open" => Some(i64::from(calendar.is_open(date))),
        "add" => number_of(calendar.add_open_days(date, last.parse().ok()?)),
        "add_from_next" => number_of(calendar.add_open_days_from_next(date, last.parse().ok()?)),
        "add_from_previous" => {
            number_of(calendar.add_open_days_from_previous(date, last.parse().ok()?))
        }
        "nth_of_month" => number_of(calendar.nth_open_of_month(date, last.parse().ok()?)),
        "nth_last_of_month" => number_of(calendar.nth_last_open_of_month(date, last.parse().ok()?)),
        _ => with_number(calendar, name, date, last.parse().ok()?),
    }
}

// The date that is found from a date alone.
fn found(calendar: &Calendar<'_>, name: &str, date: NaiveDate) -> Option<Option<NaiveDate>> {
    Some(match name {
        "next" => calendar.next_open(date),
        "last" => calendar.last_open(date),
        "first_of_month" => calendar.first_open_of_month(date),
        "last_of_month" => calendar.last_open_of_month(date),
        _ => calendar.roll(date, roll_of(name)?),
    })
}

// What is answered of a date and a number, which is a year or a second date.
fn with_number(calendar: &Calendar<'_>, name: &str, date: NaiveDate, number: i32) -> Option<i64> {
    if let Some(count) = rules::answer_of(name, date, number) {
        return Some(count);
    }
    let to = NaiveDate::from_num_days_from_ce_opt(number)?;
    if let Some(numerator) = counted(name, date, to) {
        return Some(numerator);
    }
    Some(match name {
        "count" => calendar.open_days(date, to),
        "both" => calendar.open_days_inclusive(date, to),
        "each" => weighed(calendar, date, to),
        "each_back" => weighed_back(calendar, date, to),
        _ => return None,
    })
}

// The days between two dates by a day count.
fn counted(name: &str, from: NaiveDate, to: NaiveDate) -> Option<i64> {
    Some(match name {
        "actual_actual" => actual_actual_isda(from, to).numerator,
        "actual_360" => actual_360(from, to).numerator,
        "thirty_360" => thirty_360(from, to).numerator,
        "thirty_e_360" => thirty_e_360(from, to).numerator,
        _ => return None,
    })
}

// The numbers of the open days between two dates, the first of them once, the second twice and so on.
fn weighed(calendar: &Calendar<'_>, from: NaiveDate, to: NaiveDate) -> i64 {
    let (mut sum, mut place) = (0i64, 0i64);
    for day in calendar.iter_open_days(from, to) {
        place = place.wrapping_add(1);
        sum = sum.wrapping_add(place.wrapping_mul(i64::from(day.num_days_from_ce())));
    }
    sum
}

// The same with the last of them once.
fn weighed_back(calendar: &Calendar<'_>, from: NaiveDate, to: NaiveDate) -> i64 {
    let (mut sum, mut place) = (0i64, 0i64);
    for day in calendar.iter_open_days(from, to).rev() {
        place = place.wrapping_add(1);
        sum = sum.wrapping_add(place.wrapping_mul(i64::from(day.num_days_from_ce())));
    }
    sum
}

fn roll_of(name: &str) -> Option<Roll> {
    let roll = match name {
        "unadjusted" => Roll::Unadjusted,
        "following" => Roll::Following,
        "preceding" => Roll::Preceding,
        "modified_following" => Roll::ModifiedFollowing,
        "modified_preceding" => Roll::ModifiedPreceding,
        "nearest_isda" => Roll::NearestIsda,
        "nearest_quantlib" => Roll::NearestQuantLib,
        _ => return None,
    };
    Some(roll)
}

fn number_of(date: Option<NaiveDate>) -> Option<i64> {
    Some(i64::from(date?.num_days_from_ce()))
}

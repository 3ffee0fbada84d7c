//! A checked call asked first, and then the operator: what stands where there is no answer is kept.
ghost use Rattle.std.specs.Prelude.{◌≡◌, ◌≢◌, pos, neg_ℤ, ◌+ℤ◌, ◌-ℤ◌, ◌*ℤ◌, unwrap_or};
ghost use Rattle.chrono_datetime.specs.Days.{IsDate};
ghost use Rattle.chrono_datetime.specs.MonthMoves.{month_move};
ghost use Rattle.chrono_datetime.specs.Duration.{IsDuration, nanos_per_day, two_step_quotient, whole_units};
ghost use Rattle.chrono_datetime.specs.Moment.{moment, moment_on, reach};
ghost use Rattle.chrono_datetime.specs.DateLists.{IsRange};

use chrono_datetime::{Days, Months, NaiveDate, NaiveDateTime, NaiveWeek, TimeDelta};
use std::ops::RangeInclusive;

/// The date so many days later.
pub fn days_later(date: NaiveDate, days: Days) -> NaiveDate
    ensures moved { IsDate (date +ℤ pos days) → result ≡ date +ℤ pos days }
    ensures kept { ¬ IsDate (date +ℤ pos days) → result ≡ date }
{
    if date.checked_add_days(days).is_none() {
        return date;
    }
    date + days
}

/// The date so many days earlier.
pub fn days_earlier(date: NaiveDate, days: Days) -> NaiveDate
    ensures moved { IsDate (date -ℤ pos days) → result ≡ date -ℤ pos days }
    ensures kept { ¬ IsDate (date -ℤ pos days) → result ≡ date }
{
    if date.checked_sub_days(days).is_none() {
        return date;
    }
    date - days
}

/// The date later by the whole days of a duration.
pub fn whole_days_later(date: NaiveDate, by: TimeDelta) -> NaiveDate
    ensures moved { IsDate (date +ℤ whole_units nanos_per_day by) →
        result ≡ date +ℤ whole_units nanos_per_day by }
    ensures kept { ¬ IsDate (date +ℤ whole_units nanos_per_day by) → result ≡ date }
{
    if date.checked_add_signed(by).is_none() {
        return date;
    }
    date + by
}

/// The date earlier by the whole days of a duration.
pub fn whole_days_earlier(date: NaiveDate, by: TimeDelta) -> NaiveDate
    ensures moved { IsDate (date -ℤ whole_units nanos_per_day by) →
        result ≡ date -ℤ whole_units nanos_per_day by }
    ensures kept { ¬ IsDate (date -ℤ whole_units nanos_per_day by) → result ≡ date }
{
    if date.checked_sub_signed(by).is_none() {
        return date;
    }
    date - by
}

/// The same day so many months later, or the last day of that month.
pub fn months_later(date: NaiveDate, months: Months) -> NaiveDate
    ensures { result ≡ unwrap_or (month_move date (pos months)) date }
{
    if date.checked_add_months(months).is_none() {
        return date;
    }
    date + months
}

/// The same day so many months earlier, or the last day of that month.
pub fn months_earlier(date: NaiveDate, months: Months) -> NaiveDate
    ensures { result ≡ unwrap_or (month_move date (neg_ℤ (pos months))) date }
{
    if date.checked_sub_months(months).is_none() {
        return date;
    }
    date - months
}

/// The first day of a week, or the date given where that is none.
pub fn first_day_or(week: NaiveWeek, date: NaiveDate) -> NaiveDate
    ensures first { IsDate week → result ≡ week }
    ensures other { ¬ IsDate week → result ≡ date }
{
    if week.checked_first_day().is_none() {
        return date;
    }
    week.first_day()
}

/// The last day of a week, or the date given where that is none.
pub fn last_day_or(week: NaiveWeek, date: NaiveDate) -> NaiveDate
    ensures last { IsDate (week +ℤ pos 6) → result ≡ week +ℤ pos 6 }
    ensures other { ¬ IsDate (week +ℤ pos 6) → result ≡ date }
{
    if week.checked_last_day().is_none() {
        return date;
    }
    week.last_day()
}

/// The days of a week, or the days given where not all of them are dates.
pub fn days_or(week: NaiveWeek, days: RangeInclusive<NaiveDate>) -> RangeInclusive<NaiveDate>
    ensures whole { IsDate week → IsDate (week +ℤ pos 6) → IsRange week (week +ℤ pos 6) result }
    ensures late { ¬ IsDate (week +ℤ pos 6) → result ≡ days }
    ensures early { ¬ IsDate week → result ≡ days }
{
    if week.checked_days().is_none() {
        return days;
    }
    week.days()
}

/// The sum of two durations, or the first alone where the sum is none.
pub fn longer(duration: TimeDelta, by: TimeDelta) -> TimeDelta
    ensures sum { IsDuration (duration +ℤ by) → result ≡ duration +ℤ by }
    ensures kept { ¬ IsDuration (duration +ℤ by) → result ≡ duration }
{
    if duration.checked_add(&by).is_none() {
        return duration;
    }
    duration + by
}

/// The difference of two durations, or the first alone where the difference is none.
pub fn shorter(duration: TimeDelta, by: TimeDelta) -> TimeDelta
    ensures difference { IsDuration (duration -ℤ by) → result ≡ duration -ℤ by }
    ensures kept { ¬ IsDuration (duration -ℤ by) → result ≡ duration }
{
    if duration.checked_sub(&by).is_none() {
        return duration;
    }
    duration - by
}

/// A duration so many times, or once where that is none.
pub fn repeated(duration: TimeDelta, times: i32) -> TimeDelta
    ensures product { IsDuration (duration *ℤ times) → result ≡ duration *ℤ times }
    ensures kept { ¬ IsDuration (duration *ℤ times) → result ≡ duration }
{
    if duration.checked_mul(times).is_none() {
        return duration;
    }
    duration * times
}

/// A duration in so many parts, or whole for no part.
pub fn part(duration: TimeDelta, parts: i32) -> TimeDelta
    ensures quotient { parts ≢ pos 0 → result ≡ two_step_quotient duration parts }
    ensures kept { parts ≡ pos 0 → result ≡ duration }
{
    if duration.checked_div(parts).is_none() {
        return duration;
    }
    duration / parts
}

/// The date-time so many days later.
pub fn same_time_later(start: NaiveDateTime, days: Days) -> NaiveDateTime
    ensures moved { IsDate (start.date +ℤ pos days) →
        result ≡ moment (start.date +ℤ pos days) start.time }
    ensures kept { ¬ IsDate (start.date +ℤ pos days) → result ≡ start }
{
    if start.checked_add_days(days).is_none() {
        return start;
    }
    start + days
}

/// The date-time so many days earlier.
pub fn same_time_earlier(start: NaiveDateTime, days: Days) -> NaiveDateTime
    ensures moved { IsDate (start.date -ℤ pos days) →
        result ≡ moment (start.date -ℤ pos days) start.time }
    ensures kept { ¬ IsDate (start.date -ℤ pos days) → result ≡ start }
{
    if start.checked_sub_days(days).is_none() {
        return start;
    }
    start - days
}

/// The date-time so many months later.
pub fn same_time_months_later(start: NaiveDateTime, months: Months) -> NaiveDateTime
    ensures { result ≡ unwrap_or (moment_on (month_move start.date (pos months)) start.time) start }
{
    if start.checked_add_months(months).is_none() {
        return start;
    }
    start + months
}

/// The date-time so many months earlier.
pub fn same_time_months_earlier(start: NaiveDateTime, months: Months) -> NaiveDateTime
    ensures { result ≡ unwrap_or (moment_on (month_move start.date (neg_ℤ (pos months))) start.time)
        start }
{
    if start.checked_sub_months(months).is_none() {
        return start;
    }
    start - months
}

/// The date-time where a duration leads.
pub fn reached(start: NaiveDateTime, by: TimeDelta) -> NaiveDateTime
    ensures { result ≡ unwrap_or (reach start by) start }
{
    if start.checked_add_signed(by).is_none() {
        return start;
    }
    start + by
}

/// The date-time where a duration leads back.
pub fn reached_back(start: NaiveDateTime, by: TimeDelta) -> NaiveDateTime
    ensures { result ≡ unwrap_or (reach start (neg_ℤ by)) start }
{
    if start.checked_sub_signed(by).is_none() {
        return start;
    }
    start - by
}

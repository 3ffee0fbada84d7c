//! What a checked call answers, taken where there is an answer; where there is none another value serves.
ghost use Rattle.std.specs.Prelude.{◌≡◌, pos, ◌+ℤ◌, ◌-ℤ◌};
ghost use Rattle.chrono_datetime.specs.Days.{IsDate};
ghost use Rattle.chrono_datetime.specs.Duration.{nanos_per_day, whole_units};
ghost use Rattle.chrono_datetime.specs.Fields.{unix_epoch_day};
ghost use Rattle.chrono_datetime.specs.Moment.{moment, moved};

use chrono_datetime::{Days, NaiveDate, NaiveDateTime, NaiveWeek, TimeDelta};

/// The next date, or the last date again.
pub fn tomorrow(date: NaiveDate) -> NaiveDate
    ensures moved { IsDate (date +ℤ pos 1) → result ≡ date +ℤ pos 1 }
    ensures kept { ¬ IsDate (date +ℤ pos 1) → result ≡ date }
{
    if let Some(next) = date.succ_opt() {
        return next;
    }
    date
}

/// The date before, or the first date again.
pub fn yesterday(date: NaiveDate) -> NaiveDate
    ensures moved { IsDate (date -ℤ pos 1) → result ≡ date -ℤ pos 1 }
    ensures kept { ¬ IsDate (date -ℤ pos 1) → result ≡ date }
{
    match date.pred_opt() {
        Some(before) => before,
        None => date,
    }
}

/// The date so many days later.
pub fn due(date: NaiveDate, days: Days) -> NaiveDate
    ensures moved { IsDate (date +ℤ pos days) → result ≡ date +ℤ pos days }
    ensures kept { ¬ IsDate (date +ℤ pos days) → result ≡ date }
{
    if let Some(later) = date.checked_add_days(days) {
        return later;
    }
    date
}

/// The date so many days later, or earlier for a negative number.
pub fn shifted(date: NaiveDate, days: i64) -> NaiveDate
    ensures moved { IsDate (date +ℤ days) → result ≡ date +ℤ days }
    ensures kept { ¬ IsDate (date +ℤ days) → result ≡ date }
{
    date.moved_by_days(days).unwrap_or(date)
}

/// The date later by the whole days of a duration.
pub fn after(date: NaiveDate, by: TimeDelta) -> NaiveDate
    ensures moved { IsDate (date +ℤ whole_units nanos_per_day by) →
        result ≡ date +ℤ whole_units nanos_per_day by }
    ensures kept { ¬ IsDate (date +ℤ whole_units nanos_per_day by) → result ≡ date }
{
    if let Some(later) = date.checked_add_signed(by) {
        return later;
    }
    date
}

/// The date earlier by the whole days of a duration.
pub fn before(date: NaiveDate, by: TimeDelta) -> NaiveDate
    ensures moved { IsDate (date -ℤ whole_units nanos_per_day by) →
        result ≡ date -ℤ whole_units nanos_per_day by }
    ensures kept { ¬ IsDate (date -ℤ whole_units nanos_per_day by) → result ≡ date }
{
    date.checked_sub_signed(by).unwrap_or(date)
}

/// The first day of a week, or the date given where that is none.
pub fn week_start(week: NaiveWeek, date: NaiveDate) -> NaiveDate
    ensures first { IsDate week → result ≡ week }
    ensures other { ¬ IsDate week → result ≡ date }
{
    if let Some(first) = week.checked_first_day() {
        return first;
    }
    date
}

/// The last day of a week, or the date given where that is none.
pub fn week_end(week: NaiveWeek, date: NaiveDate) -> NaiveDate
    ensures last { IsDate (week +ℤ pos 6) → result ≡ week +ℤ pos 6 }
    ensures other { ¬ IsDate (week +ℤ pos 6) → result ≡ date }
{
    week.checked_last_day().unwrap_or(date)
}

/// The date with a day number, or the one given where there is none.
pub fn numbered(days: i32, date: NaiveDate) -> NaiveDate
    ensures numbered { IsDate days → result ≡ days }
    ensures other { ¬ IsDate days → result ≡ date }
{
    if let Some(found) = NaiveDate::from_num_days_from_ce_opt(days) {
        return found;
    }
    date
}

/// The date so many days after 1 January 1970, counted back again; none for a day that is no date.
pub fn epoch_days_again(days: i32) -> i32
    ensures again { IsDate (days +ℤ unix_epoch_day) → result ≡ days }
    ensures none { ¬ IsDate (days +ℤ unix_epoch_day) → result ≡ pos 0 }
{
    match NaiveDate::from_epoch_days(days) {
        Some(date) => date.to_epoch_days(),
        None => 0,
    }
}

/// The first day of the Gregorian calendar where it was first in use, 15 October 1582.
pub fn first_gregorian_day() -> NaiveDate
    ensures { result ≡ pos 577736 }
{
    NaiveDate::from_num_days_from_ce_opt(577_736).unwrap()
}

/// The date-time at the same time of day so many days later.
pub fn same_time_due(start: NaiveDateTime, days: Days) -> NaiveDateTime
    ensures moved { IsDate (start.date +ℤ pos days) →
        result ≡ moment (start.date +ℤ pos days) start.time }
    ensures kept { ¬ IsDate (start.date +ℤ pos days) → result ≡ start }
{
    if let Some(later) = start.checked_add_days(days) {
        return later;
    }
    start
}

/// The date-time where a duration leads, or the start where its day is no date.
pub fn led_to(start: NaiveDateTime, by: TimeDelta) -> NaiveDateTime
    ensures reached { IsDate (moved start by).date → result ≡ moved start by }
    ensures kept { ¬ IsDate (moved start by).date → result ≡ start }
{
    if let Some(end) = start.checked_add_signed(by) {
        return end;
    }
    start
}

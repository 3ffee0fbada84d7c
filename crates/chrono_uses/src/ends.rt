//! Comparisons with the constants, and the constants passed on.

use chrono_datetime::{
    MAX_DATE, MAX_DATETIME, MIN_DATE, MIN_DATETIME, NaiveDate, NaiveDateTime, NaiveTime, TimeDelta,
    WeekdaySet,
};

/// Whether no date comes before this one.
pub fn is_first(date: NaiveDate) -> bool {
    date == NaiveDate::MIN
}

/// Whether no date comes after this one.
pub fn is_last(date: NaiveDate) -> bool {
    date == NaiveDate::MAX
}

/// Whether no date-time comes before this one.
pub fn is_first_date_time(date_time: NaiveDateTime) -> bool {
    date_time == NaiveDateTime::MIN
}

/// Whether the date-time is the last in no leap second.
pub fn is_last_date_time(date_time: NaiveDateTime) -> bool {
    date_time == NaiveDateTime::MAX
}

/// Whether the time is midnight.
pub fn is_midnight(time: NaiveTime) -> bool {
    time == NaiveTime::MIN
}

/// Whether the duration is the longest.
pub fn is_longest(duration: TimeDelta) -> bool {
    duration == TimeDelta::MAX
}

/// Whether the set has all seven days.
pub fn is_every_day(days: WeekdaySet) -> bool {
    days == WeekdaySet::ALL
}

/// From the first date to the last.
pub fn all_dates() -> (NaiveDate, NaiveDate) {
    (MIN_DATE, MAX_DATE)
}

/// From the first date-time to the last in no leap second.
pub fn all_date_times() -> (NaiveDateTime, NaiveDateTime) {
    (MIN_DATETIME, MAX_DATETIME)
}

//! Date-times and durations as the two numbers that stand for them.
ghost use Rattle.std.specs.Prelude.{◌≡◌};
ghost use Rattle.chrono_clock.specs.Duration.{IsDuration};
ghost use Rattle.numbers_c.specs.DateTimes.{duration_for_c, duration_from_c, duration_or_none, moment_at, moment_from_c, numbers_for_c, numbers_or_none};

use crate::arguments::date_of;
use chrono_calendar::ends::FIRST_DAY;
use chrono_clock::SECS_PER_DAY;
use chrono_datetime::{NaiveDateTime, NaiveTime, TimeDelta, Timelike};
use chrono_text::NANOS_PER_SEC;

// The seconds from 1970 to the first second of the first date, and to the last of the last date.
const FIRST_SECOND: i64 = -8_334_601_228_800;

const LAST_SECOND: i64 = 8_210_266_876_799;

// The nanoseconds that stand for no date-time, time of day or duration.
pub(crate) const NO_NANOS: u32 = u32::MAX;

/// A date-time without time zone: the seconds since 1970-01-01T00:00:00, with 86,400 for every day, and nanoseconds.
///
/// 1,000,000,000 nanoseconds or more lie in the leap second that follows the second, the last of its minute.
#[repr(C)]
#[derive(Clone, Copy)]
pub struct CalendarDateTime {
    /// The seconds, rounded down.
    pub seconds: i64,
    /// The nanoseconds after them, below 2,000,000,000.
    pub nanos: u32,
}

/// A duration: whole seconds, rounded down, and the nanoseconds after them.
#[repr(C)]
#[derive(Clone, Copy)]
pub struct CalendarDuration {
    /// The seconds, rounded down.
    pub seconds: i64,
    /// The nanoseconds after them, below 1,000,000,000.
    pub nanos: u32,
}

/// Returns the date-time at a second of a day, and `nanos` nanoseconds after it. Returns `None` if there is none.
///
/// ```
/// date_time_at(738_945, 3_600, 0) // Some(2024-02-29T01:00:00)
/// ```
#[inline]
pub fn date_time_at(day: i32, second: u32, nanos: u32) -> Option<NaiveDateTime>
    ensures { result ≡ moment_at day second nanos }
{
    let time = NaiveTime::from_num_seconds_from_midnight_opt(second, nanos)?;
    let date = date_of(day)?;
    Some(NaiveDateTime::new(date, time))
}

/// Returns the date-time for which the numbers stand. Returns `None` if they stand for none.
///
/// ```
/// date_time_of(CalendarDateTime { seconds: 86_400, nanos: 0 }) // Some(1970-01-02T00:00:00)
/// ```
#[inline]
pub fn date_time_of(moment: CalendarDateTime) -> Option<NaiveDateTime>
    ensures { result ≡ moment_from_c moment }
{
    if moment.seconds < FIRST_SECOND || moment.seconds > LAST_SECOND {
        return None;
    }
    let past_first = (moment.seconds - FIRST_SECOND) as u64;
    let day = FIRST_DAY + (past_first / SECS_PER_DAY as u64) as i32;
    let second = (past_first % SECS_PER_DAY as u64) as u32;
    date_time_at(day, second, moment.nanos)
}

// The numbers of a date-time.
#[inline]
fn numbers_for_c(date_time: NaiveDateTime) -> CalendarDateTime
    ensures { result ≡ numbers_for_c date_time }
{
    let day = i64::from(date_time.date().to_epoch_days());
    let second = i64::from(date_time.time().num_seconds_from_midnight());
    CalendarDateTime {
        seconds: day * i64::from(SECS_PER_DAY) + second,
        nanos: date_time.time().nanosecond(),
    }
}

/// Returns the numbers of a date-time. If there is none, they are 0 and the greatest `u32`.
///
/// ```
/// numbers_or_none(date_time_at(719_164, 0, 5)).seconds // 86400
/// ```
#[inline]
pub fn numbers_or_none(date_time: Option<NaiveDateTime>) -> CalendarDateTime
    ensures { result ≡ numbers_or_none date_time }
{
    match date_time {
        Some(date_time) => numbers_for_c(date_time),
        None => CalendarDateTime {
            seconds: 0,
            nanos: NO_NANOS,
        },
    }
}

/// Returns the duration for which the numbers stand. Returns `None` if they stand for none.
///
/// ```
/// duration_of(CalendarDuration { seconds: 90, nanos: 0 }) // Some(TimeDelta { secs: 90, nanos: 0 })
/// ```
#[inline]
pub fn duration_of(duration: CalendarDuration) -> Option<TimeDelta>
    ensures { result ≡ duration_from_c duration }
{
    TimeDelta::new(duration.seconds, duration.nanos)
}

// The numbers of a duration.
#[inline]
fn duration_for_c(duration: TimeDelta) -> CalendarDuration
    ensures numbers { result ≡ duration_for_c duration }
    ensures in_range { IsDuration duration }
{
    let seconds = duration.num_seconds();
    let nanos = duration.subsec_nanos();
    if nanos < 0 {
        CalendarDuration {
            seconds: seconds - 1,
            nanos: (nanos + NANOS_PER_SEC as i32) as u32,
        }
    } else {
        CalendarDuration {
            seconds,
            nanos: nanos as u32,
        }
    }
}

/// Returns the numbers of a duration. If there is none, they are 0 and the greatest `u32`.
///
/// ```
/// use chrono_datetime::TimeDelta;
/// duration_or_none(TimeDelta::new(-1, 5)).seconds // -1
/// ```
#[inline]
pub fn duration_or_none(duration: Option<TimeDelta>) -> CalendarDuration
    ensures numbers { result ≡ duration_or_none duration }
    // The numbers that are answered stand for that duration again, and for none if there is none.
    ensures named { duration_from_c result ≡ duration }
{
    match duration {
        Some(duration) => duration_for_c(duration),
        None => CalendarDuration {
            seconds: 0,
            nanos: NO_NANOS,
        },
    }
}

//! Times of day as the two numbers that stand for them.
ghost use Rattle.std.specs.Prelude.{◌≡◌};
ghost use Rattle.numbers_c.specs.DateTimes.{time_from_c, time_or_none};

use crate::date_time_numbers::NO_NANOS;
use chrono_datetime::{NaiveTime, Timelike};

/// A time of day: the second of the day, and nanoseconds.
///
/// 1,000,000,000 nanoseconds or more lie in the leap second that follows the second, the last of its minute.
#[repr(C)]
#[derive(Clone, Copy)]
pub struct CalendarTimeOfDay {
    /// The second of the day, from 0 to 86,399.
    pub second: u32,
    /// The nanoseconds after it, below 2,000,000,000.
    pub nanos: u32,
}

/// Returns the time of day for which the numbers stand. Returns `None` if they stand for none.
///
/// ```
/// time_of(CalendarTimeOfDay { second: 3_600, nanos: 0 }) // Some(01:00:00)
/// ```
#[inline]
pub fn time_of(time: CalendarTimeOfDay) -> Option<NaiveTime>
    ensures { result ≡ time_from_c time }
{
    NaiveTime::from_num_seconds_from_midnight_opt(time.second, time.nanos)
}

/// Returns the numbers of a time of day. If there is none, they are 0 and the greatest `u32`.
///
/// ```
/// use chrono_datetime::NaiveTime;
/// time_or_none(NaiveTime::from_hms_opt(1, 0, 5)).second // 3605
/// ```
#[inline]
pub fn time_or_none(time: Option<NaiveTime>) -> CalendarTimeOfDay
    ensures { result ≡ time_or_none time }
{
    match time {
        Some(time) => CalendarTimeOfDay {
            second: time.num_seconds_from_midnight(),
            nanos: time.nanosecond(),
        },
        None => CalendarTimeOfDay {
            second: 0,
            nanos: NO_NANOS,
        },
    }
}

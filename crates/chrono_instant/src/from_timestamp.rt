//! `FromTimestamp`: instants made of times from 1 January 1970.
ghost use Rattle.std.specs.Prelude.{◌≡◌, ◌↔◌, ◌<◌, ◌*◌, pos, ◌*ℤ◌, IfSome, IsSome};
ghost use Rattle.std.specs.Int.{int_div_euclid};
ghost use Rattle.chrono_datetime.specs.Duration.{nanos_per_milli, nanos_per_micro};
ghost use Rattle.chrono_datetime.specs.Time.{FractionFits};
ghost use Rattle.chrono_instant.specs.Instants.{IsEpochSecond, LiesAt, LiesIn, second_of_minute};

use crate::timestamp::Timestamp;
use chrono_datetime::{AndTime, NaiveDate, NaiveDateTime, NaiveTime};

const SECS_PER_DAY: i64 = 86_400;

// The first second of the first date, and the last of the last date.
const FIRST_SECOND: i64 = -8_334_601_228_800;

const LAST_SECOND: i64 = 8_210_266_876_799;

/// Makes an instant of a time from 1 January 1970, 00:00:00 UTC, with days of 86,400 seconds.
///
/// ```
/// use chrono_datetime::NaiveDateTime;
/// NaiveDateTime::from_timestamp_millis(-750) // Some(1969-12-31T23:59:59.250)
/// ```
pub trait FromTimestamp: Timestamp + Sized {
    /// Returns the instant at which UTC shows `datetime`.
    ///
    /// ```
    /// use chrono_datetime::{AndTime, NaiveDate, NaiveDateTime};
    /// let datetime = NaiveDate::from_ymd_opt(2024, 2, 29)?.and_hms_opt(9, 30, 0)?;
    /// NaiveDateTime::from_naive_utc(datetime) // 2024-02-29T09:30:00
    /// ```
    fn from_naive_utc(datetime: NaiveDateTime) -> Self
        ensures { Self.utc result ≡ datetime };

    /// Returns the instant `secs` seconds after 1 January 1970, and `nsecs` nanoseconds past that second.
    ///
    /// Returns `None` if no date has the second, or `nsecs` is too large. The largest `nsecs` is 999,999,999, or
    /// 1,999,999,999 in the last second of a minute: then 1,000,000,000 and more lie in a leap second.
    ///
    /// ```
    /// use chrono_datetime::NaiveDateTime;
    /// NaiveDateTime::from_timestamp(-1, 0) // Some(1969-12-31T23:59:59)
    /// NaiveDateTime::from_timestamp(1_483_228_799, 1_500_000_000) // Some(2016-12-31T23:59:60.500)
    /// NaiveDateTime::from_timestamp(1_483_228_798, 1_500_000_000) // None
    /// ```
    #[inline]
    fn from_timestamp(secs: i64, nsecs: u32) -> Option<Self>
        ensures value { IfSome result (λ it. LiesIn secs nsecs (Self.utc it)) }
        ensures exists { IsSome result
            ↔ (IsEpochSecond secs × FractionFits (second_of_minute secs) nsecs) }
    {
        Some(Self::from_naive_utc(date_time_at(secs, nsecs)?))
    }

    /// Returns the instant `millis` milliseconds after 1 January 1970.
    ///
    /// Returns `None` if no date has it.
    ///
    /// ```
    /// use chrono_datetime::NaiveDateTime;
    /// NaiveDateTime::from_timestamp_millis(1_250) // Some(1970-01-01T00:00:01.250)
    /// NaiveDateTime::from_timestamp_millis(i64::MAX) // None
    /// ```
    #[inline]
    fn from_timestamp_millis(millis: i64) -> Option<Self>
        ensures value { IfSome result (λ it. LiesAt (millis *ℤ pos nanos_per_milli) (Self.utc it)) }
        ensures exists { IsSome result ↔ IsEpochSecond (int_div_euclid millis (pos 1_000)) }
    {
        let nanos = millis.rem_euclid(1_000) as u32 * 1_000_000;
        Self::from_timestamp(millis.div_euclid(1_000), nanos)
    }

    /// Returns the instant `micros` microseconds after 1 January 1970.
    ///
    /// Returns `None` if no date has it.
    ///
    /// ```
    /// use chrono_datetime::NaiveDateTime;
    /// NaiveDateTime::from_timestamp_micros(-1) // Some(1969-12-31T23:59:59.999999)
    /// NaiveDateTime::from_timestamp_micros(i64::MIN) // None
    /// ```
    #[inline]
    fn from_timestamp_micros(micros: i64) -> Option<Self>
        ensures value { IfSome result (λ it. LiesAt (micros *ℤ pos nanos_per_micro) (Self.utc it)) }
        ensures exists { IsSome result ↔ IsEpochSecond (int_div_euclid micros (pos 1_000_000)) }
    {
        let nanos = micros.rem_euclid(1_000_000) as u32 * 1_000;
        Self::from_timestamp(micros.div_euclid(1_000_000), nanos)
    }

    /// Returns the instant `nanos` nanoseconds after 1 January 1970.
    ///
    /// ```
    /// use chrono_datetime::NaiveDateTime;
    /// NaiveDateTime::from_timestamp_nanos(-1) // 1969-12-31T23:59:59.999999999
    /// NaiveDateTime::from_timestamp_nanos(i64::MIN) // 1677-09-21T00:12:43.145224192
    /// NaiveDateTime::from_timestamp_nanos(i64::MAX) // 2262-04-11T23:47:16.854775807
    /// ```
    #[inline]
    fn from_timestamp_nanos(nanos: i64) -> Self
        ensures { LiesAt nanos (Self.utc result) }
    {
        let past = nanos.rem_euclid(1_000_000_000) as u32;
        Self::from_timestamp(nanos.div_euclid(1_000_000_000), past).unwrap()
    }
}

impl FromTimestamp for NaiveDateTime {
    #[inline]
    fn from_naive_utc(datetime: NaiveDateTime) -> NaiveDateTime {
        datetime
    }
}

// The date-time at a second from 1 January 1970, and some nanoseconds past it.
#[inline]
fn date_time_at(secs: i64, nsecs: u32) -> Option<NaiveDateTime>
    ensures value { IfSome result (LiesIn secs nsecs) }
    ensures exists { IsSome result
        ↔ (IsEpochSecond secs × FractionFits (second_of_minute secs) nsecs) }
{
    if secs < FIRST_SECOND || LAST_SECOND < secs {
        return None;
    }
    let second = secs.rem_euclid(SECS_PER_DAY) as u32;
    let time = NaiveTime::from_num_seconds_from_midnight_opt(second, nsecs)?;
    let date = NaiveDate::from_epoch_days(secs.div_euclid(SECS_PER_DAY) as i32).unwrap();
    Some(date.and_time(time))
}

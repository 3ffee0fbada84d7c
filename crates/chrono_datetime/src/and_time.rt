//! `AndTime`: a date put together with a time of day.
ghost use Rattle.std.specs.Prelude.{◌≡◌, ℤ, ◌*◌};
ghost use Rattle.std.specs.Option.{SomeIff};
ghost use Rattle.chrono_clock.specs.Duration.{nanos_per_milli, nanos_per_micro};
ghost use Rattle.chrono_clock.specs.Time.{FractionFits, IsClock, time_at};
ghost use Rattle.chrono_datetime.specs.Moment.{moment};

use crate::NaiveDateTime;
use chrono_clock::NaiveTime;
use chrono_naive::NaiveDate;

/// Puts a date together with a time of day.
///
/// A contract sees such a value as the day number of its date.
///
/// ```
/// let date = NaiveDate::from_ymd_opt(2024, 2, 29)?;
/// date.and_hms_opt(9, 30, 0) // Some(2024-02-29T09:30:00)
/// ```
pub trait AndTime: Sized {
    // The day number of the date.
    ghost day: { Self → ℤ };

    /// Returns the date-time at this date and `time`.
    ///
    /// ```
    /// let time = NaiveTime::from_hms_opt(9, 30, 0)?;
    /// NaiveDate::from_ymd_opt(2024, 2, 29)?.and_time(time) // 2024-02-29T09:30:00
    /// ```
    fn and_time(&self, time: NaiveTime) -> NaiveDateTime
        ensures { result ≡ moment (day self.now) time };

    /// Returns the date-time at this date and this hour, minute and second.
    ///
    /// Returns `None` if `hour` is 24 or more, or if `min` or `sec` is 60 or more.
    ///
    /// ```
    /// NaiveDate::from_ymd_opt(2024, 2, 29)?.and_hms_opt(9, 30, 0) // Some(2024-02-29T09:30:00)
    /// NaiveDate::from_ymd_opt(2024, 2, 29)?.and_hms_opt(24, 0, 0) // None
    /// ```
    #[inline]
    fn and_hms_opt(&self, hour: u32, min: u32, sec: u32) -> Option<NaiveDateTime>
        ensures { SomeIff result (IsClock hour min sec)
            (moment (day self.now) (time_at hour min sec 0)) }
    {
        Some(self.and_time(NaiveTime::from_hms_opt(hour, min, sec)?))
    }

    /// Returns the date-time at this date, hour, minute and second, and `milli` milliseconds later.
    ///
    /// Returns `None` if [`NaiveTime::from_hms_milli_opt`] does. `milli` is at most 999, or 1,999 in second 59,
    /// where 1,000 and more lie in a leap second.
    ///
    /// ```
    /// NaiveDate::from_ymd_opt(2016, 12, 31)?.and_hms_milli_opt(23, 59, 59, 1_500) // Some(2016-12-31T23:59:60.500)
    /// NaiveDate::from_ymd_opt(2016, 12, 31)?.and_hms_milli_opt(23, 59, 58, 1_500) // None
    /// ```
    #[inline]
    fn and_hms_milli_opt(&self, hour: u32, min: u32, sec: u32, milli: u32) -> Option<NaiveDateTime>
        ensures { SomeIff result (IsClock hour min sec × FractionFits sec (milli * nanos_per_milli))
            (moment (day self.now) (time_at hour min sec (milli * nanos_per_milli))) }
    {
        Some(self.and_time(NaiveTime::from_hms_milli_opt(hour, min, sec, milli)?))
    }

    /// Returns the date-time at this date, hour, minute and second, and `micro` microseconds later.
    ///
    /// Returns `None` if [`NaiveTime::from_hms_micro_opt`] does. `micro` is at most 999,999, or 1,999,999 in
    /// second 59, where 1,000,000 and more lie in a leap second.
    ///
    /// ```
    /// NaiveDate::from_ymd_opt(2024, 2, 29)?.and_hms_micro_opt(9, 30, 0, 250) // Some(2024-02-29T09:30:00.000250)
    /// NaiveDate::from_ymd_opt(2024, 2, 29)?.and_hms_micro_opt(9, 30, 0, 1_000_000) // None
    /// ```
    #[inline]
    fn and_hms_micro_opt(&self, hour: u32, min: u32, sec: u32, micro: u32) -> Option<NaiveDateTime>
        ensures { SomeIff result (IsClock hour min sec × FractionFits sec (micro * nanos_per_micro))
            (moment (day self.now) (time_at hour min sec (micro * nanos_per_micro))) }
    {
        Some(self.and_time(NaiveTime::from_hms_micro_opt(hour, min, sec, micro)?))
    }

    /// Returns the date-time at this date, hour, minute and second, and `nano` nanoseconds later.
    ///
    /// Returns `None` if [`NaiveTime::from_hms_nano_opt`] does. `nano` is at most 999,999,999, or 1,999,999,999
    /// in second 59, where 1,000,000,000 and more lie in a leap second.
    ///
    /// ```
    /// NaiveDate::from_ymd_opt(2024, 2, 29)?.and_hms_nano_opt(9, 30, 0, 250) // Some(2024-02-29T09:30:00.000000250)
    /// NaiveDate::from_ymd_opt(2024, 2, 29)?.and_hms_nano_opt(9, 30, 0, 1_000_000_000) // None
    /// ```
    #[inline]
    fn and_hms_nano_opt(&self, hour: u32, min: u32, sec: u32, nano: u32) -> Option<NaiveDateTime>
        ensures { SomeIff result (IsClock hour min sec × FractionFits sec nano)
            (moment (day self.now) (time_at hour min sec nano)) }
    {
        Some(self.and_time(NaiveTime::from_hms_nano_opt(hour, min, sec, nano)?))
    }
}

impl AndTime for NaiveDate {
    ghost day = { λ d. d };

    #[inline]
    fn and_time(&self, time: NaiveTime) -> NaiveDateTime {
        NaiveDateTime::new(*self, time)
    }
}

//! `Timestamp`: instants counted from 1 January 1970.
ghost use Rattle.std.specs.Prelude.{◌≡◌, ◌/◌, ◌<◌, pos, ◌+ℤ◌, ◌*ℤ◌, FitsSigned};
ghost use Rattle.std.specs.Int.{w64};
ghost use Rattle.std.specs.Option.{SomeIff};
ghost use Rattle.chrono_datetime.specs.Duration.{nanos_per_milli, nanos_per_micro};
ghost use Rattle.chrono_datetime.specs.Moment.{Moment};
ghost use Rattle.chrono_instant.specs.Instants.{IsEpochSecond, epoch_second, epoch_nanos};

use chrono_datetime::{Datelike, NaiveDateTime, Timelike};

const SECS_PER_DAY: i64 = 86_400;

// The day number of 1 January 1970.
const EPOCH_DAY: i32 = 719_163;

/// Reads an instant as a time from 1 January 1970, 00:00:00 UTC, with days of 86,400 seconds.
///
/// A contract sees such a value as the date-time that UTC shows at the instant.
///
/// ```
/// use chrono_datetime::{AndTime, NaiveDate};
/// let instant = NaiveDate::from_ymd_opt(1969, 12, 31)?.and_hms_milli_opt(23, 59, 59, 250)?;
/// instant.timestamp() // -1
/// instant.timestamp_millis() // -750
/// ```
pub trait Timestamp {
    // The date-time that UTC shows.
    ghost utc: { Self → Moment };

    /// Returns the date-time that UTC shows at the instant.
    ///
    /// ```
    /// use chrono_datetime::NaiveDateTime;
    /// NaiveDateTime::from_timestamp(0, 0)?.naive_utc() // 1970-01-01T00:00:00
    /// ```
    fn naive_utc(&self) -> NaiveDateTime
        ensures { result ≡ utc self.now };

    /// Returns the seconds from 1 January 1970, rounded down: negative before it.
    ///
    /// ```
    /// use chrono_datetime::NaiveDateTime;
    /// NaiveDateTime::from_timestamp(-1, 999_999_999)?.timestamp() // -1
    /// ```
    #[inline]
    fn timestamp(&self) -> i64
        ensures value { result ≡ epoch_second (utc self.now) }
        ensures in_range { IsEpochSecond result }
    {
        let utc = self.naive_utc();
        let days = i64::from(utc.num_days_from_ce() - EPOCH_DAY);
        days * SECS_PER_DAY + i64::from(utc.num_seconds_from_midnight())
    }

    /// Returns the milliseconds from 1 January 1970, rounded down.
    ///
    /// The milliseconds of a leap second are those of the next second.
    ///
    /// ```
    /// use chrono_datetime::NaiveDateTime;
    /// NaiveDateTime::from_timestamp(-1, 250_000_000)?.timestamp_millis() // -750
    /// ```
    #[inline]
    fn timestamp_millis(&self) -> i64
        ensures { result ≡ epoch_second (utc self.now) *ℤ pos 1_000
            +ℤ pos ((utc self.now).time.fraction / nanos_per_milli) }
    {
        self.timestamp() * 1_000 + i64::from(self.timestamp_subsec_millis())
    }

    /// Returns the microseconds from 1 January 1970, rounded down.
    ///
    /// The microseconds of a leap second are those of the next second.
    ///
    /// ```
    /// use chrono_datetime::NaiveDateTime;
    /// NaiveDateTime::from_timestamp(1, 250_000_000)?.timestamp_micros() // 1250000
    /// ```
    #[inline]
    fn timestamp_micros(&self) -> i64
        ensures { result ≡ epoch_second (utc self.now) *ℤ pos 1_000_000
            +ℤ pos ((utc self.now).time.fraction / nanos_per_micro) }
    {
        self.timestamp() * 1_000_000 + i64::from(self.timestamp_subsec_micros())
    }

    /// Returns the nanoseconds from 1 January 1970.
    ///
    /// The nanoseconds of a leap second are those of the next second. Returns `None` if the number does not fit an
    /// `i64`: before 1677-09-21T00:12:43.145224192 or after 2262-04-11T23:47:16.854775807.
    ///
    /// ```
    /// use chrono_datetime::NaiveDateTime;
    /// NaiveDateTime::from_timestamp(1, 5)?.timestamp_nanos_opt() // Some(1000000005)
    /// NaiveDateTime::MAX.timestamp_nanos_opt() // None
    /// ```
    #[inline]
    fn timestamp_nanos_opt(&self) -> Option<i64>
        ensures { SomeIff result (FitsSigned w64 (epoch_nanos (utc self.now)))
            (epoch_nanos (utc self.now)) }
    {
        let seconds = i128::from(self.timestamp());
        let nanos = seconds * 1_000_000_000 + i128::from(self.timestamp_subsec_nanos());
        i64::try_from(nanos).ok()
    }

    /// Returns the whole milliseconds past the second: 0 to 1,999. From 1,000 on they lie in a leap second.
    ///
    /// ```
    /// use chrono_datetime::NaiveDateTime;
    /// NaiveDateTime::from_timestamp(0, 250_999_999)?.timestamp_subsec_millis() // 250
    /// ```
    #[inline]
    fn timestamp_subsec_millis(&self) -> u32
        ensures value { result ≡ (utc self.now).time.fraction / nanos_per_milli }
        ensures bound { result < 2_000 }
    {
        self.timestamp_subsec_nanos() / 1_000_000
    }

    /// Returns the whole microseconds past the second: 0 to 1,999,999. From 1,000,000 on they lie in a leap second.
    ///
    /// ```
    /// use chrono_datetime::NaiveDateTime;
    /// NaiveDateTime::from_timestamp(0, 250_999_999)?.timestamp_subsec_micros() // 250999
    /// ```
    #[inline]
    fn timestamp_subsec_micros(&self) -> u32
        ensures value { result ≡ (utc self.now).time.fraction / nanos_per_micro }
        ensures bound { result < 2_000_000 }
    {
        self.timestamp_subsec_nanos() / 1_000
    }

    /// Returns the nanoseconds past the second: 0 to 1,999,999,999. From 1,000,000,000 on they lie in a leap second.
    ///
    /// ```
    /// use chrono_datetime::NaiveDateTime;
    /// NaiveDateTime::from_timestamp(0, 250_999_999)?.timestamp_subsec_nanos() // 250999999
    /// ```
    #[inline]
    fn timestamp_subsec_nanos(&self) -> u32
        ensures value { result ≡ (utc self.now).time.fraction }
        ensures bound { result < 2_000_000_000 }
    {
        self.naive_utc().nanosecond()
    }
}

impl Timestamp for NaiveDateTime {
    ghost utc = { λ m. m };

    #[inline]
    fn naive_utc(&self) -> NaiveDateTime {
        *self
    }
}

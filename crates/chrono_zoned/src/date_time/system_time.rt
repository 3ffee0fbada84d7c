//! Instants as readings of the operating system's clock.
ghost use Rattle.std.specs.Prelude.{◌≡◌, ◌↔◌, ◌<◌, ◌≤ℤ◌, ◌*◌, ◌/◌, pos, IfSome, IsSome};
ghost use Rattle.std.specs.Time.{system_time_nanos};
ghost use Rattle.chrono_instant.specs.Instants.{IsEpochSecond, LiesAt, epoch_nanos};

use crate::date_time::DateTime;
use crate::zones::Utc;
use chrono_instant::{FromTimestamp, Timestamp};
use std::time::{Duration, SystemTime};

impl DateTime<Utc> {
    /// Returns the instant of a reading of the operating system's clock, which counts from 1 January 1970.
    ///
    /// Returns `None` if no date has it.
    ///
    /// ```
    /// use std::time::SystemTime;
    /// DateTime::from_system_time(SystemTime::UNIX_EPOCH) // Some(1970-01-01T00:00:00+00:00)
    /// ```
    pub fn from_system_time(time: SystemTime) -> Option<DateTime<Utc>>
        ensures value { IfSome result (λ d. LiesAt (pos (system_time_nanos time)) d.utc) }
        ensures exists { IsSome result
            ↔ IsEpochSecond (pos (system_time_nanos time / 1_000_000_000)) }
    {
        let past = time.duration_since(SystemTime::UNIX_EPOCH).ok()?;
        let seconds = i64::try_from(past.as_secs()).ok()?;
        DateTime::from_timestamp(seconds, past.subsec_nanos())
    }

    /// Returns the reading of the operating system's clock at the instant.
    ///
    /// The nanoseconds of a leap second are those of the next second. Returns `None` if they are
    /// negative: before 1 January 1970.
    ///
    /// ```
    /// use std::time::SystemTime;
    /// DateTime::from_timestamp(0, 0)?.to_system_time()? == SystemTime::UNIX_EPOCH // true
    /// ```
    pub fn to_system_time(&self) -> Option<SystemTime>
        ensures value { IfSome result (λ time. pos (system_time_nanos time) ≡ epoch_nanos self.now.utc) }
        ensures exists { IsSome result ↔ (pos 0 ≤ℤ epoch_nanos self.now.utc) }
    {
        let seconds = i128::from(self.timestamp());
        let nanos = seconds * 1_000_000_000 + i128::from(self.timestamp_subsec_nanos());
        if nanos < 0 {
            return None;
        }
        SystemTime::UNIX_EPOCH.checked_add(Duration::from_nanos_u128(nanos as u128))
    }
}

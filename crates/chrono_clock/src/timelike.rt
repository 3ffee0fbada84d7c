//! The fields of a time of day: reading them, and replacing one.
ghost use Rattle.std.specs.Prelude.{◌≡◌, ◌*◌, ℕ, ℤ, List, [], ◌<◌, ◌≤◌, ◌↔◌, IsTrue, IsSome, IfSome};
ghost use Rattle.chrono_clock.specs.Duration.{nanos_per_second};
ghost use Rattle.chrono_clock.specs.Time.{TimeOfDay, seconds_per_day, hour_of, minute_of, second_of, hour12_of, time_with_hour, time_with_minute, time_with_second, time_with_fraction};

use crate::NaiveTime;
use crate::lengths::{NANOS_PER_SEC, SECS_PER_HOUR, SECS_PER_MINUTE};

/// A value that has a time of day, and perhaps other parts, such as a date.
///
/// Each `with_` function replaces one field of the time. It keeps the other fields and the other parts.
pub trait Timelike: Sized {
    // The time of day.
    ghost time: { Self → TimeOfDay };

    // What else the value says, as a list of whole numbers.
    ghost rest: { Self → List ℤ };

    /// Returns the hour: 0 to 23.
    ///
    /// ```
    /// NaiveTime::from_hms_opt(15, 4, 5)?.hour() // 15
    /// ```
    fn hour(&self) -> u32
        ensures value { result ≡ hour_of (time self.now) }
        ensures bound { result < 24 };

    /// Returns whether it is noon or later, and the hour of the 12-hour clock: 1 to 12.
    ///
    /// ```
    /// NaiveTime::from_hms_opt(15, 4, 5)?.hour12() // (true, 3)
    /// NaiveTime::MIN.hour12() // (false, 12)
    /// ```
    #[inline]
    fn hour12(&self) -> (bool, u32)
        ensures afternoon { IsTrue result.0 ↔ (12 ≤ hour_of (time self.now)) }
        ensures hour { result.1 ≡ hour12_of (time self.now) }
    {
        let hour = self.hour();
        let shown = if hour % 12 == 0 { 12 } else { hour % 12 };
        (hour >= 12, shown)
    }

    /// Returns the minute of the hour: 0 to 59.
    ///
    /// ```
    /// NaiveTime::from_hms_opt(15, 4, 5)?.minute() // 4
    /// ```
    fn minute(&self) -> u32
        ensures { result ≡ minute_of (time self.now) };

    /// Returns the second of the minute: 0 to 59. It does not count a leap second.
    ///
    /// ```
    /// NaiveTime::from_hms_opt(15, 4, 5)?.second() // 5
    /// NaiveTime::from_hms_milli_opt(23, 59, 59, 1_500)?.second() // 59
    /// ```
    fn second(&self) -> u32
        ensures { result ≡ second_of (time self.now) };

    /// Returns the nanoseconds past the second: 0 to 1,999,999,999. From 1,000,000,000 on they lie in a leap second.
    ///
    /// ```
    /// NaiveTime::from_hms_milli_opt(23, 59, 59, 1_500)?.nanosecond() // 1500000000
    /// ```
    fn nanosecond(&self) -> u32
        ensures value { result ≡ (time self.now).fraction }
        ensures bound { result < 2 * nanos_per_second };

    /// Returns the value with the hour `hour`.
    ///
    /// Returns `None` if `hour` is 24 or more.
    ///
    /// ```
    /// NaiveTime::from_hms_opt(15, 4, 5)?.with_hour(7) // Some(07:04:05)
    /// NaiveTime::from_hms_opt(15, 4, 5)?.with_hour(24) // None
    /// ```
    fn with_hour(&self, hour: u32) -> Option<Self>
        ensures some { IsSome result ↔ (hour < 24) }
        ensures replaced { IfSome result (λ t. time t ≡ time_with_hour (time self.now) hour) }
        ensures rest_stays { IfSome result (λ t. rest t ≡ rest self.now) };

    /// Returns the value with the minute `minute`.
    ///
    /// Returns `None` if `minute` is 60 or more.
    ///
    /// ```
    /// NaiveTime::from_hms_opt(15, 4, 5)?.with_minute(30) // Some(15:30:05)
    /// NaiveTime::from_hms_opt(15, 4, 5)?.with_minute(60) // None
    /// ```
    fn with_minute(&self, minute: u32) -> Option<Self>
        ensures some { IsSome result ↔ (minute < 60) }
        ensures replaced { IfSome result (λ t. time t ≡ time_with_minute (time self.now) minute) }
        ensures rest_stays { IfSome result (λ t. rest t ≡ rest self.now) };

    /// Returns the value with the second `second`. The nanoseconds stay, also those of a leap second.
    ///
    /// Returns `None` if `second` is 60 or more.
    ///
    /// ```
    /// NaiveTime::from_hms_opt(15, 4, 5)?.with_second(30) // Some(15:04:30)
    /// NaiveTime::from_hms_opt(15, 4, 5)?.with_second(60) // None
    /// ```
    fn with_second(&self, second: u32) -> Option<Self>
        ensures some { IsSome result ↔ (second < 60) }
        ensures replaced { IfSome result (λ t. time t ≡ time_with_second (time self.now) second) }
        ensures rest_stays { IfSome result (λ t. rest t ≡ rest self.now) };

    /// Returns the value with `nano` nanoseconds past the second. From 1,000,000,000 on they lie in a leap second.
    ///
    /// Returns `None` if `nano` is 2,000,000,000 or more.
    ///
    /// ```
    /// NaiveTime::from_hms_opt(15, 4, 5)?.with_nanosecond(6_000_000) // Some(15:04:05.006)
    /// NaiveTime::from_hms_opt(15, 4, 5)?.with_nanosecond(2_000_000_000) // None
    /// ```
    fn with_nanosecond(&self, nano: u32) -> Option<Self>
        ensures some { IsSome result ↔ (nano < 2 * nanos_per_second) }
        ensures replaced { IfSome result (λ t. time t ≡ time_with_fraction (time self.now) nano) }
        ensures rest_stays { IfSome result (λ t. rest t ≡ rest self.now) };

    /// Returns the whole seconds since midnight: 0 to 86,399.
    ///
    /// ```
    /// NaiveTime::from_hms_opt(1, 0, 5)?.num_seconds_from_midnight() // 3605
    /// ```
    #[inline]
    fn num_seconds_from_midnight(&self) -> u32
        ensures value { result ≡ (time self.now).second }
        ensures bound { result < seconds_per_day }
    {
        self.hour() * SECS_PER_HOUR + self.minute() * SECS_PER_MINUTE + self.second()
    }
}

impl Timelike for NaiveTime {
    ghost time = { λ t. t };

    ghost rest = { λ _. [] };

    #[inline]
    fn hour(&self) -> u32 {
        self.second_of_day() / SECS_PER_HOUR
    }

    #[inline]
    fn minute(&self) -> u32 {
        self.second_of_day() / SECS_PER_MINUTE % 60
    }

    #[inline]
    fn second(&self) -> u32 {
        self.second_of_day() % SECS_PER_MINUTE
    }

    #[inline]
    fn nanosecond(&self) -> u32 {
        self.fraction()
    }

    #[inline]
    fn with_hour(&self, hour: u32) -> Option<NaiveTime> {
        if hour >= 24 {
            return None;
        }
        Some(self.at_second_of_day(hour * SECS_PER_HOUR + self.second_of_day() % SECS_PER_HOUR))
    }

    #[inline]
    fn with_minute(&self, minute: u32) -> Option<NaiveTime> {
        if minute >= 60 {
            return None;
        }
        let second = self.second_of_day();
        let hours = second / SECS_PER_HOUR * SECS_PER_HOUR;
        Some(self.at_second_of_day(hours + minute * SECS_PER_MINUTE + second % SECS_PER_MINUTE))
    }

    #[inline]
    fn with_second(&self, second: u32) -> Option<NaiveTime> {
        if second >= 60 {
            return None;
        }
        let minutes = self.second_of_day() / SECS_PER_MINUTE * SECS_PER_MINUTE;
        Some(self.at_second_of_day(minutes + second))
    }

    #[inline]
    fn with_nanosecond(&self, nano: u32) -> Option<NaiveTime> {
        if nano >= 2 * NANOS_PER_SEC {
            return None;
        }
        Some(self.at_fraction(nano))
    }

    #[inline]
    fn num_seconds_from_midnight(&self) -> u32 {
        self.second_of_day()
    }
}

//! `InZone`: date-times made in a zone.
ghost use Rattle.std.specs.Prelude.{◌≡◌, ◌↔◌, ◌+ℤ◌, IfSome, IsSome};
ghost use Rattle.chrono_datetime.specs.Days.{date_of_ymd};
ghost use Rattle.chrono_datetime.specs.Moment.{moment_on};
ghost use Rattle.chrono_datetime.specs.Time.{FractionFits, IsClock, time_at};
ghost use Rattle.chrono_instant.specs.Instants.{IsEpochSecond, LiesIn, second_of_minute};
ghost use Rattle.chrono_zoned.specs.Zoned.{AreLocal, AreLocalIf, ShowsDate};

use crate::date_time::DateTime;
use crate::mapped_local_time::MappedLocalTime;
use crate::time_zone::TimeZone;
use chrono_datetime::{AndTime, NaiveDate, NaiveDateTime};
use chrono_instant::FromTimestamp;

/// Makes date-times in a zone. Every [`TimeZone`] has it.
///
/// ```
/// Utc.with_ymd_and_hms(2024, 2, 29, 9, 30, 0) // Single(2024-02-29T09:30:00+00:00)
/// ```
pub trait InZone: TimeZone {
    /// Returns the date-time in this zone at the instant at which UTC shows `utc`.
    ///
    /// Returns `None` if the clock shows no date there: past the last date, or before the first.
    ///
    /// ```
    /// use chrono_datetime::NaiveDateTime;
    /// FixedOffset::west_opt(3_600)?.from_utc_datetime(&NaiveDateTime::default()) // Some(1969-12-31T23:00:00-01:00)
    /// FixedOffset::west_opt(3_600)?.from_utc_datetime(&NaiveDateTime::MIN) // None
    /// ```
    fn from_utc_datetime(&self, utc: &NaiveDateTime) -> Option<DateTime<Self>>
        ensures value { IfSome result (λ d. d ≡ record { utc = utc.now; zone = self.now }) }
        ensures exists { IsSome result ↔ ShowsDate (Self.ahead self.now) utc.now };

    /// Returns the date-times in this zone at which its clock shows `local`.
    ///
    /// An instant counts only if UTC has a date for it.
    ///
    /// ```
    /// use chrono_datetime::{AndTime, NaiveDate, NaiveDateTime};
    /// let local = NaiveDate::from_ymd_opt(2024, 2, 29)?.and_hms_opt(9, 30, 0)?;
    /// FixedOffset::east_opt(3_600)?.from_local_datetime(&local) // Single(2024-02-29T09:30:00+01:00)
    /// FixedOffset::east_opt(3_600)?.from_local_datetime(&NaiveDateTime::MIN) // None
    /// ```
    fn from_local_datetime(&self, local: &NaiveDateTime) -> MappedLocalTime<DateTime<Self>>
        ensures { AreLocal Self.ahead self.now local.now result };

    /// Returns the date-times in this zone at which its clock shows this date and time of day.
    ///
    /// There is none if the date or the time does not exist, or if the clock does not show it.
    ///
    /// ```
    /// Utc.with_ymd_and_hms(2024, 2, 29, 9, 30, 0) // Single(2024-02-29T09:30:00+00:00)
    /// Utc.with_ymd_and_hms(2023, 2, 29, 9, 30, 0) // None
    /// ```
    fn with_ymd_and_hms(
        &self,
        year: i32,
        month: u32,
        day: u32,
        hour: u32,
        min: u32,
        sec: u32,
    ) -> MappedLocalTime<DateTime<Self>>
        ensures named { IsClock hour min sec → AreLocalIf Self.ahead self.now
            (moment_on (date_of_ymd year month day) (time_at hour min sec 0)) result }
        ensures none { ¬ IsClock hour min sec → result ≡ MappedLocalTime.None };

    /// Returns the date-time in this zone `secs` seconds after 1 January 1970 in UTC, and `nsecs` nanoseconds past that
    /// second.
    ///
    /// Returns `None` if [`FromTimestamp::from_timestamp`] does, or if the clock shows no date there.
    ///
    /// ```
    /// FixedOffset::east_opt(3_600)?.timestamp_opt(-1, 0) // Some(1970-01-01T00:59:59+01:00)
    /// Utc.timestamp_opt(0, 1_000_000_000) // None
    /// ```
    fn timestamp_opt(&self, secs: i64, nsecs: u32) -> Option<DateTime<Self>>
        ensures instant { IfSome result (λ d. LiesIn secs nsecs d.utc) }
        ensures zone { IfSome result (λ d. d.zone ≡ self.now) }
        ensures exists { IsSome result ↔ (IsEpochSecond secs × FractionFits (second_of_minute secs) nsecs
            × IsEpochSecond (secs +ℤ Self.ahead self.now secs)) };
}

impl<Z: TimeZone> InZone for Z {
    #[inline]
    fn from_utc_datetime(&self, utc: &NaiveDateTime) -> Option<DateTime<Z>> {
        DateTime::at_utc(*utc, *self)
    }

    #[inline]
    fn from_local_datetime(&self, local: &NaiveDateTime) -> MappedLocalTime<DateTime<Z>> {
        DateTime::at_local(*local, *self)
    }

    #[inline]
    fn with_ymd_and_hms(
        &self,
        year: i32,
        month: u32,
        day: u32,
        hour: u32,
        min: u32,
        sec: u32,
    ) -> MappedLocalTime<DateTime<Z>> {
        let Some(date) = NaiveDate::from_ymd_opt(year, month, day) else {
            return MappedLocalTime::None;
        };
        match date.and_hms_opt(hour, min, sec) {
            Some(local) => self.from_local_datetime(&local),
            None => MappedLocalTime::None,
        }
    }

    #[inline]
    fn timestamp_opt(&self, secs: i64, nsecs: u32) -> Option<DateTime<Z>> {
        DateTime::at_utc(NaiveDateTime::from_timestamp(secs, nsecs)?, *self)
    }
}

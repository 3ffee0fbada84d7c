//! `DateTime`: an instant in a zone.
//!
//! The modules below it have the rest:
//!
//! - `fields`: reading the local date and time
//! - `moves`: moves by durations, days and months
//! - `ops`: the operators
//! - `order`: comparing and hashing instants
//! - `system_time`: the clock of the operating system
//! - `text`: the printed texts
ghost use Rattle.std.specs.Prelude.{◌≡◌, ◌↔◌, ◌-ℤ◌, IfSome, IsSome};
ghost use Rattle.chrono_instant.specs.Instants.{IsEpochSecond, epoch_second};
ghost use Rattle.chrono_instant.specs.Offsets.{IsShifted};
ghost use Rattle.chrono_zoned.specs.Zones.{Shows};
ghost use Rattle.chrono_zoned.specs.Zoned.{AreLocal, IsLocal, ShowsDate, local_at, offset_at};

mod fields;
mod moves;
mod ops;
mod order;
mod system_time;
mod text;

use crate::mapped_local_time::MappedLocalTime;
use crate::time_zone::TimeZone;
use crate::zones::Utc;
use chrono_datetime::NaiveDateTime;
use chrono_instant::{AddOffset, FixedOffset, FromTimestamp, Timestamp};
use std::alloc::AllocError;
use std::marker::Model;

/// An instant in a zone `Z`, whose clock shows a date there.
///
/// A contract sees it as the date-time that UTC shows at the instant, and the zone.
///
/// ```
/// let start = Utc.with_ymd_and_hms(2024, 2, 29, 9, 30, 0).single()?;
/// let india = FixedOffset::east_opt(19_800)?;
/// start.checked_with_timezone(&india) // Some(2024-02-29T15:00:00+05:30)
/// ```
pub struct DateTime<Z: TimeZone> {
    utc: NaiveDateTime,
    offset: FixedOffset,
    zone: Z,
}

impl<Z: TimeZone> Model for DateTime<Z> {
    ghost use Rattle.std.specs.Prelude.{◌≡◌};
    ghost use Rattle.chrono_zoned.specs.Zoned.{Zoned, ShowsDate, offset_at};

    ghost Value = { Zoned Z };

    ghost view = { λ a. record { utc = a.utc; zone = a.zone } };

    ghost invariant = { λ a. (a.offset ≡ offset_at (Z.ahead a.zone) a.utc) × ShowsDate (Z.ahead a.zone) a.utc };

    ghost inverse = { λ d. record { utc = d.utc; offset = offset_at (Z.ahead d.zone) d.utc; zone = d.zone } };
}

impl<Z: TimeZone> DateTime<Z> {
    // The date-time of a zone where UTC shows `utc`.
    #[inline]
    pub(crate) fn at_utc(utc: NaiveDateTime, zone: Z) -> Option<DateTime<Z>>
        ensures value { IfSome result (λ d. d ≡ record { utc = utc; zone = zone }) }
        ensures exists { IsSome result ↔ ShowsDate (Z.ahead zone) utc }
    {
        let offset = zone.offset_from_utc_datetime(&utc);
        utc.checked_add_offset(offset)?;
        Some(DateTime { utc, offset, zone })
    }

    /// Returns the date-time in `zone` whose clock shows `local` there, ahead of UTC by `offset`.
    ///
    /// A caller that has the offset from a [`Stretch`](crate::Stretch) need not ask the zone for it again. Returns `None` if UTC has no
    /// date for the instant.
    ///
    /// Requires that the zone has this offset at that instant.
    ///
    /// ```
    /// use chrono_datetime::{AndTime, NaiveDate, NaiveDateTime};
    /// let india = FixedOffset::east_opt(19_800)?;
    /// let local = NaiveDate::from_ymd_opt(2024, 2, 29)?.and_hms_opt(9, 30, 0)?;
    /// DateTime::from_local_and_offset(local, india.stretch_from(0).offset, india) // Some(2024-02-29T09:30:00+05:30)
    /// DateTime::from_local_and_offset(NaiveDateTime::MIN, india, india) // None
    /// ```
    #[inline]
    pub fn from_local_and_offset(
        local: NaiveDateTime,
        offset: FixedOffset,
        zone: Z,
    ) -> Option<DateTime<Z>>
        requires { Shows (Z.ahead zone) (epoch_second local) (epoch_second local -ℤ offset) }
        ensures second { IfSome result (λ d. epoch_second d.utc ≡ epoch_second local -ℤ offset) }
        ensures fraction { IfSome result (λ d. d.utc.time.fraction ≡ local.time.fraction) }
        ensures local { IfSome result (IsLocal Z.ahead zone local) }
        ensures exists { IsSome result ↔ IsEpochSecond (epoch_second local -ℤ offset) }
    {
        let utc = local.checked_sub_offset(offset)?;
        Some(DateTime { utc, offset, zone })
    }

    // The date-times of a zone where its clock shows `local`.
    #[inline]
    pub(crate) fn at_local(local: NaiveDateTime, zone: Z) -> MappedLocalTime<DateTime<Z>>
        ensures { AreLocal Z.ahead zone local result }
    {
        match zone.offset_from_local_datetime(&local) {
            MappedLocalTime::None => MappedLocalTime::None,
            MappedLocalTime::Single(offset) => match DateTime::from_local_and_offset(
                local, offset, zone,
            ) {
                Some(only) => MappedLocalTime::Single(only),
                None => MappedLocalTime::None,
            },
            MappedLocalTime::Ambiguous(first, second) => {
                let earlier = DateTime::from_local_and_offset(local, first, zone);
                let later = DateTime::from_local_and_offset(local, second, zone);
                match (earlier, later) {
                    (Some(earlier), Some(later)) => MappedLocalTime::Ambiguous(earlier, later),
                    (Some(only), None) | (None, Some(only)) => MappedLocalTime::Single(only),
                    (None, None) => MappedLocalTime::None,
                }
            }
        }
    }

    /// Returns the zone.
    ///
    /// ```
    /// Utc.with_ymd_and_hms(2024, 2, 29, 9, 30, 0).single()?.timezone() // Utc
    /// ```
    #[inline]
    pub fn timezone(&self) -> Z
        ensures { result ≡ self.now.zone }
    {
        self.zone
    }

    /// Returns how far the zone's clock is ahead of UTC at the instant.
    ///
    /// ```
    /// Utc.with_ymd_and_hms(2024, 2, 29, 9, 30, 0).single()?.offset() // +00:00
    /// ```
    #[inline]
    pub fn offset(&self) -> FixedOffset
        ensures { result ≡ offset_at (Z.ahead self.now.zone) self.now.utc }
    {
        self.offset
    }

    /// Returns the date-time that the zone's clock shows.
    ///
    /// ```
    /// use chrono_datetime::NaiveDateTime;
    /// let instant = FixedOffset::east_opt(3_600)?.from_utc_datetime(&NaiveDateTime::default())?;
    /// instant.naive_local() // 1970-01-01T01:00:00
    /// ```
    #[inline]
    pub fn naive_local(&self) -> NaiveDateTime
        ensures value { IsShifted self.now.utc (offset_at (Z.ahead self.now.zone) self.now.utc) result }
        ensures ahead { result ≡ local_at (Z.ahead self.now.zone) self.now.utc }
    {
        self.utc.checked_add_offset(self.offset).unwrap()
    }

    /// Returns the date-time in `zone` at the same instant.
    ///
    /// Returns `None` if the clock of `zone` shows no date there.
    ///
    /// ```
    /// let start = Utc.with_ymd_and_hms(2024, 2, 29, 9, 30, 0).single()?;
    /// start.checked_with_timezone(&FixedOffset::east_opt(19_800)?) // Some(2024-02-29T15:00:00+05:30)
    /// ```
    #[inline]
    pub fn checked_with_timezone<Y: TimeZone>(&self, zone: &Y) -> Option<DateTime<Y>>
        ensures value { IfSome result (λ d. d ≡ record { utc = self.now.utc; zone = zone.now }) }
        ensures exists { IsSome result ↔ ShowsDate (Y.ahead zone.now) self.now.utc }
    {
        DateTime::at_utc(self.utc, *zone)
    }

    /// Returns the date-time in `zone` at the same instant, as [`checked_with_timezone`](Self::checked_with_timezone)
    /// does.
    ///
    /// Requires that the clock of `zone` shows a date there.
    ///
    /// ```
    /// let offset = FixedOffset::east_opt(3_600)?;
    /// offset.with_ymd_and_hms(2024, 2, 29, 9, 30, 0).single()?.with_timezone(&Utc) // 2024-02-29T08:30:00+00:00
    /// ```
    #[inline]
    pub fn with_timezone<Y: TimeZone>(&self, zone: &Y) -> DateTime<Y>
        requires { ShowsDate (Y.ahead zone.now) self.now.utc }
        ensures { result ≡ record { utc = self.now.utc; zone = zone.now } }
    {
        self.checked_with_timezone(zone).unwrap()
    }

    /// Returns the date-time at the same instant whose zone is the offset alone.
    ///
    /// ```
    /// Utc.with_ymd_and_hms(2024, 2, 29, 9, 30, 0).single()?.fixed_offset() // 2024-02-29T09:30:00+00:00
    /// ```
    #[inline]
    pub fn fixed_offset(&self) -> DateTime<FixedOffset>
        ensures { result ≡ record { utc = self.now.utc; zone = offset_at (Z.ahead self.now.zone) self.now.utc } }
    {
        DateTime {
            utc: self.utc,
            offset: self.offset,
            zone: self.offset,
        }
    }

    /// Returns the date-time in UTC at the same instant.
    ///
    /// ```
    /// let offset = FixedOffset::east_opt(3_600)?;
    /// offset.with_ymd_and_hms(2024, 2, 29, 9, 30, 0).single()?.to_utc() // 2024-02-29T08:30:00+00:00
    /// ```
    #[inline]
    pub fn to_utc(&self) -> DateTime<Utc>
        ensures { result ≡ record { utc = self.now.utc; zone = record {} } }
    {
        DateTime::from_naive_utc(self.utc)
    }
}

impl<Z: TimeZone> Clone for DateTime<Z> {
    ghost use Rattle.std.specs.Prelude.{◌≡◌, ⊤};

    ghost is_clone = { λ d e. e ≡ d };

    ghost is_infallible = { λ _. ⊤ };

    #[inline]
    fn clone(&self) -> Result<DateTime<Z>, AllocError> {
        Ok(*self)
    }
}

impl<Z: TimeZone> Copy for DateTime<Z> {}

impl<Z: TimeZone> Timestamp for DateTime<Z> {
    ghost utc = { λ d. d.utc };

    #[inline]
    fn naive_utc(&self) -> NaiveDateTime {
        self.utc
    }
}

impl FromTimestamp for DateTime<Utc> {
    #[inline]
    fn from_naive_utc(datetime: NaiveDateTime) -> DateTime<Utc> {
        DateTime::at_utc(datetime, Utc).unwrap()
    }
}

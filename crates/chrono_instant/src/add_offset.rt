//! `AddOffset`: date-times from UTC to local time, and back.
ghost use Rattle.std.specs.Prelude.{◌≡◌, ◌↔◌, ◌+ℤ◌, ◌-ℤ◌, neg_ℤ, IfSome, IsSome};
ghost use Rattle.chrono_datetime.specs.Moment.{IsMoment, Moment};
ghost use Rattle.chrono_clock.specs.Time.{IsTime, clock_ahead, landing_of};
ghost use Rattle.chrono_instant.specs.Instants.{IsEpochSecond, epoch_second};
ghost use Rattle.chrono_instant.specs.Offsets.{IsShifted, moment_ahead};

use crate::fixed_offset::FixedOffset;
use chrono_datetime::{AndTime, NaiveDateTime, NaiveTime, SECS_PER_DAY, Timelike};

/// Sets a clock ahead or back by an offset.
///
/// Unlike a move by a duration, it keeps the nanoseconds of a leap second and counts none.
///
/// ```
/// use chrono_datetime::{AndTime, NaiveDate};
/// let utc = NaiveDate::from_ymd_opt(2016, 12, 31)?.and_hms_milli_opt(23, 59, 59, 1_500)?;
/// utc.checked_add_offset(FixedOffset::east_opt(3_600)?) // Some(2017-01-01T00:59:60.500)
/// ```
pub trait AddOffset: Sized {
    // The date-time that the clock shows.
    ghost shown: { Self → Moment };

    /// Returns what a clock that is ahead by `rhs` shows: local time from UTC.
    ///
    /// Returns `None` if that is after the last date or before the first.
    ///
    /// ```
    /// use chrono_datetime::{AndTime, NaiveDate, NaiveDateTime};
    /// let offset = FixedOffset::east_opt(19_800)?;
    /// NaiveDate::from_ymd_opt(2024, 2, 28)?.and_hms_opt(20, 0, 0)?.checked_add_offset(offset) // Some(2024-02-29T01:30:00)
    /// NaiveDateTime::MAX.checked_add_offset(offset) // None
    /// ```
    fn checked_add_offset(self, rhs: FixedOffset) -> Option<Self>
        ensures value { IfSome result (λ e. IsShifted (shown self) rhs (shown e)) }
        ensures exists { IsSome result ↔ IsEpochSecond (epoch_second (shown self) +ℤ rhs) }
        ensures ahead { IfSome result (λ e. shown e ≡ moment_ahead (shown self) rhs) }
        ensures start { IsMoment (shown self) };

    /// Returns what a clock that is behind by `rhs` shows: UTC from local time.
    ///
    /// Returns `None` if that is before the first date or after the last.
    ///
    /// ```
    /// use chrono_datetime::{AndTime, NaiveDate, NaiveDateTime};
    /// let offset = FixedOffset::east_opt(19_800)?;
    /// NaiveDate::from_ymd_opt(2024, 3, 1)?.and_hms_opt(5, 0, 0)?.checked_sub_offset(offset) // Some(2024-02-29T23:30:00)
    /// NaiveDateTime::MIN.checked_sub_offset(offset) // None
    /// ```
    fn checked_sub_offset(self, rhs: FixedOffset) -> Option<Self>
        ensures value { IfSome result (λ e. IsShifted (shown self) (neg_ℤ rhs) (shown e)) }
        ensures exists { IsSome result ↔ IsEpochSecond (epoch_second (shown self) -ℤ rhs) }
        ensures behind { IfSome result (λ e. shown e ≡ moment_ahead (shown self) (neg_ℤ rhs)) }
        ensures start { IsMoment (shown self) };
}

impl AddOffset for NaiveDateTime {
    ghost shown = { λ m. m };

    #[inline]
    fn checked_add_offset(self, rhs: FixedOffset) -> Option<NaiveDateTime> {
        shifted(self, rhs.local_minus_utc())
    }

    #[inline]
    fn checked_sub_offset(self, rhs: FixedOffset) -> Option<NaiveDateTime> {
        shifted(self, rhs.utc_minus_local())
    }
}

// What a clock so many seconds ahead shows.
#[inline]
fn shifted(datetime: NaiveDateTime, seconds: i32) -> Option<NaiveDateTime>
    ensures value { IfSome result (IsShifted datetime seconds) }
    ensures exists { IsSome result ↔ IsEpochSecond (epoch_second datetime +ℤ seconds) }
    ensures ahead { IfSome result (λ e. e ≡ moment_ahead datetime seconds) }
    ensures start { IsMoment datetime }
{
    let time = datetime.time();
    if let Some(shown) = shown_that_day(time, seconds) {
        return Some(datetime.date().and_time(shown));
    }
    let (time, days) = time.overflowing_add_offset(seconds);
    let date = datetime.date().moved_by_days(i64::from(days))?;
    Some(date.and_time(time))
}

// What a clock so many seconds ahead shows, if its day is the same. It is found without a division. `None` says nothing.
#[inline(always)]
fn shown_that_day(time: NaiveTime, seconds: i32) -> Option<NaiveTime>
    ensures same { IfSome result (λ t. clock_ahead time seconds ≡ landing_of t) }
    ensures start { IsTime time }
{
    let second = i64::from(time.num_seconds_from_midnight()) + i64::from(seconds);
    if second < 0 || i64::from(SECS_PER_DAY) <= second {
        return None;
    }
    NaiveTime::from_num_seconds_from_midnight_opt(second as u32, time.nanosecond())
}

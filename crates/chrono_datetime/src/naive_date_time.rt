//! `NaiveDateTime`: the type, its ends and parts, and its moves and differences by durations.
//!
//! The modules below it have the rest:
//!
//! - `order`: comparing date-times
//! - `fields`: reading the fields, and replacing them
//! - `moves`: moves by months and days
//! - `ops`: the operators
//! - `text`: the printed texts
ghost use Rattle.std.specs.Prelude.{◌≡◌, pos, neg_ℤ, ◌<ℤ◌, ◌↔◌, ◌⊎◌, IfSome, IsSome, Some};
ghost use Rattle.chrono_clock.specs.Time.{IsPlain, time_at};
ghost use Rattle.chrono_naive.specs.Days.{IsDate};
ghost use Rattle.chrono_datetime.specs.Moment.{IsMoment, moment, moved, reach, moment_distance, IsBefore, MovesAddUp, LeadsBack, SignTellsOrder};

mod fields;
mod moves;
mod ops;
mod order;
mod text;

use chrono_clock::{NaiveTime, TimeDelta};
use chrono_naive::{Datelike, NaiveDate};
use std::marker::Model;

// The days from the first date to the last.
const FARTHEST_DAYS: i32 = 191_491_528;

/// The first date-time, [`NaiveDateTime::MIN`].
///
/// ```
/// MIN_DATETIME // -262143-01-01T00:00:00
/// ```
pub const MIN_DATETIME: NaiveDateTime = NaiveDateTime::MIN;

/// The last date-time outside a leap second, [`NaiveDateTime::MAX`].
///
/// ```
/// MAX_DATETIME // +262142-12-31T23:59:59.999999999
/// ```
pub const MAX_DATETIME: NaiveDateTime = NaiveDateTime::MAX;

/// A date and a time of day, with no time zone (ISO 8601 date and time of day).
///
/// Contracts see it as the date's day number and the time's second and fraction. Date-times are equal, ordered
/// and hashed by date and then by time of day. The default is 1 January 1970, 00:00:00.
///
/// A duration moves a date-time along a line of seconds. If the starting time is in a leap second, the line
/// contains that leap second; it contains no other.
///
/// ```
/// let start = NaiveDate::from_ymd_opt(2024, 2, 28)?.and_hms_opt(23, 0, 0)?;
/// start.checked_add_signed(TimeDelta::hours(2)) // Some(2024-02-29T01:00:00)
/// ```
#[derive(Clone, Copy, PartialEq, Eq, Hash)]
pub struct NaiveDateTime {
    date: NaiveDate,
    time: NaiveTime,
}

const _: () = prove!(std::mem::size_of::<NaiveDateTime>() <= 12);

impl Model for NaiveDateTime {
    ghost use Rattle.chrono_datetime.specs.Moment.{Moment};

    ghost Value = { Moment };

    ghost view = { λ a. record { date = a.date; time = a.time } };

    ghost inverse = { λ m. record { date = m.date; time = m.time } };
}

impl NaiveDateTime {
    /// The first date-time: 1 January of year -262,143, 00:00:00.
    ///
    /// ```
    /// NaiveDateTime::MIN // -262143-01-01T00:00:00
    /// ```
    pub const MIN: NaiveDateTime = NaiveDateTime {
        date: NaiveDate::MIN,
        time: NaiveTime::MIN,
    };

    /// The last date-time outside a leap second: 31 December of year 262,142, 23:59:59.999999999.
    ///
    /// A time in the leap second after it is a date-time too, and is greater.
    ///
    /// ```
    /// NaiveDateTime::MAX // +262142-12-31T23:59:59.999999999
    /// ```
    pub const MAX: NaiveDateTime = NaiveDateTime {
        date: NaiveDate::MAX,
        time: NaiveTime::MAX,
    };

    /// Returns the date-time at `date` and `time`.
    ///
    /// ```
    /// let date = NaiveDate::from_ymd_opt(2024, 2, 29)?;
    /// NaiveDateTime::new(date, NaiveTime::from_hms_opt(9, 30, 0)?) // 2024-02-29T09:30:00
    /// ```
    #[inline]
    pub fn new(date: NaiveDate, time: NaiveTime) -> NaiveDateTime
        ensures { result ≡ moment date time }
    {
        NaiveDateTime { date, time }
    }

    /// Returns the date.
    ///
    /// ```
    /// NaiveDate::from_ymd_opt(2024, 2, 29)?.and_hms_opt(9, 30, 0)?.date() // 2024-02-29
    /// ```
    #[inline]
    pub fn date(&self) -> NaiveDate
        ensures { result ≡ self.now.date }
    {
        self.date
    }

    /// Returns the time of day.
    ///
    /// ```
    /// NaiveDate::from_ymd_opt(2024, 2, 29)?.and_hms_opt(9, 30, 0)?.time() // 09:30:00
    /// ```
    #[inline]
    pub fn time(&self) -> NaiveTime
        ensures { result ≡ self.now.time }
    {
        self.time
    }

    /// Returns the date-time that lies `rhs` later, or earlier if `rhs` is negative.
    ///
    /// Returns `None` if the move ends on a day after that of [`MAX`](Self::MAX) or before that of
    /// [`MIN`](Self::MIN).
    ///
    /// ```
    /// let start = NaiveDate::from_ymd_opt(2024, 2, 28)?.and_hms_opt(23, 0, 0)?;
    /// start.checked_add_signed(TimeDelta::hours(2)) // Some(2024-02-29T01:00:00)
    /// NaiveDateTime::MAX.checked_add_signed(TimeDelta::nanoseconds(1)) // None
    /// ```
    ///
    /// A move from inside a leap second counts the rest of that second. A move counts no other leap second that
    /// it passes.
    ///
    /// ```
    /// let leap = NaiveDate::from_ymd_opt(2015, 6, 30)?.and_hms_milli_opt(23, 59, 59, 1_500)?;
    /// leap.checked_add_signed(TimeDelta::milliseconds(500)) // Some(2015-07-01T00:00:00)
    /// ```
    ///
    /// From inside a leap second on the last date, a move can end later in that second, so after
    /// [`MAX`](Self::MAX).
    #[inline]
    pub fn checked_add_signed(self, rhs: TimeDelta) -> Option<NaiveDateTime>
        ensures value { result ≡ reach self rhs }
        ensures exists { IsSome result ↔ IsDate (moved self rhs).date }
        ensures moved { IfSome result (λ e. e ≡ moved self rhs) }
        ensures start { IsMoment self }
        ensures end { IfSome result IsMoment }
        // From a start in no leap second it leads to an end in none.
        ensures plain { IsPlain self.time → IfSome result (λ e. IsPlain e.time) }
        // The end is as far from the start as the duration is long, if the start is in no leap second or both have one date.
        ensures distance { IfSome result (λ e. IsPlain self.time ⊎ (e.date ≡ self.date) →
            moment_distance e self ≡ rhs) }
        // A second move ends where the one move by the sum ends.
        ensures adds_up { IfSome result (λ e. MovesAddUp self rhs e) }
        ensures later { IfSome result (λ e. (pos 0 <ℤ rhs) ↔ IsBefore self e) }
        ensures earlier { IfSome result (λ e. (rhs <ℤ pos 0) ↔ IsBefore e self) }
    {
        let (time, days) = self.time.landing(rhs);
        let date = self.date.moved_by_days(days)?;
        Some(NaiveDateTime { date, time })
    }

    /// Returns the date-time that lies `rhs` earlier, or later if `rhs` is negative. The result is that of
    /// [`checked_add_signed`](Self::checked_add_signed) with `-rhs`, also from inside a leap second.
    ///
    /// Returns `None` if the move ends on a day before that of [`MIN`](Self::MIN) or after that of
    /// [`MAX`](Self::MAX).
    ///
    /// ```
    /// let end = NaiveDate::from_ymd_opt(2024, 3, 1)?.and_hms_opt(1, 0, 0)?;
    /// end.checked_sub_signed(TimeDelta::hours(2)) // Some(2024-02-29T23:00:00)
    /// NaiveDateTime::MIN.checked_sub_signed(TimeDelta::nanoseconds(1)) // None
    /// ```
    #[inline]
    pub fn checked_sub_signed(self, rhs: TimeDelta) -> Option<NaiveDateTime>
        ensures value { result ≡ reach self (neg_ℤ rhs) }
        ensures exists { IsSome result ↔ IsDate (moved self (neg_ℤ rhs)).date }
        ensures moved { IfSome result (λ e. e ≡ moved self (neg_ℤ rhs)) }
        ensures start { IsMoment self }
        ensures end { IfSome result IsMoment }
        // From a start in no leap second it leads to an end in none.
        ensures plain { IsPlain self.time → IfSome result (λ e. IsPlain e.time) }
        // The start is as far from the end as the duration is long, if the start is in no leap second or both have one date.
        ensures distance { IfSome result (λ e. IsPlain self.time ⊎ (e.date ≡ self.date) →
            moment_distance self e ≡ rhs) }
    {
        self.checked_add_signed(-rhs)
    }

    /// Returns the duration from `rhs` to this date-time. It is the days between the dates, of 86,400 seconds
    /// each, plus the duration between the times of day.
    ///
    /// ```
    /// let start = NaiveDate::from_ymd_opt(2024, 2, 28)?.and_hms_opt(23, 0, 0)?;
    /// let end = NaiveDate::from_ymd_opt(2024, 3, 1)?.and_hms_opt(1, 0, 0)?;
    /// end.signed_duration_since(start).num_hours() // 26
    /// ```
    ///
    /// A leap second counts if one of the two times is in it and has the smaller second of day. So the result
    /// may be negative although `rhs` is the earlier one.
    ///
    /// ```
    /// let leap = NaiveDate::from_ymd_opt(2015, 6, 30)?.and_hms_milli_opt(23, 59, 59, 1_500)?;
    /// let midnight = NaiveDate::from_ymd_opt(2015, 7, 1)?.and_hms_opt(0, 0, 0)?;
    /// midnight.signed_duration_since(leap).num_milliseconds() // -500
    /// ```
    #[inline]
    pub fn signed_duration_since(self, rhs: NaiveDateTime) -> TimeDelta
        ensures value { result ≡ moment_distance self rhs }
        ensures moments { IsMoment self × IsMoment rhs }

        // From this date-time to `rhs` it is as far, with the other sign.
        ensures turned { result ≡ neg_ℤ (moment_distance rhs self) }
        // A move from `rhs` by the answer ends here.
        ensures back { LeadsBack self rhs → reach rhs result ≡ Some self }
        ensures later { SignTellsOrder self rhs → (pos 0 <ℤ result) ↔ IsBefore rhs self }
        ensures same { SignTellsOrder self rhs → (result ≡ pos 0) ↔ (self ≡ rhs) }
        ensures earlier { SignTellsOrder self rhs → (result <ℤ pos 0) ↔ IsBefore self rhs }
    {
        // Dates and times are not too far apart for a duration.
        prove!(self.date.num_days_from_ce() - rhs.date.num_days_from_ce() <= FARTHEST_DAYS);
        self.date.signed_duration_since(rhs.date) + self.time.signed_duration_since(rhs.time)
    }

    // The date-time at another date and the same time of day.
    #[inline]
    fn with_date(&self, date: NaiveDate) -> NaiveDateTime
        ensures { result ≡ moment date self.now.time }
    {
        NaiveDateTime {
            date,
            time: self.time,
        }
    }

    // The date-time at another time of day and the same date.
    #[inline]
    fn with_time(&self, time: NaiveTime) -> NaiveDateTime
        ensures { result ≡ moment self.now.date time }
    {
        NaiveDateTime {
            date: self.date,
            time,
        }
    }
}

impl Default for NaiveDateTime {
    ghost is_default = { λ m. m ≡ moment (pos 719_163) (time_at 0 0 0 0) };

    /// Returns 1 January 1970, 00:00:00.
    #[inline]
    fn default() -> NaiveDateTime {
        NaiveDateTime::from(NaiveDate::default())
    }
}

impl From<NaiveDate> for NaiveDateTime {
    ghost from_gives = { λ d m. m ≡ moment d (time_at 0 0 0 0) };

    /// Returns the date-time at 00:00:00 of `date`.
    #[inline]
    fn from(date: NaiveDate) -> NaiveDateTime {
        NaiveDateTime::new(date, NaiveTime::MIN)
    }
}

impl From<NaiveDateTime> for NaiveDate {
    ghost from_gives = { λ m d. d ≡ m.date };

    /// Returns the date of `datetime`.
    #[inline]
    fn from(datetime: NaiveDateTime) -> NaiveDate {
        datetime.date()
    }
}

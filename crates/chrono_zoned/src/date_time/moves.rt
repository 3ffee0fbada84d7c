//! Moves: a duration moves the instant, and days and months move the local date.
ghost use Rattle.std.specs.Prelude.{◌≡◌, ◌↔◌, ◌+ℤ◌, ◌-ℤ◌, pos, neg_ℤ, Some, IfSome, IsSome, IsSomeAnd};
ghost use Rattle.chrono_datetime.specs.Days.{date_of_day};
ghost use Rattle.chrono_datetime.specs.Moment.{moment_distance, moment_on, reach};
ghost use Rattle.chrono_datetime.specs.MonthMoves.{month_move};
ghost use Rattle.chrono_zoned.specs.Zoned.{AreLocalIf, IsOnlyLocalIf, ShowsDate, local_at};

use crate::date_time::DateTime;
use crate::mapped_local_time::MappedLocalTime;
use crate::time_zone::TimeZone;
use chrono_datetime::{Days, Months, NaiveDateTime, TimeDelta};
use chrono_instant::Timestamp;

impl<Z: TimeZone> DateTime<Z> {
    /// Returns the date-time `rhs` later, or earlier if `rhs` is negative, in the same zone.
    ///
    /// It moves the instant: UTC's date-time is that of `NaiveDateTime::checked_add_signed`. Returns `None` if that is
    /// past the dates, or if the clock of the zone shows no date there.
    ///
    /// ```
    /// use chrono_datetime::TimeDelta;
    /// let start = Utc.with_ymd_and_hms(2024, 2, 28, 23, 0, 0).single()?;
    /// start.checked_add_signed(TimeDelta::hours(2)) // Some(2024-02-29T01:00:00+00:00)
    /// ```
    #[inline]
    pub fn checked_add_signed(self, rhs: TimeDelta) -> Option<DateTime<Z>>
        ensures instant { IfSome result (λ d. reach self.utc rhs ≡ Some d.utc) }
        ensures zone { IfSome result (λ d. d.zone ≡ self.zone) }
        ensures exists { IsSome result ↔ IsSomeAnd (reach self.utc rhs) (ShowsDate (Z.ahead self.zone)) }
    {
        DateTime::at_utc(self.naive_utc().checked_add_signed(rhs)?, self.timezone())
    }

    /// Returns the date-time `rhs` earlier, or later if `rhs` is negative, in the same zone.
    ///
    /// Returns `None` if [`checked_add_signed`](Self::checked_add_signed) does with `-rhs`.
    ///
    /// ```
    /// use chrono_datetime::TimeDelta;
    /// let end = Utc.with_ymd_and_hms(2024, 3, 1, 1, 0, 0).single()?;
    /// end.checked_sub_signed(TimeDelta::hours(2)) // Some(2024-02-29T23:00:00+00:00)
    /// ```
    #[inline]
    pub fn checked_sub_signed(self, rhs: TimeDelta) -> Option<DateTime<Z>>
        ensures instant { IfSome result (λ d. reach self.utc (neg_ℤ rhs) ≡ Some d.utc) }
        ensures zone { IfSome result (λ d. d.zone ≡ self.zone) }
        ensures exists { IsSome result
            ↔ IsSomeAnd (reach self.utc (neg_ℤ rhs)) (ShowsDate (Z.ahead self.zone)) }
    {
        DateTime::at_utc(self.naive_utc().checked_sub_signed(rhs)?, self.timezone())
    }

    /// Returns the duration from `rhs` to this date-time, whatever their zones.
    ///
    /// ```
    /// let start = Utc.with_ymd_and_hms(2024, 2, 29, 9, 30, 0).single()?;
    /// let end = FixedOffset::east_opt(3_600)?.with_ymd_and_hms(2024, 2, 29, 12, 30, 0).single()?;
    /// end.signed_duration_since(start).num_hours() // 2
    /// ```
    #[inline]
    pub fn signed_duration_since<Y: TimeZone>(self, rhs: DateTime<Y>) -> TimeDelta
        ensures { result ≡ moment_distance self.utc rhs.utc }
    {
        self.naive_utc().signed_duration_since(rhs.naive_utc())
    }

    /// Returns the date-time whose local date is `days` days later, at the same local time of day.
    ///
    /// Returns `None` if that is after the last date, or if the clock does not show that local time exactly once.
    ///
    /// ```
    /// use chrono_datetime::Days;
    /// let start = Utc.with_ymd_and_hms(2024, 1, 31, 9, 30, 0).single()?;
    /// start.checked_add_days(Days::new(1)) // Some(2024-02-01T09:30:00+00:00)
    /// ```
    #[inline]
    pub fn checked_add_days(self, days: Days) -> Option<DateTime<Z>>
        ensures only { IsOnlyLocalIf Z.ahead self.zone
            (moment_on (date_of_day ((local_at (Z.ahead self.zone) self.utc).date +ℤ pos days)) (local_at (Z.ahead self.zone) self.utc).time) result }
        ensures date { IfSome result (λ d. (local_at (Z.ahead d.zone) d.utc).date ≡ (local_at (Z.ahead self.zone) self.utc).date +ℤ pos days) }
        ensures time { IfSome result (λ d. (local_at (Z.ahead d.zone) d.utc).time ≡ (local_at (Z.ahead self.zone) self.utc).time) }
        ensures zone { IfSome result (λ d. d.zone ≡ self.zone) }
    {
        only_local(self.naive_local().checked_add_days(days), self.timezone())
    }

    /// Returns the date-times at which the clock shows the local time that [`checked_add_days`](Self::checked_add_days)
    /// looks for. There are two if the clock is set back and shows it twice, the earlier first.
    ///
    /// ```
    /// use chrono_datetime::Days;
    /// let start = Utc.with_ymd_and_hms(2024, 1, 31, 9, 30, 0).single()?;
    /// start.mapped_add_days(Days::new(1)) // Single(2024-02-01T09:30:00+00:00)
    /// ```
    #[inline]
    pub fn mapped_add_days(self, days: Days) -> MappedLocalTime<DateTime<Z>>
        ensures { AreLocalIf Z.ahead self.zone
            (moment_on (date_of_day ((local_at (Z.ahead self.zone) self.utc).date +ℤ pos days)) (local_at (Z.ahead self.zone) self.utc).time) result }
    {
        all_local(self.naive_local().checked_add_days(days), self.timezone())
    }

    /// Returns the date-time whose local date is `days` days earlier, at the same local time of day.
    ///
    /// Returns `None` if that is before the first date, or if the clock does not show that local time exactly once.
    ///
    /// ```
    /// use chrono_datetime::Days;
    /// let start = Utc.with_ymd_and_hms(2024, 1, 31, 9, 30, 0).single()?;
    /// start.checked_sub_days(Days::new(31)) // Some(2023-12-31T09:30:00+00:00)
    /// ```
    #[inline]
    pub fn checked_sub_days(self, days: Days) -> Option<DateTime<Z>>
        ensures only { IsOnlyLocalIf Z.ahead self.zone
            (moment_on (date_of_day ((local_at (Z.ahead self.zone) self.utc).date -ℤ pos days)) (local_at (Z.ahead self.zone) self.utc).time) result }
        ensures date { IfSome result (λ d. (local_at (Z.ahead d.zone) d.utc).date ≡ (local_at (Z.ahead self.zone) self.utc).date -ℤ pos days) }
        ensures time { IfSome result (λ d. (local_at (Z.ahead d.zone) d.utc).time ≡ (local_at (Z.ahead self.zone) self.utc).time) }
        ensures zone { IfSome result (λ d. d.zone ≡ self.zone) }
    {
        only_local(self.naive_local().checked_sub_days(days), self.timezone())
    }

    /// Returns the date-times at which the clock shows the local time that [`checked_sub_days`](Self::checked_sub_days)
    /// looks for. There are two if the clock is set back and shows it twice, the earlier first.
    ///
    /// ```
    /// use chrono_datetime::Days;
    /// let start = Utc.with_ymd_and_hms(2024, 1, 31, 9, 30, 0).single()?;
    /// start.mapped_sub_days(Days::new(31)) // Single(2023-12-31T09:30:00+00:00)
    /// ```
    #[inline]
    pub fn mapped_sub_days(self, days: Days) -> MappedLocalTime<DateTime<Z>>
        ensures { AreLocalIf Z.ahead self.zone
            (moment_on (date_of_day ((local_at (Z.ahead self.zone) self.utc).date -ℤ pos days)) (local_at (Z.ahead self.zone) self.utc).time) result }
    {
        all_local(self.naive_local().checked_sub_days(days), self.timezone())
    }

    /// Returns the date-time whose local date is `months` months later, or the last day of that month if it is too short, at the same local time of day.
    ///
    /// Returns `None` if that is after the last date, or if the clock does not show that local time exactly once.
    ///
    /// ```
    /// use chrono_datetime::Months;
    /// let start = Utc.with_ymd_and_hms(2024, 1, 31, 9, 30, 0).single()?;
    /// start.checked_add_months(Months::new(1)) // Some(2024-02-29T09:30:00+00:00)
    /// ```
    #[inline]
    pub fn checked_add_months(self, months: Months) -> Option<DateTime<Z>>
        ensures only { IsOnlyLocalIf Z.ahead self.zone
            (moment_on (month_move (local_at (Z.ahead self.zone) self.utc).date (pos months)) (local_at (Z.ahead self.zone) self.utc).time) result }
        ensures date { IfSome result (λ d. month_move (local_at (Z.ahead self.zone) self.utc).date (pos months) ≡ Some (local_at (Z.ahead d.zone) d.utc).date) }
        ensures time { IfSome result (λ d. (local_at (Z.ahead d.zone) d.utc).time ≡ (local_at (Z.ahead self.zone) self.utc).time) }
        ensures zone { IfSome result (λ d. d.zone ≡ self.zone) }
    {
        only_local(
            self.naive_local().checked_add_months(months),
            self.timezone(),
        )
    }

    /// Returns the date-times at which the clock shows the local time that [`checked_add_months`](Self::checked_add_months)
    /// looks for. There are two if the clock is set back and shows it twice, the earlier first.
    ///
    /// ```
    /// use chrono_datetime::Months;
    /// let start = Utc.with_ymd_and_hms(2024, 1, 31, 9, 30, 0).single()?;
    /// start.mapped_add_months(Months::new(1)) // Single(2024-02-29T09:30:00+00:00)
    /// ```
    #[inline]
    pub fn mapped_add_months(self, months: Months) -> MappedLocalTime<DateTime<Z>>
        ensures { AreLocalIf Z.ahead self.zone
            (moment_on (month_move (local_at (Z.ahead self.zone) self.utc).date (pos months)) (local_at (Z.ahead self.zone) self.utc).time) result }
    {
        all_local(
            self.naive_local().checked_add_months(months),
            self.timezone(),
        )
    }

    /// Returns the date-time whose local date is `months` months earlier, or the last day of that month if it is too short, at the same local time of day.
    ///
    /// Returns `None` if that is before the first date, or if the clock does not show that local time exactly once.
    ///
    /// ```
    /// use chrono_datetime::Months;
    /// let start = Utc.with_ymd_and_hms(2024, 1, 31, 9, 30, 0).single()?;
    /// start.checked_sub_months(Months::new(2)) // Some(2023-11-30T09:30:00+00:00)
    /// ```
    #[inline]
    pub fn checked_sub_months(self, months: Months) -> Option<DateTime<Z>>
        ensures only { IsOnlyLocalIf Z.ahead self.zone
            (moment_on (month_move (local_at (Z.ahead self.zone) self.utc).date (neg_ℤ (pos months))) (local_at (Z.ahead self.zone) self.utc).time) result }
        ensures date { IfSome result (λ d. month_move (local_at (Z.ahead self.zone) self.utc).date (neg_ℤ (pos months)) ≡ Some (local_at (Z.ahead d.zone) d.utc).date) }
        ensures time { IfSome result (λ d. (local_at (Z.ahead d.zone) d.utc).time ≡ (local_at (Z.ahead self.zone) self.utc).time) }
        ensures zone { IfSome result (λ d. d.zone ≡ self.zone) }
    {
        only_local(
            self.naive_local().checked_sub_months(months),
            self.timezone(),
        )
    }

    /// Returns the date-times at which the clock shows the local time that [`checked_sub_months`](Self::checked_sub_months)
    /// looks for. There are two if the clock is set back and shows it twice, the earlier first.
    ///
    /// ```
    /// use chrono_datetime::Months;
    /// let start = Utc.with_ymd_and_hms(2024, 1, 31, 9, 30, 0).single()?;
    /// start.mapped_sub_months(Months::new(2)) // Single(2023-11-30T09:30:00+00:00)
    /// ```
    #[inline]
    pub fn mapped_sub_months(self, months: Months) -> MappedLocalTime<DateTime<Z>>
        ensures { AreLocalIf Z.ahead self.zone
            (moment_on (month_move (local_at (Z.ahead self.zone) self.utc).date (neg_ℤ (pos months))) (local_at (Z.ahead self.zone) self.utc).time) result }
    {
        all_local(
            self.naive_local().checked_sub_months(months),
            self.timezone(),
        )
    }
}

// The date-times of a zone where its clock shows `local`, if there is such a date-time.
#[inline]
fn all_local<Z: TimeZone>(local: Option<NaiveDateTime>, zone: Z) -> MappedLocalTime<DateTime<Z>>
    ensures { AreLocalIf Z.ahead zone local result }
{
    match local {
        Some(local) => DateTime::at_local(local, zone),
        None => MappedLocalTime::None,
    }
}

// The one date-time of a zone where its clock shows `local`, if there is one alone.
#[inline]
fn only_local<Z: TimeZone>(local: Option<NaiveDateTime>, zone: Z) -> Option<DateTime<Z>>
    ensures { IsOnlyLocalIf Z.ahead zone local result }
{
    all_local(local, zone).single()
}

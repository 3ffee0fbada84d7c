//! Durations made of whole units, and read in whole units.
ghost use Rattle.std.specs.Prelude.{◌≡◌, ℕ, ℤ, pos, ◌<◌, ◌<ℤ◌, ◌+ℤ◌, ◌*ℤ◌, FitsSigned, unsigned_abs, IsTrue, ◌↔◌};
ghost use Rattle.std.specs.Int.{w64};
ghost use Rattle.std.specs.Option.{SomeIff};
ghost use Rattle.chrono_clock.specs.Duration.{IsDuration, nanos_per_week, nanos_per_day, nanos_per_hour, nanos_per_minute, nanos_per_second, nanos_per_milli, nanos_per_micro, units_of, whole_units, past_seconds};

use crate::TimeDelta;
use crate::carry::carried;
use crate::lengths::{
    NANOS_PER_MICRO, NANOS_PER_MILLI, NANOS_PER_SEC, SECS_PER_DAY, SECS_PER_HOUR, SECS_PER_MINUTE,
};
use crate::time_delta::MAX_SECS;

const SECS_PER_WEEK: i64 = 604_800;

impl TimeDelta {
    /// Returns the duration of `weeks` weeks of 604,800 seconds.
    ///
    /// Returns `None` if it is out of range.
    ///
    /// ```
    /// TimeDelta::try_weeks(2)?.num_days() // 14
    /// TimeDelta::try_weeks(i64::MAX) // None
    /// ```
    #[inline]
    pub fn try_weeks(weeks: i64) -> Option<TimeDelta>
        ensures { SomeIff result (IsDuration (units_of nanos_per_week weeks))
            (units_of nanos_per_week weeks) }
    {
        try_units(weeks, SECS_PER_WEEK)
    }

    /// Returns the duration of `weeks` weeks. It requires that duration to be in range.
    ///
    /// ```
    /// TimeDelta::weeks(2).num_days() // 14
    /// ```
    #[inline]
    pub fn weeks(weeks: i64) -> TimeDelta
        requires { IsDuration (units_of nanos_per_week weeks) }
        ensures { result ≡ units_of nanos_per_week weeks }
    {
        TimeDelta::try_weeks(weeks).unwrap()
    }

    /// Returns the duration of `days` days of 86,400 seconds.
    ///
    /// Returns `None` if it is out of range.
    ///
    /// ```
    /// TimeDelta::try_days(2)?.num_hours() // 48
    /// TimeDelta::try_days(i64::MAX) // None
    /// ```
    #[inline]
    pub fn try_days(days: i64) -> Option<TimeDelta>
        ensures { SomeIff result (IsDuration (units_of nanos_per_day days)) (units_of nanos_per_day days) }
    {
        try_units(days, SECS_PER_DAY as i64)
    }

    /// Returns the duration of `days` days. It requires that duration to be in range.
    ///
    /// ```
    /// TimeDelta::days(2).num_hours() // 48
    /// ```
    #[inline]
    pub fn days(days: i64) -> TimeDelta
        requires { IsDuration (units_of nanos_per_day days) }
        ensures { result ≡ units_of nanos_per_day days }
    {
        TimeDelta::try_days(days).unwrap()
    }

    /// Returns the duration of `hours` hours of 3,600 seconds.
    ///
    /// Returns `None` if it is out of range.
    ///
    /// ```
    /// TimeDelta::try_hours(2)?.num_minutes() // 120
    /// TimeDelta::try_hours(i64::MAX) // None
    /// ```
    #[inline]
    pub fn try_hours(hours: i64) -> Option<TimeDelta>
        ensures { SomeIff result (IsDuration (units_of nanos_per_hour hours))
            (units_of nanos_per_hour hours) }
    {
        try_units(hours, SECS_PER_HOUR as i64)
    }

    /// Returns the duration of `hours` hours. It requires that duration to be in range.
    ///
    /// ```
    /// TimeDelta::hours(2).num_minutes() // 120
    /// ```
    #[inline]
    pub fn hours(hours: i64) -> TimeDelta
        requires { IsDuration (units_of nanos_per_hour hours) }
        ensures { result ≡ units_of nanos_per_hour hours }
    {
        TimeDelta::try_hours(hours).unwrap()
    }

    /// Returns the duration of `minutes` minutes of 60 seconds.
    ///
    /// Returns `None` if it is out of range.
    ///
    /// ```
    /// TimeDelta::try_minutes(2)?.num_seconds() // 120
    /// TimeDelta::try_minutes(i64::MAX) // None
    /// ```
    #[inline]
    pub fn try_minutes(minutes: i64) -> Option<TimeDelta>
        ensures { SomeIff result (IsDuration (units_of nanos_per_minute minutes))
            (units_of nanos_per_minute minutes) }
    {
        try_units(minutes, SECS_PER_MINUTE as i64)
    }

    /// Returns the duration of `minutes` minutes. It requires that duration to be in range.
    ///
    /// ```
    /// TimeDelta::minutes(2).num_seconds() // 120
    /// ```
    #[inline]
    pub fn minutes(minutes: i64) -> TimeDelta
        requires { IsDuration (units_of nanos_per_minute minutes) }
        ensures { result ≡ units_of nanos_per_minute minutes }
    {
        TimeDelta::try_minutes(minutes).unwrap()
    }

    /// Returns the duration of `seconds` seconds.
    ///
    /// Returns `None` if it is out of range.
    ///
    /// ```
    /// TimeDelta::try_seconds(90)?.num_minutes() // 1
    /// TimeDelta::try_seconds(i64::MAX) // None
    /// ```
    #[inline]
    pub fn try_seconds(seconds: i64) -> Option<TimeDelta>
        ensures { SomeIff result (IsDuration (units_of nanos_per_second seconds))
            (units_of nanos_per_second seconds) }
    {
        if (-MAX_SECS..=MAX_SECS).contains(&seconds) {
            Some(TimeDelta {
                secs: seconds,
                nanos: 0,
            })
        } else {
            None
        }
    }

    /// Returns the duration of `seconds` seconds. It requires that duration to be in range.
    ///
    /// ```
    /// TimeDelta::seconds(90).num_minutes() // 1
    /// ```
    #[inline]
    pub fn seconds(seconds: i64) -> TimeDelta
        requires { IsDuration (units_of nanos_per_second seconds) }
        ensures { result ≡ units_of nanos_per_second seconds }
    {
        TimeDelta::try_seconds(seconds).unwrap()
    }

    /// Returns the duration of `milliseconds` milliseconds.
    ///
    /// Returns `None` for `i64::MIN`, the only number whose duration is out of range.
    ///
    /// ```
    /// TimeDelta::try_milliseconds(1_500)?.num_seconds() // 1
    /// TimeDelta::try_milliseconds(i64::MIN) // None
    /// ```
    #[inline]
    pub fn try_milliseconds(milliseconds: i64) -> Option<TimeDelta>
        ensures { SomeIff result (IsDuration (units_of nanos_per_milli milliseconds))
            (units_of nanos_per_milli milliseconds) }
    {
        if milliseconds == i64::MIN {
            None
        } else {
            Some(TimeDelta::milliseconds(milliseconds))
        }
    }

    /// Returns the duration of `milliseconds` milliseconds. It requires `milliseconds` to be other than `i64::MIN`.
    ///
    /// ```
    /// TimeDelta::milliseconds(1_500).num_seconds() // 1
    /// ```
    #[inline]
    pub fn milliseconds(milliseconds: i64) -> TimeDelta
        requires { IsDuration (units_of nanos_per_milli milliseconds) }
        ensures { result ≡ units_of nanos_per_milli milliseconds }
    {
        from_signed(
            milliseconds / 1_000,
            (milliseconds % 1_000) as i32 * NANOS_PER_MILLI as i32,
        )
    }

    /// Returns the duration of `microseconds` microseconds.
    ///
    /// ```
    /// TimeDelta::microseconds(1_500).num_milliseconds() // 1
    /// ```
    #[inline]
    pub fn microseconds(microseconds: i64) -> TimeDelta
        ensures { result ≡ units_of nanos_per_micro microseconds }
    {
        from_signed(
            microseconds / 1_000_000,
            (microseconds % 1_000_000) as i32 * NANOS_PER_MICRO as i32,
        )
    }

    /// Returns the duration of `nanos` nanoseconds.
    ///
    /// ```
    /// TimeDelta::nanoseconds(-1) // TimeDelta { secs: -1, nanos: 999999999 }
    /// ```
    #[inline]
    pub fn nanoseconds(nanos: i64) -> TimeDelta
        ensures { result ≡ nanos }
    {
        let second = NANOS_PER_SEC as i64;
        from_signed(nanos / second, (nanos % second) as i32)
    }

    /// Returns the number of whole weeks, rounded towards zero.
    ///
    /// ```
    /// TimeDelta::days(-20).num_weeks() // -2
    /// ```
    #[inline]
    pub fn num_weeks(&self) -> i64
        ensures { result ≡ whole_units nanos_per_week self.now }
    {
        self.num_seconds() / SECS_PER_WEEK
    }

    /// Returns the number of whole days of 86,400 seconds, rounded towards zero.
    ///
    /// ```
    /// TimeDelta::hours(-47).num_days() // -1
    /// ```
    #[inline]
    pub fn num_days(&self) -> i64
        ensures value { result ≡ whole_units nanos_per_day self.now }
        ensures in_range { IsDuration self.now }
    {
        self.num_seconds() / SECS_PER_DAY as i64
    }

    /// Returns the number of whole hours, rounded towards zero.
    ///
    /// ```
    /// TimeDelta::minutes(150).num_hours() // 2
    /// ```
    #[inline]
    pub fn num_hours(&self) -> i64
        ensures { result ≡ whole_units nanos_per_hour self.now }
    {
        self.num_seconds() / SECS_PER_HOUR as i64
    }

    /// Returns the number of whole minutes, rounded towards zero.
    ///
    /// ```
    /// TimeDelta::seconds(150).num_minutes() // 2
    /// ```
    #[inline]
    pub fn num_minutes(&self) -> i64
        ensures { result ≡ whole_units nanos_per_minute self.now }
    {
        self.num_seconds() / SECS_PER_MINUTE as i64
    }

    /// Returns the number of whole seconds, rounded towards zero.
    ///
    /// ```
    /// TimeDelta::milliseconds(-1_500).num_seconds() // -1
    /// ```
    #[inline]
    pub fn num_seconds(&self) -> i64
        ensures value { result ≡ whole_units nanos_per_second self.now }
        ensures in_range { IsDuration self.now }
    {
        self.secs + self.has_negative_rest() as i64
    }

    /// Returns the number of whole milliseconds, rounded towards zero.
    ///
    /// ```
    /// TimeDelta::microseconds(-1_500).num_milliseconds() // -1
    /// ```
    #[inline]
    pub fn num_milliseconds(&self) -> i64
        ensures { result ≡ whole_units nanos_per_milli self.now }
    {
        self.num_seconds() * 1_000 + self.subsec_millis() as i64
    }

    /// Returns the number of whole microseconds, rounded towards zero.
    ///
    /// Returns `None` if that number does not fit an `i64`.
    ///
    /// ```
    /// TimeDelta::seconds(2).num_microseconds() // Some(2000000)
    /// TimeDelta::MAX.num_microseconds() // None
    /// ```
    #[inline]
    pub fn num_microseconds(&self) -> Option<i64>
        ensures { SomeIff result (FitsSigned w64 (whole_units nanos_per_micro self.now))
            (whole_units nanos_per_micro self.now) }
    {
        i64::try_from(self.num_seconds() as i128 * 1_000_000 + self.subsec_micros() as i128).ok()
    }

    /// Returns the number of nanoseconds.
    ///
    /// Returns `None` if that number does not fit an `i64`.
    ///
    /// ```
    /// TimeDelta::seconds(2).num_nanoseconds() // Some(2000000000)
    /// TimeDelta::MAX.num_nanoseconds() // None
    /// ```
    #[inline]
    pub fn num_nanoseconds(&self) -> Option<i64>
        ensures { SomeIff result (FitsSigned w64 self.now) self.now }
    {
        i64::try_from(self.total_nanos()).ok()
    }

    /// Returns the whole milliseconds past the whole seconds: -999 to 999, with the sign of the duration.
    ///
    /// ```
    /// TimeDelta::milliseconds(-1_500).subsec_millis() // -500
    /// ```
    #[inline]
    pub fn subsec_millis(&self) -> i32
        ensures { result ≡ whole_units nanos_per_milli (past_seconds self.now) }
    {
        self.subsec_nanos() / NANOS_PER_MILLI as i32
    }

    /// Returns the whole microseconds past the whole seconds: -999,999 to 999,999, with the sign of the duration.
    ///
    /// ```
    /// TimeDelta::milliseconds(-1_500).subsec_micros() // -500000
    /// ```
    #[inline]
    pub fn subsec_micros(&self) -> i32
        ensures { result ≡ whole_units nanos_per_micro (past_seconds self.now) }
    {
        self.subsec_nanos() / NANOS_PER_MICRO as i32
    }

    /// Returns the nanoseconds past the whole seconds: -999,999,999 to 999,999,999, with the sign of the duration.
    ///
    /// ```
    /// TimeDelta::milliseconds(-1_500).subsec_nanos() // -500000000
    /// ```
    #[inline]
    pub fn subsec_nanos(&self) -> i32
        ensures { result ≡ past_seconds self.now }
    {
        self.nanos as i32 - self.has_negative_rest() as i32 * NANOS_PER_SEC as i32
    }

    // Whether the part past the whole seconds is negative: these are then one more than the seconds rounded down. No branch
    // rests on a sign here or in what asks, as processors guess signs badly.
    #[inline]
    fn has_negative_rest(&self) -> bool
        ensures { IsTrue result ↔ (past_seconds self.now <ℤ pos 0) }
    {
        (self.secs < 0) & (self.nanos > 0)
    }
}

// So many units of whole seconds.
#[inline]
fn try_units(count: i64, unit: i64) -> Option<TimeDelta>
    requires { pos 0 <ℤ unit }
    ensures { SomeIff result (IsDuration (count *ℤ (unit *ℤ pos nanos_per_second)))
        (count *ℤ (unit *ℤ pos nanos_per_second)) }
{
    TimeDelta::try_seconds(count.checked_mul(unit)?)
}

// The duration of so many seconds and nanoseconds of the same sign: a negative rest borrows a second.
#[inline]
fn from_signed(secs: i64, nanos: i32) -> TimeDelta
    requires past_second { unsigned_abs nanos < nanos_per_second }
    requires in_range { IsDuration (secs *ℤ pos nanos_per_second +ℤ nanos) }
    ensures { result ≡ secs *ℤ pos nanos_per_second +ℤ nanos }
{
    // A second is lent to the nanoseconds, and carried back unless they were negative.
    let (secs, nanos) = carried(secs - 1, (nanos + NANOS_PER_SEC as i32) as u32);
    TimeDelta { secs, nanos }
}

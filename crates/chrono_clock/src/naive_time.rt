//! Times of day: the type, its constructors, moves by durations, and differences.
//!
//! The operators are in `ops`, the order in `order`, the text in `text`, and clocks at an offset in `offset`.
ghost use Rattle.std.specs.Prelude.{◌≡◌, ℕ, ℤ, pos, ◌<◌, ◌≤◌, ◌^◌, ◌+◌, ◌*◌, ◌%◌, ◌<ℤ◌, ◌⊎◌, ◌+ℤ◌, ◌-ℤ◌, ◌*ℤ◌, neg_ℤ, unsigned_abs};
ghost use Rattle.std.specs.Option.{SomeIff};
ghost use Rattle.chrono_clock.specs.Duration.{nanos_of, nanos_per_second, nanos_per_milli, nanos_per_micro};
ghost use Rattle.chrono_clock.specs.Time.{IsTime, seconds_per_day, IsClock, FractionFits, TimeOfDay, SameWay, TimeMovesAddUp, IsEarlier, IsEarlierLanding, IsLeap, IsPlain, landing_of, is_leap, place, place_beside, plain_landing, leap_landing, land, distance, time_at};

use crate::TimeDelta;
use crate::carry::carried;
use crate::lengths::{
    NANOS_PER_MICRO, NANOS_PER_MILLI, NANOS_PER_SEC, SECS_PER_DAY, SECS_PER_HOUR, SECS_PER_MINUTE,
};
use std::marker::Model;

mod offset;
mod ops;
mod order;
mod text;

// More days than two durations have: with them added no second is negative.
const SHIFT_DAYS: i64 = 500_000_000_000;

/// A time of day, to the nanosecond, with leap seconds.
///
/// A time is a second of the day, from 0 to 86,399, and a fraction of it in nanoseconds. A fraction from 1,000,000,000
/// to 1,999,999,999 lies in the leap second that follows that second. The library has no list of leap seconds, so every
/// minute may have one. Times compare by second, then by fraction. The default is midnight.
#[derive(Clone, Copy, PartialEq, Eq, Hash)]
pub struct NaiveTime {
    // The second of the day.
    secs: u32,
    // The nanoseconds past it.
    frac: u32,
}

const _: () = prove!(std::mem::size_of::<NaiveTime>() <= 8);

impl Model for NaiveTime {
    ghost use Rattle.chrono_clock.specs.Time.{TimeOfDay, IsTime};

    ghost Value = { TimeOfDay };

    ghost view = { λ a. record { second = a.secs; fraction = a.frac } };

    ghost invariant = { λ a. IsTime (record { second = a.secs; fraction = a.frac }) };

    ghost inverse = { λ t. record { secs = t.second; frac = t.fraction } };
}

impl NaiveTime {
    /// Midnight, the first time of the day.
    pub const MIN: NaiveTime = NaiveTime { secs: 0, frac: 0 };

    /// 23:59:59.999999999, the last time of the day that is not in a leap second.
    pub const MAX: NaiveTime = NaiveTime {
        secs: 86_399,
        frac: 999_999_999,
    };

    /// Returns the time with this hour, minute and second.
    ///
    /// Returns `None` if `hour` is 24 or more, or `minute` or `second` is 60 or more.
    ///
    /// ```
    /// NaiveTime::from_hms_opt(9, 30, 0) // Some(09:30:00)
    /// NaiveTime::from_hms_opt(24, 0, 0) // None
    /// ```
    #[inline]
    pub fn from_hms_opt(hour: u32, minute: u32, second: u32) -> Option<NaiveTime>
        ensures { SomeIff result (IsClock hour minute second) (time_at hour minute second 0) }
    {
        NaiveTime::from_hms_nano_opt(hour, minute, second, 0)
    }

    /// Returns the time `milli` milliseconds after this hour, minute and second.
    ///
    /// Returns `None` if `hour` is 24 or more, `minute` or `second` is 60 or more, or `milli` is too large. The largest
    /// `milli` is 999, or 1,999 if `second` is 59: then 1,000 and more lie in a leap second.
    ///
    /// ```
    /// NaiveTime::from_hms_milli_opt(9, 30, 0, 250) // Some(09:30:00.250)
    /// NaiveTime::from_hms_milli_opt(23, 59, 59, 1_500) // Some(23:59:60.500)
    /// NaiveTime::from_hms_milli_opt(9, 30, 0, 1_500) // None
    /// ```
    #[inline]
    pub fn from_hms_milli_opt(hour: u32, minute: u32, second: u32, milli: u32) -> Option<NaiveTime>
        ensures { SomeIff result
            (IsClock hour minute second × FractionFits second (milli * nanos_per_milli))
            (time_at hour minute second (milli * nanos_per_milli)) }
    {
        NaiveTime::from_hms_nano_opt(hour, minute, second, milli.checked_mul(NANOS_PER_MILLI)?)
    }

    /// Returns the time `micro` microseconds after this hour, minute and second.
    ///
    /// Returns `None` if `hour` is 24 or more, `minute` or `second` is 60 or more, or `micro` is too large. The largest
    /// `micro` is 999,999, or 1,999,999 if `second` is 59: then 1,000,000 and more lie in a leap second.
    ///
    /// ```
    /// NaiveTime::from_hms_micro_opt(9, 30, 0, 250) // Some(09:30:00.000250)
    /// NaiveTime::from_hms_micro_opt(9, 30, 0, 1_000_000) // None
    /// ```
    #[inline]
    pub fn from_hms_micro_opt(hour: u32, minute: u32, second: u32, micro: u32) -> Option<NaiveTime>
        ensures { SomeIff result (IsClock hour minute second × FractionFits second (micro * nanos_per_micro))
            (time_at hour minute second (micro * nanos_per_micro)) }
    {
        NaiveTime::from_hms_nano_opt(hour, minute, second, micro.checked_mul(NANOS_PER_MICRO)?)
    }

    /// Returns the time `nano` nanoseconds after this hour, minute and second.
    ///
    /// Returns `None` if `hour` is 24 or more, `minute` or `second` is 60 or more, or `nano` is too large. The largest
    /// `nano` is 999,999,999, or 1,999,999,999 if `second` is 59: then 1,000,000,000 and more lie in a leap second.
    ///
    /// ```
    /// NaiveTime::from_hms_nano_opt(9, 30, 0, 250) // Some(09:30:00.000000250)
    /// NaiveTime::from_hms_nano_opt(9, 30, 59, 1_000_000_000) // Some(09:30:60)
    /// ```
    #[inline]
    pub fn from_hms_nano_opt(hour: u32, minute: u32, second: u32, nano: u32) -> Option<NaiveTime>
        ensures { SomeIff result (IsClock hour minute second × FractionFits second nano)
            (time_at hour minute second nano) }
    {
        if hour >= 24 || minute >= 60 || second >= 60 {
            return None;
        }
        let secs = hour * SECS_PER_HOUR + minute * SECS_PER_MINUTE + second;
        NaiveTime::from_num_seconds_from_midnight_opt(secs, nano)
    }

    /// Returns the time `secs` seconds and `nano` nanoseconds after midnight.
    ///
    /// Returns `None` if `secs` is 86,400 or more, or `nano` is too large. The largest `nano` is 999,999,999, or
    /// 1,999,999,999 if `secs` is the last second of a minute.
    ///
    /// ```
    /// NaiveTime::from_num_seconds_from_midnight_opt(3_600, 0) // Some(01:00:00)
    /// NaiveTime::from_num_seconds_from_midnight_opt(86_400, 0) // None
    /// ```
    #[inline]
    pub fn from_num_seconds_from_midnight_opt(secs: u32, nano: u32) -> Option<NaiveTime>
        ensures { SomeIff result ((secs < seconds_per_day) × FractionFits (secs % 60) nano)
            (record { second = secs; fraction = nano }) }
    {
        if secs >= SECS_PER_DAY || nano >= 2 * NANOS_PER_SEC {
            return None;
        }
        if nano >= NANOS_PER_SEC && secs % SECS_PER_MINUTE != 59 {
            return None;
        }
        Some(NaiveTime { secs, frac: nano })
    }

    /// Returns the time that `rhs` leads to, and the seconds of the whole days that the move passes.
    ///
    /// These seconds are a multiple of 86,400. They are negative for a move to an earlier day.
    ///
    /// ```
    /// let time = NaiveTime::from_hms_opt(23, 59, 58)?;
    /// time.overflowing_add_signed(TimeDelta::seconds(5)) // (00:00:03, 86400)
    /// ```
    ///
    /// A move from a time outside a leap second ignores leap seconds. A move from inside a leap second counts that one
    /// leap second. If it ends inside, the result is in the leap second; if it ends later, it arrives one second
    /// earlier.
    #[inline]
    pub fn overflowing_add_signed(&self, rhs: TimeDelta) -> (NaiveTime, i64)
        ensures time { result.0 ≡ (land self.now rhs).time }
        ensures seconds { result.1 ≡ (land self.now rhs).day *ℤ pos seconds_per_day }
        ensures start { IsTime self.now }
        ensures end { IsTime result.0 }
        // From a time in no leap second it leads to one in none.
        ensures plain { IsPlain self.now → IsPlain result.0 }

        // A second move ends where the one move by the sum ends.
        ensures adds_up { (y : ℤ) → IsPlain self.now ⊎ SameWay rhs y →
            TimeMovesAddUp self.now rhs y }
        // By a duration above zero the clock comes to a later time of the day, or to a later day.
        ensures forward { pos 0 <ℤ rhs →
            IsEarlierLanding (landing_of self.now) (land self.now rhs) }
        // By one below zero it comes to an earlier time of the day, or to an earlier day.
        ensures backward { rhs <ℤ pos 0 →
            IsEarlierLanding (land self.now rhs) (landing_of self.now) }
    {
        let (time, days) = self.landing(rhs);
        (time, days * SECS_PER_DAY as i64)
    }

    /// Returns the time that `rhs` leads to, and the number of whole days that the move passes.
    ///
    /// The number is negative for a move to an earlier day, and smaller than 2^40 either way. The move is that of
    /// [`overflowing_add_signed`](Self::overflowing_add_signed).
    ///
    /// ```
    /// NaiveTime::from_hms_opt(23, 59, 58)?.landing(TimeDelta::seconds(5)) // (00:00:03, 1)
    /// NaiveTime::from_hms_opt(0, 0, 3)?.landing(TimeDelta::seconds(-5)) // (23:59:58, -1)
    /// ```
    #[inline]
    pub fn landing(&self, rhs: TimeDelta) -> (NaiveTime, i64)
        ensures time { result.0 ≡ (land self.now rhs).time }
        ensures days { result.1 ≡ (land self.now rhs).day }
        ensures start { IsTime self.now }
        ensures end { IsTime result.0 }
        // No duration is as long as 2^40 days.
        ensures near { unsigned_abs result.1 < 2 ^ 40 }
        // From a time in no leap second it leads to one in none.
        ensures plain { IsPlain self.now → IsPlain result.0 }

        // A second move ends where the one move by the sum ends.
        ensures adds_up { (y : ℤ) → IsPlain self.now ⊎ SameWay rhs y →
            TimeMovesAddUp self.now rhs y }
        // By a duration above zero the clock comes to a later time of the day, or to a later day.
        ensures forward { pos 0 <ℤ rhs →
            IsEarlierLanding (landing_of self.now) (land self.now rhs) }
        // By one below zero it comes to an earlier time of the day, or to an earlier day.
        ensures backward { rhs <ℤ pos 0 →
            IsEarlierLanding (land self.now rhs) (landing_of self.now) }
    {
        if self.is_leap() {
            self.moved_from_leap(rhs)
        } else {
            self.moved_plainly(rhs)
        }
    }

    /// Returns the time `rhs` earlier, and the seconds of the whole days that the move passes backwards.
    ///
    /// The time is that of [`overflowing_add_signed`](Self::overflowing_add_signed) for the negated duration. The
    /// seconds have the opposite sign.
    ///
    /// ```
    /// let time = NaiveTime::from_hms_opt(0, 0, 3)?;
    /// time.overflowing_sub_signed(TimeDelta::seconds(5)) // (23:59:58, 86400)
    /// ```
    #[inline]
    pub fn overflowing_sub_signed(&self, rhs: TimeDelta) -> (NaiveTime, i64)
        ensures time { result.0 ≡ (land self.now (neg_ℤ rhs)).time }
        ensures seconds { result.1 ≡ neg_ℤ ((land self.now (neg_ℤ rhs)).day *ℤ pos seconds_per_day) }
        // From a time in no leap second it leads to one in none.
        ensures plain { IsPlain self.now → IsPlain result.0 }
    {
        let (time, seconds) = self.overflowing_add_signed(-rhs);
        (time, -seconds)
    }

    /// Returns the duration from `rhs` to this time of the same day. It is negative if this time is earlier.
    ///
    /// ```
    /// let start = NaiveTime::from_hms_opt(9, 30, 0)?;
    /// NaiveTime::from_hms_opt(11, 0, 0)?.signed_duration_since(start).num_minutes() // 90
    /// ```
    ///
    /// If one of the times lies in a leap second, the part of that leap second between the two times counts. So the
    /// result can be longer than a day, by less than one second.
    #[inline]
    pub fn signed_duration_since(self, rhs: NaiveTime) -> TimeDelta
        ensures value { result ≡ distance self rhs }
        // So many nanoseconds are a little more than three days.
        ensures bound { unsigned_abs result < 2 ^ 48 }
        ensures times { IsTime self × IsTime rhs }

        // A move from `rhs` by the answer ends at this time, if this one is in no leap second or both are in the same.
        ensures back { IsPlain self ⊎ (IsLeap self × IsLeap rhs × (self.second ≡ rhs.second))
            → land rhs result ≡ landing_of self }
        ensures later { IsEarlier rhs self → pos 0 <ℤ result }
        ensures same { self ≡ rhs → result ≡ pos 0 }
        ensures earlier { IsEarlier self rhs → result <ℤ pos 0 }
        // Of two times in no leap second it is the difference of their places in the day.
        ensures plain { IsPlain self → IsPlain rhs → result ≡ pos (place self) -ℤ pos (place rhs) }
        // From this time to `rhs` it is as far, with the other sign.
        ensures turned { result ≡ neg_ℤ (distance rhs self) }
    {
        let here = self.second_beside(&rhs);
        let there = rhs.second_beside(&self);
        // Two seconds are lent to the fractions, each of which is below two.
        TimeDelta::from_few_secs(
            here as i64 - (there + 2) as i64,
            self.frac + 2 * NANOS_PER_SEC - rhs.frac,
        )
    }

    // The second of the day.
    #[inline]
    pub(crate) fn second_of_day(&self) -> u32
        ensures value { result ≡ self.now.second }
        ensures bound { result < seconds_per_day }
    {
        self.secs
    }

    // The nanoseconds past the second.
    #[inline]
    pub(crate) fn fraction(&self) -> u32
        ensures value { result ≡ self.now.fraction }
        ensures bound { result < 2 * nanos_per_second }
    {
        self.frac
    }

    // This fraction at another second of the day.
    #[inline]
    pub(crate) fn at_second_of_day(&self, secs: u32) -> NaiveTime
        requires { secs < seconds_per_day }
        ensures { result ≡ record { second = secs; fraction = self.now.fraction } }
    {
        NaiveTime {
            secs,
            frac: self.frac,
        }
    }

    // Another fraction at this second of the day.
    #[inline]
    pub(crate) fn at_fraction(&self, frac: u32) -> NaiveTime
        requires { frac < 2 * nanos_per_second }
        ensures { result ≡ record { second = self.now.second; fraction = frac } }
    {
        NaiveTime {
            secs: self.secs,
            frac,
        }
    }

    // Whether the time lies in a leap second.
    #[inline]
    fn is_leap(&self) -> bool
        ensures leap { result ≡ is_leap self.now }
        ensures time { IsTime self.now }
    {
        self.frac >= NANOS_PER_SEC
    }

    // The second of the day, past the other's leap second if that comes first.
    #[inline]
    fn second_beside(&self, other: &NaiveTime) -> u32
        ensures value { result * nanos_per_second + self.now.fraction ≡ place_beside self.now other.now }
        ensures bound { result ≤ seconds_per_day }
        ensures time { IsTime self.now }
    {
        self.secs + (other.frac >= NANOS_PER_SEC && other.secs < self.secs) as u32
    }

    // The landing of a plain start.
    #[inline]
    fn moved_plainly(&self, rhs: TimeDelta) -> (NaiveTime, i64)
        requires { IsPlain self.now }
        ensures time { result.0 ≡ (plain_landing (pos (place self.now) +ℤ rhs)).time }
        ensures days { result.1 ≡ (plain_landing (pos (place self.now) +ℤ rhs)).day }
        ensures near { unsigned_abs result.1 < 2 ^ 40 }
    {
        let (secs, nanos) = carried(
            self.secs as i64 + rhs.stored_secs(),
            self.frac + rhs.stored_nanos(),
        );
        landed(secs, nanos)
    }

    // The landing of a leap start, counted from the start of its leap second.
    #[inline]
    fn moved_from_leap(&self, rhs: TimeDelta) -> (NaiveTime, i64)
        requires { IsLeap self.now }
        ensures time { result.0
            ≡ (leap_landing self.now.second (pos (place self.now) +ℤ rhs)).time }
        ensures days { result.1
            ≡ (leap_landing self.now.second (pos (place self.now) +ℤ rhs)).day }
        ensures near { unsigned_abs result.1 < 2 ^ 40 }
    {
        let (secs, nanos) = carried(
            self.secs as i64 + 1 + rhs.stored_secs(),
            self.frac - NANOS_PER_SEC + rhs.stored_nanos(),
        );
        landed_on_leap_line(self.secs, secs, nanos)
    }
}

// The landing of a point on the plain line, given in seconds and nanoseconds.
#[inline]
fn landed(secs: i64, nanos: u32) -> (NaiveTime, i64)
    requires near { unsigned_abs secs < 2 ^ 55 }
    requires past_second { nanos < nanos_per_second }
    ensures time { result.0 ≡ (plain_landing (nanos_of secs nanos)).time }
    ensures days { result.1 ≡ (plain_landing (nanos_of secs nanos)).day }
    ensures near { unsigned_abs result.1 < 2 ^ 40 }
{
    let day = SECS_PER_DAY as u64;
    let shifted = (secs + SHIFT_DAYS * SECS_PER_DAY as i64) as u64;
    let time = NaiveTime {
        secs: (shifted % day) as u32,
        frac: nanos,
    };
    (time, (shifted / day) as i64 - SHIFT_DAYS)
}

// The landing of a point on the line that holds a leap second after `start`.
#[inline]
fn landed_on_leap_line(start: u32, secs: i64, nanos: u32) -> (NaiveTime, i64)
    requires in_day { start < seconds_per_day }
    requires near { unsigned_abs secs + 1 < 2 ^ 55 }
    requires past_second { nanos < nanos_per_second }
    ensures time { result.0 ≡ (leap_landing start (nanos_of secs nanos)).time }
    ensures days { result.1 ≡ (leap_landing start (nanos_of secs nanos)).day }
    ensures near { unsigned_abs result.1 < 2 ^ 40 }
{
    if secs <= start as i64 {
        return landed(secs, nanos);
    }
    if secs > start as i64 + 1 {
        return landed(secs - 1, nanos);
    }
    let time = NaiveTime {
        secs: start,
        frac: nanos + NANOS_PER_SEC,
    };
    (time, 0)
}

impl Default for NaiveTime {
    ghost is_default = { λ t. t ≡ record { second = 0; fraction = 0 } };

    /// Returns midnight.
    #[inline]
    fn default() -> NaiveTime {
        NaiveTime::MIN
    }
}

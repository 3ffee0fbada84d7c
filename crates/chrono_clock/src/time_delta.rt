//! Durations: the type, its ends and its stored parts.
//!
//! Whole units are in `units`, arithmetic in `ops`, the order in `order`, sums of iterators in `sum`, and the text in
//! `text`.
ghost use Rattle.std.specs.Prelude.{◌≡◌, ℕ, ℤ, pos, ◌<◌, ◌^◌, ◌+ℤ◌, ◌*ℤ◌, neg_ℤ, unsigned_abs, IsTrue, ◌↔◌};
ghost use Rattle.std.specs.Option.{SomeIff};
ghost use Rattle.chrono_clock.specs.Duration.{IsDuration, longest, nanos_per_second, nanos_of, floor_secs, past_floor};

use crate::lengths::NANOS_PER_SEC;
use std::marker::Model;

mod ops;
mod order;
mod sum;
mod text;
mod units;

/// A duration: a whole number of nanoseconds, which can be negative.
///
/// Its size is at most `i64::MAX` milliseconds, about 292 million years. Durations compare as that number, and the
/// default is zero. `{}` writes an ISO 8601 duration in seconds, with `-` before a negative one: `PT0.042S` is 42
/// milliseconds, `-PT86400S` is minus one day, and `P0D` is zero.
#[derive(Clone, Copy, Debug)]
pub struct TimeDelta {
    // The whole seconds, rounded down.
    secs: i64,
    // The nanoseconds past those seconds.
    nanos: u32,
}

const _: () = prove!(std::mem::size_of::<TimeDelta>() <= 16);

impl Model for TimeDelta {
    ghost use Rattle.std.specs.Prelude.{ℤ, ◌<◌};
    ghost use Rattle.std.specs.Coded.{coded_ℤ};
    ghost use Rattle.chrono_clock.specs.Duration.{IsDuration, nanos_of};

    ghost Value = { ℤ };

    ghost coded = { coded_ℤ };

    ghost view = { λ a. nanos_of a.secs a.nanos };

    ghost invariant = { λ a. (a.nanos < 1_000_000_000) × IsDuration (nanos_of a.secs a.nanos) };

    ghost use Rattle.chrono_clock.specs.StoredDelta.{stored, stored-nanos_of};

    ghost inverse = { stored };

    ghost inverse_ok = { λ a h. stored-nanos_of a h.0 };
}

// The parts of the least duration, of -`i64::MAX` milliseconds.
const MIN_SECS: i64 = -9_223_372_036_854_776;

const MIN_NANOS: u32 = 193_000_000;

// The parts of the greatest duration, of `i64::MAX` milliseconds.
const MAX_SECS: i64 = 9_223_372_036_854_775;

const MAX_NANOS: u32 = 807_000_000;

impl TimeDelta {
    /// The least duration, -`i64::MAX` milliseconds.
    pub const MIN: TimeDelta = TimeDelta {
        secs: MIN_SECS,
        nanos: MIN_NANOS,
    };

    /// The greatest duration, `i64::MAX` milliseconds.
    pub const MAX: TimeDelta = TimeDelta {
        secs: MAX_SECS,
        nanos: MAX_NANOS,
    };

    /// Returns the duration of `secs` seconds plus `nanos` nanoseconds.
    ///
    /// Returns `None` if `nanos` is 1,000,000,000 or more, or the duration is below [`MIN`](Self::MIN) or above
    /// [`MAX`](Self::MAX).
    ///
    /// ```
    /// TimeDelta::new(-2, 500_000_000)?.num_milliseconds() // -1500
    /// TimeDelta::new(0, 1_000_000_000) // None
    /// ```
    #[inline]
    pub fn new(secs: i64, nanos: u32) -> Option<TimeDelta>
        ensures { SomeIff result ((nanos < nanos_per_second) × IsDuration (nanos_of secs nanos))
            (nanos_of secs nanos) }
    {
        if nanos >= NANOS_PER_SEC {
            return None;
        }
        TimeDelta::from_stored(secs, nanos)
    }

    /// Returns [`MIN`](Self::MIN), the least duration.
    ///
    /// ```
    /// TimeDelta::min_value().num_milliseconds() // -9223372036854775807
    /// ```
    #[inline]
    pub fn min_value() -> TimeDelta
        ensures { result ≡ neg_ℤ (pos longest) }
    {
        TimeDelta::MIN
    }

    /// Returns [`MAX`](Self::MAX), the greatest duration.
    ///
    /// ```
    /// TimeDelta::max_value().num_milliseconds() // 9223372036854775807
    /// ```
    #[inline]
    pub fn max_value() -> TimeDelta
        ensures { result ≡ pos longest }
    {
        TimeDelta::MAX
    }

    /// Returns the duration of zero nanoseconds.
    ///
    /// ```
    /// TimeDelta::zero() == TimeDelta::seconds(0) // true
    /// ```
    #[inline]
    pub fn zero() -> TimeDelta
        ensures { result ≡ pos 0 }
    {
        TimeDelta { secs: 0, nanos: 0 }
    }

    /// Returns whether the duration is zero.
    ///
    /// ```
    /// TimeDelta::seconds(0).is_zero() // true
    /// ```
    #[inline]
    pub fn is_zero(&self) -> bool
        ensures { IsTrue result ↔ (self.now ≡ pos 0) }
    {
        self.secs == 0 && self.nanos == 0
    }

    // The duration of so many seconds, rounded down, and the nanoseconds past them.
    #[inline]
    fn from_stored(secs: i64, nanos: u32) -> Option<TimeDelta>
        requires { nanos < nanos_per_second }
        ensures { SomeIff result (IsDuration (nanos_of secs nanos)) (nanos_of secs nanos) }
    {
        if is_in_range(secs, nanos) {
            Some(TimeDelta { secs, nanos })
        } else {
            None
        }
    }

    // The duration of fewer than 2^40 seconds, either way, and of nanoseconds past them, up to four seconds of these.
    #[inline]
    pub(crate) fn from_few_secs(secs: i64, nanos: u32) -> TimeDelta
        requires { unsigned_abs secs < 2 ^ 40 }
        ensures { result ≡ secs *ℤ pos nanos_per_second +ℤ pos nanos }
    {
        TimeDelta {
            secs: secs + (nanos / NANOS_PER_SEC) as i64,
            nanos: nanos % NANOS_PER_SEC,
        }
    }

    // The whole seconds of the duration, rounded down.
    #[inline]
    pub(crate) fn stored_secs(&self) -> i64
        ensures value { result ≡ floor_secs self.now }
        ensures bound { unsigned_abs result < 2 ^ 54 }
    {
        self.secs
    }

    // The nanoseconds of the duration past those seconds.
    #[inline]
    pub(crate) fn stored_nanos(&self) -> u32
        ensures value { result ≡ past_floor self.now }
        ensures bound { result < nanos_per_second }
    {
        self.nanos
    }

    // All the nanoseconds of the duration.
    #[inline]
    fn total_nanos(&self) -> i128
        ensures value { result ≡ self.now }
        ensures bound { IsDuration self.now }
    {
        self.secs as i128 * NANOS_PER_SEC as i128 + self.nanos as i128
    }
}

impl Default for TimeDelta {
    ghost is_default = { λ x. x ≡ pos 0 };

    /// Returns the duration of zero nanoseconds.
    #[inline]
    fn default() -> TimeDelta {
        TimeDelta::zero()
    }
}

// Whether so many seconds and nanoseconds are a duration.
#[inline]
fn is_in_range(secs: i64, nanos: u32) -> bool
    requires { nanos < nanos_per_second }
    ensures { IsTrue result ↔ IsDuration (nanos_of secs nanos) }
{
    if secs == MIN_SECS {
        return nanos >= MIN_NANOS;
    }
    if secs == MAX_SECS {
        return nanos <= MAX_NANOS;
    }
    MIN_SECS < secs && secs < MAX_SECS
}

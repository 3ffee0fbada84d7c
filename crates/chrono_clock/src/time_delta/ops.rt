//! Arithmetic of durations: sums, differences, products, quotients, negatives and absolute values.
ghost use Rattle.std.specs.Prelude.{◌≡◌, ◌≢◌, ℤ, pos, ◌<◌, ◌≤◌, ◌^◌, ◌+ℤ◌, ◌-ℤ◌, ◌*ℤ◌, neg_ℤ, int_div, int_rem, unsigned_abs};
ghost use Rattle.std.specs.Option.{SomeIff};
ghost use Rattle.chrono_clock.specs.Duration.{IsDuration, nanos_per_second, nanos_of, two_step_quotient};

use crate::TimeDelta;
use crate::carry::carried;
use crate::lengths::NANOS_PER_SEC;
use crate::time_delta::{MAX_SECS, MIN_SECS};
use std::ops::{Add, AddAssign, Div, Mul, Neg, Sub, SubAssign};

impl TimeDelta {
    /// Returns the sum of the two durations.
    ///
    /// Returns `None` if the sum is out of range.
    ///
    /// ```
    /// TimeDelta::hours(1).checked_add(&TimeDelta::minutes(30)) == Some(TimeDelta::minutes(90)) // true
    /// TimeDelta::MAX.checked_add(&TimeDelta::nanoseconds(1)) // None
    /// ```
    #[inline]
    pub fn checked_add(&self, rhs: &TimeDelta) -> Option<TimeDelta>
        ensures { SomeIff result (IsDuration (self.now +ℤ rhs.now)) (self.now +ℤ rhs.now) }
    {
        let (secs, nanos) = carried(self.secs + rhs.secs, self.nanos + rhs.nanos);
        TimeDelta::from_stored(secs, nanos)
    }

    /// Returns this duration minus `rhs`.
    ///
    /// Returns `None` if the difference is out of range.
    ///
    /// ```
    /// TimeDelta::hours(1).checked_sub(&TimeDelta::minutes(90)) == Some(TimeDelta::minutes(-30)) // true
    /// TimeDelta::MIN.checked_sub(&TimeDelta::nanoseconds(1)) // None
    /// ```
    #[inline]
    pub fn checked_sub(&self, rhs: &TimeDelta) -> Option<TimeDelta>
        ensures { SomeIff result (IsDuration (self.now -ℤ rhs.now)) (self.now -ℤ rhs.now) }
    {
        let (secs, nanos) = carried(
            self.secs - rhs.secs - 1,
            self.nanos + NANOS_PER_SEC - rhs.nanos,
        );
        TimeDelta::from_stored(secs, nanos)
    }

    /// Returns the duration multiplied by `rhs`.
    ///
    /// Returns `None` if the product is out of range.
    ///
    /// ```
    /// TimeDelta::minutes(30).checked_mul(3) == Some(TimeDelta::minutes(90)) // true
    /// TimeDelta::MAX.checked_mul(2) // None
    /// ```
    #[inline]
    pub fn checked_mul(&self, rhs: i32) -> Option<TimeDelta>
        ensures { SomeIff result (IsDuration (self.now *ℤ rhs)) (self.now *ℤ rhs) }
    {
        from_parts(
            self.secs as i128 * rhs as i128,
            self.nanos as i64 * rhs as i64,
        )
    }

    /// Returns the duration divided by `rhs`.
    ///
    /// Returns `None` if `rhs` is 0.
    ///
    /// ```
    /// TimeDelta::minutes(90).checked_div(3) == Some(TimeDelta::minutes(30)) // true
    /// TimeDelta::nanoseconds(-1).checked_div(2)?.num_nanoseconds() // Some(-1)
    /// ```
    ///
    /// It divides two parts: the seconds, rounded down, and the nanoseconds past them. Each quotient is rounded towards
    /// zero to nanoseconds. So half of -1 ns is -1 ns.
    #[inline]
    pub fn checked_div(&self, rhs: i32) -> Option<TimeDelta>
        ensures { SomeIff result (rhs ≢ pos 0) (two_step_quotient self.now rhs) }
    {
        if rhs == 0 {
            return None;
        }
        // A long division: the remainder of the seconds goes on in nanoseconds.
        let secs = quotient(self.secs, rhs);
        let rest = quotient(remainder(self.secs, rhs) * NANOS_PER_SEC as i64, rhs);
        let nanos = quotient(self.nanos as i64, rhs);
        from_parts(secs as i128, rest + nanos)
    }

    /// Returns the absolute value of the duration. It exists for each duration, also for [`MIN`](Self::MIN).
    ///
    /// ```
    /// TimeDelta::seconds(-90).abs().num_seconds() // 90
    /// ```
    #[inline]
    pub fn abs(&self) -> TimeDelta
        ensures { result ≡ pos (unsigned_abs self.now) }
    {
        if self.secs < 0 { -*self } else { *self }
    }
}

// The duration of so many seconds and nanoseconds, of any signs.
#[inline]
fn from_parts(secs: i128, nanos: i64) -> Option<TimeDelta>
    requires { unsigned_abs secs < 2 ^ 100 }
    ensures { SomeIff result (IsDuration (secs *ℤ pos nanos_per_second +ℤ nanos))
        (secs *ℤ pos nanos_per_second +ℤ nanos) }
{
    let second = NANOS_PER_SEC as i64;
    let carry = nanos.div_euclid(second);
    from_floor(secs + carry as i128, nanos.rem_euclid(second) as u32)
}

// The duration of so many seconds and nanoseconds past them.
#[inline]
fn from_floor(secs: i128, nanos: u32) -> Option<TimeDelta>
    requires { nanos < nanos_per_second }
    ensures { SomeIff result (IsDuration (nanos_of secs nanos)) (nanos_of secs nanos) }
{
    if secs < MIN_SECS as i128 || secs > MAX_SECS as i128 {
        return None;
    }
    TimeDelta::from_stored(secs as i64, nanos)
}

// The quotient, rounded towards zero.
#[inline]
fn quotient(whole: i64, divisor: i32) -> i64
    requires nonzero { divisor ≢ pos 0 }
    requires small { unsigned_abs whole < 2 ^ 62 }
    ensures value { result ≡ int_div whole divisor }
    ensures bound { unsigned_abs result ≤ unsigned_abs whole }
{
    whole / divisor as i64
}

// What that quotient leaves.
#[inline]
fn remainder(whole: i64, divisor: i32) -> i64
    requires nonzero { divisor ≢ pos 0 }
    requires small { unsigned_abs whole < 2 ^ 62 }
    ensures value { result ≡ int_rem whole divisor }
    ensures bound { unsigned_abs result < 2 ^ 31 }
{
    whole % divisor as i64
}

impl Add for TimeDelta {
    type Output = TimeDelta;

    ghost can_add = { λ a b. IsDuration (a +ℤ b) };

    ghost add_gives = { λ a b r. r ≡ a +ℤ b };

    /// Returns the sum. It requires the sum to be in range.
    #[inline]
    fn add(self, rhs: TimeDelta) -> TimeDelta {
        self.checked_add(&rhs).unwrap()
    }
}

impl Sub for TimeDelta {
    type Output = TimeDelta;

    ghost can_sub = { λ a b. IsDuration (a -ℤ b) };

    ghost sub_gives = { λ a b r. r ≡ a -ℤ b };

    /// Returns the difference. It requires the difference to be in range.
    #[inline]
    fn sub(self, rhs: TimeDelta) -> TimeDelta {
        self.checked_sub(&rhs).unwrap()
    }
}

impl AddAssign for TimeDelta {
    ghost can_add_assign = { λ a b. IsDuration (a +ℤ b) };

    ghost add_assign_gives = { λ a b r. r ≡ a +ℤ b };

    /// Adds `rhs`. It requires the sum to be in range.
    #[inline]
    fn add_assign(&mut self, rhs: TimeDelta) {
        *self = *self + rhs;
    }
}

impl SubAssign for TimeDelta {
    ghost can_sub_assign = { λ a b. IsDuration (a -ℤ b) };

    ghost sub_assign_gives = { λ a b r. r ≡ a -ℤ b };

    /// Subtracts `rhs`. It requires the difference to be in range.
    #[inline]
    fn sub_assign(&mut self, rhs: TimeDelta) {
        *self = *self - rhs;
    }
}

impl Mul<i32> for TimeDelta {
    type Output = TimeDelta;

    ghost can_mul = { λ a b. IsDuration (a *ℤ b) };

    ghost mul_gives = { λ a b r. r ≡ a *ℤ b };

    /// Returns the duration multiplied by `rhs`. It requires the product to be in range.
    #[inline]
    fn mul(self, rhs: i32) -> TimeDelta {
        self.checked_mul(rhs).unwrap()
    }
}

impl Div<i32> for TimeDelta {
    type Output = TimeDelta;

    ghost can_div = { λ _ b. b ≢ pos 0 };

    ghost div_gives = { λ a b r. r ≡ two_step_quotient a b };

    /// Returns the quotient of [`checked_div`](TimeDelta::checked_div). It requires `rhs` to be other than 0.
    #[inline]
    fn div(self, rhs: i32) -> TimeDelta {
        self.checked_div(rhs).unwrap()
    }
}

impl Neg for TimeDelta {
    type Output = TimeDelta;

    ghost neg_gives = { λ a r. r ≡ neg_ℤ a };

    /// Returns the negated duration, which is in range for each duration.
    #[inline]
    fn neg(self) -> TimeDelta {
        if self.nanos == 0 {
            return TimeDelta {
                secs: -self.secs,
                nanos: 0,
            };
        }
        TimeDelta {
            secs: -self.secs - 1,
            nanos: NANOS_PER_SEC - self.nanos,
        }
    }
}

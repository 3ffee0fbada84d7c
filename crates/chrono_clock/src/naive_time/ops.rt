//! Operators of times of day: moves by durations, and differences.
ghost use Rattle.std.specs.Prelude.{◌≡◌, pos, neg_ℤ, ◌-ℤ◌};
ghost use Rattle.chrono_clock.specs.Time.{land, distance, IsPlain, place};

use crate::{NaiveTime, TimeDelta};
use std::ops::{Add, AddAssign, Sub, SubAssign};

impl Add<TimeDelta> for NaiveTime {
    type Output = NaiveTime;

    ghost add_gives = { λ t x r. r ≡ (land t x).time };

    /// Returns the time that `rhs` leads to. The clock passes midnight if needed.
    #[inline]
    fn add(self, rhs: TimeDelta) -> NaiveTime {
        self.overflowing_add_signed(rhs).0
    }
}

impl Sub<TimeDelta> for NaiveTime {
    type Output = NaiveTime;

    ghost sub_gives = { λ t x r. r ≡ (land t (neg_ℤ x)).time };

    /// Returns the time `rhs` earlier. The clock passes midnight if needed.
    #[inline]
    fn sub(self, rhs: TimeDelta) -> NaiveTime {
        self.overflowing_sub_signed(rhs).0
    }
}

impl AddAssign<TimeDelta> for NaiveTime {
    ghost add_assign_gives = { λ t x r. r ≡ (land t x).time };

    /// Moves the time by `rhs`.
    #[inline]
    fn add_assign(&mut self, rhs: TimeDelta) {
        *self = *self + rhs;
    }
}

impl SubAssign<TimeDelta> for NaiveTime {
    ghost sub_assign_gives = { λ t x r. r ≡ (land t (neg_ℤ x)).time };

    /// Moves the time back by `rhs`.
    #[inline]
    fn sub_assign(&mut self, rhs: TimeDelta) {
        *self = *self - rhs;
    }
}

impl Sub<NaiveTime> for NaiveTime {
    type Output = TimeDelta;

    // The second fact is of two times in no leap second.
    ghost sub_gives = { λ a b r. (r ≡ distance a b)
        × (IsPlain a → IsPlain b → r ≡ pos (place a) -ℤ pos (place b)) };

    /// Returns the duration of [`signed_duration_since`](NaiveTime::signed_duration_since).
    #[inline]
    fn sub(self, rhs: NaiveTime) -> TimeDelta {
        self.signed_duration_since(rhs)
    }
}

//! Operators on date-times. Each requires that its checked form returns `Some`.
ghost use Rattle.std.specs.Prelude.{◌≡◌, pos, neg_ℤ, ◌+ℤ◌, ◌-ℤ◌, IsSome, Some};
ghost use Rattle.chrono_naive.specs.Days.{IsDate};
ghost use Rattle.chrono_naive.specs.MonthMoves.{month_move};
ghost use Rattle.chrono_datetime.specs.Moment.{moment, moment_distance, moment_on, reach};

use crate::NaiveDateTime;
use chrono_clock::TimeDelta;
use chrono_naive::{Days, Months};
use std::ops::{Add, AddAssign, Sub, SubAssign};

impl Add<TimeDelta> for NaiveDateTime {
    type Output = NaiveDateTime;

    ghost can_add = { λ m x. IsSome (reach m x) };

    ghost add_gives = { λ m x r. reach m x ≡ Some r };

    /// Returns the date-time that lies `rhs` later, as
    /// [`checked_add_signed`](NaiveDateTime::checked_add_signed) does.
    ///
    /// Requires that its date is in range.
    #[inline]
    fn add(self, rhs: TimeDelta) -> NaiveDateTime {
        self.checked_add_signed(rhs).unwrap()
    }
}

impl AddAssign<TimeDelta> for NaiveDateTime {
    ghost can_add_assign = { λ m x. IsSome (reach m x) };

    ghost add_assign_gives = { λ m x r. reach m x ≡ Some r };

    /// Moves the date-time later by `rhs`.
    ///
    /// Requires that the new date is in range.
    #[inline]
    fn add_assign(&mut self, rhs: TimeDelta) {
        *self = *self + rhs;
    }
}

impl Add<Months> for NaiveDateTime {
    type Output = NaiveDateTime;

    ghost can_add = { λ m k. IsSome (month_move m.date (pos k)) };

    ghost add_gives = { λ m k r. moment_on (month_move m.date (pos k)) m.time ≡ Some r };

    /// Returns the same day and time of day `rhs` months later. If that month is too short, returns its last
    /// day.
    ///
    /// Requires that the year stays in range.
    #[inline]
    fn add(self, rhs: Months) -> NaiveDateTime {
        self.checked_add_months(rhs).unwrap()
    }
}

impl Sub<Months> for NaiveDateTime {
    type Output = NaiveDateTime;

    ghost can_sub = { λ m k. IsSome (month_move m.date (neg_ℤ (pos k))) };

    ghost sub_gives = { λ m k r. moment_on (month_move m.date (neg_ℤ (pos k))) m.time ≡ Some r };

    /// Returns the same day and time of day `rhs` months earlier. If that month is too short, returns its last
    /// day.
    ///
    /// Requires that the year stays in range.
    #[inline]
    fn sub(self, rhs: Months) -> NaiveDateTime {
        self.checked_sub_months(rhs).unwrap()
    }
}

impl Add<Days> for NaiveDateTime {
    type Output = NaiveDateTime;

    ghost can_add = { λ m d. IsDate (m.date +ℤ pos d) };

    ghost add_gives = { λ m d r. r ≡ moment (m.date +ℤ pos d) m.time };

    /// Returns the date-time `days` days later, at the same time of day.
    ///
    /// Requires that its date is in range.
    #[inline]
    fn add(self, days: Days) -> NaiveDateTime {
        self.checked_add_days(days).unwrap()
    }
}

impl Sub<Days> for NaiveDateTime {
    type Output = NaiveDateTime;

    ghost can_sub = { λ m d. IsDate (m.date -ℤ pos d) };

    ghost sub_gives = { λ m d r. r ≡ moment (m.date -ℤ pos d) m.time };

    /// Returns the date-time `days` days earlier, at the same time of day.
    ///
    /// Requires that its date is in range.
    #[inline]
    fn sub(self, days: Days) -> NaiveDateTime {
        self.checked_sub_days(days).unwrap()
    }
}

impl Sub<TimeDelta> for NaiveDateTime {
    type Output = NaiveDateTime;

    ghost can_sub = { λ m x. IsSome (reach m (neg_ℤ x)) };

    ghost sub_gives = { λ m x r. reach m (neg_ℤ x) ≡ Some r };

    /// Returns the date-time that lies `rhs` earlier, as
    /// [`checked_sub_signed`](NaiveDateTime::checked_sub_signed) does.
    ///
    /// Requires that its date is in range.
    #[inline]
    fn sub(self, rhs: TimeDelta) -> NaiveDateTime {
        self.checked_sub_signed(rhs).unwrap()
    }
}

impl SubAssign<TimeDelta> for NaiveDateTime {
    ghost can_sub_assign = { λ m x. IsSome (reach m (neg_ℤ x)) };

    ghost sub_assign_gives = { λ m x r. reach m (neg_ℤ x) ≡ Some r };

    /// Moves the date-time earlier by `rhs`.
    ///
    /// Requires that the new date is in range.
    #[inline]
    fn sub_assign(&mut self, rhs: TimeDelta) {
        *self = *self - rhs;
    }
}

impl Sub<NaiveDateTime> for NaiveDateTime {
    type Output = TimeDelta;

    ghost sub_gives = { λ a b r. r ≡ moment_distance a b };

    /// Returns the duration from `rhs` to this date-time, as
    /// [`signed_duration_since`](NaiveDateTime::signed_duration_since) does.
    #[inline]
    fn sub(self, rhs: NaiveDateTime) -> TimeDelta {
        self.signed_duration_since(rhs)
    }
}

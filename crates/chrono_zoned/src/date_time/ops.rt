//! Operators on date-times in a zone. Each requires that its checked form returns `Some`.
ghost use Rattle.std.specs.Prelude.{◌≡◌, neg_ℤ, IsSomeAnd, Some};
ghost use Rattle.chrono_datetime.specs.Moment.{moment_distance, reach};
ghost use Rattle.chrono_zoned.specs.Zoned.{ShowsDate};

use crate::date_time::DateTime;
use crate::time_zone::TimeZone;
use chrono_datetime::TimeDelta;
use std::ops::{Add, AddAssign, Sub, SubAssign};

impl<Z: TimeZone> Add<TimeDelta> for DateTime<Z> {
    type Output = DateTime<Z>;

    ghost can_add = { λ d x. IsSomeAnd (reach d.utc x) (ShowsDate (Z.ahead d.zone)) };

    ghost add_gives = { λ d x r. (reach d.utc x ≡ Some r.utc) × (r.zone ≡ d.zone) };

    /// Returns the date-time `rhs` later, as [`checked_add_signed`](DateTime::checked_add_signed) does.
    ///
    /// Requires that UTC and the clock of the zone show dates there.
    #[inline]
    fn add(self, rhs: TimeDelta) -> DateTime<Z> {
        self.checked_add_signed(rhs).unwrap()
    }
}

impl<Z: TimeZone> AddAssign<TimeDelta> for DateTime<Z> {
    ghost can_add_assign = { λ d x. IsSomeAnd (reach d.utc x) (ShowsDate (Z.ahead d.zone)) };

    ghost add_assign_gives = { λ d x r. (reach d.utc x ≡ Some r.utc) × (r.zone ≡ d.zone) };

    /// Moves the date-time later by `rhs`.
    ///
    /// Requires that UTC and the clock of the zone show dates there.
    #[inline]
    fn add_assign(&mut self, rhs: TimeDelta) {
        *self = *self + rhs;
    }
}

impl<Z: TimeZone> Sub<TimeDelta> for DateTime<Z> {
    type Output = DateTime<Z>;

    ghost can_sub = { λ d x. IsSomeAnd (reach d.utc (neg_ℤ x)) (ShowsDate (Z.ahead d.zone)) };

    ghost sub_gives = { λ d x r. (reach d.utc (neg_ℤ x) ≡ Some r.utc) × (r.zone ≡ d.zone) };

    /// Returns the date-time `rhs` earlier, as [`checked_sub_signed`](DateTime::checked_sub_signed) does.
    ///
    /// Requires that UTC and the clock of the zone show dates there.
    #[inline]
    fn sub(self, rhs: TimeDelta) -> DateTime<Z> {
        self.checked_sub_signed(rhs).unwrap()
    }
}

impl<Z: TimeZone> SubAssign<TimeDelta> for DateTime<Z> {
    ghost can_sub_assign = { λ d x. IsSomeAnd (reach d.utc (neg_ℤ x)) (ShowsDate (Z.ahead d.zone)) };

    ghost sub_assign_gives = { λ d x r. (reach d.utc (neg_ℤ x) ≡ Some r.utc) × (r.zone ≡ d.zone) };

    /// Moves the date-time earlier by `rhs`.
    ///
    /// Requires that UTC and the clock of the zone show dates there.
    #[inline]
    fn sub_assign(&mut self, rhs: TimeDelta) {
        *self = *self - rhs;
    }
}

impl<Z: TimeZone, Y: TimeZone> Sub<DateTime<Y>> for DateTime<Z> {
    type Output = TimeDelta;

    ghost sub_gives = { λ a b r. r ≡ moment_distance a.utc b.utc };

    /// Returns the duration from `rhs` to this date-time, as
    /// [`signed_duration_since`](DateTime::signed_duration_since) does.
    #[inline]
    fn sub(self, rhs: DateTime<Y>) -> TimeDelta {
        self.signed_duration_since(rhs)
    }
}

//! Operators on dates. Each requires that its checked form returns `Some`.
ghost use Rattle.std.specs.Prelude.{◌≡◌, pos, neg_ℤ, ◌+ℤ◌, ◌-ℤ◌, IsSome, Some};
ghost use Rattle.chrono_clock.specs.Duration.{nanos_per_day, units_of, whole_units};
ghost use Rattle.chrono_calendar.specs.Days.{IsDate};
ghost use Rattle.chrono_calendar.specs.MonthMoves.{month_move};

use crate::days::Days;
use crate::naive_date::NaiveDate;
use chrono_clock::TimeDelta;
use chrono_units::Months;
use std::ops::{Add, AddAssign, Sub, SubAssign};

impl Add<TimeDelta> for NaiveDate {
    type Output = NaiveDate;

    ghost can_add = { λ a b. IsDate (a +ℤ whole_units nanos_per_day b) };

    ghost add_gives = { λ a b r. r ≡ a +ℤ whole_units nanos_per_day b };

    /// Returns the date later by the whole days of `rhs`.
    ///
    /// Requires that this date is in range.
    #[inline]
    fn add(self, rhs: TimeDelta) -> NaiveDate {
        self.checked_add_signed(rhs).unwrap()
    }
}

impl AddAssign<TimeDelta> for NaiveDate {
    ghost can_add_assign = { λ a b. IsDate (a +ℤ whole_units nanos_per_day b) };

    ghost add_assign_gives = { λ a b r. r ≡ a +ℤ whole_units nanos_per_day b };

    /// Moves the date by the whole days of `rhs`.
    ///
    /// Requires that the new date is in range.
    #[inline]
    fn add_assign(&mut self, rhs: TimeDelta) {
        *self = *self + rhs;
    }
}

impl Add<Months> for NaiveDate {
    type Output = NaiveDate;

    ghost can_add = { λ a m. IsSome (month_move a (pos m)) };

    ghost add_gives = { λ a m r. month_move a (pos m) ≡ Some r };

    /// Returns the same day `months` months later. If that month is too short, returns its last day.
    ///
    /// Requires that the year stays in range.
    #[inline]
    fn add(self, months: Months) -> NaiveDate {
        self.checked_add_months(months).unwrap()
    }
}

impl Sub<Months> for NaiveDate {
    type Output = NaiveDate;

    ghost can_sub = { λ a m. IsSome (month_move a (neg_ℤ (pos m))) };

    ghost sub_gives = { λ a m r. month_move a (neg_ℤ (pos m)) ≡ Some r };

    /// Returns the same day `months` months earlier. If that month is too short, returns its last day.
    ///
    /// Requires that the year stays in range.
    #[inline]
    fn sub(self, months: Months) -> NaiveDate {
        self.checked_sub_months(months).unwrap()
    }
}

impl Add<Days> for NaiveDate {
    type Output = NaiveDate;

    ghost can_add = { λ a d. IsDate (a +ℤ pos d) };

    ghost add_gives = { λ a d r. r ≡ a +ℤ pos d };

    /// Returns the date `days` days later.
    ///
    /// Requires that this date is in range.
    #[inline]
    fn add(self, days: Days) -> NaiveDate {
        self.checked_add_days(days).unwrap()
    }
}

impl Sub<Days> for NaiveDate {
    type Output = NaiveDate;

    ghost can_sub = { λ a d. IsDate (a -ℤ pos d) };

    ghost sub_gives = { λ a d r. r ≡ a -ℤ pos d };

    /// Returns the date `days` days earlier.
    ///
    /// Requires that this date is in range.
    #[inline]
    fn sub(self, days: Days) -> NaiveDate {
        self.checked_sub_days(days).unwrap()
    }
}

impl Sub<TimeDelta> for NaiveDate {
    type Output = NaiveDate;

    ghost can_sub = { λ a b. IsDate (a -ℤ whole_units nanos_per_day b) };

    ghost sub_gives = { λ a b r. r ≡ a -ℤ whole_units nanos_per_day b };

    /// Returns the date earlier by the whole days of `rhs`.
    ///
    /// Requires that this date is in range.
    #[inline]
    fn sub(self, rhs: TimeDelta) -> NaiveDate {
        self.checked_sub_signed(rhs).unwrap()
    }
}

impl SubAssign<TimeDelta> for NaiveDate {
    ghost can_sub_assign = { λ a b. IsDate (a -ℤ whole_units nanos_per_day b) };

    ghost sub_assign_gives = { λ a b r. r ≡ a -ℤ whole_units nanos_per_day b };

    /// Moves the date back by the whole days of `rhs`.
    ///
    /// Requires that the new date is in range.
    #[inline]
    fn sub_assign(&mut self, rhs: TimeDelta) {
        *self = *self - rhs;
    }
}

impl Sub<NaiveDate> for NaiveDate {
    type Output = TimeDelta;

    ghost sub_gives = { λ a b r. r ≡ units_of nanos_per_day (a -ℤ b) };

    /// Returns the duration from `rhs` to this date, as
    /// [`signed_duration_since`](NaiveDate::signed_duration_since) does.
    #[inline]
    fn sub(self, rhs: NaiveDate) -> TimeDelta {
        self.signed_duration_since(rhs)
    }
}

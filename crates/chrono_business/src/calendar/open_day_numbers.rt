//! The rank of a day, how many open days the dates before it have, and the open day of a rank.
//!
//! A rank is the number of workdays before the day, less the holidays before it.
//! Whole weeks give the first number, and a search gives the second.
//! The open day of a rank comes after the holidays that have no larger rank. Their number says which workday it is.
ghost use Rattle.std.specs.Prelude.{◌≡◌, ◌<◌, ◌≤◌, ◌≤ℤ◌, ◌<ℤ◌, ◌+ℤ◌, ◌-ℤ◌, ℕ, ℤ, true, pos, neg_ℤ, length, slice_index_or, IfSome, IfNone};
ghost use Rattle.std.specs.List.{AllWithin};
ghost use Rattle.std.specs.List.Sorted.{IsPartitionPoint};
ghost use Rattle.chrono_datetime.specs.Days.{IsDate};
ghost use Rattle.chrono_datetime.specs.Recurrence.{first_date, past_last_date};
ghost use Rattle.chrono_business.specs.OpenDays.{is_holiday, is_open, open_days};

use crate::calendar::Calendar;
use chrono_datetime::{Datelike, FIRST_DAY, NaiveDate};

// How many dates come after the first.
const DATES_AFTER_FIRST: u64 = 191_491_528;

impl<'a> Calendar<'a> {
    // How many open days come before a date.
    #[inline]
    pub(crate) fn rank(&self, date: NaiveDate) -> u32
        ensures value { result ≡ open_days self.now first_date date }
        ensures in_range { IsDate date }
        ensures few { result ≤ 191_491_529 }
    {
        self.rank_of_day(date.num_days_from_ce())
    }

    // How many open days come before the day after a date.
    #[inline]
    pub(crate) fn rank_behind(&self, date: NaiveDate) -> u32
        ensures value { result ≡ open_days self.now first_date (date +ℤ pos 1) }
        ensures in_range { IsDate date }
        ensures few { result ≤ 191_491_529 }
    {
        self.rank_of_day(date.num_days_from_ce() + 1)
    }

    // How many open days come before the day, which is a date's or the one after the last date.
    #[inline]
    fn rank_of_day(&self, day: i32) -> u32
        requires from { first_date ≤ℤ day }
        requires to { day ≤ℤ past_last_date }
        ensures value { result ≡ open_days self.now first_date day }
        // No more than there are dates.
        ensures few { result ≤ 191_491_529 }
    {
        let days = (day - FIRST_DAY) as u32;
        self.week.workdays(days) - self.holidays_before(day) as u32
    }

    // How many holidays come before the day.
    #[inline]
    pub(crate) fn holidays_before(&self, day: i32) -> usize
        ensures bound { result ≤ length self.now.holidays }
        ensures place { IsPartitionPoint (λ h. h <ℤ day) (λ h. day ≤ℤ h) self.now.holidays result }
    {
        self.holidays.count_before(day)
    }

    // Whether the date is one of the holidays.
    #[inline]
    pub(crate) fn is_holiday(&self, date: NaiveDate) -> bool
        ensures { result ≡ is_holiday self.now.holidays date }
    {
        self.holidays.contains(date)
    }

    // The open day of a rank; `None` exactly if no date has so many before it and is open.
    pub(crate) fn at_rank(&self, rank: u32) -> Option<NaiveDate>
        ensures exists { IfSome result (λ e. IsDate e) }
        ensures passes { IfSome result (λ e. is_open self.now e ≡ true) }
        ensures count { IfSome result (λ e. open_days self.now first_date e ≡ rank) }
        ensures none { IfNone result (open_days self.now first_date past_last_date ≤ rank) }
    {
        let per_week = u64::from(self.week.workdays_of_week());
        if per_week == 0 {
            return None;
        }
        let workday = u64::from(rank) + self.holidays_up_to(rank) as u64;
        let place = self.week.days_to_workday((workday % per_week) as u32);
        let days = workday / per_week * 7 + u64::from(place);
        if days > DATES_AFTER_FIRST {
            return None;
        }
        NaiveDate::from_num_days_from_ce_opt(FIRST_DAY + days as i32)
    }

    // How many holidays have no larger rank: those that the open day of this rank comes behind.
    fn holidays_up_to(&self, rank: u32) -> usize
        ensures bound { result ≤ length self.now.holidays }
        ensures few { result ≤ 191_491_529 }
        ensures behind { AllWithin (λ h. open_days self.now first_date h ≤ rank)
            self.now.holidays 0 result }
        ensures ahead { AllWithin (λ h. rank < open_days self.now first_date h)
            self.now.holidays result (length self.now.holidays) }
    {
        let mut place = 0;
        let mut left = self.holidays.as_slice().len();
        while left > 0 {
            let half = left - left / 2;
            let is_behind = self.rank_of_holiday(place + half - 1) <= rank;
            place += if is_behind { half } else { 0 };
            left /= 2;
        }
        place
    }

    // The rank of a holiday by its place.
    #[inline]
    fn rank_of_holiday(&self, place: usize) -> u32
        requires { place < length self.now.holidays }
        ensures { (d : ℤ) →
            result ≡ open_days self.now first_date (slice_index_or self.now.holidays place d) }
    {
        let holidays = self.holidays.as_slice();
        let days = (holidays[place].num_days_from_ce() - FIRST_DAY) as u32;
        self.week.workdays(days) - place as u32
    }
}

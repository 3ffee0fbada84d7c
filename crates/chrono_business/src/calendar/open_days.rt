//! Which days are open, how many there are between two, and the n-th of them.
ghost use Rattle.std.specs.Prelude.{◌≡◌, ◌≤◌, ◌≤ℤ◌, ◌<ℤ◌, ◌+ℤ◌, ◌-ℤ◌, ℤ, pos, neg_ℤ, true, false, unsigned_abs, IfSome, IfNone};
ghost use Rattle.chrono_datetime.specs.Days.{IsDate};
ghost use Rattle.chrono_datetime.specs.Recurrence.{first_date, past_last_date};
ghost use Rattle.chrono_business.specs.OpenDays.{IsMovedByOpenDays, IsMovedFromNext, IsMovedFromPrevious, IsNthOpenBack, IsNthOpenFrom, is_open, open_days, open_days_signed};

use crate::calendar::Calendar;
use chrono_datetime::{Datelike, NaiveDate};

impl<'a> Calendar<'a> {
    /// Returns whether `date` is open, that is neither on the weekend nor a holiday.
    ///
    /// ```
    /// use chrono_datetime::{NaiveDate, Weekday, WeekdaySet};
    /// let calendar = Calendar::new(WeekdaySet::from_array([Weekday::Sat, Weekday::Sun]), &[]);
    /// calendar.is_open(NaiveDate::from_ymd_opt(2024, 3, 30)?) // false
    /// ```
    #[tactic(auto, unfolding(crate::specs::OpenDays::is_open))]
    #[inline]
    pub fn is_open(&self, date: NaiveDate) -> bool
        ensures { result ≡ is_open self.now date }
    {
        self.week.is_workday(date) && !self.is_holiday(date)
    }

    /// Returns the first open day that is not before `date`. So an open `date` is returned itself.
    ///
    /// Returns `None` if no date from `date` on is open.
    ///
    /// ```
    /// use chrono_datetime::{NaiveDate, Weekday, WeekdaySet};
    /// let calendar = Calendar::new(WeekdaySet::from_array([Weekday::Sat, Weekday::Sun]), &[]);
    /// calendar.next_open(NaiveDate::from_ymd_opt(2024, 3, 30)?) // Some(2024-04-01)
    /// calendar.next_open(NaiveDate::from_ymd_opt(2024, 3, 29)?) // Some(2024-03-29)
    /// ```
    #[inline]
    pub fn next_open(&self, date: NaiveDate) -> Option<NaiveDate>
        ensures exists { IfSome result (λ e. IsDate e) }
        ensures passes { IfSome result (λ e. is_open self.now e ≡ true) }
        ensures not_before { IfSome result (λ e. date ≤ℤ e) }
        ensures least { IfSome result (λ e. (d : ℤ) → date ≤ℤ d → d <ℤ e →
            is_open self.now d ≡ false) }
        ensures none { IfNone result ((d : ℤ) → date ≤ℤ d → IsDate d → is_open self.now d ≡ false) }
    {
        self.nth_open_from(date, 0)
    }

    /// Returns the last open day that is not after `date`. So an open `date` is returned itself.
    ///
    /// Returns `None` if no date up to `date` is open.
    ///
    /// ```
    /// use chrono_datetime::{NaiveDate, Weekday, WeekdaySet};
    /// let calendar = Calendar::new(WeekdaySet::from_array([Weekday::Sat, Weekday::Sun]), &[]);
    /// calendar.last_open(NaiveDate::from_ymd_opt(2024, 3, 31)?) // Some(2024-03-29)
    /// ```
    #[inline]
    pub fn last_open(&self, date: NaiveDate) -> Option<NaiveDate>
        ensures exists { IfSome result (λ e. IsDate e) }
        ensures passes { IfSome result (λ e. is_open self.now e ≡ true) }
        ensures not_after { IfSome result (λ e. e ≤ℤ date) }
        ensures greatest { IfSome result (λ e. (d : ℤ) → e <ℤ d → d ≤ℤ date →
            is_open self.now d ≡ false) }
        ensures none { IfNone result ((d : ℤ) → d ≤ℤ date → IsDate d → is_open self.now d ≡ false) }
    {
        self.nth_open_back(date, 0)
    }

    /// Returns how many days are open from `from` on and before `to`.
    ///
    /// If `to` is earlier than `from`, the result is minus the open days from `to` on and before `from`.
    /// So `open_days(a, b) + open_days(b, c)` is always `open_days(a, c)`.
    ///
    /// ```
    /// use chrono_datetime::{NaiveDate, Weekday, WeekdaySet};
    /// let calendar = Calendar::new(WeekdaySet::from_array([Weekday::Sat, Weekday::Sun]), &[]);
    /// let (from, to) = (NaiveDate::from_ymd_opt(2024, 3, 1)?, NaiveDate::from_ymd_opt(2024, 4, 1)?);
    /// calendar.open_days(from, to) // 21
    /// calendar.open_days(to, from) // -21
    /// ```
    #[inline]
    pub fn open_days(&self, from: NaiveDate, to: NaiveDate) -> i64
        ensures value { result ≡ open_days_signed self.now from to }
        ensures sum { (later : ℤ) →
            result +ℤ open_days_signed self.now to later ≡ open_days_signed self.now from later }
    {
        let start = self.rank(from);
        let end = self.rank(to);
        ranks_between(start, end)
    }

    /// Returns how many days are open from the earlier of `from` and `to` to the later, both included.
    ///
    /// The result is negative if `to` is earlier than `from`.
    ///
    /// ```
    /// use chrono_datetime::{NaiveDate, Weekday, WeekdaySet};
    /// let calendar = Calendar::new(WeekdaySet::from_array([Weekday::Sat, Weekday::Sun]), &[]);
    /// let (from, to) = (NaiveDate::from_ymd_opt(2024, 3, 1)?, NaiveDate::from_ymd_opt(2024, 4, 1)?);
    /// calendar.open_days_inclusive(from, to) // 22
    /// ```
    #[inline]
    pub fn open_days_inclusive(&self, from: NaiveDate, to: NaiveDate) -> i64
        ensures on { from ≤ℤ to → result ≡ pos (open_days self.now from (to +ℤ pos 1)) }
        ensures back { to <ℤ from → result ≡ neg_ℤ (pos (open_days self.now to (from +ℤ pos 1))) }
    {
        if to.num_days_from_ce() < from.num_days_from_ce() {
            ranks_between(self.rank_behind(from), self.rank(to))
        } else {
            ranks_between(self.rank(from), self.rank_behind(to))
        }
    }

    /// Moves `date` by `n` open days. From a closed `date` the next open day counts as the first.
    ///
    /// If `n > 0`, it returns the `n`-th open day after `date`. If `n < 0`, it returns the `-n`-th open day before it.
    /// If `n = 0`, it returns the first open day that is not before `date`.
    /// Returns `None` if the calendar has no such date.
    ///
    /// ```
    /// use chrono_datetime::{NaiveDate, Weekday, WeekdaySet};
    /// let calendar = Calendar::new(WeekdaySet::from_array([Weekday::Sat, Weekday::Sun]), &[]);
    /// let saturday = NaiveDate::from_ymd_opt(2024, 3, 2)?;
    /// calendar.add_open_days(saturday, 1) // Some(2024-03-04)
    /// calendar.add_open_days(saturday, -1) // Some(2024-03-01)
    /// ```
    ///
    /// QuantLib's `advance` and pandas' `BDay` give the same days. So does `WORKDAY` of Excel, but for `n = 0`.
    #[inline]
    pub fn add_open_days(&self, date: NaiveDate, n: i64) -> Option<NaiveDate>
        ensures exists { IfSome result (λ e. IsDate e) }
        ensures moved { IfSome result (λ e. IsMovedByOpenDays self.now date n e) }
        ensures none { IfNone result ((e : ℤ) → IsDate e → ¬ IsMovedByOpenDays self.now date n e) }
    {
        if n > 0 {
            self.add_open_days_from_previous(date, n)
        } else {
            self.add_open_days_from_next(date, n)
        }
    }

    /// Moves `date` forward to an open day, if it is closed, and then by `n` open days.
    ///
    /// Returns `None` if the calendar has no such date.
    ///
    /// ```
    /// use chrono_datetime::{NaiveDate, Weekday, WeekdaySet};
    /// let calendar = Calendar::new(WeekdaySet::from_array([Weekday::Sat, Weekday::Sun]), &[]);
    /// let saturday = NaiveDate::from_ymd_opt(2024, 3, 2)?;
    /// calendar.add_open_days_from_next(saturday, 1) // Some(2024-03-05)
    /// calendar.add_open_days_from_next(saturday, -1) // Some(2024-03-01)
    /// ```
    ///
    /// numpy's `busday_offset` does the same with `roll='forward'`.
    #[inline]
    pub fn add_open_days_from_next(&self, date: NaiveDate, n: i64) -> Option<NaiveDate>
        ensures exists { IfSome result (λ e. IsDate e) }
        ensures moved { IfSome result (λ e. IsMovedFromNext self.now date n e) }
        ensures none { IfNone result ((e : ℤ) → IsDate e → ¬ IsMovedFromNext self.now date n e) }
    {
        self.at_rank_from(i64::from(self.rank(date)), n)
    }

    /// Moves `date` back to an open day, if it is closed, and then by `n` open days.
    ///
    /// Returns `None` if the calendar has no such date.
    ///
    /// ```
    /// use chrono_datetime::{NaiveDate, Weekday, WeekdaySet};
    /// let calendar = Calendar::new(WeekdaySet::from_array([Weekday::Sat, Weekday::Sun]), &[]);
    /// let saturday = NaiveDate::from_ymd_opt(2024, 3, 2)?;
    /// calendar.add_open_days_from_previous(saturday, 1) // Some(2024-03-04)
    /// calendar.add_open_days_from_previous(saturday, -1) // Some(2024-02-29)
    /// ```
    ///
    /// numpy's `busday_offset` does the same with `roll='backward'`.
    #[inline]
    pub fn add_open_days_from_previous(&self, date: NaiveDate, n: i64) -> Option<NaiveDate>
        ensures exists { IfSome result (λ e. IsDate e) }
        ensures moved { IfSome result (λ e. IsMovedFromPrevious self.now date n e) }
        ensures none { IfNone result ((e : ℤ) → IsDate e → ¬ IsMovedFromPrevious self.now date n e) }
    {
        self.at_rank_from(i64::from(self.rank_behind(date)) - 1, n)
    }

    // The open day that has `rank + n` open days before it.
    fn at_rank_from(&self, rank: i64, n: i64) -> Option<NaiveDate>
        requires low { neg_ℤ (pos 1) ≤ℤ rank }
        requires high { rank ≤ℤ pos 191_491_529 }
        ensures exists { IfSome result (λ e. IsDate e) }
        ensures passes { IfSome result (λ e. is_open self.now e ≡ true) }
        ensures count { IfSome result (λ e. pos (open_days self.now first_date e) ≡ rank +ℤ n) }
        ensures none { IfNone result ((e : ℤ) → IsDate e → is_open self.now e ≡ true →
            ¬ (pos (open_days self.now first_date e) ≡ rank +ℤ n)) }
    {
        if n < -rank || n > MOST_OPEN_DAYS as i64 - rank {
            return None;
        }
        self.at_rank((rank + n) as u32)
    }

    /// Returns the `n`-th open day from `date` on. The first one has `n = 0`, and can be `date` itself.
    ///
    /// Returns `None` if there are at most `n` open days from `date` on.
    ///
    /// ```
    /// use chrono_datetime::{NaiveDate, Weekday, WeekdaySet};
    /// let calendar = Calendar::new(WeekdaySet::from_array([Weekday::Sat, Weekday::Sun]), &[]);
    /// calendar.nth_open_from(NaiveDate::from_ymd_opt(2024, 3, 30)?, 1) // Some(2024-04-02)
    /// ```
    pub fn nth_open_from(&self, date: NaiveDate, n: u64) -> Option<NaiveDate>
        ensures exists { IfSome result (λ e. IsDate e) }
        ensures nth { IfSome result (λ e. IsNthOpenFrom self.now date n e) }
        ensures none { IfNone result (open_days self.now date past_last_date ≤ n) }
    {
        let rank = u64::from(self.rank(date));
        if n > MOST_OPEN_DAYS {
            return None;
        }
        self.at_rank((rank + n) as u32)
    }

    /// Returns the `n`-th open day from `date` back. The first one has `n = 0`, and can be `date` itself.
    ///
    /// Returns `None` if there are at most `n` open days up to `date`.
    ///
    /// ```
    /// use chrono_datetime::{NaiveDate, Weekday, WeekdaySet};
    /// let calendar = Calendar::new(WeekdaySet::from_array([Weekday::Sat, Weekday::Sun]), &[]);
    /// calendar.nth_open_back(NaiveDate::from_ymd_opt(2024, 3, 31)?, 1) // Some(2024-03-28)
    /// ```
    pub fn nth_open_back(&self, date: NaiveDate, n: u64) -> Option<NaiveDate>
        ensures exists { IfSome result (λ e. IsDate e) }
        ensures nth { IfSome result (λ e. IsNthOpenBack self.now date n e) }
        ensures none { IfNone result (open_days self.now first_date (date +ℤ pos 1) ≤ n) }
    {
        let rank = u64::from(self.rank_behind(date));
        if rank <= n {
            return None;
        }
        self.at_rank((rank - 1 - n) as u32)
    }
}

// The difference of two ranks.
#[inline]
fn ranks_between(from: u32, to: u32) -> i64
    ensures { result ≡ pos to -ℤ pos from }
{
    i64::from(to) - i64::from(from)
}

// The number of dates. So no more days can be open.
const MOST_OPEN_DAYS: u64 = 191_491_529;

//! `OpenDaysIterator`: the open days between two dates, from either end.
ghost use Rattle.std.specs.Prelude.{◌≡◌, length, Some, IfSome};
ghost use Rattle.std.specs.Iterator.{UpTo, YieldsFirst, YieldsLast, item_count};
ghost use Rattle.std.specs.Iterator.SizeHint.{IsWithinCount};
ghost use Rattle.chrono_business.specs.OpenDays.{open_days};
ghost use Rattle.chrono_business.specs.OpenDayLists.{open_days_list};

use crate::calendar::Calendar;
use chrono_datetime::{Datelike, NaiveDate};
use std::iter::FusedIterator;
use std::marker::Model;

/// The open days from one date on and before another, in order. [`Calendar::iter_open_days`] makes it.
///
/// Contracts see it as the list of the days that are left, by their numbers. `next` takes the first of them and
/// `next_back` the last. Once none is left, both return `None` from then on.
#[derive(Drop)]
pub struct OpenDaysIterator<'b, 'a> {
    calendar: &'b Calendar<'a>,
    // The day from which on days are left, and how many open days come before it.
    start: i32,
    start_rank: u32,
    // The day before which days are left, and how many open days come before it.
    end: i32,
    end_rank: u32,
}

impl<'b, 'a> Model for OpenDaysIterator<'b, 'a> {
    ghost use Rattle.std.specs.Prelude.{◌≡◌, ◌≤ℤ◌, List, ℤ};
    ghost use Rattle.chrono_datetime.specs.Recurrence.{first_date, past_last_date};
    ghost use Rattle.chrono_business.specs.OpenDays.{open_days};
    ghost use Rattle.chrono_business.specs.OpenDayLists.{open_days_list};

    ghost Value = { List ℤ };

    ghost view = { λ it. open_days_list it.calendar.now it.start it.end };

    ghost invariant = { λ it. (first_date ≤ℤ it.start) × (first_date ≤ℤ it.end) × (it.end ≤ℤ past_last_date)
        × (it.start_rank ≡ open_days it.calendar.now first_date it.start)
        × (it.end_rank ≡ open_days it.calendar.now first_date it.end) };
}

impl<'a> Calendar<'a> {
    /// Returns an iterator over the open days from `from` on and before `to`, in order.
    ///
    /// It can be read from either end. It is empty if `to` is not after `from`.
    ///
    /// ```
    /// use chrono_datetime::{NaiveDate, Weekday, WeekdaySet};
    /// let calendar = Calendar::new(WeekdaySet::from_array([Weekday::Sat, Weekday::Sun]), &[]);
    /// let (from, to) = (NaiveDate::from_ymd_opt(2024, 3, 29)?, NaiveDate::from_ymd_opt(2024, 4, 3)?);
    /// let mut days = calendar.iter_open_days(from, to);
    /// (days.len(), days.next(), days.next_back()) // (3, Some(2024-03-29), Some(2024-04-02))
    /// ```
    #[inline]
    pub fn iter_open_days<'b>(&'b self, from: NaiveDate, to: NaiveDate) -> OpenDaysIterator<'b, 'a>
        ensures days { result ≡ open_days_list self.now from to }
        ensures count { length result ≡ open_days self.now from to }
    {
        OpenDaysIterator {
            calendar: self,
            start: from.num_days_from_ce(),
            start_rank: self.rank(from),
            end: to.num_days_from_ce(),
            end_rank: self.rank(to),
        }
    }
}

impl<'b, 'a> Iterator for OpenDaysIterator<'b, 'a> {
    type Item = NaiveDate;

    ghost next_gives = { YieldsFirst (λ left. left) };

    ghost remaining = { item_count (λ left. left) };

    /// Removes the first of the days that are left and returns it. Returns `None` once none is left.
    #[inline]
    fn next(&mut self) -> Option<NaiveDate> {
        if self.start_rank >= self.end_rank {
            return None;
        }
        let day = self.calendar.at_rank(self.start_rank)?;
        self.start = day.num_days_from_ce() + 1;
        self.start_rank += 1;
        Some(day)
    }

    /// Returns exactly the number of days that are left.
    #[inline]
    fn size_hint(&self) -> (usize, Option<usize>)
        ensures lower { IsWithinCount result.0 (item_count (λ left. left) self.now) }
        ensures upper { IfSome result.1 (UpTo (item_count (λ left. left) self.now)) }
        ensures exact { result ≡ (length self.now, Some (length self.now)) }
    {
        let left = self.len();
        (left, Some(left))
    }
}

impl<'b, 'a> DoubleEndedIterator for OpenDaysIterator<'b, 'a> {
    ghost next_back_gives = { YieldsLast (λ left. left) };

    /// Removes the last of the days that are left and returns it. Returns `None` once none is left.
    #[inline]
    fn next_back(&mut self) -> Option<NaiveDate> {
        if self.start_rank >= self.end_rank {
            return None;
        }
        let day = self.calendar.at_rank(self.end_rank - 1)?;
        self.end = day.num_days_from_ce();
        self.end_rank -= 1;
        Some(day)
    }
}

impl<'b, 'a> ExactSizeIterator for OpenDaysIterator<'b, 'a> {
    /// Returns the number of days that are left.
    #[inline]
    fn len(&self) -> usize {
        self.end_rank.saturating_sub(self.start_rank) as usize
    }
}

impl<'b, 'a> FusedIterator for OpenDaysIterator<'b, 'a> {}

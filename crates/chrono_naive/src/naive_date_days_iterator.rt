//! `NaiveDateDaysIterator`: dates, day after day.
//!
//! The module `order` compares iterators.
ghost use Rattle.std.specs.Prelude.{◌≡◌, pos, ◌+ℤ◌, ◌-ℤ◌, length, OnSome, IfNone, Some, None};
ghost use Rattle.std.specs.Iterator.{IsFinite, YieldsFirst, item_count, size};
ghost use Rattle.std.specs.Option.{SomeIff};
ghost use Rattle.chrono_calendar.specs.Days.{IsDate};
ghost use Rattle.chrono_calendar.specs.Recurrence.{dates_left, past_last_date};
ghost use Rattle.chrono_naive.specs.DateLists.{days_from};

mod order;

use crate::naive_date::NaiveDate;
use chrono_calendar::ends::LAST_DAY;
use std::iter::FusedIterator;
use std::marker::Model;

/// The dates from a date on, day after day, up to [`NaiveDate::MAX`]. Made by [`NaiveDate::iter_days`].
///
/// Once [`next`](Iterator::next) has returned the last date, the iterator is ended. It then returns nothing
/// more at either end.
///
/// Contracts see it as its cursor, the day number of the date that it returns next. The cursor of an ended
/// iterator is the number after that of the last date. Iterators are equal, ordered and hashed as their
/// cursors.
///
/// ```
/// let mut days = NaiveDate::MAX.iter_days();
/// days.next() // Some(+262142-12-31)
/// days.next() // None
/// ```
#[derive(Clone, Copy, Eq, Hash, Debug)]
pub struct NaiveDateDaysIterator {
    cursor: i32,
}

impl Model for NaiveDateDaysIterator {
    ghost use Rattle.std.specs.Prelude.{ℤ};
    ghost use Rattle.chrono_naive.specs.DateLists.{IsDayCursor};

    ghost Value = { ℤ };

    ghost view = { λ it. it.cursor };

    ghost invariant = { λ it. IsDayCursor it.cursor };

    ghost inverse = { λ n. record { cursor = n } };
}

impl NaiveDateDaysIterator {
    // The dates from that date on.
    #[inline]
    pub(crate) fn new(start: NaiveDate) -> NaiveDateDaysIterator
        ensures { result ≡ start }
    {
        NaiveDateDaysIterator {
            cursor: start.day_number(),
        }
    }

    /// Returns the date at the cursor, and moves the cursor one day later.
    ///
    /// Returns `None` if the last date was returned before.
    ///
    /// It does what [`next`](Iterator::next) does. Its contract says which date comes; that of `next` says
    /// which dates are left, for a loop.
    ///
    /// ```
    /// let mut days = NaiveDate::from_ymd_opt(2024, 2, 28)?.iter_days();
    /// days.step() // Some(2024-02-28)
    /// days.step() // Some(2024-02-29)
    /// ```
    #[inline]
    pub fn step(&mut self) -> Option<NaiveDate>
        ensures date { SomeIff result (IsDate self.old) self.old }
        ensures moved { OnSome result (self.new ≡ self.old +ℤ pos 1) }
        ensures refused { IfNone result (self.old ≡ past_last_date) }
        // An ended iterator stays ended.
        ensures ended { self.old ≡ past_last_date →
            (result ≡ None) × (self.new ≡ past_last_date) }
        ensures steps { YieldsFirst days_from self.old result self.new }
    {
        let next = NaiveDate::from_num_days_from_ce_opt(self.cursor)?;
        self.cursor += 1;
        Some(next)
    }

    /// Returns the date at the cursor, and moves the cursor one day earlier. So it goes back from the date that
    /// the iterator returns next, and not from the end of its dates.
    ///
    /// Returns `None` if the cursor would be before [`NaiveDate::MIN`]; the cursor then stays. Also returns
    /// `None` for an iterator that is ended.
    ///
    /// ```
    /// let mut days = NaiveDate::from_ymd_opt(2024, 3, 1)?.iter_days();
    /// days.next_back() // Some(2024-03-01)
    /// days.next_back() // Some(2024-02-29)
    /// NaiveDate::MIN.iter_days().next_back() // None
    /// ```
    #[inline]
    pub fn next_back(&mut self) -> Option<NaiveDate>
        ensures date { SomeIff result (IsDate self.old × IsDate (self.old -ℤ pos 1)) self.old }
        ensures moved { OnSome result (self.new ≡ self.old -ℤ pos 1) }
        ensures refused { IfNone result (self.new ≡ self.old) }
        // An ended iterator stays ended.
        ensures ended { self.old ≡ past_last_date →
            (result ≡ None) × (self.new ≡ past_last_date) }
    {
        let date = NaiveDate::from_num_days_from_ce_opt(self.cursor)?;
        self.cursor = date.pred_opt()?.day_number();
        Some(date)
    }
}

impl Iterator for NaiveDateDaysIterator {
    type Item = NaiveDate;

    ghost next_gives = { YieldsFirst days_from };

    ghost remaining = { item_count days_from };

    /// Returns the date at the cursor, and moves the cursor one day later.
    ///
    /// Returns `None` if the last date was returned before.
    #[inline]
    fn next(&mut self) -> Option<NaiveDate> {
        self.step()
    }

    /// Returns the exact number of dates that are left, as both bounds.
    ///
    /// ```
    /// NaiveDate::MAX.iter_days().size_hint() // (1, Some(1))
    /// ```
    #[inline]
    fn size_hint(&self) -> (usize, Option<usize>)
        ensures list { result ≡ (length (days_from self.now), Some (length (days_from self.now))) }
        ensures count { result ≡ (dates_left self.now, Some (dates_left self.now)) }
    {
        let left = self.len();
        (left, Some(left))
    }
}

impl ExactSizeIterator for NaiveDateDaysIterator {
    /// Returns the number of dates that are left. It is 0 for an ended iterator.
    ///
    /// ```
    /// NaiveDate::from_ymd_opt(262142, 12, 30)?.iter_days().len() // 2
    /// ```
    #[inline]
    fn len(&self) -> usize
        ensures finite { IsFinite (item_count days_from self.now) }
        ensures value { result ≡ size (item_count days_from self.now) }
        ensures count { result ≡ dates_left self.now }
    {
        (LAST_DAY + 1 - self.cursor) as usize
    }
}

impl FusedIterator for NaiveDateDaysIterator {}

//! `NaiveDateWeeksIterator`: dates, week after week.
ghost use Rattle.std.specs.Prelude.{◌≡◌, pos, ◌+ℤ◌, ◌-ℤ◌, length, OnSome, IfNone, Some};
ghost use Rattle.std.specs.Option.{SomeIff};
ghost use Rattle.std.specs.Iterator.{YieldsFirst, item_count};
ghost use Rattle.chrono_calendar.specs.Days.{IsDate};
ghost use Rattle.chrono_naive.specs.DateLists.{weeks_from};

use crate::naive_date::NaiveDate;
use chrono_calendar::ends::LAST_DAY;
use std::iter::FusedIterator;
use std::marker::Model;

/// The dates from a date on, week after week. Made by [`NaiveDate::iter_weeks`].
///
/// Contracts see it as its cursor, the day number of the date that it returns next.
///
/// ```
/// let mut weeks = NaiveDate::from_ymd_opt(2024, 2, 29)?.iter_weeks();
/// weeks.next() // Some(2024-02-29)
/// weeks.next() // Some(2024-03-07)
/// ```
#[derive(Clone, Copy, PartialEq, Eq, PartialOrd, Ord, Hash, Debug)]
pub struct NaiveDateWeeksIterator {
    cursor: NaiveDate,
}

impl Model for NaiveDateWeeksIterator {
    ghost use Rattle.std.specs.Prelude.{ℤ};

    ghost Value = { ℤ };

    ghost view = { λ it. it.cursor };

    ghost inverse = { λ n. record { cursor = n } };
}

impl NaiveDateWeeksIterator {
    // The dates from that date on.
    #[inline]
    pub(crate) fn new(cursor: NaiveDate) -> NaiveDateWeeksIterator
        ensures { result ≡ cursor }
    {
        NaiveDateWeeksIterator { cursor }
    }

    // The date at the cursor, which then stands so many days later; `None` if that would be no date, with the cursor left
    // where it is.
    #[inline]
    fn move_by(&mut self, days: i64) -> Option<NaiveDate>
        ensures date { SomeIff result (IsDate (self.old +ℤ days)) self.old }
        ensures moved { OnSome result (self.new ≡ self.old +ℤ days) }
        ensures refused { IfNone result (self.new ≡ self.old) }
        ensures in_range { IsDate self.old }
    {
        let date = self.cursor;
        self.cursor = date.moved_by_days(days)?;
        Some(date)
    }

    /// Returns the date at the cursor, and moves the cursor one week later.
    ///
    /// Returns `None` if the cursor would be after [`NaiveDate::MAX`]; the cursor then stays.
    ///
    /// It does what [`next`](Iterator::next) does. Its contract says which date comes; that of `next` says
    /// which dates are left, for a loop.
    ///
    /// ```
    /// let mut weeks = NaiveDate::from_ymd_opt(2024, 2, 29)?.iter_weeks();
    /// weeks.step() // Some(2024-02-29)
    /// weeks.step() // Some(2024-03-07)
    /// NaiveDate::MAX.iter_weeks().step() // None
    /// ```
    #[inline]
    pub fn step(&mut self) -> Option<NaiveDate>
        ensures date { SomeIff result (IsDate (self.old +ℤ pos 7)) self.old }
        ensures moved { OnSome result (self.new ≡ self.old +ℤ pos 7) }
        ensures refused { IfNone result (self.new ≡ self.old) }
        ensures steps { YieldsFirst weeks_from self.old result self.new }
    {
        self.move_by(7)
    }

    /// Returns the date at the cursor, and moves the cursor one week earlier. So it goes back from the date
    /// that the iterator returns next, and not from the end of its dates.
    ///
    /// Returns `None` if the cursor would be before [`NaiveDate::MIN`]; the cursor then stays.
    ///
    /// ```
    /// let mut weeks = NaiveDate::from_ymd_opt(2024, 3, 7)?.iter_weeks();
    /// weeks.next_back() // Some(2024-03-07)
    /// weeks.next_back() // Some(2024-02-29)
    /// NaiveDate::MIN.iter_weeks().next_back() // None
    /// ```
    #[inline]
    pub fn next_back(&mut self) -> Option<NaiveDate>
        ensures date { SomeIff result (IsDate (self.old -ℤ pos 7)) self.old }
        ensures moved { OnSome result (self.new ≡ self.old -ℤ pos 7) }
        ensures refused { IfNone result (self.new ≡ self.old) }
    {
        self.move_by(-7)
    }
}

impl Iterator for NaiveDateWeeksIterator {
    type Item = NaiveDate;

    ghost next_gives = { YieldsFirst weeks_from };

    ghost remaining = { item_count weeks_from };

    /// Returns the date at the cursor, and moves the cursor one week later.
    ///
    /// Returns `None` if the cursor would be after [`NaiveDate::MAX`]; the cursor then stays.
    #[inline]
    fn next(&mut self) -> Option<NaiveDate> {
        self.step()
    }

    /// Returns the exact number of dates that are left, as both bounds.
    ///
    /// ```
    /// NaiveDate::MAX.iter_weeks().size_hint() // (0, Some(0))
    /// ```
    #[inline]
    fn size_hint(&self) -> (usize, Option<usize>)
        ensures { result ≡ (length (weeks_from self.now), Some (length (weeks_from self.now))) }
    {
        let left = self.len();
        (left, Some(left))
    }
}

impl ExactSizeIterator for NaiveDateWeeksIterator {
    /// Returns the number of dates that are left.
    ///
    /// ```
    /// NaiveDate::from_ymd_opt(262142, 12, 1)?.iter_weeks().len() // 4
    /// ```
    #[inline]
    fn len(&self) -> usize {
        (LAST_DAY - self.cursor.day_number()) as usize / 7
    }
}

impl FusedIterator for NaiveDateWeeksIterator {}

//! `RecurrenceDays`: the days of a recurrence, one after another.
ghost use Rattle.std.specs.Prelude.{◌≡◌, ◌≤◌, IfSome, IsSome};
ghost use Rattle.std.specs.Iterator.{UpTo, YieldsFirst, item_count};
ghost use Rattle.std.specs.Iterator.SizeHint.{IsWithinCount};
ghost use Rattle.chrono_datetime.specs.Recurrence.{first_date};
ghost use Rattle.chrono_rules.specs.RecurrenceSets.{recurrence_from};

use crate::search::recurrence::Recurrence;
use crate::search::repeats::PAST_LAST_DAY;
use chrono_datetime::{Datelike, FIRST_DAY, NaiveDate};
use std::iter::FusedIterator;
use std::marker::Model;

/// The days of a recurrence, in order, to the end of the calendar.
///
/// [`Recurrence::iter`] and [`Recurrence::iter_from`] make it. After its last day it returns `None` from then on.
/// Contracts see it as the list of the days that are left, by their numbers.
#[derive(Drop)]
pub struct RecurrenceDays<'a> {
    recurrence: Recurrence<'a>,
    // The day from which on days are left.
    from: i32,
    // Where the rule has COUNT, how many of its members came before that day.
    seen: u32,
}

impl<'a> Model for RecurrenceDays<'a> {
    ghost use Rattle.std.specs.Prelude.{◌≡◌, ◌≤◌, ◌≤ℤ◌, ◌<ℤ◌, List, ℤ};
    ghost use Rattle.chrono_datetime.specs.Recurrence.{dates_before, first_date, past_last_date};
    ghost use Rattle.chrono_rules.specs.InstanceWalks.{IsKept};
    ghost use Rattle.chrono_rules.specs.RecurrenceSets.{recurrence_from};

    ghost Value = { List ℤ };

    ghost view = { λ it. recurrence_from it.recurrence it.from };

    ghost invariant = { λ it. (first_date ≤ℤ it.from) × (it.from ≤ℤ past_last_date)
        × (it.from <ℤ past_last_date → IsKept it.recurrence.rule it.recurrence.start it.from it.seen)
        × (it.seen ≤ dates_before it.from) };
}

impl<'a> Recurrence<'a> {
    /// Returns an iterator over the days of the recurrence, in order, to the end of the calendar.
    ///
    /// ```
    /// use chrono_datetime::NaiveDate;
    /// let (start, rule) = (NaiveDate::from_ymd_opt(2024, 1, 1)?, read_rule(b"FREQ=WEEKLY").ok()?);
    /// let (dates, exceptions) = ([NaiveDate::from_ymd_opt(2024, 1, 3)?], [start]);
    /// let recurrence = Recurrence::new(rule, start, &dates, &exceptions);
    /// let mut days = recurrence.iter();
    /// (days.next(), days.next()) // (Some(2024-01-03), Some(2024-01-08))
    /// ```
    #[inline]
    pub fn iter(&self) -> RecurrenceDays<'a>
        ensures { result ≡ recurrence_from self.now first_date }
    {
        // Nothing comes before the first date.
        prove!(self.start.num_days_from_ce() >= FIRST_DAY);
        RecurrenceDays {
            recurrence: self.copied(),
            from: FIRST_DAY,
            seen: 0,
        }
    }

    /// Returns an iterator over the days of the recurrence from `day` on. `day` itself can be one.
    ///
    /// ```
    /// use chrono_datetime::NaiveDate;
    /// let (start, rule) = (NaiveDate::from_ymd_opt(2024, 1, 1)?, read_rule(b"FREQ=WEEKLY").ok()?);
    /// let recurrence = Recurrence::new(rule, start, &[], &[]);
    /// recurrence.iter_from(NaiveDate::from_ymd_opt(2024, 1, 8)?).next() // Some(2024-01-08)
    /// ```
    #[inline]
    pub fn iter_from(&self, day: NaiveDate) -> RecurrenceDays<'a>
        ensures { result ≡ recurrence_from self.now day }
    {
        RecurrenceDays {
            recurrence: self.copied(),
            from: day.num_days_from_ce(),
            seen: self.rule.seen_before(self.start, day),
        }
    }
}

impl<'a> Iterator for RecurrenceDays<'a> {
    type Item = NaiveDate;

    ghost next_gives = { YieldsFirst (λ left. left) };

    ghost remaining = { item_count (λ left. left) };

    /// Removes the first of the days that are left and returns it. Returns `None` once none is left.
    fn next(&mut self) -> Option<NaiveDate> {
        let from = NaiveDate::from_num_days_from_ce_opt(self.from)?;
        let Some(found) = self.recurrence.first_from(from, self.seen) else {
            self.from = PAST_LAST_DAY;
            return None;
        };
        self.from = found.day.num_days_from_ce() + 1;
        self.seen = found.seen;
        Some(found.day)
    }

    /// Returns 0 and, as the upper bound, the number of dates that are left.
    #[inline]
    fn size_hint(&self) -> (usize, Option<usize>)
        ensures lower { IsWithinCount result.0 (item_count (λ left. left) self.now) }
        ensures upper { IfSome result.1 (UpTo (item_count (λ left. left) self.now)) }
        ensures least { result.0 ≡ 0 }
        ensures some { IsSome result.1 }
        ensures few { IfSome result.1 (λ most. most ≤ 191_491_529) }
    {
        (0, Some((PAST_LAST_DAY - self.from) as usize))
    }
}

impl<'a> FusedIterator for RecurrenceDays<'a> {}

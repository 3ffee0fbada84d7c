//! `Instances`: the instances of a rule, one after another.
ghost use Rattle.std.specs.Prelude.{◌≡◌, ◌≤◌, IfSome, IsSome};
ghost use Rattle.std.specs.Iterator.{UpTo, YieldsFirst, item_count};
ghost use Rattle.std.specs.Iterator.SizeHint.{IsWithinCount};
ghost use Rattle.chrono_rules.specs.InstanceLists.{instances_from};

use crate::rule::Rule;
use crate::search::recurrence::Recurrence;
use crate::search::recurrence::recurrence_iterator::RecurrenceDays;
use chrono_datetime::NaiveDate;
use std::iter::FusedIterator;
use std::marker::Model;

/// The instances of a rule from a start on, in order, to the end of the calendar.
///
/// [`Rule::instances`] and [`Rule::instances_from`] make it. After its last day it returns `None` from then on.
/// Contracts see it as the list of the days that are left, by their numbers.
#[derive(Drop)]
pub struct Instances {
    // The days of the recurrence that has the rule alone.
    days: RecurrenceDays<'static>,
}

impl Model for Instances {
    ghost use Rattle.std.specs.Prelude.{List, ℤ};

    ghost Value = { List ℤ };

    ghost view = { λ it. it.days };
}

impl Rule {
    /// Returns an iterator over the instances of the rule that begins on `start`.
    ///
    /// They come in order, to the end of the calendar.
    ///
    /// ```
    /// use chrono_datetime::NaiveDate;
    /// let start = NaiveDate::from_ymd_opt(2024, 1, 31)?;
    /// let mut days = read_rule(b"FREQ=MONTHLY").ok()?.instances(start);
    /// (days.next(), days.next()) // (Some(2024-01-31), Some(2024-03-31))
    /// ```
    ///
    /// So a month without the day has no instance (RFC 5545, 3.3.10).
    #[inline]
    pub fn instances(&self, start: NaiveDate) -> Instances
        ensures { result ≡ instances_from self.now start start }
    {
        self.instances_from(start, start)
    }

    /// Returns an iterator over the instances on `day` and later of the rule that begins on `start`.
    ///
    /// COUNT counts from `start`.
    ///
    /// ```
    /// use chrono_datetime::NaiveDate;
    /// let rule = read_rule(b"FREQ=DAILY;COUNT=10").ok()?;
    /// let (start, day) = (NaiveDate::from_ymd_opt(2024, 1, 1)?, NaiveDate::from_ymd_opt(2024, 1, 10)?);
    /// let mut days = rule.instances_from(start, day);
    /// (days.next(), days.next()) // (Some(2024-01-10), None)
    /// ```
    #[inline]
    pub fn instances_from(&self, start: NaiveDate, day: NaiveDate) -> Instances
        ensures { result ≡ instances_from self.now start day }
    {
        let alone = Recurrence::new(*self, start, &[], &[]);
        Instances {
            days: alone.iter_from(day),
        }
    }
}

impl Iterator for Instances {
    type Item = NaiveDate;

    ghost next_gives = { YieldsFirst (λ left. left) };

    ghost remaining = { item_count (λ left. left) };

    /// Removes the first of the instances that are left and returns it. Returns `None` once none is left.
    fn next(&mut self) -> Option<NaiveDate> {
        self.days.next()
    }

    /// Returns 0 and, as the upper bound, the number of dates that are left.
    #[inline]
    fn size_hint(&self) -> (usize, Option<usize>)
        ensures lower { IsWithinCount result.0 (item_count (λ left. left) self.now) }
        ensures upper { IfSome result.1 (UpTo (item_count (λ left. left) self.now)) }
        ensures least { result.0 ≡ 0 }
        ensures some { IsSome result.1 }
        ensures few { IfSome result.1 (λ most. most ≤ 191_491_529) }
    {
        self.days.size_hint()
    }
}

impl FusedIterator for Instances {}

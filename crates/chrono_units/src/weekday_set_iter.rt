//! An iterator over the members of a set of weekdays, from either end.

ghost use Rattle.std.specs.Prelude.{◌≡◌, length, Some, ⊤};
ghost use Rattle.std.specs.Iterator.{YieldsFirst, YieldsLast, item_count};
ghost use Rattle.chrono_units.specs.WeekdaySet.{walk};

use crate::weekday::Weekday;
use crate::weekday_set::WeekdaySet;
use std::alloc::AllocError;
use std::iter::FusedIterator;
use std::marker::Model;

/// An iterator over the members of a set, in the order of the week from a given day. [`WeekdaySet::iter`] returns it.
///
/// Contracts see it as the list of the days that are left. `next` takes the first of them and `next_back` the last. Once no
/// day is left, both return `None`.
#[derive(Debug, Drop)]
pub struct WeekdaySetIter {
    days: WeekdaySet,
    start: Weekday,
}

impl Model for WeekdaySetIter {
    ghost use Rattle.std.specs.Prelude.{List};
    ghost use Rattle.chrono_units.specs.declared.weekday.Weekday.{Weekday};
    ghost use Rattle.chrono_units.specs.WeekdaySet.{walk};

    ghost Value = { List Weekday };

    ghost view = { λ it. walk it.days it.start };
}

impl WeekdaySetIter {
    // The members of the set in week order from `start` on.
    #[inline]
    pub(crate) fn new(days: WeekdaySet, start: Weekday) -> WeekdaySetIter
        ensures { result ≡ walk days start }
    {
        WeekdaySetIter { days, start }
    }
}

impl Clone for WeekdaySetIter {
    ghost is_clone = { λ left copy. copy ≡ left };

    ghost is_infallible = { λ _. ⊤ };

    #[inline]
    fn clone(&self) -> Result<WeekdaySetIter, AllocError> {
        Ok(WeekdaySetIter {
            days: self.days,
            start: self.start,
        })
    }
}

impl Iterator for WeekdaySetIter {
    type Item = Weekday;

    ghost next_gives = { YieldsFirst (λ left. left) };

    ghost remaining = { item_count (λ left. left) };

    #[inline]
    fn next(&mut self) -> Option<Weekday> {
        let day = self.days.first_from(self.start)?;
        self.days.remove(day);
        Some(day)
    }

    /// Returns the exact number of days that are left, as both bounds.
    #[inline]
    fn size_hint(&self) -> (usize, Option<usize>)
        ensures { result ≡ (length self.now, Some (length self.now)) }
    {
        let left = self.len();
        (left, Some(left))
    }
}

impl DoubleEndedIterator for WeekdaySetIter {
    ghost next_back_gives = { YieldsLast (λ left. left) };

    #[inline]
    fn next_back(&mut self) -> Option<Weekday> {
        let day = self.days.last_before(self.start)?;
        self.days.remove(day);
        Some(day)
    }
}

impl ExactSizeIterator for WeekdaySetIter {
    #[inline]
    fn len(&self) -> usize {
        usize::from(self.days.len())
    }
}

impl FusedIterator for WeekdaySetIter {}

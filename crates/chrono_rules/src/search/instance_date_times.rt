//! `InstanceDateTimes`: the instances of a rule at a time of day, one after another.
ghost use Rattle.std.specs.Prelude.{◌≡◌, ◌≤◌, IfSome, IsSome};
ghost use Rattle.std.specs.Iterator.{UpTo, YieldsFirst, item_count};
ghost use Rattle.std.specs.Iterator.SizeHint.{IsWithinCount};
ghost use Rattle.chrono_rules.specs.InstanceMoments.{instance_moments};

use crate::rule::Rule;
use crate::search::instance_iterator::Instances;
use chrono_datetime::{NaiveDate, NaiveDateTime, NaiveTime};
use std::iter::FusedIterator;
use std::marker::Model;

/// The instances of a rule at the time of day of its start, in order, to the end of the calendar.
///
/// [`Rule::date_times`] and [`Rule::date_times_from`] make it. After its last moment it returns `None` from then on.
/// Contracts see it as the list of the moments that are left.
#[derive(Drop)]
pub struct InstanceDateTimes {
    days: Instances,
    time: NaiveTime,
}

impl Model for InstanceDateTimes {
    ghost use Rattle.std.specs.Prelude.{List};
    ghost use Rattle.chrono_datetime.specs.Moment.{Moment};
    ghost use Rattle.chrono_rules.specs.InstanceMoments.{at_time};

    ghost Value = { List Moment };

    ghost view = { λ it. at_time it.time it.days };
}

impl Rule {
    /// Returns an iterator over the instances of the rule from `start` on, at the time of day of `start`.
    ///
    /// They come in order, to the end of the calendar.
    ///
    /// ```
    /// use chrono_datetime::{AndTime, NaiveDate};
    /// let start = NaiveDate::from_ymd_opt(2024, 1, 1)?.and_hms_opt(9, 30, 0)?;
    /// let mut moments = read_rule(b"FREQ=WEEKLY").ok()?.date_times(start);
    /// (moments.next(), moments.next()) // (Some(2024-01-01T09:30:00), Some(2024-01-08T09:30:00))
    /// ```
    ///
    /// UNTIL is a whole day. An instance on that day counts at any time of day.
    #[inline]
    pub fn date_times(&self, start: NaiveDateTime) -> InstanceDateTimes
        ensures { result ≡ instance_moments self.now start start.date }
    {
        self.date_times_from(start, start.date())
    }

    /// Returns an iterator over the instances of the rule on `day` and later, at the time of day of `start`.
    ///
    /// The rule still begins at `start`, and COUNT counts from there.
    ///
    /// ```
    /// use chrono_datetime::{AndTime, NaiveDate};
    /// let start = NaiveDate::from_ymd_opt(2024, 1, 1)?.and_hms_opt(9, 30, 0)?;
    /// let day = NaiveDate::from_ymd_opt(2024, 1, 15)?;
    /// read_rule(b"FREQ=WEEKLY;COUNT=3").ok()?.date_times_from(start, day).next() // Some(2024-01-15T09:30:00)
    /// ```
    #[inline]
    #[tactic(auto, unfolding(crate::specs::InstanceMoments::instance_moments))]
    pub fn date_times_from(&self, start: NaiveDateTime, day: NaiveDate) -> InstanceDateTimes
        ensures { result ≡ instance_moments self.now start day }
    {
        InstanceDateTimes {
            days: self.instances_from(start.date(), day),
            time: start.time(),
        }
    }
}

impl Iterator for InstanceDateTimes {
    type Item = NaiveDateTime;

    ghost next_gives = { YieldsFirst (λ left. left) };

    ghost remaining = { item_count (λ left. left) };

    /// Removes the first of the instances that are left and returns it. Returns `None` once none is left.
    fn next(&mut self) -> Option<NaiveDateTime> {
        let day = self.days.next()?;
        Some(NaiveDateTime::new(day, self.time))
    }

    /// Returns 0 and, as the upper bound, the number of dates that are left.
    #[inline]
    fn size_hint(&self) -> (usize, Option<usize>)
        ensures lower { IsWithinCount result.0 (item_count (λ left. left) self.now) }
        ensures upper { IfSome result.1 (UpTo (item_count (λ left. left) self.now)) }
        ensures least { result.0 ≡ 0 }
        ensures some { IsSome result.1 }
        ensures few { IfSome result.1 (λ most. most ≤ 191_491_529) }
    {
        self.days.size_hint()
    }
}

impl FusedIterator for InstanceDateTimes {}

//! `Recurrence`: a rule with extra dates and exceptions.
ghost use Rattle.std.specs.Prelude.{◌≡◌, ◌↔◌, IsSome, IfSome};
ghost use Rattle.chrono_datetime.specs.RisingDates.{AreRising};
ghost use Rattle.chrono_rules.specs.RecurrenceSets.{is_in_recurrence, is_instance_or_date};

use crate::rule::Rule;

mod next_and_previous;
pub(crate) mod recurrence_iterator;

use crate::search::date_list::{are_rising, is_listed};
use chrono_datetime::NaiveDate;
use std::marker::Model;

/// A rule from a start on, with extra dates (RDATE) and exceptions (EXDATE).
///
/// It is the recurrence set of RFC 5545 (3.8.5.1 and 3.8.5.2) over days.
/// A day that is both an instance of the rule and an extra date is in it once.
/// The start is in it only if the rule has it, or if it is one of the dates.
///
/// The dates and the exceptions are slices of the caller's. Contracts see a recurrence as a record `RecurrenceSet`.
#[derive(Drop)]
pub struct Recurrence<'a> {
    rule: Rule,
    start: NaiveDate,
    dates: &'a [NaiveDate],
    exceptions: &'a [NaiveDate],
}

impl<'a> Model for Recurrence<'a> {
    ghost use Rattle.chrono_datetime.specs.RisingDates.{AreRising};
    ghost use Rattle.chrono_rules.specs.RecurrenceSets.{RecurrenceSet};

    ghost Value = { RecurrenceSet };

    ghost view = { λ r. record { rule = r.rule; start = r.start; dates = r.dates.now; exceptions = r.exceptions.now } };

    ghost invariant = { λ r. AreRising r.dates.now × AreRising r.exceptions.now };
}

impl<'a> Recurrence<'a> {
    /// Returns the recurrence of `rule` from `start` on, plus `dates` (RDATE), minus `exceptions` (EXDATE).
    ///
    /// Requires that both lists are strictly increasing. [`try_new`](Self::try_new) checks them.
    ///
    /// ```
    /// use chrono_datetime::NaiveDate;
    /// let (start, rule) = (NaiveDate::from_ymd_opt(2024, 1, 1)?, read_rule(b"FREQ=DAILY").ok()?);
    /// Recurrence::new(rule, start, &[], &[start]).next_after(start) // Some(2024-01-02)
    /// ```
    #[inline]
    pub fn new(
        rule: Rule,
        start: NaiveDate,
        dates: &'a [NaiveDate],
        exceptions: &'a [NaiveDate],
    ) -> Recurrence<'a>
        requires dates { AreRising dates.now }
        requires exceptions { AreRising exceptions.now }
        ensures { result ≡ record { rule = rule; start = start; dates = dates.now; exceptions = exceptions.now } }
    {
        Recurrence {
            rule,
            start,
            dates,
            exceptions,
        }
    }

    /// Returns the recurrence of `rule` from `start` on, plus `dates` (RDATE), minus `exceptions` (EXDATE).
    ///
    /// Returns `None` if one of the lists is not strictly increasing.
    ///
    /// ```
    /// use chrono_datetime::NaiveDate;
    /// let (start, rule) = (NaiveDate::from_ymd_opt(2024, 1, 1)?, read_rule(b"FREQ=DAILY").ok()?);
    /// Recurrence::try_new(rule, start, &[start, start], &[]).is_none() // true
    /// ```
    pub fn try_new(
        rule: Rule,
        start: NaiveDate,
        dates: &'a [NaiveDate],
        exceptions: &'a [NaiveDate],
    ) -> Option<Recurrence<'a>>
        ensures some { IfSome result (λ r. r ≡ record { rule = rule; start = start; dates = dates.now; exceptions = exceptions.now }) }
        ensures rising { IsSome result ↔ (AreRising dates.now × AreRising exceptions.now) }
    {
        if are_rising(dates) && are_rising(exceptions) {
            Some(Recurrence::new(rule, start, dates, exceptions))
        } else {
            None
        }
    }

    // The same recurrence once more.
    #[inline]
    fn copied(&self) -> Recurrence<'a>
        ensures { result ≡ self.now }
    {
        Recurrence {
            rule: self.rule,
            start: self.start,
            dates: self.dates,
            exceptions: self.exceptions,
        }
    }

    // Whether the day is an instance of the rule or a date beside it.
    #[inline]
    #[tactic(auto, unfolding(crate::specs::RecurrenceSets::is_instance_or_date))]
    fn is_instance_or_date(&self, date: NaiveDate) -> bool
        ensures { result ≡ is_instance_or_date self.now date }
    {
        self.rule.is_instance(self.start, date) || is_listed(self.dates, date)
    }

    /// Returns whether `date` is in the recurrence: an instance of the rule or an extra date, and no exception.
    ///
    /// ```
    /// use chrono_datetime::NaiveDate;
    /// let (start, rule) = (NaiveDate::from_ymd_opt(2024, 1, 1)?, read_rule(b"FREQ=DAILY").ok()?);
    /// Recurrence::new(rule, start, &[], &[start]).is_instance(start) // false
    /// ```
    #[tactic(auto, unfolding(crate::specs::RecurrenceSets::is_in_recurrence))]
    pub fn is_instance(&self, date: NaiveDate) -> bool
        ensures { result ≡ is_in_recurrence self.now date }
    {
        self.is_instance_or_date(date) && !is_listed(self.exceptions, date)
    }
}

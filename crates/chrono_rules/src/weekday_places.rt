//! `WeekdayPlaces`: the weekdays that BYDAY lists.
ghost use Rattle.std.specs.Prelude.{◌≡◌, ◌<◌, ◌&&◌, slice_index_or};
ghost use Rattle.chrono_sets.specs.FiniteSets.{are_empty, is_empty, no_numbers};
ghost use Rattle.chrono_rules.specs.RuleParts.{no_weekdays};

use chrono_sets::{NumberSet, are_empty};

/// Weekdays of BYDAY, with or without numbers. Weekdays count from 0 for Monday.
#[derive(Clone, Copy, PartialEq, Eq, Debug)]
pub struct WeekdayPlaces {
    /// The weekdays without a number, such as `MO`. They name every such day.
    pub every: NumberSet,
    /// The positive numbers of each weekday, such as `1MO`. `k` stands for its `k`-th day.
    pub front: [NumberSet; 7],
    /// The negative numbers of each weekday, such as `-1MO`. `k` stands for its `k`-th day from the end.
    pub back: [NumberSet; 7],
}

impl WeekdayPlaces {
    /// Returns the value that names no day.
    ///
    /// ```
    /// Rule::new(Frequency::Daily).weekdays == WeekdayPlaces::none() // true
    /// ```
    #[inline]
    pub fn none() -> WeekdayPlaces
        ensures { result ≡ no_weekdays }
    {
        let none = NumberSet::none();
        WeekdayPlaces {
            every: none,
            front: [none, none, none, none, none, none, none],
            back: [none, none, none, none, none, none, none],
        }
    }

    /// Returns whether it names no day.
    ///
    /// ```
    /// read_rule(b"FREQ=MONTHLY;BYDAY=-1FR").ok()?.weekdays.is_empty() // false
    /// ```
    #[inline]
    pub fn is_empty(&self) -> bool
        ensures { result ≡ (is_empty self.now.every && (are_empty self.now.front && are_empty self.now.back)) }
    {
        self.every.is_empty() && are_empty(&self.front) && are_empty(&self.back)
    }
}

// The numbers that a list of BYDAY gives the weekday, from 0 for Monday.
#[inline]
#[tactic(auto, using(std::proofs::lemmas::List::get_or_read))]
pub(crate) fn numbers_of(weekdays: &[NumberSet; 7], weekday: usize) -> NumberSet
    requires { weekday < 7 }
    ensures { result ≡ slice_index_or weekdays.now weekday no_numbers }
{
    weekdays[weekday]
}

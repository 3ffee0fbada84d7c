//! `DayTimes`: the times of day that a rule lists.
ghost use Rattle.std.specs.Prelude.{◌≡◌};
ghost use Rattle.zoned_rules.specs.LocalTimes.{times_of_start};

use chrono_sets::NumberSet;

/// BYHOUR, BYMINUTE and BYSECOND: the times of day at which a rule recurs.
///
/// A part with an empty set is one that the rule does not have. It takes the number of the start.
/// But a rule by hours without BYHOUR has every hour. One by minutes without BYMINUTE has every minute, and so on (see [`ClockSteps`](crate::ClockSteps)).
/// A number that a part cannot have, such as the hour 24, names no time. Nor does the second 60, which RFC 5545 lets BYSECOND list.
/// So a part that lists such numbers alone leaves the rule without instances.
#[derive(Clone, Copy, PartialEq, Eq, Debug)]
pub struct DayTimes {
    /// BYHOUR: the hours, 0 to 23.
    pub hours: NumberSet,
    /// BYMINUTE: the minutes, 0 to 59.
    pub minutes: NumberSet,
    /// BYSECOND: the seconds, 0 to 59.
    pub seconds: NumberSet,
}

impl DayTimes {
    /// Returns the parts of a rule that has none of them: it recurs at the time of day of its start.
    ///
    /// ```
    /// DayTimes::of_start().hours.is_empty() // true
    /// ```
    pub fn of_start() -> DayTimes
        ensures { result ≡ times_of_start }
    {
        DayTimes {
            hours: NumberSet::none(),
            minutes: NumberSet::none(),
            seconds: NumberSet::none(),
        }
    }
}

//! `CalendarRuleError`: why the text of a calendar gives no instants in a zone.

use crate::timed_error::TimedRuleError;

/// Why the text of a calendar gives no instants in a zone.
#[derive(Clone, Copy, PartialEq, Eq, Debug)]
pub enum CalendarRuleError {
    /// DTSTART is no local time.
    NotLocal,
    /// RRULE is no rule over date-times.
    Rule(TimedRuleError),
    /// A time of RDATE or EXDATE is a date, or its instant lies outside the calendar.
    NoInstant,
    /// A list has more times than the slice for it.
    TooManyTimes,
}

//! `TimedRuleError`: what is wrong with the text of a rule over date-times.

use crate::clock_part::ClockPart;
use chrono_rules::RuleError;

/// What is wrong with a text that is no rule over date-times.
#[derive(Clone, Copy, PartialEq, Eq, Debug)]
pub enum TimedRuleError {
    /// FREQ is not there, or there twice.
    Frequency,
    /// The part is there twice, or lists a number that it cannot have.
    Part(ClockPart),
    /// The rest is no rule of days. The byte of the error counts in the text without BYHOUR, BYMINUTE, BYSECOND and UNTIL. There `YEARLY` stands
    /// for `HOURLY`, `MINUTELY` and `SECONDLY`.
    Days(RuleError),
    /// UNTIL is there twice, or beside COUNT, or it is no date-time in UTC.
    Until,
    /// A part does not go with FREQ=HOURLY, MINUTELY or SECONDLY, or BYSETPOS does not go with times of day.
    NotTogether,
}

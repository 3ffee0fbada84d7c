//! `TimedRule`: what the text of a rule over date-times says.
ghost use Rattle.std.specs.Prelude.{◌≡◌, ◌↔◌, ◌⊎◌, IfSome, IsSome, true};
ghost use Rattle.chrono_rules.specs.RuleParts.{lacks_positions};
ghost use Rattle.zoned_rules.specs.LocalTimes.{has_one_time, without_end};

use chrono_datetime::NaiveDateTime;
use chrono_rules::Rule;
use chrono_zoned::TimeZone;
use zoned_rules::{Bound, ClockSteps, DayTimes, LocalRule, ZonedRule};

/// A rule over date-times, as a text says it. It has no start yet.
///
/// [`read_timed_rule`](crate::read_timed_rule) makes it.
#[derive(Clone, Copy, Debug)]
pub struct TimedRule {
    /// FREQ=HOURLY, MINUTELY or SECONDLY with its INTERVAL. Else each day.
    pub steps: ClockSteps,
    /// The rule of days, without COUNT and UNTIL.
    pub days: Rule,
    /// BYHOUR, BYMINUTE and BYSECOND.
    pub times: DayTimes,
    /// COUNT or UNTIL.
    pub bound: Bound,
}

impl TimedRule {
    /// Returns the rule in a zone, from the local time `start` on.
    ///
    /// Returns `None` if the rule has BYSETPOS, and a day may have several of its times. No text that is read has that.
    ///
    /// ```
    /// use chrono_datetime::{AndTime, NaiveDate};
    /// use chrono_zoned::{FixedOffset, InZone};
    /// let mut buffer = [0; 64];
    /// let rule = read_timed_rule(b"FREQ=DAILY;BYHOUR=9,17", &mut buffer).ok()?;
    /// let zone = FixedOffset::east_opt(3_600)?;
    /// let start = NaiveDate::from_ymd_opt(2024, 1, 1)?.and_hms_opt(9, 30, 0)?;
    /// let first = zone.with_ymd_and_hms(2024, 1, 1, 9, 30, 0).single()?;
    /// rule.in_zone(start, zone)?.next_after(first) // Some(2024-01-01T17:30:00+01:00)
    /// ```
    pub fn in_zone<Z: TimeZone>(&self, start: NaiveDateTime, zone: Z) -> Option<ZonedRule<Z>>
        ensures rule { IfSome result (λ z. z.local ≡ record { days = without_end self.now.days; times = self.now.times; start = start; steps = self.now.steps }) }
        ensures zone { IfSome result (λ z. z.zone ≡ zone) }
        ensures bound { IfSome result (λ z. z.bound ≡ self.now.bound) }
        ensures exists { IsSome result ↔ ((lacks_positions self.now.days ≡ true) ⊎ (has_one_time self.now.steps.unit self.now.times ≡ true)) }
    {
        match LocalRule::by_clock(self.steps, self.days, self.times, start) {
            Some(local) => Some(ZonedRule::new(local, zone, self.bound)),
            None => None,
        }
    }
}

//! The instances of a rule with SKIP over date-times.

use crate::prelude::*;
use crate::skip::{Skip, SkipDays};
use crate::timed_rule::Begin;
use calendar_rules::TimedRule;
use chrono_datetime::Timelike;
use chrono_rules::NumberSet;
use zoned_rules::{Bound, DayTimes};

/// The instances of a rule with SKIP: its days, each at its times.
#[derive(Drop)]
pub(crate) struct SkipTimes {
    // The day whose times are gone through, and those behind it.
    day: Option<NaiveDate>,
    days: SkipDays,
    // At which times, and from which date-time on.
    times: DayTimes,
    start: NaiveDateTime,
    bound: Bound,
}

impl SkipTimes {
    // The instances of a rule from a date-time on. Those that lie some weeks before `from` are left out.
    pub(crate) fn new(
        rule: &TimedRule,
        skip: Skip,
        start: NaiveDateTime,
        from: NaiveDate,
    ) -> SkipTimes {
        let mut days = SkipDays::new(&rule.days, skip, start.date(), from);
        let day = days.next();
        let time = start.time();
        let times = DayTimes {
            hours: filled(rule.times.hours, time.hour()),
            minutes: filled(rule.times.minutes, time.minute()),
            seconds: filled(rule.times.seconds, time.second()),
        };
        SkipTimes {
            day,
            days,
            times,
            start,
            bound: rule.bound,
        }
    }

    // The next instance after an instant, no earlier than the last that was asked for.
    pub(crate) fn due_after(
        &mut self,
        begin: &Begin,
        last: DateTime<FixedOffset>,
    ) -> Option<DateTime<FixedOffset>> {
        let passed = last.naive_local().date().num_days_from_ce();
        for _ in 0..u64::MAX {
            let day = self.day?;
            // (no clock is two days ahead of another)
            if day.num_days_from_ce() >= passed.saturating_sub(2) {
                if let Some(due) = self.due_on(day, begin, last) {
                    return self.if_within(due);
                }
            }
            self.day = self.days.next();
        }
        None
    }

    // An instant, if the rule has not ended before.
    fn if_within(&self, due: DateTime<FixedOffset>) -> Option<DateTime<FixedOffset>> {
        if let Bound::Until(until) = self.bound {
            if due.naive_utc() > until {
                return None;
            }
        }
        Some(due)
    }

    // The first instance of a day after an instant.
    fn due_on(
        &self,
        day: NaiveDate,
        begin: &Begin,
        last: DateTime<FixedOffset>,
    ) -> Option<DateTime<FixedOffset>> {
        let mut found = None;
        for hour in 0..24 {
            if !self.times.hours.contains(hour) {
                continue;
            }
            for minute in 0..60 {
                if !self.times.minutes.contains(minute) {
                    continue;
                }
                for second in 0..60 {
                    if !self.times.seconds.contains(second) {
                        continue;
                    }
                    if let Some(local) = local_at(day, hour, minute, second) {
                        found = self.earlier(found, local, begin, last);
                    }
                }
            }
        }
        found
    }

    // The instant of a local time, if it lies after another and before what was found, and else that.
    fn earlier(
        &self,
        found: Option<DateTime<FixedOffset>>,
        local: NaiveDateTime,
        begin: &Begin,
        last: DateTime<FixedOffset>,
    ) -> Option<DateTime<FixedOffset>> {
        if local < self.start {
            return found;
        }
        let Some(due) = begin.instant(Start::DateTime(local)) else {
            return found;
        };
        if due <= last {
            return found;
        }
        match found {
            Some(found) => Some(found.min(due)),
            None => Some(due),
        }
    }
}

// The numbers of a part of a rule, or that of the start.
fn filled(numbers: NumberSet, start: u32) -> NumberSet {
    if numbers.is_empty() && start < 60 {
        NumberSet::single(start)
    } else {
        numbers
    }
}

// The date-time of a day and a time of day.
fn local_at(day: NaiveDate, hour: u32, minute: u32, second: u32) -> Option<NaiveDateTime> {
    let time = NaiveTime::from_hms_opt(hour, minute, second)?;
    Some(NaiveDateTime::new(day, time))
}

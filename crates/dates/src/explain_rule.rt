//! A recurrence rule in plain English.

use crate::explain::{
    AND_THE, Names, ON_THE, count_of, places_of, put_clocks, put_hours, put_list, put_set,
    weekday_name,
};
use crate::prelude::*;
use crate::rule::{SKIP_ALONE, read_rule_and_skip};
use crate::skip::{Skip, goes_with_skip, skip_fault};
use crate::timed_rule::{goes_together, read_rule_in};
use calendar_rules::{ClockUnit, TimedRule, TimedRuleError};
use chrono_rules::{End, Frequency, NumberSet, PlaceSet, Rule, RuleError, RuleFault};
use zoned_rules::Bound;

impl Asked<'_> {
    // Puts what a rule says behind a text: one over days, or else one over date-times.
    pub(crate) fn put_rule_of(&mut self, out: &mut Buffer, word: Word<'_>) {
        let text = word.text.as_bytes();
        if let Some(why) = skip_fault(text) {
            return self.wrong(word, why);
        }
        let error = match read_rule_and_skip(self.rt, text) {
            Ok(Ok((rule, skip))) => {
                if !matches!(skip, Skip::Omit) && !goes_with_skip(&rule) {
                    self.wrong(word, SKIP_ALONE);
                }
                return put_rule(out, &rule, skip);
            }
            Ok(Err(error)) => error,
            Err(error) => return self.fail(error),
        };
        match read_rule_in(self.rt, text, true) {
            Ok(Ok((rule, skip))) => {
                if !goes_together(&rule, skip) {
                    self.wrong(word, SKIP_ALONE);
                }
                put_timed_rule(out, &rule, skip, text.contains(&b'Z'));
            }
            Ok(Err(timed)) if is_of_times(error, timed) => self.wrong_timed_rule(word, timed),
            Ok(Err(_)) => self.wrong_rule(word, error),
            Err(error) => self.fail(error),
        }
    }
}

// Whether what is wrong with a text is said of a rule over date-times.
fn is_of_times(error: RuleError, timed: TimedRuleError) -> bool {
    let has_times = matches!(
        error.fault,
        RuleFault::OfHours | RuleFault::OfMinutes | RuleFault::OfSeconds | RuleFault::WithTime
    );
    has_times || matches!(timed, TimedRuleError::Part(_) | TimedRuleError::NotTogether)
}

// Puts which days a rule names behind a text.
fn put_rule(out: &mut Buffer, rule: &Rule, skip: Skip) {
    put_frequency(out, rule);
    put_limits(
        out,
        rule,
        rule.frequency == Frequency::Daily && rule.interval < 2,
    );
    put_skip(out, rule, skip);
    match rule.end {
        End::Never => {}
        End::Count(count) => put_count(out, count),
        End::Until(day) => {
            out.put(", until ");
            out.show(&day);
        }
    }
}

// Puts where a day goes that a month lacks behind a text.
fn put_skip(out: &mut Buffer, rule: &Rule, skip: Skip) {
    let places = rule.month_days_from_end;
    let lacks = places.contains(29) || places.contains(30) || places.contains(31);
    if !lacks || !rule.month_days.is_empty() {
        out.put(skip.words());
    }
    if lacks {
        out.put(skip.words_from_end());
    }
}

// Puts at which times a rule recurs behind a text; UNTIL is in UTC, or in local time.
fn put_timed_rule(out: &mut Buffer, rule: &TimedRule, skip: Skip, is_utc: bool) {
    let is_by_days = matches!(rule.steps.unit, ClockUnit::Day);
    if is_by_days {
        put_frequency(out, &rule.days);
        let is_plain = rule.days.frequency == Frequency::Daily && rule.days.interval < 2;
        put_limits(out, &rule.days, is_plain);
    } else {
        put_every(out, rule.steps.interval, unit_name(rule.steps.unit));
        put_limits(out, &rule.days, true);
    }
    put_skip(out, &rule.days, skip);
    if !matches!(skip, Skip::Omit) && has_times(rule) {
        out.put(",");
    }
    put_times(out, rule, is_by_days);
    match rule.bound {
        Bound::Never => {}
        Bound::Count(count) => put_count(out, count),
        Bound::Until(moment) => {
            out.put(", until ");
            out.show(&moment.date());
            out.put(" ");
            out.show(&moment.time());
            out.put(if is_utc { " UTC" } else { "" });
        }
    }
}

// Whether a rule lists times of day.
fn has_times(rule: &TimedRule) -> bool {
    !rule.times.hours.is_empty() || !rule.times.minutes.is_empty()
}

// What a rule counts by the clock.
fn unit_name(unit: ClockUnit) -> &'static str {
    match unit {
        ClockUnit::Day => "day",
        ClockUnit::Hour => "hour",
        ClockUnit::Minute => "minute",
        ClockUnit::Second => "second",
    }
}

// Puts BYHOUR, BYMINUTE and BYSECOND behind a text. A part that a rule over days does not have is that of its start.
fn put_times(out: &mut Buffer, rule: &TimedRule, is_by_days: bool) {
    let (hours, minutes, seconds) = (rule.times.hours, rule.times.minutes, rule.times.seconds);
    let is_whole = seconds.is_empty() || seconds == NumberSet::single(0);
    let count = count_of(minutes).saturating_mul(count_of(hours));
    if is_by_days && is_whole && 0 < count && count <= 8 {
        out.put(" at ");
        return put_clocks(out, minutes, hours);
    }
    if !minutes.is_empty() {
        out.put(if count_of(minutes) == 1 {
            " at minute "
        } else {
            " at minutes "
        });
        put_set(out, minutes, Names::Number);
    } else if is_by_days && !hours.is_empty() {
        out.put(" at its start's minute");
    }
    if !hours.is_empty() {
        put_hours(out, hours, " of every hour");
    } else if is_by_days && !minutes.is_empty() {
        out.put(" of its start's hour");
    }
    if !is_whole {
        out.put(", at the seconds ");
        put_set(out, seconds, Names::Number);
    }
}

// Puts which of a rule's periods count, and which days of them, behind a text. Without any, each has one by the start, unless it is a day.
fn put_limits(out: &mut Buffer, rule: &Rule, is_plain: bool) {
    if !rule.months.is_empty() {
        out.put(" in ");
        put_set(out, rule.months, Names::Months);
    }
    let named_from = out.len();
    put_small_ends(out, " in the ", rule.weeks, rule.weeks_from_end, " week");
    let (days, from_end) = (&rule.year_days, &rule.year_days_from_end);
    put_ends(out, ON_THE, days, from_end, " day of the year");
    let (days, from_end) = (rule.month_days, rule.month_days_from_end);
    let noun = if from_end.is_empty() { "" } else { " day" };
    put_small_ends(out, ON_THE, days, from_end, noun);
    put_weekdays(out, rule);
    if out.len() == named_from && !is_plain {
        out.put(" from its start on");
    }
    let (places, from_end) = (&rule.positions, &rule.positions_from_end);
    put_ends(out, ", of these the ", places, from_end, "");
}

// Puts how often a rule recurs behind a text.
fn put_count(out: &mut Buffer, count: u32) {
    if count == 1 {
        return out.put(", once");
    }
    out.put(", ");
    out.show(&count);
    out.put(" times");
}

// Puts a part of a rule behind a text, if the rule has it: its numbers, and those from the end.
fn put_ends(out: &mut Buffer, front: &str, list: &PlaceSet, from_end: &PlaceSet, noun: &str) {
    if list.is_empty() && from_end.is_empty() {
        return;
    }
    out.put(front);
    put_list(out, list, Names::Ordinal);
    if !list.is_empty() && !from_end.is_empty() {
        out.put(AND_THE);
    }
    put_list(out, from_end, Names::FromEnd);
    out.put(noun);
}

// The same of a part with small numbers.
fn put_small_ends(out: &mut Buffer, front: &str, set: NumberSet, from_end: NumberSet, noun: &str) {
    put_ends(out, front, &places_of(set), &places_of(from_end), noun);
}

// Puts how often periods come behind a text.
fn put_frequency(out: &mut Buffer, rule: &Rule) {
    let noun = match rule.frequency {
        Frequency::Daily => "day",
        Frequency::Weekly => "week",
        Frequency::Monthly => "month",
        Frequency::Yearly => "year",
    };
    put_every(out, rule.interval, noun);
}

// Puts `every day` or `every 2 days` behind a text.
fn put_every(out: &mut Buffer, interval: u32, noun: &str) {
    out.put("every ");
    if interval > 1 {
        out.show(&interval);
        out.put(" ");
    }
    out.put(noun);
    if interval > 1 {
        out.put("s");
    }
}

// Puts the weekdays of a rule behind a text: those of every week, and those by their place.
fn put_weekdays(out: &mut Buffer, rule: &Rule) {
    let mut front = ON_THE;
    if !rule.weekdays.every.is_empty() {
        out.put(" on ");
        put_set(out, rule.weekdays.every, Names::Weekdays);
        front = AND_THE;
    }
    for day in 0..7u32 {
        let place = day as usize;
        let (places, from_end) = (rule.weekdays.front[place], rule.weekdays.back[place]);
        front = put_places(out, places, day, Names::Ordinal, front);
        front = put_places(out, from_end, day, Names::FromEnd, front);
    }
}

// Puts a weekday by its places behind a text, if it has some; what stands in front of the next.
fn put_places(
    out: &mut Buffer,
    places: NumberSet,
    day: u32,
    names: Names,
    front: &'static str,
) -> &'static str {
    if places.is_empty() {
        return front;
    }
    out.put(front);
    put_set(out, places, names);
    put!(out, " ", weekday_name(day));
    AND_THE
}

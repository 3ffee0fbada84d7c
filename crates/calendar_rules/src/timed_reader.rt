//! The texts of rules over date-times.
ghost use Rattle.std.specs.Prelude.{◌≡◌, ◌↔◌, ◌⊎◌, ◌<◌, length, Ok, IfErr, IfOk, IsErr, Some, None, codes, true, false};
ghost use Rattle.chrono_sets.specs.FiniteSets.{no_numbers};
ghost use Rattle.chrono_rules.specs.RuleTexts.{said, values_in, lacks_numbers};
ghost use Rattle.chrono_rules.specs.RuleParts.{lacks_positions, lacks_weeks};
ghost use Rattle.zoned_rules.specs.LocalTimes.{lacks_times};
ghost use Rattle.chrono_rules.specs.declared.rule.Rule.{Rule};
ghost use Rattle.zoned_rules.specs.declared.bound.Bound.{Bound};
ghost use Rattle.calendar_rules.specs.declared.timed_rule.TimedRule.{TimedRule};
ghost use Rattle.calendar_rules.specs.declared.timed_error.TimedRuleError.TheVariants.{Until, NotTogether};
ghost use Rattle.calendar_rules.specs.TimedRuleFaults.{HasTimedRuleFault};
ghost use Rattle.calendar_rules.specs.TimedRuleTexts.{IsTimedRuleText, bound_of, days_by, fits_clock, number_list_of, clock_part_key, steps_by, unit_of, until_of};

use crate::clock_part::ClockPart;
use crate::part_value::value_of;
use crate::text_of_days::{put_text_of_days, unit_of};
use crate::timed_error::TimedRuleError;
use crate::timed_rule::TimedRule;
use calendar_text::{CalendarTime, read_calendar_time};
use chrono_datetime::NaiveDateTime;
use chrono_rules::{End, Frequency, Rule, read_rule};
use chrono_sets::{NumberSet, are_empty};
use zoned_rules::{Bound, ClockSteps, ClockUnit, DayTimes};

/// Reads a recurrence rule of RFC 5545 (section 3.3.10) with times of day, such as `FREQ=DAILY;BYHOUR=9,17`. Returns the [`TimedRule`].
///
/// Beside the parts that `chrono_rules::read_rule` reads, it may have BYHOUR, BYMINUTE and BYSECOND, and FREQ may be HOURLY, MINUTELY or
/// SECONDLY. UNTIL is a date-time in UTC, such as `20241231T230000Z`.
///
/// `buffer` gets the parts of days. Requires it to be longer than `text`.
///
/// # Errors
///
/// Returns an error if `text` is no such rule. The fault that it names is one that the text has.
/// BYWEEKNO and numbers of weekdays do not go with HOURLY, MINUTELY and SECONDLY. BYSETPOS counts days alone, so it goes with none of them,
/// and not with times of day.
///
/// ```
/// let mut buffer = [0; 64];
/// let hourly = read_timed_rule(b"FREQ=HOURLY;INTERVAL=6;BYDAY=MO", &mut buffer).ok()?;
/// (hourly.steps.unit, hourly.steps.interval) // (Hour, 6)
/// read_timed_rule(b"FREQ=DAILY;BYHOUR=24", &mut buffer).err() // Some(Part(ByHour))
/// read_timed_rule(b"FREQ=DAILY;UNTIL=20241231", &mut buffer).err() // Some(Until)
/// ```
pub fn read_timed_rule(text: &[u8], buffer: &mut [u8]) -> Result<TimedRule, TimedRuleError>
    requires { length text.now < length buffer.old }
    ensures read { IfOk result (λ r. IsTimedRuleText text.now r) }
    // Whatever rule the text writes is the answer: no text is refused, and none has two meanings.
    ensures every { (r : TimedRule) → IsTimedRuleText text.now r → result ≡ Ok r }
    ensures found { IsErr result ↔ ((r : TimedRule) → ¬ IsTimedRuleText text.now r) }
    // What the error says is wrong with the text is wrong with it.
    ensures fault { IfErr result (HasTimedRuleFault text.now) }
{
    let Some(unit) = read_unit(text) else {
        return Err(TimedRuleError::Frequency);
    };
    let Some(hours) = read_part(text, ClockPart::ByHour) else {
        return Err(TimedRuleError::Part(ClockPart::ByHour));
    };
    let Some(minutes) = read_part(text, ClockPart::ByMinute) else {
        return Err(TimedRuleError::Part(ClockPart::ByMinute));
    };
    let Some(seconds) = read_part(text, ClockPart::BySecond) else {
        return Err(TimedRuleError::Part(ClockPart::BySecond));
    };
    let times = DayTimes {
        hours,
        minutes,
        seconds,
    };
    let len = put_text_of_days(text, buffer);
    match read_rule(&buffer[..len]) {
        Ok(others) => put_together(text, unit, times, others),
        Err(error) => Err(TimedRuleError::Days(error)),
    }
}

// What FREQ counts.
fn read_unit(text: &[u8]) -> Option<ClockUnit>
    ensures { result ≡ said (λ word. Some (unit_of word)) None (values_in text.now (codes "FREQ=")) }
{
    match value_of(text, b"FREQ=")? {
        Some(word) => Some(unit_of(word)),
        None => None,
    }
}

// The numbers of a part.
fn read_part(text: &[u8], part: ClockPart) -> Option<NumberSet>
    ensures { result ≡ said (number_list_of part) (Some no_numbers) (values_in text.now (clock_part_key part)) }
{
    match value_of(text, part.key())? {
        Some(list) => part.read_numbers(list),
        None => Some(NumberSet::none()),
    }
}

// The rule of the parts, if UNTIL can be read and all go together.
fn put_together(
    text: &[u8],
    unit: ClockUnit,
    times: DayTimes,
    others: Rule,
) -> Result<TimedRule, TimedRuleError>
    ensures steps { IfOk result (λ r. r.steps ≡ steps_by unit others) }
    ensures days { IfOk result (λ r. r.days ≡ days_by unit others) }
    ensures times { IfOk result (λ r. r.times ≡ times) }
    ensures bound { IfOk result (λ r. bound_of others.end (values_in text.now (codes "UNTIL=")) ≡ Some r.bound) }
    ensures fitting { IfOk result (λ r. fits_clock unit others (lacks_times times) ≡ true) }
    ensures every { (b : Bound) → bound_of others.end (values_in text.now (codes "UNTIL=")) ≡ Some b → fits_clock unit others (lacks_times times) ≡ true
        → result ≡ Ok (record { steps = steps_by unit others; days = days_by unit others; times = times; bound = b }) }
    ensures fault { IfErr result (λ e. ((e ≡ Until) × (bound_of others.end (values_in text.now (codes "UNTIL=")) ≡ None)) ⊎ ((e ≡ NotTogether) × (fits_clock unit others (lacks_times times) ≡ false))) }
{
    let Some(bound) = read_bound(text, others.end) else {
        return Err(TimedRuleError::Until);
    };
    if !fits_clock(unit, &others, lacks_times(&times)) {
        return Err(TimedRuleError::NotTogether);
    }
    Ok(TimedRule {
        steps: steps_by(unit, others.interval),
        days: days_by(unit, others),
        times,
        bound,
    })
}

// Where the rule ends, by the COUNT of its days and by UNTIL.
#[tactic(auto, unfolding(crate::specs::TimedRuleTexts::bound_of))]
fn read_bound(text: &[u8], end: End) -> Option<Bound>
    ensures { result ≡ bound_of end (values_in text.now (codes "UNTIL=")) }
{
    let until = value_of(text, b"UNTIL=");
    match end {
        End::Never => match until? {
            Some(value) => read_until(value).map(Bound::Until),
            None => Some(Bound::Never),
        },
        End::Count(count) => match until? {
            Some(_) => None,
            None => Some(Bound::Count(count)),
        },
        End::Until(_) => None,
    }
}

// The date-time of UTC that a text writes.
#[tactic(auto, unfolding(crate::specs::TimedRuleTexts::until_of))]
fn read_until(text: &[u8]) -> Option<NaiveDateTime>
    ensures { result ≡ until_of text.now }
{
    match read_calendar_time(text)? {
        CalendarTime::Utc(utc) => Some(utc),
        CalendarTime::Date(_) | CalendarTime::Local(_) => None,
    }
}

// Whether the parts of days go with the unit and with the times.
fn fits_clock(unit: ClockUnit, days: &Rule, timeless: bool) -> bool
    ensures { result ≡ fits_clock unit days.now timeless }
{
    match unit {
        ClockUnit::Day => lacks_positions(days) || timeless,
        ClockUnit::Hour | ClockUnit::Minute | ClockUnit::Second => {
            lacks_positions(days) && (lacks_weeks(days) && lacks_numbers(days))
        }
    }
}

// Whether a rule has no BYSETPOS.
fn lacks_positions(days: &Rule) -> bool
    ensures { result ≡ lacks_positions days.now }
{
    days.positions.is_empty() && days.positions_from_end.is_empty()
}

// Whether it has no BYWEEKNO.
fn lacks_weeks(days: &Rule) -> bool
    ensures { result ≡ lacks_weeks days.now }
{
    days.weeks.is_empty() && days.weeks_from_end.is_empty()
}

// Whether no weekday has a number.
fn lacks_numbers(days: &Rule) -> bool
    ensures { result ≡ lacks_numbers days.now }
{
    are_empty(&days.weekdays.front) && are_empty(&days.weekdays.back)
}

// Whether no part lists a time of day.
fn lacks_times(times: &DayTimes) -> bool
    ensures { result ≡ lacks_times times.now }
{
    times.hours.is_empty() && (times.minutes.is_empty() && times.seconds.is_empty())
}

// The units that are counted.
fn steps_by(unit: ClockUnit, interval: u32) -> ClockSteps
    ensures { (r : Rule) → r.interval ≡ interval → result ≡ steps_by unit r }
{
    match unit {
        ClockUnit::Day => ClockSteps::each_day(),
        ClockUnit::Hour | ClockUnit::Minute | ClockUnit::Second => ClockSteps { unit, interval },
    }
}

// The rule of days.
fn days_by(unit: ClockUnit, days: Rule) -> Rule
    ensures { result ≡ days_by unit days }
{
    let mut days = days;
    days.end = End::Never;
    match unit {
        ClockUnit::Day => {}
        ClockUnit::Hour | ClockUnit::Minute | ClockUnit::Second => {
            days.frequency = Frequency::Daily;
            days.interval = 1;
        }
    }
    days
}

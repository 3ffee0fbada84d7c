//! The recurrence that the text of a calendar means in a zone.
ghost use Rattle.std.specs.Prelude.{◌≡◌, ◌≤◌, ◌<◌, IfErr, IfNone, IfOk, IfSome, length};
ghost use Rattle.calendar_text.specs.Lines.{text_in};
ghost use Rattle.calendar_text.specs.TextParts.{parts_read};
ghost use Rattle.calendar_text.specs.declared.calendar_time.CalendarTime.TheVariants.{Local};
ghost use Rattle.calendar_rules.specs.Private.{IsShorter};
ghost use Rattle.chrono_datetime.specs.Moment.{Moment};
ghost use Rattle.calendar_rules.specs.RecurrenceFaults.{HasRuleFault, IsRecurrenceFault};
ghost use Rattle.calendar_rules.specs.Recurrences.{IsRuleOf, MeansNoneWithin, MeansRecurrence, start_alone};

use crate::instant_list::put_instants;
use crate::recurrence_error::CalendarRuleError;
use crate::timed_error::TimedRuleError;
use crate::timed_reader::read_timed_rule;
use crate::timed_rule::TimedRule;
use calendar_text::{CalendarText, CalendarTime};
use chrono_datetime::NaiveDateTime;
use chrono_rules::{Frequency, Rule};
use chrono_zoned::{DateTime, TimeZone};
use zoned_rules::{Bound, ClockSteps, DayTimes, ZonedRecurrence};

/// Returns the recurrence that `calendar` means in `zone`: DTSTART and RRULE, with the instants of RDATE and EXDATE.
///
/// `zone` is the one that TZID of DTSTART names. The caller finds it by that name. A calendar without RRULE has its start alone.
/// `buffer` gets a copy of the rule's text. Requires it to be longer than that text. `dates` and `exceptions` get the instants, and whatever
/// they hold before makes no difference.
///
/// # Errors
///
/// Returns an error if DTSTART is a date or a time of UTC, if RRULE is no rule over date-times, if a time of RDATE or EXDATE has no
/// instant, or if a slice is too short for its list. The fault that it names is one that the text has.
///
/// ```
/// use calendar_text::read_calendar_text;
/// use chrono_zoned::{FixedOffset, InZone};
/// let (mut lines, mut rule) = ([0; 256], [0; 64]);
/// let text = b"DTSTART;TZID=Europe/Berlin:20240131T090000\r\nRRULE:FREQ=DAILY;BYHOUR=9,17\r\nEXDATE;TZID=Europe/Berlin:20240131T170000\r\n";
/// let calendar = read_calendar_text(text, &mut lines).ok()?;
/// let zone = FixedOffset::east_opt(3_600)?;
/// let first = zone.with_ymd_and_hms(2024, 1, 31, 9, 0, 0).single()?;
/// let (mut dates, mut exceptions) = ([first; 4], [first; 4]);
/// let meetings = recurrence_of(calendar, zone, &mut rule, &mut dates, &mut exceptions).ok()?;
/// meetings.next_after(first) // Some(2024-02-01T09:00:00+01:00)
/// ```
pub fn recurrence_of<'a, Z: TimeZone>(
    calendar: CalendarText<'_>,
    zone: Z,
    buffer: &mut [u8],
    dates: &'a mut [DateTime<Z>],
    exceptions: &'a mut [DateTime<Z>],
) -> Result<ZonedRecurrence<'a, Z>, CalendarRuleError>
    requires { IsShorter (text_in calendar.rule) (length buffer.old) }
    ensures means { IfOk result (MeansRecurrence Z.ahead zone (parts_read calendar.entry)) }
    ensures within { IfOk result (λ s. (length s.dates.now ≤ length dates.old) × (length s.exceptions.now ≤ length exceptions.old)) }
    ensures none { IfErr result (λ _. MeansNoneWithin Z.ahead zone (parts_read calendar.entry) (length dates.old) (length exceptions.old)) }
    // What the error says is wrong with the text is wrong with it.
    ensures fault { IfErr result (IsRecurrenceFault Z.ahead zone (parts_read calendar.entry) (length dates.old) (length exceptions.old)) }
{
    let Some(start) = local_start(calendar.start) else {
        return Err(CalendarRuleError::NotLocal);
    };
    let rule = match rule_of(calendar.rule, buffer) {
        Ok(rule) => rule,
        Err(error) => return Err(CalendarRuleError::Rule(error)),
    };
    let Some(rule) = rule.in_zone(start, zone) else {
        return Err(CalendarRuleError::Rule(TimedRuleError::NotTogether));
    };
    let date_count = put_instants(calendar.dates, zone, dates)?;
    let exception_count = put_instants(calendar.exceptions, zone, exceptions)?;
    Ok(ZonedRecurrence {
        rule,
        dates: &dates[..date_count],
        exceptions: &exceptions[..exception_count],
    })
}

// The local time that a time is, if it is one.
fn local_start(time: CalendarTime) -> Option<NaiveDateTime>
    ensures some { IfSome result (λ m. time ≡ Local m) }
    ensures none { IfNone result ((m : Moment) → time ≡ Local m → ⊥) }
{
    match time {
        CalendarTime::Local(local) => Some(local),
        CalendarTime::Date(_) | CalendarTime::Utc(_) => None,
    }
}

// The rule that the text of a calendar has, or the start alone.
fn rule_of(text: Option<&[u8]>, buffer: &mut [u8]) -> Result<TimedRule, TimedRuleError>
    requires { IsShorter (text_in text) (length buffer.old) }
    ensures rule { IfOk result (IsRuleOf (text_in text.entry)) }
    ensures none { IfErr result (λ _. (r : TimedRule) → ¬ IsRuleOf (text_in text.entry) r) }
    ensures fault { IfErr result (HasRuleFault (text_in text.entry)) }
{
    match text {
        Some(text) => read_timed_rule(text, buffer),
        None => Ok(TimedRule {
            steps: ClockSteps::each_day(),
            days: Rule::new(Frequency::Daily),
            times: DayTimes::of_start(),
            bound: Bound::Count(1),
        }),
    }
}

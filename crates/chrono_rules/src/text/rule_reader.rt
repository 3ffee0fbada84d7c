//! The texts of rules.
ghost use Rattle.std.specs.Prelude.{◌≡◌, ◌↔◌, ◌≤◌, ◌+◌, length, true, false, Some, None, Ok, Err, IfSome, IfOk, IfErr, IsErr};
ghost use Rattle.chrono_rules.specs.RuleErrors.{IsRuleRead, are_named, in_text, unfit_error, unnamed_error, unread_error};
ghost use Rattle.chrono_rules.specs.RuleTexts.{IsRuleText, Says, behind_property, body_start, fits, has_month_days, has_year_parts, lacks_lists, lacks_numbers, may_have_numbers, rule_body, without_semicolon};
ghost use Rattle.chrono_rules.specs.declared.rule.Rule.{Rule};

use crate::rule::{Frequency, Rule};
use crate::text::all_parts::TextParts;
use crate::text::first_error::{unfit_part, unnamed_error, unread_error};
use crate::text::part_by_name::{SEMICOLON, are_parts, behind_name};
use crate::text::rule_error::{RuleError, RuleFault, RulePart};
use chrono_sets::are_empty;
use chrono_text::begins_but_for_case;
use std::str::FromStr;

// The name of the property in which a calendar has a rule.
const PROPERTY: &[u8] = b"RRULE:";

/// Reads a recurrence rule of RFC 5545 (section 3.3.10), such as `FREQ=MONTHLY;BYDAY=-1FR`. Returns the [`Rule`].
///
/// If `text` is no rule, returns the wrong part, where it is wrong, and why, as a [`RuleError`].
///
/// ```
/// read_rule(b"FREQ=MONTHLY;BYDAY=-1FR").is_ok() // true
/// let error = read_rule(b"FREQ=WEEKLY;BYMONTHDAY=1").err()?;
/// (error.part, error.byte, error.fault) // (Some(ByMonthDay), 12, NotWith(Weekly))
/// ```
///
/// A rule is parts `NAME=VALUE` with `;` between them, in any order, each at most once. FREQ is always there:
///
/// - FREQ: `DAILY`, `WEEKLY`, `MONTHLY` or `YEARLY`;
/// - INTERVAL: 1 to 4294967295;
/// - COUNT, 0 to 4294967295, or UNTIL, a date such as `19971224`;
/// - BYMONTH, BYMONTHDAY, BYDAY, BYYEARDAY, BYWEEKNO, BYSETPOS and WKST.
///
/// The letters of names and of words may have either case, as in an ABNF.
/// `RRULE:` may stand in front, as in a calendar's line, and one `;` at the end. No text that is written has them.
///
/// It refuses what RFC 5545 forbids. BYMONTHDAY does not go with WEEKLY. BYYEARDAY and BYWEEKNO go with YEARLY only. Numbers of weekdays go with
/// MONTHLY and YEARLY, and not with BYWEEKNO. BYSETPOS needs another BY part. It also refuses rules of hours, minutes and seconds, and an UNTIL
/// with a time of day.
///
/// Of several errors it returns the first in this order. First comes a part with an unknown name. Then, in the order of [`RulePart`], a part that
/// cannot be read. Then a part that does not go with the others.
pub fn read_rule(text: &[u8]) -> Result<Rule, RuleError>
    ensures read { IfOk result (λ r. IsRuleText (rule_body text.now) r) }
    // Whatever rule the text writes is the answer: no text is refused, and none has two meanings.
    ensures every { (r : Rule) → IsRuleText (rule_body text.now) r → result ≡ Ok r }
    ensures found { IsErr result ↔ ((r : Rule) → ¬ IsRuleText (rule_body text.now) r) }
    // Told first is a name that no rule over days has, whatever the parts say.
    ensures unknown { are_named (rule_body text.now) ≡ false → result ≡ Err (in_text text.now (unnamed_error (rule_body text.now))) }
    // With known names alone, the first part that cannot be read, if the parts say no rule.
    ensures unread { are_named (rule_body text.now) ≡ true → ((r : Rule) → ¬ Says (rule_body text.now) r) → result ≡ Err (in_text text.now (unread_error (rule_body text.now))) }
    // If they say one, the first of its parts that does not go with the others.
    ensures unfit { (r : Rule) → are_named (rule_body text.now) ≡ true → Says (rule_body text.now) r → fits r ≡ false → result ≡ Err (in_text text.now (unfit_error (rule_body text.now) r)) }
    ensures byte { IfErr result (λ e. e.byte ≤ length text.now) }
{
    match read_body(rule_body(text)) {
        Ok(rule) => Ok(rule),
        Err(error) => Err(error.behind(body_start(text))),
    }
}

impl FromStr for Rule {
    type Err = RuleError;

    ghost from_str_gives = { IsRuleRead };

    /// Reads a rule as [`read_rule`] does.
    fn from_str(text: &str) -> Result<Rule, RuleError> {
        read_rule(text.as_bytes())
    }
}

// The parts without what a calendar's line may have in front and at the end.
#[tactic(auto, unfolding(crate::specs::RuleTexts::rule_body))]
fn rule_body(text: &[u8]) -> &[u8]
    ensures body { result.now ≡ rule_body text.now }
    ensures within { body_start text.now + length result.now ≤ length text.now }
{
    without_semicolon(behind_property(text))
}

// What stands behind `RRULE:`, or the text if it does not begin so.
fn behind_property(text: &[u8]) -> &[u8]
    ensures behind { result.now ≡ behind_property text.now }
    ensures within { body_start text.now + length result.now ≡ length text.now }
{
    match behind_name(text, PROPERTY) {
        Some(behind) => behind,
        None => text,
    }
}

// Where the parts begin: behind `RRULE:`, if the text begins so.
fn body_start(text: &[u8]) -> usize
    ensures { result ≡ body_start text.now }
{
    if begins_but_for_case(text, PROPERTY) {
        PROPERTY.len()
    } else {
        0
    }
}

// The text without the semicolon with which it ends, if it does.
fn without_semicolon(text: &[u8]) -> &[u8]
    ensures text { result.now ≡ without_semicolon text.now }
    ensures within { length result.now ≤ length text.now }
{
    let len = text.len();
    if len > 0 && text[len - 1] == SEMICOLON {
        &text[..len - 1]
    } else {
        text
    }
}

// The rule whose parts stand in the text, or what is wrong with them.
fn read_body(text: &[u8]) -> Result<Rule, RuleError>
    ensures read { IfOk result (λ r. IsRuleText text.now r) }
    ensures every { (r : Rule) → IsRuleText text.now r → result ≡ Ok r }
    ensures found { IsErr result ↔ ((r : Rule) → ¬ IsRuleText text.now r) }
    ensures unknown { are_named text.now ≡ false → result ≡ Err (unnamed_error text.now) }
    ensures unread { are_named text.now ≡ true → ((r : Rule) → ¬ Says text.now r) → result ≡ Err (unread_error text.now) }
    ensures unfit { (r : Rule) → are_named text.now ≡ true → Says text.now r → fits r ≡ false → result ≡ Err (unfit_error text.now r) }
    ensures byte { IfErr result (λ e. e.byte ≤ length text.now) }
{
    if !are_parts(text) {
        return Err(unnamed_error(text));
    }
    let parts = TextParts::of(text);
    let Some(rule) = read_parts(&parts) else {
        return Err(unread_error(&parts));
    };
    if !rule.fits() {
        return Err(rule.unfit_error(text));
    }
    Ok(rule)
}

// What the parts say.
fn read_parts(parts: &TextParts<'_>) -> Option<Rule>
    ensures read { IfSome result (λ r. Says parts.now r) }
    ensures every { (r : Rule) → Says parts.now r → result ≡ Some r }
{
    let frequency = parts.frequency()?;
    let interval = parts.interval()?;
    let end = parts.end()?;
    let months = parts.months()?;
    let month_days = parts.month_days()?;
    let weekdays = parts.weekdays()?;
    let year_days = parts.year_days()?;
    let weeks = parts.weeks()?;
    let positions = parts.positions()?;
    let week_start = parts.week_start()?;
    Some(Rule {
        frequency,
        interval,
        end,
        months,
        month_days: month_days.front,
        month_days_from_end: month_days.back,
        weekdays,
        year_days: year_days.front,
        year_days_from_end: year_days.back,
        weeks: weeks.front,
        weeks_from_end: weeks.back,
        positions: positions.front,
        positions_from_end: positions.back,
        week_start,
    })
}

impl Rule {
    // Whether each part that the rule has goes with the others.
    fn fits(&self) -> bool
        ensures { result ≡ fits self.now }
    {
        (has_month_days(self.frequency) || self.lacks_month_days())
            && ((has_year_parts(self.frequency) || (self.lacks_year_days() && self.lacks_weeks()))
                && ((self.may_have_numbers() || self.lacks_numbers())
                    && (self.lacks_positions() || !self.lacks_lists())))
    }

    // Why the parts of the text, which say this rule, do not go together.
    #[tactic(auto, unfolding(crate::specs::RuleErrors::unfit_error))]
    fn unfit_error(&self, text: &[u8]) -> RuleError
        ensures error { result ≡ unfit_error text.now self.now }
        ensures byte { result.byte ≤ length text.now }
    {
        let not_with = RuleFault::NotWith(self.frequency);
        if !has_month_days(self.frequency) && !self.lacks_month_days() {
            return unfit_part(text, RulePart::ByMonthDay, not_with);
        }
        if !has_year_parts(self.frequency) && !self.lacks_year_days() {
            return unfit_part(text, RulePart::ByYearDay, not_with);
        }
        if !has_year_parts(self.frequency) && !self.lacks_weeks() {
            return unfit_part(text, RulePart::ByWeekNo, not_with);
        }
        if !self.has_numbers() && !self.lacks_numbers() {
            let fault = RuleFault::NumbersNotWith(self.frequency);
            return unfit_part(text, RulePart::ByDay, fault);
        }
        if !self.may_have_numbers() && !self.lacks_numbers() {
            return unfit_part(text, RulePart::ByDay, RuleFault::NumbersBesideWeeks);
        }
        unfit_part(text, RulePart::BySetPos, RuleFault::Alone)
    }

    // Whether weekdays may have numbers.
    fn may_have_numbers(&self) -> bool
        ensures { result ≡ may_have_numbers self.now }
    {
        self.has_numbers() && self.lacks_weeks()
    }

    // Whether no weekday has a number.
    fn lacks_numbers(&self) -> bool
        ensures { result ≡ lacks_numbers self.now }
    {
        are_empty(&self.weekdays.front) && are_empty(&self.weekdays.back)
    }

    // Whether it lists nothing but positions.
    fn lacks_lists(&self) -> bool
        ensures { result ≡ lacks_lists self.now }
    {
        self.lacks_months()
            && (self.lacks_month_days()
                && (self.lacks_weekdays() && (self.lacks_year_days() && self.lacks_weeks())))
    }
}

// Whether days of the month go with the frequency.
#[tactic(auto, unfolding(crate::specs::RuleTexts::has_month_days))]
fn has_month_days(frequency: Frequency) -> bool
    ensures { result ≡ has_month_days frequency }
{
    match frequency {
        Frequency::Daily => true,
        Frequency::Weekly => false,
        Frequency::Monthly => true,
        Frequency::Yearly => true,
    }
}

// Whether days of the year and weeks go with the frequency.
#[tactic(auto, unfolding(crate::specs::RuleTexts::has_year_parts))]
fn has_year_parts(frequency: Frequency) -> bool
    ensures { result ≡ has_year_parts frequency }
{
    match frequency {
        Frequency::Daily => false,
        Frequency::Weekly => false,
        Frequency::Monthly => false,
        Frequency::Yearly => true,
    }
}

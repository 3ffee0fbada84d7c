//! Recurrence rules over days: the next and the last instance, and lists of instances.
ghost use Rattle.std.specs.Prelude.{◌≡◌, false, IfSome, IsSome, length, take, drop, int_le};
ghost use Rattle.chrono_datetime.specs.Days.{IsDate, date_of_day};
ghost use Rattle.chrono_rules.specs.InstanceLists.{instances_from};
ghost use Rattle.chrono_rules.specs.Instances.{is_instance};
ghost use Rattle.chrono_rules.specs.declared.rule.Rule.{Rule};
ghost use Rattle.numbers_c.specs.Answers.{none_number, or_none};
ghost use Rattle.layers_c.specs.Rules.{IsLastInstance, IsNextInstance, WritesRule, instances_up_to};

use chrono_datetime::{Datelike, NaiveDate};
use chrono_rules::{Rule, read_rule};
use numbers_c::{NONE, date_of, number_or_none};

/// Returns the first instance after `day` of the rule that begins on `start`.
#[unsafe(no_mangle)]
pub extern "C" fn calendar_rule_next(text: &[u8], start: i32, day: i32) -> i32
    ensures next { (r : Rule) → WritesRule text.now r → IsDate start → IsDate day
        → IsNextInstance r start day (date_of_day result) }
    ensures number { result ≡ or_none (date_of_day result) }
    ensures no_rule { ((r : Rule) → ¬ WritesRule text.now r) → result ≡ none_number }
    ensures no_start { (IsDate start → ⊥) → result ≡ none_number }
    ensures no_day { (IsDate day → ⊥) → result ≡ none_number }
{
    match rule_and_days(text, start, day) {
        Some((rule, start, day)) => number_or_none(rule.next_after(start, day)),
        None => NONE,
    }
}

/// Returns the last instance before `day` of the rule that begins on `start`.
#[unsafe(no_mangle)]
pub extern "C" fn calendar_rule_prev(text: &[u8], start: i32, day: i32) -> i32
    ensures last { (r : Rule) → WritesRule text.now r → IsDate start → IsDate day
        → IsLastInstance r start day (date_of_day result) }
    ensures number { result ≡ or_none (date_of_day result) }
    ensures no_rule { ((r : Rule) → ¬ WritesRule text.now r) → result ≡ none_number }
    ensures no_start { (IsDate start → ⊥) → result ≡ none_number }
    ensures no_day { (IsDate day → ⊥) → result ≡ none_number }
{
    match rule_and_days(text, start, day) {
        Some((rule, start, day)) => number_or_none(rule.prev_before(start, day)),
        None => NONE,
    }
}

/// Returns whether `day` is an instance of the rule that begins on `start`.
#[unsafe(no_mangle)]
pub extern "C" fn calendar_rule_is_instance(text: &[u8], start: i32, day: i32) -> bool
    ensures instance { (r : Rule) → WritesRule text.now r → IsDate start → IsDate day
        → result ≡ is_instance r start day }
    ensures no_rule { ((r : Rule) → ¬ WritesRule text.now r) → result ≡ false }
    ensures no_start { (IsDate start → ⊥) → result ≡ false }
    ensures no_day { (IsDate day → ⊥) → result ≡ false }
{
    match rule_and_days(text, start, day) {
        Some((rule, start, day)) => rule.is_instance(start, day),
        None => false,
    }
}

/// Writes the instances from one day on, up to another, of the rule that begins on `start`, and returns how many it wrote.
#[unsafe(no_mangle)]
pub extern "C" fn calendar_rule_instances(
    text: &[u8],
    start: i32,
    from: i32,
    until: i32,
    out: &mut [i32],
) -> usize
    ensures count { (r : Rule) → WritesRule text.now r → IsDate start → IsDate from → IsDate until
        → result ≡ length (instances_up_to r start from until (length out.old)) }
    ensures instances { (r : Rule) → WritesRule text.now r → IsDate start → IsDate from → IsDate until
        → take result out.new ≡ instances_up_to r start from until (length out.old) }
    ensures rest { drop result out.new ≡ drop result out.old }
    ensures no_rule { ((r : Rule) → ¬ WritesRule text.now r) → result ≡ 0 }
    ensures no_start { (IsDate start → ⊥) → result ≡ 0 }
    ensures no_from { (IsDate from → ⊥) → result ≡ 0 }
    ensures no_until { (IsDate until → ⊥) → result ≡ 0 }
{
    let Some((rule, start, from)) = rule_and_days(text, start, from) else {
        return 0;
    };
    match date_of(until) {
        Some(until) => write_instances(&rule, start, from, until, out),
        None => 0,
    }
}

// The rule of a text and the dates of two numbers, if it is a rule and they are dates.
fn rule_and_days(text: &[u8], start: i32, day: i32) -> Option<(Rule, NaiveDate, NaiveDate)>
    ensures rule { IfSome result (λ it. WritesRule text.now it.0) }
    ensures only { IfSome result (λ it. (r : Rule) → WritesRule text.now r → it.0 ≡ r) }
    ensures start { IfSome result (λ it. (it.1 ≡ start) × IsDate start) }
    ensures day { IfSome result (λ it. (it.2 ≡ day) × IsDate day) }
    ensures exists { (r : Rule) → WritesRule text.now r → IsDate start → IsDate day → IsSome result }
{
    let Ok(rule) = read_rule(text) else {
        return None;
    };
    let Some(start) = date_of(start) else {
        return None;
    };
    match date_of(day) {
        Some(day) => Some((rule, start, day)),
        None => None,
    }
}

// Writes the instances from one day on, up to another, and returns how many it wrote.
fn write_instances(
    rule: &Rule,
    start: NaiveDate,
    from: NaiveDate,
    until: NaiveDate,
    out: &mut [i32],
) -> usize
    ensures count { result ≡ length (instances_up_to rule.now start from until (length out.old)) }
    ensures instances { take result out.new ≡ instances_up_to rule.now start from until (length out.old) }
    ensures rest { drop result out.new ≡ drop result out.old }
{
    let mut days = rule.instances_from(start, from);
    let mut count = 0;
    while count < out.len() {
        let Some(day) = days.next() else {
            return count;
        };
        if is_up_to(until, day) {
            out[count] = day.num_days_from_ce();
            count += 1;
        } else {
            return count;
        }
    }
    count
}

// Whether a day is not after another.
#[inline]
fn is_up_to(until: NaiveDate, day: NaiveDate) -> bool
    ensures { result ≡ int_le day until }
{
    day <= until
}

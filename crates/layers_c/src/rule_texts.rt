//! The texts of recurrence rules.
ghost use Rattle.std.specs.Prelude.{◌≡◌, true, false, Some, Err, length};
ghost use Rattle.chrono_rules.specs.RuleErrors.{IsRuleRead};
ghost use Rattle.chrono_rules.specs.declared.rule.Rule.{Rule};
ghost use Rattle.chrono_rules.specs.declared.text.rule_error.RuleError.{RuleError};
ghost use Rattle.numbers_c.specs.Answers.{count_or_none};
ghost use Rattle.numbers_c.specs.Texts.{length_of, overwritten, text_within};
ghost use Rattle.layers_c.specs.Faults.{IsPartEnd};
ghost use Rattle.layers_c.specs.Rules.{WritesRule, rule_error_from_c, rule_line_from_c};

use crate::faults::CalendarFault;
use crate::rule_faults::{error_of, fault_of};
use crate::rule_words::rule_line;
use chrono_rules::read_rule;
use numbers_c::{NONE, write_over};

/// Returns whether a text is a recurrence rule of RFC 5545, such as `FREQ=MONTHLY;BYDAY=-1FR`. If it is none, fills in what is wrong.
#[unsafe(no_mangle)]
pub extern "C" fn calendar_rule_check(text: &[u8], fault: &mut CalendarFault) -> bool
    ensures read { result ≡ true → (r : Rule) × WritesRule text.now r }
    ensures every { (r : Rule) → WritesRule text.now r → result ≡ true }
    ensures fault { result ≡ false → (e : RuleError) × (rule_error_from_c fault.new ≡ Some e) × IsRuleRead text.now (Err e) }
    ensures end { result ≡ false → IsPartEnd text.now fault.new.byte fault.new.end }
    ensures no_fault { result ≡ true → fault.new ≡ fault.old }
{
    match read_rule(text) {
        Ok(_) => true,
        Err(error) => {
            *fault = fault_of(text, error);
            false
        }
    }
}

/// Writes what a fault of a rule says over the first bytes, if they are enough, and returns how many it took.
#[unsafe(no_mangle)]
pub extern "C" fn calendar_rule_fault_text(fault: &CalendarFault, text: &mut [u8]) -> i32
    ensures length { result ≡ count_or_none (length_of (text_within (length text.old) (rule_line_from_c fault.now))) }
    ensures bytes { text.new ≡ overwritten (text_within (length text.old) (rule_line_from_c fault.now)) text.old }
{
    match error_of(fault) {
        Some(error) => write_over(text, rule_line(error).as_bytes()),
        None => NONE,
    }
}

//! What a fault of a rule says, in one line. It is the text of `Display` for `RuleError`, and here it cannot fail.
ghost use Rattle.std.specs.Prelude.{◌≡◌, ◌++◌, ◌+◌, ◌≤◌, length};
ghost use Rattle.chrono_rules.specs.RuleErrors.{in_front, part_name, rule_error_text, rule_fault_text};

use chrono_rules::{Frequency, RuleError, RuleFault, RulePart};
use chrono_text::Text;

// No line is longer.
const LONGEST: usize = 64;

// The part's name, if there is one, and what is wrong.
#[tactic(auto, unfolding(chrono_rules::specs::RuleErrors::rule_error_text))]
pub(crate) fn rule_line(error: RuleError) -> Text<LONGEST>
    ensures { result ≡ rule_error_text error }
{
    let mut line = Text::<LONGEST>::new();
    put_part(&mut line, error.part);
    line.push_text(words_of(error.fault).as_bytes());
    line
}

// Puts the part's name and a colon, if there is one.
fn put_part(line: &mut Text<LONGEST>, part: Option<RulePart>)
    requires { length line.old ≡ 0 }
    ensures text { line.new ≡ line.old ++ in_front part }
    ensures short { length line.new ≤ 12 }
{
    if let Some(part) = part {
        line.push_text(name_of(part).as_bytes());
        line.push_text(b": ");
    }
}

// The part's name.
#[tactic(auto, unfolding(chrono_rules::specs::RuleErrors::part_name))]
fn name_of(part: RulePart) -> &'static str
    ensures name { result.now ≡ part_name part }
    ensures short { length result.now ≤ 10 }
{
    match part {
        RulePart::Freq => "FREQ",
        RulePart::Interval => "INTERVAL",
        RulePart::Count => "COUNT",
        RulePart::Until => "UNTIL",
        RulePart::ByMonth => "BYMONTH",
        RulePart::ByMonthDay => "BYMONTHDAY",
        RulePart::ByDay => "BYDAY",
        RulePart::ByYearDay => "BYYEARDAY",
        RulePart::ByWeekNo => "BYWEEKNO",
        RulePart::BySetPos => "BYSETPOS",
        RulePart::Wkst => "WKST",
    }
}

// What is wrong.
#[tactic(auto, unfolding(chrono_rules::specs::RuleErrors::fault_words, chrono_rules::specs::RuleErrors::fault_frequency, chrono_rules::specs::RuleErrors::frequency_text))]
fn words_of(fault: RuleFault) -> &'static str
    ensures words { result.now ≡ rule_fault_text fault }
    ensures short { length result.now ≤ 52 }
{
    match fault {
        RuleFault::Unknown => "unknown part",
        RuleFault::OfHours => "BYHOUR: not in rules over days",
        RuleFault::OfMinutes => "BYMINUTE: not in rules over days",
        RuleFault::OfSeconds => "BYSECOND: not in rules over days",
        RuleFault::Extension => "an X- part, which is not read",
        RuleFault::OfCalendars => "RSCALE: not in rules of RFC 5545",
        RuleFault::OfSkips => "SKIP: not in rules of RFC 5545",
        RuleFault::Blank => "a blank",
        RuleFault::Missing => "missing",
        RuleFault::Twice => "stands twice",
        RuleFault::Empty => "empty",
        RuleFault::NotAFrequency => "not DAILY, WEEKLY, MONTHLY or YEARLY",
        RuleFault::NotANumber => "not a number",
        RuleFault::Range => "a range; list each with commas",
        RuleFault::OutOfRange => "number out of range",
        RuleFault::NotADate => "not a date as 19971224",
        RuleFault::WithTime => "a time stands behind the date",
        RuleFault::NotAWeekday => "not a weekday as MO",
        RuleFault::BesideCount => "does not go with COUNT",
        RuleFault::NotWith(Frequency::Daily) => "does not go with DAILY",
        RuleFault::NotWith(Frequency::Weekly) => "does not go with WEEKLY",
        RuleFault::NotWith(Frequency::Monthly) => "does not go with MONTHLY",
        RuleFault::NotWith(Frequency::Yearly) => "does not go with YEARLY",
        RuleFault::NumbersNotWith(Frequency::Daily) => "number does not go with DAILY",
        RuleFault::NumbersNotWith(Frequency::Weekly) => "number does not go with WEEKLY",
        RuleFault::NumbersNotWith(Frequency::Monthly) => "number does not go with MONTHLY",
        RuleFault::NumbersNotWith(Frequency::Yearly) => "number does not go with YEARLY",
        RuleFault::NumbersBesideWeeks => "number does not go with BYWEEKNO",
        RuleFault::Alone => "needs another BY part",
    }
}

//! What is wrong with a text that is no recurrence rule, as numbers.
ghost use Rattle.std.specs.Prelude.{◌≡◌, ◌≤◌, Some, length};
ghost use Rattle.layers_c.specs.Faults.{IsPartEnd, numbered};
ghost use Rattle.layers_c.specs.Rules.{rule_error_from_c, rule_faults, rule_parts};

use crate::faults::CalendarFault;
use crate::part_end::part_end;
use chrono_rules::{Frequency, RuleError, RuleFault, RulePart};

// What can be wrong, in the order of its numbers.
const FAULTS: [RuleFault; 29] = [
    RuleFault::Unknown,
    RuleFault::OfHours,
    RuleFault::OfMinutes,
    RuleFault::OfSeconds,
    RuleFault::Extension,
    RuleFault::OfCalendars,
    RuleFault::OfSkips,
    RuleFault::Blank,
    RuleFault::Missing,
    RuleFault::Twice,
    RuleFault::Empty,
    RuleFault::NotAFrequency,
    RuleFault::NotANumber,
    RuleFault::Range,
    RuleFault::OutOfRange,
    RuleFault::NotADate,
    RuleFault::WithTime,
    RuleFault::NotAWeekday,
    RuleFault::BesideCount,
    RuleFault::NumbersBesideWeeks,
    RuleFault::Alone,
    RuleFault::NotWith(Frequency::Daily),
    RuleFault::NotWith(Frequency::Weekly),
    RuleFault::NotWith(Frequency::Monthly),
    RuleFault::NotWith(Frequency::Yearly),
    RuleFault::NumbersNotWith(Frequency::Daily),
    RuleFault::NumbersNotWith(Frequency::Weekly),
    RuleFault::NumbersNotWith(Frequency::Monthly),
    RuleFault::NumbersNotWith(Frequency::Yearly),
];

// The parts, in the order of their numbers.
const PARTS: [RulePart; 11] = [
    RulePart::Freq,
    RulePart::Interval,
    RulePart::Count,
    RulePart::Until,
    RulePart::ByMonth,
    RulePart::ByMonthDay,
    RulePart::ByDay,
    RulePart::ByYearDay,
    RulePart::ByWeekNo,
    RulePart::BySetPos,
    RulePart::Wkst,
];

// The numbers of what is wrong with a text.
#[tactic(auto, unfolding(crate::specs::Rules::rule_error_from_c))]
pub(crate) fn fault_of(text: &[u8], error: RuleError) -> CalendarFault
    requires { error.byte ≤ length text.now }
    ensures fault { rule_error_from_c result ≡ Some error }
    ensures end { IsPartEnd text.now result.byte result.end }
{
    CalendarFault {
        code: fault_number(error.fault),
        field: part_number_or_zero(error.part),
        byte: error.byte,
        end: part_end(text, error.byte),
    }
}

// What is wrong by its numbers.
#[tactic(auto, unfolding(crate::specs::Rules::rule_error_from_c))]
pub(crate) fn error_of(fault: &CalendarFault) -> Option<RuleError>
    ensures { result ≡ rule_error_from_c fault.now }
{
    match fault_numbered(fault.code) {
        Some(cause) => Some(RuleError {
            part: part_numbered(fault.field),
            byte: fault.byte,
            fault: cause,
        }),
        None => None,
    }
}

// The fault with a number.
#[tactic(auto, using(crate::proofs::Numbered::numbered_past, crate::proofs::Numbered::numbered_within))]
fn fault_numbered(number: u32) -> Option<RuleFault>
    ensures { result ≡ numbered rule_faults number }
{
    if number == 0 {
        return None;
    }
    let place = (number - 1) as usize;
    if place >= FAULTS.len() {
        return None;
    }
    Some(FAULTS[place])
}

// The part with a number.
#[tactic(auto, using(crate::proofs::Numbered::numbered_past, crate::proofs::Numbered::numbered_within))]
fn part_numbered(number: u32) -> Option<RulePart>
    ensures { result ≡ numbered rule_parts number }
{
    if number == 0 {
        return None;
    }
    let place = (number - 1) as usize;
    if place >= PARTS.len() {
        return None;
    }
    Some(PARTS[place])
}

// The number of a fault.
fn fault_number(fault: RuleFault) -> u32
    ensures { numbered rule_faults result ≡ Some fault }
{
    match fault {
        RuleFault::Unknown => 1,
        RuleFault::OfHours => 2,
        RuleFault::OfMinutes => 3,
        RuleFault::OfSeconds => 4,
        RuleFault::Extension => 5,
        RuleFault::OfCalendars => 6,
        RuleFault::OfSkips => 7,
        RuleFault::Blank => 8,
        RuleFault::Missing => 9,
        RuleFault::Twice => 10,
        RuleFault::Empty => 11,
        RuleFault::NotAFrequency => 12,
        RuleFault::NotANumber => 13,
        RuleFault::Range => 14,
        RuleFault::OutOfRange => 15,
        RuleFault::NotADate => 16,
        RuleFault::WithTime => 17,
        RuleFault::NotAWeekday => 18,
        RuleFault::BesideCount => 19,
        RuleFault::NumbersBesideWeeks => 20,
        RuleFault::Alone => 21,
        RuleFault::NotWith(Frequency::Daily) => 22,
        RuleFault::NotWith(Frequency::Weekly) => 23,
        RuleFault::NotWith(Frequency::Monthly) => 24,
        RuleFault::NotWith(Frequency::Yearly) => 25,
        RuleFault::NumbersNotWith(Frequency::Daily) => 26,
        RuleFault::NumbersNotWith(Frequency::Weekly) => 27,
        RuleFault::NumbersNotWith(Frequency::Monthly) => 28,
        RuleFault::NumbersNotWith(Frequency::Yearly) => 29,
    }
}

// The number of a part, or 0 if there is none.
fn part_number_or_zero(part: Option<RulePart>) -> u32
    ensures { numbered rule_parts result ≡ part }
{
    match part {
        None => 0,
        Some(RulePart::Freq) => 1,
        Some(RulePart::Interval) => 2,
        Some(RulePart::Count) => 3,
        Some(RulePart::Until) => 4,
        Some(RulePart::ByMonth) => 5,
        Some(RulePart::ByMonthDay) => 6,
        Some(RulePart::ByDay) => 7,
        Some(RulePart::ByYearDay) => 8,
        Some(RulePart::ByWeekNo) => 9,
        Some(RulePart::BySetPos) => 10,
        Some(RulePart::Wkst) => 11,
    }
}

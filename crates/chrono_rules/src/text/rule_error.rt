//! `RuleError`: what is wrong with a string that is no rule, in which part, and where.
ghost use Rattle.std.specs.Prelude.{◌≡◌, ◌+◌, ◌≤◌, ◌<◌, ◌^◌, ◌++◌, Some, length};
ghost use Rattle.chrono_rules.specs.RuleErrors.{fault_frequency, fault_words, frequency_text, in_front, part_key, part_name, rule_error_text, rule_fault_text};

use crate::rule::Frequency;
use chrono_text::Text;
use std::fmt;

// No line of an error is longer.
const LONGEST: usize = 64;

/// A part of a rule, such as `FREQ=DAILY`.
#[derive(Clone, Copy, PartialEq, Eq, Debug)]
pub enum RulePart {
    /// FREQ: the unit of the rule's periods.
    Freq,
    /// INTERVAL: which periods count, such as every second one.
    Interval,
    /// COUNT: the number of instances.
    Count,
    /// UNTIL: no instance is after this day.
    Until,
    /// BYMONTH: months.
    ByMonth,
    /// BYMONTHDAY: days of the month.
    ByMonthDay,
    /// BYDAY: weekdays.
    ByDay,
    /// BYYEARDAY: days of the year.
    ByYearDay,
    /// BYWEEKNO: weeks of the year.
    ByWeekNo,
    /// BYSETPOS: positions among the days of a period.
    BySetPos,
    /// WKST: the weekday on which weeks begin.
    Wkst,
}

/// What is wrong with a string that is no rule.
#[derive(Clone, Copy, PartialEq, Eq, Debug)]
pub enum RuleFault {
    /// The part has an unknown name.
    Unknown,
    /// The part is BYHOUR. Rules over days do not have it.
    OfHours,
    /// The part is BYMINUTE. Rules over days do not have it.
    OfMinutes,
    /// The part is BYSECOND. Rules over days do not have it.
    OfSeconds,
    /// The part begins with `X-`: an extension of a user.
    Extension,
    /// The part is RSCALE of RFC 7529, which names another calendar.
    OfCalendars,
    /// The part is SKIP of RFC 7529.
    OfSkips,
    /// A space or a tab stands in the part.
    Blank,
    /// The part is required and missing.
    Missing,
    /// The part occurs more than once.
    Twice,
    /// The part, its value or an item of its list is empty.
    Empty,
    /// The value is not `DAILY`, `WEEKLY`, `MONTHLY` or `YEARLY`.
    NotAFrequency,
    /// The value or an item is not a number.
    NotANumber,
    /// The item is a range, such as `MO-FR`. A list has commas.
    Range,
    /// The number is out of the part's range, or has too many digits.
    OutOfRange,
    /// The value is no date of eight digits, such as `19971224`.
    NotADate,
    /// A time of day stands behind the date of UNTIL.
    WithTime,
    /// The item does not end with the two letters of a weekday, such as `MO`.
    NotAWeekday,
    /// UNTIL does not go with COUNT.
    BesideCount,
    /// The part does not go with this FREQ.
    NotWith(Frequency),
    /// A weekday with a number, such as `-1FR`, does not go with this FREQ.
    NumbersNotWith(Frequency),
    /// A weekday with a number does not go with BYWEEKNO.
    NumbersBesideWeeks,
    /// BYSETPOS needs another BY part.
    Alone,
}

/// What is wrong with a string that is no rule, in which part, and where. It prints as one line.
///
/// ```
/// let error = read_rule(b"FREQ=MONTHLY;BYMONTHDAY=1,32").err()?;
/// (error.part, error.byte, error.fault) // (Some(ByMonthDay), 26, OutOfRange)
/// error.to_string(rt.alloc()).ok()? // "BYMONTHDAY: number out of range"
/// ```
#[derive(Clone, Copy, PartialEq, Eq, Debug)]
pub struct RuleError {
    /// The wrong part. `None` if a part has no name that rules over days have.
    pub part: Option<RulePart>,
    /// The position of the error in the string, in bytes from 0.
    ///
    /// It is where the wrong value begins, and in a list where the wrong item begins. A part that stands twice counts where the second begins.
    /// A part with an unknown name, or one that does not go with the others, counts where it begins. If FREQ is missing, it is the end.
    pub byte: usize,
    /// What is wrong with the part.
    pub fault: RuleFault,
}

impl RuleError {
    // The error of a text that has so many bytes in front.
    pub(crate) fn behind(self, bytes: usize) -> RuleError
        requires { bytes + self.byte < 2 ^ 64 }
        ensures { result ≡ record { part = self.part; byte = bytes + self.byte; fault = self.fault } }
    {
        RuleError {
            part: self.part,
            byte: bytes + self.byte,
            fault: self.fault,
        }
    }

    // Puts the line behind a text.
    #[tactic(auto, unfolding(crate::specs::RuleErrors::rule_error_text))]
    fn put_into<const N: usize>(&self, text: &mut Text<N>)
        requires { length text.old + 64 ≤ N }
        ensures text { text.new ≡ text.old ++ rule_error_text self.now }
        ensures fits { length text.new ≤ length text.old + 64 }
    {
        put_part(text, self.part);
        put_fault(text, self.fault);
    }
}

impl fmt::Display for RuleError {
    ghost output = { λ e. Some (rule_error_text e) };

    ghost styled_output = { λ e _. Some (rule_error_text e) };

    /// Writes the part's name and what is wrong with it, such as `BYMONTHDAY: does not go with WEEKLY`. It ignores width and precision.
    fn fmt<W: fmt::Write>(&self, f: &mut fmt::Formatter<W>) -> fmt::Result {
        let mut text = Text::<LONGEST>::new();
        self.put_into(&mut text);
        text.print(f)
    }
}

// Puts the part's name and a colon, if there is one.
fn put_part<const N: usize>(text: &mut Text<N>, part: Option<RulePart>)
    requires { length text.old + 12 ≤ N }
    ensures text { text.new ≡ text.old ++ in_front part }
    ensures fits { length text.new ≤ length text.old + 12 }
{
    if let Some(part) = part {
        text.push_text(name_of(part).as_bytes());
        text.push_text(b": ");
    }
}

// Puts what is wrong with it.
fn put_fault<const N: usize>(text: &mut Text<N>, fault: RuleFault)
    requires { length text.old + 45 ≤ N }
    ensures text { text.new ≡ text.old ++ rule_fault_text fault }
    ensures fits { length text.new ≤ length text.old + 45 }
{
    text.push_text(words_of(fault).as_bytes());
    if let Some(frequency) = frequency_of(fault) {
        text.push_text(frequency_name(frequency).as_bytes());
    }
}

// What is wrong, without the word of FREQ behind it.
#[tactic(auto, unfolding(crate::specs::RuleErrors::fault_words))]
fn words_of(fault: RuleFault) -> &'static str
    ensures words { result.now ≡ fault_words fault }
    ensures short { length result.now ≤ 36 }
{
    match fault {
        RuleFault::Unknown => "unknown part",
        RuleFault::OfHours => "BYHOUR: not in rules over days",
        RuleFault::OfMinutes => "BYMINUTE: not in rules over days",
        RuleFault::OfSeconds => "BYSECOND: not in rules over days",
        RuleFault::Extension => "an X- part, which is not read",
        RuleFault::OfCalendars => "RSCALE: not in rules of RFC 5545",
        RuleFault::OfSkips => "SKIP: not in rules of RFC 5545",
        RuleFault::Blank => "a blank",
        RuleFault::Missing => "missing",
        RuleFault::Twice => "stands twice",
        RuleFault::Empty => "empty",
        RuleFault::NotAFrequency => "not DAILY, WEEKLY, MONTHLY or YEARLY",
        RuleFault::NotANumber => "not a number",
        RuleFault::Range => "a range; list each with commas",
        RuleFault::OutOfRange => "number out of range",
        RuleFault::NotADate => "not a date as 19971224",
        RuleFault::WithTime => "a time stands behind the date",
        RuleFault::NotAWeekday => "not a weekday as MO",
        RuleFault::BesideCount => "does not go with COUNT",
        RuleFault::NotWith(_) => "does not go with ",
        RuleFault::NumbersNotWith(_) => "number does not go with ",
        RuleFault::NumbersBesideWeeks => "number does not go with BYWEEKNO",
        RuleFault::Alone => "needs another BY part",
    }
}

// The word of FREQ that stands behind it.
#[tactic(auto, unfolding(crate::specs::RuleErrors::fault_frequency))]
fn frequency_of(fault: RuleFault) -> Option<Frequency>
    ensures { result ≡ fault_frequency fault }
{
    match fault {
        RuleFault::NotWith(frequency) | RuleFault::NumbersNotWith(frequency) => Some(frequency),
        RuleFault::Unknown
        | RuleFault::OfHours
        | RuleFault::OfMinutes
        | RuleFault::OfSeconds
        | RuleFault::Extension
        | RuleFault::OfCalendars
        | RuleFault::OfSkips
        | RuleFault::Blank
        | RuleFault::Missing
        | RuleFault::Twice
        | RuleFault::Empty
        | RuleFault::NotAFrequency
        | RuleFault::NotANumber
        | RuleFault::Range
        | RuleFault::OutOfRange
        | RuleFault::NotADate
        | RuleFault::WithTime
        | RuleFault::NotAWeekday
        | RuleFault::BesideCount
        | RuleFault::NumbersBesideWeeks
        | RuleFault::Alone => None,
    }
}

// The part's name.
#[tactic(auto, unfolding(crate::specs::RuleErrors::part_name))]
pub(crate) fn name_of(part: RulePart) -> &'static str
    ensures name { result.now ≡ part_name part }
    ensures short { length result.now ≤ 10 }
{
    match part {
        RulePart::Freq => "FREQ",
        RulePart::Interval => "INTERVAL",
        RulePart::Count => "COUNT",
        RulePart::Until => "UNTIL",
        RulePart::ByMonth => "BYMONTH",
        RulePart::ByMonthDay => "BYMONTHDAY",
        RulePart::ByDay => "BYDAY",
        RulePart::ByYearDay => "BYYEARDAY",
        RulePart::ByWeekNo => "BYWEEKNO",
        RulePart::BySetPos => "BYSETPOS",
        RulePart::Wkst => "WKST",
    }
}

// What the part begins with: its name and `=`.
#[tactic(auto, unfolding(crate::specs::RuleErrors::part_name))]
pub(crate) fn key_of(part: RulePart) -> &'static str
    ensures { result.now ≡ part_key part }
{
    match part {
        RulePart::Freq => "FREQ=",
        RulePart::Interval => "INTERVAL=",
        RulePart::Count => "COUNT=",
        RulePart::Until => "UNTIL=",
        RulePart::ByMonth => "BYMONTH=",
        RulePart::ByMonthDay => "BYMONTHDAY=",
        RulePart::ByDay => "BYDAY=",
        RulePart::ByYearDay => "BYYEARDAY=",
        RulePart::ByWeekNo => "BYWEEKNO=",
        RulePart::BySetPos => "BYSETPOS=",
        RulePart::Wkst => "WKST=",
    }
}

// The word of FREQ.
#[tactic(auto, unfolding(crate::specs::RuleErrors::frequency_text))]
pub(crate) fn frequency_name(frequency: Frequency) -> &'static str
    ensures name { result.now ≡ frequency_text frequency }
    ensures short { length result.now ≤ 7 }
{
    match frequency {
        Frequency::Daily => "DAILY",
        Frequency::Weekly => "WEEKLY",
        Frequency::Monthly => "MONTHLY",
        Frequency::Yearly => "YEARLY",
    }
}

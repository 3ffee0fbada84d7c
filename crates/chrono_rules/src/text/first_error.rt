//! Which part of a text cannot be read, where, and why.
ghost use Rattle.std.specs.Prelude.{◌≡◌, ◌≤◌, Some, None, length};
ghost use Rattle.std.specs.Str.{byte};
ghost use Rattle.chrono_text.specs.Lists.{has_blank, pieces};
ghost use Rattle.chrono_rules.specs.RuleErrors.{blank_or, date_fault, digits_fault, first_place, has_time, is_range, is_read, item_fault, list_fault, name_fault, number_fault, part_error, part_fault, placed_in, reads_item, rule_error_at, signed_fault, unfit_part, unnamed_error, unnamed_fault, unread_error, until_fault, value_fault, values_fault, weekday_fault, word_fault};
ghost use Rattle.chrono_rules.specs.RuleTexts.{parts};
ghost use Rattle.chrono_rules.specs.declared.text.rule_error.RulePart.TheVariants.{Count, Until};

use crate::text::all_parts::TextParts;
use crate::text::number_list::{read_from_one, read_signed};
use crate::text::part_by_name::{SEMICOLON, first_placed, is_part};
use crate::text::rule_error::{RuleError, RuleFault, RulePart, key_of};
use crate::text::weekday_list::with_text;
use crate::weekday_places::WeekdayPlaces;
use chrono_datetime::Weekday;
use chrono_text::{are_digits, begins_but_for_case, first_piece};

// The parts in their order, but the last.
const PARTS_BUT_LAST: [RulePart; 10] = [
    RulePart::Freq,
    RulePart::Interval,
    RulePart::Count,
    RulePart::Until,
    RulePart::ByMonth,
    RulePart::ByMonthDay,
    RulePart::ByDay,
    RulePart::ByYearDay,
    RulePart::ByWeekNo,
    RulePart::BySetPos,
];

// The error of a text with a part whose name no rule over days has.
pub(crate) fn unnamed_error(text: &[u8]) -> RuleError
    ensures error { result ≡ unnamed_error text.now }
    ensures byte { result.byte ≤ length text.now }
{
    error_at(None, unnamed_fault(text))
}

// Why the first such part has none, and where it begins.
fn unnamed_fault(text: &[u8]) -> (usize, RuleFault)
    ensures fault { result ≡ unnamed_fault 0 (parts text.now) }
    ensures within { result.0 ≤ length text.now }
{
    let mut place = 0;
    let mut rest = text;
    loop {
        let (part, behind) = first_piece(rest, SEMICOLON);
        if !is_part(part) {
            return (place, name_fault(part));
        }
        match behind {
            [_, next @ ..] => {
                place += part.len() + 1;
                rest = next;
            }
            [] => return (0, RuleFault::Unknown),
        }
    }
}

// The error of a part, a place, and what is wrong there.
fn error_at(part: Option<RulePart>, fault: (usize, RuleFault)) -> RuleError
    ensures { result ≡ rule_error_at part fault }
{
    let (byte, fault) = fault;
    RuleError { part, byte, fault }
}

// The error of a part that does not go with the others, told where it begins.
pub(crate) fn unfit_part(text: &[u8], part: RulePart, fault: RuleFault) -> RuleError
    ensures error { result ≡ unfit_part text.now part fault }
    ensures byte { result.byte ≤ length text.now }
{
    error_at(Some(part), (part_place(text, part), fault))
}

// Where the part begins; the text's length if it has no such part.
fn part_place(text: &[u8], part: RulePart) -> usize
    ensures place { result ≡ first_place (length text.now) (placed_in text.now part) }
    ensures within { result ≤ length text.now }
{
    match first_placed(text, key_of(part).as_bytes(), 0) {
        Some(found) => found.place,
        None => text.len(),
    }
}

// Why no rule over days has the part's name.
#[tactic(auto, unfolding(crate::specs::RuleErrors::name_fault))]
fn name_fault(part: &[u8]) -> RuleFault
    ensures { result ≡ name_fault part.now }
{
    if begins_but_for_case(part, b"BYHOUR=") {
        RuleFault::OfHours
    } else if begins_but_for_case(part, b"BYMINUTE=") {
        RuleFault::OfMinutes
    } else if begins_but_for_case(part, b"BYSECOND=") {
        RuleFault::OfSeconds
    } else if begins_but_for_case(part, b"X-") {
        RuleFault::Extension
    } else if begins_but_for_case(part, b"RSCALE=") {
        RuleFault::OfCalendars
    } else if begins_but_for_case(part, b"SKIP=") {
        RuleFault::OfSkips
    } else {
        word_fault(RuleFault::Unknown, part)
    }
}

// The first part that cannot be read; the last where all others can.
pub(crate) fn unread_error(parts: &TextParts<'_>) -> RuleError
    ensures error { result ≡ unread_error parts.now }
    ensures byte { result.byte ≤ length parts.now }
{
    for part in PARTS_BUT_LAST {
        if !is_read(parts, part) {
            return part_error(parts.text, part);
        }
    }
    part_error(parts.text, RulePart::Wkst)
}

// The part with what is wrong with it.
fn part_error(text: &[u8], part: RulePart) -> RuleError
    ensures error { result ≡ part_error text.now part }
    ensures byte { result.byte ≤ length text.now }
{
    error_at(Some(part), part_fault(text, part))
}

// Whether the part can be read.
#[tactic(auto, unfolding(crate::specs::RuleErrors::is_read))]
fn is_read(parts: &TextParts<'_>, part: RulePart) -> bool
    ensures { result ≡ is_read parts.now part }
{
    match part {
        RulePart::Freq => parts.frequency().is_some(),
        RulePart::Interval => parts.interval().is_some(),
        RulePart::Count => parts.is_count_read(),
        RulePart::Until => parts.end().is_some(),
        RulePart::ByMonth => parts.months().is_some(),
        RulePart::ByMonthDay => parts.month_days().is_some(),
        RulePart::ByDay => parts.weekdays().is_some(),
        RulePart::ByYearDay => parts.year_days().is_some(),
        RulePart::ByWeekNo => parts.weeks().is_some(),
        RulePart::BySetPos => parts.positions().is_some(),
        RulePart::Wkst => parts.week_start().is_some(),
    }
}

// Why the part cannot be read, and where.
#[tactic(auto, unfolding(crate::specs::RuleErrors::part_fault))]
fn part_fault(text: &[u8], part: RulePart) -> (usize, RuleFault)
    ensures fault { result ≡ part_fault text.now part }
    ensures within { result.0 ≤ length text.now }
{
    match part {
        RulePart::Until => until_fault(text),
        RulePart::Freq
        | RulePart::Interval
        | RulePart::Count
        | RulePart::ByMonth
        | RulePart::ByMonthDay
        | RulePart::ByDay
        | RulePart::ByYearDay
        | RulePart::ByWeekNo
        | RulePart::BySetPos
        | RulePart::Wkst => fault_of(text, part),
    }
}

// Why UNTIL cannot be read, and where.
fn until_fault(text: &[u8]) -> (usize, RuleFault)
    ensures fault { result ≡ until_fault (length text.now) (placed_in text.now Count) (placed_in text.now Until) }
    ensures within { result.0 ≤ length text.now }
{
    match first_placed(text, key_of(RulePart::Count).as_bytes(), 0) {
        None => fault_of(text, RulePart::Until),
        Some(_) => (part_place(text, RulePart::Until), RuleFault::BesideCount),
    }
}

// Why the part cannot be read, by its values, and where.
fn fault_of(text: &[u8], part: RulePart) -> (usize, RuleFault)
    ensures fault { result ≡ values_fault part (length text.now) (placed_in text.now part) }
    ensures within { result.0 ≤ length text.now }
{
    let name = key_of(part).as_bytes();
    let Some(first) = first_placed(text, name, 0) else {
        return (text.len(), RuleFault::Missing);
    };
    if let Some(second) = first.next(name) {
        return (second.place, RuleFault::Twice);
    }
    let (before, fault) = value_fault(part, first.value);
    (first.place + name.len() + before, fault)
}

// Why the value is none of the part's, and behind how many of its bytes.
#[tactic(auto, unfolding(crate::specs::RuleErrors::value_fault))]
fn value_fault(part: RulePart, text: &[u8]) -> (usize, RuleFault)
    ensures fault { result ≡ value_fault part text.now }
    ensures within { result.0 ≤ length text.now }
{
    match part {
        RulePart::Freq => (0, word_fault(RuleFault::NotAFrequency, text)),
        RulePart::Interval | RulePart::Count => (0, number_fault(text)),
        RulePart::Until => (0, date_fault(text)),
        RulePart::Wkst => (0, word_fault(RuleFault::NotAWeekday, text)),
        RulePart::ByMonth
        | RulePart::ByMonthDay
        | RulePart::ByDay
        | RulePart::ByYearDay
        | RulePart::ByWeekNo
        | RulePart::BySetPos => list_fault(part, text),
    }
}

// Why the list is none of the part's, and behind how many of its bytes: by its first item that cannot be read.
fn list_fault(part: RulePart, text: &[u8]) -> (usize, RuleFault)
    ensures fault { result ≡ list_fault part 0 (pieces (byte ",") text.now) }
    ensures within { result.0 ≤ length text.now }
{
    let mut place = 0;
    let mut rest = text;
    loop {
        let (item, behind) = first_piece(rest, b',');
        if !reads_item(part, item) {
            return (place, item_fault(part, item));
        }
        match behind {
            [_, next @ ..] => {
                place += item.len() + 1;
                rest = next;
            }
            [] => return (0, RuleFault::Empty),
        }
    }
}

// Whether the item can be read.
#[tactic(auto, unfolding(crate::specs::RuleErrors::reads_item))]
fn reads_item(part: RulePart, item: &[u8]) -> bool
    ensures { result ≡ reads_item part item.now }
{
    match part {
        RulePart::ByMonth => read_from_one(item, 2, 12).is_some(),
        RulePart::ByMonthDay => read_signed(item, 2, 31).is_some(),
        RulePart::ByDay => with_text(WeekdayPlaces::none(), item).is_some(),
        RulePart::ByWeekNo => read_signed(item, 2, 53).is_some(),
        RulePart::Freq
        | RulePart::Interval
        | RulePart::Count
        | RulePart::Until
        | RulePart::ByYearDay
        | RulePart::BySetPos
        | RulePart::Wkst => read_signed(item, 3, 366).is_some(),
    }
}

// Why it cannot.
#[tactic(auto, unfolding(crate::specs::RuleErrors::item_fault))]
fn item_fault(part: RulePart, item: &[u8]) -> RuleFault
    ensures { result ≡ item_fault part item.now }
{
    match part {
        RulePart::ByMonth => number_fault(item),
        RulePart::ByDay => weekday_fault(item),
        RulePart::Freq
        | RulePart::Interval
        | RulePart::Count
        | RulePart::Until
        | RulePart::ByMonthDay
        | RulePart::ByYearDay
        | RulePart::ByWeekNo
        | RulePart::BySetPos
        | RulePart::Wkst => signed_fault(item),
    }
}

// Why the text is none of a part's words.
fn word_fault(fault: RuleFault, text: &[u8]) -> RuleFault
    ensures { result ≡ word_fault fault text.now }
{
    if text.is_empty() {
        return RuleFault::Empty;
    }
    blank_or(fault, text)
}

// A blank in the text, or else another fault.
fn blank_or(fault: RuleFault, text: &[u8]) -> RuleFault
    ensures { result ≡ blank_or fault text.now }
{
    if has_blank(text) {
        RuleFault::Blank
    } else {
        fault
    }
}

// Whether a space or a tab stands in the text.
fn has_blank(text: &[u8]) -> bool
    ensures { result ≡ has_blank text.now }
{
    text.iter().any(|byte| *byte == b' ' || *byte == b'\t')
}

// Whether a `-` stands behind the first byte.
fn is_range(text: &[u8]) -> bool
    ensures { result ≡ is_range text.now }
{
    text.iter().skip(1).any(|byte| *byte == b'-')
}

// Why the text is no date: a time of day stands behind one, or it is none.
fn date_fault(text: &[u8]) -> RuleFault
    ensures { result ≡ date_fault text.now }
{
    if has_time(text) {
        return RuleFault::WithTime;
    }
    word_fault(RuleFault::NotADate, text)
}

// Whether a `T` stands behind the eight digits of a date.
fn has_time(text: &[u8]) -> bool
    ensures { result ≡ has_time text.now }
{
    text.len() > 8 && (text[8] == b'T' || text[8] == b't')
}

// Why the text is no number of a part's.
#[tactic(auto, unfolding(crate::specs::RuleErrors::number_fault))]
fn number_fault(text: &[u8]) -> RuleFault
    ensures { result ≡ number_fault text.now }
{
    match text {
        [] => RuleFault::Empty,
        [_, ..] => digits_fault(text),
    }
}

// Why it is none with a sign or without.
#[tactic(auto, unfolding(crate::specs::RuleErrors::signed_fault))]
fn signed_fault(text: &[u8]) -> RuleFault
    ensures { result ≡ signed_fault text.now }
{
    match text {
        [] => RuleFault::Empty,
        [b'-', number @ ..] | [b'+', number @ ..] => digits_fault(number),
        [_, ..] => digits_fault(text),
    }
}

// Why it is no weekday, with such a number in front or none.
#[tactic(auto, unfolding(crate::specs::NumberLists::listed_weekday, crate::specs::RuleErrors::weekday_fault))]
fn weekday_fault(text: &[u8]) -> RuleFault
    ensures { result ≡ weekday_fault text.now }
{
    if text.is_empty() {
        return RuleFault::Empty;
    }
    let (number, letters) = text.split_at(text.len().saturating_sub(2));
    if Weekday::from_letters(letters, 2).is_some() {
        signed_fault(number)
    } else {
        blank_or(RuleFault::NotAWeekday, text)
    }
}

// Why it is no number of digits.
#[tactic(auto, unfolding(crate::specs::RuleErrors::digits_fault))]
fn digits_fault(text: &[u8]) -> RuleFault
    ensures { result ≡ digits_fault text.now }
{
    if are_digits(text) {
        RuleFault::OutOfRange
    } else if has_blank(text) {
        RuleFault::Blank
    } else if is_range(text) {
        RuleFault::Range
    } else {
        RuleFault::NotANumber
    }
}

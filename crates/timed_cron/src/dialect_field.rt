//! The reading of a field of numbers as Quartz and robfig/cron have it, and what is wrong with one that cannot be read.
ghost use Rattle.std.specs.Prelude.{◌≡◌, ◌+◌, ◌<◌, ◌≤◌, ◌==◌, ◌^◌, length, take, IfOk, IfErr, IfSome, IfNone, is_some, true, false};
ghost use Rattle.std.specs.Str.{byte};
ghost use Rattle.chrono_text.specs.Lists.{pieces, stands_in};
ghost use Rattle.chrono_cron.specs.FieldTexts.{before_byte, behind_byte, is_star};
ghost use Rattle.chrono_cron.specs.ScheduleErrors.{step_fault, unspelled_fault};
ghost use Rattle.timed_cron.specs.DialectFields.{fault_behind, ends_read, in_order, is_all, is_mark, items_read, named_number, form_number_fault, field_number, field_number_read, number_written, range_read, span_read, step_read, stepped_ends_read};
ghost use Rattle.timed_cron.specs.Private.{AreEndsOf, IsForm, IsSpanOf};

use crate::field_form::{FieldForm, Span};
use crate::span_set::SpanSet;
use chrono_cron::ScheduleFault;
use chrono_text::{are_digits, first_piece, read_digits, split_at_byte};

// What is wrong with a field, and behind how many of its bytes.
pub(crate) type FieldFault = (usize, ScheduleFault);

// The most digits that a step has.
const STEP_DIGITS: usize = 3;

// A set with the numbers that the items of a field list.
pub(crate) fn read_items<S: SpanSet + Drop>(
    text: &[u8],
    form: FieldForm,
    set: S,
) -> Result<S, FieldFault>
    requires form { IsForm form }
    requires places { form.high < form.base + S.limit }
    ensures read { result ≡ items_read S.with form set 0 (pieces (byte ",") text.now) }
    ensures within { IfErr result (λ e. e.0 ≤ length text.now) }
{
    let mut set = set;
    let mut place = 0;
    let mut rest = text;
    loop {
        let (item, behind) = first_piece(rest, b',');
        match read_span(item, form) {
            Ok(span) => set = set.with_span(form, span),
            Err((byte, fault)) => return Err((place + byte, fault)),
        }
        match behind {
            [_, next @ ..] => {
                place += item.len() + 1;
                rest = next;
            }
            [] => return Ok(set),
        }
    }
}

// What an item lists.
#[tactic(auto, unfolding(crate::specs::DialectFields::span_read))]
fn read_span(text: &[u8], form: FieldForm) -> Result<Span, FieldFault>
    requires { IsForm form }
    ensures read { result ≡ span_read form text.now }
    ensures span { IfOk result (λ s. IsSpanOf form s) }
    ensures within { IfErr result (λ e. e.0 ≤ length text.now) }
{
    let Some((front, back)) = cut_at(text, b'/') else {
        let (first, last) = read_ends(text, form)?;
        return Ok(Span {
            first,
            last,
            step: 1,
        });
    };
    let (first, last) = read_stepped_ends(front, form)?;
    match read_step(back) {
        Ok(step) => Ok(Span { first, last, step }),
        Err((byte, fault)) => Err((front.len() + 1 + byte, fault)),
    }
}

// The first and the last number of an item without steps.
#[tactic(auto, unfolding(crate::specs::DialectFields::ends_read))]
fn read_ends(text: &[u8], form: FieldForm) -> Result<(u32, u32), FieldFault>
    requires { IsForm form }
    ensures read { result ≡ ends_read form text.now }
    ensures ends { IfOk result (λ ends. AreEndsOf form ends) }
    ensures within { IfErr result (λ e. e.0 ≤ length text.now) }
{
    if is_all(text, form) {
        return Ok((form.low, form.high));
    }
    if let Some((front, back)) = cut_at(text, b'-') {
        return read_range(front, back, form);
    }
    let number = read_number(text, form)?;
    Ok((number, number))
}

// The first and the last number in front of a step.
#[tactic(auto, unfolding(crate::specs::DialectFields::stepped_ends_read))]
pub(crate) fn read_stepped_ends(text: &[u8], form: FieldForm) -> Result<(u32, u32), FieldFault>
    requires { IsForm form }
    ensures read { result ≡ stepped_ends_read form text.now }
    ensures ends { IfOk result (λ ends. AreEndsOf form ends) }
    ensures within { IfErr result (λ e. e.0 ≤ length text.now) }
{
    if is_all(text, form) || cut_at(text, b'-').is_some() {
        return read_ends(text, form);
    }
    let number = read_number(text, form)?;
    Ok((number, form.high))
}

// The first and the last number of a range.
#[tactic(auto, unfolding(crate::specs::DialectFields::range_read))]
fn read_range(front: &[u8], back: &[u8], form: FieldForm) -> Result<(u32, u32), FieldFault>
    requires form { IsForm form }
    requires short { length front.now + 1 + length back.now < 2 ^ 63 }
    ensures read { result ≡ range_read form front.now back.now }
    ensures ends { IfOk result (λ ends. AreEndsOf form ends) }
    ensures within { IfErr result (λ e. e.0 ≤ length front.now + 1 + length back.now) }
{
    let first = read_number(front, form)?;
    match read_number(back, form) {
        Ok(last) if form.wraps || first <= last => Ok((first, last)),
        Ok(_) => Err((front.len() + 1, ScheduleFault::RangeTurnedRound)),
        Err((byte, fault)) => Err((front.len() + 1 + byte, fault)),
    }
}

// The number of a field that a text writes or names.
#[tactic(auto, unfolding(crate::specs::DialectFields::field_number_read))]
pub(crate) fn read_number(text: &[u8], form: FieldForm) -> Result<u32, FieldFault>
    requires { IsForm form }
    ensures read { result ≡ field_number_read form text.now }
    ensures number { IfOk result (λ n. (form.low ≤ n) × (n ≤ form.high)) }
    ensures within { IfErr result (λ e. e.0 ≡ 0) }
{
    match number_in(text, form) {
        Some(number) => Ok(number),
        None => Err((0, number_fault(text, form))),
    }
}

// The same, or none.
#[tactic(auto, unfolding(crate::specs::DialectFields::field_number))]
pub(crate) fn number_in(text: &[u8], form: FieldForm) -> Option<u32>
    requires { IsForm form }
    ensures value { result ≡ field_number form text.now }
    ensures low { IfSome result (λ n. form.low ≤ n) }
    ensures high { IfSome result (λ n. n ≤ form.high) }
{
    let number = number_written(text, form)?;
    if form.low <= number && number <= form.high {
        Some(number)
    } else {
        None
    }
}

// What is wrong with a text that is none of a field's numbers.
#[tactic(auto, unfolding(crate::specs::DialectFields::form_number_fault))]
pub(crate) fn number_fault(text: &[u8], form: FieldForm) -> ScheduleFault
    requires { IsForm form }
    ensures { result ≡ form_number_fault form text.now }
{
    if number_written(text, form).is_some() || are_digits(text) {
        ScheduleFault::OutOfRange
    } else if begins_with_name(text, form) {
        ScheduleFault::LongName
    } else {
        unspelled_fault(text)
    }
}

// The number that digits write or that has the name.
#[tactic(auto, unfolding(crate::specs::DialectFields::number_written))]
pub(crate) fn number_written(text: &[u8], form: FieldForm) -> Option<u32>
    requires { IsForm form }
    ensures { result ≡ number_written form text.now }
{
    if let Some(number) = read_digits(text, form.digits) {
        return Some(number);
    }
    form.names.number_of(text)
}

// Whether a text begins with a name.
fn begins_with_name(text: &[u8], form: FieldForm) -> bool
    ensures { result ≡ is_some (named_number form.names (take 3 text.now)) }
{
    form.names.number_of(&text[..text.len().min(3)]).is_some()
}

// The step that a text writes.
#[tactic(auto, unfolding(crate::specs::DialectFields::step_read, chrono_cron::specs::FieldTexts::step_of))]
pub(crate) fn read_step(text: &[u8]) -> Result<u32, FieldFault>
    ensures read { result ≡ step_read text.now }
    ensures some { IfOk result (λ n. 0 < n) }
    ensures within { IfErr result (λ e. e.0 ≡ 0) }
{
    match read_digits(text, STEP_DIGITS) {
        Some(step) if step >= 1 => Ok(step),
        _ => Err((0, step_fault(text))),
    }
}

// What is wrong with a step.
fn step_fault(text: &[u8]) -> ScheduleFault
    ensures { result ≡ step_fault text.now }
{
    if read_digits(text, STEP_DIGITS).is_some() {
        ScheduleFault::StepOfZero
    } else if are_digits(text) {
        ScheduleFault::OutOfRange
    } else {
        unspelled_fault(text)
    }
}

// What is wrong with a text that writes no number.
fn unspelled_fault(text: &[u8]) -> ScheduleFault
    ensures { result ≡ unspelled_fault text.now }
{
    match text {
        [] => ScheduleFault::Empty,
        [first, ..] if first.is_ascii_alphabetic() => ScheduleFault::UnknownName,
        _ => ScheduleFault::NotANumber,
    }
}

// Whether the text stands for all numbers of the field.
fn is_all(text: &[u8], form: FieldForm) -> bool
    ensures { result ≡ is_all form text.now }
{
    is_star(text) || (form.marks && is_mark(text))
}

// Whether the text is `?`.
pub(crate) fn is_mark(text: &[u8]) -> bool
    ensures { result ≡ is_mark text.now }
{
    text.len() == 1 && text[0] == b'?'
}

// Whether the text is `*`.
pub(crate) fn is_star(text: &[u8]) -> bool
    ensures { result ≡ is_star text.now }
{
    text.len() == 1 && text[0] == b'*'
}

// What stands before the first of these bytes, and what stands behind it; None if there is none.
#[tactic(auto, using(chrono_text::proofs::PieceLemmas::cut_whole))]
pub(crate) fn cut_at(text: &[u8], byte: u8) -> Option<(&[u8], &[u8])>
    ensures front { IfSome result (λ parts. parts.0.now ≡ before_byte byte text.now) }
    ensures back { IfSome result (λ parts. parts.1.now ≡ behind_byte byte text.now) }
    ensures some { IfSome result (λ _. stands_in byte text.now ≡ true) }
    ensures whole { IfSome result (λ parts. length parts.0.now + 1 + length parts.1.now ≡ length text.now) }
    ensures none { IfNone result (stands_in byte text.now ≡ false) }
{
    split_at_byte(text, byte)
}

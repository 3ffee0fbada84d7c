//! The two fields of days of Quartz. Each lists numbers, names a day, or is `?`.
ghost use Rattle.std.specs.Prelude.{◌≡◌, ◌<◌, ◌≤◌, ◌+◌, length, IfErr, IfSome, IfNone, Some, None};
ghost use Rattle.chrono_cron.specs.ScheduleTexts.{before_letter, is_last_workday_text};
ghost use Rattle.timed_cron.specs.DialectFields.{numbers_read};
ghost use Rattle.timed_cron.specs.QuartzTexts.{day_fault, days_from_end, days_read, every_quartz_day, last_weekday, quartz_letter_fault, listed_days, listed_unless, named_days, nearest_workday, quartz_nth_weekday, quartz_weekday_fault, weekdays_read};
ghost use Rattle.timed_cron.specs.Private.{IsForm};

use crate::dialect_field::{
    FieldFault, cut_at, is_mark, number_fault, number_in, number_written, read_items,
};
use crate::field_form::{FieldForm, Span};
use crate::quartz_form::{days, plain, weekdays};
use crate::span_set::SpanSet;
use chrono_cron::{MonthDays, ScheduleFault};
use chrono_sets::NumberSet;
use chrono_text::{begins_but_for_case, same_but_for_case, split_at_byte};

// The place of Saturday, from 0 for Sunday.
const SATURDAY: u32 = 6;

// The days that a field lists, and that which it names.
#[derive(Clone, Copy)]
pub(crate) struct DaySets {
    pub(crate) numbers: NumberSet,
    pub(crate) named: MonthDays,
}

// The days of the month.
#[tactic(auto, unfolding(crate::specs::QuartzTexts::days_read))]
pub(crate) fn read_days(text: &[u8]) -> Result<DaySets, FieldFault>
    ensures read { result ≡ days_read text.now }
    ensures within { IfErr result (λ e. e.0 ≤ length text.now) }
{
    if is_mark(text) {
        return Ok(every_day(days()));
    }
    if let Some(number) = days_from_end(text) {
        let mut named = MonthDays::none();
        named.from_end = NumberSet::single(number);
        return Ok(named_days(named));
    }
    if is_last_workday(text) {
        let mut named = MonthDays::none();
        named.last_workday = true;
        return Ok(named_days(named));
    }
    if let Some(number) = nearest_workday(text) {
        let mut named = MonthDays::none();
        named.nearest_workdays = NumberSet::single(number);
        return Ok(named_days(named));
    }
    read_listed(text, days(), day_fault(text))
}

// The days of the week.
#[tactic(auto, unfolding(crate::specs::QuartzTexts::weekdays_read))]
pub(crate) fn read_weekdays(text: &[u8]) -> Result<DaySets, FieldFault>
    ensures read { result ≡ weekdays_read text.now }
    ensures within { IfErr result (λ e. e.0 ≤ length text.now) }
{
    if is_mark(text) {
        return Ok(every_day(weekdays()));
    }
    if same_but_for_case(text, b"L") {
        return Ok(listed_days(NumberSet::single(SATURDAY)));
    }
    if let Some(number) = last_weekday(text) {
        let mut named = MonthDays::none();
        named.last_weekdays = NumberSet::single(number - 1);
        return Ok(named_days(named));
    }
    if let Some(number) = nth_weekday(text) {
        let mut named = MonthDays::none();
        named.nth_weekdays = NumberSet::single(number);
        return Ok(named_days(named));
    }
    read_listed(text, weekdays(), weekday_fault(text))
}

// The numbers of a field, unless something is wrong with a day that it names.
fn read_listed(
    text: &[u8],
    form: FieldForm,
    fault: Option<FieldFault>,
) -> Result<DaySets, FieldFault>
    requires form { IsForm form }
    requires places { form.high < form.base + 64 }
    requires fault { IfSome fault (λ e. e.0 ≤ length text.now) }
    ensures read { result ≡ listed_unless fault (numbers_read form text.now) }
    ensures within { IfErr result (λ e. e.0 ≤ length text.now) }
{
    if let Some(fault) = fault {
        return Err(fault);
    }
    match read_items(text, form, NumberSet::none()) {
        Ok(numbers) => Ok(listed_days(numbers)),
        Err(fault) => Err(fault),
    }
}

// All numbers of a field.
fn every_day(form: FieldForm) -> DaySets
    requires form { IsForm form }
    requires places { form.high < form.base + 64 }
    ensures { result ≡ every_quartz_day form }
{
    let all = Span {
        first: form.low,
        last: form.high,
        step: 1,
    };
    listed_days(NumberSet::none().with_span(form, all))
}

// Numbers, and no day that is named.
fn listed_days(numbers: NumberSet) -> DaySets
    ensures { result ≡ listed_days numbers }
{
    DaySets {
        numbers,
        named: MonthDays::none(),
    }
}

// A day that is named, and no numbers.
fn named_days(named: MonthDays) -> DaySets
    ensures { result ≡ named_days named }
{
    DaySets {
        numbers: NumberSet::none(),
        named,
    }
}

// `L` as 0, and `L-3` as 3: how many days of the month follow the day.
#[tactic(auto, unfolding(crate::specs::QuartzTexts::days_from_end))]
fn days_from_end(text: &[u8]) -> Option<u32>
    ensures number { result ≡ days_from_end text.now }
    ensures small { IfSome result (λ n. n < 64) }
{
    if same_but_for_case(text, b"L") {
        return Some(0);
    }
    let len = text.len().min(2);
    if same_but_for_case(&text[..len], b"L-") {
        return number_in(&text[len..], plain(1, 30));
    }
    None
}

// Whether the text is `LW`.
#[tactic(auto, unfolding(chrono_cron::specs::ScheduleTexts::is_last_workday_text))]
fn is_last_workday(text: &[u8]) -> bool
    ensures { result ≡ is_last_workday_text text.now }
{
    same_but_for_case(text, b"LW")
}

// `15W` as 15: the day whose nearest workday it is.
#[tactic(auto, unfolding(crate::specs::QuartzTexts::nearest_workday))]
fn nearest_workday(text: &[u8]) -> Option<u32>
    ensures number { result ≡ nearest_workday text.now }
    ensures small { IfSome result (λ n. n < 64) }
{
    let Some(number) = before_letter(text, b'w') else {
        return None;
    };
    number_in(number, plain(1, 31))
}

// `6L` as 6: the weekday, from 1 for Sunday.
#[tactic(auto, unfolding(crate::specs::QuartzTexts::last_weekday))]
fn last_weekday(text: &[u8]) -> Option<u32>
    ensures number { result ≡ last_weekday text.now }
    ensures some { IfSome result (λ n. 1 ≤ n) }
    ensures small { IfSome result (λ n. n < 64) }
{
    let Some(weekday) = before_letter(text, b'l') else {
        return None;
    };
    number_in(weekday, weekdays())
}

// `6#3` as 7 * (3 - 1) + (6 - 1).
#[tactic(auto, unfolding(crate::specs::QuartzTexts::quartz_nth_weekday))]
fn nth_weekday(text: &[u8]) -> Option<u32>
    ensures number { result ≡ quartz_nth_weekday text.now }
    ensures small { IfSome result (λ n. n < 64) }
{
    let Some((front, back)) = split_at_byte(text, b'#') else {
        return None;
    };
    let Some(weekday) = number_in(front, weekdays()) else {
        return None;
    };
    let Some(nth) = number_in(back, plain(1, 5)) else {
        return None;
    };
    Some(7 * (nth - 1) + (weekday - 1))
}

// What is wrong with the number behind `L-`, or with that in front of `W`.
#[tactic(auto, unfolding(crate::specs::QuartzTexts::day_fault))]
fn day_fault(text: &[u8]) -> Option<FieldFault>
    ensures value { result ≡ day_fault text.now }
    ensures within { IfSome result (λ e. e.0 ≤ length text.now) }
{
    if text.len() >= 2 && begins_but_for_case(text, b"L-") {
        return Some((2, number_fault(&text[2..], plain(1, 30))));
    }
    letter_fault(text, b'w', plain(1, 31))
}

// What is wrong around a `#`, or with the number in front of `L`.
#[tactic(auto, unfolding(crate::specs::QuartzTexts::quartz_weekday_fault))]
fn weekday_fault(text: &[u8]) -> Option<FieldFault>
    ensures value { result ≡ quartz_weekday_fault text.now }
    ensures within { IfSome result (λ e. e.0 ≤ length text.now) }
{
    let Some((front, back)) = cut_at(text, b'#') else {
        return letter_fault(text, b'l', weekdays());
    };
    if number_in(front, weekdays()).is_none() {
        return Some((0, number_fault(front, weekdays())));
    }
    Some((front.len() + 1, number_fault(back, plain(1, 5))))
}

// What is wrong with a number in front of a letter that ends the text.
fn letter_fault(text: &[u8], letter: u8, form: FieldForm) -> Option<FieldFault>
    requires letter { 0 < letter }
    requires form { IsForm form }
    ensures value { result ≡ quartz_letter_fault form letter text.now }
    ensures within { IfSome result (λ e. e.0 ≡ 0) }
{
    let Some(number) = before_letter(text, letter) else {
        return None;
    };
    if number_written(number, form).is_some() {
        return Some((0, ScheduleFault::OutOfRange));
    }
    None
}

// What stands before a letter that ends the text, in either case.
fn before_letter(text: &[u8], letter: u8) -> Option<&[u8]>
    requires { 0 < letter }
    ensures some { IfSome result (λ front. before_letter letter text.now ≡ Some front.now) }
    ensures none { IfNone result (before_letter letter text.now ≡ None) }
{
    if let [front @ .., last] = text {
        if last.to_ascii_lowercase() == letter {
            return Some(front);
        }
    }
    None
}

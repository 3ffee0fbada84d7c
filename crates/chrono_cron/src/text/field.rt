//! The reading of one field of a schedule's text.
ghost use Rattle.std.specs.Prelude.{◌≡◌, ◌<◌, ◌≤◌, ◌==◌, ℕ, IfSome};
ghost use Rattle.std.specs.Option.{option_map};
ghost use Rattle.chrono_sets.specs.FiniteSets.{has};
ghost use Rattle.chrono_sets.specs.Steps.{is_by_steps};
ghost use Rattle.chrono_cron.specs.FieldTexts.{field_lists, is_star, item_lists, number_between, range_of, item_span, spelled_number, step_of};

use crate::text::number_names::Names;
use chrono_sets::NumberSet;
use chrono_text::{read_digits, split_at_byte};

pub(crate) const COMMA: u8 = b',';

pub(crate) const SLASH: u8 = b'/';

pub(crate) const DASH: u8 = b'-';

const STAR: u8 = b'*';

// The most digits that a number has, and a step.
const NUMBER_DIGITS: usize = 2;

pub(crate) const STEP_DIGITS: usize = 3;

/// Returns the numbers that the field `text` lists, each from `low` to `high`.
///
/// Returns `None` if `text` is no such field. Requires `high < 64`.
///
/// ```
/// let hours = read_field(b"8-18/2", Names::Numbers, 0, 23)?;
/// (hours.contains(10), hours.contains(11)) // (true, false)
/// read_field(b"8-24", Names::Numbers, 0, 23).is_none() // true
/// ```
///
/// A field is one item or more, with commas between them. These are the items:
///
/// - `*`: all numbers;
/// - `a`: a number;
/// - `a-b`: a range, whose end is not below its beginning;
/// - `*/n` and `a-b/n`: every `n`-th number of a range, from its beginning on. `n` is 1 to 999.
///
/// Other numbers have one or two digits. A name from `names`, in letters of any case, may replace its number.
/// A step has no name. The name `sun` is 0 and never 7. So `sat-sun` runs backwards and is refused: write `6-7`.
pub fn read_field(text: &[u8], names: Names, low: u32, high: u32) -> Option<NumberSet>
    requires { high < 64 }
    ensures { (k : ℕ) → option_map (λ set. has set k) result ≡ field_lists names low high text.now k }
{
    let mut set = NumberSet::none();
    let mut rest = text;
    while let Some((item, behind)) = split_at_byte(rest, COMMA) {
        let Some(numbers) = read_item(item, names, low, high) else {
            return None;
        };
        set = set.union(numbers);
        rest = behind;
    }
    let Some(numbers) = read_item(rest, names, low, high) else {
        return None;
    };
    Some(set.union(numbers))
}

// The numbers that an item of a field lists.
pub(crate) fn read_item(text: &[u8], names: Names, low: u32, high: u32) -> Option<NumberSet>
    requires { high < 64 }
    ensures { (k : ℕ) → option_map (λ set. has set k) result ≡ item_lists names low high text.now k }
{
    let Some((front, behind)) = split_at_byte(text, SLASH) else {
        return read_by_ones(text, names, low, high);
    };
    let Some((first, last)) = read_range(front, names, low, high) else {
        return None;
    };
    let Some(step) = read_step(behind) else {
        return None;
    };
    Some(NumberSet::by_steps(first, last, step))
}

// The numbers that an item without steps lists.
fn read_by_ones(text: &[u8], names: Names, low: u32, high: u32) -> Option<NumberSet>
    requires { high < 64 }
    ensures { (k : ℕ) → option_map (λ set. has set k) result
        ≡ option_map (λ span. is_by_steps span.0 span.1 1 k) (item_span names low high text.now) }
{
    let Some((first, last)) = read_span(text, names, low, high) else {
        return None;
    };
    Some(numbers_between(first, last))
}

// The numbers from the first to the last, found without a loop; none if the last is below the first.
fn numbers_between(first: u32, last: u32) -> NumberSet
    requires { last < 64 }
    ensures { (k : ℕ) → has result k ≡ is_by_steps first last 1 k }
{
    if last < first {
        return NumberSet::none();
    }
    NumberSet::range(first, last).with(last)
}

// The step that one digit, two or three write: a number above 0.
#[tactic(auto, unfolding(crate::specs::FieldTexts::step_of))]
fn read_step(text: &[u8]) -> Option<u32>
    ensures step { result ≡ step_of text.now }
    ensures some { IfSome result (λ n. 0 < n) }
{
    match read_digits(text, STEP_DIGITS) {
        Some(step) if step >= 1 => Some(step),
        _ => None,
    }
}

// The first and the last number of an item without steps.
fn read_span(text: &[u8], names: Names, low: u32, high: u32) -> Option<(u32, u32)>
    requires { high < 64 }
    ensures span { result ≡ item_span names low high text.now }
    ensures small { IfSome result (λ span. span.1 < 64) }
{
    if let Some(number) = read_number(text, names, low, high) {
        return Some((number, number));
    }
    read_range(text, names, low, high)
}

// The first and the last number of `*` or `a-b`.
pub(crate) fn read_range(text: &[u8], names: Names, low: u32, high: u32) -> Option<(u32, u32)>
    requires { high < 64 }
    ensures range { result ≡ range_of names low high text.now }
    ensures small { IfSome result (λ span. span.1 < 64) }
{
    if is_star(text) {
        return Some((low, high));
    }
    let Some((front, behind)) = split_at_byte(text, DASH) else {
        return None;
    };
    let Some(first) = read_number(front, names, low, high) else {
        return None;
    };
    let Some(last) = read_number(behind, names, first, high) else {
        return None;
    };
    Some((first, last))
}

// Whether the text is `*`.
fn is_star(text: &[u8]) -> bool
    ensures { result ≡ is_star text.now }
{
    text.len() == 1 && text[0] == STAR
}

// The number from `low` to `high` that a text writes or names.
pub(crate) fn read_number(text: &[u8], names: Names, low: u32, high: u32) -> Option<u32>
    ensures number { result ≡ number_between names low high text.now }
    ensures low { IfSome result (λ n. low ≤ n) }
    ensures high { IfSome result (λ n. n ≤ high) }
{
    let Some(number) = spelled_number(text, names) else {
        return None;
    };
    if low <= number && number <= high {
        Some(number)
    } else {
        None
    }
}

// The number that one digit or two write, or that has the name.
pub(crate) fn spelled_number(text: &[u8], names: Names) -> Option<u32>
    ensures { result ≡ spelled_number names text.now }
{
    if let Some(number) = read_digits(text, NUMBER_DIGITS) {
        return Some(number);
    }
    names.number_of(text)
}

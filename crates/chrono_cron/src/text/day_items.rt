//! Items of the two fields of days that name days of a month. They are `L`, `L-k`, `LW`, `kW`, `dL` and `d#k`.
ghost use Rattle.std.specs.Prelude.{◌≡◌, ◌<◌, ◌-◌, ◌==◌, IfSome, IfNone, is_some};
ghost use Rattle.std.specs.Char.{to_ascii_lowercase};
ghost use Rattle.chrono_cron.specs.ScheduleTexts.{before_letter, from_end_of, is_last_workday_text, last_weekday_of, names_by_place, names_by_weekday, nearest_workday_of, nth_weekday_of, spelled_weekday};

use crate::text::field::read_number;
use crate::text::number_names::Names;
use chrono_text::{same_but_for_case, split_at_byte};

pub(crate) const SHARP: u8 = b'#';

// `L` as 0 and `L-k` as k: how many days of the month follow the day.
#[tactic(auto, unfolding(crate::specs::ScheduleTexts::from_end_of))]
pub(crate) fn from_end_of(text: &[u8]) -> Option<u32>
    ensures number { result ≡ from_end_of text.now }
    ensures small { IfSome result (λ n. n < 64) }
{
    if same_but_for_case(text, b"L") {
        return Some(0);
    }
    let len = text.len().min(2);
    if same_but_for_case(&text[..len], b"L-") {
        return read_number(&text[len..], Names::Numbers, 1, 30);
    }
    None
}

// Whether the text is `LW`.
#[tactic(auto, unfolding(crate::specs::ScheduleTexts::is_last_workday_text))]
pub(crate) fn is_last_workday(text: &[u8]) -> bool
    ensures { result ≡ is_last_workday_text text.now }
{
    same_but_for_case(text, b"LW")
}

// `kW` as k: the day whose nearest workday it is.
#[tactic(auto, unfolding(crate::specs::ScheduleTexts::nearest_workday_of))]
pub(crate) fn nearest_workday_of(text: &[u8]) -> Option<u32>
    ensures number { result ≡ nearest_workday_of text.now }
    ensures small { IfSome result (λ n. n < 64) }
{
    let Some(number) = before_letter(text, b'w') else {
        return None;
    };
    read_number(number, Names::Numbers, 1, 31)
}

// `dL` as d: the weekday, from 0 for Sunday.
#[tactic(auto, unfolding(crate::specs::ScheduleTexts::last_weekday_of))]
pub(crate) fn last_weekday_of(text: &[u8]) -> Option<u32>
    ensures number { result ≡ last_weekday_of text.now }
    ensures small { IfSome result (λ n. n < 64) }
{
    let Some(weekday) = before_letter(text, b'l') else {
        return None;
    };
    spelled_weekday(weekday)
}

// `d#k` as 7 * (k - 1) + d.
#[tactic(auto, unfolding(crate::specs::ScheduleTexts::nth_weekday_of))]
pub(crate) fn nth_weekday_of(text: &[u8]) -> Option<u32>
    ensures number { result ≡ nth_weekday_of text.now }
    ensures small { IfSome result (λ n. n < 64) }
{
    let Some((front, behind)) = split_at_byte(text, SHARP) else {
        return None;
    };
    let Some(weekday) = spelled_weekday(front) else {
        return None;
    };
    let Some(nth) = read_number(behind, Names::Numbers, 1, 5) else {
        return None;
    };
    Some(7 * (nth - 1) + weekday)
}

// Whether an item names a day by its place in the month.
#[tactic(auto, unfolding(crate::specs::ScheduleTexts::names_by_place))]
pub(crate) fn names_by_place(item: &[u8]) -> bool
    ensures { result ≡ names_by_place item.now }
{
    from_end_of(item).is_some() || is_last_workday(item) || nearest_workday_of(item).is_some()
}

// Whether an item names a day by its weekday.
#[tactic(auto, unfolding(crate::specs::ScheduleTexts::names_by_weekday))]
pub(crate) fn names_by_weekday(item: &[u8]) -> bool
    ensures { result ≡ names_by_weekday item.now }
{
    last_weekday_of(item).is_some() || nth_weekday_of(item).is_some()
}

// The weekday of a number or a name, from 0 for Sunday, for which 7 stands too.
pub(crate) fn spelled_weekday(text: &[u8]) -> Option<u32>
    ensures number { result ≡ spelled_weekday text.now }
    ensures small { IfSome result (λ d. d < 7) }
{
    let Some(number) = read_number(text, Names::Weekdays, 0, 7) else {
        return None;
    };
    Some(number % 7)
}

// What stands before a letter that ends the text, in either case.
pub(crate) fn before_letter(text: &[u8], letter: u8) -> Option<&[u8]>
    requires { 0 < letter }
    ensures some { IfSome result (λ front. before_letter letter text.now ≡ Some front.now) }
    ensures none { IfNone result (before_letter letter text.now ≡ None) }
{
    if let [front @ .., last] = text {
        if last.to_ascii_lowercase() == letter {
            return Some(front);
        }
    }
    None
}

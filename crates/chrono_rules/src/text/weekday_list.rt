//! The weekdays that BYDAY lists, as texts.
ghost use Rattle.std.specs.Prelude.{◌≡◌, ◌<◌};
ghost use Rattle.chrono_rules.specs.NumberLists.{weekdays_of, with_each, with_nth, with_weekday, with_weekday_text};

use crate::text::number_list::{SignedNumber, read_signed};
use crate::weekday_places::{WeekdayPlaces, numbers_of};
use chrono_datetime::Weekday;
use chrono_text::first_piece;

/// Returns the weekdays that a BYDAY list names, such as `TU,SU` or `1MO,-1FR` (RFC 5545, 3.3.10).
///
/// `text` is items with commas between them. Each is the two letters of a weekday, of either case.
/// A number from 1 to 53 may stand before them, with a sign or none. Returns `None` if `text` is no such list.
///
/// ```
/// read_weekdays(b"TU,SU")?.every.contains(6) // true
/// read_weekdays(b"54MO") // None
/// ```
pub fn read_weekdays(text: &[u8]) -> Option<WeekdayPlaces>
    ensures { result ≡ weekdays_of text.now }
{
    let mut days = WeekdayPlaces::none();
    let mut rest = text;
    loop {
        let (first, behind) = first_piece(rest, b',');
        days = with_text(days, first)?;
        match behind {
            [_, next @ ..] => rest = next,
            [] => return Some(days),
        }
    }
}

// The days and those that the text names.
#[tactic(auto, unfolding(crate::specs::NumberLists::listed_weekday, crate::specs::NumberLists::with_weekday_text))]
pub(crate) fn with_text(days: WeekdayPlaces, text: &[u8]) -> Option<WeekdayPlaces>
    ensures { result ≡ with_weekday_text days text.now }
{
    let (number, letters) = text.split_at(text.len().saturating_sub(2));
    match Weekday::from_letters(letters, 2) {
        Some(weekday) => with_weekday(days, number, weekday.num_days_from_monday() as usize),
        None => None,
    }
}

// The days and those of the weekday that the number names: each, or that one.
#[tactic(auto, unfolding(crate::specs::NumberLists::with_weekday))]
fn with_weekday(days: WeekdayPlaces, number: &[u8], weekday: usize) -> Option<WeekdayPlaces>
    requires { weekday < 7 }
    ensures { result ≡ with_weekday days number.now weekday }
{
    if number.is_empty() {
        return Some(with_each(days, weekday));
    }
    match read_signed(number, 2, 53) {
        Some(number) => Some(with_nth(days, weekday, number)),
        None => None,
    }
}

// The days and each of the weekday.
fn with_each(days: WeekdayPlaces, weekday: usize) -> WeekdayPlaces
    requires { weekday < 7 }
    ensures { result ≡ with_each days weekday }
{
    let mut days = days;
    days.every = days.every.with(weekday as u32);
    days
}

// The days and the one of the weekday with that number.
fn with_nth(days: WeekdayPlaces, weekday: usize, number: SignedNumber) -> WeekdayPlaces
    requires weekday { weekday < 7 }
    requires small { number.number < 64 }
    ensures { result ≡ with_nth days weekday number }
{
    let mut days = days;
    if number.from_end {
        days.back[weekday] = numbers_of(&days.back, weekday).with(number.number);
    } else {
        days.front[weekday] = numbers_of(&days.front, weekday).with(number.number);
    }
    days
}

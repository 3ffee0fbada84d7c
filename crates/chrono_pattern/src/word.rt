//! Writes the words of a date-time.
ghost use Rattle.std.specs.Prelude.{◌≡◌, ◌+◌, ◌≤◌, ◌++◌, length};
ghost use Rattle.chrono_datetime.specs.Days.{month_of};
ghost use Rattle.chrono_datetime.specs.Month.{month_from_number, month_name};
ghost use Rattle.chrono_datetime.specs.Names.{weekday_name};
ghost use Rattle.chrono_datetime.specs.Weeks.{weekday_of};
ghost use Rattle.chrono_pattern.specs.Words.{half_text, small_half_text, word_text};

use crate::item::WordField;
use chrono_datetime::{Datelike, Month, NaiveDate, NaiveDateTime, NaiveTime, Timelike};
use chrono_text::Text;

// Puts a word of a date-time.
#[tactic(auto, unfolding(crate::specs::Words::word_text))]
#[inline(never)]
pub(crate) fn put_word<const N: usize>(text: &mut Text<N>, word: WordField, moment: NaiveDateTime)
    requires room { length text.old + 9 ≤ N }
    ensures text { text.new ≡ text.old ++ word_text word moment }
    ensures fits { length text.new ≤ length text.old + 9 }
{
    match word {
        WordField::MonthName => text.push_text(month_name(moment.date())),
        WordField::MonthLetters => text.push_text(&month_name(moment.date())[..3]),
        WordField::WeekdayName => text.push_text(weekday_name(moment.date())),
        WordField::WeekdayLetters => moment.date().weekday().put_into(text),
        WordField::Half => text.push_text(half(moment.time())),
        WordField::SmallHalf => text.push_text(small_half(moment.time())),
    }
}

// The English name of a date's month.
pub(crate) fn month_name(date: NaiveDate) -> &'static [u8]
    ensures name { result.now ≡ month_name (month_from_number (month_of date)) }
    ensures least { 3 ≤ length result.now }
    ensures most { length result.now ≤ 9 }
{
    Month::from_u32(date.month()).unwrap().name().as_bytes()
}

// The English name of a date's weekday.
fn weekday_name(date: NaiveDate) -> &'static [u8]
    ensures name { result.now ≡ weekday_name (weekday_of date) }
    ensures most { length result.now ≤ 9 }
{
    date.weekday().name().as_bytes()
}

// The half of the day.
pub(crate) fn half(time: NaiveTime) -> &'static [u8]
    ensures text { result.now ≡ half_text time }
    ensures short { length result.now ≤ 2 }
{
    if time.hour() < 12 { b"AM" } else { b"PM" }
}

// The half of the day in small letters.
fn small_half(time: NaiveTime) -> &'static [u8]
    ensures text { result.now ≡ small_half_text time }
    ensures short { length result.now ≤ 2 }
{
    if time.hour() < 12 { b"am" } else { b"pm" }
}

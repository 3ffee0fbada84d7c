//! The names of weekdays and months.
ghost use Rattle.std.specs.Prelude.{◌≡◌, Ok, IfOk, IfErr};
ghost use Rattle.chrono_datetime.specs.Names.{IsMonthText, IsWeekdayText};
ghost use Rattle.chrono_datetime.specs.declared.Month.{Month};
ghost use Rattle.chrono_datetime.specs.declared.Weekday.{Weekday};
ghost use Rattle.chrono_reading.specs.NameErrors.{in_common, month_error, more_of, weekday_error};

use crate::error::{ReadCause, ReadError, error_at};
use chrono_datetime::{Month, Weekday};

/// Reads the name of a weekday, such as `Fri`, `fri` or `FRIDAY`. Returns the weekday.
///
/// If `text` is no such name, returns an error with the first byte that no name has there, as a [`ReadError`].
///
/// ```
/// read_weekday(b"fri").ok() // Some(Fri)
/// read_weekday(b"Fryday").err() // Some(ReadError { cause: UnknownName, byte: 2 })
/// ```
///
/// A name is the whole English name or its first three letters. Its letters may be in either case.
pub fn read_weekday(text: &[u8]) -> Result<Weekday, ReadError>
    ensures read { IfOk result (λ d. IsWeekdayText text.now d) }
    ensures every { (d : Weekday) → IsWeekdayText text.now d → result ≡ Ok d }
    ensures error { IfErr result (λ e. e ≡ weekday_error text.now) }
{
    match Weekday::from_name(text) {
        Some(weekday) => Ok(weekday),
        None => Err(weekday_error(text)),
    }
}

/// Reads the name of a month, such as `Feb`, `feb` or `FEBRUARY`. Returns the month.
///
/// If `text` is no such name, returns an error with the first byte that no name has there, as a [`ReadError`].
///
/// ```
/// read_month(b"FEBRUARY").ok() // Some(February)
/// read_month(b"Febr").err() // Some(ReadError { cause: UnknownName, byte: 4 })
/// ```
///
/// A name is the whole English name or its first three letters. Its letters may be in either case.
pub fn read_month(text: &[u8]) -> Result<Month, ReadError>
    ensures read { IfOk result (λ m. IsMonthText text.now m) }
    ensures every { (m : Month) → IsMonthText text.now m → result ≡ Ok m }
    ensures error { IfErr result (λ e. e ≡ month_error text.now) }
{
    match Month::from_name(text) {
        Some(month) => Ok(month),
        None => Err(month_error(text)),
    }
}

// Why a text names no weekday.
#[cold]
#[tactic(auto, unfolding(crate::specs::NameErrors::weekday_error))]
fn weekday_error(text: &[u8]) -> ReadError
    ensures { result ≡ weekday_error text.now }
{
    let most = in_common(Weekday::Sun.name().as_bytes(), text);
    let most = more_of(in_common(Weekday::Sat.name().as_bytes(), text), most);
    let most = more_of(in_common(Weekday::Fri.name().as_bytes(), text), most);
    let most = more_of(in_common(Weekday::Thu.name().as_bytes(), text), most);
    let most = more_of(in_common(Weekday::Wed.name().as_bytes(), text), most);
    let most = more_of(in_common(Weekday::Tue.name().as_bytes(), text), most);
    let most = more_of(in_common(Weekday::Mon.name().as_bytes(), text), most);
    error_at(ReadCause::UnknownName, most)
}

// Why a text names no month.
#[cold]
#[tactic(auto, unfolding(crate::specs::NameErrors::month_error))]
fn month_error(text: &[u8]) -> ReadError
    ensures { result ≡ month_error text.now }
{
    let most = in_common(Month::December.name().as_bytes(), text);
    let most = more_of(in_common(Month::November.name().as_bytes(), text), most);
    let most = more_of(in_common(Month::October.name().as_bytes(), text), most);
    let most = more_of(in_common(Month::September.name().as_bytes(), text), most);
    let most = more_of(in_common(Month::August.name().as_bytes(), text), most);
    let most = more_of(in_common(Month::July.name().as_bytes(), text), most);
    let most = more_of(in_common(Month::June.name().as_bytes(), text), most);
    let most = more_of(in_common(Month::May.name().as_bytes(), text), most);
    let most = more_of(in_common(Month::April.name().as_bytes(), text), most);
    let most = more_of(in_common(Month::March.name().as_bytes(), text), most);
    let most = more_of(in_common(Month::February.name().as_bytes(), text), most);
    let most = more_of(in_common(Month::January.name().as_bytes(), text), most);
    error_at(ReadCause::UnknownName, most)
}

// The greater of two numbers.
#[tactic(auto, unfolding(crate::specs::NameErrors::more_of))]
fn more_of(one: usize, other: usize) -> usize
    ensures { result ≡ more_of one other }
{
    if one < other { other } else { one }
}

// How many bytes a name and a text begin with in common, in letters of any case.
fn in_common(name: &[u8], text: &[u8]) -> usize
    ensures { result ≡ in_common name.now text.now }
{
    let mut len = 0;
    while len < name.len() && len < text.len() {
        if name[len].to_ascii_lowercase() != text[len].to_ascii_lowercase() {
            return len;
        }
        len += 1;
    }
    len
}

//! `CalendarTime`: a date or a date-time, as a calendar's text has it.
ghost use Rattle.std.specs.Prelude.{◌≡◌, ◌≤◌, ◌+◌};
ghost use Rattle.chrono_rules.specs.RuleTexts.{date_of};
ghost use Rattle.calendar_text.specs.CalendarTimes.{clock_of, is_letter, moment_of, time_of};

use chrono_datetime::{AndTime, NaiveDate, NaiveDateTime, NaiveTime};
use chrono_text::read_digits;

/// A date or a date-time of a calendar's text (RFC 5545, sections 3.3.4 and 3.3.5).
#[derive(Clone, Copy, PartialEq, Eq, Debug)]
pub enum CalendarTime {
    /// A date, such as `20240131`.
    Date(NaiveDate),
    /// A local time, such as `20240131T090000`. The line says in which zone, or none.
    Local(NaiveDateTime),
    /// A time in UTC, such as `20240131T090000Z`.
    Utc(NaiveDateTime),
}

/// Returns the date or date-time that all of `text` writes.
///
/// Returns `None` if it is none, or if there is no such date or time of day.
/// Second 60 is read as second 59, as RFC 5545 (3.3.12) asks of software without leap seconds.
///
/// ```
/// read_calendar_time(b"20240131").is_some() // true
/// read_calendar_time(b"20240131T090000Z").is_some() // true
/// read_calendar_time(b"20240230").is_none() // true
/// ```
#[tactic(auto, unfolding(crate::specs::CalendarTimes::time_of))]
pub fn read_calendar_time(text: &[u8]) -> Option<CalendarTime>
    ensures { result ≡ time_of text.now }
{
    match text.len() {
        8 => Some(CalendarTime::Date(read_date(text)?)),
        15 => Some(CalendarTime::Local(read_moment(text)?)),
        16 => {
            if !is_letter(text[15], b'Z') {
                return None;
            }
            Some(CalendarTime::Utc(read_moment(&text[..15])?))
        }
        _ => None,
    }
}

// The date-time that a date, a `T` and a time of day write.
#[tactic(auto, unfolding(crate::specs::CalendarTimes::moment_of))]
fn read_moment(text: &[u8]) -> Option<NaiveDateTime>
    ensures { result ≡ moment_of text.now }
{
    if text.len() != 15 || !is_letter(text[8], b'T') {
        return None;
    }
    let date = read_date(&text[..8])?;
    let time = read_clock(&text[9..])?;
    Some(date.and_time(time))
}

// The date that eight digits write.
#[tactic(auto, unfolding(chrono_rules::specs::RuleTexts::date_of))]
fn read_date(text: &[u8]) -> Option<NaiveDate>
    ensures { result ≡ date_of text.now }
{
    if text.len() != 8 {
        return None;
    }
    let year = read_digits(&text[..4], 4)?;
    let month = read_digits(&text[4..6], 2)?;
    let day = read_digits(&text[6..], 2)?;
    NaiveDate::from_ymd_opt(year as i32, month, day)
}

// The time of day that six digits write.
#[tactic(auto, unfolding(crate::specs::CalendarTimes::clock_of))]
fn read_clock(text: &[u8]) -> Option<NaiveTime>
    ensures { result ≡ clock_of text.now }
{
    if text.len() != 6 {
        return None;
    }
    let hour = read_digits(&text[..2], 2)?;
    let minute = read_digits(&text[2..4], 2)?;
    let second = read_digits(&text[4..], 2)?;
    if second > 60 {
        return None;
    }
    NaiveTime::from_hms_opt(hour, minute, second.min(59))
}

// Whether a byte is this capital letter, or the small one.
#[inline]
fn is_letter(byte: u8, letter: u8) -> bool
    requires { (65 ≤ letter) × (letter ≤ 90) }
    ensures { result ≡ is_letter letter byte }
{
    byte == letter || byte == letter + 32
}

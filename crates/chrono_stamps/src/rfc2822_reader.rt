//! Reads date-times with their offset (RFC 2822).
ghost use Rattle.std.specs.Prelude.{◌≡◌, ◌↔◌, ◌≤◌, ◌⊎◌, ◌∷◌, [], ℕ, ℤ, Some, IfSome, IfNone, IfOk, IfErr, IsOkAnd, IsSomeAnd, IsTrue, ◌-ℤ◌, length};
ghost use Rattle.chrono_datetime.specs.Moment.{Moment};
ghost use Rattle.chrono_datetime.specs.Time.{TimeOfDay};
ghost use Rattle.chrono_instant.specs.Instants.{IsEpochSecond, epoch_second};
ghost use Rattle.chrono_instant.specs.Offsets.{moment_ahead};
ghost use Rattle.chrono_stamps.specs.MailErrors.{rfc2822_error, year_of_word};
ghost use Rattle.chrono_stamps.specs.Rfc2822.{IsDayOfWeek, IsMailDate, IsMailTime, IsMailYear, IsMailZone, IsRfc2822Text, hours_behind, is_military, second_shown, year_meant};

use crate::mail_words::{is_gap, mail_words};
use crate::rfc2822_error::mail_error;
use crate::rfc3339_reader::six_bytes;
use chrono_datetime::{Datelike, MAX_YEAR, Month, NaiveDate, NaiveDateTime, NaiveTime, Weekday};
use chrono_reading::{ReadError, read_time};
use chrono_text::{read_count, read_digits, same_but_for_case};
use chrono_zoned::{DateTime, FixedOffset, InZone};

// The last year of the calendar.
const LAST_YEAR: u32 = MAX_YEAR as u32;

/// Reads a date, a time of day and an offset (RFC 2822, 3.3 and 4.3), such as `Thu, 29 Feb 2024 15:00:00 +0530`. Returns the
/// instant, in a zone of that offset.
///
/// If `text` is none, returns what is wrong and at which byte, as a [`ReadError`]: what is wrong first, from left to right. The
/// length of the month and the weekday are checked once the year is read.
///
/// ```
/// parse_from_rfc2822(b"Fri, 21 Nov 1997 09:55:06 -0600").ok()?.to_utc() // 1997-11-21T15:55:06+00:00
/// parse_from_rfc2822(b"21 Nov 97 09:55 GMT").ok() // Some(1997-11-21T09:55:00+00:00)
/// parse_from_rfc2822(b"Thu, 21 Nov 1997 09:55:06 -0600").err() // Some(ReadError { cause: NotThisForm, byte: 0 })
/// ```
///
/// - The weekday may be left out. It has to be that of the date. Letters may be in either case.
/// - A year of two digits is from 1950 to 2049. One of three digits counts from 1900. One of four digits or more is itself, also
///   before 1900. A year after 262142 is an error, and so is one digit.
/// - The seconds may be left out. The second 60 is the leap second that follows 59. Any minute may have it.
/// - The offset is `+hhmm` or `-hhmm` with hours up to 23, `UT`, `GMT`, or one of `EST`, `EDT`, `CST`, `CDT`, `MST`, `MDT`, `PST`,
///   `PDT`. `-0000` and a letter alone but `J` are UTC, so `Z` is, and `A` too. Any other name, such as `CET`, is an error, since
///   nothing says its offset.
/// - White space and comments may stand between the parts. White space is spaces, tabs and ends of lines. A comment stands in
///   brackets.
pub fn parse_from_rfc2822(text: &[u8]) -> Result<DateTime<FixedOffset>, ReadError>
    ensures read { IfOk result (λ it. IsRfc2822Text text.now (moment_ahead it.utc it.zone) it.zone) }
    // Whatever local time and offset have this text are the answer: no text is refused, and none has two meanings.
    ensures every { (m : Moment) (x : ℤ) → IsRfc2822Text text.now m x
        → IsOkAnd result (λ it. (moment_ahead it.utc it.zone ≡ m) × (it.zone ≡ x)) }
    ensures error { IfErr result (λ e. e ≡ rfc2822_error text.now) }
{
    match stamp_of(text) {
        Some(stamp) => Ok(stamp),
        None => Err(mail_error(text)),
    }
}

// The instant and the offset that the text writes.
fn stamp_of(text: &[u8]) -> Option<DateTime<FixedOffset>>
    ensures read { IfSome result (λ it. IsRfc2822Text text.now (moment_ahead it.utc it.zone) it.zone) }
    ensures every { (m : Moment) (x : ℤ) → IsRfc2822Text text.now m x
        → IsSomeAnd result (λ it. (moment_ahead it.utc it.zone ≡ m) × (it.zone ≡ x)) }
{
    let words = mail_words(text);
    if !is_gap(words.end) {
        return None;
    }
    let date = mail_date(words.day, words.month, words.year)?;
    if !is_day_of_week(words.weekday, date) {
        return None;
    }
    let time = mail_time(words.hour, words.minute, words.second)?;
    let offset = mail_zone(words.zone)?;
    stamp_at(NaiveDateTime::new(date, time), offset)
}

// The instant at which a clock of this offset shows the date-time, if UTC has a date then.
#[inline]
pub(crate) fn stamp_at(local: NaiveDateTime, offset: FixedOffset) -> Option<DateTime<FixedOffset>>
    ensures local { IfSome result (λ it. moment_ahead it.utc it.zone ≡ local) }
    ensures zone { IfSome result (λ it. it.zone ≡ offset) }
    ensures instant { IfSome result (λ it. IsEpochSecond (epoch_second local -ℤ offset)) }
    ensures every { IsEpochSecond (epoch_second local -ℤ offset)
        → IsSomeAnd result (λ it. (moment_ahead it.utc it.zone ≡ local) × (it.zone ≡ offset)) }
{
    offset.from_local_datetime(&local).single()
}

// Whether a word is left out, or names the weekday of the date.
fn is_day_of_week(word: &[u8], date: NaiveDate) -> bool
    ensures { IsTrue result ↔ IsDayOfWeek word.now date }
{
    if word.is_empty() {
        return true;
    }
    Weekday::from_letters(word, 3) == Some(date.weekday())
}

// The date of these words.
fn mail_date(day: &[u8], month: &[u8], year: &[u8]) -> Option<NaiveDate>
    ensures read { IfSome result (λ n. IsMailDate day.now month.now year.now n) }
    ensures every { (n : ℤ) → IsMailDate day.now month.now year.now n → result ≡ Some n }
{
    let day = read_digits(day, 2)?;
    let month = Month::from_letters(month)?;
    let year = mail_year(year)?;
    NaiveDate::from_ymd_opt(year as i32, month.number_from_month(), day)
}

// The year that a word means.
#[tactic(auto, unfolding(crate::specs::MailErrors::year_of_word))]
pub(crate) fn mail_year(word: &[u8]) -> Option<u32>
    ensures small { IfSome result (λ year. year ≤ 262_142) }
    ensures read { IfSome result (λ year. IsMailYear word.now year) }
    ensures every { (year : ℕ) → IsMailYear word.now year → result ≡ Some year }
    ensures value { result ≡ year_of_word word.now }
{
    if word.len() < 2 {
        return None;
    }
    let number = read_count(word)?;
    if number > LAST_YEAR {
        return None;
    }
    let year = year_meant(word.len(), number);
    if year > LAST_YEAR {
        return None;
    }
    Some(year)
}

// The year that so many digits with this value write.
fn year_meant(places: usize, number: u32) -> u32
    requires { number ≤ 262_142 }
    ensures { result ≡ year_meant places number }
{
    if places == 2 {
        if number < 50 {
            2_000 + number
        } else {
            1_900 + number
        }
    } else if places == 3 {
        1_900 + number
    } else {
        number
    }
}

// The time of day of these words.
fn mail_time(hour: &[u8], minute: &[u8], second: &[u8]) -> Option<NaiveTime>
    ensures read { IfSome result (λ t. IsMailTime hour.now minute.now second.now t) }
    ensures every { (t : TimeOfDay) → IsMailTime hour.now minute.now second.now t → result ≡ Some t }
{
    let [hour_tens, hour_ones] = hour else {
        return None;
    };
    let [minute_tens, minute_ones] = minute else {
        return None;
    };
    let (second_tens, second_ones) = second_digits(second)?;
    let clock = [
        *hour_tens,
        *hour_ones,
        b':',
        *minute_tens,
        *minute_ones,
        b':',
        second_tens,
        second_ones,
    ];
    read_time(&clock).ok()
}

// The two digits of a second, which are noughts where it is left out.
fn second_digits(second: &[u8]) -> Option<(u8, u8)>
    ensures read { IfSome result (λ digits. second_shown second.now ≡ digits.0 ∷ digits.1 ∷ []) }
    ensures some { IfSome result (λ _. (length second.now ≡ 2) ⊎ (length second.now ≡ 0)) }
    ensures none { IfNone result (¬ ((length second.now ≡ 2) ⊎ (length second.now ≡ 0))) }
{
    match second {
        [] => Some((b'0', b'0')),
        [tens, ones] => Some((*tens, *ones)),
        _ => None,
    }
}

// The offset that a word writes.
fn mail_zone(word: &[u8]) -> Option<FixedOffset>
    ensures read { IfSome result (λ x. IsMailZone word.now x) }
    ensures every { (x : ℤ) → IsMailZone word.now x → result ≡ Some x }
{
    if let [sign, hour_tens, hour_ones, minute_tens, minute_ones] = word {
        return six_bytes([
            *sign,
            *hour_tens,
            *hour_ones,
            b':',
            *minute_tens,
            *minute_ones,
        ]);
    }
    if word.len() > 3 {
        return None;
    }
    let hours = hours_behind(word)?;
    FixedOffset::west_opt(3_600 * hours as i32)
}

// The hours behind UTC of a zone's name.
#[tactic(auto, unfolding(crate::specs::Rfc2822::hours_behind))]
pub(crate) fn hours_behind(name: &[u8]) -> Option<u32>
    ensures value { result ≡ hours_behind name.now }
    ensures few { IfSome result (λ hours. hours ≤ 8) }
{
    if same_but_for_case(name, b"UT") {
        Some(0)
    } else if same_but_for_case(name, b"GMT") {
        Some(0)
    } else if same_but_for_case(name, b"EDT") {
        Some(4)
    } else if same_but_for_case(name, b"EST") {
        Some(5)
    } else if same_but_for_case(name, b"CDT") {
        Some(5)
    } else if same_but_for_case(name, b"CST") {
        Some(6)
    } else if same_but_for_case(name, b"MDT") {
        Some(6)
    } else if same_but_for_case(name, b"MST") {
        Some(7)
    } else if same_but_for_case(name, b"PDT") {
        Some(7)
    } else if same_but_for_case(name, b"PST") {
        Some(8)
    } else if is_military(name) {
        Some(0)
    } else {
        None
    }
}

// Whether a name is a letter alone, but no `J`.
fn is_military(name: &[u8]) -> bool
    ensures { result ≡ is_military name.now }
{
    match name {
        [letter] => letter.is_ascii_alphabetic() && letter.to_ascii_lowercase() != b'j',
        _ => false,
    }
}

//! Reads times of day.
ghost use Rattle.std.specs.Prelude.{◌≡◌, ◌<◌, ◌≤◌, ◌∷◌, ◌++◌, ℕ, length, Some, Ok, IfSome, IfNone, IfOk, IfErr};
ghost use Rattle.std.specs.Option.{SomeIff};
ghost use Rattle.std.specs.Str.{byte};
ghost use Rattle.chrono_datetime.specs.Duration.{nanos_per_second};
ghost use Rattle.chrono_text.specs.Text.{two_digits};
ghost use Rattle.chrono_datetime.specs.Time.{TimeOfDay};
ghost use Rattle.chrono_reading.specs.Fitting.{fitting};
ghost use Rattle.chrono_reading.specs.TimeErrors.{HasTimeParts, IsTimeError, clock_error, places_of_form, time_form};
ghost use Rattle.chrono_reading.specs.TimeTexts.{IsTimeText, time_shown};

use crate::error::{ReadCause, ReadError, error_at};
use crate::fitting::{fitting_len, fitting_pieces, leading_digits};
use chrono_datetime::NaiveTime;
use chrono_text::{NANOS_PER_SEC, read_fraction, read_two};

// The second that a clock shows in a leap second.
const LEAP_SECOND: u32 = 60;

/// Reads a time of day (ISO 8601), such as `23:56:04.5`. Returns the time.
///
/// If `text` is no time of day, returns what is wrong and at which byte, as a [`ReadError`].
///
/// ```
/// read_time(b"23:56:04.5").ok() // Some(23:56:04.500)
/// read_time(b"23:60:04").err() // Some(ReadError { cause: MinuteAbove59, byte: 3 })
/// ```
///
/// The form is the hour, `:`, the minute, `:` and the second, with two digits each. A point and one to nine digits may follow. The second 60 is the
/// leap second that follows 59. Any minute may have it.
#[inline]
pub fn read_time(text: &[u8]) -> Result<NaiveTime, ReadError>
    ensures read { IfOk result (λ t. IsTimeText text.now t) }
    // Whatever time of day has this text is the answer: no text is refused, and none has two meanings.
    ensures every { (t : TimeOfDay) → IsTimeText text.now t → result ≡ Ok t }
    ensures error { IfErr result (λ e. IsTimeError text.now e) }
    ensures within { IfErr result (λ e. e.byte ≤ length text.now) }
{
    match time_of(text) {
        Some(time) => Ok(time),
        None => Err(time_error(text)),
    }
}

// The time of day that the text writes.
#[inline]
pub(crate) fn time_of(text: &[u8]) -> Option<NaiveTime>
    ensures read { IfSome result (λ t. IsTimeText text.now t) }
    ensures every { (t : TimeOfDay) → IsTimeText text.now t → result ≡ Some t }
{
    let (clock, fraction) = text.split_first_chunk::<8>()?;
    let (hour, minute, second) = read_clock(*clock)?;
    time_shown(hour, minute, second, read_fraction(fraction)?)
}

// The hour, the minute and the second that stand with `:` between.
#[inline]
fn read_clock(text: [u8; 8]) -> Option<(u32, u32, u32)>
    ensures small { IfSome result (λ read. (read.0 < 100) × (read.1 < 100) × (read.2 < 100)) }
    ensures some { IfSome result (λ read.
        two_digits read.0 ++ byte ":" ∷ two_digits read.1 ++ byte ":" ∷ two_digits read.2 ≡ text) }
    ensures every { (hour minute second : ℕ) → hour < 100 → minute < 100 → second < 100
        → two_digits hour ++ byte ":" ∷ two_digits minute ++ byte ":" ∷ two_digits second ≡ text
        → result ≡ Some (hour, minute, second) }
{
    if let [
        hour_tens,
        hour_ones,
        b':',
        minute_tens,
        minute_ones,
        b':',
        second_tens,
        second_ones,
    ] = text
    {
        let hour = read_two(hour_tens, hour_ones)?;
        let minute = read_two(minute_tens, minute_ones)?;
        let second = read_two(second_tens, second_ones)?;
        Some((hour, minute, second))
    } else {
        None
    }
}

// The time at which a clock shows these numbers, if there is one.
#[inline]
fn time_shown(hour: u32, minute: u32, second: u32, nanos: u32) -> Option<NaiveTime>
    requires { nanos < nanos_per_second }
    ensures { SomeIff result ((hour < 24) × (minute < 60) × (second ≤ 60))
        (time_shown hour minute second nanos) }
{
    if second == LEAP_SECOND {
        return NaiveTime::from_hms_nano_opt(hour, minute, second - 1, NANOS_PER_SEC + nanos);
    }
    NaiveTime::from_hms_nano_opt(hour, minute, second, nanos)
}

// Why a text is of no time of day.
#[cold]
pub(crate) fn time_error(text: &[u8]) -> ReadError
    ensures error { IsTimeError text.now result }
    ensures within { result.byte ≤ length text.now }
{
    match time_parts(text) {
        Some((hour, minute, _)) => clock_error(hour, minute),
        None => error_at(ReadCause::NotThisForm, fitting_time(text)),
    }
}

// The numbers of a text that has the form of a time of day.
fn time_parts(text: &[u8]) -> Option<(u32, u32, u32)>
    ensures some { IfSome result (λ read. HasTimeParts text.now read.0 read.1 read.2) }
    ensures long { IfSome result (λ read. 8 ≤ length text.now) }
    ensures none { IfNone result ((hour minute second : ℕ) → ¬ HasTimeParts text.now hour minute second) }
{
    let (clock, fraction) = text.split_first_chunk::<8>()?;
    let read = read_clock(*clock)?;
    let Some(_nanos) = read_fraction(fraction) else {
        return None;
    };
    Some(read)
}

// What is wrong with the numbers of a time that is none.
#[tactic(auto, unfolding(crate::specs::TimeErrors::clock_error))]
fn clock_error(hour: u32, minute: u32) -> ReadError
    ensures value { result ≡ clock_error hour minute }
    ensures within { result.byte ≤ 6 }
{
    if hour > 23 {
        return error_at(ReadCause::HourAbove23, 0);
    }
    if minute > 59 {
        return error_at(ReadCause::MinuteAbove59, 3);
    }
    error_at(ReadCause::SecondAbove60, 6)
}

// How many bytes of the text are as a time of day.
fn fitting_time(text: &[u8]) -> usize
    ensures value { result ≡ fitting (time_form text.now) text.now }
    ensures within { result ≤ length text.now }
{
    if text.len() <= 8 {
        return fitting_len(b"dd:dd:dd", text);
    }
    let places = places_of_form(leading_digits(&text[9..]));
    fitting_pieces(b"dd:dd:dd.", places, b"", text)
}

// How many digits stand behind the point of a form, by how many the text has.
pub(crate) fn places_of_form(digits: usize) -> usize
    ensures { result ≡ places_of_form digits }
{
    if digits == 0 {
        1
    } else if digits > 9 {
        9
    } else {
        digits
    }
}

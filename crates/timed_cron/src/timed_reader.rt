//! The reading of whole texts of schedules, by their dialect.
ghost use Rattle.std.specs.Prelude.{◌≡◌, ◌↔◌, ◌+◌, ◌<◌, ◌≤◌, ◌^◌, length, drop, Ok, IfOk, IfErr, IsErr, None};
ghost use Rattle.chrono_cron.specs.FieldTexts.{field_lists};
ghost use Rattle.chrono_cron.specs.PlacedWords.{first_word, placed_words};
ghost use Rattle.chrono_cron.specs.ScheduleErrors.{error_behind, field_fault, front_fault, schedule_error, schedule_error_at};
ghost use Rattle.chrono_cron.specs.declared.text.number_names.Names.TheVariants.{Numbers};
ghost use Rattle.chrono_cron.specs.declared.text.schedule_error.ScheduleField.TheVariants.{Minute};
ghost use Rattle.timed_cron.specs.Private.{HasFourWords, IsUnreadFirst, IsWordAt, bytes_of};
ghost use Rattle.timed_cron.specs.TimedErrors.{error_byte, timed_error, unless_seconds};
ghost use Rattle.timed_cron.specs.TimedTexts.{IsAtSecondZero, IsSixFieldText, IsTimedText};
ghost use Rattle.timed_cron.specs.declared.dialect.Dialect.TheVariants.{Seconds};
ghost use Rattle.timed_cron.specs.declared.timed_error.TimedError.TheVariants.{Fields as InFields};

use crate::dialect::Dialect;
use crate::quartz_reader::read_quartz;
use crate::robfig_reader::read_robfig;
use crate::timed_error::TimedError;
use crate::timed_schedule::TimedSchedule;
use crate::word_errors::{front_fault, number_error, text_error};
use crate::words::{Ends, four_words, next_word};
use chrono_cron::{Names, ScheduleError, read_field, read_schedule};
use chrono_sets::NumberSet;

/// Reads a schedule in a dialect, such as `*/15 30 4 * * *` with seconds in front. Returns the [`TimedSchedule`].
///
/// If `text` is no schedule of the dialect, returns what is wrong and where, as a [`TimedError`].
///
/// ```
/// let schedule = read_timed_schedule(Dialect::Seconds, b"*/15 30 4 * * *").ok()?;
/// (schedule.seconds.contains(45), schedule.seconds.contains(46)) // (true, false)
/// read_timed_schedule(Dialect::Crontab, b"*/15 30 4 * * *").is_err() // true
/// let weekdays = read_timed_schedule(Dialect::Quartz, b"0 30 4 ? * MON-FRI 2024-2026").ok()?;
/// use chrono_datetime::{AndTime, NaiveDate};
/// weekdays.next_after(NaiveDate::from_ymd_opt(2026, 1, 2)?.and_hms_opt(4, 30, 0)?) // Some(2026-01-05T04:30:00)
/// weekdays.next_after(NaiveDate::from_ymd_opt(2026, 12, 31)?.and_hms_opt(4, 30, 0)?) // None
/// ```
///
/// The field of seconds is read as [`read_field`] reads the numbers 0 to 59, without names. The others are read as [`read_schedule`] does.
/// Where a dialect has nicknames, one such as `@daily` may stand alone. It is due at second 0. [`Dialect`] says how Quartz and robfig/cron differ.
pub fn read_timed_schedule(dialect: Dialect, text: &[u8]) -> Result<TimedSchedule, TimedError>
    ensures read { IfOk result (λ s. IsTimedText dialect text.now s) }
    // Whatever schedule the text is one of is the answer: no text is refused, and none has two meanings.
    ensures every { (s : TimedSchedule) → IsTimedText dialect text.now s → result ≡ Ok s }
    ensures found { IsErr result ↔ ((s : TimedSchedule) → ¬ IsTimedText dialect text.now s) }
    ensures error { IfErr result (λ e. e ≡ timed_error dialect text.now) }
    ensures byte { IfErr result (λ e. error_byte e ≤ length text.now) }
{
    match dialect {
        Dialect::Crontab => read_at_second_zero(text),
        Dialect::Seconds => read_with_seconds(text),
        Dialect::Quartz => read_quartz(text),
        Dialect::Robfig => read_robfig(text),
    }
}

// The schedule of a text without seconds.
fn read_at_second_zero(text: &[u8]) -> Result<TimedSchedule, TimedError>
    ensures read { IfOk result (λ s. IsAtSecondZero text.now s) }
    ensures only { IfOk result (λ t. (s : TimedSchedule) → IsAtSecondZero text.now s → t ≡ s) }
    ensures found { IfErr result (λ _. (s : TimedSchedule) → ¬ IsAtSecondZero text.now s) }
    ensures error { IfErr result (λ e. e ≡ InFields (schedule_error text.now)) }
    ensures byte { IfErr result (λ e. error_byte e ≤ length text.now) }
{
    match read_schedule(text) {
        Ok(schedule) => Ok(TimedSchedule::new(schedule, NumberSet::single(0))),
        Err(error) => Err(TimedError::Fields(error)),
    }
}

// The schedule of a text with seconds, or of a nickname.
fn read_with_seconds(text: &[u8]) -> Result<TimedSchedule, TimedError>
    ensures read { IfOk result (λ s. IsTimedText Seconds text.now s) }
    ensures only { IfOk result (λ t. (s : TimedSchedule) → IsTimedText Seconds text.now s → t ≡ s) }
    ensures found { IfErr result (λ _. (s : TimedSchedule) → ¬ IsTimedText Seconds text.now s) }
    ensures error { IfErr result (λ e. e ≡ timed_error Seconds text.now) }
    ensures byte { IfErr result (λ e. error_byte e ≤ length text.now) }
{
    let Some(second) = next_word(text, 0) else {
        return read_nickname(text);
    };
    let Some(minute) = next_word(text, second.end) else {
        return read_nickname(text);
    };
    match four_words(text, minute.end) {
        Ok(month_end) => read_six_fields(text, second, minute, month_end),
        Err(count) => Err(number_error(text, second, count)),
    }
}

// The schedule of a text of one word, or of none.
fn read_nickname(text: &[u8]) -> Result<TimedSchedule, TimedError>
    requires { length (placed_words 0 text.now) ≤ 1 }
    ensures read { IfOk result (λ s. IsTimedText Seconds text.now s) }
    ensures only { IfOk result (λ t. (s : TimedSchedule) → IsTimedText Seconds text.now s → t ≡ s) }
    ensures found { IfErr result (λ _. (s : TimedSchedule) → ¬ IsTimedText Seconds text.now s) }
    ensures error { IfErr result (λ e. e ≡ timed_error Seconds text.now) }
    ensures byte { IfErr result (λ e. error_byte e ≤ length text.now) }
{
    read_at_second_zero(text)
}

// The schedule of six fields, by the ends of the first and the second, and by where the fifth ends.
fn read_six_fields(
    text: &[u8],
    second: Ends,
    minute: Ends,
    month_end: usize,
) -> Result<TimedSchedule, TimedError>
    requires second { IsWordAt text.now 0 second.place second.end }
    requires minute { IsWordAt text.now second.end minute.place minute.end }
    requires others { HasFourWords text.now minute.end month_end }
    ensures read { IfOk result (λ s. IsSixFieldText text.now s) }
    ensures only { IfOk result (λ t. (s : TimedSchedule) → IsSixFieldText text.now s → t ≡ s) }
    ensures found { IfErr result (λ _. (s : TimedSchedule) → ¬ IsSixFieldText text.now s) }
    ensures error { IfErr result (λ e. e ≡ unless_seconds (field_lists Numbers 0 59 (bytes_of text.now second.place second.end) 0) text.now
        (second.place, bytes_of text.now second.place second.end)) }
    ensures byte { IfErr result (λ e. error_byte e ≤ length text.now) }
{
    let Some(seconds) = read_field(&text[second.place..second.end], Names::Numbers, 0, 59) else {
        if let Some(fault) = front_fault(&text[second.place..second.end]) {
            return Err(text_error(second.place, fault));
        }
        return Err(TimedError::Seconds(seconds_error(&text[..month_end])));
    };
    match read_schedule(text_from(text, second.end)) {
        Ok(schedule) => Ok(TimedSchedule::new(schedule, seconds)),
        Err(error) => Err(TimedError::Fields(error_behind(error, second.end))),
    }
}

// What is wrong with the first of five fields, which is no field of minutes, as a field of seconds.
fn seconds_error(front: &[u8]) -> ScheduleError
    requires { IsUnreadFirst front.now }
    ensures error { result ≡ schedule_error_at None (field_fault Minute (first_word (placed_words 0 front.now))) }
    ensures byte { result.byte ≤ length front.now }
{
    let Err(error) = read_schedule(front) else {
        unreachable!()
    };
    ScheduleError {
        field: None,
        byte: error.byte,
        fault: error.fault,
    }
}

// What a text has from a place on.
fn text_from(text: &[u8], place: usize) -> &[u8]
    requires { place ≤ length text.now }
    ensures { result.now ≡ drop place text.now }
{
    &text[place..]
}

// The error of a text that begins so many bytes behind the beginning of the whole.
fn error_behind(error: ScheduleError, by: usize) -> ScheduleError
    requires { by + error.byte < 2 ^ 64 }
    ensures { result ≡ error_behind by error }
{
    ScheduleError {
        field: error.field,
        byte: by + error.byte,
        fault: error.fault,
    }
}

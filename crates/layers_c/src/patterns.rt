//! Patterns of texts, as of `strftime` and `strptime`.
ghost use Rattle.std.specs.Prelude.{◌≡◌, ◌≢◌, ℤ, true, false, Some, None, length};
ghost use Rattle.chrono_datetime.specs.Days.{IsDate};
ghost use Rattle.chrono_datetime.specs.Moment.{Moment};
ghost use Rattle.chrono_instant.specs.Offsets.{moment_ahead};
ghost use Rattle.chrono_zoned.specs.Zoned.{Zoned};
ghost use Rattle.chrono_pattern.specs.DateParts.{names_date};
ghost use Rattle.chrono_pattern.specs.Parses.{IsDateBy, IsMomentBy, IsParseError, IsZonedBy};
ghost use Rattle.chrono_pattern.specs.Patterns.{IsPattern, pattern_error, pattern_text};
ghost use Rattle.chrono_pattern.specs.TimeParts.{IsClockTime};
ghost use Rattle.chrono_pattern.specs.ZonedParts.{IsClockZoned, names_moment, names_zoned};
ghost use Rattle.chrono_pattern.specs.declared.error.PatternReadError.{PatternReadError};
ghost use Rattle.numbers_c.specs.Answers.{count_or_none, none_number};
ghost use Rattle.numbers_c.specs.DateTimes.{moment_from_c, numbers_for_c, numbers_or_none};
ghost use Rattle.numbers_c.specs.Texts.{length_of, overwritten, text_within};
ghost use Rattle.layers_c.specs.Patterns.{FitsDate, FitsMoment, GoesToEnd, IsWritten, midnight_of, no_zoned_numbers, pattern_error_from_c, pattern_line_from_c, read_error_from_c, reads_offset, zoned_numbers};

use crate::faults::CalendarFault;
use crate::pattern_faults::{pattern_fault, read_fault};
use crate::pattern_words::pattern_line;
use chrono_pattern::Pattern;
use chrono_zoned::{DateTime, FixedOffset};
use numbers_c::{
    CalendarDateTime, NONE, date_of, date_time_of, number_or_none, numbers_or_none, write_over,
};

/// A local date-time, and how far its clock is ahead of UTC.
#[repr(C)]
#[derive(Clone, Copy)]
pub struct CalendarZoned {
    /// The seconds of the local date-time since 1970, rounded down.
    pub seconds: i64,
    /// The nanoseconds after them, below 2,000,000,000. The greatest `u32` says that there is none.
    pub nanos: u32,
    /// How many seconds the clock is ahead of UTC.
    pub offset: i32,
}

// No text that a pattern writes is longer.
const LONGEST: usize = 1_000;

/// Returns whether bytes are a pattern, such as `%d.%m.%Y`. If they are none, fills in what is wrong.
#[unsafe(no_mangle)]
pub extern "C" fn calendar_pattern_check(pattern: &[u8], fault: &mut CalendarFault) -> bool
    ensures right { result ≡ true → IsPattern pattern.now }
    ensures every { IsPattern pattern.now → result ≡ true }
    ensures fault { result ≡ false → pattern_error_from_c fault.new ≡ pattern_error pattern.now }
    ensures end { result ≡ false → GoesToEnd pattern.now fault.new }
    ensures no_fault { result ≡ true → fault.new ≡ fault.old }
{
    match Pattern::new(pattern) {
        Ok(_) => true,
        Err(error) => {
            *fault = pattern_fault(pattern, error);
            false
        }
    }
}

/// Writes what a fault of a pattern, or of a text that a pattern reads, says over the first bytes, if they are enough. Returns how many
/// it took.
#[unsafe(no_mangle)]
pub extern "C" fn calendar_pattern_fault_text(fault: &CalendarFault, text: &mut [u8]) -> i32
    ensures length { result ≡ count_or_none (length_of (text_within (length text.old) (pattern_line_from_c fault.now))) }
    ensures bytes { text.new ≡ overwritten (text_within (length text.old) (pattern_line_from_c fault.now)) text.old }
{
    match pattern_line(fault) {
        Some(line) => write_over(text, line.as_bytes()),
        None => NONE,
    }
}

/// Writes a date by a pattern over the first bytes, if they are enough, and returns how many it took.
#[unsafe(no_mangle)]
pub extern "C" fn calendar_format_date(pattern: &[u8], date: i32, text: &mut [u8]) -> i32
    ensures written { result ≢ none_number → IsPattern pattern.now × IsDate date
        × IsWritten (pattern_text pattern.now (midnight_of date)) text.old text.new result }
    ensures every { IsDate date → FitsDate pattern.now date (length text.old) → result ≢ none_number }
    ensures fits { result ≢ none_number → FitsDate pattern.now date (length text.old) }
    ensures kept { result ≡ none_number → text.new ≡ text.old }
{
    let Ok(pattern) = Pattern::new(pattern) else {
        return NONE;
    };
    let Some(date) = date_of(date) else {
        return NONE;
    };
    match pattern.format_date::<LONGEST>(date) {
        Some(written) => write_over(text, written.as_bytes()),
        None => NONE,
    }
}

/// Writes a date-time by a pattern over the first bytes, if they are enough, and returns how many it took.
#[unsafe(no_mangle)]
pub extern "C" fn calendar_format_date_time(
    pattern: &[u8],
    moment: CalendarDateTime,
    text: &mut [u8],
) -> i32
    ensures written { result ≢ none_number → (m : Moment) × (moment_from_c moment ≡ Some m) × IsPattern pattern.now
        × IsWritten (pattern_text pattern.now m) text.old text.new result }
    ensures every { (m : Moment) → moment_from_c moment ≡ Some m → FitsMoment pattern.now m (length text.old) → result ≢ none_number }
    ensures fits { (m : Moment) → moment_from_c moment ≡ Some m → result ≢ none_number → FitsMoment pattern.now m (length text.old) }
    ensures kept { result ≡ none_number → text.new ≡ text.old }
{
    let Ok(pattern) = Pattern::new(pattern) else {
        return NONE;
    };
    let Some(moment) = date_time_of(moment) else {
        return NONE;
    };
    match pattern.format::<LONGEST>(moment) {
        Some(written) => write_over(text, written.as_bytes()),
        None => NONE,
    }
}

/// Returns the date that a text is of, by a pattern. If there is none, fills in what is wrong with the pattern or with the text.
#[unsafe(no_mangle)]
pub extern "C" fn calendar_parse_date(pattern: &[u8], text: &[u8], fault: &mut CalendarFault) -> i32
    ensures date { result ≢ none_number → IsPattern pattern.now × IsDateBy pattern.now text.now result }
    ensures every { (n : ℤ) → IsPattern pattern.now → IsDate n → IsDateBy pattern.now text.now n → result ≡ n }
    ensures no_pattern { (IsPattern pattern.now → ⊥) → (result ≡ none_number) × (pattern_error_from_c fault.new ≡ pattern_error pattern.now) }
    ensures fault { result ≡ none_number → IsPattern pattern.now → (e : PatternReadError)
        × (read_error_from_c fault.new ≡ Some e) × IsParseError names_date pattern.now text.now e }
    ensures pattern_end { (IsPattern pattern.now → ⊥) → GoesToEnd pattern.now fault.new }
    ensures text_end { result ≡ none_number → IsPattern pattern.now → GoesToEnd text.now fault.new }
    ensures no_fault { result ≢ none_number → fault.new ≡ fault.old }
{
    match Pattern::new(pattern) {
        Ok(checked) => match checked.parse_date(text) {
            Ok(date) => number_or_none(Some(date)),
            Err(error) => {
                *fault = read_fault(text, error);
                NONE
            }
        },
        Err(error) => {
            *fault = pattern_fault(pattern, error);
            NONE
        }
    }
}

/// Returns the date-time that a text is of, by a pattern. If there is none, fills in what is wrong with the pattern or with the text.
#[unsafe(no_mangle)]
pub extern "C" fn calendar_parse_date_time(
    pattern: &[u8],
    text: &[u8],
    fault: &mut CalendarFault,
) -> CalendarDateTime
    ensures moment { result ≢ numbers_or_none None → (m : Moment) × (result ≡ numbers_for_c m) × IsPattern pattern.now
        × IsMomentBy pattern.now text.now m }
    ensures every { (m : Moment) → IsPattern pattern.now → IsDate m.date → IsClockTime m.time → IsMomentBy pattern.now text.now m
        → result ≡ numbers_for_c m }
    ensures no_pattern { (IsPattern pattern.now → ⊥) → (result ≡ numbers_or_none None)
        × (pattern_error_from_c fault.new ≡ pattern_error pattern.now) }
    ensures fault { result ≡ numbers_or_none None → IsPattern pattern.now → (e : PatternReadError)
        × (read_error_from_c fault.new ≡ Some e) × IsParseError names_moment pattern.now text.now e }
    ensures pattern_end { (IsPattern pattern.now → ⊥) → GoesToEnd pattern.now fault.new }
    ensures text_end { result ≡ numbers_or_none None → IsPattern pattern.now → GoesToEnd text.now fault.new }
    ensures no_fault { result ≢ numbers_or_none None → fault.new ≡ fault.old }
{
    match Pattern::new(pattern) {
        Ok(checked) => match checked.parse_date_time(text) {
            Ok(moment) => numbers_or_none(Some(moment)),
            Err(error) => {
                *fault = read_fault(text, error);
                numbers_or_none(None)
            }
        },
        Err(error) => {
            *fault = pattern_fault(pattern, error);
            numbers_or_none(None)
        }
    }
}

/// Returns whether bytes are a pattern that reads an offset from UTC, such as by `%z` or `%+`.
#[unsafe(no_mangle)]
pub extern "C" fn calendar_pattern_names_offset(pattern: &[u8]) -> bool
    ensures right { result ≡ true → IsPattern pattern.now × (reads_offset pattern.now ≡ true) }
    ensures every { IsPattern pattern.now → reads_offset pattern.now ≡ true → result ≡ true }
{
    match Pattern::new(pattern) {
        Ok(checked) => checked.names_offset(),
        Err(_) => false,
    }
}

/// Returns the local date-time with its offset that a text is of, by a pattern. If there is none, fills in what is wrong with the pattern
/// or with the text.
#[unsafe(no_mangle)]
pub extern "C" fn calendar_parse_zoned(
    pattern: &[u8],
    text: &[u8],
    fault: &mut CalendarFault,
) -> CalendarZoned
    ensures zoned { result ≢ no_zoned_numbers → (d : Zoned ℤ) × IsClockZoned d × (result ≡ zoned_numbers (moment_ahead d.utc d.zone) d.zone)
        × IsPattern pattern.now × IsZonedBy pattern.now text.now (moment_ahead d.utc d.zone) d.zone }
    ensures every { (d : Zoned ℤ) → IsPattern pattern.now → IsClockZoned d
        → IsZonedBy pattern.now text.now (moment_ahead d.utc d.zone) d.zone → result ≡ zoned_numbers (moment_ahead d.utc d.zone) d.zone }
    ensures no_pattern { (IsPattern pattern.now → ⊥) → (result ≡ no_zoned_numbers) × (pattern_error_from_c fault.new ≡ pattern_error pattern.now) }
    ensures fault { result ≡ no_zoned_numbers → IsPattern pattern.now → (e : PatternReadError)
        × (read_error_from_c fault.new ≡ Some e) × IsParseError names_zoned pattern.now text.now e }
    ensures pattern_end { (IsPattern pattern.now → ⊥) → GoesToEnd pattern.now fault.new }
    ensures text_end { result ≡ no_zoned_numbers → IsPattern pattern.now → GoesToEnd text.now fault.new }
    ensures no_fault { result ≢ no_zoned_numbers → fault.new ≡ fault.old }
{
    match Pattern::new(pattern) {
        Ok(checked) => match checked.parse_zoned(text) {
            Ok(moment) => zoned_numbers(moment),
            Err(error) => {
                *fault = read_fault(text, error);
                no_zoned_numbers()
            }
        },
        Err(error) => {
            *fault = pattern_fault(pattern, error);
            no_zoned_numbers()
        }
    }
}

// The numbers of a date-time with its offset.
fn zoned_numbers(moment: DateTime<FixedOffset>) -> CalendarZoned
    ensures { result ≡ zoned_numbers (moment_ahead moment.utc moment.zone) moment.zone }
{
    let CalendarDateTime { seconds, nanos } = numbers_or_none(Some(moment.naive_local()));
    CalendarZoned {
        seconds,
        nanos,
        offset: moment.offset().local_minus_utc(),
    }
}

// The numbers of none.
fn no_zoned_numbers() -> CalendarZoned
    ensures { result ≡ no_zoned_numbers }
{
    CalendarZoned {
        seconds: 0,
        nanos: u32::MAX,
        offset: 0,
    }
}

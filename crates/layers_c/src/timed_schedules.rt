//! Schedules with seconds and years, by their texts: when one is due, and the next and the last time.
ghost use Rattle.std.specs.Prelude.{◌≡◌, ◌≤◌, false, true, IfNone, IfSome, None, Some, length};
ghost use Rattle.chrono_datetime.specs.Moment.{Moment};
ghost use Rattle.numbers_c.specs.Answers.{count_or_none};
ghost use Rattle.numbers_c.specs.DateTimes.{moment_from_c, numbers_or_none};
ghost use Rattle.numbers_c.specs.Texts.{length_of, overwritten, text_within};
ghost use Rattle.timed_cron.specs.DueSeconds.{is_timed_due};
ghost use Rattle.timed_cron.specs.TimedErrors.{error_byte, timed_error};
ghost use Rattle.layers_c.specs.Faults.{IsPartEnd};
ghost use Rattle.layers_c.specs.TimedSchedules.{IsLastSecond, IsNextSecond, IsTimedFault, WritesTimed, dialect_numbered, timed_line_from_c};

use crate::faults::CalendarFault;
use crate::part_end::part_end;
use crate::schedule_faults::{fault_number, fault_of};
use crate::schedules::{no_numbers, plain_numbers};
use crate::timed_words::timed_line;
use numbers_c::{CalendarDateTime, NONE, date_time_of, write_over};
use timed_cron::{Dialect, TimedError, TimedSchedule, read_timed_schedule};

/// Returns the first date-time after `start` at which the schedule of a text is due.
#[unsafe(no_mangle)]
pub extern "C" fn calendar_timed_schedule_next(
    text: &[u8],
    dialect: u32,
    start: CalendarDateTime,
) -> CalendarDateTime
    ensures next { (t : TimedSchedule) (s : Moment) → WritesTimed dialect text.now t → moment_from_c start ≡ Some s
        → IsNextSecond t s (moment_from_c result) }
    ensures no_schedule { ((t : TimedSchedule) → ¬ WritesTimed dialect text.now t) → moment_from_c result ≡ None }
    ensures no_start { moment_from_c start ≡ None → moment_from_c result ≡ None }
    ensures numbers { result ≡ numbers_or_none (moment_from_c result) }
{
    let Some(schedule) = timed_of(text, dialect) else {
        return no_numbers();
    };
    let Some(start) = date_time_of(start) else {
        return no_numbers();
    };
    plain_numbers(schedule.next_after(start))
}

/// Returns the last date-time before `start` at which the schedule of a text is due.
#[unsafe(no_mangle)]
pub extern "C" fn calendar_timed_schedule_prev(
    text: &[u8],
    dialect: u32,
    start: CalendarDateTime,
) -> CalendarDateTime
    ensures last { (t : TimedSchedule) (s : Moment) → WritesTimed dialect text.now t → moment_from_c start ≡ Some s
        → IsLastSecond t s (moment_from_c result) }
    ensures no_schedule { ((t : TimedSchedule) → ¬ WritesTimed dialect text.now t) → moment_from_c result ≡ None }
    ensures no_start { moment_from_c start ≡ None → moment_from_c result ≡ None }
    ensures numbers { result ≡ numbers_or_none (moment_from_c result) }
{
    let Some(schedule) = timed_of(text, dialect) else {
        return no_numbers();
    };
    let Some(start) = date_time_of(start) else {
        return no_numbers();
    };
    plain_numbers(schedule.prev_before(start))
}

/// Returns whether the schedule of a text is due at `moment`.
#[unsafe(no_mangle)]
pub extern "C" fn calendar_timed_schedule_is_due(
    text: &[u8],
    dialect: u32,
    moment: CalendarDateTime,
) -> bool
    ensures due { (t : TimedSchedule) (m : Moment) → WritesTimed dialect text.now t → moment_from_c moment ≡ Some m
        → result ≡ is_timed_due t m }
    ensures no_schedule { ((t : TimedSchedule) → ¬ WritesTimed dialect text.now t) → result ≡ false }
    ensures no_moment { moment_from_c moment ≡ None → result ≡ false }
{
    let Some(schedule) = timed_of(text, dialect) else {
        return false;
    };
    match date_time_of(moment) {
        Some(moment) => schedule.is_due(moment),
        None => false,
    }
}

/// Returns whether a text is a schedule of a dialect. If it is none, fills in what is wrong, and nothing if there is no such dialect.
#[unsafe(no_mangle)]
pub extern "C" fn calendar_timed_schedule_check(
    text: &[u8],
    dialect: u32,
    fault: &mut CalendarFault,
) -> bool
    ensures read { result ≡ true → (t : TimedSchedule) × WritesTimed dialect text.now t }
    ensures every { (t : TimedSchedule) → WritesTimed dialect text.now t → result ≡ true }
    ensures fault { (d : Dialect) → dialect_numbered dialect ≡ Some d → result ≡ false → IsTimedFault (timed_error d text.now) fault.new }
    ensures end { (d : Dialect) → dialect_numbered dialect ≡ Some d → result ≡ false → IsPartEnd text.now fault.new.byte fault.new.end }
    ensures no_dialect { dialect_numbered dialect ≡ None → fault.new ≡ fault.old }
    ensures no_fault { result ≡ true → fault.new ≡ fault.old }
{
    let Some(dialect) = dialect_of(dialect) else {
        return false;
    };
    match read_timed_schedule(dialect, text) {
        Ok(_) => true,
        Err(error) => {
            *fault = timed_fault_of(text, error);
            false
        }
    }
}

/// Writes what a fault of a schedule with seconds and years says over the first bytes, if they are enough, and returns how many it took.
#[unsafe(no_mangle)]
pub extern "C" fn calendar_timed_schedule_fault_text(fault: &CalendarFault, text: &mut [u8]) -> i32
    ensures length { result ≡ count_or_none (length_of (text_within (length text.old) (timed_line_from_c fault.now))) }
    ensures bytes { text.new ≡ overwritten (text_within (length text.old) (timed_line_from_c fault.now)) text.old }
{
    match timed_line(fault) {
        Some(line) => write_over(text, line.as_bytes()),
        None => NONE,
    }
}

// The schedule of a text, if it is one of the dialect with a number.
fn timed_of(text: &[u8], dialect: u32) -> Option<TimedSchedule>
    ensures written { IfSome result (λ t. WritesTimed dialect text.now t) }
    ensures only { IfSome result (λ t. (u : TimedSchedule) → WritesTimed dialect text.now u → t ≡ u) }
    ensures none { IfNone result ((t : TimedSchedule) → ¬ WritesTimed dialect text.now t) }
{
    let Some(dialect) = dialect_of(dialect) else {
        return None;
    };
    match read_timed_schedule(dialect, text) {
        Ok(schedule) => Some(schedule),
        Err(_) => None,
    }
}

// The dialect with a number.
fn dialect_of(number: u32) -> Option<Dialect>
    ensures { result ≡ dialect_numbered number }
{
    match number {
        0 => Some(Dialect::Crontab),
        1 => Some(Dialect::Seconds),
        2 => Some(Dialect::Quartz),
        3 => Some(Dialect::Robfig),
        _ => None,
    }
}

// The numbers of what is wrong with a text.
fn timed_fault_of(text: &[u8], error: TimedError) -> CalendarFault
    requires { error_byte error ≤ length text.now }
    ensures fault { IsTimedFault error result }
    ensures end { IsPartEnd text.now result.byte result.end }
{
    match error {
        TimedError::Seconds(error) => placed(text, fault_number(error.fault), 6, error.byte),
        TimedError::Fields(error) => fault_of(text, error),
        TimedError::QuestionMarks(byte) => placed(text, 15, 5, byte),
        TimedError::Years(error) => placed(text, fault_number(error.fault), 7, error.byte),
    }
}

// The numbers of a fault at a byte.
fn placed(text: &[u8], code: u32, field: u32, byte: usize) -> CalendarFault
    requires { byte ≤ length text.now }
    ensures code { result.code ≡ code }
    ensures field { result.field ≡ field }
    ensures byte { result.byte ≡ byte }
    ensures end { IsPartEnd text.now result.byte result.end }
{
    CalendarFault {
        code,
        field,
        byte,
        end: part_end(text, byte),
    }
}

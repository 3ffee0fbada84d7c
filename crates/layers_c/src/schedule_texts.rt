//! The texts of schedules.
ghost use Rattle.std.specs.Prelude.{◌≡◌, true, false, Some, length};
ghost use Rattle.chrono_cron.specs.ScheduleErrors.{schedule_error};
ghost use Rattle.chrono_cron.specs.ScheduleTexts.{IsScheduleText};
ghost use Rattle.chrono_cron.specs.declared.field_sets.FieldSets.{FieldSets};
ghost use Rattle.numbers_c.specs.Answers.{count_or_none};
ghost use Rattle.numbers_c.specs.Texts.{length_of, overwritten, text_within};
ghost use Rattle.layers_c.specs.Faults.{IsPartEnd};
ghost use Rattle.layers_c.specs.Schedules.{schedule_error_from_c, schedule_line_from_c, sets_from_c};

use crate::faults::CalendarFault;
use crate::schedule_faults::{error_of, fault_of};
use crate::schedule_numbers::{CalendarSchedule, numbers_of};
use crate::schedule_words::schedule_line;
use chrono_cron::law::read_schedules_are_writable;
use chrono_cron::read_schedule;
use numbers_c::{NONE, write_over};

/// Reads a schedule as cron writes it, and returns whether the text is one. If it is none, fills in what is wrong.
#[unsafe(no_mangle)]
pub extern "C" fn calendar_schedule_read(
    text: &[u8],
    schedule: &mut CalendarSchedule,
    fault: &mut CalendarFault,
) -> bool
    ensures read { result ≡ true → IsScheduleText text.now (sets_from_c schedule.new) }
    ensures every { (s : FieldSets) → IsScheduleText text.now s → (result ≡ true) × (sets_from_c schedule.new ≡ s) }
    ensures fault { result ≡ false → schedule_error_from_c fault.new ≡ Some (schedule_error text.now) }
    ensures end { result ≡ false → IsPartEnd text.now fault.new.byte fault.new.end }
    ensures kept { result ≡ false → schedule.new ≡ schedule.old }
    ensures no_fault { result ≡ true → fault.new ≡ fault.old }
{
    match read_schedule(text) {
        Ok(found) => {
            read_schedules_are_writable(text, &found);
            *schedule = numbers_of(&found);
            true
        }
        Err(error) => {
            *fault = fault_of(text, error);
            false
        }
    }
}

/// Writes what a fault of a schedule says over the first bytes, if they are enough, and returns how many it took.
#[unsafe(no_mangle)]
pub extern "C" fn calendar_schedule_fault_text(fault: &CalendarFault, text: &mut [u8]) -> i32
    ensures length { result ≡ count_or_none (length_of (text_within (length text.old) (schedule_line_from_c fault.now))) }
    ensures bytes { text.new ≡ overwritten (text_within (length text.old) (schedule_line_from_c fault.now)) text.old }
{
    match error_of(fault) {
        Some(error) => write_over(text, schedule_line(error).as_bytes()),
        None => NONE,
    }
}

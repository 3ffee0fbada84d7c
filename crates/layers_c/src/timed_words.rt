//! What a fault of a schedule with seconds and years says, in one line.
//! It is the text of `Display` for `TimedError`, and here it cannot fail.
ghost use Rattle.std.specs.Prelude.{◌≡◌, ◌++◌, ◌≤◌, length};
ghost use Rattle.chrono_cron.specs.ErrorTexts.{schedule_error_text};
ghost use Rattle.timed_cron.specs.TimedErrors.{timed_error_text};
ghost use Rattle.timed_cron.specs.declared.timed_error.TimedError.TheVariants.{QuestionMarks};
ghost use Rattle.layers_c.specs.TimedSchedules.{timed_line_from_c};

use crate::faults::CalendarFault;
use crate::placed_line::placed_line;
use crate::schedule_faults::error_of;
use crate::schedule_words::schedule_line;
use chrono_cron::ScheduleError;
use chrono_text::Text;

// Room for a field of eight bytes in front of a schedule's line.
const ROOM: usize = 107;

// The number for `?` in neither field of days, or in both.
const QUESTION_MARKS: u32 = 15;

// The field, if there is one, the byte, and what is wrong there, if there is such a fault.
#[tactic(auto, unfolding(timed_cron::specs::TimedErrors::timed_error_text))]
pub(crate) fn timed_line(fault: &CalendarFault) -> Option<Text<ROOM>>
    ensures { result ≡ timed_line_from_c fault.now }
{
    if fault.code == QUESTION_MARKS {
        return Some(question_marks_line(fault.byte));
    }
    let Some(error) = error_of(fault) else {
        return None;
    };
    match fault.field {
        6 => Some(line_behind("second, ", error)),
        7 => Some(line_behind("year, ", error)),
        _ => Some(line_behind("", error)),
    }
}

// The line of a schedule's error behind a field that the schedule lacks.
fn line_behind(field: &str, error: ScheduleError) -> Text<ROOM>
    requires { length field.now ≤ 8 }
    ensures { result ≡ field.now ++ schedule_error_text error }
{
    let mut line = Text::<ROOM>::new();
    line.push_text(field.as_bytes());
    line.push_text(schedule_line(error).as_bytes());
    line
}

// The line of the error of `?`.
#[tactic(auto, unfolding(timed_cron::specs::TimedErrors::timed_error_text))]
fn question_marks_line(byte: usize) -> Text<ROOM>
    ensures { result ≡ timed_error_text (QuestionMarks byte) }
{
    let mut line = Text::<ROOM>::new();
    line.push_text(placed_line(
        "weekday, byte ",
        byte,
        ": not just one field of days is ?",
    ).as_bytes());
    line
}

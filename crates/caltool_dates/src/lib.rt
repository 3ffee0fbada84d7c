//! `caltool` over the dates and date-times of `chrono_datetime`: the answer to each command, and the run over an input.
//!
//! It passes on the names of `caltool_form`, so a user lists this crate alone.
#![tactic(auto)]

ghost use Rattle.std.specs.Prelude.{◌≡◌, OnOk, IsErrOf};
ghost use Rattle.caltool_form.specs.Answers.{answer_of};
ghost use Rattle.caltool_form.specs.Runs.{AnsweredAll, AnsweredEnded, AnsweredPart};

mod answers;
mod law;

pub use answers::DateAnswers;
pub use caltool_form::{
    Answer, CalendarDate, ClockTime, Command, CommandAnswers, DateAndTime, MonthSpan, RunFault,
    Text, answer_by, answer_form, command_of, cut_is_unique, known_answers, known_commands,
    known_errors, known_outputs, lines_are_commands, numbers_are_texts, run_by, run_form,
    words_are_unique,
};
pub use law::answers_are_of_dates;
use std::io::{Read, Write};

/// Returns the answer to one line. `line` has no newline. The answer has at most 63 bytes.
pub fn answer_line(line: &[u8]) -> Answer
    ensures { result ≡ answer_of line.now }
{
    answer_by::<DateAnswers>(line)
}

/// Answers each line of the input with one line, until the input ends. It repeats no failed call and allocates no memory.
///
/// Returns `RunFault::Read` after a failed read, or after 2^64 - 1 reads that saw no end. By then it has answered each
/// line that ended in a newline. Returns `RunFault::Write` after a write that failed or wrote nothing, or if the flush
/// at the end failed.
pub fn run<R: Read, W: Write>(r: &mut R, w: &mut W) -> Result<(), RunFault>
    // The input was read to its end, and its whole output written.
    ensures ok { OnOk result (AnsweredAll answer_of
        (R.remaining r.old) (R.remaining r.new) (W.contents w.old) (W.contents w.new)) }
    // The lines that a newline ends among the bytes read are answered, and nothing else is written.
    ensures read { IsErrOf result RunFault.Read
        → AnsweredEnded answer_of
        (R.remaining r.old) (R.remaining r.new) (W.contents w.old) (W.contents w.new) }
    // The writer got the output of the bytes read, or only its first part.
    ensures write { IsErrOf result RunFault.Write
        → AnsweredPart answer_of
        (R.remaining r.old) (R.remaining r.new) (W.contents w.old) (W.contents w.new) }
{
    run_by::<DateAnswers, R, W>(r, w)
}

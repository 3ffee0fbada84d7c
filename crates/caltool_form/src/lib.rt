//! What `caltool` does with bytes, for any type of dates.
//!
//! This crate cuts an input into lines, computes the answer to each command, and has the loop from a reader to a
//! writer. A type with [`CommandAnswers`] answers the commands, and the answers are the same for each such type.
//! [`answer_form`] and [`run_form`] answer over any stored form of dates.
//!
//! It passes on the names of `caltool_command`, which reads a line, and `Text` of `chrono_text`, which holds the output.
#![tactic(auto)]

mod answer;
mod asked;
mod command_answers;
mod fault;
mod form_answers;
mod law;
mod named;
mod output;
mod run;
mod texts;
mod watch;

pub use answer::{Answer, answer_by};
pub use caltool_command::{
    CalendarDate, ClockTime, Command, DateAndTime, MonthSpan, command_of, known_commands,
    known_errors, lines_are_commands, numbers_are_texts, words_are_unique,
};
pub use chrono_text::Text;
pub use command_answers::CommandAnswers;
pub use fault::RunFault;
pub use form_answers::{answer_form, run_form};
pub use law::{cut_is_unique, known_answers, known_outputs};
pub use run::run_by;

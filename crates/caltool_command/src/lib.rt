//! Lines read as commands of `caltool`: their words, their numbers, and the [`Command`] of both.
//!
//! [`command_of`] reads a line of any bytes. A loop over many lines calls [`read_line`] and [`command_from`], with one
//! [`Numbers`] for all lines.
#![tactic(auto)]

mod arguments;
mod command;
mod command_line;
mod law;
mod name;
mod numbers;
mod read;
mod types;
mod ways;
mod words;

pub use arguments::{CalendarDate, ClockTime, DateAndTime, MonthSpan};
pub use chrono_text::law::numbers_are_texts;
pub use chrono_text::{Line, split_line};
pub use command::Command;
pub use command_line::{command_of, read_line};
pub use law::{known_commands, known_errors, lines_are_commands, words_are_unique};
pub use name::Name;
pub use numbers::Numbers;
pub use read::command_from;

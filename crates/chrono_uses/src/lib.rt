//! Small functions as a user of the calendar would write them, each proved from the public contracts of the libraries alone.
//!
//! `calendar` has questions on dates and `schedule` questions on date-times; `names` reads a date, names it again, and makes dates
//! of names; `guards` asks a checked call before it writes an operator, and `values` takes what a checked call answers; `ends`
//! compares with constants; `walks` goes over dates day after day and week after week; `questions` has those of a scheduler
//! and of a billing calendar; and `office` has twenty of an office, written from the callers' page alone. `logs` counts the log
//! lines of the last hour. `one_change` is a zone and `side_by_side` a stored form of a user's own.
#![tactic(auto)]

pub mod calendar;
pub mod ends;
pub mod guards;
mod logs;
pub mod names;
pub mod office;
mod one_change;
pub mod questions;
pub mod schedule;
mod side_by_side;
pub mod values;
pub mod walks;

pub use logs::{is_of_last_hour, lines_of_last_hour};
pub use one_change::OneChange;
pub use side_by_side::SideBySide;

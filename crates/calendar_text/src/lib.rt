//! Texts of calendars (RFC 5545): a start, a rule, times beside it and exceptions, read and written.
//!
//! ```
//! let mut buffer = [0; 128];
//! let text = b"DTSTART;TZID=Europe/Berlin:20240131T090000\r\nRRULE:FREQ=DA\r\n ILY\r\n";
//! let calendar = read_calendar_text(text, &mut buffer).ok()?;
//! calendar.rule == Some(b"FREQ=DAILY") // true
//! ```
//!
//! [`read_calendar_text`] reads the properties DTSTART, RRULE, RDATE and EXDATE, in folded lines or not. [`CalendarLines`] writes them, and
//! [`fold`] folds the lines. All memory is the caller's. The text of the rule is handed on: `chrono_rules::read_rule` reads a rule of days.
//! Nothing else of iCalendar is read.
#![tactic(auto)]

mod byte_class;
mod calendar_error;
mod calendar_lines;
mod calendar_text;
mod calendar_time;
mod content_line;
mod folds;
pub mod law;
mod parameters;
mod pieces;
mod property;
mod time_list;
mod time_writer;
mod writer;

pub use calendar_error::{CalendarTextError, CalendarTextFault};
pub use calendar_lines::CalendarLines;
pub use calendar_text::{CalendarText, read_calendar_text};
pub use calendar_time::{CalendarTime, read_calendar_time};
pub use folds::{fold, folded_place, unfold};
pub use pieces::behind_name;
pub use time_list::TimeList;

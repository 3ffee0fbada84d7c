//! What `dates` answers with: days moved by spans, how far two days lie apart, months as sheets, and the lines that say it.
#![tactic(auto)]

mod between;
mod form;
pub mod law;
mod line;
mod moves;
mod names;
mod parts;
mod quoted;
mod row;
mod sequence;
mod sheet;
mod span;
mod text_line;
mod wrong_line;

pub use between::distance;
pub use form::OutputForm;
pub use line::{DayObject, Key, Reply, ReplyLine, key_name};
pub use moves::moved;
pub use names::{DayNames, OrdinalName, WeekName};
pub use parts::{Parts, parts_between};
pub use quoted::Quoted;
pub use row::{Cell, SheetRow};
pub use sequence::sequence_day;
pub use sheet::MonthSheet;
pub use span::{Span, Unit};
pub use text_line::{ClockLine, TextLine};
pub use wrong_line::WrongLine;

//! Reads the texts that this calendar prints: dates, times of day, date-times, durations, weekdays and months.
//!
//! Each function takes bytes and returns their value. If they are the text of no value, it returns a [`ReadError`]: a cause and the byte where
//! it stands.
//!
//! ```
//! read_date(b"2023-02-29").err() // Some(ReadError { cause: DayAbove(28), byte: 8 })
//! ```
//!
//! The relations in `specs/` say which texts a value has. Every list of bytes has at most one value. They also say which error a text has. Nothing
//! here allocates.
#![tactic(auto)]

mod date;
mod date_time;
mod duration;
mod duration_error;
mod error;
mod fitting;
pub mod law;
mod name;
mod ordinal_date;
mod time;
mod week_date;

pub use date::read_date;
pub use date_time::read_date_time;
pub use duration::read_duration;
pub use error::{ReadCause, ReadError};
pub use fitting::{fitting_len, leading_digits};
pub use name::{read_month, read_weekday};
pub use ordinal_date::read_ordinal_date;
pub use time::read_time;
pub use week_date::read_week_date;

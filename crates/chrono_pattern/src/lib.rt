//! Patterns of texts in the manner of `strftime` and `strptime`: a pattern is checked once, writes any date-time, and reads texts.
//!
//! ```
//! use chrono_datetime::{AndTime, NaiveDate};
//! let pattern = Pattern::new(b"%a %e %B %Y, %H:%M").ok()?;
//! let moment = NaiveDate::from_ymd_opt(2024, 2, 29)?.and_hms_opt(9, 30, 0)?;
//! pattern.format::<64>(moment)?.as_bytes().len() // 28
//! pattern.delayed(moment)?.to_string(rt.alloc()).ok()? // "Thu 29 February 2024, 09:30"
//! Pattern::new(b"%e %B %Y").ok()?.parse_date(b"29 february 2024").ok() // Some(2024-02-29)
//! ```
//!
//! The specifiers, listed at [`Pattern::new`], are chrono's, with English names. They write what chrono 0.4.23 writes, but for these:
//!
//! - `%U` in years that begin on Monday, and `%W` in those that begin on Tuesday: chrono counts one week more than GNU date and Python;
//! - `%q`, which chrono 0.4.23 does not have, and `%#z`, which it only reads;
//! - `%Z`, which writes an offset for every zone, and no name such as `UTC` or `CET`.
//!
//! What is read otherwise than in chrono stands at [`Pattern::read_parts`], [`Parsed::to_date`] and [`Parsed::to_zoned`].
//! A pattern borrows its bytes, and nothing here allocates.
#![tactic(auto)]

mod class;
mod date_parts;
mod date_time_parts;
mod delayed_format;
mod error;
mod fields;
mod front_item;
mod group;
mod item;
pub mod law;
mod named_parts;
mod names;
mod needs;
mod number;
mod number_reader;
mod offset_reader;
mod parse;
mod parsed;
mod pattern;
mod reader;
mod separable;
mod step;
mod stop;
mod subsecond;
mod subsecond_reader;
mod time_parts;
mod word;
mod word_reader;
mod writer;
mod year_week;
mod zoned;
mod zoned_parts;
mod zoned_piece;

pub use delayed_format::DelayedFormat;
pub use error::{PatternError, PatternFault, PatternReadError, ReadFault};
pub use fields::Fields;
pub use parsed::Parsed;
pub use pattern::Pattern;

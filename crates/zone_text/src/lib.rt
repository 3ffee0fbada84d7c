//! The texts of POSIX rules of time zones, as the environment variable `TZ` and the last line of a TZif file have them.
//!
//! ```
//! let new_york = read(b"EST5EDT,M3.2.0,M11.1.0").ok()?;
//! new_york.standard_name // [69, 83, 84]
//! new_york.rule.offset_of_instant(1_710_054_000) // -04:00
//! ```
//!
//! The source is POSIX.1-2017, Base Definitions, section 8.3, `TZ`, with the hours of RFC 9636, section 3.3.1. The relation
//! `IsZoneText` in `specs/` is its grammar. Every list of bytes is the text of at most one rule and its names. Nothing here
//! allocates.
#![tactic(auto)]

mod change;
mod clock;
mod error;
mod hours;
pub mod law;
mod name;
mod number;
mod writer;
mod zone;

pub use error::{ZoneTextError, ZoneTextFault};
pub use zone::{ZoneText, read};

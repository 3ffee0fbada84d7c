//! The texts of instants by RFC 3339, RFC 2822 and ISO 8601, written and read.
//!
//! ```
//! let stamp = parse_from_rfc3339(b"2024-02-29T15:00:00.250+05:30").ok()?;
//! stamp.to_utc() // 2024-02-29T09:30:00.250+00:00
//! to_rfc3339_opts(&stamp, SecondsFormat::Secs, true)?.as_str() // "2024-02-29T15:00:00+05:30"
//! ```
//!
//! The relations in `specs/` say which texts an instant has, by the grammar of each standard. Every list of bytes is the
//! text of at most one instant and offset. They also say which error any other text has. Nothing here allocates.
#![tactic(auto)]

mod iso8601_error;
mod iso8601_forms;
mod iso8601_reader;
mod iso8601_writer;
pub mod law;
mod mail_words;
mod pieces;
mod rfc2822_error;
mod rfc2822_reader;
mod rfc2822_writer;
mod rfc3339_error;
mod rfc3339_reader;
mod rfc3339_writer;
mod seconds_format;

pub use iso8601_reader::parse_from_iso8601;
pub use iso8601_writer::to_iso8601;
pub use rfc2822_reader::parse_from_rfc2822;
pub use rfc2822_writer::to_rfc2822;
pub use rfc3339_reader::parse_from_rfc3339;
pub use rfc3339_writer::{to_rfc3339, to_rfc3339_opts};
pub use seconds_format::SecondsFormat;

//! Time zones from TZif files, such as those of `/usr/share/zoneinfo`.
//!
//! ```
//! // A file of version 1 with one kind of local time, which is UTC.
//! let mut bytes = [0; 54];
//! bytes[..5].copy_from_slice(b"TZif\0");
//! bytes[39] = 1;
//! bytes[43] = 4;
//! bytes[50..53].copy_from_slice(b"UTC");
//! let utc = read(&bytes).ok()?;
//! utc.kind(0)?.name // [85, 84, 67]
//! ```
//!
//! The source is RFC 9636. The relation `IsZoneFile` in `specs/` is its format. [`read`] answers for all bytes, and takes no memory:
//! a file's parts are slices of its bytes.
#![tactic(auto)]

mod block;
mod error;
mod kinds;
pub mod law;
mod rows;
mod zone_file;

pub use error::{ZoneFileError, ZoneFileFault};
pub use kinds::LocalTimeKind;
pub use rows::ZoneRowsError;
pub use zone_file::{ZoneFile, read};
pub use zone_table::Row;

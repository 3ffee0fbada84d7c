//! A time zone as a table of its changes: the offset at an instant, and the instants of a local time.
//!
//! ```
//! // London in 2024: an hour ahead of UTC from 31 March to 27 October.
//! let winter = FixedOffset::east_opt(0)?;
//! let summer = FixedOffset::east_opt(3_600)?;
//! let rows = [Row { second: 1_711_846_800, offset: summer }, Row { second: 1_729_990_800, offset: winter }];
//! first_unordered(winter, &rows) // None
//! offset_of_instant(winter, &rows, 1_720_000_000) // +01:00
//! offsets_of_local(winter, &rows, 1_711_846_800) // None
//! offsets_of_local(winter, &rows, 1_729_990_800) // Ambiguous(+01:00, +00:00)
//! ```
//!
//! The rows are a slice of the caller's. [`first_unordered`] checks them once, and every other function relies on that.
//! An instant is a number of seconds from 1 January 1970 in UTC. A local time is counted as if the clock were one in UTC.
#![tactic(auto)]

mod changes;
pub mod law;
mod offsets;
mod order;
mod row;
mod search;

pub use changes::{next_change, previous_change};
pub use chrono_zoned::{FixedOffset, MappedLocalTime, Stretch};
pub use offsets::{offset_of_instant, offsets_of_local, stretch_of_instant};
pub use order::first_unordered;
pub use row::Row;

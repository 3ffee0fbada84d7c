//! Lengths of units of time, each in a smaller unit.

pub(crate) use chrono_text::{NANOS_PER_MICRO, NANOS_PER_MILLI, NANOS_PER_SEC};

/// The number of seconds in a minute.
pub(crate) const SECS_PER_MINUTE: u32 = 60;

/// The number of seconds in an hour.
pub(crate) const SECS_PER_HOUR: u32 = 3_600;

/// The number of seconds in a day without leap seconds.
pub const SECS_PER_DAY: u32 = 86_400;

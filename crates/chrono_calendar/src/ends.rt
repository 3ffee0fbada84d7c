//! The ends of the range of dates, as day numbers.

/// The day number of the first date, 1 January of the year -262,143.
pub const FIRST_DAY: i32 = -95_746_129;

/// The day number of the last date, 31 December of the year 262,142.
pub const LAST_DAY: i32 = 95_745_399;

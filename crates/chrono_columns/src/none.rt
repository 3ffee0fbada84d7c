//! The numbers that stand for missing values.

/// The number for a missing date, year or distance: the least `i32`.
pub const NONE: i32 = i32::MIN;

/// The number for a missing value among days in 64 bits: the least `i64`, as numpy's `NaT`.
pub const NOT_A_TIME: i64 = i64::MIN;

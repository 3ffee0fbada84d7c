//! Columns of dates: each function computes one calendar operation for every element of a slice.
//!
//! ```
//! let mut dates = [0; 2];
//! read_dates(&[*b"2024-02-29", *b"2023-02-29"], &mut dates);
//! dates // [738945, -2147483648]
//! ```
//!
//! A date is its day number as an `i32`: day 1 is 1 January of year 1.
//! The least `i32` ([`NONE`]) stands for a missing date, year or distance.
//! 0 stands for a missing month, day, ordinal, week or weekday.
//! A number outside the calendar counts as missing. Every operation on a missing date gives a missing value.
//!
//! No function allocates memory. The slices of one call must have the same length.
//! All functions but [`first_on`] compute an element without a branch, so that a compiler makes vector code of their loops.
//! An invalid number is first replaced by the nearest date. At the end the result is kept or replaced by [`NONE`] or 0.
#![tactic(auto)]

mod conversion;
mod counts;
mod fields;
pub mod law;
mod months;
mod moved;
mod moves;
mod named;
mod names;
mod nearest;
mod none;
mod occasions;
mod read;
mod texts;
mod unix;
mod week;
mod written;

pub use counts::count_dates;
pub use moves::{
    add_days, add_days_each, add_days_each_in_place, add_days_in_place, add_months,
    add_months_in_place, days_between,
};
pub use names::{join_dates, ordinals, split_dates, years};
pub use none::{NONE, NOT_A_TIME};
pub use occasions::first_on;
pub use read::date_of_text_entry;
pub use texts::{read_dates, write_dates};
pub use unix::{from_unix_days, to_unix_days};
pub use week::{iso_weeks, weekdays};
pub use written::text_of_name_entry;

//! Columns of the texts of dates in layouts of fixed width, such as `29/02/2024` and `20240229`.
//!
//! ```
//! let layout = DateLayout { order: DateOrder::DayMonthYear, separator: b'/' };
//! let mut dates = [0; 2];
//! read_layout_dates(layout, &[*b"29/02/2024", *b"29/02/2023"], &mut dates);
//! dates // [738945, -2147483648]
//! ```
//!
//! A date is its day number as an `i32`, and the least `i32` stands for a missing date, as in `chrono_columns`.
//! No function allocates memory. The slices of one call must have the same length.
#![tactic(auto)]

mod arranged;
mod compact;
pub mod law;
mod layout;
mod texts;

pub use compact::{read_compact_dates, write_compact_dates};
pub use layout::{DateLayout, DateOrder};
pub use texts::{read_layout_dates, write_layout_dates};

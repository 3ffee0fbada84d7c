//! The stored forms of a date: what a calendar date is kept as.
//!
//! Each form has the trait [`chrono_calendar::DayForm`]. [`PackedForm`] keeps the year and the day of the year, and
//! [`CountedForm`] keeps the day number.
#![tactic(auto)]

mod conversion;
mod counted;
mod iso_week;
mod march;
mod month_day;
mod packed;
mod packing;
mod weekdays;

pub use counted::CountedForm;
pub use packed::PackedForm;

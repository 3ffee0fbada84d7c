//! The calendar as whole numbers: day numbers, stored forms of a date, and date arithmetic.
//!
//! A stored form is what a date is kept as, and [`DayForm`] is the trait of all stored forms. The functions of
//! [`forms`] compute dates over any stored form. The functions of [`law`] state laws of dates, weeks and months. The
//! crate also has the flags of a year, which come from a table, and the counter of steps.
#![tactic(auto)]

pub mod counted_years;
pub mod ends;
mod form;
pub mod forms;
mod iso_week;
pub mod law;
mod month_index;
mod steps;
mod tally;
mod year_flags;

pub use form::DayForm;
pub use steps::Steps;
pub use year_flags::YearFlags;

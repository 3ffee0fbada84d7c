//! Parts that chrono keeps private: a month and day with a year's flags, and the days of a cycle of 400 years.
//!
//! They read three tables of their own. The dates of the library are not made of these parts, and no library crate uses
//! this one.
#![tactic(auto)]

mod cycle;
mod mdf;
mod tables;

pub use cycle::{cycle_to_yo, yo_to_cycle};
pub use mdf::Mdf;

//! The calendar for C: a static library of functions that accept all values of their argument types.
//!
//! A date is its day number: 1 is 1 January of year 1. The least `i32` stands for no date. A function returns it too if an
//! argument has to be a date and is not one. Weekdays count from 1 for Monday to 7 for Sunday. A set of weekdays is a number
//! with one binary digit for each, the lowest for Monday. Each function states its result by the definitions of the crates
//! below. `languages/c/calendar.h` declares it.
//!
//! A function of columns that takes several of them returns whether they have the same length. If not, it writes nothing.
#![tactic(auto)]

mod columns;
mod date_times;
mod durations;
mod fields;
mod moves;
mod names;
mod split;
mod texts;
mod times;
mod versions;
mod weekdays;

//! Sets of small numbers, in a fixed size and with no allocation.
//!
//! ```
//! let days = NumberSet::from_array([1, 15]);
//! (days.contains(15), days.first_in(2, 32)) // (true, Some(15))
//! ```
//!
//! [`NumberSet`] has numbers from 0 to 63, and [`PlaceSet`] numbers from 0 to 383. Contracts see both as a finite set of
//! numbers, by the words of `specs/FiniteSets.antt`: `has set k`, `no_numbers`, `numbers`, `with_number`, `is_empty`.
#![tactic(auto)]

mod moved;
mod number_set;
mod place_set;
mod searches;

pub use number_set::{NumberSet, are_empty};
pub use place_set::PlaceSet;

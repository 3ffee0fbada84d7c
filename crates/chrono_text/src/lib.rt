//! Numbers as texts, and back: writers and readers of the texts of ISO 8601.
//!
//! [`Text`] is a buffer of fixed size, and its `push_` functions append one text each. The `read_` functions read
//! digits, whole numbers, fractions of a second and years. [`read_list`] reads a list of items. This crate has numbers and bytes only. The crates above know
//! what a year, a month or a weekday is, and build their texts from these writers and readers.
#![tactic(auto)]

mod date_text;
mod decimal;
mod digits;
mod duration_text;
pub mod law;
mod line;
mod list;
mod read;
mod search;
mod text;
mod time_text;
mod word;

pub use digits::codes_of_two;
pub use line::Line;
pub use list::{
    ItemReader, begins_but_for_case, byte_place, first_piece, part_place, read_list,
    same_but_for_case, split_at_byte,
};
pub use read::{
    Way, are_digits, digit, read_count, read_decimal, read_digits, read_four, read_fraction,
    read_number, read_three, read_two, read_year,
};
pub use search::split_line;
pub use text::Text;
pub use time_text::{NANOS_PER_MICRO, NANOS_PER_MILLI, NANOS_PER_SEC};
pub use word::word_len;

//! The texts of schedules: reading, writing, and what is wrong with a text.
pub(crate) mod day_fields;
pub(crate) mod day_items;
pub(crate) mod field;
pub(crate) mod first_error;
pub(crate) mod nicknames;
pub(crate) mod number_names;
pub(crate) mod schedule_error;
pub(crate) mod schedule_reader;
pub(crate) mod schedule_writer;
pub(crate) mod split_fields;

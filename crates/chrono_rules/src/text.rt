//! The texts of rules: reading, writing, and what is wrong with a text.
pub(crate) mod all_parts;
pub(crate) mod first_error;
pub(crate) mod list_writer;
pub(crate) mod month_list;
pub(crate) mod number_list;
pub(crate) mod part_by_name;
pub(crate) mod part_values;
pub(crate) mod rule_error;
pub(crate) mod rule_reader;
pub(crate) mod rule_writer;
pub(crate) mod weekday_list;
pub(crate) mod year_day_list;

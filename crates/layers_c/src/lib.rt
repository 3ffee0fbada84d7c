//! The layers for C: a static library of schedules, rules, open days, patterns and zones.
//!
//! Each function accepts all values of its argument types. It takes no memory, and keeps nothing between calls. A date is its day
//! number, and a date-time is a `CalendarDateTime`, as in `calendar_c`. Each function states its result by the definitions of the
//! crates below. `languages/c/calendar_layers.h` declares it.
#![tactic(auto)]

mod calendar_faults;
mod calendar_recurrences;
mod calendar_texts;
mod day_counts;
mod faults;
mod holiday_words;
mod holidays;
mod number_sets;
mod open_day_columns;
mod open_day_columns_within;
mod open_days;
mod open_days_within;
mod part_end;
mod pattern_faults;
mod pattern_words;
mod patterns;
mod placed_line;
mod rule_faults;
mod rule_texts;
mod rule_words;
mod rules;
mod schedule_faults;
mod schedule_numbers;
mod schedule_texts;
mod schedule_words;
mod schedules;
mod timed_schedules;
mod timed_words;
mod versions;
mod zone_bytes;
mod zone_faults;
mod zoned_schedules;
mod zones;

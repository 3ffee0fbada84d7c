//! The searches for instances: the next, the previous, and one after another.
pub(crate) mod date_list;
pub(crate) mod first_members;
pub(crate) mod instance_date_times;
pub(crate) mod instance_iterator;
pub(crate) mod intervals;
pub(crate) mod next_date_time;
pub(crate) mod next_instance;
pub(crate) mod next_member;
pub(crate) mod period_members;
pub(crate) mod periods;
pub(crate) mod previous_instance;
pub(crate) mod recurrence;
pub(crate) mod repeats;
pub(crate) mod skipped_by_position;
pub(crate) mod skipped_by_year_day;
pub(crate) mod skipped_days;

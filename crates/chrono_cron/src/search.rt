//! The searches of a schedule: its days, its minutes, its moments in order, and whether two schedules are due at the same.
pub(crate) mod days;
pub(crate) mod due_moments;
pub(crate) mod minutes;
pub(crate) mod same_minutes;

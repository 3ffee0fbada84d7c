//! The searches: times of day, local times, and instants.

mod candidates;
pub(crate) mod days;
pub(crate) mod instants;
mod near_changes;
mod times;
pub(crate) mod zoned_instances;
pub(crate) mod zoned_members;

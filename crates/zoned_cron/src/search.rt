//! The instants of a planned local time, and the first and the last instant at which a schedule fires.

pub(crate) mod firings;
pub(crate) mod held;
pub(crate) mod instants;
mod next;
mod previous;

//! The tables of this crate. Each has a module of its own, where a single function reads it.

pub(crate) mod mdl_to_ol;
pub(crate) mod ol_to_mdl;
pub(crate) mod year_deltas;

//! Tournaments and their networks, before anything is played.

pub(crate) mod advice;
pub(crate) mod built_in_tournament;
pub(crate) mod check;
pub(crate) mod network_places;
pub(crate) mod notes;
pub(crate) mod summaries;

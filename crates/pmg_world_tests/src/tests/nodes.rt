//! What no clause says: which frames a node sends beyond those that it owes, in which order; that
//! each call gives its answer where there is memory, and an act also when it is done again after an
//! allocation failed. Whole runs of a few acts, with replies and frames found by hand.
mod calls;
mod fence_acts;
mod fence_news;
mod get_acts;
pub(crate) mod group;
mod ignored_frames;
mod links;
mod moving_levels;
mod refresh_acts;
mod refusal_acts;
mod set_acts;
pub(crate) mod text;
pub(crate) mod words;

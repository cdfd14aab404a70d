//! The nodes of a group and their processes together, as definitions, with the laws over every interleaving of their steps. `pmg_world` is
//! such a group in code.
#![tactic(auto)]

mod laws;

pub use laws::{every_interleaving, worked_runs};

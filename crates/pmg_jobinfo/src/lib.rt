//! The namespaces of a group, the homes of their processes, and what reserved keys tell of them.
#![tactic(auto)]

mod expansion;
mod homes;
mod laws;
mod meant;
mod names;
mod registry;
mod reserved;

pub use laws::{expansion_rules, home_rules};
pub use registry::{MAX_NODES, MAX_RANKS, MAX_SPACES, Registry};
pub use reserved::ReservedKey;

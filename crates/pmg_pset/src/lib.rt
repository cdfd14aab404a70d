//! The process sets of a group, as commits of the process that stands for its host.
#![tactic(auto)]

mod laws;
mod members;
mod sets;

pub use laws::set_rules;
pub use members::{MAX_MEMBERS, members_in};
pub use sets::Sets;

//! A group as text: the names of its nodes and its namespaces, in the form of the first lines of a script.
#![tactic(auto)]

mod group;
mod nodes;
mod registering;

pub use group::read_group;
pub use nodes::node_id;
pub use registering::register_space;

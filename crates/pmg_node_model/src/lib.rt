//! The behaviour of a node, as definitions: its refusals, its replies, its states, and the frames that it sends. This crate has the laws of
//! these definitions; `pmg_node` is the code that refines them.
#![tactic(auto)]

mod due;
mod laws;
mod sending_laws;
mod sent;

pub use due::ToSend;
pub use laws::node_rules;
pub use sending_laws::sending_rules;
pub use sent::Sent;

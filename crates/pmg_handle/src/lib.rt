//! The handle with which C holds a node.
#![tactic(auto)]

mod handle;
mod loose;
mod place;

pub use handle::Handle;
pub use loose::Loose;
pub use place::Place;

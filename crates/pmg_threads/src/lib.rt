//! The threads of a job of several nodes: one desk a node, one thread a client, and links that carry frames from server to
//! server.
#![tactic(auto)]

mod desks;
mod exchange;
mod links;
mod program;
mod running;
mod shortage;

pub use exchange::Exchange;
pub use links::Links;
pub use program::{Program, Report, Unaudited};
pub use running::run_unaudited;

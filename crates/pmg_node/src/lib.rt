//! The server of one node: every call of its processes and every frame of another node is one step of the model.
#![tactic(auto)]

mod act;
mod acting;
mod arriving;
mod asked;
mod call_ends;
mod causes;
mod committing;
mod delivering;
mod ending;
mod entering;
mod fencing;
mod getting;
mod headers;
mod laws;
mod leaving;
mod members;
mod node;
mod nudging;
mod opening;
mod parking;
mod pieces;
mod publishing;
mod refreshing;
mod replying;
mod sealing;
mod server;
mod setting;
mod status;
mod taking;

pub use act::{Act, Acted, Joined, Reply, Request};
pub use asked::Delivery;
pub use causes::{Listing, look_up};
pub use committing::Committed;
pub use getting::is_bad_get;
pub use laws::joining_rules;
pub use leaving::Release;
pub use node::Node;
pub use parking::Asked;
pub use server::Server;
pub use status::Status;
pub use taking::Taking;

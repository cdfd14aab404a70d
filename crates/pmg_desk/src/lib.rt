//! The state under the lock of a node: the node, its journal, and the publisher of its board.
#![tactic(auto)]

mod client;
mod desk;
mod exclusive;
mod happening;
pub mod laws;
mod lock;
mod reading;
mod replies;
mod state;

pub use client::{Client, Unended};
pub use lock::Desk;
pub use pmg_journal::{Journal, Transcript};

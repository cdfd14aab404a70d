//! A group of nodes and their processes in code, and scripts for it. Each run of the group is a run of the model.
#![tactic(auto)]

mod asking;
mod delivered;
mod event;
mod group;
mod phase;
mod reply_lines;
mod scene;
mod stage;
mod world;

pub use event::{Event, LoggedEvent};
pub use reply_lines::{flow_line, members_line, refusal_line, reply_line};
pub use stage::{Stage, replay};
pub use world::{RunFailed, World};

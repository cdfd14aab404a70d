//! A list of entries that only grows, of which several know prefixes. The list is in proofs alone; the code keeps counts.
#![tactic(auto)]

mod appender;
mod history;
mod rule;

pub use appender::Appender;
pub use history::History;

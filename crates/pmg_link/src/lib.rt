//! One server with its incoming and its waiting frames, for programs that carry frames themselves.
#![tactic(auto)]

mod inbox;
mod link;

pub use inbox::Inbox;
pub use link::Link;

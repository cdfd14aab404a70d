//! The state that a node has of its own processes, and the frames that become due: the processes' commits and calls, the answers that come
//! with a change, and the frames to send with the marks of each other node.
#![tactic(auto)]

mod ahead;
mod answering;
mod call;
mod calls;
mod due;
mod own;
mod sealers;
mod telling;
mod waiting;

pub use ahead::BoardPreview;
pub use answering::{answers_about, answers_in, answers_then, asks_again};
pub use call::{Call, Completion, Found};
pub use calls::Calls;
pub use due::{MarkUndo, SendUndo, hand_out, rollback};
pub use own::LocalCommits;
pub use sealers::Sealers;
pub use telling::{
    announce, answer_commits, peers, peers_in, spread, takes_part, tell, tell_waiting,
};

//! A node in the program of a daemon: calls with bytes and numbers, each answered by a code.
#![tactic(auto)]

mod call;
mod calls;
mod codes;
mod daemon;
mod filling;
mod frames;
mod told;

pub use codes::{
    DONE, IDLE, IGNORED, NO_MEMORY, REFUSED, TOO_SMALL, WAITS, WRONG_HANDLE, refusal_code,
    refusal_text,
};
pub use daemon::Daemon;

use pmg_value::{Copied, Proc};
use std::alloc::AllocError;

/// The state of a participant in a fence: it has entered, or it terminated before it did.
#[derive(Clone, Copy, PartialEq, Eq)]
pub enum State {
    Entered,
    Gone,
}

/// The line of a header for one of its node's own participants: its state, and its level at the entry or at its termination.
#[derive(Drop, PartialEq, Eq)]
pub struct Local {
    pub proc: Proc,
    pub state: State,
    pub level: u64,
}

impl Copied for Local {
    fn copy(&self) -> Result<Local, AllocError> {
        Ok(Local {
            proc: self.proc.copy()?,
            state: self.state,
            level: self.level,
        })
    }
}

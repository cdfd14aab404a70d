ghost use Rattle.std.specs.Prelude.{◌≡◌, IfOk};
ghost use Rattle.pmg_frame.specs.Fences.{is_gone};
ghost use Rattle.pmg_fence.specs.Entering.{local_of};

use pmg_frame::{Local, State};
use pmg_value::Proc;
use std::alloc::AllocError;

/// The entry of a participant in a fence: it has entered the fence, or it ended before; with the number of its commits at that time.
#[derive(Clone, Copy, PartialEq, Eq)]
pub struct Entry {
    pub state: State,
    pub level: u64,
}

impl Entry {
    /// Returns whether the participant ended before it entered.
    pub(crate) fn is_gone(self) -> bool
        ensures { result ≡ is_gone self.state }
    {
        match self.state {
            State::Entered => false,
            State::Gone => true,
        }
    }

    /// Returns the line of the process in a header.
    pub(crate) fn local(self, proc: &Proc) -> Result<Local, AllocError>
        ensures { IfOk result (λ l. l ≡ local_of proc.now self) }
    {
        Ok(Local {
            proc: proc.copy()?,
            state: self.state,
            level: self.level,
        })
    }
}

//! The acts of a node and its replies, as one call takes and gives them.
ghost use Rattle.std.specs.Prelude.{◌≡◌, IfOk, IfSome, IsNone};
ghost use Rattle.pmg_node.specs.Acting.{act_of, joins_in, reply_as, request_of};
ghost use Rattle.pmg_node.specs.Joining.{no_joins};
ghost use Rattle.pmg_node.specs.Kinds.{IsAsked, IsRelease, IsTaking};
ghost use Rattle.pmg_node.specs.Replies.{asked_reply, release_reply, taking_reply};

use crate::leaving::Release;
use crate::parking::Asked;
use crate::taking::Taking;
use pmg_commit::Piece;
use pmg_frame::Frame;
use pmg_get::Mode;
use pmg_scope::Batch;
use pmg_value::{Key, Proc, Value, copy_all};
use std::alloc::AllocError;

/// A request to a node, by a process at home there or by the operator of the node (PMIx Standard 5.0, PMIx_Fence, PMIx_Get, PMIx_Finalize,
/// process sets).
pub enum Request {
    /// The process enters its next fence of these participants; the flag says whether the fence collects data.
    Enter(Proc, Vec<Proc>, bool),
    /// The process leaves the fence that released it.
    Leave(Proc),
    /// The process asks, in that mode, for a key of the target.
    Ask(Mode, Proc, Proc, Key),
    /// The process takes the answer of the get that it waited for.
    Take(Proc),
    /// The process ends.
    Terminate(Proc),
    /// The operator defines a set of these processes.
    Define(Key, Vec<Proc>),
    /// The operator deletes the set.
    Delete(Key),
    /// The node asks other nodes again for missing headers and commits.
    Nudge,
}

impl Drop for Request {
    #[inline(always)]
    fn drop(self) {
        match self {
            Request::Enter(_, _, _) => {}
            Request::Leave(_) => {}
            Request::Ask(_, _, _, _) => {}
            Request::Take(_) => {}
            Request::Terminate(_) => {}
            Request::Define(_, _) => {}
            Request::Delete(_) => {}
            Request::Nudge => {}
        }
    }
}

impl Request {
    /// Returns a copy, an equal request.
    pub fn copy(&self) -> Result<Request, AllocError>
        ensures { IfOk result (λ r. request_of r ≡ request_of self.now) }
    {
        Ok(match self {
            Request::Enter(proc, list, collect) => {
                Request::Enter(proc.copy()?, copy_all(list)?, *collect)
            }
            Request::Leave(proc) => Request::Leave(proc.copy()?),
            Request::Ask(mode, proc, target, key) => {
                Request::Ask(*mode, proc.copy()?, target.copy()?, key.copy()?)
            }
            Request::Take(proc) => Request::Take(proc.copy()?),
            Request::Terminate(proc) => Request::Terminate(proc.copy()?),
            Request::Define(name, list) => Request::Define(name.copy()?, copy_all(list)?),
            Request::Delete(name) => Request::Delete(name.copy()?),
            Request::Nudge => Request::Nudge,
        })
    }
}

/// An act of a node.
pub enum Act {
    /// A request.
    Request(Request),
    /// The process commits these puts.
    Commit(Proc, Batch),
    /// The node receives a frame of another node.
    Deliver(Frame),
}

impl Drop for Act {
    fn drop(self) {
        match self {
            Act::Request(_) => {}
            Act::Commit(_, _) => {}
            Act::Deliver(_) => {}
        }
    }
}

impl Act {
    /// Returns a copy, an equal act.
    pub fn copy(&self) -> Result<Act, AllocError>
        ensures { IfOk result (λ copy. act_of copy ≡ act_of self.now) }
    {
        Ok(match self {
            Act::Request(request) => Act::Request(request.copy()?),
            Act::Commit(proc, batch) => Act::Commit(proc.copy()?, batch.copy()?),
            Act::Deliver(frame) => Act::Deliver(frame.copy()?),
        })
    }
}

/// The reply of a node to an act that it does not refuse.
pub enum Reply {
    /// The act is done.
    Done,
    /// The commit's number.
    Committed(u64),
    /// The instance of the fence that was entered.
    Entered(u64),
    /// The process is not in such a call.
    Idle,
    /// The process still waits.
    Waiting,
    /// The process is released from the instance of its fence; these participants were gone.
    Released(u64, Vec<Proc>),
    /// The value.
    Found(Value),
    /// The get waits.
    Parked,
    /// The frame is taken.
    Taken,
    /// The frame does not concern the node.
    Ignored,
    /// The number of the process's last commit, which is its end.
    Ended(u64),
    /// The number of the change of the process sets.
    Defined(u64),
}

impl Drop for Reply {
    fn drop(self) {
        match self {
            Reply::Done => {}
            Reply::Committed(_) => {}
            Reply::Entered(_) => {}
            Reply::Idle => {}
            Reply::Waiting => {}
            Reply::Released(_, _) => {}
            Reply::Found(_) => {}
            Reply::Parked => {}
            Reply::Taken => {}
            Reply::Ignored => {}
            Reply::Ended(_) => {}
            Reply::Defined(_) => {}
        }
    }
}

impl Reply {
    /// Returns a copy, an equal reply.
    pub fn copy(&self) -> Result<Reply, AllocError>
        ensures { IfOk result (λ copy. reply_as copy ≡ reply_as self.now) }
    {
        Ok(match self {
            Reply::Done => Reply::Done,
            Reply::Committed(number) => Reply::Committed(*number),
            Reply::Entered(instance) => Reply::Entered(*instance),
            Reply::Idle => Reply::Idle,
            Reply::Waiting => Reply::Waiting,
            Reply::Released(instance, gone) => Reply::Released(*instance, copy_all(gone)?),
            Reply::Found(value) => Reply::Found(value.copy()?),
            Reply::Parked => Reply::Parked,
            Reply::Taken => Reply::Taken,
            Reply::Ignored => Reply::Ignored,
            Reply::Ended(number) => Reply::Ended(*number),
            Reply::Defined(number) => Reply::Defined(*number),
        })
    }

    /// Returns the reply to a process that leaves a fence, if this is such a reply.
    pub fn into_release(self) -> Option<Release>
        ensures some { IfSome result (λ x. release_reply x ≡ reply_as self) }
        ensures none { IsNone result → IsRelease (reply_as self) → ⊥ }
    {
        match self {
            Reply::Idle => Some(Release::Idle),
            Reply::Waiting => Some(Release::Waiting),
            Reply::Released(instance, gone) => Some(Release::Released(instance, gone)),
            _ => None,
        }
    }

    /// Returns the reply to a process that asks for a key, if this is such a reply.
    pub fn into_asked(self) -> Option<Asked>
        ensures some { IfSome result (λ x. asked_reply x ≡ reply_as self) }
        ensures none { IsNone result → IsAsked (reply_as self) → ⊥ }
    {
        match self {
            Reply::Found(value) => Some(Asked::Found(value)),
            Reply::Parked => Some(Asked::Parked),
            _ => None,
        }
    }

    /// Returns the reply to a process that takes an answer, if this is such a reply.
    pub fn into_taking(self) -> Option<Taking>
        ensures some { IfSome result (λ x. taking_reply x ≡ reply_as self) }
        ensures none { IsNone result → IsTaking (reply_as self) → ⊥ }
    {
        match self {
            Reply::Idle => Some(Taking::Idle),
            Reply::Waiting => Some(Taking::Waiting),
            Reply::Found(value) => Some(Taking::Found(value)),
            _ => None,
        }
    }
}

/// The pieces that an act joined into the stores of its node.
pub struct Joined {
    /// For reads from the node itself.
    pub near: Option<Piece>,
    /// For reads from other nodes.
    pub far: Option<Piece>,
}

impl Drop for Joined {
    fn drop(self) {
        let Self { near, far } = self;
    }
}

impl Joined {
    /// Returns the value of an act that joins nothing.
    pub fn nothing() -> Joined
        ensures { joins_in result ≡ no_joins }
    {
        Joined {
            near: None,
            far: None,
        }
    }
}

/// The result of an act that is not refused.
#[derive(Drop)]
pub struct Acted {
    /// The reply.
    pub reply: Reply,
    /// The joined pieces.
    pub joined: Joined,
}

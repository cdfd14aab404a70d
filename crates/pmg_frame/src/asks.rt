ghost use Rattle.std.specs.Prelude.{◌≡◌, ◌≤◌, ◌||◌, IsTrue, IfOk, Ok, Err, if◌then◌else◌};
ghost use Rattle.pmg_value.specs.Process.{is_client, is_host};
ghost use Rattle.pmg_value.specs.declared.refusal.Refusal.TheVariants as refusals;
ghost use Rattle.pmg_frame.specs.Fences.{fence_ask, commit_ask, is_ask};

use crate::fence_name::FenceName;
use pmg_commit::MAX_COMMIT;
use pmg_value::{NodeId, Proc, Refusal};
use std::alloc::AllocError;
use std::marker::Model;

/// A request of a node for another node's header of a fence.
#[derive(Drop)]
pub struct FenceAsk {
    node: NodeId,
    name: FenceName,
}

impl Model for FenceAsk {
    ghost use Rattle.pmg_frame.specs.Fences as fences;

    ghost Value = { fences.FenceAsk };

    ghost coded = { fences.coded_fence_ask };

    ghost view = { λ a. fences.fence_ask a.node a.name };
}

/// A request of a node for a process's commits after a level: for those that there are, or, in a direct modex, for later ones once there
/// are any.
#[derive(Drop)]
pub struct CommitAsk {
    node: NodeId,
    proc: Proc,
    level: u64,
}

impl Model for CommitAsk {
    ghost use Rattle.pmg_frame.specs.Fences as fences;

    ghost Value = { fences.CommitAsk };

    ghost use Rattle.std.specs.Prelude.{IsTrue};

    ghost view = { λ a. fences.commit_ask a.node a.proc a.level };

    ghost invariant = { λ a. IsTrue (fences.is_ask (fences.commit_ask a.node a.proc a.level)) };
}

/// Returns whether a frame can ask for commits of the process after that one.
pub fn can_be_asked(proc: &Proc, level: u64) -> bool
    ensures { result ≡ is_ask (commit_ask 0 proc.now level) }
{
    proc.can_commit() && level <= MAX_COMMIT
}

impl FenceAsk {
    /// Returns the ask of that node for that fence.
    pub fn new(node: NodeId, name: FenceName) -> FenceAsk
        ensures { result ≡ fence_ask node name }
    {
        FenceAsk { node, name }
    }

    /// Returns the node that asks.
    pub fn node(&self) -> NodeId
        ensures { result ≡ self.now.node }
    {
        self.node
    }

    /// Returns the fence's name.
    pub fn name(&self) -> &FenceName
        ensures { result.now ≡ self.now.name }
    {
        &self.name
    }

    /// Returns a copy, equal to this ask.
    pub fn copy(&self) -> Result<FenceAsk, AllocError>
        ensures { IfOk result (λ a. a ≡ self.now) }
    {
        Ok(FenceAsk::new(self.node, self.name.copy()?))
    }
}

impl CommitAsk {
    /// Returns the ask of that node for the process's commits after the level. Errors: `BadParam` if the process does not commit, or the
    /// level goes past 4294967295.
    pub fn new(node: NodeId, proc: Proc, level: u64) -> Result<CommitAsk, Refusal>
        ensures { result ≡ (if is_ask (commit_ask node proc level) then Ok (commit_ask node proc level) else Err refusals.BadParam) }
    {
        if !can_be_asked(&proc, level) {
            return Err(Refusal::BadParam);
        }
        Ok(CommitAsk::from_checked(node, proc, level))
    }

    /// Returns the ask of a process and a level that were judged before.
    pub fn from_checked(node: NodeId, proc: Proc, level: u64) -> CommitAsk
        requires { IsTrue (is_ask (commit_ask node proc level)) }
        ensures { result ≡ commit_ask node proc level }
    {
        CommitAsk { node, proc, level }
    }

    /// Returns the node that asks.
    pub fn node(&self) -> NodeId
        ensures { result ≡ self.now.node }
    {
        self.node
    }

    /// Returns the process that commits.
    pub fn proc(&self) -> &Proc
        ensures value { result.now ≡ self.now.proc }
        ensures commits { IsTrue (is_client result.now || is_host result.now) }
    {
        &self.proc
    }

    /// Returns the number of the last commit before the requested ones.
    pub fn level(&self) -> u64
        ensures value { result ≡ self.now.level }
        ensures bound { result ≤ MAX_COMMIT }
    {
        self.level
    }

    /// Returns a copy, equal to this ask.
    pub fn copy(&self) -> Result<CommitAsk, AllocError>
        ensures { IfOk result (λ a. a ≡ self.now) }
    {
        Ok(CommitAsk::from_checked(self.node, self.proc.copy()?, self.level))
    }
}

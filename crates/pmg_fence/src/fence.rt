ghost use Rattle.std.specs.Prelude.{◌≡◌, ◌<◌, ◌^◌, is_some, IfOk, OnOk, OnErr};
ghost use Rattle.pmg_fence.specs.Tables.{no_fence, entry_in};
ghost use Rattle.pmg_fence.specs.Kept.{fence_changed};
ghost use Rattle.pmg_fence.specs.TakenBack.{fence_back};
ghost use Rattle.std.specs.FinMap as finite;

use crate::change::Change;
use crate::entry::Entry;
use crate::headers::Headers;
use crate::numbers::{NumberUndo, Numbers};
use pmg_value::{Copied, Proc};
use std::alloc::{AllocError, Global};
use std::marker::Model;

/// The knowledge of one fence: the levels at which own processes entered it, and the headers of other nodes.
pub struct Fence {
    levels: Numbers,
    headers: Headers,
}

impl Drop for Fence {
    fn drop(self) {
        let Self { levels, headers } = self;
    }
}

impl Model for Fence {
    ghost use Rattle.pmg_fence.specs.Tables as tables;

    ghost Value = { tables.Fence };

    ghost use Rattle.pmg_fence.specs.Codes.{coded_fence};

    ghost coded = { coded_fence };

    ghost view = { λ a. record { levels = a.levels; headers = a.headers } };
}

/// The earlier knowledge of a fence, by which a change can be taken back.
#[derive(Drop)]
pub enum FenceUndo {
    /// Nothing changed.
    Learned,
    /// The earlier level of a process that entered.
    Entered(NumberUndo),
    /// The node whose header was missing, if a header came.
    Told(Option<u64>),
}

impl Fence {
    /// Makes a fence with only a name.
    pub fn new(alloc: Global) -> Fence
        ensures { result ≡ no_fence }
    {
        Fence {
            levels: Numbers::new(alloc),
            headers: Headers::new(alloc),
        }
    }

    /// Applies the change to the fence, and returns the earlier knowledge.
    pub fn change(&mut self, change: Change) -> Result<FenceUndo, AllocError>
        ensures before { IfOk result (λ b. fence_back self.new b ≡ self.old) }
        ensures ok { OnOk result (self.new ≡ fence_changed self.old change) }
        ensures err { OnErr result (self.new ≡ self.old) }
    {
        match change {
            Change::Learned => Ok(FenceUndo::Learned),
            Change::Entered(proc, level) => {
                let before = self.levels.put(proc, level)?;
                Ok(FenceUndo::Entered(before))
            }
            Change::Told(header) => {
                let before = self.headers.put(header)?;
                Ok(FenceUndo::Told(before))
            }
        }
    }

    /// Takes a change back. It takes no memory.
    pub fn rollback(&mut self, before: &FenceUndo)
        ensures { self.new ≡ fence_back self.old before.now }
    {
        match before {
            FenceUndo::Learned => (),
            FenceUndo::Entered(before) => self.levels.rollback(before),
            FenceUndo::Told(node) => self.headers.rollback(*node),
        }
    }

    /// Returns how many processes entered the fence.
    pub fn count(&self) -> usize
        ensures value { result ≡ finite.len self.now.levels }
        ensures small { result < 2 ^ 63 }
    {
        self.levels.len()
    }

    /// Returns the level at which the process entered the fence.
    pub fn level(&self, proc: &Proc) -> Option<u64>
        ensures { result ≡ finite.get self.now.levels proc.now }
    {
        self.levels.get(proc)
    }

    /// Returns whether the node's header is known.
    pub fn has_header(&self, node: u32) -> bool
        ensures { result ≡ is_some (finite.get self.now.headers node) }
    {
        self.headers.contains(node)
    }

    /// Returns the entry of the process in the header of the node.
    pub fn told_entry(&self, node: u32, proc: &Proc) -> Option<Entry>
        ensures { result ≡ entry_in proc.now (finite.get self.now.headers node) }
    {
        self.headers.entry(node, proc)
    }
}

impl Copied for Fence {
    fn copy(&self) -> Result<Fence, AllocError> {
        Ok(Fence {
            levels: self.levels.copy()?,
            headers: self.headers.copy()?,
        })
    }
}

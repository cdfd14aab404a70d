//! What was sent to whom.
ghost use Rattle.std.specs.Prelude.{◌≡◌, None, IfOk, OnOk, OnErr};
ghost use Rattle.std.specs.FinMap as finite;
ghost use Rattle.std.specs.Option.{unwrap_or};
ghost use Rattle.pmg_dmodex.specs.Levels.{node_level, with_level};

use crate::levels::Levels;
use pmg_value::{NodeId, Proc};
use std::alloc::{AllocError, Global};
use std::marker::Model;

/// For each node and process, up to which commit the process's commits were sent to the node. It is where the next
/// ones begin; it promises nothing of what arrived.
#[derive(Drop)]
pub struct Marks {
    levels: Levels,
}

impl Model for Marks {
    ghost use Rattle.pmg_dmodex.specs.Levels.{Levels, coded_levels};

    ghost Value = { Levels };

    ghost coded = { coded_levels };

    ghost view = { λ a. a.levels };
}

impl Marks {
    /// Nothing was sent to anybody. It keeps the allocator.
    pub fn new(alloc: Global) -> Marks
        ensures { result ≡ finite.empty }
    {
        Marks {
            levels: Levels::new(alloc),
        }
    }

    /// The mark of the node for the process, 0 where none was set.
    pub fn from(&self, node: NodeId, proc: &Proc) -> u64
        ensures { result ≡ unwrap_or (node_level self.now proc.now node) 0 }
    {
        self.get(node, proc).unwrap_or(0)
    }

    /// The mark of the node for the process, if it was set.
    pub fn get(&self, node: NodeId, proc: &Proc) -> Option<u64>
        ensures { result ≡ node_level self.now proc.now node }
    {
        self.levels.get(proc, node)
    }

    /// Sets the mark of the node for the process, upwards or downwards. All other marks stay. Where an allocation
    /// fails, nothing changes; none is made where the mark was set before.
    pub fn set(&mut self, node: NodeId, proc: &Proc, level: u64) -> Result<(), AllocError>
        ensures ok { OnOk result (self.new ≡ with_level self.old proc.now node level) }
        ensures err { OnErr result (self.new ≡ self.old) }
        ensures absent { OnErr result (node_level self.old proc.now node ≡ None) }
    {
        self.levels.set(proc, node, level)
    }

    /// Others of the same meaning, with the same allocator.
    pub fn copy(&self) -> Result<Marks, AllocError>
        ensures { IfOk result (λ copy. copy ≡ self.now) }
    {
        Ok(Marks {
            levels: self.levels.copy()?,
        })
    }
}

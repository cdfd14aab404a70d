//! Levels by node, and by process and node.
ghost use Rattle.std.specs.Prelude.{◌≡◌, None, IfOk, OnOk, OnErr};
ghost use Rattle.std.specs.FinMap as finite;
ghost use Rattle.pmg_dmodex.specs.Levels.{below, node_level, levels_of, not_below, with_level, without_below};

use pmg_value::{Copied, Growable, NodeId, Proc, copy_rows, grow_row};
use std::alloc::{AllocError, Global};
use std::collections::BTreeMap;
use std::marker::Model;

/// A level for each of some nodes.
#[derive(Drop)]
pub struct NodeLevels {
    alloc: Global,
    rows: BTreeMap<NodeId, u64>,
}

impl Model for NodeLevels {
    ghost use Rattle.pmg_value.specs.Rows.{map_of};
    ghost use Rattle.pmg_dmodex.specs.Levels.{NodeLevels, coded_node_levels};

    ghost Value = { NodeLevels };

    ghost coded = { coded_node_levels };

    ghost view = { λ a. map_of a.rows.entries };
}

impl NodeLevels {
    /// No levels. They keep the allocator.
    pub fn new(alloc: Global) -> NodeLevels
        ensures { result ≡ finite.empty }
    {
        NodeLevels {
            alloc,
            rows: BTreeMap::new(alloc),
        }
    }

    /// The node's level.
    fn get(&self, node: NodeId) -> Option<u64>
        ensures { result ≡ finite.get self.now node }
    {
        self.rows.get(&node).copied()
    }

    /// The nodes whose level is below that one, with their levels, by node.
    fn below(&self, level: u64) -> Result<Vec<(NodeId, u64)>, AllocError>
        ensures { IfOk result (λ pairs. pairs.items ≡ below level self.now) }
    {
        let mut pairs = Vec::new(self.alloc);
        for (node, held) in self.rows.iter() {
            if *held < level {
                pairs.push((*node, *held))?;
            }
        }
        Ok(pairs)
    }

    /// Lets the levels below that one go.
    fn drop_below(&mut self, level: u64)
        ensures { self.new ≡ not_below level self.old }
    {
        self.rows.retain(|_, held| *held >= level);
    }
}

impl Growable for NodeLevels {
    ghost use Rattle.std.specs.Prelude.{◌≡◌, None};
    ghost use Rattle.std.specs.FinMap as finite;

    type Part = (NodeId, u64);

    ghost grown = { λ m part. finite.insert m part.0 part.1 };

    ghost MayFail = { λ m part. finite.get m part.0 ≡ None };

    /// Sets the node's level.
    fn grow(&mut self, part: (NodeId, u64)) -> Result<(), AllocError> {
        let (node, level) = part;
        self.rows.insert(node, level)?;
        Ok(())
    }
}

impl Copied for NodeLevels {
    fn copy(&self) -> Result<NodeLevels, AllocError> {
        Ok(NodeLevels {
            alloc: self.alloc,
            rows: copy_rows(self.alloc, &self.rows)?,
        })
    }
}

/// A level for each of some processes and nodes.
#[derive(Drop)]
pub struct Levels {
    alloc: Global,
    rows: BTreeMap<Proc, NodeLevels>,
}

impl Model for Levels {
    ghost use Rattle.pmg_value.specs.Rows.{map_of};
    ghost use Rattle.pmg_dmodex.specs.Levels.{Levels, coded_levels};

    ghost Value = { Levels };

    ghost coded = { coded_levels };

    ghost view = { λ a. map_of a.rows.entries };
}

impl Levels {
    /// No levels. It keeps the allocator.
    pub fn new(alloc: Global) -> Levels
        ensures { result ≡ finite.empty }
    {
        Levels {
            alloc,
            rows: BTreeMap::new(alloc),
        }
    }

    /// The process's level at the node.
    pub fn get(&self, proc: &Proc, node: NodeId) -> Option<u64>
        ensures { result ≡ node_level self.now proc.now node }
    {
        match self.rows.get(proc) {
            Some(levels) => levels.get(node),
            None => None,
        }
    }

    /// Sets the process's level at the node. Where an allocation fails, nothing changes; none is made where there is a
    /// level.
    pub fn set(&mut self, proc: &Proc, node: NodeId, level: u64) -> Result<(), AllocError>
        ensures ok { OnOk result (self.new ≡ with_level self.old proc.now node level) }
        ensures err { OnErr result (self.new ≡ self.old) }
        ensures absent { OnErr result (node_level self.old proc.now node ≡ None) }
    {
        let none = NodeLevels::new(self.alloc);
        grow_row(&mut self.rows, proc, none, (node, level))
    }

    /// The nodes at which the process's level is below that one, with their levels, by node.
    pub fn below(&self, proc: &Proc, level: u64) -> Result<Vec<(NodeId, u64)>, AllocError>
        ensures { IfOk result (λ pairs. pairs.items ≡ below level (levels_of self.now proc.now)) }
    {
        match self.rows.get(proc) {
            Some(levels) => levels.below(level),
            None => Ok(Vec::new(self.alloc)),
        }
    }

    /// Lets the process's levels below that one go.
    pub fn drop_below(&mut self, proc: &Proc, level: u64)
        ensures { self.new ≡ without_below self.old proc.now level }
    {
        if let Some(levels) = self.rows.get_mut(proc) {
            levels.drop_below(level);
        }
    }

    /// Others of the same meaning, with the same allocator.
    pub fn copy(&self) -> Result<Levels, AllocError>
        ensures { IfOk result (λ copy. copy ≡ self.now) }
    {
        Ok(Levels {
            alloc: self.alloc,
            rows: copy_rows(self.alloc, &self.rows)?,
        })
    }
}

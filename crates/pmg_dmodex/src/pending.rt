//! Requests that wait.
ghost use Rattle.std.specs.Prelude.{◌≡◌, ◌≤◌, ◌↔◌, suc, Err, IfOk, OnOk, OnErr};
ghost use Rattle.std.specs.FinMap as finite;
ghost use Rattle.std.specs.Option.{option_map};
ghost use Rattle.pmg_value.specs.declared.refusal.Refusal.TheVariants as refusals;
ghost use Rattle.pmg_dmodex.specs.Refreshes.{answered, asker_at, requested};
ghost use Rattle.pmg_dmodex.specs.Requests.{asking, due, greatest, holding, is_below, least, no_requests, requests_settled, with_anew};

use crate::levels::Levels;
use crate::refreshes::Refreshes;
use pmg_value::{NodeId, Proc, Refusal, copy_rows};
use std::alloc::{AllocError, Global};
use std::collections::BTreeMap;
use std::marker::Model;

/// The level at which each process's home was asked for its commits.
#[derive(Drop)]
pub struct Asked {
    alloc: Global,
    rows: BTreeMap<Proc, u64>,
}

impl Model for Asked {
    ghost use Rattle.pmg_value.specs.Rows.{map_of};
    ghost use Rattle.pmg_dmodex.specs.Requests.{Asked, coded_asked};

    ghost Value = { Asked };

    ghost coded = { coded_asked };

    ghost view = { λ a. map_of a.rows.entries };
}

impl Asked {
    /// Nobody was asked. It keeps the allocator.
    pub fn new(alloc: Global) -> Asked
        ensures { result ≡ finite.empty }
    {
        Asked {
            alloc,
            rows: BTreeMap::new(alloc),
        }
    }

    /// The level at which the process's home was asked.
    fn get(&self, proc: &Proc) -> Option<u64>
        ensures { result ≡ finite.get self.now proc.now }
    {
        self.rows.get(proc).copied()
    }

    /// Sets the level at which the process's home was asked.
    fn set(&mut self, proc: Proc, level: u64) -> Result<(), AllocError>
        ensures ok { OnOk result (self.new ≡ finite.insert self.old proc level) }
        ensures err { OnErr result (self.new ≡ self.old) }
    {
        self.rows.insert(proc, level)?;
        Ok(())
    }

    /// Lets the process's level go.
    fn remove(&mut self, proc: &Proc)
        ensures { self.new ≡ finite.remove self.old proc.now }
    {
        self.rows.remove(proc);
    }

    /// Another one of the same meaning, with the same allocator.
    fn copy(&self) -> Result<Asked, AllocError>
        ensures { IfOk result (λ copy. copy ≡ self.now) }
    {
        Ok(Asked {
            alloc: self.alloc,
            rows: copy_rows(self.alloc, &self.rows)?,
        })
    }
}

/// The requests of a node for commits of processes: those that it sent to their homes, those of other nodes that wait
/// until a process of this node has commits past the level that they know, and its own of gets that ask anew, under
/// numbers.
pub struct Pending {
    asked: Asked,
    held: Levels,
    anew: Refreshes,
}

impl Drop for Pending {
    fn drop(self) {
        let Self { asked, held, anew } = self;
    }
}

impl Model for Pending {
    ghost use Rattle.pmg_dmodex.specs.Requests.{Requests, coded_requests};

    ghost Value = { Requests };

    ghost coded = { coded_requests };

    ghost view = { λ a. record { asked = a.asked; held = a.held; anew = a.anew } };
}

impl Pending {
    /// No requests. It keeps the allocator.
    pub fn new(alloc: Global) -> Pending
        ensures { result ≡ no_requests }
    {
        Pending {
            asked: Asked::new(alloc),
            held: Levels::new(alloc),
            anew: Refreshes::new(alloc),
        }
    }

    /// Records that the process's home was asked for its commits past the level. Where an allocation fails, nothing
    /// changes.
    pub fn ask(&mut self, proc: &Proc, level: u64) -> Result<(), AllocError>
        ensures ok { OnOk result (self.new ≡ asking self.old proc.now level) }
        ensures err { OnErr result (self.new ≡ self.old) }
    {
        let level = match self.asked.get(proc) {
            Some(before) => before.max(level),
            None => level,
        };
        self.asked.set(proc.copy()?, level)
    }

    /// The greatest level at which the process's home was asked, and not answered yet.
    pub fn asked(&self, proc: &Proc) -> Option<u64>
        ensures { result ≡ finite.get self.now.asked proc.now }
    {
        self.asked.get(proc)
    }

    /// Keeps that the node waits for commits of the process past the level. Of two levels of one node the least
    /// counts. Where an allocation fails, nothing changes.
    pub fn hold(&mut self, node: NodeId, proc: &Proc, level: u64) -> Result<(), AllocError>
        ensures ok { OnOk result (self.new ≡ holding self.old node proc.now level) }
        ensures err { OnErr result (self.new ≡ self.old) }
    {
        let level = match self.held.get(proc, node) {
            Some(before) => before.min(level),
            None => level,
        };
        self.held.set(proc, node, level)
    }

    /// The nodes that wait for a commit that the process has at the level, with the levels that they know, by node.
    pub fn due(&self, proc: &Proc, level: u64) -> Result<Vec<(NodeId, u64)>, AllocError>
        ensures { IfOk result (λ pairs. pairs.items ≡ due self.now proc.now level) }
    {
        self.held.below(proc, level)
    }

    /// The process has come to the level: the nodes that are due at it wait no longer, and what was asked for below
    /// it is answered.
    pub fn settle(&mut self, proc: &Proc, level: u64)
        ensures { self.new ≡ requests_settled self.old proc.now level }
    {
        self.held.drop_below(proc, level);
        if let Some(asked) = self.asked.get(proc) {
            if asked < level {
                self.asked.remove(proc);
            }
        }
    }

    /// The number of the last request of a get that asks anew, 0 before the first.
    pub fn last_request(&self) -> u64
        ensures { result ≡ self.now.anew.last }
    {
        self.anew.last()
    }

    /// The next number, for a request of the asker's that asks anew for commits of the target. Refused: TooMany where the
    /// last one was 18446744073709551615, then as NoMemory; a refusal changes nothing.
    pub fn request(&mut self, asker: &Proc, target: &Proc) -> Result<u64, Refusal>
        ensures too_many { (result ≡ Err refusals.TooMany) ↔ (18446744073709551615 ≤ self.old.anew.last) }
        ensures number { IfOk result (λ number. number ≡ suc self.old.anew.last) }
        ensures ok { OnOk result (self.new ≡ with_anew self.old
            (requested self.old.anew asker.now target.now)) }
        ensures err { OnErr result (self.new ≡ self.old) }
    {
        self.anew.request(asker, target)
    }

    /// Who asks anew for commits of the target under the number.
    pub fn asker_of(&self, number: u64, target: &Proc) -> Option<&Proc>
        ensures { option_map (λ asker. asker.now) result ≡ asker_at self.now.anew number target.now }
    {
        self.anew.asker_of(number, target)
    }

    /// The request for commits of the target under the number is answered, where there is such a one: who asked.
    pub fn answered(&mut self, number: u64, target: &Proc) -> Option<Proc>
        ensures asker { result ≡ asker_at self.old.anew number target.now }
        ensures left { self.new ≡ with_anew self.old (answered self.old.anew number target.now) }
    {
        self.anew.answered(number, target)
    }

    /// Others of the same meaning, with the same allocator.
    pub fn copy(&self) -> Result<Pending, AllocError>
        ensures { IfOk result (λ copy. copy ≡ self.now) }
    {
        Ok(Pending {
            asked: self.asked.copy()?,
            held: self.held.copy()?,
            anew: self.anew.copy()?,
        })
    }
}

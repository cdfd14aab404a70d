//! An index of the waiting processes, by the process or the fence that they wait for.
ghost use Rattle.std.specs.Prelude.{◌≡◌, ◌==◌, map, IfOk, OnOk, OnErr};
ghost use Rattle.std.specs.FinMap as finite;
ghost use Rattle.std.specs.FinSet as set;
ghost use Rattle.pmg_value.specs.InOrder.{in_order};
ghost use Rattle.pmg_value.specs.Rows.{changed_at};
ghost use Rattle.pmg_node_parts.specs.Calls.{standing_of};
ghost use Rattle.pmg_node_parts.specs.Waiters.{waiters_in, waiting_too, waiting_less};

use crate::call::Call;
use pmg_dmodex::Parked;
use pmg_frame::FenceName;
use pmg_value::Proc;
use std::alloc::{AllocError, Global};
use std::collections::{BTreeMap, BTreeSet};
use std::marker::Model;

/// A set of processes.
#[derive(Drop)]
struct Procs {
    alloc: Global,
    items: BTreeSet<Proc>,
}

impl Model for Procs {
    ghost use Rattle.std.specs.FinSet as set;
    ghost use Rattle.pmg_node_parts.specs.Waiters.{Procs, coded_procs};

    ghost Value = { Procs };

    ghost coded = { coded_procs };

    ghost view = { λ a. set.from_list a.items.keys };
}

impl Procs {
    /// Makes an empty set. It keeps the allocator.
    fn new(alloc: Global) -> Procs
        ensures { result ≡ set.empty }
    {
        Procs {
            alloc,
            items: BTreeSet::new(alloc),
        }
    }

    /// Returns whether the set is empty.
    fn is_empty(&self) -> bool
        ensures { result ≡ (set.len self.now == 0) }
    {
        self.items.len() == 0
    }

    /// Adds the process.
    fn insert(&mut self, proc: Proc) -> Result<(), AllocError>
        ensures ok { OnOk result (self.new ≡ set.insert self.old proc) }
        ensures err { OnErr result (self.new ≡ self.old) }
    {
        self.items.insert(proc)?;
        Ok(())
    }

    /// Removes the process.
    fn remove(&mut self, proc: &Proc)
        ensures { self.new ≡ set.remove self.old proc.now }
    {
        let _ = self.items.remove(proc);
    }

    /// Returns the processes in their order.
    fn list(&self) -> Result<Vec<Proc>, AllocError>
        ensures { IfOk result (λ procs. procs.items ≡ in_order self.now) }
    {
        let mut procs = Vec::with_capacity(self.alloc, self.items.len())?;
        for proc in self.items.iter() {
            procs.push(proc.copy()?)?;
        }
        Ok(procs)
    }
}

/// The processes that wait in fences.
#[derive(Drop)]
pub struct Waiters {
    alloc: Global,
    rows: BTreeMap<FenceName, Procs>,
}

impl Model for Waiters {
    ghost use Rattle.pmg_value.specs.Rows.{map_of};
    ghost use Rattle.pmg_node_parts.specs.Waiters.{Waiters, coded_waiters};

    ghost Value = { Waiters };

    ghost coded = { coded_waiters };

    ghost view = { λ a. map_of a.rows.entries };
}

impl Waiters {
    /// Makes an empty map: no process waits. It keeps the allocator.
    pub fn new(alloc: Global) -> Waiters
        ensures { result ≡ finite.empty }
    {
        Waiters {
            alloc,
            rows: BTreeMap::new(alloc),
        }
    }

    /// Adds the process to the processes that wait in the fence. If an allocation fails, nothing changes.
    pub fn insert(&mut self, name: &FenceName, proc: &Proc) -> Result<(), AllocError>
        ensures ok { OnOk result (self.new ≡ waiting_too self.old name.now proc.now) }
        ensures err { OnErr result (self.new ≡ self.old) }
    {
        let proc = proc.copy()?;
        if let Some(procs) = self.rows.get_mut(name) {
            return procs.insert(proc);
        }
        let mut procs = Procs::new(self.alloc);
        procs.insert(proc)?;
        let _ = self.rows.insert(name.copy()?, procs)?;
        Ok(())
    }

    /// Removes the process from the processes that wait in the fence, and returns whether no process is left.
    fn take(&mut self, name: &FenceName, proc: &Proc) -> bool
        ensures left { result ≡ (set.len (set.remove (waiters_in self.old name.now) proc.now) == 0) }
        ensures procs { self.new ≡ changed_at self.old name.now (set.remove (waiters_in self.old name.now) proc.now) }
    {
        let Some(procs) = self.rows.get_mut(name) else {
            return true;
        };
        procs.remove(proc);
        procs.is_empty()
    }

    /// Removes the fence.
    fn unlist(&mut self, name: &FenceName)
        ensures { self.new ≡ finite.remove self.old name.now }
    {
        let _ = self.rows.remove(name);
    }

    /// Removes the process from the processes that wait in the fence. It takes no memory.
    pub fn remove(&mut self, name: &FenceName, proc: &Proc)
        ensures { self.new ≡ waiting_less self.old name.now proc.now }
    {
        if self.take(name, proc) {
            self.unlist(name);
        }
    }

    /// Returns the processes that wait in the fence, in their order.
    pub fn list(&self, name: &FenceName) -> Result<Vec<Proc>, AllocError>
        ensures { IfOk result (λ procs. procs.items ≡ in_order (waiters_in self.now name.now)) }
    {
        match self.rows.get(name) {
            Some(procs) => procs.list(),
            None => Ok(Vec::new(self.alloc)),
        }
    }

    /// Returns the fences in which processes wait, in the order of their names.
    pub fn names(&self) -> Result<Vec<&FenceName>, AllocError>
        ensures { IfOk result (λ names. map (λ f. f.now) names.items ≡ finite.keys self.now) }
    {
        let mut names = Vec::with_capacity(self.alloc, self.rows.len())?;
        for (name, _) in self.rows.iter() {
            names.push(name)?;
        }
        Ok(names)
    }
}

/// An index of the waiting processes: gets by the process whose key they ask for, and processes by the fence that they are in. A change of
/// one process or fence then costs only as much as the processes that wait for it.
pub struct Waiting {
    pub gets: Parked,
    pub fences: Waiters,
}

impl Drop for Waiting {
    fn drop(self) {
        let Self { gets, fences } = self;
    }
}

impl Waiting {
    ghost use Rattle.pmg_node_parts.specs.Waiting.{with_waiter, without_call};

    /// Makes an empty index.
    pub fn new(alloc: Global) -> Waiting
        ensures gets { result.gets ≡ finite.empty }
        ensures fences { result.fences ≡ finite.empty }
    {
        Waiting {
            gets: Parked::new(alloc),
            fences: Waiters::new(alloc),
        }
    }

    /// Adds the process, in this call, if it waits. If an allocation fails, nothing changes.
    pub fn add(&mut self, proc: &Proc, call: &Call) -> Result<(), AllocError>
        ensures ok { OnOk result (self.new ≡ with_waiter self.old proc.now (standing_of call.now)) }
        ensures err { OnErr result (self.new ≡ self.old) }
    {
        match call {
            Call::InFence(name) => self.fences.insert(name, proc),
            Call::Parked(target, key) => self.gets.park(target, proc, key),
            Call::Released(..) | Call::Answered(..) => Ok(()),
            Call::Refreshing(..) | Call::Refreshed(..) => Ok(()),
        }
    }

    /// Removes the process, which was in this call. It takes no memory.
    pub fn remove(&mut self, proc: &Proc, call: &Call)
        ensures { self.new ≡ without_call self.old proc.now (standing_of call.now) }
    {
        match call {
            Call::InFence(name) => self.fences.remove(name, proc),
            Call::Parked(target, _) => self.gets.remove(target, proc),
            Call::Released(..) | Call::Answered(..) => {}
            Call::Refreshing(..) | Call::Refreshed(..) => {}
        }
    }

    /// Removes the process again, which did not enter the call.
    pub fn rollback(&mut self, proc: Proc, call: Call)
        ensures { self.new ≡ without_call self.old proc (standing_of call) }
    {
        self.remove(&proc, &call);
    }
}

ghost use Rattle.std.specs.Prelude.{◌≡◌, ◌<◌, ◌^◌, IfOk, OnOk, OnErr};
ghost use Rattle.std.specs.FinMap as finite;
ghost use Rattle.pmg_fence.specs.TakenBack.{number_back};

use pmg_value::{Proc, copy_rows, put_back};
use std::alloc::{AllocError, Global};
use std::collections::BTreeMap;
use std::marker::Model;

/// The earlier number of a process, by which a change can be taken back.
#[derive(Drop)]
pub struct NumberUndo {
    proc: Proc,
    number: Option<u64>,
}

/// A number for each of some processes.
#[derive(Drop)]
pub struct Numbers {
    alloc: Global,
    rows: BTreeMap<Proc, u64>,
}

impl Model for Numbers {
    ghost use Rattle.pmg_value.specs.Rows.{map_of};
    ghost use Rattle.pmg_fence.specs.Tables.{Numbers};
    ghost use Rattle.pmg_fence.specs.Codes.{coded_numbers};

    ghost Value = { Numbers };

    ghost coded = { coded_numbers };

    ghost view = { λ a. map_of a.rows.entries };
}

impl Numbers {
    /// Makes an empty map. It keeps the allocator.
    pub fn new(alloc: Global) -> Numbers
        ensures { result ≡ finite.empty }
    {
        Numbers {
            alloc,
            rows: BTreeMap::new(alloc),
        }
    }

    /// Returns how many processes have a number.
    pub fn len(&self) -> usize
        ensures value { result ≡ finite.len self.now }
        ensures small { result < 2 ^ 63 }
    {
        self.rows.len()
    }

    /// Returns the process's number.
    pub fn get(&self, proc: &Proc) -> Option<u64>
        ensures { result ≡ finite.get self.now proc.now }
    {
        self.rows.get(proc).copied()
    }

    /// Gives the process a number, and returns its earlier one.
    fn insert(&mut self, proc: Proc, number: u64) -> Result<Option<u64>, AllocError>
        ensures ok { OnOk result (self.new ≡ finite.insert self.old proc number) }
        ensures before { IfOk result (λ b. b ≡ finite.get self.old proc) }
        ensures err { OnErr result (self.new ≡ self.old) }
    {
        Ok(self.rows.insert(proc, number)?)
    }

    /// Gives the process a number, and returns the earlier state.
    pub fn put(&mut self, proc: Proc, number: u64) -> Result<NumberUndo, AllocError>
        ensures before { IfOk result (λ b. number_back self.new b ≡ self.old) }
        ensures ok { OnOk result (self.new ≡ finite.insert self.old proc number) }
        ensures err { OnErr result (self.new ≡ self.old) }
    {
        let numbered = proc.copy()?;
        let before = self.insert(proc, number)?;
        Ok(NumberUndo {
            proc: numbered,
            number: before,
        })
    }

    /// Takes back a number that was given. It takes no memory.
    pub fn rollback(&mut self, before: &NumberUndo)
        ensures { self.new ≡ number_back self.old before.now }
    {
        put_back(&mut self.rows, &before.proc, before.number);
    }

    /// Returns an equal copy, with this allocator.
    pub fn copy(&self) -> Result<Numbers, AllocError>
        ensures { IfOk result (λ copy. copy ≡ self.now) }
    {
        Ok(Numbers {
            alloc: self.alloc,
            rows: copy_rows(self.alloc, &self.rows)?,
        })
    }
}

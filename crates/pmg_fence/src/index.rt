ghost use Rattle.std.specs.Prelude.{◌≡◌, OnOk, OnErr};
ghost use Rattle.std.specs.FinMap as finite;
ghost use Rattle.std.specs.FinSet as set;
ghost use Rattle.std.specs.Option.{option_map};
ghost use Rattle.pmg_fence.specs.Kept.{found_signatures, ListsEach, ListsMore};

use crate::signatures::Signatures;
use pmg_frame::Signature;
use pmg_value::Proc;
use std::alloc::{AllocError, Global};
use std::collections::BTreeMap;
use std::marker::Model;

/// The signatures of fences in which a process takes part, by process.
#[derive(Drop)]
pub struct Index {
    alloc: Global,
    rows: BTreeMap<Proc, Signatures>,
}

impl Model for Index {
    ghost use Rattle.pmg_value.specs.Rows.{map_of};
    ghost use Rattle.pmg_fence.specs.Codes.{Index, coded_index};

    ghost Value = { Index };

    ghost coded = { coded_index };

    ghost view = { λ a. map_of a.rows.entries };
}

impl Index {
    /// Makes an index of no process. It keeps the allocator.
    pub fn new(alloc: Global) -> Index
        ensures { result ≡ finite.empty }
    {
        Index {
            alloc,
            rows: BTreeMap::new(alloc),
        }
    }

    /// Returns the signatures of the process.
    pub fn get(&self, proc: &Proc) -> Option<&Signatures>
        ensures { option_map (λ s. s.now) result ≡ finite.get self.now proc.now }
    {
        self.rows.get(proc)
    }

    /// Lists the signature for the process.
    fn put(&mut self, proc: &Proc, signature: &Signature) -> Result<(), AllocError>
        ensures ok { OnOk result (self.new ≡ finite.insert self.old proc.now
            (set.insert (found_signatures (finite.get self.old proc.now)) signature.now)) }
        ensures err { OnErr result (self.new ≡ self.old) }
    {
        let shared = signature.copy()?;
        if let Some(signatures) = self.rows.get_mut(proc) {
            signatures.insert(shared)?;
            return Ok(());
        }
        let mut signatures = Signatures::new(self.alloc);
        signatures.insert(shared)?;
        self.rows.insert(proc.copy()?, signatures)?;
        Ok(())
    }

    /// Lists the signature for each of the processes. If an allocation fails, it may be listed for some of them.
    pub fn put_all(&mut self, procs: &[Proc], signature: &Signature) -> Result<(), AllocError>
        ensures ok { OnOk result (ListsEach self.new signature.now procs.now) }
        ensures more { ListsMore self.old self.new }
    {
        for proc in procs {
            self.put(proc, signature)?;
        }
        Ok(())
    }
}

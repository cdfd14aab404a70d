//! Gets that wait.
ghost use Rattle.std.specs.Prelude.{◌≡◌, IfOk, OnOk, OnErr};
ghost use Rattle.std.specs.FinMap as finite;
ghost use Rattle.std.specs.Option.{option_map};
ghost use Rattle.pmg_dmodex.specs.Parked.{awaited, parked_on, parking, unparked};

use pmg_value::{Growable, Key, Proc, grow_row};
use std::alloc::{AllocError, Global};
use std::collections::BTreeMap;
use std::marker::Model;

/// The keys that some processes ask for, one each.
#[derive(Drop)]
pub struct Askers {
    alloc: Global,
    rows: BTreeMap<Proc, Key>,
}

impl Model for Askers {
    ghost use Rattle.pmg_value.specs.Rows.{map_of};
    ghost use Rattle.pmg_dmodex.specs.Parked.{Askers, coded_askers};

    ghost Value = { Askers };

    ghost coded = { coded_askers };

    ghost view = { λ a. map_of a.rows.entries };
}

impl Askers {
    /// Nobody asks. It keeps the allocator.
    pub fn new(alloc: Global) -> Askers
        ensures { result ≡ finite.empty }
    {
        Askers {
            alloc,
            rows: BTreeMap::new(alloc),
        }
    }

    /// The key that the process asks for.
    fn get(&self, asker: &Proc) -> Option<&Key>
        ensures { option_map (λ key. key.now) result ≡ finite.get self.now asker.now }
    {
        self.rows.get(asker)
    }

    /// The process asks no longer.
    fn remove(&mut self, asker: &Proc)
        ensures { self.new ≡ finite.remove self.old asker.now }
    {
        let _ = self.rows.remove(asker);
    }

    /// Who asks, and for which key, by who asks.
    fn list(&self) -> Result<Vec<(Proc, Key)>, AllocError>
        ensures { IfOk result (λ gets. gets.items ≡ finite.entries self.now) }
    {
        let mut gets = Vec::with_capacity(self.alloc, self.rows.len())?;
        for (asker, key) in self.rows.iter() {
            gets.push((asker.copy()?, key.copy()?))?;
        }
        Ok(gets)
    }
}

impl Growable for Askers {
    ghost use Rattle.std.specs.FinMap as finite;

    type Part = (Proc, Key);

    ghost grown = { λ m part. finite.insert m part.0 part.1 };

    ghost MayFail = { λ _ _. Unit {0} };

    /// Sets the key that the process asks for.
    fn grow(&mut self, part: (Proc, Key)) -> Result<(), AllocError> {
        let (asker, key) = part;
        let _ = self.rows.insert(asker, key)?;
        Ok(())
    }
}

/// The gets of a node's own processes that wait, by the process whose key they ask for: what comes to be known of one
/// process is looked for at the cost of the gets that wait for it alone (PMIx Standard 5.0, PMIx_Get).
#[derive(Drop)]
pub struct Parked {
    alloc: Global,
    rows: BTreeMap<Proc, Askers>,
}

impl Model for Parked {
    ghost use Rattle.pmg_value.specs.Rows.{map_of};
    ghost use Rattle.pmg_dmodex.specs.Parked.{Parked, coded_parked};

    ghost Value = { Parked };

    ghost coded = { coded_parked };

    ghost view = { λ a. map_of a.rows.entries };
}

impl Parked {
    /// No get waits. It keeps the allocator.
    pub fn new(alloc: Global) -> Parked
        ensures { result ≡ finite.empty }
    {
        Parked {
            alloc,
            rows: BTreeMap::new(alloc),
        }
    }

    /// The key of the target that the asking process waits for.
    pub fn get(&self, target: &Proc, asker: &Proc) -> Option<&Key>
        ensures { option_map (λ key. key.now) result ≡ awaited self.now target.now asker.now }
    {
        match self.rows.get(target) {
            Some(askers) => askers.get(asker),
            None => None,
        }
    }

    /// Keeps that the asking process waits for the key of the target. It waits for one key of a process at a time: an
    /// earlier one is replaced. Where an allocation fails, nothing changes.
    pub fn park(&mut self, target: &Proc, asker: &Proc, key: &Key) -> Result<(), AllocError>
        ensures ok { OnOk result (self.new ≡ parking self.old target.now asker.now key.now) }
        ensures err { OnErr result (self.new ≡ self.old) }
    {
        let (asker, key) = (asker.copy()?, key.copy()?);
        let nobody = Askers::new(self.alloc);
        grow_row(&mut self.rows, target, nobody, (asker, key))
    }

    /// The gets that wait for a key of the target: who asks, and for which key, by who asks.
    pub fn on(&self, target: &Proc) -> Result<Vec<(Proc, Key)>, AllocError>
        ensures { IfOk result (λ gets. gets.items ≡ parked_on self.now target.now) }
    {
        match self.rows.get(target) {
            Some(askers) => askers.list(),
            None => Ok(Vec::new(self.alloc)),
        }
    }

    /// The asking process waits no longer for a key of the target.
    pub fn remove(&mut self, target: &Proc, asker: &Proc)
        ensures { self.new ≡ unparked self.old target.now asker.now }
    {
        if let Some(askers) = self.rows.get_mut(target) {
            askers.remove(asker);
        }
    }
}

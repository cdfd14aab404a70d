//! Requests of gets that ask anew.
ghost use Rattle.std.specs.Prelude.{◌≡◌, ◌≤◌, ◌↔◌, suc, Some, Err, IfOk, OnOk, OnErr};
ghost use Rattle.std.specs.FinMap as finite;
ghost use Rattle.std.specs.Option.{option_map};
ghost use Rattle.pmg_value.specs.declared.refusal.Refusal.TheVariants as refusals;
ghost use Rattle.pmg_dmodex.specs.Refreshes.{answered, asker_at, asker_for, no_refreshes, requested};

use pmg_value::{Proc, Refusal, copy_rows};
use std::alloc::{AllocError, Global};
use std::collections::BTreeMap;
use std::marker::Model;

/// Who asks, and for whose commits.
type AskerAndTarget = (Proc, Proc);

/// Who asks, and for whose commits, by the number of the request.
#[derive(Drop)]
pub struct Numbered {
    alloc: Global,
    rows: BTreeMap<u64, AskerAndTarget>,
}

impl Model for Numbered {
    ghost use Rattle.pmg_value.specs.Rows.{map_of};
    ghost use Rattle.pmg_dmodex.specs.Refreshes.{Numbered, coded_numbered};

    ghost Value = { Numbered };

    ghost coded = { coded_numbered };

    ghost view = { λ a. map_of a.rows.entries };
}

impl Numbered {
    /// No requests. It keeps the allocator.
    pub fn new(alloc: Global) -> Numbered
        ensures { result ≡ finite.empty }
    {
        Numbered {
            alloc,
            rows: BTreeMap::new(alloc),
        }
    }

    /// The request of the number.
    fn get(&self, number: u64) -> Option<&AskerAndTarget>
        ensures { option_map (λ asked. asked.now) result ≡ finite.get self.now number }
    {
        self.rows.get(&number)
    }

    /// Sets the request of the number.
    fn set(&mut self, number: u64, asked: AskerAndTarget) -> Result<(), AllocError>
        ensures ok { OnOk result (self.new ≡ finite.insert self.old number asked) }
        ensures err { OnErr result (self.new ≡ self.old) }
    {
        let _ = self.rows.insert(number, asked)?;
        Ok(())
    }

    /// Takes the request of the number out.
    fn remove(&mut self, number: u64) -> Option<AskerAndTarget>
        ensures asked { result ≡ finite.get self.old number }
        ensures left { self.new ≡ finite.remove self.old number }
    {
        self.rows.remove(&number)
    }

    /// Others of the same meaning, with the same allocator.
    fn copy(&self) -> Result<Numbered, AllocError>
        ensures { IfOk result (λ copy. copy ≡ self.now) }
    {
        Ok(Numbered {
            alloc: self.alloc,
            rows: copy_rows(self.alloc, &self.rows)?,
        })
    }
}

/// Who asks, where it is for commits of the target.
fn asker_for<'a>(asked: &'a AskerAndTarget, target: &Proc) -> Option<&'a Proc>
    ensures { option_map (λ asker. asker.now) result ≡ asker_for target.now (Some asked.now) }
{
    if asked.1 == *target {
        return Some(&asked.0);
    }
    None
}

/// The requests of a node for commits that its processes ask for anew, under the numbers 1, 2, .. (PMIx Standard 5.0,
/// PMIX_GET_REFRESH_CACHE).
#[derive(Drop)]
pub struct Refreshes {
    last: u64,
    waiting: Numbered,
}

impl Model for Refreshes {
    ghost use Rattle.pmg_dmodex.specs.Refreshes.{Refreshes, coded_refreshes};

    ghost Value = { Refreshes };

    ghost coded = { coded_refreshes };

    ghost view = { λ a. record { last = a.last; waiting = a.waiting } };
}

impl Refreshes {
    /// No request was made. It keeps the allocator.
    pub fn new(alloc: Global) -> Refreshes
        ensures { result ≡ no_refreshes }
    {
        Refreshes {
            last: 0,
            waiting: Numbered::new(alloc),
        }
    }

    /// The number of the last request, 0 before the first.
    pub fn last(&self) -> u64
        ensures { result ≡ self.now.last }
    {
        self.last
    }

    /// The next number, for a request of the asker's for commits of the target. Refused: TooMany where the last one was
    /// 18446744073709551615, then as NoMemory; a refusal changes nothing.
    pub fn request(&mut self, asker: &Proc, target: &Proc) -> Result<u64, Refusal>
        ensures too_many { (result ≡ Err refusals.TooMany) ↔ (18446744073709551615 ≤ self.old.last) }
        ensures number { IfOk result (λ number. number ≡ suc self.old.last) }
        ensures ok { OnOk result (self.new ≡ requested self.old asker.now target.now) }
        ensures err { OnErr result (self.new ≡ self.old) }
    {
        if self.last == u64::MAX {
            return Err(Refusal::TooMany);
        }
        let next = self.last + 1;
        self.waiting.set(next, (asker.copy()?, target.copy()?))?;
        self.last = next;
        Ok(next)
    }

    /// Who asks for commits of the target under the number.
    pub fn asker_of(&self, number: u64, target: &Proc) -> Option<&Proc>
        ensures { option_map (λ asker. asker.now) result ≡ asker_at self.now number target.now }
    {
        match self.waiting.get(number) {
            Some(asked) => asker_for(asked, target),
            None => None,
        }
    }

    /// The request for commits of the target under the number is answered, where there is such a one: who asked.
    pub fn answered(&mut self, number: u64, target: &Proc) -> Option<Proc>
        ensures asker { result ≡ asker_at self.old number target.now }
        ensures left { self.new ≡ answered self.old number target.now }
    {
        self.asker_of(number, target)?;
        let (asker, _) = self.waiting.remove(number)?;
        Some(asker)
    }

    /// Others of the same meaning, with the same allocator.
    pub fn copy(&self) -> Result<Refreshes, AllocError>
        ensures { IfOk result (λ copy. copy ≡ self.now) }
    {
        Ok(Refreshes {
            last: self.last,
            waiting: self.waiting.copy()?,
        })
    }
}

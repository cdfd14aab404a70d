ghost use Rattle.std.specs.Prelude.{◌≡◌, IfOk, IfSome, OnOk, OnErr};
ghost use Rattle.std.specs.FinMap as finite;
ghost use Rattle.std.specs.Option.{is_some, option_map};
ghost use Rattle.pmg_fence.specs.Kept.{found_signatures, HasSignaturesOf};

use crate::index::Index;
use crate::signatures::Signatures;
use pmg_frame::Signature;
use pmg_value::{Proc, copy_all};
use std::alloc::{AllocError, Global};
use std::collections::BTreeMap;
use std::marker::Model;

/// The participants of fences that are at home at a node, by signature, and the signatures of each of them.
#[derive(Drop)]
pub struct Owns {
    alloc: Global,
    rows: BTreeMap<Signature, Vec<Proc>>,
    index: Index,
}

impl Model for Owns {
    ghost use Rattle.pmg_fence.specs.Codes as codes;

    ghost Value = { codes.Owns };

    ghost coded = { codes.coded_owns };

    ghost use Rattle.pmg_value.specs.Rows.{rows_of};

    ghost view = { λ a. rows_of (λ ps. ps.items) a.rows.entries };

    ghost use Rattle.pmg_fence.specs.Kept.{IsIndex};

    ghost invariant = { λ a. IsIndex (rows_of (λ ps. ps.items) a.rows.entries) a.index };
}

impl Owns {
    /// Makes an empty map. It keeps the allocator.
    pub fn new(alloc: Global) -> Owns
        ensures { result ≡ finite.empty }
    {
        Owns {
            alloc,
            rows: BTreeMap::new(alloc),
            index: Index::new(alloc),
        }
    }

    /// Returns the own participants of the signature, if they are kept.
    pub fn get(&self, signature: &Signature) -> Option<&[Proc]>
        ensures { option_map (λ ps. ps.now) result ≡ finite.get self.now signature.now }
    {
        match self.rows.get(signature) {
            Some(own) => Some(own.as_slice()),
            None => None,
        }
    }

    /// Returns the kept signature, if there is one; its copies share its list.
    pub fn kept(&self, signature: &Signature) -> Option<&Signature>
        ensures same { IfSome result (λ s. s.now ≡ signature.now) }
        ensures found { is_some result ≡ is_some (finite.get self.now signature.now) }
    {
        match self.rows.get_key_value(signature) {
            Some((kept, _)) => Some(kept),
            None => None,
        }
    }

    /// Returns the kept signatures that have the process among their own participants. Signatures for which an allocation failed may be
    /// among them.
    pub fn signatures(&self, proc: &Proc) -> Option<&Signatures>
        ensures { HasSignaturesOf self.now proc.now (found_signatures (option_map (λ s. s.now) result)) }
    {
        self.index.get(proc)
    }

    /// Keeps the own participants of the signature, after the signature is listed for each of them.
    pub fn insert(&mut self, signature: Signature, own: Vec<Proc>) -> Result<(), AllocError>
        ensures ok { OnOk result (self.new ≡ finite.insert self.old signature own.items) }
        ensures err { OnErr result (self.new ≡ self.old) }
    {
        let shared = signature.shared(self.alloc)?;
        self.index.put_all(&own, &shared)?;
        self.rows.insert(shared, own)?;
        Ok(())
    }

    /// Returns an equal copy, with this allocator.
    pub fn copy(&self) -> Result<Owns, AllocError>
        ensures { IfOk result (λ copy. copy ≡ self.now) }
    {
        let mut copy = Owns::new(self.alloc);
        for (signature, own) in self.rows.iter() {
            copy.insert(signature.copy()?, copy_all(own)?)?;
        }
        Ok(copy)
    }
}

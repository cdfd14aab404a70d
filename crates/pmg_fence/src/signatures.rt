ghost use Rattle.std.specs.Prelude.{◌≡◌, OnOk, OnErr};
ghost use Rattle.std.specs.FinSet as set;

use pmg_frame::Signature;
use std::alloc::{AllocError, Global};
use std::collections::BTreeSet;
use std::marker::Model;

/// Signatures of fences, in their order.
#[derive(Drop)]
pub struct Signatures {
    items: BTreeSet<Signature>,
}

impl Model for Signatures {
    ghost use Rattle.pmg_fence.specs.Codes as codes;

    ghost Value = { codes.Signatures };

    ghost coded = { codes.coded_signatures };

    ghost use Rattle.std.specs.FinSet as set;

    ghost view = { λ a. set.from_list a.items.keys };
}

impl Signatures {
    /// Makes an empty set.
    pub fn new(alloc: Global) -> Signatures
        ensures { result ≡ set.empty }
    {
        Signatures {
            items: BTreeSet::new(alloc),
        }
    }

    /// Returns the signatures.
    pub fn items(&self) -> &BTreeSet<Signature>
        ensures { set.from_list result.now.keys ≡ self.now }
    {
        &self.items
    }

    /// Adds the signature.
    pub fn insert(&mut self, signature: Signature) -> Result<(), AllocError>
        ensures ok { OnOk result (self.new ≡ set.insert self.old signature) }
        ensures err { OnErr result (self.new ≡ self.old) }
    {
        self.items.insert(signature)?;
        Ok(())
    }
}

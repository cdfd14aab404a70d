ghost use Rattle.std.specs.Prelude.{◌≡◌, IsTrue, IfOk, Ok, Err, if◌then◌else◌};
ghost use Rattle.pmg_frame.specs.Fences.{is_instance};
ghost use Rattle.pmg_value.specs.declared.refusal.Refusal.TheVariants as refusals;
ghost use Rattle.std.specs.Cmp.{partial_order_from_agreeing_total, partial_equiv_from_equiv};
ghost use Rattle.std.specs.Ordering.{as_partial_cmp, eq_by_cmp};
ghost use Rattle.std.proofs.Common.{refl};
ghost use Rattle.std.proofs.lemmas.Cmp.{eq_by_cmp_equiv};
ghost use Rattle.pmg_frame.specs.FenceOrder.{name_cmp, name_total};

use crate::signature::Signature;
use pmg_value::Refusal;
use std::alloc::AllocError;
use std::cmp::Ordering;
use std::marker::Model;

/// The greatest number of an instance.
pub const MAX_INSTANCE: u64 = 4_294_967_295;

/// The name of a fence: its signature, and its number among the fences of that signature, counted from 1.
#[derive(Drop)]
pub struct FenceName {
    signature: Signature,
    instance: u64,
}

impl Model for FenceName {
    ghost use Rattle.pmg_value.specs.Signatures as fences;

    ghost Value = { fences.FenceName };

    ghost use Rattle.pmg_frame.specs.Fences.{coded_name};

    ghost coded = { coded_name };

    ghost use Rattle.std.specs.Prelude.{IsTrue};
    ghost use Rattle.pmg_frame.specs.Fences.{is_instance};

    ghost view = { λ a. record { signature = a.signature; instance = a.instance } };

    ghost invariant = { λ a. IsTrue (is_instance a.instance) };
}

impl FenceName {
    /// Returns the instance of this number. Errors: `BadParam` if the number is not 1 to 4294967295.
    pub fn new(signature: Signature, instance: u64) -> Result<FenceName, Refusal>
        ensures { result ≡ (if is_instance instance then Ok (record { signature = signature; instance = instance }) else Err refusals.BadParam) }
    {
        if instance == 0 || instance > MAX_INSTANCE {
            return Err(Refusal::BadParam);
        }
        Ok(FenceName {
            signature,
            instance,
        })
    }

    /// Returns the instance of a number that was judged before.
    pub fn from_checked(signature: Signature, instance: u64) -> FenceName
        requires { IsTrue (is_instance instance) }
        ensures signature { result.signature ≡ signature }
        ensures instance { result.instance ≡ instance }
    {
        FenceName {
            signature,
            instance,
        }
    }

    /// Returns the fence's signature.
    pub fn signature(&self) -> &Signature
        ensures { result.now ≡ self.now.signature }
    {
        &self.signature
    }

    /// Returns the number of the instance.
    pub fn instance(&self) -> u64
        ensures value { result ≡ self.now.instance }
        ensures bound { IsTrue (is_instance result) }
    {
        self.instance
    }

    /// Returns another name of the same fence.
    pub fn copy(&self) -> Result<FenceName, AllocError>
        ensures { IfOk result (λ f. f ≡ self.now) }
    {
        Ok(FenceName {
            signature: self.signature.copy()?,
            instance: self.instance,
        })
    }
}

/// The order by the signature, then by the instance.
impl Ord for FenceName {
    ghost cmp = { name_cmp };

    ghost total = { name_total };

    ghost matches_partial_cmp = { λ _ _. refl };

    ghost matches_eq = { λ _ _. refl };

    fn cmp(&self, other: &FenceName) -> Ordering {
        let signatures = self.signature.cmp(&other.signature);
        signatures.then(self.instance.cmp(&other.instance))
    }
}

impl PartialOrd for FenceName {
    ghost partial_cmp = { as_partial_cmp name_cmp };

    ghost laws = { partial_order_from_agreeing_total name_cmp name_total (λ _ _. refl) (λ _ _. refl) };

    fn partial_cmp(&self, other: &FenceName) -> Option<Ordering> {
        Some(self.cmp(other))
    }
}

impl PartialEq for FenceName {
    ghost eq = { eq_by_cmp name_cmp };

    ghost laws = { partial_equiv_from_equiv (eq_by_cmp_equiv name_total) };

    fn eq(&self, other: &FenceName) -> bool {
        self.cmp(other).is_eq()
    }
}

impl Eq for FenceName {
    ghost laws = { eq_by_cmp_equiv name_total };
}

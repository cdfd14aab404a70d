//! The registration of a namespace that a text names.
ghost use Rattle.std.specs.Prelude.{◌≡◌, ◌≢◌, Ok, Err, IfErr, OnOk, OnErr};
ghost use Rattle.pmg_value.specs.declared.refusal.Refusal.TheVariants as refusals;
ghost use Rattle.pmg_grouptext.specs.Groups.{with_named_space};

use crate::nodes::nodes_of;
use pmg_jobinfo::Registry;
use pmg_value::{Nspace, Refusal, is_nspace_name};
use std::alloc::Global;

/// Registers the namespace of these bytes, with the homes of its ranks (PMIx Standard 5.0, PMIx_server_register_nspace). Errors: `BadParam`
/// if the bytes name no namespace; the errors of `Registry::register`.
pub fn register_space(
    alloc: Global,
    registry: &mut Registry,
    nspace: &[u8],
    homes: &[u64],
) -> Result<(), Refusal>
    ensures ok { OnOk result (with_named_space registry.old nspace.now homes.now ≡ Ok registry.new) }
    ensures refused { IfErr result (λ e. e ≢ refusals.NoMemory → with_named_space registry.old nspace.now homes.now ≡ Err e) }
    ensures err { OnErr result (registry.new ≡ registry.old) }
{
    if !is_nspace_name(nspace) {
        return Err(Refusal::BadParam);
    }
    let homes = nodes_of(alloc, registry, homes)?;
    registry.register(Nspace::from_name(alloc, nspace)?, &homes)
}

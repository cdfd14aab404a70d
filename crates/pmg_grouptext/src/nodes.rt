//! Nodes that a text names by numbers of any size.
ghost use Rattle.std.specs.Prelude.{◌≡◌, ◌<◌, ◌≢◌, Some, None, Err, IfOk, IfErr, false, if◌then◌else◌};
ghost use Rattle.std.specs.List.{list_all};
ghost use Rattle.pmg_value.specs.declared.refusal.Refusal.TheVariants as refusals;
ghost use Rattle.pmg_jobinfo.specs.Jobs.{is_node};

use pmg_jobinfo::Registry;
use pmg_value::{NodeId, Refusal};
use std::alloc::Global;

/// Returns the node of that index, if the group has one.
pub fn node_id(registry: &Registry, index: u64) -> Option<NodeId>
    ensures { result ≡ (if is_node registry.now index then Some index else None) }
{
    if index >= registry.node_count() as u64 {
        return None;
    }
    Some(NodeId::from_checked(index as u32))
}

/// Returns the nodes of these indexes. Errors: `BadParam` if the group has no such node; `NoMemory`.
pub(crate) fn nodes_of(
    alloc: Global,
    registry: &Registry,
    indexes: &[u64],
) -> Result<Vec<NodeId>, Refusal>
    ensures nodes { IfOk result (λ nodes. nodes.items ≡ indexes.now) }
    ensures refused { IfErr result (λ e. e ≢ refusals.NoMemory → (e ≡ refusals.BadParam) × (list_all (is_node registry.now) indexes.now ≡ false)) }
{
    let mut nodes = Vec::with_capacity(alloc, indexes.len())?;
    for index in indexes {
        match node_id(registry, *index) {
            Some(node) => nodes.push(node)?,
            None => return Err(Refusal::BadParam),
        }
    }
    Ok(nodes)
}

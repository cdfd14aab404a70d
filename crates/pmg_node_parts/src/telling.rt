//! The receivers of a node's headers and commits.
ghost use Rattle.std.specs.Prelude.{◌≡◌, ◌<◌, ◌==◌, ◌++◌, ℕ, map, IfOk, OnOk};
ghost use Rattle.std.specs.List.{flat_map, list_any};
ghost use Rattle.pmg_jobinfo.specs.Jobs.{AreJobs, home_of};
ghost use Rattle.pmg_frame.specs.Fences.{participants_of};
ghost use Rattle.pmg_node_model.specs.Choosing.{peers, peers_in};
ghost use Rattle.pmg_node_parts.specs.Telling.{telling_by, announcing_by, answering_by, pieces_by, settling_by, spread_by};
ghost use Rattle.pmg_node_parts.specs.Owns.{sealed_of};

use crate::own::LocalCommits;
use pmg_dmodex::Pending;
use pmg_frame::{FenceName, Frame, Header};
use pmg_jobinfo::Registry;
use pmg_node_model::{Sent, ToSend};
use pmg_scope::Reach;
use pmg_value::{NodeId, Proc};
use std::alloc::{AllocError, Global};

/// Returns the other nodes of the group, rising.
pub fn peers(registry: &Registry, id: NodeId) -> Result<Vec<NodeId>, AllocError>
    ensures nodes { IfOk result (λ nodes. nodes.items ≡ peers registry.now id) }
    ensures jobs { AreJobs registry.now }
{
    let mut nodes = Vec::new(registry.allocator());
    for index in 0..registry.node_count() {
        let node = NodeId::from_checked(index as u32);
        if node == id {
            continue;
        }
        nodes.push(node)?;
    }
    Ok(nodes)
}

/// Returns whether a participant of the fence is at home at the node.
pub fn takes_part(registry: &Registry, name: &FenceName, node: NodeId) -> bool
    ensures { result ≡ list_any (λ q. home_of registry.now q == node) (participants_of name.now) }
{
    for proc in name.signature().participants() {
        if registry.is_home(node, proc) {
            return true;
        }
    }
    false
}

/// Returns the other nodes that have a participant in the fence, rising.
pub fn peers_in(
    registry: &Registry,
    id: NodeId,
    name: &FenceName,
) -> Result<Vec<NodeId>, AllocError>
    ensures { IfOk result (λ nodes. nodes.items ≡ peers_in registry.now id name.now) }
{
    let mut nodes = Vec::new(registry.allocator());
    for node in peers(registry, id)? {
        if !takes_part(registry, name, node) {
            continue;
        }
        nodes.push(node)?;
    }
    Ok(nodes)
}

/// Makes the commits of each process that the header lists due to the node.
fn tell_commits(dues: &mut Vec<ToSend>, node: NodeId, header: &Header) -> Result<(), AllocError>
    ensures { OnOk result (dues.new.items ≡ dues.old.items ++ pieces_by node header.now.locals) }
{
    for local in header.locals() {
        dues.push(ToSend::Rest(node, local.proc.copy()?))?;
    }
    Ok(())
}

/// Makes the header due to the node, and, if the fence collects data, the commits of each process that it lists.
pub fn tell(dues: &mut Vec<ToSend>, node: NodeId, header: &Header) -> Result<(), AllocError>
    ensures { OnOk result (dues.new.items ≡ dues.old.items ++ telling_by header.now node) }
{
    dues.push(ToSend::Whole(Sent {
        to: node,
        frame: Frame::Header(header.copy()?),
    }))?;
    if header.name().signature().collect() {
        return tell_commits(dues, node, header);
    }
    Ok(())
}

/// Makes the header due to each other node of the fence.
pub fn announce(
    registry: &Registry,
    id: NodeId,
    header: &Header,
    dues: &mut Vec<ToSend>,
) -> Result<(), AllocError>
    ensures { OnOk result (dues.new.items ≡ dues.old.items ++ announcing_by registry.now id header.now) }
{
    for node in peers_in(registry, id, header.name())? {
        tell(dues, node, header)?;
    }
    Ok(())
}

/// Returns all commits of the process that represents the group's host, due to each other node.
pub fn spread(
    registry: &Registry,
    id: NodeId,
    own: &LocalCommits,
    host: &Proc,
) -> Result<Vec<ToSend>, AllocError>
    requires { 0 < (sealed_of own.now host.now).level }
    ensures { IfOk result (λ dues. dues.items ≡ spread_by registry.now id (sealed_of own.now) host.now) }
{
    let mut dues = Vec::new(registry.allocator());
    for node in peers(registry, id)? {
        dues.push(ToSend::Whole(Sent {
            to: node,
            frame: Frame::Piece(own.piece(host, 0, Reach::Far)?),
        }))?;
    }
    Ok(dues)
}

/// Returns the process's commits above a level, due to the node, if there are any.
pub fn answer_commits(
    alloc: Global,
    own: &LocalCommits,
    node: NodeId,
    proc: &Proc,
    level: u64,
) -> Result<Vec<ToSend>, AllocError>
    ensures { IfOk result (λ dues. dues.items ≡ answering_by (sealed_of own.now) node proc.now level) }
{
    let mut dues = Vec::new(alloc);
    if level < own.level(proc) {
        dues.push(ToSend::Whole(Sent {
            to: node,
            frame: Frame::Piece(own.piece(proc, level, Reach::Far)?),
        }))?;
    }
    Ok(dues)
}

/// Returns the process's commits for the nodes that wait for its next one, due to each node above its known level.
pub fn tell_waiting(
    alloc: Global,
    own: &LocalCommits,
    held: &Pending,
    proc: &Proc,
) -> Result<Vec<ToSend>, AllocError>
    ensures { IfOk result (λ dues. dues.items ≡ settling_by (sealed_of own.now) held.now.held proc.now) }
{
    let mut dues = Vec::new(alloc);
    for (node, level) in held.due(proc, own.level(proc))? {
        dues.push(ToSend::Whole(Sent {
            to: node,
            frame: Frame::Piece(own.piece(proc, level, Reach::Far)?),
        }))?;
    }
    Ok(dues)
}

//! The homes of a namespace's ranks.
ghost use Rattle.std.specs.Prelude.{◌≡◌, ◌==◌, ◌≤◌, ◌++◌, length, codes, decimal, map, IfOk, OnOk};
ghost use Rattle.std.specs.Cmp.{partial_equiv_from_equiv};
ghost use Rattle.std.specs.Cmp.Lexicographic.{slice_cmp, nat_list_cmp_total};
ghost use Rattle.std.specs.List.{join_by, list_any};
ghost use Rattle.std.specs.Ordering.{nat_cmp, eq_by_cmp};
ghost use Rattle.std.proofs.lemmas.Cmp.{eq_by_cmp_equiv};
ghost use Rattle.pmg_jobinfo.specs.Expansion.{ranks};
ghost use Rattle.pmg_jobinfo.specs.Procs.{procs_of};
ghost use Rattle.pmg_jobinfo.specs.Reserved.{count_at, count_hosts, ranks_at, peers_text};
ghost use Rattle.pmg_jobinfo.specs.declared.registry.TheConstants.{MAX_NODES, MAX_RANKS};

use pmg_value::{Copied, NodeId, Nspace, Proc, Rank, Text, push_number};
use std::alloc::{AllocError, Global};
use std::marker::Model;

/// The home of each rank 0, 1, ..
#[derive(Drop)]
pub struct Homes {
    nodes: Vec<NodeId>,
}

impl Model for Homes {
    ghost use Rattle.std.specs.Prelude.{ℕ, List};

    ghost Value = { List ℕ };

    ghost view = { λ a. a.nodes.items };

    ghost use Rattle.std.specs.Prelude.{◌≤◌, length};
    ghost use Rattle.pmg_jobinfo.specs.declared.registry.TheConstants.{MAX_RANKS};

    ghost invariant = { λ a. length a.nodes.items ≤ MAX_RANKS };
}

impl Homes {
    /// These homes, at most 4,096.
    pub fn new(alloc: Global, homes: &[NodeId]) -> Result<Homes, AllocError>
        requires { length homes.now ≤ MAX_RANKS }
        ensures { IfOk result (λ h. h ≡ homes.now) }
    {
        let mut nodes = Vec::with_capacity(alloc, homes.len())?;
        nodes.extend_from_slice(homes)?;
        Ok(Homes { nodes })
    }

    /// The homes.
    pub fn as_slice(&self) -> &[NodeId]
        ensures value { result.now ≡ self.now }
        ensures few { length result.now ≤ MAX_RANKS }
    {
        self.nodes.as_slice()
    }
}

/// By the homes, rank by rank.
impl PartialEq for Homes {
    ghost eq = { eq_by_cmp (slice_cmp nat_cmp) };

    ghost laws = { partial_equiv_from_equiv (eq_by_cmp_equiv nat_list_cmp_total) };

    fn eq(&self, other: &Homes) -> bool {
        self.nodes.cmp(&other.nodes).is_eq()
    }
}

impl Eq for Homes {
    ghost laws = { eq_by_cmp_equiv nat_list_cmp_total };
}

impl Copied for Homes {
    fn copy(&self) -> Result<Homes, AllocError> {
        Homes::new(*self.nodes.allocator(), self.as_slice())
    }
}

/// How many of the homes are at the node.
pub fn count_at(homes: &[NodeId], node: NodeId) -> usize
    ensures value { result ≡ count_at node homes.now }
    ensures bound { result ≤ length homes.now }
{
    let mut count = 0;
    for home in homes {
        if *home == node {
            count += 1;
        }
    }
    count
}

/// Whether the node is the home of a rank.
fn is_host(homes: &[NodeId], node: usize) -> bool
    ensures { result ≡ list_any (λ home. home == node) homes.now }
{
    for home in homes {
        if home.index() as usize == node {
            return true;
        }
    }
    false
}

/// How many of so many nodes are the home of a rank.
#[tactic(auto, using(crate::proofs::HomeLemmas::node_counted, crate::proofs::HomeLemmas::node_passed))]
pub fn count_hosts(homes: &[NodeId], nodes: usize) -> usize
    requires { nodes ≤ MAX_NODES }
    ensures value { result ≡ count_hosts nodes homes.now }
    ensures bound { result ≤ nodes }
{
    let mut count = 0;
    for node in 0..nodes {
        if is_host(homes, node) {
            count += 1;
        }
    }
    count
}

/// The ranks at home at the node, rising.
#[tactic(auto, using(crate::proofs::HomeLemmas::rank_taken, crate::proofs::HomeLemmas::rank_left))]
pub fn ranks_at(alloc: Global, homes: &[NodeId], node: NodeId) -> Result<Vec<u32>, AllocError>
    requires { length homes.now ≤ MAX_RANKS }
    ensures { IfOk result (λ ranks. ranks.items ≡ ranks_at node homes.now) }
{
    let mut ranks = Vec::new(alloc);
    for rank in 0..homes.len() {
        if homes[rank] == node {
            ranks.push(rank as u32)?;
        }
    }
    Ok(ranks)
}

/// Puts the processes of these ranks of the namespace after the list.
pub fn push_procs(procs: &mut Vec<Proc>, nspace: &Nspace, ranks: &[u32]) -> Result<(), AllocError>
    ensures { OnOk result (procs.new.items ≡ procs.old.items ++ procs_of nspace.now ranks.now) }
{
    for rank in ranks {
        procs.push(Proc::new(nspace.copy()?, Rank::new(*rank)))?;
    }
    Ok(())
}

/// Puts so many processes of the namespace after the list, from rank 0.
pub fn push_all(procs: &mut Vec<Proc>, nspace: &Nspace, count: u32) -> Result<(), AllocError>
    ensures { OnOk result (procs.new.items ≡ procs.old.items ++ procs_of nspace.now (ranks count)) }
{
    for rank in 0..count {
        procs.push(Proc::new(nspace.copy()?, Rank::new(rank)))?;
    }
    Ok(())
}

/// A comma and the number in decimal, after the text.
fn push_next(text: &mut Vec<u8>, number: u32) -> Result<(), AllocError>
    ensures { OnOk result (text.new.items ≡ text.old.items ++ (codes "," ++ decimal number)) }
{
    text.extend_from_slice(b",")?;
    push_number(text, u64::from(number))
}

/// The ranks in decimal, with commas between them.
fn join_ranks(alloc: Global, ranks: &[u32]) -> Result<Vec<u8>, AllocError>
    ensures { IfOk result (λ text. text.items ≡ join_by decimal (codes ",") ranks.now) }
{
    let mut text = Vec::new(alloc);
    let Some((first, others)) = ranks.split_first() else {
        return Ok(text);
    };
    push_number(&mut text, u64::from(*first))?;
    for rank in others {
        push_next(&mut text, *rank)?;
    }
    Ok(text)
}

/// The ranks at home at the node, rising, in decimal, with commas between them.
pub fn peers_at(alloc: Global, homes: &[NodeId], node: NodeId) -> Result<Text, AllocError>
    requires { length homes.now ≤ MAX_RANKS }
    ensures { IfOk result (λ text. text ≡ peers_text node homes.now) }
{
    let ranks = ranks_at(alloc, homes, node)?;
    let text = join_ranks(alloc, &ranks)?;
    Text::from_text(alloc, &text)
}

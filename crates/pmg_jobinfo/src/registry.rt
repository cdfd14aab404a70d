//! The registered namespaces and the homes of their processes.
ghost use Rattle.std.specs.Prelude.{◌≡◌, ◌==◌, ◌<◌, ◌≤◌, ◌*◌, [], map, length, slice_index_or, Some, IfOk, OnOk, OnErr, IfSome, IsTrue, ◌↔◌};
ghost use Rattle.std.specs.List.{list_all};
ghost use Rattle.std.specs.Ordering.{nat_cmp};
ghost use Rattle.std.specs.Cmp.Lexicographic.{slice_cmp};
ghost use Rattle.std.specs.FinMap as finite;
ghost use Rattle.std.specs.Option.{option_map};
ghost use Rattle.std.specs.BTreeMap.{get};
ghost use Rattle.pmg_value.specs.Answers.{Gives};
ghost use Rattle.pmg_value.specs.CheckOrder.{first_of};
ghost use Rattle.pmg_jobinfo.specs.Jobs.{AreJobs, IsSpace, spaces_of, opened, registered, size_of, home_of, is_node};
ghost use Rattle.pmg_jobinfo.specs.Procs.{all_procs, procs_at, reach_of};
ghost use Rattle.pmg_jobinfo.specs.Refusing.{new_cause, register_cause, size_cause, home_cause};
ghost use Rattle.pmg_jobinfo.specs.declared.registry.TheConstants.{MAX_RANKS, MAX_SPACES};

use crate::homes::{Homes, push_all, push_procs, ranks_at};
use crate::names::{are_node_names, texts_of};
use pmg_scope::Reach;
use pmg_value::{NodeId, Nspace, Proc, Refusal, Text, copy_all, copy_rows};
use std::alloc::{AllocError, Global};
use std::collections::BTreeMap;
use std::marker::Model;

/// The most nodes of a group.
pub const MAX_NODES: usize = 64;

/// The most namespaces of a group.
pub const MAX_SPACES: usize = 16;

/// The most ranks of a namespace.
pub const MAX_RANKS: usize = 4_096;

/// The nodes of a group, the namespaces that are registered with it, and the home of each of their processes
/// (PMIx Standard 5.0, PMIx_server_register_nspace). A look-up takes about the logarithm of the number of
/// namespaces, whatever the rank.
#[derive(Drop)]
pub struct Registry {
    nodes: Vec<Text>,
    spaces: BTreeMap<Nspace, Homes>,
}

impl Model for Registry {
    ghost use Rattle.std.specs.FinMap as finite;
    ghost use Rattle.pmg_jobinfo.specs.Jobs.{Jobs, coded_jobs, AreJobs, jobs_of};

    ghost Value = { Jobs };

    ghost coded = { coded_jobs };

    ghost view = { λ a. jobs_of a.nodes.items a.spaces.entries };

    ghost invariant = { λ a. AreJobs (jobs_of a.nodes.items a.spaces.entries) };
}

/// The homes of the namespace's ranks, if it is one of these.
#[inline(never)]
fn search<'a>(spaces: &'a BTreeMap<Nspace, Homes>, nspace: &Nspace) -> Option<&'a Homes>
    ensures { option_map (λ h. h.now) result ≡ get (slice_cmp nat_cmp) spaces.now nspace.now }
{
    spaces.get(nspace)
}

/// The same. Most groups have one namespace, which is found without a search.
#[inline(always)]
fn find<'a>(spaces: &'a BTreeMap<Nspace, Homes>, nspace: &Nspace) -> Option<&'a Homes>
    ensures { option_map (λ h. h.now) result ≡ get (slice_cmp nat_cmp) spaces.now nspace.now }
{
    match spaces.first_key_value() {
        Some((first, homes)) if first == nspace => Some(homes),
        _ => search(spaces, nspace),
    }
}

impl Registry {
    /// A registry of a group with nodes of these names, by index from 0. It keeps the allocator. Refused as
    /// BadParam where there is no name, one is not 1 to 255 bytes of 0x21 to 0x7E, or two are equal; as TooMany
    /// past 64; and as NoMemory.
    pub fn new(alloc: Global, names: &[&[u8]]) -> Result<Registry, Refusal>
        ensures { Gives (λ r. r) result (first_of (new_cause (map (λ n. n.now) names.now)) (opened (map (λ n. n.now) names.now))) }
    {
        if names.is_empty() || !are_node_names(alloc, names) {
            return Err(Refusal::BadParam);
        }
        if names.len() > MAX_NODES {
            return Err(Refusal::TooMany);
        }
        Ok(Registry {
            nodes: texts_of(alloc, names)?,
            spaces: BTreeMap::new(alloc),
        })
    }

    /// The homes of the namespace's ranks, if it is registered.
    #[inline(always)]
    pub fn homes(&self, nspace: &Nspace) -> Option<&[NodeId]>
        ensures value { option_map (λ h. h.now) result ≡ finite.get self.now.spaces nspace.now }
        ensures space { IfSome result (λ h. IsSpace (length self.now.nodes) nspace.now h.now) }
    {
        match find(&self.spaces, nspace) {
            Some(homes) => Some(homes.as_slice()),
            None => None,
        }
    }

    /// How many nodes the group has: 1 to 64.
    pub fn node_count(&self) -> usize
        ensures value { result ≡ length self.now.nodes }
        ensures jobs { AreJobs self.now }
    {
        self.nodes.len()
    }

    /// Whether the group has the node.
    pub fn has_node(&self, node: NodeId) -> bool
        ensures { result ≡ is_node self.now node }
    {
        (node.index() as usize) < self.node_count()
    }

    /// The name of a node.
    pub fn node_name(&self, node: NodeId) -> &Text
        requires { node < length self.now.nodes }
        ensures { result.now ≡ slice_index_or self.now.nodes node [] }
    {
        &self.nodes[node.index() as usize]
    }

    /// The allocator that the registry keeps.
    pub fn allocator(&self) -> Global {
        *self.nodes.allocator()
    }

    /// Registers the namespace, with the homes of its ranks 0, 1, .. Refused as BadParam where its name begins with
    /// `pmix`, where it has no rank, and where a home is no node of the group; as Exists where the name is
    /// registered; as TooMany past 4,096 ranks or 16 namespaces; and as NoMemory.
    pub fn register(&mut self, nspace: Nspace, homes: &[NodeId]) -> Result<(), Refusal>
        ensures value { Gives (λ u. u) result (first_of (register_cause self.old nspace homes.now) tt) }
        ensures ok { OnOk result (self.new ≡ registered self.old nspace homes.now) }
        ensures err { OnErr result (self.new ≡ self.old) }
    {
        self.check_space(&nspace, homes)?;
        let homes = Homes::new(*self.nodes.allocator(), homes)?;
        self.spaces.insert(nspace, homes)?;
        Ok(())
    }

    /// Whether the namespace can be registered with these homes.
    fn check_space(&self, nspace: &Nspace, homes: &[NodeId]) -> Result<(), Refusal>
        ensures value { result ≡ first_of (register_cause self.now nspace.now homes.now) tt }
        ensures space { OnOk result (IsSpace (length self.now.nodes) nspace.now homes.now) }
        ensures room { OnOk result (finite.len self.now.spaces < MAX_SPACES) }
    {
        if nspace.is_reserved() || homes.is_empty() || !self.are_nodes(homes) {
            return Err(Refusal::BadParam);
        }
        if self.homes(nspace).is_some() {
            return Err(Refusal::Exists);
        }
        if homes.len() > MAX_RANKS || self.space_count() >= MAX_SPACES {
            return Err(Refusal::TooMany);
        }
        Ok(())
    }

    /// Whether each is a node of the group.
    fn are_nodes(&self, homes: &[NodeId]) -> bool
        ensures { result ≡ list_all (is_node self.now) homes.now }
    {
        for home in homes {
            if !self.has_node(*home) {
                return false;
            }
        }
        true
    }

    /// How many namespaces are registered.
    fn space_count(&self) -> usize
        ensures { result ≡ finite.len self.now.spaces }
    {
        self.spaces.len()
    }

    /// How many processes the namespace has. Refused as UnknownNamespace where it is not registered.
    pub fn size(&self, nspace: &Nspace) -> Result<u32, Refusal>
        ensures { result ≡ first_of (size_cause self.now nspace.now) (size_of self.now nspace.now) }
    {
        match self.homes(nspace) {
            Some(homes) => Ok(homes.len() as u32),
            None => Err(Refusal::UnknownNamespace),
        }
    }

    /// The process's home. That of `pmix.host 0` is node 0. Refused as BadParam where the rank is not one of the
    /// namespace, and as UnknownNamespace where that is not registered.
    pub fn home(&self, proc: &Proc) -> Result<NodeId, Refusal>
        ensures value { result ≡ first_of (home_cause self.now proc.now) (home_of self.now proc.now) }
        ensures bound { IfOk result (λ node. node < length self.now.nodes) }
    {
        // The fields are opened here, and with them that a group has a node 0.
        let _nodes = &self.nodes;
        let Some(homes) = self.homes(&proc.nspace) else {
            if proc.is_host() {
                return NodeId::new(0);
            }
            return Err(Refusal::UnknownNamespace);
        };
        match homes.get(proc.rank.number() as usize) {
            Some(home) => Ok(*home),
            None => Err(Refusal::BadParam),
        }
    }

    /// Whether the process is at home at the node. One that is none of its namespace, or of one that is not registered,
    /// counts as at home at node 0, where the group's host is.
    pub fn is_home(&self, node: NodeId, proc: &Proc) -> bool
        ensures { result ≡ (home_of self.now proc.now == node) }
    {
        self.home_of(proc) == node
    }

    /// The process's home. It is node 0 for one that is none of its namespace, or of one that is not registered.
    #[inline(always)]
    pub fn home_of(&self, proc: &Proc) -> NodeId
        ensures { result ≡ home_of self.now proc.now }
    {
        let rank = proc.rank.number() as usize;
        match self.homes(&proc.nspace) {
            Some(homes) if rank < homes.len() => homes[rank],
            _ => NodeId::new(0).unwrap(),
        }
    }

    /// All processes of the group, by namespace and rank.
    pub fn procs(&self) -> Result<Vec<Proc>, AllocError>
        ensures { IfOk result (λ procs. procs.items ≡ all_procs self.now) }
    {
        let mut procs = Vec::new(self.allocator());
        for (nspace, homes) in self.spaces.iter() {
            push_all(&mut procs, nspace, homes.as_slice().len() as u32)?;
        }
        Ok(procs)
    }

    /// Returns the processes at home at the node, by namespace and rank: at most 65,536, as a group has at most 16 namespaces.
    pub fn procs_at(&self, node: NodeId) -> Result<Vec<Proc>, AllocError>
        ensures procs { IfOk result (λ procs. procs.items ≡ procs_at self.now node) }
        ensures few { IfOk result (λ procs. length procs.items ≤ MAX_SPACES * MAX_RANKS) }
    {
        let mut procs = Vec::new(self.allocator());
        for (nspace, homes) in self.spaces.iter() {
            let ranks = ranks_at(self.allocator(), homes.as_slice(), node)?;
            push_procs(&mut procs, nspace, &ranks)?;
        }
        Ok(procs)
    }

    /// The reach of a reader on a target: its own, near where they are at home at one node, else far (PMIx Standard 5.0,
    /// scopes of put data). A process that is not registered counts as at home at node 0.
    pub fn reach(&self, reader: &Proc, target: &Proc) -> Reach
        ensures { result ≡ reach_of self.now reader.now target.now }
    {
        if reader == target {
            Reach::Own
        } else if self.home_of(reader) == self.home_of(target) {
            Reach::Near
        } else {
            Reach::Far
        }
    }

    /// Whether the registries tell of one group: the same nodes and the same namespaces, with the same homes.
    pub fn is_same(&self, other: &Registry) -> bool
        ensures { IsTrue result ↔ (self.now ≡ other.now) }
    {
        self.nodes == other.nodes && are_same_spaces(&self.spaces, &other.spaces)
    }

    /// Another registry of the same nodes and namespaces, with the same allocator.
    pub fn copy(&self) -> Result<Registry, AllocError>
        ensures { IfOk result (λ r. r ≡ self.now) }
    {
        Ok(Registry {
            nodes: copy_all(&self.nodes)?,
            spaces: copy_rows(*self.nodes.allocator(), &self.spaces)?,
        })
    }
}

/// Whether the namespaces are the same, with the same homes.
fn are_same_spaces(spaces: &BTreeMap<Nspace, Homes>, others: &BTreeMap<Nspace, Homes>) -> bool
    ensures { IsTrue result ↔ (spaces_of spaces.now.entries ≡ spaces_of others.now.entries) }
{
    spaces.len() == others.len() && spaces == others
}

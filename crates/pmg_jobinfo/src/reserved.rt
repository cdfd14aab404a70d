//! Reserved keys, by which a process reads what its server knows of the job.
ghost use Rattle.std.specs.Prelude.{◌≡◌, ◌<◌, ◌≤◌, false, length, take, Some, Ok, Err, is_none, if◌then◌else◌};
ghost use Rattle.pmg_value.specs.Answers.{Gives};
ghost use Rattle.pmg_value.specs.CheckOrder.{first_of};
ghost use Rattle.pmg_value.specs.declared.refusal.Refusal.TheVariants as refusals;
ghost use Rattle.pmg_value.specs.declared.value.Value.TheVariants as values;
ghost use Rattle.pmg_jobinfo.specs.Jobs.{homes_of};
ghost use Rattle.pmg_jobinfo.specs.Refusing.{reserved_cause};
ghost use Rattle.pmg_jobinfo.specs.Reserved.{key_name, key_of, count_at, is_general, value_of_key, reserved_value};
ghost use Rattle.pmg_jobinfo.specs.declared.registry.TheConstants.{MAX_RANKS};

use crate::homes::{count_at, count_hosts, peers_at};
use crate::registry::Registry;
use pmg_value::{Key, NodeId, Proc, Refusal, Text, Value};

/// A key that a server answers by itself (PMIx Standard 5.0, reserved keys).
#[derive(Clone, Copy, PartialEq, Eq)]
pub enum ReservedKey {
    /// PMIX_JOB_SIZE: how many processes the job has.
    JobSize,
    /// PMIX_JOB_NUM_NODES: how many nodes host it.
    NumNodes,
    /// PMIX_JOBID: the job's namespace.
    JobId,
    /// PMIX_LOCAL_SIZE: how many of its processes are at home at the node.
    LocalSize,
    /// PMIX_LOCAL_PEERS: their ranks.
    LocalPeers,
    /// PMIX_NODEID: the index of the node.
    NodeIndex,
    /// PMIX_HOSTNAME: its name.
    HostName,
    /// PMIX_RANK: the process's rank.
    ProcRank,
    /// PMIX_LOCAL_RANK: how many processes of the job with a lower rank are at home at the node.
    LocalRank,
}

/// All of them.
const ALL_KEYS: [ReservedKey; 9] = [
    ReservedKey::JobSize,
    ReservedKey::NumNodes,
    ReservedKey::JobId,
    ReservedKey::LocalSize,
    ReservedKey::LocalPeers,
    ReservedKey::NodeIndex,
    ReservedKey::HostName,
    ReservedKey::ProcRank,
    ReservedKey::LocalRank,
];

impl ReservedKey {
    /// The key's name.
    pub fn name(self) -> &'static [u8]
        ensures { result.now ≡ key_name self }
    {
        match self {
            ReservedKey::JobSize => b"pmix.job.size",
            ReservedKey::NumNodes => b"pmix.num.nodes",
            ReservedKey::JobId => b"pmix.jobid",
            ReservedKey::LocalSize => b"pmix.local.size",
            ReservedKey::LocalPeers => b"pmix.lpeers",
            ReservedKey::NodeIndex => b"pmix.nodeid",
            ReservedKey::HostName => b"pmix.hname",
            ReservedKey::ProcRank => b"pmix.rank",
            ReservedKey::LocalRank => b"pmix.lrank",
        }
    }

    /// The reserved key of that name, if there is one.
    pub fn of(key: &Key) -> Option<ReservedKey>
        ensures { result ≡ key_of key.now }
    {
        let name = key.as_bytes();
        for candidate in ALL_KEYS {
            if name == candidate.name() {
                return Some(candidate);
            }
        }
        None
    }
}

/// Whether no particular rank is named: PMIX_RANK_WILDCARD and PMIX_RANK_UNDEF mean the same here.
fn is_general(proc: &Proc) -> bool
    ensures { result ≡ is_general proc.now }
{
    proc.rank.is_wildcard() || proc.rank.is_undef()
}

impl Registry {
    /// What the reserved key is answered with, asked of the process from the asking node (PMIx Standard 5.0,
    /// PMIx_Get and reserved keys). With PMIX_RANK_WILDCARD or PMIX_RANK_UNDEF the key tells of the asking node,
    /// with a particular rank of that rank's node. Refused as BadParam where the asking node is not of the group or
    /// the rank not one of the namespace; as UnknownNamespace where that is not registered; as NotFound where the
    /// key is not one of ReservedKey, or is PMIX_RANK or PMIX_LOCAL_RANK and no particular rank is named; and as
    /// NoMemory.
    #[tactic(auto, unfolding(crate::specs::Reserved::reserved_value))]
    pub fn reserved(&self, asking: NodeId, proc: &Proc, key: &Key) -> Result<Value, Refusal>
        ensures { Gives Some result (first_of (reserved_cause self.now asking proc.now key.now) (reserved_value self.now asking proc.now key.now)) }
    {
        if !self.has_node(asking) {
            return Err(Refusal::BadParam);
        }
        let Some(homes) = self.homes(&proc.nspace) else {
            return Err(Refusal::UnknownNamespace);
        };
        let rank = proc.rank.number() as usize;
        let node = if is_general(proc) {
            asking
        } else if rank < homes.len() {
            homes[rank]
        } else {
            return Err(Refusal::BadParam);
        };
        match ReservedKey::of(key) {
            Some(key) => self.value_of(key, node, proc, homes),
            None => Err(Refusal::NotFound),
        }
    }

    /// What the key is answered with, where it tells of that node, and these are the homes of the namespace.
    fn value_of(
        &self,
        key: ReservedKey,
        node: NodeId,
        proc: &Proc,
        homes: &[NodeId],
    ) -> Result<Value, Refusal>
        requires homes { homes.now ≡ homes_of self.now proc.now.nspace }
        requires few { length homes.now ≤ MAX_RANKS }
        requires node { node < length self.now.nodes }
        requires member { is_general proc.now ≡ false → proc.now.rank < length homes.now }
        ensures { let value = value_of_key key self.now node proc.now in Gives Some result (if is_none value then Err refusals.NotFound else Ok value) }
    {
        let alloc = self.allocator();
        match key {
            ReservedKey::JobSize => Ok(Value::U32(homes.len() as u32)),
            ReservedKey::NumNodes => Ok(Value::U32(count_hosts(homes, self.node_count()) as u32)),
            ReservedKey::JobId => Ok(Value::Str(Text::from_text(alloc, proc.nspace.as_bytes())?)),
            ReservedKey::LocalSize => Ok(Value::U32(count_at(homes, node) as u32)),
            ReservedKey::LocalPeers => Ok(Value::Str(peers_at(alloc, homes, node)?)),
            ReservedKey::NodeIndex => Ok(Value::U32(node.index())),
            ReservedKey::HostName => Ok(Value::Str(self.node_name(node).copy()?)),
            ReservedKey::ProcRank => rank_of(proc),
            ReservedKey::LocalRank => local_rank(proc, node, homes),
        }
    }
}

/// The process's rank. Refused as NotFound where no particular one is named.
fn rank_of(proc: &Proc) -> Result<Value, Refusal>
    ensures { result ≡ (if is_general proc.now then Err refusals.NotFound else Ok (values.Rank proc.now.rank)) }
{
    if is_general(proc) {
        return Err(Refusal::NotFound);
    }
    Ok(Value::Rank(proc.rank))
}

/// How many of the lower ranks are at home at the node. Refused as NotFound where no particular rank is named.
fn local_rank(proc: &Proc, node: NodeId, homes: &[NodeId]) -> Result<Value, Refusal>
    requires few { length homes.now ≤ MAX_RANKS }
    requires member { is_general proc.now ≡ false → proc.now.rank < length homes.now }
    ensures { result ≡ (if is_general proc.now then Err refusals.NotFound else Ok (values.U16 (count_at node (take proc.now.rank homes.now)))) }
{
    if is_general(proc) {
        return Err(Refusal::NotFound);
    }
    let lower = &homes[..proc.rank.number() as usize];
    Ok(Value::U16(count_at(lower, node) as u16))
}

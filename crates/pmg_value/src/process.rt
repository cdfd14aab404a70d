ghost use Rattle.std.specs.Prelude.{◌≡◌, ◌≤◌, nat_le, if◌then◌else◌, IfOk};
ghost use Rattle.pmg_value.specs.Process.{is_undef, is_wildcard, is_client, is_host, can_commit, host_name};
ghost use Rattle.pmg_value.specs.declared.refusal.Refusal.TheVariants as refusals;

use crate::names::Nspace;
use crate::refusal::Refusal;
use std::alloc::AllocError;
use std::marker::Model;

/// The greatest index of a node: a group has at most 64.
pub const MAX_NODE: u32 = 63;

/// The greatest rank of a registered process: a namespace has at most 4,096.
pub const MAX_RANK: u32 = 4095;

/// The namespace of the process that stands for the group's host, whose rank is 0.
pub const HOST_NAME: &[u8] = b"pmix.host";

/// A process's rank in its namespace (PMIx Standard 5.0, pmix_rank_t).
#[derive(Clone, Copy, PartialEq, Eq, PartialOrd, Ord)]
pub struct Rank {
    number: u32,
}

impl Model for Rank {
    ghost use Rattle.std.specs.Prelude.{ℕ};

    ghost Value = { ℕ };

    ghost view = { λ a. a.number };

    ghost inverse = { λ n. record { number = n } };
}

impl Rank {
    /// No rank is named (PMIX_RANK_UNDEF).
    pub const UNDEF: Rank = Rank {
        number: 4_294_967_295,
    };

    /// All ranks of the namespace (PMIX_RANK_WILDCARD).
    pub const WILDCARD: Rank = Rank {
        number: 4_294_967_294,
    };

    /// Returns the rank of this number.
    pub fn new(number: u32) -> Rank
        ensures { result ≡ number }
    {
        Rank { number }
    }

    /// Returns the rank's number.
    pub fn number(self) -> u32
        ensures { result ≡ self }
    {
        self.number
    }

    /// Returns whether the rank is PMIX_RANK_UNDEF, which names none.
    pub fn is_undef(self) -> bool
        ensures { result ≡ is_undef self }
    {
        self == Rank::UNDEF
    }

    /// Returns whether the rank is PMIX_RANK_WILDCARD, which means all ranks of the namespace.
    pub fn is_wildcard(self) -> bool
        ensures { result ≡ is_wildcard self }
    {
        self == Rank::WILDCARD
    }
}

/// A process: its namespace and its rank (PMIx Standard 5.0, pmix_proc_t). Processes are ordered by the
/// bytes of their namespace, then by rank.
#[derive(PartialEq, Eq, PartialOrd, Ord)]
pub struct Proc {
    pub nspace: Nspace,
    pub rank: Rank,
}

impl Drop for Proc {
    fn drop(self) {
        let Self { nspace, rank } = self;
    }
}

impl Proc {
    /// Returns the process of this rank in this namespace.
    pub fn new(nspace: Nspace, rank: Rank) -> Proc
        ensures nspace { result.nspace ≡ nspace }
        ensures rank { result.rank ≡ rank }
    {
        Proc { nspace, rank }
    }

    /// Returns the process `pmix.host 0`, which stands for the group's host, without memory.
    pub fn of_host() -> Proc
        ensures nspace { result.nspace ≡ host_name }
        ensures rank { result.rank ≡ 0 }
    {
        Proc::new(Nspace::of_host(), Rank::new(0))
    }

    /// Returns whether a group may register the process: its namespace does not begin with `pmix`, and its rank is at most 4095.
    pub fn is_client(&self) -> bool
        ensures { result ≡ is_client self.now }
    {
        !self.nspace.is_reserved() && self.rank.number() <= MAX_RANK
    }

    /// Returns whether the process is `pmix.host 0`, which stands for the group's host.
    pub fn is_host(&self) -> bool
        ensures { result ≡ is_host self.now }
    {
        self.nspace.as_bytes() == HOST_NAME && self.rank.number() == 0
    }

    /// Returns whether the process commits: a group may register it, or it stands for the group's host.
    pub fn can_commit(&self) -> bool
        ensures { result ≡ can_commit self.now }
    {
        self.is_client() || self.is_host()
    }

    /// Returns another handle of the same process.
    pub fn copy(&self) -> Result<Proc, AllocError>
        ensures { IfOk result (λ p. p ≡ self.now) }
    {
        Ok(Proc {
            nspace: self.nspace.copy()?,
            rank: self.rank,
        })
    }
}

/// A node of the group, by its index from 0.
#[derive(Clone, Copy, PartialEq, Eq, PartialOrd, Ord)]
pub struct NodeId {
    index: u32,
}

impl Model for NodeId {
    ghost use Rattle.std.specs.Prelude.{ℕ, ◌≤◌};
    ghost use Rattle.pmg_value.specs.declared.process.TheConstants.{MAX_NODE};

    ghost Value = { ℕ };

    ghost view = { λ a. a.index };

    ghost invariant = { λ a. a.index ≤ MAX_NODE };

    ghost inverse = { λ n. record { index = n } };
}

impl NodeId {
    /// Returns the node of this index. Errors: `BadParam` past 63.
    pub fn new(index: u32) -> Result<NodeId, Refusal>
        ensures { result ≡ (if nat_le index MAX_NODE then Ok index else Err refusals.BadParam) }
    {
        if index > MAX_NODE {
            return Err(Refusal::BadParam);
        }
        Ok(NodeId::from_checked(index))
    }

    /// Returns the node of this index, which was tested already.
    pub fn from_checked(index: u32) -> NodeId
        requires { index ≤ MAX_NODE }
        ensures { result ≡ index }
    {
        NodeId { index }
    }

    /// Returns the node's index.
    pub fn index(self) -> u32
        ensures value { result ≡ self }
        ensures bound { result ≤ MAX_NODE }
    {
        self.index
    }
}

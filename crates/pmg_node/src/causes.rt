//! The causes to refuse a call of a node.
ghost use Rattle.std.specs.Prelude.{◌≡◌, ◌||◌, false, IsTrue};
ghost use Rattle.pmg_value.specs.CheckOrder.{first_of};
ghost use Rattle.pmg_value.specs.Names.{is_reserved};
ghost use Rattle.pmg_value.specs.Process.{is_host};
ghost use Rattle.pmg_jobinfo.specs.Jobs.{home_of, is_registered, is_member};
ghost use Rattle.pmg_node_model.specs.Acts.{is_misnamed, caller_cause, free_cause};

use crate::server::Server;
use pmg_jobinfo::Registry;
use pmg_value::{NodeId, Nspace, Proc, Refusal};

/// Returns whether the namespace is registered.
pub(crate) fn is_registered(registry: &Registry, nspace: &Nspace) -> bool
    ensures { result ≡ is_registered registry.now nspace.now }
{
    registry.homes(nspace).is_some()
}

/// The registry's facts about a process.
#[derive(Clone, Copy)]
pub struct Listing {
    /// Whether its namespace is registered.
    pub is_registered: bool,
    /// Whether its namespace is registered, and the process is not in it.
    pub is_misnamed: bool,
    /// Its home: node 0 for a process outside its namespace, or of a namespace that is not registered.
    pub home: NodeId,
}

/// Returns the registry's facts about the process, with one look-up.
pub fn look_up(registry: &Registry, proc: &Proc) -> Listing
    ensures registered { result.is_registered ≡ is_registered registry.now proc.now.nspace }
    ensures misnamed { result.is_misnamed ≡ is_misnamed registry.now proc.now }
    ensures home { result.home ≡ home_of registry.now proc.now }
{
    let rank = proc.rank.number() as usize;
    let homes = registry.homes(&proc.nspace);
    let (is_misnamed, home) = match homes {
        Some(homes) if rank < homes.len() => (false, homes[rank]),
        Some(_) => (true, NodeId::from_checked(0)),
        None => (false, NodeId::from_checked(0)),
    };
    Listing {
        is_registered: homes.is_some(),
        is_misnamed,
        home,
    }
}

/// Returns whether the process is in its namespace, which is registered.
pub(crate) fn is_member(registry: &Registry, proc: &Proc) -> bool
    ensures value { result ≡ is_member registry.now proc.now }
    ensures client { IsTrue result → is_host proc.now ≡ false }
{
    match registry.homes(&proc.nspace) {
        Some(homes) => (proc.rank.number() as usize) < homes.len(),
        None => false,
    }
}

/// Returns whether the process is not in its namespace, which is registered.
pub(crate) fn is_misnamed(registry: &Registry, proc: &Proc) -> bool
    ensures { result ≡ is_misnamed registry.now proc.now }
{
    match registry.homes(&proc.nspace) {
        Some(homes) => homes.len() <= proc.rank.number() as usize,
        None => false,
    }
}

/// Returns whether a caller is misnamed at every node: its namespace begins with `pmix`, or the process is not in its registered namespace.
pub(crate) fn is_bad_caller(registry: &Registry, proc: &Proc) -> bool
    ensures { result ≡ (is_reserved proc.now.nspace || is_misnamed registry.now proc.now) }
{
    proc.nspace.is_reserved() || is_misnamed(registry, proc)
}

impl Server {
    /// Checks the caller: a process of the group, at home at this node, that has not ended.
    pub fn check_caller(&self, proc: &Proc) -> Result<(), Refusal>
        ensures { result ≡ first_of (caller_cause self.now.jobs self.now.id self.now.holding proc.now) tt }
    {
        if proc.nspace.is_reserved() {
            return Err(Refusal::BadParam);
        }
        let home = self.table.registry().home(proc)?;
        if home != self.id {
            return Err(Refusal::NotMine);
        }
        if self.own.has_ended(proc) {
            return Err(Refusal::Terminated);
        }
        Ok(())
    }

    /// Checks the caller, and that it is not in a call.
    pub fn check_free(&self, proc: &Proc) -> Result<(), Refusal>
        ensures { result ≡ first_of (free_cause self.now.jobs self.now.id self.now.holding proc.now) tt }
    {
        if let Err(refusal) = self.check_caller(proc) {
            return Err(refusal);
        }
        if self.calls.get(proc).is_some() {
            return Err(Refusal::Busy);
        }
        Ok(())
    }
}

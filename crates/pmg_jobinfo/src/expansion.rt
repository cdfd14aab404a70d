//! The processes that a list of processes stands for.
ghost use Rattle.std.specs.Prelude.{◌≡◌, ◌≤◌, ◌||◌, ◌==◌, not, ℕ, map, length, IfOk, OnOk, IsTrue};
ghost use Rattle.std.specs.List.{list_any};
ghost use Rattle.std.specs.FinSet as set;
ghost use Rattle.std.specs.Ordering.{eq_by_cmp};
ghost use Rattle.std.specs.BTreeSet.{contains, IsOrdered};
ghost use Rattle.pmg_value.specs.Answers.{Gives};
ghost use Rattle.pmg_value.specs.CheckOrder.{first_of};
ghost use Rattle.pmg_value.specs.Lists.{is_chain};
ghost use Rattle.pmg_value.specs.Process.{proc_cmp};
ghost use Rattle.pmg_value.specs.declared.process.Proc.{Proc};
ghost use Rattle.pmg_jobinfo.specs.Expansion.{is_before, members, meant, expansion};
ghost use Rattle.pmg_jobinfo.specs.Jobs.{size_of, is_registered};
ghost use Rattle.pmg_jobinfo.specs.Refusing.{is_bad, expand_cause};
ghost use Rattle.pmg_jobinfo.specs.declared.registry.TheConstants.{MAX_RANKS};

use crate::registry::Registry;
use pmg_value::{Nspace, Proc, Rank, Refusal};
use std::alloc::{AllocError, Global};
use std::collections::BTreeSet;

impl Registry {
    /// The processes that the list stands for, rising by namespace and rank, none twice: PMIX_RANK_WILDCARD stands
    /// for all processes of the namespace. Refused, over the whole list, as BadParam where a rank is
    /// PMIX_RANK_UNDEF or is not one of its namespace; as UnknownNamespace where one is not registered; and as
    /// NoMemory.
    pub fn expand(&self, list: &[Proc]) -> Result<Vec<Proc>, Refusal>
        ensures value { Gives (λ procs. set.from_list {R = proc_cmp} procs.items) result (first_of (expand_cause self.now list.now) (expansion self.now list.now)) }
        ensures rising { IfOk result (λ procs. IsTrue (is_chain is_before procs.items)) }
    {
        if self.has_bad(list) {
            return Err(Refusal::BadParam);
        }
        if self.has_unknown(list) {
            return Err(Refusal::UnknownNamespace);
        }
        // Most lists are one item: a whole namespace, whose ranks rise as they stand.
        if let [proc] = list {
            return Ok(self.meant_alone(proc)?);
        }
        let named = set_of(self.allocator(), list)?;
        let all = self.meant_by(&named)?;
        Ok(in_order(self.allocator(), all)?)
    }

    /// Whether the process may not stand in a list: its rank is PMIX_RANK_UNDEF, or not one of its namespace.
    fn is_bad(&self, proc: &Proc) -> bool
        ensures { result ≡ is_bad self.now proc.now }
    {
        let rank = proc.rank;
        if rank.is_undef() {
            return true;
        }
        match self.homes(&proc.nspace) {
            Some(homes) => !rank.is_wildcard() && rank.number() as usize >= homes.len(),
            None => false,
        }
    }

    /// Whether a process may not stand in the list.
    fn has_bad(&self, list: &[Proc]) -> bool
        ensures { result ≡ list_any (is_bad self.now) list.now }
    {
        for proc in list {
            if self.is_bad(proc) {
                return true;
            }
        }
        false
    }

    /// Whether a namespace in the list is not registered.
    fn has_unknown(&self, list: &[Proc]) -> bool
        ensures { result ≡ list_any (λ p. not (is_registered self.now p.nspace)) list.now }
    {
        for proc in list {
            if self.homes(&proc.nspace).is_none() {
                return true;
            }
        }
        false
    }

    /// The processes that this one stands for, rising.
    fn meant_alone(&self, proc: &Proc) -> Result<Vec<Proc>, AllocError>
        ensures { IfOk result (λ procs. procs.items ≡ meant self.now proc.now) }
    {
        if proc.rank.is_wildcard() {
            return members_of(self.allocator(), &proc.nspace, self.count(&proc.nspace));
        }
        let mut alone = Vec::new(self.allocator());
        alone.push(proc.copy()?)?;
        Ok(alone)
    }

    /// The set of the processes that these stand for.
    fn meant_by(&self, named: &BTreeSet<Proc>) -> Result<BTreeSet<Proc>, AllocError>
        ensures { IfOk result (λ all. (q : Proc) → contains proc_cmp all q ≡ list_any (λ p. list_any (eq_by_cmp proc_cmp q) (meant self.now p)) named.now.keys) }
    {
        let mut all = BTreeSet::new(self.allocator());
        for proc in named.iter() {
            self.add_meant(&mut all, proc)?;
        }
        Ok(all)
    }

    /// Adds the processes that this one stands for.
    fn add_meant(&self, all: &mut BTreeSet<Proc>, proc: &Proc) -> Result<(), AllocError>
        ensures { OnOk result ((q : Proc) → contains proc_cmp all.new q ≡ (list_any (eq_by_cmp proc_cmp q) (meant self.now proc.now) || contains proc_cmp all.old q)) }
    {
        if proc.rank.is_wildcard() {
            add_members(all, &proc.nspace, self.count(&proc.nspace))
        } else {
            add(all, proc.copy()?)
        }
    }

    /// How many processes the namespace has, 0 where it is not registered.
    pub(crate) fn count(&self, nspace: &Nspace) -> u32
        ensures value { result ≡ size_of self.now nspace.now }
        ensures bound { result ≤ MAX_RANKS }
    {
        match self.homes(nspace) {
            Some(homes) => homes.len() as u32,
            None => 0,
        }
    }
}

/// The set of the processes in the list.
fn set_of(alloc: Global, list: &[Proc]) -> Result<BTreeSet<Proc>, AllocError>
    ensures { IfOk result (λ named. (q : Proc) → contains proc_cmp named q ≡ list_any (eq_by_cmp proc_cmp q) list.now) }
{
    let mut named = BTreeSet::new(alloc);
    for proc in list {
        add(&mut named, proc.copy()?)?;
    }
    Ok(named)
}

/// Adds the process.
fn add(all: &mut BTreeSet<Proc>, proc: Proc) -> Result<(), AllocError>
    ensures { OnOk result ((q : Proc) → contains proc_cmp all.new q ≡ (eq_by_cmp proc_cmp q proc || contains proc_cmp all.old q)) }
{
    all.insert(proc)?;
    Ok(())
}

/// Adds so many processes of the namespace, from rank 0.
fn add_members(all: &mut BTreeSet<Proc>, nspace: &Nspace, count: u32) -> Result<(), AllocError>
    ensures { OnOk result ((q : Proc) → contains proc_cmp all.new q ≡ (list_any (eq_by_cmp proc_cmp q) (members nspace.now count) || contains proc_cmp all.old q)) }
{
    for rank in 0..count {
        add(all, Proc::new(nspace.copy()?, Rank::new(rank)))?;
    }
    Ok(())
}

/// So many processes of the namespace, from rank 0.
fn members_of(alloc: Global, nspace: &Nspace, count: u32) -> Result<Vec<Proc>, AllocError>
    ensures { IfOk result (λ procs. procs.items ≡ members nspace.now count) }
{
    let mut procs = Vec::with_capacity(alloc, count as usize)?;
    for rank in 0..count {
        procs.push(Proc::new(nspace.copy()?, Rank::new(rank)))?;
    }
    Ok(procs)
}

/// The processes of the set, rising.
fn in_order(alloc: Global, all: BTreeSet<Proc>) -> Result<Vec<Proc>, AllocError>
    ensures procs { IfOk result (λ procs. procs.items ≡ all.keys) }
    ensures ordered { IsOrdered proc_cmp all }
{
    all.into_iter().collect(alloc)
}

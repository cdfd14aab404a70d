//! What a list of processes stands for, told without memory.
ghost use Rattle.std.specs.Prelude.{◌≡◌, ◌*◌, ◌≤◌, not, length, min};
ghost use Rattle.std.specs.List.{list_any, count_by};
ghost use Rattle.std.specs.FinSet as set;
ghost use Rattle.std.specs.Ordering.{eq_by_cmp};
ghost use Rattle.pmg_value.specs.Process.{proc_cmp};
ghost use Rattle.pmg_jobinfo.specs.Expansion.{ranks, meant, expansion, expansion_size};
ghost use Rattle.pmg_jobinfo.specs.Jobs.{size_of};
ghost use Rattle.pmg_jobinfo.specs.declared.registry.TheConstants.{MAX_RANKS};

use crate::registry::Registry;
use pmg_value::{Nspace, Proc, Rank};

/// The most processes that are counted; there may be more of them.
const MAX_COUNTED: usize = 4_096;

impl Registry {
    /// Whether the process is among those whom the list stands for. It takes no memory, and time in proportion to the
    /// length of the list.
    pub fn is_meant(&self, list: &[Proc], proc: &Proc) -> bool
        ensures { result ≡ set.contains (expansion self.now list.now) proc.now }
    {
        self.is_rank_meant(list, &proc.nspace, proc.rank)
    }

    /// Whether the process of this rank in the namespace is among those whom the list stands for.
    fn is_rank_meant(&self, list: &[Proc], nspace: &Nspace, rank: Rank) -> bool
        ensures { result ≡ set.contains (expansion self.now list.now) (record { nspace = nspace.now; rank = rank }) }
    {
        for proc in list {
            if self.stands_for(proc, nspace, rank) {
                return true;
            }
        }
        false
    }

    /// Whether a process in a list stands for the one of this rank in the namespace.
    fn stands_for(&self, proc: &Proc, nspace: &Nspace, rank: Rank) -> bool
        ensures { result ≡ list_any (eq_by_cmp proc_cmp (record { nspace = nspace.now; rank = rank })) (meant self.now proc.now) }
    {
        if proc.nspace != *nspace {
            return false;
        }
        if proc.rank.is_wildcard() {
            return rank.number() < self.count(nspace);
        }
        proc.rank == rank
    }

    /// How many processes the list stands for, each counted once, up to 4,097. It takes no memory, and time in proportion
    /// to the square of the length of the list; and for each PMIX_RANK_WILDCARD in it to that length times the size of
    /// the namespace.
    pub fn count_meant(&self, list: &[Proc]) -> usize
        ensures { result ≡ min 4097 (set.len (expansion self.now list.now)) }
    {
        let mut count = 0;
        for (i, proc) in list.iter().enumerate() {
            count += self.count_new(proc, &list[i + 1..]);
            if count > MAX_COUNTED {
                return MAX_COUNTED + 1;
            }
        }
        count
    }

    /// How many of those for whom the process stands are not among those for whom the list stands.
    fn count_new(&self, proc: &Proc, list: &[Proc]) -> usize
        ensures value { result ≡ count_by (λ q. not (set.contains (expansion self.now list.now) q)) (meant self.now proc.now) }
        ensures bound { result ≤ MAX_RANKS }
    {
        if proc.rank.is_wildcard() {
            return self.count_new_ranks(&proc.nspace, list);
        }
        if self.is_meant(list, proc) {
            return 0;
        }
        1
    }

    /// How many processes of the namespace are not among those for whom the list stands.
    fn count_new_ranks(&self, nspace: &Nspace, list: &[Proc]) -> usize
        ensures value { result ≡ count_by (λ rank. not (set.contains (expansion self.now list.now) (record { nspace = nspace.now; rank = rank }))) (ranks (size_of self.now nspace.now)) }
        ensures bound { result ≤ MAX_RANKS }
    {
        let mut count = 0;
        for rank in 0..self.count(nspace) {
            if !self.is_rank_meant(list, nspace, Rank::new(rank)) {
                count += 1;
            }
        }
        count
    }

    /// How many bytes the processes for whom the list stands have in an array, each once: one of length, the namespace,
    /// and four of rank. They may be 4,096 at most. It takes no memory, and as much time as their count.
    pub fn size_meant(&self, list: &[Proc]) -> usize
        requires { set.len (expansion self.now list.now) ≤ MAX_RANKS }
        ensures value { result ≡ expansion_size self.now list.now }
        ensures bound { result ≤ 260 * MAX_RANKS }
    {
        let mut size = 0;
        for (i, proc) in list.iter().enumerate() {
            size += self.count_new(proc, &list[i + 1..]) * (proc.nspace.as_bytes().len() + 5);
        }
        size
    }
}

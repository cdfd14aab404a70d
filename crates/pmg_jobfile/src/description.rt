//! What a job's description says of its namespaces as a whole.
ghost use Rattle.std.specs.Prelude.{◌≡◌, map, not, nat_lt, IfOk};
ghost use Rattle.std.specs.Ordering.{nat_cmp};
ghost use Rattle.std.specs.Cmp.Lexicographic.{slice_cmp};
ghost use Rattle.std.specs.BTreeSet.{IsFromIterResult};
ghost use Rattle.pmg_jobinfo.specs.Refusing.{are_distinct};
ghost use Rattle.pmg_jobfile.specs.Described.{proc_count};

use crate::job::MAX_JOB_PROCS;
use crate::parts::Space;
use std::alloc::{AllocError, Global};
use std::collections::BTreeSet;

/// The names of the namespaces.
fn names_of<'s>(alloc: Global, spaces: &'s [Space]) -> Result<Vec<&'s [u8]>, AllocError>
    ensures { IfOk result (λ v. map (λ n. n.now) v.items ≡ map (λ s. s.name) spaces.now) }
{
    let mut names = Vec::with_capacity(alloc, spaces.len())?;
    for space in spaces {
        names.push(space.name.as_bytes())?;
    }
    Ok(names)
}

/// The set of the names.
fn set_of<'a>(alloc: Global, names: &[&'a [u8]]) -> Result<BTreeSet<&'a [u8]>, AllocError>
    ensures { IfOk result (IsFromIterResult (λ x y. slice_cmp nat_cmp x.now y.now) names.now) }
{
    names.iter().copied().collect(alloc)
}

/// Whether no two namespaces have one name.
pub fn are_distinct(alloc: Global, spaces: &[Space]) -> Result<bool, AllocError>
    ensures { IfOk result (λ r. r ≡ are_distinct (map (λ s. s.name) spaces.now)) }
{
    let names = names_of(alloc, spaces)?;
    let different = set_of(alloc, &names)?;
    Ok(different.len() == spaces.len())
}

/// Whether the namespaces have no more processes than a job may have.
pub fn are_few(spaces: &[Space]) -> bool
    ensures { result ≡ not (nat_lt MAX_JOB_PROCS (proc_count spaces.now)) }
{
    let mut left = MAX_JOB_PROCS;
    for space in spaces {
        if space.homes.len() > left {
            return false;
        }
        left -= space.homes.len();
    }
    true
}

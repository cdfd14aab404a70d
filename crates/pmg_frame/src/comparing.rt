//! Processes of consecutive ranks, and the comparison of lists of processes.
ghost use Rattle.std.specs.Prelude.{◌≡◌, ◌+◌, ◌≤◌, false, true, length, slice_get};
ghost use Rattle.std.specs.Cmp.Lexicographic.{slice_cmp};
ghost use Rattle.std.specs.List.Sorted.{IsStrictlySortedBy};
ghost use Rattle.std.specs.Option.{option_map, unwrap_or};
ghost use Rattle.pmg_value.specs.Process.{proc_cmp, is_same_proc};
ghost use Rattle.pmg_frame.specs.Runs.{proc_ranks, line};
ghost use Rattle.pmg_frame.specs.declared.signature.TheConstants.{MAX_PARTICIPANTS};

use pmg_value::Proc;
use std::cmp::Ordering;

/// Returns whether the process is so far behind the first one: in its namespace, with a rank that is so much higher.
fn is_behind(process: &Proc, first: &Proc, distance: usize) -> bool
    requires { distance ≤ 8192 }
    ensures { result ≡ is_same_proc process.now (proc_ranks.at first.now (first.now.rank + distance)) }
{
    process.nspace == first.nspace
        && process.rank.number() as u64 == first.rank.number() as u64 + distance as u64
}

/// Returns whether the process so far behind the first one is at that index.
pub fn goes_to(first: &Proc, procs: &[Proc], distance: usize) -> bool
    requires { distance ≤ 8192 }
    ensures { result ≡ unwrap_or (option_map (λ p. is_same_proc p (proc_ranks.at first.now (first.now.rank + distance))) (slice_get procs.now distance)) false }
{
    match procs.get(distance) {
        None => false,
        Some(process) => is_behind(process, first, distance),
    }
}

/// Returns whether the processes are one run that begins with the first one. Processes rise, so that their ends are enough.
fn is_run_from(first: &Proc, procs: &[Proc]) -> bool
    requires some { 1 ≤ length procs.now }
    requires few { length procs.now ≤ MAX_PARTICIPANTS }
    requires rising { IsStrictlySortedBy proc_cmp procs.now }
    ensures { result ≡ true → procs.now ≡ line proc_ranks (length procs.now) first.now }
{
    procs[0] == *first && goes_to(first, procs, procs.len() - 1)
}

/// Returns whether both lists are one run, with the same processes.
fn are_one_run(procs: &[Proc], others: &[Proc]) -> bool
    requires some { 1 ≤ length procs.now }
    requires few { length procs.now ≤ MAX_PARTICIPANTS }
    requires rising { IsStrictlySortedBy proc_cmp procs.now }
    requires others_rising { IsStrictlySortedBy proc_cmp others.now }
    ensures { result ≡ true → procs.now ≡ others.now }
{
    let first = &procs[0];
    others.len() == procs.len() && is_run_from(first, procs) && is_run_from(first, others)
}

/// Compares lists of processes. If both are one run, it looks at few processes, because processes rise.
pub fn compare(procs: &[Proc], others: &[Proc]) -> Ordering
    requires some { 1 ≤ length procs.now }
    requires few { length procs.now ≤ MAX_PARTICIPANTS }
    requires rising { IsStrictlySortedBy proc_cmp procs.now }
    requires others_rising { IsStrictlySortedBy proc_cmp others.now }
    ensures { result ≡ slice_cmp proc_cmp procs.now others.now }
{
    if are_one_run(procs, others) {
        return Ordering::Equal;
    }
    procs.cmp(others)
}

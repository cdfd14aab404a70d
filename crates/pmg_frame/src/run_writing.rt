//! Writes participants as runs.
ghost use Rattle.std.specs.Prelude.{◌≡◌, ◌+◌, ◌*◌, ◌<◌, ◌≤◌, ◌++◌, length, slice_get, Some, IfOk, OnOk, IsTrue};
ghost use Rattle.std.specs.List.{flat_map, list_all};
ghost use Rattle.std.specs.List.Sorted.{IsStrictlySortedBy};
ghost use Rattle.pmg_value.specs.Names.{is_nspace};
ghost use Rattle.pmg_value.specs.Process.{proc_cmp};
ghost use Rattle.pmg_frame.specs.Runs.{proc_ranks, run, runs_of, IsFirstRun};
ghost use Rattle.pmg_frame.specs.Grammar.{IsName, IsFenceAsk};
ghost use Rattle.pmg_frame.specs.RunSpelling.{run_spelling, short_name, short_fence_ask};
ghost use Rattle.pmg_frame.specs.Versions.{head_spelling};
ghost use Rattle.pmg_frame.specs.declared.signature.TheConstants.{MAX_PARTICIPANTS};

use crate::asks::FenceAsk;
use crate::comparing::goes_to;
use crate::fence_name::FenceName;
use crate::frame::HEAD_SIZE;
use crate::writing::{proc_size, put_flag, put_head, put_node};
use bytes::BytesMut;
use pmg_value::Proc;
use pmg_wire::put_proc;
use std::alloc::{AllocError, Global};

// Returns an index that the first run reaches, and a distance past it that the run does not reach.
fn far_ends(first: &Proc, procs: &[Proc]) -> (usize, usize)
    requires few { length procs.now ≤ MAX_PARTICIPANTS }
    requires first { slice_get procs.now 0 ≡ Some first.now }
    ensures goes { slice_get procs.now result.0 ≡ Some (proc_ranks.at first.now (first.now.rank + result.0)) }
    ensures ends { slice_get procs.now (result.0 + result.1) ≡ Some (proc_ranks.at first.now (first.now.rank + (result.0 + result.1))) → ⊥ }
    ensures step { (1 ≤ result.1) × (result.1 ≤ MAX_PARTICIPANTS) }
{
    let mut known = 0;
    let mut step = 1;
    while goes_to(first, procs, known + step) {
        known += step;
        step = known + 1;
    }
    (known, step)
}

// Returns how many of the processes are their first run. It looks at few of them, because they rise.
fn first_run(procs: &[Proc]) -> usize
    requires some { 1 ≤ length procs.now }
    requires few { length procs.now ≤ MAX_PARTICIPANTS }
    requires rising { IsStrictlySortedBy proc_cmp procs.now }
    ensures some { 1 ≤ result }
    ensures within { result ≤ length procs.now }
    ensures run { IsFirstRun proc_ranks procs.now result }
{
    let first = &procs[0];
    let (mut known, mut step) = far_ends(first, procs);
    while step > 1 {
        let half = step / 2;
        if goes_to(first, procs, known + half) {
            known += half;
            step -= half;
        } else {
            step = half;
        }
    }
    known + 1
}

fn put_run(out: &mut BytesMut, first: &Proc, last: u32) -> Result<(), AllocError>
    ensures bytes { OnOk result (out.new.items ≡ out.old.items ++ run_spelling (run first.now last)) }
    ensures name { OnOk result (IsTrue (is_nspace first.now.nspace)) }
{
    put_proc(out, first)?;
    out.extend_from_slice(&last.to_be_bytes())
}

fn put_runs(out: &mut BytesMut, procs: &[Proc]) -> Result<(), AllocError>
    requires few { length procs.now ≤ MAX_PARTICIPANTS }
    requires rising { IsStrictlySortedBy proc_cmp procs.now }
    ensures bytes { OnOk result (out.new.items ≡ out.old.items ++ flat_map run_spelling (runs_of proc_ranks procs.now)) }
    ensures names { OnOk result (IsTrue (list_all (λ r. is_nspace r.first.nspace) (runs_of proc_ranks procs.now))) }
{
    let mut rest = procs;
    while !rest.is_empty() {
        let len = first_run(rest);
        put_run(out, &rest[0], rest[len - 1].rank.number())?;
        rest = &rest[len..];
    }
    Ok(())
}

/// Returns the number of runs of these processes, and of their bytes in a frame.
fn runs_size(procs: &[Proc]) -> (usize, usize)
    requires few { length procs.now ≤ MAX_PARTICIPANTS }
    requires rising { IsStrictlySortedBy proc_cmp procs.now }
    ensures count { result.0 ≡ length (runs_of proc_ranks procs.now) }
    ensures size { result.1 ≡ length (flat_map run_spelling (runs_of proc_ranks procs.now)) }
    ensures few { result.0 ≤ MAX_PARTICIPANTS }
    ensures bound { result.1 ≤ 1081344 }
{
    let mut count = 0;
    let mut size = 0;
    let mut rest = procs;
    while !rest.is_empty() {
        let len = first_run(rest);
        count += 1;
        size += proc_size(&rest[0]) + 4;
        rest = &rest[len..];
    }
    (count, size)
}

/// Returns the number of bytes of a fence's name in a frame, with its participants as runs.
pub fn short_name_size(name: &FenceName) -> usize
    ensures value { result ≡ length (short_name name.now) }
    ensures bound { result ≤ 1081357 }
{
    let (_, size) = runs_size(name.signature().participants());
    size + 13
}

/// Writes a fence's name, with its participants as runs.
pub fn put_short_name(out: &mut BytesMut, name: &FenceName) -> Result<(), AllocError>
    ensures bytes { OnOk result (out.new.items ≡ out.old.items ++ short_name name.now) }
    ensures valid { OnOk result (IsName name.now) }
{
    let participants = name.signature().participants();
    let (count, _) = runs_size(participants);
    put_flag(out, name.signature().collect())?;
    out.extend_from_slice(&name.instance().to_be_bytes())?;
    out.extend_from_slice(&(count as u32).to_be_bytes())?;
    put_runs(out, participants)
}

fn put_short_fence_ask(out: &mut BytesMut, ask: &FenceAsk) -> Result<(), AllocError>
    ensures bytes { OnOk result (out.new.items ≡ out.old.items ++ short_fence_ask ask.now) }
    ensures valid { OnOk result (IsFenceAsk ask.now) }
{
    put_node(out, ask.node())?;
    put_short_name(out, ask.name())
}

/// Encodes a fence ask in that version, with the participants as runs.
pub fn encode_short_fence_ask(
    alloc: Global,
    version: u8,
    ask: &FenceAsk,
) -> Result<BytesMut, AllocError>
    ensures bytes { IfOk result (λ out. out.items ≡ head_spelling version 3 (length (short_fence_ask ask.now)) ++ short_fence_ask ask.now) }
    ensures valid { OnOk result (IsFenceAsk ask.now) }
{
    let size = short_name_size(ask.name()) + 4;
    let mut out = BytesMut::with_capacity(alloc, HEAD_SIZE + size)?;
    put_head(&mut out, version, 3, size as u32)?;
    put_short_fence_ask(&mut out, ask)?;
    Ok(out)
}

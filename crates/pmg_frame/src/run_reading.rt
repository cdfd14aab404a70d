//! Reads participants that are written as runs.
ghost use Rattle.std.specs.Prelude.{◌≡◌, ◌+◌, ◌≤◌, ◌++◌, [], length, IfOk};
ghost use Rattle.std.specs.Option.{option_copied};
ghost use Rattle.pmg_wire.specs.Reading.{Reads};
ghost use Rattle.pmg_frame.specs.Fences.{name_fields};
ghost use Rattle.pmg_frame.specs.Runs.{proc_ranks, run, items_of};
ghost use Rattle.pmg_frame.specs.RunReading.{repeated, is_new, ranks_to, read_part, read_run, read_runs, read_short_name, read_short_ask};
ghost use Rattle.pmg_frame.specs.FenceReading.{read_fields_by};

use crate::asks::FenceAsk;
use crate::fence_name::{FenceName, MAX_INSTANCE};
use crate::fence_reading::{get_node, is_greater};
use crate::signature::{MAX_PARTICIPANTS, Signature};
use pmg_value::{Cause, MAX_RANK, Proc, Rank, Refusal};
use pmg_wire::{Admits, Cursor, get_flag, get_proc};
use std::alloc::{AllocError, Global};

// Returns whether the process does not go on from the one before, if there is one.
fn is_new(before: Option<&Proc>, process: &Proc) -> bool
    ensures { result ≡ is_new proc_ranks (option_copied before.entry) process.now }
{
    match before {
        None => true,
        Some(before) => {
            before.nspace != process.nspace
                || before.rank.number() as u64 + 1 != process.rank.number() as u64
        }
    }
}

// Reads a run of participants, its first process and its last rank, after a process or none, and after so many participants.
#[tactic(auto, unfolding(crate::specs::RunReading::read_part))]
fn get_part(
    alloc: Global,
    before: Option<&Proc>,
    count: usize,
    at: &mut Cursor<'_>,
) -> Result<(Proc, u32), Refusal>
    requires { count ≤ MAX_PARTICIPANTS }
    ensures read { Reads (λ t. run t.0 t.1) result at.new (read_part (option_copied before.entry) count at.old) }
    ensures some { IfOk result (λ t. t.0.rank ≤ t.1) }
    ensures last { IfOk result (λ t. t.1 ≤ MAX_RANK) }
    ensures few { IfOk result (λ t. count + ranks_to t.1 t.0 ≤ MAX_PARTICIPANTS) }
{
    let start = at.offset();
    let first = get_proc(alloc, Admits::Clients, at)?;
    if !is_greater(before, &first) || !is_new(before, &first) {
        return Err(Refusal::bad_frame(start, Cause::Order));
    }
    let last_at = at.offset();
    let last = at.get_u32()?;
    let rank = first.rank.number();
    if last < rank || last > MAX_RANK {
        return Err(Refusal::bad_frame(last_at, Cause::Rank));
    }
    if count + (last - rank) as usize >= MAX_PARTICIPANTS {
        return Err(Refusal::bad_frame(last_at, Cause::Count));
    }
    Ok((first, last))
}

// Appends the processes of a run.
fn with_run(procs: Vec<Proc>, first: Proc, last: u32) -> Result<Vec<Proc>, AllocError>
    requires some { first.rank ≤ last }
    requires last { last ≤ MAX_RANK }
    ensures { IfOk result (λ ps. ps.items ≡ procs.items ++ items_of proc_ranks (run first last)) }
{
    let mut procs = procs;
    for rank in first.rank.number()..last + 1 {
        procs.push(Proc::new(first.nspace.copy()?, Rank::new(rank)))?;
    }
    Ok(procs)
}

#[tactic(auto, unfolding(crate::specs::RunReading::read_run))]
fn get_run(alloc: Global, before: Vec<Proc>, at: &mut Cursor<'_>) -> Result<Vec<Proc>, Refusal>
    requires { length before.items ≤ MAX_PARTICIPANTS }
    ensures read { Reads (λ ps. ps.items) result at.new (read_run before.items at.old) }
    ensures few { IfOk result (λ ps. length ps.items ≤ MAX_PARTICIPANTS) }
{
    let (first, last) = get_part(alloc, before.last(), before.len(), at)?;
    Ok(with_run(before, first, last)?)
}

fn get_each_run(alloc: Global, count: u32, at: &mut Cursor<'_>) -> Result<Vec<Proc>, Refusal>
    ensures { Reads (λ ps. ps.items) result at.new (repeated read_run count [] at.old) }
{
    let mut procs = Vec::new(alloc);
    for _ in 0..count {
        procs = get_run(alloc, procs, at)?;
    }
    Ok(procs)
}

// Reads the participants.
#[tactic(auto, unfolding(crate::specs::RunReading::read_runs))]
fn get_runs(alloc: Global, at: &mut Cursor<'_>) -> Result<Vec<Proc>, Refusal>
    ensures { Reads (λ ps. ps.items) result at.new (read_runs at.old) }
{
    let count_at = at.offset();
    let count = at.get_u32()?;
    if count == 0 || count as usize > MAX_PARTICIPANTS {
        return Err(Refusal::bad_frame(count_at, Cause::Count));
    }
    get_each_run(alloc, count, at)
}

// Reads the fields of a fence's name: whether it collects, the instance, and the participants.
#[tactic(auto, unfolding(crate::specs::FenceReading::read_fields_by))]
fn get_short_fields(alloc: Global, at: &mut Cursor<'_>) -> Result<(bool, u64, Vec<Proc>), Refusal>
    ensures { Reads (λ t. name_fields t.0 t.1 t.2.items) result at.new (read_fields_by read_runs at.old) }
{
    let collect = get_flag(at)?;
    let instance_at = at.offset();
    let instance = at.get_u64()?;
    if instance == 0 || instance > MAX_INSTANCE {
        return Err(Refusal::bad_frame(instance_at, Cause::Number));
    }
    let participants = get_runs(alloc, at)?;
    Ok((collect, instance, participants))
}

/// Reads a fence's name, with its participants as runs.
#[tactic(auto, unfolding(crate::specs::FenceReading::read_name_by))]
pub fn get_short_name(alloc: Global, at: &mut Cursor<'_>) -> Result<FenceName, Refusal>
    ensures { Reads (λ f. f) result at.new (read_short_name at.old) }
{
    // No effect at run time: the proof reads here that what is left are bytes.
    let _start = at.offset();
    let (collect, instance, participants) = get_short_fields(alloc, at)?;
    let signature = Signature::from_rising(participants, collect);
    Ok(FenceName::from_checked(signature, instance))
}

/// Reads the body of a fence ask, with the participants as runs.
#[tactic(auto, unfolding(crate::specs::FenceReading::read_ask_by))]
pub fn get_short_ask(alloc: Global, at: &mut Cursor<'_>) -> Result<FenceAsk, Refusal>
    ensures { Reads (λ a. a) result at.new (read_short_ask at.old) }
{
    let node = get_node(at)?;
    let name = get_short_name(alloc, at)?;
    Ok(FenceAsk::new(node, name))
}

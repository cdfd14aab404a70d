//! Reads the participants of headers that are written as runs.
ghost use Rattle.std.specs.Prelude.{◌≡◌, ◌≤◌, ◌++◌, false, [], slice_get, IfOk};
ghost use Rattle.std.specs.FinSet as set;
ghost use Rattle.std.specs.List.{list_all};
ghost use Rattle.std.specs.Option.{option_copied, option_map, unwrap_or};
ghost use Rattle.pmg_value.specs.Process.{is_same_proc};
ghost use Rattle.pmg_wire.specs.Reading.{Reads};
ghost use Rattle.pmg_frame.specs.Fences.{header};
ghost use Rattle.pmg_frame.specs.Runs.{proc_ranks, local_ranks, run, next_rank, line, items_of};
ghost use Rattle.pmg_frame.specs.RunReading.{repeated, is_new, ranks_to, read_local_part, read_local_run, read_local_runs, read_short_header};

use crate::fence_name::FenceName;
use crate::fence_reading::{get_level, get_node, is_behind};
use crate::header::Header;
use crate::local::{Local, State};
use crate::run_reading::get_short_name;
use crate::signature::MAX_PARTICIPANTS;
use pmg_value::{Cause, MAX_RANK, NodeId, Proc, Rank, Refusal};
use pmg_wire::{Admits, Cursor, get_flag, get_proc};
use std::alloc::{AllocError, Global};

// Returns whether it is the process of this rank in the namespace of the first one.
fn is_of_run(process: &Proc, first: &Proc, rank: u32) -> bool
    ensures { result ≡ is_same_proc process.now (record { nspace = first.now.nspace; rank = rank }) }
{
    process.nspace == first.nspace && process.rank.number() == rank
}

// Returns whether the process of this rank in the namespace of the first one is at that index.
fn stands_at(list: &[Proc], index: usize, first: &Proc, rank: u32) -> bool
    ensures { result ≡ unwrap_or (option_map (λ p. is_same_proc p (record { nspace = first.now.nspace; rank = rank })) (slice_get list.now index)) false }
{
    match list.get(index) {
        None => false,
        Some(process) => is_of_run(process, first, rank),
    }
}

// Returns whether each process of a run is a participant. They rise, so that the first and the last are enough.
fn are_participants(name: &FenceName, first: &Proc, last: u32) -> bool
    requires { first.now.rank ≤ last }
    ensures { result ≡ list_all (set.contains name.now.signature.participants) (line proc_ranks (ranks_to last first.now) first.now) }
{
    let participants = name.signature().participants();
    match participants.binary_search(first) {
        Err(_) => false,
        Ok(index) => {
            let behind = (last - first.rank.number()) as usize;
            stands_at(participants, index + behind, first, last)
        }
    }
}

/// Returns whether a run goes on from the one with the other: the process of the next rank has the same state and level.
pub fn goes_on(before: &Local, local: &Local) -> bool
    ensures { result ≡ local_ranks.same (next_rank local_ranks before.now) local.now }
{
    let next = before.proc.rank.number() as u64 + 1;
    before.proc.nspace == local.proc.nspace
        && next == local.proc.rank.number() as u64
        && before.state == local.state
        && before.level == local.level
}

// Returns whether the participant does not go on from the one before, if there is one.
fn is_new(before: Option<&Local>, first: &Local) -> bool
    ensures { result ≡ is_new local_ranks (option_copied before.entry) first.now }
{
    match before {
        None => true,
        Some(before) => !goes_on(before, first),
    }
}

// Reads a run of participants of a header, after another participant or none: the first of them, and the last rank.
#[tactic(auto, unfolding(crate::specs::RunReading::read_local_part))]
fn get_local_part(
    alloc: Global,
    name: &FenceName,
    before: Option<&Local>,
    at: &mut Cursor<'_>,
) -> Result<(Local, u32), Refusal>
    ensures read { Reads (λ t. run t.0 t.1) result at.new (read_local_part name.now (option_copied before.entry) at.old) }
    ensures some { IfOk result (λ t. t.0.proc.rank ≤ t.1) }
    ensures last { IfOk result (λ t. t.1 ≤ MAX_RANK) }
{
    let start = at.offset();
    let proc = get_proc(alloc, Admits::Clients, at)?;
    if !is_behind(before, &proc) {
        return Err(Refusal::bad_frame(start, Cause::Order));
    }
    let last_at = at.offset();
    let last = at.get_u32()?;
    if last < proc.rank.number() || last > MAX_RANK {
        return Err(Refusal::bad_frame(last_at, Cause::Rank));
    }
    if !are_participants(name, &proc, last) {
        return Err(Refusal::bad_frame(start, Cause::Member));
    }
    let gone = get_flag(at)?;
    let level = get_level(at)?;
    let state = if gone { State::Gone } else { State::Entered };
    let first = Local { proc, state, level };
    if !is_new(before, &first) {
        return Err(Refusal::bad_frame(start, Cause::Order));
    }
    Ok((first, last))
}

// Returns the state and level of this participant for the process of another rank in the namespace.
fn at_rank(local: &Local, rank: u32) -> Result<Local, AllocError>
    ensures { IfOk result (λ l. l ≡ local_ranks.at local.now rank) }
{
    Ok(Local {
        proc: Proc::new(local.proc.nspace.copy()?, Rank::new(rank)),
        state: local.state,
        level: local.level,
    })
}

// Appends the participants of a run.
fn with_run(locals: Vec<Local>, first: &Local, last: u32) -> Result<Vec<Local>, AllocError>
    requires some { first.now.proc.rank ≤ last }
    requires last { last ≤ MAX_RANK }
    ensures { IfOk result (λ ls. ls.items ≡ locals.items ++ items_of local_ranks (run first.now last)) }
{
    let mut locals = locals;
    for rank in first.proc.rank.number()..last + 1 {
        let local = at_rank(first, rank)?;
        locals.push(local)?;
    }
    Ok(locals)
}

#[tactic(auto, unfolding(crate::specs::RunReading::read_local_run))]
fn get_local_run(
    alloc: Global,
    name: &FenceName,
    before: Vec<Local>,
    at: &mut Cursor<'_>,
) -> Result<Vec<Local>, Refusal>
    ensures { Reads (λ ls. ls.items) result at.new (read_local_run name.now before.items at.old) }
{
    let (first, last) = get_local_part(alloc, name, before.last(), at)?;
    Ok(with_run(before, &first, last)?)
}

fn get_each_run(
    alloc: Global,
    name: &FenceName,
    count: u32,
    at: &mut Cursor<'_>,
) -> Result<Vec<Local>, Refusal>
    ensures { Reads (λ ls. ls.items) result at.new (repeated (read_local_run name.now) count [] at.old) }
{
    let mut locals = Vec::new(alloc);
    for _ in 0..count {
        locals = get_local_run(alloc, name, locals, at)?;
    }
    Ok(locals)
}

// Reads the participants of a header.
#[tactic(auto, unfolding(crate::specs::RunReading::read_local_runs))]
fn get_local_runs(
    alloc: Global,
    name: &FenceName,
    at: &mut Cursor<'_>,
) -> Result<Vec<Local>, Refusal>
    ensures { Reads (λ ls. ls.items) result at.new (read_local_runs name.now at.old) }
{
    let count_at = at.offset();
    let count = at.get_u32()?;
    if count == 0 || count as usize > MAX_PARTICIPANTS {
        return Err(Refusal::bad_frame(count_at, Cause::Count));
    }
    get_each_run(alloc, name, count, at)
}

// Reads the fields of a header: the node, the fence's name, and its participants.
#[tactic(auto, unfolding(crate::specs::RunReading::read_short_header))]
fn get_short_fields(
    alloc: Global,
    at: &mut Cursor<'_>,
) -> Result<(NodeId, FenceName, Vec<Local>), Refusal>
    ensures { Reads (λ t. header t.0 t.1 t.2.items) result at.new (read_short_header at.old) }
{
    let node = get_node(at)?;
    let name = get_short_name(alloc, at)?;
    let locals = get_local_runs(alloc, &name, at)?;
    Ok((node, name, locals))
}

/// Reads the body of a header, with its participants as runs.
pub fn get_short_header(alloc: Global, at: &mut Cursor<'_>) -> Result<Header, Refusal>
    ensures { Reads (λ h. h) result at.new (read_short_header at.old) }
{
    // No effect at run time: the proof reads here that what is left are bytes.
    let _start = at.offset();
    let (node, name, locals) = get_short_fields(alloc, at)?;
    Ok(Header::from_checked(node, name, locals))
}

ghost use Rattle.std.specs.Prelude.{◌≡◌, None};
ghost use Rattle.std.specs.Option.{option_map, option_copied};
ghost use Rattle.pmg_wire.specs.Many.{many};
ghost use Rattle.pmg_wire.specs.Reading.{Reads};
ghost use Rattle.pmg_frame.specs.Fences.{name_fields, header, commit_ask};
ghost use Rattle.pmg_frame.specs.FenceReading.{is_greater, read_participant, read_participants, read_fields_by, read_name, read_node, read_level, read_local, read_header, read_fence_ask, read_commit_ask};

use crate::asks::{CommitAsk, FenceAsk};
use crate::fence_name::{FenceName, MAX_INSTANCE};
use crate::header::Header;
use crate::local::{Local, State};
use crate::signature::{MAX_PARTICIPANTS, Signature};
use pmg_commit::MAX_COMMIT;
use pmg_value::{Cause, MAX_NODE, NodeId, Proc, Refusal};
use pmg_wire::{Admits, Cursor, get_flag, get_proc};
use std::alloc::Global;

/// Returns whether the process is greater than the one before, if there is one.
pub fn is_greater(before: Option<&Proc>, process: &Proc) -> bool
    ensures { result ≡ is_greater (option_copied before.entry) process.now }
{
    match before {
        None => true,
        Some(before) => *before < *process,
    }
}

#[tactic(auto, unfolding(crate::specs::FenceReading::read_participant))]
fn get_participant(
    alloc: Global,
    before: Option<&Proc>,
    at: &mut Cursor<'_>,
) -> Result<Proc, Refusal>
    ensures { Reads (λ p. p) result at.new (read_participant (option_copied before.entry) at.old) }
{
    let start = at.offset();
    let process = get_proc(alloc, Admits::Clients, at)?;
    if !is_greater(before, &process) {
        return Err(Refusal::bad_frame(start, Cause::Order));
    }
    Ok(process)
}

fn get_participants(alloc: Global, count: u32, at: &mut Cursor<'_>) -> Result<Vec<Proc>, Refusal>
    ensures { Reads (λ ps. ps.items) result at.new (many read_participant count None at.old) }
{
    let mut participants = Vec::new(alloc);
    for _ in 0..count {
        let process = get_participant(alloc, participants.last(), at)?;
        participants.push(process)?;
    }
    Ok(participants)
}

// Reads the fields of a fence's name: whether it collects, the instance, and the participants.
#[tactic(auto, unfolding(crate::specs::FenceReading::read_fields_by, crate::specs::FenceReading::read_participants))]
fn get_name_fields(alloc: Global, at: &mut Cursor<'_>) -> Result<(bool, u64, Vec<Proc>), Refusal>
    ensures { Reads (λ t. name_fields t.0 t.1 t.2.items) result at.new (read_fields_by read_participants at.old) }
{
    let collect = get_flag(at)?;
    let instance_at = at.offset();
    let instance = at.get_u64()?;
    if instance == 0 || instance > MAX_INSTANCE {
        return Err(Refusal::bad_frame(instance_at, Cause::Number));
    }
    let count_at = at.offset();
    let count = at.get_u32()?;
    if count == 0 || count as usize > MAX_PARTICIPANTS {
        return Err(Refusal::bad_frame(count_at, Cause::Count));
    }
    let participants = get_participants(alloc, count, at)?;
    Ok((collect, instance, participants))
}

#[tactic(auto, unfolding(crate::specs::FenceReading::read_name_by))]
fn get_name(alloc: Global, at: &mut Cursor<'_>) -> Result<FenceName, Refusal>
    ensures { Reads (λ f. f) result at.new (read_name at.old) }
{
    // No effect at run time: the proof reads here that what is left are bytes.
    let _start = at.offset();
    let (collect, instance, participants) = get_name_fields(alloc, at)?;
    let signature = Signature::from_rising(participants, collect);
    Ok(FenceName::from_checked(signature, instance))
}

#[tactic(auto, unfolding(crate::specs::FenceReading::read_node))]
pub fn get_node(at: &mut Cursor<'_>) -> Result<NodeId, Refusal>
    ensures { Reads (λ n. n) result at.new (read_node at.old) }
{
    let start = at.offset();
    let index = at.get_u32()?;
    if index > MAX_NODE {
        return Err(Refusal::bad_frame(start, Cause::Node));
    }
    Ok(NodeId::from_checked(index))
}

#[tactic(auto, unfolding(crate::specs::FenceReading::read_level))]
pub fn get_level(at: &mut Cursor<'_>) -> Result<u64, Refusal>
    ensures { Reads (λ n. n) result at.new (read_level at.old) }
{
    let start = at.offset();
    let level = at.get_u64()?;
    if level > MAX_COMMIT {
        return Err(Refusal::bad_frame(start, Cause::Level));
    }
    Ok(level)
}

// Returns whether the process is greater than the process of the line before, if there is one.
pub fn is_behind(before: Option<&Local>, process: &Proc) -> bool
    ensures { result ≡ is_greater (option_map (λ l. l.proc) (option_copied before.entry)) process.now }
{
    match before {
        None => true,
        Some(before) => before.proc < *process,
    }
}

#[tactic(auto, unfolding(crate::specs::FenceReading::read_local))]
fn get_local(
    alloc: Global,
    name: &FenceName,
    before: Option<&Local>,
    at: &mut Cursor<'_>,
) -> Result<Local, Refusal>
    ensures { Reads (λ l. l) result at.new (read_local name.now (option_copied before.entry) at.old) }
{
    let start = at.offset();
    let proc = get_proc(alloc, Admits::Clients, at)?;
    if !is_behind(before, &proc) {
        return Err(Refusal::bad_frame(start, Cause::Order));
    }
    if !name.signature().contains(&proc) {
        return Err(Refusal::bad_frame(start, Cause::Member));
    }
    let gone = get_flag(at)?;
    let level = get_level(at)?;
    let state = if gone { State::Gone } else { State::Entered };
    Ok(Local { proc, state, level })
}

fn get_locals(
    alloc: Global,
    name: &FenceName,
    count: u32,
    at: &mut Cursor<'_>,
) -> Result<Vec<Local>, Refusal>
    ensures { Reads (λ ls. ls.items) result at.new (many (read_local name.now) count None at.old) }
{
    let mut locals = Vec::new(alloc);
    for _ in 0..count {
        let local = get_local(alloc, name, locals.last(), at)?;
        locals.push(local)?;
    }
    Ok(locals)
}

// Reads the fields of a header: the node, the fence's name, and the lines of its participants.
#[tactic(auto, unfolding(crate::specs::FenceReading::read_header))]
fn get_header_fields(
    alloc: Global,
    at: &mut Cursor<'_>,
) -> Result<(NodeId, FenceName, Vec<Local>), Refusal>
    ensures { Reads (λ t. header t.0 t.1 t.2.items) result at.new (read_header at.old) }
{
    let node = get_node(at)?;
    let name = get_name(alloc, at)?;
    let count_at = at.offset();
    let count = at.get_u32()?;
    if count == 0 || count as usize > name.signature().participants().len() {
        return Err(Refusal::bad_frame(count_at, Cause::Count));
    }
    let locals = get_locals(alloc, &name, count, at)?;
    Ok((node, name, locals))
}

/// Reads the body of a header.
pub fn get_header(alloc: Global, at: &mut Cursor<'_>) -> Result<Header, Refusal>
    ensures { Reads (λ h. h) result at.new (read_header at.old) }
{
    // No effect at run time: the proof reads here that what is left are bytes.
    let _start = at.offset();
    let (node, name, locals) = get_header_fields(alloc, at)?;
    Ok(Header::from_checked(node, name, locals))
}

/// Reads the body of a fence ask.
#[tactic(auto, unfolding(crate::specs::FenceReading::read_ask_by))]
pub fn get_fence_ask(alloc: Global, at: &mut Cursor<'_>) -> Result<FenceAsk, Refusal>
    ensures { Reads (λ a. a) result at.new (read_fence_ask at.old) }
{
    let node = get_node(at)?;
    let name = get_name(alloc, at)?;
    Ok(FenceAsk::new(node, name))
}

/// Reads the fields of an ask for commits: the node, the process, and the level.
#[tactic(auto, unfolding(crate::specs::FenceReading::read_commit_ask))]
fn get_ask_fields(alloc: Global, at: &mut Cursor<'_>) -> Result<(NodeId, Proc, u64), Refusal>
    ensures { Reads (λ t. commit_ask t.0 t.1 t.2) result at.new (read_commit_ask at.old) }
{
    let node = get_node(at)?;
    let proc = get_proc(alloc, Admits::ClientsAndHost, at)?;
    let level = get_level(at)?;
    Ok((node, proc, level))
}

/// Reads the body of an ask for commits.
pub fn get_commit_ask(alloc: Global, at: &mut Cursor<'_>) -> Result<CommitAsk, Refusal>
    ensures { Reads (λ a. a) result at.new (read_commit_ask at.old) }
{
    // No effect at run time: the proof reads here that what is left are bytes.
    let _start = at.offset();
    let (node, proc, level) = get_ask_fields(alloc, at)?;
    Ok(CommitAsk::from_checked(node, proc, level))
}

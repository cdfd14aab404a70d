//! The request of a script's line to the world, after the names in the line are judged.
ghost use Rattle.std.specs.Prelude.{◌≡◌, ◌&&◌, true, false, IfOk, IfSome, IsNone, IsTrue, Some, if◌then◌else◌};
ghost use Rattle.pmg_value.specs.Names.{is_key};
ghost use Rattle.pmg_value.specs.Spelling.{spelling};
ghost use Rattle.pmg_jobinfo.specs.Jobs.{home_of};
ghost use Rattle.pmg_node_model.specs.Acts.{Request as ModelRequest};
ghost use Rattle.pmg_world.specs.Asking.{LineAsk as ModelAsked, asked_of, line_asks, are_named, at_home, if_named, is_get, has_named_nspace, sets_node};
ghost use Rattle.pmg_script.specs.Lines.{ReadsAllWords};
ghost use Rattle.pmg_script.specs.Scripts.{line_of};
ghost use Rattle.pmg_group_model.specs.Worlds.{Event as ModelEvent};

use crate::event::Event;
use pmg_jobinfo::Registry;
use pmg_node::Request;
use pmg_scope::Scope;
use pmg_script::{Line, LineFault, Named};
use pmg_value::{Key, Nspace, Proc, Value, is_key_text, is_nspace_name};
use std::alloc::{AllocError, Global};

/// The request of a line to the world.
pub(crate) enum LineAsk {
    /// An event.
    Event(Event),
    /// A request that is refused, since the line has an invalid name.
    Unnamed,
    /// The delivery of each frame that was never delivered.
    Flow,
    /// The members of the set, as the node knows them.
    Members(u64, Key),
    /// The node's dump.
    Dump(u64),
}

impl Drop for LineAsk {
    #[inline(always)]
    fn drop(self) {
        match self {
            LineAsk::Event(_) => {}
            LineAsk::Unnamed => {}
            LineAsk::Flow => {}
            LineAsk::Members(_, _) => {}
            LineAsk::Dump(_) => {}
        }
    }
}

/// Returns whether the process's namespace has a valid name.
fn is_named(proc: &Named<'_>) -> bool
    ensures { result ≡ has_named_nspace proc.now }
{
    is_nspace_name(proc.nspace)
}

/// Returns whether the namespace of each has a valid name.
fn are_named(procs: &[Named<'_>]) -> bool
    ensures { result ≡ are_named procs.now }
{
    for proc in procs {
        if !is_named(proc) {
            return false;
        }
    }
    true
}

/// Returns whether the names in a get are valid.
pub(crate) fn is_named_get(proc: &Named<'_>, target: &Named<'_>, key: &[u8]) -> bool
    ensures { result ≡ (has_named_nspace proc.now && has_named_nspace target.now && is_key key.now) }
{
    is_named(proc) && is_named(target) && is_key_text(key)
}

/// Returns the process of a name that was judged.
pub(crate) fn proc_of(alloc: Global, named: &Named<'_>) -> Result<Proc, AllocError>
    requires { IsTrue (has_named_nspace named.now) }
    ensures { IfOk result (λ p. p ≡ named.now) }
{
    let nspace = Nspace::from_name(alloc, named.nspace)?;
    Ok(Proc {
        nspace,
        rank: named.rank,
    })
}

/// Returns the processes of names that were judged.
fn procs_of(alloc: Global, named: &[Named<'_>]) -> Result<Vec<Proc>, AllocError>
    requires { IsTrue (are_named named.now) }
    ensures { IfOk result (λ ps. ps.items ≡ named.now) }
{
    let mut procs = Vec::with_capacity(alloc, named.len())?;
    for proc in named {
        procs.push(proc_of(alloc, proc)?)?;
    }
    Ok(procs)
}

/// Returns the index of the process's home node.
pub(crate) fn home_of(registry: &Registry, proc: &Proc) -> u64
    ensures { result ≡ home_of registry.now proc.now }
{
    u64::from(registry.home_of(proc).index())
}

/// Returns the process of the name with the index of its home, if its namespace has a valid name.
fn proc_at_home(
    alloc: Global,
    registry: &Registry,
    named: &Named<'_>,
) -> Result<Option<(u64, Proc)>, AllocError>
    ensures some { IfOk result (λ o. IfSome o (λ at. (has_named_nspace named.now ≡ true)
        × ((at.0 ≡ home_of registry.now named.now) × (at.1 ≡ named.now)))) }
    ensures none { IfOk result (λ o. IsNone o → has_named_nspace named.now ≡ false) }
{
    if !is_named(named) {
        return Ok(None);
    }
    let proc = proc_of(alloc, named)?;
    Ok(Some((home_of(registry, &proc), proc)))
}

/// Returns the request of `put NS RANK SCOPE HEX KEY`.
fn ask_put(
    alloc: Global,
    proc: &Named<'_>,
    scope: Scope,
    value: Value,
    key: &[u8],
) -> Result<LineAsk, LineFault>
    ensures { ReadsAllWords asked_of result (Some (if_named (has_named_nspace proc.now && is_key key.now) (ModelEvent.put proc.now scope key.now (spelling value)))) }
{
    if !is_named(proc) || !is_key_text(key) {
        return Ok(LineAsk::Unnamed);
    }
    let proc = proc_of(alloc, proc)?;
    let key = Key::from_text(alloc, key)?;
    Ok(LineAsk::Event(Event::Put(proc, scope, key, value)))
}

/// Returns the request of `commit NS RANK`.
fn ask_commit(alloc: Global, registry: &Registry, proc: &Named<'_>) -> Result<LineAsk, LineFault>
    ensures { ReadsAllWords asked_of result (Some (if_named (has_named_nspace proc.now) (ModelEvent.commit (home_of registry.now proc.now) proc.now))) }
{
    let Some((home, proc)) = proc_at_home(alloc, registry, proc)? else {
        return Ok(LineAsk::Unnamed);
    };
    Ok(LineAsk::Event(Event::Commit(home, proc)))
}

/// Returns the request of `enter NS RANK plain` or `collect`, followed by pairs `NS RANK`.
fn ask_enter(
    alloc: Global,
    registry: &Registry,
    proc: &Named<'_>,
    collect: bool,
    list: &[Named<'_>],
) -> Result<LineAsk, LineFault>
    ensures { ReadsAllWords asked_of result (Some (if_named (has_named_nspace proc.now && are_named list.now) (at_home registry.now proc.now (ModelRequest.enter proc.now list.now collect)))) }
{
    if !is_named(proc) || !are_named(list) {
        return Ok(LineAsk::Unnamed);
    }
    let proc = proc_of(alloc, proc)?;
    let list = procs_of(alloc, list)?;
    let home = home_of(registry, &proc);
    Ok(LineAsk::Event(Event::Request(home, Request::Enter(proc, list, collect))))
}

/// Returns the request of `leave NS RANK`.
fn ask_leave(alloc: Global, registry: &Registry, proc: &Named<'_>) -> Result<LineAsk, LineFault>
    ensures { ReadsAllWords asked_of result (Some (if_named (has_named_nspace proc.now) (at_home registry.now proc.now (ModelRequest.leave proc.now)))) }
{
    let Some((home, proc)) = proc_at_home(alloc, registry, proc)? else {
        return Ok(LineAsk::Unnamed);
    };
    Ok(LineAsk::Event(Event::Request(home, Request::Leave(proc))))
}

/// Returns the request of `take NS RANK`.
fn ask_take(alloc: Global, registry: &Registry, proc: &Named<'_>) -> Result<LineAsk, LineFault>
    ensures { ReadsAllWords asked_of result (Some (if_named (has_named_nspace proc.now) (at_home registry.now proc.now (ModelRequest.take proc.now)))) }
{
    let Some((home, proc)) = proc_at_home(alloc, registry, proc)? else {
        return Ok(LineAsk::Unnamed);
    };
    Ok(LineAsk::Event(Event::Request(home, Request::Take(proc))))
}

/// Returns the request of `end NS RANK`.
fn ask_end(alloc: Global, registry: &Registry, proc: &Named<'_>) -> Result<LineAsk, LineFault>
    ensures { ReadsAllWords asked_of result (Some (if_named (has_named_nspace proc.now) (at_home registry.now proc.now (ModelRequest.terminate proc.now)))) }
{
    let Some((home, proc)) = proc_at_home(alloc, registry, proc)? else {
        return Ok(LineAsk::Unnamed);
    };
    Ok(LineAsk::Event(Event::Request(home, Request::Terminate(proc))))
}

/// Returns the request of `define M`, followed by M pairs `NS RANK` and `NAME`.
fn ask_define(alloc: Global, list: &[Named<'_>], name: &[u8]) -> Result<LineAsk, LineFault>
    ensures { ReadsAllWords asked_of result (Some (if_named (are_named list.now && is_key name.now) (ModelEvent.request sets_node (ModelRequest.define name.now list.now)))) }
{
    if !are_named(list) || !is_key_text(name) {
        return Ok(LineAsk::Unnamed);
    }
    let list = procs_of(alloc, list)?;
    let name = Key::from_text(alloc, name)?;
    Ok(LineAsk::Event(Event::Request(0, Request::Define(name, list))))
}

/// Returns the request of `delete NAME`.
fn ask_delete(alloc: Global, name: &[u8]) -> Result<LineAsk, LineFault>
    ensures { ReadsAllWords asked_of result (Some (if_named (is_key name.now) (ModelEvent.request sets_node (ModelRequest.delete name.now)))) }
{
    if !is_key_text(name) {
        return Ok(LineAsk::Unnamed);
    }
    let name = Key::from_text(alloc, name)?;
    Ok(LineAsk::Event(Event::Request(0, Request::Delete(name))))
}

/// Returns the request of `members NODE NAME`.
fn ask_members(alloc: Global, node: u64, name: &[u8]) -> Result<LineAsk, LineFault>
    ensures { ReadsAllWords asked_of result (Some (if is_key name.now then ModelAsked.members node name.now else ModelAsked.unnamed)) }
{
    if !is_key_text(name) {
        return Ok(LineAsk::Unnamed);
    }
    Ok(LineAsk::Members(node, Key::from_text(alloc, name)?))
}

/// Returns the request of the line, which is not a get, to the world of these jobs. A line without a request to the world is malformed.
#[tactic(auto, unfolding(crate::specs::Asking::line_asks))]
pub(crate) fn ask(alloc: Global, registry: &Registry, line: &Line<'_>) -> Result<LineAsk, LineFault>
    requires { is_get (line_of line.now) ≡ false }
    ensures { ReadsAllWords asked_of result (line_asks registry.now (line_of line.now)) }
{
    match line {
        Line::Put(proc, scope, value, key) => ask_put(alloc, proc, *scope, value.copy()?, key),
        Line::Commit(proc) => ask_commit(alloc, registry, proc),
        Line::Enter(proc, collect, list) => ask_enter(alloc, registry, proc, *collect, list),
        Line::Leave(proc) => ask_leave(alloc, registry, proc),
        Line::Take(proc) => ask_take(alloc, registry, proc),
        Line::End(proc) => ask_end(alloc, registry, proc),
        Line::Define(list, name) => ask_define(alloc, list, name),
        Line::Delete(name) => ask_delete(alloc, name),
        Line::Deliver(frame) => Ok(LineAsk::Event(Event::Deliver(*frame))),
        Line::Flow => Ok(LineAsk::Flow),
        Line::Nudge(node) => Ok(LineAsk::Event(Event::Request(*node, Request::Nudge))),
        Line::Members(node, name) => ask_members(alloc, *node, name),
        Line::Dump(node) => Ok(LineAsk::Dump(*node)),
        Line::Nothing | Line::Nodes(_) | Line::Space(_, _) => Err(LineFault::Malformed),
        Line::Get(_, _, _, _) => unreachable!(),
    }
}

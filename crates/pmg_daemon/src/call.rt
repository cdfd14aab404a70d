//! The calls of a process on its node, read from bytes and numbers.
ghost use Rattle.std.specs.Prelude.{◌≡◌, Err, IfOk, IsTrue};
ghost use Rattle.pmg_value.specs.Names.{is_nspace};
ghost use Rattle.pmg_value.specs.Spelling.{spelling};
ghost use Rattle.pmg_value.specs.declared.refusal.Refusal.TheVariants as refusals;
ghost use Rattle.pmg_node.specs.Acting.{reply_as};
ghost use Rattle.pmg_node.specs.Servers.{reply_in, IsAnswered};
ghost use Rattle.pmg_daemon.specs.Arguments.{
  ReadsArguments,
  commit_said,
  define_said,
  delete_said,
  end_said,
  enter_said,
  get_said,
  key_said,
  leave_said,
  mode_said,
  proc_said,
  put_said,
  scope_said,
  take_said,
  value_said,
};
ghost use Rattle.pmg_daemon.specs.Calls.{call_after, call_due, proc_call_of, MayBeDone};

use pmg_get::Mode;
use pmg_link::Link;
use pmg_node::{Reply, Request};
use pmg_scope::Scope;
use pmg_value::{Key, Nspace, Proc, Rank, Refusal, Value, copy_all, is_key_text, is_nspace_name};
use pmg_wire::value_from_bytes;
use std::alloc::{AllocError, Global};

/// A call of a process on its node.
pub(crate) enum ProcCall {
    /// The process puts the value under the key.
    Put(Proc, Scope, Key, Value),
    /// The process commits its puts.
    Commit(Proc),
    /// A request of the process, or of the program that runs the node.
    Request(Request),
}

impl Drop for ProcCall {
    fn drop(self) {
        match self {
            ProcCall::Put(_, _, _, _) => {}
            ProcCall::Commit(_) => {}
            ProcCall::Request(_) => {}
        }
    }
}

impl ProcCall {
    /// Makes the call.
    pub(crate) fn make(self, link: &mut Link) -> Result<Reply, Refusal>
        ensures reply { IsAnswered result → call_due link.old (proc_call_of self) ≡ reply_in reply_as result }
        ensures after { IsAnswered result → link.new ≡ call_after link.old (proc_call_of self) }
        ensures memory { result ≡ Err refusals.NoMemory → link.new ≡ link.old }
        ensures accepted { result ≡ Err refusals.NoMemory → MayBeDone (call_due link.old (proc_call_of self)) }
    {
        match self {
            ProcCall::Put(proc, scope, key, value) => match link.put(&proc, scope, key, value) {
                Ok(()) => Ok(Reply::Done),
                Err(refusal) => Err(refusal),
            },
            ProcCall::Commit(proc) => link.commit(&proc),
            ProcCall::Request(request) => link.request(request),
        }
    }
}

/// Returns the process of that namespace, which may have any valid name, and that rank. Errors: `BadParam` if the name is invalid;
/// `NoMemory`.
pub(crate) fn proc_said(alloc: Global, nspace: &[u8], rank: u32) -> Result<Proc, Refusal>
    ensures { ReadsArguments (λ p. p) result (proc_said nspace.now rank) }
{
    let nspace = Nspace::read_any(alloc, nspace)?;
    Ok(Proc::new(nspace, Rank::new(rank)))
}

/// Returns the process of that namespace, whose name was judged, and that rank.
fn proc_named(alloc: Global, nspace: &[u8], rank: u32) -> Result<Proc, AllocError>
    requires { IsTrue (is_nspace nspace.now) }
    ensures { IfOk result (λ p. p ≡ record { nspace = nspace.now; rank = rank }) }
{
    let nspace = Nspace::from_name(alloc, nspace)?;
    Ok(Proc::new(nspace, Rank::new(rank)))
}

/// Returns the key of these bytes. Errors: `BadParam` if they are no key; `NoMemory`.
pub(crate) fn key_said(alloc: Global, key: &[u8]) -> Result<Key, Refusal>
    ensures { ReadsArguments (λ k. k) result (key_said key.now) }
{
    Key::read_any(alloc, key)
}

/// Returns the value of these canonical bytes. Errors: `BadFrame` at the first fault; `NoMemory`.
fn value_said(alloc: Global, bytes: &[u8]) -> Result<Value, Refusal>
    ensures { ReadsArguments spelling result (value_said bytes.now) }
{
    value_from_bytes(alloc, bytes)
}

/// Returns the scope of that number (PMIx Standard 5.0, pmix_scope_t).
fn scope_said(number: u32) -> Result<Scope, Refusal>
    ensures { result ≡ scope_said number }
{
    match number {
        0 => Ok(Scope::Undef),
        1 => Ok(Scope::Local),
        2 => Ok(Scope::Remote),
        3 => Ok(Scope::Global),
        4 => Ok(Scope::Internal),
        _ => Err(Refusal::BadParam),
    }
}

/// Returns the mode of a get with that number.
fn mode_said(number: u32) -> Result<Mode, Refusal>
    ensures { result ≡ mode_said number }
{
    match number {
        0 => Ok(Mode::Wait),
        1 => Ok(Mode::Now),
        2 => Ok(Mode::Refresh),
        _ => Err(Refusal::BadParam),
    }
}

/// Returns a put: of the process, with that scope, of the value of these canonical bytes. Errors: `BadParam` if a name, the scope or the
/// key is invalid; `BadFrame` at the first fault of the value; `NoMemory`.
#[tactic(auto, unfolding(crate::specs::Arguments::put_said))]
pub(crate) fn put_said(
    alloc: Global,
    nspace: &[u8],
    rank: u32,
    scope: u32,
    key: &[u8],
    value: &[u8],
) -> Result<ProcCall, Refusal>
    ensures { ReadsArguments proc_call_of result (put_said nspace.now rank scope key.now value.now) }
{
    if !is_nspace_name(nspace) || !is_key_text(key) {
        return Err(Refusal::BadParam);
    }
    let scope = scope_said(scope)?;
    let proc = proc_named(alloc, nspace, rank)?;
    let key = Key::from_text(alloc, key)?;
    let value = value_said(alloc, value)?;
    Ok(ProcCall::Put(proc, scope, key, value))
}

/// Returns a commit of the process.
#[tactic(auto, unfolding(crate::specs::Arguments::commit_said))]
pub(crate) fn commit_said(alloc: Global, nspace: &[u8], rank: u32) -> Result<ProcCall, Refusal>
    ensures { ReadsArguments proc_call_of result (commit_said nspace.now rank) }
{
    Ok(ProcCall::Commit(proc_said(alloc, nspace, rank)?))
}

/// Returns the entry of the process into a fence of these processes. The flag says whether it collects data.
#[tactic(auto, unfolding(crate::specs::Arguments::enter_said))]
pub(crate) fn enter_said(
    alloc: Global,
    nspace: &[u8],
    rank: u32,
    list: &Vec<Proc>,
    collect: bool,
) -> Result<ProcCall, Refusal>
    ensures { ReadsArguments proc_call_of result (enter_said nspace.now rank list.now.items collect) }
{
    let proc = proc_said(alloc, nspace, rank)?;
    let list = copy_all(list)?;
    Ok(ProcCall::Request(Request::Enter(proc, list, collect)))
}

/// Returns the leave of the process from the fence that it is released from.
#[tactic(auto, unfolding(crate::specs::Arguments::leave_said))]
pub(crate) fn leave_said(alloc: Global, nspace: &[u8], rank: u32) -> Result<ProcCall, Refusal>
    ensures { ReadsArguments proc_call_of result (leave_said nspace.now rank) }
{
    Ok(ProcCall::Request(Request::Leave(proc_said(alloc, nspace, rank)?)))
}

/// Returns the get of a key of the target by the process. Errors: `BadParam` if a name, the key or the mode is invalid; `NoMemory`.
#[tactic(auto, unfolding(crate::specs::Arguments::get_said))]
pub(crate) fn get_said(
    alloc: Global,
    nspace: &[u8],
    rank: u32,
    target: &[u8],
    target_rank: u32,
    key: &[u8],
    mode: u32,
) -> Result<ProcCall, Refusal>
    ensures { ReadsArguments proc_call_of result (get_said nspace.now rank target.now target_rank key.now mode) }
{
    if !is_nspace_name(nspace) || !is_nspace_name(target) || !is_key_text(key) {
        return Err(Refusal::BadParam);
    }
    let mode = mode_said(mode)?;
    let proc = proc_named(alloc, nspace, rank)?;
    let target = proc_named(alloc, target, target_rank)?;
    let key = Key::from_text(alloc, key)?;
    Ok(ProcCall::Request(Request::Ask(mode, proc, target, key)))
}

/// Returns the take of the answer to the get for which the process waited.
#[tactic(auto, unfolding(crate::specs::Arguments::take_said))]
pub(crate) fn take_said(alloc: Global, nspace: &[u8], rank: u32) -> Result<ProcCall, Refusal>
    ensures { ReadsArguments proc_call_of result (take_said nspace.now rank) }
{
    Ok(ProcCall::Request(Request::Take(proc_said(alloc, nspace, rank)?)))
}

/// Returns the end of the process.
#[tactic(auto, unfolding(crate::specs::Arguments::end_said))]
pub(crate) fn end_said(alloc: Global, nspace: &[u8], rank: u32) -> Result<ProcCall, Refusal>
    ensures { ReadsArguments proc_call_of result (end_said nspace.now rank) }
{
    Ok(ProcCall::Request(Request::Terminate(proc_said(alloc, nspace, rank)?)))
}

/// Returns the definition of a set of these processes under the name.
#[tactic(auto, unfolding(crate::specs::Arguments::define_said))]
pub(crate) fn define_said(alloc: Global, name: &[u8], list: &Vec<Proc>) -> Result<ProcCall, Refusal>
    ensures { ReadsArguments proc_call_of result (define_said name.now list.now.items) }
{
    let name = key_said(alloc, name)?;
    let list = copy_all(list)?;
    Ok(ProcCall::Request(Request::Define(name, list)))
}

/// Returns the deletion of the set of that name.
#[tactic(auto, unfolding(crate::specs::Arguments::delete_said))]
pub(crate) fn delete_said(alloc: Global, name: &[u8]) -> Result<ProcCall, Refusal>
    ensures { ReadsArguments proc_call_of result (delete_said name.now) }
{
    Ok(ProcCall::Request(Request::Delete(key_said(alloc, name)?)))
}

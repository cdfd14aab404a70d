//! A process enters a fence.
ghost use Rattle.std.specs.Prelude.{◌≡◌, ◌||◌, ◌&&◌, ◌==◌, ◌++◌, false, not, nat_lt, suc, length, [], Some, None, Err, IfOk, OnOk, OnErr, if◌then◌else◌};
ghost use Rattle.std.specs.FinMap as finite;
ghost use Rattle.std.specs.FinSet as set;
ghost use Rattle.std.specs.List.{list_any};
ghost use Rattle.pmg_value.specs.CheckOrder.{first_of};
ghost use Rattle.pmg_value.specs.Names.{is_reserved};
ghost use Rattle.pmg_value.specs.Process.{proc_cmp};
ghost use Rattle.pmg_value.specs.declared.refusal.Refusal.TheVariants as refusals;
ghost use Rattle.pmg_frame.specs.Fences.{signature};
ghost use Rattle.pmg_jobinfo.specs.Expansion.{expansion};
ghost use Rattle.pmg_jobinfo.specs.Jobs.{is_registered};
ghost use Rattle.pmg_jobinfo.specs.Refusing.{is_bad};
ghost use Rattle.pmg_fence.specs.Kept.{placed_by};
ghost use Rattle.pmg_fence.specs.Tables.{count_of};
ghost use Rattle.pmg_fence.specs.declared.change.Change.TheVariants as changes;
ghost use Rattle.pmg_node_model.specs.Acts.{Act, Request, Reply, is_misnamed, list_of, signature_of};
ghost use Rattle.pmg_node_model.specs.Choosing.{sends};
ghost use Rattle.pmg_node.specs.Entries.{entry_cause, entered_name, is_crowd};
ghost use Rattle.pmg_node.specs.Fencing.{fence_after, fence_dues, AreSettledIn};
ghost use Rattle.pmg_node_model.specs.Holdings.{CallState};
ghost use Rattle.pmg_node_parts.specs.Owns.{sealed_of};
ghost use Rattle.pmg_node.specs.Servers.{sent_by, after, IsAnswered, RepliesAct};

use crate::causes::{is_misnamed, is_registered};
use crate::fencing::{FenceContext, change_fence};
use crate::server::Server;
use pmg_dmodex::Marks;
use pmg_fence::{Change, Table};
use pmg_frame::{FenceName, MAX_INSTANCE, MAX_PARTICIPANTS, Signature};
use pmg_jobinfo::Registry;
use pmg_node_model::Sent;
use pmg_node_parts::{Call, Calls};
use pmg_value::{Proc, Rank, Refusal};
use std::alloc::AllocError;
use std::collections::VecDeque;

/// Returns whether a list of participants may not have the process.
fn is_bad(registry: &Registry, proc: &Proc) -> bool
    ensures { result ≡ (is_reserved proc.now.nspace || is_bad registry.now proc.now) }
{
    if proc.nspace.is_reserved() || proc.rank.is_undef() {
        return true;
    }
    !proc.rank.is_wildcard() && is_misnamed(registry, proc)
}

/// Returns whether a list of participants may not have one of the processes.
pub(crate) fn has_bad(registry: &Registry, list: &[Proc]) -> bool
    ensures { result ≡ list_any (λ q. is_reserved q.nspace || is_bad registry.now q) list.now }
{
    for proc in list {
        if is_bad(registry, proc) {
            return true;
        }
    }
    false
}

/// Returns whether the namespace of one of the processes is not registered.
pub(crate) fn has_unknown(registry: &Registry, list: &[Proc]) -> bool
    ensures { result ≡ list_any (λ q. not (is_registered registry.now q.nspace)) list.now }
{
    for proc in list {
        if !is_registered(registry, &proc.nspace) {
            return true;
        }
    }
    false
}

/// Returns whether the entering process, or a process in the list of participants, is one that a list may not name.
fn is_bad_entry(registry: &Registry, proc: &Proc, list: &[Proc]) -> bool
    ensures { result ≡ (is_reserved proc.now.nspace || (is_misnamed registry.now proc.now
        || list_any (λ q. is_reserved q.nspace || is_bad registry.now q) list.now)) }
{
    proc.nspace.is_reserved() || is_misnamed(registry, proc) || has_bad(registry, list)
}

/// Returns whether the namespace of the entering process, or of a process in the list of participants, is not registered.
fn is_unknown_entry(registry: &Registry, proc: &Proc, list: &[Proc]) -> bool
    ensures { result ≡ (not (is_registered registry.now proc.now.nspace)
        || list_any (λ q. not (is_registered registry.now q.nspace)) list.now) }
{
    !is_registered(registry, &proc.nspace) || has_unknown(registry, list)
}

/// Returns whether a list of participants does not include the entering process. An empty list means the whole namespace of this process.
fn is_outside(registry: &Registry, proc: &Proc, list: &[Proc]) -> bool
    ensures { result ≡ (not (length list.now == 0) && not (set.contains (expansion registry.now list.now) proc.now)) }
{
    !list.is_empty() && !registry.is_meant(list, proc)
}

/// Returns the processes that a checked list of participants means.
pub(crate) fn expand(registry: &Registry, list: &[Proc]) -> Result<Vec<Proc>, AllocError>
    ensures { IfOk result (λ procs. set.from_list {R = proc_cmp} procs.items ≡ expansion registry.now list.now) }
{
    match registry.expand(list) {
        Ok(procs) => Ok(procs),
        Err(_) => Err(AllocError),
    }
}

/// Returns the participants that the entering process asks for. An empty list means the whole namespace of this process.
fn participants(registry: &Registry, proc: &Proc, list: &[Proc]) -> Result<Vec<Proc>, AllocError>
    ensures { IfOk result (λ procs. set.from_list {R = proc_cmp} procs.items ≡ expansion registry.now (list_of proc.now list.now)) }
{
    if !list.is_empty() {
        return expand(registry, list);
    }
    let whole = Proc::new(proc.nspace.copy()?, Rank::WILDCARD);
    expand(registry, &[whole])
}

/// Returns the signature of checked participants, unless there are too many.
fn signature(procs: Vec<Proc>, collect: bool) -> Result<Option<Signature>, AllocError>
    ensures { IfOk result (λ found. found ≡ (if nat_lt MAX_PARTICIPANTS (set.len (set.from_list {R = proc_cmp} procs.items))
        then None else Some (signature procs.items collect))) }
{
    match Signature::new(procs, collect) {
        Ok(signature) => Ok(Some(signature)),
        Err(Refusal::TooMany) => Ok(None),
        Err(_) => Err(AllocError),
    }
}

/// Returns the signature that the entering process asks for, by its checked list of participants, unless there are too many.
fn signature_for(
    registry: &Registry,
    proc: &Proc,
    list: &[Proc],
    collect: bool,
) -> Result<Option<Signature>, AllocError>
    ensures { IfOk result (λ found. found ≡ (if is_crowd registry.now proc.now list.now then None
        else Some (signature_of registry.now proc.now list.now collect))) }
{
    let procs = participants(registry, proc, list)?;
    signature(procs, collect)
}

/// Puts the process into the fence, which is the next one of the signature for it. The process is released at once if its entry makes the
/// fence ready. If an allocation fails, nothing changes.
fn enter_fence(
    around: &FenceContext<'_>,
    table: &mut Table,
    calls: &mut Calls,
    marks: &mut Marks,
    name: &FenceName,
    proc: &Proc,
    out: &mut VecDeque<Sent>,
) -> Result<(), AllocError>
    requires node { table.old.node ≡ around.now.id }
    requires told { table.old.waiting ≡ [] }
    requires next { name.now.instance ≡ suc (count_of table.old.fences name.now.signature proc.now) }
    requires free { finite.get calls.old proc.now ≡ None }
    ensures table { OnOk result (table.new
        ≡ fence_after table.old name.now (changes.Entered proc.now (sealed_of around.now.own.now proc.now).level)) }
    ensures calls { OnOk result (AreSettledIn name.now table.old.jobs around.now.id
        (placed_by table.old.fences name.now (changes.Entered proc.now (sealed_of around.now.own.now proc.now).level))
        around.now.board.now.near around.now.board.now.far (finite.insert calls.old proc.now (CallState.in_fence name.now)) calls.new) }
    ensures marks { OnOk result (marks.new ≡ (sends (sealed_of around.now.own.now) marks.old
        (fence_dues table.old name.now (changes.Entered proc.now (sealed_of around.now.own.now proc.now).level))).marks) }
    ensures sent { OnOk result (out.new.items ≡ out.old.items ++ (sends (sealed_of around.now.own.now) marks.old
        (fence_dues table.old name.now (changes.Entered proc.now (sealed_of around.now.own.now proc.now).level))).frames) }
    ensures table_err { OnErr result (table.new ≡ table.old) }
    ensures calls_err { OnErr result (calls.new ≡ calls.old) }
    ensures marks_err { OnErr result (marks.new ≡ marks.old) }
    ensures unsent { OnErr result (out.new.items ≡ out.old.items) }
{
    let entered = Change::Entered(proc.copy()?, around.own.level(proc));
    calls.put(proc.copy()?, Call::InFence(name.copy()?))?;
    if let Err(AllocError) = change_fence(around, table, calls, marks, name, entered, out) {
        let _ = calls.remove(proc);
        return Err(AllocError);
    }
    Ok(())
}

impl Server {
    /// Checks the entering process and the list of participants, except for the limits of an entry.
    fn check_entry(&self, proc: &Proc, list: &[Proc]) -> Result<(), Refusal>
        ensures { result ≡ first_of (entry_cause self.now.jobs self.now.id self.now.holding proc.now list.now) tt }
    {
        let registry = self.table.registry();
        if is_bad_entry(registry, proc, list) {
            return Err(Refusal::BadParam);
        }
        if is_unknown_entry(registry, proc, list) {
            return Err(Refusal::UnknownNamespace);
        }
        if !registry.is_home(self.id, proc) {
            return Err(Refusal::NotMine);
        }
        if self.own.has_ended(proc) {
            return Err(Refusal::Terminated);
        }
        if self.calls.get(proc).is_some() {
            return Err(Refusal::Busy);
        }
        if is_outside(registry, proc, list) {
            return Err(Refusal::NotAParticipant);
        }
        Ok(())
    }

    /// Returns whether the checked list means more participants than a fence may have. An empty list means a namespace, which is within the
    /// limit. It takes no memory, and as much time as `count_meant`.
    fn is_crowd(&self, proc: &Proc, list: &[Proc]) -> bool
        ensures { result ≡ is_crowd self.now.jobs proc.now list.now }
    {
        let registry = self.table.registry();
        if list.is_empty() {
            return false;
        }
        registry.count_meant(list) > MAX_PARTICIPANTS
    }

    /// Returns the signature that the entering process asks for, by its checked list of participants; `None` if there are too many
    /// participants, even if an allocation fails.
    fn asked_signature(
        &self,
        proc: &Proc,
        list: &[Proc],
        collect: bool,
    ) -> Result<Option<Signature>, AllocError>
        ensures found { IfOk result (λ found. found ≡ (if is_crowd self.now.jobs proc.now list.now then None
            else Some (signature_of self.now.jobs proc.now list.now collect))) }
        ensures few { OnErr result (is_crowd self.now.jobs proc.now list.now ≡ false) }
    {
        match signature_for(self.table.registry(), proc, list, collect) {
            Ok(found) => Ok(found),
            Err(AllocError) => {
                if self.is_crowd(proc, list) {
                    return Ok(None);
                }
                Err(AllocError)
            }
        }
    }

    /// Returns the name of the fence that the process enters, by its checked list of participants; `None` if the entry passes a limit.
    fn next_fence(
        &self,
        proc: &Proc,
        list: &[Proc],
        collect: bool,
    ) -> Result<Option<FenceName>, AllocError>
        ensures name { IfOk result (λ name. name ≡ entered_name self.now.jobs self.now.holding proc.now list.now collect) }
        ensures few { OnErr result (is_crowd self.now.jobs proc.now list.now ≡ false) }
    {
        let Some(signature) = self.asked_signature(proc, list, collect)? else {
            return Ok(None);
        };
        let count = self.table.count(&signature, proc);
        if count >= MAX_INSTANCE {
            return Ok(None);
        }
        let shared = self.table.share(signature)?;
        Ok(Some(FenceName::from_checked(shared, count + 1)))
    }

    /// Enters the process into its next fence of these participants, and returns the instance (PMIx Standard 5.0, PMIx_Fence). An empty
    /// list means its whole namespace. Errors: `BadParam` if the process or one in the list is not in its registered namespace, or is of a
    /// namespace that begins with `pmix`; `UnknownNamespace`; `NotMine` if the process is at home at another node; `Terminated`; `Busy` if
    /// it is in a call; `NotAParticipant`; `TooMany` past 4,096 participants or 4,294,967,295 entries; `NoMemory`, which comes before
    /// `TooMany` only if the entry is one too many.
    pub fn enter(
        &mut self,
        proc: &Proc,
        list: &[Proc],
        collect: bool,
        out: &mut VecDeque<Sent>,
    ) -> Result<u64, Refusal>
        ensures reply { RepliesAct Reply.entered result self.old (Act.request (Request.enter proc.now list.now collect)) }
        ensures done { IsAnswered result → self.new ≡ after self.old (Act.request (Request.enter proc.now list.now collect)) }
        ensures sent { IsAnswered result → out.new.items ≡ out.old.items ++ sent_by self.old (Act.request (Request.enter proc.now list.now collect)) }
        ensures memory { result ≡ Err refusals.NoMemory → self.new ≡ self.old }
        ensures unsent { result ≡ Err refusals.NoMemory → out.new.items ≡ out.old.items }
    {
        if let Err(refusal) = self.check_entry(proc, list) {
            return Err(refusal);
        }
        let Some(name) = self.next_fence(proc, list, collect)? else {
            return Err(Refusal::TooMany);
        };
        let around = FenceContext {
            id: self.id,
            board: &self.board,
            own: &self.own,
        };
        enter_fence(
            &around,
            &mut self.table,
            &mut self.calls,
            &mut self.marks,
            &name,
            proc,
            out,
        )?;
        Ok(name.instance())
    }
}

//! A process ends.
ghost use Rattle.std.specs.Prelude.{◌≡◌, ◌≤◌, ◌++◌, [], true, false, is_some, IfOk, IfSome, OnOk, OnErr};
ghost use Rattle.std.specs.FinMap as finite;
ghost use Rattle.std.specs.List.{flat_map};
ghost use Rattle.pmg_value.specs.Process.{is_host};
ghost use Rattle.pmg_value.specs.declared.refusal.Refusal.TheVariants as refusals;
ghost use Rattle.pmg_scope.specs.declared.scope.Reach.TheVariants as reach;
ghost use Rattle.pmg_commit.specs.Sealed.{ended_with, piece_at};
ghost use Rattle.pmg_commit.specs.TakenBack.{CanRollBack as CanRollSealBack};
ghost use Rattle.pmg_fence.specs.Changes.{ended_by, news};
ghost use Rattle.pmg_fence.specs.Tables.{names_of};
ghost use Rattle.pmg_fence.specs.TakenBack.{table_back, CanRollTableBack};
ghost use Rattle.pmg_node_model.specs.Acts.{Act, Request};
ghost use Rattle.pmg_node_model.specs.Choosing.{announcing};
ghost use Rattle.pmg_node.specs.Endings.{own_ended, own_back, table_ended};
ghost use Rattle.pmg_node_model.specs.Holdings.{sealer_of};
ghost use Rattle.pmg_node_parts.specs.Owns.{sealed_of};
ghost use Rattle.pmg_node.specs.Replies.{ended_reply};
ghost use Rattle.pmg_node.specs.Servers.{reply_to, sent_by, after, IsAnswered, Replies};
ghost use Rattle.pmg_commit.specs.declared.piece.TheConstants.{MAX_COMMIT};

use crate::committing::{Committed, keep_published};
use crate::fencing::announce_all;
use crate::publishing::{PublishContext, Published, publish};
use crate::server::Server;
use pmg_commit::SealerUndo;
use pmg_fence::{Table, TableUndo};
use pmg_node_model::{Sent, ToSend};
use pmg_node_parts::LocalCommits;
use pmg_value::{NodeId, Proc, Refusal};
use std::alloc::AllocError;
use std::collections::VecDeque;

/// Makes the process gone from the fences that it has not entered, after the end with so many commits in the table. Returns the earlier
/// state, and the own headers that begin to exist, due to other nodes.
fn end_fences(
    table: &mut Table,
    id: NodeId,
    proc: &Proc,
    level: u64,
) -> Result<(TableUndo<'static>, Vec<ToSend>), AllocError>
    requires node { table.old.node ≡ id }
    requires waiting { table.old.waiting ≡ [] }
    requires level { level ≤ MAX_COMMIT }
    ensures ok { OnOk result (table.new ≡ table_ended table.old proc.now level) }
    ensures dues { IfOk result (λ r. r.1.items ≡ flat_map (announcing table.old.jobs id)
        (flat_map (news table.old.jobs id table.old.fences (ended_by table.old.fences proc.now level)) (names_of table.old.fences))) }
    ensures before { IfOk result (λ r. table_back table.new r.0 ≡ table.old) }
    ensures fits { IfOk result (λ r. CanRollTableBack table.new r.0) }
    ensures err { OnErr result (table.new ≡ table.old) }
{
    let before = table.end(proc, level)?;
    let headers = table.take_headers();
    match announce_all(table.registry(), id, headers) {
        Ok(dues) => Ok((before, dues)),
        Err(AllocError) => {
            table.rollback(before);
            Err(AllocError)
        }
    }
}

/// The state before a process ended: the state of its sealer, if it had not ended, and of the fences.
#[derive(Drop)]
struct EndBefore {
    sealer: Option<SealerUndo>,
    table: TableUndo<'static>,
}

/// Takes the own process's end back, if it had not ended before.
#[tactic(auto, unfolding(pmg_node_model::specs::Holdings::sealer_in))]
fn take_seal_back(own: &mut LocalCommits, proc: &Proc, before: Option<SealerUndo>)
    requires client { is_host proc.now ≡ false }
    requires there { is_some (finite.get own.old.sealers proc.now) ≡ true }
    requires fits { IfSome before (CanRollSealBack (sealed_of own.old proc.now)) }
    ensures { own.new ≡ own_back own.old proc.now before }
{
    if let Some(before) = before {
        own.sealers.rollback(proc, before);
    }
}

/// Ends the own process, and makes it gone from the fences that it has not entered. Returns the due frames and the earlier state.
fn end(
    own: &mut LocalCommits,
    table: &mut Table,
    id: NodeId,
    proc: &Proc,
) -> Result<(EndBefore, Vec<ToSend>), AllocError>
    requires client { is_host proc.now ≡ false }
    requires there { is_some (finite.get own.old.sealers proc.now) ≡ true }
    requires live { (sealed_of own.old proc.now).ended ≡ false }
    requires node { table.old.node ≡ id }
    requires waiting { table.old.waiting ≡ [] }
    ensures own { OnOk result (own.new ≡ own_ended own.old proc.now) }
    ensures table { OnOk result (table.new ≡ table_ended table.old proc.now (ended_with (sealed_of own.old proc.now)).level) }
    ensures dues { IfOk result (λ r. r.1.items ≡ flat_map (announcing table.old.jobs id)
        (flat_map (news table.old.jobs id table.old.fences (ended_by table.old.fences proc.now (ended_with (sealed_of own.old proc.now)).level))
        (names_of table.old.fences))) }
    ensures own_before { IfOk result (λ r. own_back own.new proc.now r.0.sealer ≡ own.old) }
    ensures own_fits { IfOk result (λ r. IfSome r.0.sealer (CanRollSealBack (sealed_of own.new proc.now))) }
    ensures table_before { IfOk result (λ r. table_back table.new r.0.table ≡ table.old) }
    ensures table_fits { IfOk result (λ r. CanRollTableBack table.new r.0.table) }
    ensures own_err { OnErr result (own.new ≡ own.old) }
    ensures table_err { OnErr result (table.new ≡ table.old) }
{
    let sealer = own.sealers.end(proc)?;
    match end_fences(table, id, proc, own.level(proc)) {
        Ok((table, dues)) => Ok((EndBefore { sealer, table }, dues)),
        Err(AllocError) => {
            take_seal_back(own, proc, sealer);
            Err(AllocError)
        }
    }
}

/// Keeps the process's end if it was published; takes it back if an allocation failed before.
fn keep_end(
    own: &mut LocalCommits,
    table: &mut Table,
    proc: &Proc,
    before: EndBefore,
    published: Result<Published, AllocError>,
) -> Result<Published, AllocError>
    requires client { is_host proc.now ≡ false }
    requires there { is_some (finite.get own.old.sealers proc.now) ≡ true }
    requires own_fits { IfSome before.sealer (CanRollSealBack (sealed_of own.old proc.now)) }
    requires table_fits { CanRollTableBack table.old before.table }
    ensures same { result ≡ published }
    ensures own { OnOk result (own.new ≡ own.old) }
    ensures table { OnOk result (table.new ≡ table.old) }
    ensures own_err { OnErr result (own.new ≡ own_back own.old proc.now before.sealer) }
    ensures table_err { OnErr result (table.new ≡ table_back table.old before.table) }
{
    match published {
        Ok(published) => Ok(published),
        Err(AllocError) => {
            take_seal_back(own, proc, before.sealer);
            table.rollback(before.table);
            Err(AllocError)
        }
    }
}

impl Server {
    /// Ends the process (PMIx Standard 5.0, PMIx_Finalize). The end is its last commit, by which others learn that it has ended. The
    /// process is gone from the fences that it has not entered, and in no call any more. Errors: `BadParam` if the process is not in its
    /// registered namespace, or its namespace begins with `pmix`; `UnknownNamespace`; `NotMine` if it is at home at another node;
    /// `Terminated` if it has ended; `NoMemory`, and then nothing changes.
    pub fn terminate(&mut self, proc: &Proc, out: &mut VecDeque<Sent>) -> Result<Committed, Refusal>
        ensures reply { Replies ended_reply result (reply_to self.old (Act.request (Request.terminate proc.now))) }
        ensures done { IsAnswered result → self.new ≡ after self.old (Act.request (Request.terminate proc.now)) }
        ensures sent { IsAnswered result → out.new.items ≡ out.old.items ++ sent_by self.old (Act.request (Request.terminate proc.now)) }
        ensures memory { result ≡ Err refusals.NoMemory → self.new ≡ self.old }
        ensures unsent { result ≡ Err refusals.NoMemory → out.new.items ≡ out.old.items }
        ensures near { IfOk result (λ e. e.near ≡ piece_at (ended_with (sealer_of self.old.holding proc.now))
            (sealer_of self.old.holding proc.now).level reach.Near) }
        ensures far { IfOk result (λ e. e.far ≡ piece_at (ended_with (sealer_of self.old.holding proc.now))
            (sealer_of self.old.holding proc.now).level reach.Far) }
    {
        if let Err(refusal) = self.check_caller(proc) {
            return Err(refusal);
        }
        let from = self.own.level(proc);
        let Ok((before, dues)) = end(&mut self.own, &mut self.table, self.id, proc) else {
            return Err(Refusal::NoMemory);
        };
        let beside = PublishContext {
            table: &self.table,
            id: self.id,
            own: &self.own,
            held: &self.held,
            calls: &self.calls,
        };
        let told = publish(
            &beside,
            &mut self.board,
            &mut self.marks,
            out,
            proc,
            from,
            dues,
        );
        let kept = keep_end(&mut self.own, &mut self.table, proc, before, told);
        let Ok(published) = kept else {
            return Err(Refusal::NoMemory);
        };
        let ended = keep_published(&self.own, &mut self.held, &mut self.calls, proc, published);
        let _ = self.calls.remove(proc);
        Ok(ended)
    }
}

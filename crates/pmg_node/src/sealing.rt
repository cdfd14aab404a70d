//! The next commit of an own process, or of the process that represents the group's host.
ghost use Rattle.std.specs.Prelude.{◌≡◌, ◌<◌, ◌++◌, Err, IfOk, OnOk, OnErr};
ghost use Rattle.pmg_value.specs.Answers.{Gives};
ghost use Rattle.pmg_value.specs.declared.refusal.Refusal.TheVariants as refusals;
ghost use Rattle.pmg_scope.specs.declared.scope.Reach.TheVariants as reach;
ghost use Rattle.pmg_commit.specs.Sealed.{piece_at};
ghost use Rattle.pmg_commit.specs.TakenBack.{sealer_back};
ghost use Rattle.pmg_pset.specs.Sets.{host};
ghost use Rattle.pmg_node_model.specs.Holdings.{sealer_of};
ghost use Rattle.pmg_node_parts.specs.Owns.{sealed_of};
ghost use Rattle.pmg_node.specs.Sealing.{CanSealNext, CanUnseal, judged_before, last_sealed, sealed_next, sealer_named, sealing_act, sealing_answer, sealing_reply, told_besides, with_next};
ghost use Rattle.pmg_node.specs.Servers.{reply_to, sent_by, after, IsAnswered, Replies};

use crate::committing::{Committed, keep_published};
use crate::entering::expand;
use crate::publishing::{PublishContext, publish};
use crate::server::Server;
use pmg_commit::SealerUndo;
use pmg_fence::Table;
use pmg_node_model::{Sent, ToSend};
use pmg_node_parts::{LocalCommits, spread};
use pmg_scope::Batch;
use pmg_value::{Key, NodeId, Proc, Refusal};
use std::alloc::AllocError;
use std::collections::VecDeque;

/// An act by which an own process, or the process that represents the group's host, makes a commit.
#[derive(Drop)]
pub(crate) enum SealingAct<'a> {
    /// The process commits the batch.
    Commit(&'a Proc, &'a Batch),
    /// The set of that name is defined, with the members that the list means.
    Define(&'a Key, &'a [Proc]),
    /// The set of that name is deleted.
    Delete(&'a Key),
}

/// Returns the process that represents the group's host.
fn host() -> Proc
    ensures { result ≡ host }
{
    Proc::of_host()
}

/// Returns the process that makes the commit: for a change of the sets this is the process that represents the group's host.
fn sealer<'a>(act: &'a SealingAct<'_>, stand_in: &'a Proc) -> &'a Proc
    requires { stand_in.now ≡ host }
    ensures { result.now ≡ sealer_named act.now }
{
    match act {
        SealingAct::Commit(proc, _) => proc,
        SealingAct::Define(_, _) => stand_in,
        SealingAct::Delete(_) => stand_in,
    }
}

/// Seals the act's next commit, and returns the earlier state.
fn seal_next(
    own: &mut LocalCommits,
    table: &Table,
    act: &SealingAct<'_>,
) -> Result<SealerUndo, Refusal>
    requires { CanSealNext table.now.jobs own.old act.now }
    ensures before { Gives (λ b. sealer_back (last_sealed own.new act.now) b) result (sealing_answer own.old act.now) }
    ensures fits { IfOk result (λ b. CanUnseal own.new act.now b) }
    ensures ok { OnOk result (own.new ≡ with_next own.old act.now (sealed_next table.now.jobs own.old act.now)) }
    ensures err { OnErr result (own.new ≡ own.old) }
{
    match act {
        SealingAct::Commit(proc, batch) => own.commit(proc, batch),
        SealingAct::Define(name, list) => {
            let members = expand(table.registry(), list)?;
            own.define(name, members)
        }
        SealingAct::Delete(name) => own.delete(name),
    }
}

/// Takes the act's last commit back.
fn unseal(own: &mut LocalCommits, act: &SealingAct<'_>, before: SealerUndo)
    requires { CanUnseal own.old act.now before }
    ensures { own.new ≡ with_next own.old act.now (sealer_back (last_sealed own.old act.now) before) }
{
    match act {
        SealingAct::Commit(proc, _) => own.rollback(proc, before),
        SealingAct::Define(_, _) => own.take_sets_back(before),
        SealingAct::Delete(_) => own.take_sets_back(before),
    }
}

/// Returns the frames that are due beside the waiting requests: after a change of the sets, all changes, to each other node.
fn dues_besides(
    own: &LocalCommits,
    table: &Table,
    id: NodeId,
    act: &SealingAct<'_>,
) -> Result<Vec<ToSend>, AllocError>
    requires { 0 < (last_sealed own.now act.now).level }
    ensures { IfOk result (λ dues. dues.items ≡ told_besides table.now.jobs id act.now (sealed_of own.now)) }
{
    let registry = table.registry();
    match act {
        SealingAct::Commit(_, _) => Ok(Vec::new(registry.allocator())),
        SealingAct::Define(_, _) => spread(registry, id, own, &host()),
        SealingAct::Delete(_) => spread(registry, id, own, &host()),
    }
}

/// Seals the act's next commit, and returns the earlier state, and the frames that are due beside the waiting requests.
fn seal_due(
    own: &mut LocalCommits,
    table: &Table,
    id: NodeId,
    act: &SealingAct<'_>,
) -> Result<(SealerUndo, Vec<ToSend>), Refusal>
    requires { CanSealNext table.now.jobs own.old act.now }
    ensures before { Gives (λ b. sealer_back (last_sealed own.new act.now) b.0) result (sealing_answer own.old act.now) }
    ensures fits { IfOk result (λ b. CanUnseal own.new act.now b.0) }
    ensures dues { IfOk result (λ b. b.1.items ≡ told_besides table.now.jobs id act.now (sealed_of own.new)) }
    ensures ok { OnOk result (own.new ≡ with_next own.old act.now (sealed_next table.now.jobs own.old act.now)) }
    ensures err { OnErr result (own.new ≡ own.old) }
{
    let before = seal_next(own, table, act)?;
    match dues_besides(own, table, id, act) {
        Ok(dues) => Ok((before, dues)),
        Err(AllocError) => {
            unseal(own, act, before);
            Err(Refusal::NoMemory)
        }
    }
}

impl Server {
    /// Checks the act, except for causes that only the sealing shows.
    fn check_sealing(&self, act: &SealingAct<'_>) -> Result<(), Refusal>
        ensures { result ≡ judged_before self.now.jobs self.now.id self.now.holding act.now }
    {
        match act {
            SealingAct::Commit(proc, _) => self.check_free(proc),
            SealingAct::Define(name, list) => self.check_definition(name, list),
            SealingAct::Delete(name) => self.check_name(name),
        }
    }

    /// Seals the act's next commit, joins it into the node's stores, and sends it to the nodes that wait for it; a change of the sets goes
    /// to all nodes. If an allocation fails, the commit is taken back.
    pub(crate) fn seal(
        &mut self,
        act: &SealingAct<'_>,
        out: &mut VecDeque<Sent>,
    ) -> Result<Committed, Refusal>
        ensures reply { Replies (sealing_reply act.now) result (reply_to self.old (sealing_act act.now)) }
        ensures done { IsAnswered result → self.new ≡ after self.old (sealing_act act.now) }
        ensures sent { IsAnswered result → out.new.items ≡ out.old.items ++ sent_by self.old (sealing_act act.now) }
        ensures near { IfOk result (λ c. c.near ≡ piece_at (sealer_of self.new.holding (sealer_named act.now))
            (sealer_of self.old.holding (sealer_named act.now)).level reach.Near) }
        ensures far { IfOk result (λ c. c.far ≡ piece_at (sealer_of self.new.holding (sealer_named act.now))
            (sealer_of self.old.holding (sealer_named act.now)).level reach.Far) }
        ensures memory { result ≡ Err refusals.NoMemory → self.new ≡ self.old }
        ensures unsent { result ≡ Err refusals.NoMemory → out.new.items ≡ out.old.items }
    {
        if let Err(refusal) = self.check_sealing(act) {
            return Err(refusal);
        }
        let host = host();
        let proc = sealer(&*act, &host);
        let from = self.own.level(proc);
        let (before, dues) = seal_due(&mut self.own, &self.table, self.id, act)?;
        let beside = PublishContext {
            table: &self.table,
            id: self.id,
            own: &self.own,
            held: &self.held,
            calls: &self.calls,
        };
        let Ok(published) = publish(
            &beside,
            &mut self.board,
            &mut self.marks,
            out,
            proc,
            from,
            dues,
        ) else {
            unseal(&mut self.own, act, before);
            return Err(Refusal::NoMemory);
        };
        Ok(keep_published(&self.own, &mut self.held, &mut self.calls, proc, published))
    }
}

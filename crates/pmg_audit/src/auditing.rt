//! The check that journals and transcripts are one run.
ghost use Rattle.std.specs.Prelude.{◌≡◌, ◌<◌, ◌⊎◌, ℕ, true, false, length, map, IfOk, IfErr};
ghost use Rattle.pmg_value.specs.Lists.{Each, In};
ghost use Rattle.pmg_jobinfo.specs.Jobs.{AreJobs};
ghost use Rattle.pmg_journal.specs.declared.journal.Journal.{Journal as JournalOf};
ghost use Rattle.pmg_audit.specs.Faults.{IsFault, IsReplayFault};
ghost use Rattle.pmg_audit.specs.Replaying.{AreOf, AreWhole, EndsFor, EndsWell};
ghost use Rattle.pmg_audit.specs.OneRun.{IsOneRun};
ghost use Rattle.pmg_audit.specs.Runs.{AreJournals, HasJournal, account_by};
ghost use Rattle.pmg_world.specs.Accounts.{IsAccountLawful, IsRun};

use crate::ordering::{Order, make_order};
use crate::replaying::{AllReplayed, replay_all};
use crate::run::Run;
use crate::sayings::{Sayings, sayings_of};
use pmg_jobinfo::Registry;
use pmg_journal::{Record, Transcript};
use pmg_node::Server;
use pmg_value::{NodeId, Refusal};
use std::alloc::Global;

/// Returns whether one of the journals is the node's.
fn has_journal(journals: &[Record], node: NodeId) -> bool
    ensures some { result ≡ true → HasJournal journals.now node }
    ensures none { result ≡ false → Each (λ (j : JournalOf). j.node ≡ node → ⊥) journals.now }
{
    for journal in journals {
        if journal.node() == node {
            return true;
        }
    }
    false
}

/// Returns whether each journal is of a node of that group.
fn are_of(journals: &[Record], registry: &Registry) -> bool
    ensures all { result ≡ true → Each (λ (j : JournalOf). j.registry ≡ registry.now) journals.now }
    ensures other { result ≡ false → Each (λ (j : JournalOf). j.registry ≡ registry.now) journals.now → ⊥ }
{
    for journal in journals {
        if !journal.registry().is_same(registry) {
            return false;
        }
    }
    true
}

/// Returns whether each node of the group has a journal.
fn have_all(journals: &[Record], registry: &Registry) -> bool
    ensures all { result ≡ true → (n : ℕ) → n < length registry.now.nodes → HasJournal journals.now n }
    ensures other { result ≡ false → ((n : ℕ) → n < length registry.now.nodes → HasJournal journals.now n) → ⊥ }
    ensures jobs { AreJobs registry.now }
{
    for index in 0..registry.node_count() {
        if !has_journal(journals, NodeId::from_checked(index as u32)) {
            return false;
        }
    }
    true
}

/// Returns whether there is one journal for each node of that group.
fn are_journals(journals: &[Record], registry: &Registry) -> bool
    ensures are { result ≡ true → AreJournals registry.now journals.now }
    ensures other { result ≡ false → AreJournals registry.now journals.now → ⊥ }
    ensures jobs { AreJobs registry.now }
{
    if journals.len() != registry.node_count() {
        return false;
    }
    if !are_of(journals, registry) {
        return false;
    }
    have_all(journals, registry)
}

/// Replays all journals, and checks that all claims of the clients are matched.
fn replays_with(
    alloc: Global,
    registry: &Registry,
    journals: &mut [Record],
    mut sayings: Sayings,
) -> Result<AllReplayed, Refusal>
    requires jobs { AreJobs registry.now }
    requires of { AreOf registry.now journals.old }
    ensures ok { IfOk result (λ all. EndsWell registry.now journals.old sayings all) }
    ensures refused { IfErr result (λ e. EndsFor registry.now journals.old sayings e) }
{
    replays_among(alloc, registry, journals, &mut sayings)
}

/// Replays all journals, and checks that all claims of the clients are matched. The claims are used up.
fn replays_among(
    alloc: Global,
    registry: &Registry,
    journals: &mut [Record],
    sayings: &mut Sayings,
) -> Result<AllReplayed, Refusal>
    requires jobs { AreJobs registry.now }
    requires of { AreOf registry.now journals.old }
    ensures ok { IfOk result (λ all. EndsWell registry.now journals.old sayings.old all) }
    ensures refused { IfErr result (λ e. EndsFor registry.now journals.old sayings.old e) }
{
    match replay_all(alloc, registry, journals, sayings) {
        Ok(all) => {
            if !sayings.are_told() {
                return Err(Refusal::Collision);
            }
            if !all.may_put_last(registry, sayings.as_slice()) {
                return Err(Refusal::Collision);
            }
            if all.is_stale {
                return Err(Refusal::Stale);
            }
            Ok(all)
        }
        Err(refusal) => Err(refusal),
    }
}

/// Replays all journals, and checks that the transcripts agree with them. Errors: `Collision` if they do not agree; `Stale` if a reply on
/// replay differs; `NoMemory`.
fn replays_of(
    alloc: Global,
    registry: &Registry,
    journals: &mut [Record],
    transcripts: &[Transcript],
) -> Result<AllReplayed, Refusal>
    requires jobs { AreJobs registry.now }
    requires of { AreOf registry.now journals.old }
    ensures ok { IfOk result (λ all. AreWhole registry.now journals.old transcripts.now all) }
    ensures refused { IfErr result (λ e. IsReplayFault registry.now journals.old transcripts.now e) }
{
    match sayings_of(alloc, transcripts) {
        Ok(sayings) => replays_with(alloc, registry, journals, sayings),
        Err(refusal) => Err(refusal),
    }
}

/// Makes the run that leaves these nodes, in that order.
fn run_with(registry: Registry, nodes: Vec<Server>, order: Order) -> Run
    requires run { IsRun (account_by registry nodes.items order.sent.items order.told.items) }
    requires lawful { IsAccountLawful (account_by registry nodes.items order.sent.items order.told.items) }
    ensures { result ≡ account_by registry nodes.items order.sent.items order.told.items }
{
    let (sent, told) = order.into_parts();
    Run {
        registry,
        nodes,
        sent,
        told,
    }
}

/// Makes the one run of that group that the journals and the transcripts record.
fn run_of(
    alloc: Global,
    registry: Registry,
    journals: &mut [Record],
    transcripts: &[Transcript],
) -> Result<Run, Refusal>
    requires jobs { AreJobs registry }
    requires journals { AreJournals registry journals.old }
    ensures ok { IfOk result (λ run. IsOneRun journals.old transcripts.now run) }
    ensures refused { IfErr result (λ e. IsFault journals.old transcripts.now e) }
{
    match replays_of(alloc, &registry, journals, transcripts) {
        Ok(all) => {
            let (nodes, lanes) = all.into_parts();
            match make_order(alloc, lanes) {
                Ok(order) => Ok(run_with(registry, nodes, order)),
                Err(refusal) => Err(refusal),
            }
        }
        Err(refusal) => Err(refusal),
    }
}

/// Makes the one run that the journals and the transcripts record. It takes the events out of the journals.
fn audit_among(
    alloc: Global,
    journals: &mut [Record],
    transcripts: &[Transcript],
) -> Result<Run, Refusal>
    ensures ok { IfOk result (λ run. IsOneRun journals.old transcripts.now run) }
    ensures refused { IfErr result (λ e. IsFault journals.old transcripts.now e) }
{
    match journals.first() {
        Some(first) => {
            let group = first.registry();
            if !are_journals(journals, group) {
                return Err(Refusal::BadParam);
            }
            let registry = group.copy()?;
            run_of(alloc, registry, journals, transcripts)
        }
        None => Err(Refusal::BadParam),
    }
}

/// Makes the one run that the journals and the transcripts record. A journal with evidence of the server that ran its node is not
/// replayed, since it is a replay; any other is replayed. Each refusal except `NoMemory` comes only if no earlier one in this list
/// applies. Errors: `BadParam` if there is not one journal for each node of one group. `Collision` if two transcripts are of one process,
/// or if a process that made an event has no transcript. `Collision` if a transcript differs from its process's events in its home's
/// journal. `Collision` if a transcript claims a done put that its client's cache refuses, or that its process made in a call or after its
/// end. `Stale` if the reply of an event differs on replay. `Unordered` if no order delivers each frame after it was sent. `NoMemory`.
pub fn audit(
    alloc: Global,
    mut journals: Vec<Record>,
    transcripts: &[Transcript],
) -> Result<Run, Refusal>
    ensures ok { IfOk result (λ run. IsOneRun journals.items transcripts.now run) }
    ensures refused { IfErr result (λ e. IsFault journals.items transcripts.now e) }
{
    audit_among(alloc, &mut journals, transcripts)
}

//! The journal of a node, with the evidence of the server that ran the node.
ghost use Rattle.std.specs.Prelude.{◌≡◌, [], map, IfSome};
ghost use Rattle.std.specs.Option.{option_map};
ghost use Rattle.pmg_node.specs.Acting.{act_of};
ghost use Rattle.pmg_journal.specs.Calling.{caller_of, free_at};
ghost use Rattle.pmg_journal.specs.Journals.{happened_in, happening_of, start_of};
ghost use Rattle.pmg_journal.specs.Records.{IsEvidence};

use crate::journal::{Event, Journal};
use pmg_jobinfo::Registry;
use pmg_node::{Act, Request, Server};
use pmg_node_model::Sent;
use pmg_value::{NodeId, Proc};
use std::collections::VecDeque;
use std::marker::Model;
use std::mem;

/// The effects of an event at a node, beside its answer.
pub struct Step {
    /// Whether the process that called, if one did, was in no call before, and had not ended.
    pub is_free: bool,
    /// The frames that the node sent.
    pub sent: VecDeque<Sent>,
}

impl Drop for Step {
    fn drop(self) {
        let Self { is_free, sent } = self;
    }
}

impl Step {
    /// Returns the frames.
    pub fn into_sent(self) -> VecDeque<Sent>
        ensures { result ≡ self.sent }
    {
        let Step { is_free: _, sent } = self;
        sent
    }
}

/// The evidence for a journal from the server that ran its node: the journal is a replay, and need not be replayed again.
#[derive(Drop)]
pub struct Evidence {
    /// The effects of each event at the node, in their order.
    pub steps: Vec<Step>,
    /// The node after all of them.
    pub node: Server,
}

/// The journal of a node and, if the server that ran the node kept it, its evidence.
#[derive(Drop)]
pub struct Record {
    journal: Journal,
    evidence: Option<Evidence>,
}

impl Model for Record {
    ghost use Rattle.std.specs.Prelude.{IfSome};
    ghost use Rattle.pmg_journal.specs.Journals.{happened_in, start_of};
    ghost use Rattle.pmg_journal.specs.Records.{IsEvidence};
    ghost use Rattle.pmg_journal.specs.contracts.journal.Journal.{the_row as journal_row};
    ghost use Rattle.pmg_journal.specs.declared.journal.Journal.{Journal};

    ghost Value = { Journal };

    ghost coded = { journal_row.coded };

    ghost view = { λ r. r.journal };

    ghost invariant = { λ r. IfSome r.evidence (IsEvidence (start_of r.journal) (happened_in r.journal)) };
}

/// Returns the process that calls, if one does.
pub fn caller_of(act: &Act) -> Option<&Proc>
    ensures { option_map (λ p. p.now) result ≡ caller_of (act_of act.now) }
{
    match act {
        Act::Commit(proc, _) => Some(proc),
        Act::Deliver(_) => None,
        Act::Request(request) => match request {
            Request::Enter(proc, _, _) => Some(proc),
            Request::Leave(proc) => Some(proc),
            Request::Ask(_, proc, _, _) => Some(proc),
            Request::Take(proc) => Some(proc),
            Request::Terminate(proc) => Some(proc),
            Request::Define(_, _) => None,
            Request::Delete(_) => None,
            Request::Nudge => None,
        },
    }
}

/// Returns whether the process that calls, if one does, is in no call at the node, and has not ended.
pub fn is_free_at(node: &Server, act: &Act) -> bool
    ensures { result ≡ free_at node.now (caller_of (act_of act.now)) }
{
    match caller_of(act) {
        Some(proc) => node.check_free(proc).is_ok(),
        None => true,
    }
}

impl Record {
    /// Makes a record of a journal from any source, without evidence.
    pub fn new(journal: Journal) -> Record
        ensures { result ≡ journal }
    {
        Record {
            journal,
            evidence: None,
        }
    }

    /// Makes a record of a journal with the evidence of the server that ran its node.
    pub fn with_evidence(journal: Journal, evidence: Evidence) -> Record
        requires { IsEvidence (start_of journal) (happened_in journal) evidence }
        ensures { result ≡ journal }
    {
        Record {
            journal,
            evidence: Some(evidence),
        }
    }

    /// Returns the node's index.
    pub fn node(&self) -> NodeId
        ensures { result ≡ self.now.node }
    {
        self.journal.node
    }

    /// Returns its group.
    pub fn registry(&self) -> &Registry
        ensures { result.now ≡ self.now.registry }
    {
        &self.journal.registry
    }

    /// Returns the journal.
    pub fn into_journal(self) -> Journal
        ensures { result ≡ self }
    {
        let Record {
            journal,
            evidence: _,
        } = self;
        journal
    }

    /// Takes the events out of the journal, and returns them with the evidence, if there is any.
    pub fn take_events(&mut self) -> (Vec<Event>, Option<Evidence>)
        ensures events { map happening_of result.0.items ≡ happened_in self.old }
        ensures evidence { IfSome result.1 (IsEvidence (start_of self.old) (happened_in self.old)) }
        ensures node { self.new.node ≡ self.old.node }
        ensures registry { self.new.registry ≡ self.old.registry }
    {
        let alloc = self.journal.registry.allocator();
        let evidence = self.evidence.take();
        let events = mem::replace(&mut self.journal.events, Vec::new(alloc));
        (events, evidence)
    }
}

//! The events at a node, one after another.
ghost use Rattle.std.specs.Prelude.{◌≡◌, ◌<◌, ◌∷◌, ◌++◌, [], map, IfOk, OnOk, vec_capacity, vec_len};
ghost use Rattle.std.specs.List.{list_any};
ghost use Rattle.pmg_node.specs.Acting.{reply_as};
ghost use Rattle.pmg_node.specs.Servers.{reply_in};
ghost use Rattle.pmg_journal.specs.Journals.{happened_in, happening_of};
ghost use Rattle.pmg_journal.specs.Calling.{is_by};

use crate::record::caller_of;
use pmg_jobinfo::Registry;
use pmg_node::{Act, Reply};
use pmg_value::{NodeId, Proc, Refusal};
use std::alloc::{AllocError, Global};

/// A request to a node, and its answer.
pub struct Event {
    /// The act that the node was asked for.
    pub act: Act,
    /// The answer of the node.
    pub answer: Result<Reply, Refusal>,
}

impl Drop for Event {
    fn drop(self) {
        let Self { act, answer } = self;
    }
}

impl Event {
    /// Returns an equal copy.
    pub fn copy(&self) -> Result<Event, AllocError>
        ensures { IfOk result (λ copy. happening_of copy ≡ happening_of self.now) }
    {
        let act = self.act.copy()?;
        let answer = copy_of_answer(&self.answer)?;
        Ok(Event { act, answer })
    }

    /// Returns the answer.
    pub fn into_answer(self) -> Result<Reply, Refusal>
        ensures { result ≡ self.answer }
    {
        let Event { act: _, answer } = self;
        answer
    }
}

/// The events at a node, from its start on.
#[derive(Drop)]
pub struct Journal {
    /// The node's index.
    pub node: NodeId,
    /// Its group.
    pub registry: Registry,
    /// The events, in their order.
    pub events: Vec<Event>,
}

/// Returns an equal copy of the answer.
pub fn copy_of_answer(answer: &Result<Reply, Refusal>) -> Result<Result<Reply, Refusal>, AllocError>
    ensures { IfOk result (λ copy. reply_in reply_as copy ≡ reply_in reply_as answer.now) }
{
    match answer {
        Ok(reply) => Ok(Ok(reply.copy()?)),
        Err(refusal) => Ok(Err(*refusal)),
    }
}

/// Returns whether the process made one of the events.
pub fn has_event_by(events: &[Event], proc: &Proc) -> bool
    ensures { result ≡ list_any (λ e. is_by proc.now e.act) (map happening_of events.now) }
{
    for event in events {
        if let Some(caller) = caller_of(&event.act) {
            if proc.cmp(caller).is_eq() {
                return true;
            }
        }
    }
    false
}

/// Returns equal copies of the events.
fn copies_of(alloc: Global, events: &[Event]) -> Result<Vec<Event>, AllocError>
    ensures { IfOk result (λ copies. map happening_of copies.items ≡ map happening_of events.now) }
{
    let mut copies = Vec::new(alloc);
    for event in events {
        copies.push(event.copy()?)?;
    }
    Ok(copies)
}

impl Journal {
    /// Returns an equal copy.
    pub fn copy(&self) -> Result<Journal, AllocError>
        ensures node { IfOk result (λ copy. copy.node ≡ self.now.node) }
        ensures registry { IfOk result (λ copy. copy.registry ≡ self.now.registry) }
        ensures events { IfOk result (λ copy. happened_in copy ≡ happened_in self.now) }
    {
        let registry = self.registry.copy()?;
        let events = copies_of(registry.allocator(), &self.events)?;
        Ok(Journal {
            node: self.node,
            registry,
            events,
        })
    }

    /// Makes a place for another event.
    pub fn reserve(&mut self) -> Result<(), AllocError>
        ensures place { OnOk result (vec_len self.new.events < vec_capacity self.new.events) }
        ensures node { self.new.node ≡ self.old.node }
        ensures registry { self.new.registry ≡ self.old.registry }
        ensures events { self.new.events.items ≡ self.old.events.items }
    {
        self.events.reserve(1)
    }

    /// Adds the event, for which there is a place.
    pub fn note(&mut self, event: Event)
        requires place { vec_len self.old.events < vec_capacity self.old.events }
        ensures node { self.new.node ≡ self.old.node }
        ensures registry { self.new.registry ≡ self.old.registry }
        ensures events { self.new.events.items ≡ self.old.events.items ++ event ∷ [] }
    {
        self.events.push_reserved(event);
    }
}

//! The events of a group, and their answers.
ghost use Rattle.std.specs.Prelude.{◌≡◌, IfOk};
ghost use Rattle.pmg_world.specs.Telling.{event_of};

use pmg_node::{Reply, Request};
use pmg_scope::Scope;
use pmg_value::{Key, Proc, Refusal, Value};
use std::alloc::AllocError;

/// An event of a group. It names nodes by their indexes.
pub enum Event {
    /// The process puts the value under the key, visible as the scope says (PMIx Standard 5.0, PMIx_Put).
    Put(Proc, Scope, Key, Value),
    /// At the node, the process commits its puts (PMIx Standard 5.0, PMIx_Commit).
    Commit(u64, Proc),
    /// At the node, the request is made.
    Request(u64, Request),
    /// The frame of that number is delivered, among all frames ever sent, from 1.
    Deliver(u64),
}

impl Drop for Event {
    #[inline(always)]
    fn drop(self) {
        match self {
            Event::Put(_, _, _, _) => {}
            Event::Commit(_, _) => {}
            Event::Request(_, _) => {}
            Event::Deliver(_) => {}
        }
    }
}

impl Event {
    /// Returns an equal copy.
    pub fn copy(&self) -> Result<Event, AllocError>
        ensures { IfOk result (λ e. event_of e ≡ event_of self.now) }
    {
        Ok(match self {
            Event::Put(proc, scope, key, value) => {
                Event::Put(proc.copy()?, *scope, key.copy()?, value.copy()?)
            }
            Event::Commit(node, proc) => Event::Commit(*node, proc.copy()?),
            Event::Request(node, request) => Event::Request(*node, request.copy()?),
            Event::Deliver(frame) => Event::Deliver(*frame),
        })
    }
}

/// An event, with its answer.
pub struct LoggedEvent {
    /// The event.
    pub event: Event,
    /// Its answer.
    pub answer: Result<Reply, Refusal>,
}

impl Drop for LoggedEvent {
    fn drop(self) {
        let Self { event, answer } = self;
    }
}

//! The events at a node, one after another, and the claims of its clients about them.
ghost use Rattle.std.specs.Prelude.{◌≡◌};
ghost use Rattle.pmg_world.specs.Telling.{event_of};
ghost use Rattle.pmg_audit.specs.Codes.{audited_put};
ghost use Rattle.pmg_audit.specs.Orders.{put_told};

use pmg_journal::Event;
use pmg_node::{Act, Reply};
use pmg_node_model::Sent;
use pmg_scope::Scope;
use pmg_value::{Key, Proc, Refusal, Value};
use pmg_world::Event as WorldEvent;
use std::collections::VecDeque;

/// A put that is done.
pub(crate) struct Put {
    /// The processes that may see it, as a scope.
    pub(crate) scope: Scope,
    /// Its key.
    pub(crate) key: Key,
    /// Its value.
    pub(crate) value: Value,
}

impl Drop for Put {
    fn drop(self) {
        let Self { scope, key, value } = self;
    }
}

impl Put {
    /// Returns the put as an event, of that process.
    pub(crate) fn into_event(self, proc: Proc) -> WorldEvent
        ensures { event_of result ≡ (put_told proc (audited_put self)).event }
    {
        let Put { scope, key, value } = self;
        WorldEvent::Put(proc, scope, key, value)
    }
}

/// An event that a client claims.
pub(crate) struct Due {
    /// The puts since the client's previous event.
    pub(crate) puts: Vec<Put>,
    /// The act.
    pub(crate) act: Act,
    /// Its answer.
    pub(crate) answer: Result<Reply, Refusal>,
}

impl Drop for Due {
    fn drop(self) {
        let Self { puts, act, answer } = self;
    }
}

impl Due {
    /// Returns the puts before it.
    pub(crate) fn into_puts(self) -> Vec<Put>
        ensures { result ≡ self.puts }
    {
        let Due {
            puts,
            act: _,
            answer: _,
        } = self;
        puts
    }
}

/// The events that a client claims, without those that a journal has matched, and its puts after them.
pub(crate) struct Saying {
    /// The client's process.
    pub(crate) proc: Proc,
    /// The events, in their order.
    pub(crate) dues: VecDeque<Due>,
    /// The puts after its last event.
    pub(crate) last_puts: Vec<Put>,
}

impl Drop for Saying {
    fn drop(self) {
        let Self {
            proc,
            dues,
            last_puts,
        } = self;
    }
}

/// An event of a journal, replayed.
pub(crate) struct Move {
    /// The puts of its client since the previous event.
    pub(crate) puts: Vec<Put>,
    /// The event, with its answer.
    pub(crate) event: Event,
    /// The frames that the node sent then.
    pub(crate) frames: VecDeque<Sent>,
}

impl Drop for Move {
    fn drop(self) {
        let Self {
            puts,
            event,
            frames,
        } = self;
    }
}

impl Move {
    /// Returns the puts, the event and the frames.
    pub(crate) fn into_parts(self) -> (Vec<Put>, Event, VecDeque<Sent>)
        ensures puts { result.0 ≡ self.puts }
        ensures event { result.1 ≡ self.event }
        ensures frames { result.2 ≡ self.frames }
    {
        let Move {
            puts,
            event,
            frames,
        } = self;
        (puts, event, frames)
    }
}

/// The events of one replayed journal, or the rest of them.
pub(crate) struct Lane {
    /// The events, in their order.
    pub(crate) moves: VecDeque<Move>,
}

impl Drop for Lane {
    fn drop(self) {
        let Self { moves } = self;
    }
}

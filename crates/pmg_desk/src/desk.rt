//! The calls on a desk by the code that runs its node.
ghost use Rattle.std.specs.Prelude.{◌≡◌, ◌⊎◌, [], IfErr, IfOk, OnErr, OnOk};
ghost use mathlib.Core.List.{IsPrefix};
ghost use Rattle.pmg_value.specs.declared.refusal.Refusal.TheVariants as refusals;
ghost use Rattle.pmg_node_model.specs.Acts.{Act as ModelAct, Reply as ModelReply, Request as ModelRequest};
ghost use Rattle.pmg_node_model.specs.Kept.{IsOwn};
ghost use Rattle.pmg_node.specs.Acting.{act_of, reply_as, request_of};
ghost use Rattle.pmg_node.specs.Replies.{delivery_reply};
ghost use Rattle.pmg_node.specs.Servers.{reply_in};
ghost use Rattle.pmg_desk.specs.Awaiting.{RepliesThere};
ghost use Rattle.pmg_desk.specs.Clients.{journal_of, proc_of};
ghost use Rattle.pmg_journal.specs.Journals.{IsEvent, IsJournal, happened};
ghost use Rattle.pmg_journal.specs.Knowing.{GoesOnBy, happened_by};
ghost use Rattle.pmg_desk.specs.Kinds.{IsChange};
ghost use Rattle.pmg_desk.specs.Telling.{IsKnown, WasFarDump, WasReplied, WasSent};

use crate::client::{Client, copies_of};
use crate::lock::{Desk, WaitFor};
use crate::replies::{defined_by, delivery_by, nudged_by};
use pmg_frame::Frame;
use pmg_history::History;
use pmg_journal::{AnswerCopies, Event, Journal, Record, Transcript};
use pmg_node::{Act, Delivery, Reply, Request};
use pmg_node_model::Sent;
use pmg_publish::Viewer;
use pmg_value::{Key, Proc, Refusal};
use std::collections::VecDeque;
use std::sync::Wait;

impl Desk {
    /// Makes the client of the process, without calls. Errors: `BadParam` for a process that the standard names or that its namespace
    /// lacks; `UnknownNamespace`; `NotMine` if it is at home at another node; `Terminated`; `Exists` if it has a client; `Closed`;
    /// `NoMemory`.
    pub fn client<R: Wait>(&self, rt: &R, proc: &Proc) -> Result<Client<'_>, Refusal>
        ensures proc { IfOk result (λ c. proc_of c ≡ proc.now) }
        ensures node { IfOk result (λ c. (c.jobs ≡ self.now.place.registry) × (c.node ≡ self.now.place.node)) }
        ensures home { IfOk result (λ _. IsOwn self.now.place.registry self.now.place.node proc.now) }
        ensures calls { IfOk result (λ c. c.transcript.calls.items ≡ []) }
        ensures journal { IfOk result (λ c. journal_of c ≡ []) }
    {
        let calls = Vec::new(self.place.registry.allocator());
        let transcript = Transcript {
            proc: proc.copy()?,
            calls,
        };
        let asked = proc.copy()?;
        let Some(mut held) = self.hold(rt, &WaitFor::Nothing) else {
            return Err(Refusal::Closed);
        };
        let given = held.give_viewer(asked);
        held.put_back(rt);
        match given {
            Ok(viewer) => Ok(Client::new(self, viewer, transcript)),
            Err(refusal) => Err(refusal),
        }
    }

    /// Performs the act at the node.
    fn act<R: Wait>(&self, rt: &R, act: Act) -> Result<Reply, Refusal>
        ensures { IsEvent result → WasReplied self.now.place.registry self.now.place.node (act_of act) (reply_in reply_as result) }
    {
        let Some(mut held) = self.hold(rt, &WaitFor::Nothing) else {
            return Err(Refusal::Closed);
        };
        let answer = held.state.perform(rt, act);
        held.end_with(rt, answer)
    }

    /// Performs the act at the node for the client of the process, once the condition that it waits for holds. The client learns the
    /// publications, and the whole journal.
    pub(crate) fn act_for<R: Wait>(
        &self,
        rt: &R,
        awaited: &WaitFor<'_>,
        proc: &Proc,
        act: Act,
        viewer: &mut Viewer,
        known: &mut History<Event>,
    ) -> Result<AnswerCopies, Refusal>
        requires viewer { viewer.old.book ≡ self.now.place.told.book }
        requires known { known.old.book ≡ self.now.place.list.book }
        ensures told { IfOk result (λ t. GoesOnBy proc.now (happened_by known.old) (happened_by known.new) (happened act t.told)) }
        ensures knows { OnOk result (IsKnown self.now.place.registry self.now.place.node (happened_by known.new) viewer.new.log) }
        ensures there { IfOk result (λ t. RepliesThere awaited.now (act_of act) (reply_in reply_as t.told)) }
        ensures copy { IfOk result (λ t. reply_in reply_as t.kept ≡ reply_in reply_as t.told) }
        ensures kind { IfOk result (λ t. IsEvent t.told) }
        ensures err { IfErr result (λ e. (e ≡ refusals.NoMemory) ⊎ (e ≡ refusals.Closed)) }
        ensures none { OnErr result ((viewer.new ≡ viewer.old) × (known.new ≡ known.old)) }
        ensures seen { IsPrefix viewer.old.log viewer.new.log }
        ensures book { viewer.new.book ≡ viewer.old.book }
        ensures more { IsPrefix (happened_by known.old) (happened_by known.new) }
        ensures list { known.new.book ≡ known.old.book }
    {
        let Some(mut held) = self.hold(rt, awaited) else {
            return Err(Refusal::Closed);
        };
        let answer = held.state.act_for(rt, proc, act, viewer, known);
        held.end_with(rt, answer)
    }

    /// Delivers a frame of another node. Errors: `Closed`, `NoMemory`.
    pub fn deliver<R: Wait>(&self, rt: &R, frame: Frame) -> Result<Delivery, Refusal>
        ensures { IsEvent result → WasReplied self.now.place.registry self.now.place.node (ModelAct.deliver frame) (reply_in delivery_reply result) }
    {
        delivery_by(self.act(rt, Act::Deliver(frame)))
    }

    /// Delivers frames of other nodes that arrive together, one after another under one lock, and wakes the waiting callers once. Errors:
    /// `Closed`; `NoMemory`. Then the first frames were delivered, and the others were not.
    pub fn deliver_all<R: Wait>(&self, rt: &R, frames: Vec<Frame>) -> Result<(), Refusal>
        ensures { IfErr result (λ e. (e ≡ refusals.NoMemory) ⊎ (e ≡ refusals.Closed)) }
    {
        let Some(mut held) = self.hold(rt, &WaitFor::Nothing) else {
            return Err(Refusal::Closed);
        };
        let delivered = held.state.deliver_all(rt, frames);
        held.end_with(rt, delivered)
    }

    /// Asks other nodes again for missing data. Errors: `Closed`, `NoMemory`.
    pub fn nudge<R: Wait>(&self, rt: &R) -> Result<(), Refusal>
        ensures { IsEvent result → WasReplied self.now.place.registry self.now.place.node (ModelAct.request ModelRequest.nudge) (reply_in (λ _. ModelReply.done) result) }
    {
        nudged_by(self.act(rt, Act::Request(Request::Nudge)))
    }

    /// Changes the process sets, which is done at node 0, and returns the number of the change, from 1.
    fn change_sets<R: Wait>(&self, rt: &R, request: Request) -> Result<u64, Refusal>
        requires { IsChange (request_of request) }
        ensures { IsEvent result → WasReplied self.now.place.registry self.now.place.node (ModelAct.request (request_of request)) (reply_in ModelReply.defined result) }
    {
        defined_by(self.act(rt, Act::Request(request)))
    }

    /// Defines a process set of that name and of these members, at node 0, and returns the number of the change, from 1 (PMIx
    /// Standard 5.0, process sets). Errors: `BadParam`, `UnknownNamespace`, `NotMine`, `Exists`, `TooMany`, `Closed`, `NoMemory`.
    pub fn define_set<R: Wait>(&self, rt: &R, name: &Key, list: &[Proc]) -> Result<u64, Refusal>
        ensures { IsEvent result → WasReplied self.now.place.registry self.now.place.node (ModelAct.request (ModelRequest.define name.now list.now)) (reply_in ModelReply.defined result) }
    {
        let alloc = self.place.registry.allocator();
        self.change_sets(rt, Request::Define(name.copy()?, copies_of(alloc, list)?))
    }

    /// Deletes the process set of that name, at node 0, and returns the number of the change, from 1. Errors: `BadParam`, `NotMine`,
    /// `NotFound`, `TooMany`, `Closed`, `NoMemory`.
    pub fn delete_set<R: Wait>(&self, rt: &R, name: &Key) -> Result<u64, Refusal>
        ensures { IsEvent result → WasReplied self.now.place.registry self.now.place.node (ModelAct.request (ModelRequest.delete name.now)) (reply_in ModelReply.defined result) }
    {
        self.change_sets(rt, Request::Delete(name.copy()?))
    }

    /// Takes the frames that the node sent and that were not taken yet, once there are any. Errors: `Closed`; `TooMany` past 2^64 - 1
    /// frames.
    pub fn take_frames<R: Wait>(&self, rt: &R) -> Result<VecDeque<Sent>, Refusal>
        ensures { IfOk result (λ frames. WasSent self.now.place.registry self.now.place.node frames.items) }
    {
        let Some(mut held) = self.hold(rt, &WaitFor::Frames) else {
            return Err(Refusal::Closed);
        };
        let frames = held.state.take_frames();
        held.put_back(rt);
        frames
    }

    /// Returns the far dump of the node: the knowledge of all processes that other nodes may have, as text. Errors: `Closed`, `NoMemory`.
    pub fn far_dump<R: Wait>(&self, rt: &R) -> Result<Vec<u8>, Refusal>
        ensures { IfOk result (λ text. WasFarDump self.now.place.registry self.now.place.node text.items) }
    {
        let Some(held) = self.hold(rt, &WaitFor::Nothing) else {
            return Err(Refusal::Closed);
        };
        let dump = held.state.far_dump();
        held.put_back(rt);
        match dump? {
            Some(text) => Ok(text),
            None => Err(Refusal::Closed),
        }
    }

    /// Returns whether the desk is closed: its node was given up, and every call that needs it is refused as Closed.
    pub fn is_closed<R: Wait>(&self, rt: &R) -> bool {
        let Some(held) = self.hold(rt, &WaitFor::Nothing) else {
            return true;
        };
        let closed = held.state.is_closed();
        held.put_back(rt);
        closed
    }

    /// Closes the desk.
    pub fn close<R: Wait>(&self, rt: &R) {
        if let Some(held) = self.hold(rt, &WaitFor::Nothing) {
            held.close(rt);
        }
    }

    /// Ends the desk, and returns its journal, with its evidence, for an audit.
    pub fn into_record<R: Wait>(self, rt: &R) -> Record
        ensures node { result.node ≡ self.place.node }
        ensures registry { result.registry ≡ self.place.registry }
        ensures replay { IsJournal result }
    {
        let (place, state) = self.into_state();
        match state {
            Some(state) => state.into_record(rt),
            None => {
                let events = Vec::new(place.registry.allocator());
                Record::new(Journal {
                    node: place.node,
                    registry: place.registry,
                    events,
                })
            }
        }
    }

    /// Ends the desk, and returns its journal.
    pub fn into_journal<R: Wait>(self, rt: &R) -> Journal
        ensures node { result.node ≡ self.place.node }
        ensures registry { result.registry ≡ self.place.registry }
        ensures replay { IsJournal result }
    {
        self.into_record(rt).into_journal()
    }
}

//! The state under the lock of a desk.
ghost use Rattle.std.specs.Prelude.{◌≡◌, ◌⊎◌, ◌+◌, ◌==◌, ◌∷◌, ◌++◌, [], not, true, false, is_none, length, map, drop, IfOk, IfErr, IfSome, IsOkUnless, IsSome, OnErr, OnOk, Some, None, Ok, Err};
ghost use Rattle.std.specs.Option.{option_map};
ghost use mathlib.Core.List.{IsPrefix};
ghost use Rattle.pmg_value.specs.declared.refusal.Refusal.TheVariants as refusals;
ghost use Rattle.pmg_jobinfo.specs.Jobs.{is_node};
ghost use Rattle.pmg_store.specs.Dump.{dump};
ghost use Rattle.pmg_value.specs.CheckOrder.{first_of};
ghost use Rattle.pmg_node_model.specs.Acts.{caller_cause, status_of};
ghost use Rattle.pmg_node_model.specs.Kept.{IsOwn};
ghost use Rattle.pmg_node.specs.Acting.{act_of, reply_as};
ghost use Rattle.pmg_node.specs.Opening.{new_server};
ghost use Rattle.pmg_node.specs.Replies.{status_in};
ghost use Rattle.pmg_node.specs.Servers.{reply_in, reply_to};
ghost use Rattle.pmg_journal.specs.Journals.{IsEvent, IsJournal, happened, start_of, happened_in, happening_of};
ghost use Rattle.pmg_journal.specs.Knowing.{AreOfOthers, GoesOnBy, happened_by};
ghost use Rattle.pmg_desk.specs.Publishing.{published_over};
ghost use Rattle.pmg_desk.specs.States.{HaveCome, IsAt, IsStateKept, NothingHappened, SomeHaveCome, Steps};
ghost use Rattle.pmg_desk.specs.Telling.{IsKnown, WasFarDump, WasReplied, WasSent};

use crate::happening::happen_in;
use pmg_frame::Frame;
use pmg_history::{Appender, History};
use pmg_jobinfo::Registry;
use pmg_journal::{AnswerCopies, Event, Evidence, Journal, Record, Step, has_event_by};
use pmg_node::{Act, Reply, Server, Status};
use pmg_node_model::Sent;
use pmg_publish::{Publisher, Told, Viewer, publisher};
use pmg_store::Store;
use pmg_value::{NodeId, Proc, Refusal, WatchedWriter};
use std::alloc::{AllocError, Global};
use std::collections::VecDeque;
use std::marker::Model;
use std::mem;
use std::sync::Wait;

/// The parts of a state.
pub struct Parts {
    /// The node, or `None` if the desk is closed.
    pub node: Option<Server>,
    /// The events at the node.
    pub journal: Journal,
    /// The journal as a list; each client knows a prefix of it.
    pub list: Appender<Event>,
    /// The step of the node at each event of the journal.
    pub steps: Vec<Step>,
    /// The frames that are not taken yet.
    pub outbox: VecDeque<Sent>,
    /// The number of taken frames.
    pub taken: u64,
    /// The publisher of the pieces that the node joins.
    pub publisher: Publisher,
    /// The viewers that no client has yet.
    pub viewers: Vec<Viewer>,
    /// The node at the time when the desk was closed.
    pub last: Option<Server>,
}

/// A node with its journal and the publisher of its board, in a box, since each call takes it out of its room and puts it back. It
/// is not dropped: end it by `into_record`.
pub struct State {
    parts: Box<Parts>,
}

impl Model for State {
    ghost use Rattle.pmg_desk.specs.States.{IsStateKept};
    ghost use Rattle.pmg_desk.specs.declared.state.Parts.{Parts};
    ghost use Rattle.pmg_desk.specs.contracts.state.Parts.{the_row as parts_row};

    ghost Value = { Parts };

    ghost coded = { parts_row.coded };

    ghost view = { λ s. s.parts.value };

    ghost invariant = { λ s. IsStateKept s.parts.value };
}

/// Takes all frames out of the outbox, which is empty then.
fn take_all_frames(outbox: &mut VecDeque<Sent>, alloc: Global) -> VecDeque<Sent>
    ensures frames { result.items ≡ outbox.old.items }
    ensures rest { outbox.new.items ≡ [] }
{
    mem::replace(outbox, VecDeque::new(alloc))
}

/// Returns the dump of a store.
fn dump_of(alloc: Global, store: &Store) -> Result<Vec<u8>, AllocError>
    ensures { IfOk result (λ text. text.items ≡ dump store.now) }
{
    let mut writer = WatchedWriter::new(Vec::new(alloc));
    match store.dump(&mut writer) {
        Ok(()) => Ok(writer.into_inner()),
        Err(_) => Err(AllocError),
    }
}

/// Ends the parts, and returns the journal. It has evidence if there is a node, or was one when the desk was closed.
fn record_of<R: Wait>(parts: Parts, rt: &R) -> Record
    requires { IsStateKept parts }
    ensures { result ≡ parts.journal }
{
    let Parts {
        node,
        journal,
        list: _,
        steps,
        outbox: _,
        taken: _,
        publisher,
        viewers: _,
        last,
    } = parts;
    publisher.close(rt);
    match node.or(last) {
        Some(node) => Record::with_evidence(journal, Evidence { steps, node }),
        None => Record::new(journal),
    }
}

impl State {
    /// Opens a new node of the group, of that index, without calls so far. A node has at most 65,536 processes at home, as many as a
    /// publisher may have viewers. Errors: `NoMemory`.
    pub fn new<R: Wait>(rt: &R, id: NodeId, registry: Registry) -> Result<State, Refusal>
        requires { is_node registry id ≡ true }
        ensures node { IfOk result (λ s. s.node ≡ Some (new_server registry id)) }
        ensures events { IfOk result (λ s. s.journal.events.items ≡ []) }
        ensures index { IfOk result (λ s. s.journal.node ≡ id) }
        ensures registry { IfOk result (λ s. s.journal.registry ≡ registry) }
        ensures memory { IsOkUnless result refusals.NoMemory }
    {
        let alloc = registry.allocator();
        let node = Server::new(id, registry.copy()?)?;
        let count = registry.procs_at(id)?.len();
        let (publisher, viewers) = publisher(rt, alloc, count)?;
        let journal = Journal {
            node: id,
            registry,
            events: Vec::new(alloc),
        };
        let parts = Parts {
            node: Some(node),
            journal,
            list: Appender::open(),
            steps: Vec::new(alloc),
            outbox: VecDeque::new(alloc),
            taken: 0,
            publisher,
            viewers,
            last: None,
        };
        match Box::new(alloc, parts) {
            Ok(parts) => Ok(State { parts }),
            Err(failed) => {
                record_of(failed.value, rt);
                Err(Refusal::NoMemory)
            }
        }
    }

    /// Performs the act, writes it into the journal with its answer, and publishes the joined pieces. Each client's knowledge of the
    /// journal is a prefix of it. Errors: `Closed` if the node was given up; `NoMemory`. A failed allocation before the act changes
    /// nothing. After one that fails later, the node is given up, and journal and published store stay.
    fn happen<R: Wait>(
        &mut self,
        rt: &R,
        act: Act,
        known: &History<Event>,
    ) -> Result<AnswerCopies, Refusal>
        requires { known.now.book ≡ self.old.list.book }
        ensures known { OnOk result (IsPrefix known.now.log self.old.journal.events.items) }
        ensures list { OnOk result (self.new.list.log ≡ self.new.journal.events.items) }
        ensures published { OnOk result (IsPrefix self.old.publisher.log self.new.publisher.log) }
        ensures replay { IsJournal self.new.journal }
        ensures event { IfOk result (λ t. happened_in self.new.journal ≡ happened_in self.old.journal ++ happened act t.told ∷ []) }
        ensures step { IfOk result (λ t. IfSome self.old.node (λ s. Steps s act t.told self.new.node)) }
        ensures kind { IfOk result (λ t. IsEvent t.told) }
        ensures copy { IfOk result (λ t. reply_in reply_as t.kept ≡ reply_in reply_as t.told) }
        ensures err { IfErr result (λ e. (e ≡ refusals.NoMemory) ⊎ (e ≡ refusals.Closed)) }
        ensures none { OnErr result (happened_in self.new.journal ≡ happened_in self.old.journal) }
        ensures memory { result ≡ Err refusals.NoMemory → (self.new.node ≡ None) ⊎ NothingHappened self.old self.new }
        ensures open { IsSome self.old.node → (result ≡ Err refusals.NoMemory → ⊥) → IsSome self.new.node }
        ensures shut { self.old.node ≡ None → result ≡ Err refusals.Closed }
        ensures closed { result ≡ Err refusals.Closed → (self.old.node ≡ None) × NothingHappened self.old self.new }
        ensures place { IsAt self.old self.new }
    {
        let Parts {
            node,
            journal,
            list,
            steps,
            outbox,
            taken: _,
            publisher,
            viewers: _,
            last: _,
        } = &mut *self.parts;
        happen_in(
            node, journal, list, steps, outbox, publisher, rt, act, known,
        )
    }

    /// Performs the act as `happen` does, for a caller without a transcript: it returns only the answer.
    pub(crate) fn perform<R: Wait>(&mut self, rt: &R, act: Act) -> Result<Reply, Refusal>
        ensures replied { IsEvent result → WasReplied self.old.journal.registry self.old.journal.node (act_of act) (reply_in reply_as result) }
        ensures event { IsEvent result → happened_in self.new.journal ≡ happened_in self.old.journal ++ happened act result ∷ [] }
        ensures step { IsEvent result → IfSome self.old.node (λ s. Steps s act result self.new.node) }
        ensures none { result ≡ Err refusals.NoMemory → happened_in self.new.journal ≡ happened_in self.old.journal }
        ensures kept { result ≡ Err refusals.Closed → happened_in self.new.journal ≡ happened_in self.old.journal }
        ensures memory { result ≡ Err refusals.NoMemory → (self.new.node ≡ None) ⊎ NothingHappened self.old self.new }
        ensures open { IsSome self.old.node → (result ≡ Err refusals.NoMemory → ⊥) → IsSome self.new.node }
        ensures shut { self.old.node ≡ None → result ≡ Err refusals.Closed }
        ensures closed { result ≡ Err refusals.Closed → (self.old.node ≡ None) × NothingHappened self.old self.new }
        ensures place { IsAt self.old self.new }
    {
        let all = self.parts.list.tell();
        match self.happen(rt, act, &all) {
            Ok(twice) => twice.told,
            Err(refusal) => Err(refusal),
        }
    }

    /// Delivers the frames, one after another. If one fails as in `act`, the frames before it are delivered, and the frames after it are
    /// not.
    pub fn deliver_all<R: Wait>(&mut self, rt: &R, frames: Vec<Frame>) -> Result<(), Refusal>
        ensures ok { OnOk result (HaveCome frames.items (happened_in self.old.journal) (happened_in self.new.journal)) }
        ensures some { OnErr result (SomeHaveCome frames.items (happened_in self.old.journal) (happened_in self.new.journal)) }
        ensures open { IsSome self.old.node → (result ≡ Err refusals.NoMemory → ⊥) → IsSome self.new.node }
        ensures err { IfErr result (λ e. (e ≡ refusals.NoMemory) ⊎ (e ≡ refusals.Closed)) }
        ensures place { IsAt self.old self.new }
    {
        for frame in frames {
            let all = self.parts.list.tell();
            let _ = self.happen(rt, Act::Deliver(frame), &all)?;
        }
        Ok(())
    }

    /// Performs the act, writes a copy of it into the journal with its answer, and publishes the joined pieces. Errors: the refusals of
    /// the node's call (`BadParam`, `NotFound`, `OutsideScope`, `UnknownNamespace`, `NotMine`, `Busy`, `Terminated`, `NotAParticipant`,
    /// `TooMany`, `Exists`); `Closed` if the node was given up; `NoMemory`. A failed allocation before the act changes nothing. After one
    /// that fails later, the node is given up, and journal and published store stay.
    pub fn act<R: Wait>(&mut self, rt: &R, act: &Act) -> Result<Reply, Refusal>
        ensures event { IsEvent result → happened_in self.new.journal ≡ happened_in self.old.journal ++ happened act.now result ∷ [] }
        ensures step { IsEvent result → IfSome self.old.node (λ s. Steps s act.now result self.new.node) }
        ensures none { result ≡ Err refusals.NoMemory → happened_in self.new.journal ≡ happened_in self.old.journal }
        ensures kept { result ≡ Err refusals.Closed → happened_in self.new.journal ≡ happened_in self.old.journal }
        ensures memory { result ≡ Err refusals.NoMemory → (self.new.node ≡ None) ⊎ NothingHappened self.old self.new }
        ensures shut { self.old.node ≡ None → result ≡ Err refusals.Closed }
        ensures closed { result ≡ Err refusals.Closed → (self.old.node ≡ None) × NothingHappened self.old self.new }
        ensures place { IsAt self.old self.new }
    {
        if self.is_closed() {
            return Err(Refusal::Closed);
        }
        let copy = act.copy()?;
        self.perform(rt, copy)
    }

    /// Returns whether the process made an event of the journal after the known ones.
    fn made_more(&self, proc: &Proc, known: &History<Event>) -> bool
        ensures { result ≡ false → AreOfOthers proc.now (map happening_of (drop (length known.now.log) self.now.journal.events.items)) }
    {
        match self.parts.journal.events.get(known.count() as usize..) {
            Some(rest) => has_event_by(rest, proc),
            None => true,
        }
    }

    /// Returns whether the process did something that its client does not know, or the client's viewer saw something that is not published
    /// here. No run has such a state: a process has one client, and the publisher shows only its publications.
    fn is_apart(&self, proc: &Proc, viewer: &Viewer, known: &History<Event>) -> bool
        requires { viewer.now.book ≡ self.now.publisher.book }
        ensures others { result ≡ false → AreOfOthers proc.now (map happening_of (drop (length known.now.log) self.now.journal.events.items)) }
        ensures published { result ≡ false → IsPrefix viewer.now.log self.now.publisher.log }
    {
        if self.parts.publisher.has_published(viewer) {
            return self.made_more(proc, known);
        }
        true
    }

    /// Performs the act for the client of the process, as `act` does, and gives the client the publications and the whole journal. The
    /// journal begins with the events that the client knew, continues with the acts of others, and ends with this act. The viewer's
    /// earlier sight was published before, and then the viewer learns all publications. The node's refusal of the act is part of the
    /// answer. Errors: `Closed` if the node was given up, if the process did more than the client knows, or if the viewer saw more than
    /// was published; `NoMemory`, as in `act`.
    pub fn act_for<R: Wait>(
        &mut self,
        rt: &R,
        proc: &Proc,
        act: Act,
        viewer: &mut Viewer,
        known: &mut History<Event>,
    ) -> Result<AnswerCopies, Refusal>
        requires viewer { viewer.old.book ≡ self.old.publisher.book }
        requires known { known.old.book ≡ self.old.list.book }
        ensures told { IfOk result (λ t. GoesOnBy proc.now (happened_by known.old) (happened_by known.new) (happened act t.told)) }
        ensures knows { OnOk result (IsKnown self.old.journal.registry self.old.journal.node (happened_by known.new) viewer.new.log) }
        ensures published { OnOk result (IsPrefix viewer.old.log self.old.publisher.log) }
        ensures all_published { OnOk result (viewer.new.log ≡ self.new.publisher.log) }
        ensures step { IfOk result (λ t. IfSome self.old.node (λ s. reply_to s (act_of act) ≡ reply_in reply_as t.told)) }
        ensures open { IsSome self.old.node → (result ≡ Err refusals.NoMemory → ⊥) → IsSome self.new.node }
        ensures shut { self.old.node ≡ None → result ≡ Err refusals.Closed }
        ensures copy { IfOk result (λ t. reply_in reply_as t.kept ≡ reply_in reply_as t.told) }
        ensures kind { IfOk result (λ t. IsEvent t.told) }
        ensures err { IfErr result (λ e. (e ≡ refusals.NoMemory) ⊎ (e ≡ refusals.Closed)) }
        ensures none { OnErr result ((viewer.new ≡ viewer.old) × (known.new ≡ known.old)) }
        ensures seen { IsPrefix viewer.old.log viewer.new.log }
        ensures book { viewer.new.book ≡ viewer.old.book }
        ensures more { IsPrefix (happened_by known.old) (happened_by known.new) }
        ensures list { known.new.book ≡ known.old.book }
        ensures place { IsAt self.old self.new }
    {
        if self.is_apart(proc, viewer, known) {
            return Err(Refusal::Closed);
        }
        let twice = self.happen(rt, act, known)?;
        viewer.learn(&self.tell());
        *known = self.parts.list.tell();
        Ok(twice)
    }

    /// Returns the publications so far.
    pub fn tell(&self) -> Told
        ensures told { result ≡ record { book = self.now.publisher.book; log = self.now.publisher.log } }
        ensures journal { IsJournal self.now.journal }
        ensures published { result.log ≡ published_over (start_of self.now.journal) (happened_in self.now.journal) }
    {
        self.parts.publisher.tell()
    }

    /// Returns the journal as a list, with all its events.
    pub fn tell_list(&self) -> History<Event>
        ensures { result ≡ self.now.list }
    {
        self.parts.list.tell()
    }

    /// Returns whether the node was given up.
    pub fn is_closed(&self) -> bool
        ensures { result ≡ is_none self.now.node }
    {
        self.parts.node.is_none()
    }

    /// Judges the caller: a process of the group, at home at the node, that has not ended. Returns `None` if the node was given up. It is
    /// no event.
    pub fn check_caller(&self, proc: &Proc) -> Option<Result<(), Refusal>>
        ensures judged { result ≡ option_map (λ s. first_of (caller_cause s.jobs s.id s.holding proc.now) tt) self.now.node }
        ensures home { result ≡ Some (Ok tt) → IsOwn self.now.journal.registry self.now.journal.node proc.now }
    {
        match &self.parts.node {
            Some(node) => Some(node.check_caller(proc)),
            None => None,
        }
    }

    /// Returns the status of the process, or `None` if the node was given up. It is no event.
    pub fn status(&self, proc: &Proc) -> Option<Status>
        ensures { option_map status_in result ≡ option_map (λ s. status_of s.jobs s.id s.holding proc.now) self.now.node }
    {
        match &self.parts.node {
            Some(node) => Some(node.status(proc)),
            None => None,
        }
    }

    /// Returns the knowledge of all processes that other nodes may have, as text, or `None` if the node was given up.
    pub fn far_dump(&self) -> Result<Option<Vec<u8>>, AllocError>
        ensures text { IfOk result (λ text. option_map (λ t. t.items) text ≡ option_map (λ s. dump s.holding.far) self.now.node) }
        ensures told { IfOk result (λ text. IfSome text (λ t. WasFarDump self.now.journal.registry self.now.journal.node t.items)) }
    {
        match &self.parts.node {
            Some(node) => Ok(Some(dump_of(
                self.parts.journal.registry.allocator(),
                node.board().far(),
            )?)),
            None => Ok(None),
        }
    }

    /// Returns whether there are frames to be taken.
    pub fn has_frames(&self) -> bool
        ensures { result ≡ not (length self.now.outbox.items == 0) }
    {
        !self.parts.outbox.is_empty()
    }

    /// Takes the frames that were sent and not taken. Errors: `Closed` if the node was given up; `TooMany` if more than 2^64 - 1 frames
    /// would be taken in all, and then no frame is taken.
    pub fn take_frames(&mut self) -> Result<VecDeque<Sent>, Refusal>
        ensures frames { IfOk result (λ frames. frames.items ≡ self.old.outbox.items) }
        ensures sent { IfOk result (λ frames. WasSent self.old.journal.registry self.old.journal.node frames.items) }
        ensures rest { OnOk result (self.new.outbox.items ≡ []) }
        ensures taken { IfOk result (λ frames. self.new.taken ≡ self.old.taken + length frames.items) }
        ensures err { OnErr result (self.new ≡ self.old) }
        ensures shut { self.old.node ≡ None → result ≡ Err refusals.Closed }
        ensures node { self.new.node ≡ self.old.node }
        ensures journal { self.new.journal ≡ self.old.journal }
        ensures list { self.new.list ≡ self.old.list }
        ensures publisher { self.new.publisher ≡ self.old.publisher }
    {
        let parts = &mut *self.parts;
        if parts.node.is_none() {
            return Err(Refusal::Closed);
        }
        let Some(taken) = parts.taken.checked_add(parts.outbox.len() as u64) else {
            return Err(Refusal::TooMany);
        };
        parts.taken = taken;
        Ok(take_all_frames(&mut parts.outbox, parts.journal.registry.allocator()))
    }

    /// Gives up the node, which is kept for the record in its last state. Journal and published store stay.
    pub fn close(&mut self)
        ensures node { self.new.node ≡ None }
        ensures last { IsSome self.old.node → self.new.last ≡ self.old.node }
        ensures journal { self.new.journal ≡ self.old.journal }
        ensures list { self.new.list ≡ self.old.list }
        ensures steps { self.new.steps ≡ self.old.steps }
        ensures outbox { self.new.outbox ≡ self.old.outbox }
        ensures taken { self.new.taken ≡ self.old.taken }
        ensures publisher { self.new.publisher ≡ self.old.publisher }
        ensures viewers { self.new.viewers ≡ self.old.viewers }
        ensures kept { self.old.node ≡ None → self.new ≡ self.old }
    {
        let parts = &mut *self.parts;
        if parts.node.is_none() {
            return;
        }
        parts.last = parts.node.take();
    }

    /// Takes a viewer for one of the processes at home at the node, if one is left: there are as many as these processes.
    pub fn take_viewer(&mut self) -> Option<Viewer>
        ensures book { IfSome result (λ v. v.book ≡ self.old.publisher.book) }
        ensures node { self.new.node ≡ self.old.node }
        ensures place { IsAt self.old self.new }
    {
        self.parts.viewers.pop()
    }

    /// Ends the state, and returns its journal, with its evidence.
    pub fn into_record<R: Wait>(self, rt: &R) -> Record
        ensures journal { result ≡ self.journal }
        ensures replay { IsJournal result }
    {
        let State { parts } = self;
        record_of(Box::into_inner(parts), rt)
    }
}

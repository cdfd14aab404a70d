//! A client: one process of a node, used by one thread to call its server.
ghost use Rattle.std.specs.Prelude.{◌≡◌, ◌≢◌, ◌≤◌, ◌∷◌, ◌++◌, ℕ, [], false, true, Err, IfErr, IfOk, IfSome};
ghost use Rattle.pmg_value.specs.CheckOrder.{first_of};
ghost use Rattle.pmg_value.specs.Spelling.{spelling};
ghost use Rattle.pmg_commit.specs.Data.{level_at};
ghost use Rattle.pmg_jobinfo.specs.Jobs.{is_node};
ghost use Rattle.pmg_publish.specs.Publications.{far_of};
ghost use Rattle.pmg_node_parts.specs.Calls.{get_of};
ghost use Rattle.pmg_node_model.specs.Acts.{Act as ModelAct, Reply as ModelReply, Request as ModelRequest};
ghost use Rattle.pmg_node.specs.Acting.{act_of, reply_as, request_of};
ghost use Rattle.pmg_node.specs.Replies.{asked_reply, release_reply, status_in, taking_reply};
ghost use Rattle.pmg_node.specs.Servers.{reply_in};
ghost use Rattle.pmg_desk.specs.Awaiting.{RepliesPast, RepliesThere};
ghost use Rattle.pmg_desk.specs.Clients.{IsLater, IsInFence, ReleasedFrom, ReleasedFromOwn, ClientNotes, NotesFence, Tells, TellsFence, batch_of, listed_fence, is_waiting, journal_of, proc_of, puts_of};
ghost use Rattle.pmg_journal.specs.Journals.{IsEvent};
ghost use Rattle.pmg_journal.specs.Transcripts.{Answers, Calling, NotesCall, calling_of, is_put, noted, noted_in, put_cause_of};

use crate::lock::{Desk, WaitFor};
use crate::replies::{asked_by, committed_by, ended_by, entered_by, release_by, taking_by};
use pmg_get::Mode;
use pmg_history::History;
use pmg_journal::{Call, ClientLog, Event, Transcript};
use pmg_node::{Act, Asked, Release, Reply, Request, Status, Taking};
use pmg_publish::Viewer;
use pmg_scope::Scope;
use pmg_value::{Key, Proc, Refusal, Value};
use std::alloc::{AllocError, Global};
use std::marker::Model;
use std::sync::Wait;

/// One process at home at a desk's node, used by its thread to call the server.
pub struct Client<'d> {
    pub(crate) desk: &'d Desk,
    pub(crate) viewer: Viewer,
    pub(crate) known: History<Event>,
    pub(crate) notes: ClientLog,
}

impl Drop for Client<'_> {
    fn drop(self) {
        let Self {
            desk,
            viewer,
            known,
            notes,
        } = self;
    }
}

impl<'d> Model for Client<'d> {
    ghost use Rattle.std.specs.Prelude.{◌≡◌, true};
    ghost use Rattle.pmg_jobinfo.specs.Jobs.{is_node};
    ghost use Rattle.pmg_desk.specs.Clients.{Client as ModelClient, coded_client};
    ghost use Rattle.pmg_journal.specs.contracts.transcript.Transcript.{the_row as transcript_row};
    ghost use Rattle.pmg_journal.specs.contracts.journal.Event.{the_row as event_row};
    ghost use Rattle.pmg_history.specs.contracts.history.History.{the_row as known_row};
    ghost use Rattle.pmg_publish.specs.contracts.viewer.Viewer.{the_row as viewer_row};

    ghost Value = { ModelClient };

    ghost coded = { coded_client viewer_row.coded (known_row event_row).coded transcript_row.coded };

    ghost view = { λ c. record {
      jobs = c.desk.now.place.registry;
      node = c.desk.now.place.node;
      viewer = c.viewer;
      known = c.known;
      transcript = c.notes;
    } };

    ghost invariant = { λ c. (c.viewer.book ≡ c.desk.now.place.told.book)
        × (c.known.book ≡ c.desk.now.place.list.book)
        × (is_node c.desk.now.place.registry c.desk.now.place.node ≡ true) };
}

/// A client that did not end.
#[derive(Drop)]
pub struct Unended<'d> {
    /// The reason.
    pub refusal: Refusal,
    /// The client.
    pub client: Client<'d>,
}

/// Returns copies of the processes.
pub(crate) fn copies_of(alloc: Global, procs: &[Proc]) -> Result<Vec<Proc>, AllocError>
    ensures { IfOk result (λ copies. copies.items ≡ procs.now) }
{
    let mut copies = Vec::with_capacity(alloc, procs.len())?;
    for proc in procs {
        copies.push(proc.copy()?)?;
    }
    Ok(copies)
}

/// Returns the condition that the process waits for, if it waits until its status changes.
fn awaited_by(proc: &Proc, past: Option<Status>) -> WaitFor<'_>
    ensures { (act : ModelAct) (reply : ModelReply) → RepliesThere result act reply → IfSome past (λ status. RepliesPast proc.now (status_in status) act reply) }
{
    match past {
        Some(status) => WaitFor::Past(proc, status),
        None => WaitFor::Nothing,
    }
}

impl<'d> Client<'d> {
    /// Makes a client that has made no call.
    pub(crate) fn new(desk: &'d Desk, viewer: Viewer, transcript: Transcript) -> Client<'d>
        requires book { viewer.book ≡ desk.now.place.told.book }
        requires list { desk.now.place.list.log ≡ [] }
        requires node { is_node desk.now.place.registry desk.now.place.node ≡ true }
        requires start { transcript.calls.items ≡ [] }
        ensures node { (result.jobs ≡ desk.now.place.registry) × (result.node ≡ desk.now.place.node) }
        ensures transcript { result.transcript ≡ transcript }
        ensures journal { journal_of result ≡ [] }
    {
        Client {
            desk,
            viewer,
            known: desk.place.list.again(),
            notes: ClientLog::new(desk.place.registry.allocator(), transcript),
        }
    }

    /// Returns its process.
    pub fn proc(&self) -> &Proc
        ensures { result.now ≡ proc_of self.now }
    {
        &self.notes.transcript().proc
    }

    /// Returns its calls so far.
    pub fn transcript(&self) -> &Transcript
        ensures { result.now ≡ self.now.transcript }
    {
        self.notes.transcript()
    }

    /// Returns whether a call of it waits: it entered a fence and did not leave it, or its get was not answered yet.
    pub fn in_call(&self) -> bool
        ensures { result ≡ is_waiting self.now }
    {
        self.notes.in_call()
    }

    /// Puts the value under the key, visible as the scope says (PMIx Standard 5.0, PMIx_Put). Errors: `BadParam` if the key begins with
    /// `pmix` or the scope is PMIX_SCOPE_UNDEF; `Busy` if a call of it waits; `TooMany` past the limits of the puts; `NoMemory`.
    pub fn put(&mut self, scope: Scope, key: Key, value: Value) -> Result<(), Refusal>
        ensures answer { Answers result (first_of (put_cause_of (is_waiting self.old) (puts_of self.old) scope key (spelling value)) tt) }
        ensures noted { ClientNotes self.old self.new (Calling.put scope key (spelling value)) (λ _. ModelReply.done) result }
        ensures viewer { self.new.viewer ≡ self.old.viewer }
        ensures later { IsLater self.old self.new }
    {
        self.notes.put(scope, key, value)
    }

    /// Performs the act at the node, as this call, once the process's status has changed from the given one.
    fn call<R: Wait>(
        &mut self,
        rt: &R,
        past: Option<Status>,
        call: Call,
        act: Act,
    ) -> Result<Reply, Refusal>
        requires { is_put (calling_of call) ≡ false }
        ensures told { IsEvent result → Tells self.old self.new (act_of act) (reply_in reply_as result) }
        ensures past { IfOk result (λ r. IfSome past (λ status. RepliesPast (proc_of self.old) (status_in status) (act_of act) (reply_as r))) }
        ensures noted { ClientNotes self.old self.new (calling_of call) reply_as result }
        ensures later { IsLater self.old self.new }
    {
        self.notes.reserve()?;
        let desk = self.desk;
        let proc = &self.notes.transcript().proc;
        let awaited = awaited_by(proc, past);
        let answer = desk.act_for(rt, &awaited, proc, act, &mut self.viewer, &mut self.known);
        self.notes.end(call, answer)
    }

    /// Makes this request to the node, once the process's status has changed from the given one.
    fn request<R: Wait>(
        &mut self,
        rt: &R,
        past: Option<Status>,
        request: Request,
    ) -> Result<Reply, Refusal>
        ensures told { IsEvent result → Tells self.old self.new (ModelAct.request (request_of request)) (reply_in reply_as result) }
        ensures past { IfOk result (λ r. IfSome past (λ status. RepliesPast (proc_of self.old) (status_in status) (ModelAct.request (request_of request)) (reply_as r))) }
        ensures noted { ClientNotes self.old self.new (Calling.request (request_of request)) reply_as result }
        ensures later { IsLater self.old self.new }
    {
        let call = Call::Request(request.copy()?);
        self.call(rt, past, call, Act::Request(request))
    }

    /// Commits its puts (PMIx Standard 5.0, PMIx_Commit), and returns the commit's number, from 1. Errors: `Terminated`; `Busy` if a call
    /// of it waits; `TooMany` past 4,294,967,294 commits or the limits of sealed puts; `Closed`; `NoMemory`.
    pub fn commit<R: Wait>(&mut self, rt: &R) -> Result<u64, Refusal>
        ensures told { IsEvent result → Tells self.old self.new (ModelAct.commit (proc_of self.old) (batch_of self.old)) (reply_in ModelReply.committed result) }
        ensures seen { IfOk result (λ n. n ≤ level_at (far_of self.new.viewer.log) (proc_of self.old)) }
        ensures noted { ClientNotes self.old self.new Calling.commit ModelReply.committed result }
        ensures later { IsLater self.old self.new }
    {
        let act = Act::Commit(self.proc().copy()?, self.notes.unsealed()?);
        committed_by(self.call(rt, None, Call::Commit, act))
    }

    /// Enters its next fence of these participants, which include it, and returns the instance of the fence, from 1. An empty list means
    /// its namespace (PMIx Standard 5.0, PMIx_Fence). A collecting fence shows each participant's commits. Errors: `BadParam`,
    /// `UnknownNamespace`, `Terminated`, `Busy`, `NotAParticipant`, `TooMany`, `Closed`, `NoMemory`.
    pub fn enter<R: Wait>(&mut self, rt: &R, list: &[Proc], collect: bool) -> Result<u64, Refusal>
        ensures told { IsEvent result → Tells self.old self.new (ModelAct.request (ModelRequest.enter (proc_of self.old) list.now collect))
            (reply_in ModelReply.entered result) }
        ensures entered { IfOk result (λ n. IsInFence self.new (listed_fence self.old list.now collect n)) }
        ensures noted { ClientNotes self.old self.new (Calling.request (ModelRequest.enter (proc_of self.old) list.now collect)) ModelReply.entered result }
        ensures later { IsLater self.old self.new }
    {
        let alloc = self.desk.place.registry.allocator();
        let request = Request::Enter(self.proc().copy()?, copies_of(alloc, list)?, collect);
        entered_by(self.request(rt, None, request))
    }

    /// Waits until it is released from the fence that it entered, and leaves it. Returns the instance, and the participants that were
    /// gone. Errors: `Terminated`, `Closed`, `NoMemory`.
    pub fn leave<R: Wait>(&mut self, rt: &R) -> Result<Release, Refusal>
        ensures told { IsEvent result → Tells self.old self.new (ModelAct.request (ModelRequest.leave (proc_of self.old))) (reply_in release_reply result) }
        ensures waited { IfOk result (λ r. r ≢ Release.Waiting) }
        ensures ready { IfOk result (ReleasedFrom self.old self.new) }
        ensures noted { ClientNotes self.old self.new (Calling.request (ModelRequest.leave (proc_of self.old))) release_reply result }
        ensures later { IsLater self.old self.new }
    {
        let request = Request::Leave(self.proc().copy()?);
        release_by(self.request(rt, Some(Status::InFence), request))
    }

    /// Enters its next fence of these participants, waits until it is released, and leaves it. Errors: `BadParam`, `UnknownNamespace`,
    /// `Terminated`, `Busy`, `NotAParticipant`, `TooMany`; after `Closed` and `NoMemory`, `in_call` says whether it entered.
    pub fn fence<R: Wait>(
        &mut self,
        rt: &R,
        list: &[Proc],
        collect: bool,
    ) -> Result<Release, Refusal>
        ensures told { IsEvent result → TellsFence self.old self.new list.now collect result }
        ensures waited { IfOk result (λ r. r ≢ Release.Waiting) }
        ensures ready { IfOk result (ReleasedFromOwn self.new list.now collect) }
        ensures noted { NotesFence self.old self.new list.now collect result }
        ensures later { IsLater self.old self.new }
    {
        self.enter(rt, list, collect)?;
        self.leave(rt)
    }

    /// Asks for a key of another process, or for a reserved key of any process. Returns the value, or that its get waits.
    pub(crate) fn ask<R: Wait>(
        &mut self,
        rt: &R,
        target: &Proc,
        key: &Key,
        mode: Mode,
    ) -> Result<Asked, Refusal>
        ensures told { IsEvent result → Tells self.old self.new (ModelAct.request (ModelRequest.ask (proc_of self.old) (get_of target.now key.now) mode))
            (reply_in asked_reply result) }
        ensures noted { ClientNotes self.old self.new (Calling.request (ModelRequest.ask (proc_of self.old) (get_of target.now key.now) mode)) asked_reply result }
        ensures later { IsLater self.old self.new }
    {
        let request = Request::Ask(mode, self.proc().copy()?, target.copy()?, key.copy()?);
        asked_by(self.request(rt, None, request))
    }

    /// Waits until its get is answered, and takes the answer. Errors: `NotFound`, `OutsideScope`, `Terminated`, `Closed`, `NoMemory`.
    pub fn take<R: Wait>(&mut self, rt: &R) -> Result<Taking, Refusal>
        ensures told { IsEvent result → Tells self.old self.new (ModelAct.request (ModelRequest.take (proc_of self.old))) (reply_in taking_reply result) }
        ensures waited { IfOk result (λ r. r ≢ Taking.Waiting) }
        ensures noted { ClientNotes self.old self.new (Calling.request (ModelRequest.take (proc_of self.old))) taking_reply result }
        ensures later { IsLater self.old self.new }
    {
        let request = Request::Take(self.proc().copy()?);
        taking_by(self.request(rt, Some(Status::Parked), request))
    }

    /// Returns its calls so far, and consumes the client: it makes no more calls, and its process does not end by this.
    pub fn into_transcript(self) -> Transcript
        ensures { result ≡ self.entry.transcript }
    {
        let Client {
            desk: _,
            viewer: _,
            known: _,
            notes,
        } = self;
        notes.into_transcript()
    }

    /// Ends the process (PMIx Standard 5.0, PMIx_Finalize), and returns its transcript. Errors, with the client: `Terminated`, `Closed`,
    /// `NoMemory`.
    pub fn terminate<R: Wait>(mut self, rt: &R) -> Result<Transcript, Unended<'d>>
        ensures proc { IfOk result (λ t. t.proc ≡ proc_of self.entry) }
        ensures noted { IfOk result (λ t. (n : ℕ)
            × (noted_in t ≡ noted_in self.entry.transcript ++ noted (Calling.request (ModelRequest.terminate (proc_of self.entry))) (ModelReply.ended n) ∷ [])) }
        ensures refused { IfErr result (λ u. ClientNotes self.entry u.client (Calling.request (ModelRequest.terminate (proc_of self.entry))) ModelReply.ended (Err u.refusal)) }
        ensures client { IfErr result (λ u. IsLater self.entry u.client) }
    {
        let answer = self.end(rt);
        match answer {
            Ok(_) => Ok(self.into_transcript()),
            Err(refusal) => Err(Unended {
                refusal,
                client: self,
            }),
        }
    }

    /// Ends the process, and returns the number of its last commit, which is its end.
    fn end<R: Wait>(&mut self, rt: &R) -> Result<u64, Refusal>
        ensures told { IsEvent result → Tells self.old self.new (ModelAct.request (ModelRequest.terminate (proc_of self.old))) (reply_in ModelReply.ended result) }
        ensures noted { ClientNotes self.old self.new (Calling.request (ModelRequest.terminate (proc_of self.old))) ModelReply.ended result }
        ensures later { IsLater self.old self.new }
    {
        let request = Request::Terminate(self.proc().copy()?);
        ended_by(self.request(rt, None, request))
    }
}

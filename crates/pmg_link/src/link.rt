//! A node with the puts of its clients, and its frames that wait.
ghost use Rattle.std.specs.Prelude.{◌≡◌, ◌++◌, [], length, Err, IfOk, OnOk, OnErr, IsNone, slice_get};
ghost use Rattle.std.specs.Option.{option_copied, option_to_list};
ghost use Rattle.pmg_value.specs.Answers.{Gives};
ghost use Rattle.pmg_value.specs.CheckOrder.{first_of};
ghost use Rattle.pmg_value.specs.Spelling.{spelling};
ghost use Rattle.pmg_value.specs.declared.refusal.Refusal.TheVariants as refusals;
ghost use Rattle.pmg_scope.specs.Cached.{unsealed_of};
ghost use Rattle.pmg_node.specs.Acting.{act_of, joins_in, reply_as, request_of};
ghost use Rattle.pmg_node.specs.Joining.{no_joins};
ghost use Rattle.pmg_node.specs.Servers.{reply_to, IsAnswered, RepliesAct};
ghost use Rattle.pmg_node.specs.declared.act.Reply.{Reply as GivenReply};
ghost use Rattle.pmg_node_model.specs.Acts.{Act as ModelAct};
ghost use Rattle.pmg_caches.specs.Caching.{cached_for, put_cause_at};
ghost use Rattle.pmg_link.specs.Links.{after_request, commit_of, link_after, link_committed, link_with_put, new_link, DeliversNext, RefusesCommit, RepliesCommit, RepliesRequest};

use crate::inbox::Inbox;
use pmg_caches::{Caches, own_get, own_key, put_at};
use pmg_frame::Frame;
use pmg_node::{Act, Joined, Reply, Request, Server};
use pmg_node_model::Sent;
use pmg_scope::Scope;
use pmg_value::{Key, Proc, Refusal, Value};
use std::alloc::AllocError;
use std::collections::VecDeque;
use std::marker::Model;

/// A server with the puts of its clients and its sent frames that nobody took yet, for a program that carries frames between servers. The
/// program hands in the calls of clients, and takes out the frames, in the order in which they were sent.
pub struct Link {
    node: Server,
    caches: Caches,
    waiting: VecDeque<Sent>,
    joined: Joined,
}

impl Drop for Link {
    fn drop(self) {
        let Self {
            node,
            caches,
            waiting,
            joined,
        } = self;
    }
}

impl Model for Link {
    ghost use Rattle.pmg_commit.specs.contracts.piece.Piece.{the_row as piece_row};
    ghost use Rattle.pmg_node_model.specs.contracts.sent.Sent.{the_row as sent_row};
    ghost use Rattle.pmg_node.specs.Acting.{joins_in};
    ghost use Rattle.pmg_link.specs.Links.{Linked, coded_linked};

    ghost Value = { Linked };

    ghost coded = { coded_linked sent_row.coded piece_row.coded };

    ghost view = { λ a. record { node = a.node; caches = a.caches; waiting = a.waiting.items; joined = joins_in a.joined } };
}

/// Returns the commit of the client's puts since its last commit, as an act of the process.
fn commit_act(caches: &Caches, proc: &Proc) -> Result<Act, AllocError>
    ensures { IfOk result (λ a. act_of a ≡ ModelAct.commit proc.now (unsealed_of (cached_for caches.now proc.now))) }
{
    let batch = caches.unsealed(proc)?;
    Ok(Act::Commit(proc.copy()?, batch))
}

impl Link {
    /// Makes a link of that node, without puts, waiting frames and joined pieces. It keeps the allocator of the node's registry.
    pub fn new(node: Server) -> Link
        ensures { result ≡ new_link node }
    {
        let alloc = node.registry().allocator();
        Link {
            node,
            caches: Caches::new(alloc),
            waiting: VecDeque::new(alloc),
            joined: Joined::nothing(),
        }
    }

    /// Performs the act, and puts the frames that the node sends after the waiting ones. Errors: the refusals of the node's own call,
    /// which change nothing except the joined pieces, which are empty then; `NoMemory` if an allocation failed, and then nothing changed,
    /// not even the joined pieces.
    pub fn act(&mut self, act: &Act) -> Result<Reply, Refusal>
        ensures reply { RepliesAct reply_as result self.old.node (act_of act.now) }
        ensures done { IsAnswered result → self.new ≡ link_after self.old (act_of act.now) }
        ensures memory { result ≡ Err refusals.NoMemory → self.new ≡ self.old }
    {
        match self.node.act_into(act, &mut self.waiting) {
            Ok(acted) => {
                self.joined = acted.joined;
                Ok(acted.reply)
            }
            Err(Refusal::NoMemory) => Err(Refusal::NoMemory),
            Err(refusal) => {
                self.joined = Joined::nothing();
                Err(refusal)
            }
        }
    }

    /// Puts the value under the key, for the process (PMIx Standard 5.0, PMIx_Put). A refused put changes nothing. Errors: `BadParam` if
    /// no process may make such a put, or the caller is not in its namespace; `UnknownNamespace`, `NotMine`, `Terminated` and `Busy` for
    /// the caller; `TooMany` if its client's cache would pass a limit; `NoMemory`.
    pub fn put(&mut self, proc: &Proc, scope: Scope, key: Key, value: Value) -> Result<(), Refusal>
        ensures answer { Gives (λ u. u) result
            (first_of (put_cause_at self.old.node (cached_for self.old.caches proc.now) proc.now scope key (spelling value)) tt) }
        ensures ok { OnOk result (self.new ≡ link_with_put self.old proc.now scope key (spelling value)) }
        ensures err { OnErr result (self.new ≡ self.old) }
    {
        put_at(&self.node, &mut self.caches, proc, scope, key, value)
    }

    /// Refuses a commit for which memory is missing: with the caller's refusal if one is due, else as NoMemory.
    fn refuse_commit(&mut self, proc: &Proc) -> Refusal
        ensures reply { RefusesCommit result (reply_to self.old.node (commit_of self.old proc.now)) }
        ensures after { IsAnswered {X = GivenReply} (Err result) → self.new ≡ link_after self.old (commit_of self.old proc.now) }
        ensures memory { result ≡ refusals.NoMemory → self.new ≡ self.old }
    {
        match self.node.check_free(proc) {
            Ok(()) => Refusal::NoMemory,
            Err(refusal) => {
                self.joined = Joined::nothing();
                refusal
            }
        }
    }

    /// Commits the puts of the process since its last commit (PMIx Standard 5.0, PMIx_Commit). Errors: the refusals of the node's commit,
    /// after which the puts wait for the next commit; `NoMemory`, which changes nothing. NoMemory comes only if the commit would be
    /// accepted, or would pass a limit: only a copy of the puts shows whether it does.
    pub fn commit(&mut self, proc: &Proc) -> Result<Reply, Refusal>
        ensures reply { RepliesCommit result (reply_to self.old.node (commit_of self.old proc.now)) }
        ensures done { OnOk result (self.new ≡ link_committed self.old proc.now) }
        ensures refused { OnErr result (IsAnswered result → self.new ≡ link_after self.old (commit_of self.old proc.now)) }
        ensures memory { result ≡ Err refusals.NoMemory → self.new ≡ self.old }
    {
        let Ok(act) = commit_act(&self.caches, proc) else {
            return Err(self.refuse_commit(proc));
        };
        let reply = self.act(&act)?;
        self.caches.mark_sealed(proc);
        Ok(reply)
    }

    /// Makes a request of a process, or of the program that runs the node. The last put of the client, committed or not, answers a get of
    /// the process's own key, unless the key belongs to the standard. The node answers any other request. Errors: the errors of `act`.
    pub fn request(&mut self, request: Request) -> Result<Reply, Refusal>
        ensures reply { RepliesRequest self.old (request_of request) result }
        ensures done { IsAnswered result → self.new ≡ after_request self.old (request_of request) }
        ensures memory { result ≡ Err refusals.NoMemory → self.new ≡ self.old }
    {
        match own_key(&request) {
            Some((proc, key)) => own_get(&self.node, &self.caches, proc, key),
            None => self.act(&Act::Request(request)),
        }
    }

    /// Delivers a frame of another node, which the node takes or ignores, and puts the frames that the node sends then after the waiting
    /// ones. If an allocation fails, nothing changed.
    pub fn deliver(&mut self, frame: &Frame) -> Result<Reply, AllocError>
        ensures reply { IfOk result (λ reply. reply_to self.old.node (ModelAct.deliver frame.now) ≡ reply_as reply) }
        ensures done { OnOk result (self.new ≡ link_after self.old (ModelAct.deliver frame.now)) }
        ensures err { OnErr result (self.new ≡ self.old) }
    {
        let acted = self.node.deliver_joined(frame, &mut self.waiting)?;
        self.joined = acted.joined;
        Ok(acted.reply)
    }

    /// Delivers the first waiting frame of the inbox. Returns `None` if no frame waits there. If an allocation fails, nothing changed, and
    /// the frame continues to wait.
    pub fn deliver_next(&mut self, inbox: &mut Inbox) -> Result<Option<Reply>, AllocError>
        ensures delivers { IfOk result (λ reply. DeliversNext inbox.old inbox.new self.old self.new reply) }
        ensures err { OnErr result (self.new ≡ self.old) }
        ensures kept { OnErr result (inbox.new ≡ inbox.old) }
    {
        let Some(frame) = inbox.frames.front() else {
            return Ok(None);
        };
        let reply = self.deliver(frame)?;
        let _ = inbox.frames.pop_front();
        Ok(Some(reply))
    }

    /// Takes the first waiting frame, with its receiver. Returns `None` if no frame waits. It takes no memory.
    pub fn outbox(&mut self) -> Option<Sent>
        ensures waiting { self.old.waiting ≡ option_to_list result ++ self.new.waiting }
        ensures none { IsNone result → self.old.waiting ≡ [] }
        ensures node { self.new.node ≡ self.old.node }
        ensures caches { self.new.caches ≡ self.old.caches }
        ensures joined { self.new.joined ≡ self.old.joined }
    {
        self.waiting.pop_front()
    }

    /// Returns the frame that `outbox` takes next, with its receiver, or `None` if no frame waits. The frame continues to wait, so that a
    /// caller with too little room for its bytes (`Frame::encode`) loses nothing.
    pub fn front(&self) -> Option<&Sent>
        ensures { option_copied result ≡ slice_get self.now.waiting 0 }
    {
        self.waiting.front()
    }

    /// Returns the number of waiting frames.
    pub fn waiting(&self) -> usize
        ensures { result ≡ length self.now.waiting }
    {
        self.waiting.len()
    }

    /// Returns the pieces that the last act joined into the node's stores: nothing if the act was refused or ignored, or if there was no
    /// act.
    pub fn joined(&self) -> &Joined
        ensures { joins_in result.now ≡ self.now.joined }
    {
        &self.joined
    }

    /// Returns the node.
    pub fn node(&self) -> &Server
        ensures { result.now ≡ self.now.node }
    {
        &self.node
    }
}

//! One call for all acts of a node.
ghost use Rattle.std.specs.Prelude.{◌≡◌, ◌++◌, Some, Err, IfOk, OnOk, OnErr};
ghost use Rattle.pmg_value.specs.declared.refusal.Refusal.TheVariants as refusals;
ghost use Rattle.pmg_node.specs.Acting.{act_of, acted_reply, commit_joins, delivery_joins, joins_in, joins_none, request_of, reply_as, SameAnswer, SameReply};
ghost use Rattle.pmg_node.specs.Joining.{frame_joins, joins, no_joins};
ghost use Rattle.pmg_node_model.specs.Acts.{Act as ModelAct, Reply as ModelReply, Request as ModelRequest};
ghost use Rattle.pmg_node_parts.specs.Calls.{get_of};
ghost use Rattle.pmg_node.specs.Replies.{asked_reply, committed_reply, defined_reply, delivery_reply, ended_reply, release_reply, taking_reply};
ghost use Rattle.pmg_node.specs.Servers.{reply_to, sent_by, after, IsAnswered, Replies, RepliesAct};

use crate::act::{Act, Acted, Joined, Reply, Request};
use crate::asked::Delivery;
use crate::committing::Committed;
use crate::leaving::Release;
use crate::parking::Asked;
use crate::server::Server;
use crate::taking::Taking;
use pmg_commit::Piece;
use pmg_frame::Frame;
use pmg_get::Mode;
use pmg_node_model::Sent;
use pmg_scope::Batch;
use pmg_value::{Key, Proc, Refusal};
use std::alloc::AllocError;
use std::collections::VecDeque;

/// Returns the reply of an act that joins nothing.
fn reply_alone(reply: Reply) -> Acted
    ensures reply { acted_reply result ≡ reply_as reply }
    ensures joined { joins_in result.joined ≡ no_joins }
{
    Acted {
        reply,
        joined: Joined::nothing(),
    }
}

/// Returns the reply of an act that joins a process's sealed pieces.
fn reply_with_pieces(reply: Reply, near: Piece, far: Piece) -> Acted
    ensures reply { acted_reply result ≡ reply_as reply }
    ensures near { result.joined.near ≡ Some near }
    ensures far { result.joined.far ≡ Some far }
{
    Acted {
        reply,
        joined: Joined {
            near: Some(near),
            far: Some(far),
        },
    }
}

/// Returns the instance that a process entered, as a reply.
fn as_entered(answer: Result<u64, Refusal>) -> Result<Acted, Refusal>
    ensures { SameAnswer ModelReply.entered joins_none answer result }
{
    Ok(reply_alone(Reply::Entered(answer?)))
}

/// Returns the answer to a process that leaves a fence, as a reply.
fn as_released(answer: Result<Release, Refusal>) -> Result<Acted, Refusal>
    ensures { SameAnswer release_reply joins_none answer result }
{
    Ok(reply_alone(match answer? {
        Release::Idle => Reply::Idle,
        Release::Waiting => Reply::Waiting,
        Release::Released(instance, gone) => Reply::Released(instance, gone),
    }))
}

/// Returns the answer to a process that asks for a key, as a reply.
fn reply_of_asked(answer: Result<Asked, Refusal>) -> Result<Reply, Refusal>
    ensures { SameReply asked_reply answer result }
{
    Ok(match answer? {
        Asked::Found(value) => Reply::Found(value),
        Asked::Parked => Reply::Parked,
    })
}

/// Returns the answer to a process that asks for a key, as a reply that joins nothing.
fn as_asked(answer: Result<Asked, Refusal>) -> Result<Acted, Refusal>
    ensures { SameAnswer asked_reply joins_none answer result }
{
    Ok(reply_alone(reply_of_asked(answer)?))
}

/// Returns the answer to a process that takes an answer, as a reply.
fn as_taken(answer: Result<Taking, Refusal>) -> Result<Acted, Refusal>
    ensures { SameAnswer taking_reply joins_none answer result }
{
    Ok(reply_alone(match answer? {
        Taking::Idle => Reply::Idle,
        Taking::Waiting => Reply::Waiting,
        Taking::Found(value) => Reply::Found(value),
    }))
}

/// Returns the number of a commit, as a reply.
fn as_committed(answer: Result<Committed, Refusal>) -> Result<Acted, Refusal>
    ensures { SameAnswer committed_reply commit_joins answer result }
{
    let commit = answer?;
    Ok(reply_with_pieces(Reply::Committed(commit.level), commit.near, commit.far))
}

/// Returns the number of a process's end, as a reply.
fn as_ended(answer: Result<Committed, Refusal>) -> Result<Acted, Refusal>
    ensures { SameAnswer ended_reply commit_joins answer result }
{
    let end = answer?;
    Ok(reply_with_pieces(Reply::Ended(end.level), end.near, end.far))
}

/// Returns the number of a change of the process sets, as a reply.
fn as_defined(answer: Result<Committed, Refusal>) -> Result<Acted, Refusal>
    ensures { SameAnswer defined_reply commit_joins answer result }
{
    let change = answer?;
    Ok(reply_with_pieces(Reply::Defined(change.level), change.near, change.far))
}

/// Returns the outcome of a delivery, as a reply.
fn reply_of_delivery(delivery: Delivery) -> Reply
    ensures { reply_as result ≡ delivery_reply delivery }
{
    match delivery {
        Delivery::Taken => Reply::Taken,
        Delivery::Ignored => Reply::Ignored,
    }
}

/// Returns the outcome of a delivery, as a reply with the joined pieces.
fn as_delivered(delivery: Delivery, joined: Joined) -> Acted
    ensures reply { acted_reply result ≡ delivery_reply delivery }
    ensures joined { joins_in result.joined ≡ delivery_joins delivery (joins_in joined) }
{
    match delivery {
        Delivery::Taken => Acted {
            reply: Reply::Taken,
            joined,
        },
        Delivery::Ignored => reply_alone(Reply::Ignored),
    }
}

/// Returns the pieces that a taken frame joins: the piece that it is, or the piece in a refresh reply, if any.
pub(crate) fn joined_by(frame: &Frame) -> Result<Joined, AllocError>
    ensures { IfOk result (λ joined. joins_in joined ≡ frame_joins frame.now) }
{
    let far = match frame {
        Frame::Piece(piece) => Some(piece.copy()?),
        Frame::Header(_) => None,
        Frame::FenceAsk(_) => None,
        Frame::RangeAsk(_) => None,
        Frame::DirectAsk(_) => None,
        Frame::RefreshAsk(_) => None,
        Frame::RefreshReply(reply) => reply.copy()?.into_piece(),
    };
    Ok(Joined { near: None, far })
}

impl Server {
    /// Answers a request.
    fn serve(&mut self, request: &Request, out: &mut VecDeque<Sent>) -> Result<Acted, Refusal>
        ensures reply { RepliesAct acted_reply result self.old (ModelAct.request (request_of request.now)) }
        ensures done { IsAnswered result → self.new ≡ after self.old (ModelAct.request (request_of request.now)) }
        ensures sent { IsAnswered result → out.new.items ≡ out.old.items ++ sent_by self.old (ModelAct.request (request_of request.now)) }
        ensures joined { IfOk result (λ acted. joins_in acted.joined
            ≡ joins self.old.jobs self.old.id self.old.holding (ModelAct.request (request_of request.now))) }
        ensures memory { result ≡ Err refusals.NoMemory → self.new ≡ self.old }
        ensures unsent { result ≡ Err refusals.NoMemory → out.new.items ≡ out.old.items }
    {
        match request {
            Request::Enter(proc, list, collect) => as_entered(self.enter(
                proc, list, *collect, out,
            )),
            Request::Leave(proc) => as_released(self.take_release(proc)),
            Request::Ask(mode, proc, target, key) => as_asked(self.ask(
                proc, target, key, *mode, out,
            )),
            Request::Take(proc) => as_taken(self.take_answer(proc)),
            Request::Terminate(proc) => as_ended(self.terminate(proc, out)),
            Request::Define(name, list) => as_defined(self.define_set(name, list, out)),
            Request::Delete(name) => as_defined(self.delete_set(name, out)),
            Request::Nudge => {
                self.nudge(out)?;
                Ok(reply_alone(Reply::Done))
            }
        }
    }

    /// Takes or ignores a frame of another node, as `deliver` does, and returns the joined pieces too. If an allocation fails, nothing
    /// changes.
    pub fn deliver_joined(
        &mut self,
        frame: &Frame,
        out: &mut VecDeque<Sent>,
    ) -> Result<Acted, AllocError>
        ensures reply { IfOk result (λ acted. reply_to self.old (ModelAct.deliver frame.now) ≡ acted_reply acted) }
        ensures ok { OnOk result (self.new ≡ after self.old (ModelAct.deliver frame.now)) }
        ensures sent { OnOk result (out.new.items ≡ out.old.items ++ sent_by self.old (ModelAct.deliver frame.now)) }
        ensures joined { IfOk result (λ acted. joins_in acted.joined
            ≡ joins self.old.jobs self.old.id self.old.holding (ModelAct.deliver frame.now)) }
        ensures err { OnErr result (self.new ≡ self.old) }
        ensures unsent { OnErr result (out.new.items ≡ out.old.items) }
    {
        let joined = joined_by(frame)?;
        let delivery = self.deliver(frame, out)?;
        Ok(as_delivered(delivery, joined))
    }

    /// Does the act, and appends the frames that go out to the caller's list. Each call of a node is an instance of this one, with equal
    /// refusals.
    pub fn act_into(&mut self, act: &Act, out: &mut VecDeque<Sent>) -> Result<Acted, Refusal>
        ensures reply { RepliesAct acted_reply result self.old (act_of act.now) }
        ensures done { IsAnswered result → self.new ≡ after self.old (act_of act.now) }
        ensures sent { IsAnswered result → out.new.items ≡ out.old.items ++ sent_by self.old (act_of act.now) }
        ensures joined { IfOk result (λ acted. joins_in acted.joined ≡ joins self.old.jobs self.old.id self.old.holding (act_of act.now)) }
        ensures memory { result ≡ Err refusals.NoMemory → self.new ≡ self.old }
        ensures unsent { result ≡ Err refusals.NoMemory → out.new.items ≡ out.old.items }
    {
        match act {
            Act::Request(request) => self.serve(request, out),
            Act::Commit(proc, batch) => as_committed(self.commit_joined(proc, batch, out)),
            Act::Deliver(frame) => Ok(self.deliver_joined(frame, out)?),
        }
    }

    /// Commits the process's batch, and returns the commit's number (PMIx Standard 5.0, PMIx_Commit). Errors: `BadParam`,
    /// `UnknownNamespace`, `NotMine`, `Terminated`, `Busy`, `TooMany` and `NoMemory`, as in `commit_joined`.
    pub fn commit(
        &mut self,
        proc: &Proc,
        batch: &Batch,
        out: &mut VecDeque<Sent>,
    ) -> Result<u64, Refusal>
        ensures reply { Replies ModelReply.committed result (reply_to self.old (ModelAct.commit proc.now batch.now)) }
        ensures done { IsAnswered result → self.new ≡ after self.old (ModelAct.commit proc.now batch.now) }
        ensures sent { IsAnswered result → out.new.items ≡ out.old.items ++ sent_by self.old (ModelAct.commit proc.now batch.now) }
        ensures memory { result ≡ Err refusals.NoMemory → self.new ≡ self.old }
        ensures unsent { result ≡ Err refusals.NoMemory → out.new.items ≡ out.old.items }
    {
        match self.commit_joined(proc, batch, out) {
            Ok(commit) => Ok(commit.level),
            Err(refusal) => Err(refusal),
        }
    }

    /// Answers a request, with only the reply. This is a separate call, because the joined pieces take room.
    #[inline(never)]
    fn serve_alone(&mut self, request: &Request, out: &mut VecDeque<Sent>) -> Result<Reply, Refusal>
        ensures reply { RepliesAct reply_as result self.old (ModelAct.request (request_of request.now)) }
        ensures done { IsAnswered result → self.new ≡ after self.old (ModelAct.request (request_of request.now)) }
        ensures sent { IsAnswered result → out.new.items ≡ out.old.items ++ sent_by self.old (ModelAct.request (request_of request.now)) }
        ensures memory { result ≡ Err refusals.NoMemory → self.new ≡ self.old }
        ensures unsent { result ≡ Err refusals.NoMemory → out.new.items ≡ out.old.items }
    {
        match self.serve(request, out) {
            Ok(acted) => Ok(acted.reply),
            Err(refusal) => Err(refusal),
        }
    }

    /// Answers a process that asks for a key of the target, as `ask` does, in the form of a reply to a request.
    pub fn get(
        &mut self,
        proc: &Proc,
        target: &Proc,
        key: &Key,
        mode: Mode,
        out: &mut VecDeque<Sent>,
    ) -> Result<Reply, Refusal>
        ensures reply { RepliesAct reply_as result self.old (ModelAct.request (ModelRequest.ask proc.now (get_of target.now key.now) mode)) }
        ensures done { IsAnswered result → self.new ≡ after self.old (ModelAct.request (ModelRequest.ask proc.now (get_of target.now key.now) mode)) }
        ensures sent { IsAnswered result → out.new.items ≡ out.old.items
            ++ sent_by self.old (ModelAct.request (ModelRequest.ask proc.now (get_of target.now key.now) mode)) }
        ensures memory { result ≡ Err refusals.NoMemory → self.new ≡ self.old }
        ensures unsent { result ≡ Err refusals.NoMemory → out.new.items ≡ out.old.items }
    {
        reply_of_asked(self.ask(proc, target, key, mode, out))
    }

    /// Answers a request of a process at home at the node, or of the node's operator.
    pub fn request(&mut self, request: &Request, out: &mut VecDeque<Sent>) -> Result<Reply, Refusal>
        ensures reply { RepliesAct reply_as result self.old (ModelAct.request (request_of request.now)) }
        ensures done { IsAnswered result → self.new ≡ after self.old (ModelAct.request (request_of request.now)) }
        ensures sent { IsAnswered result → out.new.items ≡ out.old.items ++ sent_by self.old (ModelAct.request (request_of request.now)) }
        ensures memory { result ≡ Err refusals.NoMemory → self.new ≡ self.old }
        ensures unsent { result ≡ Err refusals.NoMemory → out.new.items ≡ out.old.items }
    {
        match request {
            Request::Ask(mode, proc, target, key) => self.get(proc, target, key, *mode, out),
            _ => self.serve_alone(request, out),
        }
    }

    /// Does the act, as `act_into` does, with only the reply. Errors: the errors of the call that makes the act, out of `BadParam`,
    /// `NotFound`, `OutsideScope`, `UnknownNamespace`, `NotMine`, `Busy`, `Terminated`, `NotAParticipant`, `TooMany`, `Exists` and
    /// `NoMemory`.
    pub fn act(&mut self, act: &Act, out: &mut VecDeque<Sent>) -> Result<Reply, Refusal>
        ensures reply { RepliesAct reply_as result self.old (act_of act.now) }
        ensures done { IsAnswered result → self.new ≡ after self.old (act_of act.now) }
        ensures sent { IsAnswered result → out.new.items ≡ out.old.items ++ sent_by self.old (act_of act.now) }
        ensures memory { result ≡ Err refusals.NoMemory → self.new ≡ self.old }
        ensures unsent { result ≡ Err refusals.NoMemory → out.new.items ≡ out.old.items }
    {
        match act {
            Act::Request(request) => self.request(request, out),
            Act::Commit(proc, batch) => Ok(Reply::Committed(self.commit(proc, batch, out)?)),
            Act::Deliver(frame) => Ok(reply_of_delivery(self.deliver(frame, out)?)),
        }
    }
}

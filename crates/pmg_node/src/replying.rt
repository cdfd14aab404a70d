//! The reply to a node that asks anew for commits of a process, and the effects of such a reply.
ghost use Rattle.std.specs.Prelude.{◌≡◌, ◌≤◌, true, IfOk, OnOk, OnErr};
ghost use Rattle.std.specs.Option.{option_map};
ghost use Rattle.pmg_commit.specs.Stamped.{IsSealer};
ghost use Rattle.pmg_frame.specs.Refreshing.{told_by};
ghost use Rattle.pmg_frame.specs.declared.frame.Frame.TheVariants as frames;
ghost use Rattle.pmg_node_parts.specs.Calls.{all_instead};
ghost use Rattle.pmg_node_parts.specs.Owns.{sealed_of};
ghost use Rattle.pmg_node_model.specs.Acts.{Act, is_taken};
ghost use Rattle.pmg_node_model.specs.Choosing.{due_by};
ghost use Rattle.pmg_node_model.specs.Holdings.{joined};
ghost use Rattle.pmg_node.specs.Replying.{reply_by, replying_by};
ghost use Rattle.pmg_node.specs.Servers.{after};

use crate::server::Server;
use pmg_commit::Piece;
use pmg_frame::{Frame, RefreshAsk, RefreshReply};
use pmg_node_model::{Sent, ToSend};
use pmg_node_parts::{BoardPreview, Completion, LocalCommits, answers_then, asks_again};
use pmg_scope::Reach;
use pmg_store::Board;
use pmg_value::Proc;
use std::alloc::{AllocError, Global};

/// Returns the process's commits after the named one, possibly an empty piece, as the reply.
fn reply_of(alloc: Global, own: &LocalCommits, ask: &RefreshAsk) -> Result<RefreshReply, AllocError>
    requires made { ask.now.ask.level ≤ (sealed_of own.now ask.now.ask.proc).level }
    requires its { (sealed_of own.now ask.now.ask.proc).proc ≡ ask.now.ask.proc }
    ensures { IfOk result (λ reply. reply ≡ reply_by (sealed_of own.now) ask.now) }
{
    let node = ask.ask().node();
    let proc = ask.ask().proc();
    let level = ask.ask().level();
    // No effect at run time: the proof reads here how long the name is.
    let _name = proc.nspace.as_bytes();
    if level < own.level(proc) {
        let piece = own.piece(proc, level, Reach::Far)?;
        let (proc, from, to, entries) = piece.into_parts();
        return Ok(RefreshReply::from_checked(node, ask.request(), proc, from, to, entries));
    }
    let entries = Vec::new(alloc);
    Ok(RefreshReply::from_checked(node, ask.request(), proc.copy()?, level, level, entries))
}

/// Returns the reply, due to the node that asks anew, unless it names a commit that was not made.
pub(crate) fn reply_due(
    alloc: Global,
    own: &LocalCommits,
    ask: &RefreshAsk,
) -> Result<Vec<ToSend>, AllocError>
    requires { (sealed_of own.now ask.now.ask.proc).proc ≡ ask.now.ask.proc }
    ensures { IfOk result (λ dues. dues.items ≡ replying_by (sealed_of own.now) ask.now) }
{
    let mut dues = Vec::new(alloc);
    if ask.ask().level() <= own.level(ask.ask().proc()) {
        dues.push(ToSend::Whole(Sent {
            to: ask.ask().node(),
            frame: Frame::RefreshReply(reply_of(alloc, own, ask)?),
        }))?;
    }
    Ok(dues)
}

/// Joins the piece in a reply, if there is one, into the store for reads from other nodes.
pub(crate) fn absorb_told(board: &mut Board, told: Option<&Piece>) -> Result<(), AllocError>
    ensures far { OnOk result (board.new.far ≡ joined board.old.far (option_map (λ c. c.now) told.entry)) }
    ensures near { board.new.near ≡ board.old.near }
    ensures err { OnErr result (board.new.far ≡ board.old.far) }
{
    match told {
        Some(piece) => board.absorb_far(piece),
        None => Ok(()),
    }
}

impl Server {
    /// Returns whether the reply is to a request of this node, for commits of a process that is not at home here.
    #[tactic(auto, unfolding(pmg_node_model::specs::Acts::is_taken))]
    pub(crate) fn is_replied(&self, reply: &RefreshReply) -> bool
        ensures { result ≡ is_taken self.now.jobs self.now.id self.now.holding.table (frames.RefreshReply reply.now) }
    {
        reply.node() == self.id
            && self.is_known(reply.proc())
            && !self.table.registry().is_home(self.id, reply.proc())
    }

    /// Returns the answers of the calls that the reply, with this piece, settles: the get that asked for it, if it still waits, and the
    /// calls that wait for its process.
    pub(crate) fn answers_by<'a>(
        &'a self,
        reply: &'a RefreshReply,
        told: Option<&'a Piece>,
    ) -> Result<Vec<(Proc, Completion)>, AllocError>
        requires taken { is_taken self.now.jobs self.now.id self.now.holding.table (frames.RefreshReply reply.now) ≡ true }
        requires told { option_map (λ c. c.now) told ≡ told_by reply.now }
        ensures { IfOk result (λ answers. all_instead self.now.holding.calls answers.items
            ≡ (after self.now (Act.deliver (frames.RefreshReply reply.now))).holding.calls) }
    {
        let ahead = BoardPreview {
            board: &self.board,
            near: None,
            far: told,
        };
        let number = reply.request();
        let proc = reply.proc();
        let asker = self.held.asker_of(number, proc);
        answers_then(
            &self.table,
            self.id,
            &ahead,
            &self.calls,
            asker,
            number,
            proc,
        )
    }

    /// Returns the frames that are due after the reply, with this piece, is taken. If it raises the known level of its process, these are
    /// requests to the process's home, for each get of its keys that still waits.
    pub(crate) fn asks_by<'a>(
        &'a self,
        reply: &'a RefreshReply,
        told: Option<&'a Piece>,
    ) -> Result<Vec<ToSend>, AllocError>
        requires taken { is_taken self.now.jobs self.now.id self.now.holding.table (frames.RefreshReply reply.now) ≡ true }
        requires told { option_map (λ c. c.now) told ≡ told_by reply.now }
        ensures { IfOk result (λ dues. dues.items ≡ due_by self.now.jobs self.now.id self.now.holding
            (Act.deliver (frames.RefreshReply reply.now)) (after self.now (Act.deliver (frames.RefreshReply reply.now))).holding) }
    {
        let ahead = BoardPreview {
            board: &self.board,
            near: None,
            far: told,
        };
        let proc = reply.proc();
        if ahead.far_level(proc) <= self.board.far().level(proc) {
            return Ok(Vec::new(self.table.registry().allocator()));
        }
        asks_again(&self.table, self.id, &ahead, &self.calls, proc)
    }
}

//! The steps of a node for each kind of frame of another node.
ghost use Rattle.std.specs.Prelude.{◌≡◌, ◌++◌, IfOk, OnOk, OnErr};
ghost use Rattle.pmg_frame.specs.declared.frame.Frame.TheVariants as frames;
ghost use Rattle.pmg_node_model.specs.Acts.{Act};
ghost use Rattle.pmg_node.specs.Replies.{delivery_reply};
ghost use Rattle.pmg_node.specs.Servers.{reply_to, sent_by, after};

use crate::asked::Delivery;
use crate::fencing::{FenceContext, change_fence, tell_node};
use crate::replying::{absorb_told, reply_due};
use crate::server::Server;
use pmg_commit::Piece;
use pmg_fence::Change;
use pmg_frame::{CommitAsk, FenceAsk, Header, RefreshAsk, RefreshReply};
use pmg_node_model::Sent;
use pmg_node_parts::{answer_commits, hand_out, rollback};
use std::alloc::AllocError;
use std::collections::VecDeque;

impl Server {
    /// Takes a piece of a process of another node. Gets and fences that waited for it are answered and released. If gets of its keys still
    /// wait, the node asks for more.
    pub(crate) fn deliver_piece(
        &mut self,
        piece: &Piece,
        out: &mut VecDeque<Sent>,
    ) -> Result<Delivery, AllocError>
        ensures reply { IfOk result (λ delivery. reply_to self.old (Act.deliver (frames.Piece piece.now)) ≡ delivery_reply delivery) }
        ensures ok { OnOk result (self.new ≡ after self.old (Act.deliver (frames.Piece piece.now))) }
        ensures sent { OnOk result (out.new.items ≡ out.old.items ++ sent_by self.old (Act.deliver (frames.Piece piece.now))) }
        ensures err { OnErr result (self.new ≡ self.old) }
        ensures unsent { OnErr result (out.new.items ≡ out.old.items) }
    {
        if !self.is_foreign(piece) {
            return Ok(Delivery::Ignored);
        }
        let answers = self.answers_to(piece)?;
        let dues = self.asks_after(piece)?;
        let alloc = self.table.registry().allocator();
        let handed = hand_out(alloc, &self.own, &mut self.marks, None, dues, out)?;
        if let Err(AllocError) = self.board.absorb_far(piece) {
            rollback(&mut self.marks, out, handed);
            return Err(AllocError);
        }
        self.calls.answer(answers);
        Ok(Delivery::Taken)
    }

    /// Takes another node's header of a fence.
    pub(crate) fn deliver_header(
        &mut self,
        header: &Header,
        out: &mut VecDeque<Sent>,
    ) -> Result<Delivery, AllocError>
        ensures reply { IfOk result (λ delivery. reply_to self.old (Act.deliver (frames.Header header.now)) ≡ delivery_reply delivery) }
        ensures ok { OnOk result (self.new ≡ after self.old (Act.deliver (frames.Header header.now))) }
        ensures sent { OnOk result (out.new.items ≡ out.old.items ++ sent_by self.old (Act.deliver (frames.Header header.now))) }
        ensures err { OnErr result (self.new ≡ self.old) }
        ensures unsent { OnErr result (out.new.items ≡ out.old.items) }
    {
        if !self.is_told(header) {
            return Ok(Delivery::Ignored);
        }
        let change = Change::Told(header.copy()?);
        let around = FenceContext {
            id: self.id,
            board: &self.board,
            own: &self.own,
        };
        change_fence(
            &around,
            &mut self.table,
            &mut self.calls,
            &mut self.marks,
            header.name(),
            change,
            out,
        )?;
        Ok(Delivery::Taken)
    }

    /// Takes another node's request for the own header of a fence, and sends the header as soon as it exists.
    pub(crate) fn deliver_fence_ask(
        &mut self,
        ask: &FenceAsk,
        out: &mut VecDeque<Sent>,
    ) -> Result<Delivery, AllocError>
        ensures reply { IfOk result (λ delivery. reply_to self.old (Act.deliver (frames.FenceAsk ask.now)) ≡ delivery_reply delivery) }
        ensures ok { OnOk result (self.new ≡ after self.old (Act.deliver (frames.FenceAsk ask.now))) }
        ensures sent { OnOk result (out.new.items ≡ out.old.items ++ sent_by self.old (Act.deliver (frames.FenceAsk ask.now))) }
        ensures err { OnErr result (self.new ≡ self.old) }
        ensures unsent { OnErr result (out.new.items ≡ out.old.items) }
    {
        if !self.is_asked_for(ask) {
            return Ok(Delivery::Ignored);
        }
        if let Some(header) = self.table.own_header(ask.name())? {
            let alloc = self.table.registry().allocator();
            tell_node(alloc, &self.own, &mut self.marks, ask.node(), &header, out)?;
            return Ok(Delivery::Taken);
        }
        let around = FenceContext {
            id: self.id,
            board: &self.board,
            own: &self.own,
        };
        change_fence(
            &around,
            &mut self.table,
            &mut self.calls,
            &mut self.marks,
            ask.name(),
            Change::Learned,
            out,
        )?;
        Ok(Delivery::Taken)
    }

    /// Takes another node's request for the commits of an own process after those that it knows, and sends the existing ones.
    pub(crate) fn deliver_range_ask(
        &mut self,
        ask: &CommitAsk,
        out: &mut VecDeque<Sent>,
    ) -> Result<Delivery, AllocError>
        ensures reply { IfOk result (λ delivery. reply_to self.old (Act.deliver (frames.RangeAsk ask.now)) ≡ delivery_reply delivery) }
        ensures ok { OnOk result (self.new ≡ after self.old (Act.deliver (frames.RangeAsk ask.now))) }
        ensures sent { OnOk result (out.new.items ≡ out.old.items ++ sent_by self.old (Act.deliver (frames.RangeAsk ask.now))) }
        ensures err { OnErr result (self.new ≡ self.old) }
        ensures unsent { OnErr result (out.new.items ≡ out.old.items) }
    {
        if !self.is_asked(ask) {
            return Ok(Delivery::Ignored);
        }
        let alloc = self.table.registry().allocator();
        let dues = answer_commits(alloc, &self.own, ask.node(), ask.proc(), ask.level())?;
        hand_out(alloc, &self.own, &mut self.marks, Some(ask), dues, out)?;
        Ok(Delivery::Taken)
    }

    /// Takes another node's request for the commits of an own process after those that it knows. It sends the existing ones, or else keeps
    /// the request for the next commit.
    pub(crate) fn deliver_direct_ask(
        &mut self,
        ask: &CommitAsk,
        out: &mut VecDeque<Sent>,
    ) -> Result<Delivery, AllocError>
        ensures reply { IfOk result (λ delivery. reply_to self.old (Act.deliver (frames.DirectAsk ask.now)) ≡ delivery_reply delivery) }
        ensures ok { OnOk result (self.new ≡ after self.old (Act.deliver (frames.DirectAsk ask.now))) }
        ensures sent { OnOk result (out.new.items ≡ out.old.items ++ sent_by self.old (Act.deliver (frames.DirectAsk ask.now))) }
        ensures err { OnErr result (self.new ≡ self.old) }
        ensures unsent { OnErr result (out.new.items ≡ out.old.items) }
    {
        if !self.is_asked(ask) {
            return Ok(Delivery::Ignored);
        }
        let alloc = self.table.registry().allocator();
        let dues = answer_commits(alloc, &self.own, ask.node(), ask.proc(), ask.level())?;
        let handed = hand_out(alloc, &self.own, &mut self.marks, Some(ask), dues, out)?;
        if ask.level() < self.own.level(ask.proc()) {
            return Ok(Delivery::Taken);
        }
        if let Err(AllocError) = self.held.hold(ask.node(), ask.proc(), ask.level()) {
            rollback(&mut self.marks, out, handed);
            return Err(AllocError);
        }
        Ok(Delivery::Taken)
    }

    /// Takes another node's request anew for the commits of an own process after those that it knows, and replies with the existing ones,
    /// possibly with an empty piece.
    pub(crate) fn deliver_refresh_ask(
        &mut self,
        ask: &RefreshAsk,
        out: &mut VecDeque<Sent>,
    ) -> Result<Delivery, AllocError>
        ensures reply { IfOk result (λ delivery. reply_to self.old (Act.deliver (frames.RefreshAsk ask.now)) ≡ delivery_reply delivery) }
        ensures ok { OnOk result (self.new ≡ after self.old (Act.deliver (frames.RefreshAsk ask.now))) }
        ensures sent { OnOk result (out.new.items ≡ out.old.items ++ sent_by self.old (Act.deliver (frames.RefreshAsk ask.now))) }
        ensures err { OnErr result (self.new ≡ self.old) }
        ensures unsent { OnErr result (out.new.items ≡ out.old.items) }
    {
        if !self.is_asked(ask.ask()) {
            return Ok(Delivery::Ignored);
        }
        let alloc = self.table.registry().allocator();
        let dues = reply_due(alloc, &self.own, ask)?;
        hand_out(
            alloc,
            &self.own,
            &mut self.marks,
            Some(ask.ask()),
            dues,
            out,
        )?;
        Ok(Delivery::Taken)
    }

    /// Takes the reply of a process's home with the commits after the known ones. It answers the get that asked for it, other waiting gets
    /// of the process's keys, and fences that waited for it. If gets of its keys still wait, the node asks for more.
    pub(crate) fn deliver_refresh_reply(
        &mut self,
        reply: &RefreshReply,
        out: &mut VecDeque<Sent>,
    ) -> Result<Delivery, AllocError>
        ensures reply { IfOk result (λ delivery. reply_to self.old (Act.deliver (frames.RefreshReply reply.now)) ≡ delivery_reply delivery) }
        ensures ok { OnOk result (self.new ≡ after self.old (Act.deliver (frames.RefreshReply reply.now))) }
        ensures sent { OnOk result (out.new.items ≡ out.old.items ++ sent_by self.old (Act.deliver (frames.RefreshReply reply.now))) }
        ensures err { OnErr result (self.new ≡ self.old) }
        ensures unsent { OnErr result (out.new.items ≡ out.old.items) }
    {
        if !self.is_replied(reply) {
            return Ok(Delivery::Ignored);
        }
        let told = reply.copy()?.into_piece();
        let answers = self.answers_by(reply, told.as_ref())?;
        let dues = self.asks_by(reply, told.as_ref())?;
        let alloc = self.table.registry().allocator();
        let handed = hand_out(alloc, &self.own, &mut self.marks, None, dues, out)?;
        if let Err(AllocError) = absorb_told(&mut self.board, told.as_ref()) {
            rollback(&mut self.marks, out, handed);
            return Err(AllocError);
        }
        self.calls.answer(answers);
        let _ = self.held.answered(reply.request(), reply.proc());
        Ok(Delivery::Taken)
    }
}

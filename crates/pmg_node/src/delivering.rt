//! The delivery of a frame of another node.
ghost use Rattle.std.specs.Prelude.{◌≡◌, ◌++◌, IfOk, OnOk, OnErr};
ghost use Rattle.pmg_node_model.specs.Acts.{Act};
ghost use Rattle.pmg_node.specs.Replies.{delivery_reply};
ghost use Rattle.pmg_node.specs.Servers.{reply_to, sent_by, after};

use crate::asked::Delivery;
use crate::server::Server;
use pmg_frame::Frame;
use pmg_node_model::Sent;
use std::alloc::AllocError;
use std::collections::VecDeque;

impl Server {
    /// Takes a frame of another node, or ignores it if it does not concern this one, and appends the frames that go out to the list. If an
    /// allocation fails, nothing changes.
    pub fn deliver(
        &mut self,
        frame: &Frame,
        out: &mut VecDeque<Sent>,
    ) -> Result<Delivery, AllocError>
        ensures reply { IfOk result (λ delivery. reply_to self.old (Act.deliver frame.now) ≡ delivery_reply delivery) }
        ensures ok { OnOk result (self.new ≡ after self.old (Act.deliver frame.now)) }
        ensures sent { OnOk result (out.new.items ≡ out.old.items ++ sent_by self.old (Act.deliver frame.now)) }
        ensures err { OnErr result (self.new ≡ self.old) }
        ensures unsent { OnErr result (out.new.items ≡ out.old.items) }
    {
        match frame {
            Frame::Piece(piece) => self.deliver_piece(piece, out),
            Frame::Header(header) => self.deliver_header(header, out),
            Frame::FenceAsk(ask) => self.deliver_fence_ask(ask, out),
            Frame::RangeAsk(ask) => self.deliver_range_ask(ask, out),
            Frame::DirectAsk(ask) => self.deliver_direct_ask(ask, out),
            Frame::RefreshAsk(ask) => self.deliver_refresh_ask(ask, out),
            Frame::RefreshReply(reply) => self.deliver_refresh_reply(reply, out),
        }
    }
}

//! The outcome of a delivered frame, and the requests for commits that concern a node.
ghost use Rattle.std.specs.Prelude.{◌≡◌, ◌&&◌, ◌==◌};
ghost use Rattle.pmg_jobinfo.specs.Jobs.{home_of};
ghost use Rattle.pmg_node_model.specs.Acts.{is_known, is_peer};

use crate::causes::is_member;
use crate::server::Server;
use pmg_frame::CommitAsk;
use pmg_value::{NodeId, Proc};

/// The outcome of a delivered frame.
#[derive(Clone, Copy, PartialEq, Eq)]
pub enum Delivery {
    /// The node takes the frame.
    Taken,
    /// The frame does not concern the node, and changes nothing.
    Ignored,
}

impl Server {
    /// Returns whether the node is another node of the group.
    pub(crate) fn is_peer(&self, node: NodeId) -> bool
        ensures { result ≡ is_peer self.now.jobs self.now.id node }
    {
        self.table.registry().has_node(node) && !(node == self.id)
    }

    /// Returns whether the process is a process of the group, or represents its host.
    pub(crate) fn is_known(&self, proc: &Proc) -> bool
        ensures { result ≡ is_known self.now.jobs proc.now }
    {
        is_member(self.table.registry(), proc) || proc.is_host()
    }

    /// Returns whether another node asks for commits of a process at home at this node.
    pub(crate) fn is_asked(&self, ask: &CommitAsk) -> bool
        ensures { result ≡ (is_peer self.now.jobs self.now.id ask.now.node && is_known self.now.jobs ask.now.proc && (home_of self.now.jobs ask.now.proc == self.now.id)) }
    {
        self.is_peer(ask.node())
            && self.is_known(ask.proc())
            && self.table.registry().is_home(self.id, ask.proc())
    }
}

//! The headers of fences, and the requests for headers, that a node takes.
ghost use Rattle.std.specs.Prelude.{◌≡◌};
ghost use Rattle.pmg_frame.specs.declared.frame.Frame.TheVariants as frames;
ghost use Rattle.pmg_jobinfo.specs.Jobs.{is_member};
ghost use Rattle.std.specs.List.{list_all};
ghost use Rattle.pmg_frame.specs.Fences.{participants_of};
ghost use Rattle.pmg_node_model.specs.Acts.{is_concerned, is_complete, is_taken};

use crate::causes::is_member;
use crate::server::Server;
use pmg_frame::{FenceAsk, FenceName, Header};
use pmg_jobinfo::Registry;
use pmg_node_parts::takes_part;

/// Returns whether each participant of the fence is a process of the group.
fn are_members(registry: &Registry, name: &FenceName) -> bool
    ensures { result ≡ list_all (is_member registry.now) (participants_of name.now) }
{
    for proc in name.signature().participants() {
        if !is_member(registry, proc) {
            return false;
        }
    }
    true
}

/// Returns whether the header lists exactly its node's participants, in their order.
fn is_complete(registry: &Registry, header: &Header) -> bool
    ensures { result ≡ is_complete registry.now header.now }
{
    let locals = header.locals();
    let mut count = 0;
    for proc in header.name().signature().participants() {
        if !registry.is_home(header.node(), proc) {
            continue;
        }
        if count == locals.len() {
            return false;
        }
        if !locals[count].proc.cmp(proc).is_eq() {
            return false;
        }
        count += 1;
    }
    count == locals.len()
}

impl Server {
    /// Returns whether the node has a participant in the fence, and each participant is of the group.
    fn is_concerned(&self, name: &FenceName) -> bool
        ensures { result ≡ is_concerned self.now.jobs self.now.id name.now }
    {
        let registry = self.table.registry();
        are_members(registry, name) && takes_part(registry, name, self.id)
    }

    /// Returns whether the header comes from another node, is of a fence that concerns this node and is not forgotten, and lists exactly
    /// its node's participants.
    #[tactic(auto, unfolding(pmg_node_model::specs::Acts::is_taken))]
    pub(crate) fn is_told(&self, header: &Header) -> bool
        ensures { result ≡ is_taken self.now.jobs self.now.id self.now.holding.table (frames.Header header.now) }
    {
        self.is_peer(header.node())
            && self.is_concerned(header.name())
            && is_complete(self.table.registry(), header)
            && !self.table.is_old(header.name())
    }

    /// Returns whether the request comes from another node, and is for a header of a fence that concerns this node and is not forgotten.
    #[tactic(auto, unfolding(pmg_node_model::specs::Acts::is_taken))]
    pub(crate) fn is_asked_for(&self, ask: &FenceAsk) -> bool
        ensures { result ≡ is_taken self.now.jobs self.now.id self.now.holding.table (frames.FenceAsk ask.now) }
    {
        self.is_peer(ask.node()) && self.is_concerned(ask.name()) && !self.table.is_old(ask.name())
    }
}

//! The queries of a node to its table.
ghost use Rattle.std.specs.Prelude.{◌≡◌, ◌==◌, IfOk, is_some};
ghost use Rattle.std.specs.FinMap as finite;
ghost use Rattle.std.specs.List.{list_any};
ghost use Rattle.std.specs.Option.{option_map};
ghost use Rattle.pmg_frame.specs.Fences.{header};
ghost use Rattle.pmg_jobinfo.specs.Jobs.{home_of};
ghost use Rattle.pmg_fence.specs.Tables.{has_name, header_at, told_of};
ghost use Rattle.pmg_fence.specs.Changes.{present};
ghost use Rattle.pmg_fence.specs.Kept.{known_fence};

use super::Table;
use crate::entry::Entry;
use crate::fence::Fence;
use pmg_frame::{FenceName, Header};
use pmg_value::{NodeId, Proc};
use std::alloc::AllocError;

/// Returns whether the header of the node of that index is known.
fn has_told(fence: Option<&Fence>, node: u32) -> bool
    ensures { result ≡ is_some (finite.get (known_fence (option_map (λ f. f.now) fence.entry)).headers node) }
{
    match fence {
        Some(fence) => fence.has_header(node),
        None => false,
    }
}

impl Table {
    /// Returns whether the table has the fence's name.
    pub fn has_name(&self, name: &FenceName) -> bool
        ensures { result ≡ has_name self.now.fences name.now }
    {
        self.fence(name.signature(), name.instance()).is_some()
    }

    /// Returns the node's own header of a fence in the table, as soon as it exists. The result takes memory in proportion to its lines and
    /// to its name.
    pub fn own_header(&self, name: &FenceName) -> Result<Option<Header>, AllocError>
        ensures { IfOk result (λ o. o ≡ option_map (header self.now.node name.now)
            (present self.now.jobs self.now.node self.now.fences name.now)) }
    {
        if !self.has_name(name) {
            return Ok(None);
        }
        let signature = name.signature();
        match self.owns.get(signature) {
            Some(own) => self.header_with(own, signature, name.instance(), None),
            None => Ok(None),
        }
    }

    /// Returns whether one of the processes is at home at the node.
    fn has_own(&self, procs: &[Proc]) -> bool
        ensures { result ≡ list_any (λ p. home_of self.now.jobs p == self.now.node) procs.now }
    {
        procs.iter().any(|proc| self.is_own(proc))
    }

    /// Returns whether the node's header of the fence is known: the own header as soon as it exists, another node's header as soon as it
    /// has come.
    pub fn has_header(&self, name: &FenceName, node: NodeId) -> bool
        ensures { result ≡ is_some (header_at self.now.jobs self.now.node self.now.fences name.now node) }
    {
        let signature = name.signature();
        let fence = self.fence(signature, name.instance());
        let whole = self.is_whole(signature, fence);
        if node.index() != self.node.index() {
            return has_told(fence, node.index());
        }
        if !self.has_own(signature.participants()) {
            return false;
        }
        whole
    }

    /// Returns the entry of the process in the header of its home, if this header is known and lists the process.
    pub fn told_of(&self, name: &FenceName, proc: &Proc) -> Option<Entry>
        ensures { result ≡ told_of self.now.jobs self.now.node self.now.fences name.now proc.now }
    {
        let signature = name.signature();
        if self.is_own(proc) && !signature.contains(proc) {
            return None;
        }
        let fence = self.fence(signature, name.instance());
        let whole = self.is_whole(signature, fence);
        self.standing_in(fence, whole, proc)
    }
}

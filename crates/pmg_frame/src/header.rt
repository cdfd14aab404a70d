ghost use Rattle.std.specs.Prelude.{◌≡◌, ◌≤◌, length, IsTrue, IfOk, Ok, Err, if◌then◌else◌};
ghost use Rattle.std.specs.List.{list_all};
ghost use Rattle.pmg_value.specs.Lists.{is_chain};
ghost use Rattle.pmg_value.specs.declared.refusal.Refusal.TheVariants as refusals;
ghost use Rattle.pmg_frame.specs.Fences.{header, is_local_rising, is_listed, is_header};
ghost use Rattle.pmg_frame.specs.declared.signature.TheConstants.{MAX_PARTICIPANTS};

use crate::fence_name::FenceName;
use crate::local::Local;
use pmg_commit::MAX_COMMIT;
use pmg_value::{Copied, NodeId, Refusal, copy_all};
use std::alloc::AllocError;
use std::marker::Model;

/// A fence header: the state of each of a node's own participants in a fence (PMIx Standard 5.0, PMIx_Fence). It fits into a frame.
pub struct Header {
    node: NodeId,
    name: FenceName,
    locals: Vec<Local>,
}

impl Drop for Header {
    fn drop(self) {
        let Self { node, name, locals } = self;
    }
}

impl Model for Header {
    ghost use Rattle.pmg_frame.specs.Fences as fences;

    ghost Value = { fences.Header };

    ghost coded = { fences.coded_header };

    ghost use Rattle.std.specs.Prelude.{IsTrue};

    ghost view = { λ a. fences.header a.node a.name a.locals.items };

    ghost invariant = { λ a. IsTrue (fences.is_header (fences.header a.node a.name a.locals.items)) };
}

/// Returns whether the next participant is a greater process.
fn is_before(local: &Local, next: &Local) -> bool
    ensures { result ≡ is_local_rising local.now next.now }
{
    local.proc < next.proc
}

/// Returns whether the processes rise strictly.
fn are_rising(locals: &[Local]) -> bool
    ensures { result ≡ is_chain is_local_rising locals.now }
{
    for i in 1..locals.len() {
        if !is_before(&locals[i - 1], &locals[i]) {
            return false;
        }
    }
    true
}

/// Returns whether the process is a participant, and a frame can hold its level.
fn is_one_of(name: &FenceName, local: &Local) -> bool
    ensures { result ≡ is_listed name.now local.now }
{
    name.signature().contains(&local.proc) && local.level <= MAX_COMMIT
}

/// Returns whether each process is a participant, and a frame can hold each level.
fn are_listed(name: &FenceName, locals: &[Local]) -> bool
    ensures { result ≡ list_all (is_listed name.now) locals.now }
{
    for local in locals {
        if !is_one_of(name, local) {
            return false;
        }
    }
    true
}

/// Returns whether a frame can hold the header.
#[tactic(auto, unfolding(crate::specs::Fences::is_header))]
fn can_be_framed(node: NodeId, name: &FenceName, locals: &[Local]) -> bool
    ensures { result ≡ is_header (header node name.now locals.now) }
{
    let some = 0 < locals.len() && locals.len() <= name.signature().participants().len();
    some && are_rising(locals) && are_listed(name, locals)
}

impl Header {
    /// Returns the header of that node for that fence. Errors: `BadParam` if no frame can hold it: it lists no process or more than the
    /// participants, the processes do not rise strictly, one is not a participant, or a level goes past 4294967295.
    pub fn new(node: NodeId, name: FenceName, locals: Vec<Local>) -> Result<Header, Refusal>
        ensures { result ≡ (if is_header (header node name locals.items) then Ok (header node name locals.items) else Err refusals.BadParam) }
    {
        if !can_be_framed(node, &name, &locals) {
            return Err(Refusal::BadParam);
        }
        Ok(Header::from_checked(node, name, locals))
    }

    /// Returns a header that a frame can hold, as was judged before.
    pub fn from_checked(node: NodeId, name: FenceName, locals: Vec<Local>) -> Header
        requires { IsTrue (is_header (header node name locals.items)) }
        ensures { result ≡ header node name locals.items }
    {
        Header { node, name, locals }
    }

    /// Returns the node that sends the header.
    pub fn node(&self) -> NodeId
        ensures { result ≡ self.now.node }
    {
        self.node
    }

    /// Returns the fence's name.
    pub fn name(&self) -> &FenceName
        ensures { result.now ≡ self.now.name }
    {
        &self.name
    }

    /// Returns the states of its participants, in their order.
    pub fn locals(&self) -> &[Local]
        ensures value { result.now ≡ self.now.locals }
        ensures header { IsTrue (is_header self.now) }
        ensures few { length result.now ≤ MAX_PARTICIPANTS }
    {
        // No effect at run time: the proof reads here how many participants there are.
        let _participants = self.name.signature().participants();
        &self.locals
    }

    /// Returns a copy, equal to this header.
    pub fn copy(&self) -> Result<Header, AllocError>
        ensures { IfOk result (λ h. h ≡ self.now) }
    {
        let (name, locals) = (self.name.copy()?, copy_all(&self.locals)?);
        Ok(Header::from_checked(self.node, name, locals))
    }
}

impl Copied for Header {
    fn copy(&self) -> Result<Header, AllocError> {
        Header::copy(self)
    }
}

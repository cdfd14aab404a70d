//! Reads refresh asks and their replies.
ghost use Rattle.std.specs.Prelude.{◌≡◌, ◌+◌, ◌≤◌, length, IsTrue};
ghost use Rattle.pmg_wire.specs.Reading.{Reads};
ghost use Rattle.pmg_frame.specs.Refreshing.{is_request};
ghost use Rattle.pmg_frame.specs.RefreshReading.{read_request, read_asker, read_refresh_ask, read_refresh_reply, read_refresh};
ghost use Rattle.pmg_value.specs.declared.process.TheConstants.{MAX_NODE};
ghost use Rattle.pmg_frame.specs.declared.frame.TheConstants.{MAX_BODY_SIZE};

use crate::asks::CommitAsk;
use crate::fence_reading::{get_level, get_node};
use crate::frame::Frame;
use crate::piece_reading::get_told;
use crate::refreshes::{RefreshAsk, RefreshReply};
use pmg_value::{Cause, NodeId, Refusal};
use pmg_wire::{Admits, Cursor, get_flag, get_proc};
use std::alloc::Global;

#[tactic(auto, unfolding(crate::specs::RefreshReading::read_request))]
fn get_request(at: &mut Cursor<'_>) -> Result<u64, Refusal>
    ensures { Reads (λ n. n) result at.new (read_request at.old) }
{
    let start = at.offset();
    let request = at.get_u64()?;
    if request == 0 {
        return Err(Refusal::bad_frame(start, Cause::Number));
    }
    Ok(request)
}

// Reads the node that asks, the number of its request, and whether this is the reply.
#[tactic(auto, unfolding(crate::specs::RefreshReading::read_asker))]
fn get_asker(at: &mut Cursor<'_>) -> Result<(NodeId, u64, bool), Refusal>
    ensures { Reads (λ t. (t.0, (t.1, t.2))) result at.new (read_asker at.old) }
{
    let node = get_node(at)?;
    let request = get_request(at)?;
    let role = get_flag(at)?;
    Ok((node, request, role))
}

#[tactic(auto, unfolding(crate::specs::RefreshReading::read_refresh_ask))]
fn get_refresh_ask(
    alloc: Global,
    node: NodeId,
    request: u64,
    at: &mut Cursor<'_>,
) -> Result<RefreshAsk, Refusal>
    requires { IsTrue (is_request request) }
    ensures { Reads (λ a. a) result at.new (read_refresh_ask node request at.old) }
{
    // No effect at run time: the proof reads here that what is left are bytes.
    let _start = at.offset();
    let proc = get_proc(alloc, Admits::ClientsAndHost, at)?;
    let level = get_level(at)?;
    let ask = CommitAsk::from_checked(node, proc, level);
    Ok(RefreshAsk::from_checked(request, ask))
}

#[tactic(auto, unfolding(crate::specs::RefreshReading::read_refresh_reply))]
fn get_refresh_reply(
    alloc: Global,
    node: NodeId,
    request: u64,
    at: &mut Cursor<'_>,
) -> Result<RefreshReply, Refusal>
    requires bound { node ≤ MAX_NODE }
    requires number { IsTrue (is_request request) }
    requires small { length at.old.rest + 13 ≤ MAX_BODY_SIZE }
    ensures { Reads (λ r. r) result at.new (read_refresh_reply node request at.old) }
{
    // No effect at run time: the proof reads here that what is left are bytes.
    let _start = at.offset();
    let (proc, from, to, entries) = get_told(alloc, true, at)?;
    Ok(RefreshReply::from_checked(node, request, proc, from, to, entries))
}

/// Reads the body of a refresh ask or of a reply, in at most as many bytes as a body may have.
#[tactic(auto, unfolding(crate::specs::RefreshReading::read_refresh))]
pub fn get_refresh(alloc: Global, at: &mut Cursor<'_>) -> Result<Frame, Refusal>
    requires { length at.old.rest ≤ MAX_BODY_SIZE }
    ensures { Reads (λ f. f) result at.new (read_refresh at.old) }
{
    // No effect at run time: the proof reads here that what is left are bytes.
    let _start = at.offset();
    let (node, request, is_reply) = get_asker(at)?;
    if is_reply {
        Ok(Frame::RefreshReply(get_refresh_reply(alloc, node, request, at)?))
    } else {
        Ok(Frame::RefreshAsk(get_refresh_ask(alloc, node, request, at)?))
    }
}

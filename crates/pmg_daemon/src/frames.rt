//! Bytes of other nodes, and bytes for them.
ghost use Rattle.std.specs.Prelude.{◌≡◌, slice_get};
ghost use Rattle.pmg_daemon.specs.Frames.{DeliversFrom, FeedsFrom, TakesNext, TellsFaultFrom, delivered_code, done_code, no_node_code};

use crate::codes::{DONE, IDLE, NO_MEMORY, answered_code, refusal_code};
use crate::daemon::Daemon;
use crate::filling::fill;
use pmg_node::Reply;
use pmg_value::Refusal;

/// Returns the code of a call without a result.
fn done_code(answer: Result<(), Refusal>) -> u32
    ensures { result ≡ done_code answer }
{
    match answer {
        Ok(()) => DONE,
        Err(refusal) => refusal_code(&refusal),
    }
}

/// Returns the code of the delivery of the next frame, if one waited.
fn delivered_code(reply: &Option<Reply>) -> u32
    ensures { result ≡ delivered_code reply.now }
{
    match reply {
        Some(reply) => answered_code(reply),
        None => IDLE,
    }
}

/// Returns the code of a call about a missing node.
fn no_node_code() -> u32
    ensures { result ≡ no_node_code }
{
    refusal_code(&Refusal::BadParam)
}

impl Daemon {
    /// Takes the next bytes of the node of that index, in any pieces (`Inbox::feed`). A refusal changes nothing. Errors: `BadParam` if
    /// there is no such node; `Closed` after a fault; `Busy` if earlier frames still wait; `TooMany` if an offset would pass
    /// 18446744073709551615; `NoMemory`.
    pub fn feed(&mut self, from: u32, bytes: &[u8]) -> u32
        ensures { FeedsFrom (slice_get self.old.inboxes.items from) self.old from bytes.now result self.new }
    {
        match self.inboxes.get_mut(from as usize) {
            Some(inbox) => done_code(inbox.feed(bytes)),
            None => no_node_code(),
        }
    }

    /// Delivers the first waiting frame from the node of that index: done if it is taken, or ignored; idle if no frame waits. Errors:
    /// `BadParam` if there is no such node; `NoMemory`, which changes nothing.
    pub fn deliver(&mut self, from: u32) -> u32
        ensures { DeliversFrom (slice_get self.old.inboxes.items from) self.old from result self.new }
    {
        let Some(inbox) = self.inboxes.get_mut(from as usize) else {
            return no_node_code();
        };
        match self.link.deliver_next(inbox) {
            Ok(reply) => delivered_code(&reply),
            Err(_) => NO_MEMORY,
        }
    }

    /// Takes the first waiting frame: it writes the frame's bytes into the buffer, and sets the receiver's index. Idle if no frame waits.
    /// If the buffer is too small, or an allocation fails, the frame continues to wait.
    pub fn next(&mut self, to: &mut u32, buffer: &mut [u8], len: &mut usize) -> u32
        ensures { TakesNext (slice_get self.old.link.waiting 0) self.old to.old buffer.old len.old result self.new to.new buffer.new len.new }
    {
        let Some(sent) = self.link.front() else {
            return IDLE;
        };
        let node = sent.to.index();
        let code = match sent.frame.encode(self.alloc) {
            Ok(bytes) => fill(&bytes, buffer, len),
            Err(_) => NO_MEMORY,
        };
        if code == DONE {
            *to = node;
            let _ = self.link.outbox();
        }
        code
    }

    /// Returns the fault in the bytes of the node of that index: its offset, and its cause's name. Idle if they have no fault. Errors:
    /// `BadParam` if there is no such node.
    pub fn fault(&self, from: u32, offset: &mut u64, buffer: &mut [u8], len: &mut usize) -> u32
        ensures { TellsFaultFrom (slice_get self.now.inboxes.items from) offset.old buffer.old len.old result offset.new buffer.new len.new }
    {
        let Some(inbox) = self.inboxes.get(from as usize) else {
            return no_node_code();
        };
        match inbox.fault() {
            Some(fault) => {
                *offset = fault.offset;
                fill(fault.cause.name().as_bytes(), buffer, len)
            }
            None => IDLE,
        }
    }
}

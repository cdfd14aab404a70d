//! The codes that calls return: 0 to 15 for an answer, 16 plus the refusal's number for a refusal.
ghost use Rattle.std.specs.Prelude.{◌≡◌, ◌+◌};
ghost use Rattle.pmg_value.specs.Refusals.{number_of};
ghost use Rattle.pmg_node.specs.Acting.{reply_as};
ghost use Rattle.pmg_node.specs.Replies.{status_in};
ghost use Rattle.pmg_node.specs.Servers.{reply_in};
ghost use Rattle.pmg_daemon.specs.Codes.{number_or, refusal_coded, refusal_named, reply_code, status_number};
ghost use Rattle.pmg_daemon.specs.Daemons.{FillsIfTold};

use crate::filling::fill;
use pmg_node::{Reply, Status};
use pmg_value::{Cause, Refusal};

/// It is done.
pub const DONE: u32 = 0;

/// It waits.
pub const WAITS: u32 = 1;

/// There is nothing to do, or to return.
pub const IDLE: u32 = 2;

/// The frame does not concern the node.
pub const IGNORED: u32 = 3;

/// The least code of a refusal, to which its number is added.
pub const REFUSED: u32 = 16;

/// An allocation failed; nothing changed.
pub const NO_MEMORY: u32 = 16;

/// The buffer is too small; nothing changed.
pub const TOO_SMALL: u32 = 254;

/// The handle holds no node.
pub const WRONG_HANDLE: u32 = 255;

/// Returns the code of a refusal.
pub fn refusal_code(refusal: &Refusal) -> u32
    ensures { result ≡ REFUSED + number_of refusal.now }
{
    REFUSED + refusal.number() as u32
}

/// Returns the code of a reply that refuses nothing.
#[tactic(auto, unfolding(crate::specs::Codes::reply_code))]
pub(crate) fn answered_code(reply: &Reply) -> u32
    ensures { result ≡ reply_code (reply_as reply.now) }
{
    match reply {
        Reply::Idle => IDLE,
        Reply::Waiting | Reply::Parked => WAITS,
        Reply::Ignored => IGNORED,
        Reply::Done
        | Reply::Committed(_)
        | Reply::Entered(_)
        | Reply::Released(..)
        | Reply::Found(_)
        | Reply::Taken
        | Reply::Ended(_)
        | Reply::Defined(_) => DONE,
    }
}

/// Returns the code of an answer.
#[tactic(auto, unfolding(crate::specs::Codes::reply_code))]
pub(crate) fn answer_code(answer: &Result<Reply, Refusal>) -> u32
    ensures { result ≡ reply_code (reply_in reply_as answer.now) }
{
    match answer {
        Ok(reply) => answered_code(reply),
        Err(refusal) => refusal_code(refusal),
    }
}

/// Returns the number in the reply, or the old one.
#[tactic(auto, unfolding(crate::specs::Codes::number_or))]
pub(crate) fn number_or(old: u64, reply: &Reply) -> u64
    ensures { result ≡ number_or old (reply_as reply.now) }
{
    match reply {
        Reply::Committed(number)
        | Reply::Entered(number)
        | Reply::Released(number, _)
        | Reply::Ended(number)
        | Reply::Defined(number) => *number,
        Reply::Done
        | Reply::Idle
        | Reply::Waiting
        | Reply::Found(_)
        | Reply::Parked
        | Reply::Taken
        | Reply::Ignored => old,
    }
}

/// Returns the number of a process's status.
pub(crate) fn status_number(status: Status) -> u32
    ensures { result ≡ status_number (status_in status) }
{
    match status {
        Status::Stranger => 0,
        Status::Idle => 1,
        Status::InFence => 2,
        Status::Released => 3,
        Status::Parked => 4,
        Status::Answered => 5,
        Status::Ended => 6,
    }
}

/// Returns the refusal of that code, if the code belongs to a refusal. The refusal of bytes that are no frame has its fault at their
/// start.
fn refusal_coded(code: u32) -> Option<Refusal>
    ensures { result ≡ refusal_coded code }
{
    match code {
        16 => Some(Refusal::NoMemory),
        17 => Some(Refusal::BadParam),
        18 => Some(Refusal::NotFound),
        19 => Some(Refusal::OutsideScope),
        20 => Some(Refusal::UnknownNamespace),
        21 => Some(Refusal::NotMine),
        22 => Some(Refusal::Busy),
        23 => Some(Refusal::Terminated),
        24 => Some(Refusal::NotAParticipant),
        25 => Some(Refusal::TooMany),
        26 => Some(Refusal::bad_frame(0, Cause::Version)),
        27 => Some(Refusal::Exists),
        28 => Some(Refusal::Collision),
        29 => Some(Refusal::Stale),
        30 => Some(Refusal::Unordered),
        31 => Some(Refusal::Closed),
        _ => None,
    }
}

/// Writes the name of the refusal of that code into the buffer, as "NotFound". Idle if the code belongs to no refusal.
pub fn refusal_text(code: u32, buffer: &mut [u8], len: &mut usize) -> u32
    ensures { FillsIfTold (refusal_named code) buffer.old len.old result buffer.new len.new }
{
    match refusal_coded(code) {
        Some(refusal) => fill(refusal.name().as_bytes(), buffer, len),
        None => IDLE,
    }
}

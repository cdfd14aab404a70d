//! The equality of two acts, and of two answers.
ghost use Rattle.std.specs.Prelude.{◌≡◌, ◌↔◌, IsTrue};
ghost use Rattle.pmg_node.specs.Acting.{act_of, reply_as, request_of};
ghost use Rattle.pmg_node.specs.Servers.{reply_in};
ghost use Rattle.pmg_audit.specs.Sameness.{are_same_procs, is_same_flag, is_same_refusal, is_same_reply, is_same_request};

use pmg_node::{Act, Reply, Request};
use pmg_value::{Proc, Refusal};

/// Returns whether the flags are equal.
fn is_same_flag(flag: bool, other: bool) -> bool
    ensures { result ≡ is_same_flag flag other }
{
    if flag { other } else { !other }
}

/// Returns whether the lists are equal.
fn are_same_procs(procs: &[Proc], others: &[Proc]) -> bool
    ensures { result ≡ are_same_procs procs.now others.now }
{
    if procs.len() != others.len() {
        return false;
    }
    for i in 0..procs.len() {
        if procs[i] != others[i] {
            return false;
        }
    }
    true
}

/// Returns whether the requests are equal.
#[tactic(auto, unfolding(crate::specs::Sameness::is_same_request))]
fn is_same_request(request: &Request, other: &Request) -> bool
    ensures { result ≡ is_same_request (request_of request.now) (request_of other.now) }
{
    match request {
        Request::Enter(proc, list, collect) => match other {
            Request::Enter(other, others, flag) => {
                *proc == *other && are_same_procs(list, others) && is_same_flag(*collect, *flag)
            }
            _ => false,
        },
        Request::Leave(proc) => match other {
            Request::Leave(other) => *proc == *other,
            _ => false,
        },
        Request::Ask(mode, proc, target, key) => match other {
            Request::Ask(how, other, whose, name) => {
                *proc == *other && *target == *whose && *key == *name && *mode == *how
            }
            _ => false,
        },
        Request::Take(proc) => match other {
            Request::Take(other) => *proc == *other,
            _ => false,
        },
        Request::Terminate(proc) => match other {
            Request::Terminate(other) => *proc == *other,
            _ => false,
        },
        Request::Define(name, list) => match other {
            Request::Define(other, others) => *name == *other && are_same_procs(list, others),
            _ => false,
        },
        Request::Delete(name) => match other {
            Request::Delete(other) => *name == *other,
            _ => false,
        },
        Request::Nudge => match other {
            Request::Nudge => true,
            _ => false,
        },
    }
}

/// Returns whether the acts are equal.
pub(crate) fn is_same_act(act: &Act, other: &Act) -> bool
    ensures { IsTrue result ↔ (act_of act.now ≡ act_of other.now) }
{
    match act {
        Act::Request(request) => match other {
            Act::Request(other) => is_same_request(request, other),
            _ => false,
        },
        Act::Commit(proc, batch) => match other {
            Act::Commit(other, sealed) => *proc == *other && batch.is_same(sealed),
            _ => false,
        },
        Act::Deliver(frame) => match other {
            Act::Deliver(other) => frame.is_same(other),
            _ => false,
        },
    }
}

/// Returns whether the refusals are equal.
#[tactic(auto, unfolding(crate::specs::Sameness::is_same_refusal))]
fn is_same_refusal(refusal: &Refusal, other: &Refusal) -> bool
    ensures { result ≡ is_same_refusal refusal.now other.now }
{
    match refusal {
        Refusal::BadFrame(fault) => match other {
            Refusal::BadFrame(other) => {
                fault.offset == other.offset && fault.cause == other.cause
            }
            _ => false,
        },
        _ => refusal.number() == other.number(),
    }
}

/// Returns whether the replies are equal.
#[tactic(auto, unfolding(crate::specs::Sameness::is_same_reply))]
fn is_same_reply(reply: &Reply, other: &Reply) -> bool
    ensures { result ≡ is_same_reply (reply_as reply.now) (reply_as other.now) }
{
    match (reply, other) {
        (Reply::Done, Reply::Done) => true,
        (Reply::Committed(number), Reply::Committed(other)) => *number == *other,
        (Reply::Entered(number), Reply::Entered(other)) => *number == *other,
        (Reply::Idle, Reply::Idle) => true,
        (Reply::Waiting, Reply::Waiting) => true,
        (Reply::Released(number, gone), Reply::Released(other, others)) => {
            *number == *other && are_same_procs(gone, others)
        }
        (Reply::Found(value), Reply::Found(other)) => value.cmp(other).is_eq(),
        (Reply::Parked, Reply::Parked) => true,
        (Reply::Taken, Reply::Taken) => true,
        (Reply::Ignored, Reply::Ignored) => true,
        (Reply::Ended(number), Reply::Ended(other)) => *number == *other,
        (Reply::Defined(number), Reply::Defined(other)) => *number == *other,
        _ => false,
    }
}

/// Returns whether the answers are equal.
pub(crate) fn is_same_answer(
    answer: &Result<Reply, Refusal>,
    other: &Result<Reply, Refusal>,
) -> bool
    ensures { IsTrue result ↔ (reply_in reply_as answer.now ≡ reply_in reply_as other.now) }
{
    match answer {
        Ok(reply) => match other {
            Ok(other) => is_same_reply(reply, other),
            Err(_) => false,
        },
        Err(refusal) => match other {
            Ok(_) => false,
            Err(other) => is_same_refusal(refusal, other),
        },
    }
}

//! The results of calls, from the replies of the node.
ghost use Rattle.std.specs.Prelude.{IfOk};
ghost use Rattle.pmg_node_model.specs.Acts.{Reply as ModelReply};
ghost use Rattle.pmg_node.specs.Acting.{reply_as};
ghost use Rattle.pmg_node.specs.Kinds.{IsAsked, IsCommitted, IsDefined, IsDelivery, IsDone, IsEnded, IsEntered, IsRelease, IsTaking};
ghost use Rattle.pmg_node.specs.Replies.{asked_reply, delivery_reply, release_reply, taking_reply};
ghost use Rattle.pmg_desk.specs.Answered.{SameReplies};

use pmg_node::{Asked, Delivery, Release, Reply, Taking};
use pmg_value::Refusal;

/// Returns the number of a commit, or the refusal.
pub(crate) fn committed_by(answer: Result<Reply, Refusal>) -> Result<u64, Refusal>
    requires { IfOk answer (λ r. IsCommitted (reply_as r)) }
    ensures { SameReplies ModelReply.committed reply_as result answer }
{
    match &answer {
        Ok(Reply::Committed(number)) => Ok(*number),
        Ok(_) => unreachable!(),
        Err(refusal) => Err(*refusal),
    }
}

/// Returns the instance of an entered fence, or the refusal.
pub(crate) fn entered_by(answer: Result<Reply, Refusal>) -> Result<u64, Refusal>
    requires { IfOk answer (λ r. IsEntered (reply_as r)) }
    ensures { SameReplies ModelReply.entered reply_as result answer }
{
    match &answer {
        Ok(Reply::Entered(instance)) => Ok(*instance),
        Ok(_) => unreachable!(),
        Err(refusal) => Err(*refusal),
    }
}

/// Returns the number of the last commit of an ended process, or the refusal.
pub(crate) fn ended_by(answer: Result<Reply, Refusal>) -> Result<u64, Refusal>
    requires { IfOk answer (λ r. IsEnded (reply_as r)) }
    ensures { SameReplies ModelReply.ended reply_as result answer }
{
    match &answer {
        Ok(Reply::Ended(number)) => Ok(*number),
        Ok(_) => unreachable!(),
        Err(refusal) => Err(*refusal),
    }
}

/// Returns the number of a change of the process sets, or the refusal.
pub(crate) fn defined_by(answer: Result<Reply, Refusal>) -> Result<u64, Refusal>
    requires { IfOk answer (λ r. IsDefined (reply_as r)) }
    ensures { SameReplies ModelReply.defined reply_as result answer }
{
    match &answer {
        Ok(Reply::Defined(number)) => Ok(*number),
        Ok(_) => unreachable!(),
        Err(refusal) => Err(*refusal),
    }
}

/// Returns the release of a process that leaves a fence, or the refusal.
pub(crate) fn release_by(answer: Result<Reply, Refusal>) -> Result<Release, Refusal>
    requires { IfOk answer (λ r. IsRelease (reply_as r)) }
    ensures { SameReplies release_reply reply_as result answer }
{
    match answer {
        Ok(reply) => match reply.into_release() {
            Some(told) => Ok(told),
            None => unreachable!(),
        },
        Err(refusal) => Err(refusal),
    }
}

/// Returns the answer to a process that asks for a key, or the refusal.
pub(crate) fn asked_by(answer: Result<Reply, Refusal>) -> Result<Asked, Refusal>
    requires { IfOk answer (λ r. IsAsked (reply_as r)) }
    ensures { SameReplies asked_reply reply_as result answer }
{
    match answer {
        Ok(reply) => match reply.into_asked() {
            Some(told) => Ok(told),
            None => unreachable!(),
        },
        Err(refusal) => Err(refusal),
    }
}

/// Returns the answer to a process that takes its answer, or the refusal.
pub(crate) fn taking_by(answer: Result<Reply, Refusal>) -> Result<Taking, Refusal>
    requires { IfOk answer (λ r. IsTaking (reply_as r)) }
    ensures { SameReplies taking_reply reply_as result answer }
{
    match answer {
        Ok(reply) => match reply.into_taking() {
            Some(told) => Ok(told),
            None => unreachable!(),
        },
        Err(refusal) => Err(refusal),
    }
}

/// Returns the result of a frame's delivery, or the refusal.
pub(crate) fn delivery_by(answer: Result<Reply, Refusal>) -> Result<Delivery, Refusal>
    requires { IfOk answer (λ r. IsDelivery (reply_as r)) }
    ensures { SameReplies delivery_reply reply_as result answer }
{
    match &answer {
        Ok(Reply::Taken) => Ok(Delivery::Taken),
        Ok(Reply::Ignored) => Ok(Delivery::Ignored),
        Ok(_) => unreachable!(),
        Err(refusal) => Err(*refusal),
    }
}

/// Returns that the nudge is done, or the refusal.
pub(crate) fn nudged_by(answer: Result<Reply, Refusal>) -> Result<(), Refusal>
    requires { IfOk answer (λ r. IsDone (reply_as r)) }
    ensures { SameReplies (λ _. ModelReply.done) reply_as result answer }
{
    match &answer {
        Ok(Reply::Done) => Ok(()),
        Ok(_) => unreachable!(),
        Err(refusal) => Err(*refusal),
    }
}

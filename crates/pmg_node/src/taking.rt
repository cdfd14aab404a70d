//! A process takes the answer of the get that it waited for.
ghost use Rattle.std.specs.Prelude.{◌≡◌, []};
ghost use Rattle.std.specs.Option.{option_map};
ghost use Rattle.pmg_node_model.specs.Acts.{Act, Request, reply_of};
ghost use Rattle.pmg_node_parts.specs.Calls.{standing_of, found_outcome};
ghost use Rattle.pmg_node.specs.CallEnds.{told_at};
ghost use Rattle.pmg_node.specs.declared.call_ends.CallEnd.TheVariants as ends;
ghost use Rattle.pmg_node.specs.Replies.{taking_reply, pending_reply};
ghost use Rattle.pmg_node.specs.Servers.{reply_in, reply_to, sent_by, after};

use crate::call_ends::{CallEnd, CallStand};
use crate::server::Server;
use pmg_node_parts::{Call, Found};
use pmg_value::{Proc, Refusal, Value};

/// The answer to a process that takes an answer (PMIx Standard 5.0, PMIx_Get).
#[derive(Drop)]
pub enum Taking {
    /// The process waits for no get.
    Idle,
    /// The process's get is not answered yet.
    Waiting,
    /// The value.
    Found(Value),
}

/// Returns the answer to the process of the call, unless its get is answered.
pub(crate) fn pending(call: Option<&Call>) -> Option<CallStand>
    ensures { option_map (told_at ends.Take) result ≡ pending_reply (option_map (λ c. standing_of c.now) call.entry) }
{
    match call {
        Some(Call::Answered(..)) => None,
        Some(Call::Parked(..)) => Some(CallStand::Waiting),
        Some(Call::Refreshed(..)) => None,
        Some(Call::Refreshing(..)) => Some(CallStand::Waiting),
        Some(Call::InFence(_)) => Some(CallStand::Idle),
        Some(Call::Released(..)) => Some(CallStand::Idle),
        None => Some(CallStand::Idle),
    }
}

/// Returns the answer to the process whose get has this outcome.
fn to_taking(found: Found) -> Result<Taking, Refusal>
    ensures { reply_in taking_reply result ≡ reply_of (found_outcome found) }
{
    match found {
        Found::Value(value) => Ok(Taking::Found(value)),
        Found::NotFound => Err(Refusal::NotFound),
        Found::OutsideScope => Err(Refusal::OutsideScope),
    }
}

/// Returns the answer to the process, by the state of its call.
fn taking_of(stand: CallStand) -> Result<Taking, Refusal>
    ensures { reply_in taking_reply result ≡ told_at ends.Take stand }
{
    match stand {
        CallStand::Idle => Ok(Taking::Idle),
        CallStand::Waiting => Ok(Taking::Waiting),
        CallStand::Over(call) => match call.into_found() {
            Some(found) => to_taking(found),
            None => Ok(Taking::Idle),
        },
    }
}

impl Server {
    /// Takes the answer of the get that the process waited for, and returns the value (PMIx Standard 5.0, PMIx_Get). Before there is an
    /// answer the process waits, and nothing changes; a process that waits for no get is idle. Sends nothing, and takes no memory. Errors:
    /// `NotFound`; `OutsideScope` if there is a value that its scope keeps from the process; `BadParam` if the process is not in its
    /// registered namespace, or its namespace begins with `pmix`; `UnknownNamespace`; `NotMine` if it is at home at another node;
    /// `Terminated`.
    pub fn take_answer(&mut self, proc: &Proc) -> Result<Taking, Refusal>
        ensures reply { reply_in taking_reply result ≡ reply_to self.old (Act.request (Request.take proc.now)) }
        ensures done { self.new ≡ after self.old (Act.request (Request.take proc.now)) }
        ensures silent { sent_by self.old (Act.request (Request.take proc.now)) ≡ [] }
    {
        taking_of(self.end_call(proc, CallEnd::Take)?)
    }
}

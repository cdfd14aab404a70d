//! The end of a process's call: it leaves the fence that released it, or takes the answer of its get.
ghost use Rattle.std.specs.Prelude.{◌≡◌, []};
ghost use Rattle.std.specs.Option.{option_map};
ghost use Rattle.pmg_node_model.specs.Acts.{Act};
ghost use Rattle.pmg_node_parts.specs.Calls.{standing_of};
ghost use Rattle.pmg_node.specs.CallEnds.{ending_request, over_reply, standing_reply, told_at};
ghost use Rattle.pmg_node.specs.Servers.{reply_in, reply_to, sent_by, after};

use crate::leaving::stays;
use crate::server::Server;
use crate::taking::pending;
use pmg_node_parts::Call;
use pmg_value::{Proc, Refusal};

/// The way in which a process ends its call.
#[derive(Clone, Copy)]
pub(crate) enum CallEnd {
    /// The process leaves the fence that released it (PMIx Standard 5.0, PMIx_Fence).
    Leave,
    /// The process takes the answer of its get (PMIx Standard 5.0, PMIx_Get).
    Take,
}

/// The state of a process's call, for that way to end it.
#[derive(Drop)]
pub(crate) enum CallStand {
    /// The process is not in a call that ends in this way.
    Idle,
    /// The call is not over yet.
    Waiting,
    /// The call was over, and the process is not in a call any more.
    Over(Call),
}

/// Returns the reply to the process of the call, unless the call is over.
fn stand(call: Option<&Call>, end: CallEnd) -> Option<CallStand>
    ensures { option_map (told_at end) result ≡ standing_reply end (option_map (λ c. standing_of c.now) call.entry) }
{
    match end {
        CallEnd::Leave => stays(call),
        CallEnd::Take => pending(call),
    }
}

/// Returns the reply to the process whose call was over.
fn over(call: Option<Call>, end: CallEnd) -> CallStand
    ensures { told_at end result ≡ over_reply end (option_map standing_of call) }
{
    match call {
        Some(call) => CallStand::Over(call),
        None => CallStand::Idle,
    }
}

impl Server {
    /// Ends the process's call if it is over; else nothing changes. Sends nothing. Errors: the errors of `check_caller`.
    pub(crate) fn end_call(&mut self, proc: &Proc, end: CallEnd) -> Result<CallStand, Refusal>
        ensures reply { reply_in (told_at end) result ≡ reply_to self.old (Act.request (ending_request end proc.now)) }
        ensures done { self.new ≡ after self.old (Act.request (ending_request end proc.now)) }
        ensures silent { sent_by self.old (Act.request (ending_request end proc.now)) ≡ [] }
    {
        if let Err(refusal) = self.check_caller(proc) {
            return Err(refusal);
        }
        if let Some(told) = stand(self.calls.get(proc), end) {
            return Ok(told);
        }
        Ok(over(self.calls.remove(proc), end))
    }
}

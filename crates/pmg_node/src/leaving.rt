//! The leave of a process from the fence that released it.
ghost use Rattle.std.specs.Prelude.{◌≡◌, []};
ghost use Rattle.std.specs.Option.{option_map};
ghost use Rattle.pmg_node_model.specs.Acts.{Act, Request};
ghost use Rattle.pmg_node_parts.specs.Calls.{standing_of};
ghost use Rattle.pmg_node.specs.CallEnds.{told_at};
ghost use Rattle.pmg_node.specs.declared.call_ends.CallEnd.TheVariants as ends;
ghost use Rattle.pmg_node.specs.Replies.{release_reply, stays_reply};
ghost use Rattle.pmg_node.specs.Servers.{reply_in, reply_to, sent_by, after};

use crate::call_ends::{CallEnd, CallStand};
use crate::server::Server;
use pmg_node_parts::Call;
use pmg_value::{Proc, Refusal};

/// The answer to a process that leaves a fence (PMIx Standard 5.0, PMIx_Fence).
#[derive(Drop)]
pub enum Release {
    /// The process is in no fence.
    Idle,
    /// The process is not released yet.
    Waiting,
    /// The process is released from the instance of its fence; these participants were gone.
    Released(u64, Vec<Proc>),
}

/// Returns the answer to the process of the call, unless it is released.
pub(crate) fn stays(call: Option<&Call>) -> Option<CallStand>
    ensures { option_map (told_at ends.Leave) result ≡ stays_reply (option_map (λ c. standing_of c.now) call.entry) }
{
    match call {
        Some(Call::Released(..)) => None,
        Some(Call::InFence(_)) => Some(CallStand::Waiting),
        Some(Call::Parked(..)) => Some(CallStand::Idle),
        Some(Call::Answered(..)) => Some(CallStand::Idle),
        Some(Call::Refreshing(..)) => Some(CallStand::Idle),
        Some(Call::Refreshed(..)) => Some(CallStand::Idle),
        None => Some(CallStand::Idle),
    }
}

/// Returns the answer to the process, by the state of its call.
fn release_of(stand: CallStand) -> Release
    ensures { release_reply result ≡ told_at ends.Leave stand }
{
    match stand {
        CallStand::Idle => Release::Idle,
        CallStand::Waiting => Release::Waiting,
        CallStand::Over(call) => match call.into_released() {
            Some((name, gone)) => Release::Released(name.instance(), gone),
            None => Release::Idle,
        },
    }
}

impl Server {
    /// Lets the process leave the fence that released it, and returns the fence's instance and the gone participants (PMIx Standard 5.0,
    /// PMIx_Fence). Before its release the process waits, and nothing changes; a process in no fence is idle. Sends nothing, and takes no
    /// memory. Errors: `BadParam` if the process is not in its registered namespace, or its namespace begins with `pmix`;
    /// `UnknownNamespace`; `NotMine` if it is at home at another node; `Terminated`.
    pub fn take_release(&mut self, proc: &Proc) -> Result<Release, Refusal>
        ensures reply { reply_in release_reply result ≡ reply_to self.old (Act.request (Request.leave proc.now)) }
        ensures done { self.new ≡ after self.old (Act.request (Request.leave proc.now)) }
        ensures silent { sent_by self.old (Act.request (Request.leave proc.now)) ≡ [] }
    {
        Ok(release_of(self.end_call(proc, CallEnd::Leave)?))
    }
}

//! The status of a process; a query of it changes nothing.
ghost use Rattle.std.specs.Prelude.{◌≡◌};
ghost use Rattle.std.specs.Option.{option_map};
ghost use Rattle.pmg_node_model.specs.Acts.{status_by, status_of};
ghost use Rattle.pmg_node_parts.specs.Calls.{standing_of};
ghost use Rattle.pmg_node.specs.Replies.{status_in};

use crate::causes::is_member;
use crate::server::Server;
use pmg_node_parts::Call;
use pmg_value::Proc;

/// The status of a process at a node.
#[derive(Clone, Copy, PartialEq, Eq)]
pub enum Status {
    /// The process is not at home at the node.
    Stranger,
    /// The process is in no call.
    Idle,
    /// The process is in a fence, and not released.
    InFence,
    /// The process is released from a fence, and has not left it.
    Released,
    /// The process's get waits.
    Parked,
    /// The process's get is answered, and the process has not taken the answer.
    Answered,
    /// The process has ended.
    Ended,
}

/// Returns the status of the process of the call.
fn status_by(call: Option<&Call>) -> Status
    ensures { status_in result ≡ status_by (option_map (λ c. standing_of c.now) call.entry) }
{
    match call {
        None => Status::Idle,
        Some(Call::InFence(_)) => Status::InFence,
        Some(Call::Released(..)) => Status::Released,
        Some(Call::Parked(..)) => Status::Parked,
        Some(Call::Answered(..)) => Status::Answered,
        Some(Call::Refreshing(..)) => Status::Parked,
        Some(Call::Refreshed(..)) => Status::Answered,
    }
}

impl Server {
    /// Returns the status of the process. It takes no memory.
    #[tactic(auto, unfolding(pmg_node_model::specs::Acts::status_of))]
    pub fn status(&self, proc: &Proc) -> Status
        ensures { status_in result ≡ status_of self.now.jobs self.now.id self.now.holding proc.now }
    {
        let registry = self.table.registry();
        if !is_member(registry, proc) || !registry.is_home(self.id, proc) {
            return Status::Stranger;
        }
        if self.own.has_ended(proc) {
            return Status::Ended;
        }
        status_by(self.calls.get(proc))
    }
}

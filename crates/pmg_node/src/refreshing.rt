//! The request anew for a key of a process of another node.
ghost use Rattle.std.specs.Prelude.{◌≡◌, ◌<◌, ◌++◌, suc, None, Ok, OnOk, OnErr};
ghost use Rattle.std.specs.FinMap as finite;
ghost use Rattle.pmg_value.specs.CheckOrder.{first_of};
ghost use Rattle.pmg_get.specs.Gets.{Outcome};
ghost use Rattle.pmg_get.specs.declared.view.Mode.TheVariants as modes;
ghost use Rattle.pmg_node_model.specs.Acts.{Act, Request, also, asks_anew, free_cause, target_cause, number_cause};
ghost use Rattle.pmg_node_parts.specs.Calls.{get_of};
ghost use Rattle.pmg_dmodex.specs.Refreshes.{requested};
ghost use Rattle.pmg_dmodex.specs.Requests.{with_anew};
ghost use Rattle.pmg_node_model.specs.Holdings.{CallState, answer_in};
ghost use Rattle.pmg_node.specs.Servers.{sent_by, after};

use crate::server::Server;
use pmg_dmodex::Pending;
use pmg_get::Mode;
use pmg_node_model::Sent;
use pmg_node_parts::{Call, Calls, hand_out, rollback};
use pmg_value::{Key, Proc, Refusal};
use std::alloc::AllocError;
use std::collections::VecDeque;

/// Makes the process's get wait for the reply to the node's next request, which is kept as the get's own. If an allocation fails, nothing
/// changes.
fn wait_anew(
    calls: &mut Calls,
    held: &mut Pending,
    proc: &Proc,
    target: &Proc,
    key: &Key,
) -> Result<(), AllocError>
    requires free { finite.get calls.old proc.now ≡ None }
    requires number { held.old.anew.last < 18446744073709551615 }
    ensures calls { OnOk result (calls.new ≡ finite.insert calls.old proc.now
        (CallState.refreshing (get_of target.now key.now) (suc held.old.anew.last))) }
    ensures held { OnOk result (held.new ≡ with_anew held.old (requested held.old.anew proc.now target.now)) }
    ensures calls_err { OnErr result (calls.new ≡ calls.old) }
    ensures held_err { OnErr result (held.new ≡ held.old) }
{
    let number = held.last_request() + 1;
    let asker = proc.copy()?;
    let call = Call::Refreshing(target.copy()?, key.copy()?, number);
    calls.put(asker, call)?;
    if let Err(_) = held.request(proc, target) {
        let _ = calls.remove(proc);
        return Err(AllocError);
    }
    Ok(())
}

impl Server {
    /// Returns whether the get asks the home of its target anew, and this home is another node.
    fn asks_anew(&self, target: &Proc, key: &Key, mode: Mode) -> bool
        ensures { result ≡ asks_anew self.now.jobs self.now.id (get_of target.now key.now) mode }
    {
        match mode {
            Mode::Wait => false,
            Mode::Now => false,
            Mode::Refresh => {
                !key.is_reserved() && !self.table.registry().is_home(self.id, target)
            }
        }
    }

    /// Checks that a number is left for the request, if the get sends one.
    pub(crate) fn check_number(&self, target: &Proc, key: &Key, mode: Mode) -> Result<(), Refusal>
        ensures { result ≡ first_of (number_cause self.now.jobs self.now.id self.now.holding (get_of target.now key.now) mode) tt }
    {
        if self.asks_anew(target, key, mode) && self.held.last_request() == u64::MAX {
            return Err(Refusal::TooMany);
        }
        Ok(())
    }

    /// Asks the target's home anew for the process's get, which waits for the reply.
    pub(crate) fn refresh(
        &mut self,
        proc: &Proc,
        target: &Proc,
        key: &Key,
        out: &mut VecDeque<Sent>,
    ) -> Result<(), AllocError>
        requires free { first_of (also (free_cause self.old.jobs self.old.id self.old.holding proc.now)
            (also (target_cause self.old.jobs proc.now (get_of target.now key.now))
            (number_cause self.old.jobs self.old.id self.old.holding (get_of target.now key.now) modes.Refresh))) (tt {0}) ≡ Ok tt }
        requires parks { answer_in self.old.jobs self.old.id self.old.holding (get_of target.now key.now) modes.Refresh ≡ Outcome.parks }
        ensures ok { OnOk result (self.new ≡ after self.old (Act.request (Request.ask proc.now (get_of target.now key.now) modes.Refresh))) }
        ensures sent { OnOk result (out.new.items ≡ out.old.items
            ++ sent_by self.old (Act.request (Request.ask proc.now (get_of target.now key.now) modes.Refresh))) }
        ensures err { OnErr result (self.new ≡ self.old) }
        ensures unsent { OnErr result (out.new.items ≡ out.old.items) }
    {
        let number = self.held.last_request() + 1;
        let mut dues = Vec::new(self.table.registry().allocator());
        self.ask_home_anew(target, number, &mut dues)?;
        let alloc = self.table.registry().allocator();
        let handed = hand_out(alloc, &self.own, &mut self.marks, None, dues, out)?;
        if let Err(AllocError) = wait_anew(&mut self.calls, &mut self.held, proc, target, key) {
            rollback(&mut self.marks, out, handed);
            return Err(AllocError);
        }
        Ok(())
    }
}

//! The request of a process for a key.
ghost use Rattle.std.specs.Prelude.{◌≡◌, ◌&&◌, ◌++◌, not, true, false, Ok, Err, OnOk, OnErr};
ghost use Rattle.pmg_value.specs.CheckOrder.{first_of};
ghost use Rattle.pmg_value.specs.Names.{is_reserved};
ghost use Rattle.pmg_value.specs.declared.refusal.Refusal.TheVariants as refusals;
ghost use Rattle.pmg_get.specs.Gets.{Outcome};
ghost use Rattle.pmg_get.specs.Views.{outcome_of};
ghost use Rattle.pmg_get.specs.declared.view.Mode.{Mode as AskedMode};
ghost use Rattle.pmg_get.specs.declared.view.Mode.TheVariants as modes;
ghost use Rattle.pmg_jobinfo.specs.Jobs.{home_of, is_registered};
ghost use Rattle.pmg_jobinfo.specs.Reserved.{is_general};
ghost use Rattle.pmg_node_model.specs.Acts.{Act, Request, also, free_cause, target_cause, number_cause, is_misnamed, reply_of};
ghost use Rattle.pmg_node_parts.specs.Calls.{get_of};
ghost use Rattle.pmg_node_model.specs.Holdings.{answer_in};
ghost use Rattle.pmg_node_model.specs.Kept.{IsSettled};
ghost use Rattle.pmg_node.specs.Replies.{asked_reply};
ghost use Rattle.pmg_node.specs.Servers.{reply_to, sent_by, after, Replies, IsAnswered};

use crate::causes::{Listing, is_bad_caller, look_up};
use crate::getting::is_bad_get;
use crate::server::Server;
use pmg_get::{Answer, Mode};
use pmg_node_model::Sent;
use pmg_node_parts::{Call, hand_out, rollback};
use pmg_value::{Key, NodeId, Proc, Refusal, Value};
use std::alloc::AllocError;
use std::collections::VecDeque;

/// The answer to a process that asks for a key (PMIx Standard 5.0, PMIx_Get).
#[derive(Drop)]
pub enum Asked {
    /// The value.
    Found(Value),
    /// Its get waits.
    Parked,
}

/// Returns the answer to a process whose get has this outcome.
fn to_asked(answer: Answer<'_>) -> Result<Asked, Refusal>
    ensures { Replies asked_reply result (reply_of (outcome_of answer.entry)) }
{
    match answer {
        Answer::Found(value) => Ok(Asked::Found(value.copy()?)),
        Answer::NotFound => Err(Refusal::NotFound),
        Answer::OutsideScope => Err(Refusal::OutsideScope),
        Answer::Park => Ok(Asked::Parked),
    }
}

impl Server {
    /// Checks the caller and the target, given the registry's facts about the target.
    fn check_target(
        &self,
        proc: &Proc,
        target: &Proc,
        key: &Key,
        listing: Listing,
    ) -> Result<(), Refusal>
        requires registered { listing.is_registered ≡ is_registered self.now.jobs target.now.nspace }
        requires misnamed { listing.is_misnamed ≡ is_misnamed self.now.jobs target.now }
        ensures value { result ≡ first_of (also (free_cause self.now.jobs self.now.id self.now.holding proc.now)
            (target_cause self.now.jobs proc.now (get_of target.now key.now))) tt }
        ensures settled { IsSettled self.now.jobs self.now.id self.now.holding }
    {
        let registry = self.table.registry();
        if is_bad_get(proc, target, key, listing.is_misnamed) {
            return Err(Refusal::BadParam);
        }
        if listing.is_registered {
            return self.check_free(proc);
        }
        if is_bad_caller(registry, proc) {
            return Err(Refusal::BadParam);
        }
        Err(Refusal::UnknownNamespace)
    }

    /// Checks a get: the caller, the target, and that a number is left if the node has to send a request.
    fn check_ask(
        &self,
        proc: &Proc,
        target: &Proc,
        key: &Key,
        mode: Mode,
        listing: Listing,
    ) -> Result<(), Refusal>
        requires registered { listing.is_registered ≡ is_registered self.now.jobs target.now.nspace }
        requires misnamed { listing.is_misnamed ≡ is_misnamed self.now.jobs target.now }
        ensures value { result ≡ first_of (also (free_cause self.now.jobs self.now.id self.now.holding proc.now)
            (also (target_cause self.now.jobs proc.now (get_of target.now key.now))
            (number_cause self.now.jobs self.now.id self.now.holding (get_of target.now key.now) mode))) tt }
        ensures settled { IsSettled self.now.jobs self.now.id self.now.holding }
    {
        if let Err(refusal) = self.check_target(proc, target, key, listing) {
            return Err(refusal);
        }
        self.check_number(target, key, mode)
    }

    /// Returns the registry's answer to a process that asks for a reserved key.
    fn tell_reserved(&self, target: &Proc, key: &Key) -> Result<Asked, Refusal>
        requires reserved { is_reserved key.now ≡ true }
        requires known { is_registered self.now.jobs target.now.nspace ≡ true }
        requires named { (not (is_general target.now) && is_misnamed self.now.jobs target.now) ≡ false }
        ensures { (mode : AskedMode) → Replies asked_reply result
            (reply_of (answer_in self.now.jobs self.now.id self.now.holding (get_of target.now key.now) mode)) }
    {
        match self.table.registry().reserved(self.id, target, key) {
            Ok(value) => Ok(Asked::Found(value)),
            Err(refusal) => Err(refusal),
        }
    }

    /// Returns the answer to a process that asks for a key of the target, given the target's home.
    fn tell(&self, target: &Proc, home: NodeId, key: &Key, mode: Mode) -> Result<Asked, Refusal>
        requires home { home ≡ home_of self.now.jobs target.now }
        requires known { is_registered self.now.jobs target.now.nspace ≡ true }
        requires named { is_reserved key.now ≡ true → (not (is_general target.now) && is_misnamed self.now.jobs target.now) ≡ false }
        ensures { Replies asked_reply result (reply_of (answer_in self.now.jobs self.now.id self.now.holding (get_of target.now key.now) mode)) }
    {
        if key.is_reserved() {
            return self.tell_reserved(target, key);
        }
        to_asked(self.answer(target, home, key, mode))
    }

    /// Parks the process's get, which finds nothing yet, and asks the target's home.
    fn park(
        &mut self,
        proc: &Proc,
        target: &Proc,
        key: &Key,
        out: &mut VecDeque<Sent>,
    ) -> Result<(), AllocError>
        requires free { first_of (also (free_cause self.old.jobs self.old.id self.old.holding proc.now)
            (also (target_cause self.old.jobs proc.now (get_of target.now key.now))
            (number_cause self.old.jobs self.old.id self.old.holding (get_of target.now key.now) modes.Wait))) (tt {0}) ≡ Ok tt }
        requires parks { answer_in self.old.jobs self.old.id self.old.holding (get_of target.now key.now) modes.Wait ≡ Outcome.parks }
        ensures ok { OnOk result (self.new ≡ after self.old (Act.request (Request.ask proc.now (get_of target.now key.now) modes.Wait))) }
        ensures sent { OnOk result (out.new.items ≡ out.old.items
            ++ sent_by self.old (Act.request (Request.ask proc.now (get_of target.now key.now) modes.Wait))) }
        ensures err { OnErr result (self.new ≡ self.old) }
        ensures unsent { OnErr result (out.new.items ≡ out.old.items) }
    {
        let asker = proc.copy()?;
        let call = Call::Parked(target.copy()?, key.copy()?);
        let mut dues = Vec::new(self.table.registry().allocator());
        self.ask_home(target, &mut dues)?;
        let alloc = self.table.registry().allocator();
        let handed = hand_out(alloc, &self.own, &mut self.marks, None, dues, out)?;
        if let Err(AllocError) = self.calls.put(asker, call) {
            rollback(&mut self.marks, out, handed);
            return Err(AllocError);
        }
        Ok(())
    }

    /// Makes the process's get wait, as its mode says.
    fn wait(
        &mut self,
        proc: &Proc,
        target: &Proc,
        key: &Key,
        mode: Mode,
        out: &mut VecDeque<Sent>,
    ) -> Result<(), AllocError>
        requires free { first_of (also (free_cause self.old.jobs self.old.id self.old.holding proc.now)
            (also (target_cause self.old.jobs proc.now (get_of target.now key.now))
            (number_cause self.old.jobs self.old.id self.old.holding (get_of target.now key.now) mode))) (tt {0}) ≡ Ok tt }
        requires parks { answer_in self.old.jobs self.old.id self.old.holding (get_of target.now key.now) mode ≡ Outcome.parks }
        ensures ok { OnOk result (self.new ≡ after self.old (Act.request (Request.ask proc.now (get_of target.now key.now) mode))) }
        ensures sent { OnOk result (out.new.items ≡ out.old.items
            ++ sent_by self.old (Act.request (Request.ask proc.now (get_of target.now key.now) mode))) }
        ensures err { OnErr result (self.new ≡ self.old) }
        ensures unsent { OnErr result (out.new.items ≡ out.old.items) }
    {
        match mode {
            Mode::Wait => self.park(proc, target, key, out),
            Mode::Now => self.park(proc, target, key, out),
            Mode::Refresh => self.refresh(proc, target, key, out),
        }
    }

    /// Asks for a key of the target (PMIx Standard 5.0, PMIx_Get): returns the value, or makes the process wait until there is an answer,
    /// unless the mode is not to wait. A get that asks anew, of a process at home at another node, waits for the reply of that node
    /// (PMIX_GET_REFRESH_CACHE). Errors: `BadParam` if a process is not in its registered namespace, or its namespace begins with `pmix`;
    /// `BadParam` if the key is not reserved, and the target is the caller itself or has no particular rank; `UnknownNamespace`; `NotMine`
    /// if the caller is at home at another node; `Terminated`; `Busy` if the caller is in a call; `NotFound` if there is no value, and the
    /// get does not wait for one; `OutsideScope` if there is a value that its scope keeps from the process; `TooMany` if the get asks anew,
    /// and the node has sent 18446744073709551615 requests; `NoMemory`.
    pub fn ask(
        &mut self,
        proc: &Proc,
        target: &Proc,
        key: &Key,
        mode: Mode,
        out: &mut VecDeque<Sent>,
    ) -> Result<Asked, Refusal>
        ensures reply { Replies asked_reply result (reply_to self.old (Act.request (Request.ask proc.now (get_of target.now key.now) mode))) }
        ensures done { IsAnswered result → self.new ≡ after self.old (Act.request (Request.ask proc.now (get_of target.now key.now) mode)) }
        ensures sent { IsAnswered result → out.new.items ≡ out.old.items
            ++ sent_by self.old (Act.request (Request.ask proc.now (get_of target.now key.now) mode)) }
        ensures memory { result ≡ Err refusals.NoMemory → self.new ≡ self.old }
        ensures unsent { result ≡ Err refusals.NoMemory → out.new.items ≡ out.old.items }
    {
        let listing = look_up(self.table.registry(), target);
        let home = listing.home;
        if let Err(refusal) = self.check_ask(proc, target, key, mode, listing) {
            return Err(refusal);
        }
        match self.tell(target, home, key, mode) {
            Err(refusal) => Err(refusal),
            Ok(Asked::Found(value)) => Ok(Asked::Found(value)),
            Ok(Asked::Parked) => {
                self.wait(proc, target, key, mode, out)?;
                Ok(Asked::Parked)
            }
        }
    }
}

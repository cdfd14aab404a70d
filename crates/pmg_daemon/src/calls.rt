//! The calls of processes, of bytes and numbers.
ghost use Rattle.std.specs.Prelude.{◌≡◌, Result};
ghost use Rattle.pmg_value.specs.declared.refusal.Refusal.{Refusal as RefusalOf};
ghost use Rattle.pmg_daemon.specs.Arguments.{
  ReadsArguments,
  commit_said,
  define_said,
  delete_said,
  end_said,
  enter_said,
  get_said,
  leave_said,
  nudge_said,
  put_said,
  take_said,
};
ghost use Rattle.pmg_daemon.specs.Calls.{ProcCall as CallModel, proc_call_of};
ghost use Rattle.pmg_daemon.specs.Daemons.{Makes, TakesList, TellsNumber};

use crate::call::{
    ProcCall, commit_said, define_said, delete_said, end_said, enter_said, get_said, leave_said,
    put_said, take_said,
};
use crate::codes::{NO_MEMORY, REFUSED, number_or};
use crate::daemon::Daemon;
use pmg_node::Request;
use pmg_value::Refusal;

impl Daemon {
    /// Sets the number to the number of the reply to a call with this code.
    fn tell(&self, code: u32, number: &mut u64)
        ensures { TellsNumber self.now code number.old number.new }
    {
        if code < REFUSED {
            *number = number_or(*number, &self.reply);
        }
    }

    /// Makes the call, and sets the number of its reply.
    fn call_for_number(&mut self, call: Result<ProcCall, Refusal>, number: &mut u64) -> u32
        ensures makes { (due : Result CallModel RefusalOf) → ReadsArguments proc_call_of call due
            → Makes due self.old result self.new }
        ensures number { TellsNumber self.new result number.old number.new }
        ensures list { self.new.list ≡ self.old.list }
    {
        let code = self.call(call);
        self.tell(code, number);
        code
    }

    /// Clears the list of processes after a call with this code, unless the code is NoMemory.
    fn take_list(&mut self, code: u32)
        ensures list { TakesList self.old code self.new }
        ensures link { self.new.link ≡ self.old.link }
        ensures inboxes { self.new.inboxes ≡ self.old.inboxes }
        ensures reply { self.new.reply ≡ self.old.reply }
    {
        if code != NO_MEMORY {
            self.list.clear();
        }
    }

    /// Puts the value of these canonical bytes under the key, for the process, with the scope of that number (PMIx Standard 5.0,
    /// PMIx_Put). Errors: `BadParam` if a name, the scope or the key is invalid; `BadFrame` if the bytes are no value; the errors of
    /// `Link::put`; `NoMemory`.
    pub fn put(&mut self, nspace: &[u8], rank: u32, scope: u32, key: &[u8], value: &[u8]) -> u32
        ensures makes { Makes (put_said nspace.now rank scope key.now value.now) self.old result self.new }
        ensures list { self.new.list ≡ self.old.list }
    {
        self.call(put_said(self.alloc, nspace, rank, scope, key, value))
    }

    /// Commits the puts of the process; the number is the commit's (PMIx Standard 5.0, PMIx_Commit). Errors: `BadParam` if the name is
    /// invalid; the errors of `Link::commit`; `NoMemory`.
    pub fn commit(&mut self, nspace: &[u8], rank: u32, number: &mut u64) -> u32
        ensures makes { Makes (commit_said nspace.now rank) self.old result self.new }
        ensures number { TellsNumber self.new result number.old number.new }
        ensures list { self.new.list ≡ self.old.list }
    {
        self.call_for_number(commit_said(self.alloc, nspace, rank), number)
    }

    /// Enters the process into its next fence of the named processes, or, if the list is empty, of its whole namespace; the number is the
    /// instance (PMIx Standard 5.0, PMIx_Fence). Except after `NoMemory`, the list of named processes is empty then. Errors: `BadParam` if
    /// the name is invalid; the node's refusals of the entry; `NoMemory`.
    pub fn enter(&mut self, nspace: &[u8], rank: u32, collect: bool, number: &mut u64) -> u32
        ensures makes { Makes (enter_said nspace.now rank self.old.list.items collect) self.old result self.new }
        ensures number { TellsNumber self.new result number.old number.new }
        ensures list { TakesList self.old result self.new }
    {
        let call = enter_said(self.alloc, nspace, rank, &self.list, collect);
        let code = self.call(call);
        self.take_list(code);
        self.tell(code, number);
        code
    }

    /// Takes the process out of the fence that it is released from; the number is the instance, and `gone` gives the participants that
    /// were gone. It waits if it is not released yet. Errors: `BadParam` if the name is invalid; the node's refusals of the caller;
    /// `NoMemory`.
    pub fn leave(&mut self, nspace: &[u8], rank: u32, number: &mut u64) -> u32
        ensures makes { Makes (leave_said nspace.now rank) self.old result self.new }
        ensures number { TellsNumber self.new result number.old number.new }
        ensures list { self.new.list ≡ self.old.list }
    {
        self.call_for_number(leave_said(self.alloc, nspace, rank), number)
    }

    /// Gets a key of the target for the process (PMIx Standard 5.0, PMIx_Get): `value` gives the value; or the process waits. Mode 0
    /// waits, 1 looks only at the data of the node, 2 asks the target's node anew (PMIX_GET_REFRESH_CACHE). Errors:
    /// `BadParam` if a name, the key or the mode is invalid; `NotFound`; `OutsideScope`; the node's refusals of the get; `NoMemory`.
    pub fn get(
        &mut self,
        nspace: &[u8],
        rank: u32,
        target: &[u8],
        target_rank: u32,
        key: &[u8],
        mode: u32,
    ) -> u32
        ensures makes { Makes (get_said nspace.now rank target.now target_rank key.now mode) self.old result self.new }
        ensures list { self.new.list ≡ self.old.list }
    {
        self.call(get_said(self.alloc, nspace, rank, target, target_rank, key, mode))
    }

    /// Takes the answer to the get for which the process waited: `value` gives the value. It waits if there is no answer yet. Errors:
    /// `BadParam` if the name is invalid; `NotFound` and `OutsideScope` as the answer; the node's refusals of the caller; `NoMemory`.
    pub fn take(&mut self, nspace: &[u8], rank: u32) -> u32
        ensures makes { Makes (take_said nspace.now rank) self.old result self.new }
        ensures list { self.new.list ≡ self.old.list }
    {
        self.call(take_said(self.alloc, nspace, rank))
    }

    /// Ends the process; the number is its last commit's (PMIx Standard 5.0, PMIx_Finalize). Errors: `BadParam` if the name is invalid;
    /// the node's refusals of the caller; `NoMemory`.
    pub fn end(&mut self, nspace: &[u8], rank: u32, number: &mut u64) -> u32
        ensures makes { Makes (end_said nspace.now rank) self.old result self.new }
        ensures number { TellsNumber self.new result number.old number.new }
        ensures list { self.new.list ≡ self.old.list }
    {
        self.call_for_number(end_said(self.alloc, nspace, rank), number)
    }

    /// Defines a set of the named processes, at node 0; the number is the number of the change of the sets. Except after `NoMemory`, the
    /// list of named processes is empty then. Errors: `BadParam` if the name is invalid; the node's refusals of the definition;
    /// `NoMemory`.
    pub fn define(&mut self, name: &[u8], number: &mut u64) -> u32
        ensures makes { Makes (define_said name.now self.old.list.items) self.old result self.new }
        ensures number { TellsNumber self.new result number.old number.new }
        ensures list { TakesList self.old result self.new }
    {
        let call = define_said(self.alloc, name, &self.list);
        let code = self.call(call);
        self.take_list(code);
        self.tell(code, number);
        code
    }

    /// Deletes the set of that name, at node 0; the number is the number of the change of the sets. Errors: `BadParam` if the name is
    /// invalid; the node's refusals of the deletion; `NoMemory`.
    pub fn delete(&mut self, name: &[u8], number: &mut u64) -> u32
        ensures makes { Makes (delete_said name.now) self.old result self.new }
        ensures number { TellsNumber self.new result number.old number.new }
        ensures list { self.new.list ≡ self.old.list }
    {
        self.call_for_number(delete_said(self.alloc, name), number)
    }

    /// Asks other nodes again for missing data. Errors: only `NoMemory`.
    pub fn nudge(&mut self) -> u32
        ensures makes { Makes nudge_said self.old result self.new }
        ensures list { self.new.list ≡ self.old.list }
    {
        self.call(Ok(ProcCall::Request(Request::Nudge)))
    }
}

//! The results of a daemon's calls beside codes and numbers: values, processes, sets, and the status of a process.
ghost use Rattle.std.specs.Prelude.{◌≡◌};
ghost use Rattle.pmg_node.specs.Acting.{reply_as};
ghost use Rattle.pmg_daemon.specs.Codes.{Fills};
ghost use Rattle.pmg_daemon.specs.Daemons.{FillsIfTold, TellsMembers, TellsProc, TellsStatus, gone_at, members_said, status_said, value_told};

use crate::call::{key_said, proc_said};
use crate::codes::{DONE, IDLE, NO_MEMORY, refusal_code, status_number};
use crate::daemon::Daemon;
use crate::filling::{fill, fill_value};
use pmg_node::Reply;
use pmg_value::{Proc, Value};

/// Writes the process's namespace into the buffer, and sets its rank.
fn fill_proc(proc: &Proc, buffer: &mut [u8], len: &mut usize, rank: &mut u32) -> u32
    ensures name { Fills proc.now.nspace buffer.old len.old result buffer.new len.new }
    ensures rank { rank.new ≡ proc.now.rank }
{
    *rank = proc.rank.number();
    fill(proc.nspace.as_bytes(), buffer, len)
}

impl Daemon {
    /// Writes the canonical bytes of the last reply's value into the buffer. Idle if the reply has no value.
    pub fn value(&self, buffer: &mut [u8], len: &mut usize) -> u32
        ensures { FillsIfTold (value_told (reply_as self.now.reply)) buffer.old len.old result buffer.new len.new }
    {
        match &self.reply {
            Reply::Found(value) => fill_value(self.alloc, value, buffer, len),
            _ => IDLE,
        }
    }

    /// Returns the participant of that index, from 0, among those that were gone from the fence of the last reply. Idle if there is no
    /// such participant.
    pub fn gone(&self, index: usize, buffer: &mut [u8], len: &mut usize, rank: &mut u32) -> u32
        ensures { TellsProc (gone_at (reply_as self.now.reply) index) buffer.old len.old rank.old result buffer.new len.new rank.new }
    {
        match &self.reply {
            Reply::Released(_, gone) => match gone.get(index) {
                Some(proc) => fill_proc(proc, buffer, len, rank),
                None => IDLE,
            },
            _ => IDLE,
        }
    }

    /// Writes the canonical bytes of an array into the buffer: the members of the process set of that name, as the node knows it (PMIx
    /// Standard 5.0, PMIX_QUERY_PSET_MEMBERSHIP). Errors: `BadParam` if the name is no key; the errors of `Server::set_members`;
    /// `NoMemory`.
    pub fn members(&self, name: &[u8], buffer: &mut [u8], len: &mut usize) -> u32
        ensures { TellsMembers (members_said self.now.link name.now) buffer.old len.old result buffer.new len.new }
    {
        let name = match key_said(self.alloc, name) {
            Ok(name) => name,
            Err(refusal) => return refusal_code(&refusal),
        };
        let members = match self.link.node().set_members(&name) {
            Ok(members) => members,
            Err(refusal) => return refusal_code(&refusal),
        };
        match members.copy() {
            Ok(members) => fill_value(self.alloc, &Value::Array(members), buffer, len),
            Err(_) => NO_MEMORY,
        }
    }

    /// Returns the status of the process at the node, by number. It is 0 if the process is not at home there, 1 in no call, 2 in a fence,
    /// and 3 if released from one. It is 4 if its get waits, 5 if its get is answered, and 6 if it has ended. Errors: `BadParam` if the
    /// name is invalid; `NoMemory`.
    pub fn status(&self, nspace: &[u8], rank: u32, status: &mut u32) -> u32
        ensures { TellsStatus (status_said self.now.link nspace.now rank) status.old result status.new }
    {
        match proc_said(self.alloc, nspace, rank) {
            Ok(proc) => {
                *status = status_number(self.link.node().status(&proc));
                DONE
            }
            Err(refusal) => refusal_code(&refusal),
        }
    }
}

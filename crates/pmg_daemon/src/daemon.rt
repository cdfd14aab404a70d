//! A node with all data that the program of a daemon needs.
ghost use Rattle.std.specs.Prelude.{◌≡◌, ◌≢◌, [], ◌∷◌, ◌++◌, length, true, Result, IfErr, IfOk, OnErr};
ghost use Rattle.pmg_value.specs.Lists.{Each};
ghost use Rattle.pmg_value.specs.declared.refusal.Refusal.{Refusal as RefusalOf};
ghost use Rattle.pmg_jobinfo.specs.Jobs.{is_node};
ghost use Rattle.pmg_node.specs.Acting.{reply_as};
ghost use Rattle.pmg_node.specs.Opening.{new_server};
ghost use Rattle.pmg_node.specs.Servers.{reply_in};
ghost use Rattle.pmg_node.specs.declared.act.Reply.TheVariants as replies;
ghost use Rattle.pmg_link.specs.Links.{new_link};
ghost use Rattle.pmg_daemon.specs.Arguments.{ReadsArguments};
ghost use Rattle.pmg_daemon.specs.Calls.{ProcCall as CallModel, proc_call_of};
ghost use Rattle.pmg_daemon.specs.Codes.{reply_code};
ghost use Rattle.pmg_daemon.specs.Daemons.{Made, Makes, Names};
ghost use Rattle.pmg_daemon.specs.Opening.{IsNewInbox, OpensNode, RefusesToOpen};

use crate::call::{ProcCall, proc_said};
use crate::codes::{DONE, NO_MEMORY, answer_code, refusal_code};
use pmg_grouptext::read_group;
use pmg_jobinfo::Registry;
use pmg_link::{Inbox, Link};
use pmg_node::{Reply, Server};
use pmg_value::{NodeId, Proc, Refusal};
use std::alloc::{AllocError, Global};

/// A node with the puts of its clients, its waiting frames, and the inbox of each other node. It also has the processes that are named for
/// the next call, and the reply of the last answered call.
pub struct Daemon {
    pub(crate) alloc: Global,
    pub(crate) link: Link,
    pub(crate) inboxes: Vec<Inbox>,
    pub(crate) list: Vec<Proc>,
    pub(crate) reply: Reply,
}

impl Drop for Daemon {
    fn drop(self) {
        let Self {
            alloc,
            link,
            inboxes,
            list,
            reply,
        } = self;
    }
}

/// Makes an empty inbox for each of so many nodes.
fn new_inboxes(alloc: Global, count: usize) -> Result<Vec<Inbox>, AllocError>
    ensures count { IfOk result (λ inboxes. length inboxes.items ≡ count) }
    ensures empty { IfOk result (λ inboxes. Each IsNewInbox inboxes.items) }
{
    let mut inboxes = Vec::new(alloc);
    for _ in 0..count {
        inboxes.push(Inbox::new(alloc))?;
    }
    Ok(inboxes)
}

impl Daemon {
    /// Makes a new node of the group, of that index.
    pub fn new(alloc: Global, id: NodeId, registry: Registry) -> Result<Daemon, AllocError>
        requires { is_node registry id ≡ true }
        ensures link { IfOk result (λ d. d.link ≡ new_link (new_server registry id)) }
        ensures inboxes { IfOk result (λ d. length d.inboxes.items ≡ length registry.nodes) }
        ensures empty { IfOk result (λ d. Each IsNewInbox d.inboxes.items) }
        ensures list { IfOk result (λ d. d.list.items ≡ []) }
        ensures reply { IfOk result (λ d. d.reply ≡ replies.Done) }
    {
        let inboxes = new_inboxes(alloc, registry.node_count())?;
        Ok(Daemon {
            alloc,
            link: Link::new(Server::new(id, registry)?),
            inboxes,
            list: Vec::new(alloc),
            reply: Reply::Done,
        })
    }

    /// Opens a new node, of that index, of the group that a text describes, as the first lines of a script do. Errors: the refusals of the
    /// text by `read_group`; `BadParam` if the group has no node of that index; `NoMemory`.
    pub fn open(alloc: Global, id: u32, group: &[u8]) -> Result<Daemon, Refusal>
        ensures opened { IfOk result (λ d. OpensNode id group.now d) }
        ensures refused { IfErr result (λ e. RefusesToOpen id group.now e) }
    {
        let registry = read_group(alloc, group)?;
        if id as usize >= registry.node_count() {
            return Err(Refusal::BadParam);
        }
        Ok(Daemon::new(alloc, NodeId::from_checked(id), registry)?)
    }

    /// Makes the call of its arguments.
    fn answer(&mut self, call: Result<ProcCall, Refusal>) -> Result<Reply, Refusal>
        ensures made { (due : Result CallModel RefusalOf) → ReadsArguments proc_call_of call due
            → Made due self.old.link result self.new.link }
        ensures inboxes { self.new.inboxes ≡ self.old.inboxes }
        ensures list { self.new.list ≡ self.old.list }
        ensures reply { self.new.reply ≡ self.old.reply }
    {
        match call {
            Ok(call) => call.make(&mut self.link),
            Err(refusal) => Err(refusal),
        }
    }

    /// Keeps the reply, and returns the code of the answer.
    fn keep(&mut self, answer: Result<Reply, Refusal>) -> u32
        ensures code { result ≡ reply_code (reply_in reply_as answer) }
        ensures ok { IfOk answer (λ r. self.new.reply ≡ r) }
        ensures err { OnErr answer (self.new.reply ≡ self.old.reply) }
        ensures link { self.new.link ≡ self.old.link }
        ensures inboxes { self.new.inboxes ≡ self.old.inboxes }
        ensures list { self.new.list ≡ self.old.list }
    {
        let code = answer_code(&answer);
        if let Ok(reply) = answer {
            self.reply = reply;
        }
        code
    }

    /// Makes the call of its arguments, and returns its code. If the call is answered, its reply is kept.
    pub(crate) fn call(&mut self, call: Result<ProcCall, Refusal>) -> u32
        ensures makes { (due : Result CallModel RefusalOf) → ReadsArguments proc_call_of call due → Makes due self.old result self.new }
        ensures list { self.new.list ≡ self.old.list }
    {
        let answer = self.answer(call);
        self.keep(answer)
    }

    /// Names a process, after the earlier ones, for the next entry of a fence or the next definition of a set.
    pub fn name(&mut self, nspace: &[u8], rank: u32) -> u32
        ensures { Names self.old nspace.now rank result self.new }
    {
        match proc_said(self.alloc, nspace, rank) {
            Ok(proc) => self.add(proc),
            Err(refusal) => refusal_code(&refusal),
        }
    }

    /// Names the process.
    fn add(&mut self, proc: Proc) -> u32
        ensures done { result ≡ DONE → self.new.list.items ≡ self.old.list.items ++ proc ∷ [] }
        ensures memory { result ≢ DONE → result ≡ NO_MEMORY }
        ensures kept { result ≢ DONE → self.new.list.items ≡ self.old.list.items }
        ensures link { self.new.link ≡ self.old.link }
        ensures inboxes { self.new.inboxes ≡ self.old.inboxes }
        ensures reply { self.new.reply ≡ self.old.reply }
    {
        match self.list.push(proc) {
            Ok(()) => DONE,
            Err(_) => NO_MEMORY,
        }
    }
}

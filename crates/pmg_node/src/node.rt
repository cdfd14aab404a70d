//! A node as the program that runs it holds it: the calls of its processes, the frames that it has to send, and what its last act
//! joined. `World`, `Desk` and `Link` keep frames in lists of their own, so they are built over `Server`.
ghost use Rattle.std.specs.Prelude.{◌≡◌, ◌∷◌, [], true, IfOk, IfSome, IsNone};
ghost use Rattle.std.specs.Option.{option_map};
ghost use Rattle.std.specs.Result.{result_map_both};
ghost use Rattle.pmg_value.specs.CheckOrder.{first_of};
ghost use Rattle.pmg_value.specs.Spelling.{spelling};
ghost use Rattle.pmg_value.specs.declared.value.Value.TheVariants as values;
ghost use Rattle.pmg_jobinfo.specs.Jobs.{is_node};
ghost use Rattle.pmg_node.specs.Acting.{act_of, commit_joins, joins_in, reply_as};
ghost use Rattle.pmg_node.specs.Joining.{no_joins};
ghost use Rattle.pmg_node.specs.Members.{known_members_cause, members_known};
ghost use Rattle.pmg_node.specs.Nodes.{new_node, Acts};
ghost use Rattle.pmg_node.specs.Opening.{new_server};
ghost use Rattle.pmg_node.specs.Replies.{asked_reply, delivery_reply, release_reply, status_in, taking_reply};
ghost use Rattle.pmg_node_model.specs.Acts.{status_of, Act as ModelAct, Reply as ModelReply, Request as ModelRequest};
ghost use Rattle.pmg_node_parts.specs.Calls.{get_of};

use crate::act::{Act, Joined, Reply};
use crate::acting::joined_by;
use crate::asked::Delivery;
use crate::committing::Committed;
use crate::leaving::Release;
use crate::parking::Asked;
use crate::server::Server;
use crate::status::Status;
use crate::taking::Taking;
use pmg_frame::Frame;
use pmg_get::Mode;
use pmg_jobinfo::Registry;
use pmg_node_model::Sent;
use pmg_scope::Batch;
use pmg_store::Board;
use pmg_value::{Array, Key, NodeId, Proc, Refusal, copy_queue};
use std::alloc::AllocError;
use std::collections::VecDeque;
use std::marker::Model;

/// A node of a group: one PMIx server with the frames that it has to send to other nodes (PMIx Standard 5.0, PMIx_server_init).
pub struct Node {
    server: Server,
    outbox: VecDeque<Sent>,
    joined: Joined,
}

impl Drop for Node {
    fn drop(self) {
        let Self {
            server,
            outbox,
            joined,
        } = self;
    }
}

impl Model for Node {
    ghost use Rattle.pmg_commit.specs.contracts.piece.Piece.{the_row as piece_row};
    ghost use Rattle.pmg_node_model.specs.contracts.sent.Sent.{the_row as sent_row};
    ghost use Rattle.pmg_node.specs.Acting.{joins_in};
    ghost use Rattle.pmg_node.specs.Nodes as nodes;

    ghost Value = { nodes.Node };

    ghost coded = { nodes.coded_node sent_row.coded piece_row.coded };

    ghost view = { λ a. record { server = a.server; outbox = a.outbox.items; joined = joins_in a.joined } };
}

impl Node {
    /// Returns the node of this index: none of its processes has called. It keeps the registry's allocator. Errors: `NoMemory`.
    pub fn new(id: NodeId, registry: Registry) -> Result<Node, AllocError>
        requires { is_node registry id ≡ true }
        ensures { IfOk result (λ node. node ≡ new_node (new_server registry id)) }
    {
        let alloc = registry.allocator();
        Ok(Node {
            server: Server::new(id, registry)?,
            outbox: VecDeque::new(alloc),
            joined: Joined::nothing(),
        })
    }

    /// Commits the process's batch, and returns the commit's number (PMIx Standard 5.0, PMIx_Commit). Errors: `BadParam` if the process
    /// is not one of its namespace, or the namespace begins with `pmix`; `UnknownNamespace`; `NotMine` if its home is another node;
    /// `Terminated`; `Busy` if it is in a call; `TooMany` if the commit would pass a limit; `NoMemory`.
    pub fn commit(&mut self, proc: &Proc, batch: &Batch) -> Result<u64, Refusal>
        ensures acts { Acts ModelReply.committed self.old (ModelAct.commit proc.now batch.now) result self.new }
    {
        self.joined = Joined::nothing();
        let committed = self.server.commit_joined(proc, batch, &mut self.outbox)?;
        Ok(self.keep(committed))
    }

    /// Enters the process into its next fence of these participants, and returns the instance (PMIx Standard 5.0, PMIx_Fence). An
    /// empty list names the whole namespace of the process. Errors: `BadParam` if the process or one in the list is not one of its
    /// namespace, or the namespace begins with `pmix`; `UnknownNamespace`; `NotMine`, `Terminated` and `Busy` as for `commit`;
    /// `NotAParticipant` if the list has not the process; `TooMany` past 4,096 participants or 4,294,967,295 entries; `NoMemory`.
    pub fn enter(&mut self, proc: &Proc, list: &[Proc], collect: bool) -> Result<u64, Refusal>
        ensures acts { Acts ModelReply.entered self.old (ModelAct.request (ModelRequest.enter proc.now list.now collect)) result self.new }
    {
        self.joined = Joined::nothing();
        self.server.enter(proc, list, collect, &mut self.outbox)
    }

    /// Lets the process leave the fence that it is released from, and returns the instance and the participants that were gone; or
    /// that the process waits still, or is in no fence. It takes no memory. Errors: `BadParam`, `UnknownNamespace`, `NotMine` and
    /// `Terminated`, as for `commit`.
    pub fn take_release(&mut self, proc: &Proc) -> Result<Release, Refusal>
        ensures acts { Acts release_reply self.old (ModelAct.request (ModelRequest.leave proc.now)) result self.new }
    {
        self.joined = Joined::nothing();
        self.server.take_release(proc)
    }

    /// Asks for a key of the target, and returns the value, or that the get waits (PMIx Standard 5.0, PMIx_Get). Errors: `BadParam`,
    /// `UnknownNamespace`, `NotMine`, `Terminated` and `Busy` as for `commit`, `BadParam` also for a key of the caller that is not
    /// reserved; `NotFound` if there is no value and the get does not wait; `OutsideScope` if the scope keeps the value from the
    /// process; `TooMany` past 2^64 - 1 refreshing gets; `NoMemory`.
    pub fn ask(
        &mut self,
        proc: &Proc,
        target: &Proc,
        key: &Key,
        mode: Mode,
    ) -> Result<Asked, Refusal>
        ensures acts { Acts asked_reply self.old (ModelAct.request (ModelRequest.ask proc.now (get_of target.now key.now) mode)) result self.new }
    {
        self.joined = Joined::nothing();
        self.server.ask(proc, target, key, mode, &mut self.outbox)
    }

    /// Returns the answer of the get that the process waited for; or that the get waits still, or that there is none. It takes no
    /// memory. Errors: `BadParam`, `UnknownNamespace`, `NotMine` and `Terminated`, as for `commit`; and those that answer the get,
    /// `NotFound` and `OutsideScope`.
    pub fn take_answer(&mut self, proc: &Proc) -> Result<Taking, Refusal>
        ensures acts { Acts taking_reply self.old (ModelAct.request (ModelRequest.take proc.now)) result self.new }
    {
        self.joined = Joined::nothing();
        self.server.take_answer(proc)
    }

    /// Takes a frame of another node, or ignores it where it does not concern this node. Errors: `NoMemory`.
    pub fn deliver(&mut self, frame: &Frame) -> Result<Delivery, Refusal>
        ensures acts { Acts delivery_reply self.old (ModelAct.deliver frame.now) result self.new }
    {
        self.joined = Joined::nothing();
        let joined = joined_by(frame)?;
        match self.server.deliver(frame, &mut self.outbox)? {
            Delivery::Taken => {
                self.joined = joined;
                Ok(Delivery::Taken)
            }
            Delivery::Ignored => Ok(Delivery::Ignored),
        }
    }

    /// Asks other nodes again for what is missing here (this project's call). Errors: `NoMemory`.
    pub fn nudge(&mut self) -> Result<(), Refusal>
        ensures acts { Acts (λ _. ModelReply.done) self.old (ModelAct.request ModelRequest.nudge) result self.new }
    {
        self.joined = Joined::nothing();
        Ok(self.server.nudge(&mut self.outbox)?)
    }

    /// Ends the process, and returns the number of its last commit (PMIx Standard 5.0, PMIx_Finalize). Errors: `BadParam`,
    /// `UnknownNamespace`, `NotMine` and `Terminated`, as for `commit`; `NoMemory`.
    pub fn terminate(&mut self, proc: &Proc) -> Result<u64, Refusal>
        ensures acts { Acts ModelReply.ended self.old (ModelAct.request (ModelRequest.terminate proc.now)) result self.new }
    {
        self.joined = Joined::nothing();
        let committed = self.server.terminate(proc, &mut self.outbox)?;
        Ok(self.keep(committed))
    }

    /// Defines a process set, and returns the number of the change (PMIx Standard 5.0, process sets). Errors: `BadParam` if the name
    /// begins with `pmix`, the list is empty, or one in it is not one of its namespace; `UnknownNamespace`; `NotMine` at a node other
    /// than 0; `Exists`; `TooMany` past 4,096 members or another limit of a set; `NoMemory`.
    pub fn define_set(&mut self, name: &Key, list: &[Proc]) -> Result<u64, Refusal>
        ensures acts { Acts ModelReply.defined self.old (ModelAct.request (ModelRequest.define name.now list.now)) result self.new }
    {
        self.joined = Joined::nothing();
        let committed = self.server.define_set(name, list, &mut self.outbox)?;
        Ok(self.keep(committed))
    }

    /// Deletes a process set, and returns the number of the change (PMIx Standard 5.0, process sets). Errors: `BadParam` if the name
    /// begins with `pmix`; `NotMine` at a node other than 0; `NotFound`; `TooMany` past 4,294,967,294 changes; `NoMemory`.
    pub fn delete_set(&mut self, name: &Key) -> Result<u64, Refusal>
        ensures acts { Acts ModelReply.defined self.old (ModelAct.request (ModelRequest.delete name.now)) result self.new }
    {
        self.joined = Joined::nothing();
        let committed = self.server.delete_set(name, &mut self.outbox)?;
        Ok(self.keep(committed))
    }

    /// Makes the act. Each call of a node is one act, and this call makes any of them. Errors: those of the act's call, which are of
    /// `BadParam`, `NotFound`, `OutsideScope`, `UnknownNamespace`, `NotMine`, `Busy`, `Terminated`, `NotAParticipant`, `TooMany`,
    /// `Exists` and `NoMemory`.
    pub fn act(&mut self, act: &Act) -> Result<Reply, Refusal>
        ensures acts { Acts reply_as self.old (act_of act.now) result self.new }
    {
        self.joined = Joined::nothing();
        let acted = self.server.act_into(act, &mut self.outbox)?;
        self.joined = acted.joined;
        Ok(acted.reply)
    }

    /// Takes the next frame out of those that the node has to send, with the node that it goes to. Frames come in the order in which
    /// the node sent them.
    pub fn outbox(&mut self) -> Option<Sent>
        ensures server { self.new.server ≡ self.old.server }
        ensures joined { self.new.joined ≡ self.old.joined }
        ensures some { IfSome result (λ sent. self.old.outbox ≡ sent ∷ self.new.outbox) }
        ensures none { IsNone result → self.old.outbox ≡ [] }
        ensures empty { IsNone result → self.new.outbox ≡ [] }
    {
        self.outbox.pop_front()
    }

    /// Returns the pieces that the last act joined into the node's stores, for reads from this node and from other nodes. Both are
    /// `None` after a refusal.
    pub fn joined(&self) -> &Joined
        ensures { joins_in result.now ≡ self.now.joined }
    {
        &self.joined
    }

    /// Returns what the node knows of all processes: for reads from this node, and from other nodes.
    pub fn board(&self) -> &Board
        ensures near { result.now.near ≡ self.now.server.holding.near }
        ensures far { result.now.far ≡ self.now.server.holding.far }
    {
        self.server.board()
    }

    /// Returns the members of the process set, as an array of processes (PMIx Standard 5.0, PMIX_QUERY_PSET_MEMBERSHIP). It takes no
    /// memory. Errors: `BadParam` if the name begins with `pmix`; `NotFound` if the node knows no set of that name.
    pub fn set_members(&self, name: &Key) -> Result<&Array, Refusal>
        ensures value { result_map_both (λ a. spelling (values.Array a.now)) (λ e. e) result
            ≡ first_of (known_members_cause self.now.server.holding.far name.now) (members_known self.now.server.holding.far name.now) }
        ensures kind { IfOk result (λ a. a.now.tag ≡ 16) }
    {
        self.server.set_members(name)
    }

    /// Returns how the process stands. It takes no memory.
    pub fn status(&self, proc: &Proc) -> Status
        ensures { status_in result ≡ status_of self.now.server.jobs self.now.server.id self.now.server.holding proc.now }
    {
        self.server.status(proc)
    }

    /// Returns a copy that means the same: what the last act joined is not copied. Errors: `NoMemory`.
    pub fn copy(&self) -> Result<Node, AllocError>
        ensures server { IfOk result (λ copy. copy.server ≡ self.now.server) }
        ensures outbox { IfOk result (λ copy. copy.outbox ≡ self.now.outbox) }
        ensures joined { IfOk result (λ copy. copy.joined ≡ no_joins) }
    {
        Ok(Node {
            server: self.server.copy()?,
            outbox: copy_queue(&self.outbox)?,
            joined: Joined::nothing(),
        })
    }

    /// Keeps what a commit joined, and returns its number.
    fn keep(&mut self, committed: Committed) -> u64
        ensures number { result ≡ committed.level }
        ensures joined { self.new.joined ≡ commit_joins committed }
        ensures server { self.new.server ≡ self.old.server }
        ensures outbox { self.new.outbox ≡ self.old.outbox }
    {
        self.joined = Joined {
            near: Some(committed.near),
            far: Some(committed.far),
        };
        committed.level
    }
}

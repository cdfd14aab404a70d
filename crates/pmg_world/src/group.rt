//! The nodes of a group with their clients: each event is one step of the model.
ghost use Rattle.std.specs.Prelude.{◌≡◌, ◌<◌, ◌++◌, ◌&&◌, true, false, length, Err, None, Option, Some, IfOk, slice_get, slice_index_or, slice_set};
ghost use Rattle.std.specs.Option.{option_map};
ghost use Rattle.pmg_value.specs.Spelling.{spelling};
ghost use Rattle.pmg_value.specs.declared.refusal.Refusal.TheVariants as refusals;
ghost use Rattle.pmg_jobinfo.specs.Jobs.{AreJobs, home_of};
ghost use Rattle.pmg_node_model.specs.Acts.{Act as ModelAct, Request as ModelRequest};
ghost use Rattle.pmg_node_parts.specs.Calls.{get_of};
ghost use Rattle.pmg_caches.specs.OwnKeys.{own_key};
ghost use Rattle.pmg_node.specs.Acting.{act_of, reply_as, request_of};
ghost use Rattle.pmg_node.specs.Servers.{Server, IsAnswered, RepliesAct, after, sent_by};
ghost use Rattle.pmg_world.specs.Keeping.{AreNew, Happens, IsGroup, IsSame, Represents};
ghost use Rattle.pmg_world.specs.Telling.{event_of};
ghost use Rattle.pmg_group_model.specs.Worlds.{Event as ModelEvent, start};
ghost use Rattle.pmg_world.specs.declared.group.Group.{Group as GroupOf};

use crate::event::Event;
use pmg_caches::{Caches, is_bad_put, is_own, own_get};
use pmg_get::Mode;
use pmg_jobinfo::Registry;
use pmg_node::{Act, Reply, Request, Server};
use pmg_node_model::Sent;
use pmg_scope::Scope;
use pmg_value::{Key, NodeId, Proc, Refusal, Value};
use std::alloc::AllocError;
use std::collections::VecDeque;

/// The nodes of a group, the puts of their clients, and all frames ever sent.
pub(crate) struct Group {
    pub(crate) registry: Registry,
    pub(crate) nodes: Vec<Server>,
    pub(crate) caches: Caches,
    pub(crate) sent: VecDeque<Sent>,
}

impl Drop for Group {
    fn drop(self) {
        let Self {
            registry,
            nodes,
            caches,
            sent,
        } = self;
    }
}

/// Returns whether an allocation failed.
pub(crate) fn is_short(answer: &Result<Reply, Refusal>) -> bool
    ensures short { result ≡ true → answer.now ≡ Err refusals.NoMemory }
    ensures answered { result ≡ false → IsAnswered answer.now }
{
    match answer {
        Err(Refusal::NoMemory) => true,
        _ => false,
    }
}

/// Makes a new node for each node of the registry.
fn new_nodes(registry: &Registry) -> Result<Vec<Server>, AllocError>
    ensures new { IfOk result (λ nodes. AreNew registry.now (length registry.now.nodes) nodes.items) }
    ensures jobs { AreJobs registry.now }
{
    let mut nodes = Vec::new(registry.allocator());
    for index in 0..registry.node_count() {
        let node = NodeId::from_checked(index as u32);
        nodes.push(Server::new(node, registry.copy()?)?)?;
    }
    Ok(nodes)
}

impl Group {
    /// Makes a new group, without calls and without sent frames.
    pub(crate) fn new(registry: &Registry) -> Result<Group, AllocError>
        ensures jobs { IfOk result (λ g. g.registry ≡ registry.now) }
        ensures stands { IfOk result (λ g. Represents g (start registry.now)) }
    {
        let alloc = registry.allocator();
        Ok(Group {
            registry: registry.copy()?,
            nodes: new_nodes(registry)?,
            caches: Caches::new(alloc),
            sent: VecDeque::new(alloc),
        })
    }

    /// Returns the node of that index, if the group has one.
    pub(crate) fn node(&self, node: NodeId) -> Option<&Server>
        ensures { option_map (λ n. n.now) result ≡ slice_get self.now.nodes.items node }
    {
        self.nodes.get(node.index() as usize)
    }

    /// Performs an act of the node of that index, and sends its frames.
    fn act_at(&mut self, index: usize, act: &Act) -> Result<Reply, Refusal>
        requires { index < length self.old.nodes.items }
        ensures reply { (d : Server) → RepliesAct reply_as result (slice_index_or self.old.nodes.items index d) (act_of act.now) }
        ensures nodes { (d : Server) → IsAnswered result
            → self.new.nodes.items ≡ slice_set self.old.nodes.items index (after (slice_index_or self.old.nodes.items index d) (act_of act.now)) }
        ensures sent { (d : Server) → IsAnswered result
            → self.new.sent.items ≡ self.old.sent.items ++ sent_by (slice_index_or self.old.nodes.items index d) (act_of act.now) }
        ensures registry { self.new.registry ≡ self.old.registry }
        ensures caches { self.new.caches ≡ self.old.caches }
        ensures memory { result ≡ Err refusals.NoMemory → IsSame self.old self.new }
    {
        self.nodes[index].act(act, &mut self.sent)
    }

    /// Makes the request at the node of that index, and sends the node's frames.
    fn request_at(&mut self, index: usize, request: &Request) -> Result<Reply, Refusal>
        requires { index < length self.old.nodes.items }
        ensures reply { (d : Server) → RepliesAct reply_as result (slice_index_or self.old.nodes.items index d) (ModelAct.request (request_of request.now)) }
        ensures nodes { (d : Server) → IsAnswered result
            → self.new.nodes.items ≡ slice_set self.old.nodes.items index (after (slice_index_or self.old.nodes.items index d) (ModelAct.request (request_of request.now))) }
        ensures sent { (d : Server) → IsAnswered result
            → self.new.sent.items ≡ self.old.sent.items ++ sent_by (slice_index_or self.old.nodes.items index d) (ModelAct.request (request_of request.now)) }
        ensures registry { self.new.registry ≡ self.old.registry }
        ensures caches { self.new.caches ≡ self.old.caches }
        ensures memory { result ≡ Err refusals.NoMemory → IsSame self.old self.new }
    {
        self.nodes[index].request(request, &mut self.sent)
    }

    /// Returns the index of the process's home.
    fn home_of(&self, proc: &Proc) -> usize
        requires { IsGroup self.now }
        ensures value { result ≡ home_of self.now.registry proc.now }
        ensures bound { result < length self.now.nodes.items }
    {
        self.registry.home_of(proc).index() as usize
    }

    /// Puts the value under the key, for the process.
    fn put(&mut self, proc: &Proc, scope: Scope, key: &Key, value: &Value) -> Result<Reply, Refusal>
        requires { IsGroup self.old }
        ensures step { Happens self.old (ModelEvent.put proc.now scope key.now (spelling value.now)) result self.new }
        ensures memory { result ≡ Err refusals.NoMemory → IsSame self.old self.new }
    {
        if is_bad_put(scope, key) {
            return Err(Refusal::BadParam);
        }
        let home = self.home_of(proc);
        if let Err(refusal) = self.nodes[home].check_free(proc) {
            return Err(refusal);
        }
        match self.caches.put(proc, scope, key.copy()?, value.copy()?) {
            Ok(()) => Ok(Reply::Done),
            Err(refusal) => Err(refusal),
        }
    }

    /// Commits the puts of the process, at the node of that index.
    fn commit(&mut self, index: u64, proc: &Proc) -> Result<Reply, Refusal>
        requires { IsGroup self.old }
        ensures step { Happens self.old (ModelEvent.commit index proc.now) result self.new }
        ensures memory { result ≡ Err refusals.NoMemory → IsSame self.old self.new }
    {
        if index >= self.nodes.len() as u64 {
            return Err(Refusal::BadParam);
        }
        let batch = self.caches.unsealed(proc)?;
        match self.act_at(index as usize, &Act::Commit(proc.copy()?, batch)) {
            Ok(reply) => {
                self.caches.mark_sealed(proc);
                Ok(reply)
            }
            Err(refusal) => Err(refusal),
        }
    }

    /// Asks for a key of the target at the node of that index, and sends the node's frames.
    fn get_at(
        &mut self,
        index: usize,
        proc: &Proc,
        target: &Proc,
        key: &Key,
        mode: Mode,
    ) -> Result<Reply, Refusal>
        requires { index < length self.old.nodes.items }
        ensures reply { (d : Server) → RepliesAct reply_as result (slice_index_or self.old.nodes.items index d)
            (ModelAct.request (ModelRequest.ask proc.now (get_of target.now key.now) mode)) }
        ensures nodes { (d : Server) → IsAnswered result
            → self.new.nodes.items ≡ slice_set self.old.nodes.items index (after (slice_index_or self.old.nodes.items index d)
            (ModelAct.request (ModelRequest.ask proc.now (get_of target.now key.now) mode))) }
        ensures sent { (d : Server) → IsAnswered result
            → self.new.sent.items ≡ self.old.sent.items ++ sent_by (slice_index_or self.old.nodes.items index d)
            (ModelAct.request (ModelRequest.ask proc.now (get_of target.now key.now) mode)) }
        ensures registry { self.new.registry ≡ self.old.registry }
        ensures caches { self.new.caches ≡ self.old.caches }
        ensures memory { result ≡ Err refusals.NoMemory → IsSame self.old self.new }
    {
        self.nodes[index].get(proc, target, key, mode, &mut self.sent)
    }

    /// Asks for a key of the target at the node of that index, for the process.
    pub(crate) fn get(
        &mut self,
        index: u64,
        proc: &Proc,
        target: &Proc,
        key: &Key,
        mode: Mode,
    ) -> Result<Reply, Refusal>
        requires { IsGroup self.old }
        ensures step { Happens self.old (ModelEvent.request index (ModelRequest.ask proc.now (get_of target.now key.now) mode)) result self.new }
        ensures memory { result ≡ Err refusals.NoMemory → IsSame self.old self.new }
    {
        if index >= self.nodes.len() as u64 {
            return Err(Refusal::BadParam);
        }
        if is_own(proc, target, key) {
            return own_get(&self.nodes[index as usize], &self.caches, proc, key);
        }
        self.get_at(index as usize, proc, target, key, mode)
    }

    /// Makes a request at the node of that index that does not ask for a process's own key.
    fn request_other(&mut self, index: u64, request: &Request) -> Result<Reply, Refusal>
        requires group { IsGroup self.old }
        requires other { own_key (request_of request.now) ≡ None }
        ensures step { Happens self.old (ModelEvent.request index (request_of request.now)) result self.new }
        ensures memory { result ≡ Err refusals.NoMemory → IsSame self.old self.new }
    {
        if index >= self.nodes.len() as u64 {
            return Err(Refusal::BadParam);
        }
        self.request_at(index as usize, request)
    }

    /// Makes the request at the node of that index.
    fn request(&mut self, index: u64, request: &Request) -> Result<Reply, Refusal>
        requires { IsGroup self.old }
        ensures step { Happens self.old (ModelEvent.request index (request_of request.now)) result self.new }
        ensures memory { result ≡ Err refusals.NoMemory → IsSame self.old self.new }
    {
        match request {
            Request::Ask(mode, proc, target, key) => self.get(index, proc, target, key, *mode),
            _ => self.request_other(index, request),
        }
    }

    /// Delivers the frame of that number.
    fn deliver(&mut self, number: u64) -> Result<Reply, Refusal>
        requires { IsGroup self.old }
        ensures step { Happens self.old (ModelEvent.deliver number) result self.new }
        ensures memory { result ≡ Err refusals.NoMemory → IsSame self.old self.new }
    {
        if number == 0 || number > self.sent.len() as u64 {
            return Err(Refusal::BadParam);
        }
        let sent = &self.sent[number as usize - 1];
        let (to, frame) = (sent.to, sent.frame.copy()?);
        self.act_at(to.index() as usize, &Act::Deliver(frame))
    }

    /// Performs the event, and returns its answer. Errors: `NoMemory` if an allocation failed, and then nothing happened; else the refusal
    /// of the event.
    pub(crate) fn happen(&mut self, event: &Event) -> Result<Reply, Refusal>
        requires { IsGroup self.old }
        ensures step { Happens self.old (event_of event.now) result self.new }
        ensures memory { result ≡ Err refusals.NoMemory → IsSame self.old self.new }
    {
        match event {
            Event::Put(proc, scope, key, value) => self.put(proc, *scope, key, value),
            Event::Commit(index, proc) => self.commit(*index, proc),
            Event::Request(index, request) => self.request(*index, request),
            Event::Deliver(number) => self.deliver(*number),
        }
    }
}

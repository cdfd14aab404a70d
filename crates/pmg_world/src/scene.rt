//! A world that a script plays on, with the frames that were delivered in it.
ghost use Rattle.std.specs.Prelude.{◌≡◌, ◌<◌, IfOk, OnOk};
ghost use Rattle.std.specs.Option.{option_map};
ghost use Rattle.pmg_value.specs.Items.{items_in};
ghost use Rattle.pmg_value.specs.Spelling.{form, plain_of, plains_of, spelling};
ghost use Rattle.pmg_value.specs.declared.value.Value.TheVariants as values;
ghost use Rattle.pmg_wire.specs.Fields.{whole_value};
ghost use Rattle.pmg_store.specs.Dump.{dump};
ghost use Rattle.pmg_node.specs.Servers.{IsAnswered};
ghost use Rattle.pmg_node_model.specs.Acts.{Reply as ModelReply, Request as ModelRequest};
ghost use Rattle.pmg_node_parts.specs.Calls.{get_of};
ghost use Rattle.pmg_group_model.specs.Worlds.{Event as ModelEvent};
ghost use Rattle.pmg_world.specs.Asking.{asked_of};
ghost use Rattle.pmg_world.specs.Keeping.{replied};
ghost use Rattle.pmg_world.specs.ReplyLines.{reply_line as reply_text};
ghost use Rattle.pmg_world.specs.Stages.{AnswersLine, Flows, HappensOnce, IsNew, Performs, dump_at, is_deletion, members_text, server_at, proc_element, proc_elements, procs_in_value};
ghost use Rattle.pmg_world.specs.Telling.{event_of};

use crate::asking::LineAsk;
use crate::delivered::Delivered;
use crate::event::Event;
use crate::group::{Group, is_short};
use crate::reply_lines::{flow_line, members_line, refusal_line, reply_line};
use pmg_get::Mode;
use pmg_grouptext::node_id;
use pmg_jobinfo::Registry;
use pmg_node::{Reply, Request, Server};
use pmg_node_model::Sent;
use pmg_store::Store;
use pmg_value::{Array, Items, Key, Proc, Refusal, Value, WatchedWriter};
use std::alloc::{AllocError, Global};
use std::collections::VecDeque;
use std::marker::Model;

/// A group that runs, with its delivered frames. After every event, some run of the model leads to its state, and the laws of every run
/// hold for each such run. The events are not kept.
pub(crate) struct Scene {
    group: Group,
    delivered: Delivered,
}

impl Drop for Scene {
    fn drop(self) {
        let Self { group, delivered } = self;
    }
}

impl Model for Scene {
    ghost use Rattle.pmg_node_model.specs.contracts.sent.Sent.{the_row as sent_row};
    ghost use Rattle.pmg_world.specs.Delivering.{all_delivered};
    ghost use Rattle.pmg_world.specs.GroupStates.{GroupState, IsPlayed, coded_group_state, group_state};

    ghost Value = { GroupState };

    ghost coded = { coded_group_state sent_row.coded };

    ghost view = { λ a. group_state a.group (all_delivered a.delivered) };

    ghost invariant = { λ a. IsPlayed a.group (all_delivered a.delivered) };
}

/// Returns whether the event is a set's deletion.
fn is_deletion(event: &Event) -> bool
    ensures { result ≡ is_deletion (event_of event.now) }
{
    match event {
        Event::Request(_, Request::Delete(_)) => true,
        _ => false,
    }
}

/// Returns the process that the item of an array holds.
fn proc_in(item: &Value) -> Option<&Proc>
    ensures { option_map (λ p. p.now) result ≡ proc_element (plain_of (form item.now)) }
{
    match item {
        Value::Proc(proc) => Some(proc),
        _ => None,
    }
}

/// Returns the processes among the items of an array.
fn procs_in(alloc: Global, items: Items<'_>) -> Result<Vec<Proc>, AllocError>
    ensures { IfOk result (λ procs. procs.items ≡ proc_elements (plains_of (items_in items.entry))) }
{
    let mut procs = Vec::new(alloc);
    for i in 0..items.len() {
        let item = items.get(i);
        if let Some(proc) = proc_in(item.value()) {
            procs.push(proc.copy()?)?;
        }
    }
    Ok(procs)
}

/// Returns the processes of an array.
fn procs_of(alloc: Global, members: &Array) -> Result<Vec<Proc>, AllocError>
    ensures { IfOk result (λ procs. procs.items ≡ procs_in_value (whole_value (spelling (values.Array members.now)))) }
{
    procs_in(alloc, members.items())
}

/// Returns the dump of a store.
fn dump_of(alloc: Global, store: &Store) -> Result<Vec<u8>, AllocError>
    ensures { IfOk result (λ text. text.items ≡ dump store.now) }
{
    let mut writer = WatchedWriter::new(Vec::new(alloc));
    match store.dump(&mut writer) {
        Ok(()) => Ok(writer.into_inner()),
        Err(_) => Err(AllocError),
    }
}

/// Writes the line of the answer. A failed allocation has no line.
fn line_of_answer(
    room: Vec<u8>,
    is_deletion: bool,
    answer: &Result<Reply, Refusal>,
) -> Result<Vec<u8>, AllocError>
    ensures answered { IfOk result (λ _. IsAnswered answer.now) }
    ensures line { IfOk result (λ text. text.items ≡ reply_text is_deletion (replied answer.now)) }
{
    if is_short(answer) {
        return Err(AllocError);
    }
    reply_line(room, is_deletion, answer)
}

impl Scene {
    /// Makes a world of these jobs, without events.
    pub(crate) fn new(alloc: Global, registry: &Registry) -> Result<Scene, AllocError>
        ensures { IfOk result (λ scene. IsNew registry.now scene) }
    {
        Ok(Scene {
            group: Group::new(registry)?,
            delivered: Delivered::new(alloc),
        })
    }

    /// Returns the registry of the group.
    pub(crate) fn registry(&self) -> &Registry
        ensures { result.now ≡ self.now.jobs }
    {
        &self.group.registry
    }

    /// Returns all frames ever sent, each with its receiver, in their order.
    pub(crate) fn sent(&self) -> &VecDeque<Sent>
        ensures { result.now.items ≡ self.now.sent }
    {
        &self.group.sent
    }

    /// Performs the request to the world, and returns the text of its reply.
    #[tactic(auto, unfolding(crate::specs::Stages::Performs))]
    pub(crate) fn perform(
        &mut self,
        alloc: Global,
        room: Vec<u8>,
        asked: &LineAsk,
    ) -> Result<Vec<u8>, AllocError>
        ensures { IfOk result (λ text. Performs self.old (asked_of asked.now) text.items self.new) }
    {
        match asked {
            LineAsk::Event(event) => self.happen(room, event),
            LineAsk::Unnamed => refusal_line(room, &Refusal::BadParam),
            LineAsk::Flow => self.flow(alloc),
            LineAsk::Members(node, name) => self.members(alloc, room, *node, name),
            LineAsk::Dump(node) => self.dump(alloc, room, *node),
        }
    }

    /// Performs the event, and returns the line of its reply.
    fn happen(&mut self, room: Vec<u8>, event: &Event) -> Result<Vec<u8>, AllocError>
        ensures { IfOk result (λ text. AnswersLine self.old (event_of event.now) text.items self.new) }
    {
        line_of_answer(room, is_deletion(event), &self.step(event))
    }

    /// Asks for a key of the target at the node of that index, for the process, and returns the line of its reply.
    pub(crate) fn get(
        &mut self,
        room: Vec<u8>,
        index: u64,
        proc: &Proc,
        target: &Proc,
        key: &Key,
        mode: Mode,
    ) -> Result<Vec<u8>, AllocError>
        ensures { IfOk result (λ text. AnswersLine self.old (ModelEvent.request index (ModelRequest.ask proc.now (get_of target.now key.now) mode)) text.items self.new) }
    {
        line_of_answer(room, false, &self.ask(index, proc, target, key, mode))
    }

    /// Asks for the key next, for the process, and returns the answer.
    fn ask(
        &mut self,
        index: u64,
        proc: &Proc,
        target: &Proc,
        key: &Key,
        mode: Mode,
    ) -> Result<Reply, Refusal>
        ensures { IsAnswered result
            → HappensOnce self.old (ModelEvent.request index (ModelRequest.ask proc.now (get_of target.now key.now) mode)) (replied result) self.new }
    {
        self.delivered.make_room()?;
        self.group.get(index, proc, target, key, mode)
    }

    /// Performs the next event, and returns its answer.
    fn step(&mut self, event: &Event) -> Result<Reply, Refusal>
        ensures { IsAnswered result → HappensOnce self.old (event_of event.now) (replied result) self.new }
    {
        self.delivered.make_room()?;
        let answer = self.group.happen(event);
        self.delivered.note(event, &answer);
        answer
    }

    /// Delivers each frame that was never delivered.
    fn flow(&mut self, alloc: Global) -> Result<Vec<u8>, AllocError>
        ensures { IfOk result (λ text. Flows self.old text.items self.new) }
    {
        let count = self.group.sent.len() as u64;
        let mut done = 0;
        for frame in self.delivered.level().min(count)..count {
            if !self.delivered.contains(frame + 1) {
                self.deliver(frame + 1)?;
                done += 1;
            }
        }
        flow_line(Vec::new(alloc), done)
    }

    /// Delivers the frame of that number.
    fn deliver(&mut self, frame: u64) -> Result<(), AllocError>
        ensures { OnOk result ((reply : ModelReply) × HappensOnce self.old (ModelEvent.deliver frame) reply self.new) }
    {
        let answer = self.step(&Event::Deliver(frame));
        if is_short(&answer) {
            return Err(AllocError);
        }
        Ok(())
    }

    /// Returns the node of that index, if the group has one.
    fn node(&self, index: u64) -> Option<&Server>
        ensures { option_map (λ n. n.now) result ≡ server_at self.now index }
    {
        match node_id(&self.group.registry, index) {
            Some(node) => self.group.node(node),
            None => None,
        }
    }

    /// Returns the line with the members of the set, as the node knows them.
    fn members(
        &self,
        alloc: Global,
        room: Vec<u8>,
        node: u64,
        name: &Key,
    ) -> Result<Vec<u8>, AllocError>
        ensures { IfOk result (λ text. text.items ≡ members_text (server_at self.now node) name.now) }
    {
        let Some(node) = self.node(node) else {
            return refusal_line(room, &Refusal::BadParam);
        };
        match node.set_members(name) {
            Ok(members) => members_line(room, &procs_of(alloc, members)?),
            Err(refusal) => refusal_line(room, &refusal),
        }
    }

    /// Returns the dump of the node's knowledge for others.
    fn dump(&self, alloc: Global, room: Vec<u8>, node: u64) -> Result<Vec<u8>, AllocError>
        ensures { IfOk result (λ text. text.items ≡ dump_at (server_at self.now node)) }
    {
        match self.node(node) {
            Some(node) => dump_of(alloc, node.board().far()),
            None => refusal_line(room, &Refusal::BadParam),
        }
    }
}

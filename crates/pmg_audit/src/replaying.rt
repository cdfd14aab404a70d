//! Journals that are replayed, each on a node of its own.
ghost use Rattle.std.specs.Prelude.{◌≡◌, ◌≢◌, ◌<◌, ◌+◌, true, false, [], ◌∷◌, ◌++◌, length, map, List, Some, IfOk, IfErr, IfSome, IsNone, IsTrue, OnOk, ◌↔◌, ◌⊎◌};
ghost use Rattle.pmg_jobinfo.specs.Jobs.{AreJobs, Jobs};
ghost use Rattle.pmg_node.specs.Acting.{act_of, reply_as};
ghost use Rattle.pmg_node.specs.Opening.{new_server};
ghost use Rattle.pmg_node.specs.Servers.{after, reply_in, reply_to, sent_by};
ghost use Rattle.pmg_journal.specs.Calling.{caller_of};
ghost use Rattle.pmg_journal.specs.Journals.{happening_of};
ghost use Rattle.pmg_journal.specs.Records.{AreSteps, IsEvidence};
ghost use Rattle.pmg_journal.specs.Replays.{IsReplay};
ghost use Rattle.pmg_journal.specs.declared.journal.Journal.{Journal as JournalOf};
ghost use Rattle.pmg_audit.specs.Agreeing.{MayPut};
ghost use Rattle.pmg_audit.specs.Codes.{lane_of, move_in, audited_put, audited_due};
ghost use Rattle.pmg_audit.specs.Dues.{due_event};
ghost use Rattle.pmg_audit.specs.Replaying.{AddsNode, AllMayPut, AllUnsaid, AreOf, AreReplayed, Continues, HaveFollowed, HaveHappened, IsAdded, IsFollowed, IsJournalOf, IsUnsaid, IsUnsaidAt, KeepsOthers, RefusesFor, SomeUnsaid, TakesPutsAt, sent_more, unsent_move};
ghost use Rattle.pmg_audit.specs.Runs.{journal_at};

use crate::moves::{Due, Lane, Move, Put, Saying};
use crate::same::{is_same_act, is_same_answer};
use crate::sayings::Sayings;
use pmg_jobinfo::Registry;
use pmg_journal::{Event, Evidence, Record, Step, caller_of, is_free_at};
use pmg_node::{Act, Reply, Server};
use pmg_node_model::Sent;
use pmg_value::{NodeId, Proc, Refusal};
use std::alloc::{AllocError, Global};
use std::collections::VecDeque;

/// A replayed journal: its node, its events until now, and whether an answer differed.
pub(crate) struct Replay {
    pub(crate) node: Server,
    pub(crate) lane: Lane,
    pub(crate) is_stale: bool,
}

impl Drop for Replay {
    fn drop(self) {
        let Self {
            node,
            lane,
            is_stale,
        } = self;
    }
}

/// Returns whether the claimed event is this one.
fn is_said(due: &Due, event: &Event) -> bool
    ensures { IsTrue result ↔ (due_event (audited_due due.now) ≡ happening_of event.now) }
{
    is_same_act(&due.act, &event.act) && is_same_answer(&due.answer, &event.answer)
}

/// Returns whether a process may have made the puts: there are no puts, or the process is free, which means that it is in no call and has
/// not ended.
fn may_put_if(is_free: bool, puts: &[Put]) -> bool
    ensures { IsTrue result ↔ ((map audited_put puts.now ≡ []) ⊎ (is_free ≡ true)) }
{
    puts.is_empty() || is_free
}

/// Returns whether the process may have made the puts at the node.
fn may_put(node: &Server, proc: &Proc, puts: &[Put]) -> bool
    ensures { IsTrue result ↔ MayPut node.now proc.now (map audited_put puts.now) }
{
    puts.is_empty() || node.check_free(proc).is_ok()
}

/// Returns the puts of the process before the event, if the process claims the event, and is at home at the node. The flag says whether
/// the process is free there.
fn puts_of(
    sayings: &mut Sayings,
    registry: &Registry,
    node: NodeId,
    is_free: bool,
    proc: &Proc,
    event: &Event,
) -> Option<Vec<Put>>
    requires { caller_of (act_of event.now.act) ≡ Some proc.now }
    ensures some { IfSome result (λ puts. TakesPutsAt registry.now node is_free sayings.old (happening_of event.now) (map audited_put puts.items) sayings.new) }
    ensures none { IsNone result → IsUnsaidAt registry.now node is_free sayings.old (happening_of event.now) }
{
    if !registry.is_home(node, proc) {
        return None;
    }
    let Some(due) = sayings.take_due(proc) else {
        return None;
    };
    if !is_said(&due, event) {
        return None;
    }
    if !may_put_if(is_free, &due.puts) {
        return None;
    }
    Some(due.into_puts())
}

/// Returns the puts before the event: the puts of its caller. The flag says whether the caller is free at the node.
fn puts_before(
    alloc: Global,
    sayings: &mut Sayings,
    registry: &Registry,
    node: NodeId,
    is_free: bool,
    event: &Event,
) -> Option<Vec<Put>>
    ensures some { IfSome result (λ puts. TakesPutsAt registry.now node is_free sayings.old (happening_of event.now) (map audited_put puts.items) sayings.new) }
    ensures none { IsNone result → IsUnsaidAt registry.now node is_free sayings.old (happening_of event.now) }
{
    match caller_of(&event.act) {
        Some(proc) => puts_of(sayings, registry, node, is_free, proc, event),
        None => Some(Vec::new(alloc)),
    }
}

/// Returns the node's answer to the act, and appends the frames that the node sends.
fn answer_of(
    node: &mut Server,
    act: &Act,
    frames: &mut VecDeque<Sent>,
) -> Result<Result<Reply, Refusal>, AllocError>
    ensures reply { IfOk result (λ answer. reply_in reply_as answer ≡ reply_to node.old (act_of act.now)) }
    ensures node { OnOk result (node.new ≡ after node.old (act_of act.now)) }
    ensures sent { OnOk result (frames.new.items ≡ frames.old.items ++ sent_by node.old (act_of act.now)) }
{
    match node.act(act, frames) {
        Ok(reply) => Ok(Ok(reply)),
        Err(Refusal::NoMemory) => Err(AllocError),
        Err(refusal) => Ok(Err(refusal)),
    }
}

/// Returns the event after these puts, before it is replayed.
fn move_of(alloc: Global, puts: Vec<Put>, event: Event) -> Move
    ensures { move_in result ≡ unsent_move (map audited_put puts.items) (happening_of event) }
{
    Move {
        puts,
        event,
        frames: VecDeque::new(alloc),
    }
}

/// Replays the event at the node, and returns whether its answer is the recorded one. It adds the frames that the node sends.
fn happens_so(node: &mut Server, next: &mut Move) -> Result<bool, AllocError>
    ensures node { OnOk result (node.new ≡ after node.old (act_of next.old.event.act)) }
    ensures next { OnOk result (move_in next.new ≡ sent_more (move_in next.old) (sent_by node.old (act_of next.old.event.act))) }
    ensures same { IfOk result (λ same. IsTrue same ↔ (reply_to node.old (act_of next.old.event.act) ≡ reply_in reply_as next.old.event.answer)) }
{
    let answer = answer_of(node, &next.event.act, &mut next.frames)?;
    Ok(is_same_answer(&answer, &next.event.answer))
}

impl Replay {
    /// Replays the event at the node, after these puts.
    fn happen(&mut self, alloc: Global, puts: Vec<Put>, event: Event) -> Result<(), AllocError>
        ensures { OnOk result (IsAdded self.old (map audited_put puts.items) (happening_of event) self.new) }
    {
        let mut next = move_of(alloc, puts, event);
        if !happens_so(&mut self.node, &mut next)? {
            self.is_stale = true;
        }
        self.lane.moves.push_back(next)?;
        Ok(())
    }

    /// Replays the event. Errors: `Collision` if a client's claim differs; `NoMemory`.
    fn happen_next(
        &mut self,
        alloc: Global,
        event: Event,
        sayings: &mut Sayings,
    ) -> Result<(), Refusal>
        ensures ok { OnOk result (Continues self.old sayings.old (happening_of event) self.new sayings.new) }
        ensures refused { IfErr result (λ e. RefusesFor e (IsUnsaid self.old.node sayings.old (happening_of event))) }
    {
        let is_free = is_free_at(&self.node, &event.act);
        let node = self.node.id();
        match puts_before(alloc, sayings, self.node.registry(), node, is_free, &event) {
            Some(puts) => {
                self.happen(alloc, puts, event)?;
                Ok(())
            }
            None => Err(Refusal::Collision),
        }
    }

    /// Replays the events. Errors: `Collision` if a client's claim differs; `NoMemory`.
    fn happen_all(
        &mut self,
        alloc: Global,
        events: Vec<Event>,
        sayings: &mut Sayings,
    ) -> Result<(), Refusal>
        requires fresh { self.old.is_stale ≡ false }
        requires empty { lane_of self.old.lane ≡ [] }
        ensures ok { OnOk result (HaveHappened self.old.node sayings.old (map happening_of events.items) self.new sayings.new) }
        ensures refused { IfErr result (λ e. RefusesFor e (AllUnsaid self.old.node sayings.old (map happening_of events.items))) }
    {
        for event in events {
            if let Err(refusal) = self.happen_next(alloc, event, sayings) {
                return Err(refusal);
            }
        }
        Ok(())
    }

    /// Returns the node and its events.
    fn into_parts(self) -> (Server, Lane)
        ensures node { result.0 ≡ self.node }
        ensures lane { result.1 ≡ self.lane }
    {
        let Replay {
            node,
            lane,
            is_stale: _,
        } = self;
        (node, lane)
    }
}

/// Replays the events on a new node. Errors: `Collision` if a client's claim differs; `NoMemory`.
fn replay_journal(
    alloc: Global,
    registry: &Registry,
    node: NodeId,
    events: Vec<Event>,
    sayings: &mut Sayings,
) -> Result<Replay, Refusal>
    requires { node < length registry.now.nodes }
    ensures ok { IfOk result (λ r. HaveHappened (new_server registry.now node) sayings.old (map happening_of events.items) r sayings.new) }
    ensures refused { IfErr result (λ e. RefusesFor e (AllUnsaid (new_server registry.now node) sayings.old (map happening_of events.items))) }
{
    let registry = registry.copy()?;
    let server = Server::new(node, registry)?;
    let mut replay = Replay {
        node: server,
        lane: Lane {
            moves: VecDeque::new(alloc),
        },
        is_stale: false,
    };
    if let Err(refusal) = replay.happen_all(alloc, events, sayings) {
        return Err(refusal);
    }
    Ok(replay)
}

/// Follows the event, as its step records it. Errors: `Collision` if a client's claim differs; `NoMemory`.
fn follow_next(
    lane: &mut Lane,
    alloc: Global,
    registry: &Registry,
    node: NodeId,
    event: Event,
    step: Step,
    sayings: &mut Sayings,
) -> Result<(), Refusal>
    ensures ok { OnOk result (IsFollowed registry.now node lane.old sayings.old (happening_of event) step lane.new sayings.new) }
    ensures refused { IfErr result (λ e. RefusesFor e (IsUnsaidAt registry.now node step.is_free sayings.old (happening_of event))) }
{
    match puts_before(alloc, sayings, registry, node, step.is_free, &event) {
        Some(puts) => {
            let frames = step.into_sent();
            lane.moves.push_back(Move {
                puts,
                event,
                frames,
            })?;
            Ok(())
        }
        None => Err(Refusal::Collision),
    }
}

/// Follows the events, as their steps record them. Errors: `Collision` if a client's claim differs; `NoMemory`.
fn follow_all(
    lane: &mut Lane,
    alloc: Global,
    registry: &Registry,
    node: NodeId,
    events: Vec<Event>,
    steps: Vec<Step>,
    sayings: &mut Sayings,
) -> Result<(), Refusal>
    requires replay { IsReplay (new_server registry.now node) (map happening_of events.items) }
    requires steps { AreSteps (new_server registry.now node) (map happening_of events.items) steps.items }
    requires empty { lane_of lane.old ≡ [] }
    ensures ok { OnOk result (HaveFollowed (new_server registry.now node) sayings.old (map happening_of events.items) lane.new sayings.new) }
    ensures refused { IfErr result (λ e. RefusesFor e (AllUnsaid (new_server registry.now node) sayings.old (map happening_of events.items))) }
{
    let mut steps = steps.into_iter();
    for event in events {
        let Some(step) = steps.next() else {
            unreachable!();
        };
        if let Err(refusal) = follow_next(lane, alloc, registry, node, event, step, sayings) {
            return Err(refusal);
        }
    }
    Ok(())
}

/// Follows the events, as the evidence records them. The node is the one in the evidence. Errors: `Collision` if a client's claim differs;
/// `NoMemory`.
fn follow_journal(
    alloc: Global,
    registry: &Registry,
    node: NodeId,
    events: Vec<Event>,
    evidence: Evidence,
    sayings: &mut Sayings,
) -> Result<Replay, Refusal>
    requires { IsEvidence (new_server registry.now node) (map happening_of events.items) evidence }
    ensures ok { IfOk result (λ r. HaveHappened (new_server registry.now node) sayings.old (map happening_of events.items) r sayings.new) }
    ensures refused { IfErr result (λ e. RefusesFor e (AllUnsaid (new_server registry.now node) sayings.old (map happening_of events.items))) }
{
    let moves = VecDeque::with_capacity(alloc, events.len())?;
    let mut lane = Lane { moves };
    let Evidence {
        steps,
        node: server,
    } = evidence;
    if let Err(refusal) = follow_all(&mut lane, alloc, registry, node, events, steps, sayings) {
        return Err(refusal);
    }
    Ok(Replay {
        node: server,
        lane,
        is_stale: false,
    })
}

/// Follows the events as their evidence records them, or, without evidence, replays them on a new node. Errors: `Collision` if a client's
/// claim differs; `NoMemory`.
fn retell_journal(
    alloc: Global,
    registry: &Registry,
    node: NodeId,
    events: Vec<Event>,
    evidence: Option<Evidence>,
    sayings: &mut Sayings,
) -> Result<Replay, Refusal>
    requires node { node < length registry.now.nodes }
    requires evidence { IfSome evidence (IsEvidence (new_server registry.now node) (map happening_of events.items)) }
    ensures ok { IfOk result (λ r. HaveHappened (new_server registry.now node) sayings.old (map happening_of events.items) r sayings.new) }
    ensures refused { IfErr result (λ e. RefusesFor e (AllUnsaid (new_server registry.now node) sayings.old (map happening_of events.items))) }
{
    match evidence {
        Some(evidence) => follow_journal(alloc, registry, node, events, evidence, sayings),
        None => replay_journal(alloc, registry, node, events, sayings),
    }
}

/// Returns the place of the node's journal: the first such journal.
fn place_of(journals: &[Record], node: NodeId) -> Option<usize>
    ensures some { IfSome result (λ k. IsJournalOf journals.now node k) }
    ensures none { IsNone result → journal_at journals.now node ≡ [] }
{
    for index in 0..journals.len() {
        if journals[index].node() == node {
            return Some(index);
        }
    }
    None
}

/// Takes the events out of the node's journal, and its evidence, if there is any.
fn take_events(
    alloc: Global,
    journals: &mut [Record],
    node: NodeId,
) -> (Vec<Event>, Option<Evidence>)
    ensures events { map happening_of result.0.items ≡ journal_at journals.old node }
    ensures evidence { (jobs : Jobs) → AreOf jobs journals.old → IfSome result.1 (IsEvidence (new_server jobs node) (journal_at journals.old node)) }
    ensures of { (jobs : Jobs) → AreOf jobs journals.old → AreOf jobs journals.new }
    ensures others { KeepsOthers journals.old node journals.new }
{
    match place_of(journals, node) {
        Some(place) => journals[place].take_events(),
        None => (Vec::new(alloc), None),
    }
}

/// All replayed journals: the nodes after them, the events at each, and whether an answer differed.
pub(crate) struct AllReplayed {
    pub(crate) nodes: Vec<Server>,
    pub(crate) lanes: Vec<Lane>,
    pub(crate) is_stale: bool,
}

impl Drop for AllReplayed {
    fn drop(self) {
        let Self {
            nodes,
            lanes,
            is_stale,
        } = self;
    }
}

impl AllReplayed {
    /// Adds the replay of the next node's journal.
    fn add(&mut self, replay: Replay) -> Result<(), AllocError>
        ensures nodes { OnOk result (self.new.nodes.items ≡ self.old.nodes.items ++ replay.node ∷ []) }
        ensures lanes { OnOk result (self.new.lanes.items ≡ self.old.lanes.items ++ replay.lane ∷ []) }
        ensures fresh { self.new.is_stale ≡ false → (self.old.is_stale ≡ false) × (replay.is_stale ≡ false) }
        ensures stale { self.new.is_stale ≡ true → (self.old.is_stale ≡ true) ⊎ (replay.is_stale ≡ true) }
    {
        if replay.is_stale {
            self.is_stale = true;
        }
        let (node, lane) = replay.into_parts();
        self.nodes.push(node)?;
        self.lanes.push(lane)?;
        Ok(())
    }

    /// Returns whether each process, at its home after all events there, may have made its puts after its last event.
    pub(crate) fn may_put_last(&self, registry: &Registry, sayings: &[Saying]) -> bool
        requires jobs { AreJobs registry.now }
        requires nodes { length self.now.nodes.items ≡ length registry.now.nodes }
        ensures may { result ≡ true → AllMayPut registry.now self.now.nodes.items sayings.now }
        ensures other { result ≡ false → AllMayPut registry.now self.now.nodes.items sayings.now → ⊥ }
    {
        for saying in sayings {
            let home = registry.home_of(&saying.proc).index() as usize;
            if !may_put(&self.nodes[home], &saying.proc, &saying.last_puts) {
                return false;
            }
        }
        true
    }

    /// Returns the nodes, and the events at each.
    pub(crate) fn into_parts(self) -> (Vec<Server>, Vec<Lane>)
        ensures nodes { result.0 ≡ self.nodes }
        ensures lanes { result.1 ≡ self.lanes }
    {
        let AllReplayed {
            nodes,
            lanes,
            is_stale: _,
        } = self;
        (nodes, lanes)
    }

    /// Replays the next node's journal, or follows its evidence. It takes the events out of the journal.
    fn replay_next(
        &mut self,
        alloc: Global,
        registry: &Registry,
        node: NodeId,
        journals: &mut [Record],
        sayings: &mut Sayings,
    ) -> Result<(), Refusal>
        requires node { node < length registry.now.nodes }
        requires of { AreOf registry.now journals.old }
        ensures ok { OnOk result ((js : List JournalOf) → journal_at js node ≡ journal_at journals.old node
            → AddsNode registry.now js node self.old sayings.old self.new sayings.new) }
        ensures refused { IfErr result (λ e. RefusesFor e (AllUnsaid (new_server registry.now node) sayings.old (journal_at journals.old node))) }
        ensures of { AreOf registry.now journals.new }
        ensures others { KeepsOthers journals.old node journals.new }
    {
        let (events, evidence) = take_events(alloc, journals, node);
        match retell_journal(alloc, registry, node, events, evidence, sayings) {
            Ok(replay) => {
                self.add(replay)?;
                Ok(())
            }
            Err(refusal) => Err(refusal),
        }
    }
}

/// Replays the journal of each node without evidence, follows the evidence of the others, and takes the events out of the journals.
/// Errors: `Collision` if a client's claim differs; `NoMemory`.
pub(crate) fn replay_all(
    alloc: Global,
    registry: &Registry,
    journals: &mut [Record],
    sayings: &mut Sayings,
) -> Result<AllReplayed, Refusal>
    requires { AreOf registry.now journals.old }
    ensures ok { IfOk result (λ all. AreReplayed registry.now journals.old sayings.old (length registry.now.nodes) all sayings.new) }
    ensures refused { IfErr result (λ e. RefusesFor e (SomeUnsaid registry.now journals.old sayings.old)) }
{
    let mut all = AllReplayed {
        nodes: Vec::new(alloc),
        lanes: Vec::new(alloc),
        is_stale: false,
    };
    for index in 0..registry.node_count() {
        let node = NodeId::from_checked(index as u32);
        if let Err(refusal) = all.replay_next(alloc, registry, node, journals, sayings) {
            return Err(refusal);
        }
    }
    Ok(all)
}

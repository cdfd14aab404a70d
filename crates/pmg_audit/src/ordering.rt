//! An order of the events at several nodes, in which each frame is delivered after it was sent.
ghost use Rattle.std.specs.Prelude.{◌≡◌, ◌⊎◌, ◌<◌, ◌++◌, ℕ, true, false, [], ◌∷◌, map, slice_get, Some, IfOk, IfErr, IfSome, IsNone, OnOk};
ghost use Rattle.std.specs.Option.{option_map};
ghost use Rattle.pmg_value.specs.Lists.{In};
ghost use Rattle.pmg_value.specs.declared.refusal.Refusal.TheVariants as refusals;
ghost use Rattle.pmg_node.specs.Acting.{act_of};
ghost use Rattle.pmg_node_model.specs.declared.sent.Sent.{Sent as SentFrame};
ghost use Rattle.pmg_world.specs.Telling.{event_of, happened_of};
ghost use Rattle.pmg_journal.specs.Calling.{caller_of};
ghost use Rattle.pmg_audit.specs.Codes.{all_of, audited_put, move_in};
ghost use Rattle.pmg_audit.specs.Orders.{AreTold, IsEventOf, MayGo, NoOrder, event_happened, moves_at, puts_told};
ghost use Rattle.pmg_audit.specs.Going.{IsNext, IsReady, IsTaken, SomeOpen};
ghost use Rattle.pmg_audit.specs.Sends.{AreNumbered};
ghost use Rattle.pmg_audit.specs.Telling.{OrderGoesOn, IsMaking};

use crate::moves::{Lane, Move, Put};
use crate::sends::Sends;
use pmg_journal::caller_of;
use pmg_node::{Act, Reply};
use pmg_node_model::Sent;
use pmg_value::{Proc, Refusal};
use pmg_world::{Event, LoggedEvent};
use std::alloc::{AllocError, Global};
use std::collections::VecDeque;

/// The events in an order, and the frames that are sent in it.
pub(crate) struct Order {
    /// The frames, each with its receiver.
    pub(crate) sent: Vec<Sent>,
    /// The events, each with its answer.
    pub(crate) told: Vec<LoggedEvent>,
}

impl Drop for Order {
    fn drop(self) {
        let Self { sent, told } = self;
    }
}

impl Order {
    /// Returns the frames and the events.
    pub(crate) fn into_parts(self) -> (Vec<Sent>, Vec<LoggedEvent>)
        ensures sent { result.0 ≡ self.sent }
        ensures told { result.1 ≡ self.told }
    {
        let Order { sent, told } = self;
        (sent, told)
    }
}

/// An order under construction, event after event.
struct Making {
    /// The remaining events of each node.
    lanes: Vec<Lane>,
    /// The ordered events.
    told: Vec<LoggedEvent>,
    /// The sent frames.
    sends: Sends,
    /// The nodes to be examined: no other node has an event that may come next.
    awake: VecDeque<usize>,
}

impl Drop for Making {
    fn drop(self) {
        let Self {
            lanes,
            told,
            sends,
            awake,
        } = self;
    }
}

/// Returns the act of the node as an event, if it may come next.
fn event_for(sends: &Sends, node: u64, act: &Act) -> Result<Option<Event>, AllocError>
    requires { AreNumbered sends.now }
    ensures some { IfOk result (λ o. IfSome o (λ e.
        IsEventOf sends.now.frames.items node (act_of act.now) (event_of e))) }
    ensures none { IfOk result (λ o. IsNone o
        → MayGo node (act_of act.now) sends.now.frames.items → ⊥) }
{
    match act {
        Act::Commit(proc, _) => Ok(Some(Event::Commit(node, proc.copy()?))),
        Act::Request(request) => Ok(Some(Event::Request(node, request.copy()?))),
        Act::Deliver(frame) => match sends.number_of(node, frame) {
            Some(number) => Ok(Some(Event::Deliver(number))),
            None => Ok(None),
        },
    }
}

/// Returns the next act of the node as an event, if it may come next.
fn next_at(lanes: &[Lane], sends: &Sends, node: usize) -> Result<Option<Event>, AllocError>
    requires { AreNumbered sends.now }
    ensures some { IfOk result (λ o. IfSome o (λ e.
        IsNext (all_of lanes.now) sends.now.frames.items node (event_of e))) }
    ensures none { IfOk result (λ o. IsNone o
        → IsReady (all_of lanes.now) sends.now.frames.items node → ⊥) }
{
    if node >= lanes.len() {
        return Ok(None);
    }
    match lanes[node].moves.front() {
        Some(next) => event_for(sends, node as u64, &next.event.act),
        None => Ok(None),
    }
}

/// Appends the puts of the calling process, each one done. It appends nothing if no process calls.
fn tell_puts(
    told: &mut Vec<LoggedEvent>,
    caller: Option<&Proc>,
    puts: Vec<Put>,
) -> Result<(), AllocError>
    ensures { OnOk result (map happened_of told.new.items ≡ map happened_of told.old.items
        ++ puts_told (option_map (λ p. p.now) caller.entry) (map audited_put puts.items)) }
{
    let Some(proc) = caller else {
        return Ok(());
    };
    for put in puts {
        told.push(LoggedEvent {
            event: put.into_event(proc.copy()?),
            answer: Ok(Reply::Done),
        })?;
    }
    Ok(())
}

/// Returns the indices of all nodes, as many as the count.
fn all_awake(alloc: Global, count: usize) -> Result<VecDeque<usize>, AllocError>
    ensures { IfOk result (λ awake. (n : ℕ) → n < count → In n awake.items) }
{
    let mut awake = VecDeque::new(alloc);
    for node in 0..count {
        awake.push_back(node)?;
    }
    Ok(awake)
}

/// Returns the number of events that the moves give: one for each move, and one for each put before it.
fn count_told(moves: &VecDeque<Move>) -> usize {
    let mut count = 0usize;
    for next in moves.iter() {
        count = count.saturating_add(next.puts.len()).saturating_add(1);
    }
    count
}

/// Returns the number of events that all nodes give.
fn count_all_told(lanes: &[Lane]) -> usize {
    let mut count = 0usize;
    for lane in lanes {
        count = count.saturating_add(count_told(&lane.moves));
    }
    count
}

impl Making {
    /// Starts the order, without events.
    fn new(alloc: Global, lanes: Vec<Lane>) -> Result<Making, AllocError>
        ensures { IfOk result (IsMaking (all_of lanes.items)) }
    {
        let told = Vec::with_capacity(alloc, count_all_told(&lanes))?;
        let awake = all_awake(alloc, lanes.len())?;
        Ok(Making {
            lanes,
            told,
            sends: Sends::new(alloc),
            awake,
        })
    }

    /// Appends the frames to the sent ones, and wakes the nodes that they go to.
    fn send_all(&mut self, frames: VecDeque<Sent>) -> Result<(), AllocError>
        requires { AreNumbered self.old.sends }
        ensures lanes { self.new.lanes ≡ self.old.lanes }
        ensures told { self.new.told ≡ self.old.told }
        ensures sent { OnOk result (self.new.sends.frames.items
            ≡ self.old.sends.frames.items ++ frames.items) }
        ensures numbered { OnOk result (AreNumbered self.new.sends) }
        ensures awake { OnOk result (self.new.awake.items
            ≡ self.old.awake.items ++ map (λ (s : SentFrame). s.to) frames.items) }
    {
        for sent in frames {
            self.awake.push_back(sent.to.index() as usize)?;
            self.sends.push(sent)?;
        }
        Ok(())
    }

    /// Appends the move as the event, after the puts before it, and sends its frames.
    fn tell(&mut self, next: Move, event: Event) -> Result<(), AllocError>
        requires { AreNumbered self.old.sends }
        ensures lanes { self.new.lanes ≡ self.old.lanes }
        ensures told { OnOk result (map happened_of self.new.told.items
            ≡ map happened_of self.old.told.items
            ++ (puts_told (caller_of (move_in next).act) (move_in next).puts
            ++ event_happened (event_of event) (move_in next).reply ∷ [])) }
        ensures sent { OnOk result (self.new.sends.frames.items
            ≡ self.old.sends.frames.items ++ (move_in next).frames) }
        ensures numbered { OnOk result (AreNumbered self.new.sends) }
        ensures awake { OnOk result (self.new.awake.items
            ≡ self.old.awake.items ++ map (λ (s : SentFrame). s.to) (move_in next).frames) }
    {
        let (puts, happened, frames) = next.into_parts();
        tell_puts(&mut self.told, caller_of(&happened.act), puts)?;
        let answer = happened.into_answer();
        self.told.push(LoggedEvent { event, answer })?;
        self.send_all(frames)
    }

    /// Takes the next move of the node out of the remaining ones.
    fn take_next(&mut self, node: usize) -> Option<Move>
        ensures some { IfSome result (λ x. IsTaken (all_of self.old.lanes.items) node (move_in x) (all_of self.new.lanes.items)) }
        ensures none { IsNone result → moves_at (all_of self.old.lanes.items) node ≡ [] }
        ensures told { self.new.told ≡ self.old.told }
        ensures sends { self.new.sends ≡ self.old.sends }
        ensures awake { self.new.awake ≡ self.old.awake }
    {
        if node >= self.lanes.len() {
            return None;
        }
        self.lanes[node].moves.pop_front()
    }

    /// Appends the node's next event.
    fn go_on(&mut self, node: usize, event: Event) -> Result<(), AllocError>
        requires numbered { AreNumbered self.old.sends }
        requires awake { In node self.old.awake.items }
        requires next { IsNext (all_of self.old.lanes.items) self.old.sends.frames.items node (event_of event) }
        ensures { OnOk result (OrderGoesOn self.old self.new) }
    {
        let Some(next) = self.take_next(node) else {
            unreachable!();
        };
        self.tell(next, event)?;
        Ok(())
    }

    /// Continues with the first awake node. If its next event may not come, the node sleeps until a frame is sent to it.
    fn look(&mut self, node: usize) -> Result<(), AllocError>
        requires numbered { AreNumbered self.old.sends }
        requires first { slice_get self.old.awake.items 0 ≡ Some node }
        ensures { OnOk result (OrderGoesOn self.old self.new) }
    {
        match next_at(&self.lanes, &self.sends, node)? {
            Some(event) => self.go_on(node, event)?,
            None => {
                self.awake.pop_front();
            }
        }
        Ok(())
    }

    /// Returns the ordered events, and the sent frames.
    fn into_order(self) -> Order
        ensures sent { result.sent ≡ self.sends.frames }
        ensures told { result.told ≡ self.told }
    {
        let Making {
            lanes: _,
            told,
            sends,
            awake: _,
        } = self;
        Order {
            sent: sends.into_frames(),
            told,
        }
    }
}

/// Returns whether a node has remaining events.
fn is_open(lanes: &[Lane]) -> bool
    ensures open { result ≡ true → SomeOpen (all_of lanes.now) }
    ensures closed { result ≡ false → (n : ℕ) → moves_at (all_of lanes.now) n ≡ [] }
{
    for lane in lanes {
        if !lane.moves.is_empty() {
            return true;
        }
    }
    false
}

/// Appends all events that may come.
fn make_all(alloc: Global, lanes: Vec<Lane>) -> Result<Making, AllocError>
    ensures making { IfOk result (IsMaking (all_of lanes.items)) }
    ensures ended { IfOk result (λ m. m.awake.items ≡ []) }
{
    let mut making = Making::new(alloc, lanes)?;
    while let Some(&node) = making.awake.front() {
        making.look(node)?;
    }
    Ok(making)
}

/// Makes an order of all events. Errors: `Unordered` if no order delivers each frame after it was sent; `NoMemory`.
pub(crate) fn make_order(alloc: Global, lanes: Vec<Lane>) -> Result<Order, Refusal>
    ensures ok { IfOk result (λ o. AreTold (all_of lanes.items) (map happened_of o.told.items) o.sent.items) }
    ensures unordered { IfErr result (λ e. e ≡ refusals.Unordered → NoOrder (all_of lanes.items)) }
    ensures few { IfErr result (λ e. (e ≡ refusals.NoMemory) ⊎ (e ≡ refusals.Unordered)) }
{
    let making = make_all(alloc, lanes)?;
    if is_open(&making.lanes) {
        return Err(Refusal::Unordered);
    }
    Ok(making.into_order())
}

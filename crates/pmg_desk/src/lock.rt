//! The lock of a desk, and the conditions that callers wait for.
ghost use Rattle.std.specs.Prelude.{◌≡◌, Err, IfSome, IfOk, IsOkUnless, IsSome, is_some, true};
ghost use Rattle.pmg_value.specs.declared.refusal.Refusal.TheVariants as refusals;
ghost use Rattle.pmg_desk.specs.Awaiting.{IsThere};
ghost use Rattle.pmg_desk.specs.Places.{LiesAt};
ghost use Rattle.pmg_jobinfo.specs.Jobs.{is_node};
ghost use Rattle.pmg_node_model.specs.Kept.{IsOwn};

use crate::exclusive::Exclusive;
use crate::state::State;
use counted_slot::{Counted, Fits};
use pmg_history::History;
use pmg_jobinfo::Registry;
use pmg_journal::Event;
use pmg_node::Status;
use pmg_publish::{Told, Viewer};
use pmg_value::{NodeId, Proc, Refusal};
use std::collections::BTreeMap;
use std::sync::{Condvar, Mutex, MutexGuard, Wait};

/// The identity of a desk: its node's index, its group, its journal, as the list at the start, and its publisher, by its publications at
/// the start.
#[derive(Drop)]
pub struct Place {
    pub(crate) node: NodeId,
    pub(crate) registry: Registry,
    pub(crate) list: History<Event>,
    pub(crate) told: Told,
}

/// A state keeps the place of its desk through all events.
impl Fits for State {
    type Tag = Place;

    ghost fits = { λ place s. LiesAt place s };
}

/// The data that only the holder of the lock may read.
#[derive(Drop)]
struct LockState {
    /// The number of times that there were frames after an event; it wraps past its end.
    sent: u64,
    /// The number of times that a waiting client could continue after an event; it wraps past its end.
    settled: u64,
    /// The processes with a client, each with the status whose change it waits for, if it does.
    clients: BTreeMap<Proc, Option<Status>>,
}

/// One server that threads share: its node, its journal and the publisher of its board, under one lock. It is not dropped: end it by
/// `into_record`.
pub struct Desk {
    pub(crate) place: Place,
    gate: Mutex<LockState>,
    sent: Condvar,
    settled: Condvar,
    room: Counted<Option<Exclusive<State>>>,
    ghost same: { room ≡ place },
}

/// The condition that a caller waits for before it takes the lock.
#[derive(Drop)]
pub(crate) enum WaitFor<'a> {
    /// For the lock only.
    Nothing,
    /// Until there are frames to be taken.
    Frames,
    /// Until the process's status changes.
    Past(&'a Proc, Status),
}

impl WaitFor<'_> {
    /// Returns whether the condition holds. Nobody waits any more at a closed desk.
    fn is_there(&self, state: &State) -> bool
        ensures { result ≡ true → IsThere self.now state.now.node }
    {
        match self {
            WaitFor::Nothing => true,
            WaitFor::Frames => state.has_frames() || state.is_closed(),
            WaitFor::Past(proc, status) => match state.status(proc) {
                Some(found) => found != *status,
                None => true,
            },
        }
    }
}

/// Returns whether one of the waiting clients can continue.
fn can_go_on(clients: &BTreeMap<Proc, Option<Status>>, state: &State) -> bool {
    for (proc, past) in clients.iter() {
        if let Some(status) = past {
            if WaitFor::Past(proc, *status).is_there(state) {
                return true;
            }
        }
    }
    false
}

impl LockState {
    /// Notes that the process waits until its status changes from this one; or, with `None`, that it waits no more.
    fn note_past(&mut self, proc: &Proc, past: Option<Status>) {
        if let Some(noted) = self.clients.get_mut(proc) {
            *noted = past;
        }
    }
}

/// The lock, with the state under it, and whether the desk was open when the lock was taken. A guard is not dropped: end it by `put_back`,
/// by `end_with` after an event, or by `close`.
pub(crate) struct DeskGuard<'d> {
    desk: &'d Desk,
    gate: MutexGuard<'d, LockState>,
    was_open: bool,
    pub(crate) state: State,
}

impl Desk {
    /// Opens a new server of the node of that index in the group. Errors: only `NoMemory`.
    pub fn new<R: Wait>(rt: &R, id: NodeId, registry: Registry) -> Result<Desk, Refusal>
        requires { is_node registry id ≡ true }
        ensures node { IfOk result (λ d. d.place.node ≡ id) }
        ensures registry { IfOk result (λ d. d.place.registry ≡ registry) }
        ensures memory { IsOkUnless result refusals.NoMemory }
    {
        let alloc = registry.allocator();
        let copy = registry.copy()?;
        let state = State::new(rt, id, registry)?;
        let place = Place {
            node: id,
            registry: copy,
            list: state.tell_list(),
            told: state.tell(),
        };
        let room = Counted::new(Some(Exclusive::new(state)), &place);
        let gate = LockState {
            sent: 0,
            settled: 0,
            clients: BTreeMap::new(alloc),
        };
        Ok(Desk {
            place,
            gate: Mutex::new(gate),
            sent: Condvar::new(),
            settled: Condvar::new(),
            room,
        })
    }

    /// Takes the state out of its room, where it is whenever nobody has the lock.
    fn take_out(&self) -> Option<State>
        ensures { IfSome result (LiesAt self.now.place) }
    {
        let (found, claim) = self.room.turn(0, 3);
        if found != 0 {
            claim.done();
            return None;
        }
        match claim.put(None, 0) {
            Some(state) => Some(state.into_inner()),
            None => None,
        }
    }

    /// Puts the state back into its room.
    fn put_in<R: Wait>(&self, rt: &R, state: State)
        requires { LiesAt self.now.place state }
    {
        let (found, claim) = self.room.turn(0, 3);
        if found != 0 {
            claim.done();
            state.into_record(rt);
            return;
        }
        if let Some(other) = claim.put(Some(Exclusive::new(state)), 0) {
            other.into_inner().into_record(rt);
        }
    }

    /// Takes the lock, once the awaited condition holds. Returns `None` if the room has no state, which happens only after the desk has
    /// ended.
    pub(crate) fn hold<R: Wait>(&self, rt: &R, awaited: &WaitFor<'_>) -> Option<DeskGuard<'_>>
        ensures there { IfSome result (λ h. IsThere awaited.now h.state.node) }
        ensures state { IfSome result (λ h. LiesAt self.now.place h.state) }
        ensures desk { IfSome result (λ h. h.desk.now ≡ self.now) }
        ensures open { IfSome result (λ h. h.was_open ≡ is_some h.state.node) }
    {
        let mut gate = self.gate.lock(rt);
        for _ in rt.forever() {
            let state = self.take_out()?;
            if awaited.is_there(&state) {
                return Some(DeskGuard {
                    desk: self,
                    gate,
                    was_open: !state.is_closed(),
                    state,
                });
            }
            self.put_in(rt, state);
            gate = self.sleep(rt, gate, awaited);
        }
        unreachable!()
    }

    /// Gives the lock up, and takes it again once the awaited condition may hold.
    fn sleep<'d, R: Wait>(
        &'d self,
        rt: &R,
        mut gate: MutexGuard<'d, LockState>,
        awaited: &WaitFor<'_>,
    ) -> MutexGuard<'d, LockState> {
        match awaited {
            WaitFor::Nothing => gate,
            WaitFor::Frames => {
                let sent = gate.sent;
                self.sent.wait_while(rt, gate, |gate| gate.sent == sent)
            }
            WaitFor::Past(proc, status) => {
                gate.note_past(proc, Some(*status));
                let settled = gate.settled;
                let mut gate = self
                    .settled
                    .wait_while(rt, gate, |gate| gate.settled == settled);
                gate.note_past(proc, None);
                gate
            }
        }
    }

    /// Returns the state in the room of a desk that nobody shares any more.
    pub(crate) fn into_state(self) -> (Place, Option<State>)
        ensures place { result.0 ≡ self.place }
        ensures state { IfSome result.1 (LiesAt self.place) }
    {
        let Desk {
            place,
            gate: _,
            sent: _,
            settled: _,
            room,
        } = self;
        match room.into_inner() {
            Some(state) => (place, Some(state.into_inner())),
            None => (place, None),
        }
    }
}

impl DeskGuard<'_> {
    /// Takes a viewer for the client of the process, which has no client yet.
    pub(crate) fn give_viewer(&mut self, proc: Proc) -> Result<Viewer, Refusal>
        ensures book { IfOk result (λ v. v.book ≡ self.old.state.publisher.book) }
        ensures home { IfOk result (λ _. IsOwn self.old.state.journal.registry self.old.state.journal.node proc) }
        ensures state { (p : _) → LiesAt p self.old.state → LiesAt p self.new.state }
        ensures node { self.new.state.node ≡ self.old.state.node }
        ensures desk { self.new.desk.now ≡ self.old.desk.now }
        ensures open { self.new.was_open ≡ self.old.was_open }
    {
        match self.state.check_caller(&proc) {
            Some(Ok(())) => {}
            Some(Err(refusal)) => return Err(refusal),
            None => return Err(Refusal::Closed),
        }
        if self.gate.clients.contains_key(&proc) {
            return Err(Refusal::Exists);
        }
        let _ = self.gate.clients.insert(proc, None)?;
        match self.state.take_viewer() {
            Some(viewer) => Ok(viewer),
            None => Err(Refusal::Exists),
        }
    }

    /// Wakes the callers that wait for frames, if there are frames, and the waiting clients, if one of them can continue.
    fn wake(&mut self)
        ensures state { self.new.state ≡ self.old.state }
        ensures desk { self.new.desk.now ≡ self.old.desk.now }
    {
        if WaitFor::Frames.is_there(&self.state) {
            self.gate.sent = self.gate.sent.wrapping_add(1);
            self.desk.sent.notify_all();
        }
        if can_go_on(&self.gate.clients, &self.state) {
            self.gate.settled = self.gate.settled.wrapping_add(1);
            self.desk.settled.notify_all();
        }
    }

    /// Puts the state back, and gives the lock up.
    fn release<R: Wait>(self, rt: &R)
        requires { LiesAt self.desk.now.place self.state }
    {
        let DeskGuard {
            desk,
            gate,
            was_open: _,
            state,
        } = self;
        desk.put_in(rt, state);
        drop(gate);
    }

    /// Gives the lock up after a look at the state that closed no desk.
    pub(crate) fn put_back<R: Wait>(self, rt: &R)
        requires state { LiesAt self.desk.now.place self.state }
        requires open { self.was_open ≡ true → IsSome self.state.node }
    {
        self.release(rt);
    }

    /// Gives the lock up after an event, wakes the callers that can continue, and returns the answer. The desk is open if it was, unless
    /// the answer is NoMemory.
    pub(crate) fn end_with<R: Wait, T>(
        mut self,
        rt: &R,
        answer: Result<T, Refusal>,
    ) -> Result<T, Refusal>
        requires state { LiesAt self.desk.now.place self.state }
        requires open { self.was_open ≡ true → (answer ≡ Err refusals.NoMemory → ⊥) → IsSome self.state.node }
        ensures { result ≡ answer }
    {
        if self.was_open {
            self.wake();
        }
        self.release(rt);
        answer
    }

    /// Closes the desk, wakes its waiting callers, and gives the lock up.
    pub(crate) fn close<R: Wait>(mut self, rt: &R)
        requires { LiesAt self.desk.now.place self.state }
    {
        self.state.close();
        self.wake();
        self.release(rt);
    }
}

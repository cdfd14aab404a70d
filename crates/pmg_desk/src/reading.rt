//! The reads of a client.
ghost use Rattle.std.specs.Prelude.{◌≡◌, ◌≢◌, ◌&&◌, ◌==◌, ℕ, not, false, true, Err, IfErr, IfOk};
ghost use Rattle.std.specs.FinMap as finite;
ghost use Rattle.std.specs.Option.{option_map};
ghost use mathlib.Core.List.{IsPrefix};
ghost use Rattle.pmg_value.specs.CheckOrder.{first_of};
ghost use Rattle.pmg_value.specs.Names.{is_reserved};
ghost use Rattle.pmg_value.specs.Spelling.{spelling};
ghost use Rattle.pmg_value.specs.declared.refusal.Refusal.TheVariants as refusals;
ghost use Rattle.pmg_commit.specs.Data.{level_at, read_at};
ghost use Rattle.pmg_jobinfo.specs.Jobs.{Jobs, home_of, is_node, is_registered};
ghost use Rattle.pmg_jobinfo.specs.Reserved.{is_general};
ghost use Rattle.pmg_node_model.specs.Holdings.{plain_seen};
ghost use Rattle.pmg_publish.specs.Publications.{near_of, far_of};
ghost use Rattle.pmg_node_parts.specs.Calls.{get_of};
ghost use Rattle.pmg_get.specs.Gets.{Seen, resolve};
ghost use Rattle.pmg_get.specs.declared.view.Mode.{Mode as GetMode};
ghost use Rattle.pmg_get.specs.declared.view.Mode.TheVariants as modes;
ghost use Rattle.pmg_node_model.specs.Acts.{is_misnamed, reply_of};
ghost use Rattle.pmg_desk.specs.Clients.{IsLater, is_waiting, proc_of, puts_of};
ghost use Rattle.pmg_journal.specs.Journals.{IsEvent};
ghost use Rattle.pmg_desk.specs.Reading.{GivesDue, IsDueOrClosed, IsOwnGet, IsReadNow, NotesGet, TellsGet, is_own_key, now_cause, reserved_seen};

use crate::client::Client;
use crate::lock::Place;
use pmg_get::Mode;
use pmg_jobinfo::Registry;
use pmg_journal::Call;
use pmg_node::{Asked, Listing, Request, Taking, is_bad_get, look_up};
use pmg_publish::{FarSnapshot, Snapshot, Viewer};
use pmg_value::{Key, NodeId, Proc, Refusal, Value};
use std::sync::Wait;

/// Returns the taken value: a value answers a get that parked, once the client need not wait.
fn value_in(taking: Taking) -> Value
    requires idle { taking ≢ Taking.Idle }
    requires waiting { taking ≢ Taking.Waiting }
    ensures { taking ≡ Taking.Found result }
{
    match taking {
        Taking::Found(value) => value,
        Taking::Idle | Taking::Waiting => unreachable!(),
    }
}

/// Returns the answer to a read of a process at home at the node, from the snapshot of both stores.
#[tactic(auto, unfolding(pmg_get::specs::Gets::resolve))]
fn near_now(sight: Snapshot) -> Result<Value, Refusal>
    ensures { IsDueOrClosed result (reply_of (resolve (Seen.local (option_map spelling sight.near) (option_map spelling sight.far) sight.near_ended) modes.Now)) }
{
    let Snapshot {
        near,
        far,
        near_ended: _,
        far_ended: _,
    } = sight;
    match near {
        Some(value) => Ok(value),
        None if far.is_some() => Err(Refusal::OutsideScope),
        None => Err(Refusal::NotFound),
    }
}

/// Returns the answer to a read of a process at home at another node, from the snapshot of the far store.
#[tactic(auto, unfolding(pmg_get::specs::Gets::resolve))]
fn far_now(sight: FarSnapshot) -> Result<Value, Refusal>
    ensures { IsDueOrClosed result (reply_of (resolve (Seen.remote (option_map spelling sight.value) sight.ended) modes.Now)) }
{
    match sight.value {
        Some(value) => Ok(value),
        None => Err(Refusal::NotFound),
    }
}

/// Reads at a node, through a viewer, a key that is not reserved, of a target that is at home there or at another node.
fn plain_now(viewer: &mut Viewer, is_near: bool, target: &Proc, key: &Key) -> Result<Value, Refusal>
    ensures book { viewer.new.book ≡ viewer.old.book }
    ensures seen { IsPrefix viewer.old.log viewer.new.log }
    ensures answer { (jobs : Jobs) (id : ℕ) → is_near ≡ (home_of jobs target.now == id)
        → IsDueOrClosed result (reply_of (resolve (plain_seen jobs id (read_at (near_of viewer.new.log) target.now) (read_at (far_of viewer.new.log) target.now) (get_of target.now key.now)) modes.Now)) }
{
    if is_near {
        return near_now(viewer.read(target, key)?);
    }
    far_now(viewer.read_far(target, key)?)
}

/// Returns the answer to a read at the node of a reserved key, for a target that may be named.
fn reserved_now(registry: &Registry, id: NodeId, target: &Proc, key: &Key) -> Result<Value, Refusal>
    requires node { is_node registry.now id ≡ true }
    requires key { is_reserved key.now ≡ true }
    requires known { is_registered registry.now target.now.nspace ≡ true }
    requires named { (not (is_general target.now) && is_misnamed registry.now target.now) ≡ false }
    ensures { GivesDue result (reply_of (resolve (reserved_seen registry.now id (get_of target.now key.now)) modes.Now)) }
{
    registry.reserved(id, target, key)
}

impl Client<'_> {
    /// Returns whether the key is its own, and does not belong to the standard.
    fn is_own(&self, target: &Proc, key: &Key) -> bool
        ensures { result ≡ is_own_key (proc_of self.now) (get_of target.now key.now) }
    {
        self.proc().cmp(target).is_eq() && !key.is_reserved()
    }

    /// Returns its last put under the key, sealed or not.
    fn own(&self, key: &Key) -> Result<Value, Refusal>
        ensures { (mode : GetMode) → GivesDue result (reply_of (resolve (Seen.own (finite.get (puts_of self.now).own key.now)) mode)) }
    {
        match self.notes.own(key) {
            Some(value) => Ok(value.copy()?),
            None => Err(Refusal::NotFound),
        }
    }

    /// Judges the target of a read, for a key that is not its own, by the registry's entry of the target; and checks that no call of it
    /// waits.
    fn check_now(&self, target: &Proc, key: &Key, listing: Listing) -> Result<(), Refusal>
        requires other { is_own_key (proc_of self.now) (get_of target.now key.now) ≡ false }
        requires registered { listing.is_registered ≡ is_registered self.now.jobs target.now.nspace }
        requires misnamed { listing.is_misnamed ≡ is_misnamed self.now.jobs target.now }
        ensures { result ≡ first_of (now_cause self.now (get_of target.now key.now)) tt }
    {
        if is_bad_get(self.proc(), target, key, listing.is_misnamed) {
            return Err(Refusal::BadParam);
        }
        if !listing.is_registered {
            return Err(Refusal::UnknownNamespace);
        }
        if self.in_call() {
            return Err(Refusal::Busy);
        }
        Ok(())
    }

    /// Returns its last put under the key, unless a call of it waits.
    fn free_own(&self, key: &Key) -> Result<Value, Refusal>
        ensures busy { is_waiting self.now ≡ true → result ≡ Err refusals.Busy }
        ensures answer { (mode : GetMode) → is_waiting self.now ≡ false
            → GivesDue result (reply_of (resolve (Seen.own (finite.get (puts_of self.now).own key.now)) mode)) }
    {
        if self.in_call() {
            return Err(Refusal::Busy);
        }
        self.own(key)
    }

    /// Returns its last put under its own key. The read is noted.
    fn get_own(&mut self, key: &Key, mode: Mode) -> Result<Value, Refusal>
        ensures later { IsLater self.old self.new }
        ensures own { IsOwnGet self.old self.new (get_of (proc_of self.old) key.now) mode result }
    {
        let proc = self.proc();
        let request = Request::Ask(mode, proc.copy()?, proc.copy()?, key.copy()?);
        let answer = self.free_own(key);
        self.notes.keep(Call::Request(request), &answer)?;
        answer
    }

    /// Gets the target's key in the mode, and takes the answer if it waits.
    fn get_as<R: Wait>(
        &mut self,
        rt: &R,
        target: &Proc,
        key: &Key,
        mode: Mode,
    ) -> Result<Value, Refusal>
        ensures later { IsLater self.old self.new }
        ensures own { is_own_key (proc_of self.old) (get_of target.now key.now) ≡ true → IsOwnGet self.old self.new (get_of target.now key.now) mode result }
        ensures told { is_own_key (proc_of self.old) (get_of target.now key.now) ≡ false → IsEvent result → TellsGet self.old self.new (get_of target.now key.now) mode result }
        ensures noted { is_own_key (proc_of self.old) (get_of target.now key.now) ≡ false → NotesGet self.old self.new (get_of target.now key.now) mode result }
    {
        if self.is_own(target, key) {
            return self.get_own(key, mode);
        }
        match self.ask(rt, target, key, mode)? {
            Asked::Found(value) => Ok(value),
            Asked::Parked => Ok(value_in(self.take(rt)?)),
        }
    }

    /// Gets the target's key (PMIx Standard 5.0, PMIx_Get), and waits until there is an answer. Errors: `BadParam`, `UnknownNamespace`,
    /// `Terminated`, `Busy`, `NotFound`, `OutsideScope`; after `Closed` and `NoMemory`, `in_call` says whether the get waits.
    pub fn get<R: Wait>(&mut self, rt: &R, target: &Proc, key: &Key) -> Result<Value, Refusal>
        ensures later { IsLater self.old self.new }
        ensures own { is_own_key (proc_of self.old) (get_of target.now key.now) ≡ true → IsOwnGet self.old self.new (get_of target.now key.now) modes.Wait result }
        ensures told { is_own_key (proc_of self.old) (get_of target.now key.now) ≡ false → IsEvent result → TellsGet self.old self.new (get_of target.now key.now) modes.Wait result }
        ensures noted { is_own_key (proc_of self.old) (get_of target.now key.now) ≡ false → NotesGet self.old self.new (get_of target.now key.now) modes.Wait result }
    {
        self.get_as(rt, target, key, Mode::Wait)
    }

    /// Gets the target's key anew (PMIx Standard 5.0, PMIX_GET_REFRESH_CACHE). If the target is at home at another node, that node is
    /// asked for its data, and the get waits for the reply. Any other key is answered as it is there now. Errors: `BadParam`,
    /// `UnknownNamespace`, `Terminated`, `Busy`, `NotFound`, `OutsideScope`; `TooMany` if no number is left for the request. After
    /// `Closed` and `NoMemory`, `in_call` says whether the get waits, and `take` takes the answer.
    pub fn get_refresh<R: Wait>(
        &mut self,
        rt: &R,
        target: &Proc,
        key: &Key,
    ) -> Result<Value, Refusal>
        ensures later { IsLater self.old self.new }
        ensures own { is_own_key (proc_of self.old) (get_of target.now key.now) ≡ true → IsOwnGet self.old self.new (get_of target.now key.now) modes.Refresh result }
        ensures told { is_own_key (proc_of self.old) (get_of target.now key.now) ≡ false → IsEvent result → TellsGet self.old self.new (get_of target.now key.now) modes.Refresh result }
        ensures noted { is_own_key (proc_of self.old) (get_of target.now key.now) ≡ false → NotesGet self.old self.new (get_of target.now key.now) modes.Refresh result }
    {
        self.get_as(rt, target, key, Mode::Refresh)
    }

    /// Reads the target's key, and waits for nobody. If the target is at home at another node, it reads only the far store. Errors:
    /// `BadParam` if the target is misnamed or may not be asked for the key; `UnknownNamespace`; `Busy` if a call of it waits; `NotFound`;
    /// `OutsideScope`; `Closed` if the desk's publisher is closed; `NoMemory`.
    pub fn get_now(&mut self, target: &Proc, key: &Key) -> Result<Value, Refusal>
        ensures later { IsLater self.old self.new }
        ensures calls { self.new.transcript ≡ self.old.transcript }
        ensures answer { IsReadNow self.old self.new (get_of target.now key.now) result }
    {
        if self.is_own(target, key) {
            return self.free_own(key);
        }
        let Place { node, registry, .. } = &self.desk.place;
        let listing = look_up(registry, target);
        if let Err(refusal) = self.check_now(target, key, listing) {
            return Err(refusal);
        }
        if key.is_reserved() {
            return reserved_now(registry, *node, target, key);
        }
        plain_now(&mut self.viewer, listing.home == *node, target, key)
    }

    /// Returns the level of the process as other nodes see it. It waits for nobody. Errors: `Closed` if the desk's publisher is closed.
    pub fn level_now(&mut self, proc: &Proc) -> Result<u64, Refusal>
        ensures later { IsLater self.old self.new }
        ensures calls { self.new.transcript ≡ self.old.transcript }
        ensures level { IfOk result (λ n. n ≡ level_at (far_of self.new.viewer.log) proc.now) }
        ensures refusals { IfErr result (λ e. e ≡ refusals.Closed) }
    {
        self.viewer.level(proc)
    }
}

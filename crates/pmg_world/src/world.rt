//! The nodes of a group and their clients together, event after event.
ghost use Rattle.std.specs.Prelude.{◌≡◌, ◌<◌, [], ◌∷◌, length, take, IfErr, IfOk, OnErr, OnOk, slice_get};
ghost use Rattle.std.specs.Option.{option_map};
ghost use Rattle.pmg_world.specs.Accounts.{Adds, GoesOn, IsAccountLawful, IsRun};
ghost use Rattle.pmg_world.specs.KeptFences.{KeepFences};

use crate::event::{Event, LoggedEvent};
use crate::group::{Group, is_short};
use pmg_jobinfo::Registry;
use pmg_node::Server;
use pmg_node_model::Sent;
use pmg_value::NodeId;
use std::alloc::AllocError;
use std::collections::VecDeque;
use std::marker::Model;

/// A group of nodes with their clients, and all events: each event with its answer, and each frame ever sent. Frames arrive only when they
/// are delivered; they may be delivered in any order, more than once, or never. The events are always a run of the model, and the laws of
/// every run hold for it.
pub struct World {
    group: Group,
    told: Vec<LoggedEvent>,
}

impl Drop for World {
    fn drop(self) {
        let Self { group, told } = self;
    }
}

impl Model for World {
    ghost use Rattle.pmg_node_model.specs.contracts.sent.Sent.{the_row as sent_row};
    ghost use Rattle.pmg_world.specs.Accounts.{Account, account_of, coded_account, IsLed};
    ghost use Rattle.pmg_world.specs.contracts.event.LoggedEvent.{the_row as told_row};

    ghost Value = { Account };

    ghost coded = { coded_account sent_row.coded told_row.coded };

    ghost view = { λ a. account_of a.group a.told.items };

    ghost invariant = { λ a. IsLed a.group a.told.items };
}

/// A failed allocation before all events had happened.
#[derive(Clone, Copy, PartialEq, Eq)]
pub struct RunFailed {
    /// The number of performed events.
    pub done: usize,
}

impl World {
    /// Makes the group at its start, without calls and without sent frames.
    pub fn new(registry: &Registry) -> Result<World, AllocError>
        ensures jobs { IfOk result (λ w. w.jobs ≡ registry.now) }
        ensures told { IfOk result (λ w. w.told ≡ []) }
        ensures sent { IfOk result (λ w. w.sent ≡ []) }
        ensures run { IfOk result IsRun }
        ensures lawful { IfOk result IsAccountLawful }
        ensures fences { IfOk result KeepFences }
    {
        let group = Group::new(registry)?;
        Ok(World {
            group,
            told: Vec::new(registry.allocator()),
        })
    }

    /// Returns the registry of the group.
    pub fn registry(&self) -> &Registry
        ensures { result.now ≡ self.now.jobs }
    {
        &self.group.registry
    }

    /// Returns all events, each with its answer, in their order.
    pub fn events(&self) -> &[LoggedEvent]
        ensures { result.now ≡ self.now.told }
    {
        &self.told
    }

    /// Returns all frames ever sent, each with its receiver, in their order.
    pub fn sent(&self) -> &VecDeque<Sent>
        ensures { result.now.items ≡ self.now.sent }
    {
        &self.group.sent
    }

    /// Returns the node of that index, if the group has one.
    pub fn node(&self, node: NodeId) -> Option<&Server>
        ensures { option_map (λ n. n.now) result ≡ slice_get self.now.nodes node }
    {
        self.group.node(node)
    }

    /// Performs the next event; its answer is the last of `events`. If an allocation fails, nothing happened.
    pub fn step(&mut self, event: Event) -> Result<(), AllocError>
        ensures jobs { self.new.jobs ≡ self.old.jobs }
        ensures told { OnOk result (Adds self.old.told (event ∷ []) self.new.told) }
        ensures err { OnErr result (self.new ≡ self.old) }
        ensures goes_on { GoesOn self.old self.new }
        ensures run { IsRun self.new }
        ensures lawful { IsAccountLawful self.new }
        ensures fences { KeepFences self.new }
    {
        self.told.reserve(1)?;
        let answer = self.group.happen(&event);
        if is_short(&answer) {
            return Err(AllocError);
        }
        self.told.push_reserved(LoggedEvent { event, answer });
        Ok(())
    }

    /// Performs these events, one after another. If an allocation fails, it returns the number of performed events.
    pub fn run(&mut self, events: &[Event]) -> Result<(), RunFailed>
        ensures jobs { self.new.jobs ≡ self.old.jobs }
        ensures told { OnOk result (Adds self.old.told events.now self.new.told) }
        ensures done { IfErr result (λ e. Adds self.old.told (take e.done events.now) self.new.told) }
        ensures few { IfErr result (λ e. e.done < length events.now) }
        ensures goes_on { GoesOn self.old self.new }
        ensures run { IsRun self.new }
        ensures lawful { IsAccountLawful self.new }
        ensures fences { KeepFences self.new }
    {
        if self.told.reserve(events.len()).is_err() {
            return Err(RunFailed { done: 0 });
        }
        for done in 0..events.len() {
            let Ok(event) = events[done].copy() else {
                return Err(RunFailed { done });
            };
            if let Err(AllocError) = self.step(event) {
                return Err(RunFailed { done });
            }
        }
        Ok(())
    }
}

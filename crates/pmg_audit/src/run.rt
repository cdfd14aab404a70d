//! One run of a group, made from its journals.
ghost use Rattle.std.specs.Prelude.{◌≡◌, slice_get};
ghost use Rattle.std.specs.Option.{option_map};
ghost use Rattle.pmg_store.specs.Outcomes.{Dumps};
ghost use Rattle.pmg_world.specs.Accounts.{IsAccountLawful, IsRun};
ghost use Rattle.pmg_audit.specs.RunDumps.{dump_due};

use pmg_jobinfo::Registry;
use pmg_node::Server;
use pmg_node_model::Sent;
use pmg_store::Failure;
use pmg_value::{NodeId, Refusal, WatchedWriter};
use pmg_world::LoggedEvent;
use std::io::Write;
use std::marker::Model;

/// One run of a group of nodes with their clients: all events in one order, each with its answer, all sent frames, and the nodes after
/// them. It is a run of the model, and the laws of every run hold for it.
pub struct Run {
    pub(crate) registry: Registry,
    pub(crate) nodes: Vec<Server>,
    pub(crate) sent: Vec<Sent>,
    pub(crate) told: Vec<LoggedEvent>,
}

impl Drop for Run {
    fn drop(self) {
        let Self {
            registry,
            nodes,
            sent,
            told,
        } = self;
    }
}

impl Model for Run {
    ghost use Rattle.pmg_node_model.specs.contracts.sent.Sent.{the_row as sent_row};
    ghost use Rattle.pmg_world.specs.Accounts.{Account, IsAccountLawful, IsRun, coded_account};
    ghost use Rattle.pmg_world.specs.contracts.event.LoggedEvent.{the_row as told_row};
    ghost use Rattle.pmg_audit.specs.Runs.{account_by};

    ghost Value = { Account };

    ghost coded = { coded_account sent_row.coded told_row.coded };

    ghost view = { λ a. account_by a.registry a.nodes.items a.sent.items a.told.items };

    ghost invariant = { λ a. IsRun (account_by a.registry a.nodes.items a.sent.items a.told.items)
        × IsAccountLawful (account_by a.registry a.nodes.items a.sent.items a.told.items) };
}

impl Run {
    /// Returns the registry of the group.
    pub fn registry(&self) -> &Registry
        ensures { result.now ≡ self.now.jobs }
    {
        &self.registry
    }

    /// Returns all events of the run, each with its answer, in one order. They are a run of the model, and the laws of every run hold for
    /// it.
    pub fn events(&self) -> &[LoggedEvent]
        ensures told { result.now ≡ self.now.told }
        ensures run { IsRun self.now }
        ensures lawful { IsAccountLawful self.now }
    {
        &self.told
    }

    /// Returns all sent frames, each with its receiver, in their order.
    pub fn sent(&self) -> &[Sent]
        ensures { result.now ≡ self.now.sent }
    {
        &self.sent
    }

    /// Returns the node of that index after all events, if the group has one.
    pub fn node(&self, node: NodeId) -> Option<&Server>
        ensures { option_map (λ n. n.now) result ≡ slice_get self.now.nodes node }
    {
        self.nodes.get(node.index() as usize)
    }

    /// Writes the dump of the node's knowledge for other nodes, after all events. If the writer fails, a prefix of the dump was written.
    /// Errors, with nothing written: `BadParam` if the group has no node of that index; `NoMemory`.
    pub fn dump<W: Write>(&self, node: NodeId, writer: &mut WatchedWriter<W>) -> Result<(), Failure>
        ensures { Dumps (W.contents writer.old.writer) (W.contents writer.new.writer) result
            (dump_due (slice_get self.now.nodes node)) }
    {
        match self.node(node) {
            Some(node) => node.board().far().dump(writer),
            None => Err(Failure::Refused(Refusal::BadParam)),
        }
    }
}

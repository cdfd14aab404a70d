ghost use Rattle.std.specs.Prelude.{◌≡◌, true, IfOk};
ghost use Rattle.pmg_jobinfo.specs.Jobs.{is_node};

use pmg_dmodex::{Marks, Pending};
use pmg_fence::Table;
use pmg_jobinfo::Registry;
use pmg_node_parts::{Calls, LocalCommits};
use pmg_store::Board;
use pmg_value::NodeId;
use std::alloc::AllocError;
use std::marker::Model;

/// One server: its knowledge of all processes, the sealers of its own processes, the fences that they are in, and the waiting requests of
/// other nodes (PMIx Standard 5.0, PMIx_server_init).
pub struct Server {
    pub(crate) id: NodeId,
    pub(crate) table: Table,
    pub(crate) board: Board,
    pub(crate) own: LocalCommits,
    pub(crate) calls: Calls,
    pub(crate) held: Pending,
    pub(crate) marks: Marks,
}

impl Drop for Server {
    fn drop(self) {
        let Self {
            id,
            table,
            board,
            own,
            calls,
            held,
            marks,
        } = self;
    }
}

impl Model for Server {
    ghost use Rattle.pmg_node.specs.Servers as servers;
    ghost use Rattle.pmg_node.specs.Content.{server_of, IsContent};

    ghost Value = { servers.Server };

    ghost coded = { servers.coded_server };

    ghost view = { λ a. server_of a.table a.id a.board a.own a.calls a.held a.marks };

    ghost invariant = { λ a. IsContent a.table a.id a.held.anew (server_of a.table a.id a.board a.own a.calls a.held a.marks) };
}

impl Server {
    /// Returns the node's index.
    pub fn id(&self) -> NodeId
        ensures value { result ≡ self.now.id }
        ensures node { is_node self.now.jobs result ≡ true }
    {
        self.id
    }

    /// Returns the registry of the group.
    pub fn registry(&self) -> &Registry
        ensures { result.now ≡ self.now.jobs }
    {
        self.table.registry()
    }

    /// Returns the node's knowledge of all processes: for reads from its own node, and from other nodes.
    pub fn board(&self) -> &Board
        ensures near { result.now.near ≡ self.now.holding.near }
        ensures far { result.now.far ≡ self.now.holding.far }
    {
        &self.board
    }

    /// Returns a copy with an equal meaning. It keeps the registry's allocator.
    pub fn copy(&self) -> Result<Server, AllocError>
        ensures { IfOk result (λ copy. copy ≡ self.now) }
    {
        let alloc = self.table.registry().allocator();
        Ok(Server {
            id: self.id,
            table: self.table.copy()?,
            board: self.board.copy()?,
            own: self.own.copy(alloc)?,
            calls: self.calls.copy()?,
            held: self.held.copy()?,
            marks: self.marks.copy()?,
        })
    }
}

//! A new node.
ghost use Rattle.std.specs.Prelude.{◌≡◌, true, IfOk, OnOk};
ghost use Rattle.std.specs.FinMap as finite;
ghost use Rattle.std.specs.List.{list_all};
ghost use Rattle.pmg_value.specs.Process.{can_commit};
ghost use Rattle.pmg_commit.specs.Sealed.{fresh};
ghost use Rattle.pmg_jobinfo.specs.Jobs.{is_node};
ghost use Rattle.pmg_node_parts.specs.Marking.{node_zeros, senders, zeros};
ghost use Rattle.pmg_node_parts.specs.Sealers.{with_fresh};
ghost use Rattle.pmg_node.specs.Opening.{new_server};

use crate::server::Server;
use pmg_commit::Sealer;
use pmg_dmodex::{Marks, Pending};
use pmg_fence::Table;
use pmg_jobinfo::Registry;
use pmg_node_parts::{Calls, LocalCommits, Sealers, peers};
use pmg_pset::Sets;
use pmg_store::Board;
use pmg_value::{NodeId, Proc};
use std::alloc::{AllocError, Global};

/// Adds a fresh sealer of the process.
fn add_fresh(alloc: Global, sealers: &mut Sealers, proc: Proc) -> Result<(), AllocError>
    requires { can_commit proc ≡ true }
    ensures { OnOk result (sealers.new ≡ finite.insert sealers.old proc (fresh proc)) }
{
    let sealer = Sealer::from_checked(alloc, proc.copy()?);
    sealers.add(&proc, sealer)
}

/// Returns fresh sealers of these processes, without commits.
fn fresh_sealers(alloc: Global, mut procs: Vec<Proc>) -> Result<Sealers, AllocError>
    requires { list_all can_commit procs.items ≡ true }
    ensures { IfOk result (λ sealers. sealers ≡ with_fresh procs.items finite.empty) }
{
    let mut sealers = Sealers::new(alloc);
    while let Some(proc) = procs.pop() {
        add_fresh(alloc, &mut sealers, proc)?;
    }
    Ok(sealers)
}

/// Sets the marks of the process at each of the nodes to 0.
fn set_zeros(marks: &mut Marks, proc: &Proc, nodes: &[NodeId]) -> Result<(), AllocError>
    ensures { OnOk result (marks.new ≡ node_zeros marks.old proc.now nodes.now) }
{
    for node in nodes {
        marks.set(*node, proc, 0)?;
    }
    Ok(())
}

/// Returns marks of these processes at each of the nodes, at 0.
fn zero_marks(alloc: Global, procs: &[Proc], nodes: &[NodeId]) -> Result<Marks, AllocError>
    ensures { IfOk result (λ marks. marks ≡ zeros finite.empty procs.now nodes.now) }
{
    let mut marks = Marks::new(alloc);
    for proc in procs {
        set_zeros(&mut marks, proc, nodes)?;
    }
    Ok(marks)
}

/// Returns the processes whose commits a node may send.
fn senders(registry: &Registry, id: NodeId) -> Result<Vec<Proc>, AllocError>
    ensures { IfOk result (λ procs. procs.items ≡ senders registry.now id) }
{
    let mut procs = Vec::new(registry.allocator());
    if id.index() == 0 {
        procs.push(Proc::of_host())?;
    }
    let mut own = registry.procs_at(id)?;
    procs.append(&mut own)?;
    Ok(procs)
}

impl Server {
    /// Makes a new node of the group, of that index, whose processes have not called. It keeps the registry's allocator.
    pub fn new(id: NodeId, registry: Registry) -> Result<Server, AllocError>
        requires { is_node registry id ≡ true }
        ensures { IfOk result (λ node. node ≡ new_server registry id) }
    {
        let alloc = registry.allocator();
        let nodes = peers(&registry, id)?;
        let procs = senders(&registry, id)?;
        let marks = zero_marks(alloc, &procs, &nodes)?;
        let sealers = fresh_sealers(alloc, registry.procs_at(id)?)?;
        Ok(Server {
            id,
            table: Table::new(id, registry),
            board: Board::new(alloc),
            own: LocalCommits {
                sealers,
                sets: Sets::new(alloc),
            },
            calls: Calls::new(alloc),
            held: Pending::new(alloc),
            marks,
        })
    }
}

use crate::processes::processes;
use pmg_fence::Table;
use pmg_frame::{FenceName, Signature};
use pmg_jobinfo::Registry;
use pmg_value::{NodeId, Nspace, Proc, Refusal};
use std::alloc::Global;

/// The number of participants of each fence: half of them at each of two nodes.
const PARTICIPANTS: u32 = 32;

/// The number of participants at home at node 0.
const FIRST_HALF: u32 = 16;

/// The tables of two nodes.
struct Group {
    zero: Table,
    one: Table,
}

impl Drop for Group {
    fn drop(self) {
        let Self { zero, one } = self;
    }
}

/// Enters and releases so many fences one after another, and returns whether each was ready at both nodes, with nobody gone.
pub fn run(alloc: Global, count: u64) -> Result<bool, Refusal> {
    let procs = processes(alloc, PARTICIPANTS)?;
    let signature = Signature::new(processes(alloc, PARTICIPANTS)?, true)?;
    let mut group = Group {
        zero: table(alloc, 0)?,
        one: table(alloc, 1)?,
    };
    for _ in 0..count {
        if !meet(&mut group, &signature, &procs)? {
            return Ok(false);
        }
    }
    Ok(true)
}

/// Makes the table of the node of that index.
fn table(alloc: Global, node: u32) -> Result<Table, Refusal> {
    let names: [&[u8]; 2] = [b"n0", b"n1"];
    let homes = homes(alloc)?;
    let mut registry = Registry::new(alloc, &names)?;
    registry.register(Nspace::read(alloc, b"j")?, &homes)?;
    Ok(Table::new(NodeId::new(node)?, registry))
}

/// Returns the homes of the participants, by rank.
fn homes(alloc: Global) -> Result<Vec<NodeId>, Refusal> {
    let mut homes = Vec::new(alloc);
    for rank in 0..PARTICIPANTS {
        homes.push(NodeId::new(u32::from(rank >= FIRST_HALF))?)?;
    }
    Ok(homes)
}

/// Enters all into the next fence at their homes, and exchanges the headers. Returns whether it is ready at both nodes then, with nobody
/// gone.
fn meet(group: &mut Group, signature: &Signature, procs: &[Proc]) -> Result<bool, Refusal> {
    let mut instance = 0;
    for proc in procs {
        if proc.rank.number() < FIRST_HALF {
            instance = group.zero.enter(signature, proc, 0)?;
        } else {
            instance = group.one.enter(signature, proc, 0)?;
        }
    }
    hand_over(&mut group.zero, &mut group.one)?;
    hand_over(&mut group.one, &mut group.zero)?;
    let name = FenceName::new(signature.copy()?, instance)?;
    Ok(is_released(&group.zero, &name)? && is_released(&group.one, &name)?)
}

/// Delivers the next own header to the other table.
fn hand_over(from: &mut Table, to: &mut Table) -> Result<(), Refusal> {
    if let Some(header) = from.take_header() {
        to.put_header(header)?;
    }
    Ok(())
}

/// Returns whether the fence is ready, with nobody gone.
fn is_released(table: &Table, name: &FenceName) -> Result<bool, Refusal> {
    Ok(table.ready(name, |_| 0) && table.release(name)?.is_empty())
}

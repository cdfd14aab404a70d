//! The desks of a job: one a node.
ghost use Rattle.std.specs.Prelude.{◌≡◌, [], OnOk, IfOk};
ghost use Rattle.pmg_jobinfo.specs.Jobs.{AreJobs, Jobs};
ghost use Rattle.pmg_threads.specs.Running.{AreDesks, AreNodeJournals};

use pmg_desk::Desk;
use pmg_jobinfo::Registry;
use pmg_journal::Record;
use pmg_value::NodeId;
use std::alloc::{AllocError, Global};
use std::sync::Wait;

/// Opens the desks of the group's nodes, by index. The nodes of a job have few processes. Therefore a desk is refused only for lack of
/// memory.
pub fn open_desks<R: Wait>(rt: &R, registry: &Registry) -> Result<Vec<Desk>, AllocError>
    ensures desks { IfOk result (λ desks. AreDesks registry.now desks.items) }
    ensures jobs { AreJobs registry.now }
{
    let mut desks = Vec::new(registry.allocator());
    match push_desks(rt, registry, &mut desks) {
        Ok(()) => Ok(desks),
        Err(failed) => {
            let _ = end_desks(rt, registry.allocator(), desks);
            Err(failed)
        }
    }
}

/// Fills the list with the desks of the group's nodes.
fn push_desks<R: Wait>(rt: &R, registry: &Registry, desks: &mut Vec<Desk>) -> Result<(), AllocError>
    requires { desks.old.items ≡ [] }
    ensures desks { OnOk result (AreDesks registry.now desks.new.items) }
    ensures jobs { AreJobs registry.now }
{
    for index in 0..registry.node_count() {
        let id = NodeId::from_checked(index as u32);
        let Ok(desk) = Desk::new(rt, id, registry.copy()?) else {
            return Err(AllocError);
        };
        if let Err(failed) = desks.push(desk) {
            failed.value.into_record(rt);
            return Err(AllocError);
        }
    }
    Ok(())
}

/// Closes the desks.
pub fn close_desks<R: Wait>(rt: &R, desks: &[Desk]) {
    for desk in desks {
        desk.close(rt);
    }
}

/// Returns whether one of the desks is closed.
pub fn is_one_closed<R: Wait>(rt: &R, desks: &[Desk]) -> bool {
    for desk in desks {
        if desk.is_closed(rt) {
            return true;
        }
    }
    false
}

/// Ends the desks, and returns their journals in the order of the desks, with the evidence of each. It ends all desks, also if an
/// allocation fails.
pub fn end_desks<R: Wait>(
    rt: &R,
    alloc: Global,
    mut desks: Vec<Desk>,
) -> Result<Vec<Record>, AllocError>
    ensures { (jobs : Jobs) → AreDesks jobs desks.items → IfOk result (λ records. AreNodeJournals jobs records.items) }
{
    let mut records = Vec::new(alloc);
    let mut is_short = false;
    while let Some(desk) = desks.pop() {
        let record = desk.into_record(rt);
        is_short = records.push(record).is_err() || is_short;
    }
    desks.destroy_empty();
    if is_short {
        return Err(AllocError);
    }
    records.reverse();
    Ok(records)
}

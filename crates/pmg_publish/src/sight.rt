ghost use Rattle.std.specs.Prelude.{◌≡◌, IfOk};
ghost use Rattle.std.specs.Option.{option_map};
ghost use Rattle.pmg_publish.specs.Sights.{IsFarSight, IsSight};

use pmg_store::Board;
use pmg_value::{Key, Proc, Value};
use std::alloc::AllocError;

/// The result of a read of a process under a key: the values in the near and in the far store, and whether the process has ended in each.
#[derive(Drop)]
pub struct Snapshot {
    pub near: Option<Value>,
    pub far: Option<Value>,
    pub near_ended: bool,
    pub far_ended: bool,
}

/// The result of a read of a process under a key in the far store only: the value, and whether the process has ended there.
#[derive(Drop)]
pub struct FarSnapshot {
    pub value: Option<Value>,
    pub ended: bool,
}

/// Reads the process under the key in the board, and copies the result.
pub(crate) fn sight_of(board: &Board, proc: &Proc, key: &Key) -> Result<Snapshot, AllocError>
    ensures { IfOk result (IsSight board.now.near board.now.far proc.now key.now) }
{
    let near = board.near().look(proc, key);
    let far = board.far().look(proc, key);
    Ok(Snapshot {
        near: copy_of(near.value)?,
        far: copy_of(far.value)?,
        near_ended: near.ended,
        far_ended: far.ended,
    })
}

/// Reads the process under the key in the board's far store, and copies the result.
pub(crate) fn far_sight_of(board: &Board, proc: &Proc, key: &Key) -> Result<FarSnapshot, AllocError>
    ensures { IfOk result (IsFarSight board.now.far proc.now key.now) }
{
    let far = board.far().look(proc, key);
    Ok(FarSnapshot {
        value: copy_of(far.value)?,
        ended: far.ended,
    })
}

/// Returns a copy of the value, if there is one.
fn copy_of(value: Option<&Value>) -> Result<Option<Value>, AllocError>
    ensures { IfOk result (λ copy. copy ≡ option_map (λ v. v.now) value.entry) }
{
    match value {
        Some(value) => Ok(Some(value.copy()?)),
        None => Ok(None),
    }
}

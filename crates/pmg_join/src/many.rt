ghost use Rattle.std.specs.Prelude.{◌≡◌, map, IfOk};
ghost use Rattle.pmg_join.specs.Joins as joins;

use crate::join::Join;
use std::alloc::AllocError;

/// Joins all of them. The meaning of the result does not depend on order, grouping and repeats, as `join_of_many` says. If an allocation
/// fails, all of them are dropped.
pub fn join_all<J: Join>(first: J, others: Vec<J>) -> Result<J, AllocError>
    ensures { IfOk result (λ all. J.meaning all ≡ joins.join_all J.joined (J.meaning first) (map J.meaning others.items)) }
{
    let mut all = first;
    for other in others {
        if let Err(_) = all.join(other) {
            return Err(AllocError);
        }
    }
    Ok(all)
}

ghost use Rattle.pmg_join.specs.Laws.{IsFreeInOrder, IsFreeInGrouping, IsFreeInRepeats};

use crate::join::Join;

/// States that a join of many does not depend on order, grouping and repeats.
pub fn join_of_many<J: Join>()
    ensures any_order { IsFreeInOrder J.joined }
    ensures any_grouping { IsFreeInGrouping J.joined }
    ensures any_repeats { IsFreeInRepeats J.joined }
{}

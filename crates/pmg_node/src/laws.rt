//! The pieces that a node joins.
ghost use Rattle.pmg_node.specs.Joining.{JoinsAreAll};

/// States the law of the joined pieces: they are exactly the changes of the node's stores.
pub fn joining_rules()
    ensures joins_are_all { JoinsAreAll }
{}

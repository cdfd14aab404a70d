//! The state under the lock of a node, and the law of its publications.
ghost use Rattle.pmg_desk.specs.Boards.{PublishesWhatIsHeld};

pub use crate::state::{Parts, State};

/// States the rule of a desk's publications: they make the two stores of its node.
pub fn publishing_rules()
    ensures publishes_what_is_held { PublishesWhatIsHeld }
{}

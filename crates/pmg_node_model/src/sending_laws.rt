//! The invariant of a node, and the frames that it sends.
ghost use Rattle.pmg_node_model.specs.Kept.{NewIsServer, ServerStays, SettledSame, SettledOn, SettledNames};
ghost use Rattle.pmg_node_model.specs.SendingRules.{ChosenGoToPeers, ChosenIsAllowed, ChosenHasOwed, ChosenIsStep};

/// States the invariant of a node, and the rules of the frames that it sends. A new node satisfies the invariant, and each act preserves
/// it. After a change only some calls need a second look. Each chosen frame goes to another node and is allowed, and each owed frame is
/// chosen.
pub fn sending_rules()
    ensures new_is_server { NewIsServer }
    ensures server_stays { ServerStays }
    ensures settled_same { SettledSame }
    ensures settled_on { SettledOn }
    ensures settled_names { SettledNames }
    ensures chosen_go_to_peers { ChosenGoToPeers }
    ensures chosen_is_allowed { ChosenIsAllowed }
    ensures chosen_has_owed { ChosenHasOwed }
    ensures chosen_is_step { ChosenIsStep }
{}

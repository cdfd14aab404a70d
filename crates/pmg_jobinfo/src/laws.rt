//! What expansions keep, and whom the nodes have at home.
ghost use Rattle.pmg_jobinfo.specs.Rules.{EachIsMeant, OrderIsFree, EachIsMember, OwnAreListed, ListedAreOwn, ListedAreClients};

/// The rules of expansions: they have just those for whom one of the list stands; the order of the list is free;
/// and where the list gives no cause to be refused, each of them is registered.
pub fn expansion_rules()
    ensures each_is_meant { EachIsMeant }
    ensures order_is_free { OrderIsFree }
    ensures each_is_member { EachIsMember }
{}

/// Each process is listed at its home: the list of a node has each registered process whose home it is, and no other;
/// and where the group's jobs are those of a registry, each of the list is one that a group may register.
pub fn home_rules()
    ensures own_are_listed { OwnAreListed }
    ensures listed_are_own { ListedAreOwn }
    ensures listed_are_clients { ListedAreClients }
{}

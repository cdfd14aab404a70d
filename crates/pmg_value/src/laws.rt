//! The laws of names, keys, ranks and processes.
ghost use Rattle.pmg_value.specs.Orders.{AreNspacesByBytes, AreKeysByBytes, AreRanksByNumber, AreProcsByNspaceThenRank};

/// States the orders: namespaces and keys compare by their bytes, ranks by their numbers, and processes by the bytes of the namespace, then
/// by rank.
pub fn process_order()
    ensures nspaces { AreNspacesByBytes }
    ensures keys { AreKeysByBytes }
    ensures ranks { AreRanksByNumber }
    ensures procs { AreProcsByNspaceThenRank }
{}

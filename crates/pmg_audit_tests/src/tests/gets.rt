//! A get that waits for an answer of the other node, and of which the answer is not taken.

/// Node 0 and process 0.
pub(crate) const AT_ZERO: &str = "\
wait j0 j1 k: parked
  # who asks is in a call until the answer is taken
  T Collision also put j0 global a 1: ok
  T fine also put j0 global a 1: Busy
  T fine also put j0 global a 1: NoMemory
  T Collision also commit j0: Busy
  # nothing is left to be delivered then
  B Unordered out
deliver piece j1 0 1 k 1 4: taken
  J fine out
  J fine twice
  J Stale deliver piece j1 0 1 k 1 4: ignored
  J Unordered deliver piece j1 0 1 k 1 5: taken
";

/// Node 1 and process 1.
pub(crate) const AT_ONE: &str = "\
put j1 global k 4: ok
commit j1 global k 4: commit 1
  # what is put after the last event is lost
  T fine also put j1 global b 5: ok
  T fine also put j1 global k 5: ok
  T Collision also put j1 global pmix.b 5: ok
  # the request waits for the commit
  J fine swap
deliver direct 0 j1 0: taken
  J Unordered out
  J Stale deliver direct 0 j1 0: ignored
";

/// How many events their run has.
pub(crate) const EVENTS: usize = 5;

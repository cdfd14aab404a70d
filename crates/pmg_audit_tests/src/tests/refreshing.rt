//! Two gets that ask anew, the second one of a key that is known: each is answered by the reply to its own request.

/// Node 0 and process 0.
pub(crate) const AT_ZERO: &str = "\
put j0 internal x 1: ok
refresh j0 j1 k: parked
  J Collision now j0 j1 k: parked
  J Collision wait j0 j1 k: parked
  J Collision refresh j0 j1 h: parked
  J Collision refresh j0 j1 k: NotFound
  T Collision now j0 j1 k: parked
  T Collision wait j0 j1 k: parked
  T Collision refresh j0 j1 k: found 4
  # a get of an own key is no event
  B Collision refresh j0 j0 k: parked
  B Stale now j0 j1 k: parked
  B Stale refresh j0 j1 k: NotFound
  B Stale refresh j0 j1 h: parked
  # it has no number, and the next one has the first
  B Stale wait j0 j1 k: parked
deliver reply 0 1 j1 0 1 k 1 4: taken
  # ignored: of another node's request
  J Stale deliver reply 1 1 j1 0 1 k 1 4: taken
  # of another request
  J Stale deliver reply 0 2 j1 0 1 k 1 4: taken
  # ignored: of an own process
  J Stale deliver reply 0 1 j0 0 1 k 1 4: taken
  J Stale deliver reply 0 1 j1 0 1 k 1 9: taken
  J Stale deliver reply 0 1 j1 0: taken
  J Stale deliver piece j1 0 1 k 1 4: taken
  # nobody reads it
  J Unordered deliver reply 0 1 j1 0 1 h 1 4 k 1 4: taken
  J Stale deliver reply 0 1 j1 0 1 k 1 4: ignored
  J Stale out
  J fine twice
take j0: found 4
  J Collision take j0: found 5
  T Collision take j0: found 5
  B Stale take j0: found 5
  B Stale take j0: waiting
  # who asks is in a call until the answer is taken
  B Stale out
refresh j0 j1 k: parked
  # what is known is no answer
  B Stale refresh j0 j1 k: found 4
  B Stale now j0 j1 k: found 4
  B Stale wait j0 j1 k: found 4
  J Collision now j0 j1 k: parked
take j0: waiting
  B Stale take j0: found 4
  B fine out
  B fine twice
  J Stale swap
deliver reply 0 2 j1 1 2 k 2 5: taken
  # the reply to the first one once more
  J Stale deliver reply 0 1 j1 0 1 k 1 4: taken
  J Stale deliver reply 0 2 j1 1 2 k 2 6: taken
  J Stale deliver reply 0 2 j1 1: taken
  # the second commit is missing
  J Stale deliver reply 0 2 j1 2 3 k 3 5: taken
  J Unordered deliver reply 0 2 j1 0 2 k 2 5: taken
  J fine twice
take j0: found 5
  J Collision take j0: found 4
  T Collision take j0: found 4
  B Stale take j0: found 4
refresh j0 j0 x: found 1
  # its cache answers it, and no node is asked
  T fine refresh j0 j0 x: found 9
  T fine now j0 j0 x: found 1
  T fine out
  # these ask the node
  T Collision refresh j0 j1 x: found 1
  T Collision refresh j0 j0 pmix.rank: found 1
";

/// Node 1 and process 1.
pub(crate) const AT_ONE: &str = "\
put j1 global k 4: ok
commit j1 global k 4: commit 1
deliver anew 0 j1 0 1: taken
  # ignored: a request of the node's own, and one for a process that is not at home there
  J Stale deliver anew 1 j1 0 1: taken
  J Stale deliver anew 0 j0 0 1: taken
  J Stale deliver anew 0 j1 0 1: ignored
  J Unordered deliver anew 0 j1 0 2: taken
  J Unordered deliver direct 0 j1 0: taken
  J Unordered out
  J fine twice
  # the second commit is told then
  J Unordered swap
put j1 global k 5: ok
commit j1 global k 5: commit 2
deliver anew 0 j1 1 2: taken
  J Unordered deliver anew 0 j1 0 2: taken
  # the reply is that there is none, or no reply is sent
  J Unordered deliver anew 0 j1 2 2: taken
  J Unordered deliver anew 0 j1 3 2: taken
  J Unordered out
  J fine twice
";

/// How many events their run has.
pub(crate) const EVENTS: usize = 14;

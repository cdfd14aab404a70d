//! Two fences of two nodes with a process each, of which the first one's header is delivered once more in the second.

/// Node 0 and process 0.
pub(crate) const AT_ZERO: &str = "\
put j0 global a 1: ok
put j0 global b 2: ok
commit j0 global a 1 global b 2: commit 1
enter j0 plain: entered 1
  J Collision enter j0 plain: entered 7
  B Stale enter j0 plain: entered 7
deliver header 1 plain 1 j0,j1 j1 entered 0: taken
leave j0: released 1
enter j0 plain: entered 2
  B Stale enter j0 plain: entered 1
  # who is in a fence can put nothing
  T Collision also put j0 global c 3: ok
  T fine also put j0 global c 3: Busy
";

/// Node 1 and process 1.
pub(crate) const AT_ONE: &str = "\
enter j1 plain: entered 1
deliver header 0 plain 1 j0,j1 j0 entered 1: taken
leave j1: released 1
enter j1 plain: entered 2
deliver header 0 plain 1 j0,j1 j0 entered 1: taken
  # that of the second fence, which releases the process
  J Stale deliver header 0 plain 2 j0,j1 j0 entered 1: taken
leave j1: waiting
deliver header 0 plain 2 j0,j1 j0 entered 1: taken
  # the first one's once more, which does not
  J Stale deliver header 0 plain 1 j0,j1 j0 entered 1: taken
leave j1: released 2
  T fine also put j1 global c 3: ok
  # a request that nobody sent
  J Unordered also deliver fence 0 plain 1 j0,j1: taken
";

/// How many events their run has.
pub(crate) const EVENTS: usize = 15;

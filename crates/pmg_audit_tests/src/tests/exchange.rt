//! An exchange of two nodes with a process each, and what its lines may be changed into.
//!
//! Under each line stand changes: the account (`J` the node's journal, `T` its client's transcript, `B` both), what an audit answers
//! then (`fine`, or its refusal), and what stands in place of the line. What is answered is found by hand, from the rules of nodes:
//! Collision where an act or an answer of a client differs in its two accounts; else Stale where a node would have answered
//! otherwise; else Unordered where a frame is delivered that no node would have sent by then.

/// Node 0 and process 0.
pub(crate) const AT_ZERO: &str = "\
leave j0: idle
  J Collision leave j0: waiting
  T Collision take j0: idle
  B Stale leave j0: waiting
  B fine out
  B fine take j0: idle
put j0 local x 1: ok
  # what other processes see differs from what the commit carries
  T Collision put j0 internal x 1: ok
  T Collision put j0 local y 1: ok
  T Collision put j0 local x 9: ok
  T Collision put j0 local x 1: Busy
  T Collision put j0 local x 1: NoMemory
  # no cache takes these
  T Collision put j0 undef x 1: ok
  T Collision put j0 local pmix.x 1: ok
  T Collision out
  T fine twice
  # the next put is seen by others
  T fine swap
put j0 remote x 2: ok
  T Collision put j0 global x 2: ok
  T Collision out
put j0 global a 3: ok
  T Collision put j0 remote a 3: ok
  T Collision swap
commit j0 local x 1 remote x 2 global a 3: commit 1
  J Collision commit j1 local x 1 remote x 2 global a 3: commit 1
  J Collision commit j0 local x 1 remote x 2 local a 3: commit 1
  J Collision commit j0 local x 1 remote x 2 global d 3: commit 1
  J Collision commit j0 local x 1 remote x 2 global a 9: commit 1
  J Collision commit j0 local x 1 remote x 2: commit 1
  J Collision commit j0 local x 1 remote x 2 global a 3: commit 2
  J Collision commit j0 local x 1 remote x 2 global a 3: ok
  T Collision commit j0: commit 2
  T Collision commit j0: Busy
  T Collision commit j0: NoMemory
  T Collision leave j0: commit 1
  B Stale commit j0 local x 1 remote x 2 global a 3: commit 2
  # such a commit seals nothing, so the next one would carry all
  B Collision commit j0 local x 1 remote x 2 global a 3: ok
  J Collision out
  T Collision out
  J Collision twice
  T Collision twice
  J fine swap
  T fine swap
now j0 j0 x: found 2
  # its cache answers it, and no node is asked
  T fine now j0 j0 x: found 9
  T fine now j0 j0 x: NotFound
  T fine now j0 j0 y: found 2
  T fine wait j0 j0 x: found 2
  T fine out
  T fine twice
  T fine swap
  # these ask the node
  T Collision now j1 j0 x: found 2
  T Collision now j0 j1 x: found 2
  T Collision now j0 j0 pmix.rank: found 2
  # a call that found its desk closed, or for which there was no memory
  T fine also commit j0: Closed
  T fine also enter j0 collect: NoMemory
define s j0 j1: defined 1
  # the set that is deleted later is not there
  J Stale define t j0 j1: defined 1
  # node 1 is told of another set
  J Unordered define s j0: defined 1
  J fine define s j1 j0: defined 1
  J Stale define s j0 j1: defined 2
  J Stale define s j0 j1: ok
  J Stale define s j0 j1: Exists
  J Stale out
  J Stale twice
  # each would wait for the other: node 1 asks after it was told of the set
  J Unordered swap
deliver direct 1 j0 0: taken
  # ignored: a request of the node's own, and one for a process that is not at home there
  J Stale deliver direct 0 j0 0: taken
  J Stale deliver direct 1 j1 0: taken
  # the first commit is never sent
  J Unordered deliver direct 1 j0 1: taken
  J Unordered out
  J Unordered deliver range 1 j0 0: taken
  J Stale deliver direct 1 j0 0: ignored
  J Stale deliver direct 1 j0 0: ok
  J fine twice
  # node 1 asks the second time for what is sent after the first
  J Unordered swap
deliver direct 1 j0 1: taken
  J Stale deliver direct 0 j0 1: taken
  J Stale deliver direct 1 j1 1: taken
  # the second commit is sent with the header then
  J fine deliver direct 1 j0 0: taken
  J fine out
  J fine twice
  J fine swap
  J Stale deliver direct 1 j0 1: ignored
put j0 global b 5: ok
  T Collision put j0 global b 6: ok
  T Collision put j0 global b 5: NoMemory
  T Collision out
  T Collision swap
commit j0 global b 5: commit 2
  J Collision commit j1 global b 5: commit 2
  J Collision commit j0 local b 5: commit 2
  J Collision commit j0 global c 5: commit 2
  J Collision commit j0 global b 6: commit 2
  J Collision commit j0: commit 2
  J Collision commit j0 global b 5: commit 3
  B Stale commit j0 global b 5: commit 3
  B Stale commit j0 global b 5: Busy
  J Collision swap
  T Collision swap
put j0 global c 6: ok
  # no commit carries it
  T fine put j0 local c 6: ok
  T fine put j0 global d 6: ok
  T fine put j0 global c 9: ok
  T fine put j0 global c 6: Busy
  T fine out
  T fine twice
  # who is in a fence can put nothing
  T Collision swap
  T Collision put j0 undef c 6: ok
  T Collision put j0 global pmix.c 6: ok
enter j0 collect j0 j1: entered 1
  J Collision enter j1 collect j0 j1: entered 1
  J Collision enter j0 plain j0 j1: entered 1
  J Collision enter j0 collect j0: entered 1
  J Collision enter j0 collect j1 j0: entered 1
  J Collision enter j0 collect j0 j1: entered 2
  J Collision enter j0 collect j0 j1: idle
  T Collision enter j1 collect j0 j1: entered 1
  T Collision enter j0 plain j0 j1: entered 1
  T Collision enter j0 collect: entered 1
  T Collision enter j0 collect j0 j1: entered 2
  T Collision enter j0 collect j0 j1: Closed
  B Collision enter j1 collect j0 j1: entered 1
  # the same participants
  B fine enter j0 collect j1 j0: entered 1
  B fine enter j0 collect: entered 1
  # other fences, from which the process is not released, or at once
  B Stale enter j0 plain j0 j1: entered 1
  B Stale enter j0 collect j0: entered 1
  B Stale enter j0 collect j0 j1: entered 2
  B Stale enter j0 collect j0 j1: Busy
  J Collision out
  T Collision out
  # who is in no fence asks for no header
  J Unordered swap
nudge: ok
  J Stale nudge: taken
  J Stale nudge: Busy
  # the header is not asked for
  J Unordered out
  J Unordered swap
  J fine twice
deliver header 1 collect 1 j0,j1 j1 entered 2: taken
  # ignored: of the node's own, of a fence without it, not of node 1's participants
  J Stale deliver header 0 collect 1 j0,j1 j1 entered 2: taken
  J Stale deliver header 1 collect 1 j1 j1 entered 2: taken
  J Stale deliver header 1 collect 1 j0,j1 j0 entered 2: taken
  # of other fences
  J Stale deliver header 1 plain 1 j0,j1 j1 entered 2: taken
  J Stale deliver header 1 collect 2 j0,j1 j1 entered 2: taken
  # the process is told who is gone
  J Stale deliver header 1 collect 1 j0,j1 j1 gone 2: taken
  # released at once, released as before, not released
  J Stale deliver header 1 collect 1 j0,j1 j1 entered 0: taken
  J Unordered deliver header 1 collect 1 j0,j1 j1 entered 1: taken
  J Stale deliver header 1 collect 1 j0,j1 j1 entered 3: taken
  J Stale deliver header 1 collect 1 j0,j1 j1 entered 2: ignored
  J Stale out
  J fine twice
  J fine swap
leave j0: waiting
  J Collision leave j1: waiting
  J Collision take j0: waiting
  J Collision leave j0: idle
  T Collision leave j1: waiting
  T Collision leave j0: idle
  B Stale leave j0: idle
  J Collision out
  T Collision out
  B fine out
  J Collision twice
  T Collision twice
  B fine twice
  J fine swap
  T Collision swap
nudge: ok
  # the commits are not asked for
  J Unordered out
  J Unordered swap
  J fine twice
deliver piece j1 0 2 k 2 4: taken
  # ignored: of an own process
  J Stale deliver piece j0 0 2 k 2 4: taken
  # the first commit is missing
  J Stale deliver piece j1 1 2 k 2 4: taken
  # nobody reads it
  J Unordered deliver piece j1 0 3 k 2 4: taken
  J Unordered deliver piece j1 0 2 d 2 4: taken
  J Unordered deliver piece j1 0 2 k 1 4: taken
  J Unordered deliver piece j1 0 2 k 2 9: taken
  J Unordered deliver piece j1 0 2: taken
  J Stale deliver piece j1 0 2 k 2 4: ignored
  J Stale out
  J fine twice
  J Stale swap
leave j0: released 1
  J Collision leave j0: released 2
  J Collision leave j0: released 1 j1
  T Collision leave j0: released 2
  T Collision leave j0: released 1 j1
  B Stale leave j0: released 2
  B Stale leave j0: released 1 j1
  J Collision out
  J fine swap
deliver direct 1 j0 2: taken
  # answered at once, or not by the next commit
  J Unordered deliver direct 1 j0 1: taken
  J Unordered deliver direct 1 j0 3: taken
  J Unordered out
  J fine twice
  J fine swap
end j0: ended 3
  J Collision end j1: ended 3
  J Collision leave j0: ended 3
  J Collision end j0: ended 4
  T Collision end j1: ended 3
  T Collision end j0: ended 4
  B Stale end j0: ended 4
  J Collision out
  T Collision out
  # node 1 is not told
  B Unordered out
  J Collision twice
  B Stale twice
  J fine swap
  # who has ended can put nothing
  T Collision also put j0 global d 1: ok
  T fine also put j0 global d 1: Terminated
delete s: defined 2
  J Stale delete t: defined 2
  J Stale delete s: defined 3
  J Stale delete s: NotFound
  J fine out
  J Stale twice
  # frames that nobody sent: taken by the node, or ignored
  J Unordered also deliver piece j1 2 3 k 3 5: taken
  J Unordered also deliver piece j0 0 1 a 1 3: ignored
  J Stale also deliver piece j0 0 1 a 1 3: taken
";

/// Node 1 and process 1.
pub(crate) const AT_ONE: &str = "\
commit j1: commit 1
  J Collision commit j1 global k 4: commit 1
  J Collision commit j0: commit 1
put j1 internal i 7: ok
  # no commit carries it
  T fine put j1 internal h 7: ok
  T fine put j1 internal i 9: ok
  T fine out
  T Collision put j1 global i 7: ok
put j1 global k 4: ok
  T Collision put j1 internal k 4: ok
  T Collision out
  T Collision swap
commit j1 global k 4: commit 2
  J Collision commit j1: commit 2
  T Collision swap
  J fine swap
deliver piece pmix.host0 0 1 s 1 j0,j1: taken
  # nobody reads it
  J Unordered deliver piece j0 0 1 s 1 j0,j1: taken
  J Unordered deliver piece pmix.host0 0 2 s 1 j0,j1: taken
  J Unordered deliver piece pmix.host0 0 1 t 1 j0,j1: taken
  J Unordered deliver piece pmix.host0 0 1 s 1 j0: taken
  J Unordered deliver piece pmix.host0 0 1: taken
  # ignored: of an own process
  J Stale deliver piece j1 0 1 s 1 j0,j1: taken
  J Stale deliver piece pmix.host0 0 1 s 1 j0,j1: ignored
  # a frame may be lost, or come twice
  J fine out
  J fine twice
  J fine swap
wait j1 j0 b: parked
  J Collision wait j0 j0 b: parked
  J Collision wait j1 j1 b: parked
  J Collision wait j1 j0 c: parked
  J Collision now j1 j0 b: parked
  J Collision wait j1 j0 b: found 5
  J Collision wait j1 j0 b: NotFound
  T Collision wait j0 j0 b: parked
  T Collision wait j1 j1 b: parked
  T Collision wait j1 j0 c: parked
  T Collision now j1 j0 b: parked
  T Collision wait j1 j0 b: NotFound
  # a get of an own key is no event
  B Collision wait j1 j1 b: parked
  B Stale now j1 j0 b: parked
  B Stale wait j1 j0 a: parked
  B Stale wait j1 j0 d: parked
  # it asks for less then
  J Unordered swap
deliver piece j0 0 1 a 1 3 x 1 2: taken
  J Stale deliver piece pmix.host0 0 1 a 1 3 x 1 2: taken
  # it answers the get, or one that comes later
  J Stale deliver piece j0 0 1 b 1 3 x 1 2: taken
  J Stale deliver piece j0 0 1 d 1 3 x 1 2: taken
  J Stale deliver piece j0 0 1 a 1 9 x 1 2: taken
  # nobody reads it
  J Unordered deliver piece j0 0 1 a 1 3 y 1 2: taken
  J Unordered deliver piece j0 0 1 a 1 3 x 1 9: taken
  J Unordered deliver piece j0 0 1 a 1 3: taken
  J Unordered deliver piece j0 0 2 a 1 3 x 1 2: taken
  # the second commit is not read without the first
  J Stale out
  J fine twice
  J fine swap
take j1: waiting
  J Collision take j0: waiting
  J Collision take j1: idle
  T Collision take j0: waiting
  T Collision take j1: idle
  B Stale take j1: idle
  B fine out
  J Stale swap
deliver piece j0 1 2 b 2 5: taken
  J Unordered deliver piece j0 0 2 b 2 5: taken
  J Unordered deliver piece j0 1 3 b 2 5: taken
  J Stale deliver piece j0 1 2 d 2 5: taken
  J Stale deliver piece j0 1 2 b 2 6: taken
  J Stale deliver piece j0 1 2: taken
  J Stale out
  J fine twice
  J Stale swap
take j1: found 5
  J Collision take j1: found 6
  J Collision take j1: NotFound
  T Collision take j1: found 6
  B Stale take j1: found 6
  B Stale out
  J Collision swap
enter j1 collect: entered 1
  B fine enter j1 collect j0 j1: entered 1
  B Stale enter j1 plain: entered 1
  # released at once, and node 0 is told nothing
  B Unordered enter j1 collect j1: entered 1
commit j1: Busy
  J Collision commit j1: Terminated
  J Collision commit j1: commit 3
  J Collision out
  T Collision commit j1: Closed
  B Stale commit j1: Terminated
  B Stale commit j1: commit 3
  # a refusal changes nothing
  B fine out
  B fine twice
deliver header 0 collect 1 j0,j1 j0 entered 2: taken
  # the next one counts, unless this is one of its fence
  J fine out
  J Unordered deliver header 0 plain 1 j0,j1 j0 entered 2: taken
  J Unordered deliver header 0 collect 2 j0,j1 j0 entered 2: taken
  J Unordered deliver header 0 collect 1 j0,j1 j0 entered 1: taken
  J Stale deliver header 0 collect 1 j0,j1 j0 entered 3: taken
  J Stale deliver header 0 collect 1 j0,j1 j0 gone 2: taken
  # ignored: of the node's own, of a fence without it, not of node 0's participants
  J Stale deliver header 1 collect 1 j0,j1 j0 entered 2: taken
  J Stale deliver header 0 collect 1 j0 j0 entered 2: taken
  J Stale deliver header 0 collect 1 j0,j1 j1 entered 2: taken
deliver header 0 collect 1 j0,j1 j0 entered 2: taken
  # the one before it counts
  J fine out
  J fine swap
  J Unordered deliver header 0 collect 1 j0,j1 j0 entered 1: taken
  J Unordered deliver header 0 collect 1 j0,j1 j0 entered 3: taken
  J Unordered deliver header 0 collect 1 j0,j1 j0 gone 2: taken
  J Stale deliver header 0 collect 1 j0,j1 j0 entered 2: ignored
put j1 internal q 1: Busy
  T fine put j1 internal r 1: Busy
  T fine out
  # who is in a fence can put nothing
  T Collision put j1 internal q 1: ok
leave j1: released 1
  J Collision leave j1: released 2
  T Collision leave j1: released 1 j0
  B Stale leave j1: released 1 j0
  B Stale out
  J fine swap
deliver fence 0 collect 1 j0,j1: taken
  # ignored: of the node's own, of a fence without it
  J Stale deliver fence 1 collect 1 j0,j1: taken
  J Stale deliver fence 0 collect 1 j0: taken
  # of other fences
  J Unordered deliver fence 0 plain 1 j0,j1: taken
  J Unordered deliver fence 0 collect 2 j0,j1: taken
  J Unordered deliver fence 0 collect 1 j1: taken
  J Stale deliver fence 0 collect 1 j0,j1: ignored
  # the header was sent before
  J fine out
  J fine twice
  J fine swap
deliver range 0 j1 0: taken
  # ignored: of the node's own, for a process that is not at home there
  J Stale deliver range 1 j1 0: taken
  J Stale deliver range 0 j0 0: taken
  J Unordered deliver range 0 j1 1: taken
  J Unordered deliver direct 0 j1 0: taken
  # the commits were sent before
  J fine out
  J fine twice
wait j1 j0 c: parked
  B Stale wait j1 j0 a: parked
  B Stale now j1 j0 c: parked
deliver piece j0 2 3 pmix.term 3 true: taken
  J Stale deliver piece pmix.host0 2 3 pmix.term 3 true: taken
  J Stale deliver piece j0 2 3 pmix.tern 3 true: taken
  J Stale deliver piece j0 2 3 c 3 true: taken
  # that it is there says that the process has ended
  J Unordered deliver piece j0 2 3 pmix.term 3 false: taken
  J Unordered deliver piece j0 1 3 pmix.term 3 true: taken
  J Unordered deliver piece j0 2 4 pmix.term 3 true: taken
  J Stale out
take j1: NotFound
  J Collision take j1: OutsideScope
  B Stale take j1: OutsideScope
  B Stale take j1: found 5
  B Stale take j1: waiting
now j1 j0 a: found 3
  J Collision now j1 j0 x: found 3
  J Collision wait j1 j0 a: found 3
  J Collision now j1 j0 a: found 4
  T Collision wait j1 j0 a: found 3
  B Stale now j1 j0 x: found 3
  B Stale now j1 j0 a: found 4
  B Stale now j1 j0 a: NotFound
  # what is there is found in either mode
  B fine wait j1 j0 a: found 3
  B fine out
  B fine twice
  # what is put after the last event is lost
  T fine also put j1 global d 1: ok
  T Collision also put j1 undef d 1: ok
";

/// How many events their run has: what is asked of the nodes, the frames that are delivered, and the puts that are done.
pub(crate) const EVENTS: usize = 42;

//! Gets: what is found by whom, who waits, whom its node asks, and what ends the wait.
use crate::tests::nodes::group::{Row, play_all};

const ROWS: &[Row] = &[
    (
        "each_scope_reaches_whom_it_names",
        2,
        &[0, 0, 1],
        &[
            "\
0 commit j0 internal x 1 local y 2 remote z 3 global w 4
 commit 1
0 now j1 j0 y
 found u8:2
0 now j1 j0 w
 found u8:4
0 now j1 j0 z
 OutsideScope
0 wait j1 j0 z
 OutsideScope
0 now j1 j0 x
 NotFound
1 now j2 j0 y
 NotFound
0 dump
 proc j 0 level 1
   u8:4 w
   u8:3 z
0 range 1 j0 0
 taken
 to 1: piece j0 0..1 w=u8:4@1 z=u8:3@1
1 deliver 1
 taken
1 now j2 j0 w
 found u8:4
1 now j2 j0 z
 found u8:3
1 now j2 j0 y
 NotFound
",
        ],
    ),
    // A LOCAL and a REMOTE value of one key stand side by side. The second request waits until the
    // target ends.
    (
        "a_get_waits_for_a_process_of_another_node",
        2,
        &[0, 0, 1],
        &[
            "\
0 commit j0 local a 7 remote a 8
 commit 1
0 now j1 j0 a
 found u8:7
1 wait j2 j0 a
 parked
 to 0: direct ask 1 j0 0
1 status j2
 parked
0 deliver 1
 taken
 to 1: piece j0 0..1 a=u8:8@1
1 take j2
 waiting
1 deliver 2
 taken
1 status j2
 answered
1 take j2
 found u8:8
1 take j2
 idle
1 wait j2 j0 b
 parked
 to 0: direct ask 1 j0 1
0 deliver 3
 taken
0 end j0
 ended 2
 to 1: piece j0 1..2 pmix.term=bool:true@2
1 deliver 4
 taken
1 status j2
 answered
1 take j2
 NotFound
1 wait j2 j0 b
 NotFound
1 wait j2 j0 a
 found u8:8
",
        ],
    ),
    (
        "a_get_waits_for_a_process_of_its_node",
        1,
        &[0, 0],
        &[
            "\
0 enter j0 plain j1
 NotAParticipant
0 now j0 j1 a
 NotFound
0 wait j0 j1 a
 parked
0 commit j0 global b 1
 Busy
0 commit j1
 commit 1
0 take j0
 waiting
0 commit j1 local a 8
 commit 2
0 take j0
 found u8:8
0 take j0
 idle
0 leave j0
 idle
0 commit j0 global b 1
 commit 1
0 end j0
 ended 2
0 commit j0
 Terminated
0 now j0 j9 a
 BadParam
0 wait j1 j0 a
 NotFound
0 wait j1 j0 b
 found u8:1
",
        ],
    ),
    // The value that comes is kept from processes of the same node; the end of a target answers
    // whoever waits for it there.
    (
        "what_is_outside_the_scope_ends_the_wait",
        1,
        &[0, 0, 0],
        &[
            "\
0 wait j0 j1 a
 parked
0 wait j2 j1 b
 parked
0 nudge
 ok
0 commit j1 remote a 1
 commit 1
0 status j0
 answered
0 status j2
 parked
0 take j0
 OutsideScope
0 take j0
 idle
0 end j1
 ended 2
0 take j2
 NotFound
0 status j2
 idle
",
        ],
    ),
    // Two gets wait for keys of process 0. Whoever waits still asks again once more commits are
    // known, and only then: not at commits after a missing one, and not at those that are known.
    (
        "a_get_asks_again_once_more_is_known",
        2,
        &[0, 1, 1, 1],
        &[
            "\
1 wait j2 j0 b
 parked
 to 0: direct ask 1 j0 0
1 wait j1 j0 a
 parked
 to 0: direct ask 1 j0 0
1 wait j3 j1 a
 parked
1 piece j0 2 3 c 3 5
 taken
1 piece j0 0 1 d 1 6
 taken
 to 0: direct ask 1 j0 1
 to 0: direct ask 1 j0 1
1 piece j0 0 1 d 1 6
 taken
1 piece j0 1 2 a 2 7
 taken
 to 0: direct ask 1 j0 3
1 take j1
 found u8:7
1 take j2
 waiting
1 take j3
 waiting
1 nudge
 ok
 to 0: direct ask 1 j0 3
 to 0: range ask 1 pmix.host0 0
1 piece j0 3 4 b 4 8
 taken
1 take j2
 found u8:8
",
        ],
    ),
    // Gets of two targets ask in the order of the processes that wait; at an end the wait is over,
    // and nothing is answered.
    (
        "an_end_ends_the_wait",
        3,
        &[0, 1, 1, 2],
        &[
            "\
1 wait j2 j0 a
 parked
 to 0: direct ask 1 j0 0
1 wait j1 j3 a
 parked
 to 2: direct ask 1 j3 0
1 nudge
 ok
 to 2: direct ask 1 j3 0
 to 0: direct ask 1 j0 0
 to 0: range ask 1 pmix.host0 0
1 end j2
 ended 1
1 status j2
 ended
1 take j2
 Terminated
1 piece j0 0 1 a 1 1
 taken
1 status j2
 ended
1 nudge
 ok
 to 2: direct ask 1 j3 0
 to 0: range ask 1 pmix.host0 0
",
        ],
    ),
    // What the registry answers of reserved keys, at the asking node.
    (
        "reserved_keys_are_answered_at_once",
        2,
        &[1, 0, 1],
        &[
            "\
1 wait j0 j* pmix.job.size
 found u32:3
1 now j0 j? pmix.job.size
 found u32:3
1 now j0 j* pmix.num.nodes
 found u32:2
1 now j0 j* pmix.local.size
 found u32:2
1 now j0 j1 pmix.local.size
 found u32:1
0 now j1 j* pmix.local.size
 found u32:1
1 now j0 j* pmix.lpeers
 found string:302c32
1 now j0 j2 pmix.lrank
 found u16:1
1 now j0 j0 pmix.rank
 found rank:0
1 now j0 j* pmix.rank
 NotFound
1 wait j0 j* pmix.lrank
 NotFound
1 wait j0 j1 pmix.nothing
 NotFound
1 wait j0 j1 pmix.term
 NotFound
",
        ],
    ),
];

#[test]
fn gets_are_answered_or_wait(rt: HostRuntime) {
    play_all(&rt, rt.alloc(), ROWS);
}

//! What goes out of fences when nodes ask, processes end and nodes are nudged: to whom, and in
//! which order.
use crate::tests::nodes::group::{Row, play_all};

const ROWS: &[Row] = &[
    // A fence ask teaches the name: the own header, which exists by that, goes to all; asked for
    // again, to the asker alone.
    (
        "a_fence_ask_is_answered_once_the_header_exists",
        3,
        &[0, 1, 2],
        &[
            "\
2 fence 1 plain 1 j0,j1,j2
 taken
2 commit j2 remote a 5
 commit 1
2 end j2
 ended 2
 to 0: header 2 plain 1 j0 j1 j2, j2 gone 2
 to 1: header 2 plain 1 j0 j1 j2, j2 gone 2
2 fence 0 collect 1 j0,j1,j2
 taken
 to 0: header 2 collect 1 j0 j1 j2, j2 gone 2
 to 0: piece j2 0..2 a=u8:5@1 pmix.term=bool:true@2
 to 1: header 2 collect 1 j0 j1 j2, j2 gone 2
 to 1: piece j2 0..2 a=u8:5@1 pmix.term=bool:true@2
2 fence 1 collect 1 j0,j1,j2
 taken
 to 1: header 2 collect 1 j0 j1 j2, j2 gone 2
2 range 1 j2 1
 taken
 to 1: piece j2 1..2 pmix.term=bool:true@2
2 fence 1 plain 1 j0,j1,j2
 taken
 to 1: header 2 plain 1 j0 j1 j2, j2 gone 2
",
        ],
    ),
    // Three fences are known when process 0 ends, of which one waits for process 1: held requests
    // are answered first, then the headers go out by participants, then plain before collect; the
    // commits of process 0 were sent by then.
    (
        "an_end_announces_fences_by_name",
        2,
        &[0, 0, 1],
        &[
            "\
0 fence 1 collect 1 j0,j2
 taken
0 fence 1 collect 1 j0,j1,j2
 taken
0 fence 1 plain 2 j0,j2
 taken
0 direct 1 j0 0
 taken
0 end j0
 ended 1
 to 1: piece j0 0..1 pmix.term=bool:true@1
 to 1: header 0 plain 2 j0 j2, j0 gone 1
 to 1: header 0 collect 1 j0 j2, j0 gone 1
0 end j1
 ended 1
 to 1: header 0 collect 1 j0 j1 j2, j0 gone 1, j1 gone 1
 to 1: piece j1 0..1 pmix.term=bool:true@1
0 end j1
 Terminated
",
        ],
    ),
    // Two fences and a get wait at node 1. Headers are asked for, then commits that headers name,
    // fence by fence; then the home of the get's target; then changes of the process sets.
    (
        "a_nudge_asks_for_all_that_is_missing",
        3,
        &[0, 1, 1, 2, 1],
        &[
            "\
1 nudge
 ok
 to 0: range ask 1 pmix.host0 0
1 enter j2 collect j0 j2
 entered 1
 to 0: header 1 collect 1 j0 j2, j2 entered 0
1 enter j1 collect j0 j1 j3
 entered 1
 to 0: header 1 collect 1 j0 j1 j3, j1 entered 0
 to 2: header 1 collect 1 j0 j1 j3, j1 entered 0
1 wait j4 j0 a
 parked
 to 0: direct ask 1 j0 0
1 header 0 collect 1 j0,j1,j3 j0 entered 3
 taken
1 nudge
 ok
 to 2: fence ask 1 collect 1 j0 j1 j3
 to 0: range ask 1 j0 0
 to 0: fence ask 1 collect 1 j0 j2
 to 0: direct ask 1 j0 0
 to 0: range ask 1 pmix.host0 0
1 piece j0 0 2 b 1 1
 taken
 to 0: direct ask 1 j0 2
1 piece pmix.host0 0 1 s 1 1
 taken
1 end j2
 ended 1
1 nudge
 ok
 to 2: fence ask 1 collect 1 j0 j1 j3
 to 0: range ask 1 j0 2
 to 0: direct ask 1 j0 2
 to 0: range ask 1 pmix.host0 1
0 nudge
 ok
",
        ],
    ),
];

#[test]
fn news_of_fences_go_out_in_order(rt: HostRuntime) {
    play_all(&rt, rt.alloc(), ROWS);
}

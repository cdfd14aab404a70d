//! Frames that do not concern a node: each is ignored, nothing is sent, and all stands as before.
use crate::tests::nodes::group::{Row, play_all};

// Node 1, where process 1 waits in a fence for process 0, and process 2 for a key of it, after a
// commit.
const WAITING: &str = "\
1 commit j1 global a 1
 commit 1
1 enter j1 plain j0 j1
 entered 1
 to 0: header 1 plain 1 j0 j1, j1 entered 1
1 wait j2 j0 a
 parked
 to 0: direct ask 1 j0 0
";

// Nothing came of the frames that were ignored.
const WAITING_STILL: &str = "\
1 status j1
 in fence
1 status j2
 parked
1 leave j1
 waiting
1 take j2
 waiting
1 dump
 proc j 1 level 1
   u8:1 a
1 nudge
 ok
 to 0: fence ask 1 plain 1 j0 j1
 to 0: direct ask 1 j0 0
 to 0: range ask 1 pmix.host0 0
1 commit j1
 Busy
1 end j1
 ended 2
";

const ROWS: &[Row] = &[
    (
        "foreign_requests_and_commits_are_ignored",
        3,
        &[0, 1, 1, 2],
        &[
            WAITING,
            "\
1 piece j1 1 2 a 2 9
 ignored
1 piece j4 0 1 a 1 9
 ignored
1 piece k0 0 1 a 1 9
 ignored
1 range 1 j1 0
 ignored
1 range 3 j1 0
 ignored
1 range 0 j0 0
 ignored
1 range 0 j4 0
 ignored
1 range 0 k0 0
 ignored
1 range 0 pmix.host0 0
 ignored
1 direct 1 j1 1
 ignored
1 direct 5 j1 1
 ignored
1 direct 0 j0 0
 ignored
1 direct 0 j4 0
 ignored
1 direct 0 k0 0
 ignored
1 direct 0 pmix.host0 0
 ignored
1 anew 1 j1 0 1
 ignored
1 anew 3 j1 0 1
 ignored
1 anew 0 j0 0 1
 ignored
1 anew 0 j4 0 1
 ignored
1 anew 0 k0 0 1
 ignored
1 anew 0 pmix.host0 0 1
 ignored
1 reply 0 1 j0 0 1 a 1 9
 ignored
1 reply 1 1 j1 1 2 a 2 9
 ignored
1 reply 1 1 j4 0 1 a 1 9
 ignored
1 reply 1 1 k0 0 1 a 1 9
 ignored
",
            WAITING_STILL,
        ],
    ),
    (
        "foreign_fences_are_ignored",
        3,
        &[0, 1, 1, 2],
        &[
            WAITING,
            "\
1 header 0 plain 1 j0,j1 j1 entered 0
 ignored
1 header 0 plain 1 j0,j1 j0 entered 0 j1 entered 0
 ignored
1 header 1 plain 1 j0,j1 j1 entered 0
 ignored
1 header 1 plain 1 j0,j1 j0 entered 0
 ignored
1 header 2 plain 1 j0,j1 j0 entered 0
 ignored
1 header 3 plain 1 j0,j1 j0 entered 0
 ignored
1 header 0 plain 1 j0,j1,j2 j0 entered 0 j2 entered 0
 ignored
1 header 2 plain 1 j1,j2,j3 j1 entered 0 j3 entered 0
 ignored
1 header 0 plain 1 j0,j1,k0 j0 entered 0
 ignored
1 header 0 collect 1 j0,j1,j4 j0 entered 0
 ignored
1 header 0 plain 1 j0 j0 entered 0
 ignored
1 fence 0 plain 1 j0
 ignored
1 fence 0 plain 1 j0,j1,k0
 ignored
1 fence 0 collect 1 j0,j1,j4
 ignored
1 fence 1 plain 1 j0,j1
 ignored
1 fence 3 plain 1 j0,j1
 ignored
0 header 1 plain 1 j0,j1,j2 j1 entered 0
 ignored
0 header 1 plain 1 j0,j1,j2 j2 entered 0
 ignored
0 header 1 plain 1 j0,j1,j2 j1 entered 0 j2 gone 1
 taken
",
            WAITING_STILL,
        ],
    ),
    // Of the fences of one signature those below the greatest instance and the one before are forgotten.
    (
        "forgotten_fences_are_ignored",
        2,
        &[0, 1],
        &[
            "\
1 fence 0 plain 3 j0,j1
 taken
1 fence 0 plain 1 j0,j1
 ignored
1 header 0 plain 1 j0,j1 j0 entered 0
 ignored
1 fence 0 plain 2 j0,j1
 taken
",
        ],
    ),
    // The like of these at the nodes that they concern.
    (
        "frames_that_concern_a_node_are_taken",
        3,
        &[0, 1, 1, 2],
        &[
            WAITING,
            "\
1 range 0 j1 0
 taken
 to 0: piece j1 0..1 a=u8:1@1
1 direct 2 j1 1
 taken
1 fence 2 plain 1 j0,j1
 taken
 to 2: header 1 plain 1 j0 j1, j1 entered 1
1 header 0 plain 1 j0,j1 j0 entered 4
 taken
1 leave j1
 released 1 gone -
1 piece j0 0 1 a 1 3
 taken
1 take j2
 found u8:3
0 direct 1 pmix.host0 0
 taken
0 anew 1 pmix.host0 0 1
 taken
 to 1: refresh reply 1 request 1 pmix.host0 0..0
1 anew 2 j1 0 7
 taken
 to 2: refresh reply 2 request 7 j1 0..1 a=u8:1@1
1 anew 2 j1 1 7
 taken
 to 2: refresh reply 2 request 7 j1 1..1
1 anew 2 j1 2 7
 taken
1 reply 1 1 pmix.host0 0
 taken
",
        ],
    ),
];

#[test]
fn frames_of_others_change_nothing(rt: HostRuntime) {
    play_all(&rt, rt.alloc(), ROWS);
}

//! Where the commits start that go with a header: after those that the receiver was sent, or said
//! that it knows.
use crate::tests::nodes::group::{Row, play_all};

const ROWS: &[Row] = &[
    // The piece of the first fence is late, and that of the second comes before it.
    (
        "commits_are_sent_once",
        2,
        &[0, 1],
        &[
            "\
0 commit j0 global a 1
 commit 1
0 enter j0 collect
 entered 1
 to 1: header 0 collect 1 j0 j1, j0 entered 1
 to 1: piece j0 0..1 a=u8:1@1
1 enter j1 collect
 entered 1
 to 0: header 1 collect 1 j0 j1, j1 entered 0
1 deliver 1
 taken
0 deliver 3
 taken
0 leave j0
 released 1 gone -
0 commit j0 global b 2
 commit 2
0 enter j0 collect
 entered 2
 to 1: header 0 collect 2 j0 j1, j0 entered 2
 to 1: piece j0 1..2 b=u8:2@2
1 deliver 5
 taken
1 leave j1
 waiting
1 dump
1 deliver 2
 taken
1 dump
 proc j 0 level 2
   u8:1 a
   u8:2 b
1 leave j1
 released 1 gone -
1 enter j1 collect
 entered 2
 to 0: header 1 collect 2 j0 j1, j1 entered 0
1 deliver 4
 taken
0 deliver 6
 taken
0 leave j0
 released 2 gone -
1 leave j1
 released 2 gone -
0 enter j0 collect
 entered 3
 to 1: header 0 collect 3 j0 j1, j0 entered 2
1 enter j1 collect
 entered 3
 to 0: header 1 collect 3 j0 j1, j1 entered 0
1 deliver 7
 taken
1 leave j1
 released 3 gone -
",
        ],
    ),
    // A request that goes past the level says that nothing is missing; one that goes back says that
    // all is.
    (
        "a_request_says_what_its_node_knows",
        2,
        &[0, 1],
        &[
            "\
0 commit j0 global a 1
 commit 1
0 range 1 j0 7
 taken
0 enter j0 collect
 entered 1
 to 1: header 0 collect 1 j0 j1, j0 entered 1
0 range 1 j0 1
 taken
0 fence 1 collect 1 j0,j1
 taken
 to 1: header 0 collect 1 j0 j1, j0 entered 1
0 range 1 j0 0
 taken
 to 1: piece j0 0..1 a=u8:1@1
0 fence 1 collect 1 j0,j1
 taken
 to 1: header 0 collect 1 j0 j1, j0 entered 1
0 direct 1 j0 0
 taken
 to 1: piece j0 0..1 a=u8:1@1
",
        ],
    ),
    // Three nodes ask for the commits of process 0, one of them twice: each is answered from the
    // least number that it named, by its next commit past that one, and once.
    (
        "held_requests_are_answered_from_the_least_level",
        3,
        &[0, 1, 2],
        &[
            "\
0 commit j0 global a 1
 commit 1
0 direct 2 j0 2
 taken
0 direct 1 j0 3
 taken
0 direct 1 j0 1
 taken
0 direct 1 j0 2
 taken
0 commit j0 remote b 2
 commit 2
 to 1: piece j0 1..2 b=u8:2@2
0 commit j0 local b 3
 commit 3
 to 2: piece j0 2..3
0 commit j0
 commit 4
0 direct 2 j0 4
 taken
0 direct 1 j0 4
 taken
0 end j0
 ended 5
 to 1: piece j0 4..5 pmix.term=bool:true@5
 to 2: piece j0 4..5 pmix.term=bool:true@5
",
        ],
    ),
];

#[test]
fn commits_go_out_after_those_that_are_known(rt: HostRuntime) {
    play_all(&rt, rt.alloc(), ROWS);
}

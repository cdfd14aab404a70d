//! Process sets: who defines them, and how other nodes learn of them.
use crate::tests::nodes::group::{Row, play_all};

const ROWS: &[Row] = &[
    (
        "a_set_is_known_where_its_change_came",
        2,
        &[0, 1],
        &[
            "\
0 define fast j1 j0
 defined 1
 to 1: piece pmix.host0 0..1 fast=array:proc[6a/0,6a/1]@1
0 define fast j0
 Exists
0 members fast
 members proc:6a/0 proc:6a/1
1 members fast
 NotFound
1 deliver 1
 taken
1 members fast
 members proc:6a/0 proc:6a/1
0 delete fast
 defined 2
 to 1: piece pmix.host0 0..2 fast=array:proc[]@2
0 members fast
 NotFound
1 members fast
 members proc:6a/0 proc:6a/1
1 deliver 2
 taken
1 members fast
 NotFound
0 delete fast
 NotFound
0 define fast j*
 defined 3
 to 1: piece pmix.host0 0..3 fast=array:proc[6a/0,6a/1]@3
0 dump
 proc pmix.host 0 level 3
   array:proc[6a/0,6a/1] fast
",
        ],
    ),
    // A change that was lost is asked for at a nudge.
    (
        "a_lost_change_is_asked_for",
        3,
        &[0, 1, 2],
        &[
            "\
0 define a j2 j2
 defined 1
 to 1: piece pmix.host0 0..1 a=array:proc[6a/2]@1
 to 2: piece pmix.host0 0..1 a=array:proc[6a/2]@1
2 deliver 2
 taken
0 define b j0
 defined 2
 to 1: piece pmix.host0 0..2 a=array:proc[6a/2]@1 b=array:proc[6a/0]@2
 to 2: piece pmix.host0 0..2 a=array:proc[6a/2]@1 b=array:proc[6a/0]@2
1 nudge
 ok
 to 0: range ask 1 pmix.host0 0
2 nudge
 ok
 to 0: range ask 2 pmix.host0 1
0 deliver 6
 taken
 to 2: piece pmix.host0 1..2 b=array:proc[6a/0]@2
0 deliver 5
 taken
 to 1: piece pmix.host0 0..2 a=array:proc[6a/2]@1 b=array:proc[6a/0]@2
2 deliver 7
 taken
1 deliver 8
 taken
1 members b
 members proc:6a/0
2 members b
 members proc:6a/0
2 members a
 members proc:6a/2
0 range 1 pmix.host0 2
 taken
2 nudge
 ok
 to 0: range ask 2 pmix.host0 2
",
        ],
    ),
    // A request for the next change waits as one for a process's next commit does, and is answered
    // first.
    (
        "the_next_change_is_waited_for",
        3,
        &[0, 1, 2],
        &[
            "\
0 direct 2 pmix.host0 0
 taken
0 define a j0
 defined 1
 to 2: piece pmix.host0 0..1 a=array:proc[6a/0]@1
 to 1: piece pmix.host0 0..1 a=array:proc[6a/0]@1
 to 2: piece pmix.host0 0..1 a=array:proc[6a/0]@1
0 delete a
 defined 2
 to 1: piece pmix.host0 0..2 a=array:proc[]@2
 to 2: piece pmix.host0 0..2 a=array:proc[]@2
0 members a
 NotFound
",
        ],
    ),
];

#[test]
fn sets_are_known_where_their_changes_came(rt: HostRuntime) {
    play_all(&rt, rt.alloc(), ROWS);
}

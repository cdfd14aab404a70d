//! Refusals: each call with each of its causes, and two at a time, of which the first in the common
//! order counts; and that a refused call sends nothing and changes nothing.
use crate::tests::nodes::group::{Row, play_all};

// At node 0, process 2 has ended, and its key z is kept from the others there; the get of process 3
// waits. Process 1 is at home at node 1.
const BUSY: &str = "\
0 commit j2 remote z 1
 commit 1
0 end j2
 ended 2
0 wait j3 j0 x
 parked
";

// All is as it was after these refusals.
const UNCHANGED: &str = "\
0 status j0
 idle
0 status j1
 stranger
1 status j1
 idle
0 status j2
 ended
0 status j3
 parked
0 status j9
 stranger
0 status k0
 stranger
0 status pmix.host0
 stranger
0 dump
 proc j 2 level 2
   bool:true pmix.term
   u8:1 z
1 dump
0 nudge
 ok
";

const ROWS: &[Row] = &[
    (
        "commits_are_refused_in_order",
        2,
        &[0, 1, 0, 0],
        &[
            BUSY,
            "\
0 commit pmixa0 global a 1
 BadParam
0 commit pmix.host0 global a 1
 BadParam
0 commit j4 global a 1
 BadParam
0 commit j* global a 1
 BadParam
1 commit j? global a 1
 BadParam
0 commit k0 global a 1
 UnknownNamespace
0 commit k* global a 1
 UnknownNamespace
0 commit j1 global a 1
 NotMine
1 commit j2 global a 1
 NotMine
1 commit j3 global a 1
 NotMine
0 commit j2 global a 1
 Terminated
0 commit j3 global a 1
 Busy
",
            UNCHANGED,
        ],
    ),
    (
        "entries_are_refused_in_order",
        2,
        &[0, 1, 0, 0],
        &[
            BUSY,
            "\
0 enter pmixa0 plain
 BadParam
0 enter j9 plain k0
 BadParam
0 enter k0 plain j9
 BadParam
0 enter j1 plain j?
 BadParam
0 enter j2 plain pmixa0
 BadParam
0 enter j3 plain pmix.host0
 BadParam
0 enter j0 plain k?
 BadParam
0 enter j0 plain k0 j4
 BadParam
0 enter k0 plain
 UnknownNamespace
0 enter j0 collect k*
 UnknownNamespace
0 enter j1 plain k0
 UnknownNamespace
0 enter j2 plain j2 k9
 UnknownNamespace
0 enter j3 plain k0
 UnknownNamespace
0 enter j1 plain j0
 NotMine
1 enter j2 plain
 NotMine
0 enter j2 plain j0
 Terminated
0 enter j3 plain j0
 Busy
0 enter j0 collect j1 j3
 NotAParticipant
",
            UNCHANGED,
        ],
    ),
    (
        "gets_are_refused_in_order",
        2,
        &[0, 1, 0, 0],
        &[
            BUSY,
            "\
0 now j0 j0 a
 BadParam
0 now j0 j* a
 BadParam
0 wait j0 j? a
 BadParam
0 now j0 j4 pmix.rank
 BadParam
0 now j0 pmix.host0 a
 BadParam
0 now j0 pmix.host0 pmix.rank
 BadParam
0 now k0 j9 a
 BadParam
0 now j9 k0 a
 BadParam
0 now j0 k* a
 BadParam
0 now j1 j1 a
 BadParam
0 now j2 j2 a
 BadParam
0 now j3 j9 a
 BadParam
0 wait j0 k0 a
 UnknownNamespace
0 now j0 k* pmix.job.size
 UnknownNamespace
0 now k0 j0 a
 UnknownNamespace
0 now j1 k0 a
 UnknownNamespace
0 now j2 k0 a
 UnknownNamespace
0 now j1 j0 a
 NotMine
1 now j2 j* pmix.none
 NotMine
0 wait j2 j0 a
 Terminated
0 now j2 j* pmix.job.size
 Terminated
0 now j3 j* pmix.job.size
 Busy
0 now j3 j0 a
 Busy
0 now j3 j2 z
 Busy
0 refresh j0 j9 a
 BadParam
0 refresh j3 j1 a
 Busy
0 now j0 j1 a
 NotFound
0 wait j0 j2 a
 NotFound
0 wait j0 j2 z
 OutsideScope
",
            UNCHANGED,
        ],
    ),
    (
        "who_leaves_takes_or_ends_is_refused_in_order",
        2,
        &[0, 1, 0, 0],
        &[
            BUSY,
            "\
0 leave pmixa0
 BadParam
0 leave pmix.host0
 BadParam
0 leave j4
 BadParam
0 leave j*
 BadParam
0 leave k0
 UnknownNamespace
0 leave k?
 UnknownNamespace
0 leave j1
 NotMine
0 leave j2
 Terminated
1 leave j2
 NotMine
0 take pmixa0
 BadParam
0 take pmix.host0
 BadParam
0 take j4
 BadParam
0 take j*
 BadParam
0 take k0
 UnknownNamespace
0 take k?
 UnknownNamespace
0 take j1
 NotMine
0 take j2
 Terminated
1 take j2
 NotMine
0 end pmixa0
 BadParam
0 end pmix.host0
 BadParam
0 end j4
 BadParam
0 end j*
 BadParam
0 end k0
 UnknownNamespace
0 end k?
 UnknownNamespace
0 end j1
 NotMine
0 end j2
 Terminated
1 end j2
 NotMine
0 leave j3
 idle
0 take j0
 idle
",
            UNCHANGED,
        ],
    ),
    (
        "set_changes_are_refused_in_order",
        2,
        &[0, 1],
        &[
            "\
0 define s j0
 defined 1
 to 1: piece pmix.host0 0..1 s=array:proc[6a/0]@1
1 define pmix.a j0
 BadParam
1 define a
 BadParam
0 define a k0 j2
 BadParam
0 define s j0 j?
 BadParam
0 define s pmix.host0
 BadParam
1 define a k*
 UnknownNamespace
0 define s j0 k7
 UnknownNamespace
1 define a j0
 NotMine
1 define s j0
 NotMine
0 define s j*
 Exists
1 delete pmix.a
 BadParam
0 delete pmix.a
 BadParam
1 delete a
 NotMine
0 delete a
 NotFound
0 members pmix.a
 BadParam
0 members a
 NotFound
0 members s
 members proc:6a/0
1 members s
 NotFound
1 range 0 j1 0
 taken
",
        ],
    ),
];

#[test]
fn refused_acts_change_nothing(rt: HostRuntime) {
    play_all(&rt, rt.alloc(), ROWS);
}

//! Fences: who is released when, and with whom gone; which headers, commits and requests go out.
use crate::tests::nodes::group::{Row, play_all};

const ROWS: &[Row] = &[
    (
        "one_process_meets_itself",
        1,
        &[0],
        &[
            "\
0 enter j0 collect j0 j*
 entered 1
0 status j0
 released
0 leave j0
 released 1 gone -
0 leave j0
 idle
0 enter j0 collect
 entered 2
0 enter j0 collect
 Busy
",
        ],
    ),
    // The piece that goes with node 0's header is lost, and asked for again.
    (
        "commits_that_a_header_names_are_waited_for",
        2,
        &[0, 1],
        &[
            "\
0 commit j0 global a 7
 commit 1
0 enter j0 collect
 entered 1
 to 1: header 0 collect 1 j0 j1, j0 entered 1
 to 1: piece j0 0..1 a=u8:7@1
1 enter j1 collect
 entered 1
 to 0: header 1 collect 1 j0 j1, j1 entered 0
1 deliver 1
 taken
1 leave j1
 waiting
1 status j1
 in fence
0 leave j0
 waiting
0 deliver 3
 taken
0 leave j0
 released 1 gone -
1 nudge
 ok
 to 0: range ask 1 j0 0
 to 0: range ask 1 pmix.host0 0
0 deliver 4
 taken
 to 1: piece j0 0..1 a=u8:7@1
0 deliver 5
 taken
1 deliver 6
 taken
1 status j1
 released
1 leave j1
 released 1 gone -
1 now j1 j0 a
 found u8:7
",
        ],
    ),
    (
        "both_find_what_was_committed_before",
        2,
        &[0, 1],
        &[
            "\
0 commit j0 global a 1
 commit 1
0 enter j0 collect
 entered 1
 to 1: header 0 collect 1 j0 j1, j0 entered 1
 to 1: piece j0 0..1 a=u8:1@1
1 enter j1 collect
 entered 1
 to 0: header 1 collect 1 j0 j1, j1 entered 0
1 deliver 1
 taken
1 deliver 2
 taken
0 deliver 3
 taken
1 leave j1
 released 1 gone -
0 leave j0
 released 1 gone -
0 commit j0 global a 2
 commit 2
1 now j1 j0 a
 found u8:1
0 now j0 j0 a
 BadParam
0 dump
 proc j 0 level 2
   u8:2 a
1 dump
 proc j 0 level 1
   u8:1 a
",
        ],
    ),
    (
        "an_old_header_releases_nobody_from_the_next_fence",
        2,
        &[0, 1],
        &[
            "\
0 enter j0 plain
 entered 1
 to 1: header 0 plain 1 j0 j1, j0 entered 0
1 enter j1 plain j1 j0 j1
 entered 1
 to 0: header 1 plain 1 j0 j1, j1 entered 0
1 deliver 1
 taken
0 deliver 2
 taken
0 leave j0
 released 1 gone -
1 leave j1
 released 1 gone -
1 enter j1 plain
 entered 2
 to 0: header 1 plain 2 j0 j1, j1 entered 0
1 deliver 1
 taken
1 leave j1
 waiting
0 enter j0 plain
 entered 2
 to 1: header 0 plain 2 j0 j1, j0 entered 0
1 deliver 4
 taken
1 leave j1
 released 2 gone -
0 leave j0
 waiting
",
        ],
    ),
    // The same participants meet in a fence that collects data, and in one that does not: these are
    // two.
    (
        "fences_of_other_kinds_are_counted_apart",
        2,
        &[0, 1],
        &[
            "\
0 enter j0 plain
 entered 1
 to 1: header 0 plain 1 j0 j1, j0 entered 0
1 enter j1 collect
 entered 1
 to 0: header 1 collect 1 j0 j1, j1 entered 0
1 deliver 1
 taken
0 deliver 2
 taken
0 leave j0
 waiting
1 leave j1
 waiting
",
        ],
    ),
    (
        "an_ended_process_is_gone_at_each_node",
        3,
        &[0, 1, 2],
        &[
            "\
2 commit j2 global a 5
 commit 1
2 end j2
 ended 2
0 enter j0 collect
 entered 1
 to 1: header 0 collect 1 j0 j1 j2, j0 entered 0
 to 2: header 0 collect 1 j0 j1 j2, j0 entered 0
1 enter j1 collect
 entered 1
 to 0: header 1 collect 1 j0 j1 j2, j1 entered 0
 to 2: header 1 collect 1 j0 j1 j2, j1 entered 0
1 deliver 1
 taken
2 deliver 2
 taken
 to 0: header 2 collect 1 j0 j1 j2, j2 gone 2
 to 0: piece j2 0..2 a=u8:5@1 pmix.term=bool:true@2
 to 1: header 2 collect 1 j0 j1 j2, j2 gone 2
 to 1: piece j2 0..2 a=u8:5@1 pmix.term=bool:true@2
0 deliver 3
 taken
2 deliver 4
 taken
0 deliver 5
 taken
0 leave j0
 waiting
0 deliver 6
 taken
1 deliver 8
 taken
1 leave j1
 waiting
1 deliver 7
 taken
0 leave j0
 released 1 gone j2
1 leave j1
 released 1 gone j2
0 now j0 j2 a
 found u8:5
0 wait j0 j2 b
 NotFound
",
        ],
    ),
    (
        "who_entered_and_ended_is_not_gone",
        2,
        &[0, 1],
        &[
            "\
0 enter j0 plain
 entered 1
 to 1: header 0 plain 1 j0 j1, j0 entered 0
0 end j0
 ended 1
0 status j0
 ended
1 enter j1 plain
 entered 1
 to 0: header 1 plain 1 j0 j1, j1 entered 0
1 deliver 1
 taken
0 deliver 2
 taken
1 leave j1
 released 1 gone -
0 leave j0
 Terminated
0 status j0
 ended
",
        ],
    ),
    // Processes 0 and 1 share a node: its header waits for both, and says of one that it ended
    // before it entered.
    (
        "a_header_waits_for_all_of_its_node",
        2,
        &[0, 0, 1],
        &[
            "\
0 enter j0 plain
 entered 1
0 end j1
 ended 1
 to 1: header 0 plain 1 j0 j1 j2, j0 entered 0, j1 gone 1
1 enter j2 plain
 entered 1
 to 0: header 1 plain 1 j0 j1 j2, j2 entered 0
1 deliver 1
 taken
0 deliver 2
 taken
1 leave j2
 released 1 gone j1
0 leave j0
 released 1 gone j1
0 leave j1
 Terminated
",
        ],
    ),
    // Both of a node enter, and one ends before the fence is ready: it is released from nothing,
    // and is not among the gone.
    (
        "the_gone_are_those_of_the_headers",
        2,
        &[0, 0, 1],
        &[
            "\
0 enter j0 plain
 entered 1
0 enter j1 plain
 entered 1
 to 1: header 0 plain 1 j0 j1 j2, j0 entered 0, j1 entered 0
0 end j1
 ended 1
1 enter j2 plain
 entered 1
 to 0: header 1 plain 1 j0 j1 j2, j2 entered 0
0 deliver 2
 taken
0 status j0
 released
0 status j1
 ended
0 leave j0
 released 1 gone -
1 piece j1 0 1 pmix.term 1 1
 taken
1 deliver 1
 taken
1 leave j2
 released 1 gone -
",
        ],
    ),
    // The first header of a node counts.
    (
        "a_second_header_changes_nothing",
        2,
        &[0, 1],
        &[
            "\
1 enter j1 collect
 entered 1
 to 0: header 1 collect 1 j0 j1, j1 entered 0
1 header 0 collect 1 j0,j1 j0 entered 1
 taken
1 header 0 collect 1 j0,j1 j0 gone 0
 taken
1 leave j1
 waiting
1 piece j0 0 1 a 1 1
 taken
1 leave j1
 released 1 gone -
",
        ],
    ),
];

#[test]
fn processes_meet_in_fences(rt: HostRuntime) {
    play_all(&rt, rt.alloc(), ROWS);
}

//! Gets that ask anew: what is asked and replied, whom a reply answers, and what it tells besides.
use crate::tests::nodes::group::{Row, play_all};

const ROWS: &[Row] = &[
    // Neither what is known nor a piece that comes meanwhile answers; a reply that tells nothing does.
    (
        "a_reply_alone_answers",
        2,
        &[0, 1],
        &[
            "\
0 commit j0 global a 1
 commit 1
1 refresh j1 j0 a
 parked
 to 0: refresh ask 1 j0 0 request 1
1 status j1
 parked
0 deliver 1
 taken
 to 1: refresh reply 1 request 1 j0 0..1 a=u8:1@1
1 take j1
 waiting
1 deliver 2
 taken
1 status j1
 answered
1 take j1
 found u8:1
0 commit j0 global a 2
 commit 2
1 now j1 j0 a
 found u8:1
1 refresh j1 j0 a
 parked
 to 0: refresh ask 1 j0 1 request 2
1 piece j0 1 2 a 2 2
 taken
1 take j1
 waiting
0 deliver 3
 taken
 to 1: refresh reply 1 request 2 j0 1..2 a=u8:2@2
1 deliver 4
 taken
1 take j1
 found u8:2
1 refresh j1 j0 b
 parked
 to 0: refresh ask 1 j0 2 request 3
0 deliver 5
 taken
 to 1: refresh reply 1 request 3 j0 2..2
1 deliver 6
 taken
1 take j1
 NotFound
1 take j1
 idle
",
        ],
    ),
    // The replies come in the other order, one of them late: its request was repeated meanwhile.
    (
        "requests_are_told_apart",
        2,
        &[0, 1, 1],
        &[
            "\
0 commit j0 global a 1 global b 1
 commit 1
1 refresh j2 j0 b
 parked
 to 0: refresh ask 1 j0 0 request 1
1 refresh j1 j0 a
 parked
 to 0: refresh ask 1 j0 0 request 2
0 deliver 1
 taken
 to 1: refresh reply 1 request 1 j0 0..1 a=u8:1@1 b=u8:1@1
0 commit j0 global a 2
 commit 2
0 deliver 2
 taken
 to 1: refresh reply 1 request 2 j0 0..2 a=u8:2@2 b=u8:1@1
1 deliver 4
 taken
1 take j2
 waiting
1 take j1
 found u8:2
1 nudge
 ok
 to 0: refresh ask 1 j0 2 request 1
 to 0: range ask 1 pmix.host0 0
1 deliver 3
 taken
1 take j2
 found u8:1
0 deliver 5
 taken
 to 1: refresh reply 1 request 1 j0 2..2
1 deliver 7
 taken
1 deliver 4
 taken
1 status j2
 idle
",
        ],
    ),
    // A reply of another process, and one to a request that was not made.
    (
        "replies_that_fit_no_get_answer_nobody",
        2,
        &[0, 1, 0],
        &[
            "\
1 refresh j1 j0 a
 parked
 to 0: refresh ask 1 j0 0 request 1
1 reply 1 1 j2 0 1 a 1 9
 taken
1 reply 1 2 j0 0 1 a 1 8
 taken
1 take j1
 waiting
1 dump
 proc j 0 level 1
   u8:8 a
 proc j 2 level 1
   u8:9 a
1 reply 1 1 j0 1
 taken
1 take j1
 found u8:8
",
        ],
    ),
    (
        "what_need_not_be_asked_is_answered_at_once",
        2,
        &[0, 0, 1],
        &[
            "\
0 commit j0 local a 1 remote b 2
 commit 1
0 refresh j1 j0 a
 found u8:1
0 refresh j1 j0 b
 OutsideScope
0 refresh j1 j0 c
 NotFound
0 refresh j1 j* pmix.job.size
 found u32:3
0 refresh j1 j2 pmix.rank
 found rank:2
0 refresh j1 j2 pmix.nothing
 NotFound
0 refresh j1 j2 a
 parked
 to 1: refresh ask 0 j2 0 request 1
",
        ],
    ),
    // The asker ends, and its request keeps its number; the target ends, which is a commit.
    (
        "ends_of_asker_and_target",
        2,
        &[0, 1, 1],
        &[
            "\
0 commit j0 global a 1
 commit 1
1 refresh j1 j0 a
 parked
 to 0: refresh ask 1 j0 0 request 1
1 end j1
 ended 1
1 nudge
 ok
 to 0: range ask 1 pmix.host0 0
0 deliver 1
 taken
 to 1: refresh reply 1 request 1 j0 0..1 a=u8:1@1
1 refresh j2 j0 b
 parked
 to 0: refresh ask 1 j0 0 request 2
1 deliver 3
 taken
1 take j2
 waiting
1 dump
 proc j 0 level 1
   u8:1 a
 proc j 1 level 1
   bool:true pmix.term
0 end j0
 ended 2
0 deliver 4
 taken
 to 1: refresh reply 1 request 2 j0 0..2 a=u8:1@1 pmix.term=bool:true@2
1 deliver 5
 taken
1 take j2
 NotFound
1 refresh j2 j0 a
 parked
 to 0: refresh ask 1 j0 2 request 3
0 deliver 6
 taken
 to 1: refresh reply 1 request 3 j0 2..2
1 deliver 7
 taken
1 take j2
 found u8:1
",
        ],
    ),
    // Who waits asks again once a reply told more. What a reply told is not sent with a header.
    (
        "replies_tell_as_pieces_do",
        2,
        &[0, 1, 1],
        &[
            "\
0 commit j0 global a 1
 commit 1
1 wait j1 j0 b
 parked
 to 0: direct ask 1 j0 0
1 refresh j2 j0 a
 parked
 to 0: refresh ask 1 j0 0 request 1
0 deliver 2
 taken
 to 1: refresh reply 1 request 1 j0 0..1 a=u8:1@1
1 deliver 3
 taken
 to 0: direct ask 1 j0 1
1 take j2
 found u8:1
0 enter j0 collect j0 j2
 entered 1
 to 1: header 0 collect 1 j0 j2, j0 entered 1
1 take j1
 waiting
",
        ],
    ),
];

#[test]
fn gets_ask_anew(rt: HostRuntime) {
    play_all(&rt, rt.alloc(), ROWS);
}

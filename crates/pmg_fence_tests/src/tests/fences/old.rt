//! What is forgotten: of each signature the greatest instance stays, and the one before.
use super::back::{count, has_header, has_name, waiting};
use super::{Group, Meeting, hand_over, table, three_nodes};
use crate::tests::making::MEMORY;
use pmg_fence::{Change, Table};
use std::alloc::Global;
use std::process::Abort;

// A fence of processes 0 and 1, which are at home at the nodes of their numbers.
fn pair(alloc: Global) -> Meeting {
    Meeting::of(alloc, 2, false)
}

// Which of the first four fences the table has.
fn names(rt: &impl Abort, table: &Table, meeting: Meeting) -> [bool; 4] {
    [
        has_name(rt, table, meeting, 1),
        has_name(rt, table, meeting, 2),
        has_name(rt, table, meeting, 3),
        has_name(rt, table, meeting, 4),
    ]
}

// Which of the first four fences are old.
fn olds(rt: &impl Abort, table: &Table, meeting: Meeting) -> [bool; 4] {
    [
        table.is_old(&meeting.name(rt, 1)),
        table.is_old(&meeting.name(rt, 2)),
        table.is_old(&meeting.name(rt, 3)),
        table.is_old(&meeting.name(rt, 4)),
    ]
}

// The process of that rank enters so many times; how often process 0 did then.
fn enter_often(rt: &impl Abort, table: &mut Table, meeting: Meeting, rank: u32, times: u32) -> u64 {
    for _ in 0..times {
        meeting.enter(rt, table, rank, 0);
    }
    count(rt, table, meeting)
}

#[test]
fn two_instances_are_kept(rt: HostRuntime) {
    let meeting = pair(rt.alloc());
    let mut table = table(&rt, meeting.alloc, 0);
    assert!(rt; enter_often(&rt, &mut table, meeting, 0, 2) == 2);
    assert!(rt; names(&rt, &table, meeting) == [true, true, false, false]);
    assert!(rt; olds(&rt, &table, meeting) == [false, false, false, false]);
    assert!(rt; enter_often(&rt, &mut table, meeting, 0, 2) == 4);
    assert!(rt; names(&rt, &table, meeting) == [false, false, true, true]);
    assert!(rt; olds(&rt, &table, meeting) == [true, true, false, false]);
}

// Node 0 enters three fences, and hears of the first again, by name and by the header of node 1: which it has, whether it has
// that header, and how many of its own wait. Then it hears of the second by a header too.
fn hears_late(rt: &impl Abort, group: &mut Group, meeting: Meeting) -> ([bool; 4], [bool; 2], u64) {
    enter_often(rt, &mut group.zero, meeting, 0, 3);
    enter_often(rt, &mut group.one, meeting, 1, 2);
    let learned = group.zero.learn(&meeting.name(rt, 1));
    learned.expect(rt, MEMORY);
    hand_over(rt, &mut group.one, &mut group.zero);
    let first = has_header(rt, &group.zero, meeting, 1, 1);
    hand_over(rt, &mut group.one, &mut group.zero);
    let second = has_header(rt, &group.zero, meeting, 2, 1);
    (
        names(rt, &group.zero, meeting),
        [first, second],
        waiting(rt, &group.zero),
    )
}

#[test]
fn of_an_old_instance_nothing_is_kept(rt: HostRuntime) {
    let meeting = pair(rt.alloc());
    let found = hears_late(&rt, &mut *three_nodes(&rt, meeting.alloc), meeting);
    assert!(rt; found == ([false, true, true, false], [false, true], 3));
}

// Whether the first fence is ready at node 0 once both have entered it, and after one more entry, and after two.
fn stays_ready(rt: &impl Abort, group: &mut Group, meeting: Meeting) -> [bool; 3] {
    enter_often(rt, &mut group.one, meeting, 1, 1);
    enter_often(rt, &mut group.zero, meeting, 0, 1);
    hand_over(rt, &mut group.one, &mut group.zero);
    let ready = meeting.is_ready(rt, &group.zero, 1, 0);
    enter_often(rt, &mut group.zero, meeting, 0, 1);
    let still = meeting.is_ready(rt, &group.zero, 1, 0);
    enter_often(rt, &mut group.zero, meeting, 0, 1);
    [ready, still, meeting.is_ready(rt, &group.zero, 1, 0)]
}

#[test]
fn an_old_instance_is_not_ready(rt: HostRuntime) {
    let meeting = pair(rt.alloc());
    let found = stays_ready(&rt, &mut *three_nodes(&rt, meeting.alloc), meeting);
    assert!(rt; found == [true, true, false]);
}

// What is seen after an entry: its number, which fences are there, and how many headers wait.
fn enters(rt: &impl Abort, table: &mut Table, meeting: Meeting) -> (u64, [bool; 4], u64) {
    let number = meeting.enter(rt, table, 0, 0);
    (number, names(rt, table, meeting), waiting(rt, table))
}

#[test]
fn an_entry_into_an_old_instance_is_counted(rt: HostRuntime) {
    let meeting = pair(rt.alloc());
    let mut table = table(&rt, meeting.alloc, 0);
    let learned = table.learn(&meeting.name(&rt, 3));
    learned.expect(&rt, MEMORY);
    let first = enters(&rt, &mut table, meeting);
    assert!(rt; first == (1, [false, false, true, false], 0));
    let second = enters(&rt, &mut table, meeting);
    assert!(rt; second == (2, [false, true, true, false], 1));
}

// Which fences are old where the fourth is noted, and which are there; and the same once that is taken back.
fn notes_and_back(rt: &impl Abort, table: &mut Table, meeting: Meeting) -> [[bool; 4]; 4] {
    let name = meeting.name(rt, 4);
    let before = table.note(&name, Change::Learned).expect(rt, MEMORY);
    let old = olds(rt, table, meeting);
    let there = names(rt, table, meeting);
    table.rollback(before);
    [
        old,
        there,
        olds(rt, table, meeting),
        names(rt, table, meeting),
    ]
}

#[test]
fn nothing_is_forgotten_that_may_be_taken_back(rt: HostRuntime) {
    let meeting = pair(rt.alloc());
    let mut table = table(&rt, meeting.alloc, 0);
    assert!(rt; enter_often(&rt, &mut table, meeting, 0, 2) == 2);
    let [old, there, after, left] = notes_and_back(&rt, &mut table, meeting);
    assert!(rt; old == [true, true, false, false] && there == [true, true, false, true]);
    assert!(rt; after == [false, false, false, false] && left == [true, true, false, false]);
}

//! What is taken back: a table says of two fences what it said before the change.
use super::{Meeting, table};
use crate::tests::making::{MEMORY, process};
use pmg_fence::{Change, Table};
use pmg_frame::{FenceName, Header};
use pmg_value::NodeId;
use std::process::Abort;

// What a table says of the first fence and the second: whether it has the names and the headers of nodes 0 and 1, and whether
// that of node 0 would be there in the second; how often process 0 entered, and how many headers wait.
type Seen = ([bool; 5], [u64; 2]);

fn look_at(rt: &impl Abort, table: &Table, meeting: Meeting) -> Seen {
    (
        [
            has_name(rt, table, meeting, 1),
            has_name(rt, table, meeting, 2),
            has_header(rt, table, meeting, 1, 0),
            has_header(rt, table, meeting, 1, 1),
            has_header(rt, table, meeting, 2, 0),
        ],
        [count(rt, table, meeting), waiting(rt, table)],
    )
}

pub(super) fn has_name(rt: &impl Abort, table: &Table, meeting: Meeting, instance: u64) -> bool {
    table.has_name(&meeting.name(rt, instance))
}

pub(super) fn has_header(
    rt: &impl Abort,
    table: &Table,
    meeting: Meeting,
    instance: u64,
    node: u32,
) -> bool {
    let node = NodeId::new(node).expect(rt, MEMORY);
    table.has_header(&meeting.name(rt, instance), node)
}

// How often process 0 entered.
pub(super) fn count(rt: &impl Abort, table: &Table, meeting: Meeting) -> u64 {
    let proc = process(rt, meeting.alloc, 0);
    table.count(&meeting.signature(rt), &proc)
}

// How many headers wait.
pub(super) fn waiting(rt: &impl Abort, table: &Table) -> u64 {
    table.copy().expect(rt, MEMORY).take_headers().len() as u64
}

// What is seen with the entry, and once it is taken back.
fn enters_and_back(rt: &impl Abort, table: &mut Table, meeting: Meeting) -> [Seen; 2] {
    let signature = meeting.signature(rt);
    let proc = process(rt, meeting.alloc, 0);
    let count = table.count(&signature, &proc);
    assert!(rt; count < 10);
    let name = FenceName::from_checked(signature, count + 1);
    let before = table
        .note(&name, Change::Entered(proc, 1))
        .expect(rt, MEMORY);
    let there = look_at(rt, table, meeting);
    table.rollback(before);
    [there, look_at(rt, table, meeting)]
}

fn learns_and_back(rt: &impl Abort, table: &mut Table, meeting: Meeting) -> [Seen; 2] {
    let name = meeting.name(rt, 2);
    let before = table.note(&name, Change::Learned).expect(rt, MEMORY);
    let there = look_at(rt, table, meeting);
    table.rollback(before);
    [there, look_at(rt, table, meeting)]
}

fn is_told_and_back(
    rt: &impl Abort,
    table: &mut Table,
    meeting: Meeting,
    header: Header,
) -> [Seen; 2] {
    let name = meeting.name(rt, 1);
    let before = table.note(&name, Change::Told(header)).expect(rt, MEMORY);
    let there = look_at(rt, table, meeting);
    table.rollback(before);
    [there, look_at(rt, table, meeting)]
}

fn ends_and_back(rt: &impl Abort, table: &mut Table, meeting: Meeting) -> [Seen; 2] {
    let before = table
        .end(&process(rt, meeting.alloc, 0), 2)
        .expect(rt, MEMORY);
    let there = look_at(rt, table, meeting);
    table.rollback(before);
    [there, look_at(rt, table, meeting)]
}

// The first entry, taken back, and then the second, after one that stays.
fn enter_twice(rt: &impl Abort, table: &mut Table, meeting: Meeting) -> [[Seen; 2]; 2] {
    let first = enters_and_back(rt, table, meeting);
    meeting.enter(rt, table, 0, 0);
    [first, enters_and_back(rt, table, meeting)]
}

#[test]
fn entries_are_taken_back(rt: HostRuntime) {
    let meeting = Meeting::of(rt.alloc(), 2, false);
    let [first, second] = enter_twice(&rt, &mut table(&rt, meeting.alloc, 0), meeting);
    assert!(rt; first[0] == ([true, false, true, false, false], [1, 1]));
    assert!(rt; first[1] == ([false, false, false, false, false], [0, 0]));
    assert!(rt; second[0] == ([true, true, true, false, true], [2, 2]));
    assert!(rt; second[1] == ([true, false, true, false, false], [1, 1]));
}

// Node 0, once process 0 has entered the first fence.
fn entered_table(rt: &impl Abort, meeting: Meeting) -> Table {
    let mut table = table(rt, meeting.alloc, 0);
    meeting.enter(rt, &mut table, 0, 0);
    table
}

#[test]
fn what_is_learned_is_taken_back(rt: HostRuntime) {
    let meeting = Meeting::of(rt.alloc(), 2, false);
    let learned = learns_and_back(&rt, &mut entered_table(&rt, meeting), meeting);
    assert!(rt; learned[0] == ([true, true, true, false, false], [1, 1]));
    assert!(rt; learned[1] == ([true, false, true, false, false], [1, 1]));
    let ended = ends_and_back(&rt, &mut entered_table(&rt, meeting), meeting);
    assert!(rt; ended[0] == ([true, false, true, false, true], [1, 1]));
    assert!(rt; ended[1] == ([true, false, true, false, false], [1, 1]));
}

// The header of node 1, once process 1 has entered the first fence.
fn header_of_one(rt: &impl Abort, meeting: Meeting) -> Option<Header> {
    let mut one = table(rt, meeting.alloc, 1);
    meeting.enter(rt, &mut one, 1, 0);
    one.take_header()
}

// That header, told to node 0 and taken back.
fn tells_and_back(rt: &impl Abort, meeting: Meeting) -> Option<[Seen; 2]> {
    let mut zero = entered_table(rt, meeting);
    match header_of_one(rt, meeting) {
        Some(header) => Some(is_told_and_back(rt, &mut zero, meeting, header)),
        None => None,
    }
}

#[test]
fn a_header_is_taken_back(rt: HostRuntime) {
    let meeting = Meeting::of(rt.alloc(), 2, false);
    let found = tells_and_back(&rt, meeting);
    let there = ([true, false, true, true, false], [1, 1]);
    let back = ([true, false, true, false, false], [1, 1]);
    assert!(rt; found == Some([there, back]));
}

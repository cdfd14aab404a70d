//! What the program does not ask of requests and marks: what was asked at most, and that copies go on by themselves. What it does ask is
//! run by examples of gets that wait, and of gets that ask anew.
use crate::tests::making::{MEMORY, process};
use pmg_dmodex::{Marks, Pending};
use pmg_value::NodeId;
use std::alloc::Global;
use std::process::Abort;

// What is asked of process 0 at most, how many nodes wait for it at that level, and the last request of its like.
fn look_at(rt: &impl Abort, alloc: Global, pending: &Pending, level: u64) -> (u64, usize, u64) {
    let proc = process(rt, alloc, 0);
    let asked = pending.asked(&proc).unwrap_or(0);
    let due = pending.due(&proc, level).expect(rt, MEMORY);
    (asked, due.len(), pending.last_request())
}

// Process 0 is asked for, up to level 3 at most, waited for by node 1, and asked for anew.
fn ask_all(rt: &impl Abort, alloc: Global, pending: &mut Pending) {
    let proc = process(rt, alloc, 0);
    pending.ask(&proc, 3).expect(rt, MEMORY);
    pending.ask(&proc, 2).expect(rt, MEMORY);
    let node = NodeId::new(1).expect(rt, MEMORY);
    pending.hold(node, &proc, 3).expect(rt, MEMORY);
    let asker = process(rt, alloc, 1);
    pending.request(&asker, &proc).expect(rt, MEMORY);
}

#[test]
fn a_copy_of_requests_waits_by_itself(rt: HostRuntime) {
    let alloc = rt.alloc();
    let mut pending = Pending::new(alloc);
    ask_all(&rt, alloc, &mut pending);
    let copy = pending.copy().expect(&rt, MEMORY);
    pending.settle(&process(&rt, alloc, 0), 4);
    assert!(rt; look_at(&rt, alloc, &pending, 4) == (0, 0, 1));
    assert!(rt; look_at(&rt, alloc, &copy, 3) == (3, 0, 1));
    assert!(rt; look_at(&rt, alloc, &copy, 4) == (3, 1, 1));
}

// How far node 1 was told of process 0.
fn mark(rt: &impl Abort, alloc: Global, marks: &Marks) -> u64 {
    let node = NodeId::new(1).expect(rt, MEMORY);
    marks.from(node, &process(rt, alloc, 0))
}

fn set_mark(rt: &impl Abort, alloc: Global, marks: &mut Marks, level: u64) {
    let node = NodeId::new(1).expect(rt, MEMORY);
    let proc = process(rt, alloc, 0);
    marks.set(node, &proc, level).expect(rt, MEMORY);
}

#[test]
fn a_copy_of_marks_stays(rt: HostRuntime) {
    let alloc = rt.alloc();
    let mut marks = Marks::new(alloc);
    set_mark(&rt, alloc, &mut marks, 7);
    let copy = marks.copy().expect(&rt, MEMORY);
    set_mark(&rt, alloc, &mut marks, 4);
    assert!(rt; (mark(&rt, alloc, &marks), mark(&rt, alloc, &copy)) == (4, 7));
}

//! Process sets at desks, and the frames that carry them to another node.
use crate::group::{MEMORY, assert_refused, desk, key_of, proc_of};
use pmg_desk::Desk;
use pmg_frame::Frame;
use pmg_node::Delivery;
use pmg_value::{Key, Proc, Refusal};
use std::alloc::Global;
use std::process::Abort;
use std::sync::Wait;

/// Hands the frames that the one desk's node sent to the other desk: how many of them it took.
pub(crate) fn hand_over<R: Wait>(rt: &R, from: &Desk, to: &Desk) -> Result<u64, Refusal> {
    let frames = from.take_frames(rt)?;
    let mut taken = 0_u64;
    for sent in frames {
        if let Delivery::Taken = to.deliver(rt, sent.frame)? {
            taken = taken.wrapping_add(1);
        }
    }
    Ok(taken)
}

// Requires that node 1 takes one frame, and both nodes tell the same of all processes then, and something.
fn assert_spread<R: Wait + Abort>(rt: &R, zero: &Desk, one: &Desk) {
    assert!(rt; hand_over(rt, zero, one).expect(rt, MEMORY) == 1);
    let told = zero.far_dump(rt).expect(rt, MEMORY);
    assert!(rt; !told.is_empty());
    let known = one.far_dump(rt).expect(rt, MEMORY);
    assert!(rt; told == known);
}

// Requires that a set is defined at node 0 and deleted there, by changes of these numbers, and that node 1 comes to know both.
fn assert_changes<R: Wait + Abort>(rt: &R, zero: &Desk, one: &Desk, name: &Key, members: &[Proc]) {
    assert!(rt; zero.define_set(rt, name, members).expect(rt, MEMORY) == 1);
    assert_spread(rt, zero, one);
    assert!(rt; zero.delete_set(rt, name).expect(rt, MEMORY) == 2);
    assert_spread(rt, zero, one);
    zero.nudge(rt).expect(rt, MEMORY);
}

// Requires what is refused of a set that is there, and at a node other than 0.
fn assert_refusals<R: Wait + Abort>(rt: &R, zero: &Desk, one: &Desk, name: &Key, members: &[Proc]) {
    assert_refused(
        rt,
        zero.define_set(rt, name, members).err(),
        Refusal::Exists,
    );
    assert_refused(
        rt,
        one.define_set(rt, name, members).err(),
        Refusal::NotMine,
    );
    assert_refused(rt, one.delete_set(rt, name).err(), Refusal::NotMine);
}

// All of it, of a set of processes 0 and 2, and of one of the same name of process 1.
fn assert_sets<R: Wait + Abort>(rt: &R, alloc: Global, zero: &Desk, one: &Desk) {
    let name = key_of(rt, alloc, b"s");
    let members = [proc_of(rt, alloc, 0), proc_of(rt, alloc, 2)];
    assert_changes(rt, zero, one, &name, &members);
    let others = [proc_of(rt, alloc, 1)];
    zero.define_set(rt, &name, &others).expect(rt, MEMORY);
    assert_refusals(rt, zero, one, &name, &members);
}

#[test]
fn sets_spread_to_the_other_node(rt: HostRuntime) {
    let alloc = rt.alloc();
    let zero = desk(&rt, alloc, 0).expect(&rt, MEMORY);
    let one = desk(&rt, alloc, 1).expect(&rt, MEMORY);
    assert_sets(&rt, alloc, &zero, &one);
    zero.into_journal(&rt);
    one.into_journal(&rt);
}

// The frames that the desk's node sent, as they go to another desk together.
fn frames_of<R: Wait>(rt: &R, alloc: Global, desk: &Desk) -> Result<Vec<Frame>, Refusal> {
    let mut frames = Vec::new(alloc);
    for sent in desk.take_frames(rt)? {
        frames.push(sent.frame)?;
    }
    Ok(frames)
}

// Requires that node 1 is told of two changes together, and that it takes nothing any more once its desk is closed.
fn assert_together<R: Wait + Abort>(rt: &R, alloc: Global, zero: &Desk, one: &Desk) {
    let name = key_of(rt, alloc, b"s");
    let members = [proc_of(rt, alloc, 0), proc_of(rt, alloc, 2)];
    zero.define_set(rt, &name, &members).expect(rt, MEMORY);
    zero.delete_set(rt, &name).expect(rt, MEMORY);
    let frames = frames_of(rt, alloc, zero).expect(rt, MEMORY);
    assert!(rt; frames.len() == 2);
    one.deliver_all(rt, frames).expect(rt, MEMORY);
    let told = zero.far_dump(rt).expect(rt, MEMORY);
    let known = one.far_dump(rt).expect(rt, MEMORY);
    assert!(rt; told.starts_with(b"proc pmix.host 0 level 2\n") && told == known);
    one.close(rt);
    zero.define_set(rt, &name, &members).expect(rt, MEMORY);
    let frames = frames_of(rt, alloc, zero).expect(rt, MEMORY);
    assert_refused(rt, one.deliver_all(rt, frames).err(), Refusal::Closed);
}

#[test]
fn frames_that_come_together_are_delivered(rt: HostRuntime) {
    let alloc = rt.alloc();
    let zero = desk(&rt, alloc, 0).expect(&rt, MEMORY);
    let one = desk(&rt, alloc, 1).expect(&rt, MEMORY);
    assert_together(&rt, alloc, &zero, &one);
    zero.into_journal(&rt);
    one.into_journal(&rt);
}

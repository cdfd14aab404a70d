//! What no clause says of a node: that each of its calls answers where there is memory, with the frames and the pieces that come of it.
use crate::tests::nodes::group::registry;
use crate::tests::nodes::words::{MEMORY, batch, key, process};
use pmg_get::Mode;
use pmg_node::{Act, Asked, Delivery, Node, Release, Reply, Request, Status, Taking};
use pmg_value::{NodeId, Proc, Refusal, Value};
use std::alloc::Global;
use std::process::Abort;

// The node of that number, in a group of two: j0 has its home at node 0, and j1 at node 1.
fn node(rt: &impl Abort, alloc: Global, index: u32) -> Node {
    let registry = registry(alloc, 2, &[0, 1]).expect(rt, MEMORY);
    let id = NodeId::new(index).expect(rt, MEMORY);
    assert!(rt; registry.has_node(id));
    Node::new(id, registry).expect(rt, MEMORY)
}

// The node has so many frames to send, and the other node, whose number is given, takes them.
fn deliver(rt: &impl Abort, from: &mut Node, to: &mut Node, index: u32, count: u32) {
    for _ in 0..count {
        let sent = from.outbox().expect(rt, "a frame");
        assert!(rt; sent.to.index() == index);
        assert!(rt; matches!(to.deliver(&sent.frame), Ok(Delivery::Taken)));
    }
    assert!(rt; from.outbox().is_none());
}

// Whether the last act joined a piece for reads from the node, and one for reads from other nodes.
fn joined(node: &Node) -> (bool, bool) {
    (node.joined().near.is_some(), node.joined().far.is_some())
}

// j0 commits a = 7.
fn commit_seven(rt: &impl Abort, alloc: Global, zero: &mut Node, proc: &Proc) {
    let puts = batch(rt, alloc, &["0", "commit", "j0", "global", "a", "7"]);
    assert!(rt; matches!(zero.commit(proc, &puts), Ok(1)));
    assert!(rt; joined(zero) == (true, true));
    let other = process(alloc, "j1").expect(rt, MEMORY);
    assert!(rt; matches!(zero.commit(&other, &puts), Err(Refusal::NotMine)));
    assert!(rt; joined(zero) == (false, false));
}

#[test]
fn a_get_crosses_two_nodes(rt: HostRuntime) {
    let alloc = rt.alloc();
    let (mut zero, mut one) = (node(&rt, alloc, 0), node(&rt, alloc, 1));
    let zeroth = process(alloc, "j0").expect(&rt, MEMORY);
    let first = process(alloc, "j1").expect(&rt, MEMORY);
    let name = key(alloc, "a").expect(&rt, MEMORY);
    commit_seven(&rt, alloc, &mut zero, &zeroth);
    assert!(&rt;
        matches!(
            one.ask(&first, &zeroth, &name, Mode::Wait),
            Ok(Asked::Parked)
        )
    );
    assert!(&rt; one.status(&first) == Status::Parked);
    let mut copy = one.copy().expect(&rt, MEMORY);
    deliver(&rt, &mut one, &mut zero, 0, 1);
    deliver(&rt, &mut zero, &mut one, 1, 1);
    assert!(&rt; joined(&one) == (false, true));
    assert!(&rt; matches!(&one.take_answer(&first), Ok(Taking::Found(Value::U8(7)))));
    assert!(&rt; joined(&one) == (false, false));
    assert!(&rt; matches!(copy.take_answer(&first), Ok(Taking::Waiting)));
    deliver(&rt, &mut copy, &mut zero, 0, 1);
}

#[test]
fn a_fence_and_an_end_cross_two_nodes(rt: HostRuntime) {
    let alloc = rt.alloc();
    let (mut zero, mut one) = (node(&rt, alloc, 0), node(&rt, alloc, 1));
    let zeroth = process(alloc, "j0").expect(&rt, MEMORY);
    let first = process(alloc, "j1").expect(&rt, MEMORY);
    assert!(&rt; matches!(zero.enter(&zeroth, &[], false), Ok(1)));
    assert!(&rt; matches!(zero.take_release(&zeroth), Ok(Release::Waiting)));
    deliver(&rt, &mut zero, &mut one, 1, 1);
    assert!(&rt; matches!(one.enter(&first, &[], false), Ok(1)));
    assert!(&rt; matches!(one.take_release(&first), Ok(Release::Released(1, _))));
    deliver(&rt, &mut one, &mut zero, 0, 1);
    assert!(&rt; matches!(zero.take_release(&zeroth), Ok(Release::Released(1, _))));
    assert!(&rt; zero.nudge().is_ok());
    assert!(&rt; matches!(zero.terminate(&zeroth), Ok(1)));
    assert!(&rt; zero.status(&zeroth) == Status::Ended);
    assert!(&rt; matches!(zero.take_answer(&zeroth), Err(Refusal::Terminated)));
}

#[test]
fn a_set_is_defined_and_deleted(rt: HostRuntime) {
    let alloc = rt.alloc();
    let mut zero = node(&rt, alloc, 0);
    let name = key(alloc, "pair").expect(&rt, MEMORY);
    let procs = [
        process(alloc, "j0").expect(&rt, MEMORY),
        process(alloc, "j1").expect(&rt, MEMORY),
    ];
    assert!(&rt; matches!(zero.define_set(&name, &procs), Ok(1)));
    let members = zero.set_members(&name).expect(&rt, "the set");
    assert!(&rt; members.items().len() == 2);
    assert!(&rt; zero.board().far().level(&Proc::of_host()) == 1);
    let deletion = Act::Request(Request::Delete(name.copy().expect(&rt, MEMORY)));
    assert!(&rt; matches!(&zero.act(&deletion), Ok(Reply::Defined(2))));
    assert!(&rt; matches!(zero.delete_set(&name), Err(Refusal::NotFound)));
}

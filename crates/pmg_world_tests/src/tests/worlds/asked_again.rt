//! Events of each kind, asked for again where an allocation failed: the world stands after those
//! that it counts, and the others are answered as if nothing had been. This test passes whichever
//! allocation fails.
use crate::tests::nodes::group::registry;
use crate::tests::nodes::text::{as_text, put_sent};
use crate::tests::nodes::words::MEMORY;
use crate::tests::worlds::{events, lines, put_lines};
use pmg_store::Store;
use pmg_value::{NodeId, Refusal, WatchedWriter};
use pmg_world::{Event, World};
use std::alloc::Global;
use std::process::Abort;

// What the call gives, asked for a second time where an allocation failed.
macro_rules! again {
    ($rt:expr, $call:expr) => {
        match $call {
            Ok(given) => given,
            Err(_) => $call.expect($rt, MEMORY),
        }
    };
}

// Puts the dump of the store.
fn put_dump(text: &mut Vec<u8>, alloc: Global, store: &Store) -> Result<(), Refusal> {
    let mut writer = WatchedWriter::new(Vec::new(alloc));
    if store.dump(&mut writer).is_err() {
        return Err(Refusal::NoMemory);
    }
    text.extend_from_slice(&writer.into_inner())?;
    Ok(())
}

// Puts what both nodes hold.
fn put_dumps(text: &mut Vec<u8>, alloc: Global, world: &World) -> Result<(), Refusal> {
    for index in 0..2 {
        if let Some(node) = world.node(NodeId::new(index)?) {
            put_dump(text, alloc, node.board().near())?;
            put_dump(text, alloc, node.board().far())?;
        }
    }
    Ok(())
}

// Puts the frames that were sent.
fn put_frames(text: &mut Vec<u8>, alloc: Global, world: &World) -> Result<(), Refusal> {
    for sent in world.sent().iter() {
        put_sent(text, sent, alloc)?;
    }
    Ok(())
}

// Puts the answers, the frames that were sent, and what both nodes hold.
fn put_seen(text: &mut Vec<u8>, alloc: Global, world: &World) -> Result<(), Refusal> {
    put_lines(text, alloc, world)?;
    put_frames(text, alloc, world)?;
    put_dumps(text, alloc, world)
}

// All that is seen of the world.
fn seen_once(alloc: Global, world: &World) -> Result<Vec<u8>, Refusal> {
    let mut text = Vec::new(alloc);
    put_seen(&mut text, alloc, world)?;
    Ok(text)
}

fn look_at(rt: &impl Abort, alloc: Global, world: &World) -> Vec<u8> {
    again!(rt, seen_once(alloc, world))
}

// A world after these events.
fn after_once(alloc: Global, events: &[Event]) -> Result<World, Refusal> {
    let registry = registry(alloc, 2, &[0, 1])?;
    let mut world = World::new(&registry)?;
    if world.run(events).is_err() {
        return Err(Refusal::NoMemory);
    }
    Ok(world)
}

fn after(rt: &impl Abort, alloc: Global, events: &[Event]) -> World {
    again!(rt, after_once(alloc, events))
}

// The events happen. Where an allocation fails, the world stands after those that it counts, and the
// others happen then.
fn happen(rt: &impl Abort, alloc: Global, world: &mut World, events: &[Event]) {
    if let Err(failed) = world.run(events) {
        let done = events.get(..failed.done).unwrap_or(&[]);
        let left = events.get(failed.done..).unwrap_or(&[]);
        let other = after(rt, alloc, done);
        assert!(rt; look_at(rt, alloc, world) == look_at(rt, alloc, &other));
        assert!(rt; world.run(left).is_ok());
    }
}

// A set is defined, and a get of process 1 waits for a value of process 0. Both meet in a fence,
// whose header node 0 asks for, and in another, before which process 0 commits what node 1 asks
// for. A get of process 1 asks anew, and again. Process 0 ends, and the set is deleted.
const ROWS: &str = "\
0 define s j0 j1|defined 1
- deliver 1|delivered 1
1 wait j1 j0 a|parked
1 take j1|waiting
1 nudge|ok
- deliver 2|delivered 1
0 put j0 global a 7|ok
0 commit j0|commit 1
- deliver 5|delivered 1
1 take j1|found u8:7
0 enter j0 collect j0 j1|entered 1
1 enter j1 collect j0 j1|entered 1
0 leave j0|waiting
- deliver 6|delivered 1
1 leave j1|released 1 gone -
0 nudge|ok
- deliver 8|delivered 1
- deliver 9|delivered 1
0 leave j0|released 1 gone -
0 commit j0|commit 2
0 enter j0 collect j0 j1|entered 2
1 enter j1 collect j0 j1|entered 2
- deliver 10|delivered 1
1 nudge|ok
- deliver 13|delivered 1
1 leave j1|waiting
- deliver 15|delivered 1
1 leave j1|released 2 gone -
1 now j1 j0 a|found u8:7
1 refresh j1 j0 a|parked
1 nudge|ok
1 take j1|waiting
- deliver 16|delivered 1
- deliver 19|delivered 1
1 take j1|found u8:7
0 end j0|ended 3
0 delete s|defined 2
";

#[test]
fn each_kind_of_event_happens(rt: HostRuntime) {
    let alloc = rt.alloc();
    let (events, wanted) = again!(&rt, events(alloc, ROWS));
    let mut world = after(&rt, alloc, &[]);
    happen(&rt, alloc, &mut world, &events);
    let told = again!(&rt, lines(alloc, &world));
    assert_eq!(rt; as_text(&told), as_text(&wanted));
    let other = after(&rt, alloc, &events);
    assert!(rt; look_at(&rt, alloc, &world) == look_at(&rt, alloc, &other));
}

//! What calls leave where an allocation fails. With ample memory each of them succeeds; a run shows the rest in which some allocation
//! fails.
use crate::group::{MEMORY, desk, key, number_in, process};
use pmg_desk::{Client, Desk};
use pmg_node::Release;
use pmg_scope::Scope;
use pmg_value::{Key, Proc, Refusal, Value};
use std::alloc::Global;
use std::process::Abort;
use std::sync::Wait;

// The answer, asked for a second time where an allocation failed.
macro_rules! again {
    ($call:expr) => {
        match $call {
            Err(Refusal::NoMemory) => $call,
            answer => answer,
        }
    };
}

// The same of a client's call: the first one left the transcript as it was, and no call waits that did not wait before.
macro_rules! again_by {
    ($client:expr, $seen:expr, $call:expr) => {{
        let before = ($client.transcript().calls.len(), $client.in_call());
        match $call {
            Err(Refusal::NoMemory) => {
                $seen.has_failed = true;
                if ($client.transcript().calls.len(), $client.in_call()) != before {
                    return Err(Refusal::Unordered);
                }
                $call
            }
            answer => answer,
        }
    }};
}

// What was seen of the calls.
#[derive(Drop)]
struct Seen {
    has_failed: bool,
    committed: u64,
}

// The client puts 7 under the key a.
fn put_seven(alloc: Global, client: &mut Client<'_>) -> Result<(), Refusal> {
    client.put(Scope::Global, key(alloc, b"a")?, Value::U32(7))
}

fn put(alloc: Global, client: &mut Client<'_>, seen: &mut Seen) -> Result<(), Refusal> {
    again_by!(client, seen, put_seven(alloc, client))
}

fn commit<R: Wait>(rt: &R, client: &mut Client<'_>, seen: &mut Seen) -> Result<u64, Refusal> {
    again_by!(client, seen, client.commit(rt))
}

fn enter<R: Wait>(
    rt: &R,
    client: &mut Client<'_>,
    all: &[Proc],
    seen: &mut Seen,
) -> Result<u64, Refusal> {
    again_by!(client, seen, client.enter(rt, all, true))
}

fn leave<R: Wait>(rt: &R, client: &mut Client<'_>, seen: &mut Seen) -> Result<Release, Refusal> {
    again_by!(client, seen, client.leave(rt))
}

fn get<R: Wait>(
    rt: &R,
    client: &mut Client<'_>,
    target: &Proc,
    name: &Key,
    seen: &mut Seen,
) -> Result<Value, Refusal> {
    again_by!(client, seen, client.get(rt, target, name))
}

// One client puts a number, commits it, and meets the other in a fence, who gets it.
fn exchange<R: Wait>(
    rt: &R,
    alloc: Global,
    all: &[Proc; 2],
    name: &Key,
    one: &mut Client<'_>,
    two: &mut Client<'_>,
    seen: &mut Seen,
) -> Result<Option<u32>, Refusal> {
    put(alloc, one, seen)?;
    seen.committed = commit(rt, one, seen)?;
    commit(rt, two, seen)?;
    enter(rt, one, all, seen)?;
    enter(rt, two, all, seen)?;
    leave(rt, one, seen)?;
    leave(rt, two, seen)?;
    Ok(number_in(get(rt, two, &all[0], name, seen)?))
}

// What the exchange at the desk ends with, the commits that the other client reads then, and what it is answered who is no process of
// the node.
fn end_of_exchange<R: Wait + Abort>(
    rt: &R,
    alloc: Global,
    desk: &Desk,
    seen: &mut Seen,
) -> (Result<Option<u32>, Refusal>, u64, Option<Refusal>) {
    let first = again!(process(alloc, 0)).expect(rt, MEMORY);
    let second = again!(process(alloc, 1)).expect(rt, MEMORY);
    let all = [first, second];
    let stranger = again!(process(alloc, 2)).expect(rt, MEMORY);
    let name = again!(key(alloc, b"a")).expect(rt, MEMORY);
    let mut one = again!(desk.client(rt, &all[0])).expect(rt, MEMORY);
    let mut two = again!(desk.client(rt, &all[1])).expect(rt, MEMORY);
    let ended = exchange(rt, alloc, &all, &name, &mut one, &mut two, seen);
    let level = again!(two.level_now(&all[0])).expect(rt, MEMORY);
    (ended, level, again!(desk.client(rt, &stranger)).err())
}

#[test]
fn a_call_whose_allocation_fails_leaves_nothing(rt: HostRuntime) {
    let alloc = rt.alloc();
    let desk = again!(desk(&rt, alloc, 0)).expect(&rt, MEMORY);
    let mut seen = Seen {
        has_failed: false,
        committed: 0,
    };
    let (ended, level, late) = end_of_exchange(&rt, alloc, &desk, &mut seen);
    desk.into_journal(&rt);
    assert!(rt; level == seen.committed);
    match ended {
        Ok(number) => assert!(rt;
            number == Some(7) && level == 1 && late == Some(Refusal::NotMine)
        ),
        // the node was given up, after the act
        Err(refusal) => assert!(rt;
            seen.has_failed && refusal == Refusal::Closed && late == Some(Refusal::Closed)
        ),
    }
}

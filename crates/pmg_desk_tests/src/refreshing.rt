//! A get that asks anew: it finds a commit that its node does not know. The test hands the frames across.
use crate::calls::put_number;
use crate::group::{MEMORY, check_memory, desk, key, number_in, process};
use crate::sets::hand_over;
use pmg_desk::{Client, Desk};
use pmg_value::{Key, Proc, Refusal};
use std::alloc::Global;
use std::process::Abort;
use std::sync::Wait;
use std::thread;
use std::thread::Threads;

// The number of process 2 that a client of node 0 found: by a get that waits, by the next one, by one that asks anew, and by a read
// after it.
type Found = Result<[Option<u32>; 4], Refusal>;

// How many frames were taken at node 1, at node 0, and again at each.
type Handed = Result<[u64; 4], Refusal>;

// The client gets the number of that process.
fn find_of<R: Wait>(rt: &R, client: &mut Client<'_>, target: &Proc, name: &Key) -> Found {
    let first = number_in(client.get(rt, target, name)?);
    let next = number_in(client.get(rt, target, name)?);
    let anew = number_in(client.get_refresh(rt, target, name)?);
    let read = number_in(client.get_now(target, name)?);
    Ok([first, next, anew, read])
}

// A client of process 0 gets the number of process 2.
fn find<R: Wait>(rt: &R, alloc: Global, zero: &Desk) -> Found {
    let name = key(alloc, b"a")?;
    let target = process(alloc, 2)?;
    let mut client = zero.client(rt, &process(alloc, 0)?)?;
    find_of(rt, &mut client, &target, &name)
}

// The same. Where that fails the desks are closed, so that nobody waits.
fn find_or_close<R: Wait + AllocGlobal>(rt: &R, zero: &Desk, one: &Desk) -> Found {
    let found = find(rt, rt.alloc(), zero);
    if found.is_err() {
        zero.close(rt);
        one.close(rt);
    }
    found
}

// The frames go to node 1 and back, for each get that waits. The client commits another number once the first get was replied to, and
// before the reply is there.
fn hand_all<R: Wait>(
    rt: &R,
    alloc: Global,
    zero: &Desk,
    one: &Desk,
    client: &mut Client<'_>,
) -> Handed {
    let asked = hand_over(rt, zero, one)?;
    put_number(rt, alloc, client, 8)?;
    let told = hand_over(rt, one, zero)?;
    let anew = hand_over(rt, zero, one)?;
    Ok([asked, told, anew, hand_over(rt, one, zero)?])
}

// What a client of node 0 finds while the frames go to and fro. Where that fails the desks are closed, so that nobody waits. None where
// there is no thread.
fn find_while_handed<R: Threads + Wait + AllocGlobal + Sync>(
    rt: &R,
    zero: &Desk,
    one: &Desk,
    mut client: Client<'_>,
) -> Option<(Found, Handed)> {
    thread::scope(
        thread::scope_env(),
        rt,
        move |scope| -> Option<(Found, Handed)> {
            let finds = scope.spawn(move || find_or_close(rt, zero, one)).ok()?;
            let handed = hand_all(rt, rt.alloc(), zero, one, &mut client);
            if handed.is_err() {
                zero.close(rt);
                one.close(rt);
            }
            Some((finds.join(rt), handed))
        },
    )
}

// The same, once process 2 committed its first number.
fn put_and_find<R: Threads + Wait + AllocGlobal + Sync>(
    rt: &R,
    zero: &Desk,
    one: &Desk,
) -> Result<(Found, Handed), Refusal> {
    let alloc = rt.alloc();
    let mut client = one.client(rt, &process(alloc, 2)?)?;
    put_number(rt, alloc, &mut client, 7)?;
    match find_while_handed(rt, zero, one, client) {
        Some(answers) => Ok(answers),
        None => Err(Refusal::NoMemory),
    }
}

#[test]
fn a_get_that_asks_anew_finds_the_last_commit(rt: HostRuntime) {
    let zero = desk(&rt, rt.alloc(), 0).expect(&rt, MEMORY);
    let one = desk(&rt, rt.alloc(), 1).expect(&rt, MEMORY);
    let (found, handed) = put_and_find(&rt, &zero, &one).expect(&rt, MEMORY);
    one.into_journal(&rt);
    zero.into_journal(&rt);
    check_memory(&[found.err(), handed.err()]).expect(&rt, MEMORY);
    assert!(rt; found == Ok([Some(7), Some(7), Some(8), Some(8)]));
    assert!(rt; handed == Ok([1, 1, 1, 1]));
}

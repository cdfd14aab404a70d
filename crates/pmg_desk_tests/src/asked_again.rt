//! A get that waits in a thread of its own until its node is told what it asks for, and the taking of its answer: each call is asked for
//! again where an allocation failed in it. This test passes whichever allocation fails.
use crate::group::{desk, key, number_in, process};
use pmg_commit::{Piece, PieceEntry};
use pmg_desk::{Client, Desk};
use pmg_frame::Frame;
use pmg_node::{Delivery, Taking};
use pmg_value::{Key, Proc, Refusal, Value};
use std::alloc::Global;
use std::process::Abort;
use std::sync::Wait;
use std::thread;
use std::thread::Threads;

// The number that a client found, and how many calls it made by then; or why it was refused.
type Found = Result<(Option<u32>, usize), Refusal>;

// The answer, asked for a second time where an allocation failed. Where the node was given up by that, the first one counts.
macro_rules! again {
    ($call:expr) => {
        match $call {
            Err(Refusal::NoMemory) => match $call {
                Err(Refusal::Closed) => Err(Refusal::NoMemory),
                answer => answer,
            },
            answer => answer,
        }
    };
}

// The client's first get. Where an allocation fails once it waits, its answer is still to be taken.
fn get<R: Wait>(
    rt: &R,
    client: &mut Client<'_>,
    target: &Proc,
    name: &Key,
) -> Result<Value, Refusal> {
    if !client.in_call() {
        return client.get(rt, target, name);
    }
    match client.take(rt)? {
        Taking::Found(value) => Ok(value),
        Taking::Idle | Taking::Waiting => Err(Refusal::Unordered),
    }
}

// The client asks for the number of that process, and then takes an answer, though nothing is left to be taken.
fn find_of<R: Wait>(rt: &R, client: &mut Client<'_>, target: &Proc, name: &Key) -> Found {
    let number = number_in(again!(get(rt, client, target, name))?);
    match again!(client.take(rt))? {
        Taking::Idle => Ok((number, client.transcript().calls.len())),
        Taking::Found(_) | Taking::Waiting => Err(Refusal::Unordered),
    }
}

// A client of process 0 asks for the number of process 2.
fn find<R: Wait>(rt: &R, alloc: Global, desk: &Desk) -> Found {
    let first = again!(process(alloc, 0))?;
    let target = again!(process(alloc, 2))?;
    let name = again!(key(alloc, b"a"))?;
    let mut client = again!(desk.client(rt, &first))?;
    find_of(rt, &mut client, &target, &name)
}

// The same. Where that fails the desk is closed, so that nobody waits.
fn find_or_close<R: Wait + AllocGlobal>(rt: &R, desk: &Desk) -> Found {
    let found = find(rt, rt.alloc(), desk);
    if found.is_err() {
        desk.close(rt);
    }
    found
}

// The node is told that process 2 committed a number.
fn tell_number<R: Wait>(rt: &R, alloc: Global, desk: &Desk) -> Result<Delivery, Refusal> {
    let entry = PieceEntry {
        key: key(alloc, b"a")?,
        number: 1,
        value: Value::U32(7),
    };
    let mut entries = Vec::new(alloc);
    entries.push(entry)?;
    let piece = Piece::new(process(alloc, 2)?, 0, 1, entries)?;
    desk.deliver(rt, Frame::Piece(piece))
}

// The same, once the node asks for it.
fn tell_asked<R: Wait>(rt: &R, alloc: Global, desk: &Desk) -> Result<(), Refusal> {
    let asks = again!(desk.take_frames(rt))?.len();
    match again!(tell_number(rt, alloc, desk))? {
        Delivery::Taken if asks == 1 => Ok(()),
        _ => Err(Refusal::Unordered),
    }
}

// What a client finds while the node is told, and whether it was. Where that fails the desk is closed, so that nobody waits. None where
// there is no thread.
fn find_while_told<R: Threads + Wait + AllocGlobal + Sync>(
    rt: &R,
    desk: &Desk,
) -> Option<(Found, Result<(), Refusal>)> {
    thread::scope(
        thread::scope_env(),
        rt,
        move |scope| -> Option<(Found, Result<(), Refusal>)> {
            let finds = scope.spawn(move || find_or_close(rt, desk)).ok()?;
            let told = tell_asked(rt, rt.alloc(), desk);
            if told.is_err() {
                desk.close(rt);
            }
            Some((finds.join(rt), told))
        },
    )
}

#[test]
fn a_get_that_waits_finds_what_is_told(rt: HostRuntime) -> Result<(), Refusal> {
    let desk = again!(desk(&rt, rt.alloc(), 0))?;
    let answers = match find_while_told(&rt, &desk) {
        None => find_while_told(&rt, &desk),
        answers => answers,
    };
    desk.into_journal(&rt);
    match answers {
        // the node was given up, after the act
        Some((Err(Refusal::NoMemory), _)) | Some((_, Err(Refusal::NoMemory))) => {}
        answers => assert!(rt; answers == Some((Ok((Some(7), 3)), Ok(())))),
    }
    Ok(())
}

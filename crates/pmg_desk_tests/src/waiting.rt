//! Clients that wait in threads of their own.
use crate::calls::put_number;
use crate::group::{MEMORY, desk, key, number_in, process};
use pmg_desk::{Client, Desk};
use pmg_journal::Journal;
use pmg_node::{Release, Reply};
use pmg_value::Refusal;
use std::alloc::Global;
use std::process::Abort;
use std::sync::Wait;
use std::thread;
use std::thread::Threads;
use std::time::{Clock, Duration};

// What a client is answered that waits in a fence while the desk is closed.
fn leave_closed<R: Threads + Wait + Sync>(
    rt: &R,
    desk: &Desk,
    mut client: Client<'_>,
) -> Option<Result<Release, Refusal>> {
    thread::scope(
        thread::scope_env(),
        rt,
        move |scope| -> Option<Result<Release, Refusal>> {
            let waits = scope.spawn(move || client.leave(rt)).ok()?;
            desk.close(rt);
            Some(waits.join(rt))
        },
    )
}

// Process 0 enters a fence with process 1, which does not come, and the desk is closed.
fn waits_in_vain<R: Threads + Wait + Sync>(
    rt: &R,
    alloc: Global,
    desk: &Desk,
) -> Result<Option<Refusal>, Refusal> {
    let all = [process(alloc, 0)?, process(alloc, 1)?];
    let mut client = desk.client(rt, &all[0])?;
    client.enter(rt, &all, true)?;
    match leave_closed(rt, desk, client) {
        None | Some(Err(Refusal::NoMemory)) => Err(Refusal::NoMemory),
        Some(Err(refusal)) => Ok(Some(refusal)),
        Some(Ok(_)) => Ok(None),
    }
}

#[test]
fn who_waits_at_a_desk_that_is_closed_is_told_so(rt: HostRuntime) {
    let alloc = rt.alloc();
    let desk = desk(&rt, alloc, 0).expect(&rt, MEMORY);
    let answer = waits_in_vain(&rt, alloc, &desk).expect(&rt, MEMORY);
    desk.into_journal(&rt);
    assert!(rt; answer == Some(Refusal::Closed));
}

// What a client is answered that asks for the number of process 1.
fn get_number<R: Wait + AllocGlobal>(
    rt: &R,
    mut client: Client<'_>,
) -> Result<Option<u32>, Refusal> {
    let target = process(rt.alloc(), 1)?;
    let name = key(rt.alloc(), b"a")?;
    Ok(number_in(client.get(rt, &target, &name)?))
}

// A client puts a number, for all, and commits it.
fn put_seven<R: Wait + AllocGlobal>(rt: &R, mut client: Client<'_>) -> Result<u64, Refusal> {
    put_number(rt, rt.alloc(), &mut client, 7)
}

// What the one client is answered that asks, while the other puts so long after. Where that fails the desk is closed, so that nobody
// waits.
fn get_while_put<R: Threads + Wait + Clock + AllocGlobal + Sync>(
    rt: &R,
    desk: &Desk,
    pause: Duration,
    asks: Client<'_>,
    puts: Client<'_>,
) -> Option<Result<Option<u32>, Refusal>> {
    thread::scope(
        thread::scope_env(),
        rt,
        move |scope| -> Option<Result<Option<u32>, Refusal>> {
            let waits = scope.spawn(move || get_number(rt, asks)).ok()?;
            thread::sleep(rt, pause);
            let put = put_seven(rt, puts);
            if put.is_err() {
                desk.close(rt);
            }
            let got = waits.join(rt);
            Some(if put == Err(Refusal::NoMemory) {
                Err(Refusal::NoMemory)
            } else {
                got
            })
        },
    )
}

// The same from new clients of the desk.
fn ask_and_put<R: Threads + Wait + Clock + AllocGlobal + Sync>(
    rt: &R,
    alloc: Global,
    desk: &Desk,
    pause: Duration,
) -> Result<Option<u32>, Refusal> {
    let asks = desk.client(rt, &process(alloc, 0)?)?;
    let puts = desk.client(rt, &process(alloc, 1)?)?;
    match get_while_put(rt, desk, pause, asks, puts) {
        Some(answer) => answer,
        None => Err(Refusal::NoMemory),
    }
}

// Whether a get was parked there.
fn has_parked(journal: &Journal) -> bool {
    journal
        .events
        .iter()
        .any(|event| matches!(event.answer, Ok(Reply::Parked)))
}

// A get that comes before the put waits, and is answered then. Which of the two threads is first is not known, so the one that puts
// waits longer at each turn.
#[test]
fn a_get_that_waits_is_answered(rt: HostRuntime) -> Result<(), Refusal> {
    let alloc = rt.alloc();
    for pause in 1..100 {
        let desk = desk(&rt, alloc, 0).expect(&rt, MEMORY);
        let answer = ask_and_put(&rt, alloc, &desk, Duration::from_millis(pause));
        assert!(rt; answer.expect(&rt, MEMORY) == Some(7));
        let journal = desk.into_journal(&rt);
        if has_parked(&journal) {
            return Ok(());
        }
    }
    Err(Refusal::NotFound)
}

//! What clients of one thread are answered, with answers found by hand.
use crate::group::{MEMORY, assert_refused, check_memory, desk, key, key_of, number_in, proc_of};
use pmg_desk::{Client, Desk};
use pmg_journal::{Call, Transcript};
use pmg_node::{Release, Request, Taking};
use pmg_scope::Scope;
use pmg_value::{Key, Nspace, Proc, Rank, Refusal, Value};
use std::alloc::Global;
use std::process::Abort;
use std::sync::Wait;

/// The process puts the number under the key a, and commits it: the commit's number.
pub(crate) fn put_number<R: Wait>(
    rt: &R,
    alloc: Global,
    client: &mut Client<'_>,
    number: u32,
) -> Result<u64, Refusal> {
    client.put(Scope::Global, key(alloc, b"a")?, Value::U32(number))?;
    client.commit(rt)
}

// Each of them puts a number, and commits it: whether these were their first commits.
fn have_put<R: Wait>(
    rt: &R,
    alloc: Global,
    one: &mut Client<'_>,
    two: &mut Client<'_>,
) -> Result<bool, Refusal> {
    Ok(put_number(rt, alloc, one, 7)? == 1 && put_number(rt, alloc, two, 8)? == 1)
}

// Both enter a fence: whether it was their first, and the one was in a call by then, and could read nothing.
fn have_entered<R: Wait>(
    rt: &R,
    one: &mut Client<'_>,
    two: &mut Client<'_>,
    all: &[Proc; 2],
    name: &Key,
) -> Result<bool, Refusal> {
    if one.enter(rt, all, true)? != 1 || !one.in_call() || two.enter(rt, all, true)? != 1 {
        return Ok(false);
    }
    Ok(one.get_now(&all[1], name).err() == Some(Refusal::Busy))
}

// Whether it is the release from instance 1 of a fence from which nobody was gone.
fn is_whole(release: &Release) -> bool {
    match release {
        Release::Released(instance, gone) => *instance == 1 && gone.is_empty(),
        _ => false,
    }
}

// Both leave the fence: whether they were released, and the one is in no call then.
fn have_left<R: Wait>(rt: &R, one: &mut Client<'_>, two: &mut Client<'_>) -> Result<bool, Refusal> {
    let (left, right) = (one.leave(rt)?, two.leave(rt)?);
    Ok(is_whole(&left) && is_whole(&right) && !one.in_call())
}

// What they read of each other, and of themselves.
fn read_all<R: Wait>(
    rt: &R,
    one: &mut Client<'_>,
    two: &mut Client<'_>,
    [first, second]: &[Proc; 2],
    name: &Key,
) -> Result<[Option<u32>; 4], Refusal> {
    Ok([
        number_in(one.get_now(second, name)?),
        number_in(two.get(rt, first, name)?),
        number_in(one.get(rt, first, name)?),
        number_in(two.get_now(second, name)?),
    ])
}

// Two clients of node 0 each put a number, meet in a fence, and read each other's.
fn meet<R: Wait>(
    rt: &R,
    alloc: Global,
    desk: &Desk,
    all: &[Proc; 2],
    name: &Key,
) -> Result<[Option<u32>; 4], Refusal> {
    let mut one = desk.client(rt, &all[0])?;
    let mut two = desk.client(rt, &all[1])?;
    if !have_put(rt, alloc, &mut one, &mut two)?
        || !have_entered(rt, &mut one, &mut two, all, name)?
        || !have_left(rt, &mut one, &mut two)?
    {
        return Err(Refusal::Unordered);
    }
    read_all(rt, &mut one, &mut two, all, name)
}

// Processes 0 and 1.
fn both(rt: &impl Abort, alloc: Global) -> [Proc; 2] {
    [proc_of(rt, alloc, 0), proc_of(rt, alloc, 1)]
}

#[test]
fn two_clients_of_a_node_meet(rt: HostRuntime) {
    let alloc = rt.alloc();
    let desk = desk(&rt, alloc, 0).expect(&rt, MEMORY);
    let name = key_of(&rt, alloc, b"a");
    let read = meet(&rt, alloc, &desk, &both(&rt, alloc), &name).expect(&rt, MEMORY);
    assert!(rt; read == [Some(8), Some(7), Some(7), Some(8)]);
    let journal = desk.into_journal(&rt);
    // two commits, two entries, two leaves, and the get of another process's key
    assert!(rt; journal.events.len() == 7);
}

// Processes that have no client, and why: one that has one, one of another node, one that is not there, and one of another namespace.
const REFUSED: &[(&[u8], u32, Refusal)] = &[
    (b"j", 0, Refusal::Exists),
    (b"j", 2, Refusal::NotMine),
    (b"j", 9, Refusal::BadParam),
    (b"k", 0, Refusal::UnknownNamespace),
];

// Requires that the process has no client, for that reason.
fn assert_no_client<R: Wait + Abort>(
    rt: &R,
    alloc: Global,
    desk: &Desk,
    row: &(&[u8], u32, Refusal),
) {
    let (nspace, rank, wanted) = row;
    let nspace = Nspace::read(alloc, nspace).expect(rt, MEMORY);
    let refusal = desk.client(rt, &Proc::new(nspace, Rank::new(*rank))).err();
    assert_refused(rt, refusal, *wanted);
}

// The transcript of the client, which ends.
fn end<R: Wait + Abort>(rt: &R, client: Client<'_>) -> Transcript {
    match client.terminate(rt) {
        Ok(transcript) => transcript,
        Err(unended) => Err(unended.refusal).expect(rt, MEMORY),
    }
}

#[test]
fn a_process_has_one_client(rt: HostRuntime) {
    let alloc = rt.alloc();
    let desk = desk(&rt, alloc, 0).expect(&rt, MEMORY);
    let first = proc_of(&rt, alloc, 0);
    let client = desk.client(&rt, &first).expect(&rt, MEMORY);
    for row in REFUSED {
        assert_no_client(&rt, alloc, &desk, row);
    }
    end(&rt, client);
    assert_no_client(&rt, alloc, &desk, &(b"j", 0, Refusal::Terminated));
    desk.into_journal(&rt);
}

// Requires that a client still reads what was committed once the desk is closed, but calls its node no more; nor are frames taken.
fn assert_closed<R: Wait + Abort>(rt: &R, alloc: Global, desk: &Desk) {
    let [first, other] = &both(rt, alloc);
    let mut client = desk.client(rt, first).expect(rt, MEMORY);
    let mut second = desk.client(rt, other).expect(rt, MEMORY);
    put_number(rt, alloc, &mut second, 5).expect(rt, MEMORY);
    put_number(rt, alloc, &mut client, 6).expect(rt, MEMORY);
    desk.close(rt);
    assert_refused(rt, client.commit(rt).err(), Refusal::Closed);
    let read = client.get_now(other, &key_of(rt, alloc, b"a"));
    assert!(rt; number_in(read.expect(rt, MEMORY)) == Some(5));
    assert_refused(rt, desk.take_frames(rt).err(), Refusal::Closed);
}

#[test]
fn readers_go_on_at_a_closed_desk(rt: HostRuntime) {
    let desk = desk(&rt, rt.alloc(), 0).expect(&rt, MEMORY);
    assert_closed(&rt, rt.alloc(), &desk);
    desk.into_journal(&rt);
}

// Whether the call is that of a put, a commit, or a request, each by a letter.
fn letter_of(call: &Call) -> u8 {
    match call {
        Call::Put(..) => b'p',
        Call::Commit => b'c',
        Call::Request(Request::Ask(..)) => b'a',
        Call::Request(Request::Take(..)) => b't',
        Call::Request(Request::Enter(..)) => b'e',
        Call::Request(Request::Leave(..)) => b'l',
        Call::Request(Request::Terminate(..)) => b'x',
        Call::Request(_) => b'?',
    }
}

// What stands in the transcript: a letter for each call, and a `!` after those that were refused.
fn letters(rt: &impl Abort, alloc: Global, transcript: &Transcript) -> Vec<u8> {
    let mut letters = Vec::new(alloc);
    for called in &transcript.calls {
        letters.push(letter_of(&called.call)).expect(rt, MEMORY);
        if called.answer.is_err() {
            letters.push(b'!').expect(rt, MEMORY);
        }
    }
    letters
}

// A put, a commit, and a put that is refused.
fn put_twice<R: Wait + Abort>(rt: &R, alloc: Global, client: &mut Client<'_>) {
    put_number(rt, alloc, client, 1).expect(rt, MEMORY);
    let name = key_of(rt, alloc, b"a");
    let bad = client.put(Scope::Undef, name, Value::Bool(true)).err();
    check_memory(&[bad]).expect(rt, MEMORY);
    assert!(rt; bad.is_some());
}

// A get of an own key, a take of nothing, and a get of a reserved key.
fn get_twice<R: Wait + Abort>(rt: &R, alloc: Global, client: &mut Client<'_>) {
    let [first, other] = &both(rt, alloc);
    let own = client.get(rt, first, &key_of(rt, alloc, b"a"));
    assert!(rt; number_in(own.expect(rt, MEMORY)) == Some(1));
    let idle = client.take(rt).expect(rt, MEMORY);
    assert!(rt; matches!(idle, Taking::Idle));
    let rank = Key::read_any(alloc, b"pmix.rank").expect(rt, MEMORY);
    client.get(rt, other, &rank).expect(rt, MEMORY);
}

// A fence of one, and a leave of none.
fn leave_twice<R: Wait + Abort>(rt: &R, alloc: Global, client: &mut Client<'_>) {
    let list = [proc_of(rt, alloc, 0)];
    let fence = client.fence(rt, &list, false).expect(rt, MEMORY);
    assert!(rt; is_whole(&fence));
    let late = client.leave(rt).expect(rt, MEMORY);
    assert!(rt; matches!(late, Release::Idle));
}

// The transcript of a client that calls one of each.
fn transcript<R: Wait + Abort>(rt: &R, alloc: Global, desk: &Desk) -> Transcript {
    let mut client = desk.client(rt, &proc_of(rt, alloc, 0)).expect(rt, MEMORY);
    put_twice(rt, alloc, &mut client);
    get_twice(rt, alloc, &mut client);
    leave_twice(rt, alloc, &mut client);
    end(rt, client)
}

#[test]
fn a_transcript_has_each_call(rt: HostRuntime) {
    let alloc = rt.alloc();
    let desk = desk(&rt, alloc, 0).expect(&rt, MEMORY);
    let transcript = transcript(&rt, alloc, &desk);
    desk.into_journal(&rt);
    let letters = letters(&rt, alloc, &transcript);
    assert!(rt; letters.as_slice() == b"pcp!ataellx".as_slice());
}

//! Published stores: that calls succeed where there is memory, what viewers read with answers found by hand, that a viewer
//! meets no Closed while its publisher is open, and what stands after an allocation failed.
ghost use Rattle.pmg_publish.specs.declared.opening.TheConstants.{MAX_VIEWERS};
ghost use Rattle.std.specs.Prelude.{◌≡◌, ◌≤◌, IfOk};

use crate::tests::making::{MEMORY, key, process};
use pmg_commit::{Piece, PieceEntry};
use pmg_publish::{Publisher, Viewer, publisher};
use pmg_value::{Key, Proc, Refusal, Value};
use std::alloc::Global;
use std::process::Abort;
use std::sync::Wait;
use std::thread::{Threads, join};

/// The commits that one thread publishes while another reads.
const COMMITS: u32 = 10_000;

/// The most reads of the other thread.
const READS: u32 = 10_000_000;

// The answer, asked for a second time where an allocation failed.
macro_rules! again {
    ($call:expr) => {
        match $call {
            Err(_) => $call,
            answer => answer,
        }
    };
}

// The next commit of the process j 0 after that number, with the value under the key.
fn piece_of(rt: &impl Abort, alloc: Global, from: u32, key: Key, value: Value) -> Piece {
    let number = u64::from(from) + 1;
    let mut entries = Vec::with_capacity(alloc, 1).expect(rt, MEMORY);
    let entry = PieceEntry { key, number, value };
    entries.push(entry).expect(rt, MEMORY);
    let proc = process(alloc).expect(rt, MEMORY);
    Piece::new(proc, u64::from(from), number, entries).expect(rt, MEMORY)
}

// The same with a number under the key a.
fn piece(rt: &impl Abort, alloc: Global, from: u32, value: u32) -> Piece {
    piece_of(
        rt,
        alloc,
        from,
        key(alloc).expect(rt, MEMORY),
        Value::U32(value),
    )
}

// The piece as a list.
fn list(rt: &impl Abort, alloc: Global, piece: Piece) -> Vec<Piece> {
    vec![in alloc; piece].expect(rt, MEMORY)
}

// A publisher and its only viewer.
fn open_with_viewer<R: Wait>(rt: &R, alloc: Global) -> Result<(Publisher, Viewer), Refusal>
    ensures { IfOk result (λ r. r.1.book ≡ r.0.book) }
{
    let (publisher, mut viewers) = again!(publisher(rt, alloc, 1))?;
    match viewers.pop() {
        Some(viewer) => Ok((publisher, viewer)),
        None => {
            publisher.close(rt);
            Err(Refusal::NotFound)
        }
    }
}

// The number that the value is, if it is one.
fn number_in(value: Option<Value>) -> Option<u32> {
    match &value {
        Some(Value::U32(n)) => Some(*n),
        _ => None,
    }
}

// What is read under the key a: the numbers near and far, and whether the process has ended there.
fn read_a(
    rt: &impl Abort,
    alloc: Global,
    viewer: &mut Viewer,
) -> (Option<u32>, Option<u32>, bool, bool) {
    let proc = process(alloc).expect(rt, MEMORY);
    let key = key(alloc).expect(rt, MEMORY);
    let sight = again!(viewer.read(&proc, &key)).expect(rt, MEMORY);
    (
        number_in(sight.near),
        number_in(sight.far),
        sight.near_ended,
        sight.far_ended,
    )
}

// What is read under the key a in the far store alone: the number, and whether the process has ended there.
fn read_far_a(rt: &impl Abort, alloc: Global, viewer: &mut Viewer) -> (Option<u32>, bool) {
    let proc = process(alloc).expect(rt, MEMORY);
    let key = key(alloc).expect(rt, MEMORY);
    let sight = again!(viewer.read_far(&proc, &key)).expect(rt, MEMORY);
    (number_in(sight.value), sight.ended)
}

// Publishes 1 near and 2 far.
fn publish_both<R: Wait + Abort>(rt: &R, alloc: Global, publisher: &mut Publisher) {
    let near = list(rt, alloc, piece(rt, alloc, 0, 1));
    let far = list(rt, alloc, piece(rt, alloc, 0, 2));
    publisher.publish(rt, near, far).expect(rt, MEMORY);
}

// Publishes the end of the process far.
fn publish_end<R: Wait + Abort>(rt: &R, alloc: Global, publisher: &mut Publisher) {
    let key = Key::of_termination();
    let end = list(rt, alloc, piece_of(rt, alloc, 1, key, Value::Bool(true)));
    let near = Vec::new(alloc);
    publisher.publish(rt, near, end).expect(rt, MEMORY);
}

#[test]
fn both_stores_are_read(rt: HostRuntime) {
    let alloc = rt.alloc();
    let (mut publisher, mut viewer) = open_with_viewer(&rt, alloc).expect(&rt, MEMORY);
    publish_both(&rt, alloc, &mut publisher);
    let read = read_a(&rt, alloc, &mut viewer);
    assert!(rt; read == (Some(1), Some(2), false, false));
    assert!(rt; read_far_a(&rt, alloc, &mut viewer) == (Some(2), false));
    publish_end(&rt, alloc, &mut publisher);
    let read = read_a(&rt, alloc, &mut viewer);
    assert!(rt; read == (Some(1), Some(2), false, true));
    assert!(rt; read_far_a(&rt, alloc, &mut viewer) == (Some(2), true));
    publisher.close(&rt);
}

// How many of so many viewers there are, and how many of them read what is published, each twice.
fn count_readers<R: Wait + Abort>(rt: &R, alloc: Global, count: usize) -> (usize, usize)
    requires { count ≤ MAX_VIEWERS }
{
    let proc = process(alloc).expect(rt, MEMORY);
    let far = list(rt, alloc, piece(rt, alloc, 0, 1));
    let (mut publisher, mut viewers) = publisher(rt, alloc, count).expect(rt, MEMORY);
    let near = Vec::new(alloc);
    publisher.publish(rt, near, far).expect(rt, MEMORY);
    let mut readers = 0_usize;
    for viewer in viewers.iter_mut() {
        if viewer.level(&proc) == Ok(1) && viewer.level(&proc) == Ok(1) {
            readers = readers.wrapping_add(1);
        }
    }
    publisher.close(rt);
    (viewers.len(), readers)
}

#[test]
fn there_are_as_many_viewers_as_asked_for(rt: HostRuntime) {
    for count in [0, 3, 16_384] {
        assert!(rt; count_readers(&rt, rt.alloc(), count) == (count, count));
    }
}

// Publishes one commit after another, in which the number under the key is that of the commit.
fn publish_all<R: Wait + Abort>(
    rt: &R,
    alloc: Global,
    publisher: &mut Publisher,
) -> Result<(), Refusal> {
    for from in 0..COMMITS {
        let far = list(rt, alloc, piece(rt, alloc, from, from + 1));
        publisher.publish(rt, Vec::new(alloc), far)?;
    }
    Ok(())
}

// Reads until the last commit is seen: how often it read. A read that falls behind the one before is Unordered.
fn read_on(viewer: &mut Viewer, proc: &Proc, key: &Key) -> Result<u32, Refusal> {
    let mut last = 0;
    for reads in 1..READS {
        let level = viewer.level(proc)?;
        let number = u64::from(number_in(viewer.read(proc, key)?.far).unwrap_or(0));
        if level < last || number < level {
            return Err(Refusal::Unordered);
        }
        if number == u64::from(COMMITS) {
            return Ok(reads);
        }
        last = number;
    }
    Err(Refusal::NotFound)
}

// The same by a viewer of its own.
fn read_all(alloc: Global, mut viewer: Viewer) -> Result<u32, Refusal> {
    let proc = process(alloc)?;
    let key = key(alloc)?;
    read_on(&mut viewer, &proc, &key)
}

#[test]
fn reads_never_fall_back(rt: HostRuntime) {
    let alloc = rt.alloc();
    let (mut publisher, viewer) = open_with_viewer(&rt, alloc).expect(&rt, MEMORY);
    let (published, reads) = join(
        &rt,
        || publish_all(&rt, alloc, &mut publisher),
        || read_all(alloc, viewer),
    );
    publisher.close(&rt);
    published.expect(&rt, MEMORY);
    assert!(rt; 0 < reads.expect(&rt, MEMORY));
}

// Publishes up to five commits, and lets the viewer know of each: how many were published, and whether the publisher is
// closed after the first refusal.
fn publish_some<R: Wait + Abort>(
    rt: &R,
    alloc: Global,
    publisher: &mut Publisher,
    viewer: &mut Viewer,
) -> (u64, bool)
    requires { viewer.old.book ≡ publisher.old.book }
{
    for from in 0..5 {
        let far = list(rt, alloc, piece(rt, alloc, from, from + 1));
        if publisher.publish(rt, Vec::new(alloc), far).is_err() {
            let closed = publisher.publish(rt, Vec::new(alloc), Vec::new(alloc))
                == Err(Refusal::Closed);
            return (u64::from(from), closed);
        }
        viewer.learn(&publisher.tell());
    }
    (5, true)
}

#[test]
fn what_was_published_stands(rt: HostRuntime) {
    let alloc = rt.alloc();
    let proc = process(alloc).expect(&rt, MEMORY);
    let (mut publisher, mut viewer) = open_with_viewer(&rt, alloc).expect(&rt, MEMORY);
    let (count, closed) = publish_some(&rt, alloc, &mut publisher, &mut viewer);
    let level = viewer.level(&proc);
    publisher.close(&rt);
    assert!(rt; closed);
    assert!(rt; level == Ok(count));
    assert!(rt; viewer.level(&proc) == Err(Refusal::Closed));
}

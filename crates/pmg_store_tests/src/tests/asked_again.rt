//! Calls that are asked for again where an allocation failed in them: what they are called on was as before, and all ends as if
//! nothing had been. These tests pass whichever allocation fails.
use crate::tests::making::{MEMORY, draw_piece, draws, proc};
use crate::tests::spelled::{FRAMES, decode_fields};
use pmg_commit::Piece;
use pmg_frame::{Fed, Stream};
use pmg_store::{Failure, Store};
use pmg_value::WatchedWriter;
use std::alloc::Global;
use std::process::Abort;

// What the call gives, asked for a second time where an allocation failed.
macro_rules! again {
    ($rt:expr, $call:expr) => {
        match $call {
            Ok(given) => given,
            Err(_) => $call.expect($rt, MEMORY),
        }
    };
}

// The store's dump.
fn dump_of(alloc: Global, store: &Store) -> Result<Vec<u8>, Failure> {
    let mut writer = WatchedWriter::new(Vec::new(alloc));
    store.dump(&mut writer)?;
    Ok(writer.into_inner())
}

// All that is seen of the store: its dump, and which of the commits 1 to 19 of the processes 0 to 3 it took.
fn look_at(rt: &impl Abort, alloc: Global, store: &Store) -> Vec<u8> {
    let mut text = again!(rt, dump_of(alloc, store));
    for rank in 0..4 {
        let proc = again!(rt, proc(alloc, rank));
        for n in 1..20 {
            let mark = if store.taken(&proc, n) { b'+' } else { b'-' };
            again!(rt, text.push(mark));
        }
    }
    text
}

// Takes the piece.
fn absorb(rt: &impl Abort, alloc: Global, store: &mut Store, piece: &Piece) {
    let before = look_at(rt, alloc, store);
    if store.absorb(piece).is_err() {
        assert!(rt; look_at(rt, alloc, store) == before);
        store.absorb(piece).expect(rt, MEMORY);
    }
}

// Joins the other store.
fn join(rt: &impl Abort, alloc: Global, store: &mut Store, other: Store) {
    let before = look_at(rt, alloc, store);
    let given = look_at(rt, alloc, &other);
    if let Err(refused) = store.join(other) {
        assert!(rt;
            look_at(rt, alloc, store) == before && look_at(rt, alloc, &refused.value) == given
        );
        store.join(refused.value).expect(rt, MEMORY);
    }
}

// Each piece goes to one of two stores, which are joined at last, and to a third.
#[test]
fn stores_take_and_join(rt: HostRuntime) {
    let alloc = rt.alloc();
    let mut even = Store::new(alloc);
    let mut odd = Store::new(alloc);
    let mut whole = Store::new(alloc);
    let numbers = again!(&rt, draws(alloc, 24));
    for (done, number) in numbers.iter().enumerate() {
        let piece = again!(&rt, draw_piece(alloc, (*number >> 62) as u32, *number));
        let half = if done % 2 == 0 { &mut even } else { &mut odd };
        absorb(&rt, alloc, half, &piece);
        absorb(&rt, alloc, &mut whole, &piece);
    }
    join(&rt, alloc, &mut even, odd);
    assert!(rt; look_at(&rt, alloc, &even) == look_at(&rt, alloc, &whole));
}

// Feeds the bytes.
fn feed(rt: &impl Abort, stream: &mut Stream, bytes: &[u8]) -> Fed {
    let before = stream.finish();
    match stream.feed(bytes) {
        Ok(fed) => fed,
        Err(_) => {
            assert!(rt; stream.finish() == before);
            stream.feed(bytes).expect(rt, MEMORY)
        }
    }
}

// The bytes of the frames that are found where these are fed in parts, each in its version, and the offset of the fault.
fn frames_found(rt: &impl Abort, alloc: Global, bytes: &[u8]) -> (Vec<u8>, Option<u64>) {
    let mut stream = Stream::new(alloc);
    let mut found = Vec::new(alloc);
    let mut offset = None;
    for part in bytes.chunks(20) {
        let fed = feed(rt, &mut stream, part);
        for frame in &fed.frames {
            let version = bytes.get(found.len()).copied().unwrap_or(0);
            let encoded = again!(rt, frame.encode_as(alloc, version));
            again!(rt, found.extend_from_slice(&encoded));
        }
        offset = fed.fault.map(|fault| fault.offset);
    }
    (found, offset)
}

// A frame of each kind in each version, and a byte that begins none.
fn frames_and_fault(rt: &impl Abort, alloc: Global) -> Vec<u8> {
    let mut bytes = Vec::new(alloc);
    for line in FRAMES.lines() {
        let (_, text) = line.split_once(' ').unwrap_or(("", ""));
        let frame = again!(rt, decode_fields(alloc, text));
        again!(rt, bytes.extend_from_slice(&frame));
    }
    again!(rt, bytes.extend_from_slice(b"\x03\x01\x00\x00\x00\x00"));
    bytes
}

#[test]
fn streams_are_fed(rt: HostRuntime) {
    let alloc = rt.alloc();
    let bytes = frames_and_fault(&rt, alloc);
    let whole = bytes.get(..bytes.len().saturating_sub(6)).unwrap_or(&bytes);
    let (found, offset) = frames_found(&rt, alloc, &bytes);
    assert!(rt; found.as_slice() == whole && offset == Some(whole.len() as u64));
}

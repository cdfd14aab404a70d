//! What another server's store learns of process sets by the pieces that tell of their changes.
use crate::tests::making::{MEMORY, proc};
use pmg_pset::Sets;
use pmg_store::Store;
use pmg_value::{Key, WatchedWriter};
use std::alloc::Global;
use std::process::Abort;

const DEFINED: &[u8] = b"proc pmix.host 0 level 1\n  array:proc[6a/0,6a/1] fast\n";

const DELETED: &[u8] = b"proc pmix.host 0 level 2\n  array:proc[] fast\n";

const AGAIN: &[u8] = b"proc pmix.host 0 level 3\n  array:proc[6a/0,6a/1] fast\n";

// The first two processes of j make the set.
fn define(rt: &impl Abort, alloc: Global, sets: &mut Sets, name: &Key) -> u64 {
    let mut members = Vec::new(alloc);
    for rank in [1, 0] {
        let member = proc(alloc, rank).expect(rt, MEMORY);
        members.push(member).expect(rt, MEMORY);
    }
    let name = name.copy().expect(rt, MEMORY);
    sets.define(name, members).expect(rt, MEMORY)
}

// Whether a store that takes what changed since that change is dumped so.
fn learns(
    rt: &impl Abort,
    alloc: Global,
    store: &mut Store,
    sets: &Sets,
    from: u64,
    dump: &[u8],
) -> bool {
    let piece = sets.piece_from(from).expect(rt, MEMORY);
    store.absorb(&piece).expect(rt, MEMORY);
    let mut writer = WatchedWriter::new(Vec::new(alloc));
    store.dump(&mut writer).expect(rt, MEMORY);
    writer.into_inner().as_slice() == dump
}

#[test]
fn a_second_store_learns_of_each_change(rt: HostRuntime) {
    let alloc = rt.alloc();
    let fast = Key::read(alloc, b"fast").expect(&rt, MEMORY);
    let mut sets = Sets::new(alloc);
    let mut store = Store::new(alloc);
    assert!(rt; define(&rt, alloc, &mut sets, &fast) == 1);
    assert!(rt; learns(&rt, alloc, &mut store, &sets, 0, DEFINED));
    assert!(rt; sets.delete(&fast).expect(&rt, MEMORY) == 2);
    assert!(rt; learns(&rt, alloc, &mut store, &sets, 1, DELETED));
    assert!(rt; define(&rt, alloc, &mut sets, &fast) == 3);
    assert!(rt; learns(&rt, alloc, &mut store, &sets, 2, AGAIN));
}

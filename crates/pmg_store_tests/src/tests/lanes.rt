//! What no clause says: that calls succeed where there is memory, and what lanes and stores of some pieces hold, found
//! by hand or by a slow program.
use crate::tests::making::{
    MEMORY, ORDERS, draw_piece, draws, piece, pieces_at, proc, small, three,
};
use crate::tests::plain::Plain;
use pmg_commit::Piece;
use pmg_join::Join;
use pmg_lane::Lane;
use pmg_store::Store;
use pmg_value::{Key, Proc};
use std::alloc::Global;
use std::process::Abort;

// A lane that took the pieces at these places, in this order.
fn lane_of(rt: &impl Abort, alloc: Global, pieces: &[Piece], order: &[usize]) -> Lane {
    let mut lane = Lane::new(alloc);
    for piece in pieces_at(rt, alloc, pieces, order) {
        lane.absorb(piece).expect(rt, MEMORY);
    }
    lane
}

// The level, and what is read under the keys a and b.
fn look_at(rt: &impl Abort, alloc: Global, lane: &Lane) -> (u64, Option<u8>, Option<u8>) {
    let a = small(lane.read(&Key::read(alloc, b"a").expect(rt, MEMORY)));
    let b = small(lane.read(&Key::read(alloc, b"b").expect(rt, MEMORY)));
    (lane.level(), a, b)
}

#[test]
fn each_order_ends_alike(rt: HostRuntime) {
    let alloc = rt.alloc();
    for order in ORDERS {
        let lane = lane_of(&rt, alloc, &three(&rt, alloc), &order);
        assert!(rt; look_at(&rt, alloc, &lane) == (3, Some(2), Some(3)));
    }
}

// The lanes of the first and second piece, and of the third.
fn two_lanes(rt: &impl Abort, alloc: Global) -> (Lane, Lane) {
    let pieces = three(rt, alloc);
    let early = lane_of(rt, alloc, &pieces, &[1, 0]);
    (early, lane_of(rt, alloc, &pieces, &[2]))
}

// A copy of what two lanes join to, where one is joined twice.
fn join_twice(rt: &impl Abort, alloc: Global) -> Lane {
    let (early, mut late) = two_lanes(rt, alloc);
    Join::join(&mut late, Join::copy(&early).expect(rt, MEMORY)).expect(rt, MEMORY);
    late.join(early).expect(rt, MEMORY);
    late.copy().expect(rt, MEMORY)
}

#[test]
fn lanes_join_to_what_both_took(rt: HostRuntime) {
    let lane = join_twice(&rt, rt.alloc());
    assert!(rt; look_at(&rt, rt.alloc(), &lane) == (3, Some(2), Some(3)));
}

// A piece with one entry: its first commit less one, its last, the commit of the entry, and the value under a.
type Part = (u64, u64, u64, u8);

const FIRST: Part = (0, 1, 1, 1);

const SECOND: Part = (1, 2, 2, 2);

const THIRD: Part = (2, 3, 3, 9);

const BOTH: Part = (0, 2, 1, 1);

const ALL: Part = (0, 3, 3, 9);

const GREATER_FIRST: Part = (0, 1, 1, 2);

const GREATER_SECOND: Part = (1, 2, 2, 7);

// Pieces; then the level, after which commit those up to 2 are missing, and what is read.
type Row<'a> = (&'a [Part], u64, Option<u64>, Option<u8>);

// The piece of these numbers.
fn piece_of(rt: &impl Abort, alloc: Global, part: &Part) -> Piece {
    let (from, to, number, value) = *part;
    piece(alloc, 0, from, to, number, &[(b"a", value)]).expect(rt, MEMORY)
}

// A lane that took the pieces.
fn lane_of_parts(rt: &impl Abort, alloc: Global, parts: &[Part]) -> Lane {
    let mut lane = Lane::new(alloc);
    for part in parts {
        lane.absorb(&piece_of(rt, alloc, part)).expect(rt, MEMORY);
    }
    lane
}

// A store that took the pieces.
fn store_of_parts(rt: &impl Abort, alloc: Global, parts: &[Part]) -> Store {
    let mut store = Store::new(alloc);
    for part in parts {
        store.absorb(&piece_of(rt, alloc, part)).expect(rt, MEMORY);
    }
    store
}

// The level of the process, and what is read under the key a.
fn seen_in_store(rt: &impl Abort, alloc: Global, store: &Store) -> (u64, Option<u8>) {
    let who = proc(alloc, 0).expect(rt, MEMORY);
    let value = small(store.read(&who, &Key::read(alloc, b"a").expect(rt, MEMORY)));
    (store.level(&who), value)
}

// Requires that a lane and a store that took the pieces hold what the row says.
fn assert_row(rt: &impl Abort, alloc: Global, row: Row<'_>) {
    let (parts, level, missing, value) = row;
    let lane = lane_of_parts(rt, alloc, parts);
    assert!(rt; look_at(rt, alloc, &lane) == (level, value, None));
    assert!(rt; lane.missing_after(2) == missing);
    let store = store_of_parts(rt, alloc, parts);
    assert!(rt; seen_in_store(rt, alloc, &store) == (level, value));
}

#[test]
fn what_the_level_reaches_is_read(rt: HostRuntime) {
    let rows: [Row<'_>; 12] = [
        (&[], 0, Some(0), None),
        (&[THIRD], 0, Some(0), None),
        (&[THIRD, FIRST], 1, Some(1), Some(1)),
        (&[THIRD, FIRST, SECOND], 3, None, Some(9)),
        (&[BOTH, ALL, BOTH], 3, None, Some(9)),
        (&[ALL, BOTH, ALL], 3, None, Some(9)),
        (&[BOTH, THIRD, BOTH], 3, None, Some(9)),
        (&[THIRD, BOTH, THIRD], 3, None, Some(9)),
        (&[FIRST, GREATER_FIRST], 1, Some(1), Some(2)),
        (&[GREATER_FIRST, FIRST], 1, Some(1), Some(2)),
        (&[SECOND, GREATER_SECOND, FIRST], 2, None, Some(7)),
        (&[FIRST, GREATER_SECOND, SECOND], 2, None, Some(7)),
    ];
    for row in rows {
        assert_row(&rt, rt.alloc(), row);
    }
}

// Whether the lane says of that process what the list does.
fn is_same_of(lane: &Lane, plain: &Plain, proc: &Proc) -> bool {
    for key in &plain.keys {
        if small(lane.read(key)) != plain.read(proc, key) {
            return false;
        }
    }
    lane.level() == plain.level(proc)
}

// Whether the lane says of process 0 what the list does.
fn is_same(lane: &Lane, plain: &Plain) -> bool {
    match plain.procs.first() {
        Some(proc) => is_same_of(lane, plain, proc),
        None => false,
    }
}

// Takes the piece that the number says.
fn take(rt: &impl Abort, alloc: Global, lane: &mut Lane, plain: &mut Plain, number: u64) {
    let next = draw_piece(alloc, 0, number).expect(rt, MEMORY);
    lane.absorb(&next).expect(rt, MEMORY);
    plain.absorb(rt, next);
}

#[test]
fn lanes_hold_what_a_list_of_pieces_does(rt: HostRuntime) {
    let mut plain = Plain::new(&rt, rt.alloc());
    let mut lane = Lane::new(rt.alloc());
    for number in draws(rt.alloc(), 60).expect(&rt, MEMORY) {
        take(&rt, rt.alloc(), &mut lane, &mut plain, number);
        assert!(rt; is_same(&lane, &plain));
    }
}

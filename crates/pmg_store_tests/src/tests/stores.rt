//! What no clause says of stores and boards: that calls succeed where there is memory, the text of their dumps, and
//! that they hold what a plain list of pieces does; and that they are as they were where memory ran out.
use crate::tests::making::{MEMORY, ORDERS, draw_piece, draws, piece, pieces_at, small, three};
use crate::tests::plain::Plain;
use crate::tests::spelled::{PIECE_DUMPED, edit_frame, first_commit};
use pmg_commit::Piece;
use pmg_join::{Join, join_all};
use pmg_store::{Board, Store, store_of_stream};
use pmg_value::{Proc, WatchedWriter, push_number};
use std::alloc::Global;
use std::process::Abort;

const ONE_DUMPED: &[u8] = b"proc j 0 level 1\n  u8:1 a\n";

const THREE_DUMPED: &[u8] = b"proc j 0 level 3\n  u8:2 a\n  u8:3 b\n";

// Whether the store is dumped so.
fn is_dumped(rt: &impl Abort, alloc: Global, store: &Store, text: &[u8]) -> bool {
    let mut writer = WatchedWriter::new(Vec::with_capacity(alloc, 64).expect(rt, MEMORY));
    store.dump(&mut writer).expect(rt, MEMORY);
    writer.into_inner().as_slice() == text
}

// A store that took the pieces at these places, in this order.
fn store_of(rt: &impl Abort, alloc: Global, pieces: &[Piece], order: &[usize]) -> Store {
    let mut store = Store::new(alloc);
    for piece in pieces_at(rt, alloc, pieces, order) {
        store.absorb(piece).expect(rt, MEMORY);
    }
    store
}

#[test]
fn three_pieces_end_alike_in_each_order(rt: HostRuntime) {
    let alloc = rt.alloc();
    for order in ORDERS {
        let store = store_of(&rt, alloc, &three(&rt, alloc), &order);
        assert!(rt; is_dumped(&rt, alloc, &store, THREE_DUMPED));
    }
}

// The stores of the first and third piece, and of the second.
fn two_stores(rt: &impl Abort, alloc: Global) -> (Store, Store) {
    let pieces = three(rt, alloc);
    let outer = store_of(rt, alloc, &pieces, &[0, 2]);
    (outer, store_of(rt, alloc, &pieces, &[1]))
}

// What the stores join to, where the first is joined twice.
fn join_twice(rt: &impl Abort, alloc: Global, first: Store, second: Store) -> Store {
    let mut both = second;
    let copy = Join::copy(&first).expect(rt, MEMORY);
    both.join(copy).expect(rt, MEMORY);
    let mut others = Vec::with_capacity(alloc, 1).expect(rt, MEMORY);
    others.push(both).expect(rt, MEMORY);
    join_all(first, others).expect(rt, MEMORY)
}

#[test]
fn three_pieces_end_alike_by_joins(rt: HostRuntime) {
    let alloc = rt.alloc();
    let (outer, second) = two_stores(&rt, alloc);
    assert!(rt; is_dumped(&rt, alloc, &outer, ONE_DUMPED));
    assert!(rt;
        is_dumped(
            &rt,
            alloc,
            &join_twice(&rt, alloc, outer, second),
            THREE_DUMPED
        )
    );
}

// Takes the piece. Where memory runs out, the store is dumped as it was before, and the piece is taken then.
fn absorb(rt: &impl Abort, alloc: Global, store: &mut Store, before: &[u8], piece: &Piece) {
    if store.absorb(piece).is_err() {
        assert!(rt; is_dumped(rt, alloc, store, before));
        store.absorb(piece).expect(rt, MEMORY);
    }
}

// A store that took both pieces, and was dumped so in between.
fn store_of_both(
    rt: &impl Abort,
    alloc: Global,
    first: &Piece,
    between: &[u8],
    second: &Piece,
) -> Store {
    let mut store = Store::new(alloc);
    absorb(rt, alloc, &mut store, b"", first);
    absorb(rt, alloc, &mut store, between, second);
    store
}

#[test]
fn half_a_piece_never_stays(rt: HostRuntime) {
    let alloc = rt.alloc();
    let two = piece(alloc, 0, 0, 2, 1, &[(b"a", 1)]).expect(&rt, MEMORY);
    let more = piece(alloc, 0, 0, 1, 1, &[(b"a", 1), (b"b", 2), (b"c", 3)]).expect(&rt, MEMORY);
    let store = store_of_both(&rt, alloc, &two, b"proc j 0 level 2\n  u8:1 a\n", &more);
    let text = b"proc j 0 level 2\n  u8:1 a\n  u8:2 b\n  u8:3 c\n";
    assert!(rt; is_dumped(&rt, alloc, &store, text));
}

// Joins the other store, which is dumped so. Where memory runs out, both are as they were, and they are joined then.
fn join(rt: &impl Abort, alloc: Global, store: &mut Store, other: Store, text: &[u8]) {
    if let Err(refused) = store.join(other) {
        assert!(rt; is_dumped(rt, alloc, store, b""));
        assert!(rt; is_dumped(rt, alloc, &refused.value, text));
        store.join(refused.value).expect(rt, MEMORY);
    }
}

#[test]
fn refused_memory_leaves_a_store_as_it_was(rt: HostRuntime) {
    let alloc = rt.alloc();
    let other = store_of_stream(alloc, &edit_frame(&rt, alloc, "piece")).expect(&rt, MEMORY);
    let mut store = Store::new(alloc);
    join(&rt, alloc, &mut store, other, PIECE_DUMPED);
    assert!(rt; is_dumped(&rt, alloc, &store, PIECE_DUMPED));
}

// Whether the near and the far store of the board are dumped so.
fn is_shown(rt: &impl Abort, alloc: Global, board: &Board, near: &[u8], far: &[u8]) -> bool {
    is_dumped(rt, alloc, board.near(), near) && is_dumped(rt, alloc, board.far(), far)
}

// A copy of a board with the first piece near and the third far.
fn board_of(rt: &impl Abort, alloc: Global, pieces: &[Piece; 3]) -> Board {
    let mut board = Board::new(alloc);
    board.absorb_near(&pieces[0]).expect(rt, MEMORY);
    board.absorb_far(&pieces[2]).expect(rt, MEMORY);
    board.copy().expect(rt, MEMORY)
}

// Takes all pieces near and far. Where memory runs out, the board is as it was, and they are taken then.
fn absorb_all(rt: &impl Abort, alloc: Global, board: &mut Board, pieces: &[Piece]) {
    if board.absorb_all(pieces, pieces).is_err() {
        assert!(rt; is_shown(rt, alloc, board, ONE_DUMPED, b""));
        board.absorb_all(pieces, pieces).expect(rt, MEMORY);
    }
}

#[test]
fn a_board_takes_all_or_nothing(rt: HostRuntime) {
    let alloc = rt.alloc();
    let pieces = three(&rt, alloc);
    let mut board = board_of(&rt, alloc, &pieces);
    assert!(rt; is_shown(&rt, alloc, &board, ONE_DUMPED, b""));
    absorb_all(&rt, alloc, &mut board, &pieces);
    assert!(rt; is_shown(&rt, alloc, &board, THREE_DUMPED, THREE_DUMPED));
}

// The ranks of the store's processes, with a point after each that has ended.
fn ranks_and_ends(rt: &impl Abort, alloc: Global, store: &Store) -> Vec<u8> {
    let mut text = Vec::new(alloc);
    for proc in &store.processes().expect(rt, MEMORY) {
        push_number(&mut text, u64::from(proc.rank.number())).expect(rt, MEMORY);
        if store.has_ended(proc) {
            text.push(b'.').expect(rt, MEMORY);
        }
    }
    text
}

#[test]
fn processes_are_told_in_order_with_their_ends(rt: HostRuntime) {
    let alloc = rt.alloc();
    let ended = first_commit(&rt, alloc, &[b"pmix.term"]);
    let pieces = [piece(alloc, 2, 1, 2, 2, &[]).expect(&rt, MEMORY), ended];
    let text = ranks_and_ends(&rt, alloc, &store_of(&rt, alloc, &pieces, &[0, 1]));
    assert!(rt; text.as_slice() == b"0.2".as_slice());
}

// Whether both say the same of the process.
fn is_same_of(store: &Store, plain: &Plain, proc: &Proc) -> bool {
    for n in 0..21 {
        if store.taken(proc, n) != plain.taken(proc, n) {
            return false;
        }
    }
    for key in &plain.keys {
        if small(store.read(proc, key)) != plain.read(proc, key) {
            return false;
        }
    }
    store.level(proc) == plain.level(proc)
}

// Whether both say the same of each process.
fn is_same(store: &Store, plain: &Plain) -> bool {
    for proc in &plain.procs {
        if !is_same_of(store, plain, proc) {
            return false;
        }
    }
    true
}

// Takes the piece that the number says into two stores and the list.
fn take(
    rt: &impl Abort,
    alloc: Global,
    half: &mut Store,
    both: &mut Store,
    plain: &mut Plain,
    number: u64,
) {
    let next = draw_piece(alloc, (number >> 62) as u32, number).expect(rt, MEMORY);
    half.absorb(&next).expect(rt, MEMORY);
    both.absorb(&next).expect(rt, MEMORY);
    plain.absorb(rt, next);
}

// Each piece goes to one of two stores, which are joined at last, and to a third.
#[test]
fn stores_hold_what_a_list_of_pieces_does(rt: HostRuntime) {
    let alloc = rt.alloc();
    let mut plain = Plain::new(&rt, alloc);
    let mut even = Store::new(alloc);
    let mut odd = Store::new(alloc);
    let mut both = Store::new(alloc);
    let numbers = draws(alloc, 90).expect(&rt, MEMORY);
    for (done, number) in numbers.iter().enumerate() {
        let half = if done % 2 == 0 { &mut even } else { &mut odd };
        take(&rt, alloc, half, &mut both, &mut plain, *number);
        assert!(rt; is_same(&both, &plain));
    }
    even.join(odd).expect(&rt, MEMORY);
    assert!(rt; is_same(&even, &plain));
}

//! What no clause says: that contributions are made and copied where there is memory, and which a
//! frame can hold, found by hand.
use crate::tests::steps::{digit_of, piece_text};
use crate::tests::words::{MEMORY, assert_told, cause_of, process_of};
use pmg_commit::{Piece, PieceEntry, Sealer, best_of};
use pmg_value::{Key, Refusal, Value};
use std::alloc::Global;
use std::process::Abort;

// The entry of that key, commit and digit.
fn entry(rt: &impl Abort, alloc: Global, key: &[u8], number: u64, digit: u8) -> PieceEntry {
    PieceEntry {
        key: Key::read_any(alloc, key).expect(rt, MEMORY),
        number,
        value: Value::U8(digit),
    }
}

// Why there is no contribution of the process with two entries, of each of which its key's one byte
// and its number are told.
fn pair_cause(
    rt: &impl Abort,
    alloc: Global,
    who: &str,
    range: (u64, u64),
    first: (u8, u64),
    second: (u8, u64),
) -> Option<Refusal> {
    let mut entries = Vec::with_capacity(alloc, 2).expect(rt, MEMORY);
    let one = entry(rt, alloc, &[first.0], first.1, b'7');
    entries.push(one).expect(rt, MEMORY);
    let other = entry(rt, alloc, &[second.0], second.1, b'7');
    entries.push(other).expect(rt, MEMORY);
    cause_of(
        rt,
        Piece::new(process_of(rt, alloc, who), range.0, range.1, entries),
    )
}

// Why there is no sealer of the process.
fn sealer_cause(rt: &impl Abort, alloc: Global, who: &str) -> Option<Refusal> {
    cause_of(rt, Sealer::new(alloc, &process_of(rt, alloc, who)))
}

#[test]
fn clients_and_the_host_commit(rt: HostRuntime) {
    let alloc = rt.alloc();
    let bad = Some(Refusal::BadParam);
    let cases = [
        ("j/0", None),
        ("j/4095", None),
        ("j/4096", bad),
        ("j/*", bad),
        ("pmix.host/0", None),
        ("pmix.host/1", bad),
        ("pmix.j/0", bad),
    ];
    for (who, want) in cases {
        assert!(rt; pair_cause(&rt, alloc, who, (0, 1), (b'a', 1), (b'b', 1)) == want);
        assert!(rt; sealer_cause(&rt, alloc, who) == want);
    }
}

#[test]
fn a_piece_keeps_its_range_and_order(rt: HostRuntime) {
    let alloc = rt.alloc();
    let last = 4_294_967_295;
    let bad = Some(Refusal::BadParam);
    let cases = [
        ((0, 1), (b'a', 1), (b'b', 1), None),
        ((1, 1), (b'a', 1), (b'b', 1), bad),
        ((3, 1), (b'a', 2), (b'b', 2), bad),
        ((last - 1, last), (b'a', last), (b'b', last), None),
        ((last, last + 1), (b'a', last + 1), (b'b', last + 1), bad),
        ((0, 1), (b'a', 1), (b'a', 1), bad),
        ((0, 1), (b'b', 1), (b'a', 1), bad),
        ((1, 3), (b'a', 2), (b'b', 3), None),
        ((1, 3), (b'a', 1), (b'b', 3), bad),
        ((1, 3), (b'a', 2), (b'b', 4), bad),
    ];
    for (range, first, second, want) in cases {
        assert!(rt; pair_cause(&rt, alloc, "j/0", range, first, second) == want);
    }
}

// Two entries, of which the second is a copy.
fn two_entries(rt: &impl Abort, alloc: Global) -> Vec<PieceEntry> {
    let mut entries = Vec::with_capacity(alloc, 2).expect(rt, MEMORY);
    let first = entry(rt, alloc, b"a", 3, b'1');
    entries.push(first).expect(rt, MEMORY);
    let second = entry(rt, alloc, b"pmix.b", 2, b'2');
    let copy = second.copy().expect(rt, MEMORY);
    entries.push(copy).expect(rt, MEMORY);
    entries
}

// A copy of a contribution with these entries.
fn copy_of_piece(rt: &impl Abort, alloc: Global) -> Piece {
    let entries = two_entries(rt, alloc);
    let proc = process_of(rt, alloc, "j/4095");
    let piece = Piece::new(proc, 1, 3, entries).expect(rt, MEMORY);
    piece.copy().expect(rt, MEMORY)
}

// Whether the contribution is the process's.
fn is_of(rt: &impl Abort, alloc: Global, piece: &Piece, who: &str) -> bool {
    piece.proc() == &process_of(rt, alloc, who)
}

#[test]
fn a_piece_is_copied(rt: HostRuntime) {
    let alloc = rt.alloc();
    let piece = copy_of_piece(&rt, alloc);
    assert!(rt; is_of(&rt, alloc, &piece, "j/4095"));
    assert!(rt; (piece.from(), piece.to()) == (1, 3));
    assert!(rt; piece.entry(1).map(PieceEntry::size) == Some(18));
    let text = piece_text(&rt, alloc, piece.entries());
    assert_told(&rt, Ok(text), "a31pmix.b22");
}

// Entries of the key a, and one of b.
fn mixed_entries(rt: &impl Abort, alloc: Global) -> Vec<PieceEntry> {
    let mut entries = Vec::with_capacity(alloc, 6).expect(rt, MEMORY);
    for (number, digit) in [(2, b'7'), (3, b'5'), (3, b'6'), (3, b'4'), (4, b'9')] {
        let more = entry(rt, alloc, b"a", number, digit);
        entries.push(more).expect(rt, MEMORY);
    }
    let last = entry(rt, alloc, b"b", 3, b'8');
    entries.push(last).expect(rt, MEMORY);
    entries
}

// The digit of the best entry of the key a up to the level.
fn best(rt: &impl Abort, alloc: Global, entries: &[PieceEntry], level: u64) -> Option<u8> {
    let key = Key::read(alloc, b"a").expect(rt, MEMORY);
    let best = best_of(entries, level, &key, None);
    best.map(|entry| digit_of(&entry.value))
}

#[test]
fn best_is_the_latest_that_can_be_read(rt: HostRuntime) {
    let entries = mixed_entries(&rt, rt.alloc());
    assert!(rt; best(&rt, rt.alloc(), &entries, 1) == None);
    for (level, digit) in [(2, b'7'), (3, b'6'), (4, b'9'), (9, b'9')] {
        assert!(rt; best(&rt, rt.alloc(), &entries, level) == Some(digit));
    }
}

//! What some joins give, worked by hand: that calls succeed where there is memory, and each join
//! at a type.
use crate::tests::making::MEMORY;
use pmg_join::{Element, GrowSet, Join, MapJoin, MaxU64, PairJoin, RangeSet, join_all};
use pmg_value::{Key, Nspace, Proc, Rank, push_number};
use std::alloc::{AllocError, Global};
use std::process::Abort;

// A copy of the first, with the second joined to it.
fn join_both<J: Join>(rt: &impl Abort, first: &J, second: J) -> J {
    let mut all = first.copy().expect(rt, MEMORY);
    all.join(second).expect(rt, MEMORY);
    all
}

// Writes the numbers below 10 in the set, and the level.
fn show(text: &mut Vec<u8>, set: &RangeSet) -> Result<(), AllocError> {
    for number in 0..10 {
        if set.contains(number) {
            push_number(text, number)?;
        }
    }
    text.push(b' ')?;
    push_number(text, set.level())?;
    text.push(b';')?;
    Ok(())
}

// The numbers above the one, up to the other.
fn range(rt: &impl Abort, alloc: Global, from: u64, to: u64) -> RangeSet {
    let mut set = RangeSet::new(alloc);
    set.insert(from, to).expect(rt, MEMORY);
    set
}

// What a set is after each of these ranges was put to it.
fn shown(rt: &impl Abort, alloc: Global, spans: &[(u64, u64)]) -> Vec<u8> {
    let mut text = Vec::new(alloc);
    let mut set = RangeSet::new(alloc);
    for (from, to) in spans {
        set.insert(*from, *to).expect(rt, MEMORY);
        show(&mut text, &set).expect(rt, MEMORY);
    }
    text
}

const SPANS: &[(u64, u64)] = &[
    (0, 0),
    (4, 6),
    (3, 3),
    (9, 5),
    (0, 2),
    (2, 3),
    (0, 2),
    (8, 9),
    (2, 5),
];

#[test]
fn ranges_are_merged(rt: HostRuntime) {
    let want = b" 0;56 0;56 0;56 0;1256 2;12356 3;12356 3;123569 3;1234569 6;";
    let text = shown(&rt, rt.alloc(), SPANS);
    assert!(rt; text.as_slice() == want.as_slice());
}

// The number, and the range.
fn pair(number: u64, second: RangeSet) -> PairJoin<MaxU64, RangeSet> {
    let first = MaxU64::new(number);
    PairJoin { first, second }
}

#[test]
fn pairs_join_side_by_side(rt: HostRuntime) {
    let first = pair(3, range(&rt, rt.alloc(), 0, 2));
    let second = pair(7, range(&rt, rt.alloc(), 1, 4));
    let both = join_both(&rt, &first, second);
    assert!(rt; both.first.value() == 7);
    assert!(rt; both.second.level() == 4);
}

// The set of this alone.
fn set_of<T: Element>(rt: &impl Abort, alloc: Global, element: T) -> GrowSet<T> {
    let mut set = GrowSet::new(alloc);
    set.insert(element).expect(rt, MEMORY);
    set
}

// The set of both numbers.
fn numbers(rt: &impl Abort, alloc: Global, first: u64, second: u64) -> GrowSet<u64> {
    let mut set = set_of(rt, alloc, first);
    set.insert(second).expect(rt, MEMORY);
    set
}

#[test]
fn sets_join_to_their_union(rt: HostRuntime) {
    let first = numbers(&rt, rt.alloc(), 1, 2);
    let second = numbers(&rt, rt.alloc(), 2, 3);
    let all = join_both(&rt, &first, second);
    for (number, is_in) in [(0, false), (1, true), (2, true), (3, true), (4, false)] {
        assert!(rt; all.contains(&number) == is_in);
    }
}

fn key(rt: &impl Abort, alloc: Global, name: &[u8]) -> Key {
    Key::read(alloc, name).expect(rt, MEMORY)
}

// Whether the set of the first key has the second.
fn has_key(rt: &impl Abort, alloc: Global, first: &[u8], second: &[u8]) -> bool {
    let set = set_of(rt, alloc, key(rt, alloc, first));
    set.contains(&key(rt, alloc, second))
}

fn process(rt: &impl Abort, alloc: Global, rank: u32) -> Proc {
    let nspace = Nspace::read(alloc, b"j").expect(rt, MEMORY);
    Proc::new(nspace, Rank::new(rank))
}

// Whether the set of the process of the first rank has that of the second.
fn has_rank(rt: &impl Abort, alloc: Global, first: u32, second: u32) -> bool {
    let set = set_of(rt, alloc, process(rt, alloc, first));
    set.contains(&process(rt, alloc, second))
}

#[test]
fn sets_have_keys_and_processes(rt: HostRuntime) {
    let alloc = rt.alloc();
    assert!(rt; has_key(&rt, alloc, b"a", b"a"));
    assert!(rt; !has_key(&rt, alloc, b"a", b"b"));
    assert!(rt; has_rank(&rt, alloc, 1, 1));
    assert!(rt; !has_rank(&rt, alloc, 1, 2));
}

// The map to which these numbers were put, each under its key.
fn map_of(rt: &impl Abort, alloc: Global, rows: &[(u64, u64)]) -> MapJoin<u64, MaxU64> {
    let mut map = MapJoin::new(alloc);
    for (key, number) in rows {
        map.put(*key, MaxU64::new(*number)).expect(rt, MEMORY);
    }
    map
}

// What is under the keys 1 to 4, and a dash where nothing is.
fn map_text(rt: &impl Abort, alloc: Global, map: &MapJoin<u64, MaxU64>) -> Vec<u8> {
    let mut text = Vec::new(alloc);
    for key in 1..5 {
        match map.get(&key) {
            Some(number) => push_number(&mut text, number.value()).expect(rt, MEMORY),
            None => text.push(b'-').expect(rt, MEMORY),
        }
        text.push(b';').expect(rt, MEMORY);
    }
    text
}

#[test]
fn maps_join_key_by_key(rt: HostRuntime) {
    let first = map_of(&rt, rt.alloc(), &[(4, 2), (1, 8), (2, 5), (1, 3)]);
    let second = map_of(&rt, rt.alloc(), &[(1, 9), (2, 4)]);
    let all = join_both(&rt, &first, second);
    assert!(rt; map_text(&rt, rt.alloc(), &first).as_slice() == b"8;5;-;2;".as_slice());
    assert!(rt; map_text(&rt, rt.alloc(), &all).as_slice() == b"9;5;-;2;".as_slice());
}

// A set of each of these ranges.
fn ranges_of(rt: &impl Abort, alloc: Global, spans: &[(u64, u64)]) -> Vec<RangeSet> {
    let mut ranges = Vec::new(alloc);
    for (from, to) in spans {
        ranges.push(range(rt, alloc, *from, *to)).expect(rt, MEMORY);
    }
    ranges
}

#[test]
fn many_are_joined(rt: HostRuntime) {
    let others = ranges_of(&rt, rt.alloc(), &[(0, 2), (2, 3)]);
    let all = join_all(range(&rt, rt.alloc(), 2, 3), others).expect(&rt, MEMORY);
    let mut text = Vec::new(rt.alloc());
    show(&mut text, &all).expect(&rt, MEMORY);
    assert!(rt; text.as_slice() == b"123 3;".as_slice());
}

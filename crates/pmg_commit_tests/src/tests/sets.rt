//! What no script shows of process sets, found by hand: what the program does not ask of them or asks where an allocation failed,
//! and that there are sets as large as the limits.
use crate::tests::words::{MEMORY, assert_told, cause_of, list_of};
use pmg_pset::{Sets, members_in};
use pmg_value::{Key, Nspace, Proc, Rank, Refusal, Value, push_number};
use std::alloc::Global;
use std::process::Abort;

// Appends the set's name and its members.
fn push_set(rt: &impl Abort, alloc: Global, text: &mut Vec<u8>, sets: &Sets, name: &Key) {
    let members = sets.members(name).expect(rt, MEMORY);
    let members = Value::Array(members.copy().expect(rt, MEMORY));
    let members = members.to_text(alloc).expect(rt, MEMORY);
    text.push(b' ').expect(rt, MEMORY);
    text.extend_from_slice(name.as_bytes()).expect(rt, MEMORY);
    text.push(b'=').expect(rt, MEMORY);
    text.extend_from_slice(&members).expect(rt, MEMORY);
}

// The number of the changes, and of each set its name and its members.
fn text_of(rt: &impl Abort, alloc: Global, sets: &Sets) -> Vec<u8> {
    let mut text = Vec::new(alloc);
    push_number(&mut text, sets.level()).expect(rt, MEMORY);
    for name in &sets.names().expect(rt, MEMORY) {
        push_set(rt, alloc, &mut text, sets, name);
    }
    text
}

// The key of that letter.
fn key_of(rt: &impl Abort, alloc: Global, letter: u8) -> Key {
    Key::read(alloc, &[letter]).expect(rt, MEMORY)
}

// A definition and a deletion that are taken back at once; gives the numbers of the changes in between.
fn try_changes(rt: &impl Abort, alloc: Global, sets: &mut Sets) -> (u64, u64) {
    let slow = Key::read(alloc, b"slow").expect(rt, MEMORY);
    let before = sets
        .put_set(&slow, list_of(rt, alloc, "j/3"))
        .expect(rt, MEMORY);
    let defined = sets.level();
    sets.rollback(before);
    let before = sets.remove_set(&key_of(rt, alloc, b'a')).expect(rt, MEMORY);
    let deleted = sets.level();
    sets.rollback(before);
    (defined, deleted)
}

// Defines the set of these processes.
fn define(rt: &impl Abort, alloc: Global, sets: &mut Sets, letter: u8, words: &str) {
    let members = list_of(rt, alloc, words);
    sets.define(key_of(rt, alloc, letter), members)
        .expect(rt, MEMORY);
}

// Deletes the set: the number of the change.
fn delete(rt: &impl Abort, alloc: Global, sets: &mut Sets, letter: u8) -> u64 {
    sets.delete(&key_of(rt, alloc, letter)).expect(rt, MEMORY)
}

// Makes some changes of no sets, and requires what there is then.
fn assert_changed(rt: &impl Abort, alloc: Global, sets: &mut Sets) {
    define(rt, alloc, sets, b'b', "j/0,j/1");
    define(rt, alloc, sets, b'a', "j/2,j/1,j/2");
    assert!(rt; delete(rt, alloc, sets, b'b') == 3);
    assert!(rt; try_changes(rt, alloc, sets) == (4, 4));
    let want = "3 a=array:proc[6a/1,6a/2]";
    assert_told(rt, Ok(text_of(rt, alloc, sets)), want);
    let copy = sets.copy().expect(rt, MEMORY);
    assert_told(rt, Ok(text_of(rt, alloc, &copy)), want);
    assert!(rt; cause_of(rt, sets.piece_from(3)) == Some(Refusal::BadParam));
}

#[test]
fn sets_are_told_copied_and_taken_back(rt: HostRuntime) {
    assert_changed(&rt, rt.alloc(), &mut Sets::new(rt.alloc()));
}

#[test]
fn only_an_array_of_processes_tells_of_members(rt: HostRuntime) {
    let mut items = Vec::new(rt.alloc());
    items.push(Value::U8(16)).expect(&rt, MEMORY);
    let array = Value::array(9, items).expect(&rt, MEMORY);
    assert!(rt; members_in(&array).is_none());
    assert!(rt; members_in(&Value::U8(16)).is_none());
}

// So many processes of a namespace with a name of that length, and one of another.
fn many(rt: &impl Abort, alloc: Global, len: usize, count: u32) -> Vec<Proc> {
    let mut list = list_of(rt, alloc, "k/7");
    let name = vec![in alloc; b'n'; len].expect(rt, MEMORY);
    let name = Nspace::read(alloc, &name).expect(rt, MEMORY);
    for rank in 0..count {
        let copy = name.copy().expect(rt, MEMORY);
        list.push(Proc::new(copy, Rank::new(rank)))
            .expect(rt, MEMORY);
    }
    list
}

// Defines the set of these processes: why that is refused.
fn define_many(
    rt: &impl Abort,
    alloc: Global,
    sets: &mut Sets,
    letter: u8,
    len: usize,
    count: u32,
) -> Option<Refusal> {
    let members = many(rt, alloc, len, count);
    cause_of(rt, sets.define(key_of(rt, alloc, letter), members))
}

// Requires that a set is defined of as many processes as it may have, and of no more. The longest name of a namespace has 255
// bytes. A member of it takes 260 bytes, k/7 takes 6, and the array itself 6: with 4,032 of them there are 244 left of 1,048,576,
// and with 4,033 there are too many.
fn assert_limited(rt: &impl Abort, alloc: Global, sets: &mut Sets) {
    let too_many = Some(Refusal::TooMany);
    for (len, count, want) in [(1, 4096, too_many), (255, 4033, too_many), (1, 4095, None)] {
        assert!(rt; define_many(rt, alloc, sets, b'a', len, count) == want);
    }
}

#[test]
fn a_set_is_limited(rt: HostRuntime) {
    assert_limited(&rt, rt.alloc(), &mut Sets::new(rt.alloc()));
}

// Requires that fifteen sets of 4,032 members with the longest name fit, which count for 15 times 1,048,343 bytes; that one more,
// which would pass 16,000,000, does not; and that it does where one was deleted.
fn assert_full(rt: &impl Abort, alloc: Global, sets: &mut Sets) {
    for letter in b'a'..b'p' {
        assert!(rt; define_many(rt, alloc, sets, letter, 255, 4032) == None);
    }
    let more = define_many(rt, alloc, sets, b'p', 255, 4032);
    assert!(rt; more == Some(Refusal::TooMany));
    delete(rt, alloc, sets, b'a');
    assert!(rt; define_many(rt, alloc, sets, b'p', 255, 4032) == None);
}

#[test]
fn all_sets_together_are_limited(rt: HostRuntime) {
    assert_full(&rt, rt.alloc(), &mut Sets::new(rt.alloc()));
}

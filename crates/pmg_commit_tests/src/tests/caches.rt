//! What no clause says: that a cache answers where there is memory, what it holds after some puts,
//! found by hand, and that it is as large as its limits.
use crate::tests::steps::{digit_of, put, put_value};
use crate::tests::words::{MEMORY, assert_told, cause_of, cut};
use pmg_scope::{Batch, Cache, Scope};
use pmg_value::{Key, Refusal, Value, push_number};
use std::alloc::Global;
use std::process::Abort;

// The length of the longest string, which counts for 1,048,576 bytes as a value.
const LONGEST: usize = 1_048_571;

// Strings that are put into a cache that has fifteen: of each its scope's letter and its key, its
// length, and the length again, or why it was refused. Fifteen keys of one byte, each with the longest
// string, count for 15 times 1,048,587 bytes. A string of 271,179 bytes, under a key of one byte,
// counts for the 271,195 that are left of 16,000,000.
const STRINGS: &str = "\
lp 271180 TooMany
lp 271179 271179
iq 0 TooMany
lp 271179 271179
ip 0 0
lq 0 TooMany
rq 0 0
";

// Steps of caches, between which an empty line stands. Of each step what the cache has then: its own
// digits under the keys w, x, y and z, and what is to be sealed near and far; or why the put was
// refused. A step `c` is a commit.
const STEPS: &str = "\
ix1 .1..//
ly2 .12./y2/
rz3 .123/y2/z3
gw4 4123/w4y2/w4z3

ly1 ..1./y1/
ry2 ..2./y1/y2
iy3 ..3./y1/y2
ly4 ..4./y4/y2
gy5 ..5./y5/y5

gw1 1.../w1/w1
lx2 12../w1x2/w1
c 12..//
rw3 32..//w3

gx1 .1../x1/x1
gpmix7 BadParam
ipmix.x7 BadParam
lpmixa7 BadParam
ux7 BadParam
upmix7 BadParam
lpmi7 .1../pmi7x1/x1
lPMIX7 .1../PMIX7pmi7x1/x1
lxpmix7 .1../PMIX7pmi7x1xpmix7/x1
";

// Appends each key and its digit.
fn push_rows(rt: &impl Abort, text: &mut Vec<u8>, rows: &[(Key, Value)]) {
    text.push(b'/').expect(rt, MEMORY);
    for (key, value) in rows {
        text.extend_from_slice(key.as_bytes()).expect(rt, MEMORY);
        text.push(digit_of(value)).expect(rt, MEMORY);
    }
}

// Appends what is to be sealed near and far.
fn push_batch(rt: &impl Abort, text: &mut Vec<u8>, batch: &Batch) {
    push_rows(rt, text, batch.near());
    push_rows(rt, text, batch.far());
}

// The cache's own digit under the key of one letter.
fn own(rt: &impl Abort, alloc: Global, cache: &Cache, letter: u8) -> u8 {
    let key = Key::read_any(alloc, &[letter]).expect(rt, MEMORY);
    cache.own(&key).map_or(b'.', digit_of)
}

// What the cache has, as the steps write it.
fn text_of(rt: &impl Abort, alloc: Global, cache: &Cache) -> Vec<u8> {
    let mut text = Vec::new(alloc);
    for letter in b'w'..=b'z' {
        text.push(own(rt, alloc, cache, letter)).expect(rt, MEMORY);
    }
    push_batch(rt, &mut text, &cache.unsealed().expect(rt, MEMORY));
    text
}

// What a copy of the cache has once the step is taken.
fn text_after(
    rt: &impl Abort,
    alloc: Global,
    cache: &mut Cache,
    step: &str,
) -> Result<Vec<u8>, Refusal> {
    if step == "c" {
        cache.mark_sealed();
    } else {
        put(rt, cache, alloc, step)?;
    }
    let copy = cache.copy().expect(rt, MEMORY);
    Ok(text_of(rt, alloc, &copy))
}

// Requires that a new cache has after each step what the step's line says.
fn assert_steps(rt: &impl Abort, alloc: Global, lines: &str) {
    let mut cache = Cache::new(alloc);
    for line in lines.lines() {
        let (step, want) = cut(rt, line, ' ');
        assert_told(rt, text_after(rt, alloc, &mut cache, step), want);
    }
}

#[test]
fn a_cache_has_what_was_put(rt: HostRuntime) {
    for lines in STEPS.split("\n\n") {
        assert_steps(&rt, rt.alloc(), lines);
    }
}

#[test]
fn a_batch_of_one_put_is_for_all_others(rt: HostRuntime) {
    let alloc = rt.alloc();
    let key = Key::read(alloc, b"a").expect(&rt, MEMORY);
    let batch = Batch::of_put(alloc, key, Value::U8(b'7')).expect(&rt, MEMORY);
    let copy = batch.copy().expect(&rt, MEMORY);
    let mut text = Vec::new(alloc);
    push_batch(&rt, &mut text, &copy);
    assert_told(&rt, Ok(text), "/a7/a7");
}

// A string of that length.
fn string_of(rt: &impl Abort, alloc: Global, len: usize) -> Value {
    let text = vec![in alloc; b'v'; len].expect(rt, MEMORY);
    Value::string(alloc, &text).expect(rt, MEMORY)
}

// The key that comes there, of three bytes.
fn key_at(i: usize) -> [u8; 3] {
    [i / 9025, i / 95, i].map(|n| b' ' + (n % 95) as u8)
}

// Puts the number: why it was refused.
fn put_number(
    rt: &impl Abort,
    cache: &mut Cache,
    alloc: Global,
    key: &[u8],
    number: u8,
) -> Option<Refusal> {
    let key = Key::read(alloc, key).expect(rt, MEMORY);
    cause_of(rt, cache.put(Scope::Internal, key, Value::U8(number)))
}

// A cache with so many keys.
fn cache_of(rt: &impl Abort, alloc: Global, keys: usize) -> Cache {
    let mut cache = Cache::new(alloc);
    for i in 0..keys {
        put_number(rt, &mut cache, alloc, &key_at(i), 7);
    }
    cache
}

#[test]
fn a_cache_has_65535_keys(rt: HostRuntime) {
    let mut cache = cache_of(&rt, rt.alloc(), 65_535);
    let cause = put_number(&rt, &mut cache, rt.alloc(), b"more", 7);
    assert!(rt; cause == Some(Refusal::TooMany));
    assert!(rt; put_number(&rt, &mut cache, rt.alloc(), &key_at(65_534), 8) == None);
}

// Puts a string of that length, and gives that length.
fn put_string(
    rt: &impl Abort,
    cache: &mut Cache,
    alloc: Global,
    place: &[u8],
    len: usize,
) -> Result<Vec<u8>, Refusal> {
    put_value(rt, cache, alloc, place, string_of(rt, alloc, len))?;
    let mut text = Vec::new(alloc);
    push_number(&mut text, len as u64).expect(rt, MEMORY);
    Ok(text)
}

// A cache in which 271,195 bytes are left of those for the processes of its node.
fn full_cache(rt: &impl Abort, alloc: Global) -> Cache {
    let mut cache = Cache::new(alloc);
    for letter in b'a'..b'p' {
        let longest = string_of(rt, alloc, LONGEST);
        put_value(rt, &mut cache, alloc, &[b'l', letter], longest).expect(rt, MEMORY);
    }
    cache
}

// Puts the string of the line, and requires what the line says.
fn assert_put(rt: &impl Abort, alloc: Global, cache: &mut Cache, line: &str) {
    let (place, rest) = cut(rt, line, ' ');
    let (len, want) = cut(rt, rest, ' ');
    let len = len.parse::<usize>().unwrap_or(0);
    let answer = put_string(rt, cache, alloc, place.as_bytes(), len);
    assert_told(rt, answer, want);
}

#[test]
fn a_cache_has_16000000_bytes_for_each_reach(rt: HostRuntime) {
    let mut cache = full_cache(&rt, rt.alloc());
    for line in STRINGS.lines() {
        assert_put(&rt, rt.alloc(), &mut cache, line);
    }
}

//! The steps of a process, and what they leave, as texts.
use crate::tests::words::MEMORY;
use pmg_commit::PieceEntry;
use pmg_scope::{Cache, Scope};
use pmg_value::{Key, Refusal, Value, push_number};
use std::alloc::Global;
use std::process::Abort;

// The scope of a step's first letter.
fn scope_of(letter: u8) -> Scope {
    match letter {
        b'u' => Scope::Undef,
        b'i' => Scope::Internal,
        b'l' => Scope::Local,
        b'r' => Scope::Remote,
        _ => Scope::Global,
    }
}

// Puts the value at a place, as `gw` is one: the scope's letter and the key.
pub fn put_value(
    rt: &impl Abort,
    cache: &mut Cache,
    alloc: Global,
    place: &[u8],
    value: Value,
) -> Result<(), Refusal> {
    match place.split_first() {
        Some((scope, key)) => {
            let key = Key::read_any(alloc, key).expect(rt, MEMORY);
            cache.put(scope_of(*scope), key, value)
        }
        None => Err(Refusal::NotFound),
    }
}

// Puts a digit at a place, as `gw4` does.
pub fn put(rt: &impl Abort, cache: &mut Cache, alloc: Global, step: &str) -> Result<(), Refusal> {
    match step.as_bytes().split_last() {
        Some((digit, place)) => put_value(rt, cache, alloc, place, Value::U8(*digit)),
        None => Err(Refusal::NotFound),
    }
}

// The digit that the value is; a point for another value.
pub fn digit_of(value: &Value) -> u8 {
    match value {
        Value::U8(digit) => *digit,
        _ => b'.',
    }
}

// Appends the key, the commit's number and the digit.
pub fn push_row(rt: &impl Abort, text: &mut Vec<u8>, key: &Key, number: u64, value: &Value) {
    text.extend_from_slice(key.as_bytes()).expect(rt, MEMORY);
    push_number(text, number).expect(rt, MEMORY);
    text.push(digit_of(value)).expect(rt, MEMORY);
}

// The entries of a contribution.
pub fn piece_text(rt: &impl Abort, alloc: Global, entries: &[PieceEntry]) -> Vec<u8> {
    let mut text = Vec::new(alloc);
    for entry in entries {
        push_row(rt, &mut text, &entry.key, entry.number, &entry.value);
    }
    text
}

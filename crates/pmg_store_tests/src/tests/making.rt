//! Processes, pieces and fences for tests. What tests that ask again also make answers a refusal.
use pmg_commit::{Piece, PieceEntry};
use pmg_frame::{FenceName, Signature};
use pmg_value::{Key, Nspace, Proc, Rank, Refusal, Value};
use std::alloc::Global;
use std::process::Abort;

/// A test gives up where a call of it fails, and says this word and the error.
pub const MEMORY: &str = "memory";

/// The process of that rank of the namespace j.
pub fn proc(alloc: Global, rank: u32) -> Result<Proc, Refusal> {
    Ok(Proc::new(Nspace::read(alloc, b"j")?, Rank::new(rank)))
}

// Adds an entry of that commit with a small number under each key.
fn add(
    alloc: Global,
    entries: &mut Vec<PieceEntry>,
    number: u64,
    values: &[(&[u8; 1], u8)],
) -> Result<(), Refusal> {
    for (name, value) in values {
        let key = Key::read(alloc, *name)?;
        let value = Value::U8(*value);
        entries.push(PieceEntry { key, number, value })?;
    }
    Ok(())
}

/// A piece of the process of that rank, with small numbers under the keys, each of that commit.
pub fn piece(
    alloc: Global,
    rank: u32,
    from: u64,
    to: u64,
    number: u64,
    values: &[(&[u8; 1], u8)],
) -> Result<Piece, Refusal> {
    let mut entries = Vec::new(alloc);
    add(alloc, &mut entries, number, values)?;
    Piece::new(proc(alloc, rank)?, from, to, entries)
}

/// Under a the value 1 of the first commit and 2 of the second, under b the value 3 of the third.
pub fn three(rt: &impl Abort, alloc: Global) -> [Piece; 3] {
    [
        piece(alloc, 0, 0, 1, 1, &[(b"a", 1)]).expect(rt, MEMORY),
        piece(alloc, 0, 1, 2, 2, &[(b"a", 2)]).expect(rt, MEMORY),
        piece(alloc, 0, 2, 3, 3, &[(b"b", 3)]).expect(rt, MEMORY),
    ]
}

/// The orders of three.
pub const ORDERS: [[usize; 3]; 6] = [
    [0, 1, 2],
    [0, 2, 1],
    [1, 0, 2],
    [1, 2, 0],
    [2, 0, 1],
    [2, 1, 0],
];

/// The name of that instance of the fence of these ranks of j.
pub fn fence_name(
    rt: &impl Abort,
    alloc: Global,
    ranks: &[u32],
    collect: bool,
    instance: u64,
) -> FenceName {
    let mut list = Vec::new(alloc);
    for rank in ranks {
        let proc = proc(alloc, *rank).expect(rt, MEMORY);
        list.push(proc).expect(rt, MEMORY);
    }
    let signature = Signature::new(list, collect).expect(rt, MEMORY);
    FenceName::new(signature, instance).expect(rt, MEMORY)
}

/// The value, if it is a small number.
pub fn small(value: Option<&Value>) -> Option<u8> {
    match value {
        Some(Value::U8(number)) => Some(*number),
        _ => None,
    }
}

/// The pieces at these places, in this order.
pub fn pieces_at<'a>(
    rt: &impl Abort,
    alloc: Global,
    pieces: &'a [Piece],
    order: &[usize],
) -> Vec<&'a Piece> {
    let mut list = Vec::new(alloc);
    for i in order {
        if let Some(piece) = pieces.get(*i) {
            list.push(piece).expect(rt, MEMORY);
        }
    }
    list
}

/// So many numbers, each drawn after the one before.
pub fn draws(alloc: Global, count: usize) -> Result<Vec<u64>, Refusal> {
    let mut numbers = Vec::new(alloc);
    let mut number = 7_u64;
    for _ in 0..count {
        number = number
            .wrapping_mul(6364136223846793005)
            .wrapping_add(1442695040888963407);
        numbers.push(number)?;
    }
    Ok(numbers)
}

/// A piece of one to four of the commits 1 to 19 of the process of that rank, as the number says.
pub fn draw_piece(alloc: Global, rank: u32, number: u64) -> Result<Piece, Refusal> {
    let from = (number >> 58) & 15;
    let first = from.wrapping_add(1);
    let more = (number >> 56) & 3;
    let last = first.wrapping_add(more);
    let commit = first.wrapping_add((number >> 54) & more);
    let value = (number >> 40 & 255) as u8;
    let (a, b, c) = ((b"a", value), (b"b", value / 2), (b"c", value / 4));
    match number >> 52 & 3 {
        0 => piece(alloc, rank, from, last, commit, &[a]),
        1 => piece(alloc, rank, from, last, commit, &[a, b]),
        2 => piece(alloc, rank, from, last, commit, &[b]),
        _ => piece(alloc, rank, from, last, commit, &[b, c]),
    }
}

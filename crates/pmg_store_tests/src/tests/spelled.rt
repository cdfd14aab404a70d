//! Frames for tests: their bytes as hexadecimal text, and the frames that these say.
use crate::tests::making::{MEMORY, fence_name, proc};
use hex::FromHexError;
use pmg_commit::{Piece, PieceEntry};
use pmg_frame::{CommitAsk, FenceAsk, Frame, Header, Local, RefreshAsk, RefreshReply, State};
use pmg_value::{Key, NodeId, Proc, Value};
use std::alloc::Global;
use std::process::Abort;

/// Of each kind of frame in each version its name and its bytes, field by field as the formats list them.
pub const FRAMES: &str = "\
piece 01 01 00000027 016a 00000000 0000000000000000 0000000000000001 00000001 \
 0001 61 0000000000000001 01 01
pair 01 01 00000034 016a 00000000 0000000000000000 0000000000000001 00000002 \
 0001 61 0000000000000001 01 01 0001 62 0000000000000001 01 01
header 01 02 00000030 00000000 01 0000000000000001 00000002 016a 00000000 016a 00000001 \
 00000001 016a 00000000 00 0000000000000001
fence-ask 01 03 0000001d 00000001 01 0000000000000001 00000002 016a 00000000 016a 00000001
range-ask 01 04 00000012 00000001 016a 00000000 0000000000000002
direct-ask 01 05 00000012 00000001 016a 00000000 0000000000000003
host-ask 01 04 0000001a 00000001 09706d69782e686f7374 00000000 0000000000000000
refresh-ask 01 06 0000001b 00000001 0000000000000007 00 016a 00000000 0000000000000003
refresh-reply 01 06 00000034 00000001 0000000000000001 01 016a 00000000 0000000000000000 \
 0000000000000001 00000001 0001 61 0000000000000001 01 01
refresh-none 01 06 00000027 00000001 0000000000000002 01 016a 00000000 0000000000000003 \
 0000000000000003 00000000
short-piece 02 01 00000027 016a 00000000 0000000000000000 0000000000000001 00000001 \
 0001 61 0000000000000001 01 01
short-header 02 02 00000032 00000000 01 0000000000000001 00000001 016a 00000000 00000001 \
 00000001 016a 00000000 00000000 00 0000000000000001
mixed-header 02 02 00000062 00000000 01 0000000000000001 00000002 016a 00000000 00000002 \
 016a 00000004 00000004 00000003 016a 00000000 00000001 00 0000000000000001 \
 016a 00000002 00000002 01 0000000000000001 016a 00000004 00000004 00 0000000000000002
mixed-ask 02 03 00000025 00000001 01 0000000000000001 00000002 016a 00000000 00000001 \
 016a 00000003 00000003
short-refresh-reply 02 06 00000034 00000001 0000000000000001 01 016a 00000000 0000000000000000 \
 0000000000000001 00000001 0001 61 0000000000000001 01 01
";

/// The dump of the frame `piece`, which has 45 bytes.
pub const PIECE_DUMPED: &[u8; 31] = b"proc j 0 level 1\n  bool:true a\n";

/// The first commit of the process 0 of j, with true under each key.
pub fn first_commit(rt: &impl Abort, alloc: Global, keys: &[&[u8]]) -> Piece {
    let mut entries = Vec::new(alloc);
    for name in keys {
        let key = Key::read_any(alloc, *name).expect(rt, MEMORY);
        let entry = PieceEntry {
            key,
            number: 1,
            value: Value::Bool(true),
        };
        entries.push(entry).expect(rt, MEMORY);
    }
    let proc = proc(alloc, 0).expect(rt, MEMORY);
    Piece::new(proc, 0, 1, entries).expect(rt, MEMORY)
}

// What a header tells of the process of that rank of j.
fn local(rt: &impl Abort, alloc: Global, rank: u32, state: State, level: u64) -> Local {
    let proc = proc(alloc, rank).expect(rt, MEMORY);
    Local { proc, state, level }
}

// Node 0 tells of the first collecting fence of 0 and 1 of j: 0 has entered at level 1.
fn header(rt: &impl Abort, alloc: Global) -> Header {
    let mut locals = Vec::new(alloc);
    let first = local(rt, alloc, 0, State::Entered, 1);
    locals.push(first).expect(rt, MEMORY);
    let node = NodeId::new(0).expect(rt, MEMORY);
    let fence = fence_name(rt, alloc, &[1, 0, 1], true, 1);
    Header::new(node, fence, locals).expect(rt, MEMORY)
}

// Node 0 tells of the first collecting fence of 0, 1, 2 and 4 of j: 2 is gone, and 4 has entered at level 2.
fn mixed_header(rt: &impl Abort, alloc: Global) -> Header {
    let mut locals = Vec::new(alloc);
    for rank in 0..2 {
        let entered = local(rt, alloc, rank, State::Entered, 1);
        locals.push(entered).expect(rt, MEMORY);
    }
    let gone = local(rt, alloc, 2, State::Gone, 1);
    locals.push(gone).expect(rt, MEMORY);
    let later = local(rt, alloc, 4, State::Entered, 2);
    locals.push(later).expect(rt, MEMORY);
    let node = NodeId::new(0).expect(rt, MEMORY);
    let fence = fence_name(rt, alloc, &[0, 1, 2, 4], true, 1);
    Header::new(node, fence, locals).expect(rt, MEMORY)
}

/// Node 0 tells of the first collecting fence of all ranks that j may have: each has entered at level 1.
pub fn full_header(rt: &impl Abort, alloc: Global) -> Header {
    let mut ranks = Vec::new(alloc);
    let mut locals = Vec::new(alloc);
    for rank in 0..4096 {
        let entered = local(rt, alloc, rank, State::Entered, 1);
        locals.push(entered).expect(rt, MEMORY);
        ranks.push(rank).expect(rt, MEMORY);
    }
    let node = NodeId::new(0).expect(rt, MEMORY);
    let fence = fence_name(rt, alloc, &ranks, true, 1);
    Header::new(node, fence, locals).expect(rt, MEMORY)
}

// The ask of that node for a header of the first collecting fence of these ranks of j.
fn fence_ask(rt: &impl Abort, alloc: Global, node: NodeId, ranks: &[u32]) -> Frame {
    let fence = fence_name(rt, alloc, ranks, true, 1);
    Frame::FenceAsk(FenceAsk::new(node, fence))
}

// The ask of that node for the commits of the process 0 of j after the level.
fn commit_ask(rt: &impl Abort, alloc: Global, node: NodeId, level: u64) -> CommitAsk {
    let proc = proc(alloc, 0).expect(rt, MEMORY);
    CommitAsk::new(node, proc, level).expect(rt, MEMORY)
}

/// The frame of that name, made from what it says.
pub fn make_frame(rt: &impl Abort, alloc: Global, name: &str) -> Frame {
    let node = NodeId::new(1).expect(rt, MEMORY);
    match name.strip_prefix("short-").unwrap_or(name) {
        "piece" => Frame::Piece(first_commit(rt, alloc, &[b"a"])),
        "pair" => Frame::Piece(first_commit(rt, alloc, &[b"a", b"b"])),
        "header" => Frame::Header(header(rt, alloc)),
        "mixed-header" => Frame::Header(mixed_header(rt, alloc)),
        "fence-ask" => fence_ask(rt, alloc, node, &[1, 0, 1]),
        "mixed-ask" => fence_ask(rt, alloc, node, &[0, 1, 3]),
        "range-ask" => Frame::RangeAsk(commit_ask(rt, alloc, node, 2)),
        "direct-ask" => Frame::DirectAsk(commit_ask(rt, alloc, node, 3)),
        "refresh-ask" => {
            let ask = commit_ask(rt, alloc, node, 3);
            Frame::RefreshAsk(RefreshAsk::new(7, ask).expect(rt, MEMORY))
        }
        "refresh-reply" => {
            let piece = first_commit(rt, alloc, &[b"a"]);
            Frame::RefreshReply(RefreshReply::new(node, 1, piece).expect(rt, MEMORY))
        }
        "refresh-none" => {
            let proc = proc(alloc, 0).expect(rt, MEMORY);
            let none = RefreshReply::nothing(alloc, node, 2, proc, 3);
            Frame::RefreshReply(none.expect(rt, MEMORY))
        }
        _ => {
            let ask = CommitAsk::new(node, Proc::of_host(), 0);
            Frame::RangeAsk(ask.expect(rt, MEMORY))
        }
    }
}

/// The bytes of hexadecimal text, in which blanks part the fields.
pub fn decode_fields(alloc: Global, text: &str) -> Result<Vec<u8>, FromHexError> {
    let mut bytes = Vec::new(alloc);
    for field in text.split_whitespace() {
        bytes.extend_from_slice(&hex::decode(alloc, field.as_bytes())?)?;
    }
    Ok(bytes)
}

// The bytes of the frame of that name.
fn bytes_of(rt: &impl Abort, alloc: Global, name: &str) -> Vec<u8> {
    for line in FRAMES.lines() {
        let (first, text) = line.split_once(' ').unwrap_or(("", ""));
        if first == name {
            return decode_fields(alloc, text).expect(rt, MEMORY);
        }
    }
    panic!(rt; "there is no frame {name}")
}

// Does one edit: `7=20` writes a byte at a place, and `..6` cuts.
fn edit(rt: &impl Abort, bytes: &mut Vec<u8>, text: &str) {
    if let Some(size) = text.strip_prefix("..")
        && let Ok(size) = size.parse::<usize>()
    {
        bytes.truncate(size);
        return;
    }
    if let Some((place, byte)) = text.split_once('=')
        && let (Ok(place), Ok(byte)) = (place.parse::<usize>(), u8::from_str_radix(byte, 16))
        && let Some(there) = bytes.get_mut(place)
    {
        *there = byte;
        return;
    }
    panic!(rt; "{text} is no edit")
}

/// The bytes of the frame that is named first, with the edits that follow, as `piece 7=20 19=01`.
pub fn edit_frame(rt: &impl Abort, alloc: Global, text: &str) -> Vec<u8> {
    let mut words = text.split_whitespace();
    let mut bytes = bytes_of(rt, alloc, words.next().unwrap_or(""));
    for word in words {
        edit(rt, &mut bytes, word);
    }
    bytes
}

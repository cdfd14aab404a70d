//! Processes, keys, puts, requests and frames from words.
use pmg_commit::{Piece, PieceEntry};
use pmg_frame::{
    CommitAsk, FenceAsk, FenceName, Frame, Header, Local, RefreshAsk, RefreshReply, Signature,
    State,
};
use pmg_get::Mode;
use pmg_node::Request;
use pmg_scope::{Batch, Cache, Scope};
use pmg_value::{Key, NodeId, Nspace, Proc, Rank, Refusal, Value};
use std::alloc::Global;
use std::process::Abort;

/// A test gives up where a call of it fails, and says this word and the error.
pub(crate) const MEMORY: &str = "memory";

/// The word at that place, empty where there is none.
pub(crate) fn word<'a>(words: &[&'a str], at: usize) -> &'a str {
    match words.get(at) {
        Some(word) => *word,
        None => "",
    }
}

/// The words of a line.
pub(crate) fn words_of<'a>(alloc: Global, line: &'a str) -> Result<Vec<&'a str>, Refusal> {
    Ok(line.split(' ').collect(alloc)?)
}

/// The number at that place, 0 where there is none.
pub(crate) fn number(words: &[&str], at: usize) -> u64 {
    word(words, at).parse::<u64>().unwrap_or(0)
}

// The node at that place.
fn node(rt: &impl Abort, words: &[&str], at: usize) -> NodeId {
    NodeId::new(word(words, at).parse::<u32>().unwrap_or(u32::MAX)).expect(rt, MEMORY)
}

/// The value at that place.
pub(crate) fn value(words: &[&str], at: usize) -> Value {
    Value::U8(word(words, at).parse::<u8>().unwrap_or(0))
}

// The rank of a word's last byte: a digit, `*` for all ranks, or `?` for none.
fn rank_of(last: u8) -> Rank {
    match last {
        b'*' => Rank::WILDCARD,
        b'?' => Rank::UNDEF,
        digit => Rank::new(u32::from(digit.wrapping_sub(b'0'))),
    }
}

/// The process of a word: its namespace, and one byte for its rank.
pub(crate) fn process(alloc: Global, word: &str) -> Result<Proc, Refusal> {
    let Some((last, name)) = word.as_bytes().split_last() else {
        return Err(Refusal::BadParam);
    };
    Ok(Proc::new(Nspace::read_any(alloc, name)?, rank_of(*last)))
}

/// The processes of the words from that place on.
pub(crate) fn processes(alloc: Global, words: &[&str], from: usize) -> Result<Vec<Proc>, Refusal> {
    let mut procs = Vec::new(alloc);
    for word in words.iter().skip(from) {
        procs.push(process(alloc, word)?)?;
    }
    Ok(procs)
}

/// The key, which may be a reserved one.
pub(crate) fn key(alloc: Global, word: &str) -> Result<Key, Refusal> {
    Key::read_any(alloc, word.as_bytes())
}

// The get of the words from the third one on, of that mode.
fn ask(alloc: Global, words: &[&str], mode: Mode) -> Result<Request, Refusal> {
    let target = process(alloc, word(words, 3))?;
    let name = key(alloc, word(words, 4))?;
    Ok(Request::Ask(mode, process(alloc, word(words, 2))?, target, name))
}

// The process enters a fence, whose participants are those of the words from the fifth one on.
fn enter(alloc: Global, words: &[&str]) -> Result<Request, Refusal> {
    let list = processes(alloc, words, 4)?;
    let proc = process(alloc, word(words, 2))?;
    Ok(Request::Enter(proc, list, word(words, 3) == "collect"))
}

// The set has the members of the words from the fourth one on.
fn define(alloc: Global, words: &[&str]) -> Result<Request, Refusal> {
    let list = processes(alloc, words, 3)?;
    Ok(Request::Define(key(alloc, word(words, 2))?, list))
}

/// The request of the words from the second one on, if they are those of one.
pub(crate) fn request(alloc: Global, words: &[&str]) -> Result<Option<Request>, Refusal> {
    let first = word(words, 2);
    Ok(Some(match word(words, 1) {
        "enter" => enter(alloc, words)?,
        "leave" => Request::Leave(process(alloc, first)?),
        "wait" => ask(alloc, words, Mode::Wait)?,
        "now" => ask(alloc, words, Mode::Now)?,
        "refresh" => ask(alloc, words, Mode::Refresh)?,
        "take" => Request::Take(process(alloc, first)?),
        "end" => Request::Terminate(process(alloc, first)?),
        "define" => define(alloc, words)?,
        "delete" => Request::Delete(key(alloc, first)?),
        "nudge" => Request::Nudge,
        _ => return Ok(None),
    }))
}

/// The scope of that name.
pub(crate) fn scope_of(word: &str) -> Scope {
    match word {
        "internal" => Scope::Internal,
        "local" => Scope::Local,
        "remote" => Scope::Remote,
        "global" => Scope::Global,
        _ => Scope::Undef,
    }
}

/// What a commit seals after the puts of the words from the fourth one on, of three words each: the
/// scope, the key and the value.
pub(crate) fn batch(rt: &impl Abort, alloc: Global, words: &[&str]) -> Batch {
    let mut cache = Cache::new(alloc);
    for put in words.chunks(3).skip(1) {
        let scope = scope_of(word(put, 0));
        let key = key(alloc, word(put, 1)).expect(rt, MEMORY);
        cache.put(scope, key, value(put, 2)).expect(rt, MEMORY);
    }
    cache.unsealed().expect(rt, MEMORY)
}

/// The fence of three words: whether it collects data, its instance, and its participants, with
/// commas between them.
pub(crate) fn name(rt: &impl Abort, alloc: Global, words: &[&str], at: usize) -> FenceName {
    let listed = word(words, at.wrapping_add(2)).split(',');
    let listed: Vec<&str> = listed.collect(alloc).expect(rt, MEMORY);
    let procs = processes(alloc, &listed, 0).expect(rt, MEMORY);
    let collect = word(words, at) == "collect";
    let signature = Signature::new(procs, collect).expect(rt, MEMORY);
    FenceName::new(signature, number(words, at.wrapping_add(1))).expect(rt, MEMORY)
}

// What is told of a participant by three words, which are the process, whether it has entered, and
// its level.
fn local(rt: &impl Abort, alloc: Global, told: &[&str]) -> Local {
    let state = match word(told, 1) {
        "gone" => State::Gone,
        _ => State::Entered,
    };
    Local {
        proc: process(alloc, word(told, 0)).expect(rt, MEMORY),
        state,
        level: number(told, 2),
    }
}

// The header of the words from the third one on: its node, the fence, and three words of each
// participant.
fn header(rt: &impl Abort, alloc: Global, words: &[&str]) -> Header {
    let mut locals = Vec::new(alloc);
    for told in words.chunks(3).skip(2) {
        locals.push(local(rt, alloc, told)).expect(rt, MEMORY);
    }
    let name = name(rt, alloc, words, 3);
    Header::new(node(rt, words, 2), name, locals).expect(rt, MEMORY)
}

fn piece(rt: &impl Abort, alloc: Global, words: &[&str]) -> Piece {
    let mut entries = Vec::new(alloc);
    let entry = PieceEntry {
        key: key(alloc, word(words, 5)).expect(rt, MEMORY),
        number: number(words, 6),
        value: value(words, 7),
    };
    entries.push(entry).expect(rt, MEMORY);
    let proc = process(alloc, word(words, 2)).expect(rt, MEMORY);
    Piece::new(proc, number(words, 3), number(words, 4), entries).expect(rt, MEMORY)
}

fn commit_ask(rt: &impl Abort, alloc: Global, words: &[&str]) -> CommitAsk {
    let proc = process(alloc, word(words, 3)).expect(rt, MEMORY);
    CommitAsk::new(node(rt, words, 2), proc, number(words, 4)).expect(rt, MEMORY)
}

fn fence_ask(rt: &impl Abort, alloc: Global, words: &[&str]) -> FenceAsk {
    FenceAsk::new(node(rt, words, 2), name(rt, alloc, words, 3))
}

// The ask of the words from the third one on, and after those of a commit's ask the request's number.
fn refresh_ask(rt: &impl Abort, alloc: Global, words: &[&str]) -> RefreshAsk {
    RefreshAsk::new(number(words, 5), commit_ask(rt, alloc, words)).expect(rt, MEMORY)
}

// The reply of the words from the third one on: the node that asked, the request's number, and then
// those of a piece; or a process and its level alone, which tell of no commit.
fn refresh_reply(rt: &impl Abort, alloc: Global, words: &[&str]) -> RefreshReply {
    let (node, request) = (node(rt, words, 2), number(words, 3));
    let reply = if words.len() > 6 {
        let told = words.get(2..).unwrap_or(words);
        RefreshReply::new(node, request, piece(rt, alloc, told))
    } else {
        let proc = process(alloc, word(words, 4)).expect(rt, MEMORY);
        RefreshReply::nothing(alloc, node, request, proc, number(words, 5))
    };
    reply.expect(rt, MEMORY)
}

/// The frame of the words from the second one on, if they are those of one.
pub(crate) fn frame(rt: &impl Abort, alloc: Global, words: &[&str]) -> Option<Frame> {
    Some(match word(words, 1) {
        "piece" => Frame::Piece(piece(rt, alloc, words)),
        "header" => Frame::Header(header(rt, alloc, words)),
        "fence" => Frame::FenceAsk(fence_ask(rt, alloc, words)),
        "range" => Frame::RangeAsk(commit_ask(rt, alloc, words)),
        "direct" => Frame::DirectAsk(commit_ask(rt, alloc, words)),
        "anew" => Frame::RefreshAsk(refresh_ask(rt, alloc, words)),
        "reply" => Frame::RefreshReply(refresh_reply(rt, alloc, words)),
        _ => return None,
    })
}

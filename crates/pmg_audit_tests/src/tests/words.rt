//! Processes, values, acts and answers from words.
use pmg_commit::{Piece, PieceEntry};
use pmg_frame::{
    CommitAsk, FenceAsk, FenceName, Frame, Header, Local, RefreshAsk, RefreshReply, Signature,
    State,
};
use pmg_get::Mode;
use pmg_node::{Act, Reply, Request};
use pmg_scope::{Batch, Cache, Scope};
use pmg_value::{Key, NodeId, Nspace, Proc, Rank, Refusal, Value};
use std::alloc::Global;

/// The tag of a process among values.
const PROC_TAG: u8 = 0x10;

/// The words of a text.
pub(crate) fn words_of<'a>(alloc: Global, text: &'a str) -> Result<Vec<&'a str>, Refusal> {
    Ok(text.split(' ').collect(alloc)?)
}

/// The word at that place, empty where there is none.
pub(crate) fn word<'a>(words: &[&'a str], at: usize) -> &'a str {
    match words.get(at) {
        Some(word) => *word,
        None => "",
    }
}

// The words from that place on.
fn words_from<'a>(words: &'a [&'a str], at: usize) -> &'a [&'a str] {
    &words[at.min(words.len())..]
}

// The number at that place, 0 where there is none.
fn number(words: &[&str], at: usize) -> u64 {
    word(words, at).parse::<u64>().unwrap_or(0)
}

// The node at that place.
fn node(words: &[&str], at: usize) -> Result<NodeId, Refusal> {
    NodeId::new(word(words, at).parse::<u32>().unwrap_or(u32::MAX))
}

/// The process of a word: its namespace, and a digit for its rank.
pub(crate) fn process(alloc: Global, word: &str) -> Result<Proc, Refusal> {
    let Some((digit, name)) = word.as_bytes().split_last() else {
        return Err(Refusal::BadParam);
    };
    let rank = Rank::new(u32::from(digit.wrapping_sub(b'0')));
    Ok(Proc::new(Nspace::read_any(alloc, name)?, rank))
}

// The processes of the words.
fn processes(alloc: Global, words: &[&str]) -> Result<Vec<Proc>, Refusal> {
    let mut procs = Vec::new(alloc);
    for word in words {
        procs.push(process(alloc, word)?)?;
    }
    Ok(procs)
}

// The processes of a word, with commas between them.
fn list_of(alloc: Global, word: &str) -> Result<Vec<Proc>, Refusal> {
    let words: Vec<&str> = word.split(',').collect(alloc)?;
    processes(alloc, &words)
}

/// The key, which may be a reserved one.
pub(crate) fn key(alloc: Global, word: &str) -> Result<Key, Refusal> {
    Key::read_any(alloc, word.as_bytes())
}

// The members of a set, as a value.
fn members(alloc: Global, word: &str) -> Result<Value, Refusal> {
    let mut items = Vec::new(alloc);
    for proc in list_of(alloc, word)? {
        items.push(Value::Proc(proc))?;
    }
    Value::array(PROC_TAG, items)
}

/// The value: a number below 256, `true` or `false`, or the members of a set.
pub(crate) fn value(alloc: Global, word: &str) -> Result<Value, Refusal> {
    if let Ok(number) = word.parse::<u8>() {
        return Ok(Value::U8(number));
    }
    match word {
        "true" => Ok(Value::Bool(true)),
        "false" => Ok(Value::Bool(false)),
        _ => members(alloc, word),
    }
}

/// The scope of that name.
pub(crate) fn scope_of(word: &str) -> Scope {
    match word {
        "internal" => Scope::Internal,
        "local" => Scope::Local,
        "remote" => Scope::Remote,
        "global" => Scope::Global,
        _ => Scope::Undef,
    }
}

// What a commit seals after these puts, of three words each: the scope, the key and the value.
fn batch(alloc: Global, words: &[&str]) -> Result<Batch, Refusal> {
    let mut cache = Cache::new(alloc);
    for put in words.chunks(3) {
        let scope = scope_of(word(put, 0));
        let key = key(alloc, word(put, 1))?;
        cache.put(scope, key, value(alloc, word(put, 2))?)?;
    }
    Ok(cache.unsealed()?)
}

// The get of the words, of that mode.
fn ask(alloc: Global, words: &[&str], mode: Mode) -> Result<Request, Refusal> {
    let target = process(alloc, word(words, 2))?;
    let key = key(alloc, word(words, 3))?;
    Ok(Request::Ask(mode, process(alloc, word(words, 1))?, target, key))
}

/// The request of the words.
pub(crate) fn request(alloc: Global, words: &[&str]) -> Result<Request, Refusal> {
    let first = word(words, 1);
    Ok(match word(words, 0) {
        "enter" => {
            let list = processes(alloc, words_from(words, 3))?;
            Request::Enter(process(alloc, first)?, list, word(words, 2) == "collect")
        }
        "leave" => Request::Leave(process(alloc, first)?),
        "wait" => ask(alloc, words, Mode::Wait)?,
        "now" => ask(alloc, words, Mode::Now)?,
        "refresh" => ask(alloc, words, Mode::Refresh)?,
        "take" => Request::Take(process(alloc, first)?),
        "end" => Request::Terminate(process(alloc, first)?),
        "define" => {
            let list = processes(alloc, words_from(words, 2))?;
            Request::Define(key(alloc, first)?, list)
        }
        "delete" => Request::Delete(key(alloc, first)?),
        "nudge" => Request::Nudge,
        _ => return Err(Refusal::BadParam),
    })
}

// The piece of the words: the process, the commits, and of each entry its key, number and value.
fn piece(alloc: Global, words: &[&str]) -> Result<Piece, Refusal> {
    let mut entries = Vec::new(alloc);
    for entry in words_from(words, 3).chunks(3) {
        entries.push(PieceEntry {
            key: key(alloc, word(entry, 0))?,
            number: number(entry, 1),
            value: value(alloc, word(entry, 2))?,
        })?;
    }
    let proc = process(alloc, word(words, 0))?;
    Piece::new(proc, number(words, 1), number(words, 2), entries)
}

// The fence of the words: whether it collects data, its instance, and its participants.
fn name(alloc: Global, words: &[&str]) -> Result<FenceName, Refusal> {
    let procs = list_of(alloc, word(words, 2))?;
    let collect = word(words, 0) == "collect";
    FenceName::new(Signature::new(procs, collect)?, number(words, 1))
}

// The header of the words: its node, the fence, and of each participant the process, whether it has
// entered, and its level.
fn header(alloc: Global, words: &[&str]) -> Result<Header, Refusal> {
    let mut locals = Vec::new(alloc);
    for told in words_from(words, 4).chunks(3) {
        let state = match word(told, 1) {
            "gone" => State::Gone,
            _ => State::Entered,
        };
        locals.push(Local {
            proc: process(alloc, word(told, 0))?,
            state,
            level: number(told, 2),
        })?;
    }
    Header::new(node(words, 0)?, name(alloc, words_from(words, 1))?, locals)
}

// The request of the words for commits: the node that asks, the process, and its level.
fn commit_ask(alloc: Global, words: &[&str]) -> Result<CommitAsk, Refusal> {
    let proc = process(alloc, word(words, 1))?;
    CommitAsk::new(node(words, 0)?, proc, number(words, 2))
}

// The words of a request for commits, and behind them the number under which the node asks anew.
fn refresh_ask(alloc: Global, words: &[&str]) -> Result<RefreshAsk, Refusal> {
    RefreshAsk::new(number(words, 3), commit_ask(alloc, words)?)
}

// The reply of the words: the node that asked, the number of its request, and a piece; or, where no
// commit is told of, the process and its level.
fn refresh_reply(alloc: Global, words: &[&str]) -> Result<RefreshReply, Refusal> {
    let (node, request) = (node(words, 0)?, number(words, 1));
    if words.len() > 4 {
        return RefreshReply::new(node, request, piece(alloc, words_from(words, 2))?);
    }
    let proc = process(alloc, word(words, 2))?;
    RefreshReply::nothing(alloc, node, request, proc, number(words, 3))
}

// The frame of the words.
fn frame(alloc: Global, words: &[&str]) -> Result<Frame, Refusal> {
    let fields = words_from(words, 1);
    Ok(match word(words, 0) {
        "piece" => Frame::Piece(piece(alloc, fields)?),
        "header" => Frame::Header(header(alloc, fields)?),
        "fence" => Frame::FenceAsk(FenceAsk::new(
            node(fields, 0)?,
            name(alloc, words_from(fields, 1))?,
        )),
        "range" => Frame::RangeAsk(commit_ask(alloc, fields)?),
        "direct" => Frame::DirectAsk(commit_ask(alloc, fields)?),
        "anew" => Frame::RefreshAsk(refresh_ask(alloc, fields)?),
        "reply" => Frame::RefreshReply(refresh_reply(alloc, fields)?),
        _ => return Err(Refusal::BadParam),
    })
}

/// The act of the words.
pub(crate) fn act(alloc: Global, words: &[&str]) -> Result<Act, Refusal> {
    match word(words, 0) {
        "commit" => {
            let batch = batch(alloc, words_from(words, 2))?;
            Ok(Act::Commit(process(alloc, word(words, 1))?, batch))
        }
        "deliver" => Ok(Act::Deliver(frame(alloc, words_from(words, 1))?)),
        _ => Ok(Act::Request(request(alloc, words)?)),
    }
}

// The refusal of that name.
fn refusal_of(word: &str) -> Result<Refusal, Refusal> {
    Ok(match word {
        "NoMemory" => Refusal::NoMemory,
        "NotFound" => Refusal::NotFound,
        "OutsideScope" => Refusal::OutsideScope,
        "Busy" => Refusal::Busy,
        "Terminated" => Refusal::Terminated,
        "Exists" => Refusal::Exists,
        "Closed" => Refusal::Closed,
        _ => return Err(Refusal::BadParam),
    })
}

/// The answer of the words.
pub(crate) fn answer(alloc: Global, words: &[&str]) -> Result<Result<Reply, Refusal>, Refusal> {
    Ok(Ok(match word(words, 0) {
        "ok" => Reply::Done,
        "commit" => Reply::Committed(number(words, 1)),
        "entered" => Reply::Entered(number(words, 1)),
        "idle" => Reply::Idle,
        "waiting" => Reply::Waiting,
        "released" => Reply::Released(number(words, 1), processes(alloc, words_from(words, 2))?),
        "found" => Reply::Found(value(alloc, word(words, 1))?),
        "parked" => Reply::Parked,
        "taken" => Reply::Taken,
        "ignored" => Reply::Ignored,
        "ended" => Reply::Ended(number(words, 1)),
        "defined" => Reply::Defined(number(words, 1)),
        name => return Ok(Err(refusal_of(name)?)),
    }))
}

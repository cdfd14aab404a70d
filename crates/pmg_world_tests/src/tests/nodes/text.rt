//! What a node replies and sends, as text: one line for the reply, and one for each frame.
use pmg_commit::{Piece, PieceEntry};
use pmg_frame::{CommitAsk, FenceName, Frame, Header, Local, RefreshReply, State};
use pmg_node::Reply;
use pmg_node_model::Sent;
use pmg_value::{Proc, Refusal, Value, push_number};
use std::alloc::{AllocError, Global};
use std::str;

/// The text of these bytes.
pub(crate) fn as_text(text: &[u8]) -> &str {
    str::from_utf8(text).unwrap_or("no text")
}

/// Puts the word after the text.
pub(crate) fn put(text: &mut Vec<u8>, word: &str) -> Result<(), AllocError> {
    text.extend_from_slice(word.as_bytes())
}

/// Puts the text of a line, and its end.
pub(crate) fn put_line(text: &mut Vec<u8>, line: &str) -> Result<(), AllocError> {
    put(text, line)?;
    put(text, "\n")
}

// Puts the word, and the number after it.
fn put_with(text: &mut Vec<u8>, word: &str, number: u64) -> Result<(), AllocError> {
    put(text, word)?;
    push_number(text, number)
}

// The namespace, and the rank right after it.
fn put_proc(text: &mut Vec<u8>, proc: &Proc) -> Result<(), AllocError> {
    text.extend_from_slice(proc.nspace.as_bytes())?;
    push_number(text, u64::from(proc.rank.number()))
}

// A blank before each of the processes.
fn put_procs(text: &mut Vec<u8>, procs: &[Proc]) -> Result<(), AllocError> {
    for proc in procs {
        put(text, " ")?;
        put_proc(text, proc)?;
    }
    Ok(())
}

fn put_value(text: &mut Vec<u8>, value: &Value, alloc: Global) -> Result<(), AllocError> {
    let value = value.to_text(alloc)?;
    text.extend_from_slice(&value)
}

// A blank, the key and the value, and the number of its commit.
fn put_entry(text: &mut Vec<u8>, entry: &PieceEntry, alloc: Global) -> Result<(), AllocError> {
    put(text, " ")?;
    text.extend_from_slice(entry.key.as_bytes())?;
    put(text, "=")?;
    put_value(text, &entry.value, alloc)?;
    put_with(text, "@", entry.number)
}

// The process, the commits that are told, and their keys and values.
fn put_told(
    text: &mut Vec<u8>,
    proc: &Proc,
    from: u64,
    to: u64,
    entries: &[PieceEntry],
    alloc: Global,
) -> Result<(), AllocError> {
    put_proc(text, proc)?;
    put_with(text, " ", from)?;
    put_with(text, "..", to)?;
    for entry in entries {
        put_entry(text, entry, alloc)?;
    }
    Ok(())
}

fn put_piece(text: &mut Vec<u8>, piece: &Piece, alloc: Global) -> Result<(), AllocError> {
    let (from, to) = (piece.from(), piece.to());
    put(text, "piece ")?;
    put_told(text, piece.proc(), from, to, piece.entries(), alloc)
}

// The node that asked, under which number, and what it is told.
fn put_reply(text: &mut Vec<u8>, reply: &RefreshReply, alloc: Global) -> Result<(), AllocError> {
    let (from, to) = (reply.from(), reply.to());
    put_with(text, "refresh reply ", u64::from(reply.node().index()))?;
    put_with(text, " request ", reply.request())?;
    put(text, " ")?;
    put_told(text, reply.proc(), from, to, reply.entries(), alloc)
}

// Whether the fence collects data, its instance and its participants.
fn put_name(text: &mut Vec<u8>, name: &FenceName) -> Result<(), AllocError> {
    let word = if name.signature().collect() {
        " collect "
    } else {
        " plain "
    };
    put_with(text, word, name.instance())?;
    put_procs(text, name.signature().participants())
}

// What is told of a participant.
fn put_local(text: &mut Vec<u8>, local: &Local) -> Result<(), AllocError> {
    put(text, ", ")?;
    put_proc(text, &local.proc)?;
    let word = match local.state {
        State::Entered => " entered ",
        State::Gone => " gone ",
    };
    put_with(text, word, local.level)
}

// The node, the fence, and what is told of each participant.
fn put_header(text: &mut Vec<u8>, header: &Header) -> Result<(), AllocError> {
    put_with(text, "header ", u64::from(header.node().index()))?;
    put_name(text, header.name())?;
    for local in header.locals() {
        put_local(text, local)?;
    }
    Ok(())
}

// The ask's kind, the node that asks, and the commits that it knows.
fn put_ask(text: &mut Vec<u8>, kind: &str, ask: &CommitAsk) -> Result<(), AllocError> {
    put_with(text, kind, u64::from(ask.node().index()))?;
    put(text, " ")?;
    put_proc(text, ask.proc())?;
    put_with(text, " ", ask.level())
}

fn put_frame(text: &mut Vec<u8>, frame: &Frame, alloc: Global) -> Result<(), AllocError> {
    match frame {
        Frame::Piece(piece) => put_piece(text, piece, alloc),
        Frame::Header(header) => put_header(text, header),
        Frame::FenceAsk(ask) => {
            put_with(text, "fence ask ", u64::from(ask.node().index()))?;
            put_name(text, ask.name())
        }
        Frame::RangeAsk(ask) => put_ask(text, "range ask ", ask),
        Frame::DirectAsk(ask) => put_ask(text, "direct ask ", ask),
        Frame::RefreshAsk(refresh) => {
            put_ask(text, "refresh ask ", refresh.ask())?;
            put_with(text, " request ", refresh.request())
        }
        Frame::RefreshReply(reply) => put_reply(text, reply, alloc),
    }
}

// The number of the instance, and who is gone.
fn put_release(text: &mut Vec<u8>, instance: u64, gone: &[Proc]) -> Result<(), AllocError> {
    put_with(text, "released ", instance)?;
    put(text, " gone")?;
    if gone.is_empty() {
        return put(text, " -");
    }
    put_procs(text, gone)
}

// What is found.
fn put_found(text: &mut Vec<u8>, value: &Value, alloc: Global) -> Result<(), AllocError> {
    put(text, "found ")?;
    put_value(text, value, alloc)
}

/// The line of a reply, or of a refusal by its name.
pub(crate) fn put_answer(
    text: &mut Vec<u8>,
    answer: &Result<Reply, Refusal>,
    alloc: Global,
) -> Result<(), AllocError> {
    match answer {
        Ok(Reply::Done) => put(text, "ok"),
        Ok(Reply::Committed(number)) => put_with(text, "commit ", *number),
        Ok(Reply::Entered(instance)) => put_with(text, "entered ", *instance),
        Ok(Reply::Idle) => put(text, "idle"),
        Ok(Reply::Waiting) => put(text, "waiting"),
        Ok(Reply::Released(instance, gone)) => put_release(text, *instance, gone),
        Ok(Reply::Found(value)) => put_found(text, value, alloc),
        Ok(Reply::Parked) => put(text, "parked"),
        Ok(Reply::Taken) => put(text, "taken"),
        Ok(Reply::Ignored) => put(text, "ignored"),
        Ok(Reply::Ended(number)) => put_with(text, "ended ", *number),
        Ok(Reply::Defined(number)) => put_with(text, "defined ", *number),
        Err(refusal) => put(text, refusal.name()),
    }?;
    put(text, "\n")
}

/// The line of a frame, which begins with the node that it goes to.
pub(crate) fn put_sent(text: &mut Vec<u8>, sent: &Sent, alloc: Global) -> Result<(), AllocError> {
    put_with(text, "to ", u64::from(sent.to.index()))?;
    put(text, ": ")?;
    put_frame(text, &sent.frame, alloc)?;
    put(text, "\n")
}

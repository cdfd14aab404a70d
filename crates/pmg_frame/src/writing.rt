//! Frames as bytes: each frame has one encoding in each version.
ghost use Rattle.std.specs.Prelude.{◌≡◌, ◌++◌, ◌+◌, ◌*◌, ◌<◌, ◌≤◌, ◌^◌, IfOk, OnOk, IsTrue, map, length};
ghost use Rattle.std.specs.Int.{w32, to_be_bytes};
ghost use Rattle.std.specs.List.{flat_map, list_all};
ghost use Rattle.pmg_value.specs.Names.{is_nspace};
ghost use Rattle.pmg_wire.specs.Spelling.{proc_spelling};
ghost use Rattle.pmg_commit.specs.Pieces.{entry_of, contribution};
ghost use Rattle.pmg_frame.specs.declared.frame.Frame.TheVariants as frames;
ghost use Rattle.pmg_frame.specs.Fences.{is_gone};
ghost use Rattle.pmg_frame.specs.Grammar.{IsEntry, AreEntries, IsName, IsHeader, IsFenceAsk, IsCommitAsk, IsRefreshAsk, IsRefreshReply, IsFrame};
ghost use Rattle.pmg_frame.specs.Refreshing.{is_request};
ghost use Rattle.pmg_frame.specs.Spelling.{entry_spelling, piece_body, flag_spelling, procs_spelling, name_spelling, local_spelling, header_body, fence_ask_body, commit_ask_body, asker_spelling, refresh_ask_body, refresh_reply_body};
ghost use Rattle.pmg_frame.specs.Versions.{head_spelling, frame_spelling};
ghost use Rattle.pmg_frame.specs.declared.signature.TheConstants.{MAX_PARTICIPANTS};
ghost use Rattle.pmg_value.specs.declared.process.TheConstants.{MAX_NODE};
ghost use Rattle.pmg_frame.specs.declared.frame.TheConstants.{MAX_BODY_SIZE};
ghost use Rattle.pmg_commit.specs.declared.piece.TheConstants.{MAX_ENTRIES};

use crate::asks::{CommitAsk, FenceAsk};
use crate::fence_name::FenceName;
use crate::frame::HEAD_SIZE;
use crate::header::Header;
use crate::local::{Local, State};
use crate::local_run_writing::encode_short_header;
use crate::refreshes::{RefreshAsk, RefreshReply};
use crate::run_writing::encode_short_fence_ask;
use bytes::BytesMut;
use pmg_commit::{Piece, PieceEntry};
use pmg_value::{NodeId, Proc};
use pmg_wire::{put_key, put_proc, put_value};
use std::alloc::{AllocError, Global};

pub fn put_head(out: &mut BytesMut, version: u8, kind: u8, len: u32) -> Result<(), AllocError>
    ensures { OnOk result (out.new.items ≡ out.old.items ++ head_spelling version kind len) }
{
    out.extend_from_slice(&[version, kind])?;
    out.extend_from_slice(&len.to_be_bytes())
}

pub fn encode_piece(alloc: Global, version: u8, piece: &Piece) -> Result<BytesMut, AllocError>
    ensures bytes { IfOk result (λ out. out.items ≡ frame_spelling version (frames.Piece piece.now)) }
    ensures valid { OnOk result (IsFrame (frames.Piece piece.now)) }
    ensures small { OnOk result (length (piece_body piece.now) ≤ MAX_BODY_SIZE) }
{
    let size = piece.size();
    let mut out = BytesMut::with_capacity(alloc, HEAD_SIZE + size)?;
    put_head(&mut out, version, 1, size as u32)?;
    put_told(
        &mut out,
        piece.proc(),
        piece.from(),
        piece.to(),
        piece.entries(),
    )?;
    Ok(out)
}

fn put_told(
    out: &mut BytesMut,
    proc: &Proc,
    from: u64,
    to: u64,
    entries: &[PieceEntry],
) -> Result<(), AllocError>
    requires { length entries.now ≤ MAX_ENTRIES }
    ensures bytes { OnOk result (out.new.items ≡ out.old.items ++ piece_body (contribution proc.now from to entries.now)) }
    ensures name { OnOk result (IsTrue (is_nspace proc.now.nspace)) }
    ensures entries { OnOk result (AreEntries (map entry_of entries.now)) }
{
    put_proc(out, proc)?;
    out.extend_from_slice(&from.to_be_bytes())?;
    out.extend_from_slice(&to.to_be_bytes())?;
    out.extend_from_slice(&(entries.len() as u32).to_be_bytes())?;
    put_entries(out, entries)
}

fn put_entries(out: &mut BytesMut, entries: &[PieceEntry]) -> Result<(), AllocError>
    ensures bytes { OnOk result (out.new.items ≡ out.old.items ++ flat_map entry_spelling (map entry_of entries.now)) }
    ensures entries { OnOk result (AreEntries (map entry_of entries.now)) }
{
    for entry in entries {
        put_entry(out, entry)?;
    }
    Ok(())
}

fn put_entry(out: &mut BytesMut, entry: &PieceEntry) -> Result<(), AllocError>
    ensures bytes { OnOk result (out.new.items ≡ out.old.items ++ entry_spelling (entry_of entry.now)) }
    ensures entry { OnOk result (IsEntry (entry_of entry.now)) }
{
    put_key(out, &entry.key)?;
    out.extend_from_slice(&entry.number.to_be_bytes())?;
    put_value(out, &entry.value)
}

/// Returns the number of bytes of a process in a frame.
pub fn proc_size(proc: &Proc) -> usize
    ensures value { result ≡ length (proc_spelling proc.now) }
    ensures bound { result ≤ 260 }
{
    proc.nspace.as_bytes().len() + 5
}

/// Returns the number of bytes of these processes in a frame.
fn procs_size(procs: &[Proc]) -> usize
    requires { length procs.now ≤ MAX_PARTICIPANTS }
    ensures value { result ≡ length (flat_map proc_spelling procs.now) }
    ensures bound { result ≤ 1064960 }
{
    let mut size = 0;
    for process in procs {
        size += proc_size(process);
    }
    size
}

/// Returns the number of bytes of these participants in a frame.
fn locals_size(locals: &[Local]) -> usize
    requires { length locals.now ≤ MAX_PARTICIPANTS }
    ensures value { result ≡ length (flat_map local_spelling locals.now) }
    ensures bound { result ≤ 1101824 }
{
    let mut size = 0;
    for local in locals {
        size += proc_size(&local.proc) + 9;
    }
    size
}

/// Returns the number of bytes of a fence's name in a frame.
fn name_size(name: &FenceName) -> usize
    ensures value { result ≡ length (name_spelling name.now) }
    ensures bound { result ≤ 1064973 }
{
    procs_size(name.signature().participants()) + 13
}

pub fn put_flag(out: &mut BytesMut, flag: bool) -> Result<(), AllocError>
    ensures { OnOk result (out.new.items ≡ out.old.items ++ flag_spelling flag) }
{
    let byte = if flag { 1 } else { 0 };
    out.extend_from_slice(&[byte])
}

pub fn put_node(out: &mut BytesMut, node: NodeId) -> Result<(), AllocError>
    ensures bytes { OnOk result (out.new.items ≡ out.old.items ++ to_be_bytes w32 node) }
    ensures bound { node ≤ MAX_NODE }
{
    out.extend_from_slice(&node.index().to_be_bytes())
}

fn put_procs(out: &mut BytesMut, procs: &[Proc]) -> Result<(), AllocError>
    ensures bytes { OnOk result (out.new.items ≡ out.old.items ++ flat_map proc_spelling procs.now) }
    ensures names { OnOk result (IsTrue (list_all (λ p. is_nspace p.nspace) procs.now)) }
{
    for process in procs {
        put_proc(out, process)?;
    }
    Ok(())
}

fn put_name(out: &mut BytesMut, name: &FenceName) -> Result<(), AllocError>
    ensures bytes { OnOk result (out.new.items ≡ out.old.items ++ name_spelling name.now) }
    ensures valid { OnOk result (IsName name.now) }
{
    let participants = name.signature().participants();
    put_flag(out, name.signature().collect())?;
    out.extend_from_slice(&name.instance().to_be_bytes())?;
    out.extend_from_slice(&(participants.len() as u32).to_be_bytes())?;
    put_procs(out, participants)
}

fn put_local(out: &mut BytesMut, local: &Local) -> Result<(), AllocError>
    ensures { OnOk result (out.new.items ≡ out.old.items ++ local_spelling local.now) }
{
    put_proc(out, &local.proc)?;
    put_flag(out, is_gone(local.state))?;
    out.extend_from_slice(&local.level.to_be_bytes())
}

pub fn is_gone(state: State) -> bool
    ensures { result ≡ is_gone state }
{
    match state {
        State::Entered => false,
        State::Gone => true,
    }
}

fn put_locals(out: &mut BytesMut, locals: &[Local]) -> Result<(), AllocError>
    ensures { OnOk result (out.new.items ≡ out.old.items ++ flat_map local_spelling locals.now) }
{
    for local in locals {
        put_local(out, local)?;
    }
    Ok(())
}

pub fn put_header(out: &mut BytesMut, header: &Header) -> Result<(), AllocError>
    ensures bytes { OnOk result (out.new.items ≡ out.old.items ++ header_body header.now) }
    ensures valid { OnOk result (IsHeader header.now) }
{
    let locals = header.locals();
    put_node(out, header.node())?;
    put_name(out, header.name())?;
    out.extend_from_slice(&(locals.len() as u32).to_be_bytes())?;
    put_locals(out, locals)
}

fn encode_full_header(alloc: Global, header: &Header) -> Result<BytesMut, AllocError>
    ensures bytes { IfOk result (λ out. out.items ≡ frame_spelling 1 (frames.Header header.now)) }
    ensures valid { OnOk result (IsFrame (frames.Header header.now)) }
{
    let size = name_size(header.name()) + locals_size(header.locals()) + 8;
    let mut out = BytesMut::with_capacity(alloc, HEAD_SIZE + size)?;
    put_head(&mut out, 1, 2, size as u32)?;
    put_header(&mut out, header)?;
    Ok(out)
}

pub fn encode_header(alloc: Global, version: u8, header: &Header) -> Result<BytesMut, AllocError>
    ensures bytes { IfOk result (λ out. out.items ≡ frame_spelling version (frames.Header header.now)) }
    ensures valid { OnOk result (IsFrame (frames.Header header.now)) }
{
    if version == 1 {
        encode_full_header(alloc, header)
    } else {
        encode_short_header(alloc, version, header)
    }
}

fn put_fence_ask(out: &mut BytesMut, ask: &FenceAsk) -> Result<(), AllocError>
    ensures bytes { OnOk result (out.new.items ≡ out.old.items ++ fence_ask_body ask.now) }
    ensures valid { OnOk result (IsFenceAsk ask.now) }
{
    put_node(out, ask.node())?;
    put_name(out, ask.name())
}

fn encode_full_fence_ask(alloc: Global, ask: &FenceAsk) -> Result<BytesMut, AllocError>
    ensures bytes { IfOk result (λ out. out.items ≡ frame_spelling 1 (frames.FenceAsk ask.now)) }
    ensures valid { OnOk result (IsFrame (frames.FenceAsk ask.now)) }
{
    let size = name_size(ask.name()) + 4;
    let mut out = BytesMut::with_capacity(alloc, HEAD_SIZE + size)?;
    put_head(&mut out, 1, 3, size as u32)?;
    put_fence_ask(&mut out, ask)?;
    Ok(out)
}

pub fn encode_fence_ask(alloc: Global, version: u8, ask: &FenceAsk) -> Result<BytesMut, AllocError>
    ensures bytes { IfOk result (λ out. out.items ≡ frame_spelling version (frames.FenceAsk ask.now)) }
    ensures valid { OnOk result (IsFrame (frames.FenceAsk ask.now)) }
{
    if version == 1 {
        encode_full_fence_ask(alloc, ask)
    } else {
        encode_short_fence_ask(alloc, version, ask)
    }
}

fn put_commit_ask(out: &mut BytesMut, ask: &CommitAsk) -> Result<(), AllocError>
    ensures bytes { OnOk result (out.new.items ≡ out.old.items ++ commit_ask_body ask.now) }
    ensures valid { OnOk result (IsCommitAsk ask.now) }
{
    put_node(out, ask.node())?;
    put_proc(out, ask.proc())?;
    out.extend_from_slice(&ask.level().to_be_bytes())
}

pub fn encode_commit_ask(
    alloc: Global,
    version: u8,
    kind: u8,
    ask: &CommitAsk,
) -> Result<BytesMut, AllocError>
    ensures bytes { IfOk result (λ out. out.items ≡ head_spelling version kind (length (commit_ask_body ask.now)) ++ commit_ask_body ask.now) }
    ensures valid { OnOk result (IsCommitAsk ask.now) }
{
    let size = proc_size(ask.proc()) + 12;
    let mut out = BytesMut::with_capacity(alloc, HEAD_SIZE + size)?;
    put_head(&mut out, version, kind, size as u32)?;
    put_commit_ask(&mut out, ask)?;
    Ok(out)
}

fn put_asker(out: &mut BytesMut, node: NodeId, request: u64, role: bool) -> Result<(), AllocError>
    ensures bytes { OnOk result (out.new.items ≡ out.old.items ++ asker_spelling node request role) }
    ensures bound { node ≤ MAX_NODE }
{
    put_node(out, node)?;
    out.extend_from_slice(&request.to_be_bytes())?;
    put_flag(out, role)
}

fn put_refresh_ask(out: &mut BytesMut, refresh: &RefreshAsk) -> Result<(), AllocError>
    ensures bytes { OnOk result (out.new.items ≡ out.old.items ++ refresh_ask_body refresh.now) }
    ensures valid { OnOk result (IsRefreshAsk refresh.now) }
{
    let ask = refresh.ask();
    put_asker(out, ask.node(), refresh.request(), false)?;
    put_proc(out, ask.proc())?;
    out.extend_from_slice(&ask.level().to_be_bytes())
}

pub fn encode_refresh_ask(
    alloc: Global,
    version: u8,
    refresh: &RefreshAsk,
) -> Result<BytesMut, AllocError>
    ensures bytes { IfOk result (λ out. out.items ≡ frame_spelling version (frames.RefreshAsk refresh.now)) }
    ensures valid { OnOk result (IsFrame (frames.RefreshAsk refresh.now)) }
{
    let size = proc_size(refresh.ask().proc()) + 21;
    let mut out = BytesMut::with_capacity(alloc, HEAD_SIZE + size)?;
    put_head(&mut out, version, 6, size as u32)?;
    put_refresh_ask(&mut out, refresh)?;
    Ok(out)
}

fn put_refresh_reply(out: &mut BytesMut, reply: &RefreshReply) -> Result<(), AllocError>
    ensures bytes { OnOk result (out.new.items ≡ out.old.items ++ refresh_reply_body reply.now) }
    ensures valid { OnOk result (IsRefreshReply reply.now) }
{
    put_asker(out, reply.node(), reply.request(), true)?;
    put_told(out, reply.proc(), reply.from(), reply.to(), reply.entries())
}

pub fn encode_refresh_reply(
    alloc: Global,
    version: u8,
    reply: &RefreshReply,
) -> Result<BytesMut, AllocError>
    ensures bytes { IfOk result (λ out. out.items ≡ frame_spelling version (frames.RefreshReply reply.now)) }
    ensures valid { OnOk result (IsFrame (frames.RefreshReply reply.now)) }
    ensures small { OnOk result (length (refresh_reply_body reply.now) ≤ MAX_BODY_SIZE) }
{
    let size = reply.size();
    let mut out = BytesMut::with_capacity(alloc, HEAD_SIZE + size)?;
    put_head(&mut out, version, 6, size as u32)?;
    put_refresh_reply(&mut out, reply)?;
    Ok(out)
}

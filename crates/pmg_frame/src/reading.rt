ghost use Rattle.std.specs.Prelude.{◌≡◌, ◌≤◌, length, IfOk};
ghost use Rattle.pmg_wire.specs.Reading.{Reads, ReadsAll};
ghost use Rattle.pmg_frame.specs.Reading.{read_fields, read_frame_body, read_head};
ghost use Rattle.pmg_frame.specs.Frames.{ReadsFrame};

use crate::fence_reading::{get_commit_ask, get_fence_ask, get_header};
use crate::frame::{Frame, HEAD_SIZE, MAX_BODY_SIZE, is_version};
use crate::local_run_reading::get_short_header;
use crate::piece_reading::get_piece;
use crate::refresh_reading::get_refresh;
use crate::run_reading::get_short_ask;
use pmg_value::{Cause, Refusal};
use pmg_wire::Cursor;
use std::alloc::Global;

/// The greatest number of a kind: kinds are counted from 1.
const MAX_KIND: u8 = 6;

/// The fields of a head: the version, the kind, and the length of the body.
pub(crate) struct Head {
    version: u8,
    kind: u8,
    len: u32,
}

// Reads the fields of a body of that version and kind.
#[tactic(auto, unfolding(crate::specs::Reading::read_fields))]
fn get_fields(alloc: Global, version: u8, kind: u8, at: &mut Cursor<'_>) -> Result<Frame, Refusal>
    requires { length at.old.rest ≤ MAX_BODY_SIZE }
    ensures { Reads (λ f. f) result at.new (read_fields version kind at.old) }
{
    match kind {
        1 => Ok(Frame::Piece(get_piece(alloc, at)?)),
        2 if version == 1 => Ok(Frame::Header(get_header(alloc, at)?)),
        2 => Ok(Frame::Header(get_short_header(alloc, at)?)),
        3 if version == 1 => Ok(Frame::FenceAsk(get_fence_ask(alloc, at)?)),
        3 => Ok(Frame::FenceAsk(get_short_ask(alloc, at)?)),
        4 => Ok(Frame::RangeAsk(get_commit_ask(alloc, at)?)),
        5 => Ok(Frame::DirectAsk(get_commit_ask(alloc, at)?)),
        _ => get_refresh(alloc, at),
    }
}

#[tactic(auto, unfolding(crate::specs::Reading::read_frame_body))]
fn get_body(alloc: Global, version: u8, kind: u8, at: &mut Cursor<'_>) -> Result<Frame, Refusal>
    requires { length at.old.rest ≤ MAX_BODY_SIZE }
    ensures { ReadsAll (λ f. f) result (read_frame_body version kind at.old) }
{
    let frame = get_fields(alloc, version, kind, at)?;
    if !at.rest().is_empty() {
        return Err(Refusal::bad_frame(at.offset(), Cause::Long));
    }
    Ok(frame)
}

#[tactic(auto, unfolding(crate::specs::Reading::read_head))]
fn get_head(at: &mut Cursor<'_>) -> Result<Head, Refusal>
    ensures read { Reads (λ h. h) result at.new (read_head at.old) }
    ensures small { IfOk result (λ h. h.len ≤ MAX_BODY_SIZE) }
{
    let version_at = at.offset();
    let version = at.get_u8()?;
    if !is_version(version) {
        return Err(Refusal::bad_frame(version_at, Cause::Version));
    }
    let kind_at = at.offset();
    let kind = at.get_u8()?;
    if kind == 0 || kind > MAX_KIND {
        return Err(Refusal::bad_frame(kind_at, Cause::Kind));
    }
    let len_at = at.offset();
    let len = at.get_u32()?;
    if len > MAX_BODY_SIZE {
        return Err(Refusal::bad_frame(len_at, Cause::Length));
    }
    Ok(Head { version, kind, len })
}

/// Reads the next frame, or nothing while it is incomplete. A refusal leaves the cursor where it was. Errors: `BadFrame` with the first
/// fault; `NoMemory`.
#[tactic(auto, unfolding(crate::specs::Reading::read_frame, crate::specs::Reading::behind_head))]
pub fn get_frame(alloc: Global, at: &mut Cursor<'_>) -> Result<Option<Frame>, Refusal>
    ensures { ReadsFrame result at.old at.new }
{
    if at.rest().len() < HEAD_SIZE {
        return Ok(None);
    }
    let mut head = at.window(HEAD_SIZE);
    let Head { version, kind, len } = get_head(&mut head)?;
    let mut behind = at.fork();
    behind.skip(HEAD_SIZE);
    if behind.rest().len() < len as usize {
        return Ok(None);
    }
    let mut body = behind.window(len as usize);
    let frame = get_body(alloc, version, kind, &mut body)?;
    behind.skip(len as usize);
    *at = behind;
    Ok(Some(frame))
}

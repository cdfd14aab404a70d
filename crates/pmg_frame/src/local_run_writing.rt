//! Writes the participants of headers as runs.
ghost use Rattle.std.specs.Prelude.{◌≡◌, ℕ, ◌-◌, ◌<◌, ◌≤◌, ◌++◌, drop, length, IfOk, OnOk};
ghost use Rattle.std.specs.Int.{w32, to_be_bytes};
ghost use Rattle.std.specs.List.{flat_map};
ghost use Rattle.pmg_frame.specs.Grammar.{IsHeader};
ghost use Rattle.pmg_frame.specs.Runs.{local_ranks, run, runs_of, IsFirstRun};
ghost use Rattle.pmg_frame.specs.RunSpelling.{local_run_spelling, local_runs_spelling, short_header};
ghost use Rattle.pmg_frame.specs.Versions.{head_spelling};
ghost use Rattle.pmg_frame.specs.declared.signature.TheConstants.{MAX_PARTICIPANTS};

use crate::frame::HEAD_SIZE;
use crate::header::Header;
use crate::local::Local;
use crate::local_run_reading::goes_on;
use crate::run_writing::{put_short_name, short_name_size};
use crate::writing::{is_gone, proc_size, put_flag, put_head, put_node};
use bytes::BytesMut;
use pmg_wire::put_proc;
use std::alloc::{AllocError, Global};

// Returns the end of the run that begins there.
fn run_end(locals: &[Local], start: usize) -> usize
    requires { start < length locals.now }
    ensures after { start < result }
    ensures within { result ≤ length locals.now }
    ensures run { IsFirstRun local_ranks (drop start locals.now) (result - start) }
{
    for i in start + 1..locals.len() {
        if !goes_on(&locals[i - 1], &locals[i]) {
            return i;
        }
    }
    locals.len()
}

// Returns the number of bytes of a run in a frame.
fn run_size(first: &Local) -> usize
    ensures value { (last : ℕ) → result ≡ length (local_run_spelling (run first.now last)) }
    ensures bound { result ≤ 273 }
{
    proc_size(&first.proc) + 13
}

/// Returns the number of bytes of these participants in a frame, as runs.
pub fn local_runs_size(locals: &[Local]) -> usize
    requires { length locals.now ≤ MAX_PARTICIPANTS }
    ensures value { result ≡ length (local_runs_spelling locals.now) }
    ensures bound { result ≤ 1118212 }
{
    let mut size = 4;
    let mut start = 0;
    while start < locals.len() {
        size += run_size(&locals[start]);
        start = run_end(locals, start);
    }
    size
}

// Counts the runs.
fn count_runs(locals: &[Local]) -> usize
    ensures value { result ≡ length (runs_of local_ranks locals.now) }
    ensures bound { result ≤ length locals.now }
{
    let mut count = 0;
    let mut start = 0;
    while start < locals.len() {
        start = run_end(locals, start);
        count += 1;
    }
    count
}

fn put_local_run(out: &mut BytesMut, first: &Local, last: u32) -> Result<(), AllocError>
    ensures { OnOk result (out.new.items ≡ out.old.items ++ local_run_spelling (run first.now last)) }
{
    put_proc(out, &first.proc)?;
    out.extend_from_slice(&last.to_be_bytes())?;
    put_flag(out, is_gone(first.state))?;
    out.extend_from_slice(&first.level.to_be_bytes())
}

fn put_each_run(out: &mut BytesMut, locals: &[Local]) -> Result<(), AllocError>
    ensures { OnOk result (out.new.items ≡ out.old.items ++ flat_map local_run_spelling (runs_of local_ranks locals.now)) }
{
    let mut start = 0;
    while start < locals.len() {
        let end = run_end(locals, start);
        put_local_run(out, &locals[start], locals[end - 1].proc.rank.number())?;
        start = end;
    }
    Ok(())
}

/// Writes these participants, as runs.
fn put_local_runs(out: &mut BytesMut, locals: &[Local]) -> Result<(), AllocError>
    requires { length locals.now ≤ MAX_PARTICIPANTS }
    ensures { OnOk result (out.new.items ≡ out.old.items ++ local_runs_spelling locals.now) }
{
    let count = count_runs(locals) as u32;
    out.extend_from_slice(&count.to_be_bytes())?;
    put_each_run(out, locals)
}

/// Writes the body of a header, with its participants as runs.
pub fn put_short_header(out: &mut BytesMut, header: &Header) -> Result<(), AllocError>
    ensures bytes { OnOk result (out.new.items ≡ out.old.items ++ short_header header.now) }
    ensures valid { OnOk result (IsHeader header.now) }
{
    put_node(out, header.node())?;
    put_short_name(out, header.name())?;
    put_local_runs(out, header.locals())
}

/// Encodes a header in that version, with its participants as runs.
pub fn encode_short_header(
    alloc: Global,
    version: u8,
    header: &Header,
) -> Result<BytesMut, AllocError>
    ensures bytes { IfOk result (λ out. out.items ≡ head_spelling version 2 (length (short_header header.now)) ++ short_header header.now) }
    ensures valid { OnOk result (IsHeader header.now) }
{
    let size = short_name_size(header.name()) + local_runs_size(header.locals()) + 4;
    let mut out = BytesMut::with_capacity(alloc, HEAD_SIZE + size)?;
    put_head(&mut out, version, 2, size as u32)?;
    put_short_header(&mut out, header)?;
    Ok(out)
}

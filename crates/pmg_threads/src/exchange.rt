//! The exchange program: each client puts its address, meets the others in a fence, and looks for theirs.
ghost use Rattle.std.specs.Prelude.{◌≤◌, length, IfOk};

use crate::program::Program;
use pmg_desk::Client;
use pmg_scope::Scope;
use pmg_value::{Key, Proc, Rank, Refusal, Value, push_number};
use std::alloc::{AllocError, Global};
use std::marker::Send;
use std::sync::Wait;

/// A program that puts its address, the string `NS/RANK`, for all under `addr`, commits it, and enters a collecting fence of all clients.
/// It then looks for the addresses of all others, and reports `client NS RANK found N own L`, with its own level. If a call is refused, it
/// reports `client NS RANK refused N NAME`, and returns that refusal. The line is whole or missing: if it is missing, the program returns
/// NoMemory.
#[derive(Drop)]
pub struct Exchange<R: Wait> {
    rt: R,
    alloc: Global,
}

/// The findings of a client: the number of addresses of others, and its own level.
#[derive(Drop)]
struct Found {
    others: u64,
    level: u64,
}

impl<R: Wait> Exchange<R> {
    /// Makes the program, with the handle and the allocator that its calls use.
    pub fn new(rt: R, alloc: Global) -> Exchange<R> {
        Exchange { rt, alloc }
    }
}

impl<R: Wait + Send + Drop> Program for Exchange<R> {
    fn run(
        &mut self,
        client: &mut Client<'_>,
        procs: &[Proc],
        out: &mut Vec<u8>,
    ) -> Result<(), Refusal> {
        let found = exchange_addresses(&self.rt, self.alloc, client, procs);
        let start = out.len();
        if let Err(AllocError) = push_report(out, client.proc(), &found) {
            out.truncate(start);
            return Err(Refusal::NoMemory);
        }
        match found {
            Ok(_) => Ok(()),
            Err(refusal) => Err(refusal),
        }
    }
}

/// Puts the address, meets the others, and looks for their addresses.
fn exchange_addresses<R: Wait>(
    rt: &R,
    alloc: Global,
    client: &mut Client<'_>,
    procs: &[Proc],
) -> Result<Found, Refusal> {
    let key = Key::read(alloc, b"addr")?;
    put_address(alloc, client, &key)?;
    client.commit(rt)?;
    client.fence(rt, &whole_spaces(alloc, procs)?, true)?;
    let others = count_others(client, procs, &key)?;
    let level = own_level(client)?;
    Ok(Found { others, level })
}

/// Puts the address under the key, for all.
fn put_address(alloc: Global, client: &mut Client<'_>, key: &Key) -> Result<(), Refusal> {
    let mut address = Vec::new(alloc);
    push_address(&mut address, client.proc())?;
    client.put(Scope::Global, key.copy()?, Value::string(alloc, &address)?)
}

/// Returns the namespaces of these rising processes, each as one process that represents all of it (PMIX_RANK_WILDCARD).
fn whole_spaces(alloc: Global, procs: &[Proc]) -> Result<Vec<Proc>, AllocError> {
    let mut spaces: Vec<Proc> = Vec::new(alloc);
    for proc in procs {
        if is_of_last(&spaces, proc) {
            continue;
        }
        spaces.push(Proc::new(proc.nspace.copy()?, Rank::WILDCARD))?;
    }
    Ok(spaces)
}

/// Returns whether the last of these is in the process's namespace.
fn is_of_last(spaces: &[Proc], proc: &Proc) -> bool {
    match spaces.last() {
        Some(last) => last.nspace == proc.nspace,
        None => false,
    }
}

/// Returns the client's own level.
fn own_level(client: &mut Client<'_>) -> Result<u64, Refusal> {
    let me = client.proc().copy()?;
    client.level_now(&me)
}

/// Counts the other processes with a value under the key.
fn count_others(client: &mut Client<'_>, procs: &[Proc], key: &Key) -> Result<u64, Refusal>
    ensures { IfOk result (λ n. n ≤ length procs.now) }
{
    let mut count = 0;
    for proc in procs {
        if proc == client.proc() {
            continue;
        }
        match client.get_now(proc, key) {
            Ok(_) => count += 1,
            Err(Refusal::NotFound | Refusal::OutsideScope) => {}
            Err(refusal) => return Err(refusal),
        }
    }
    Ok(count)
}

/// Appends the namespace, the separator, and the rank to the text.
fn push_proc(out: &mut Vec<u8>, proc: &Proc, between: &[u8]) -> Result<(), AllocError> {
    out.extend_from_slice(proc.nspace.as_bytes())?;
    out.extend_from_slice(between)?;
    push_number(out, u64::from(proc.rank.number()))
}

/// Appends the address of the process to the text, as `j/0`.
fn push_address(out: &mut Vec<u8>, proc: &Proc) -> Result<(), AllocError> {
    push_proc(out, proc, b"/")
}

/// Appends the line of a client to the text.
fn push_report(
    out: &mut Vec<u8>,
    proc: &Proc,
    found: &Result<Found, Refusal>,
) -> Result<(), AllocError> {
    match found {
        Ok(found) => push_found(out, proc, found),
        Err(refusal) => push_refused(out, proc, *refusal),
    }
}

/// Appends the line of a client that found others to the text.
fn push_found(out: &mut Vec<u8>, proc: &Proc, found: &Found) -> Result<(), AllocError> {
    out.extend_from_slice(b"client ")?;
    push_proc(out, proc, b" ")?;
    out.extend_from_slice(b" found ")?;
    push_number(out, found.others)?;
    out.extend_from_slice(b" own ")?;
    push_number(out, found.level)?;
    out.extend_from_slice(b"\n")?;
    Ok(())
}

/// Appends the line of a refused client to the text.
fn push_refused(out: &mut Vec<u8>, proc: &Proc, refusal: Refusal) -> Result<(), AllocError> {
    out.extend_from_slice(b"client ")?;
    push_proc(out, proc, b" ")?;
    out.extend_from_slice(b" refused ")?;
    push_number(out, u64::from(refusal.number()))?;
    out.extend_from_slice(b" ")?;
    out.extend_from_slice(refusal.name().as_bytes())?;
    out.extend_from_slice(b"\n")?;
    Ok(())
}

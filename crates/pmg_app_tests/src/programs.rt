//! Programs for the tests.

use pmg_desk::Client;
use pmg_launch::Program;
use pmg_node::Release;
use pmg_scope::Scope;
use pmg_value::{Key, Proc, Refusal, Value, push_number};
use std::alloc::Global;
use std::sync::Wait;

/// How often a client looks for a key before it gives up.
const TURNS: u64 = 1_000_000;

/// One of two clients: it puts a key and looks for the other's, or the other way round.
#[derive(Drop)]
pub struct Meeting<R: Wait> {
    pub rt: R,
    pub alloc: Global,
    pub is_first: bool,
}

// Puts a number under the key, for all, and commits it.
fn tell<R: Wait>(
    rt: &R,
    alloc: Global,
    client: &mut Client<'_>,
    name: &[u8],
) -> Result<(), Refusal> {
    client.put(Scope::Global, Key::read(alloc, name)?, Value::U8(7))?;
    client.commit(rt)?;
    Ok(())
}

// Looks for a key of another process until it is there. Refused as NotFound where it never was.
fn look_for(client: &mut Client<'_>, other: &Proc, key: &Key) -> Result<(), Refusal> {
    for _ in 0..TURNS {
        match client.get_now(other, key).err() {
            None => return Ok(()),
            Some(Refusal::NotFound) => {}
            Some(refusal) => return Err(refusal),
        }
    }
    Err(Refusal::NotFound)
}

// Looks for the key of that name.
fn look(alloc: Global, client: &mut Client<'_>, other: &Proc, name: &[u8]) -> Result<(), Refusal> {
    let key = Key::read(alloc, name)?;
    look_for(client, other, &key)
}

impl<R: Wait + Send + Drop> Program for Meeting<R> {
    fn run(
        &mut self,
        client: &mut Client<'_>,
        procs: &[Proc],
        _out: &mut Vec<u8>,
    ) -> Result<(), Refusal> {
        let (Some(first), Some(second)) = (procs.first(), procs.last()) else {
            return Err(Refusal::BadParam);
        };
        if self.is_first {
            tell(&self.rt, self.alloc, client, b"a")?;
            look(self.alloc, client, second, b"b")
        } else {
            look(self.alloc, client, first, b"a")?;
            tell(&self.rt, self.alloc, client, b"b")
        }
    }
}

/// A client that is refused at once.
#[derive(Drop)]
pub struct Refused;

impl Program for Refused {
    fn run(
        &mut self,
        _client: &mut Client<'_>,
        _procs: &[Proc],
        out: &mut Vec<u8>,
    ) -> Result<(), Refusal> {
        out.extend_from_slice(b"no")?;
        Err(Refusal::Stale)
    }
}

/// A client that reports that text, and then has no memory.
#[derive(Drop)]
pub struct Lacking {
    pub text: &'static [u8],
}

impl Program for Lacking {
    fn run(
        &mut self,
        _client: &mut Client<'_>,
        _procs: &[Proc],
        out: &mut Vec<u8>,
    ) -> Result<(), Refusal> {
        out.extend_from_slice(self.text)?;
        Err(Refusal::NoMemory)
    }
}

/// A client that meets all in a fence and tells how many were gone.
#[derive(Drop)]
pub struct Fencing<R: Wait> {
    pub rt: R,
}

// The ranks of the processes.
fn push_ranks(out: &mut Vec<u8>, procs: &[Proc]) -> Result<(), Refusal> {
    for proc in procs {
        push_number(out, u64::from(proc.rank.number()))?;
    }
    Ok(())
}

// The ranks of those that were gone from the fence.
fn push_gone(out: &mut Vec<u8>, release: &Release) -> Result<(), Refusal> {
    match release {
        Release::Released(_, gone) => push_ranks(out, gone),
        _ => Err(Refusal::NotFound),
    }
}

impl<R: Wait + Send + Drop> Program for Fencing<R> {
    fn run(
        &mut self,
        client: &mut Client<'_>,
        procs: &[Proc],
        out: &mut Vec<u8>,
    ) -> Result<(), Refusal> {
        let release = client.fence(&self.rt, procs, false)?;
        push_gone(out, &release)
    }
}

/// A client that reports each reply of its node, as a letter and a number: the commit's number, the fence's instance as it is entered
/// and left, and the number that it finds. Twice it puts, under another key each time, meets all, and asks for what the other put.
#[derive(Drop)]
pub struct Reporting<R: Wait> {
    pub rt: R,
    pub alloc: Global,
    pub is_first: bool,
}

/// The letter and the number, on a line.
pub fn push_line(out: &mut Vec<u8>, letter: u8, number: u64) -> Result<(), Refusal> {
    out.push(letter)?;
    push_number(out, number)?;
    out.push(b'\n')?;
    Ok(())
}

/// The number that the value is; 0 where it is none.
pub fn number_in(value: &Value) -> u64 {
    match value {
        Value::U32(number) => u64::from(*number),
        _ => 0,
    }
}

// Reports the instance of the fence that was left.
fn push_left(out: &mut Vec<u8>, release: &Release) -> Result<(), Refusal> {
    match release {
        Release::Released(instance, _) => push_line(out, b'l', *instance),
        _ => Err(Refusal::NotFound),
    }
}

// Meets all in a fence, which collects data or not, and reports it.
fn meet<R: Wait>(
    rt: &R,
    client: &mut Client<'_>,
    procs: &[Proc],
    collect: bool,
    out: &mut Vec<u8>,
) -> Result<(), Refusal> {
    push_line(out, b'e', client.enter(rt, procs, collect)?)?;
    let release = client.leave(rt)?;
    push_left(out, &release)
}

// Puts the number under the key, for all, commits it, and reports that.
fn commit_number<R: Wait>(
    rt: &R,
    client: &mut Client<'_>,
    key: &Key,
    number: u32,
    out: &mut Vec<u8>,
) -> Result<(), Refusal> {
    client.put(Scope::Global, key.copy()?, Value::U32(number))?;
    push_line(out, b'c', client.commit(rt)?)
}

// Gets the number of that process, and reports it.
fn get_number<R: Wait>(
    rt: &R,
    client: &mut Client<'_>,
    proc: &Proc,
    key: &Key,
    out: &mut Vec<u8>,
) -> Result<(), Refusal> {
    let value = client.get(rt, proc, key)?;
    push_line(out, b'f', number_in(&value))
}

// Puts the number, meets all, and asks for what the other put.
fn exchange<R: Wait>(
    rt: &R,
    client: &mut Client<'_>,
    procs: &[Proc],
    other: &Proc,
    key: &Key,
    number: u32,
    out: &mut Vec<u8>,
) -> Result<(), Refusal> {
    commit_number(rt, client, key, number, out)?;
    meet(rt, client, procs, true, out)?;
    get_number(rt, client, other, key, out)
}

impl<R: Wait> Reporting<R> {
    // The same under the key of that name.
    fn exchange_under(
        &self,
        client: &mut Client<'_>,
        procs: &[Proc],
        other: &Proc,
        name: &[u8],
        number: u32,
        out: &mut Vec<u8>,
    ) -> Result<(), Refusal> {
        let key = Key::read(self.alloc, name)?;
        exchange(&self.rt, client, procs, other, &key, number, out)
    }
}

impl<R: Wait + Send + Drop> Program for Reporting<R> {
    fn run(
        &mut self,
        client: &mut Client<'_>,
        procs: &[Proc],
        out: &mut Vec<u8>,
    ) -> Result<(), Refusal> {
        let (Some(first), Some(second)) = (procs.first(), procs.last()) else {
            return Err(Refusal::BadParam);
        };
        if self.is_first {
            self.exchange_under(client, procs, second, b"a", 10, out)?;
            self.exchange_under(client, procs, second, b"b", 11, out)
        } else {
            self.exchange_under(client, procs, first, b"a", 20, out)?;
            self.exchange_under(client, procs, first, b"b", 21, out)
        }
    }
}

/// One of two clients of two nodes, who meet in fences that collect no data. The first puts a number, and another one once the second
/// got it; the second gets it, and after that twice: as its node knows it, and anew. Each reports as `Reporting` does.
#[derive(Drop)]
pub struct Refreshing<R: Wait> {
    pub rt: R,
    pub alloc: Global,
    pub is_first: bool,
}

// Puts a number, and another one after the second fence.
fn put_twice<R: Wait>(
    rt: &R,
    client: &mut Client<'_>,
    procs: &[Proc],
    key: &Key,
    out: &mut Vec<u8>,
) -> Result<(), Refusal> {
    commit_number(rt, client, key, 10, out)?;
    meet(rt, client, procs, false, out)?;
    meet(rt, client, procs, false, out)?;
    commit_number(rt, client, key, 11, out)?;
    meet(rt, client, procs, false, out)
}

// Gets the number of that process anew, and reports it.
fn get_number_anew<R: Wait>(
    rt: &R,
    client: &mut Client<'_>,
    proc: &Proc,
    key: &Key,
    out: &mut Vec<u8>,
) -> Result<(), Refusal> {
    let value = client.get_refresh(rt, proc, key)?;
    push_line(out, b'f', number_in(&value))
}

// Gets the number of the first client between the fences, and twice after them.
fn get_thrice<R: Wait>(
    rt: &R,
    client: &mut Client<'_>,
    procs: &[Proc],
    first: &Proc,
    key: &Key,
    out: &mut Vec<u8>,
) -> Result<(), Refusal> {
    meet(rt, client, procs, false, out)?;
    get_number(rt, client, first, key, out)?;
    meet(rt, client, procs, false, out)?;
    meet(rt, client, procs, false, out)?;
    get_number(rt, client, first, key, out)?;
    get_number_anew(rt, client, first, key, out)
}

impl<R: Wait + Send + Drop> Program for Refreshing<R> {
    fn run(
        &mut self,
        client: &mut Client<'_>,
        procs: &[Proc],
        out: &mut Vec<u8>,
    ) -> Result<(), Refusal> {
        let Some(first) = procs.first() else {
            return Err(Refusal::BadParam);
        };
        let key = Key::read(self.alloc, b"a")?;
        if self.is_first {
            put_twice(&self.rt, client, procs, &key, out)
        } else {
            get_thrice(&self.rt, client, procs, first, &key, out)
        }
    }
}

/// A client that twice puts a number, meets all, and asks each other client anew for its number. It reports what it is told.
#[derive(Drop)]
pub struct Asking<R: Wait> {
    pub rt: R,
    pub alloc: Global,
}

// Asks each other client anew for its number, and reports it.
fn ask_others<R: Wait>(
    rt: &R,
    client: &mut Client<'_>,
    procs: &[Proc],
    key: &Key,
    out: &mut Vec<u8>,
) -> Result<(), Refusal> {
    for proc in procs {
        if proc != client.proc() {
            get_number_anew(rt, client, proc, key, out)?;
        }
    }
    Ok(())
}

impl<R: Wait + Send + Drop> Program for Asking<R> {
    fn run(
        &mut self,
        client: &mut Client<'_>,
        procs: &[Proc],
        out: &mut Vec<u8>,
    ) -> Result<(), Refusal> {
        let key = Key::read(self.alloc, b"a")?;
        for number in 1..3 {
            commit_number(&self.rt, client, &key, number, out)?;
            meet(&self.rt, client, procs, false, out)?;
            ask_others(&self.rt, client, procs, &key, out)?;
            meet(&self.rt, client, procs, false, out)?;
        }
        Ok(())
    }
}

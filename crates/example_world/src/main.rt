//! A whole program over `World`: two nodes and a process on each, without threads. The program says when each frame arrives.
#![tactic(auto)]

use pmg_get::Mode;
use pmg_jobinfo::Registry;
use pmg_node::Request;
use pmg_scope::Scope;
use pmg_value::{Key, NodeId, Nspace, Proc, Rank, Refusal, Value};
use pmg_world::{Event, World, reply_line};
use std::alloc::{AllocError, Global};
use std::io;
use std::io::Write;

fn main(rt: HostRuntime) -> io::Result<()> {
    match run_group(rt.alloc()) {
        Ok(lines) => io::writer(&rt).write_all(&lines),
        Err(refusal) => println!(rt; "refused {refusal}"),
    }
}

/// Plays the group. Returns a line for the answer of each event.
fn run_group(alloc: Global) -> Result<Vec<u8>, Refusal> {
    let homes = [NodeId::new(0)?, NodeId::new(1)?];
    let mut registry = Registry::new(alloc, &[b"n0", b"n1"])?;
    registry.register(Nspace::read(alloc, b"j")?, &homes)?;
    let mut world = World::new(&registry)?;
    let (zero, one) = (process(alloc, 0)?, process(alloc, 1)?);
    play(&mut world, &zero, &one, &Key::read(alloc, b"port")?)?;
    let mut lines = Vec::new(alloc);
    for told in world.events() {
        lines.extend_from_slice(&reply_line(Vec::new(alloc), false, &told.answer)?)?;
    }
    Ok(lines)
}

/// Process 1 publishes its port, both processes meet in a fence, and process 0 gets the port.
fn play(world: &mut World, zero: &Proc, one: &Proc, port: &Key) -> Result<(), AllocError> {
    let alloc = world.registry().allocator();
    world.step(Event::Put(one.copy()?, Scope::Global, port.copy()?, Value::U32(40_001)))?;
    world.step(Event::Commit(1, one.copy()?))?;
    world.step(Event::Request(0, Request::Enter(zero.copy()?, Vec::new(alloc), true)))?;
    world.step(Event::Request(1, Request::Enter(one.copy()?, Vec::new(alloc), true)))?;
    world.step(Event::Request(0, Request::Leave(zero.copy()?)))?;
    for number in 1..=world.sent().len() as u64 {
        world.step(Event::Deliver(number))?;
    }
    world.step(Event::Request(0, Request::Leave(zero.copy()?)))?;
    let get = Request::Ask(Mode::Now, zero.copy()?, one.copy()?, port.copy()?);
    world.step(Event::Request(0, get))
}

/// The process of namespace `j` and that rank.
fn process(alloc: Global, rank: u32) -> Result<Proc, Refusal> {
    Ok(Proc::new(Nspace::read(alloc, b"j")?, Rank::new(rank)))
}

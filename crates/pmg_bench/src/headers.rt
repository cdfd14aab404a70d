use crate::processes::{process, processes};
use pmg_frame::{FenceName, Frame, Header, Local, Signature, State, Stream};
use pmg_jobinfo::Registry;
use pmg_node::{Act, Server};
use pmg_node_model::Sent;
use pmg_value::{NodeId, Nspace, Refusal};
use std::alloc::Global;
use std::collections::VecDeque;

/// The participants of each fence: the participants of the header, with ranks 1 to 4095 of one namespace, each entered at one level, and
/// one at the receiving node.
const LOCALS: u32 = 4096;

/// The work for each header.
#[derive(Clone, Copy, PartialEq)]
pub enum Way {
    /// It is written as bytes.
    Written,
    /// Its bytes are read.
    Read,
    /// Its bytes are read, and it is delivered at a node, which learns the fence by it and forgets the one before the last.
    Delivered,
}

/// Does the work with so many headers, in that version of frames, and returns their number.
pub fn run(alloc: Global, way: Way, version: u8, count: u64) -> Result<u64, Refusal> {
    match way {
        Way::Written => write_all(alloc, version, count),
        Way::Read => read_all(alloc, version, count),
        Way::Delivered => deliver_all(alloc, version, count),
    }
}

/// Makes the header that node 1 sends of the instance of that number: with all participants except the first, which is at home at node 0.
fn header(alloc: Global, signature: &Signature, instance: u64) -> Result<Header, Refusal> {
    let name = FenceName::new(signature.copy()?, instance)?;
    let mut locals = Vec::new(alloc);
    for rank in 1..LOCALS {
        let proc = process(alloc, rank)?;
        let state = State::Entered;
        locals.push(Local {
            proc,
            state,
            level: 1,
        })?;
    }
    Header::new(NodeId::new(1)?, name, locals)
}

/// Writes one header as often as the count says.
fn write_all(alloc: Global, version: u8, count: u64) -> Result<u64, Refusal> {
    let signature = Signature::new(processes(alloc, LOCALS)?, true)?;
    let frame = Frame::Header(header(alloc, &signature, 1)?);
    for _ in 0..count {
        let _bytes = frame.encode_as(alloc, version)?;
    }
    Ok(count)
}

/// Reads one header as often as the count says.
fn read_all(alloc: Global, version: u8, count: u64) -> Result<u64, Refusal> {
    let signature = Signature::new(processes(alloc, LOCALS)?, true)?;
    let frame = Frame::Header(header(alloc, &signature, 1)?);
    let bytes = frame.encode_as(alloc, version)?;
    let mut read = 0_u64;
    for _ in 0..count {
        let fed = Stream::new(alloc).feed(bytes.as_slice())?;
        read = read.wrapping_add(fed.frames.len() as u64);
    }
    Ok(read)
}

/// Makes the registry of two nodes: the first process is at home at node 0, the others are at node 1.
fn registry(alloc: Global) -> Result<Registry, Refusal> {
    let names: [&[u8]; 2] = [b"n0", b"n1"];
    let mut homes = Vec::new(alloc);
    for rank in 0..LOCALS {
        homes.push(NodeId::new(u32::from(rank > 0))?)?;
    }
    let mut registry = Registry::new(alloc, &names)?;
    registry.register(Nspace::read(alloc, b"j")?, &homes)?;
    Ok(registry)
}

/// Makes the node 0 of the group.
fn told_node(alloc: Global) -> Result<Server, Refusal> {
    let node = NodeId::new(0)?;
    let registry = registry(alloc)?;
    if !registry.has_node(node) {
        return Err(Refusal::BadParam);
    }
    Ok(Server::new(node, registry)?)
}

/// Delivers the header of the instance of that number to the node as bytes, and returns the number of frames that it took.
fn tell(
    alloc: Global,
    node: &mut Server,
    signature: &Signature,
    version: u8,
    instance: u64,
) -> Result<u64, Refusal> {
    let bytes = Frame::Header(header(alloc, signature, instance)?).encode_as(alloc, version)?;
    let fed = Stream::new(alloc).feed(bytes.as_slice())?;
    let mut sent: VecDeque<Sent> = VecDeque::new(alloc);
    let mut taken = 0_u64;
    for frame in &fed.frames {
        node.act_into(&Act::Deliver(frame.copy()?), &mut sent)?;
        taken = taken.wrapping_add(1);
    }
    Ok(taken)
}

/// Delivers so many headers, of one instance after another.
fn deliver_all(alloc: Global, version: u8, count: u64) -> Result<u64, Refusal> {
    let signature = Signature::new(processes(alloc, LOCALS)?, true)?;
    let mut node = told_node(alloc)?;
    let mut taken = 0_u64;
    for instance in 1..=count {
        taken = taken.wrapping_add(tell(alloc, &mut node, &signature, version, instance)?);
    }
    Ok(taken)
}

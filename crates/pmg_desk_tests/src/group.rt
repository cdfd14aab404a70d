//! The group of the tests, and what of it they share.
use pmg_desk::Desk;
use pmg_jobinfo::Registry;
use pmg_value::{Key, NodeId, Nspace, Proc, Rank, Refusal, Value};
use std::alloc::Global;
use std::process::Abort;
use std::sync::Wait;

/// A test gives up where a call of it fails, and says this word and the error.
pub(crate) const MEMORY: &str = "memory";

/// The process of namespace j and that rank.
pub(crate) fn process(alloc: Global, rank: u32) -> Result<Proc, Refusal> {
    Ok(Proc::new(Nspace::read(alloc, b"j")?, Rank::new(rank)))
}

/// The key of that name.
pub(crate) fn key(alloc: Global, name: &[u8]) -> Result<Key, Refusal> {
    Key::read(alloc, name)
}

/// The process of namespace j and that rank, which a test has or gives up.
pub(crate) fn proc_of(rt: &impl Abort, alloc: Global, rank: u32) -> Proc {
    process(alloc, rank).expect(rt, MEMORY)
}

/// The key of that name, which a test has or gives up.
pub(crate) fn key_of(rt: &impl Abort, alloc: Global, name: &[u8]) -> Key {
    key(alloc, name).expect(rt, MEMORY)
}

/// The number that the value is, if it is one.
pub(crate) fn number_in(value: Value) -> Option<u32> {
    match &value {
        Value::U32(number) => Some(*number),
        _ => None,
    }
}

/// Refused as NoMemory where one of these calls was.
pub(crate) fn check_memory(refusals: &[Option<Refusal>]) -> Result<(), Refusal> {
    for refusal in refusals {
        if *refusal == Some(Refusal::NoMemory) {
            return Err(Refusal::NoMemory);
        }
    }
    Ok(())
}

/// Requires that a call was refused so. A test gives up where it was refused as NoMemory.
pub(crate) fn assert_refused(rt: &impl Abort, refusal: Option<Refusal>, wanted: Refusal) {
    check_memory(&[refusal]).expect(rt, MEMORY);
    assert!(rt; refusal == Some(wanted));
}

// Nodes n0 and n1, and namespace j, whose processes 0 and 1 are at home at node 0, and 2 at node 1.
fn registry(alloc: Global) -> Result<Registry, Refusal> {
    let homes = [NodeId::new(0)?, NodeId::new(0)?, NodeId::new(1)?];
    let names: [&[u8]; 2] = [b"n0", b"n1"];
    let mut registry = Registry::new(alloc, &names)?;
    registry.register(Nspace::read(alloc, b"j")?, &homes)?;
    Ok(registry)
}

/// The desk of that node. The group has nodes n0 and n1, and namespace j, whose processes 0 and 1 are at home at node 0, and 2 at node 1.
pub(crate) fn desk<R: Wait>(rt: &R, alloc: Global, node: u32) -> Result<Desk, Refusal> {
    let id = NodeId::new(node)?;
    let registry = registry(alloc)?;
    if !registry.has_node(id) {
        return Err(Refusal::BadParam);
    }
    Desk::new(rt, id, registry)
}

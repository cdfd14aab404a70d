use pmg_desk::{Client, Desk};
use pmg_jobinfo::Registry;
use pmg_scope::Scope;
use pmg_value::{Key, NodeId, Nspace, Proc, Rank, Refusal, Value};
use std::alloc::Global;
use std::sync::Wait;

/// The number of processes that are read, with one key each, at home at one node.
const PROCESSES: u32 = 100;

/// Reads the addresses of all processes in turn, by one client, so often and without a wait. Returns the number of reads that found the
/// value.
pub fn read_now<R: Wait>(rt: &R, alloc: Global, count: u64) -> Result<u64, Refusal> {
    let id = NodeId::new(0)?;
    let registry = registry(alloc, id)?;
    if !registry.has_node(id) {
        return Err(Refusal::BadParam);
    }
    let desk = Desk::new(rt, id, registry)?;
    let found = found_at(rt, alloc, &desk, count);
    desk.into_journal(rt);
    found
}

/// Makes a group of one node, at which all processes are at home.
fn registry(alloc: Global, id: NodeId) -> Result<Registry, Refusal> {
    let names: [&[u8]; 1] = [b"n0"];
    let mut homes = Vec::new(alloc);
    for _ in 0..PROCESSES {
        homes.push(id)?;
    }
    let mut registry = Registry::new(alloc, &names)?;
    registry.register(Nspace::read(alloc, b"job")?, &homes)?;
    Ok(registry)
}

/// Puts and commits the addresses of all processes, and then reads for process 0.
fn found_at<R: Wait>(rt: &R, alloc: Global, desk: &Desk, count: u64) -> Result<u64, Refusal> {
    let key = Key::read(alloc, b"addr")?;
    let mut procs = Vec::new(alloc);
    let mut clients = Vec::new(alloc);
    for rank in 0..PROCESSES {
        let proc = Proc::new(Nspace::read(alloc, b"job")?, Rank::new(rank));
        let mut client = desk.client(rt, &proc)?;
        put_address(rt, alloc, &mut client, &key)?;
        clients.push(client)?;
        procs.push(proc)?;
    }
    match clients.first_mut() {
        Some(client) => count_found(client, &procs, &key, count),
        None => Ok(0),
    }
}

/// Puts the client's address and commits it.
fn put_address<R: Wait>(
    rt: &R,
    alloc: Global,
    client: &mut Client<'_>,
    key: &Key,
) -> Result<(), Refusal> {
    let address = Value::string(alloc, b"tcp://10.0.0.1:40000")?;
    client.put(Scope::Global, key.copy()?, address)?;
    client.commit(rt)?;
    Ok(())
}

/// Reads so often the key of one process after another, and counts the values that were found.
fn count_found(
    client: &mut Client<'_>,
    procs: &[Proc],
    key: &Key,
    count: u64,
) -> Result<u64, Refusal> {
    let mut found = 0_u64;
    for number in 0..count {
        if let Some(proc) = procs.get((number % u64::from(PROCESSES)) as usize) {
            found = found.wrapping_add(u64::from(client.get_now(proc, key).is_ok()));
        }
    }
    Ok(found)
}

use pmg_commit::{Piece, PieceEntry};
use pmg_publish::{Publisher, Viewer, publisher};
use pmg_store::Board;
use pmg_value::{Key, Nspace, Proc, Rank, Refusal, Value};
use std::alloc::{AllocError, Global};
use std::sync::{Mutex, Wait};

/// The number of processes that are read, with one key each.
const PROCESSES: u32 = 100;

/// The input of the reads: a key, the processes, and the pieces with their values.
struct Asked {
    key: Key,
    procs: Vec<Proc>,
    pieces: Vec<Piece>,
}

impl Drop for Asked {
    fn drop(self) {
        let Self { key, procs, pieces } = self;
    }
}

/// Reads the published board so often, by one viewer. Returns the number of reads that found the value.
pub fn read_published<R: Wait>(rt: &R, alloc: Global, count: u64) -> Result<u64, Refusal> {
    let asked = make_asked(alloc)?;
    let (mut publisher, mut viewers) = publisher(rt, alloc, 1)?;
    let found = match viewers.pop() {
        Some(viewer) => published_found(rt, alloc, &mut publisher, viewer, &asked, count),
        None => Ok(0),
    };
    publisher.close(rt);
    found
}

/// Publishes the pieces, and then reads.
fn published_found<R: Wait>(
    rt: &R,
    alloc: Global,
    publisher: &mut Publisher,
    mut viewer: Viewer,
    asked: &Asked,
    count: u64,
) -> Result<u64, Refusal> {
    let near = copies_of(alloc, &asked.pieces)?;
    let far = copies_of(alloc, &asked.pieces)?;
    publisher.publish(rt, near, far)?;
    let mut found = 0_u64;
    for number in 0..count {
        if let Some(proc) = asked.procs.get((number % 100) as usize) {
            let sight = viewer.read(proc, &asked.key)?;
            found = found.wrapping_add(u64::from(sight.far.is_some()));
        }
    }
    Ok(found)
}

/// Returns copies of the pieces, in their order.
fn copies_of(alloc: Global, pieces: &[Piece]) -> Result<Vec<Piece>, AllocError> {
    let mut copies = Vec::with_capacity(alloc, pieces.len())?;
    for piece in pieces {
        copies.push(piece.copy()?)?;
    }
    Ok(copies)
}

/// Reads a board under a lock so often, with the contents of a viewer's read. Returns the number of reads that found the value.
pub fn read_locked<R: Wait>(rt: &R, alloc: Global, count: u64) -> Result<u64, Refusal> {
    let asked = make_asked(alloc)?;
    let mut board = Board::new(alloc);
    board.absorb_all(&asked.pieces, &asked.pieces)?;
    let locked = Mutex::new(board);
    let mut found = 0_u64;
    for number in 0..count {
        if let Some(proc) = asked.procs.get((number % 100) as usize) {
            let board = locked.lock(rt);
            found = found.wrapping_add(u64::from(is_found(&board, proc, &asked.key)?));
        }
    }
    Ok(found)
}

/// Copies the contents of a viewer's read, and returns whether there is a far value.
fn is_found(board: &Board, proc: &Proc, key: &Key) -> Result<bool, AllocError> {
    let near = board.near().look(proc, key);
    let far = board.far().look(proc, key);
    let (near_value, far_value) = (copy_of(near.value)?, copy_of(far.value)?);
    Ok(far_value.is_some() && near_value.is_some() && !near.ended && !far.ended)
}

/// Returns a copy of the value, if there is one.
fn copy_of(value: Option<&Value>) -> Result<Option<Value>, AllocError> {
    match value {
        Some(value) => Ok(Some(value.copy()?)),
        None => Ok(None),
    }
}

/// Makes the processes of one namespace, and for each a commit of the key with a string.
fn make_asked(alloc: Global) -> Result<Asked, Refusal> {
    let mut asked = Asked {
        key: Key::read(alloc, b"addr")?,
        procs: Vec::new(alloc),
        pieces: Vec::new(alloc),
    };
    for rank in 0..PROCESSES {
        let proc = Proc::new(Nspace::read(alloc, b"job")?, Rank::new(rank));
        asked.pieces.push(piece_of(alloc, &proc, &asked.key)?)?;
        asked.procs.push(proc)?;
    }
    Ok(asked)
}

/// Makes a commit of the process, of the key with a string.
fn piece_of(alloc: Global, proc: &Proc, key: &Key) -> Result<Piece, Refusal> {
    let value = Value::string(alloc, b"tcp://10.0.0.1:40000")?;
    let key = key.copy()?;
    let mut entries = Vec::new(alloc);
    entries.push(PieceEntry {
        key,
        number: 1,
        value,
    })?;
    Piece::new(proc.copy()?, 0, 1, entries)
}

//! The slow program that tests compare lanes and stores with: a plain list of pieces.
use crate::tests::making::{MEMORY, proc, small};
use pmg_commit::{Piece, best_of};
use pmg_value::{Key, Proc};
use std::alloc::Global;
use std::process::Abort;

/// The pieces that were taken, in the order in which they came, of these processes and keys.
#[derive(Drop)]
pub struct Plain {
    pub procs: Vec<Proc>,
    pub keys: Vec<Key>,
    pieces: Vec<Piece>,
}

impl Plain {
    /// A list of no pieces, of processes 0 to 3 of j and the keys a, b and c.
    pub fn new(rt: &impl Abort, alloc: Global) -> Plain {
        let mut procs = Vec::new(alloc);
        for rank in 0..4 {
            let proc = proc(alloc, rank).expect(rt, MEMORY);
            procs.push(proc).expect(rt, MEMORY);
        }
        let mut keys = Vec::new(alloc);
        for name in [b"a", b"b", b"c"] {
            let key = Key::read(alloc, name).expect(rt, MEMORY);
            keys.push(key).expect(rt, MEMORY);
        }
        Plain {
            procs,
            keys,
            pieces: Vec::new(alloc),
        }
    }

    /// Takes the piece.
    pub fn absorb(&mut self, rt: &impl Abort, piece: Piece) {
        self.pieces.push(piece).expect(rt, MEMORY);
    }

    /// Whether a piece has the commit of that number of the process.
    pub fn taken(&self, proc: &Proc, n: u64) -> bool {
        for piece in &self.pieces {
            if proc.cmp(piece.proc()).is_eq() && piece.from() < n && n <= piece.to() {
                return true;
            }
        }
        false
    }

    /// How far the pieces go from the process's first commit without a gap.
    pub fn level(&self, proc: &Proc) -> u64 {
        let mut level = 0;
        for _ in 0..self.pieces.len() {
            for piece in &self.pieces {
                if proc.cmp(piece.proc()).is_eq() && piece.from() <= level && level < piece.to() {
                    level = piece.to();
                }
            }
        }
        level
    }

    /// Of the entries up to the level, the latest under the key, which is a small number.
    pub fn read(&self, proc: &Proc, key: &Key) -> Option<u8> {
        let level = self.level(proc);
        let mut best = None;
        for piece in &self.pieces {
            if proc.cmp(piece.proc()).is_eq() {
                best = best_of(piece.entries(), level, key, best);
            }
        }
        match best {
            Some(entry) => small(Some(&entry.value)),
            None => None,
        }
    }
}

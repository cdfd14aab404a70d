//! Processes for tests, and the word with which these give up.
use pmg_value::{Nspace, Proc, Rank};
use std::alloc::Global;
use std::process::Abort;

/// A test gives up where a call of it fails, and says this word and the error.
pub const MEMORY: &str = "memory";

/// The process of that rank of the namespace j.
pub fn process(rt: &impl Abort, alloc: Global, rank: u32) -> Proc {
    let nspace = Nspace::read(alloc, b"j").expect(rt, MEMORY);
    Proc::new(nspace, Rank::new(rank))
}

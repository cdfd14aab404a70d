//! The process and the key that tests read.
use pmg_value::{Key, Nspace, Proc, Rank, Refusal};
use std::alloc::Global;

/// A test gives up where a call of it fails, and says this word and the error.
pub(crate) const MEMORY: &str = "memory";

/// The process j 0.
pub(crate) fn process(alloc: Global) -> Result<Proc, Refusal> {
    Ok(Proc::new(Nspace::read(alloc, b"j")?, Rank::new(0)))
}

/// The key a.
pub(crate) fn key(alloc: Global) -> Result<Key, Refusal> {
    Key::read(alloc, b"a")
}

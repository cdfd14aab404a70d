//! How tests give up.
use pmg_value::Refusal;
use std::process::Abort;

/// A test gives up where a call of it fails, and says this word and the error.
pub(crate) const MEMORY: &str = "memory";

/// Gives up as NoMemory, where memory was wanted and not given.
pub(crate) fn give_up_where(rt: &impl Abort, lacks_memory: bool) {
    let answer = if lacks_memory {
        Err(Refusal::NoMemory)
    } else {
        Ok(())
    };
    answer.expect(rt, MEMORY);
}

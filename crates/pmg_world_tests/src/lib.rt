//! Tests of nodes and worlds, from without: by acts and events that are written by hand. What scripts are replied is shown by the
//! examples, and what is written where a reader or a writer fails by `hostile/run`.
//!
//! A test in which an allocation fails passes, or ends with NoMemory, and with nothing else.
#![tactic(auto)]

#[cfg(test)]
mod tests;

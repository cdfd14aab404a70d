//! Tests of fences, gets and requests for commits, from without.
//! Where an allocation fails, a test gives up with NoMemory, and with nothing else.
#![tactic(auto)]

#[cfg(test)]
mod tests;

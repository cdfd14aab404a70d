//! Tests of values, texts of refusals, and joins, from without.
//! Where an allocation fails, a test ends with NoMemory, and with nothing else.
#![tactic(auto)]

#[cfg(test)]
mod tests;

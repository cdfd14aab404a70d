//! Tests of published stores, from without.
#![tactic(auto)]

#[cfg(test)]
mod tests;

//! Tests of audits: of journals and transcripts of two nodes, as they happened and with one thing changed.
#![tactic(auto)]

#[cfg(test)]
mod tests;

//! Scopes of puts, the cache of a client's puts, and the puts that a script of calls seals for each reach.
#![tactic(auto)]

mod batch;
mod cache;
mod laws;
mod scope;
mod sizes;
mod table;
mod tables;

pub use batch::Batch;
pub use cache::Cache;
pub use laws::{cache_rules, script_examples, script_rules};
pub use scope::{Reach, Scope, includes};
pub use sizes::{MAX_CACHE_SIZE, MAX_KEYS, row_size, size_with_key};

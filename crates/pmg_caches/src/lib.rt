//! The uncommitted puts of clients, and gets of a client's own keys.
#![tactic(auto)]

mod caches;
mod own;
mod putting;

pub use caches::Caches;
pub use own::{is_own, own_get, own_key};
pub use putting::{is_bad_put, put_at};

//! What the tests share.

/// A test gives up where a call of it fails, and says this word and the error.
pub(crate) const MEMORY: &str = "memory";

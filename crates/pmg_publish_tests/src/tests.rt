//! The tests, and what they share.
mod making;
mod published;

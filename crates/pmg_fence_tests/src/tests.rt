//! The tests, and what they share.
mod fences;
mod gets;
mod making;
mod requests;

//! The tests, and what they share.
mod accounts;
mod asked_again;
mod audits;
mod changes;
mod exchange;
mod fences;
mod gets;
mod refreshing;
mod words;

//! The tests, and what they share.
mod caches;
mod homes;
mod pieces;
mod sealers;
mod sets;
mod steps;
mod words;
